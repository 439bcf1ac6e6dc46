//! Blocks of a volume that are whole, in memory.

ghost use Rattle.std.specs.Prelude.{◌≡◌, ◌≢◌, IfOk, IfErr};
ghost use Rattle.dasd_volumes.specs.Reading.{IsRead};
ghost use Rattle.dasd_extract.specs.Walk.{wanted};
ghost use Rattle.library_contents.specs.Blocks.{is_end_of_file, IsWhole};

use counted_io::Counted;
use dasd_extract::{Cause, Source, extract};
use dasd_volumes::{SlotReader, VolumeFault};
use std::alloc::Global;

/// The bytes of a source's blocks, one behind another, if an end of file ends them.
pub(crate) fn read_whole<V: SlotReader>(
    alloc: Global,
    volume: &mut V,
    source: Source,
) -> Result<Option<Vec<u8>>, VolumeFault>
    ensures blocks { IfOk result (IsWhole (wanted source.entry.form source.entry.extents.now source.entry.start source.entry.tracks)
        (V.volume volume.old)) }
    ensures fault { IfErr result (λ e. e ≢ VolumeFault.Write) }
    ensures volume { IsRead result (V.volume volume.old) (V.volume volume.new) (V.failures volume.old) (V.failures volume.new) }
{
    let mut blocks = Counted::new(Vec::new(alloc));
    let stop = match extract(alloc, volume, &mut blocks, source) {
        Ok(stop) => stop,
        Err(VolumeFault::Store) => return Err(VolumeFault::Store),
        Err(_) => return Err(VolumeFault::OutOfMemory),
    };
    if is_end_of_file(stop.cause) {
        return Ok(Some(blocks.into_inner()));
    }
    Ok(None)
}

// Whether blocks end with an end of file.
fn is_end_of_file(cause: Cause) -> bool
    ensures { result ≡ is_end_of_file cause }
{
    matches!(cause, Cause::EndOfFile | Cause::EndBehindAlternates)
}
