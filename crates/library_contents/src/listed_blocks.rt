//! Blocks of a volume, in memory.

ghost use Rattle.std.specs.Prelude.{◌≡◌, ◌≢◌, IfOk, IfErr};
ghost use Rattle.dasd_volumes.specs.Reading.{IsRead};
ghost use Rattle.dasd_extract.specs.Walk.{wanted};
ghost use Rattle.library_contents.specs.ListedBlocks.{BlocksOf};

use counted_io::Counted;
use dasd_extract::{Source, Stop, extract};
use dasd_volumes::{SlotReader, VolumeFault};
use std::alloc::Global;

/// The bytes of blocks, one behind another, and where the blocks end and why.
#[derive(Drop)]
pub(crate) struct Blocks {
    pub(crate) bytes: Vec<u8>,
    pub(crate) stop: Stop,
}

/// The blocks of a source.
pub(crate) fn read_blocks<V: SlotReader>(
    alloc: Global,
    volume: &mut V,
    source: Source,
) -> Result<Blocks, VolumeFault>
    ensures blocks { IfOk result (BlocksOf (wanted source.entry.form source.entry.extents.now source.entry.start source.entry.tracks)
        (V.volume volume.old)) }
    ensures fault { IfErr result (λ e. e ≢ VolumeFault.Write) }
    ensures volume { IsRead result (V.volume volume.old) (V.volume volume.new) (V.failures volume.old) (V.failures volume.new) }
{
    let mut blocks = Counted::new(Vec::new(alloc));
    let stop = match extract(alloc, volume, &mut blocks, source) {
        Ok(stop) => stop,
        Err(VolumeFault::Store) => return Err(VolumeFault::Store),
        Err(_) => return Err(VolumeFault::OutOfMemory),
    };
    let bytes = blocks.into_inner();
    Ok(Blocks { bytes, stop })
}
