//! Where blocks end, and whether they may.

ghost use Rattle.std.specs.Prelude.{◌≡◌, ◌≢◌, ◌++◌, Some, OnOk, IfOk, IfErr};
ghost use Rattle.dasd_volumes.specs.Reading.{IsRead};
ghost use Rattle.volume_findings.specs.Data.{EndsAt, ends_well, end_findings};

use crate::findings::{DataFault, DataFinding, push};
use counted_io::Counted;
use dasd_extract::{Cause, ExtractedForm, Source, Stop, extract};
use dasd_volumes::{SlotReader, VolumeFault};
use std::alloc::Global;
use std::io;
use volume_labels::{Extent, RelativeAddress};

/// A data set or a member of one, and whether its blocks need an end of file.
#[derive(Clone, Copy)]
pub(crate) struct Ended {
    pub(crate) data_set: [u8; 44],
    pub(crate) member: Option<[u8; 8]>,
    pub(crate) needs_end: bool,
}

/// Where the blocks from an address on end, and why. No block is kept.
pub(crate) fn end_from<V: SlotReader>(
    alloc: Global,
    volume: &mut V,
    extents: &[Extent],
    start: RelativeAddress,
) -> Result<Stop, VolumeFault>
    ensures stop { IfOk result (EndsAt extents.now start (V.volume volume.old)) }
    ensures fault { IfErr result (λ e. e ≢ VolumeFault.Write) }
    ensures volume { IsRead result (V.volume volume.old) (V.volume volume.new) (V.failures volume.old) (V.failures volume.new) }
{
    let source = Source {
        extents,
        start,
        tracks: u16::MAX,
        form: ExtractedForm::Raw,
    };
    match extract(alloc, volume, &mut Counted::new(io::sink()), source) {
        Ok(stop) => Ok(stop),
        Err(VolumeFault::Store) => Err(VolumeFault::Store),
        Err(_) => Err(VolumeFault::OutOfMemory),
    }
}

// Whether blocks may end so.
fn ends_well(needs_end: bool, cause: Cause) -> bool
    ensures { result ≡ ends_well needs_end cause }
{
    match cause {
        Cause::EndOfFile | Cause::EndBehindAlternates => true,
        Cause::PastExtents | Cause::Outside => !needs_end,
        _ => false,
    }
}

/// The end of blocks is a finding, unless they may end so.
pub(crate) fn add_end(
    found: &mut Vec<DataFinding>,
    ended: Ended,
    stop: Stop,
) -> Result<(), VolumeFault>
    ensures found { OnOk result (found.new.items
        ≡ found.old.items ++ end_findings ended.needs_end ended.data_set ended.member (Some stop)) }
    ensures fault { IfErr result (λ e. e ≡ VolumeFault.OutOfMemory) }
{
    if ends_well(ended.needs_end, stop.cause) {
        return Ok(());
    }
    let Ended {
        data_set,
        member,
        ..
    } = ended;
    let fault = DataFault::Ends(stop);
    push(
        found,
        DataFinding {
            data_set,
            member,
            fault,
        },
    )
}
