//! The hash of what a volume says, and those of its data sets and members.

ghost use Rattle.std.specs.Prelude.{◌≡◌, string_bytes, IfOk, IfErr};
ghost use Rattle.counted_io.specs.Streams.{seen_by};
ghost use Rattle.volume_hash.specs.SetLines.{shown};
ghost use Rattle.dasd_run.specs.Answers.{hashed_path, HashesVolume};
ghost use Rattle.dasd_run.specs.Outside.{Looks};
ghost use Rattle.dasd_run.specs.Printed.{HashesWhole};

use crate::commands::{Ending, worse};
use crate::host::Host;
use crate::printed_paths::{joined, quoted};
use counted_io::Counted;
use dasd_jobs::{Progress, SlotReader, Traces, open_volume};
use dasd_words::{HashedVolume, PrintedVolume};
use program_faults::ProgramFault;
use std::alloc::Global;
use std::io::{Read, Write};
use volume_hash::{HashesForm, print_hashes};

/// Prints the hash of the volume of these files, and those of its data sets and members that are asked for; and says whether something of
/// it is not whole.
///
/// # Errors
///
/// There is no memory, or the files hold no volume, or a track can't be read: nothing is printed. Or a write failed, or the flush, and
/// exactly then it is a write fault.
pub(crate) fn hash_volume<F: Traces, R: Read, W: Write, P: Progress>(
    host: &mut Host<F, R, W, P>,
    asked: &HashedVolume,
) -> Result<Ending, ProgramFault>
    ensures looks { Looks host.old host.new }
    ensures hashes { HashesVolume result asked.now host.old host.new }
{
    let path = path_of(host.alloc, &asked.volume)?;
    let form = HashesForm {
        path: path.as_str(),
        json: asked.volume.json,
        sets: asked.sets,
        members: asked.members,
    };
    let paths = asked.volume.paths.as_slice();
    let mut volume = open_volume(host.alloc, &mut host.files, paths, asked.volume.as_far)?;
    hash_opened(host.alloc, &mut volume, &mut host.writer, form)
}

// The path in the line of a hash.
fn path_of(alloc: Global, asked: &PrintedVolume) -> Result<String, ProgramFault>
    ensures text { IfOk result (λ text. string_bytes text ≡ hashed_path asked.now) }
    ensures fault { IfErr result (λ e. e ≡ ProgramFault.OutOfMemory) }
{
    if asked.json {
        return quoted(alloc, asked.paths.as_slice());
    }
    joined(alloc, asked.paths.as_slice())
}

// Prints the hash of a volume and those that are asked for behind it, and says whether something of it is not whole.
fn hash_opened<V: SlotReader, W: Write>(
    alloc: Global,
    volume: &mut V,
    writer: &mut Counted<W>,
    form: HashesForm,
) -> Result<Ending, ProgramFault>
    ensures { let f = shown form.entry.path.now form.entry.json form.entry.sets form.entry.members in
        HashesWhole result f (V.volume volume.old) (seen_by W.contents writer.old) (seen_by W.contents writer.new) }
{
    let is_whole = print_hashes(alloc, volume, writer, form)?;
    Ok(worse(Ending::Done, !is_whole))
}
