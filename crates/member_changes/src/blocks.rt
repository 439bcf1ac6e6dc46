//! The blocks of a directory with other entries.

ghost use Rattle.std.specs.Prelude.{◌≡◌, ◌*◌, replicate, Ok, IfOk, IfErr};
ghost use Rattle.record_tracks.specs.Entries.{all_contents};
ghost use Rattle.member_changes.specs.Plans.{blocks_with, IsRefused};

use crate::refusal::{MemberRefusal, PlanFault};
use record_tracks::{DIRECTORY_BLOCK, NewEntry, directory_fault, write_directory};
use std::alloc::{AllocError, Global};

// So many blocks of zeros.
fn blank(alloc: Global, blocks: usize) -> Result<Vec<u8>, AllocError>
    ensures { IfOk result (λ directory. directory.items ≡ replicate (blocks * 264) 0) }
{
    match blocks.checked_mul(DIRECTORY_BLOCK) {
        Some(size) => vec![in alloc; 0; size],
        None => Err(AllocError),
    }
}

/// The blocks of a directory with these entries, one after another: 8 bytes of a key and 256 bytes of data each.
pub(crate) fn blocks_with(
    alloc: Global,
    entries: &[NewEntry],
    blocks: usize,
) -> Result<Vec<u8>, PlanFault>
    ensures made { IfOk result (λ directory. blocks_with blocks (all_contents entries.now) ≡ Ok directory.items) }
    ensures refused { IfErr result (λ e. IsRefused e (blocks_with blocks (all_contents entries.now))) }
{
    if let Some(fault) = directory_fault(entries, blocks) {
        return Err(PlanFault::Refused(MemberRefusal::Directory(fault)));
    }
    let mut directory = blank(alloc, blocks)?;
    write_directory(&mut directory, entries);
    Ok(directory)
}
