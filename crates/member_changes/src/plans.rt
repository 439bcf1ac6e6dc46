//! What a directory is to have after a change of one of its entries.

ghost use Rattle.std.specs.Prelude.{◌≡◌, Ok, IfOk, IfErr};
ghost use Rattle.record_tracks.specs.Entries.{all_contents};
ghost use Rattle.member_changes.specs.Plans.{plan_of, IsRefused};

use crate::blocks::blocks_with;
use crate::entries::{EntryChange, change_entries, read_entries};
use crate::refusal::{MemberRefusal, PlanFault};
use record_tracks::NewEntry;
use std::alloc::Global;
use volume_labels::DIRECTORY_BLOCK;

/// What a directory is to have.
#[derive(Drop)]
pub struct DirectoryPlan<'a> {
    /// Its entries, in the order of their names.
    pub entries: Vec<NewEntry<'a>>,
    /// Its blocks, one after another: 8 bytes of a key and 256 bytes of data each.
    pub blocks: Vec<u8>,
}

/// What the directory with these blocks, one after another without keys, is to have after a change. It has as many blocks as before, and each
/// entry that is not changed keeps its address, its notes and its user data.
///
/// # Errors
///
/// The first of these, in this order: the blocks can't be told apart as entries; no entry has the name; one has the new name; the blocks can't
/// have the entries that are left, or have no room for them. Or there is no memory.
pub fn plan_change<'a>(
    alloc: Global,
    bytes: &'a [u8],
    change: &EntryChange,
) -> Result<DirectoryPlan<'a>, PlanFault>
    ensures planned { IfOk result (λ plan. plan_of change.now bytes.entry.now
        ≡ Ok (record { entries = all_contents plan.entries.items; blocks = plan.blocks.items })) }
    ensures refused { IfErr result (λ e. IsRefused e (plan_of change.now bytes.entry.now)) }
{
    let Some(old) = read_entries(alloc, bytes)? else {
        return Err(PlanFault::Refused(MemberRefusal::NotWhole));
    };
    let entries = change_entries(alloc, old.as_slice(), change)?;
    let blocks = blocks_with(alloc, entries.as_slice(), bytes.len() / DIRECTORY_BLOCK)?;
    Ok(DirectoryPlan { entries, blocks })
}
