//! A data set that gets another name.

ghost use Rattle.std.specs.Prelude.{◌≡◌};
ghost use Rattle.std.specs.List.{position, list_any};
ghost use Rattle.volume_contents.specs.Sets.{has_name};
ghost use Rattle.volume_changes.specs.Volumes.{said_in, rename_of, rename_at};

use crate::blocks::BlockChange;
use crate::refusal::ChangeRefusal;
use volume_contents::{Block, Contents, is_data_set};
use volume_labels::without_blanks;

// Whether a block is that of a data set with this name, which has blanks behind it or not.
fn has_name(block: &Block, name: &[u8]) -> bool
    ensures { result ≡ has_name name.now block.now }
{
    is_data_set(block.kind) && without_blanks(&block.key) == without_blanks(name)
}

/// Which of the blocks is the first of format 1 with this name, in EBCDIC, with blanks behind it or without.
pub fn find_set(blocks: &[Block], name: &[u8]) -> Option<usize>
    ensures { result ≡ position (has_name name.now) blocks.now }
{
    blocks.iter().position(
        |block: &Block| -> bool
            ensures { result ≡ has_name name.entry.now block.now }
        { has_name(block, name) },
    )
}

// Whether a data set has this name.
fn is_taken(blocks: &[Block], name: &[u8]) -> bool
    ensures { result ≡ list_any (has_name name.now) blocks.now }
{
    blocks.iter().any(
        |block: &Block| -> bool
            ensures { result ≡ has_name name.entry.now block.now }
        { has_name(block, name) },
    )
}

// The change of the first format 1 block with a name, which gets another one.
fn rename_block(blocks: &[Block], old: &[u8], new: [u8; 44]) -> Result<BlockChange, ChangeRefusal>
    ensures { result ≡ rename_at blocks.now new (position (has_name old.now) blocks.now) }
{
    let Some(i) = find_set(blocks, old) else {
        return Err(ChangeRefusal::NoDataSet);
    };
    if is_taken(blocks, &new) {
        return Err(ChangeRefusal::NameTaken);
    }
    let block = blocks[i];
    let bytes = block.bytes;
    Ok(BlockChange {
        block,
        key: new,
        bytes,
    })
}

/// What becomes of a volume on which a data set gets another name: the key of its format 1 block is that. Names are in EBCDIC; `old` has
/// blanks behind it or not. Of several data sets of the old name the first one in the order of the table of contents is changed.
///
/// # Errors
///
/// The volume has no label, no table of contents or no data set of the old name; or one of the new name.
pub fn plan_rename(
    contents: &Contents,
    old: &[u8],
    new: [u8; 44],
) -> Result<BlockChange, ChangeRefusal>
    ensures { result ≡ rename_of (said_in contents.now) old.now new }
{
    if contents.label.is_none() {
        return Err(ChangeRefusal::NoLabel);
    }
    if contents.table.is_none() {
        return Err(ChangeRefusal::NoContents);
    }
    rename_block(contents.found.blocks.as_slice(), old, new)
}
