//! The records of a library.

ghost use Rattle.std.specs.Prelude.{◌≡◌, ◌<◌, ◌/◌, ◌++◌, ◌∷◌, [], length, IfOk, All};
ghost use Rattle.ckd_track.specs.declared.model.DriveModel.{DriveModel};
ghost use Rattle.record_tracks.specs.Records.{areas_of, all_areas, RecordGoesOn};
ghost use Rattle.record_tracks.specs.Library.{directory_area, directory_areas, member_areas, members_areas, library_areas, MemberGoesOn};
ghost use Rattle.record_tracks.specs.LibraryRead.{IsDirectoryRead, AreMembersRead};

use crate::libraries::NewMember;
use crate::{DIRECTORY_BLOCK, NewRecord};
use std::alloc::{AllocError, Global};

/// What an end of file is: a record without key and data.
const END_OF_FILE: NewRecord<'static> = NewRecord {
    key: &[],
    bytes: &[],
};

// One record more.
fn push<'a>(records: &mut Vec<NewRecord<'a>>, block: NewRecord<'a>) -> Result<(), AllocError>
    ensures { IfOk result (λ _. all_areas records.new.items ≡ all_areas records.old.items ++ areas_of block.entry ∷ []) }
{
    match records.push(block) {
        Ok(()) => Ok(()),
        Err(_) => Err(AllocError),
    }
}

// Block k of a directory, from 0 on.
fn directory_block<'a>(directory: &'a [u8], k: usize) -> NewRecord<'a>
    requires { k < length directory.now / 264 }
    ensures { areas_of result ≡ directory_area directory.entry.now k }
{
    let start = k * DIRECTORY_BLOCK;
    let block = &directory[start..start + DIRECTORY_BLOCK];
    NewRecord {
        key: &block[..8],
        bytes: &block[8..],
    }
}

// The blocks of a directory.
fn push_directory<'a>(
    records: &mut Vec<NewRecord<'a>>,
    directory: &'a [u8],
) -> Result<(), AllocError>
    ensures { IfOk result (λ _. all_areas records.new.items ≡ all_areas records.old.items ++ directory_areas directory.now) }
{
    for k in 0..directory.len() / DIRECTORY_BLOCK {
        push(records, directory_block(directory, k))?;
    }
    Ok(())
}

// The blocks of a member.
fn push_member<'a>(
    records: &mut Vec<NewRecord<'a>>,
    member: NewMember<'a>,
) -> Result<(), AllocError>
    ensures { IfOk result (λ _. all_areas records.new.items ≡ all_areas records.old.items ++ member_areas member.entry) }
{
    for block in member.records {
        push(records, *block)?;
    }
    Ok(())
}

// The members one behind another, each with an end of file behind it.
fn push_members<'a>(
    records: &mut Vec<NewRecord<'a>>,
    members: &[NewMember<'a>],
) -> Result<(), AllocError>
    ensures { IfOk result (λ _. all_areas records.new.items ≡ all_areas records.old.items ++ members_areas members.now) }
{
    for member in members {
        push_member(records, *member)?;
        push(records, END_OF_FILE)?;
    }
    Ok(())
}

/// All records of a library: the blocks of its directory and an end of file, and those of each member with an end of file behind them. The
/// directory is its blocks one behind another, each with its key of 8 bytes before its 256 bytes of data; bytes behind the last whole
/// block are left out.
///
/// # Errors
///
/// There is no memory for them.
pub fn library_records<'a>(
    alloc: Global,
    directory: &'a [u8],
    members: &[NewMember<'a>],
) -> Result<Vec<NewRecord<'a>>, AllocError>
    ensures records { IfOk result (λ records. all_areas records.items ≡ library_areas directory.now members.now) }
    ensures fit { IfOk result (λ records. (model : DriveModel) → All (MemberGoesOn model) members.now → All (RecordGoesOn model) records.items) }
    ensures directory { IfOk result (λ _. (model : DriveModel) → All (MemberGoesOn model) members.now
        → IsDirectoryRead model directory.now members.now) }
    ensures members { IfOk result (λ _. (model : DriveModel) → All (MemberGoesOn model) members.now
        → AreMembersRead model directory.now members.now) }
{
    let mut records = Vec::new(alloc);
    push_directory(&mut records, directory)?;
    push(&mut records, END_OF_FILE)?;
    push_members(&mut records, members)?;
    Ok(records)
}
