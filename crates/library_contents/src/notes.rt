//! The addresses with which the user data of an entry begin, by the blocks that they lead to.

ghost use Rattle.std.specs.Prelude.{◌≡◌, ◌≢◌, ◌≤◌, ◌+◌, ◌*◌, ◌++◌, ◌∷◌, [], length, IfOk, IfErr};
ghost use Rattle.dasd_volumes.specs.Reading.{IsRead};
ghost use Rattle.library_contents.specs.Blocks.{bytes_in};
ghost use Rattle.library_contents.specs.Notes.{block_bytes, behind_block, block_number, note_of, note_address, IsNote, AreNotes};

use crate::contents::ReadNote;
use crate::members::read_from;
use dasd_volumes::{SlotReader, VolumeFault};
use std::alloc::Global;
use volume_labels::{Extent, RelativeAddress};

/// How many bytes an address in user data takes, with the byte behind it.
pub(crate) const NOTE: usize = 4;

/// How many bytes stand before the key of a block.
const LENGTHS: usize = 4;

/// User data that begin with notes, and the member that these lead into.
#[derive(Clone, Copy)]
pub(crate) struct Noted<'a> {
    /// The extents of the library.
    pub(crate) extents: &'a [Extent],
    /// The blocks of the member.
    pub(crate) member: &'a [u8],
    /// The user data.
    pub(crate) user: &'a [u8],
}

// How many bytes the first of these blocks takes.
fn block_bytes(blocks: &[u8]) -> usize
    requires { 4 ≤ length blocks.now }
    ensures { result ≡ block_bytes blocks.now }
{
    LENGTHS + (usize::from(blocks[1]) + (usize::from(blocks[2]) * 256 + usize::from(blocks[3])))
}

// What is behind the first of these blocks.
fn behind_block<'a>(blocks: &'a [u8]) -> &'a [u8]
    ensures { result.now ≡ behind_block blocks.now }
{
    if blocks.len() < LENGTHS {
        return &[];
    }
    let first = block_bytes(blocks);
    if blocks.len() < first {
        return &[];
    }
    &blocks[first..]
}

// The number of the block of a member from which on its blocks are these.
fn block_number(member: &[u8], blocks: &[u8]) -> Option<usize>
    ensures { result ≡ block_number member.now blocks.now }
{
    if blocks.is_empty() {
        return None;
    }
    let mut rest = member;
    for number in 0..member.len() {
        if rest == blocks {
            return Some(number);
        }
        rest = behind_block(rest);
    }
    None
}

// The note that leads to these blocks.
fn note_of(member: &[u8], count: u8, blocks: Option<Vec<u8>>) -> Option<ReadNote>
    ensures { result ≡ note_of member.now count (bytes_in blocks) }
{
    let Some(blocks) = blocks else {
        return None;
    };
    match block_number(member, blocks.as_slice()) {
        Some(block) => Some(ReadNote { block, count }),
        None => None,
    }
}

// The address of a note.
fn note_address(user: &[u8], at: usize) -> RelativeAddress
    requires { at + 4 ≤ length user.now }
    ensures { result ≡ note_address user.now at }
{
    RelativeAddress {
        track: u16::from(user[at]) * 256 + u16::from(user[at + 1]),
        number: user[at + 2],
    }
}

// A note of user data, if it leads to a block of the member.
fn read_note<V: SlotReader>(
    alloc: Global,
    volume: &mut V,
    noted: Noted,
    k: usize,
) -> Result<Option<ReadNote>, VolumeFault>
    requires { (k + 1) * 4 ≤ length noted.user.now }
    ensures note { IfOk result (IsNote noted.entry.extents.now (V.volume volume.old) noted.entry.member.now noted.entry.user.now k) }
    ensures fault { IfErr result (λ e. e ≢ VolumeFault.Write) }
    ensures volume { IsRead result (V.volume volume.old) (V.volume volume.new) (V.failures volume.old) (V.failures volume.new) }
{
    let at = k * NOTE;
    let count = noted.user[at + 3];
    let start = note_address(noted.user, at);
    match read_from(alloc, volume, noted.extents, start) {
        Ok(blocks) => Ok(note_of(noted.member, count, blocks)),
        Err(fault) => Err(fault),
    }
}

// One note more.
fn push(notes: &mut Vec<ReadNote>, note: ReadNote) -> Result<(), VolumeFault>
    ensures notes { IfOk result (λ _. notes.new.items ≡ notes.old.items ++ note ∷ []) }
    ensures fault { IfErr result (λ e. e ≡ VolumeFault.OutOfMemory) }
{
    match notes.push(note) {
        Ok(()) => Ok(()),
        Err(_) => Err(VolumeFault::OutOfMemory),
    }
}

/// So many notes of user data, if each leads to a block of the member.
pub(crate) fn read_notes<V: SlotReader>(
    alloc: Global,
    volume: &mut V,
    noted: Noted,
    count: u8,
) -> Result<Option<Vec<ReadNote>>, VolumeFault>
    requires { count * 4 ≤ length noted.user.now }
    ensures notes { IfOk result (AreNotes noted.entry.extents.now (V.volume volume.old) noted.entry.member.now noted.entry.user.now count) }
    ensures fault { IfErr result (λ e. e ≢ VolumeFault.Write) }
    ensures volume { IsRead result (V.volume volume.old) (V.volume volume.new) (V.failures volume.old) (V.failures volume.new) }
{
    let mut notes = Vec::new(alloc);
    for k in 0..usize::from(count) {
        match read_note(alloc, volume, noted, k) {
            Ok(Some(note)) => {
                if let Err(fault) = push(&mut notes, note) {
                    return Err(fault);
                }
            }
            Ok(None) => return Ok(None),
            Err(fault) => return Err(fault),
        }
    }
    Ok(Some(notes))
}
