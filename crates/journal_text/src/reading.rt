//! Reading a journal.

ghost use Rattle.std.specs.Prelude.{◌≡◌, ◌≤◌, length, take, bytes_eq, IfOk, Ok};
ghost use Rattle.sha2.specs.Sha256.{sha256};
ghost use Rattle.atomic_save.specs.Changes.{note_of};
ghost use Rattle.journal_text.specs.Spelling.{Said, SaidFits, tag, named_of, all_named, all_notes, said_by, spelling};
ghost use Rattle.journal_text.specs.Reading.{Gives, number_at, string_at, file_at, change_at, items_at, body_at, content_of, rest_of, body_in, journal_at};

use crate::faults::JournalFault;
use atomic_save::{Change, FileId, Journal, JournalFile};
use sha2::{Digest, Sha256};
use std::alloc::Global;

fn number_of(bytes: &[u8]) -> Result<(u64, &[u8]), JournalFault>
    ensures { Gives (λ x. (x.0, x.1.now)) result (number_at bytes.now) }
{
    if bytes.len() < 8 {
        return Err(JournalFault::Damaged);
    }
    let (front, rest) = bytes.split_at(8);
    let number = u64::from_be_bytes([
        front[0], front[1], front[2], front[3], front[4], front[5], front[6], front[7],
    ]);
    Ok((number, rest))
}

#[tactic(auto, unfolding(crate::specs::Reading::string_at))]
fn string_of(alloc: Global, bytes: &[u8]) -> Result<(Vec<u8>, &[u8]), JournalFault>
    ensures { Gives (λ x. (x.0.items, x.1.now)) result (string_at bytes.now) }
{
    let (len, rest) = number_of(bytes)?;
    let len = len as usize;
    if rest.len() < len {
        return Err(JournalFault::Damaged);
    }
    let (text, rest) = rest.split_at(len);
    Ok((Vec::from_slice(alloc, text)?, rest))
}

#[tactic(auto, unfolding(crate::specs::Reading::file_at))]
fn file_of(alloc: Global, bytes: &[u8]) -> Result<(JournalFile, &[u8]), JournalFault>
    ensures { Gives (λ x. (named_of x.0, x.1.now)) result (file_at bytes.now) }
{
    let (name, rest) = string_of(alloc, bytes)?;
    let (device, rest) = number_of(rest)?;
    let (inode, rest) = number_of(rest)?;
    let (birth, rest) = number_of(rest)?;
    let (size, rest) = number_of(rest)?;
    let id = FileId {
        device,
        inode,
        birth,
        size,
    };
    Ok((JournalFile { name, id }, rest))
}

#[tactic(auto, unfolding(crate::specs::Reading::change_at))]
fn change_of(alloc: Global, bytes: &[u8]) -> Result<(Change, &[u8]), JournalFault>
    ensures { Gives (λ x. (note_of x.0, x.1.now)) result (change_at bytes.now) }
{
    let (file, rest) = number_of(bytes)?;
    let (at, rest) = number_of(rest)?;
    let (bytes, rest) = string_of(alloc, rest)?;
    let file = file as usize;
    Ok((Change { file, at, bytes }, rest))
}

fn files_in(
    alloc: Global,
    count: u64,
    bytes: &[u8],
) -> Result<(Vec<JournalFile>, &[u8]), JournalFault>
    ensures { Gives (λ x. (all_named x.0.items, x.1.now)) result (items_at file_at count bytes.now) }
{
    let mut files = Vec::new(alloc);
    let mut rest = bytes;
    for _ in 0..count {
        let (file, after) = file_of(alloc, rest)?;
        files.push(file)?;
        rest = after;
    }
    Ok((files, rest))
}

fn changes_in(alloc: Global, count: u64, bytes: &[u8]) -> Result<(Vec<Change>, &[u8]), JournalFault>
    ensures { Gives (λ x. (all_notes x.0.items, x.1.now)) result (items_at change_at count bytes.now) }
{
    let mut changes = Vec::new(alloc);
    let mut rest = bytes;
    for _ in 0..count {
        let (change, after) = change_of(alloc, rest)?;
        changes.push(change)?;
        rest = after;
    }
    Ok((changes, rest))
}

#[tactic(auto, unfolding(crate::specs::Reading::list_at, crate::specs::Reading::body_at))]
fn body_of(alloc: Global, bytes: &[u8]) -> Result<Journal, JournalFault>
    ensures { Gives said_by result (body_at bytes.now) }
{
    let (count, rest) = number_of(bytes)?;
    let (files, rest) = files_in(alloc, count, rest)?;
    let (count, rest) = number_of(rest)?;
    let (changes, rest) = changes_in(alloc, count, rest)?;
    let (more, rest) = string_of(alloc, rest)?;
    if !rest.is_empty() {
        return Err(JournalFault::Damaged);
    }
    Ok(Journal {
        files,
        changes,
        more,
    })
}

fn is_digest(digest: &[u8], bytes: &[u8]) -> bool
    ensures { result ≡ bytes_eq digest.now (sha256 bytes.now) }
{
    digest[..] == Sha256::digest(bytes)[..]
}

// The body, if it is the one that was written.
#[tactic(auto, unfolding(crate::specs::Reading::content_of))]
fn content<'a>(len: u64, digest: &[u8], bytes: &'a [u8]) -> Result<&'a [u8], JournalFault>
    ensures { Gives (λ b. b.now) result (content_of len digest.now bytes.now) }
{
    if (bytes.len() as u64) < len {
        return Err(JournalFault::Truncated);
    }
    if bytes.len() as u64 != len {
        return Err(JournalFault::Damaged);
    }
    if !is_digest(digest, bytes) {
        return Err(JournalFault::Damaged);
    }
    Ok(bytes)
}

#[tactic(auto, unfolding(crate::specs::Reading::rest_of))]
fn rest(bytes: &[u8]) -> Result<&[u8], JournalFault>
    requires { 40 ≤ length bytes.now }
    ensures { Gives (λ b. b.now) result (rest_of bytes.now) }
{
    let (len, sealed) = number_of(bytes)?;
    let (digest, body) = sealed.split_at(32);
    content(len, digest, body)
}

fn has_tag(text: &[u8]) -> bool
    ensures { result ≡ bytes_eq (take 7 text.now) tag }
{
    text.len() >= 7 && text[..7] == b"dasdsav"[..]
}

// The bytes of the body after the head.
#[tactic(auto, unfolding(crate::specs::Reading::body_in))]
fn checked(text: &[u8]) -> Result<&[u8], JournalFault>
    ensures { Gives (λ b. b.now) result (body_in text.now) }
{
    if !has_tag(text) {
        return Err(JournalFault::Foreign);
    }
    if text.len() < 8 {
        return Err(JournalFault::Truncated);
    }
    if text[7] != 1 {
        return Err(JournalFault::Later);
    }
    if text.len() < 48 {
        return Err(JournalFault::Truncated);
    }
    rest(&text[8..])
}

#[tactic(auto, unfolding(crate::specs::Reading::journal_at))]
fn whole(alloc: Global, text: &[u8]) -> Result<Journal, JournalFault>
    ensures { Gives said_by result (journal_at text.now) }
{
    let bytes = checked(text)?;
    body_of(alloc, bytes)
}

/// Reads a journal, all of the bytes.
///
/// # Errors
///
/// There is no memory for it; or the bytes are no journal of this version that is whole, and the fault says which comes first.
pub fn read_journal(alloc: Global, text: &[u8]) -> Result<Journal, JournalFault>
    // What is read is spelled so.
    ensures found { IfOk result (λ j. SaidFits (said_by j) × (text.now ≡ spelling (said_by j))) }
    // What is spelled so is read, unless memory runs out.
    ensures only { (s : Said) → SaidFits s → text.now ≡ spelling s → Gives said_by result (Ok s) }
    // Which fault it is.
    ensures exact { Gives said_by result (journal_at text.now) }
{
    whole(alloc, text)
}
