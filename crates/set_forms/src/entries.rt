//! The line of an entry of a directory.

ghost use Rattle.std.specs.Prelude.{◌≡◌, ◌≤◌, ◌∷◌, length, map, option_map, OnOk, IsTrue};
ghost use Rattle.std.specs.Option.{option_copied};
ghost use Rattle.std.specs.Io.KnownBytes.{Appends};
ghost use Rattle.set_forms.specs.Forms.{note_text, spaced, names_text, user_words, user_data_text, named_entry_line, closed};
ghost use Rattle.set_forms.specs.Parsing.{is_note, note_of, note_at, note_added, user_added, added, entry_behind, entry_of, member_read, alias_read, left_by};

use crate::fault::FormLineFault;
use crate::forms::{EntryForm, Note};
use crate::names::member_name;
use crate::numbers::{byte_of, bytes_of, number, three_of};
use arrayvec::{ArrayString, ArrayVec};
use counted_io::{put_bytes, put_decimal, put_hexadecimal};
use std::io;
use std::io::Write;

/// The most notes that an entry has.
const NOTES: usize = 3;

/// The most bytes of user data that an entry has, its notes among them.
const USER_DATA: usize = 62;

/// The most digits of user data.
const DIGITS: usize = 124;

/// The names of an entry's files: its own, and that of the member whose other name it is.
#[derive(Clone, Copy)]
pub(crate) struct Names<'a> {
    pub(crate) name: &'a str,
    pub(crate) member: Option<&'a str>,
}

/// Writes the line of an entry.
pub(crate) fn write_entry<W: Write>(
    writer: &mut W,
    names: Names,
    form: &EntryForm,
) -> io::Result<()>
    ensures { OnOk result (Appends (W.contents writer.old) (W.contents writer.new)
        (named_entry_line names.entry.name.now (option_copied names.entry.member) form.now)) }
{
    write_names(writer, names)?;
    write_user_data(writer, form.notes.as_slice(), form.user.as_slice())
}

// Writes the names of an entry.
fn write_names<W: Write>(writer: &mut W, names: Names) -> io::Result<()>
    ensures { OnOk result (Appends (W.contents writer.old) (W.contents writer.new) (names_text names.entry.name.now (option_copied names.entry.member))) }
{
    let name = names.name;
    match names.member {
        None => write!(writer, "member {name}"),
        Some(member) => write!(writer, "alias {name} {member}"),
    }
}

// Writes the user data of an entry, and ends the line.
fn write_user_data<W: Write>(writer: &mut W, notes: &[Note], user: &[u8]) -> io::Result<()>
    requires { length user.now ≤ 62 }
    ensures { OnOk result (Appends (W.contents writer.old) (W.contents writer.new) (user_data_text notes.now user.now)) }
{
    write_notes(writer, notes)?;
    write_user(writer, user)
}

// Writes notes.
fn write_notes<W: Write>(writer: &mut W, notes: &[Note]) -> io::Result<()>
    ensures { OnOk result (Appends (W.contents writer.old) (W.contents writer.new) (spaced (map note_text notes.now))) }
{
    for note in notes {
        write_note(writer, *note)?;
    }
    Ok(())
}

// Writes a note behind a blank.
fn write_note<W: Write>(writer: &mut W, note: Note) -> io::Result<()>
    ensures { OnOk result (Appends (W.contents writer.old) (W.contents writer.new) (32 ∷ note_text note)) }
{
    let word = note_word(note);
    let word = word.as_str();
    write!(writer, " {word}")
}

// The word of a note.
fn note_word(note: Note) -> ArrayString<32>
    ensures { result.bytes ≡ note_text note }
{
    match note {
        Note::Block(number, byte) => block_word(number, byte),
        Note::Address(address, byte) => address_word(address, byte),
    }
}

// The word of a note that leads to a block.
fn block_word(number: u32, byte: u8) -> ArrayString<32>
    ensures { result.bytes ≡ note_text (Note.Block number byte) }
{
    let mut word = ArrayString::new();
    put_decimal(&mut word, number);
    word.push_str("/");
    put_hexadecimal(&mut word, 2, u32::from(byte));
    word
}

// The word of a note that leads to none.
fn address_word(address: [u8; 3], byte: u8) -> ArrayString<32>
    ensures { result.bytes ≡ note_text (Note.Address address byte) }
{
    let mut word = ArrayString::new();
    word.push_str("@");
    put_bytes(&mut word, &address);
    word.push_str("/");
    put_hexadecimal(&mut word, 2, u32::from(byte));
    word
}

// Writes user data behind a blank, if there are some, and ends the line.
fn write_user<W: Write>(writer: &mut W, user: &[u8]) -> io::Result<()>
    requires { length user.now ≤ 62 }
    ensures { OnOk result (Appends (W.contents writer.old) (W.contents writer.new) (closed (user_words user.now))) }
{
    if user.is_empty() {
        return writeln!(writer);
    }
    let mut digits: ArrayString<DIGITS> = ArrayString::new();
    put_bytes(&mut digits, user);
    let digits = digits.as_str();
    writeln!(writer, " {digits}")
}

// Whether a word is a note.
fn is_note(word: &[u8]) -> bool
    ensures { result ≡ is_note word.now }
{
    word.len() >= 3 && word[word.len() - 3] == b'/'
}

// The note that a word says whose byte is read.
fn note_at(front: &[u8], byte: u8) -> Option<Note>
    ensures { result ≡ note_at front.now byte }
{
    if !front.is_empty() && front[0] == b'@' {
        return Some(Note::Address(three_of(&front[1..])?, byte));
    }
    let number = number(front, u32::MAX)?;
    if number == 0 {
        return None;
    }
    Some(Note::Block(number, byte))
}

// The note that a word says.
fn note_of(word: &[u8]) -> Option<Note>
    requires { IsTrue (is_note word.now) }
    ensures { result ≡ note_of word.now }
{
    let len = word.len();
    let byte = byte_of(word[len - 2], word[len - 1])?;
    note_at(&word[..len - 3], byte)
}

// A note more, where one may stand.
fn add_note(entry: &mut EntryForm, note: Option<Note>) -> Result<(), FormLineFault>
    ensures { left_by result entry.new ≡ note_added entry.old note }
{
    let Some(note) = note else {
        return Err(FormLineFault::Note);
    };
    if entry.notes.len() >= NOTES || entry.user.len() > 0 {
        return Err(FormLineFault::Note);
    }
    entry.notes.push(note);
    Ok(())
}

// User data, where they may stand.
fn add_user(
    entry: &mut EntryForm,
    user: Option<ArrayVec<u8, USER_DATA>>,
) -> Result<(), FormLineFault>
    ensures { left_by result entry.new ≡ user_added entry.old (option_map (λ v. v.items) user) }
{
    let Some(user) = user else {
        return Err(FormLineFault::UserData);
    };
    if entry.user.len() > 0
        || user.len() % 2 != 0
        || 4 * entry.notes.len() + user.len() > USER_DATA
    {
        return Err(FormLineFault::UserData);
    }
    entry.user = user;
    Ok(())
}

// What a word says of an entry's user data.
fn add(entry: &mut EntryForm, word: &[u8]) -> Result<(), FormLineFault>
    ensures { left_by result entry.new ≡ added entry.old word.now }
{
    if is_note(word) {
        return add_note(entry, note_of(word));
    }
    if word.len() > DIGITS {
        return Err(FormLineFault::UserData);
    }
    add_user(entry, bytes_of(word))
}

// What words say of the user data of an entry.
fn with_words(entry: EntryForm, words: &[&[u8]]) -> Result<EntryForm, FormLineFault>
    ensures { result ≡ entry_behind entry (map (λ w. w.now) words.now) }
{
    let mut entry = entry;
    for word in words {
        add(&mut entry, word)?;
    }
    Ok(entry)
}

// An entry without user data.
fn entry_of(name: [u8; 8], member: Option<[u8; 8]>) -> EntryForm
    ensures { result ≡ entry_of name member }
{
    EntryForm {
        name,
        member,
        notes: ArrayVec::new(),
        user: ArrayVec::new(),
    }
}

/// What the words of a member's line say, behind the first one.
pub(crate) fn read_member(words: &[&[u8]]) -> Result<EntryForm, FormLineFault>
    ensures { result ≡ member_read (map (λ w. w.now) words.now) }
{
    let [name, words @ ..] = words else {
        return Err(FormLineFault::Words);
    };
    let name = member_name(name).ok_or(FormLineFault::Name)?;
    with_words(entry_of(name, None), words)
}

/// What the words of the line of another name say, behind the first one.
pub(crate) fn read_alias(words: &[&[u8]]) -> Result<EntryForm, FormLineFault>
    ensures { result ≡ alias_read (map (λ w. w.now) words.now) }
{
    let [name, member, words @ ..] = words else {
        return Err(FormLineFault::Words);
    };
    let name = member_name(name).ok_or(FormLineFault::Name)?;
    let member = member_name(member).ok_or(FormLineFault::Name)?;
    with_words(entry_of(name, Some(member)), words)
}
