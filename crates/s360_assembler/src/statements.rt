//! What a line says.

ghost use Rattle.std.specs.Prelude.{◌≡◌, ◌≤◌, ◌==◌, ◌&&◌, ◌||◌, length, option_map, OnOk};
ghost use Rattle.std.specs.List.{before_first, after_first};
ghost use Rattle.s360_assembler.specs.Statements.{mistake, count_of, is_comma, word_statement, any_word_statement, pointer_in};
ghost use Rattle.s360_assembler.specs.Statements.{constant_statement, load_statement};
ghost use Rattle.s360_assembler.specs.Statements.{area_statement, origin_statement, event_statement, storage_statement};
ghost use Rattle.s360_assembler.specs.Statements.{named_statement, label_in, statement_of};
ghost use Rattle.s360_deck.specs.Deck.{name_of, is_comment};

use crate::constants::{Boundary, area_of, boundary_of_unit, constant_of, unit_of};
use crate::fault::{Cause, Mistake};
use crate::fields::{Fields, fields_of, position_of};
use crate::files::{LoadableFile, bytes_at, file_name_of, place_named};
use crate::numbers::{Address, address_of, flags_of, number_to};
use arrayvec::ArrayVec;
use s360_deck::{EventName, event_name, number};
use s360_explain::code_named;

/// The most bytes of a line.
const LINE_LENGTH: usize = 512;

/// A channel command word as operands say it.
#[derive(Clone, Copy)]
pub struct Word {
    /// The command code.
    pub code: u8,
    /// The data address, or where a transfer in channel goes.
    pub address: Address,
    /// The flags.
    pub flags: u8,
    /// The count.
    pub count: u16,
}

/// What a line says.
#[derive(Drop)]
pub enum Statement {
    /// Nothing: it is empty, or a comment.
    Nothing,
    /// The statements behind it stand from here on.
    Origin(Address),
    /// On this boundary so many bytes of storage are passed over.
    Reserve(Boundary, u32),
    /// On this boundary these bytes stand in storage.
    Constant(Boundary, ArrayVec<u8, 128>),
    /// An address stands in storage, in four bytes.
    Pointer(Address),
    /// A channel command word stands in storage.
    Word(Word),
    /// The bytes of the file at this place of those that are given stand in storage, and so many they are.
    Load(usize, usize),
    /// An event happens that is written as in a deck.
    Event,
    /// An event happens, with this address of storage.
    EventAt(Address),
}

// A mistake.
fn wrong(at: usize, cause: Cause) -> Result<Statement, Mistake>
    requires { at ≤ 4096 }
    ensures { result ≡ mistake at cause }
{
    Err(Mistake {
        column: at + 1,
        cause,
    })
}

// What stands before and behind the first comma, or all and nothing where there is none.
fn split_at_comma(text: &[u8]) -> (&[u8], &[u8])
    ensures before { result.0.now ≡ before_first is_comma text.now }
    ensures after { result.1.now ≡ after_first is_comma text.now }
{
    match position_of(b',', text) {
        Some(at) => (&text[..at], &text[at + 1..]),
        None => (text, &text[text.len()..]),
    }
}

// The count, which a Transfer In Channel need not have.
fn count_of(code: u8, text: &[u8]) -> Option<u16>
    ensures { result ≡ count_of code text.now }
{
    if text.is_empty() && code % 16 == 8 {
        return Some(0);
    }
    Some(number_to(65_535, text)? as u16)
}

// Address, flags and count of a word with this code.
fn word_statement(code: u8, at: usize, text: &[u8]) -> Result<Statement, Mistake>
    requires place { at ≤ 1025 }
    requires short { length text.now ≤ 512 }
    ensures { result ≡ word_statement code at text.now }
{
    let (first, behind) = split_at_comma(text);
    let (second, third) = split_at_comma(behind);
    let Some(address) = address_of(first) else {
        return wrong(at, Cause::Address);
    };
    let Some(flags) = flags_of(second) else {
        return wrong(at + first.len() + 1, Cause::Flags);
    };
    let Some(count) = count_of(code, third) else {
        return wrong(at + first.len() + second.len() + 2, Cause::Count);
    };
    Ok(Statement::Word(Word {
        code,
        address,
        flags,
        count,
    }))
}

// Code, address, flags and count.
fn any_word_statement(at: usize, text: &[u8]) -> Result<Statement, Mistake>
    requires place { at ≤ 512 }
    requires short { length text.now ≤ 512 }
    ensures { result ≡ any_word_statement at text.now }
{
    let (first, behind) = split_at_comma(text);
    match number_to(255, first) {
        Some(code) => word_statement(code as u8, at + first.len() + 1, behind),
        None => wrong(at, Cause::Code),
    }
}

// What stands in the brackets of an address constant, as A(START).
fn pointer_in(text: &[u8]) -> Option<&[u8]>
    ensures { option_map (λ inner. inner.now) result ≡ pointer_in text.now }
{
    match text {
        [b'A', b'(', address @ .., b')'] => Some(address),
        _ => None,
    }
}

// A constant, or an address constant.
fn constant_statement(at: usize, text: &[u8]) -> Result<Statement, Mistake>
    requires { at ≤ 512 }
    ensures { result ≡ constant_statement at text.now }
{
    if let Some(address) = pointer_in(text) {
        return match address_of(address) {
            Some(address) => Ok(Statement::Pointer(address)),
            None => wrong(at, Cause::Address),
        };
    }
    match constant_of(text) {
        Some(bytes) => Ok(Statement::Constant(boundary_of_unit(unit_of(text)), bytes)),
        None => wrong(at, Cause::Constant),
    }
}

// An area of storage.
fn area_statement(at: usize, text: &[u8]) -> Result<Statement, Mistake>
    requires { at ≤ 512 }
    ensures { result ≡ area_statement at text.now }
{
    match area_of(text) {
        Some(bytes) => Ok(Statement::Reserve(boundary_of_unit(unit_of(text)), bytes)),
        None => wrong(at, Cause::Area),
    }
}

// Where the statements behind it stand.
fn origin_statement(at: usize, text: &[u8]) -> Result<Statement, Mistake>
    requires { at ≤ 512 }
    ensures { result ≡ origin_statement at text.now }
{
    match address_of(text) {
        Some(address) => Ok(Statement::Origin(address)),
        None => wrong(at, Cause::Address),
    }
}

// The bytes of the file of this name.
fn load_statement(files: &[LoadableFile], at: usize, text: &[u8]) -> Result<Statement, Mistake>
    requires { at ≤ 512 }
    ensures { result ≡ load_statement files.now at text.now }
{
    let Some(name) = file_name_of(text) else {
        return wrong(at, Cause::FileName);
    };
    match place_named(files, name) {
        Some(place) => Ok(Statement::Load(place, bytes_at(files, place).len())),
        None => wrong(at, Cause::Unread),
    }
}

// An event.
fn event_statement(name: EventName, at: usize, text: &[u8]) -> Result<Statement, Mistake>
    requires { at ≤ 512 }
    ensures { result ≡ event_statement name at text.now }
{
    let has_address = matches!(name, EventName::Store | EventName::Key | EventName::Show);
    if !has_address || number(text, 16, 1, 6).is_some() {
        return Ok(Statement::Event);
    }
    match address_of(text) {
        Some(address) => Ok(Statement::EventAt(address)),
        None => wrong(at, Cause::Address),
    }
}

// What an operation says of its operands.
fn named_statement(files: &[LoadableFile], fields: &Fields) -> Result<Statement, Mistake>
    requires place { fields.now.operands_at ≤ 512 }
    requires operation { fields.now.operation_at ≤ 512 }
    requires short { length fields.now.operands.now ≤ 512 }
    ensures { result ≡ named_statement files.now (name_of fields.now.operation.now) fields.now.operation.now
        fields.now.operation_at fields.now.operands_at fields.now.operands.now }
{
    match event_name(fields.operation) {
        Some(name) => event_statement(name, fields.operands_at, fields.operands),
        None => storage_statement(files, fields),
    }
}

// What an operation says of its operands that is no event.
fn storage_statement(files: &[LoadableFile], fields: &Fields) -> Result<Statement, Mistake>
    requires place { fields.now.operands_at ≤ 512 }
    requires operation { fields.now.operation_at ≤ 512 }
    requires short { length fields.now.operands.now ≤ 512 }
    ensures { result ≡ storage_statement files.now fields.now.operation.now
        fields.now.operation_at fields.now.operands_at fields.now.operands.now }
{
    let (operation, at) = (fields.operation, fields.operands_at);
    if operation == &b"DC"[..] {
        return constant_statement(at, fields.operands);
    }
    if operation == &b"DS"[..] {
        return area_statement(at, fields.operands);
    }
    if operation == &b"CCW"[..] {
        return any_word_statement(at, fields.operands);
    }
    if operation == &b"ORG"[..] {
        return origin_statement(at, fields.operands);
    }
    if operation == &b"LOAD"[..] {
        return load_statement(files, at, fields.operands);
    }
    match code_named(operation) {
        Some(code) => word_statement(code, at, fields.operands),
        None => wrong(fields.operation_at, Cause::Operation),
    }
}

fn begins_comment(word: &[u8]) -> bool
    ensures { result ≡ is_comment word.now }
{
    match word {
        [first, ..] => *first == b'*',
        [] => false,
    }
}

// Whether a line with these fields is empty or a comment.
fn says_nothing(label: &[u8], operation: &[u8]) -> bool
    ensures { result ≡ (is_comment label.now
        || (length label.now == 0 && (length operation.now == 0 || is_comment operation.now))) }
{
    begins_comment(label)
        || (label.is_empty() && (operation.is_empty() || begins_comment(operation)))
}

/// The label of a line that is no comment.
pub(crate) fn label_in(line: &[u8]) -> &[u8]
    ensures { result.now ≡ label_in line.now }
{
    let label = fields_of(line).label;
    if begins_comment(label) {
        &label[..0]
    } else {
        label
    }
}

/// What a line says, where these files may be loaded.
///
/// # Errors
///
/// It is too long, has no such operation, or an operand is wrong.
pub(crate) fn statement_of(files: &[LoadableFile], line: &[u8]) -> Result<Statement, Mistake>
    ensures value { result ≡ statement_of files.now line.now }
    ensures short { OnOk result (length line.now ≤ 512) }
{
    if line.len() > LINE_LENGTH {
        return wrong(0, Cause::LongLine);
    }
    let fields = fields_of(line);
    if says_nothing(fields.label, fields.operation) {
        return Ok(Statement::Nothing);
    }
    named_statement(files, &fields)
}
