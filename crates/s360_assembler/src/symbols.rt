//! Symbols, and where statements stand in storage.

ghost use Rattle.std.specs.Prelude.{◌≡◌, ◌≤◌, ◌<◌, ◌+◌, find, IfOk};
ghost use Rattle.std.specs.Str.{bytes_eq};
ghost use Rattle.s360_assembler.specs.Symbols.{address_named, base_value, value_of, boundary_of, size_of, place_on, place_of, end_of};
ghost use Rattle.s360_assembler.specs.Symbols.{location_behind, Defines, Notes};

use crate::constants::Boundary;
use crate::fault::{Cause, Mistake};
use crate::fields::fields_of;
use crate::files::LoadableFile;
use crate::numbers::{Address, Base, is_symbol, padded};
use crate::statements::{Statement, label_in, statement_of};

/// A label, and the address that it stands for.
#[derive(Clone, Copy)]
pub struct Symbol {
    /// The label, with blanks behind it.
    pub name: [u8; 8],
    /// The address.
    pub address: u32,
}

/// The bytes of the largest storage.
const STORAGE: u32 = 16_777_216;

// The first of these symbols that has a name.
fn symbol_named(symbols: &[Symbol], name: [u8; 8]) -> Option<Symbol>
    ensures { result ≡ find (λ s. bytes_eq s.name name) symbols.now }
{
    symbols.iter().copied().find(
        |symbol: &Symbol| -> bool
            ensures { result ≡ bytes_eq symbol.now.name name }
        { symbol.name == name },
    )
}

// The address of a name.
fn address_named(symbols: &[Symbol], name: [u8; 8]) -> Option<u32>
    ensures { result ≡ address_named symbols.now name }
{
    Some(symbol_named(symbols, name)?.address)
}

// What an address is counted from, at this location.
fn base_value(symbols: &[Symbol], here: u32, base: Base) -> Option<u32>
    ensures { result ≡ base_value symbols.now here base }
{
    match base {
        Base::Nothing => Some(0),
        Base::Here => Some(here),
        Base::Label(name) => address_named(symbols, name),
    }
}

/// The value of an address, at this location.
pub(crate) fn value_of(symbols: &[Symbol], here: u32, address: &Address) -> Result<u32, Cause>
    ensures value { result ≡ value_of symbols.now here address.now }
    ensures bound { IfOk result (λ value. value < 16777216) }
{
    let Some(value) = base_value(symbols, here, address.base) else {
        return Err(Cause::Undefined);
    };
    let value = u64::from(value) + u64::from(address.plus);
    let minus = u64::from(address.minus);
    if value < minus || u64::from(STORAGE) <= value - minus {
        return Err(Cause::Outside);
    }
    Ok((value - minus) as u32)
}

// The boundary that a statement stands on.
fn boundary_of(statement: &Statement) -> Boundary
    ensures { result ≡ boundary_of statement.now }
{
    match statement {
        Statement::Reserve(boundary, _) | Statement::Constant(boundary, _) => *boundary,
        Statement::Pointer(_) => Boundary::Fullword,
        Statement::Word(_) => Boundary::Doubleword,
        _ => Boundary::Byte,
    }
}

// The bytes that a statement takes.
fn size_of(statement: &Statement) -> u64
    ensures { result ≡ size_of statement.now }
{
    match statement {
        Statement::Reserve(_, bytes) => u64::from(*bytes),
        Statement::Constant(_, bytes) => bytes.len() as u64,
        Statement::Pointer(_) => 4,
        Statement::Word(_) => 8,
        Statement::Load(_, size) => *size as u64,
        _ => 0,
    }
}

/// Where a statement stands that may stand from here on.
pub(crate) fn place_of(here: u32, statement: &Statement) -> u32
    requires { here ≤ 16777216 }
    ensures value { result ≡ place_of here statement.now }
    ensures bound { result ≤ 16777216 + 7 }
{
    place_on(boundary_of(statement), here)
}

// The first place of a boundary from here on.
fn place_on(boundary: Boundary, here: u32) -> u32
    requires { here ≤ 16777216 }
    ensures value { result ≡ place_on boundary here }
    ensures bound { result ≤ 16777216 + 7 }
{
    let bytes = boundary.bytes();
    (here + (bytes - 1)) / bytes * bytes
}

/// The location behind a statement.
///
/// # Errors
///
/// An origin that has no value; or the statement goes past the end of the largest storage.
pub(crate) fn location_behind(
    symbols: &[Symbol],
    here: u32,
    statement: &Statement,
) -> Result<u32, Cause>
    requires { here ≤ 16777216 }
    ensures value { result ≡ location_behind symbols.now here statement.now }
    ensures bound { IfOk result (λ location. location ≤ 16777216) }
{
    match statement {
        Statement::Origin(address) => value_of(symbols, here, address),
        _ => end_of(here, statement),
    }
}

// The end of a statement that is no origin.
fn end_of(here: u32, statement: &Statement) -> Result<u32, Cause>
    requires { here ≤ 16777216 }
    ensures value { result ≡ end_of here statement.now }
    ensures bound { IfOk result (λ location. location ≤ 16777216) }
{
    let place = u64::from(place_of(here, statement));
    let size = size_of(statement);
    if size > u64::from(STORAGE) || place + size > u64::from(STORAGE) {
        return Err(Cause::Outside);
    }
    Ok((place + size) as u32)
}

// A label more, if there is one.
fn define(symbols: &mut Vec<Symbol>, label: &[u8], address: u32) -> Result<(), Cause>
    ensures { Defines result symbols.old.items symbols.new.items label.now address }
{
    if label.is_empty() {
        return Ok(());
    }
    if !is_symbol(label) {
        return Err(Cause::Label);
    }
    let name = padded(label);
    if address_named(symbols.as_slice(), name).is_some() {
        return Err(Cause::Twice);
    }
    match symbols.push(Symbol { name, address }) {
        Ok(()) => Ok(()),
        Err(_) => Err(Cause::OutOfMemory),
    }
}

/// Notes the label of a line that stands at this location, and answers the location behind it.
///
/// # Errors
///
/// The line is wrong, its label is defined already, it goes past the end of the largest storage, or there is no memory.
pub(crate) fn note_line(
    files: &[LoadableFile],
    symbols: &mut Vec<Symbol>,
    here: u32,
    line: &[u8],
) -> Result<u32, Mistake>
    requires { here ≤ 16777216 }
    ensures notes { Notes result files.now symbols.old.items symbols.new.items here line.now }
    ensures bound { IfOk result (λ location. location ≤ 16777216) }
{
    let statement = match statement_of(files, line) {
        Ok(statement) => statement,
        Err(mistake) => return Err(mistake),
    };
    if let Err(cause) = define(symbols, label_in(line), place_of(here, &statement)) {
        return Err(Mistake { column: 1, cause });
    }
    match location_behind(symbols.as_slice(), here, &statement) {
        Ok(next) => Ok(next),
        Err(cause) => Err(Mistake {
            column: fields_of(line).operands_at + 1,
            cause,
        }),
    }
}
