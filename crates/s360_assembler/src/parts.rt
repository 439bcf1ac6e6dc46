//! What statements make of a deck.

ghost use Rattle.std.specs.Prelude.{◌≡◌, ◌≤◌, ◌<◌, ◌^◌, ◌++◌, codes, length, Ok, Err, IfOk, IfErr};
ghost use Rattle.counted_io.specs.Text.{hexadecimal};
ghost use Rattle.s360_words.specs.Words.{ccw_of};
ghost use Rattle.s360_assembler.specs.Fields.{operation_of, remark_of};
ghost use Rattle.s360_assembler.specs.Parts.{word_bytes, stored_of, part_of};

use crate::constants::{Bytes, row_of};
use crate::fault::Cause;
use crate::fields::fields_of;
use crate::numbers::Address;
use crate::statements::{Statement, Word};
use crate::symbols::{Symbol, place_of, value_of};
use arrayvec::{ArrayString, ArrayVec};
use byteorder::{BigEndian, ByteOrder};
use counted_io::put_hexadecimal;
use s360_words::{Ccw, CcwFlags};

/// What a statement makes of a deck.
#[derive(Drop)]
pub enum DeckPart {
    /// The line of an event.
    Line(ArrayVec<u8, 1088>),
    /// No bytes follow those of the `STORE` before.
    End,
    /// From this place on these bytes stand in storage, if there are some.
    Bytes(u32, ArrayVec<u8, 128>),
    /// From this place on the bytes of a file stand in storage: the one at this place of those that are given.
    File(u32, usize),
}

/// The eight bytes of a channel command word whose address is below 2 to the 24; the sixth is zero.
pub fn word_bytes(word: Ccw) -> [u8; 8]
    requires { word.address < 2 ^ 24 }
    ensures bytes { result ≡ word_bytes word.code word.address word.flags.0 word.count }
    ensures reads_back { ccw_of result ≡ word }
{
    let mut bytes = [0; 8];
    bytes[0] = word.code;
    BigEndian::write_u24(&mut bytes[1..4], word.address);
    bytes[4] = word.flags.0;
    BigEndian::write_u16(&mut bytes[6..8], word.count);
    bytes
}

// The bytes of an address constant.
fn pointer_bytes(symbols: &[Symbol], here: u32, address: &Address) -> Result<Bytes, Cause>
    ensures ok { IfOk result (λ v. stored_of symbols.now here (Statement.Pointer address.now) ≡ Ok v.items) }
    ensures err { IfErr result (λ why. stored_of symbols.now here (Statement.Pointer address.now) ≡ Err why) }
{
    let value = match value_of(symbols, here, address) {
        Ok(value) => value,
        Err(cause) => return Err(cause),
    };
    let mut bytes = [0; 4];
    BigEndian::write_u32(&mut bytes, value);
    Ok(row_of(&bytes))
}

// The bytes of a channel command word.
fn bytes_of_word(symbols: &[Symbol], here: u32, word: &Word) -> Result<Bytes, Cause>
    ensures ok { IfOk result (λ v. stored_of symbols.now here (Statement.Word word.now) ≡ Ok v.items) }
    ensures err { IfErr result (λ why. stored_of symbols.now here (Statement.Word word.now) ≡ Err why) }
{
    let address = match value_of(symbols, here, &word.address) {
        Ok(address) => address,
        Err(cause) => return Err(cause),
    };
    Ok(row_of(&word_bytes(Ccw {
        code: word.code,
        address,
        flags: CcwFlags(word.flags),
        count: word.count,
    })))
}

// The bytes that a statement at this place puts into storage.
fn stored_of(symbols: &[Symbol], here: u32, statement: Statement) -> Result<Bytes, Cause>
    ensures ok { IfOk result (λ v. stored_of symbols.now here statement ≡ Ok v.items) }
    ensures err { IfErr result (λ why. stored_of symbols.now here statement ≡ Err why) }
{
    match statement {
        Statement::Constant(_, bytes) => Ok(bytes),
        Statement::Pointer(address) => pointer_bytes(symbols, here, &address),
        Statement::Word(word) => bytes_of_word(symbols, here, &word),
        _ => Ok(ArrayVec::new()),
    }
}

// The line of an event, with this address of storage.
fn line_with_address(line: &[u8], address: u32) -> ArrayVec<u8, 1088>
    requires { length line.now ≤ 512 }
    ensures { result.items ≡ operation_of line.now ++ codes " " ++ hexadecimal 6 address ++ remark_of line.now }
{
    let fields = fields_of(line);
    let mut digits = ArrayString::<9>::new();
    digits.push_str(" ");
    put_hexadecimal(&mut digits, 6, address);
    let mut event = ArrayVec::new();
    event.try_extend_from_slice(fields.operation).unwrap();
    event
        .try_extend_from_slice(digits.as_str().as_bytes())
        .unwrap();
    event.try_extend_from_slice(fields.remark).unwrap();
    event
}

/// What a statement makes of a deck, which stands on this line and may stand from here on.
///
/// # Errors
///
/// An address has no value.
pub(crate) fn part_of(
    symbols: &[Symbol],
    here: u32,
    line: &[u8],
    statement: Statement,
) -> Result<DeckPart, Cause>
    requires inside { here ≤ 16777216 }
    requires short { length line.now ≤ 512 }
    ensures { result ≡ part_of symbols.now here line.now statement }
{
    let place = place_of(here, &statement);
    match statement {
        Statement::Event => {
            let mut event = ArrayVec::new();
            event
                .try_extend_from_slice(&line[fields_of(line).operation_at..])
                .unwrap();
            Ok(DeckPart::Line(event))
        }
        Statement::EventAt(address) => match value_of(symbols, here, &address) {
            Ok(value) => Ok(DeckPart::Line(line_with_address(line, value))),
            Err(cause) => Err(cause),
        },
        Statement::Origin(_) => Ok(DeckPart::End),
        Statement::Load(file, _) => Ok(DeckPart::File(here, file)),
        stored => match stored_of(symbols, place, stored) {
            Ok(bytes) => Ok(DeckPart::Bytes(place, bytes)),
            Err(cause) => Err(cause),
        },
    }
}
