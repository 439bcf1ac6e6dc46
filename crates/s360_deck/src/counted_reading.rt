//! The text of a deck is read whole, by a reader whose failures are counted.

ghost use Rattle.std.specs.Prelude.{◌≡◌, ◌≤◌, ◌++◌, length, IfOk, OnOk, IfErr};
ghost use Rattle.counted_io.specs.Streams.{seen_by};
ghost use Rattle.s360_deck.specs.CountedRuns.{ReadsWhole, ReadsFaultily, NotAdded};

use crate::fault::ReadFault;
use crate::reading::{DECK_LENGTH, PIECE_LENGTH, READS};
use counted_io::Counted;
use std::alloc::Global;
use std::io::Read;

/// All that a reader has, if it is no more than a deck may have: 1,048,576 bytes. It reads at most 1,048,577 times.
///
/// # Errors
///
/// A read failed, and is the last; or the reader gave more than a deck may have, of which no more than one read is taken; or there is
/// no memory for what it gave.
pub fn read_text<R: Read>(alloc: Global, reader: &mut Counted<R>) -> Result<Vec<u8>, ReadFault>
    ensures ok { IfOk result (λ text. ReadsWhole (seen_by R.remaining reader.old) (seen_by R.remaining reader.new)
        text.items) }
    ensures err { IfErr result (λ fault. ReadsFaultily fault (seen_by R.remaining reader.old)
        (seen_by R.remaining reader.new)) }
{
    let mut text = Vec::new(alloc);
    let mut piece = [0; PIECE_LENGTH];
    for _ in 0..READS {
        let Ok(count) = reader.read(&mut piece) else {
            return Err(ReadFault::Failed);
        };
        if count == 0 {
            return Ok(text);
        }
        add(&mut text, &piece[..count])?;
    }
    unreachable!()
}

// More bytes of a deck.
fn add(text: &mut Vec<u8>, bytes: &[u8]) -> Result<(), ReadFault>
    requires { length text.old.items ≤ 1048576 }
    ensures ok { OnOk result (text.new.items ≡ text.old.items ++ bytes.now) }
    ensures size { OnOk result (length text.new.items ≤ 1048576) }
    ensures err { IfErr result (λ fault. NotAdded fault (text.old.items ++ bytes.now)) }
{
    if bytes.len() > DECK_LENGTH - text.len() {
        return Err(ReadFault::TooLong);
    }
    text.extend_from_slice(bytes)
        .map_err(|_| ReadFault::OutOfMemory)
}
