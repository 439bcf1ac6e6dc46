//! A deck is read whole.

ghost use Rattle.std.specs.Prelude.{◌≡◌, ◌≤◌, ◌++◌, length, IfOk, OnOk, IfErr, OnErr};
ghost use Rattle.s360_deck.specs.Runs.{ReadsWhole, ReadsFront, IsReadFault};

use crate::fault::DeckFault;
use crate::runs::RunFault;
use std::alloc::Global;
use std::io::Read;

/// The most bytes of a deck.
pub(crate) const DECK_LENGTH: usize = 1_048_576;

/// The most reads: each but the last gives a byte or more.
pub(crate) const READS: usize = 1_048_577;

/// How many bytes a read may give.
pub(crate) const PIECE_LENGTH: usize = 4_096;

// All that a reader has, if it is no more than a deck may have; of more, the first bytes and no further read.
pub(crate) fn read_deck<R: Read>(alloc: Global, reader: &mut R) -> Result<Vec<u8>, RunFault>
    ensures ok { IfOk result (λ text. ReadsWhole (R.remaining reader.old) (R.remaining reader.new) text.items) }
    ensures err { IfErr result IsReadFault }
    ensures front { OnErr result (ReadsFront (R.remaining reader.old) (R.remaining reader.new)) }
{
    let mut text = Vec::new(alloc);
    let mut piece = [0; PIECE_LENGTH];
    for _ in 0..READS {
        let Ok(count) = reader.read(&mut piece) else {
            return Err(RunFault::Read);
        };
        if count == 0 {
            return Ok(text);
        }
        add(&mut text, &piece[..count])?;
    }
    Err(RunFault::Read)
}

// More bytes of a deck.
fn add(text: &mut Vec<u8>, bytes: &[u8]) -> Result<(), RunFault>
    requires { length text.old.items ≤ 1048576 }
    ensures ok { OnOk result (text.new.items ≡ text.old.items ++ bytes.now) }
    ensures size { OnOk result (length text.new.items ≤ 1048576) }
    ensures err { IfErr result IsReadFault }
{
    if bytes.len() > DECK_LENGTH - text.len() {
        return Err(RunFault::Read);
    }
    text.extend_from_slice(bytes)
        .map_err(|_| RunFault::Deck(DeckFault::OutOfMemory))
}
