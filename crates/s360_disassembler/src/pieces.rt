//! What stands in storage, as statements would say it.

ghost use Rattle.std.specs.Prelude.{◌<◌, ◌≤◌, length};

use s360_explain::word_of;
use s360_words::{CAW_ADDRESS, Ccw};
use std::alloc::{AllocError, Global};

/// How many equal bytes are said as one with their number.
const LEAST_RUN: usize = 16;

/// What one statement says.
#[derive(Clone, Copy)]
pub(crate) enum Piece<'a> {
    /// A channel command word.
    Word(Ccw),
    /// The channel address word of a program whose key is 0.
    Pointer(u32),
    /// So many times this byte.
    Run(usize, u8),
    /// Other bytes, at most eight.
    Bytes(&'a [u8]),
}

// Bytes in storage, taken piece by piece.
#[derive(Clone, Copy)]
struct Pieces<'a> {
    // Where the rest of them stands.
    at: u32,
    // The rest of them.
    rest: &'a [u8],
    // Whether the word before chains data.
    chains_data: bool,
}

/// What these bytes say, piece by piece, with where each stands.
pub(crate) fn pieces_of(
    alloc: Global,
    at: u32,
    bytes: &[u8],
) -> Result<Vec<(u32, Piece<'_>)>, AllocError> {
    let mut found = Vec::new(alloc);
    let mut pieces = Pieces {
        at,
        rest: bytes,
        chains_data: false,
    };
    while !pieces.rest.is_empty() {
        let at = pieces.at;
        found.push((at, pieces.next()))?;
    }
    Ok(found)
}

impl<'a> Pieces<'a> {
    // The next piece.
    fn next(&mut self) -> Piece<'a>
        requires { 0 < length self.old.rest.now }
        ensures { length self.new.rest.now < length self.old.rest.now }
    {
        let (piece, count) = self.piece();
        self.chains_data = match piece {
            Piece::Word(word) => word.chains_data() && !word.is_transfer(),
            _ => false,
        };
        self.at = self
            .at
            .saturating_add(u32::try_from(count).unwrap_or(u32::MAX));
        self.rest = &self.rest[count..];
        piece
    }

    // What stands first, and how many bytes it takes.
    fn piece(&self) -> (Piece<'a>, usize)
        requires { 0 < length self.now.rest.now }
        ensures inside { result.1 ≤ length self.now.rest.now }
        ensures some { 0 < result.1 }
    {
        if let [0, a, b, c, ..] = self.rest {
            if self.at == CAW_ADDRESS {
                return (Piece::Pointer(u32::from_be_bytes([0, *a, *b, *c])), 4);
            }
        }
        if self.at % 8 == 0 {
            if let [a, b, c, d, e, f, g, h, ..] = self.rest {
                let word = Ccw::from_bytes([*a, *b, *c, *d, *e, *f, *g, *h]);
                if *f == 0 && self.is_word(word) {
                    return (Piece::Word(word), 8);
                }
            }
        }
        let run = run_length(self.rest);
        if run >= LEAST_RUN {
            return (Piece::Run(run, self.rest[0]), run);
        }
        let count = self.rest.len().min(8 - (self.at % 8) as usize);
        (Piece::Bytes(&self.rest[..count]), count)
    }

    // Whether these eight bytes are a word that a program could have.
    fn is_word(&self, word: Ccw) -> bool {
        let is_command = self.chains_data || !word_of(word.code).is_empty();
        is_command && !word.has_reserved_flags() && (word.count > 0 || word.is_transfer())
    }
}

// How many bytes from the first on are as it is.
fn run_length(bytes: &[u8]) -> usize
    ensures { result ≤ length bytes.now }
{
    let [first, ..] = bytes else {
        return 0;
    };
    match bytes.iter().position(|byte| *byte != *first) {
        Some(at) => at,
        None => bytes.len(),
    }
}
