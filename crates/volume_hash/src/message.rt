//! A message that is hashed while it is made.

ghost use Rattle.std.specs.Prelude.{◌≡◌, [], ◌++◌};
ghost use Rattle.sha2.specs.Sha256.{sha256};

use ghost_data::Trace;
use sha2::{Digest, Sha256};
use std::io::{Result, Write};
use std::marker::Model;

/// A message, of which memory keeps what its hash needs alone. It is seen as its bytes.
#[derive(Drop)]
pub struct Message {
    hasher: Sha256,
    bytes: Trace,
}

impl Model for Message {
    ghost use Rattle.std.specs.Prelude.{ℕ, List};
    ghost use Rattle.sha2.specs.Hashers.{Holds256};

    ghost Value = { List ℕ };

    ghost view = { λ m. m.bytes.bytes };

    ghost invariant = { λ m. Holds256 m.hasher m.bytes.bytes };
}

impl Message {
    /// A message without bytes.
    pub fn new() -> Message
        ensures { result ≡ [] }
    {
        Message {
            hasher: Sha256::new(),
            bytes: Trace::new(),
        }
    }

    /// These bytes go to the end of the message.
    pub fn add(&mut self, bytes: &[u8])
        ensures { self.new ≡ self.old ++ bytes.now }
    {
        self.hasher.update(bytes);
        self.bytes = self.bytes.and(bytes);
    }

    /// The SHA-256 of the message.
    pub fn digest(self) -> [u8; 32]
        ensures { result ≡ sha256 self }
    {
        let Message { hasher, bytes: _ } = self;
        hasher.finalize()
    }
}

/// What is written to a message goes to its end; no write of one fails.
impl Write for Message {
    ghost use Rattle.std.specs.Prelude.{Some};

    ghost contents = { λ m. Some m };

    fn write(&mut self, bytes: &[u8]) -> Result<usize> {
        self.add(bytes);
        Ok(bytes.len())
    }

    fn flush(&mut self) -> Result<()> {
        Ok(())
    }
}
