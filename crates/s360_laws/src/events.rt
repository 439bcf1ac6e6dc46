//! What may be asked of a channel.

ghost use Rattle.std.specs.Prelude.{◌≡◌, ◌≤◌, ◌<◌};

use arrayvec::ArrayVec;
use std::marker::Model;

/// How many bytes a look at storage shows: at most 32.
#[derive(Clone, Copy, Debug, PartialEq, Eq)]
pub struct ShowCount(u8);

impl Model for ShowCount {
    ghost use Rattle.std.specs.Prelude.{ℕ, ◌≤◌};

    ghost Value = { ℕ };

    ghost view = { λ c. c.0 };

    ghost invariant = { λ c. c.0 ≤ 32 };

    ghost inverse = { λ n. record { 0 = n } };
}

impl ShowCount {
    /// This many bytes, which are at most 32.
    pub fn new(count: u8) -> ShowCount
        requires { count ≤ 32 }
        ensures { result ≡ count }
    {
        ShowCount(count)
    }

    /// The number.
    pub fn get(self) -> u8
        ensures value { result ≡ self }
        ensures few { result ≤ 32 }
    {
        self.0
    }
}

/// The key of a block of storage: 0 to 15 (Principles of Operation, 'Storage Protection').
#[derive(Clone, Copy, Debug, PartialEq, Eq)]
pub struct StorageKey(u8);

impl Model for StorageKey {
    ghost use Rattle.std.specs.Prelude.{ℕ, ◌<◌};

    ghost Value = { ℕ };

    ghost view = { λ k. k.0 };

    ghost invariant = { λ k. k.0 < 16 };

    ghost inverse = { λ n. record { 0 = n } };
}

impl StorageKey {
    /// This key, which is below 16.
    pub fn new(key: u8) -> StorageKey
        requires { key < 16 }
        ensures { result ≡ key }
    {
        StorageKey(key)
    }

    /// The number.
    pub fn get(self) -> u8
        ensures value { result ≡ self }
        ensures below { result < 16 }
    {
        let StorageKey(number) = self;
        number
    }
}

/// What may be asked of a channel: an input/output instruction, a step of the running program, an arm that arrives, an
/// interruption, a reset, and what the processor does to storage meanwhile. An input/output address has the number of the
/// channel in its high byte and the device's address in its low byte.
#[derive(Drop)]
pub enum Event {
    /// Start I/O at an input/output address.
    Sio(u16),
    /// Test I/O at an input/output address.
    Tio(u16),
    /// Halt I/O at an input/output address.
    Hio(u16),
    /// Test Channel.
    Tch,
    /// The running program does so many units, unless it ends first.
    Step(u16),
    /// The running program does units until it ends, but at most so many: a step of a larger number.
    Run(u32),
    /// The arm of the drive at an input/output address arrives.
    Arrive(u16),
    /// The processor takes an input/output interruption, if one is pending.
    Interrupt,
    /// The channel and its drives are reset.
    Reset,
    /// The processor stores these bytes from an address on.
    Store(u32, ArrayVec<u8, 128>),
    /// The processor sets the key of the block that has this address.
    Key(u32, StorageKey),
    /// So many bytes of storage from an address on are looked at.
    Show(u32, ShowCount),
}

impl Event {
    /// An equal event. It takes no memory.
    pub fn copy(&self) -> Event
        ensures { result ≡ self.now }
    {
        match self {
            Event::Sio(address) => Event::Sio(*address),
            Event::Tio(address) => Event::Tio(*address),
            Event::Hio(address) => Event::Hio(*address),
            Event::Tch => Event::Tch,
            Event::Step(units) => Event::Step(*units),
            Event::Run(units) => Event::Run(*units),
            Event::Arrive(address) => Event::Arrive(*address),
            Event::Interrupt => Event::Interrupt,
            Event::Reset => Event::Reset,
            Event::Store(at, bytes) => Event::Store(*at, copied(bytes)),
            Event::Key(at, key) => Event::Key(*at, *key),
            Event::Show(at, count) => Event::Show(*at, *count),
        }
    }
}

// The same bytes again.
fn copied(bytes: &ArrayVec<u8, 128>) -> ArrayVec<u8, 128>
    ensures { result ≡ bytes.now }
{
    let mut again = ArrayVec::new();
    // there is room for as many bytes
    let copied = again.try_extend_from_slice(bytes.as_slice());
    prove!(copied.is_ok());
    again
}
