//! Bytes that only contracts read.

ghost use Rattle.std.specs.Prelude.{◌≡◌, ℕ, List, [], ◌++◌};
ghost use Rattle.std.specs.Borrow.{ftrue};

use std::marker::Model;

/// A list of bytes of which memory keeps nothing, as those that passed in a command. A contract reads it as `bytes`.
#[derive(Drop)]
pub struct Trace {
    pub ghost bytes: { List ℕ },
}

impl Model for Trace {
    ghost also_owns = { λ _. ftrue };
}

// A struct with `also_owns` has neither by itself. This one owns nothing.
unsafe impl Send for Trace {}

unsafe impl Sync for Trace {}

impl Trace {
    /// No bytes.
    pub fn new() -> Trace
        ensures { result.bytes ≡ [] }
    {
        Trace {}
    }

    /// These bytes, and more behind them.
    pub fn and(&self, more: &[u8]) -> Trace
        ensures { result.bytes ≡ self.now.bytes ++ more.now }
    {
        Trace {}
    }

    /// The same bytes once more, for what is copied.
    pub fn again(&self) -> Trace
        ensures { result.bytes ≡ self.now.bytes }
    {
        self.and(&[])
    }

    /// These bytes, as they are now.
    pub fn of(bytes: &[u8]) -> Trace
        ensures { result.bytes ≡ bytes.now }
    {
        Trace::new().and(bytes)
    }
}
