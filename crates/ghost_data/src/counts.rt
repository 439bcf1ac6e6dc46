//! Counts that only contracts read.

ghost use Rattle.std.specs.Prelude.{◌≡◌, ◌+◌};

use crate::traces::Trace;
use std::marker::Model;

/// How often something happened so far. A contract reads it as a number.
#[derive(Drop)]
pub struct Count {
    // a byte for each time
    times: Trace,
}

impl Model for Count {
    ghost use Rattle.std.specs.Prelude.{ℕ, length};

    ghost Value = { ℕ };

    ghost view = { λ c. length c.times.bytes };
}

impl Count {
    /// It has not happened yet.
    pub fn new() -> Count
        ensures { result ≡ 0 }
    {
        Count {
            times: Trace::new(),
        }
    }

    /// It happened once more.
    pub fn next(&self) -> Count
        ensures { result ≡ self.now + 1 }
    {
        Count {
            times: self.times.and(&[0]),
        }
    }

    /// The same count once more, for what is copied.
    pub fn again(&self) -> Count
        ensures { result ≡ self.now }
    {
        Count {
            times: self.times.again(),
        }
    }
}
