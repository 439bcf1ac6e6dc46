//! Lines about a volume that are made in memory.

ghost use Rattle.std.specs.Prelude.{◌≡◌, [], false};

use std::alloc::Global;

/// Lines about a volume, one behind another, and whether one of them says that something is wrong.
#[derive(Drop)]
pub struct Report {
    /// The lines.
    pub text: Vec<u8>,
    /// Whether one of them says that something is wrong.
    pub is_wrong: bool,
}

impl Report {
    /// No line.
    pub fn new(alloc: Global) -> Report
        ensures text { result.text.items ≡ [] }
        ensures right { result.is_wrong ≡ false }
    {
        Report {
            text: Vec::new(alloc),
            is_wrong: false,
        }
    }
}
