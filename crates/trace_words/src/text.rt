//! The text of a trace that is not written yet: the lines of one look.

ghost use Rattle.std.specs.Prelude.{◌≡◌, ◌≤◌, ◌++◌, [], true, drop, length};
ghost use Rattle.trace_words.specs.Texts.{Tells};

use arrayvec::ArrayString;
use std::fmt::{Display, Write};

/// More bytes than the lines of a look have: ten at most, with the names of all sense bits in one of them.
pub const ROOM: usize = 2_048;

/// Lines.
#[derive(Clone, Copy)]
pub struct Text {
    lines: ArrayString<ROOM>,
    /// Whether there was room for all.
    pub is_whole: bool,
}

impl Text {
    /// No lines.
    pub fn new() -> Text
        ensures lines { result.lines.bytes ≡ [] }
        ensures whole { result.is_whole ≡ true }
    {
        Text {
            lines: ArrayString::new(),
            is_whole: true,
        }
    }

    /// What there is.
    pub fn as_str(&self) -> &str
        ensures { result.now ≡ self.now.lines.bytes }
    {
        self.lines.as_str()
    }

    /// Puts all that there is to the front of these bytes, and answers how many those are.
    pub fn put_into(&self, bytes: &mut [u8]) -> usize
        requires { 2048 ≤ length bytes.old }
        ensures put { bytes.new ≡ self.now.lines.bytes ++ drop (length self.now.lines.bytes) bytes.old }
        ensures len { result ≡ length self.now.lines.bytes }
    {
        let lines = self.lines.as_str().as_bytes();
        bytes[..lines.len()].copy_from_slice(lines);
        lines.len()
    }

    /// Forgets all lines.
    pub fn clear(&mut self)
        ensures lines { self.new.lines.bytes ≡ [] }
        ensures whole { self.new.is_whole ≡ self.old.is_whole }
    {
        self.lines.clear();
    }

    /// The line of a value, if there is room for it.
    pub fn line<T: Display>(&mut self, value: &T)
        ensures { Tells (T.output value.now) self.old self.new }
    {
        if writeln!(self.lines, "{value}").is_err() {
            self.is_whole = false;
        }
    }
}
