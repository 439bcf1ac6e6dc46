//! The line of each answer.

ghost use Rattle.std.specs.Prelude.{◌≡◌, ◌≤◌, ◌+◌, ◌++◌, ◌∷◌, [], Some, codes, length};
ghost use Rattle.std.specs.Fmt.{decimal};
ghost use Rattle.counted_io.specs.Text.{bytes_text, hexadecimal};
ghost use Rattle.s360_deck.specs.Lines.{status_text, csw_text, condition_text, after_space, answer_text};

use arrayvec::ArrayString;
use counted_io::{put_bytes, put_decimal, put_hexadecimal};
use s360_laws::{Answer, Condition, Status};
use s360_words::Csw;
use std::fmt;

/// The most bytes of an answer's line with its LF. A look at 32 bytes has 77, and 79 where its address has eight digits.
pub(crate) const LINE_LENGTH: usize = 80;

// A line, with room for every answer.
type Line = ArrayString<LINE_LENGTH>;

/// An answer as a deck's line prints it, without LF. Hexadecimal digits are capitals.
#[derive(Clone, Copy)]
pub struct AnswerLine<'a>(pub &'a Answer);

impl fmt::Display for AnswerLine<'_> {
    ghost output = { λ a. Some (answer_text a.0.now) };

    fn fmt<W: fmt::Write>(&self, f: &mut fmt::Formatter<W>) -> fmt::Result {
        let mut line = ArrayString::new();
        put_answer(&mut line, self.0);
        f.write_str(line.as_str())
    }
}

/// The answer goes onto an empty line. It leaves room for LF.
pub(crate) fn put_answer(line: &mut Line, answer: &Answer)
    requires { line.old.bytes ≡ [] }
    ensures text { line.new.bytes ≡ answer_text answer.now }
    ensures fits { length line.new.bytes + 1 ≤ 80 }
{
    match answer {
        Answer::Sio(address, condition) => put_instruction(line, "SIO ", *address, *condition),
        Answer::Tio(address, condition) => {
            put_named(line, "TIO ", *address);
            put_csw_condition(line, *condition);
        }
        Answer::Hio(address, condition) => put_instruction(line, "HIO ", *address, *condition),
        Answer::Tch(condition) => put_plain_condition(line, *condition),
        Answer::Step(done) => put_units(line, "STEP ", u32::from(*done)),
        Answer::Run(done) => put_units(line, "RUN ", *done),
        Answer::Arrive(address, arrived) => {
            put_named(line, "ARRIVE ", *address);
            line.push_str(if *arrived { " YES" } else { " NO" });
        }
        Answer::Interrupt(None) => line.push_str("INT NONE"),
        Answer::Interrupt(Some((address, csw))) => {
            put_named(line, "INT ", *address);
            line.push_str(" ");
            put_csw(line, *csw);
        }
        Answer::Reset(None) => line.push_str("RESET CLEAN"),
        Answer::Reset(Some((address, cylinder, head))) => {
            put_named(line, "RESET UNSAVED ", *address);
            put_track(line, *cylinder, *head);
        }
        Answer::Store(stored) => line.push_str(if *stored { "STORE OK" } else { "STORE OUTSIDE" }),
        Answer::Key(set) => line.push_str(if *set { "KEY OK" } else { "KEY OUTSIDE" }),
        Answer::Show(at, Some(bytes)) => put_shown(line, *at, bytes.as_slice()),
        Answer::Show(_, None) => line.push_str("SHOW OUTSIDE"),
    }
}

// The name of an event, and an input/output address.
fn put_named(line: &mut Line, name: &str, address: u16)
    requires empty { line.old.bytes ≡ [] }
    requires short { length name.now ≤ 14 }
    ensures text { line.new.bytes ≡ name.now ++ hexadecimal 3 address }
    ensures size { length line.new.bytes ≤ 22 }
{
    line.push_str(name);
    put_hexadecimal(line, 3, u32::from(address));
}

// Start I/O or Halt I/O, with its condition code.
fn put_instruction(line: &mut Line, name: &str, address: u16, condition: Condition<Status>)
    requires empty { line.old.bytes ≡ [] }
    requires short { length name.now ≤ 14 }
    ensures text { line.new.bytes ≡ name.now
        ++ (hexadecimal 3 address ++ condition_text (λ s. after_space (status_text s)) condition) }
    ensures size { length line.new.bytes ≤ 40 }
{
    put_named(line, name, address);
    put_status_condition(line, condition);
}

// How many units a step or a run did.
fn put_units(line: &mut Line, name: &str, done: u32)
    requires empty { line.old.bytes ≡ [] }
    requires short { length name.now ≤ 14 }
    ensures text { line.new.bytes ≡ name.now ++ decimal done }
    ensures size { length line.new.bytes ≤ 24 }
{
    line.push_str(name);
    put_decimal(line, done);
}

// The bytes of a look at storage.
fn put_shown(line: &mut Line, at: u32, bytes: &[u8])
    requires empty { line.old.bytes ≡ [] }
    requires few { length bytes.now ≤ 32 }
    ensures text { line.new.bytes ≡ codes "SHOW " ++ (hexadecimal 6 at ++ (codes " " ++ bytes_text bytes.now)) }
    ensures size { length line.new.bytes ≤ 78 }
{
    line.push_str("SHOW ");
    put_hexadecimal(line, 6, at);
    line.push_str(" ");
    put_bytes(line, bytes);
}

// A cylinder and a head, each behind a space.
fn put_track(line: &mut Line, cylinder: u16, head: u16)
    requires { length line.old.bytes ≤ 22 }
    ensures text { line.new.bytes ≡ line.old.bytes
        ++ (codes " " ++ (hexadecimal 4 cylinder ++ (codes " " ++ hexadecimal 4 head))) }
    ensures size { length line.new.bytes ≤ 40 }
{
    line.push_str(" ");
    put_hexadecimal(line, 4, u32::from(cylinder));
    line.push_str(" ");
    put_hexadecimal(line, 4, u32::from(head));
}

// The two halves of a channel status word.
fn put_csw(line: &mut Line, csw: Csw)
    requires { length line.old.bytes ≤ 40 }
    ensures text { line.new.bytes ≡ line.old.bytes ++ csw_text csw }
    ensures size { length line.new.bytes ≤ length line.old.bytes + 17 }
{
    let bytes = csw.to_bytes();
    put_bytes(line, &bytes[..4]);
    line.push_str(" ");
    put_bytes(line, &bytes[4..]);
}

// The condition code of Start I/O and Halt I/O, and the status bytes that were stored.
fn put_status_condition(line: &mut Line, condition: Condition<Status>)
    requires { length line.old.bytes ≤ 22 }
    ensures text { line.new.bytes ≡ line.old.bytes ++ condition_text (λ s. after_space (status_text s)) condition }
    ensures size { length line.new.bytes ≤ 40 }
{
    match condition {
        Condition::Zero => line.push_str(" CC 0"),
        Condition::Stored(status) => {
            line.push_str(" CC 1 ");
            put_bytes(line, &[status.unit.0, status.channel.0]);
        }
        Condition::Two => line.push_str(" CC 2"),
        Condition::Three => line.push_str(" CC 3"),
    }
}

// The condition code of Test I/O, and the channel status word that was stored.
fn put_csw_condition(line: &mut Line, condition: Condition<Csw>)
    requires { length line.old.bytes ≤ 22 }
    ensures text { line.new.bytes ≡ line.old.bytes ++ condition_text (λ s. after_space (csw_text s)) condition }
    ensures size { length line.new.bytes ≤ 57 }
{
    match condition {
        Condition::Zero => line.push_str(" CC 0"),
        Condition::Stored(csw) => {
            line.push_str(" CC 1 ");
            put_csw(line, csw);
        }
        Condition::Two => line.push_str(" CC 2"),
        Condition::Three => line.push_str(" CC 3"),
    }
}

// The name of Test Channel, and its condition code.
fn put_plain_condition(line: &mut Line, condition: Condition<()>)
    requires { line.old.bytes ≡ [] }
    ensures text { line.new.bytes ≡ codes "TCH" ++ condition_text (λ nothing. []) condition }
    ensures size { length line.new.bytes ≤ 40 }
{
    line.push_str(match condition {
        Condition::Zero => "TCH CC 0",
        Condition::Stored(()) => "TCH CC 1",
        Condition::Two => "TCH CC 2",
        Condition::Three => "TCH CC 3",
    });
}
