//! The lines of answers are written.

ghost use Rattle.std.specs.Prelude.{◌++◌, ◌∷◌, []};
ghost use Rattle.s360_deck.specs.Lines.{answer_text, lines_text};
ghost use Rattle.s360_deck.specs.Runs.{WritesFront};

use crate::lines::put_answer;
use crate::runs::RunFault;
use arrayvec::ArrayString;
use s360_laws::Answer;
use std::io::Write;

// Writes the line of each answer.
pub(crate) fn write_answers<W: Write>(writer: &mut W, answers: &[Answer]) -> Result<(), RunFault>
    ensures { WritesFront result (W.contents writer.old) (W.contents writer.new) (lines_text answers.now) }
{
    for answer in answers {
        write_answer(writer, answer)?;
    }
    match writer.flush() {
        Ok(()) => Ok(()),
        Err(_) => Err(RunFault::Write),
    }
}

// Writes one line.
fn write_answer<W: Write>(writer: &mut W, answer: &Answer) -> Result<(), RunFault>
    ensures { WritesFront result (W.contents writer.old) (W.contents writer.new) (answer_text answer.now ++ 10 ∷ []) }
{
    let mut line = ArrayString::new();
    put_answer(&mut line, answer);
    line.push('\n');
    write_bytes(writer, line.as_str().as_bytes())
}

// Writes all bytes. It goes on where a write takes some of them.
fn write_bytes<W: Write>(writer: &mut W, bytes: &[u8]) -> Result<(), RunFault>
    ensures { WritesFront result (W.contents writer.old) (W.contents writer.new) bytes.now }
{
    let mut rest = bytes;
    while !rest.is_empty() {
        match writer.write(rest) {
            Ok(0) | Err(_) => return Err(RunFault::Write),
            Ok(count) => rest = &rest[count..],
        }
    }
    Ok(())
}
