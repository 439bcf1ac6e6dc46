//! The lines of answers are written, to a writer whose failures are counted.

ghost use Rattle.std.specs.Prelude.{◌++◌, ◌∷◌, [], OnOk};
ghost use Rattle.counted_io.specs.Streams.{seen_by, WritesWhole, IsFlushed};
ghost use Rattle.s360_deck.specs.Lines.{answer_text, lines_text};

use crate::lines::put_answer;
use arrayvec::ArrayString;
use counted_io::{Counted, WriteFault, write_whole};
use s360_laws::Answer;
use std::io::Write;

// Writes the line of each answer.
pub(crate) fn write_counted<W: Write>(
    writer: &mut Counted<W>,
    answers: &[Answer],
) -> Result<(), WriteFault>
    ensures written { WritesWhole result (seen_by W.contents writer.old) (seen_by W.contents writer.new)
        (lines_text answers.now) }
    ensures flushed { OnOk result (IsFlushed (seen_by W.contents writer.new)) }
{
    for answer in answers {
        write_line(writer, answer)?;
    }
    match writer.flush() {
        Ok(()) => Ok(()),
        Err(_) => Err(WriteFault),
    }
}

// Writes one line.
fn write_line<W: Write>(writer: &mut Counted<W>, answer: &Answer) -> Result<(), WriteFault>
    ensures { WritesWhole result (seen_by W.contents writer.old) (seen_by W.contents writer.new)
        (answer_text answer.now ++ 10 ∷ []) }
{
    let mut line = ArrayString::new();
    put_answer(&mut line, answer);
    line.push('\n');
    write_whole(writer, line.as_str().as_bytes())
}
