//! Lines whose parts stand in columns.

ghost use Rattle.std.specs.Prelude.{◌≡◌, ◌++◌, IfSome, OnOk, length, replicate};
ghost use Rattle.trace_words.specs.Columns.{in_column, blanks_before};

use arrayvec::ArrayString;
use std::fmt::{self, Display, Write};

/// More bytes than a line has, and than a part of it has.
const LINE_ROOM: usize = 256;

const PART_ROOM: usize = 160;

/// A line of which the last part may still come.
pub(crate) type Row = ArrayString<LINE_ROOM>;

/// A part goes to its column, or one blank behind the part before it where that is past the column; one without any letter is left out.
pub(crate) fn put_part<T: Display>(row: &mut Row, column: usize, part: &T) -> fmt::Result
    ensures { OnOk result (IfSome (T.output part.now) (λ text. row.new.bytes ≡ in_column column text row.old.bytes)) }
{
    let mut text: ArrayString<PART_ROOM> = ArrayString::new();
    write!(text, "{part}")?;
    put_text(row, column, text.as_str())
}

// The text of a part goes to its column, if there is any.
#[tactic(auto, unfolding(crate::specs::Columns::in_column))]
fn put_text(row: &mut Row, column: usize, text: &str) -> fmt::Result
    ensures { OnOk result (row.new.bytes ≡ in_column column text.now row.old.bytes) }
{
    if text.is_empty() {
        return Ok(());
    }
    put_blanks(row, column)?;
    row.write_str(text)
}

// Blanks up to a column, and one at least.
fn put_blanks(row: &mut Row, column: usize) -> fmt::Result
    ensures { OnOk result (row.new.bytes ≡ row.old.bytes ++ blanks_before column (length row.old.bytes)) }
{
    row.write_str(" ")?;
    for _ in row.len()..column {
        row.write_str(" ")?;
    }
    Ok(())
}
