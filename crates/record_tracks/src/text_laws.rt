//! The law of a text that was put onto a volume. The function here does nothing: what it ensures is a law of the definitions in `specs/`.

ghost use Rattle.record_tracks.specs.Printed.{IsPrinted};

/// Wherever the records of a text are on a volume, in blocks of any number of records, the reader of text prints the lines of the text, without
/// the blanks at the end of each, and ends with the end of file.
pub fn text_is_printed()
    ensures { IsPrinted }
{}
