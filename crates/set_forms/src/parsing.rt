//! The forms that a text has.

ghost use Rattle.std.specs.Prelude.{◌≡◌, Ok, Some, map, IfOk};
ghost use Rattle.std.specs.Option.{option_copied};
ghost use Rattle.set_forms.specs.Parsing.{is_blank, words_of, is_comment, words_read, may_have_entry, fits, line_read};
ghost use Rattle.set_forms.specs.Parsing.{line_added, lines_of, parsed, IsAdded, IsParsed};

use crate::entries::{read_alias, read_member};
use crate::fault::{FormLineFault, TextFault};
use crate::forms::FormLine;
use crate::sets::read_set;
use std::alloc::{AllocError, Global};

/// The forms that a text has, in the order of its lines. A line ends with a line feed, which the last may lack. Blanks, tabs and carriage
/// returns separate its words. A line without words, and one whose first word begins with #, say nothing.
///
/// # Errors
///
/// The first line that is wrong is told, with what is wrong with it; or there is no memory.
pub fn parse(alloc: Global, text: &[u8]) -> Result<Vec<FormLine>, TextFault>
    ensures { IsParsed (parsed text.now) result }
{
    let Ok(lines) = lines_of(alloc, text) else {
        return Err(TextFault::OutOfMemory);
    };
    let mut forms = Vec::new(alloc);
    for (index, line) in lines.iter().enumerate() {
        add_line(alloc, &mut forms, index + 1, line)?;
    }
    Ok(forms)
}

// The lines of a text.
fn lines_of(alloc: Global, text: &[u8]) -> Result<Vec<&[u8]>, AllocError>
    ensures { IfOk result (λ v. map (λ w. w.now) v.items ≡ lines_of text.now) }
{
    text.split(|byte| *byte == b'\n').collect(alloc)
}

// Adds the form of a line, if it has one, to those of the lines before it.
fn add_line(
    alloc: Global,
    forms: &mut Vec<FormLine>,
    number: usize,
    line: &[u8],
) -> Result<(), TextFault>
    ensures { IsAdded number (line_added forms.old.items (line_read line.now)) result forms.new.items }
{
    let Ok(words) = words_of(alloc, line) else {
        return Err(TextFault::OutOfMemory);
    };
    match read_words(words.as_slice()) {
        Ok(None) => Ok(()),
        Ok(Some(form)) => add_form(forms, number, form),
        Err(fault) => Err(TextFault::Line(number, fault)),
    }
}

// Adds a form, if it may stand there.
fn add_form(forms: &mut Vec<FormLine>, number: usize, form: FormLine) -> Result<(), TextFault>
    ensures { IsAdded number (line_added forms.old.items (Ok (Some form))) result forms.new.items }
{
    if !fits(forms.as_slice(), &form) {
        return Err(TextFault::Line(number, FormLineFault::NoDirectory));
    }
    match forms.push(form) {
        Ok(()) => Ok(()),
        Err(_) => Err(TextFault::OutOfMemory),
    }
}

// Whether a form may stand behind others: an entry stands behind its data set, or behind another entry of it.
fn fits(forms: &[FormLine], form: &FormLine) -> bool
    ensures { result ≡ fits forms.now form.now }
{
    match form {
        FormLine::Set(_) => true,
        FormLine::Entry(_) => may_have_entry(forms.last()),
    }
}

// Whether an entry may stand behind this form.
fn may_have_entry(last: Option<&FormLine>) -> bool
    ensures { result ≡ may_have_entry (option_copied last.entry) }
{
    match last {
        None => false,
        Some(FormLine::Set(set)) => set.directory.is_some(),
        Some(FormLine::Entry(_)) => true,
    }
}

// The words of a line.
fn words_of(alloc: Global, line: &[u8]) -> Result<Vec<&[u8]>, AllocError>
    ensures { IfOk result (λ v. map (λ w. w.now) v.items ≡ words_of line.now) }
{
    line.split(|byte| is_blank(*byte))
        .filter(|word| !word.is_empty())
        .collect(alloc)
}

// Whether a character separates words.
fn is_blank(character: u8) -> bool
    ensures { result ≡ is_blank character }
{
    character == b' ' || character == b'\t' || character == b'\r'
}

// The form that words say, if they say one.
fn read_words(words: &[&[u8]]) -> Result<Option<FormLine>, FormLineFault>
    ensures { result ≡ words_read (map (λ w. w.now) words.now) }
{
    let [first, words @ ..] = words else {
        return Ok(None);
    };
    if is_comment(first) {
        return Ok(None);
    }
    match *first {
        b"data" => Ok(Some(FormLine::Set(read_set(words)?))),
        b"member" => Ok(Some(FormLine::Entry(read_member(words)?))),
        b"alias" => Ok(Some(FormLine::Entry(read_alias(words)?))),
        _ => Err(FormLineFault::Kind),
    }
}

// Whether a word begins a comment.
fn is_comment(word: &[u8]) -> bool
    ensures { result ≡ is_comment word.now }
{
    match word {
        [first, ..] => *first == b'#',
        [] => false,
    }
}
