//! The words of a command line after the name of its program: options, their values, and operands.
#![tactic(auto)]

ghost use Rattle.std.specs.Prelude.{◌≡◌, ◌++◌, length, map, take, IfOk, option_map};
ghost use Rattle.std.specs.Cmp.Lexicographic.{pointwise};
ghost use Rattle.std.specs.Option.{option_copied};
ghost use Rattle.std.specs.Str.{bytes_eq};
ghost use Rattle.command_words.specs.Lines.{is_option, is_one_of, operands_of, has_option, attached, value_of};
ghost use Rattle.command_words.specs.Lines.{seen, line_of, has, is_set, has_value, is_valued, gives, asks, begins};

use std::alloc::{AllocError, Global};

/// A command line: its words after the name of the program, and those among them that are operands.
#[derive(Drop)]
pub struct CommandLine<'a> {
    /// The words.
    pub words: &'a [&'a str],
    /// Those that are neither options nor their values.
    pub operands: Vec<&'a str>,
}

impl<'a> CommandLine<'a> {
    /// The line of these words, where the options `valued` take a value each.
    ///
    /// # Errors
    ///
    /// There is no memory for the operands.
    pub fn new(
        alloc: Global,
        valued: &[&str],
        words: &'a [&'a str],
    ) -> Result<CommandLine<'a>, AllocError>
        ensures { IfOk result (λ line. seen line ≡ line_of (map (λ name. name.now) valued.now) (map (λ word. word.now) words.now)) }
    {
        Ok(CommandLine {
            words,
            operands: operands(alloc, valued, words)?,
        })
    }

    /// Whether an option is there.
    pub fn has(&self, name: &str) -> bool
        ensures { result ≡ has (seen self.now) name.now }
    {
        has_option(self.words, name)
    }

    /// Whether an option is there where that is asked, and else is not.
    pub fn is_set(&self, name: &str, asked: bool) -> bool
        ensures { result ≡ is_set (seen self.now) name.now asked }
    {
        if asked {
            self.has(name)
        } else {
            !self.has(name)
        }
    }

    /// Whether an option has a value where that is asked, and else has none.
    pub fn is_valued(&self, name: &str, asked: bool) -> bool
        ensures { result ≡ is_valued (seen self.now) name.now asked }
    {
        if asked {
            self.has_value(name)
        } else {
            !self.has_value(name)
        }
    }

    // Whether an option has a value.
    fn has_value(&self, name: &str) -> bool
        ensures { result ≡ has_value (seen self.now) name.now }
    {
        value_of(self.words, name).is_some()
    }

    /// Whether this is the value of an option, or it has none.
    pub fn gives(&self, name: &str, value: Option<&str>) -> bool
        ensures { result ≡ gives (seen self.now) name.now (option_copied value.entry) }
    {
        match (value_of(self.words, name), value) {
            (None, None) => true,
            (Some(given), Some(value)) => given == value.as_bytes(),
            _ => false,
        }
    }

    /// Whether the operands are the name of a command, these words after it, and then these others.
    pub fn asks(&self, command: &str, words: &[&str], others: &[&str]) -> bool
        ensures { result ≡ asks (seen self.now) command.now (map (λ word. word.now) words.now) (map (λ word. word.now) others.now) }
    {
        match self.operands.as_slice() {
            [first, rest @ ..] => *first == command && are_joined(rest, words, others),
            [] => false,
        }
    }

    /// Whether the operands begin with the name of a command and these words after it.
    pub fn begins(&self, command: &str, front: &[&str]) -> bool
        ensures { result ≡ begins (seen self.now) command.now (map (λ word. word.now) front.now) }
    {
        match self.operands.as_slice() {
            [first, rest @ ..] => *first == command && begin_with(rest, front),
            [] => false,
        }
    }
}

// Whether these are the same words.
fn are_same(these: &[&str], words: &[&str]) -> bool
    ensures { result ≡ pointwise bytes_eq (map (λ word. word.now) these.now) (map (λ word. word.now) words.now) }
{
    if these.len() != words.len() {
        return false;
    }
    for i in 0..words.len() {
        if these[i] != words[i] {
            return false;
        }
    }
    true
}

// Whether these are such words and then others.
fn are_joined(these: &[&str], words: &[&str], others: &[&str]) -> bool
    ensures { result ≡ pointwise bytes_eq (map (λ word. word.now) these.now) (map (λ word. word.now) words.now ++ map (λ word. word.now) others.now) }
{
    if these.len() < words.len() {
        return false;
    }
    let (front, rest) = these.split_at(words.len());
    are_same(front, words) && are_same(rest, others)
}

// Whether words begin with these.
fn begin_with(words: &[&str], front: &[&str]) -> bool
    ensures { result ≡ pointwise bytes_eq (take (length front.now) (map (λ word. word.now) words.now)) (map (λ word. word.now) front.now) }
{
    words.len() >= front.len() && are_same(&words[..front.len()], front)
}

// Whether a word is an option: it begins with a hyphen and has more.
fn is_option(word: &str) -> bool
    ensures { result ≡ is_option word.now }
{
    match word.as_bytes() {
        [first, _, ..] => *first == b'-',
        _ => false,
    }
}

// Whether a word is one of these names.
fn is_one_of(names: &[&str], word: &str) -> bool
    ensures { result ≡ is_one_of (map (λ name. name.now) names.now) word.now }
{
    for name in names {
        if *name == word {
            return true;
        }
    }
    false
}

#[tactic(auto, unfolding(crate::specs::Lines::operands_among))]
// The operands among words: those that are neither options nor the values after the options that take one, and all after the mark `--`.
fn operands<'a>(
    alloc: Global,
    valued: &[&str],
    words: &[&'a str],
) -> Result<Vec<&'a str>, AllocError>
    ensures { IfOk result (λ found. map (λ word. word.now) found.items ≡ operands_of (map (λ name. name.now) valued.now) (map (λ word. word.now) words.now)) }
{
    let mut operands = Vec::new(alloc);
    let mut is_value = false;
    for (i, word) in words.iter().enumerate() {
        if *word == "--" {
            operands.extend_from_slice(&words[i + 1..])?;
            return Ok(operands);
        }
        if !is_value && !is_option(word) {
            operands.push(*word)?;
        }
        is_value = is_one_of(valued, word);
    }
    Ok(operands)
}

#[tactic(auto, unfolding(crate::specs::Lines::has_option))]
// Whether an option is there, before the mark `--`.
fn has_option(words: &[&str], name: &str) -> bool
    ensures { result ≡ has_option (map (λ word. word.now) words.now) name.now }
{
    for word in words {
        if *word == "--" {
            return false;
        }
        if *word == name {
            return true;
        }
    }
    false
}

// What is in a word after a name and an equals sign.
fn attached<'a>(name: &str, word: &'a [u8]) -> Option<&'a [u8]>
    ensures { option_map (λ value. value.now) result ≡ attached name.now word.now }
{
    let name = name.as_bytes();
    let count = name.len();
    if count < word.len() && &word[..count] == name && word[count] == b'=' {
        Some(&word[count + 1..])
    } else {
        None
    }
}

#[tactic(auto, unfolding(crate::specs::Lines::value_of))]
// The value of an option: what is in its word after an equals sign, or the next word.
fn value_of<'a>(words: &[&'a str], name: &str) -> Option<&'a [u8]>
    ensures { option_map (λ value. value.now) result ≡ value_of (map (λ word. word.now) words.now) name.now }
{
    for (i, word) in words.iter().enumerate() {
        if *word == "--" {
            return None;
        }
        if *word == name {
            return words.get(i + 1).map(|value| value.as_bytes());
        }
        if let Some(value) = attached(name, word.as_bytes()) {
            return Some(value);
        }
    }
    None
}
