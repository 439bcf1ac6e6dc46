//! Words that ask for a run of a deck.

ghost use Rattle.std.specs.Prelude.{◌≡◌, map, drop, option_map};
ghost use Rattle.std.specs.Option.{option_copied};
ghost use Rattle.command_words.specs.Lines.{seen};
ghost use Rattle.admitted_words.specs.Admitted.{trace_path, saves, has_files, runs};
ghost use Rattle.admitted_words.specs.Volumes.{is_device, names_new, names_file, after_files, after_new, after_source, are_named};

use crate::after_first;
use command_words::CommandLine;
use dasd_words::{AskedTrace, DeckRun, TraceTarget, Volume, VolumeSource};

/// Whether words ask for this run.
pub(crate) fn runs(line: &CommandLine, asked: &DeckRun) -> bool
    ensures { result ≡ runs (seen line.now) asked.now }
{
    line.begins("run", &[])
        && are_named(
            after_first(line.operands.as_slice()),
            asked.volumes.as_slice(),
        )
        && saves(line, asked)
        && has_files(line, asked)
}

// Whether words ask for changed files to be saved so.
fn saves(line: &CommandLine, asked: &DeckRun) -> bool
    ensures { result ≡ saves (seen line.now) asked.now }
{
    line.is_set("--no-save", !asked.saves) && line.is_set("--replace", !asked.in_place)
}

// Whether words name this file of the deck, and this one of the trace.
fn has_files(line: &CommandLine, asked: &DeckRun) -> bool
    ensures { result ≡ has_files (seen line.now) asked.now }
{
    line.gives("--deck", asked.deck) && line.gives("--trace-to", trace_path(asked.trace))
}

// The file of a trace, where it goes to one.
fn trace_path<'a>(trace: Option<AskedTrace<'a>>) -> Option<&'a str>
    ensures { option_copied result ≡ trace_path trace.entry }
{
    match trace {
        None => None,
        Some(trace) => match trace.target {
            TraceTarget::StandardError => None,
            TraceTarget::File(path) => Some(path),
        },
    }
}

// Whether words name these volumes, one after another, and no others.
fn are_named(words: &[&str], volumes: &[Volume]) -> bool
    ensures { result ≡ are_named (map (λ word. word.now) words.now) volumes.now }
{
    let mut at = 0;
    for volume in volumes {
        match after_volume(words, at, volume) {
            Some(next) => at = next,
            None => return false,
        }
    }
    at >= words.len()
}

// The place after the words that name a volume, of which the first is at this place.
fn after_volume(words: &[&str], at: usize, volume: &Volume) -> Option<usize>
    ensures { option_map (λ n. map (λ w. w.now) (drop n words.now)) result
        ≡ after_source volume.now.device volume.now.source (map (λ w. w.now) (drop at words.now)) }
{
    match &volume.source {
        VolumeSource::Files(paths) => after_files(words, at, volume.device, paths.as_slice()),
        VolumeSource::New { .. } => after_new(words, at, volume.device),
    }
}

// The place after the word that names a new volume of a device.
fn after_new(words: &[&str], at: usize, device: u8) -> Option<usize>
    ensures { option_map (λ n. map (λ w. w.now) (drop n words.now)) result ≡ after_new device (map (λ w. w.now) (drop at words.now)) }
{
    if at < words.len() && names_new(device, words[at]) {
        Some(at + 1)
    } else {
        None
    }
}

// The place after the words that name these files of a device, in their order.
fn after_files(words: &[&str], at: usize, device: u8, paths: &[&str]) -> Option<usize>
    ensures { option_map (λ n. map (λ w. w.now) (drop n words.now)) result
        ≡ after_files device (map (λ p. p.now) paths.now) (map (λ w. w.now) (drop at words.now)) }
{
    let mut next = at;
    for path in paths {
        if next >= words.len() {
            return None;
        }
        if !names_file(device, path, words[next]) {
            return None;
        }
        next += 1;
    }
    Some(next)
}

// Whether a word names this device and the file at this path.
fn names_file(device: u8, path: &str, word: &str) -> bool
    ensures { result ≡ names_file device path.now word.now }
{
    let bytes = word.as_bytes();
    if bytes.len() <= 2 || names_new(device, word) {
        return false;
    }
    is_device(device, bytes[0], bytes[1]) && bytes[2] == b'=' && &bytes[3..] == path.as_bytes()
}

// Whether a word names this device and a new volume.
fn names_new(device: u8, word: &str) -> bool
    ensures { result ≡ names_new device word.now }
{
    let bytes = word.as_bytes();
    bytes.len() > 6 && is_device(device, bytes[0], bytes[1]) && &bytes[2..7] == b"=new:".as_slice()
}

// Whether two hexadecimal digits are the address of a device.
fn is_device(device: u8, high: u8, low: u8) -> bool
    ensures { result ≡ is_device device high low }
{
    let Some(high) = char::from(high).to_digit(16) else {
        return false;
    };
    let Some(low) = char::from(low).to_digit(16) else {
        return false;
    };
    16 * high + low == u32::from(device)
}
