//! Words that ask for something that is printed of a volume.

ghost use Rattle.std.specs.Prelude.{◌≡◌, [], map, IfOk};
ghost use Rattle.command_words.specs.Lines.{seen, asks};
ghost use Rattle.admitted_words.specs.Admitted.{prints, has_part, dumps, are_files, compares_so, compares};
ghost use Rattle.admitted_words.specs.Forms.{reads};

use command_words::CommandLine;
use dasd_words::{ComparedVolumes, PrintedVolume};
use std::alloc::{AllocError, Global};

/// Whether words name these files alone behind a command.
pub(crate) fn prints_plainly(line: &CommandLine, command: &str, paths: &[&str]) -> bool
    ensures { result ≡ asks (seen line.now) command.now (map (λ path. path.now) paths.now) [] }
{
    line.asks(command, paths, &[])
}

/// Whether words ask for these lines, and for a volume to be read so far.
pub(crate) fn reads(line: &CommandLine, volume: &PrintedVolume) -> bool
    ensures { result ≡ reads (seen line.now) volume.now }
{
    line.is_set("--json", volume.json) && line.is_set("--as-far-as-it-goes", volume.as_far)
}

/// Whether words ask a command for this volume, and have these others after its files.
pub(crate) fn prints(
    line: &CommandLine,
    command: &str,
    volume: &PrintedVolume,
    others: &[&str],
) -> bool
    ensures { result ≡ prints (seen line.now) command.now volume.now (map (λ word. word.now) others.now) }
{
    line.asks(command, volume.paths.as_slice(), others) && reads(line, volume)
}

/// Whether words ask for a dump of this volume: after its files are two or three words.
pub(crate) fn dumps(line: &CommandLine, volume: &PrintedVolume) -> bool
    ensures { result ≡ dumps (seen line.now) volume.now }
{
    line.begins("dump", volume.paths.as_slice()) && has_part(line, volume) && reads(line, volume)
}

// Whether two or three operands are there beside a command and the files of a volume.
fn has_part(line: &CommandLine, volume: &PrintedVolume) -> bool
    ensures { result ≡ has_part (seen line.now) volume.now }
{
    match line.operands.len().saturating_sub(volume.paths.len()) {
        3 | 4 => true,
        _ => false,
    }
}

/// Whether words ask for this comparison.
///
/// # Errors
///
/// There is no memory for the words of images of several files.
pub(crate) fn compares(
    alloc: Global,
    line: &CommandLine,
    volumes: &ComparedVolumes,
) -> Result<bool, AllocError>
    ensures { IfOk result (λ is. is ≡ compares (seen line.now) volumes.now) }
{
    let one = volumes.one.as_slice().join(alloc, "+")?;
    let other = volumes.other.as_slice().join(alloc, "+")?;
    let are_asked = line.asks("compare", &[one.as_str(), other.as_str()], &[]);
    Ok(are_asked && are_files(line, volumes) && compares_so(line, volumes))
}

// Whether each image is one file, where words take each for one.
fn are_files(line: &CommandLine, volumes: &ComparedVolumes) -> bool
    ensures { result ≡ are_files (seen line.now) volumes.now }
{
    if line.has("--whole") {
        volumes.one.len() == 1 && volumes.other.len() == 1
    } else {
        true
    }
}

// Whether words ask for these lines, and for volumes to be read so far.
fn compares_so(line: &CommandLine, volumes: &ComparedVolumes) -> bool
    ensures { result ≡ compares_so (seen line.now) volumes.now }
{
    line.is_set("--json", volumes.json) && line.is_set("--as-far-as-it-goes", volumes.as_far)
}
