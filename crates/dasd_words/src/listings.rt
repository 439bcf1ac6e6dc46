//! The words of a command over the files of one image.

use crate::commands::{NO_PATH, wrong};
use crate::options::{ArgKind, ArgRow};
use crate::requests::{PrintedVolume, WordFault};
use ckd_image::MOST_FILES;
use clap::ArgMatches;
use clap::builder::ValueParser;
use std::alloc::Global;

const TOO_MANY_PATHS: &str = "error: an image has at most eight files\n";

/// The files of one image.
pub(crate) const PATHS: ArgRow = ArgRow {
    id: "PATH",
    help: "the image file, or the files of one image in their order",
    kind: ArgKind::Words(ValueParser::String, 1, MOST_FILES),
};

/// The files that such a command is asked of.
pub(crate) fn read<'a>(alloc: Global, options: &ArgMatches<'a>) -> Result<Vec<&'a str>, WordFault> {
    match options.get_strs("PATH") {
        Some(words) => read_paths(alloc, words),
        None => Err(wrong(alloc, NO_PATH)),
    }
}

/// The volume of which such a command prints something.
pub(crate) fn read_printed<'a>(
    alloc: Global,
    options: &ArgMatches<'a>,
) -> Result<PrintedVolume<'a>, WordFault> {
    Ok(PrintedVolume {
        paths: read(alloc, options)?,
        json: options.get_flag("json"),
        as_far: options.get_flag("as-far-as-it-goes"),
    })
}

/// The files of one image.
pub(crate) fn read_paths<'a>(alloc: Global, words: &[&'a str]) -> Result<Vec<&'a str>, WordFault> {
    if words.len() > MOST_FILES {
        return Err(wrong(alloc, TOO_MANY_PATHS));
    }
    Ok(Vec::from_slice(alloc, words)?)
}

/// The files of one image, whose paths are joined by plus signs.
pub(crate) fn read_joined<'a>(alloc: Global, word: &'a str) -> Result<Vec<&'a str>, WordFault> {
    let mut paths = Vec::new(alloc);
    for path in word.split('+') {
        if paths.push(path).is_err() {
            return Err(WordFault::OutOfMemory);
        }
    }
    if paths.len() > MOST_FILES {
        return Err(wrong(alloc, TOO_MANY_PATHS));
    }
    Ok(paths)
}
