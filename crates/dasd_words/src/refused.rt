//! What is said of words that a command refuses, or that it can't do.

use crate::commands::{match_words, read_words};
use crate::requests::{PrintedVolume, Request, SetName};
use crate::run::read_volumes;
use crate::volumes::{Volume, read_volume};
use std::alloc::Global;

/// What a word of a volume must be.
pub const VOLUME_RULE: &str =
    "a VOLUME is UU=PATH or UU=new:M:N: UU is two hexadecimal digits, M is 2311 or 2314, N is 1 to 65535; \
an image has at most eight files";

/// The first VOLUME among the words of a run that is of another form.
pub fn first_bad_volume<'a>(alloc: Global, words: &'a [&'a str]) -> Option<&'a str> {
    let matches = match_words(alloc, words).ok()?;
    let (_, options) = matches.subcommand()?;
    for word in options.get_strs("VOLUME")? {
        if read_volume(word).is_none() {
            return Some(*word);
        }
    }
    None
}

/// The first address that an earlier volume of a run has too.
pub fn taken_address(alloc: Global, words: &[&str]) -> Option<u8> {
    let matches = match_words(alloc, words).ok()?;
    let (_, options) = matches.subcommand()?;
    let volumes = read_volumes(alloc, options.get_strs("VOLUME")?).ok()?;
    taken(volumes.as_slice())
}

// The first address that an earlier one of these volumes has too.
fn taken(volumes: &[Volume]) -> Option<u8> {
    for i in 0..volumes.len() {
        let device = volumes[i].device;
        if volumes[..i].iter().any(|before| before.device == device) {
            return Some(device);
        }
    }
    None
}

/// The data set, and maybe the member, that a command names.
#[derive(Drop)]
pub struct NamedSet<'a> {
    /// The files of the volume.
    pub paths: Vec<&'a str>,
    /// Whether they are read as far as they go.
    pub as_far: bool,
    /// The names as they were given.
    pub name: SetName<'a>,
}

/// The data set that these words name: of a rename the old one.
pub fn named_set<'a>(alloc: Global, words: &'a [&'a str]) -> Option<NamedSet<'a>> {
    let asked = read_words(alloc, words).ok()?;
    let (paths, as_far, data_set, member) = match &asked.request {
        Request::Extract(it) => (&it.paths, it.as_far, it.name.data_set, it.name.member),
        Request::ExtractTracks(it) => (&it.paths, it.as_far, it.name, None),
        Request::ListMembers(it) => (&it.volume.paths, it.volume.as_far, it.name, None),
        Request::Rename(it) => (&it.paths, false, it.old, None),
        Request::RenameMember(it) => (&it.paths, false, it.library, Some(it.old)),
        Request::Delete(it) => (&it.paths, false, it.name, None),
        Request::DeleteMember(it) => (&it.paths, false, it.library, Some(it.member)),
        Request::Load(it) => (&it.paths, false, it.name, None),
        Request::LoadMember(it) => (&it.paths, false, it.library, Some(it.member)),
        _ => return None,
    };
    let paths = Vec::from_slice(alloc, paths.as_slice()).ok()?;
    let name = SetName { data_set, member };
    Some(NamedSet {
        paths,
        as_far,
        name,
    })
}

/// The path that objects of JSON have which these words ask for: those of the volume's files, joined by plus signs. None is where they
/// ask for no objects.
pub fn object_path(alloc: Global, words: &[&str]) -> Option<String> {
    let asked = read_words(alloc, words).ok()?;
    match asked.request {
        Request::ListPart(volume, _) | Request::Dump(volume, _) => joined_of(alloc, &volume),
        Request::ListContents(volume) | Request::CheckContents(volume) => {
            joined_of(alloc, &volume)
        }
        Request::Hash(hashed) => joined_of(alloc, &hashed.volume),
        Request::CheckStrictly(check) => joined_of(alloc, &check.volume),
        Request::ListDetails(details) => joined_of(alloc, &details.volume),
        Request::ListMembers(library) => joined_of(alloc, &library.volume),
        Request::Compare(volumes) => joined(alloc, volumes.json, volumes.one.as_slice()),
        Request::ExtractAll(volume) => joined(alloc, volume.json, volume.paths.as_slice()),
        _ => None,
    }
}

/// Whether these words ask for a comparison: its name is the first of them, but for options, behind the program's own.
pub fn is_comparison(words: &[&str]) -> bool {
    for word in words.iter().skip(1) {
        if !word.starts_with('-') {
            return *word == "compare";
        }
    }
    false
}

// The paths of a volume, where objects are asked for.
fn joined_of(alloc: Global, volume: &PrintedVolume) -> Option<String> {
    joined(alloc, volume.json, volume.paths.as_slice())
}

// These paths with plus signs between, where objects are asked for.
fn joined(alloc: Global, json: bool, paths: &[&str]) -> Option<String> {
    if !json {
        return None;
    }
    let mut joined = String::new(alloc);
    for (i, path) in paths.iter().enumerate() {
        if i > 0 {
            joined.push('+').ok()?;
        }
        joined.push_str(path).ok()?;
    }
    Some(joined)
}
