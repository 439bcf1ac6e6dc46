//! What is told of a name that a command refuses.

ghost use Rattle.std.specs.Prelude.{◌≡◌};

use crate::rules::RULES;
use dasd_extract::{data_set_name, read_members};
use dasd_jobs::{ImageFiles, open_volume};
use dasd_run::ProgramFault;
use dasd_words::{NamedSet, named_set};
use file_places::Notes;
use host_files::Remarks;
use std::alloc::Global;
use std::fmt;
use strsim::levenshtein;
use volume_contents::{find, is_data_set, read_contents};
use volume_labels::safe_name;

/// A name is near a word if at most one edit for so many characters of the word leads to it.
const CHARACTERS_AN_EDIT: usize = 3;

/// What is told of a word before a name.
const NEAREST: &str = "the nearest name is ";

const A_LIBRARY: &str = "it is a library: name a member, as ";

/// A word of a command, what is told of it, and a name that is there.
#[derive(Clone, Copy)]
struct Named<'a>(&'a str, &'a str, &'a str);

impl fmt::Display for Named<'_> {
    fn fmt<W: fmt::Write>(&self, f: &mut fmt::Formatter<W>) -> fmt::Result {
        write!(f, "{}: {}{}", self.0, self.1, self.2)
    }
}

/// Which name a fault is about.
#[derive(Clone, Copy)]
enum Refused {
    /// That of a data set which is not there.
    Set,
    /// That of a member which is not there.
    Member,
    /// None, of a member.
    Unnamed,
    /// That of a data set without members.
    Plain,
    /// That of a member which is there.
    Taken,
}

/// Remarks the name that a fault refuses, and the nearest one that is there, or what a name must be; or what would be right in the place of
/// something else that is refused.
pub(crate) fn note_name<F: ImageFiles>(
    alloc: Global,
    words: &[&str],
    files: &mut F,
    remarks: &Remarks,
    fault: &ProgramFault,
)
    ensures { F.written files.new ≡ F.written files.old }
{
    // no command was begun
    if fault.status() == 2 {
        return;
    }
    let Ok(text) = format!(in alloc; "{fault}") else {
        return;
    };
    let refused = match text.as_str() {
        "no such data set" => Refused::Set,
        "no such member" => Refused::Member,
        "no member named" => Refused::Unnamed,
        "not a partitioned data set" => Refused::Plain,
        "a member has this name" => Refused::Taken,
        text => {
            for (end, rule) in RULES {
                if text.ends_with(end) {
                    remarks.note(&rule);
                }
            }
            return;
        }
    };
    if let Some(named) = named_set(alloc, words) {
        note_word(alloc, files, remarks, &named, refused);
    }
}

// Remarks a word that is refused as a name.
fn note_word<F: ImageFiles>(
    alloc: Global,
    files: &mut F,
    remarks: &Remarks,
    named: &NamedSet,
    refused: Refused,
)
    ensures { F.written files.new ≡ F.written files.old }
{
    let set = named.name.data_set;
    let member = named.name.member.unwrap_or(set);
    let (word, told, near) = match refused {
        Refused::Set => (set, NEAREST, near_set(alloc, files, named)),
        Refused::Member => (member, NEAREST, near_member(alloc, files, named)),
        Refused::Unnamed => (set, A_LIBRARY, first_member(alloc, files, named)),
        Refused::Plain => return remarks.note(&Named(set, "it has no members", "")),
        Refused::Taken => return remarks.note(&Named(member, "it is there", "")),
    };
    match near {
        Some(name) => remarks.note(&Named(word, told, name.as_str())),
        None => remarks.note(&Named(word, "no name there is like it", "")),
    }
}

// The first member of a library, as an example of a name.
fn first_member<F: ImageFiles>(alloc: Global, files: &mut F, named: &NamedSet) -> Option<String>
    ensures { F.written files.new ≡ F.written files.old }
{
    let names = member_names(alloc, files, named)?;
    let (set, name) = (named.name.data_set, names.first()?);
    format!(in alloc; "{}({})", set, name.as_str()).ok()
}

// The nearest name of a data set.
fn near_set<F: ImageFiles>(alloc: Global, files: &mut F, named: &NamedSet) -> Option<String>
    ensures { F.written files.new ≡ F.written files.old }
{
    let mut volume = open_volume(alloc, files, named.paths.as_slice(), named.as_far).ok()?;
    let contents = read_contents(alloc, &mut volume).ok()?;
    let mut names = Vec::new(alloc);
    for block in contents.found.blocks.iter() {
        if is_data_set(block.kind) {
            names.push(safe_name(alloc, &block.key).ok()?).ok()?;
        }
    }
    nearest(alloc, names.as_slice(), named.name.data_set)
}

// The nearest name of a member.
fn near_member<F: ImageFiles>(alloc: Global, files: &mut F, named: &NamedSet) -> Option<String>
    ensures { F.written files.new ≡ F.written files.old }
{
    let names = member_names(alloc, files, named)?;
    nearest(alloc, names.as_slice(), named.name.member?)
}

// The names of the members of a library.
fn member_names<F: ImageFiles>(
    alloc: Global,
    files: &mut F,
    named: &NamedSet,
) -> Option<Vec<String>>
    ensures { F.written files.new ≡ F.written files.old }
{
    let mut volume = open_volume(alloc, files, named.paths.as_slice(), named.as_far).ok()?;
    let contents = read_contents(alloc, &mut volume).ok()?;
    let name = data_set_name(named.name.data_set)?;
    let set = find(alloc, contents.found.blocks.as_slice(), &name).ok()??;
    let members = read_members(alloc, &mut volume, set.extents.as_slice()).ok()?;
    let mut names = Vec::new(alloc);
    for entry in members.entries.iter() {
        names.push(safe_name(alloc, &entry.name).ok()?).ok()?;
    }
    Some(names)
}

// The name to which the fewest edits lead from a word in capital letters, the first of several, if it is near.
fn nearest(alloc: Global, names: &[String], word: &str) -> Option<String> {
    let word = word.to_ascii_uppercase(alloc).ok()?;
    let mut best: Option<(usize, &str)> = None;
    for name in names {
        let edits = levenshtein(alloc, word.as_str(), name.as_str()).ok()?;
        let is_better = best.map_or(true, |(fewest, _)| edits < fewest);
        if is_better && edits <= word.len() / CHARACTERS_AN_EDIT {
            best = Some((edits, name.as_str()));
        }
    }
    let (_, name) = best?;
    name.to_string(alloc).ok()
}
