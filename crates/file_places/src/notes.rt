//! What is told of journals.

use std::fmt;
use std::io::Error;

/// Takes what is told of files, a line each; or nothing of it.
pub trait Notes {
    /// The host that has the files.
    fn host(&self) -> &HostRuntime;

    /// One line more, for those who ask for more.
    fn note<T: fmt::Display>(&self, _remark: &T) {}

    /// The same, unless it was noted before.
    fn note_once<T: fmt::Display>(&self, _remark: &T) {}

    /// One line more, for everybody.
    fn tell<T: fmt::Display>(&self, _remark: &T) {}

    /// Why the host refused something of a file.
    fn note_fault(&self, _path: &str, _fault: &Error) {}

    /// Why the bytes of a file from a place on could not be read.
    fn note_reading(&self, _path: &str, _at: u64, _fault: &Error) {}
}

/// What became of a file whose save was cut off: its path, and that of its journal.
#[derive(Clone, Copy)]
pub enum Told<'a> {
    /// The save is ended.
    Ended(&'a str),
    /// It is begun, and not ended.
    Begun(&'a str),
    /// The file has all that is saved, but its journal could not be removed.
    Saved(&'a str),
    /// The journal is read over the file.
    Instead(&'a str, &'a str),
    /// Another program wrote the file since.
    Changed(&'a str, &'a str),
    /// The journal is not there.
    Lost(&'a str, &'a str),
    /// The file is another than the one of the journal.
    Other(&'a str, &'a str),
    /// It is not there, and the journal is of it too.
    Missing(&'a str, &'a str),
    /// What is at the journal's name is not taken for one.
    Unfit(&'a str),
    /// The file is marked by a program between versions 1.1.0 and 1.2.0.
    Unreleased(&'a str),
    /// It has its new bytes or its new name, but the folder was not synced.
    Unsynced(&'a str),
    /// Its file system has no sync of folders.
    NoSync(&'a str),
    /// A program that was killed had left it, and it is removed.
    Removed(&'a str),
    /// It was replaced, and could not be put back where another one of its save was not.
    Parted(&'a str),
    /// It was named before.
    Used(&'a str),
    /// Its owner, by number, was refused to the new file, which is this user's.
    TakenOver(&'a str, u32, u32),
    /// Its journal can't be read by this user.
    Locked(&'a str),
    /// No save of it was cut off.
    Whole(&'a str),
    /// The journal is removed, and the file is as it was.
    Dropped(&'a str, &'a str),
    /// The file is half saved, and the journal fits it.
    Needed(&'a str, &'a str),
    /// The journal names no file that is this one.
    Unnamed(&'a str, &'a str),
}

impl fmt::Display for Told<'_> {
    fn fmt<W: fmt::Write>(&self, f: &mut fmt::Formatter<W>) -> fmt::Result {
        match *self {
            Told::Ended(path) => write!(f, "{path}: a save of it was cut off, and is ended"),
            Told::Begun(path) => write!(
                f,
                "{path}: its save is begun and not ended; the next run that uses it ends it"
            ),
            Told::Saved(path) => write!(
                f,
                "{path}: it is saved; only the removal of its journal failed"
            ),
            Told::Instead(path, journal) => write!(
                f,
                "{path}: a save of it was cut off, and {journal} is read over it"
            ),
            Told::Changed(path, journal) => write!(
                f,
                "{path}: a save of it was cut off; without {journal}, which has what was saved, it is taken as it is now (dasd recover {path} --drop)"
            ),
            Told::Lost(path, journal) => write!(
                f,
                "{path}: a save of it was cut off; the rest is in {journal}, which is not there: move it there from the folder in which the save was begun, or put back another copy of the file"
            ),
            Told::Other(path, journal) => write!(
                f,
                "{path}: {journal} is of another file, which this is a copy of or took the place of: 'dasd recover {path}' completes it over this one if all of it fits, and 'dasd recover {path} --drop' removes it"
            ),
            Told::Missing(path, journal) => write!(
                f,
                "{path}: it is not there, and {journal} has what was saved of it: put it back, or give the save up by dasd recover --drop"
            ),
            Told::Unfit(journal) => write!(
                f,
                "{journal}: it can't be used; without it the file is taken as it is, half saved or not"
            ),
            Told::Unreleased(path) => write!(
                f,
                "{path}: an unreleased dasd between 1.1.0 and 1.2.0 was cut off as it saved it: the same program (commit e91d4aec) ends that"
            ),
            Told::Unsynced(path) => write!(
                f,
                "{path}: what is new is there; a loss of power may undo that"
            ),
            Told::NoSync(folder) => write!(f, "{folder}: its file system has no sync of folders"),
            Told::Removed(path) => write!(
                f,
                "{path}: a program that was killed had left it, and it is removed"
            ),
            Told::Parted(path) => write!(
                f,
                "{path}: it is new, and others that were to be saved with it are old"
            ),
            Told::Used(path) => write!(f, "{path}: this run uses it already"),
            Told::TakenOver(path, before, now) => write!(
                f,
                "{path}: it was user {before}'s, and is user {now}'s now; its group is kept"
            ),
            Told::Locked(journal) => write!(
                f,
                "{journal}: its owner's next run ends the save; or root gives it to the owner of the file (chown)"
            ),
            Told::Whole(path) => write!(f, "{path}: no save of it was cut off"),
            Told::Dropped(path, journal) => write!(
                f,
                "{path}: it stays as it is; {journal} is removed"
            ),
            Told::Needed(path, journal) => write!(
                f,
                "{path}: it is half saved, and {journal} has the rest: 'dasd recover {path}' completes it"
            ),
            Told::Unnamed(path, journal) => write!(
                f,
                "{path}: {journal} is of files with other names; give it back the name under which it was saved"
            ),
        }
    }
}
