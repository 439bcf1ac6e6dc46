//! Journals that are found: beside a file by its name, or where a marker or a mark leads.

ghost use Rattle.std.specs.Prelude.{◌≡◌, ◌≢◌, ◌<◌, length, IfOk, IfSome};
ghost use Rattle.std.specs.IoError.{error_kind};
ghost use Rattle.file_journals.specs.Placed.{IsPlaced};

use crate::hosts::{LEADS, id_of};
use crate::marks::Mark;
use atomic_save::{FileId, Journal, JournalFile};
use file_places::{Notes, Told, beside, folder_of, home_of, is_same, wrong};
use journal_text::{JournalFault, read_journal};
use std::fs::{self, File, Metadata};
use std::io::{self, ErrorKind};
use std::os::unix::fs::{FileExt, MetadataExt};
use std::path::{Path, PathBuf};

/// Why a file is refused whose journal is not taken.
pub(crate) const UNREAD: &str = "a save of it was cut off, and can't be read";

/// Why a save is not completed that is asked for.
pub(crate) const UNWRITABLE: &str = "a file of its save may not be written";

/// A journal of a file.
#[derive(Drop)]
pub(crate) struct FoundJournal {
    pub(crate) path: PathBuf,
    /// What is known of the journal's own file.
    pub(crate) known: Metadata,
    pub(crate) journal: Journal,
    /// The number of the file in it.
    pub(crate) place: usize,
}

/// A journal, which may be of another file than the one at whose side it is.
#[derive(Drop)]
pub(crate) struct ReadJournal {
    pub(crate) path: PathBuf,
    /// What is known of the journal's own file.
    pub(crate) known: Metadata,
    pub(crate) journal: Journal,
}

/// What is beside a file.
#[derive(Drop)]
pub(crate) enum Beside {
    /// Nothing of a save.
    Nothing,
    /// A marker that leads to no journal, and where that would be.
    Idle(PathBuf, PathBuf),
    /// The journal, or what leads there.
    Journal(FoundJournal),
    /// The journal of another file, or what leads there.
    Others(ReadJournal),
}

impl Beside {
    /// The journal that is there or to which it leads, and what is known of its file.
    pub(crate) fn journal(&self) -> Option<(&PathBuf, &Metadata)> {
        match self {
            Beside::Journal(it) => Some((&it.path, &it.known)),
            Beside::Others(it) => Some((&it.path, &it.known)),
            Beside::Nothing | Beside::Idle(_, _) => None,
        }
    }
}

/// What is beside the file to which a path leads, by its name, or by the one in its mark.
///
/// # Errors
///
/// The file is of a save, but not its journal, or that is not there; which is told. Or the host refuses something.
pub(crate) fn look_beside<N: Notes>(
    notes: &N,
    path: &str,
    file: &File,
    known: &Metadata,
) -> io::Result<Beside>
    ensures { IfOk result IsPlaced }
{
    match find_beside(notes, path, file, known)? {
        Beside::Others(it) => {
            notes.tell(&Told::Other(path, it.path.as_str()));
            Err(wrong(UNREAD))
        }
        beside => Ok(beside),
    }
}

/// The same, also where the journal is of another file.
///
/// # Errors
///
/// As of `look_beside`.
pub(crate) fn find_beside<N: Notes>(
    notes: &N,
    path: &str,
    file: &File,
    known: &Metadata,
) -> io::Result<Beside>
    ensures { IfOk result IsPlaced }
{
    let home = home_of(notes.host(), path)?;
    let named = match beside(notes.host(), home.as_path())? {
        Some(place) => look_at(notes, place, known)?,
        None => Beside::Nothing,
    };
    // what can't be read now is told by what reads it next
    let Ok(Some(mark)) = Mark::read(file) else {
        return Ok(named);
    };
    if matches!(named, Beside::Journal(_) | Beside::Others(_)) {
        return Ok(named);
    }
    let name = str::from_utf8(&mark.bytes[8..])
        .unwrap_or("")
        .trim_end_matches('\0');
    if name.is_empty() || name.contains('/') {
        return Err(wrong(UNREAD));
    }
    let place = folder_of(home.as_path()).join(notes.host().alloc(), name)?;
    let found = look_at(notes, place, known)?;
    if matches!(found, Beside::Journal(_) | Beside::Others(_)) {
        return Ok(found);
    }
    // unless its save was ended meanwhile
    if matches!(Mark::read(file), Ok(None)) {
        return Ok(Beside::Nothing);
    }
    let lost = match found {
        Beside::Idle(_, led) => led,
        _ => folder_of(home.as_path()).join(notes.host().alloc(), name)?,
    };
    notes.tell(&Told::Lost(path, lost.as_str()));
    Err(wrong(UNREAD))
}

/// What is at a place, or where that leads, for a file.
///
/// # Errors
///
/// It is not taken for a journal, which is told, or the host refuses something.
pub(crate) fn look_at<N: Notes>(notes: &N, place: PathBuf, of: &Metadata) -> io::Result<Beside>
    ensures { IfOk result IsPlaced }
{
    let Some(text) = text_at(notes, place, of)? else {
        return Ok(Beside::Nothing);
    };
    let Some(way) = text.bytes.strip_prefix(LEADS.as_slice()) else {
        return take(notes, text, of);
    };
    let Ok(way) = str::from_utf8(way) else {
        return Err(refuse_unfit(notes, text.path.as_path(), wrong("a damaged marker")));
    };
    let led = folder_of(text.path.as_path()).join(notes.host().alloc(), way)?;
    match text_at(notes, led.clone()?, of)? {
        Some(text) => take(notes, text, of),
        None => Ok(Beside::Idle(text.path, led)),
    }
}

/// What is in a file that may be a journal.
#[derive(Drop)]
struct Text {
    path: PathBuf,
    known: Metadata,
    bytes: Vec<u8>,
}

// What is in the file at a place, if there is one: it is regular, and the owner's of the other file, one's own or that of root.
fn text_at<N: Notes>(notes: &N, path: PathBuf, of: &Metadata) -> io::Result<Option<Text>> {
    match read_text(notes.host(), path.as_path(), of) {
        Ok((known, bytes)) => Ok(Some(Text { path, known, bytes })),
        Err(fault) if fault.kind() == ErrorKind::NotFound => Ok(None),
        Err(fault) => Err(refuse_unfit(notes, path.as_path(), fault)),
    }
}

fn read_text(host: &HostRuntime, path: Path<'_>, of: &Metadata) -> io::Result<(Metadata, Vec<u8>)> {
    let named = fs::symlink_metadata(host, path)?;
    if !named.is_file() {
        return Err(wrong("not a regular file, and so no journal"));
    }
    let file = File::open(host, path)?;
    let known = file.metadata()?;
    if !is_same(&known, &named) {
        return Err(io::Error::from(ErrorKind::ResourceBusy));
    }
    check_owner(host, &known, of)?;
    let len = usize::try_from(known.len()).unwrap_or(usize::MAX);
    let mut bytes = vec![in host.alloc(); 0; len]?;
    file.read_exact_at(&mut bytes, 0)?;
    Ok((known, bytes))
}

// The journal of a file, by its bytes.
fn take<N: Notes>(notes: &N, text: Text, of: &Metadata) -> io::Result<Beside>
    ensures { IfOk result IsPlaced }
{
    let Text {
        path: place,
        known,
        bytes,
    } = text;
    let journal = match read_journal(notes.host().alloc(), &bytes) {
        Ok(journal) => journal,
        Err(fault) => return Err(refuse_unfit(notes, place.as_path(), fault_of(fault))),
    };
    match place_in(&journal, &id_of(of)) {
        Some(number) => Ok(Beside::Journal(FoundJournal {
            path: place,
            known,
            journal,
            place: number,
        })),
        None => Ok(Beside::Others(ReadJournal {
            path: place,
            known,
            journal,
        })),
    }
}

/// The number of a file in a journal that names it once.
pub(crate) fn place_in(journal: &Journal, id: &FileId) -> Option<usize>
    ensures { IfSome result (λ place. place < length journal.now.files.items) }
{
    let is_it = |it: &JournalFile| it.id.device == id.device && it.id.inode == id.inode;
    let place = journal.files.iter().position(is_it)?;
    let (named, others) = journal.files[place..].split_first()?;
    if named.id != *id || others.iter().any(is_it) {
        return None;
    }
    Some(place)
}

// What a journal that is not read is to its file.
fn fault_of(fault: JournalFault) -> io::Error
    ensures { fault ≢ JournalFault.OutOfMemory → error_kind result ≡ ErrorKind.InvalidInput }
{
    match fault {
        JournalFault::OutOfMemory => io::Error::from(ErrorKind::OutOfMemory),
        JournalFault::Foreign => wrong("not a journal"),
        JournalFault::Later => wrong("a journal of another version"),
        JournalFault::Truncated => wrong("a journal that is cut off"),
        JournalFault::Damaged => wrong("a damaged journal"),
    }
}

/// Notes why a journal is not taken, and says what that is to its file.
pub(crate) fn refuse<N: Notes>(notes: &N, place: Path<'_>, fault: io::Error) -> io::Error
    ensures { error_kind result ≡ error_kind fault }
{
    let place = place.as_str();
    notes.note_fault(place, &fault);
    match fault.kind() {
        ErrorKind::OutOfMemory => fault,
        ErrorKind::PermissionDenied => {
            notes.tell(&Told::Locked(place));
            io::Error::new(ErrorKind::PermissionDenied, UNREAD)
        }
        kind => io::Error::new(kind, UNREAD),
    }
}

// The same, and what can be done.
fn refuse_unfit<N: Notes>(notes: &N, place: Path<'_>, fault: io::Error) -> io::Error
    ensures { error_kind result ≡ error_kind fault }
{
    let refused = refuse(notes, place, fault);
    if refused.kind() == ErrorKind::InvalidInput {
        notes.tell(&Told::Unfit(place.as_str()));
    }
    refused
}

/// Looks whether a journal is the owner's of its file, one's own or that of root.
///
/// # Errors
///
/// It is not, or the host can't say so.
pub(crate) fn check_owner(host: &HostRuntime, known: &Metadata, of: &Metadata) -> io::Result<()> {
    if known.uid() == of.uid() || known.uid() == 0 {
        return Ok(());
    }
    let own = fs::metadata(host, "/proc/self")?;
    if known.uid() == own.uid() {
        return Ok(());
    }
    let why = "a journal of another user";
    Err(io::Error::new(ErrorKind::PermissionDenied, why))
}
