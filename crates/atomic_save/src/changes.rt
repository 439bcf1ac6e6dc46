//! What a save changes, and in which files.

/// Bytes for a place within a file: whole blocks of 4 KiB, the last of which may end with the file.
#[derive(Debug, Drop)]
pub struct Change {
    /// The number of the file, from 0.
    pub file: usize,
    /// Its first byte, from 0.
    pub at: u64,
    /// What is to be there.
    pub bytes: Vec<u8>,
}

/// By what the host knows a file again, and how many bytes it has. The numbers are compared and not looked into.
#[derive(Clone, Copy, Debug, PartialEq, Eq)]
pub struct FileId {
    /// The device.
    pub device: u64,
    /// The number of the file there.
    pub inode: u64,
    /// When it was made, in nanoseconds since 1970; 0 where the host does not say.
    pub birth: u64,
    /// The number of its bytes.
    pub size: u64,
}

/// A file of a journal.
#[derive(Debug, Drop)]
pub struct JournalFile {
    /// Its name, as the host spells it.
    pub name: Vec<u8>,
    /// Which file it is.
    pub id: FileId,
}

/// What a journal says: of which files it is, and what they are to hold. Where changes overlap, the later one counts.
#[derive(Debug, Drop)]
pub struct Journal {
    /// The files; changes name them by their places here.
    pub files: Vec<JournalFile>,
    /// What is to be written.
    pub changes: Vec<Change>,
    /// What the host adds for itself.
    pub more: Vec<u8>,
}
