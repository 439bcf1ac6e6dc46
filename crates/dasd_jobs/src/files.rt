//! Files by their paths.

ghost use Rattle.std.specs.Prelude.{◌≡◌, List, [], ◌++◌, IfOk, OnOk, OnErr};
ghost use Rattle.dasd_jobs.specs.Sources.{Content, SourceFile, IsLength, StandsIn, OpensFile, ReadsFront};
ghost use Rattle.dasd_jobs.specs.Written.{Replaced, with_file, files_of};

use ckd_image::{ImageStore, StoreFault};
use std::alloc::Global;
use std::fmt;
use thiserror::Error;

/// Why a file was not opened, not read or not replaced.
#[derive(Clone, Copy, Debug, Error)]
pub enum FileFault {
    /// There is no memory for its bytes or for its path.
    #[error("out of memory")]
    OutOfMemory,
    /// The host refused.
    #[error("refused by the system")]
    Refused,
    /// Another program has locked it.
    #[error("in use")]
    InUse,
    /// It was locked already, by this or by another name.
    #[error("named twice")]
    Twice,
    /// It is there, and was not to be replaced.
    #[error("file exists")]
    Exists,
}

/// What becomes of files that are locked, where they are written later.
#[derive(Clone, Copy)]
pub enum SavePlan {
    /// They are not written: each is shared with others that only read it.
    Nothing,
    /// A new file takes the place of each.
    Replaced,
    /// Each stays the file that it is, with its owner, its rights and its other names, and holds other bytes.
    InPlace,
    /// One of so many bytes stays the file that it is, in the same way; a new file takes the place of each other.
    SameLength(u64),
}

/// A file that was opened, and is read in parts.
pub trait OpenedFile: Drop {
    // what it holds, where that is known: of a file of the host, which others may change while it is read, it is not
    ghost content: { Self → Content };

    /// The number of its bytes.
    fn len(&self) -> u64
        ensures { IsLength (content self.now) result };

    /// Reads the bytes from `at` on that fill `into`. After an error `into` holds any bytes.
    fn read_at(&mut self, at: u64, into: &mut [u8]) -> Result<(), StoreFault>
        ensures read { OnOk result (StandsIn (content self.old) at into.new) }
        ensures kept { content self.new ≡ content self.old };
}

/// A new file that was begun for a path, and is not there yet. One that is dropped leaves nothing.
#[derive(Drop)]
pub struct NewFile<'a, D> {
    /// The path.
    pub path: &'a str,
    /// The file, before it takes its place.
    pub draft: D,
}

/// Files that are read in place, and are made or replaced whole: what is new is written beside the old file and takes its place
/// at the end, so that whatever fails leaves the old file as it was. A file that keeps its place has other bytes whole, or as before:
/// what is new stands beside it until then, and is read over it.
pub trait ImageFiles {
    /// A file that was opened to be read.
    type Opened: OpenedFile;

    /// A new file that is written before it takes its place. One that is dropped leaves nothing.
    type Draft: ImageStore;

    // the files that were made or replaced so far, in order
    ghost written: { Self → List Replaced };

    // the files that were opened, locked or read so far, in order
    ghost opened: { Self → List SourceFile };

    /// Opens a file to be read. It takes no lock, and waits at most for a save of the file by another program.
    ///
    /// # Errors
    ///
    /// The host can't open it, or there is no memory.
    fn open(&mut self, alloc: Global, path: &str) -> Result<Self::Opened, FileFault>
        ensures kept { written self.new ≡ written self.old }
        ensures opens { OpensFile result Self.Opened.content path.now (opened self.old) (opened self.new) };

    /// Says what becomes of the files that are locked from here on; where nothing is said, they are replaced. One that is not to be
    /// written is not looked at for what would hinder that.
    fn plan_saving(&mut self, plan: SavePlan)
        ensures kept { written self.new ≡ written self.old }
        ensures same { opened self.new ≡ opened self.old };

    /// Opens a file that may be replaced later, and keeps it locked as long as these files are there.
    ///
    /// # Errors
    ///
    /// The host can't open it, or it is no regular file; another program has locked it; it was locked here before; or there is
    /// no memory.
    fn lock(&mut self, alloc: Global, path: &str) -> Result<Self::Opened, FileFault>
        ensures kept { written self.new ≡ written self.old }
        ensures opens { OpensFile result Self.Opened.content path.now (opened self.old) (opened self.new) };

    /// The first bytes of a file, so many of them; all, where it has no more.
    ///
    /// # Errors
    ///
    /// The host can't read it, or there is no memory for them.
    fn read(&mut self, alloc: Global, path: &str, most: usize) -> Result<Vec<u8>, FileFault>
        ensures kept { written self.new ≡ written self.old }
        ensures reads { IfOk result (λ bytes. ReadsFront path.now most bytes.items (opened self.old) (opened self.new)) }
        ensures err { OnErr result (opened self.new ≡ opened self.old) };

    /// Begins a new file without bytes, which is to be at this path, in the place of a file that is there, if that is allowed.
    ///
    /// # Errors
    ///
    /// What is at the path is no regular file, may not be written or may not be replaced; another program has locked it; no file
    /// can be made beside it; or there is no memory.
    fn begin(&mut self, alloc: Global, path: &str, replaces: bool) -> Result<Self::Draft, FileFault>
        ensures kept { written self.new ≡ written self.old }
        ensures same { opened self.new ≡ opened self.old }
        ensures empty { IfOk result (λ draft. Self.Draft.content draft ≡ []) };

    /// Puts the new file that was begun for this path there. All its bytes are on the disk before it takes its place; that it has
    /// taken the place of an old one is on the disk behind this, and that it is a new one is so behind `settle`. Where the old one
    /// keeps its place, its bytes are on the disk behind this.
    ///
    /// # Errors
    ///
    /// The host can't do it, or another file has come to the path since: what is there stays. Where the old file keeps its place and
    /// was written in part, that is remarked, and whoever opens it next finds the new bytes whole.
    fn put(&mut self, path: &str, draft: Self::Draft) -> Result<(), FileFault>
        ensures ok { OnOk result (written self.new ≡ with_file (written self.old) path.now (Self.Draft.content draft)) }
        ensures err { OnErr result (written self.new ≡ written self.old) }
        ensures same { opened self.new ≡ opened self.old };

    /// Puts the new files of one save there, each at the path for which it was begun: all, or none. Files that keep their places are
    /// old or new together wherever the save is cut off, and new on the disk after this. Where new files take the places of old ones,
    /// one after another, only a cut-off may leave some of both.
    ///
    /// # Errors
    ///
    /// The host can't do it for one of them, or another file has come to its path since: what is at the paths stays. Where files keep their
    /// places and one was written in part after it was decided that all are saved, that is remarked, and whoever opens them next finds the
    /// new bytes of all.
    fn put_all(&mut self, new: Vec<NewFile<'_, Self::Draft>>) -> Result<(), FileFault>
        ensures ok { OnOk result (written self.new ≡ written self.old ++ files_of Self.Draft.content new.entry.items) }
        ensures err { OnErr result (written self.new ≡ written self.old) }
        ensures same { opened self.new ≡ opened self.old };

    /// Has the names of the new files on the disk that were put there, as far as the host does that. Before this a crash may leave each
    /// of them whole or not at all.
    fn settle(&mut self)
        ensures kept { written self.new ≡ written self.old }
        ensures same { opened self.new ≡ opened self.old };

    /// Something that the one line of a fault, or a run that is done, leaves out: one line, told where it is asked for.
    fn remark<T: fmt::Display>(&mut self, text: &T)
        ensures kept { written self.new ≡ written self.old }
        ensures same { opened self.new ≡ opened self.old };

    /// Remarks are asked for.
    fn ask_remarks(&mut self)
        ensures kept { written self.new ≡ written self.old }
        ensures same { opened self.new ≡ opened self.old };
}
