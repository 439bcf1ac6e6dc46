//! What `dasd` is asked to do.

use crate::volumes::Volume;
use arrayvec::ArrayVec;
use ckd_track::DriveModel;
use new_labels::NewLabel;
use s360_explain::Pasted;
use std::alloc::AllocError;
use thiserror::Error;
use volume_labels::RecordAttributes;

/// What `dasd` is asked to do, and how.
#[derive(Drop)]
pub struct Asked<'a> {
    /// What it is to do.
    pub request: Request<'a>,
    /// Whether it is to tell what the one line of a fault leaves out.
    pub is_verbose: bool,
}

/// The numbers from a first to a last one, which is not less.
#[derive(Clone, Copy)]
pub struct Numbers {
    /// The first.
    pub first: u16,
    /// The last.
    pub last: u16,
}

/// The part of a volume whose bytes are printed.
#[derive(Clone, Copy)]
pub struct DumpedPart {
    /// Its cylinders.
    pub cylinders: Numbers,
    /// The heads on each of them.
    pub heads: Numbers,
    /// The numbers of its records.
    pub records: Numbers,
}

/// The part of a volume whose tracks are listed.
#[derive(Clone, Copy)]
pub struct ListedPart {
    /// Its cylinders; all, where there are none.
    pub cylinders: Option<Numbers>,
    /// Whether only those tracks are listed that have more than one record, or that can't be read.
    pub used_only: bool,
}

/// What somebody has noted.
#[derive(Drop)]
pub enum Noted {
    /// A channel status word.
    Csw([u8; 8]),
    /// The second half of a channel status word: unit status, channel status and the residual count.
    Ending([u8; 4]),
    /// The unit status and the channel status.
    Status([u8; 2]),
    /// One to six sense bytes.
    Sense(ArrayVec<u8, 8>),
    /// A channel command word.
    Ccw([u8; 8]),
    /// What stands in a line of an answer or of a trace.
    Line(Pasted),
}

/// What `dasd` is asked to do.
#[derive(Drop)]
pub enum Request<'a> {
    /// Write a new image to a path.
    Format(NewImage<'a>),
    /// Write a new image with a label and an empty table of contents to a path.
    FormatLabelled(NewImage<'a>, NewLabel),
    /// Print the tracks and records of the image that these files hold.
    List(Vec<&'a str>),
    /// Print some of the tracks of a volume, with their records, or all as objects.
    ListPart(PrintedVolume<'a>, ListedPart),
    /// Print the tracks that can't be read of the image that these files hold.
    Check(Vec<&'a str>),
    /// Print all that is found on a volume.
    CheckStrictly(StrictCheck<'a>),
    /// Print all that is wrong with what a volume holds, its data sets and members too.
    CheckContents(PrintedVolume<'a>),
    /// Print the bytes of a part of a volume.
    Dump(PrintedVolume<'a>, DumpedPart),
    /// Print what differs of the volumes of two images.
    Compare(ComparedVolumes<'a>),
    /// Print the hash of what a volume says, and those of its data sets and members that are asked for.
    Hash(HashedVolume<'a>),
    /// Print what a volume holds: its label, its data sets, and what is wrong with them.
    ListContents(PrintedVolume<'a>),
    /// Print what a volume holds, and more of its data sets.
    ListDetails(DetailedVolume<'a>),
    /// Print the members of a partitioned data set.
    ListMembers(ListedLibrary<'a>),
    /// Take a data set, or a member of one, out of a volume.
    Extract(ExtractedSet<'a>),
    /// Take the tracks of a data set out of a volume, as they stand.
    ExtractTracks(ExtractedTracks<'a>),
    /// Take all data sets out of a volume.
    ExtractAll(ExtractedVolume<'a>),
    /// Give a data set of a volume another name.
    Rename(RenamedSet<'a>),
    /// Give a member of a library another name.
    RenameMember(RenamedMember<'a>),
    /// Delete a data set of a volume.
    Delete(DeletedSet<'a>),
    /// Delete a member of a library.
    DeleteMember(DeletedMember<'a>),
    /// Change what the label of a volume says.
    Relabel(RelabelledVolume<'a>),
    /// Complete saves that were cut off, or drop their journals.
    Recover(RecoveredFiles<'a>),
    /// Put a data set onto a volume.
    Load(LoadedFile<'a>),
    /// A file is put into a library of a volume as a new member.
    LoadMember(LoadedMember<'a>),
    /// Files of a folder are put onto a volume as data sets and libraries.
    LoadAll(LoadedFolder<'a>),
    /// Say in words what a number means.
    Explain(Noted),
    /// Print the deck of a text in words, which is the file at this path, or standard input.
    Assemble(Option<&'a str>),
    /// Print a deck in words, which is the file at this path, or standard input.
    Disassemble(Option<&'a str>),
    /// Run a deck.
    Run(DeckRun<'a>),
}

/// A new image that is written to a path.
#[derive(Clone, Copy)]
pub struct NewImage<'a> {
    /// Where the image goes.
    pub path: &'a str,
    /// The drive of its volume.
    pub model: DriveModel,
    /// Its cylinders: at least one.
    pub cylinders: u16,
    /// Whether a file that is there is replaced.
    pub replaces: bool,
}

/// The volume of an image of which something is printed.
#[derive(Drop)]
pub struct PrintedVolume<'a> {
    /// The files of the image.
    pub paths: Vec<&'a str>,
    /// Whether each line is an object of JSON.
    pub json: bool,
    /// Whether the files are read as far as they go, where the last one has an odd length.
    pub as_far: bool,
}

/// The volume of an image whose hash is printed.
#[derive(Drop)]
pub struct HashedVolume<'a> {
    /// The volume, and how its line is printed.
    pub volume: PrintedVolume<'a>,
    /// Whether its data sets have lines too.
    pub sets: bool,
    /// Whether its data sets and their members have lines too.
    pub members: bool,
}

/// A volume of which it is printed what it holds, and more of its data sets.
#[derive(Drop)]
pub struct DetailedVolume<'a> {
    /// The volume.
    pub volume: PrintedVolume<'a>,
    /// Whether members of partitioned data sets are listed.
    pub members: bool,
    /// Whether it is told what the line of the table leaves out of a data set.
    pub is_long: bool,
}

/// A partitioned data set whose members are listed.
#[derive(Drop)]
pub struct ListedLibrary<'a> {
    /// The volume.
    pub volume: PrintedVolume<'a>,
    /// The name of the data set.
    pub name: &'a str,
}

/// A strict check of the volume of an image.
#[derive(Drop)]
pub struct StrictCheck<'a> {
    /// The volume, and how what is found is printed.
    pub volume: PrintedVolume<'a>,
    /// Whether notes have lines too.
    pub with_notes: bool,
}

/// The volumes of two images that are compared.
#[derive(Drop)]
pub struct ComparedVolumes<'a> {
    /// The files of the first.
    pub one: Vec<&'a str>,
    /// The files of the second.
    pub other: Vec<&'a str>,
    /// Whether each difference has a line; if not, tracks are counted alone.
    pub lists: bool,
    /// Whether each line is an object of JSON.
    pub json: bool,
    /// Whether the files are read as far as they go, where the last one has an odd length.
    pub as_far: bool,
}

/// A data set or a member of one that is taken out of a volume.
#[derive(Drop)]
pub struct ExtractedSet<'a> {
    /// The files of the image.
    pub paths: Vec<&'a str>,
    /// Whether the files are read as far as they go, where the last one has an odd length.
    pub as_far: bool,
    /// What is taken.
    pub name: SetName<'a>,
    /// The new file for it; none is standard output.
    pub target: Option<&'a str>,
    /// What is written of it.
    pub form: FileForm,
    /// The record format and lengths that are given for lines of text.
    pub given: Option<RecordAttributes>,
}

/// A data set whose tracks are taken out of a volume as they stand.
#[derive(Drop)]
pub struct ExtractedTracks<'a> {
    /// The files of the image.
    pub paths: Vec<&'a str>,
    /// Whether the files are read as far as they go, where the last one has an odd length.
    pub as_far: bool,
    /// The name of the data set.
    pub name: &'a str,
    /// The new file for them; none is standard output.
    pub target: Option<&'a str>,
}

/// A volume all of whose data sets are taken out, with all members, each to a new file.
#[derive(Drop)]
pub struct ExtractedVolume<'a> {
    /// The files of the image.
    pub paths: Vec<&'a str>,
    /// Whether the files are read as far as they go, where the last one has an odd length.
    pub as_far: bool,
    /// The folder of the new files.
    pub folder: &'a str,
    /// What is written of it.
    pub form: FileForm,
    /// Whether each line of what is printed is an object of JSON.
    pub json: bool,
}

/// A data set of a volume that gets another name.
#[derive(Drop)]
pub struct RenamedSet<'a> {
    /// The files of the image.
    pub paths: Vec<&'a str>,
    /// Whether a new file takes the place of each that changed; if not, each keeps its place.
    pub replaces: bool,
    /// The name that it has.
    pub old: &'a str,
    /// The name that it gets.
    pub new: &'a str,
}

/// A member of a library that gets another name.
#[derive(Drop)]
pub struct RenamedMember<'a> {
    /// The files of the image.
    pub paths: Vec<&'a str>,
    /// Whether a new file takes the place of each that changed; if not, each keeps its place.
    pub replaces: bool,
    /// The name of the library.
    pub library: &'a str,
    /// The name that the member has.
    pub old: &'a str,
    /// The name that it gets.
    pub new: &'a str,
}

/// A data set of a volume that is deleted.
#[derive(Drop)]
pub struct DeletedSet<'a> {
    /// The files of the image.
    pub paths: Vec<&'a str>,
    /// Whether a new file takes the place of each that changed; if not, each keeps its place.
    pub replaces: bool,
    /// Its name.
    pub name: &'a str,
}

/// A member of a library that is deleted.
#[derive(Drop)]
pub struct DeletedMember<'a> {
    /// The files of the image.
    pub paths: Vec<&'a str>,
    /// Whether a new file takes the place of each that changed; if not, each keeps its place.
    pub replaces: bool,
    /// The name of the library.
    pub library: &'a str,
    /// The name of the member.
    pub member: &'a str,
}

/// A volume whose label says something else later: each where it is given.
#[derive(Drop)]
pub struct RelabelledVolume<'a> {
    /// The files of the image.
    pub paths: Vec<&'a str>,
    /// Whether a new file takes the place of each that changed; if not, each keeps its place.
    pub replaces: bool,
    /// The serial number, in EBCDIC.
    pub serial: Option<[u8; 6]>,
    /// The owner's name, in EBCDIC.
    pub owner: Option<[u8; 10]>,
}

/// Files whose saves were maybe cut off.
#[derive(Drop)]
pub struct RecoveredFiles<'a> {
    /// The files.
    pub paths: Vec<&'a str>,
    /// Whether their journals are dropped; if not, the saves are completed.
    pub drops: bool,
}

/// A file that is put onto a volume as a data set.
#[derive(Drop)]
pub struct LoadedFile<'a> {
    /// The files of the image.
    pub paths: Vec<&'a str>,
    /// Whether a new file takes the place of each that changed; if not, each keeps its place.
    pub replaces: bool,
    /// The name of the data set.
    pub name: &'a str,
    /// The path of the file.
    pub source: &'a str,
    /// What the file has.
    pub form: FileForm,
    /// The format of its records, and the lengths of these and of blocks.
    pub attributes: RecordAttributes,
    /// The length of its keys, in bytes.
    pub key_length: u8,
}

/// A folder whose files are put onto a volume as data sets and libraries.
#[derive(Drop)]
pub struct LoadedFolder<'a> {
    /// The files of the image.
    pub paths: Vec<&'a str>,
    /// Whether a new file takes the place of each that changed; if not, each keeps its place.
    pub replaces: bool,
    /// The folder.
    pub folder: &'a str,
    /// What its files have.
    pub form: FileForm,
}

/// A file that is put into a library of a volume as a new member.
#[derive(Drop)]
pub struct LoadedMember<'a> {
    /// The files of the image.
    pub paths: Vec<&'a str>,
    /// Whether a new file takes the place of each that changed; if not, each keeps its place.
    pub replaces: bool,
    /// The name of the library.
    pub library: &'a str,
    /// The name of the member.
    pub member: &'a str,
    /// The path of the file.
    pub source: &'a str,
    /// What the file has.
    pub form: FileForm,
}

/// What a file has of a data set or of a member.
#[derive(Clone, Copy, PartialEq, Eq)]
pub enum FileForm {
    /// Its blocks as they stand, one behind another.
    Blocks,
    /// Each block behind its lengths and its key.
    WithLengths,
    /// Its records as lines of text, in UTF-8.
    Text,
}

/// The name of a data set or of a member of one.
#[derive(Clone, Copy)]
pub struct SetName<'a> {
    /// The data set.
    pub data_set: &'a str,
    /// Its member.
    pub member: Option<&'a str>,
}

/// A deck that is to be run.
#[derive(Drop)]
pub struct DeckRun<'a> {
    /// The size of main storage, in bytes.
    pub storage: u32,
    /// The number of the channel.
    pub channel: u8,
    /// The file of the deck; none is standard input.
    pub deck: Option<&'a str>,
    /// Whether the files are written back that the deck changed.
    pub saves: bool,
    /// Whether a file that is written back stays the file that it is, and is not replaced by another.
    pub in_place: bool,
    /// Its trace, if one is written.
    pub trace: Option<AskedTrace<'a>>,
    /// The volumes, in the order of the words.
    pub volumes: Vec<Volume<'a>>,
}

/// The trace of a deck.
#[derive(Clone, Copy)]
pub struct AskedTrace<'a> {
    /// Where it goes.
    pub target: TraceTarget<'a>,
    /// Whether starts are left out whose programs do not fail.
    pub failing_only: bool,
    /// How many lines are written at most, which are the last ones.
    pub last: Option<u32>,
    /// Whether it tells each answer too.
    pub with_answers: bool,
    /// Whether a round of lines that comes again is told each time.
    pub is_whole: bool,
}

/// Where the trace of a deck goes.
#[derive(Clone, Copy)]
pub enum TraceTarget<'a> {
    /// To standard error.
    StandardError,
    /// To the file at this path.
    File(&'a str),
}

/// Why the words ask for nothing.
#[derive(Debug, Drop, Error)]
pub enum WordFault {
    /// There is no memory to read them.
    #[error("out of memory")]
    OutOfMemory,
    /// A word of a volume is of another form, or is the ninth file of an image.
    #[error("bad volume")]
    BadVolume,
    /// They are wrong: this text says how.
    #[error("{0}")]
    Usage(String),
    /// They ask for help, which is this text.
    #[error("{0}")]
    Help(String),
    /// They ask for the version, which is this text.
    #[error("{0}")]
    Version(String),
}

impl From<AllocError> for WordFault {
    fn from(_fault: AllocError) -> WordFault {
        WordFault::OutOfMemory
    }
}
