//! What a strict check finds, how grave it is, and where.

ghost use Rattle.std.specs.Prelude.{◌≡◌, [], ◌∷◌, Some, codes};
ghost use Rattle.std.specs.List.{concat};
ghost use Rattle.std.specs.Fmt.{WritesOnOk, decimal};
ghost use Rattle.dasd_volumes.specs.Lines.{bytes_text};
ghost use Rattle.dasd_archive.specs.Findings.{severity_of, severity_text, kind_text, problem_text, place_text, place_members};

use ckd_track::SlotFault;
use dasd_volumes::{Hexadecimal, PrintedAddress, Reason};
use std::fmt;

/// How grave a finding is.
#[derive(Clone, Copy)]
pub enum Severity {
    /// A reader of the drive would trip over it, or the drive could not have written it.
    Error,
    /// It is unusual, and likely wrong.
    Warning,
    /// It is legal, and worth to know.
    Note,
}

/// What is found of a header or of a track. A record is named by its place on the track, R0 being 0; bytes are those that stand
/// there.
#[derive(Clone, Copy)]
pub enum StrictProblem {
    /// A reserved byte of a header is not zero; the first such offset, in bytes.
    ReservedBytes(usize),
    /// The slot spells no track.
    Unreadable(SlotFault),
    /// The home address has another cylinder or head than the track.
    OtherHomeAddress([u8; 5]),
    /// The home address has flag bits, as those of a defective or of an alternate track.
    Flagged([u8; 5]),
    /// The track has no record, or its first record's number is not 0.
    NoRecord0,
    /// The records take more than the drive's capacity: so many bytes.
    OverCapacity(u32),
    /// A record has the identifier of an earlier one.
    SameIdentifier(usize, [u8; 5]),
    /// A record's identifier has another cylinder or head than the track.
    OtherIdentifier(usize, [u8; 5]),
    /// A record has no data: it is an end of file.
    EndOfFile(usize),
    /// Bytes behind the end mark are not zero; the first such offset in the slot.
    BytesBehindEnd(usize),
}

/// Where something is found.
#[derive(Clone, Copy)]
pub enum FindingPlace {
    /// In the header of a file of the image; the first is number 1.
    Header(u8),
    /// On the track of this cylinder and head.
    Track(u16, u16),
}

/// A problem and where it is.
#[derive(Clone, Copy)]
pub struct StrictFinding {
    /// Where it is.
    pub place: FindingPlace,
    /// What it is.
    pub problem: StrictProblem,
}

impl StrictProblem {
    /// How grave it is.
    pub fn severity(&self) -> Severity
        ensures { result ≡ severity_of self.now }
    {
        match self {
            StrictProblem::Unreadable(_)
            | StrictProblem::OtherHomeAddress(_)
            | StrictProblem::NoRecord0
            | StrictProblem::OverCapacity(_) => Severity::Error,
            StrictProblem::ReservedBytes(_)
            | StrictProblem::Flagged(_)
            | StrictProblem::SameIdentifier(_, _) => { Severity::Warning }
            StrictProblem::OtherIdentifier(_, _)
            | StrictProblem::EndOfFile(_)
            | StrictProblem::BytesBehindEnd(_) => Severity::Note,
        }
    }

    // Its kind, without the numbers of one.
    pub(crate) fn kind(&self) -> &'static str
        ensures { result.now ≡ kind_text self.now }
    {
        match self {
            StrictProblem::ReservedBytes(_) => "reserved bytes",
            StrictProblem::Unreadable(_) => "unreadable",
            StrictProblem::OtherHomeAddress(_) => "other home address",
            StrictProblem::Flagged(_) => "flagged home address",
            StrictProblem::NoRecord0 => "no record 0",
            StrictProblem::OverCapacity(_) => "over capacity",
            StrictProblem::SameIdentifier(_, _) => "same identifier",
            StrictProblem::OtherIdentifier(_, _) => "other identifier",
            StrictProblem::EndOfFile(_) => "end of file",
            StrictProblem::BytesBehindEnd(_) => "bytes after end",
        }
    }
}

impl fmt::Display for Severity {
    ghost output = { λ s. Some (severity_text s) };

    fn fmt<W: fmt::Write>(&self, f: &mut fmt::Formatter<W>) -> fmt::Result {
        match self {
            Severity::Error => f.write_str("error"),
            Severity::Warning => f.write_str("warning"),
            Severity::Note => f.write_str("note"),
        }
    }
}

impl fmt::Display for StrictProblem {
    ghost output = { λ p. Some (problem_text p) };

    fn fmt<W: fmt::Write>(&self, f: &mut fmt::Formatter<W>) -> fmt::Result {
        match self {
            StrictProblem::ReservedBytes(at) => write_number(
                f,
                "reserved byte at ",
                *at,
                " is not zero",
            ),
            StrictProblem::Unreadable(fault) => write!(f, "{}", Reason(*fault)),
            StrictProblem::OtherHomeAddress(ha) => write_home_address(f, ha, " of another track"),
            StrictProblem::Flagged(ha) => write_home_address(f, ha, " with flags"),
            StrictProblem::NoRecord0 => f.write_str("no record 0"),
            StrictProblem::OverCapacity(used) => {
                write_number(f, "records take ", *used as usize, ", over the capacity")
            }
            StrictProblem::SameIdentifier(i, id) => write_identifier(
                f,
                *i,
                id,
                " of an earlier one",
            ),
            StrictProblem::OtherIdentifier(i, id) => write_identifier(
                f,
                *i,
                id,
                " of another track",
            ),
            StrictProblem::EndOfFile(i) => write_number(f, "record ", *i, " is an end of file"),
            StrictProblem::BytesBehindEnd(at) => {
                write_number(f, "bytes after the end mark from ", *at, " on")
            }
        }
    }
}

// A number, and the words before and behind it.
fn write_number<W: fmt::Write>(
    f: &mut fmt::Formatter<W>,
    before: &str,
    number: usize,
    behind: &str,
) -> fmt::Result
    ensures { WritesOnOk W.write_str_gives f.old result (concat (before.now ∷ decimal number ∷ behind.now ∷ [])) f.new }
{
    write!(f, "{before}{number}{behind}")
}

// A home address, and what is said of it.
fn write_home_address<W: fmt::Write>(
    f: &mut fmt::Formatter<W>,
    home_address: &[u8; 5],
    behind: &str,
) -> fmt::Result
    ensures { WritesOnOk W.write_str_gives f.old result
        (concat (codes "home address " ∷ bytes_text home_address.now ∷ behind.now ∷ [])) f.new }
{
    write!(f, "home address {}{behind}", Hexadecimal(home_address))
}

// The identifier of a record, and whose it is.
fn write_identifier<W: fmt::Write>(
    f: &mut fmt::Formatter<W>,
    i: usize,
    identifier: &[u8; 5],
    behind: &str,
) -> fmt::Result
    ensures { WritesOnOk W.write_str_gives f.old result
        (concat (codes "record " ∷ decimal i ∷ codes " has the identifier " ∷ bytes_text identifier.now
        ∷ behind.now ∷ [])) f.new }
{
    write!(
        f,
        "record {i} has the identifier {}{behind}",
        Hexadecimal(identifier)
    )
}

impl fmt::Display for FindingPlace {
    ghost output = { λ p. Some (place_text p) };

    fn fmt<W: fmt::Write>(&self, f: &mut fmt::Formatter<W>) -> fmt::Result {
        match self {
            FindingPlace::Header(file) => write!(f, "header of file {file}"),
            FindingPlace::Track(cylinder, head) => {
                let cylinder = *cylinder;
                let head = *head;
                write!(f, "{}", PrintedAddress { cylinder, head })
            }
        }
    }
}

/// A place as members of an object.
#[derive(Clone, Copy)]
pub(crate) struct PlaceMembers(pub(crate) FindingPlace);

impl fmt::Display for PlaceMembers {
    ghost output = { λ m. Some (place_members m.0) };

    fn fmt<W: fmt::Write>(&self, f: &mut fmt::Formatter<W>) -> fmt::Result {
        match self.0 {
            FindingPlace::Header(file) => write!(f, "\"file\":{file}"),
            FindingPlace::Track(cylinder, head) => write!(
                f,
                "\"cylinder\":{cylinder},\"head\":{head}"
            ),
        }
    }
}
