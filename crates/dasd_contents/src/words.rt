//! The words in which labels, control blocks and findings are printed.

ghost use Rattle.std.specs.Prelude.{◌≡◌, ◌≤◌, [], ◌∷◌, Some, length, codes};
ghost use Rattle.std.specs.List.{concat};
ghost use Rattle.std.specs.Fmt.{WritesOnOk, decimal};
ghost use Rattle.counted_io.specs.Quantities.{quantity_text};
ghost use Rattle.dasd_volumes.specs.Lines.{hexadecimal};
ghost use Rattle.dasd_contents.specs.Words.{owner_text, track_text, place_text, extent_text, piece_text, in_text, text_of, is_date, day_text, organisation_of};
ghost use Rattle.dasd_contents.specs.Words.{unmovable, organisation_text, form_of, where_set, format_text, chain_text, problem_text, kind_text};

use counted_io::Quantity;
use dasd_volumes::{PrintedAddress as Address, Reason};
use std::fmt;
use std::fmt::Display;
use volume_contents::{ChainFault, Problem};
use volume_labels::{
    Date, Extent, FreeTracks, RecordAddress, TrackAddress, shown_character, without_blanks,
};

/// A track: cylinder and head.
#[derive(Clone, Copy)]
pub(crate) struct Track(pub(crate) TrackAddress);

impl Display for Track {
    ghost output = { λ t. Some (track_text t.0) };

    fn fmt<W: fmt::Write>(&self, f: &mut fmt::Formatter<W>) -> fmt::Result {
        let TrackAddress { cylinder, head } = self.0;
        write!(f, "{}", Address { cylinder, head })
    }
}

/// A record: cylinder, head and number; or the track alone, where the number is 0.
#[derive(Clone, Copy)]
pub(crate) struct Place(pub(crate) RecordAddress);

impl Display for Place {
    ghost output = { λ p. Some (place_text p.0) };

    fn fmt<W: fmt::Write>(&self, f: &mut fmt::Formatter<W>) -> fmt::Result {
        let track = Track(self.0.track);
        let number = self.0.number;
        if number == 0 {
            return write!(f, "{track}");
        }
        write!(f, "{track} R{number}")
    }
}

/// Text in EBCDIC, without the blanks at its end, whose characters that are not printing ones of ASCII are dots. In `quoted` text
/// quotation marks and backslashes stand behind a backslash, as JSON has them.
#[derive(Clone, Copy)]
pub(crate) struct Text<'a> {
    pub(crate) bytes: &'a [u8],
    pub(crate) quoted: bool,
}

impl Display for Text<'_> {
    ghost output = { λ t. Some (text_of t.quoted t.bytes.now) };

    fn fmt<W: fmt::Write>(&self, f: &mut fmt::Formatter<W>) -> fmt::Result {
        for byte in self.bytes {
            write_character(f, self.quoted, shown_character(*byte))?;
        }
        Ok(())
    }
}

// A character, behind a backslash where quoted text needs one.
fn write_character<W: fmt::Write>(
    f: &mut fmt::Formatter<W>,
    quoted: bool,
    character: u8,
) -> fmt::Result
    ensures { WritesOnOk W.write_str_gives f.old result (in_text quoted character) f.new }
{
    if quoted && (character == b'"' || character == b'\\') {
        f.write_char('\\')?;
        return f.write_char(char::from(character));
    }
    f.write_char(char::from(character))
}

/// A volume's owner, or a hyphen where there are but blanks.
#[derive(Clone, Copy)]
pub(crate) struct Owner<'a>(pub(crate) &'a [u8]);

impl Display for Owner<'_> {
    ghost output = { λ o. Some (owner_text o.0.now) };

    fn fmt<W: fmt::Write>(&self, f: &mut fmt::Formatter<W>) -> fmt::Result {
        let bytes = without_blanks(self.0);
        if bytes.is_empty() {
            return f.write_str("-");
        }
        let quoted = false;
        write!(f, "{}", Text { bytes, quoted })
    }
}

/// A date as a year and the day of it, or a hyphen. It is eight characters wide where it is `wide`.
#[derive(Clone, Copy)]
pub(crate) struct Day {
    pub(crate) date: Date,
    pub(crate) wide: bool,
}

/// Whether there is a date.
pub(crate) fn is_date(date: Date) -> bool
    ensures { result ≡ is_date date }
{
    date.year != 0 || date.day != 0
}

impl Display for Day {
    ghost output = { λ d. Some (day_text d.wide d.date) };

    fn fmt<W: fmt::Write>(&self, f: &mut fmt::Formatter<W>) -> fmt::Result {
        if !is_date(self.date) {
            return f.write_str(if self.wide { "-       " } else { "-" });
        }
        let year = 1900 + u16::from(self.date.year);
        let day = self.date.day;
        write!(f, "{year}-{day:03}")
    }
}

/// The organisation of a data set, in two letters and `U` where it can't be moved. It is three characters wide where it is
/// `wide`.
#[derive(Clone, Copy)]
pub(crate) struct Organisation {
    pub(crate) bits: u16,
    pub(crate) wide: bool,
}

impl Display for Organisation {
    ghost output = { λ o. Some (organisation_text o.wide o.bits) };

    fn fmt<W: fmt::Write>(&self, f: &mut fmt::Formatter<W>) -> fmt::Result {
        f.write_str(letters_of(self.bits & 0xFEFF))?;
        f.write_str(unmovable(self.bits, self.wide))
    }
}

// The two letters of an organisation.
fn letters_of(bits: u16) -> &'static str
    ensures { result.now ≡ organisation_of bits }
{
    match bits {
        0x8000 => "IS",
        0x4000 => "PS",
        0x2000 => "DA",
        0x0200 => "PO",
        0x0008 => "VS",
        _ => "??",
    }
}

// What is said of whether a data set can be moved.
fn unmovable(bits: u16, wide: bool) -> &'static str
    ensures { result.now ≡ unmovable wide bits }
{
    if bits & 0x0100 != 0 {
        return "U";
    }
    if wide { " " } else { "" }
}

/// A record format in letters, as job control has them.
#[derive(Clone, Copy)]
pub(crate) struct Format(pub(crate) u8);

impl Display for Format {
    ghost output = { λ f. Some (format_text f.0) };

    fn fmt<W: fmt::Write>(&self, f: &mut fmt::Formatter<W>) -> fmt::Result {
        let format = self.0;
        let form = form_of(format & 0xC0);
        let blocked = where_set(format, 0x10, "B");
        let spanned = where_set(format, 0x08, "S");
        let overflow = where_set(format, 0x20, "T");
        let asa = where_set(format, 0x04, "A");
        let machine = where_set(format, 0x02, "M");
        write!(f, "{form}{blocked}{spanned}{overflow}{asa}{machine}")
    }
}

// The letter of the form of records.
fn form_of(bits: u8) -> &'static str
    ensures { result.now ≡ form_of bits }
{
    match bits {
        0x80 => "F",
        0x40 => "V",
        0xC0 => "U",
        _ => "?",
    }
}

// The letter of a flag that a record format has, and else none.
fn where_set(format: u8, flag: u8, letter: &'static str) -> &'static str
    ensures { result.now ≡ where_set format flag letter.now }
{
    if format & flag != 0 { letter } else { "" }
}

/// How many letters a record format has.
pub(crate) fn format_width(format: u8) -> usize
    ensures value { result ≡ length (format_text format) }
    ensures few { result ≤ 6 }
{
    form_of(format & 0xC0).len()
        + where_set(format, 0x10, "B").len()
        + where_set(format, 0x08, "S").len()
        + where_set(format, 0x20, "T").len()
        + where_set(format, 0x04, "A").len()
        + where_set(format, 0x02, "M").len()
}

/// The first and the last track of an extent.
#[derive(Clone, Copy)]
pub(crate) struct Bounds(pub(crate) Extent);

impl Display for Bounds {
    ghost output = { λ b. Some (extent_text b.0) };

    fn fmt<W: fmt::Write>(&self, f: &mut fmt::Formatter<W>) -> fmt::Result {
        write!(f, "{} .. {}", Track(self.0.first), Track(self.0.last))
    }
}

// A piece of free tracks.
#[derive(Clone, Copy)]
struct Piece(FreeTracks);

impl Display for Piece {
    ghost output = { λ p. Some (piece_text p.0) };

    fn fmt<W: fmt::Write>(&self, f: &mut fmt::Formatter<W>) -> fmt::Result {
        let FreeTracks {
            first,
            cylinders,
            tracks,
        } = self.0;
        let cylinders = Quantity::new(u64::from(cylinders), "cylinder", "cylinders");
        let tracks = Quantity::new(u64::from(tracks), "track", "tracks");
        write!(f, "from track {first} on, {cylinders} and {tracks}")
    }
}

/// Why a chain of control blocks is not followed further.
#[derive(Clone, Copy)]
pub struct Broken(pub ChainFault);

impl Display for Broken {
    ghost output = { λ c. Some (chain_text c.0) };

    fn fmt<W: fmt::Write>(&self, f: &mut fmt::Formatter<W>) -> fmt::Result {
        match self.0 {
            ChainFault::Missing(at) => write_at(f, "next control block ", at, " is none"),
            ChainFault::OtherFormat(at) => {
                write_at(f, "next control block ", at, " has another format")
            }
            ChainFault::Endless(at) => {
                write_at(f, "chain of control blocks does not end, at ", at, "")
            }
        }
    }
}

// A place, and the words before and behind it.
fn write_at<W: fmt::Write>(
    f: &mut fmt::Formatter<W>,
    before: &str,
    place: RecordAddress,
    behind: &str,
) -> fmt::Result
    ensures { WritesOnOk W.write_str_gives f.old result (concat (before.now ∷ place_text place ∷ behind.now ∷ [])) f.new }
{
    write!(f, "{before}{}{behind}", Place(place))
}

/// The kind of a problem, without what it is about.
pub(crate) fn kind_of(problem: &Problem) -> &'static str
    ensures { result.now ≡ kind_text problem.now }
{
    match problem {
        Problem::NoLabel => "no volume label",
        Problem::NoContents(_) => "no volume table of contents",
        Problem::BadContents(_) => "bad extent of the volume table of contents",
        Problem::Unreadable(_) => "unreadable",
        Problem::NoBlock => "no control block",
        Problem::UnknownFormat(_) => "unknown format",
        Problem::OtherKey => "other key",
        Problem::Chain(ChainFault::Missing(_)) => "next block missing",
        Problem::Chain(ChainFault::OtherFormat(_)) => "next block of another format",
        Problem::Chain(ChainFault::Endless(_)) => "endless chain",
        Problem::OtherNumber(_, _) => "other number of extents",
        Problem::BadExtent(_) => "bad extent",
        Problem::ExtentOutside(_) => "extent outside",
        Problem::Overlap(_, _) => "overlap",
        Problem::FreeOutside(_) => "free tracks outside",
        Problem::FreeInUse(_, _) => "free tracks in use",
    }
}

/// What is wrong.
#[derive(Clone, Copy)]
pub(crate) struct Wrong(pub(crate) Problem);

impl Display for Wrong {
    ghost output = { λ w. Some (problem_text w.0) };

    fn fmt<W: fmt::Write>(&self, f: &mut fmt::Formatter<W>) -> fmt::Result {
        match self.0 {
            Problem::NoLabel => f.write_str("no volume label"),
            Problem::NoContents(at) => write_at(f, "no volume table of contents at ", at, ""),
            Problem::BadContents(extent) => {
                write_extent(f, extent, " of the volume table of contents")
            }
            Problem::Unreadable(fault) => Reason(fault).fmt(f),
            Problem::NoBlock => f.write_str("record has not the lengths of a control block"),
            Problem::UnknownFormat(format) => write_format(f, format),
            Problem::OtherKey => f.write_str("control block has a key of another format"),
            Problem::Chain(fault) => Broken(fault).fmt(f),
            Problem::OtherNumber(found, said) => write_number(f, found, said),
            Problem::BadExtent(extent) => write_extent(f, extent, " is no run of tracks"),
            Problem::ExtentOutside(extent) => {
                write_extent(f, extent, " is not all on the volume")
            }
            Problem::Overlap(extent, track) => write_overlap(f, extent, track),
            Problem::FreeOutside(piece) => write_outside(f, piece),
            Problem::FreeInUse(piece, track) => write_in_use(f, piece, track),
        }
    }
}

// The format of a control block that is none of those known.
fn write_format<W: fmt::Write>(f: &mut fmt::Formatter<W>, format: u8) -> fmt::Result
    ensures { WritesOnOk W.write_str_gives f.old result (concat (codes "control block of unknown format " ∷ hexadecimal 2 format ∷ [])) f.new }
{
    write!(f, "control block of unknown format {format:02X}")
}

// How many extents there are, and how many there should be.
fn write_number<W: fmt::Write>(f: &mut fmt::Formatter<W>, found: usize, said: u8) -> fmt::Result
    ensures { WritesOnOk W.write_str_gives f.old result
        (concat (quantity_text found (codes "extent") (codes "extents") ∷ codes ", and not " ∷ decimal said ∷ [])) f.new }
{
    let extents = Quantity::new(found as u64, "extent", "extents");
    write!(f, "{extents}, and not {said}")
}

// An extent, and what is wrong with it.
fn write_extent<W: fmt::Write>(
    f: &mut fmt::Formatter<W>,
    extent: Extent,
    behind: &str,
) -> fmt::Result
    ensures { WritesOnOk W.write_str_gives f.old result (concat (codes "extent " ∷ extent_text extent ∷ behind.now ∷ [])) f.new }
{
    write!(f, "extent {}{behind}", Bounds(extent))
}

// An extent with a track that is another's.
fn write_overlap<W: fmt::Write>(
    f: &mut fmt::Formatter<W>,
    extent: Extent,
    track: u32,
) -> fmt::Result
    ensures { WritesOnOk W.write_str_gives f.old result
        (concat (codes "extent " ∷ extent_text extent ∷ codes " has track " ∷ decimal track ∷ codes " of an earlier one" ∷ [])) f.new }
{
    let extent = Bounds(extent);
    write!(f, "extent {extent} has track {track} of an earlier one")
}

// Free tracks that the volume has not.
fn write_outside<W: fmt::Write>(f: &mut fmt::Formatter<W>, piece: FreeTracks) -> fmt::Result
    ensures { WritesOnOk W.write_str_gives f.old result
        (concat (codes "free tracks " ∷ piece_text piece ∷ codes " are not all on the volume" ∷ [])) f.new }
{
    write!(f, "free tracks {} are not all on the volume", Piece(piece))
}

// Free tracks one of which is not free.
fn write_in_use<W: fmt::Write>(
    f: &mut fmt::Formatter<W>,
    piece: FreeTracks,
    track: u32,
) -> fmt::Result
    ensures { WritesOnOk W.write_str_gives f.old result
        (concat (codes "free tracks " ∷ piece_text piece ∷ codes " have track " ∷ decimal track ∷ codes ", which is not free" ∷ [])) f.new }
{
    let piece = Piece(piece);
    write!(
        f,
        "free tracks {piece} have track {track}, which is not free"
    )
}
