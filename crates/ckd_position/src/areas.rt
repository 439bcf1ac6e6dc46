//! The areas of a track in the order in which they pass, and the next one of a kind.

/// A part of a record.
#[derive(Clone, Copy, Debug)]
pub enum RecordPart {
    /// The count area: cylinder, head, record number, key length and data length.
    Count,
    /// The key area, which a record with key length 0 does not have.
    Key,
    /// The data area, which may have no bytes.
    Data,
}

/// An area of a track.
#[derive(Clone, Copy, Debug)]
pub enum Area {
    /// The home address.
    HomeAddress,
    /// A part of the record of this number: R0, the track's first record, is record 0.
    Of(RecordPart, usize),
}

/// How far a turn of the track has come.
#[derive(Clone, Copy, Debug)]
pub enum Position {
    /// At the index: no area has passed.
    AtIndex,
    /// This area passed last.
    At(Area),
}

/// What is looked for on a turn of the track.
#[derive(Clone, Copy, Debug)]
pub enum Kind {
    /// The home address.
    HomeAddress,
    /// The next count area, of record 0 too.
    AnyCount,
    /// The count area of record 0.
    FirstCount,
    /// The next count area behind that of record 0.
    LaterCount,
    /// The key area of a record whose count area just passed; else of the next record behind record 0 that has one.
    Key,
    /// The data area of a record whose count or key area just passed; else of the next record behind record 0.
    Data,
    /// The data area of a record whose key has not passed: of the one whose count area just passed, else of the next
    /// record behind record 0.
    KeyAndData,
    /// The data area of record 1.
    FirstData,
}

/// What a look finds before the index passes.
#[derive(Clone, Copy, Debug)]
pub enum Next {
    /// This area is next.
    Found(Area),
    /// No such area is left on this turn.
    IndexPassed,
}
