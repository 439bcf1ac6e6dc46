//! What a drive remembers beside its volume.

use ckd_position::Position;
use ckd_sense::{FileMask, Sense};

/// What a command leaves for the very next one: the area that it found equal, or that it wrote. TIC may stand
/// between the two commands; every other command takes the credit away.
#[derive(Clone, Copy)]
pub enum Credit {
    /// A search found the whole home address equal.
    EqualHomeAddress,
    /// A search found the whole id of this record equal.
    EqualId(usize),
    /// A search found the whole key of this record equal.
    EqualKey(usize),
    /// Write Home Address changed the track.
    WroteHomeAddress,
    /// Write R0 or Write Count, Key and Data made this record.
    WroteRecord(usize),
}

/// How often the index has passed since the commands began to look on this track.
#[derive(Clone, Copy)]
pub enum Lap {
    /// Not yet.
    First,
    /// Once: where it passes again, no record was found.
    Second,
}

/// All that a drive remembers beside its volume. Cylinder, head and sense stay between programs; the rest begins anew
/// with each program.
#[derive(Clone, Copy)]
pub struct Registers {
    /// The cylinder at which the arm stands.
    pub cylinder: u16,
    /// The head that is selected.
    pub head: u16,
    /// The sense bytes.
    pub sense: Sense,
    /// The last area that passed on this turn of the track.
    pub position: Position,
    /// The file mask.
    pub file_mask: FileMask,
    /// Whether a Set File Mask has set the mask in this program.
    pub mask_set: bool,
    /// What the command just before left.
    pub credit: Option<Credit>,
    /// The turn that the looks are on.
    pub lap: Lap,
}

/// The track under the arm, as far as the image is concerned.
#[derive(Clone, Copy)]
pub enum Mark {
    /// As it was loaded or saved.
    Saved,
    /// Written since, and not saved yet.
    Written,
    /// Written, and its saving failed.
    Lost,
}
