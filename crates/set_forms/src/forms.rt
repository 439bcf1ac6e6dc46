//! What the text says of a data set, and of an entry of its directory.

ghost use Rattle.std.specs.Prelude.{◌≡◌};
ghost use Rattle.set_forms.specs.Forms.{is_partitioned};

use arrayvec::ArrayVec;
use volume_labels::Date;

/// The bit of a data set's organisation that says that it is partitioned (IBM System/360 Operating System, System Control Blocks,
/// 'Data Set Control Block', format 1, DS1DSORG).
const PARTITIONED: u16 = 0x0200;

/// Of a data set that is a part of one on several volumes, or has extents that are no plain ones, what its label says of both.
#[derive(Clone, Copy)]
pub struct SetDetails {
    /// The number of its volume among those of the data set, the first being 1.
    pub volume: u16,
    /// The types of its extents that are no plain ones, as bits: 0x80 where one shares its cylinders, 0x40 where one is for user labels.
    pub extents: u8,
}

/// What a data set's label says of it, but where it lies, and how long its directory is.
#[derive(Clone, Copy)]
pub struct SetForm {
    /// Its name, in EBCDIC, with blanks behind it.
    pub name: [u8; 44],
    /// Its organisation, as bits.
    pub organisation: u16,
    /// Its record format, as bits.
    pub format: u8,
    /// The length of its records, in bytes.
    pub record_length: u16,
    /// The length of its blocks, in bytes.
    pub block_length: u16,
    /// The length of its keys, in bytes.
    pub key_length: u8,
    /// When it was made.
    pub created: Date,
    /// When it may be scratched.
    pub expires: Date,
    /// How many blocks its directory has, if it is partitioned.
    pub directory: Option<u16>,
    /// Its volume and its extents, if the text says them; else it is on one volume, in plain extents.
    pub details: Option<SetDetails>,
}

/// Where an address at the front of an entry's user data leads to (IBM System/360 Operating System, System Control Blocks, 'Partitioned
/// Data Set Directory'), and the byte behind the address.
#[derive(Clone, Copy)]
pub enum Note {
    /// To a block of the member, by its number, the first being 1.
    Block(u32, u8),
    /// To no block of the member: the address as it stands.
    Address([u8; 3], u8),
}

impl Default for Note {
    fn default() -> Note {
        Note::Block(1, 0)
    }
}

/// An entry of a directory: a member, or another name of one.
#[derive(Drop)]
pub struct EntryForm {
    /// Its name, in EBCDIC, with blanks behind it.
    pub name: [u8; 8],
    /// The name of the member whose blocks it has, if it is another name of one.
    pub member: Option<[u8; 8]>,
    /// The addresses of blocks at the front of its user data.
    pub notes: ArrayVec<Note, 3>,
    /// The rest of its user data.
    pub user: ArrayVec<u8, 62>,
}

/// What a line says.
#[derive(Drop)]
pub enum FormLine {
    /// What a data set is.
    Set(SetForm),
    /// What an entry of the directory is of the data set of the nearest such line before it.
    Entry(EntryForm),
}

/// Whether a data set of this organisation has a directory.
pub fn is_partitioned(organisation: u16) -> bool
    ensures { result ≡ is_partitioned organisation }
{
    organisation & PARTITIONED != 0
}
