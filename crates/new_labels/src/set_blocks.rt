//! The control blocks of a new data set.

ghost use Rattle.std.specs.Prelude.{◌≡◌};
ghost use Rattle.volume_labels.specs.Labels.{data_set_block_of, contents_block_of};
ghost use Rattle.new_labels.specs.SetBlocks.{address_bytes, record_bytes, extent_bytes, numbers_bytes, form_bytes, length_bytes, last_bytes, data_set_data, new_fields, fields_of};
ghost use Rattle.new_labels.specs.SetBlocks.{data_set_read, updated_contents, updated_read};

use ckd_track::overwrite;
use volume_labels::{Date, Extent, RecordAddress, RelativeAddress, TrackAddress};

/// What a format 1 block says beside the name, the days, the form and the place of its data set; a block that is written anew keeps it.
#[derive(Clone, Copy)]
pub struct KeptFields {
    /// At 18: the code of the system that made the data set, and what stands behind it.
    pub system: [u8; 20],
    /// At 41: the option code.
    pub options: u8,
    /// At 47: where keys stand in records; the indicators, among which are those of a password; and how more tracks are given to it.
    pub allocation: [u8; 7],
}

/// What the format 1 block of a new data set says: one that is on one volume, in one extent.
#[derive(Clone, Copy)]
pub struct NewDataSet {
    /// Its name, in EBCDIC, with blanks behind it.
    pub name: [u8; 44],
    /// The serial number of its volume, in EBCDIC.
    pub serial: [u8; 6],
    /// When it is made.
    pub created: Date,
    /// When it expires; all zeros where nobody says when.
    pub expires: Date,
    /// Its organisation, as bits: 0x4000 is physically sequential, 0x0200 partitioned.
    pub organisation: u16,
    /// Its record format, as bits.
    pub format: u8,
    /// The length of its blocks, in bytes.
    pub block_length: u16,
    /// The length of its records, in bytes; 0 where that is undefined.
    pub record_length: u16,
    /// The length of the keys of its blocks, in bytes; 0 where they have none.
    pub key_length: u8,
    /// Its last block.
    pub last: RelativeAddress,
    /// How many bytes the track of its last block has left.
    pub balance: u16,
    /// Its extent.
    pub extent: Extent,
    /// What else its block says.
    pub kept: KeptFields,
}

/// What a data set has of these that is not written anew: blanks, no option, and no more tracks where it is full. It is on its last volume.
pub fn new_fields() -> KeptFields
    ensures { result ≡ new_fields }
{
    let mut system = [0; 20];
    overwrite(&mut system, 0, &[0x40; 13]);
    KeptFields {
        system,
        options: 0,
        allocation: [0, 0, 0x80, 0x80, 0, 0, 0],
    }
}

/// Those of a block of format 1.
pub fn fields_of(bytes: &[u8; 96]) -> KeptFields
    ensures { result ≡ fields_of bytes.now }
{
    let mut system = [0; 20];
    system.copy_from_slice(&bytes[18..38]);
    let mut allocation = [0; 7];
    allocation.copy_from_slice(&bytes[47..54]);
    KeptFields {
        system,
        options: bytes[41],
        allocation,
    }
}

// Cylinder and head of a track.
fn address_bytes(track: TrackAddress) -> [u8; 4]
    ensures { result ≡ address_bytes track }
{
    let [c0, c1] = track.cylinder.to_be_bytes();
    let [h0, h1] = track.head.to_be_bytes();
    [c0, c1, h0, h1]
}

/// The address of a record in its five bytes.
pub fn record_bytes(address: RecordAddress) -> [u8; 5]
    ensures { result ≡ record_bytes address }
{
    let [c0, c1, h0, h1] = address_bytes(address.track);
    [c0, c1, h0, h1, address.number]
}

// An extent in its ten bytes.
fn extent_bytes(extent: Extent) -> [u8; 10]
    ensures { result ≡ extent_bytes extent }
{
    let [f0, f1, f2, f3] = address_bytes(extent.first);
    let [l0, l1, l2, l3] = address_bytes(extent.last);
    [extent.kind, extent.number, f0, f1, f2, f3, l0, l1, l2, l3]
}

// The number of the volume, the days on which a data set is made and expires, and one extent.
fn numbers_bytes(created: Date, expires: Date) -> [u8; 9]
    ensures { result ≡ numbers_bytes created expires }
{
    let [d0, d1] = created.day.to_be_bytes();
    let [e0, e1] = expires.day.to_be_bytes();
    [0, 1, created.year, d0, d1, expires.year, e0, e1, 1]
}

// Organisation, record format and option code.
fn form_bytes(organisation: u16, format: u8, options: u8) -> [u8; 4]
    ensures { result ≡ form_bytes organisation format options }
{
    let [o0, o1] = organisation.to_be_bytes();
    [o0, o1, format, options]
}

// The lengths of a block, of a record and of a key.
fn length_bytes(block: u16, size: u16, key: u8) -> [u8; 5]
    ensures { result ≡ length_bytes block size key }
{
    let [b0, b1] = block.to_be_bytes();
    let [s0, s1] = size.to_be_bytes();
    [b0, b1, s0, s1, key]
}

// The last block, and what its track has left.
fn last_bytes(last: RelativeAddress, balance: u16) -> [u8; 5]
    ensures { result ≡ last_bytes last balance }
{
    let [t0, t1] = last.track.to_be_bytes();
    let [b0, b1] = balance.to_be_bytes();
    [t0, t1, last.number, b0, b1]
}

/// The data of a block of format 1, whose key is the name.
pub fn data_set_data(set: &NewDataSet) -> [u8; 96]
    ensures bytes { result ≡ data_set_data set.now }
    ensures read { data_set_block_of set.now.name result ≡ data_set_read set.now }
{
    let mut bytes = [0; 96];
    overwrite(&mut bytes, 61, &extent_bytes(set.extent));
    overwrite(&mut bytes, 54, &last_bytes(set.last, set.balance));
    overwrite(&mut bytes, 47, &set.kept.allocation);
    overwrite(
        &mut bytes,
        42,
        &length_bytes(set.block_length, set.record_length, set.key_length),
    );
    overwrite(
        &mut bytes,
        38,
        &form_bytes(set.organisation, set.format, set.kept.options),
    );
    overwrite(&mut bytes, 18, &set.kept.system);
    overwrite(&mut bytes, 7, &numbers_bytes(set.created, set.expires));
    overwrite(&mut bytes, 1, &set.serial);
    overwrite(&mut bytes, 0, &[0xF1]);
    bytes
}

/// The data of a block of format 4 that has another last block of format 1 and another number of free blocks, and all else as it was.
pub fn updated_contents(bytes: &[u8; 96], last: RecordAddress, free: u16) -> [u8; 96]
    ensures bytes { result ≡ updated_contents bytes.now last free }
    ensures read { contents_block_of result ≡ updated_read bytes.now last free }
{
    let [c0, c1, h0, h1] = address_bytes(last.track);
    let [f0, f1] = free.to_be_bytes();
    let mut changed = *bytes;
    overwrite(
        &mut changed,
        0,
        &[0xF4, c0, c1, h0, h1, last.number, f0, f1],
    );
    changed
}
