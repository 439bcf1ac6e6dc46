//! The entries of a directory.

ghost use Rattle.std.specs.Prelude.{◌≡◌, ◌≤◌, ◌+◌, ◌++◌, length, slice_index_or, replicate, [], All};
ghost use Rattle.record_tracks.specs.Entries.{contents_of, all_contents, entry_front, all_entries, last_entry, lengths_byte, IsEntry};

use volume_labels::RelativeAddress;

/// An entry that a directory is to have: a member of the library, or another name of one.
#[derive(Clone, Copy)]
pub struct NewEntry<'a> {
    /// The name, in EBCDIC, with blanks behind it.
    pub name: [u8; 8],
    /// The first block of the member.
    pub address: RelativeAddress,
    /// Whether it is another name of a member that has an entry of its own.
    pub is_alias: bool,
    /// How many addresses of blocks within the member its user data begins with: at most three, of four bytes each.
    pub notes: u8,
    /// What else the directory keeps of the member: at most 62 bytes, and a whole number of halfwords.
    pub user_data: &'a [u8],
}

/// The bytes of an entry.
#[derive(Clone, Copy)]
pub(crate) struct EntryBytes<'a> {
    /// The name, the address and the byte of lengths.
    pub(crate) front: [u8; 12],
    /// The user data behind them.
    pub(crate) user_data: &'a [u8],
}

/// What ends a directory: a name of bytes FF, and zeros.
const LAST: [u8; 12] = [0xFF, 0xFF, 0xFF, 0xFF, 0xFF, 0xFF, 0xFF, 0xFF, 0, 0, 0, 0];

// The byte behind the address: the bit of another name, the number of addresses, and the number of halfwords of user data.
fn lengths_byte(entry: NewEntry) -> u8
    requires { IsEntry (contents_of entry) }
    ensures { result ≡ lengths_byte (contents_of entry.entry) }
{
    let alias = if entry.is_alias { 128 } else { 0 };
    alias + entry.notes * 32 + (entry.user_data.len() / 2) as u8
}

// An entry up to its user data.
fn entry_front(entry: NewEntry) -> [u8; 12]
    requires { IsEntry (contents_of entry) }
    ensures { result ≡ entry_front (contents_of entry.entry) }
{
    let [n0, n1, n2, n3, n4, n5, n6, n7] = entry.name;
    let [t0, t1] = entry.address.track.to_be_bytes();
    let lengths = lengths_byte(entry);
    [
        n0,
        n1,
        n2,
        n3,
        n4,
        n5,
        n6,
        n7,
        t0,
        t1,
        entry.address.number,
        lengths,
    ]
}

/// The bytes of an entry of a directory with these entries, by its number from 0 on; behind them stands the last one.
pub(crate) fn bytes_at<'a>(entries: &[NewEntry<'a>], number: usize) -> EntryBytes<'a>
    requires each { All IsEntry (all_contents entries.now) }
    requires number { number ≤ length entries.now }
    ensures bytes { result.front ++ result.user_data.now ≡ slice_index_or (all_entries (all_contents entries.now)) number [] }
    ensures size { length (slice_index_or (all_entries (all_contents entries.now)) number []) ≡ 12 + length result.user_data.now }
    ensures short { length result.user_data.now ≤ 62 }
{
    if number == entries.len() {
        return EntryBytes {
            front: LAST,
            user_data: &[],
        };
    }
    let entry = entries[number];
    EntryBytes {
        front: entry_front(entry),
        user_data: entry.user_data,
    }
}
