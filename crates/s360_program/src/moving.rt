//! Bytes between storage and a drive, as many at once as may pass (Principles of Operation, Input/Output Operations: 'Skipping',
//! 'Program Check', 'Protection Check').

ghost use Rattle.std.specs.Prelude.{IfSome, nat_lt, ◌≡◌, ◌+◌, true, false, length, slice_range, ◌||◌, ◌==◌, ℕ, ◌<◌, ◌≤◌, ◌^◌, IsTrue};
ghost use Rattle.s360_words.specs.declared.words.Ccw.{Ccw};
ghost use Rattle.s360_words.specs.Storage.{may_store};
ghost use Rattle.ckd_drive.specs.Work.{left_of, gives_now, takes_now, given_now, passed_of, moved_on};
ghost use Rattle.s360_storage.specs.Kept.{KeepsStorage};
ghost use Rattle.s360_program.specs.Steps.{Flows, HasFound, LiesWithin, MovesBytes, refused};

use crate::conditions::ChannelCondition;
use ckd_drive::{Drive, Look, Phase};
use ckd_image::ImageStore;
use ckd_track::COUNT_LENGTH;
use s360_storage::MainStorage;
use s360_words::Ccw;

/// Whether a drive gives the bytes of a command, or takes them, and how many are left.
#[derive(Clone, Copy)]
pub(crate) struct Flow {
    /// Whether it gives them.
    pub(crate) gives: bool,
    /// How many more may pass now.
    pub(crate) left: usize,
}

/// Bytes of a command that may move at once: under which word, from or to which address of storage on, and with which key.
#[derive(Clone, Copy)]
pub(crate) struct StorageArea {
    /// The protection key of the stores.
    pub(crate) key: u8,
    /// The word under which they move.
    pub(crate) ccw: Ccw,
    /// Where the first one stands in storage, or goes.
    pub(crate) address: u32,
    /// How many they are.
    pub(crate) count: u16,
}

/// How many bytes a count area has, for which a formatting write asks first.
pub(crate) const COUNT_AREA: u16 = COUNT_LENGTH as u16;

/// What a drive has or wants now. Where as many bytes have passed as a count area has, and nothing is left of the drive's last
/// look, another one reports: a formatting write wants more once the count area came. With any other number all have passed.
#[inline(always)]
pub(crate) fn flow_of<S: ImageStore>(drive: &mut Drive<S>) -> Flow
    requires { HasFound drive.old }
    ensures { Flows result drive.old drive.new }
{
    let (passed, left) = match drive.phase() {
        Phase::Gives { passed: _, left } => return Flow { gives: true, left },
        Phase::Takes { passed, left } => (passed, left),
        Phase::Idle | Phase::Over | Phase::Looking => unreachable!(),
    };
    if left > 0 || passed != usize::from(COUNT_AREA) {
        return Flow { gives: false, left };
    }
    let Look::Ready(left) = drive.look() else {
        unreachable!()
    };
    Flow { gives: false, left }
}

/// How many more bytes a drive gives that has found the area of its command, if it gives them.
#[inline(always)]
pub(crate) fn left_to_give<S: ImageStore>(drive: &Drive<S>) -> Option<usize>
    requires { HasFound drive.now }
    ensures { IfSome result (λ left. Flows (record { gives = true; left = left }) drive.now drive.now) }
{
    match drive.phase() {
        Phase::Gives { passed: _, left } => Some(left),
        Phase::Takes { passed: _, left: _ } => None,
        Phase::Idle | Phase::Over | Phase::Looking => unreachable!(),
    }
}

/// Whether a drive that has found the area of its command gives the bytes.
#[inline(always)]
pub(crate) fn gives<S: ImageStore>(drive: &Drive<S>) -> bool
    requires { HasFound drive.now }
    ensures { result ≡ gives_now drive.now.work }
{
    match drive.phase() {
        Phase::Gives { passed: _, left: _ } => true,
        Phase::Takes { passed: _, left: _ } => false,
        Phase::Idle | Phase::Over | Phase::Looking => unreachable!(),
    }
}

/// Moves as many bytes of a segment as may move at once, and at least one, or says why the first may not move.
#[inline(always)]
pub(crate) fn move_bytes<S: ImageStore, M: MainStorage>(
    gives: bool,
    segment: &StorageArea,
    storage: &mut M,
    drive: &mut Drive<S>,
) -> Result<u16, ChannelCondition>
    requires gives { gives ≡ gives_now drive.old.work }
    requires lies { LiesWithin segment.now drive.old }
    ensures moves { MovesBytes segment.now (M.holds storage.old) drive.old result (M.holds storage.new) drive.new }
    ensures storage { KeepsStorage (M.holds storage.old) (M.holds storage.new) }
    ensures place { M.place storage.new ≡ M.place storage.old }
    ensures image { drive.new.image ≡ drive.old.image }
{
    if gives {
        read(segment, storage, drive)
    } else {
        write(segment, storage, drive)
    }
}

// The drive takes bytes of storage, as they stand there.
#[inline(always)]
fn write<S: ImageStore, M: MainStorage>(
    segment: &StorageArea,
    storage: &M,
    drive: &mut Drive<S>,
) -> Result<u16, ChannelCondition>
    requires takes { takes_now drive.old.work ≡ true }
    requires lies { LiesWithin segment.now drive.old }
    ensures moves { MovesBytes segment.now (M.holds storage.now) drive.old result (M.holds storage.now) drive.new }
    ensures image { drive.new.image ≡ drive.old.image }
{
    let bytes = storage.bytes_from(segment.address, usize::from(segment.count));
    if bytes.is_empty() {
        return Err(ChannelCondition::ProgramCheck);
    }
    drive.take(bytes);
    Ok(bytes.len() as u16)
}

// The drive gives bytes, which go into storage, unless they are skipped.
#[inline(always)]
fn read<S: ImageStore, M: MainStorage>(
    segment: &StorageArea,
    storage: &mut M,
    drive: &mut Drive<S>,
) -> Result<u16, ChannelCondition>
    requires gives { gives_now drive.old.work ≡ true }
    requires lies { LiesWithin segment.now drive.old }
    ensures moves { MovesBytes segment.now (M.holds storage.old) drive.old result (M.holds storage.new) drive.new }
    ensures storage { KeepsStorage (M.holds storage.old) (M.holds storage.new) }
    ensures place { M.place storage.new ≡ M.place storage.old }
    ensures image { drive.new.image ≡ drive.old.image }
{
    if segment.ccw.skips() {
        drive.pass(usize::from(segment.count));
        return Ok(segment.count);
    }
    let given = &drive.next_bytes()[..usize::from(segment.count)];
    let n = storage.store(segment.address, given, segment.key);
    if n == 0 {
        return Err(refusal(storage, segment.address));
    }
    drive.pass(n);
    Ok(n as u16)
}

/// Whether so many bytes may be stored with this key from an address on.
// Key 0 by itself, which may store into every block: then no block's key is asked.
#[inline(always)]
pub(crate) fn admits_all<M: MainStorage>(storage: &M, address: u32, count: u16, key: u8) -> bool
    requires { key < 16 }
    ensures all { result ≡ true → (i : ℕ) → i < count → IsTrue (may_store (M.holds storage.now) key (address + i)) }
    ensures stops { result ≡ false → 0 < count → (i : ℕ) × (i < count) × (may_store (M.holds storage.now) key (address + i) ≡ false) }
{
    if key == 0 {
        return address as usize + usize::from(count) <= storage.size() as usize;
    }
    storage.storable(address, u32::from(count), key) == u32::from(count)
}

// Why no byte may be stored at an address: it is outside storage, or its block is protected.
fn refusal<M: MainStorage>(storage: &M, address: u32) -> ChannelCondition
    ensures { result ≡ refused (nat_lt address (length (M.holds storage.now).bytes)) }
{
    if address >= storage.size() {
        ChannelCondition::ProgramCheck
    } else {
        ChannelCondition::ProtectionCheck
    }
}
