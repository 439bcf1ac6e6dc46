//! One command at a drive, from its beginning to its end.

ghost use Rattle.std.specs.Prelude.{◌≡◌, [], true, false, length};
ghost use Rattle.ckd_drive.specs.Work.{is_idle, may_end, passed_of};

use ckd_drive::{Begun, Drive, Look, Phase};
use ckd_image::MemoryStore;

/// How often the index may pass before a command is given up: a track may pass twice, and each of a cylinder's once.
const TURNS: usize = 50;

/// Begins a command and looks until its area is found or it is over; whether there is a command to end.
// In line, as an emulator writes it.
#[inline(always)]
pub(crate) fn find(drive: &mut Drive<MemoryStore>, code: u8) -> bool
    requires { is_idle drive.old.work ≡ true }
    ensures found { result ≡ true → may_end drive.new.work ≡ true }
    ensures given_up { result ≡ false → passed_of drive.new.work ≡ [] }
{
    match drive.begin(code) {
        Begun::Rejected => return false,
        Begun::Immediate => return true,
        Begun::Started => {}
    }
    for _ in 0..TURNS {
        match drive.look() {
            Look::Ready(_) | Look::Failed => return true,
            Look::Passed => {}
        }
    }
    false
}

/// Gives up a command that was not begun, or that found no area.
pub(crate) fn give_up(drive: &mut Drive<MemoryStore>)
    requires { passed_of drive.old.work ≡ [] }
    ensures { is_idle drive.new.work ≡ true }
{
    let _ = drive.settle();
}

/// Has the drive give the next bytes, and answers how many.
// By itself, since the copy would be left out where nobody reads the bytes that were given.
#[inline(never)]
pub(crate) fn give(drive: &mut Drive<MemoryStore>, into: &mut [u8]) -> usize
    requires { may_end drive.old.work ≡ true }
    ensures may_end { may_end drive.new.work ≡ true }
    ensures length { length into.new ≡ length into.old }
{
    let Phase::Gives { left, .. } = drive.phase() else {
        return 0;
    };
    let n = left.min(into.len());
    drive.give(&mut into[..n]);
    n
}

/// Has the drive take the next bytes, and answers how many.
pub(crate) fn take(drive: &mut Drive<MemoryStore>, bytes: &[u8]) -> usize
    requires { may_end drive.old.work ≡ true }
    ensures { may_end drive.new.work ≡ true }
{
    let Phase::Takes { left, .. } = drive.phase() else {
        return 0;
    };
    let n = left.min(bytes.len());
    drive.take(&bytes[..n]);
    n
}

/// Has the drive take a count area, look how many bytes more it takes, and take so many of these; answers how many it took.
pub(crate) fn take_record(drive: &mut Drive<MemoryStore>, count: &[u8; 8], body: &[u8]) -> usize
    requires { may_end drive.old.work ≡ true }
    ensures { may_end drive.new.work ≡ true }
{
    let Phase::Takes { left, .. } = drive.phase() else {
        return 0;
    };
    let first = left.min(count.len());
    drive.take(&count[..first]);
    let Look::Ready(left) = drive.look() else {
        return first;
    };
    let second = left.min(body.len());
    drive.take(&body[..second]);
    first + second
}
