//! The numbers by which a call says what came of it. 0 and above: it was done. They are those of `enum dasd_fault`.

ghost use Rattle.std.specs.Prelude.{◌≡◌, pos, if◌then◌else◌};
ghost use Rattle.s360_laws.specs.Events as machine;
ghost use Rattle.s360_laws.specs.declared.condition.ConditionCode.TheVariants as code;
ghost use Rattle.s360_laws.specs.Seen.{condition_seen, status_seen, csw_seen};
ghost use Rattle.subsystem_calls.specs.Codes.{code_of, address_from, detach_code, refusal_code};

use ckd_image::MountFault;
use dasd_subsystem::Refusal;
use s360_channel::DetachFault as WhyStays;
use s360_channels::DetachFault;
use s360_laws::{Condition, Status};
use s360_words::Csw;

/// It was done.
pub const DONE: i32 = 0;

/// The handle holds nothing.
pub const NOTHING_HELD: i32 = -1;

/// The handle holds something already.
pub const IN_USE: i32 = -2;

/// Memory was refused.
pub const NO_MEMORY: i32 = -3;

/// A byte lies outside main storage.
pub const OUTSIDE_STORAGE: i32 = -4;

/// There is no storage of this size.
pub const BAD_SIZE: i32 = -5;

/// The set is not one of the channels 0 to 6.
pub const BAD_CHANNELS: i32 = -6;

/// A storage key is 0 to 15.
pub const BAD_KEY: i32 = -7;

/// A drive's model is 2311 or 2314.
pub const BAD_MODEL: i32 = -8;

/// A volume has at least one cylinder.
pub const NO_CYLINDERS: i32 = -9;

/// There is no channel of this number.
pub const NO_CHANNEL: i32 = -10;

/// No drive with this address is attached.
pub const NO_DRIVE: i32 = -11;

/// A drive with this address is attached.
pub const ADDRESS_TAKEN: i32 = -12;

/// Eight drives are attached to this channel.
pub const FULL: i32 = -13;

/// An image has at least one file.
pub const NO_FILES: i32 = -14;

/// An image has at most eight files.
pub const TOO_MANY_FILES: i32 = -15;

/// The drive's image has no such file.
pub const NO_FILE: i32 = -16;

/// A channel program runs.
pub const PROGRAM_RUNS: i32 = -17;

/// The channel status word of this drive's program is not yet stored.
pub const ENDING_PENDS: i32 = -18;

/// This drive's arm moves, or has arrived and has not interrupted.
pub const DEVICE_END_OWED: i32 = -19;

/// The channels own no main storage: each call is lent it.
pub const NO_STORAGE: i32 = -20;

/// Main storage has one key for each block of 2,048 bytes.
pub const BAD_BLOCKS: i32 = -21;

/// The channels are for main storage of another size.
pub const OTHER_SIZE: i32 = -22;

/// No channel program runs on this channel.
pub const NO_PROGRAM: i32 = -23;

/// What is to be written may have more bytes than there is room for.
pub const NO_ROOM: i32 = -24;

/// There is no such moment, or no such answer to its event.
pub const BAD_MOMENT: i32 = -25;

/// Nothing is waited for by such a bit.
pub const BAD_UNTIL: i32 = -26;

/// Why something was not made, attached, or is no image.
pub fn of_refusal(refusal: Refusal) -> i32
    ensures { result ≡ refusal_code refusal }
{
    match refusal {
        Refusal::BadChannels => BAD_CHANNELS,
        Refusal::BadSize => BAD_SIZE,
        Refusal::NoChannel => NO_CHANNEL,
        Refusal::NoCylinders => NO_CYLINDERS,
        Refusal::NoFiles => NO_FILES,
        Refusal::TooManyFiles => TOO_MANY_FILES,
        Refusal::Mount(MountFault::NotCkdP370) => -32,
        Refusal::Mount(MountFault::Compressed) => -33,
        Refusal::Mount(MountFault::DeviceType) => -34,
        Refusal::Mount(MountFault::Heads) => -35,
        Refusal::Mount(MountFault::TrackSize) => -36,
        Refusal::Mount(MountFault::Split) => -37,
        Refusal::Mount(MountFault::Length) => -38,
        Refusal::Mount(MountFault::StoreFault) => -39,
        Refusal::AddressTaken => ADDRESS_TAKEN,
        Refusal::Full => FULL,
        Refusal::OutOfMemory => NO_MEMORY,
    }
}

/// Why a drive stays.
pub fn of_detach(fault: DetachFault) -> i32
    ensures { result ≡ detach_code fault }
{
    match fault {
        DetachFault::NoChannel => NO_CHANNEL,
        DetachFault::Refused(WhyStays::NoDrive) => NO_DRIVE,
        DetachFault::Refused(WhyStays::ProgramRuns) => PROGRAM_RUNS,
        DetachFault::Refused(WhyStays::EndingPends) => ENDING_PENDS,
        DetachFault::Refused(WhyStays::DeviceEndOwed) => DEVICE_END_OWED,
    }
}

/// The condition code of an instruction that stores status, 0 to 3.
pub fn of_status(condition: Condition<Status>) -> i32
    ensures { result ≡ code_of (condition_seen status_seen condition) }
{
    match condition {
        Condition::Zero => 0,
        Condition::Stored(_) => 1,
        Condition::Two => 2,
        Condition::Three => 3,
    }
}

/// The condition code of one that stores a channel status word.
pub fn of_csw(condition: Condition<Csw>) -> i32
    ensures { result ≡ code_of (condition_seen csw_seen condition) }
{
    match condition {
        Condition::Zero => 0,
        Condition::Stored(_) => 1,
        Condition::Two => 2,
        Condition::Three => 3,
    }
}

/// The condition code of Test Channel.
pub fn of_test(condition: Condition<()>) -> i32
    ensures { result ≡ code_of (condition_seen (λ u. machine.WithCode code.One) condition) }
{
    match condition {
        Condition::Zero => 0,
        Condition::Stored(_) => 1,
        Condition::Two => 2,
        Condition::Three => 3,
    }
}

/// Whether an arm arrived.
pub fn of_arrival(arrived: bool) -> i32
    ensures { result ≡ code_of (machine.HasArrived arrived) }
{
    if arrived { 1 } else { 0 }
}

/// Whether something is so: 1 or 0.
pub fn of_answer(answer: bool) -> i32
    ensures { result ≡ (if answer then pos 1 else pos 0) }
{
    if answer { 1 } else { 0 }
}

/// Whether storage kept what was stored.
pub fn of_kept(kept: bool) -> i32
    ensures { result ≡ code_of (machine.WasKept kept) }
{
    if kept { DONE } else { OUTSIDE_STORAGE }
}

/// Whether an interruption was taken, whose address is put where C wants it.
pub fn of_interruption(interruption: Option<(u16, Csw)>, address: &mut u16) -> i32
    ensures told { result ≡ code_of (machine.Interrupted interruption) }
    ensures from { address.new ≡ address_from (machine.Interrupted interruption) address.old }
{
    match interruption {
        Some((from, _)) => {
            *address = from;
            1
        }
        None => 0,
    }
}
