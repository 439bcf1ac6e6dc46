//! How a command begins (component descriptions of the 2841 and the 2314, 'Command Reject' and the sections of the
//! commands).

ghost use Rattle.std.specs.Prelude.{◌≡◌};
ghost use Rattle.ckd_command.specs.Drive.{first_registers};
ghost use Rattle.ckd_command.specs.Commands.{beginning, cleared, refusal, is_out_of_sequence, with_cause, program_start, at_index, sense_after_begin, started};
ghost use Rattle.ckd_command.specs.Answers.{Rejected, moved_to, begun_as};
ghost use Rattle.ckd_command.specs.declared.registers.Registers.{Registers};

use crate::registers::{Lap, Registers};
use crate::tables;
use crate::tables::Aim;
use ckd_position::{Area, Position};
use ckd_sense::{Command, CommandCode, FileMask, Permit, Sense};

/// A command that works, and the area that it works on, as soon as that is known.
#[derive(Clone, Copy)]
pub struct Opened {
    /// The command.
    pub command: Command,
    /// Whether its code has the multi-track bit.
    pub multi_track: bool,
    /// The area that it works on.
    pub area: Option<Area>,
}

/// What a command code leads to, beside what the drive remembers then.
#[derive(Clone, Copy)]
pub enum CommandStart {
    /// The command is not begun: the sense says why.
    Rejected,
    /// The command is over at once, and no byte passes.
    Immediate,
    /// The command works.
    Works(Opened),
    /// The arm goes to cylinder 0, head 0 first. Then a command that has no more to do is over at once with the arm in
    /// motion, and another works there.
    ToCylinderZero(Option<Opened>),
}

/// One more cause is reported by the sense bytes.
pub fn add_cause(registers: &mut Registers, cause: Sense)
    ensures { registers.new ≡ with_cause registers.old cause }
{
    registers.sense = registers.sense.joined_with(cause);
}

/// The track stands at its index, on the first turn for what begins next.
pub(crate) fn to_index(registers: &mut Registers)
    ensures { registers.new ≡ at_index registers.old }
{
    registers.position = Position::AtIndex;
    registers.lap = Lap::First;
}

/// The arm stands at another track, and that at its index.
pub fn move_to(registers: &mut Registers, cylinder: u16, head: u16)
    ensures { registers.new ≡ moved_to registers.old cylinder head }
{
    registers.cylinder = cylinder;
    registers.head = head;
    to_index(registers);
}

/// What a drive remembers at first.
pub fn first_registers() -> Registers
    ensures { result ≡ first_registers }
{
    Registers {
        cylinder: 0,
        head: 0,
        sense: Sense::ZERO,
        position: Position::AtIndex,
        file_mask: FileMask::from_byte(0x00),
        mask_set: false,
        credit: None,
        lap: Lap::First,
    }
}

/// A channel program begins.
pub fn start_program(registers: &mut Registers)
    ensures { registers.new ≡ program_start registers.old }
{
    to_index(registers);
    registers.file_mask = FileMask::from_byte(0x00);
    registers.mask_set = false;
    registers.credit = None;
}

// Sense gives the sense bytes and leaves them; every other command makes them zero.
#[inline(always)]
fn sense_as_begun(command: Command, sense: Sense) -> Sense
    ensures { result ≡ sense_after_begin command sense }
{
    if command == Command::Sense {
        sense
    } else {
        Sense::ZERO
    }
}

// What every command takes away as it begins.
#[inline(always)]
fn clear(command: Command, registers: &mut Registers)
    ensures { registers.new ≡ cleared command registers.old }
{
    if !tables::is_search(tables::action_of(command)) {
        registers.lap = Lap::First;
    }
    registers.sense = sense_as_begun(command, registers.sense);
    registers.credit = None;
}

#[inline(always)]
fn is_out_of_sequence(command: Command, registers: &Registers) -> bool
    ensures { result ≡ is_out_of_sequence command registers.now }
{
    match tables::aim_of(command) {
        Aim::Credited => tables::credited(command, registers.credit).is_none(),
        _ => command == Command::SetFileMask && registers.mask_set,
    }
}

// Why a command is not begun.
#[inline(always)]
fn refusal(command: Command, registers: &Registers) -> Option<Sense>
    ensures { result ≡ refusal command registers.now }
{
    match registers.file_mask.permits(command) {
        Permit::NoWrite => Some(Sense::WRITE_NOT_ALLOWED),
        Permit::NoSeek => Some(Sense::SEEK_NOT_ALLOWED),
        Permit::Yes => is_out_of_sequence(command, registers).then_some(Sense::OUT_OF_SEQUENCE),
    }
}

// The command is not begun, for this cause.
fn rejected(command: Command, registers: &mut Registers, cause: Sense) -> CommandStart
    ensures { begun_as result registers.new ≡ Rejected (with_cause (cleared command registers.old) cause) }
{
    clear(command, registers);
    add_cause(registers, cause);
    CommandStart::Rejected
}

#[inline(always)]
fn started(command: Command, opened: Opened) -> CommandStart
    ensures { (r : Registers) → begun_as result r ≡ started command r opened }
{
    match command {
        Command::NoOperation => CommandStart::Immediate,
        Command::Recalibrate => CommandStart::ToCylinderZero(None),
        Command::ReadIpl => CommandStart::ToCylinderZero(Some(opened)),
        _ => CommandStart::Works(opened),
    }
}

/// What a command code leads to, beside what the drive remembers then.
#[tactic(auto, unfolding(crate::specs::Commands::beginning))]
#[inline(always)]
pub fn begin_command(code: u8, registers: &mut Registers) -> CommandStart
    ensures { begun_as result registers.new ≡ beginning code registers.old }
{
    let Some(
        CommandCode {
            command,
            multi_track,
        },
    ) = Command::decode(code)
    else {
        return rejected(Command::NoOperation, registers, Sense::INVALID_COMMAND);
    };
    if let Some(cause) = refusal(command, registers) {
        return rejected(command, registers, cause);
    }
    let opened = Opened {
        command,
        multi_track,
        area: tables::credited(command, registers.credit),
    };
    clear(command, registers);
    started(command, opened)
}
