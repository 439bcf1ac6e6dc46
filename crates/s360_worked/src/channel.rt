//! The channel, event by event: two drives at once, arms in motion, an ending that pends.
//! Principles of Operation, Input/Output Operations: 'Start I/O', 'Test I/O', 'Halt I/O', 'Test Channel',
//! 'Input/Output Interruptions'.

ghost use Rattle.std.specs.Prelude.{◌≡◌, [], ◌∷◌, Some, None, true, Ok};
ghost use Rattle.ckd_track.specs.NewVolume.{new_track};
ghost use Rattle.s360_laws.specs.Events.{Sio, StepBy, Arrive, Interrupt, Hio, WithCode, StatusStored, CswStored, Stepped, HasArrived, Interrupted, WasKept};
ghost use Rattle.s360_laws.specs.Machine.{answers};
ghost use Rattle.s360_laws.specs.declared.condition.ConditionCode.TheVariants.{Zero, One, Two};
ghost use Rattle.s360_worked.specs.ChannelPrograms.{seek_and_sense, read, read_without_data, recalibrate};
ghost use Rattle.s360_worked.specs.Channels.{channel, channel_with, device_with, glance_after, glance_after_programs, glanced, two_programs, serial_events};
ghost use Rattle.s360_worked.specs.Channels.{while_pending, steps_and, starts_in_motion};
ghost use Rattle.s360_worked.specs.Seen.{sense_of, csw};
ghost use Rattle.s360_worked.specs.Volumes.{new_drive, written_drive};

/// A seek at one drive ends with channel end, and its arm still moves as a program runs at another. The arm arrives while
/// the channel is busy; its device end interrupts behind that program's ending.
pub fn two_drives()
    ensures told { answers two_programs (channel_with seek_and_sense (device_with 0x90 new_drive ∷ device_with 0x91 new_drive ∷ [])) ≡ WithCode Zero ∷ Stepped 7
        ∷ Interrupted (Some (0x190, csw 0x408 0x08 0 0)) ∷ CswStored (csw 0 0x10 0 0) ∷ WasKept true ∷ WithCode Zero ∷ Stepped 3 ∷ WithCode Two
        ∷ HasArrived true ∷ Stepped 4 ∷ Interrupted (Some (0x191, csw 0x410 0x0C 0 0)) ∷ Interrupted (Some (0x190, csw 0 0x04 0 0)) ∷ Interrupted None ∷ [] }
    ensures state { glance_after two_programs (channel_with seek_and_sense (device_with 0x90 new_drive ∷ device_with 0x91 new_drive ∷ []))
        ≡ glanced (0 ∷ 0 ∷ 0 ∷ 0 ∷ 0x04 ∷ 0 ∷ 0 ∷ 0 ∷ []) ((0, 0, sense_of 0x00 0x00, Ok (new_track 0 0)) ∷ (0, 0, sense_of 0x00 0x00, Ok (new_track 0 0))
        ∷ []) }
    ensures serial { glance_after_programs two_programs (channel_with seek_and_sense (device_with 0x90 new_drive ∷ device_with 0x91 new_drive ∷ []))
        ≡ glanced (0 ∷ 0 ∷ 0 ∷ 0 ∷ 0x04 ∷ 0 ∷ 0 ∷ 0 ∷ []) ((0, 0, sense_of 0x00 0x00, Ok (new_track 0 0)) ∷ (0, 0, sense_of 0x00 0x00, Ok (new_track 0 0))
        ∷ []) }
{}

/// The serial list of the second program's events: its steps are one, the arrival stands behind them, and what was
/// refused or reported nothing is left out.
pub fn serial_list_of_second_program()
    ensures { serial_events (channel_with seek_and_sense (device_with 0x90 new_drive ∷ device_with 0x91 new_drive ∷ [])) ≡ Sio 0x191 ∷ StepBy 7 ∷ Arrive 0x190
        ∷ Interrupt ∷ Interrupt ∷ [] }
{}

/// While the ending of a program pends, only Test I/O at its drive takes it: every other start or test finds the channel
/// busy, and Halt I/O and Test Channel say that an interruption pends.
pub fn ending_that_pends()
    ensures { answers while_pending (channel (read 0x600 0x00 100) written_drive) ≡ WithCode Zero ∷ Stepped 81 ∷ WithCode One ∷ WithCode Zero ∷ WithCode Two
        ∷ WithCode Two ∷ CswStored (csw 0x408 0x0C 0x40 0x14) ∷ WithCode Zero ∷ [] }
{}

/// Halt I/O where a record without data is found and no byte has passed: channel end and device end alone, and not the unit
/// exception with which the command would end by itself.
pub fn halt_before_unit_exception()
    ensures { answers (steps_and 8 (Hio 0x190)) (channel (read_without_data 0x60) written_drive) ≡ WithCode Zero ∷ Stepped 8 ∷ WithCode Two
        ∷ Interrupted (Some (0x190, csw 0x410 0x0C 0 1)) ∷ [] }
{}

/// Recalibrate is over as it starts, with its arm in motion. A start is then refused as busy, and after the arrival with
/// busy and device end; the next one is taken.
pub fn recalibrate_in_motion()
    ensures { answers starts_in_motion (channel recalibrate new_drive) ≡ StatusStored (record { 0 = 0x08 }) (record { 0 = 0 })
        ∷ StatusStored (record { 0 = 0x10 }) (record { 0 = 0 }) ∷ HasArrived true ∷ StatusStored (record { 0 = 0x14 }) (record { 0 = 0 })
        ∷ StatusStored (record { 0 = 0x08 }) (record { 0 = 0 }) ∷ [] }
{}
