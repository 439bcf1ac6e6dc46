//! Instructions to an idle channel, to one whose program runs, and to arms that have arrived; and what the ledger counts.
//! Principles of Operation, Input/Output Operations: 'Start I/O', 'Test I/O', 'Halt I/O', 'Test Channel',
//! 'Input/Output Interruptions'.

ghost use Rattle.std.specs.Prelude.{◌≡◌, replicate, [], ◌∷◌, Some, None, true, false};
ghost use Rattle.s360_words.specs.Storage.{stored};
ghost use Rattle.s360_words.specs.declared.flags.TheConstants.UnitStatus.{CHANNEL_END, DEVICE_END};
ghost use Rattle.s360_laws.specs.Events.{WithCode, StatusStored, CswStored, Stepped, HasArrived, Interrupted, Shown, WasReset};
ghost use Rattle.s360_laws.specs.Ledger.{since, times_stored, SinceAcceptance, SinceReset};
ghost use Rattle.s360_laws.specs.Machine.{answers, exchanges};
ghost use Rattle.s360_laws.specs.declared.condition.ConditionCode.TheVariants.{Zero, One, Two, Three};
ghost use Rattle.s360_worked.specs.ChannelPrograms.{ccw, program, recalibrate};
ghost use Rattle.s360_worked.specs.Channels.{channel, channel_with, device_with};
ghost use Rattle.s360_worked.specs.Seen.{csw};
ghost use Rattle.s360_worked.specs.Small.{halted_in_motion, asked_pending, parts_stored, reset_in_motion, reset_while_pending, small_drive, asked_idle};
ghost use Rattle.s360_worked.specs.Small.{asked_running, two_arrivals, two_runs, reset_run, second_acceptance, immediate_run};

/// No device answers at an address that is not attached, nor at one of another channel. A device that is attached is available;
/// Halt I/O to it stores a status of zero.
pub fn idle_channel()
    ensures { answers asked_idle (channel (program (ccw 0x06 0x600 0 4)) small_drive) ≡ WithCode Three ∷ WithCode Three ∷ WithCode Three ∷ WithCode Three
        ∷ WithCode Three ∷ WithCode Three ∷ WithCode Zero ∷ WithCode Zero ∷ StatusStored (record { 0 = 0 }) (record { 0 = 0 }) ∷ Stepped 0 ∷ Interrupted None
        ∷ [] }
{}

/// While a program runs storage is seen as it is by then, and the channel is busy to every instruction, but that another channel's address
/// is none of its devices. Halt I/O ends the program, whatever device it names.
pub fn busy_channel()
    ensures { answers asked_running (channel (program (ccw 0x06 0x600 0 4)) small_drive) ≡ WithCode Zero ∷ Stepped 2 ∷ Shown (Some (0xC1 ∷ 0xC1 ∷ 0 ∷ []))
        ∷ WithCode Two ∷ WithCode Three ∷ WithCode Two ∷ WithCode Two ∷ WithCode Two ∷ WithCode Two ∷ WithCode One ∷ CswStored (csw 0x408 0x0C 0 2) ∷ [] }
{}

/// An arm arrives once, and only at its own address. Of two that have arrived the lower interrupts first, and Test I/O takes the
/// device end of the other.
pub fn two_arms()
    ensures { answers two_arrivals (channel_with recalibrate (device_with 0x91 small_drive ∷ device_with 0x90 small_drive ∷ []))
        ≡ StatusStored (record { 0 = 0x08 }) (record { 0 = 0 }) ∷ StatusStored (record { 0 = 0x08 }) (record { 0 = 0 }) ∷ HasArrived true ∷ HasArrived false
        ∷ HasArrived false ∷ HasArrived true ∷ Interrupted (Some (0x190, csw 0 0x04 0 0)) ∷ CswStored (csw 0 0x04 0 0) ∷ Interrupted None ∷ [] }
{}

/// What the ledger counts of two programs one after another: the second acceptance begins it anew, and each end is stored once.
pub fn ledger_of_two_programs()
    ensures last { since 0x190 (exchanges two_runs (channel (program (ccw 0x06 0x600 0 4)) small_drive)) ≡ SinceAcceptance }
    ensures channel_end { times_stored CHANNEL_END 0x190 (exchanges two_runs (channel (program (ccw 0x06 0x600 0 4)) small_drive)) ≡ 1 }
    ensures device_end { times_stored DEVICE_END 0x190 (exchanges two_runs (channel (program (ccw 0x06 0x600 0 4)) small_drive)) ≡ 1 }
{}

/// Before the second is over its ends are still to be stored; behind a reset none is.
pub fn ledger_of_a_program_that_runs()
    ensures running { times_stored CHANNEL_END 0x190 (exchanges second_acceptance (channel (program (ccw 0x06 0x600 0 4)) small_drive)) ≡ 0 }
    ensures accepted { since 0x190 (exchanges second_acceptance (channel (program (ccw 0x06 0x600 0 4)) small_drive)) ≡ SinceAcceptance }
    ensures was_reset { since 0x190 (exchanges reset_run (channel (program (ccw 0x06 0x600 0 4)) small_drive)) ≡ SinceReset }
{}

/// A program that is over as it starts is accepted and has its ends stored at once.
pub fn ledger_of_an_immediate_command()
    ensures accepted { since 0x190 (exchanges immediate_run (channel (program (ccw 0x03 0 0 1)) small_drive)) ≡ SinceAcceptance }
    ensures channel_end { times_stored CHANNEL_END 0x190 (exchanges immediate_run (channel (program (ccw 0x03 0 0 1)) small_drive)) ≡ 1 }
{}

/// Halt I/O to a device whose arm moves, or has arrived, stores a status of zero and leaves its device end owed.
pub fn halt_of_an_arm()
    ensures { answers halted_in_motion (channel recalibrate small_drive) ≡ StatusStored (record { 0 = 0x08 }) (record { 0 = 0 })
        ∷ StatusStored (record { 0 = 0 }) (record { 0 = 0 }) ∷ HasArrived true ∷ StatusStored (record { 0 = 0 }) (record { 0 = 0 })
        ∷ Interrupted (Some (0x190, csw 0 0x04 0 0)) ∷ [] }
{}

/// While an ending pends, Test I/O and Start I/O to another device find the channel busy, Halt I/O says that an interruption pends, and the ending is still there.
pub fn other_device_while_an_ending_pends()
    ensures { answers asked_pending (channel_with (program (ccw 0x06 0x600 0 4)) (device_with 0x90 small_drive ∷ device_with 0x91 small_drive ∷ []))
        ≡ WithCode Zero ∷ Stepped 5 ∷ WithCode Two ∷ WithCode Zero ∷ WithCode Two ∷ WithCode One ∷ CswStored (csw 0x408 0x0C 0 0) ∷ WithCode Zero ∷ [] }
{}

/// Start I/O and Halt I/O that store status replace the two status bytes of the channel status word and nothing else.
pub fn status_alone_is_stored()
    ensures { answers parts_stored (channel (stored (program (ccw 0x03 0 0 1)) 64 (replicate 8 0xFF)) small_drive) ≡ StatusStored (record { 0 = 0x0C })
        (record { 0 = 0 }) ∷ Shown (Some (0xFF ∷ 0xFF ∷ 0xFF ∷ 0xFF ∷ 0x0C ∷ 0 ∷ 0xFF ∷ 0xFF ∷ [])) ∷ StatusStored (record { 0 = 0 }) (record { 0 = 0 })
        ∷ Shown (Some (0xFF ∷ 0xFF ∷ 0xFF ∷ 0xFF ∷ 0 ∷ 0 ∷ 0xFF ∷ 0xFF ∷ [])) ∷ [] }
{}

/// A reset takes away the device end of an arm in motion, and an ending that pends.
pub fn reset_of_what_is_owed()
    ensures motion { answers reset_in_motion (channel recalibrate small_drive) ≡ StatusStored (record { 0 = 0x08 }) (record { 0 = 0 }) ∷ WasReset None
        ∷ HasArrived false ∷ Interrupted None ∷ StatusStored (record { 0 = 0x08 }) (record { 0 = 0 }) ∷ [] }
    ensures ending { answers reset_while_pending (channel (program (ccw 0x06 0x600 0 4)) small_drive) ≡ WithCode Zero ∷ Stepped 5 ∷ WasReset None
        ∷ Interrupted None ∷ WithCode Zero ∷ [] }
{}
