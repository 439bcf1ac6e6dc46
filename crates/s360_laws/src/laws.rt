//! The laws of the serial machine. Each function here does nothing: what it ensures is a law of the definitions in
//! `specs/`, which speak of every list of events, with or without faults of the store.

ghost use Rattle.s360_laws.specs.Soundness.{StaysSound, IdleIsSound};
ghost use Rattle.s360_laws.specs.Ledger.{AtMostOnce, EndsPend, ExactlyOnce, ChannelEndFirst, NoneAfterReset, StartsAfterChannelEnd, NoStartWhileWorking};
ghost use Rattle.s360_laws.specs.Ledger.{HeldUntilStored};
ghost use Rattle.s360_laws.specs.History.{IsSerial};
ghost use Rattle.s360_laws.specs.Steps.{StepsAtMost, StepsJoin, StepsSplit, FaultEndsStep, FaultEndsHalt, FaultToldByReset, OthersMeetNone};
ghost use Rattle.s360_laws.specs.NothingTold.{NoFaultNoneTold, ResetTellsWritten};
ghost use Rattle.s360_laws.specs.Headline.{HeadlineHolds};
ghost use Rattle.s360_laws.specs.SerialLists.{SameActs};
ghost use Rattle.s360_laws.specs.Writes.{KeepsUnwritten};
ghost use Rattle.s360_laws.specs.Arms.{ArmFollows, ArmStays, ArrivedInterrupts, HaltOfPendingStays};

/// The headline: what a channel and its drives do over every list of events, with or without faults of the store. It joins the
/// laws below.
pub fn headline()
    ensures { HeadlineHolds }
{}

/// A machine with no program, whose devices have distinct addresses, is sound.
#[tactic(auto, using(crate::proofs::LedgerLists::idle_sound))]
pub fn idle_is_sound()
    ensures { IdleIsSound }
{}

/// Every event keeps a machine sound.
#[tactic(auto, using(crate::proofs::LedgerLists::stays_sound))]
pub fn stays_sound()
    ensures { StaysSound }
{}

/// The channel end and the device end of each accepted program are stored at most once.
pub fn ends_at_most_once()
    ensures { AtMostOnce }
{}

/// Each pends until it is stored, or a reset takes it away.
pub fn ends_pend()
    ensures { EndsPend }
{}

/// Between two acceptances for one device, with no reset between, each is stored exactly once.
#[tactic(auto, using(crate::proofs::LedgerLists::exactly_once))]
pub fn ends_exactly_once()
    ensures { ExactlyOnce }
{}

/// The channel end of a program comes not after its device end.
#[tactic(auto, using(crate::proofs::LedgerLists::channel_end_first))]
pub fn channel_end_first()
    ensures { ChannelEndFirst }
{}

/// After a reset nothing of an older program is stored.
pub fn none_after_reset()
    ensures { NoneAfterReset }
{}

/// No start is accepted, for any device, before the channel end of the program before it is stored or reset.
#[tactic(auto, using(crate::proofs::LedgerLists::starts_after_channel_end))]
pub fn starts_after_channel_end()
    ensures { StartsAfterChannelEnd }
{}

/// While a program runs, Start I/O answers 2 to each device of the channel, and changes nothing.
#[tactic(auto, using(crate::proofs::LedgerLists::no_start_while_working))]
pub fn no_start_while_working()
    ensures { NoStartWhileWorking }
{}

/// While the channel end of a program that ended is owed: Start I/O to each device, and Test I/O to each other device,
/// answer 2, Test Channel 1, and the next interruption gives it; over every list of events until it is stored or reset.
#[tactic(auto, using(crate::proofs::LedgerLists::held_until_stored))]
pub fn held_until_stored()
    ensures { HeldUntilStored }
{}

/// An arm that owes a device end keeps it over every event until it is stored or reset; an arm that moves arrives by Arrive alone.
#[tactic(auto, using(crate::proofs::Arms::arm_follows))]
pub fn arm_follows()
    ensures { ArmFollows }
{}

/// And so over every list of events.
#[tactic(auto, using(crate::proofs::Arms::arm_stays))]
pub fn arm_stays()
    ensures { ArmStays }
{}

/// Where nothing pends in the channel and no program runs, the next interruption is the device end of the lowest device whose
/// arm has arrived.
pub fn arrived_interrupts()
    ensures { ArrivedInterrupts }
{}

/// Halt I/O on a channel status word that pends answers 0, and changes nothing at all.
#[tactic(auto, using(crate::proofs::Arms::halt_of_pending_stays))]
pub fn halt_of_pending_stays()
    ensures { HaltOfPendingStays }
{}

/// Whenever no program runs, storage and drives are what the programs of the list make, each as one whole run, one
/// after another.
#[tactic(auto, using(crate::proofs::Serial::serial))]
pub fn machine_is_serial()
    ensures { IsSerial }
{}

/// A slot that no program of a list may write keeps its bytes, whenever no program runs.
#[tactic(auto, using(crate::proofs::KeptSlots::keeps_unwritten))]
pub fn keeps_unwritten()
    ensures { KeepsUnwritten }
{}

/// A step does at most the units that it is asked for, and all of them where the program goes on.
#[tactic(auto, using(crate::proofs::StepLaws::steps_at_most))]
pub fn steps_at_most()
    ensures { StepsAtMost }
{}

/// Two steps do what one step of all their units does.
#[tactic(auto, using(crate::proofs::StepLaws::joins))]
pub fn steps_join()
    ensures { StepsJoin }
{}

/// And so do any number of steps.
pub fn steps_split()
    ensures { StepsSplit }
{}

/// A fault that a step meets ends the program in that unit, and the step answers the units up to it.
#[tactic(auto, using(crate::proofs::MachineFaults::fault_ends_step))]
pub fn fault_ends_step()
    ensures { FaultEndsStep }
{}

/// A fault that Halt I/O meets is reported by the CSW and the sense.
#[tactic(auto, using(crate::proofs::MachineFaults::fault_ends_halt))]
pub fn fault_ends_halt()
    ensures { FaultEndsHalt }
{}

/// A fault that a reset meets is reported by its answer: the address, and the cylinder and head of the track that was not
/// saved.
#[tactic(auto, using(crate::proofs::MachineFaults::fault_told_by_reset))]
pub fn fault_told_by_reset()
    ensures { FaultToldByReset }
{}

/// No other event meets a fault.
#[tactic(auto, using(crate::proofs::MachineFaults::others_meet_none))]
pub fn others_meet_none()
    ensures { OthersMeetNone }
{}

/// An event that comes with no fault reports no track as not saved, and no device's sense gains equipment check.
#[tactic(auto, using(crate::proofs::NoFaultTold::no_fault_none_told))]
pub fn no_fault_none_told()
    ensures { NoFaultNoneTold }
{}

/// A reset reports a track as not saved only where the program that it cuts had written it.
#[tactic(auto, using(crate::proofs::NoFaultTold::reset_tells_written))]
pub fn reset_tells_written()
    ensures { ResetTellsWritten }
{}

/// The acts of a serial list are the acts of the list.
#[tactic(auto, using(crate::proofs::AlikeLists::same_acts))]
pub fn serial_list_has_same_acts()
    ensures { SameActs }
{}
