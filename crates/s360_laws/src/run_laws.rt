//! The laws of channel programs. Each function here does nothing: what it ensures is a law of the definitions in
//! `specs/`, which speak of every start, every script and every fault of the store.

ghost use Rattle.s360_laws.specs.Laws.{RunIsWalk, WalkGoesOn, WalkEndsAtUnit, EndedStays, StandsAtStart, StandsSomewhere, StandsAfterWalk, EndsAfterWalk};
ghost use Rattle.s360_laws.specs.Laws.{EndingIsEnd, CutIsEnd, FirstIsUnit, MoveAtOnce};
ghost use Rattle.s360_laws.specs.Rounds.{RoundIsUnits};
ghost use Rattle.s360_laws.specs.Unsaved.{WritesByCommands, UnsavedWasWritten, NoFaultNothingTold};
ghost use Rattle.s360_laws.specs.RunWrites.{WritesUnderArm, RunKeeps, MarkIsOfScript, KeepsSize};
ghost use Rattle.s360_laws.specs.Faults.{FaultEndsUnit, FailedLoad, FaultEndsPhase, FaultEndsProgram, FaultEndsCut, GoesOnWithoutFaults};

/// The run of a program, command by command, is its walk from the start, unit by unit.
#[tactic(auto, using(crate::proofs::Walks::run_is_walk))]
pub fn run_is_walk()
    ensures { RunIsWalk }
{}

/// A walk over a longer script goes on where the walk over the shorter one stands; one that is over stays as it is.
#[tactic(auto, using(crate::proofs::Walks::walks_on))]
pub fn walk_goes_on()
    ensures { WalkGoesOn }
{}

/// A walk that is over was over at the last unit that it used, and not before.
#[tactic(auto, using(crate::proofs::Walks::exact))]
pub fn walk_ends_at_unit()
    ensures { WalkEndsAtUnit }
{}

/// A program that ended has the same ending over every longer script.
#[tactic(auto, using(crate::proofs::Walks::ended_stays))]
pub fn ended_stays()
    ensures { EndedStays }
{}

/// As it begins, a program stands at its first fetch.
#[tactic(auto, using(crate::proofs::Standing::begins))]
pub fn stands_at_start()
    ensures { StandsAtStart }
{}

/// A program that has not ended stands in a phase, and what is seen of it is what is seen of the phase.
#[tactic(auto, using(crate::proofs::Standing::stands_somewhere))]
pub fn stands_somewhere()
    ensures { StandsSomewhere }
{}

/// From where a program stands, a walk to a phase leaves it standing there.
#[tactic(auto, using(crate::proofs::Standing::goes_by))]
pub fn stands_after_walk()
    ensures { StandsAfterWalk }
{}

/// From where a program stands, a walk to an end is the end of its run, with all units of the script used.
#[tactic(auto, using(crate::proofs::Standing::ends_by))]
pub fn ends_after_walk()
    ensures { EndsAfterWalk }
{}

/// A program that ends by itself has channel end, and device end unless it leaves the arm moving.
#[tactic(auto, using(crate::proofs::EndStatus::ending_is_end))]
pub fn ending_is_end()
    ensures { EndingIsEnd }
{}

/// So has a program that is cut.
pub fn cut_is_end()
    ensures { CutIsEnd }
{}

/// Bytes that may move one after another move at once, where nothing comes between their units.
#[tactic(auto, using(crate::proofs::AtOnce::at_once))]
pub fn bytes_move_at_once()
    ensures { MoveAtOnce }
{}

/// A search that fails, and the transfer in channel behind it that leads back to it, are three units and one for each byte of the
/// search; behind them the program stands where it stood, and only the drive has changed, as the search left it.
pub fn round_is_units()
    ensures { RoundIsUnits }
{}

/// A fault of the store that a unit meets ends the program in that unit.
#[tactic(auto, using(crate::proofs::FaultsMet::fault_ends_unit))]
pub fn fault_ends_unit()
    ensures { FaultEndsUnit }
{}

/// The same of a run: unit check and equipment check report the fault, and at most one slot is lost.
#[tactic(auto, using(crate::proofs::FaultsMet::fault_ends_program))]
pub fn fault_ends_program()
    ensures { FaultEndsProgram }
{}

/// The same of a cut.
pub fn fault_ends_cut()
    ensures { FaultEndsCut }
{}

/// A program that goes on has met no fault.
#[tactic(auto, using(crate::proofs::FaultsMet::goes_on_without_faults))]
pub fn goes_on_without_faults()
    ensures { GoesOnWithoutFaults }
{}

/// Only a write of which a byte has passed writes a track.
#[tactic(auto, using(crate::proofs::UnsavedTracks::writes_by_commands))]
pub fn writes_by_commands()
    ensures { WritesByCommands }
{}

/// A track that is reported as not saved was written by the program, and not saved since.
pub fn unsaved_was_written()
    ensures { UnsavedWasWritten }
{}

/// Without a fault no track is reported as not saved, and the sense gains no equipment check.
pub fn no_fault_nothing_told()
    ensures { NoFaultNothingTold }
{}

/// What Start I/O makes of a start is the first unit of its run.
#[tactic(auto, using(crate::proofs::FirstUnits::first_is_unit))]
pub fn first_is_unit()
    ensures { FirstIsUnit }
{}

/// A load that fails ends the command with unit check and the sense bytes 10 00: no byte has passed, no check is met, no index has
/// passed, and nothing else changes.
#[tactic(auto, using(crate::proofs::UnsavedTracks::failed_load))]
pub fn failed_load()
    ensures { FailedLoad }
{}

/// A cut meets a fault exactly where it saves.
#[tactic(auto, using(crate::proofs::FaultsMet::fault_ends_phase))]
pub fn fault_ends_phase()
    ensures { FaultEndsPhase }
{}

/// A unit of a program, or a cut, with or without a fault, changes at most the track under the arm; and that only where the
/// program has written it and it is not saved since.
pub fn writes_under_arm()
    ensures { WritesUnderArm }
{}

/// A program keeps every track that none of its units may write.
#[tactic(auto, using(crate::proofs::Writes::run_keeps))]
pub fn run_keeps()
    ensures { RunKeeps }
{}

/// Whether the track under the arm is written and not saved since is read off the units of the script: one has closed a write,
/// and none since has left the track.
#[tactic(auto, using(crate::proofs::Writes::mark_is_of_script))]
pub fn mark_is_of_script()
    ensures { MarkIsOfScript }
{}

/// Of storage a program changes bytes, and not their number.
#[tactic(auto, using(crate::proofs::Sizes::keeps_size))]
pub fn storage_keeps_its_size()
    ensures { KeepsSize }
{}
