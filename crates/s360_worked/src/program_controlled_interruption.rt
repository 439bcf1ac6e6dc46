//! Program-controlled interruption, and storage that changes while a program runs.
//! Principles of Operation, Input/Output Operations: 'Program-Controlled Interruption'; 'Protection'.

ghost use Rattle.std.specs.Prelude.{◌≡◌, replicate, [], ◌∷◌, Some, None, true, Ok};
ghost use Rattle.s360_laws.specs.Events.{WithCode, StatusStored, Stepped, Interrupted, WasKept};
ghost use Rattle.s360_laws.specs.Machine.{answers};
ghost use Rattle.s360_laws.specs.declared.condition.ConditionCode.TheVariants.{Zero};
ghost use Rattle.s360_worked.specs.ChannelPrograms.{read, interrupting_no_operation, seek_and_no_operation};
ghost use Rattle.s360_worked.specs.Channels.{channel, channel_with_key_1, glance_after, glance_after_programs, glanced, interruption_taken, interruption_left};
ghost use Rattle.s360_worked.specs.Channels.{whole_program, word_changed, key_changed};
ghost use Rattle.s360_worked.specs.Seen.{sense_of, csw, csw_with_key};
ghost use Rattle.s360_worked.specs.Volumes.{written_drive, first_track};

/// The interruption is taken while the program runs, and is not reported again with the ending.
pub fn interruption_taken_while_running()
    ensures told { answers interruption_taken (channel (read 0x600 0x08 80) written_drive) ≡ WithCode Zero ∷ Interrupted (Some (0x190, csw 0x408 0 0x80 80))
        ∷ Stepped 81 ∷ Interrupted (Some (0x190, csw 0x408 0x0C 0 0)) ∷ [] }
    ensures state { glance_after interruption_taken (channel (read 0x600 0x08 80) written_drive) ≡ glanced (0 ∷ 0 ∷ 0x04 ∷ 0x08 ∷ 0x0C ∷ 0 ∷ 0 ∷ 0 ∷ [])
        ((0, 0, sense_of 0x00 0x00, Ok (first_track (replicate 80 0xC1))) ∷ []) }
    ensures serial { glance_after_programs interruption_taken (channel (read 0x600 0x08 80) written_drive) ≡ glanced (0 ∷ 0 ∷ 0x04 ∷ 0x08 ∷ 0x0C ∷ 0 ∷ 0 ∷ 0
        ∷ []) ((0, 0, sense_of 0x00 0x00, Ok (first_track (replicate 80 0xC1))) ∷ []) }
{}

/// The interruption is not taken before the program ends, and is reported with its ending.
pub fn interruption_told_with_the_ending()
    ensures { answers interruption_left (channel (read 0x600 0x08 80) written_drive) ≡ WithCode Zero ∷ Stepped 81
        ∷ Interrupted (Some (0x190, csw 0x408 0x0C 0x80 0)) ∷ Interrupted None ∷ [] }
{}

/// A command that is over as it starts reports the interruption in the status that Start I/O stores.
pub fn interruption_of_an_immediate_command()
    ensures { answers whole_program (channel interrupting_no_operation written_drive) ≡ StatusStored (record { 0 = 0x0C }) (record { 0 = 0x80 }) ∷ Stepped 0
        ∷ Interrupted None ∷ [] }
{}

/// The processor changes the next channel command word before it is fetched: what it then says is done.
pub fn next_word_changed()
    ensures told { answers word_changed (channel seek_and_no_operation written_drive) ≡ WithCode Zero ∷ Stepped 6 ∷ WasKept true ∷ Stepped 9
        ∷ Interrupted (Some (0x190, csw 0x410 0x0C 0 0)) ∷ [] }
    ensures state { glance_after word_changed (channel seek_and_no_operation written_drive) ≡ glanced (0 ∷ 0 ∷ 0x04 ∷ 0x10 ∷ 0x0C ∷ 0 ∷ 0 ∷ 0 ∷ [])
        ((0, 0, sense_of 0x00 0x00, Ok (first_track (replicate 80 0xC1))) ∷ []) }
    ensures serial { glance_after_programs word_changed (channel seek_and_no_operation written_drive) ≡ glanced (0 ∷ 0 ∷ 0x04 ∷ 0x10 ∷ 0x0C ∷ 0 ∷ 0 ∷ 0 ∷ [])
        ((0, 0, sense_of 0x00 0x00, Ok (first_track (replicate 80 0xC1))) ∷ []) }
{}

/// The processor changes the storage key of the data area while a read fills it: protection check at the next byte.
pub fn storage_key_changed()
    ensures { answers key_changed (channel_with_key_1 (read 0x600 0x00 80) written_drive) ≡ WasKept true ∷ WithCode Zero ∷ Stepped 10 ∷ WasKept true ∷ Stepped 1
        ∷ Interrupted (Some (0x190, csw_with_key 1 0x408 0x0C 0x10 0x46)) ∷ [] }
{}
