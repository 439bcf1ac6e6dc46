//! Incorrect length, and commands that are cut, stopped or over before a byte has passed.
//! Principles of Operation, Input/Output Operations: 'Incorrect Length', 'Immediate Operations', 'Halt I/O', 'Program Check'.

ghost use Rattle.std.specs.Prelude.{◌≡◌, [], ◌∷◌, ◌++◌, Some, None, Ok, replicate};
ghost use Rattle.s360_laws.specs.Events.{Hio, WithCode, StatusStored, Stepped, Interrupted};
ghost use Rattle.s360_laws.specs.Machine.{answers};
ghost use Rattle.s360_laws.specs.declared.condition.ConditionCode.TheVariants.{Zero, Two};
ghost use Rattle.s360_laws.specs.Runs.{run};
ghost use Rattle.s360_laws.specs.Scripts.{units};
ghost use Rattle.s360_worked.specs.ChannelPrograms.{ccw, program, start};
ghost use Rattle.s360_worked.specs.Channels.{channel, glance_after, glanced, steps_and, whole_program};
ghost use Rattle.s360_worked.specs.Seen.{sense_of, seen, saw, csw};
ghost use Rattle.s360_worked.specs.Small.{small_drive, small_track, track_behind, seek_with, two_no_operations, search_for_r0, home_address_past_storage};
ghost use Rattle.s360_worked.specs.Small.{short_write, write_and_next_head, steps_failing, small_save_leaves};

/// While a word chains data it does not suppress incorrect length: the record ends within the first area.
pub fn no_suppression_while_data_chains()
    ensures { seen 0 0 (run (units 9) (start small_drive (program (ccw 0x06 0x600 0xA0 6)))) ≡ saw 6 (csw 0x408 0x0C 0x40 2) (sense_of 0x00 0x00) [] }
{}

/// Incorrect length is not reported beside unit check: a seek address of seven bytes, and its cylinder is not there.
pub fn no_length_beside_unit_check()
    ensures { seen 0 0 (run (units 9) (start small_drive (seek_with 0 7 5))) ≡ saw 8 (csw 0x408 0x0E 0 1) (sense_of 0x81 0x00) [] }
{}

/// Nor where Halt I/O cuts a command: behind all bytes of its record, or behind all that its count asks for.
pub fn no_length_by_a_cut()
    ensures all_bytes { answers (steps_and 4 (Hio 0x190)) (channel (program (ccw 0x06 0x600 0 6)) small_drive) ≡ WithCode Zero ∷ Stepped 4 ∷ WithCode Two
        ∷ Interrupted (Some (0x190, csw 0x408 0x0C 0 2)) ∷ [] }
    ensures whole_count { answers (steps_and 2 (Hio 0x190)) (channel (program (ccw 0x06 0x600 0 2)) small_drive) ≡ WithCode Zero ∷ Stepped 2 ∷ WithCode Two
        ∷ Interrupted (Some (0x190, csw 0x408 0x0C 0 0)) ∷ [] }
{}

/// Nor of an immediate command, whose whole count is left.
pub fn count_of_an_immediate_command()
    ensures { seen 0 0 (run (units 9) (start small_drive two_no_operations)) ≡ saw 2 (csw 0x410 0x0C 0 9) (sense_of 0x00 0x00) [] }
{}

/// An immediate command that chains data chains nothing: it is over as it starts.
pub fn immediate_command_that_chains_data()
    ensures { answers whole_program (channel (program (ccw 0x03 0 0xC0 1 ++ ccw 0x03 0 0 1)) small_drive) ≡ StatusStored (record { 0 = 0x0C })
        (record { 0 = 0 }) ∷ Stepped 0 ∷ Interrupted None ∷ [] }
{}

/// A search that is cut with no byte is not satisfied; with one byte it is, where that byte is the same. Nor is one that a program check
/// stops at its first byte.
pub fn search_that_is_cut()
    ensures no_byte { answers (steps_and 0 (Hio 0x190)) (channel (search_for_r0 0x500) small_drive) ≡ WithCode Zero ∷ Stepped 0 ∷ WithCode Two
        ∷ Interrupted (Some (0x190, csw 0x408 0x0C 0 5)) ∷ [] }
    ensures one_byte { answers (steps_and 1 (Hio 0x190)) (channel (search_for_r0 0x500) small_drive) ≡ WithCode Zero ∷ Stepped 1 ∷ WithCode Two
        ∷ Interrupted (Some (0x190, csw 0x408 0x4C 0 4)) ∷ [] }
    ensures check { seen 0 0 (run (units 9) (start small_drive (search_for_r0 0x1000))) ≡ saw 2 (csw 0x408 0x0C 0x20 5) (sense_of 0x00 0x00) [] }
{}

/// Write Home Address for which no byte comes leaves the track as it was: stopped by a program check, or cut.
pub fn home_address_without_a_byte()
    ensures ended { seen 0 0 (run (units 9) (start small_drive home_address_past_storage)) ≡ saw 5 (csw 0x410 0x0C 0x20 5) (sense_of 0x00 0x00) [] }
    ensures track { track_behind (run (units 9) (start small_drive home_address_past_storage)) ≡ Some (Ok (small_track (replicate 4 0xC1))) }
    ensures halted { answers (steps_and 3 (Hio 0x190)) (channel home_address_past_storage small_drive) ≡ WithCode Zero ∷ Stepped 3 ∷ WithCode Two
        ∷ Interrupted (Some (0x190, csw 0x410 0x0C 0 5)) ∷ [] }
{}

/// Three bytes for a record of four are reported as incorrect length; but where the save at the program's end fails, unit check is reported and not
/// incorrect length.
pub fn length_beside_a_failed_save()
    ensures saved { seen 0 0 (run (units 30) (start small_drive short_write)) ≡ saw 21 (csw 0x420 0x0C 0x40 0) (sense_of 0x00 0x00) [] }
    ensures failed { answers (steps_failing 19 (small_save_leaves (0xD7 ∷ 0xD7 ∷ 0xC1 ∷ 0xC1 ∷ []))) (channel short_write small_drive) ≡ WithCode Zero
        ∷ Stepped 20 ∷ Interrupted (Some (0x190, csw 0x420 0x0E 0 0)) ∷ [] }
{}

/// A record is updated, and a read with the multiple-track bit passes the index. The save that comes before the next head fails: the read ends
/// with unit check and equipment check, and the head stays.
pub fn head_change_with_a_failed_save()
    ensures told { answers (steps_failing 22 (small_save_leaves (0xD7 ∷ 0xD7 ∷ 0xC1 ∷ 0xC1 ∷ []))) (channel write_and_next_head small_drive) ≡ WithCode Zero
        ∷ Stepped 23 ∷ Interrupted (Some (0x190, csw 0x428 0x0E 0 5)) ∷ [] }
    ensures state { glance_after (steps_failing 22 (small_save_leaves (0xD7 ∷ 0xD7 ∷ 0xC1 ∷ 0xC1 ∷ []))) (channel write_and_next_head small_drive)
        ≡ glanced (0 ∷ 0 ∷ 0x04 ∷ 0x28 ∷ 0x0E ∷ 0 ∷ 0 ∷ 5 ∷ []) ((0, 0, sense_of 0x10 0x00, Ok (small_track (0xD7 ∷ 0xD7 ∷ 0xC1 ∷ 0xC1 ∷ []))) ∷ []) }
{}
