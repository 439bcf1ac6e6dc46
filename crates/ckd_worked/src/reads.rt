//! Reads: the area that each looks for, the bytes that it gives, where it leaves the track, and records without data.
//! Component descriptions of the 2841 and the 2314, 'Read Commands' and the sections of the read commands; 'Status': unit
//! exception.

ghost use Rattle.std.specs.Prelude.{◌≡◌, ◌∷◌, [], Some, None, Ok, false, replicate};
ghost use Rattle.ckd_position.specs.declared.areas.Area.TheVariants.{HomeAddress, Of};
ghost use Rattle.ckd_position.specs.declared.areas.RecordPart.TheVariants.{Count, Key, Data};
ghost use Rattle.ckd_position.specs.declared.areas.Position.TheVariants.{AtIndex, At};
ghost use Rattle.ckd_command.specs.declared.registers.Credit.TheVariants.{EqualId, EqualKey};
ghost use Rattle.ckd_command.specs.declared.registers.Lap.TheVariants.{First};
ghost use Rattle.ckd_command.specs.declared.registers.Mark.TheVariants.{Saved};
ghost use Rattle.ckd_worked.specs.Commands.{asks, does, last_of, seen, saw, arm, track, moved, senses_of, FindsNone, Ends};
ghost use Rattle.ckd_worked.specs.Volumes.{drive, drive_over, drive_with, at_track, at_head, slot, record_of, track_of_head, usual_r0, track_0, track_0_with};
ghost use Rattle.ckd_worked.specs.Volumes.{behind};

/// Read Home Address gives five bytes: flag, cylinder and head.
pub fn read_home_address()
    ensures seen { seen (does (asks 0x1A []) (at_head 1)) ≡ saw (Ends 0x0C false) 0x0000 (At HomeAddress) None }
    ensures bytes { moved (does (asks 0x1A []) (at_head 1)) ≡ (0 ∷ 0 ∷ 0 ∷ 0 ∷ 1 ∷ [], 5) }
{}

/// Read R0 gives the whole of R0, and leaves the track behind its data. An R0 without data is reported by unit exception.
pub fn read_r0()
    ensures seen { seen (does (asks 0x16 []) drive) ≡ saw (Ends 0x0C false) 0x0000 (At (Of Data 0)) None }
    ensures bytes { moved (does (asks 0x16 []) drive) ≡ (0 ∷ 0 ∷ 0 ∷ 0 ∷ 0 ∷ 0 ∷ 0 ∷ 8 ∷ 0 ∷ 0 ∷ 0 ∷ 0 ∷ 0 ∷ 0 ∷ 0 ∷ 0 ∷ [], 16) }
    ensures with_key { moved (does (asks 0x16 []) (at_head 1)) ≡ (0 ∷ 0 ∷ 0 ∷ 1 ∷ 0 ∷ 1 ∷ 0 ∷ 0 ∷ 0xE0 ∷ [], 9) }
    ensures without_data { seen (does (asks 0x16 []) (at_head 1)) ≡ saw (Ends 0x0D false) 0x0000 (At (Of Data 0)) None }
{}

/// Read Count gives the next count area behind that of R0, and leaves the track there. It does not report a record without data.
pub fn read_count()
    ensures from_the_index { seen (does (asks 0x12 []) drive) ≡ saw (Ends 0x0C false) 0x0000 (At (Of Count 1)) None }
    ensures bytes { moved (does (asks 0x12 []) drive) ≡ (0 ∷ 0 ∷ 0 ∷ 0 ∷ 1 ∷ 2 ∷ 0 ∷ 4 ∷ [], 8) }
    ensures next { seen (does (asks 0x12 []) (behind (At (Of Count 1)) drive)) ≡ saw (Ends 0x0C false) 0x0000 (At (Of Count 2)) None }
    ensures next_bytes { moved (does (asks 0x12 []) (behind (At (Of Count 1)) drive)) ≡ (0 ∷ 0 ∷ 0 ∷ 0 ∷ 2 ∷ 0 ∷ 0 ∷ 0 ∷ [], 8) }
{}

/// Read Data gives the data of the record whose count or key has just passed, and else that of the next record behind R0.
pub fn read_data()
    ensures from_the_index { seen (does (asks 0x06 []) drive) ≡ saw (Ends 0x0C false) 0x0000 (At (Of Data 1)) None }
    ensures bytes { moved (does (asks 0x06 []) drive) ≡ (0xC1 ∷ 0xC1 ∷ 0xC1 ∷ 0xC1 ∷ [], 4) }
    ensures behind_the_home_address { seen (does (asks 0x06 []) (behind (At HomeAddress) drive)) ≡ saw (Ends 0x0C false) 0x0000 (At (Of Data 1)) None }
    ensures behind_a_count { moved (does (asks 0x06 []) (behind (At (Of Count 3)) drive)) ≡ (0xC3 ∷ 0xC3 ∷ 0xC3 ∷ 0xC3 ∷ [], 4) }
    ensures behind_a_key { seen (does (asks 0x06 []) (behind (At (Of Key 3)) drive)) ≡ saw (Ends 0x0C false) 0x0000 (At (Of Data 3)) None }
    ensures behind_data { seen (does (asks 0x06 []) (behind (At (Of Data 2)) drive)) ≡ saw (Ends 0x0C false) 0x0000 (At (Of Data 3)) None }
{}

/// The data of R0 is reached from its count area alone.
pub fn data_of_r0()
    ensures seen { seen (does (asks 0x06 []) (behind (At (Of Count 0)) drive)) ≡ saw (Ends 0x0C false) 0x0000 (At (Of Data 0)) None }
    ensures bytes { moved (does (asks 0x06 []) (behind (At (Of Count 0)) drive)) ≡ (0 ∷ 0 ∷ 0 ∷ 0 ∷ 0 ∷ 0 ∷ 0 ∷ 0 ∷ [], 8) }
{}

/// Read Key and Data gives key and data of the record whose count has just passed, and else those of the next record behind R0;
/// behind a key too, those of the next.
pub fn read_key_and_data()
    ensures from_the_index { seen (does (asks 0x0E []) drive) ≡ saw (Ends 0x0C false) 0x0000 (At (Of Data 1)) None }
    ensures bytes { moved (does (asks 0x0E []) drive) ≡ (0xA1 ∷ 0xA5 ∷ 0xC1 ∷ 0xC1 ∷ 0xC1 ∷ 0xC1 ∷ [], 6) }
    ensures behind_a_count { moved (does (asks 0x0E []) (behind (At (Of Count 3)) drive)) ≡ (0xB1 ∷ 0xB5 ∷ 0xC3 ∷ 0xC3 ∷ 0xC3 ∷ 0xC3 ∷ [], 6) }
    ensures behind_a_key { seen (does (asks 0x0E []) (behind (At (Of Key 1)) drive)) ≡ saw (Ends 0x0D false) 0x0000 (At (Of Data 2)) None }
    ensures of_r0 { moved (does (asks 0x0E []) (behind (At (Of Count 0)) (at_head 1))) ≡ (0xE0 ∷ [], 1) }
{}

/// Read Count, Key and Data gives the whole of the next record whose count area is still to pass, and leaves the track behind its
/// data.
pub fn read_count_key_and_data()
    ensures from_the_index { seen (does (asks 0x1E []) drive) ≡ saw (Ends 0x0C false) 0x0000 (At (Of Data 1)) None }
    ensures bytes { moved (does (asks 0x1E []) drive) ≡ (0 ∷ 0 ∷ 0 ∷ 0 ∷ 1 ∷ 2 ∷ 0 ∷ 4 ∷ 0xA1 ∷ 0xA5 ∷ 0xC1 ∷ 0xC1 ∷ 0xC1 ∷ 0xC1 ∷ [], 14) }
    ensures behind_a_count { seen (does (asks 0x1E []) (behind (At (Of Count 2)) drive)) ≡ saw (Ends 0x0C false) 0x0000 (At (Of Data 3)) None }
    ensures next { moved (last_of (asks 0x1E [] ∷ asks 0x12 [] ∷ []) drive) ≡ (0 ∷ 0 ∷ 0 ∷ 0 ∷ 2 ∷ 0 ∷ 0 ∷ 0 ∷ [], 8) }
{}

/// Read Initial Program Loading sets cylinder 0 and head 0, and gives the data of record 1 from the index on.
pub fn read_initial_program_loading()
    ensures seen { seen (does (asks 0x02 []) (behind (At (Of Data 1)) (at_track 1 3))) ≡ saw (Ends 0x0C false) 0x0000 (At (Of Data 1)) None }
    ensures bytes { moved (does (asks 0x02 []) (behind (At (Of Data 1)) (at_track 1 3))) ≡ (0xC1 ∷ 0xC1 ∷ 0xC1 ∷ 0xC1 ∷ [], 4) }
    ensures arm { arm (does (asks 0x02 []) (behind (At (Of Data 1)) (at_track 1 3))) ≡ (0, 0, First) }
{}

/// On a track without record 1 it finds none; the arm is at cylinder 0 and head 0 all the same.
pub fn initial_program_loading_without_record_1()
    ensures told { seen (does (asks 0x02 []) (drive_over (slot (track_of_head 0 (usual_r0 0 ∷ []))) 1 3)) ≡ saw FindsNone 0x0008 AtIndex None }
    ensures arm { arm (does (asks 0x02 []) (drive_over (slot (track_of_head 0 (usual_r0 0 ∷ []))) 1 3)) ≡ (0, 0, First) }
{}

/// A record without data is reported by unit exception in each read whose bytes end with its data.
pub fn records_without_data()
    ensures read_data { seen (does (asks 0x06 []) (behind (At (Of Count 2)) drive)) ≡ saw (Ends 0x0D false) 0x0000 (At (Of Data 2)) None }
    ensures read_key_and_data { seen (does (asks 0x0E []) (behind (At (Of Count 2)) drive)) ≡ saw (Ends 0x0D false) 0x0000 (At (Of Data 2)) None }
    ensures read_key_and_data_of_a_key { seen (does (asks 0x0E []) (at_head 1)) ≡ saw (Ends 0x0D false) 0x0000 (At (Of Data 1)) None }
    ensures read_count_key_and_data { seen (does (asks 0x1E []) (behind (At (Of Count 1)) drive)) ≡ saw (Ends 0x0D false) 0x0000 (At (Of Data 2)) None }
    ensures read_initial_program_loading { seen (does (asks 0x02 []) (drive_with (track_0_with (record_of 0 1 [] [])))) ≡ saw (Ends 0x0D false) 0x0000
        (At (Of Data 1)) None }
    ensures no_bytes { moved (does (asks 0x06 []) (behind (At (Of Count 2)) drive)) ≡ ([], 0) }
{}

/// The commands that work on another area of such a record report no unit exception.
pub fn no_unit_exception_elsewhere()
    ensures read_count { seen (does (asks 0x12 []) (behind (At (Of Count 1)) drive)) ≡ saw (Ends 0x0C false) 0x0000 (At (Of Count 2)) None }
    ensures search_identifier { seen (does (asks 0x31 (0 ∷ 0 ∷ 0 ∷ 0 ∷ 2 ∷ [])) (behind (At (Of Count 1)) drive)) ≡ saw (Ends 0x4C false) 0x0000
        (At (Of Count 2)) (Some (EqualId 2)) }
    ensures search_key { seen (does (asks 0x29 (0xE1 ∷ [])) (at_head 1)) ≡ saw (Ends 0x4C false) 0x0000 (At (Of Key 1)) (Some (EqualKey 1)) }
    ensures read_home_address { seen (does (asks 0x1A []) (at_head 1)) ≡ saw (Ends 0x0C false) 0x0000 (At HomeAddress) None }
{}

/// Each command that must find an area on an unreadable track ends with data check and missing address marker; where it stood on
/// the track it stays.
pub fn unreadable_track()
    ensures searches { senses_of (0x39 ∷ 0x31 ∷ 0x51 ∷ 0x71 ∷ 0x29 ∷ 0x49 ∷ 0x69 ∷ []) (at_head 2) ≡ replicate 7 0x0802 }
    ensures reads { senses_of (0x1A ∷ 0x16 ∷ 0x12 ∷ 0x06 ∷ 0x0E ∷ 0x1E ∷ []) (at_head 2) ≡ replicate 6 0x0802 }
    ensures initial_program_loading { seen (does (asks 0x02 []) (drive_over [] 0 0)) ≡ saw FindsNone 0x0802 AtIndex None }
    ensures position { seen (does (asks 0x06 []) (behind (At (Of Count 1)) (at_head 2))) ≡ saw FindsNone 0x0802 (At (Of Count 1)) None }
{}

/// No-Operation, Sense, the seeks, Recalibrate and Set File Mask do not look at the track.
pub fn commands_that_need_no_readable_track()
    ensures { senses_of (0x03 ∷ 0x04 ∷ 0x07 ∷ 0x0B ∷ 0x1B ∷ 0x13 ∷ 0x1F ∷ []) (at_head 2) ≡ replicate 7 0x0000 }
{}

/// R0 is a track's first record, whatever number its identifier has.
pub fn r0_is_the_first_record()
    ensures read_r0 { moved (does (asks 0x16 []) (drive_with (track_of_head 0 (record_of 0 5 [] (0x77 ∷ []) ∷ record_of 0 0 [] (0x88 ∷ []) ∷ []))))
        ≡ (0 ∷ 0 ∷ 0 ∷ 0 ∷ 5 ∷ 0 ∷ 0 ∷ 1 ∷ 0x77 ∷ [], 9) }
    ensures read_data { moved (does (asks 0x06 []) (drive_with (track_of_head 0 (record_of 0 5 [] (0x77 ∷ []) ∷ record_of 0 0 [] (0x88 ∷ []) ∷ []))))
        ≡ (0x88 ∷ [], 1) }
{}

/// What is only read and searched is not written.
pub fn reads_leave_the_track()
    ensures read { track (does (asks 0x1E []) drive) ≡ (Ok track_0, Saved) }
    ensures search { track (does (asks 0x31 (0 ∷ 0 ∷ 0 ∷ 0 ∷ 0 ∷ [])) drive) ≡ (Ok track_0, Saved) }
{}
