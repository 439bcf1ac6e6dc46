//! Loads and saves of a track that fail, and what each leaves.
//! Component descriptions of the 2841 and the 2314, 'Sense': equipment check. That a track is saved as the arm or the head leaves
//! it is this subsystem's own rule.

ghost use Rattle.std.specs.Prelude.{◌≡◌, ◌∷◌, [], Some, None, Ok, true, false};
ghost use Rattle.ckd_position.specs.declared.areas.Area.TheVariants.{Of};
ghost use Rattle.ckd_position.specs.declared.areas.RecordPart.TheVariants.{Count, Data};
ghost use Rattle.ckd_position.specs.declared.areas.Position.TheVariants.{AtIndex, At};
ghost use Rattle.ckd_command.specs.Drive.{LoadFails, SaveFails};
ghost use Rattle.ckd_command.specs.declared.registers.Credit.TheVariants.{EqualId};
ghost use Rattle.ckd_command.specs.declared.registers.Lap.TheVariants.{First, Second};
ghost use Rattle.ckd_command.specs.declared.registers.Mark.TheVariants.{Saved, Written, Lost};
ghost use Rattle.ckd_worked.specs.Commands.{asks, failing, does, seen, saw, arm, track, settled_after, IsRejected, FindsNone, Ends};
ghost use Rattle.ckd_worked.specs.Volumes.{drive, at_track, at_head, slot, track_of_head, track_0, track_1, behind, credited_with, masked_by, on_second_turn};
ghost use Rattle.ckd_worked.specs.Volumes.{written, lost_track};

/// A load that fails ends the command: equipment check alone is reported, and the track stays where it is.
pub fn failed_load()
    ensures read { seen (does (failing LoadFails (asks 0x06 [])) (behind (At (Of Data 1)) drive)) ≡ saw FindsNone 0x1000 (At (Of Data 1)) None }
    ensures search { seen (does (failing LoadFails (asks 0x31 (0 ∷ 0 ∷ 0 ∷ 0 ∷ 0 ∷ []))) (behind (At (Of Data 1)) drive)) ≡ saw FindsNone 0x1000
        (At (Of Data 1)) None }
    ensures write_home_address { seen (does (failing LoadFails (asks 0x19 (0 ∷ 0 ∷ 0 ∷ 0 ∷ 0 ∷ []))) (masked_by 0xC0 drive))
        ≡ saw FindsNone 0x1000 AtIndex None }
    ensures turn { arm (does (failing LoadFails (asks 0x31 (0 ∷ 0 ∷ 0 ∷ 0 ∷ 0 ∷ []))) (on_second_turn drive)) ≡ (0, 0, Second) }
    ensures track { track (does (failing LoadFails (asks 0x06 [])) (behind (At (Of Data 1)) drive)) ≡ (Ok track_0, Saved) }
{}

/// Read Initial Program Loading whose load fails has moved to cylinder 0 and head 0 before.
pub fn failed_load_of_initial_program_loading()
    ensures seen { seen (does (failing LoadFails (asks 0x02 [])) (at_track 1 3)) ≡ saw FindsNone 0x1000 AtIndex None }
    ensures arm { arm (does (failing LoadFails (asks 0x02 [])) (at_track 1 3)) ≡ (0, 0, First) }
{}

/// A command that looks for no area loads no track: seeks, Sense, Set File Mask and the writes that have their area by credit.
pub fn commands_that_load_nothing()
    ensures seek { seen (does (failing LoadFails (asks 0x07 (0 ∷ 0 ∷ 0 ∷ 1 ∷ 0 ∷ 5 ∷ []))) (behind (At (Of Data 1)) drive))
        ≡ saw (Ends 0x08 true) 0x0000 AtIndex None }
    ensures sense { seen (does (failing LoadFails (asks 0x04 [])) (behind (At (Of Data 1)) drive)) ≡ saw (Ends 0x0C false) 0x0000 (At (Of Data 1)) None }
    ensures set_file_mask { seen (does (failing LoadFails (asks 0x1F (0xC0 ∷ []))) (behind (At (Of Data 1)) drive)) ≡ saw (Ends 0x0C false) 0x0000
        (At (Of Data 1)) None }
    ensures write_data { seen (does (failing LoadFails (asks 0x05 (0x11 ∷ []))) (credited_with (EqualId 1) drive)) ≡ saw (Ends 0x0C false) 0x0000
        (At (Of Data 1)) None }
{}

/// A track that was written is saved as the arm or the head leaves it: by a seek, Recalibrate, Read Initial Program Loading and a
/// head change.
pub fn written_track_is_saved()
    ensures seek { track (does (asks 0x07 (0 ∷ 0 ∷ 0 ∷ 0 ∷ 0 ∷ 1 ∷ [])) (written drive)) ≡ (Ok track_1, Saved) }
    ensures seek_cylinder { track (does (asks 0x0B (0 ∷ 0 ∷ 0 ∷ 0 ∷ 0 ∷ 1 ∷ [])) (written drive)) ≡ (Ok track_1, Saved) }
    ensures seek_head { track (does (asks 0x1B (0 ∷ 0 ∷ 0 ∷ 0 ∷ 0 ∷ 1 ∷ [])) (written drive)) ≡ (Ok track_1, Saved) }
    ensures recalibrate { track (does (asks 0x13 []) (written (at_head 1))) ≡ (Ok track_0, Saved) }
    ensures initial_program_loading { track (does (asks 0x02 []) (written (at_head 1))) ≡ (Ok track_0, Saved) }
    ensures head_change { track (does (asks 0x92 []) (written (behind (At (Of Count 3)) drive))) ≡ (Ok track_1, Saved) }
{}

/// Where that save fails at a seek, the seek ends with unit check and equipment check: arm and head stay, the arm does not move,
/// and the track is lost, whatever its slot then spells.
pub fn failed_save_at_a_seek()
    ensures seek { seen (does (failing (SaveFails (slot (track_of_head 0 []))) (asks 0x07 (0 ∷ 0 ∷ 0 ∷ 0 ∷ 0 ∷ 1 ∷ [])))
        (written (behind (At (Of Data 1)) drive))) ≡ saw (Ends 0x0E false) 0x1000 (At (Of Data 1)) None }
    ensures seek_cylinder { seen (does (failing (SaveFails (slot (track_of_head 0 []))) (asks 0x0B (0 ∷ 0 ∷ 0 ∷ 0 ∷ 0 ∷ 1 ∷ [])))
        (written (behind (At (Of Data 1)) drive))) ≡ saw (Ends 0x0E false) 0x1000 (At (Of Data 1)) None }
    ensures seek_head { seen (does (failing (SaveFails (slot (track_of_head 0 []))) (asks 0x1B (0 ∷ 0 ∷ 0 ∷ 0 ∷ 0 ∷ 1 ∷ [])))
        (written (behind (At (Of Data 1)) drive))) ≡ saw (Ends 0x0E false) 0x1000 (At (Of Data 1)) None }
    ensures arm { arm (does (failing (SaveFails (slot (track_of_head 0 []))) (asks 0x07 (0 ∷ 0 ∷ 0 ∷ 1 ∷ 0 ∷ 5 ∷ []))) (written drive)) ≡ (0, 0, First) }
    ensures track { track (does (failing (SaveFails (slot (track_of_head 0 []))) (asks 0x07 (0 ∷ 0 ∷ 0 ∷ 1 ∷ 0 ∷ 5 ∷ []))) (written drive))
        ≡ (Ok (track_of_head 0 ([])), Lost) }
{}

/// At a head change: the command ends there, and the head stays.
pub fn failed_save_at_a_head_change()
    ensures seen { seen (does (failing (SaveFails (slot (track_of_head 0 []))) (asks 0x92 [])) (written (behind (At (Of Count 3)) drive)))
        ≡ saw FindsNone 0x1000 (At (Of Count 3)) None }
    ensures arm { arm (does (failing (SaveFails (slot (track_of_head 0 []))) (asks 0x92 [])) (written (behind (At (Of Count 3)) drive))) ≡ (0, 0, First) }
    ensures track { track (does (failing (SaveFails (slot (track_of_head 0 []))) (asks 0x92 [])) (written (behind (At (Of Count 3)) drive)))
        ≡ (Ok (track_of_head 0 ([])), Lost) }
{}

/// At Recalibrate and Read Initial Program Loading: the command is rejected, and arm and head stay.
pub fn failed_save_at_the_beginning()
    ensures recalibrate { seen (does (failing (SaveFails (slot (track_of_head 1 []))) (asks 0x13 [])) (written (behind (At (Of Data 1)) (at_head 1))))
        ≡ saw IsRejected 0x1000 (At (Of Data 1)) None }
    ensures arm { arm (does (failing (SaveFails (slot (track_of_head 1 []))) (asks 0x13 [])) (written (at_head 1))) ≡ (0, 1, First) }
    ensures initial_program_loading { seen (does (failing (SaveFails (slot (track_of_head 1 []))) (asks 0x02 []))
        (written (behind (At (Of Data 1)) (at_head 1)))) ≡ saw IsRejected 0x1000 (At (Of Data 1)) None }
    ensures track { track (does (failing (SaveFails (slot (track_of_head 1 []))) (asks 0x02 [])) (written (at_head 1))) ≡ (Ok (track_of_head 1 []), Lost) }
{}

/// A track that was not written, or that is lost already, is not saved, and no save can fail. Nor is one that no arm and no head
/// leaves.
pub fn nothing_to_save()
    ensures not_written { seen (does (failing (SaveFails (slot (track_of_head 0 []))) (asks 0x07 (0 ∷ 0 ∷ 0 ∷ 1 ∷ 0 ∷ 5 ∷ []))) (behind (At (Of Data 1)) drive))
        ≡ saw (Ends 0x08 true) 0x0000 AtIndex None }
    ensures lost { seen (does (failing (SaveFails (slot (track_of_head 0 []))) (asks 0x07 (0 ∷ 0 ∷ 0 ∷ 1 ∷ 0 ∷ 5 ∷ [])))
        (lost_track (behind (At (Of Data 1)) drive))) ≡ saw (Ends 0x08 true) 0x0000 AtIndex None }
    ensures seek_refused { seen (does (failing (SaveFails (slot (track_of_head 0 []))) (asks 0x07 (0 ∷ 0 ∷ 0 ∷ 2 ∷ 0 ∷ 0 ∷ [])))
        (written (behind (At (Of Data 1)) drive))) ≡ saw (Ends 0x0E false) 0x8100 (At (Of Data 1)) None }
    ensures same_track { track (does (failing (SaveFails (slot (track_of_head 0 []))) (asks 0x12 [])) (written drive)) ≡ (Ok track_0, Written) }
{}

/// At a program's end a written track is saved. Where that fails unit check and equipment check join what was reported; a track that
/// was not written is left alone.
pub fn end_of_a_program()
    ensures told { seen (settled_after (Some (SaveFails (slot (track_of_head 0 [])))) (does (asks 0x05 (0x11 ∷ [])) (credited_with (EqualId 1) drive)))
        ≡ saw (Ends 0x0E false) 0x1000 (At (Of Data 1)) None }
    ensures track { track (settled_after (Some (SaveFails (slot (track_of_head 0 [])))) (does (asks 0x05 (0x11 ∷ [])) (credited_with (EqualId 1) drive)))
        ≡ (Ok (track_of_head 0 ([])), Lost) }
    ensures not_written { seen (settled_after (Some (SaveFails (slot (track_of_head 0 [])))) (does (asks 0x06 []) drive)) ≡ saw (Ends 0x0C false) 0x0000
        (At (Of Data 1)) None }
    ensures no_fault { seen (settled_after None (does (asks 0x05 (0x11 ∷ [])) (credited_with (EqualId 1) drive))) ≡ saw (Ends 0x0C false) 0x0000
        (At (Of Data 1)) None }
{}

/// Two causes are joined bit by bit: a record that does not fit, on a track that was written before and can't be saved.
pub fn two_causes()
    ensures { seen (settled_after (Some (SaveFails (slot (track_of_head 0 [])))) (does (asks 0x1D (0 ∷ 0 ∷ 0 ∷ 0 ∷ 7 ∷ 0 ∷ 0x0F ∷ 0 ∷ []))
        (written (credited_with (EqualId 1) drive)))) ≡ saw (Ends 0x0E false) 0x1040 AtIndex None }
{}
