//! Seeks and Recalibrate: the arm, the head, and where they leave the track.
//! Component descriptions of the 2841 and the 2314, 'Control Commands': Seek, Seek Cylinder, Seek Head, Recalibrate,
//! No-Operation; 'Sense': seek check.

ghost use Rattle.std.specs.Prelude.{◌≡◌, ◌∷◌, [], Some, None, true, false};
ghost use Rattle.ckd_position.specs.declared.areas.Area.TheVariants.{Of};
ghost use Rattle.ckd_position.specs.declared.areas.RecordPart.TheVariants.{Count, Data};
ghost use Rattle.ckd_position.specs.declared.areas.Position.TheVariants.{AtIndex, At};
ghost use Rattle.ckd_command.specs.declared.registers.Credit.TheVariants.{EqualId};
ghost use Rattle.ckd_command.specs.declared.registers.Lap.TheVariants.{First};
ghost use Rattle.ckd_worked.specs.Commands.{asks, does, last_of, seen, saw, arm, moved, IsOver, Ends};
ghost use Rattle.ckd_worked.specs.Volumes.{drive, at_track, behind, drive_of_a_2314};

/// Seek takes bin, cylinder and head; it ends with channel end while its arm moves, and leaves the track at its index.
pub fn seek()
    ensures seen { seen (does (asks 0x07 (0 ∷ 0 ∷ 0 ∷ 1 ∷ 0 ∷ 5 ∷ [])) (behind (At (Of Data 1)) drive)) ≡ saw (Ends 0x08 true) 0x0000 AtIndex None }
    ensures arm { arm (does (asks 0x07 (0 ∷ 0 ∷ 0 ∷ 1 ∷ 0 ∷ 5 ∷ [])) (behind (At (Of Data 1)) drive)) ≡ (1, 5, First) }
    ensures wanted { moved (does (asks 0x07 (0 ∷ 0 ∷ 0 ∷ 1 ∷ 0 ∷ 5 ∷ [])) (behind (At (Of Data 1)) drive)) ≡ ([], 6) }
{}

/// So does Seek Cylinder.
pub fn seek_cylinder()
    ensures seen { seen (does (asks 0x0B (0 ∷ 0 ∷ 0 ∷ 1 ∷ 0 ∷ 5 ∷ [])) (behind (At (Of Data 1)) drive)) ≡ saw (Ends 0x08 true) 0x0000 AtIndex None }
    ensures arm { arm (does (asks 0x0B (0 ∷ 0 ∷ 0 ∷ 1 ∷ 0 ∷ 5 ∷ [])) (behind (At (Of Data 1)) drive)) ≡ (1, 5, First) }
    ensures wanted { moved (does (asks 0x0B (0 ∷ 0 ∷ 0 ∷ 1 ∷ 0 ∷ 5 ∷ [])) (behind (At (Of Data 1)) drive)) ≡ ([], 6) }
{}

/// A 2311 has ten heads and a 2314 twenty: the last one is there, and the next is not.
pub fn heads_of_each_drive()
    ensures last_of_a_2311 { arm (does (asks 0x1B (0 ∷ 0 ∷ 0 ∷ 0 ∷ 0 ∷ 9 ∷ [])) (behind (At (Of Data 1)) drive)) ≡ (0, 9, First) }
    ensures none_of_a_2311 { seen (does (asks 0x1B (0 ∷ 0 ∷ 0 ∷ 0 ∷ 0 ∷ 0x0A ∷ [])) (behind (At (Of Data 1)) drive)) ≡ saw (Ends 0x0E false) 0x8100
        (At (Of Data 1)) None }
    ensures last_of_a_2314 { arm (does (asks 0x1B (0 ∷ 0 ∷ 0 ∷ 0 ∷ 0 ∷ 0x13 ∷ [])) drive_of_a_2314) ≡ (0, 19, First) }
    ensures none_of_a_2314 { seen (does (asks 0x1B (0 ∷ 0 ∷ 0 ∷ 0 ∷ 0 ∷ 0x14 ∷ [])) drive_of_a_2314) ≡ saw (Ends 0x0E false) 0x8100 AtIndex None }
{}

/// Seek Head looks at the head alone: bin and cylinder may be any. The arm does not move, so the device end comes with the
/// channel end.
pub fn seek_head()
    ensures seen { seen (does (asks 0x1B (1 ∷ 1 ∷ 0 ∷ 7 ∷ 0 ∷ 5 ∷ [])) (behind (At (Of Data 1)) drive)) ≡ saw (Ends 0x0C false) 0x0000 AtIndex None }
    ensures arm { arm (does (asks 0x1B (1 ∷ 1 ∷ 0 ∷ 7 ∷ 0 ∷ 5 ∷ [])) (behind (At (Of Data 1)) drive)) ≡ (0, 5, First) }
    ensures wanted { moved (does (asks 0x1B []) (behind (At (Of Data 1)) drive)) ≡ ([], 6) }
{}

/// A seek to the track under the arm leaves that track at its index too, and its arm counts as moving.
pub fn seek_to_where_the_arm_is()
    ensures seen { seen (does (asks 0x07 (0 ∷ 0 ∷ 0 ∷ 0 ∷ 0 ∷ 0 ∷ [])) (behind (At (Of Data 1)) drive)) ≡ saw (Ends 0x08 true) 0x0000 AtIndex None }
    ensures head { seen (does (asks 0x1B (0 ∷ 0 ∷ 0 ∷ 0 ∷ 0 ∷ 0 ∷ [])) (behind (At (Of Data 1)) drive)) ≡ saw (Ends 0x0C false) 0x0000 AtIndex None }
{}

/// Behind a seek a search begins at the index of the new track.
pub fn search_behind_a_seek()
    ensures { seen (last_of (asks 0x31 (0 ∷ 0 ∷ 0 ∷ 0 ∷ 0 ∷ []) ∷ asks 0x07 (0 ∷ 0 ∷ 0 ∷ 0 ∷ 0 ∷ 1 ∷ []) ∷ asks 0x31 (0 ∷ 0 ∷ 0 ∷ 1 ∷ 0 ∷ []) ∷ []) drive)
        ≡ saw (Ends 0x4C false) 0x0000 (At (Of Count 0)) (Some (EqualId 0)) }
{}

/// A cylinder, a head or a bin that the volume does not have is command reject and seek check. Arm and track stay.
pub fn seek_address_outside()
    ensures cylinder { seen (does (asks 0x07 (0 ∷ 0 ∷ 0 ∷ 2 ∷ 0 ∷ 0 ∷ [])) (behind (At (Of Data 1)) drive)) ≡ saw (Ends 0x0E false) 0x8100
        (At (Of Data 1)) None }
    ensures head { seen (does (asks 0x07 (0 ∷ 0 ∷ 0 ∷ 0 ∷ 0 ∷ 0x0A ∷ [])) (behind (At (Of Data 1)) drive)) ≡ saw (Ends 0x0E false) 0x8100
        (At (Of Data 1)) None }
    ensures bin { seen (does (asks 0x07 (0 ∷ 1 ∷ 0 ∷ 0 ∷ 0 ∷ 0 ∷ [])) (behind (At (Of Data 1)) drive)) ≡ saw (Ends 0x0E false) 0x8100 (At (Of Data 1)) None }
    ensures of_seek_cylinder { seen (does (asks 0x0B (0 ∷ 0 ∷ 0 ∷ 2 ∷ 0 ∷ 0 ∷ [])) (behind (At (Of Data 1)) drive)) ≡ saw (Ends 0x0E false) 0x8100
        (At (Of Data 1)) None }
    ensures of_seek_head { seen (does (asks 0x1B (0 ∷ 0 ∷ 0 ∷ 0 ∷ 0 ∷ 0x0A ∷ [])) (behind (At (Of Data 1)) drive)) ≡ saw (Ends 0x0E false) 0x8100
        (At (Of Data 1)) None }
    ensures arm { arm (does (asks 0x07 (0 ∷ 0 ∷ 0 ∷ 1 ∷ 0 ∷ 0x0A ∷ [])) (behind (At (Of Data 1)) drive)) ≡ (0, 0, First) }
{}

/// The high byte of each of the three numbers counts.
pub fn high_bytes_of_a_seek_address()
    ensures cylinder { seen (does (asks 0x07 (0 ∷ 0 ∷ 1 ∷ 0 ∷ 0 ∷ 0 ∷ [])) (behind (At (Of Data 1)) drive)) ≡ saw (Ends 0x0E false) 0x8100
        (At (Of Data 1)) None }
    ensures head { seen (does (asks 0x07 (0 ∷ 0 ∷ 0 ∷ 0 ∷ 1 ∷ 0 ∷ [])) (behind (At (Of Data 1)) drive)) ≡ saw (Ends 0x0E false) 0x8100 (At (Of Data 1)) None }
    ensures bin { seen (does (asks 0x07 (1 ∷ 0 ∷ 0 ∷ 0 ∷ 0 ∷ 0 ∷ [])) (behind (At (Of Data 1)) drive)) ≡ saw (Ends 0x0E false) 0x8100 (At (Of Data 1)) None }
    ensures of_seek_head { seen (does (asks 0x1B (0 ∷ 0 ∷ 0 ∷ 0 ∷ 1 ∷ 0 ∷ [])) (behind (At (Of Data 1)) drive)) ≡ saw (Ends 0x0E false) 0x8100
        (At (Of Data 1)) None }
{}

/// A seek for which no byte comes moves nothing and is no error.
pub fn seek_without_bytes()
    ensures seek { seen (does (asks 0x07 []) (behind (At (Of Data 1)) drive)) ≡ saw (Ends 0x0C false) 0x0000 (At (Of Data 1)) None }
    ensures seek_cylinder { seen (does (asks 0x0B []) (behind (At (Of Data 1)) drive)) ≡ saw (Ends 0x0C false) 0x0000 (At (Of Data 1)) None }
    ensures seek_head { seen (does (asks 0x1B []) (behind (At (Of Data 1)) drive)) ≡ saw (Ends 0x0C false) 0x0000 (At (Of Data 1)) None }
    ensures arm { arm (does (asks 0x07 []) (behind (At (Of Data 1)) (at_track 1 3))) ≡ (1, 3, First) }
{}

/// A seek for which one to five bytes come is a command reject, and arm and track stay.
pub fn seek_cut_short()
    ensures one_byte { seen (does (asks 0x07 (0 ∷ [])) (behind (At (Of Data 1)) drive)) ≡ saw (Ends 0x0E false) 0x8000 (At (Of Data 1)) None }
    ensures five_bytes { seen (does (asks 0x07 (0 ∷ 0 ∷ 0 ∷ 0 ∷ 0 ∷ [])) (behind (At (Of Data 1)) drive)) ≡ saw (Ends 0x0E false) 0x8000 (At (Of Data 1)) None }
    ensures of_seek_cylinder { seen (does (asks 0x0B (0 ∷ 0 ∷ 0 ∷ 0 ∷ 0 ∷ [])) (behind (At (Of Data 1)) drive)) ≡ saw (Ends 0x0E false) 0x8000
        (At (Of Data 1)) None }
    ensures of_seek_head { seen (does (asks 0x1B (0 ∷ 0 ∷ 0 ∷ 0 ∷ 0 ∷ [])) (behind (At (Of Data 1)) drive)) ≡ saw (Ends 0x0E false) 0x8000
        (At (Of Data 1)) None }
    ensures arm { arm (does (asks 0x07 (0 ∷ 0 ∷ 0 ∷ 1 ∷ 0 ∷ [])) (behind (At (Of Data 1)) drive)) ≡ (0, 0, First) }
{}

/// Recalibrate goes to cylinder 0 and head 0. It is over as it begins, with its arm in motion, and leaves the track at its index.
pub fn recalibrate()
    ensures seen { seen (does (asks 0x13 []) (behind (At (Of Data 1)) (at_track 1 3))) ≡ saw (IsOver true) 0x0000 AtIndex None }
    ensures arm { arm (does (asks 0x13 []) (behind (At (Of Data 1)) (at_track 1 3))) ≡ (0, 0, First) }
{}

/// No-Operation is over as it begins, and leaves arm and track where they are.
pub fn no_operation()
    ensures seen { seen (does (asks 0x03 []) (behind (At (Of Data 1)) (at_track 1 3))) ≡ saw (IsOver false) 0x0000 (At (Of Data 1)) None }
    ensures arm { arm (does (asks 0x03 []) (behind (At (Of Data 1)) (at_track 1 3))) ≡ (1, 3, First) }
{}
