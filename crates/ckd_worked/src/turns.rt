//! Turns of the track: the index passes, the next head follows, or no record is found.
//! Component descriptions of the 2841 and the 2314, 'Multiple-Track Operation', 'Search Commands' and 'Sense': no record found,
//! end of cylinder. That searches which follow one another share their turns is this subsystem's own rule.

ghost use Rattle.std.specs.Prelude.{◌≡◌, ◌∷◌, [], Some, None, false};
ghost use Rattle.ckd_position.specs.declared.areas.Area.TheVariants.{HomeAddress, Of};
ghost use Rattle.ckd_position.specs.declared.areas.RecordPart.TheVariants.{Count, Key, Data};
ghost use Rattle.ckd_position.specs.declared.areas.Position.TheVariants.{AtIndex, At};
ghost use Rattle.ckd_command.specs.declared.registers.Credit.TheVariants.{EqualHomeAddress, EqualKey};
ghost use Rattle.ckd_command.specs.declared.registers.Lap.TheVariants.{First, Second};
ghost use Rattle.ckd_worked.specs.Commands.{asks, does, last_of, seen, saw, arm, moved, FindsNone, Ends};
ghost use Rattle.ckd_worked.specs.Volumes.{drive, at_head, behind, masked_by, on_second_turn};

/// Searches that follow one another share their turns: the third one passes the index, and at the fifth, which would pass it
/// again, no record is found.
pub fn searches_share_one_turn()
    ensures third { seen (last_of (asks 0x29 (0xFF ∷ []) ∷ asks 0x29 (0xFF ∷ []) ∷ asks 0x29 (0xFF ∷ []) ∷ []) drive) ≡ saw (Ends 0x0C false) 0x0000
        (At (Of Key 1)) None }
    ensures third_turn { arm (last_of (asks 0x29 (0xFF ∷ []) ∷ asks 0x29 (0xFF ∷ []) ∷ asks 0x29 (0xFF ∷ []) ∷ []) drive) ≡ (0, 0, Second) }
    ensures fourth { seen (last_of (asks 0x29 (0xFF ∷ []) ∷ asks 0x29 (0xFF ∷ []) ∷ asks 0x29 (0xFF ∷ []) ∷ asks 0x29 (0xFF ∷ []) ∷ []) drive)
        ≡ saw (Ends 0x0C false) 0x0000 (At (Of Key 3)) None }
    ensures fifth { seen (last_of (asks 0x29 (0xFF ∷ []) ∷ asks 0x29 (0xFF ∷ []) ∷ asks 0x29 (0xFF ∷ []) ∷ asks 0x29 (0xFF ∷ []) ∷ asks 0x29 (0xFF ∷ [])
        ∷ []) drive) ≡ saw FindsNone 0x0008 AtIndex None }
    ensures fifth_turn { arm (last_of (asks 0x29 (0xFF ∷ []) ∷ asks 0x29 (0xFF ∷ []) ∷ asks 0x29 (0xFF ∷ []) ∷ asks 0x29 (0xFF ∷ []) ∷ asks 0x29 (0xFF ∷ [])
        ∷ []) drive) ≡ (0, 0, First) }
{}

/// Any command but a search begins its looks on a first turn: the searches behind it may pass the index once more.
pub fn other_commands_begin_a_turn()
    ensures no_operation { arm (last_of (asks 0x29 (0xFF ∷ []) ∷ asks 0x29 (0xFF ∷ []) ∷ asks 0x29 (0xFF ∷ []) ∷ asks 0x03 [] ∷ []) drive) ≡ (0, 0, First) }
    ensures behind_it { seen (last_of (asks 0x29 (0xFF ∷ []) ∷ asks 0x29 (0xFF ∷ []) ∷ asks 0x29 (0xFF ∷ []) ∷ asks 0x03 [] ∷ asks 0x29 (0xFF ∷ [])
        ∷ asks 0x29 (0xFF ∷ []) ∷ []) drive) ≡ saw (Ends 0x0C false) 0x0000 (At (Of Key 1)) None }
{}

/// A command that is no search passes the index once, and at the second time no record is found: behind R0 the last track has
/// none.
pub fn read_that_finds_nothing()
    ensures count { seen (does (asks 0x12 []) (at_head 9)) ≡ saw FindsNone 0x0008 AtIndex None }
    ensures data { seen (does (asks 0x06 []) (at_head 9)) ≡ saw FindsNone 0x0008 AtIndex None }
    ensures key_and_data { seen (does (asks 0x0E []) (at_head 9)) ≡ saw FindsNone 0x0008 AtIndex None }
    ensures whole_record { seen (does (asks 0x1E []) (at_head 9)) ≡ saw FindsNone 0x0008 AtIndex None }
    ensures key { seen (does (asks 0x29 (0xFF ∷ [])) (at_head 9)) ≡ saw FindsNone 0x0008 AtIndex None }
{}

/// A read passes the index once: the record in front of the position is found on the second turn.
pub fn read_on_the_second_turn()
    ensures found { seen (does (asks 0x12 []) (behind (At (Of Count 3)) drive)) ≡ saw (Ends 0x0C false) 0x0000 (At (Of Count 1)) None }
    ensures turn { arm (does (asks 0x12 []) (behind (At (Of Count 3)) drive)) ≡ (0, 0, Second) }
    ensures after_a_search { seen (does (asks 0x12 []) (on_second_turn (behind (At (Of Count 3)) drive))) ≡ saw (Ends 0x0C false) 0x0000
        (At (Of Count 1)) None }
{}

/// With the multiple-track bit the next head follows at the index, for each search and each read that has the bit.
pub fn multiple_tracks()
    ensures search_home_address { seen (does (asks 0xB9 (0 ∷ 0 ∷ 0 ∷ 1 ∷ [])) (behind (At HomeAddress) drive)) ≡ saw (Ends 0x4C false) 0x0000 (At HomeAddress)
        (Some EqualHomeAddress) }
    ensures search_identifier { seen (does (asks 0xF1 (0 ∷ 0 ∷ 0 ∷ 1 ∷ 0 ∷ [])) (behind (At (Of Count 3)) drive)) ≡ saw (Ends 0x4C false) 0x0000
        (At (Of Count 0)) None }
    ensures search_key { seen (does (asks 0xA9 (0xE1 ∷ [])) (behind (At (Of Key 3)) drive)) ≡ saw (Ends 0x4C false) 0x0000 (At (Of Key 1)) (Some (EqualKey 1)) }
    ensures read_home_address { moved (does (asks 0x9A []) (behind (At HomeAddress) drive)) ≡ (0 ∷ 0 ∷ 0 ∷ 0 ∷ 1 ∷ [], 5) }
    ensures read_r0 { seen (does (asks 0x96 []) (behind (At (Of Count 0)) drive)) ≡ saw (Ends 0x0D false) 0x0000 (At (Of Data 0)) None }
    ensures read_count { moved (does (asks 0x92 []) (behind (At (Of Count 3)) drive)) ≡ (0 ∷ 0 ∷ 0 ∷ 1 ∷ 1 ∷ 1 ∷ 0 ∷ 0 ∷ [], 8) }
    ensures read_data { seen (does (asks 0x86 []) (behind (At (Of Data 3)) drive)) ≡ saw (Ends 0x0D false) 0x0000 (At (Of Data 1)) None }
    ensures read_key_and_data { moved (does (asks 0x8E []) (behind (At (Of Data 3)) drive)) ≡ (0xE1 ∷ [], 1) }
    ensures read_whole_record { moved (does (asks 0x9E []) (behind (At (Of Count 3)) drive)) ≡ (0 ∷ 0 ∷ 0 ∷ 1 ∷ 1 ∷ 1 ∷ 0 ∷ 0 ∷ 0xE1 ∷ [], 9) }
    ensures arm { arm (does (asks 0x92 []) (behind (At (Of Count 3)) drive)) ≡ (0, 1, First) }
{}

/// The next head begins its turns anew: behind it the index may pass once more.
pub fn head_change_begins_the_turns_anew()
    ensures next_head { arm (last_of (asks 0x29 (0xFF ∷ []) ∷ asks 0x29 (0xFF ∷ []) ∷ asks 0x29 (0xFF ∷ []) ∷ asks 0xA9 (0xFF ∷ []) ∷ asks 0xA9 (0xFF ∷ [])
        ∷ []) drive) ≡ (0, 1, First) }
    ensures key { seen (last_of (asks 0x29 (0xFF ∷ []) ∷ asks 0x29 (0xFF ∷ []) ∷ asks 0x29 (0xFF ∷ []) ∷ asks 0xA9 (0xFF ∷ []) ∷ asks 0xA9 (0xFF ∷ [])
        ∷ []) drive) ≡ saw (Ends 0x0C false) 0x0000 (At (Of Key 1)) None }
    ensures behind_it { seen (last_of (asks 0x29 (0xFF ∷ []) ∷ asks 0x29 (0xFF ∷ []) ∷ asks 0x29 (0xFF ∷ []) ∷ asks 0xA9 (0xFF ∷ []) ∷ asks 0xA9 (0xFF ∷ [])
        ∷ asks 0x29 (0xFF ∷ []) ∷ []) drive) ≡ saw (Ends 0x0C false) 0x0000 (At (Of Key 1)) None }
    ensures turn { arm (last_of (asks 0x29 (0xFF ∷ []) ∷ asks 0x29 (0xFF ∷ []) ∷ asks 0x29 (0xFF ∷ []) ∷ asks 0xA9 (0xFF ∷ []) ∷ asks 0xA9 (0xFF ∷ [])
        ∷ asks 0x29 (0xFF ∷ []) ∷ []) drive) ≡ (0, 1, Second) }
{}

/// An area that is still to pass on this track is found there, with the bit as without it.
pub fn multiple_track_bit_on_the_same_track()
    ensures found { moved (does (asks 0x92 []) drive) ≡ (0 ∷ 0 ∷ 0 ∷ 0 ∷ 1 ∷ 2 ∷ 0 ∷ 4 ∷ [], 8) }
    ensures arm { arm (does (asks 0x92 []) drive) ≡ (0, 0, First) }
{}

/// Behind the last head the cylinder ends.
pub fn end_of_cylinder()
    ensures told { seen (does (asks 0x92 []) (at_head 9)) ≡ saw FindsNone 0x0020 AtIndex None }
    ensures arm { arm (does (asks 0x92 []) (at_head 9)) ≡ (0, 9, First) }
{}

/// A file mask that allows no head change is reported before the cylinder's end, and the head stays. The other masks allow it.
pub fn head_change_not_allowed()
    ensures on_the_first_head { seen (does (asks 0x92 []) (masked_by 0x18 (behind (At (Of Count 3)) drive))) ≡ saw FindsNone 0x0004 AtIndex None }
    ensures arm { arm (does (asks 0x92 []) (masked_by 0x18 (behind (At (Of Count 3)) drive))) ≡ (0, 0, First) }
    ensures on_the_last_head { seen (does (asks 0x92 []) (masked_by 0x18 (at_head 9))) ≡ saw FindsNone 0x0004 AtIndex None }
    ensures masks_that_allow { arm (does (asks 0x92 []) (masked_by 0x10 (behind (At (Of Count 3)) drive))) ≡ (0, 1, First) }
{}

/// The next head's track can't be read: the command ends there, and the head stays where it came.
pub fn next_head_that_is_unreadable()
    ensures told { seen (does (asks 0x92 []) (behind (At (Of Count 1)) (at_head 1))) ≡ saw FindsNone 0x0802 AtIndex None }
    ensures arm { arm (does (asks 0x92 []) (behind (At (Of Count 1)) (at_head 1))) ≡ (0, 2, First) }
{}
