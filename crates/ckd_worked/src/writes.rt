//! Writes: what each needs before it, what it makes of the track, and what is left of one that is cut short.
//! Component descriptions of the 2841 and the 2314, 'Write Commands', the sections of the write commands, and 'Sense': invalid
//! sequence, track overrun. Which credit each write needs, and that zeros stand for what did not come, is this subsystem's own
//! rule.

ghost use Rattle.std.specs.Prelude.{◌≡◌, ◌∷◌, [], Some, None, Ok, true, false};
ghost use Rattle.ckd_position.specs.declared.areas.Area.TheVariants.{HomeAddress, Of};
ghost use Rattle.ckd_position.specs.declared.areas.RecordPart.TheVariants.{Count, Data};
ghost use Rattle.ckd_position.specs.declared.areas.Position.TheVariants.{At};
ghost use Rattle.ckd_command.specs.declared.registers.Credit.TheVariants.{EqualHomeAddress, EqualId, EqualKey, WroteHomeAddress, WroteRecord};
ghost use Rattle.ckd_command.specs.declared.registers.Lap.TheVariants.{Second};
ghost use Rattle.ckd_command.specs.declared.registers.Mark.TheVariants.{Saved, Written};
ghost use Rattle.ckd_worked.specs.Commands.{asks, does, last_of, seen, saw, arm, track, moved, begun_with, IsRejected, Ends};
ghost use Rattle.ckd_worked.specs.Volumes.{drive, at_head, record_of, track_of_head, usual_r0, first_record, track_0, track_0_with, behind, credited_with};
ghost use Rattle.ckd_worked.specs.Volumes.{masked_by};

/// Which writes begin behind nothing; a home address, an identifier or a key that was found equal; or a home address or a record
/// that was written.
pub fn credits_that_each_write_needs()
    ensures home_address { begun_with 0x19 (None ∷ Some EqualHomeAddress ∷ Some (EqualId 1) ∷ Some (EqualKey 1) ∷ Some WroteHomeAddress ∷ Some (WroteRecord 1)
        ∷ []) (masked_by 0xC0 drive) ≡ true ∷ true ∷ true ∷ true ∷ true ∷ true ∷ [] }
    ensures r0 { begun_with 0x15 (None ∷ Some EqualHomeAddress ∷ Some (EqualId 1) ∷ Some (EqualKey 1) ∷ Some WroteHomeAddress ∷ Some (WroteRecord 1) ∷ [])
        (masked_by 0xC0 drive) ≡ false ∷ true ∷ false ∷ false ∷ true ∷ false ∷ [] }
    ensures count_key_and_data { begun_with 0x1D (None ∷ Some EqualHomeAddress ∷ Some (EqualId 1) ∷ Some (EqualKey 1) ∷ Some WroteHomeAddress
        ∷ Some (WroteRecord 1) ∷ []) (masked_by 0xC0 drive) ≡ false ∷ false ∷ true ∷ true ∷ false ∷ true ∷ [] }
    ensures write_data { begun_with 0x05 (None ∷ Some EqualHomeAddress ∷ Some (EqualId 1) ∷ Some (EqualKey 1) ∷ Some WroteHomeAddress ∷ Some (WroteRecord 1)
        ∷ []) (masked_by 0xC0 drive) ≡ false ∷ false ∷ true ∷ true ∷ false ∷ false ∷ [] }
    ensures key_and_data { begun_with 0x0D (None ∷ Some EqualHomeAddress ∷ Some (EqualId 1) ∷ Some (EqualKey 1) ∷ Some WroteHomeAddress ∷ Some (WroteRecord 1)
        ∷ []) (masked_by 0xC0 drive) ≡ false ∷ false ∷ true ∷ false ∷ false ∷ false ∷ [] }
{}

/// A write without its credit is rejected, with command reject and invalid sequence: at once, or behind a search that was
/// satisfied but not by the whole area equal.
pub fn write_without_credit()
    ensures at_once { seen (does (asks 0x05 (0x11 ∷ [])) (behind (At (Of Count 1)) drive)) ≡ saw IsRejected 0x8010 (At (Of Count 1)) None }
    ensures behind_a_high_search { seen (last_of (asks 0x51 (0 ∷ 0 ∷ 0 ∷ 0 ∷ 0 ∷ []) ∷ asks 0x71 (0 ∷ 0 ∷ 0 ∷ 0 ∷ 0 ∷ []) ∷ asks 0x05 (0x11 ∷ []) ∷ []) drive)
        ≡ saw IsRejected 0x8010 (At (Of Count 1)) None }
    ensures behind_a_short_search { seen (last_of (asks 0x31 (0 ∷ 0 ∷ 0 ∷ []) ∷ asks 0x05 (0x11 ∷ []) ∷ []) drive) ≡ saw IsRejected 0x8010
        (At (Of Count 0)) None }
{}

/// Credit is for the very next command: any other takes it away, also one that is over at once.
pub fn credit_is_for_the_next_command()
    ensures no_operation { seen (last_of (asks 0x31 (0 ∷ 0 ∷ 0 ∷ 0 ∷ 0 ∷ []) ∷ asks 0x03 [] ∷ asks 0x05 (0x11 ∷ []) ∷ []) drive) ≡ saw IsRejected 0x8010
        (At (Of Count 0)) None }
    ensures sense { seen (last_of (asks 0x31 (0 ∷ 0 ∷ 0 ∷ 0 ∷ 0 ∷ []) ∷ asks 0x04 [] ∷ asks 0x05 (0x11 ∷ []) ∷ []) drive) ≡ saw IsRejected 0x8010
        (At (Of Count 0)) None }
    ensures set_file_mask { seen (last_of (asks 0x31 (0 ∷ 0 ∷ 0 ∷ 0 ∷ 0 ∷ []) ∷ asks 0x1F (0xC0 ∷ []) ∷ asks 0x05 (0x11 ∷ []) ∷ []) drive)
        ≡ saw IsRejected 0x8010 (At (Of Count 0)) None }
    ensures write_data { seen (last_of (asks 0x31 (0 ∷ 0 ∷ 0 ∷ 0 ∷ 0 ∷ []) ∷ asks 0x05 (0x11 ∷ []) ∷ asks 0x05 (0x11 ∷ []) ∷ []) drive) ≡ saw IsRejected 0x8010
        (At (Of Data 0)) None }
{}

/// Write Home Address takes flag 0 and the track's own address. It leaves no record, and credit for R0.
pub fn write_home_address()
    ensures seen { seen (does (asks 0x19 (0 ∷ 0 ∷ 0 ∷ 0 ∷ 0 ∷ [])) (masked_by 0xC0 drive)) ≡ saw (Ends 0x0C false) 0x0000 (At HomeAddress)
        (Some WroteHomeAddress) }
    ensures track { track (does (asks 0x19 (0 ∷ 0 ∷ 0 ∷ 0 ∷ 0 ∷ [])) (masked_by 0xC0 drive)) ≡ (Ok (track_of_head 0 ([])), Written) }
    ensures wanted { moved (does (asks 0x19 (0 ∷ 0 ∷ 0 ∷ 0 ∷ 0 ∷ [])) (masked_by 0xC0 drive)) ≡ ([], 5) }
{}

/// With another flag or another address it is a command reject, and the track is as it was.
pub fn wrong_home_address()
    ensures flag { seen (does (asks 0x19 (1 ∷ 0 ∷ 0 ∷ 0 ∷ 0 ∷ [])) (masked_by 0xC0 drive)) ≡ saw (Ends 0x0E false) 0x8000 (At HomeAddress) None }
    ensures cylinder { seen (does (asks 0x19 (0 ∷ 0 ∷ 1 ∷ 0 ∷ 0 ∷ [])) (masked_by 0xC0 drive)) ≡ saw (Ends 0x0E false) 0x8000 (At HomeAddress) None }
    ensures head { seen (does (asks 0x19 (0 ∷ 0 ∷ 0 ∷ 0 ∷ 1 ∷ [])) (masked_by 0xC0 drive)) ≡ saw (Ends 0x0E false) 0x8000 (At HomeAddress) None }
    ensures track { track (does (asks 0x19 (0 ∷ 0 ∷ 0 ∷ 0 ∷ 1 ∷ [])) (masked_by 0xC0 drive)) ≡ (Ok track_0, Saved) }
{}

/// Without a byte Write Home Address changes nothing but that the home address has passed; one to four bytes are a command
/// reject.
pub fn home_address_cut_short()
    ensures no_byte { seen (does (asks 0x19 []) (masked_by 0xC0 drive)) ≡ saw (Ends 0x0C false) 0x0000 (At HomeAddress) None }
    ensures track_without_a_byte { track (does (asks 0x19 []) (masked_by 0xC0 drive)) ≡ (Ok track_0, Saved) }
    ensures one_byte { seen (does (asks 0x19 (0 ∷ [])) (masked_by 0xC0 drive)) ≡ saw (Ends 0x0E false) 0x8000 (At HomeAddress) None }
    ensures four_bytes { seen (does (asks 0x19 (0 ∷ 0 ∷ 0 ∷ 0 ∷ [])) (masked_by 0xC0 drive)) ≡ saw (Ends 0x0E false) 0x8000 (At HomeAddress) None }
    ensures track { track (does (asks 0x19 (0 ∷ 0 ∷ 0 ∷ 0 ∷ [])) (masked_by 0xC0 drive)) ≡ (Ok track_0, Saved) }
{}

/// Write Home Address works on an unreadable track, which can be read behind it.
pub fn home_address_of_an_unreadable_track()
    ensures seen { seen (does (asks 0x19 (0 ∷ 0 ∷ 0 ∷ 0 ∷ 2 ∷ [])) (masked_by 0xC0 (at_head 2))) ≡ saw (Ends 0x0C false) 0x0000 (At HomeAddress)
        (Some WroteHomeAddress) }
    ensures track { track (does (asks 0x19 (0 ∷ 0 ∷ 0 ∷ 0 ∷ 2 ∷ [])) (masked_by 0xC0 (at_head 2))) ≡ (Ok (track_of_head 2 []), Written) }
{}

/// Write R0 leaves the new R0 alone on the track, behind a home address that was found equal or was written; the track is left
/// behind its data, with credit for R0.
pub fn write_r0()
    ensures behind_a_search { seen (last_of (asks 0x39 (0 ∷ 0 ∷ 0 ∷ 0 ∷ []) ∷ asks 0x15 (0 ∷ 0 ∷ 0 ∷ 0 ∷ 0 ∷ 0 ∷ 0 ∷ 2 ∷ 0x77 ∷ 0x88 ∷ []) ∷ [])
        (masked_by 0xC0 drive)) ≡ saw (Ends 0x0C false) 0x0000 (At (Of Data 0)) (Some (WroteRecord 0)) }
    ensures track { track (last_of (asks 0x39 (0 ∷ 0 ∷ 0 ∷ 0 ∷ []) ∷ asks 0x15 (0 ∷ 0 ∷ 0 ∷ 0 ∷ 0 ∷ 0 ∷ 0 ∷ 2 ∷ 0x77 ∷ 0x88 ∷ []) ∷ []) (masked_by 0xC0 drive))
        ≡ (Ok (track_of_head 0 (record_of 0 0 [] (0x77 ∷ 0x88 ∷ []) ∷ [])), Written) }
    ensures behind_a_write { seen (last_of (asks 0x19 (0 ∷ 0 ∷ 0 ∷ 0 ∷ 0 ∷ []) ∷ asks 0x15 (0 ∷ 0 ∷ 0 ∷ 0 ∷ 0 ∷ 0 ∷ 0 ∷ 2 ∷ 0x77 ∷ 0x88 ∷ []) ∷ [])
        (masked_by 0xC0 drive)) ≡ saw (Ends 0x0C false) 0x0000 (At (Of Data 0)) (Some (WroteRecord 0)) }
    ensures same_track { track (last_of (asks 0x19 (0 ∷ 0 ∷ 0 ∷ 0 ∷ 0 ∷ []) ∷ asks 0x15 (0 ∷ 0 ∷ 0 ∷ 0 ∷ 0 ∷ 0 ∷ 0 ∷ 2 ∷ 0x77 ∷ 0x88 ∷ []) ∷ [])
        (masked_by 0xC0 drive)) ≡ (Ok (track_of_head 0 (record_of 0 0 [] (0x77 ∷ 0x88 ∷ []) ∷ [])), Written) }
    ensures wanted { moved (last_of (asks 0x39 (0 ∷ 0 ∷ 0 ∷ 0 ∷ []) ∷ asks 0x15 (0 ∷ 0 ∷ 0 ∷ 0 ∷ 0 ∷ 0 ∷ 0 ∷ 2 ∷ 0x77 ∷ 0x88 ∷ []) ∷ []) (masked_by 0xC0 drive))
        ≡ ([], 10) }
{}

/// Write Count, Key and Data makes its record behind the one that the credit names and removes all behind it. The track is left
/// behind the new data, with credit for the new record.
pub fn write_count_key_and_data()
    ensures seen { seen (does (asks 0x1D (0 ∷ 0 ∷ 0 ∷ 0 ∷ 7 ∷ 1 ∷ 0 ∷ 2 ∷ 0x55 ∷ 0x66 ∷ 0x67 ∷ [])) (credited_with (EqualId 1) drive))
        ≡ saw (Ends 0x0C false) 0x0000 (At (Of Data 2)) (Some (WroteRecord 2)) }
    ensures track { track (does (asks 0x1D (0 ∷ 0 ∷ 0 ∷ 0 ∷ 7 ∷ 1 ∷ 0 ∷ 2 ∷ 0x55 ∷ 0x66 ∷ 0x67 ∷ [])) (credited_with (EqualId 1) drive))
        ≡ (Ok (track_of_head 0 (usual_r0 0 ∷ first_record ∷ record_of 0 7 (0x55 ∷ []) (0x66 ∷ 0x67 ∷ []) ∷ [])), Written) }
    ensures wanted { moved (does (asks 0x1D (0 ∷ 0 ∷ 0 ∷ 0 ∷ 7 ∷ 1 ∷ 0 ∷ 2 ∷ 0x55 ∷ 0x66 ∷ 0x67 ∷ [])) (credited_with (EqualId 1) drive)) ≡ ([], 11) }
    ensures behind_a_key { track (does (asks 0x1D (0 ∷ 0 ∷ 0 ∷ 0 ∷ 7 ∷ 1 ∷ 0 ∷ 2 ∷ 0x55 ∷ 0x66 ∷ 0x67 ∷ [])) (credited_with (EqualKey 1) drive))
        ≡ (Ok (track_of_head 0 (usual_r0 0 ∷ first_record ∷ record_of 0 7 (0x55 ∷ []) (0x66 ∷ 0x67 ∷ []) ∷ [])), Written) }
    ensures behind_a_write { track (does (asks 0x1D (0 ∷ 0 ∷ 0 ∷ 0 ∷ 7 ∷ 1 ∷ 0 ∷ 2 ∷ 0x55 ∷ 0x66 ∷ 0x67 ∷ [])) (credited_with (WroteRecord 1) drive))
        ≡ (Ok (track_of_head 0 (usual_r0 0 ∷ first_record ∷ record_of 0 7 (0x55 ∷ []) (0x66 ∷ 0x67 ∷ []) ∷ [])), Written) }
{}

/// A record that was just made gives leave for the next one.
pub fn records_made_one_after_another()
    ensures seen { seen (last_of (asks 0x31 (0 ∷ 0 ∷ 0 ∷ 0 ∷ 0 ∷ []) ∷ asks 0x1D (0 ∷ 0 ∷ 0 ∷ 0 ∷ 1 ∷ 0 ∷ 0 ∷ 1 ∷ 0x11 ∷ []) ∷ asks 0x1D (0 ∷ 0 ∷ 0 ∷ 0 ∷ 2 ∷ 0
        ∷ 0 ∷ 1 ∷ 0x22 ∷ []) ∷ []) drive) ≡ saw (Ends 0x0C false) 0x0000 (At (Of Data 2)) (Some (WroteRecord 2)) }
    ensures track { track (last_of (asks 0x31 (0 ∷ 0 ∷ 0 ∷ 0 ∷ 0 ∷ []) ∷ asks 0x1D (0 ∷ 0 ∷ 0 ∷ 0 ∷ 1 ∷ 0 ∷ 0 ∷ 1 ∷ 0x11 ∷ [])
        ∷ asks 0x1D (0 ∷ 0 ∷ 0 ∷ 0 ∷ 2 ∷ 0 ∷ 0 ∷ 1 ∷ 0x22 ∷ []) ∷ []) drive)
        ≡ (Ok (track_of_head 0 (usual_r0 0 ∷ record_of 0 1 [] (0x11 ∷ []) ∷ record_of 0 2 [] (0x22 ∷ []) ∷ [])), Written) }
    ensures end_of_the_records { seen (last_of (asks 0x31 (0 ∷ 0 ∷ 0 ∷ 0 ∷ 0 ∷ []) ∷ asks 0x1D (0 ∷ 0 ∷ 0 ∷ 0 ∷ 1 ∷ 0 ∷ 0 ∷ 1 ∷ 0x11 ∷ []) ∷ asks 0x12 []
        ∷ []) drive) ≡ saw (Ends 0x0C false) 0x0000 (At (Of Count 1)) None }
    ensures turn { arm (last_of (asks 0x31 (0 ∷ 0 ∷ 0 ∷ 0 ∷ 0 ∷ []) ∷ asks 0x1D (0 ∷ 0 ∷ 0 ∷ 0 ∷ 1 ∷ 0 ∷ 0 ∷ 1 ∷ 0x11 ∷ []) ∷ asks 0x12 [] ∷ []) drive)
        ≡ (0, 0, Second) }
{}

/// Once the eight count bytes came the record is made, with zeros for what did not come of its key and data.
pub fn new_record_cut_short()
    ensures no_key { track (does (asks 0x1D (0 ∷ 0 ∷ 0 ∷ 0 ∷ 7 ∷ 1 ∷ 0 ∷ 2 ∷ [])) (credited_with (EqualId 1) drive))
        ≡ (Ok (track_of_head 0 (usual_r0 0 ∷ first_record ∷ record_of 0 7 (0 ∷ []) (0 ∷ 0 ∷ []) ∷ [])), Written) }
    ensures no_data { track (does (asks 0x1D (0 ∷ 0 ∷ 0 ∷ 0 ∷ 7 ∷ 1 ∷ 0 ∷ 2 ∷ 0x55 ∷ [])) (credited_with (EqualId 1) drive))
        ≡ (Ok (track_of_head 0 (usual_r0 0 ∷ first_record ∷ record_of 0 7 (0x55 ∷ []) (0 ∷ 0 ∷ []) ∷ [])), Written) }
    ensures some_data { track (does (asks 0x1D (0 ∷ 0 ∷ 0 ∷ 0 ∷ 7 ∷ 1 ∷ 0 ∷ 2 ∷ 0x55 ∷ 0x66 ∷ [])) (credited_with (EqualId 1) drive))
        ≡ (Ok (track_of_head 0 (usual_r0 0 ∷ first_record ∷ record_of 0 7 (0x55 ∷ []) (0x66 ∷ 0 ∷ []) ∷ [])), Written) }
    ensures status { seen (does (asks 0x1D (0 ∷ 0 ∷ 0 ∷ 0 ∷ 7 ∷ 1 ∷ 0 ∷ 2 ∷ [])) (credited_with (EqualId 1) drive)) ≡ saw (Ends 0x0C false) 0x0000
        (At (Of Data 2)) (Some (WroteRecord 2)) }
{}

/// Without a byte a formatting write changes nothing and is no error; one to seven count bytes are a command reject. The track is
/// left where it was.
pub fn count_cut_short()
    ensures no_byte { seen (does (asks 0x1D []) (behind (At (Of Count 1)) (credited_with (EqualId 1) drive))) ≡ saw (Ends 0x0C false) 0x0000
        (At (Of Count 1)) None }
    ensures no_byte_of_r0 { seen (does (asks 0x15 []) (behind (At HomeAddress) (credited_with EqualHomeAddress (masked_by 0xC0 drive))))
        ≡ saw (Ends 0x0C false) 0x0000 (At HomeAddress) None }
    ensures one_byte { seen (does (asks 0x1D (0 ∷ [])) (behind (At (Of Count 1)) (credited_with (EqualId 1) drive))) ≡ saw (Ends 0x0E false) 0x8000
        (At (Of Count 1)) None }
    ensures seven_bytes { seen (does (asks 0x1D (0 ∷ 0 ∷ 0 ∷ 0 ∷ 7 ∷ 1 ∷ 0 ∷ [])) (behind (At (Of Count 1)) (credited_with (EqualId 1) drive)))
        ≡ saw (Ends 0x0E false) 0x8000 (At (Of Count 1)) None }
    ensures seven_bytes_of_r0 { seen (does (asks 0x15 (0 ∷ 0 ∷ 0 ∷ 0 ∷ 0 ∷ 0 ∷ 0 ∷ []))
        (behind (At HomeAddress) (credited_with EqualHomeAddress (masked_by 0xC0 drive)))) ≡ saw (Ends 0x0E false) 0x8000 (At HomeAddress) None }
    ensures track { track (does (asks 0x1D (0 ∷ 0 ∷ 0 ∷ 0 ∷ 7 ∷ 1 ∷ 0 ∷ [])) (behind (At (Of Count 1)) (credited_with (EqualId 1) drive)))
        ≡ (Ok track_0, Saved) }
    ensures wanted { moved (does (asks 0x1D (0 ∷ [])) (behind (At (Of Count 1)) (credited_with (EqualId 1) drive))) ≡ ([], 8) }
{}

/// A record that does not fit: eight bytes are wanted and no more, the track and its place are as they were, and track overrun is
/// reported; nothing may be written behind it.
pub fn record_that_does_not_fit()
    ensures seen { seen (does (asks 0x1D (0 ∷ 0 ∷ 0 ∷ 0 ∷ 7 ∷ 0 ∷ 0x0F ∷ 0 ∷ [])) (behind (At (Of Count 1)) (credited_with (EqualId 1) drive)))
        ≡ saw (Ends 0x0E false) 0x0040 (At (Of Count 1)) None }
    ensures track { track (does (asks 0x1D (0 ∷ 0 ∷ 0 ∷ 0 ∷ 7 ∷ 0 ∷ 0x0F ∷ 0 ∷ [])) (behind (At (Of Count 1)) (credited_with (EqualId 1) drive)))
        ≡ (Ok track_0, Saved) }
    ensures wanted { moved (does (asks 0x1D (0 ∷ 0 ∷ 0 ∷ 0 ∷ 7 ∷ 0 ∷ 0x0F ∷ 0 ∷ [])) (behind (At (Of Count 1)) (credited_with (EqualId 1) drive))) ≡ ([], 8) }
    ensures r0 { seen (does (asks 0x15 (0 ∷ 0 ∷ 0 ∷ 0 ∷ 0 ∷ 0 ∷ 0x0F ∷ 0 ∷ []))
        (behind (At HomeAddress) (credited_with EqualHomeAddress (masked_by 0xC0 drive)))) ≡ saw (Ends 0x0E false) 0x0040 (At HomeAddress) None }
    ensures track_of_r0 { track (does (asks 0x15 (0 ∷ 0 ∷ 0 ∷ 0 ∷ 0 ∷ 0 ∷ 0x0F ∷ 0 ∷ []))
        (behind (At HomeAddress) (credited_with EqualHomeAddress (masked_by 0xC0 drive)))) ≡ (Ok track_0, Saved) }
{}

/// A new record without data is no unit exception.
pub fn new_record_without_data()
    ensures { seen (does (asks 0x1D (0 ∷ 0 ∷ 0 ∷ 0 ∷ 7 ∷ 0 ∷ 0 ∷ 0 ∷ [])) (credited_with (EqualId 1) drive)) ≡ saw (Ends 0x0C false) 0x0000 (At (Of Data 2))
        (Some (WroteRecord 2)) }
{}

/// Write Data replaces the data of the record that was found, by identifier or by key, and nothing else. It leaves no credit.
pub fn write_data()
    ensures seen { seen (does (asks 0x05 (0x11 ∷ 0x22 ∷ 0x33 ∷ 0x44 ∷ [])) (credited_with (EqualId 1) drive)) ≡ saw (Ends 0x0C false) 0x0000
        (At (Of Data 1)) None }
    ensures track { track (does (asks 0x05 (0x11 ∷ 0x22 ∷ 0x33 ∷ 0x44 ∷ [])) (credited_with (EqualId 1) drive))
        ≡ (Ok (track_0_with (record_of 0 1 (0xA1 ∷ 0xA5 ∷ []) (0x11 ∷ 0x22 ∷ 0x33 ∷ 0x44 ∷ []))), Written) }
    ensures wanted { moved (does (asks 0x05 (0x11 ∷ 0x22 ∷ 0x33 ∷ 0x44 ∷ [])) (credited_with (EqualId 1) drive)) ≡ ([], 4) }
    ensures by_key { track (does (asks 0x05 (0x11 ∷ 0x22 ∷ 0x33 ∷ 0x44 ∷ [])) (credited_with (EqualKey 1) drive))
        ≡ (Ok (track_0_with (record_of 0 1 (0xA1 ∷ 0xA5 ∷ []) (0x11 ∷ 0x22 ∷ 0x33 ∷ 0x44 ∷ []))), Written) }
{}

/// Write Key and Data replaces key and data of the record whose identifier was found.
pub fn write_key_and_data()
    ensures seen { seen (does (asks 0x0D (0x51 ∷ 0x52 ∷ 0x11 ∷ 0x22 ∷ 0x33 ∷ 0x44 ∷ [])) (credited_with (EqualId 1) drive)) ≡ saw (Ends 0x0C false) 0x0000
        (At (Of Data 1)) None }
    ensures track { track (does (asks 0x0D (0x51 ∷ 0x52 ∷ 0x11 ∷ 0x22 ∷ 0x33 ∷ 0x44 ∷ [])) (credited_with (EqualId 1) drive))
        ≡ (Ok (track_0_with (record_of 0 1 (0x51 ∷ 0x52 ∷ []) (0x11 ∷ 0x22 ∷ 0x33 ∷ 0x44 ∷ []))), Written) }
    ensures wanted { moved (does (asks 0x0D (0x51 ∷ 0x52 ∷ 0x11 ∷ 0x22 ∷ 0x33 ∷ 0x44 ∷ [])) (credited_with (EqualId 1) drive)) ≡ ([], 6) }
{}

/// What did not come of an update is zeros. Without a byte nothing changes, but that the data has passed.
pub fn update_cut_short()
    ensures write_data { track (does (asks 0x05 (0x11 ∷ 0x22 ∷ [])) (credited_with (EqualId 1) drive))
        ≡ (Ok (track_0_with (record_of 0 1 (0xA1 ∷ 0xA5 ∷ []) (0x11 ∷ 0x22 ∷ 0 ∷ 0 ∷ []))), Written) }
    ensures key_and_data { track (does (asks 0x0D (0x51 ∷ [])) (credited_with (EqualId 1) drive))
        ≡ (Ok (track_0_with (record_of 0 1 (0x51 ∷ 0 ∷ []) (0 ∷ 0 ∷ 0 ∷ 0 ∷ []))), Written) }
    ensures key_and_some_data { track (does (asks 0x0D (0x51 ∷ 0x52 ∷ 0x11 ∷ [])) (credited_with (EqualId 1) drive))
        ≡ (Ok (track_0_with (record_of 0 1 (0x51 ∷ 0x52 ∷ []) (0x11 ∷ 0 ∷ 0 ∷ 0 ∷ []))), Written) }
    ensures status { seen (does (asks 0x0D (0x51 ∷ [])) (credited_with (EqualId 1) drive)) ≡ saw (Ends 0x0C false) 0x0000 (At (Of Data 1)) None }
    ensures no_byte { track (does (asks 0x05 []) (credited_with (EqualId 1) drive)) ≡ (Ok track_0, Saved) }
    ensures status_without_a_byte { seen (does (asks 0x05 []) (credited_with (EqualId 1) drive)) ≡ saw (Ends 0x0C false) 0x0000 (At (Of Data 1)) None }
{}

/// An update of a record without data is reported by unit exception; nothing is written where it has no key either.
pub fn update_of_a_record_without_data()
    ensures write_data { seen (does (asks 0x05 []) (credited_with (EqualId 2) drive)) ≡ saw (Ends 0x0D false) 0x0000 (At (Of Data 2)) None }
    ensures track { track (does (asks 0x05 []) (credited_with (EqualId 2) drive)) ≡ (Ok track_0, Saved) }
    ensures key_and_data { seen (does (asks 0x0D (0x51 ∷ [])) (credited_with (EqualId 1) (at_head 1))) ≡ saw (Ends 0x0D false) 0x0000 (At (Of Data 1)) None }
    ensures key { track (does (asks 0x0D (0x51 ∷ [])) (credited_with (EqualId 1) (at_head 1)))
        ≡ (Ok (track_of_head 1 (record_of 1 0 (0xE0 ∷ []) [] ∷ record_of 1 1 (0x51 ∷ []) [] ∷ [])), Written) }
{}
