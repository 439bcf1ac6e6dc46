//! The file mask, the codes of the commands, and the sense bytes.
//! Component descriptions of the 2841 and the 2314, 'Set File Mask', 'Channel Command Codes', 'Sense'. That Recalibrate and Read
//! Initial Program Loading ask the mask, and which sense bits go together, is this subsystem's own rule.

ghost use Rattle.std.specs.Prelude.{◌≡◌, ◌∷◌, [], None, false, replicate};
ghost use Rattle.ckd_position.specs.declared.areas.Area.TheVariants.{Of};
ghost use Rattle.ckd_position.specs.declared.areas.RecordPart.TheVariants.{Count, Data};
ghost use Rattle.ckd_position.specs.declared.areas.Position.TheVariants.{AtIndex, At};
ghost use Rattle.ckd_sense.specs.Masks.{mask_of_byte};
ghost use Rattle.ckd_command.specs.declared.registers.Credit.TheVariants.{EqualId};
ghost use Rattle.ckd_command.specs.declared.registers.Lap.TheVariants.{First};
ghost use Rattle.ckd_worked.specs.Commands.{asks, does, last_of, seen, saw, arm, moved, mask, senses_of, command_codes, next_program, IsRejected, IsOver};
ghost use Rattle.ckd_worked.specs.Commands.{FindsNone, Ends};
ghost use Rattle.ckd_worked.specs.Volumes.{drive, at_track, behind, credited_with, masked_by};

/// Write Home Address, Write R0, Write Count, Key and Data, Write Data, Write Key and Data under each mask. What the mask does
/// not allow is reported as file protected before a sequence is looked at.
pub fn writes_under_each_mask()
    ensures no_home_address_and_r0 { senses_of (0x19 ∷ 0x15 ∷ 0x1D ∷ 0x05 ∷ 0x0D ∷ []) (masked_by 0x00 drive) ≡ 0x8004 ∷ 0x8004 ∷ 0x8010 ∷ 0x8010 ∷ 0x8010
        ∷ [] }
    ensures none { senses_of (0x19 ∷ 0x15 ∷ 0x1D ∷ 0x05 ∷ 0x0D ∷ []) (masked_by 0x40 drive) ≡ replicate 5 0x8004 }
    ensures no_formatting { senses_of (0x19 ∷ 0x15 ∷ 0x1D ∷ 0x05 ∷ 0x0D ∷ []) (masked_by 0x80 drive) ≡ 0x8004 ∷ 0x8004 ∷ 0x8004 ∷ 0x8010 ∷ 0x8010 ∷ [] }
    ensures every { senses_of (0x19 ∷ 0x15 ∷ 0x1D ∷ 0x05 ∷ 0x0D ∷ []) (masked_by 0xC0 drive) ≡ 0x0000 ∷ 0x8010 ∷ 0x8010 ∷ 0x8010 ∷ 0x8010 ∷ [] }
{}

/// Seek, Seek Cylinder, Seek Head, Recalibrate and Read Initial Program Loading under each mask.
pub fn seeks_under_each_mask()
    ensures every { senses_of (0x07 ∷ 0x0B ∷ 0x1B ∷ 0x13 ∷ 0x02 ∷ []) (masked_by 0x00 drive) ≡ replicate 5 0x0000 }
    ensures cylinder_and_head { senses_of (0x07 ∷ 0x0B ∷ 0x1B ∷ 0x13 ∷ 0x02 ∷ []) (masked_by 0x08 drive) ≡ 0x0004 ∷ 0x0000 ∷ 0x0000 ∷ 0x0004 ∷ 0x0004 ∷ [] }
    ensures head_alone { senses_of (0x07 ∷ 0x0B ∷ 0x1B ∷ 0x13 ∷ 0x02 ∷ []) (masked_by 0x10 drive) ≡ 0x0004 ∷ 0x0004 ∷ 0x0000 ∷ 0x0004 ∷ 0x0004 ∷ [] }
    ensures none { senses_of (0x07 ∷ 0x0B ∷ 0x1B ∷ 0x13 ∷ 0x02 ∷ []) (masked_by 0x18 drive) ≡ replicate 5 0x0004 }
{}

/// A read with the multiple-track bit behind the last record under each mask: only the one that allows no seek at all stops it.
pub fn head_changes_under_each_mask()
    ensures every { arm (does (asks 0x92 []) (masked_by 0x00 (behind (At (Of Count 3)) drive))) ≡ (0, 1, First) }
    ensures cylinder_and_head { arm (does (asks 0x92 []) (masked_by 0x08 (behind (At (Of Count 3)) drive))) ≡ (0, 1, First) }
    ensures head_alone { arm (does (asks 0x92 []) (masked_by 0x10 (behind (At (Of Count 3)) drive))) ≡ (0, 1, First) }
    ensures none { seen (does (asks 0x92 []) (masked_by 0x18 (behind (At (Of Count 3)) drive))) ≡ saw FindsNone 0x0004 AtIndex None }
{}

/// What the mask refuses is not begun: arm and track stay.
pub fn refused_by_the_mask()
    ensures seek { seen (does (asks 0x07 (0 ∷ 0 ∷ 0 ∷ 0 ∷ 0 ∷ 1 ∷ [])) (masked_by 0x18 (behind (At (Of Data 1)) drive))) ≡ saw IsRejected 0x0004
        (At (Of Data 1)) None }
    ensures arm { arm (does (asks 0x13 []) (masked_by 0x08 (at_track 1 3))) ≡ (1, 3, First) }
    ensures initial_program_loading { arm (does (asks 0x02 []) (masked_by 0x10 (at_track 1 3))) ≡ (1, 3, First) }
    ensures write { seen (does (asks 0x05 (0x11 ∷ [])) (masked_by 0x40 (credited_with (EqualId 1) drive))) ≡ saw IsRejected 0x8004 AtIndex None }
{}

/// Set File Mask keeps four of the byte's bits, which make two fields; it leaves the track where it is.
pub fn set_file_mask()
    ensures seen { seen (does (asks 0x1F (0xD8 ∷ [])) (behind (At (Of Data 1)) drive)) ≡ saw (Ends 0x0C false) 0x0000 (At (Of Data 1)) None }
    ensures mask { mask (does (asks 0x1F (0xD8 ∷ [])) (behind (At (Of Data 1)) drive)) ≡ mask_of_byte 0xD8 }
    ensures other_bits { mask (does (asks 0x1F (0x27 ∷ [])) (behind (At (Of Data 1)) drive)) ≡ mask_of_byte 0x00 }
    ensures all_bits { mask (does (asks 0x1F (0xFF ∷ [])) (behind (At (Of Data 1)) drive)) ≡ mask_of_byte 0xD8 }
    ensures wanted { moved (does (asks 0x1F (0xD8 ∷ [])) (behind (At (Of Data 1)) drive)) ≡ ([], 1) }
{}

/// Without its byte it sets no mask, and is no error; the mask may then still be set.
pub fn file_mask_without_its_byte()
    ensures seen { seen (does (asks 0x1F []) (behind (At (Of Data 1)) drive)) ≡ saw (Ends 0x0C false) 0x0000 (At (Of Data 1)) None }
    ensures mask { mask (does (asks 0x1F []) (masked_by 0x40 drive)) ≡ mask_of_byte 0x40 }
    ensures then_set { mask (last_of (asks 0x1F [] ∷ asks 0x1F (0xC0 ∷ []) ∷ []) drive) ≡ mask_of_byte 0xC0 }
{}

/// A second mask in a program is command reject and invalid sequence, also the same mask, and the first one stays.
pub fn second_set_file_mask()
    ensures seen { seen (last_of (asks 0x1F (0xC0 ∷ []) ∷ asks 0x1F (0xC0 ∷ []) ∷ []) drive) ≡ saw IsRejected 0x8010 AtIndex None }
    ensures mask { mask (last_of (asks 0x1F (0xC0 ∷ []) ∷ asks 0x1F (0 ∷ []) ∷ []) drive) ≡ mask_of_byte 0xC0 }
{}

/// The codes that are commands; the multiple-track bit makes another code of thirteen of them.
pub fn codes_of_commands()
    ensures { command_codes ≡ 2 ∷ 3 ∷ 4 ∷ 5 ∷ 6 ∷ 7 ∷ 0x0B ∷ 0x0D ∷ 0x0E ∷ 0x12 ∷ 0x13 ∷ 0x15 ∷ 0x16 ∷ 0x19 ∷ 0x1A ∷ 0x1B ∷ 0x1D ∷ 0x1E ∷ 0x1F ∷ 0x29 ∷ 0x31
        ∷ 0x39 ∷ 0x49 ∷ 0x51 ∷ 0x69 ∷ 0x71 ∷ 0x86 ∷ 0x8E ∷ 0x92 ∷ 0x96 ∷ 0x9A ∷ 0x9E ∷ 0xA9 ∷ 0xB1 ∷ 0xB9 ∷ 0xC9 ∷ 0xD1 ∷ 0xE9 ∷ 0xF1 ∷ [] }
{}

/// Any other code is a command reject, under any mask: Write Special Count, Key and Data, Space Record, Erase, Restore, Read
/// Backward, and a write with the multiple-track bit among them.
pub fn invalid_commands()
    ensures senses { senses_of (0x01 ∷ 0x0F ∷ 0x11 ∷ 0x17 ∷ 0x0C ∷ 0x85 ∷ 0x87 ∷ []) (masked_by 0x58 drive) ≡ replicate 7 0x8000 }
    ensures seen { seen (does (asks 0x0F []) (behind (At (Of Data 1)) drive)) ≡ saw IsRejected 0x8000 (At (Of Data 1)) None }
{}

/// Sense gives the six bytes of the command before, and leaves them and the track as they are.
pub fn sense()
    ensures bytes { moved (last_of (asks 0x05 [] ∷ asks 0x04 [] ∷ []) drive) ≡ (0x80 ∷ 0x10 ∷ 0 ∷ 0 ∷ 0 ∷ 0 ∷ [], 6) }
    ensures seen { seen (last_of (asks 0x05 [] ∷ asks 0x04 [] ∷ []) (behind (At (Of Data 1)) drive)) ≡ saw (Ends 0x0C false) 0x8010 (At (Of Data 1)) None }
    ensures again { moved (last_of (asks 0x05 [] ∷ asks 0x04 [] ∷ asks 0x04 [] ∷ []) drive) ≡ (0x80 ∷ 0x10 ∷ 0 ∷ 0 ∷ 0 ∷ 0 ∷ [], 6) }
{}

/// A new program begins at the index with file mask 00, which may be set again, and without a credit. The arm, the head and the
/// sense stay between programs.
pub fn next_program()
    ensures mask { seen (does (asks 0x1F (0xC0 ∷ [])) (next_program (last_of (asks 0x1F (0 ∷ []) ∷ asks 0x31 (0 ∷ 0 ∷ 0 ∷ 0 ∷ 0 ∷ []) ∷ []) drive)))
        ≡ saw (Ends 0x0C false) 0x0000 AtIndex None }
    ensures write_home_address { seen (does (asks 0x19 (0 ∷ 0 ∷ 0 ∷ 0 ∷ 0 ∷ [])) (next_program (last_of (asks 0x1F (0xC0 ∷ []) ∷ asks 0x03 [] ∷ []) drive)))
        ≡ saw IsRejected 0x8004 AtIndex None }
    ensures credit { seen (does (asks 0x05 (0x11 ∷ [])) (next_program (last_of (asks 0x31 (0 ∷ 0 ∷ 0 ∷ 0 ∷ 0 ∷ []) ∷ []) drive)))
        ≡ saw IsRejected 0x8010 AtIndex None }
    ensures turn { arm (does (asks 0x31 (0 ∷ 0 ∷ 0 ∷ 0 ∷ 0 ∷ [])) (next_program (last_of (asks 0x29 (0xFF ∷ []) ∷ asks 0x29 (0xFF ∷ []) ∷ asks 0x29 (0xFF ∷ [])
        ∷ []) drive))) ≡ (0, 0, First) }
    ensures arm { arm (does (asks 0x03 []) (next_program (last_of (asks 0x07 (0 ∷ 0 ∷ 0 ∷ 1 ∷ 0 ∷ 3 ∷ []) ∷ []) drive))) ≡ (1, 3, First) }
    ensures sense { moved (does (asks 0x04 []) (next_program (last_of (asks 0x05 [] ∷ []) drive))) ≡ (0x80 ∷ 0x10 ∷ 0 ∷ 0 ∷ 0 ∷ 0 ∷ [], 6) }
{}

/// Every other command makes the sense zero as it begins, No-Operation too; a rejected one then reports its own cause.
pub fn sense_becomes_zero()
    ensures no_operation { seen (last_of (asks 0x05 [] ∷ asks 0x03 [] ∷ []) drive) ≡ saw (IsOver false) 0x0000 AtIndex None }
    ensures then_sense { moved (last_of (asks 0x05 [] ∷ asks 0x03 [] ∷ asks 0x04 [] ∷ []) drive) ≡ (0 ∷ 0 ∷ 0 ∷ 0 ∷ 0 ∷ 0 ∷ [], 6) }
    ensures search { seen (last_of (asks 0x05 [] ∷ asks 0x31 [] ∷ []) drive) ≡ saw (Ends 0x0C false) 0x0000 (At (Of Count 0)) None }
    ensures another_cause { seen (last_of (asks 0x05 [] ∷ asks 0x0F [] ∷ []) drive) ≡ saw IsRejected 0x8000 AtIndex None }
{}
