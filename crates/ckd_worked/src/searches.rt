//! Searches: the area that each looks for, what satisfies it, and the credit that it leaves.
//! Component descriptions of the 2841 and the 2314, 'Search Commands' and the sections of the search commands.

ghost use Rattle.std.specs.Prelude.{◌≡◌, ◌∷◌, [], Some, None, false};
ghost use Rattle.ckd_position.specs.declared.areas.Area.TheVariants.{HomeAddress, Of};
ghost use Rattle.ckd_position.specs.declared.areas.RecordPart.TheVariants.{Count, Key, Data};
ghost use Rattle.ckd_position.specs.declared.areas.Position.TheVariants.{At};
ghost use Rattle.ckd_command.specs.declared.registers.Credit.TheVariants.{EqualHomeAddress, EqualId, EqualKey};
ghost use Rattle.ckd_command.specs.declared.registers.Lap.TheVariants.{Second};
ghost use Rattle.ckd_worked.specs.Commands.{asks, does, seen, saw, arm, moved, Ends};
ghost use Rattle.ckd_worked.specs.Volumes.{drive, at_head, behind};

/// Search Home Address Equal compares the cylinder and the head: it is satisfied by the track's own, and leaves credit for the
/// home address.
pub fn search_home_address_equal()
    ensures satisfied { seen (does (asks 0x39 (0 ∷ 0 ∷ 0 ∷ 0 ∷ [])) drive) ≡ saw (Ends 0x4C false) 0x0000 (At HomeAddress) (Some EqualHomeAddress) }
    ensures other { seen (does (asks 0x39 (0 ∷ 0 ∷ 0 ∷ 1 ∷ [])) drive) ≡ saw (Ends 0x0C false) 0x0000 (At HomeAddress) None }
    ensures with_bit { seen (does (asks 0xB9 (0 ∷ 0 ∷ 0 ∷ 0 ∷ [])) drive) ≡ saw (Ends 0x4C false) 0x0000 (At HomeAddress) (Some EqualHomeAddress) }
{}

/// The home address passes right behind the index and at no other place: from within the track the index passes first.
pub fn home_address_comes_at_the_index()
    ensures { arm (does (asks 0x39 (0 ∷ 0 ∷ 0 ∷ 0 ∷ [])) (behind (At (Of Count 0)) drive)) ≡ (0, 0, Second) }
{}

/// Search Identifier Equal looks for the next count area, that of R0 too. Satisfied by all five bytes it leaves credit for that
/// record.
pub fn search_identifier_equal()
    ensures of_r0 { seen (does (asks 0x31 (0 ∷ 0 ∷ 0 ∷ 0 ∷ 0 ∷ [])) drive) ≡ saw (Ends 0x4C false) 0x0000 (At (Of Count 0)) (Some (EqualId 0)) }
    ensures of_the_next { seen (does (asks 0x31 (0 ∷ 0 ∷ 0 ∷ 0 ∷ 1 ∷ [])) (behind (At (Of Count 0)) drive)) ≡ saw (Ends 0x4C false) 0x0000 (At (Of Count 1))
        (Some (EqualId 1)) }
    ensures other { seen (does (asks 0x31 (0 ∷ 0 ∷ 0 ∷ 0 ∷ 1 ∷ [])) drive) ≡ saw (Ends 0x0C false) 0x0000 (At (Of Count 0)) None }
    ensures with_bit { seen (does (asks 0xB1 (0 ∷ 0 ∷ 0 ∷ 0 ∷ 0 ∷ [])) drive) ≡ saw (Ends 0x4C false) 0x0000 (At (Of Count 0)) (Some (EqualId 0)) }
{}

/// Search Identifier High is satisfied where the track's identifier is greater, and not where it is the same. It leaves no
/// credit.
pub fn search_identifier_high()
    ensures greater { seen (does (asks 0x51 (0 ∷ 0 ∷ 0 ∷ 0 ∷ 0 ∷ [])) (behind (At (Of Count 0)) drive)) ≡ saw (Ends 0x4C false) 0x0000 (At (Of Count 1)) None }
    ensures same { seen (does (asks 0x51 (0 ∷ 0 ∷ 0 ∷ 0 ∷ 1 ∷ [])) (behind (At (Of Count 0)) drive)) ≡ saw (Ends 0x0C false) 0x0000 (At (Of Count 1)) None }
    ensures less { seen (does (asks 0x51 (0 ∷ 0 ∷ 0 ∷ 0 ∷ 2 ∷ [])) (behind (At (Of Count 0)) drive)) ≡ saw (Ends 0x0C false) 0x0000 (At (Of Count 1)) None }
{}

/// Search Identifier Equal or High is satisfied by a greater identifier and by the same one. It leaves no credit, also where it
/// found the same.
pub fn search_identifier_equal_or_high()
    ensures greater { seen (does (asks 0x71 (0 ∷ 0 ∷ 0 ∷ 0 ∷ 0 ∷ [])) (behind (At (Of Count 0)) drive)) ≡ saw (Ends 0x4C false) 0x0000 (At (Of Count 1)) None }
    ensures same { seen (does (asks 0x71 (0 ∷ 0 ∷ 0 ∷ 0 ∷ 1 ∷ [])) (behind (At (Of Count 0)) drive)) ≡ saw (Ends 0x4C false) 0x0000 (At (Of Count 1)) None }
    ensures less { seen (does (asks 0x71 (0 ∷ 0 ∷ 0 ∷ 0 ∷ 2 ∷ [])) (behind (At (Of Count 0)) drive)) ≡ saw (Ends 0x0C false) 0x0000 (At (Of Count 1)) None }
{}

/// Search Key Equal behind a count area compares the key of that record. Satisfied by the whole key it leaves credit for the
/// record.
pub fn search_key_equal()
    ensures satisfied { seen (does (asks 0x29 (0xA1 ∷ 0xA5 ∷ [])) (behind (At (Of Count 1)) drive)) ≡ saw (Ends 0x4C false) 0x0000 (At (Of Key 1))
        (Some (EqualKey 1)) }
    ensures other { seen (does (asks 0x29 (0xA1 ∷ 0xA6 ∷ [])) (behind (At (Of Count 1)) drive)) ≡ saw (Ends 0x0C false) 0x0000 (At (Of Key 1)) None }
    ensures with_bit { seen (does (asks 0xA9 (0xA1 ∷ 0xA5 ∷ [])) (behind (At (Of Count 1)) drive)) ≡ saw (Ends 0x4C false) 0x0000 (At (Of Key 1))
        (Some (EqualKey 1)) }
{}

/// Search Key High is satisfied by a greater key alone.
pub fn search_key_high()
    ensures greater { seen (does (asks 0x49 (0xA1 ∷ 0xA4 ∷ [])) (behind (At (Of Count 1)) drive)) ≡ saw (Ends 0x4C false) 0x0000 (At (Of Key 1)) None }
    ensures same { seen (does (asks 0x49 (0xA1 ∷ 0xA5 ∷ [])) (behind (At (Of Count 1)) drive)) ≡ saw (Ends 0x0C false) 0x0000 (At (Of Key 1)) None }
    ensures less { seen (does (asks 0x49 (0xA1 ∷ 0xA6 ∷ [])) (behind (At (Of Count 1)) drive)) ≡ saw (Ends 0x0C false) 0x0000 (At (Of Key 1)) None }
{}

/// Search Key Equal or High is satisfied by a greater key and by the same one, and leaves no credit.
pub fn search_key_equal_or_high()
    ensures greater { seen (does (asks 0x69 (0xA1 ∷ 0xA4 ∷ [])) (behind (At (Of Count 1)) drive)) ≡ saw (Ends 0x4C false) 0x0000 (At (Of Key 1)) None }
    ensures same { seen (does (asks 0x69 (0xA1 ∷ 0xA5 ∷ [])) (behind (At (Of Count 1)) drive)) ≡ saw (Ends 0x4C false) 0x0000 (At (Of Key 1)) None }
    ensures less { seen (does (asks 0x69 (0xA1 ∷ 0xA6 ∷ [])) (behind (At (Of Count 1)) drive)) ≡ saw (Ends 0x0C false) 0x0000 (At (Of Key 1)) None }
{}

/// Bytes are compared from the left and without a sign: the first that differs decides.
pub fn comparison_from_the_left()
    ensures first_is_greater { seen (does (asks 0x49 (0xA0 ∷ 0xFF ∷ [])) (behind (At (Of Count 1)) drive)) ≡ saw (Ends 0x4C false) 0x0000 (At (Of Key 1)) None }
    ensures first_is_less { seen (does (asks 0x49 (0xA2 ∷ 0 ∷ [])) (behind (At (Of Count 1)) drive)) ≡ saw (Ends 0x0C false) 0x0000 (At (Of Key 1)) None }
    ensures no_sign { seen (does (asks 0x49 (1 ∷ 0xA5 ∷ [])) (behind (At (Of Count 1)) drive)) ≡ saw (Ends 0x4C false) 0x0000 (At (Of Key 1)) None }
{}

/// From the index, from a data area, and from the count area of a record without a key, the key is that of the next record behind
/// R0 that has one.
pub fn next_key()
    ensures from_the_index { seen (does (asks 0x29 (0xE1 ∷ [])) (at_head 1)) ≡ saw (Ends 0x4C false) 0x0000 (At (Of Key 1)) (Some (EqualKey 1)) }
    ensures from_data { seen (does (asks 0x29 (0xB1 ∷ 0xB5 ∷ [])) (behind (At (Of Data 1)) drive)) ≡ saw (Ends 0x4C false) 0x0000 (At (Of Key 3))
        (Some (EqualKey 3)) }
    ensures from_a_key { seen (does (asks 0x29 (0xB1 ∷ 0xB5 ∷ [])) (behind (At (Of Key 1)) drive)) ≡ saw (Ends 0x4C false) 0x0000 (At (Of Key 3))
        (Some (EqualKey 3)) }
    ensures from_a_count_without_key { seen (does (asks 0x29 (0xB1 ∷ 0xB5 ∷ [])) (behind (At (Of Count 2)) drive)) ≡ saw (Ends 0x4C false) 0x0000
        (At (Of Key 3)) (Some (EqualKey 3)) }
{}

/// The key of R0 is reached from its count area alone.
pub fn key_of_r0()
    ensures { seen (does (asks 0x29 (0xE0 ∷ [])) (behind (At (Of Count 0)) (at_head 1))) ≡ saw (Ends 0x4C false) 0x0000 (At (Of Key 0)) (Some (EqualKey 0)) }
{}

/// A search for which fewer bytes come compares these: it may be satisfied, and then leaves no credit.
pub fn search_with_fewer_bytes()
    ensures home_address { seen (does (asks 0x39 (0 ∷ 0 ∷ [])) drive) ≡ saw (Ends 0x4C false) 0x0000 (At HomeAddress) None }
    ensures identifier { seen (does (asks 0x31 (0 ∷ 0 ∷ 0 ∷ [])) drive) ≡ saw (Ends 0x4C false) 0x0000 (At (Of Count 0)) None }
    ensures key { seen (does (asks 0x29 (0xA1 ∷ [])) (behind (At (Of Count 1)) drive)) ≡ saw (Ends 0x4C false) 0x0000 (At (Of Key 1)) None }
    ensures other { seen (does (asks 0x29 (0xA2 ∷ [])) (behind (At (Of Count 1)) drive)) ≡ saw (Ends 0x0C false) 0x0000 (At (Of Key 1)) None }
{}

/// A search for which no byte comes is not satisfied, whatever it compares. The area that it found has passed.
pub fn search_without_bytes()
    ensures equal { seen (does (asks 0x31 []) drive) ≡ saw (Ends 0x0C false) 0x0000 (At (Of Count 0)) None }
    ensures high { seen (does (asks 0x51 []) drive) ≡ saw (Ends 0x0C false) 0x0000 (At (Of Count 0)) None }
    ensures equal_or_high { seen (does (asks 0x71 []) drive) ≡ saw (Ends 0x0C false) 0x0000 (At (Of Count 0)) None }
    ensures key { seen (does (asks 0x69 []) (behind (At (Of Count 1)) drive)) ≡ saw (Ends 0x0C false) 0x0000 (At (Of Key 1)) None }
{}

/// A search wants four bytes of the home address, five of an identifier, or as many as the key has.
pub fn length_of_a_search()
    ensures home_address { moved (does (asks 0x39 []) drive) ≡ ([], 4) }
    ensures identifier { moved (does (asks 0x31 []) drive) ≡ ([], 5) }
    ensures key { moved (does (asks 0x29 []) drive) ≡ ([], 2) }
{}
