//! Where a channel command word may stand, and what it may say.
//! Principles of Operation, Input/Output Operations: 'Channel Command Word', 'Program Check', 'Transfer in Channel'.

ghost use Rattle.std.specs.Prelude.{◌≡◌, replicate, [], ◌∷◌};
ghost use Rattle.s360_words.specs.Storage.{cleared, stored};
ghost use Rattle.s360_laws.specs.Runs.{run};
ghost use Rattle.s360_laws.specs.Scripts.{units};
ghost use Rattle.s360_laws.specs.Starts.{first, BadStart, AcceptedStart};
ghost use Rattle.s360_worked.specs.ChannelPrograms.{ccw, program, start};
ghost use Rattle.s360_worked.specs.Seen.{sense_of, seen, saw, csw};
ghost use Rattle.s360_worked.specs.Small.{transfer_to_last_word, transfer_by_another_code, bad_flag_in_data, small_drive, start_at, transfer_to_414};
ghost use Rattle.s360_worked.specs.Small.{at_end_of_storage, second_without_count, transfer_in_data};

/// A word stands at a multiple of 8: program check where a transfer in channel leads to another address.
pub fn word_at_no_multiple_of_8()
    ensures { seen 0 0 (run (units 9) (start small_drive transfer_to_414)) ≡ saw 3 (csw 0x41C 0x0C 0x20 1) (sense_of 0x00 0x00) [] }
{}

/// And within storage: program check where the chain runs on behind its end.
pub fn word_behind_storage()
    ensures { seen 0 0 (run (units 9) (start_at 0xFF8 small_drive at_end_of_storage)) ≡ saw 2 (csw 0x1008 0x0C 0x20 1) (sense_of 0x00 0x00) [] }
{}

/// Each of the three flag bits that must be zero makes a bad start.
pub fn flag_bit_that_must_be_zero()
    ensures first { first (start small_drive (program (ccw 0x03 0 0x04 1))) ≡ BadStart }
    ensures second { first (start small_drive (program (ccw 0x03 0 0x02 1))) ≡ BadStart }
    ensures third { first (start small_drive (program (ccw 0x03 0 0x01 1))) ≡ BadStart }
{}

/// So do a code whose low four bits are zero, and a count of zero; a good word is accepted.
pub fn code_and_count()
    ensures code { first (start small_drive (program (ccw 0x10 0x600 0 1))) ≡ BadStart }
    ensures count { first (start small_drive (program (ccw 0x06 0x600 0 0))) ≡ BadStart }
    ensures good { first (start small_drive (program (ccw 0x06 0x600 0 4))) ≡ AcceptedStart }
{}

/// A count of zero in a word that is reached by command chaining.
pub fn chained_word_without_count()
    ensures { seen 0 0 (run (units 9) (start small_drive second_without_count)) ≡ saw 2 (csw 0x410 0x0C 0x20 1) (sense_of 0x00 0x00) [] }
{}

/// A transfer in channel within a chain of data leads to its next area.
pub fn transfer_in_channel_in_data()
    ensures { seen 0x700 2 (run (units 20) (start small_drive transfer_in_data)) ≡ saw 8 (csw 0x420 0x0C 0 0) (sense_of 0x00 0x00) (replicate 2 0xC1) }
{}

/// The channel address word: four bits of it must be zero, and a command address is a multiple of 8 within storage; the key may be any.
pub fn channel_address_word()
    ensures bits { first (start_at 0x0100_0400 small_drive (program (ccw 0x06 0x600 0 4))) ≡ BadStart }
    ensures address { first (start_at 0x404 small_drive (stored (cleared 4096) 0x404 (ccw 0x06 0x600 0 4))) ≡ BadStart }
    ensures storage { first (start_at 0x1000 small_drive (cleared 4096)) ≡ BadStart }
    ensures key { first (start_at 0xF000_0400 small_drive (program (ccw 0x06 0x600 0 4))) ≡ AcceptedStart }
{}

/// A transfer in channel to a word behind storage: program check. The command address in the channel status word is that of the last
/// word plus 8, and wraps where that is beyond 24 bits.
pub fn command_address_wraps()
    ensures { seen 0 0 (run (units 9) (start small_drive transfer_to_last_word)) ≡ saw 3 (csw 0 0x0C 0x20 1) (sense_of 0x00 0x00) [] }
{}

/// Any code whose low four bits are 1000 is a transfer in channel, and of its word only the address counts.
pub fn codes_of_transfer_in_channel()
    ensures { seen 0 0 (run (units 9) (start small_drive transfer_by_another_code)) ≡ saw 3 (csw 0x420 0x0C 0 1) (sense_of 0x00 0x00) [] }
{}

/// The sixth byte of a word is ignored.
pub fn byte_that_is_ignored()
    ensures { seen 0x600 4 (run (units 9) (start small_drive (program (0x06 ∷ 0 ∷ 0x06 ∷ 0 ∷ 0 ∷ 0xFF ∷ 0 ∷ 4 ∷ [])))) ≡ saw 6 (csw 0x408 0x0C 0 0)
        (sense_of 0x00 0x00) (replicate 4 0xC1) }
{}

/// A word that chains data must have its three flag bits zero too.
pub fn flag_bit_in_a_chain_of_data()
    ensures { seen 0x600 2 (run (units 9) (start small_drive bad_flag_in_data)) ≡ saw 4 (csw 0x410 0x0C 0x20 0) (sense_of 0x00 0x00) (replicate 2 0xC1) }
{}
