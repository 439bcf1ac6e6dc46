//! How the bytes of a command pass: writes, skipping, counts that are too short, interruptions that are asked for.
//! Principles of Operation, Input/Output Operations: 'Skipping', 'Program Check', 'Incorrect Length', 'Chaining',
//! 'Program-Controlled Interruption'.

ghost use Rattle.std.specs.Prelude.{◌≡◌, replicate, [], ◌∷◌, ◌++◌, Some, Ok};
ghost use Rattle.s360_laws.specs.Events.{Hio, WithCode, Stepped, Interrupted};
ghost use Rattle.s360_laws.specs.Machine.{answers};
ghost use Rattle.s360_laws.specs.declared.condition.ConditionCode.TheVariants.{Zero, Two};
ghost use Rattle.s360_words.specs.Storage.{with_key};
ghost use Rattle.s360_laws.specs.Runs.{run};
ghost use Rattle.s360_laws.specs.Scripts.{units};
ghost use Rattle.s360_worked.specs.ChannelPrograms.{ccw, program, start, start_with_key_1};
ghost use Rattle.s360_worked.specs.Channels.{channel, steps_and};
ghost use Rattle.s360_worked.specs.Seen.{sense_of, seen, saw, csw, csw_with_key};
ghost use Rattle.s360_worked.specs.Small.{read_over_two_blocks, seek_with, small_drive, small_track, track_behind, write_small, write_past_storage};
ghost use Rattle.s360_worked.specs.Small.{write_from_other_block, short_read, interruption_before_fetch, interruption_in_data, seek_to};

/// A transfer in channel between a search and its write leaves the write its leave; and skipping has no effect on a write.
pub fn write_behind_transfer_in_channel()
    ensures ended { seen 0 0 (run (units 30) (start small_drive (write_small 0x10))) ≡ saw 22 (csw 0x420 0x0C 0 0) (sense_of 0x00 0x00) [] }
    ensures track { track_behind (run (units 30) (start small_drive (write_small 0x10))) ≡ Some (Ok (small_track (replicate 4 0xD7))) }
{}

/// A write from a block with another key than the channel's: keys guard only what is stored.
pub fn write_from_protected_block()
    ensures { seen 0 0 (run (units 30) (start_with_key_1 small_drive (write_from_other_block))) ≡ saw 22 (csw_with_key 1 0x420 0x0C 0 0)
        (sense_of 0x00 0x00) [] }
{}

/// A write whose third byte lies behind storage: program check, and the command is closed by the two bytes that came, with zeros
/// behind them.
pub fn write_from_behind_storage()
    ensures ended { seen 0 0 (run (units 30) (start small_drive write_past_storage)) ≡ saw 20 (csw 0x420 0x0C 0x20 2) (sense_of 0x00 0x00) [] }
    ensures track { track_behind (run (units 30) (start small_drive write_past_storage)) ≡ Some (Ok (small_track (0xD7 ∷ 0xD7 ∷ 0 ∷ 0 ∷ []))) }
{}

/// Skipping lifts the checks of storage's end and of keys from a read, and nothing is stored; and so on Sense.
pub fn skipped_bytes()
    ensures end_of_storage { seen 0xFFE 2 (run (units 9) (start small_drive (program (ccw 0x06 0xFFE 0x10 4)))) ≡ saw 6 (csw 0x408 0x0C 0 0)
        (sense_of 0x00 0x00) (replicate 2 0) }
    ensures key { seen 0x600 4 (run (units 9) (start_with_key_1 small_drive (program (ccw 0x06 0x600 0x10 4)))) ≡ saw 6 (csw_with_key 1 0x408 0x0C 0 0)
        (sense_of 0x00 0x00) (replicate 4 0) }
    ensures of_sense { seen 0 0 (run (units 9) (start small_drive (program (ccw 0x04 0xFFE 0x10 6)))) ≡ saw 8 (csw 0x408 0x0C 0 0) (sense_of 0x00 0x00) [] }
{}

/// A count of two for a record of four bytes: incorrect length, which stops the chain; unless it is suppressed.
pub fn count_too_short()
    ensures told { seen 0x600 3 (run (units 9) (start small_drive (short_read 0x40))) ≡ saw 4 (csw 0x408 0x0C 0x40 0) (sense_of 0x00 0x00) (0xC1 ∷ 0xC1 ∷ 0
        ∷ []) }
    ensures suppressed { seen 0 0 (run (units 9) (start small_drive (short_read 0x60))) ≡ saw 5 (csw 0x410 0x0C 0 1) (sense_of 0x00 0x00) [] }
{}

/// An interruption that was asked for and not taken is reported with the ending, also where a further word was fetched, by command
/// chaining or by data chaining, and where Halt I/O ends the program.
pub fn interruption_that_waits()
    ensures chained { seen 0 0 (run (units 9) (start small_drive interruption_before_fetch)) ≡ saw 2 (csw 0x410 0x0C 0x80 1) (sense_of 0x00 0x00) [] }
    ensures in_data { seen 0 0 (run (units 9) (start small_drive interruption_in_data)) ≡ saw 7 (csw 0x410 0x0C 0x80 0) (sense_of 0x00 0x00) [] }
    ensures halted { answers (steps_and 1 (Hio 0x190)) (channel (program (ccw 0x06 0x600 0x08 4)) small_drive) ≡ WithCode Zero ∷ Stepped 1 ∷ WithCode Two
        ∷ Interrupted (Some (0x190, csw 0x408 0x0C 0x80 3)) ∷ [] }
{}

/// The high bytes of a seek address count: cylinder 256, bin 1 and head 256 are not there.
pub fn high_bytes_of_a_seek_address()
    ensures cylinder { seen 0 0 (run (units 9) (start small_drive (seek_to (0 ∷ 0 ∷ 1 ∷ 0 ∷ 0 ∷ 1 ∷ [])))) ≡ saw 8 (csw 0x408 0x0E 0 0)
        (sense_of 0x81 0x00) [] }
    ensures bin { seen 0 0 (run (units 9) (start small_drive (seek_to (1 ∷ 0 ∷ 0 ∷ 0 ∷ 0 ∷ 1 ∷ [])))) ≡ saw 8 (csw 0x408 0x0E 0 0) (sense_of 0x81 0x00) [] }
    ensures head { seen 0 0 (run (units 9) (start small_drive (seek_to (0 ∷ 0 ∷ 0 ∷ 0 ∷ 1 ∷ 1 ∷ [])))) ≡ saw 8 (csw 0x408 0x0E 0 0) (sense_of 0x81 0x00) [] }
{}

/// Key 0 of the channel stores into every block. Another key is looked at byte by byte: where the next block has another key,
/// protection check, and the bytes before stay.
pub fn keys_of_two_blocks()
    ensures key_zero { seen 0x600 4 (run (units 9) (start small_drive (with_key (program (ccw 0x06 0x600 0 4)) 0x600 2))) ≡ saw 6 (csw 0x408 0x0C 0 0)
        (sense_of 0x00 0x00) (replicate 4 0xC1) }
    ensures next_block { seen 0x7FE 3 (run (units 9) (start_with_key_1 small_drive read_over_two_blocks)) ≡ saw 4 (csw_with_key 1 0x408 0x0C 0x10 2)
        (sense_of 0x00 0x00) (0xC1 ∷ 0xC1 ∷ 0 ∷ []) }
{}

/// Skipping has no effect on a seek.
pub fn seek_that_skips()
    ensures { seen 0 0 (run (units 9) (start small_drive (seek_with 0x10 6 0))) ≡ saw 8 (csw 0x408 0x08 0 0) (sense_of 0x00 0x00) [] }
{}
