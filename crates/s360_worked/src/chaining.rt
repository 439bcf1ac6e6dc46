//! Chaining of commands and of data.
//! Principles of Operation, Input/Output Operations: 'Chaining', 'Data Chaining', 'Transfer in Channel', 'Skipping'.

ghost use Rattle.std.specs.Prelude.{◌≡◌, replicate, [], ◌∷◌, ◌++◌, None};
ghost use Rattle.s360_laws.specs.Events.{StatusStored, Stepped, Interrupted};
ghost use Rattle.s360_laws.specs.Machine.{answers};
ghost use Rattle.s360_laws.specs.Runs.{run};
ghost use Rattle.s360_laws.specs.Scripts.{units};
ghost use Rattle.s360_worked.specs.ChannelPrograms.{start, transfer_first, transfer_to_transfer, read_next_word, read_into_two};
ghost use Rattle.s360_worked.specs.Channels.{channel, whole_program};
ghost use Rattle.s360_worked.specs.Seen.{sense_of, seen, saw, csw};
ghost use Rattle.s360_worked.specs.Volumes.{new_drive, written_drive};

/// A transfer in channel may not be a program's first word: Start I/O stores program check, and nothing starts.
pub fn transfer_in_channel_first()
    ensures { answers whole_program (channel transfer_first new_drive) ≡ StatusStored (record { 0 = 0 }) (record { 0 = 0x20 }) ∷ Stepped 0 ∷ Interrupted None
        ∷ [] }
{}

/// Nor may a transfer in channel lead to another: program check at the second one.
pub fn transfer_in_channel_to_another()
    ensures { seen 0 0 (run (units 50) (start new_drive transfer_to_transfer)) ≡ saw 3 (csw 0x418 0x0C 0x20 1) (sense_of 0x00 0x00) [] }
{}

/// A read brings in the word that is fetched behind it: by command chaining a Sense, which is then done.
pub fn next_word_read_in()
    ensures { seen 0x600 6 (run (units 50) (start written_drive (read_next_word 2 0x40))) ≡ saw 26 (csw 0x418 0x0C 0 0) (sense_of 0x00 0x00) (replicate 6 0) }
{}

/// The same by data chaining: the word is fetched as its area is needed, and not before, so the rest of the record goes
/// where the word says that was read in.
pub fn next_area_read_in()
    ensures { seen 0x600 8 (run (units 50) (start written_drive (read_next_word 3 0x80))) ≡ saw 27 (csw 0x418 0x0C 0 0) (sense_of 0x00 0x00)
        (replicate 8 0xE1) }
{}

/// A record of 80 bytes is read into two areas of 40.
pub fn data_chaining_over_two_areas()
    ensures first { seen 0x600 40 (run (units 99) (start written_drive (read_into_two 0x80 40 0x00 40))) ≡ saw 83 (csw 0x410 0x0C 0 0) (sense_of 0x00 0x00)
        (replicate 40 0xC1) }
    ensures second { seen 0x700 40 (run (units 99) (start written_drive (read_into_two 0x80 40 0x00 40))) ≡ saw 83 (csw 0x410 0x0C 0 0) (sense_of 0x00 0x00)
        (replicate 40 0xC1) }
{}

/// Areas of 40 and 41: incorrect length, unless the last word suppresses it.
pub fn second_area_too_long()
    ensures told { seen 0x700 41 (run (units 99) (start written_drive (read_into_two 0x80 40 0x00 41))) ≡ saw 83 (csw 0x410 0x0C 0x40 1) (sense_of 0x00 0x00)
        (replicate 40 0xC1 ++ 0 ∷ []) }
    ensures suppressed { seen 0 0 (run (units 99) (start written_drive (read_into_two 0x80 40 0x20 41))) ≡ saw 83 (csw 0x410 0x0C 0 1) (sense_of 0x00 0x00) [] }
{}

/// The first area takes the whole record: the second word is fetched all the same, and its count stays.
pub fn data_chaining_behind_the_record()
    ensures { seen 0 0 (run (units 99) (start written_drive (read_into_two 0x80 80 0x00 1))) ≡ saw 83 (csw 0x410 0x0C 0x40 1) (sense_of 0x00 0x00) [] }
{}

/// The second word has count zero: program check as it is fetched, which is where the first area is full.
pub fn data_chained_word_without_count()
    ensures { seen 0x600 40 (run (units 99) (start written_drive (read_into_two 0x80 40 0x00 0))) ≡ saw 42 (csw 0x410 0x0C 0x20 0) (sense_of 0x00 0x00)
        (replicate 40 0xC1) }
{}

/// The first area is skipped: nothing is stored there.
pub fn first_area_skipped()
    ensures first { seen 0x600 40 (run (units 99) (start written_drive (read_into_two 0x90 40 0x00 40))) ≡ saw 83 (csw 0x410 0x0C 0 0) (sense_of 0x00 0x00)
        (replicate 40 0) }
    ensures second { seen 0x700 40 (run (units 99) (start written_drive (read_into_two 0x90 40 0x00 40))) ≡ saw 83 (csw 0x410 0x0C 0 0) (sense_of 0x00 0x00)
        (replicate 40 0xC1) }
{}
