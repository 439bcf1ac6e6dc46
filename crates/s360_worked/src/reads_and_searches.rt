//! Reads and searches: where they end, and what their lengths come to.
//! Component descriptions of the 2841 and the 2314, the sections of the search and read commands; Principles of Operation,
//! Input/Output Operations: 'Incorrect Length', 'Program Check', 'Protection Check'.

ghost use Rattle.std.specs.Prelude.{◌≡◌, replicate, [], ◌∷◌};
ghost use Rattle.s360_laws.specs.Runs.{run};
ghost use Rattle.s360_laws.specs.Scripts.{units};
ghost use Rattle.s360_worked.specs.ChannelPrograms.{start, start_with_key_1, search_and_read, read, read_at_end, read_without_data, search_key_from_head_8};
ghost use Rattle.s360_worked.specs.ChannelPrograms.{seek_cylinder_2};
ghost use Rattle.s360_worked.specs.Seen.{sense_of, seen, saw, csw, csw_with_key};
ghost use Rattle.s360_worked.specs.Volumes.{new_drive, written_drive};

/// A seek, a search that finds the second record at its second look, and a read of its data: the status modifier of the
/// search passes over the transfer in channel.
pub fn search_then_read()
    ensures { seen 0x600 80 (run (units 200) (start written_drive (search_and_read 2))) ≡ saw 113 (csw 0x420 0x0C 0 0) (sense_of 0x00 0x00)
        (replicate 80 0xC2) }
{}

/// The same search for a record that is not there. The turns of the track are counted over all the searches of its loop,
/// so the second pass of the index ends it: no record found.
pub fn no_record_found()
    ensures { seen 0 0 (run (units 200) (start written_drive (search_and_read 9))) ≡ saw 75 (csw 0x410 0x0E 0 5) (sense_of 0x00 0x08) [] }
{}

/// A count of 100 for a record of 80 bytes. With the flag that suppresses it, incorrect length is not reported.
pub fn incorrect_length()
    ensures told { seen 0x600 80 (run (units 200) (start written_drive (read 0x600 0x00 100))) ≡ saw 82 (csw 0x408 0x0C 0x40 20) (sense_of 0x00 0x00)
        (replicate 80 0xC1) }
    ensures suppressed { seen 0x600 80 (run (units 200) (start written_drive (read 0x600 0x20 100))) ≡ saw 82 (csw 0x408 0x0C 0 20) (sense_of 0x00 0x00)
        (replicate 80 0xC1) }
{}

/// A read of a record without data: unit exception stops the chain.
pub fn record_without_data()
    ensures suppressed { seen 0 0 (run (units 50) (start written_drive (read_without_data 0x60))) ≡ saw 10 (csw 0x410 0x0D 0 1) (sense_of 0x00 0x00) [] }
    ensures told { seen 0 0 (run (units 50) (start written_drive (read_without_data 0x40))) ≡ saw 10 (csw 0x410 0x0D 0x40 1) (sense_of 0x00 0x00) [] }
{}

/// A search for a key with the multi-track bit goes on at head 9, and behind it the cylinder ends.
pub fn end_of_cylinder()
    ensures { seen 0 0 (run (units 50) (start new_drive search_key_from_head_8)) ≡ saw 11 (csw 0x410 0x0E 0 4) (sense_of 0x00 0x20) [] }
{}

/// A seek to a cylinder that the volume does not have: command reject and seek check, and the chain stops.
pub fn seek_outside_volume()
    ensures { seen 0 0 (run (units 50) (start written_drive seek_cylinder_2)) ≡ saw 8 (csw 0x408 0x0E 0 0) (sense_of 0x81 0x00) [] }
{}

/// A read into the last four bytes of storage and on: program check where storage ends.
pub fn read_past_storage()
    ensures { seen 0xFFFC 4 (run (units 50) (start written_drive read_at_end)) ≡ saw 6 (csw 0x408 0x0C 0x20 0x4C) (sense_of 0x00 0x00) (replicate 4 0xC1) }
{}

/// A read with key 1 into a block with key 0: protection check, and nothing is stored.
pub fn read_into_protected_block()
    ensures { seen 0x600 1 (run (units 50) (start_with_key_1 written_drive (read 0x600 0x00 80))) ≡ saw 2 (csw_with_key 1 0x408 0x0C 0x10 80)
        (sense_of 0x00 0x00) (0 ∷ []) }
{}
