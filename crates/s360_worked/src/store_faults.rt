//! Loads and saves of a track that fail in the image's store.
//! Component descriptions of the 2841 and the 2314, 'Sense': equipment check, with unit check in the channel status word. A
//! save that fails leaves some of its bytes in the track's slot.

ghost use Rattle.std.specs.Prelude.{◌≡◌, replicate, [], ◌∷◌, ◌++◌, Some, None, true, Ok};
ghost use Rattle.s360_laws.specs.Events.{Hio, Reset, WithCode, Stepped, Interrupted, WasReset, WasKept};
ghost use Rattle.s360_laws.specs.Machine.{answers, after_all};
ghost use Rattle.s360_laws.specs.declared.condition.ConditionCode.TheVariants.{Zero, Two};
ghost use Rattle.s360_worked.specs.ChannelPrograms.{read, update_record_1, update_and_seek};
ghost use Rattle.s360_worked.specs.Channels.{channel, glance_after, glance_after_programs, glanced, first_load_fails, cut_fails, write_home_address_after};
ghost use Rattle.s360_worked.specs.Channels.{save_before_seek_fails};
ghost use Rattle.s360_worked.specs.Seen.{sense_of, csw};
ghost use Rattle.s360_worked.specs.Volumes.{written_drive, first_track};

/// The load of the track fails as a read looks for its record: no byte has passed, and no track is changed.
pub fn first_load_failed()
    ensures told { answers first_load_fails (channel (read 0x600 0x00 100) written_drive) ≡ WithCode Zero ∷ Stepped 1
        ∷ Interrupted (Some (0x190, csw 0x408 0x0E 0 100)) ∷ [] }
    ensures state { glance_after first_load_fails (channel (read 0x600 0x00 100) written_drive) ≡ glanced (0 ∷ 0 ∷ 0x04 ∷ 0x08 ∷ 0x0E ∷ 0 ∷ 0 ∷ 100 ∷ [])
        ((0, 0, sense_of 0x10 0x00, Ok (first_track (replicate 80 0xC1))) ∷ []) }
    ensures serial { glance_after_programs first_load_fails (channel (read 0x600 0x00 100) written_drive) ≡ glanced (0 ∷ 0 ∷ 0x04 ∷ 0x08 ∷ 0x0E ∷ 0 ∷ 0 ∷ 100
        ∷ []) ((0, 0, sense_of 0x10 0x00, Ok (first_track (replicate 80 0xC1))) ∷ []) }
{}

/// A reset cuts an update, and the save of its track fails: the reset says which track was not saved. The sense bytes are
/// zero, as after every reset.
pub fn reset_with_a_failed_save()
    ensures told { answers (cut_fails Reset) (channel update_record_1 written_drive) ≡ WithCode Zero ∷ Stepped 45 ∷ WasReset (Some (0x190, 0, 0))
        ∷ Interrupted None ∷ [] }
    ensures state { glance_after (cut_fails Reset) (channel update_record_1 written_drive) ≡ glanced (replicate 8 0)
        ((0, 0, sense_of 0x00 0x00, Ok (first_track (replicate 30 0xD7 ++ 0x00 ∷ replicate 49 0xC1))) ∷ []) }
    ensures serial { glance_after_programs (cut_fails Reset) (channel update_record_1 written_drive) ≡ glanced (replicate 8 0)
        ((0, 0, sense_of 0x00 0x00, Ok (first_track (replicate 30 0xD7 ++ 0x00 ∷ replicate 49 0xC1))) ∷ []) }
{}

/// Halt I/O cuts an update, and the save of its track fails: unit check and equipment check. A later program finds the
/// track and writes its home address.
pub fn halt_with_a_failed_save()
    ensures told { answers (cut_fails (Hio 0x190)) (channel update_record_1 written_drive) ≡ WithCode Zero ∷ Stepped 45 ∷ WithCode Two
        ∷ Interrupted (Some (0x190, csw 0x418 0x0E 0 0x32)) ∷ [] }
    ensures state { glance_after (cut_fails (Hio 0x190)) (channel update_record_1 written_drive) ≡ glanced (0 ∷ 0 ∷ 0x04 ∷ 0x18 ∷ 0x0E ∷ 0 ∷ 0 ∷ 0x32 ∷ [])
        ((0, 0, sense_of 0x10 0x00, Ok (first_track (replicate 30 0xD7 ++ 0x00 ∷ replicate 49 0xC1))) ∷ []) }
    ensures then_told { answers write_home_address_after (after_all (cut_fails (Hio 0x190)) (channel update_record_1 written_drive)) ≡ WasKept true
        ∷ WasKept true ∷ WithCode Zero ∷ Stepped 9 ∷ Interrupted (Some (0x190, csw 0x410 0x0C 0 0)) ∷ [] }
    ensures then_state { glance_after write_home_address_after (after_all (cut_fails (Hio 0x190)) (channel update_record_1 written_drive))
        ≡ glanced (0 ∷ 0 ∷ 0x04 ∷ 0x10 ∷ 0x0C ∷ 0 ∷ 0 ∷ 0 ∷ []) ((0, 0, sense_of 0x00 0x00, Ok (record { home_address = replicate 5 0; records = [] })) ∷ []) }
{}

/// An update, and a seek to head 1. The save that comes before the head is changed fails: the seek ends with unit check and
/// equipment check, and the head stays.
pub fn seek_with_a_failed_save()
    ensures told { answers save_before_seek_fails (channel update_and_seek written_drive) ≡ WithCode Zero ∷ Stepped 104
        ∷ Interrupted (Some (0x190, csw 0x420 0x0E 0 0)) ∷ WithCode Zero ∷ [] }
    ensures state { glance_after save_before_seek_fails (channel update_and_seek written_drive) ≡ glanced (0 ∷ 0 ∷ 0x04 ∷ 0x20 ∷ 0x0E ∷ 0 ∷ 0 ∷ 0 ∷ [])
        ((0, 0, sense_of 0x10 0x00, Ok (first_track (replicate 31 0xD7 ++ replicate 49 0xC1))) ∷ []) }
    ensures serial { glance_after_programs save_before_seek_fails (channel update_and_seek written_drive) ≡ glanced (0 ∷ 0 ∷ 0x04 ∷ 0x20 ∷ 0x0E ∷ 0 ∷ 0 ∷ 0
        ∷ []) ((0, 0, sense_of 0x10 0x00, Ok (first_track (replicate 31 0xD7 ++ replicate 49 0xC1))) ∷ []) }
{}
