//! Writes: what they need before them, and what is left of one that is cut.
//! Component descriptions of the 2841 and the 2314, the sections of Set File Mask and of the write commands; Principles of
//! Operation, Input/Output Operations: 'Halt I/O'.

ghost use Rattle.std.specs.Prelude.{◌≡◌, replicate, [], ◌∷◌, ◌++◌, Some, None, Ok};
ghost use Rattle.s360_laws.specs.Events.{Hio, Reset, WithCode, StatusStored, Stepped, Interrupted, WasReset};
ghost use Rattle.s360_laws.specs.Machine.{answers};
ghost use Rattle.s360_laws.specs.declared.condition.ConditionCode.TheVariants.{Zero, Two};
ghost use Rattle.s360_laws.specs.Runs.{run};
ghost use Rattle.s360_laws.specs.Scripts.{units};
ghost use Rattle.s360_worked.specs.ChannelPrograms.{start, format_record_1, update_record_1, write_at_once, write_under_mask};
ghost use Rattle.s360_worked.specs.Channels.{channel, glance_after, glance_after_programs, glanced, steps_and, whole_program};
ghost use Rattle.s360_worked.specs.Seen.{sense_of, seen, saw, csw};
ghost use Rattle.s360_worked.specs.Volumes.{written_drive, first_track, track_with, record_of};

/// Write Data as a program's first command: Start I/O stores unit check, and the sense bytes report command reject and invalid
/// sequence.
pub fn write_out_of_sequence()
    ensures told { answers whole_program (channel write_at_once written_drive) ≡ StatusStored (record { 0 = 0x02 }) (record { 0 = 0 }) ∷ Stepped 0
        ∷ Interrupted None ∷ [] }
    ensures sense { glance_after whole_program (channel write_at_once written_drive) ≡ glanced (0 ∷ 0 ∷ 0 ∷ 0 ∷ 0x02 ∷ 0 ∷ 0 ∷ 0 ∷ [])
        ((0, 0, sense_of 0x80 0x10, Ok (first_track (replicate 80 0xC1))) ∷ []) }
{}

/// Write Data under a file mask that inhibits it: command reject and file protected.
pub fn write_inhibited()
    ensures { seen 0 0 (run (units 50) (start written_drive write_under_mask)) ≡ saw 4 (csw 0x410 0x0E 0 80) (sense_of 0x80 0x04) [] }
{}

/// Write Count, Key and Data that Halt I/O cuts within its count area: command reject, and the track is as it was.
pub fn format_cut_in_count_area()
    ensures told { answers (steps_and 12 (Hio 0x190)) (channel format_record_1 written_drive) ≡ WithCode Zero ∷ Stepped 12 ∷ WithCode Two
        ∷ Interrupted (Some (0x190, csw 0x418 0x0E 0 0x17)) ∷ [] }
    ensures track { glance_after (steps_and 12 (Hio 0x190)) (channel format_record_1 written_drive) ≡ glanced (0 ∷ 0 ∷ 0x04 ∷ 0x18 ∷ 0x0E ∷ 0 ∷ 0 ∷ 0x17 ∷ [])
        ((0, 0, sense_of 0x80 0x00, Ok (first_track (replicate 80 0xC1))) ∷ []) }
{}

/// The same, cut within its data area: the record has zeros behind the bytes that came, and no record stands behind it.
pub fn format_cut_short()
    ensures told { answers (steps_and 25 (Hio 0x190)) (channel format_record_1 written_drive) ≡ WithCode Zero ∷ Stepped 25 ∷ WithCode Two
        ∷ Interrupted (Some (0x190, csw 0x418 0x0C 0 0x0A)) ∷ [] }
    ensures track { glance_after (steps_and 25 (Hio 0x190)) (channel format_record_1 written_drive) ≡ glanced (0 ∷ 0 ∷ 0x04 ∷ 0x18 ∷ 0x0C ∷ 0 ∷ 0 ∷ 0x0A ∷ [])
        ((0, 0, sense_of 0x00 0x00, Ok (track_with 0 0 (record_of 0 0 1 (replicate 10 0xD5 ++ replicate 10 0) ∷ []))) ∷ []) }
{}

/// Write Data that a reset cuts: its record has zeros behind the bytes that came, and nothing is reported of the program.
pub fn update_cut_by_reset()
    ensures told { answers (steps_and 45 Reset) (channel update_record_1 written_drive) ≡ WithCode Zero ∷ Stepped 45 ∷ WasReset None ∷ Interrupted None ∷ [] }
    ensures track { glance_after (steps_and 45 Reset) (channel update_record_1 written_drive) ≡ glanced (replicate 8 0)
        ((0, 0, sense_of 0x00 0x00, Ok (first_track (replicate 30 0xD7 ++ replicate 50 0))) ∷ []) }
    ensures serial { glance_after_programs (steps_and 45 Reset) (channel update_record_1 written_drive) ≡ glanced (replicate 8 0)
        ((0, 0, sense_of 0x00 0x00, Ok (first_track (replicate 30 0xD7 ++ replicate 50 0))) ∷ []) }
{}
