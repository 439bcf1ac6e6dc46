//! What sense bytes 0 and 1 are reported for.

ghost use Rattle.std.specs.Prelude.{◌≡◌};
ghost use Rattle.s360_explain.specs.Lines.{is_reported};
ghost use Rattle.s360_explain.specs.Names.{cause_text};

/// Whether these drives report sense bytes 0 and 1 so for a cause, or for none. Which bits go together is the project's profile.
pub(crate) fn is_reported(sense: u16) -> bool
    ensures { result ≡ is_reported sense }
{
    matches!(
        sense,
        0x0000
            | 0x8000
            | 0x8004
            | 0x0004
            | 0x8010
            | 0x0008
            | 0x0020
            | 0x0802
            | 0x8100
            | 0x0040
            | 0x1000
    )
}

/// What the drives report sense bytes 0 and 1 so for, in the words that a trace has too: the table of causes that the component
/// descriptions give under 'Sense', with the project's profile of which bits go together.
pub fn cause_text(sense: u16) -> &'static str
    ensures { result.now ≡ cause_text sense }
{
    match sense {
        0x0000 => "the last command but Sense ended without unit check",
        0x8000 =>
            "the drive has no such command, or too few bytes came of a home address, a count or a seek address, or Write Home Address was given a flag or the address of another track",
        0x8004 => "the file mask does not allow this write",
        0x0004 =>
            "the file mask does not allow this seek, or does not allow the multi-track bit to go on at the next head",
        0x8010 =>
            "a write without the search right before it that compared all bytes and was equal, or a second Set File Mask in one program",
        0x0008 => "the index passed twice, and no such area was found",
        0x0020 => "the cylinder's last head was passed",
        0x0802 => "the track can't be read",
        0x8100 => "the volume has no such bin, cylinder or head",
        0x0040 => "the record does not fit the track",
        0x1000 => "the image's file could not be read or written",
        _ => "no cause of these drives alone",
    }
}

/// What is said behind a cause to those who have no trace.
pub(crate) fn hint_text(sense: u16) -> &'static str {
    match sense {
        0x0008 => ": no area that the command looks for is on the track",
        0x0020 => ": the command has the multi-track bit",
        0x0802 => ": its slot in the image does not spell records",
        0x8100 => ": a seek was to go there",
        _ => "",
    }
}
