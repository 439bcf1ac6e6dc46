//! What the definitions of `specs/` say together. The function here does nothing: what it ensures is a law.

ghost use Rattle.member_changes.specs.Laws.{ChangesAreRead};

/// Where a change of a member is not refused, the directory of its library has, read again, exactly the entries that it had, without the one
/// that was deleted, or with the one that has another name where that belongs. Tracks without blocks of the directory are as they were.
pub fn changes_are_read()
    ensures { ChangesAreRead }
{}
