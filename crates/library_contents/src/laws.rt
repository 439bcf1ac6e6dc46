//! What the definitions of `specs/` say together. The functions here do nothing: what each ensures is a law.

ghost use Rattle.library_contents.specs.Directories.{EntriesAreThoseOfTheDirectory};
ghost use Rattle.library_contents.specs.Notes.{NumberIsWhereTheyBegin};

/// The entries that are read of a directory are those that `volume_labels` reads in its blocks, in their order, if nothing is wrong behind
/// them.

pub fn entries_are_those_of_the_directory()
    ensures { EntriesAreThoseOfTheDirectory }
{}

/// Where a note leads: from the block of the number that is told on, the blocks of the member are those that the reader has from the
/// note's address on.
pub fn number_is_where_they_begin()
    ensures { NumberIsWhereTheyBegin }
{}
