//! Laws of volumes: who holds their tracks, and what changes leave of their data sets. Each function does nothing: what it ensures is a law of
//! the definitions.
#![tactic(auto)]

ghost use Rattle.volume_laws.specs.Space.{NothingShared};
ghost use Rattle.volume_laws.specs.Frame.{SourceStays};
ghost use Rattle.volume_laws.specs.Changes.{OwnWritesKeep, BlockChangesKeep, LoadKeeps, RenameKeeps, RelabelKeeps, DeletionKeeps};
ghost use Rattle.volume_laws.specs.Small.{SmallIsRight};

/// Where nothing is found wrong, no track has two holders, and none that has one is off the volume.
#[tactic(auto, using(crate::proofs::Shared::nothing_shared))]
pub fn nothing_shared()
    ensures { NothingShared }
{}

/// What is extracted of a data set depends on the slots of its tracks and of their alternates alone.
#[tactic(auto, using(crate::proofs::Frame::source_stays))]
pub fn source_stays()
    ensures { SourceStays }
{}

/// A change that writes the label's track, the table's and free ones alone leaves what is extracted of every data set.
#[tactic(auto, using(crate::proofs::Kept::own_writes_keep))]
pub fn own_writes_keep()
    ensures { OwnWritesKeep }
{}

/// A volume that gets a data set keeps what is extracted of all others.
#[tactic(auto, using(crate::proofs::Loads::load_keeps))]
pub fn load_keeps()
    ensures { LoadKeeps }
{}

/// Changes of control blocks leave what is extracted of every data set.
#[tactic(auto, using(crate::proofs::Blocks::block_changes_keep))]
pub fn block_changes_keep()
    ensures { BlockChangesKeep }
{}

/// A rename leaves what is extracted of every data set, also of the renamed one.
#[tactic(auto, using(crate::proofs::Blocks::rename_keeps))]
pub fn rename_keeps()
    ensures { RenameKeeps }
{}

/// A deletion leaves what is extracted of every data set, and the records of the deleted one where they are.
#[tactic(auto, using(crate::proofs::Deletions::deletion_keeps))]
pub fn deletion_keeps()
    ensures { DeletionKeeps }
{}

/// Other fields of the volume label leave what is extracted of every data set.
#[tactic(auto, using(crate::proofs::Relabelled::relabel_keeps))]
pub fn relabel_keeps()
    ensures { RelabelKeeps }
{}

/// A small volume is as these laws ask for, and its data set can be renamed.
#[tactic(auto, using(crate::proofs::Small::small_is_right))]
pub fn small_volume_is_right()
    ensures { SmallIsRight }
{}
