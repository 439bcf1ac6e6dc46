//! The words of the program `dasd`: its commands, their options, and the volumes of a run.
#![tactic(auto)]

mod archive;
mod assembler;
mod changes;
mod commands;
mod decks;
mod explain;
mod extract;
mod format;
mod hash;
mod in_packs;
mod label;
mod list;
mod listings;
mod loads;
mod options;
mod record_words;
mod recover;
mod refused;
mod requests;
mod run;
mod volumes;
mod vtoc;

pub use crate::commands::read_words;
pub use crate::decks::{DECK_TABLE, operand_rule};
pub use crate::in_packs::is_host_file;
pub use crate::refused::{
    NamedSet, VOLUME_RULE, first_bad_volume, is_comparison, named_set, object_path, taken_address,
};
pub use crate::requests::{
    Asked, AskedTrace, ComparedVolumes, DeckRun, DeletedMember, DeletedSet, DetailedVolume,
    DumpedPart, ExtractedSet, ExtractedTracks, ExtractedVolume, FileForm, HashedVolume,
    ListedLibrary, ListedPart, LoadedFile, LoadedFolder, LoadedMember, NewImage, Noted, Numbers,
    PrintedVolume, RecoveredFiles, RelabelledVolume, RenamedMember, RenamedSet, Request, SetName,
    StrictCheck, TraceTarget, WordFault,
};
pub use crate::volumes::{Volume, VolumeSource};
