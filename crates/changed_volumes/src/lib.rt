//! Volumes in files that are made or changed: new ones with a label and an empty table of contents; and those of which a data set gets
//! another name or is deleted, or the volume label gets other fields. The files that are changed are read whole, and those that changed are
//! saved as a run saves them.
#![tactic(auto)]

mod changes;
mod deletions;
mod fault;
mod formats;
mod images;
mod labelled_writes;
mod lines;
mod reading;
mod saves;

pub use crate::changes::{ImageChange, change_files};
pub use crate::fault::{ChangeFault, of_line, of_reading};
pub use crate::formats::{FormatFault, LabelledVolume, format_labelled};
pub use crate::images::{VolumeChange, change_image, read_said, write_change};
pub use crate::reading::HeldVolume;
pub use crate::saves::{ChangedVolume, NewName, delete_data_set, relabel_volume, rename_data_set};
