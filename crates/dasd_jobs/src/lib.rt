//! What `dasd` does with image files: it formats one, and lists and checks those of one image, slot by slot; and it reads and
//! writes back those of a run. The files are behind a trait, so that nothing here touches a host.
#![tactic(auto)]

mod faults;
mod files;
mod found;
mod headers;
mod jobs;
mod journals;
mod lengths;
mod mounting;
mod new_files;
mod opened;
mod reasons;
mod sources;
mod traces;
mod written;

pub use crate::faults::{JobFault, of_write};
pub use crate::files::{FileFault, ImageFiles, NewFile, OpenedFile, SavePlan};
pub use crate::headers::is_header;
pub use crate::jobs::{
    NewVolume, begin_volume, check_files, format_file, list_files, write_formatted,
};
pub use crate::journals::{Journals, recover_files};
pub use crate::lengths::Reach;
pub use crate::mounting::{begin_changed, new_image, read_image, write_back};
pub use crate::new_files::{DraftWriter, begin_file, put_file};
pub use crate::opened::{OpenedVolume, open_volume};
pub use crate::sources::Sources;
pub use crate::traces::Traces;
pub use crate::written::Written;
pub use dasd_volumes::{Progress, SlotReader, Stage};
