//! The files of the host: images that are locked, read and saved, files of traces, and what is remarked of each.
#![tactic(auto)]

mod drafts;
mod files;
mod locks;
mod reading;
mod remarks;
mod traces;

pub use crate::drafts::HostDraft;
pub use crate::files::HostFiles;
pub use crate::reading::HostFile;
pub use crate::remarks::{ERASE_BEHIND, Remarks, Shown};
pub use crate::traces::{TraceFile, TraceSink};
