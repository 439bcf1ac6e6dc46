//! Files that are saved in their own places by `atomic_save`, several as one, and saves that were cut off.
#![tactic(auto)]

mod asked;
mod bytes;
mod changes;
mod hosts;
mod journals;
mod marks;
mod new_bytes;
mod old_journals;
mod readers;
mod recovery;
mod saves;

pub use crate::asked::recover_file;
pub use crate::new_bytes::NewBytes;
pub use crate::readers::{ReadFiles, has_other_bytes};
pub use crate::recovery::{WholeFile, whole_file};
pub use crate::saves::{Part, SaveFault, open_target, save_files};
