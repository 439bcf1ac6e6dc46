//! Disk images in the CKD_P370 layout, in one to eight files; the stores that hold them; their slots.
#![tactic(auto)]

mod copying;
mod failing;
mod fault;
mod files;
mod header;
mod images;
mod layout;
mod memory;
mod new_volume;
mod store;
mod stores;

pub use crate::copying::CopyStore;
pub use crate::failing::FailingStore;
pub use crate::fault::MountFault;
pub use crate::images::Image;
pub use crate::layout::{HEADER_LENGTH, image_len};
pub use crate::memory::MemoryStore;
pub use crate::new_volume::write_new_volume;
pub use crate::store::{ImageStore, StoreFault};
pub use crate::stores::MOST_FILES;
