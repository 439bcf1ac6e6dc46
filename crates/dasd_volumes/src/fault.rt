//! Why a volume was not printed.

use thiserror::Error;

/// Why a volume was not listed or checked to its end.
#[derive(Clone, Copy, Debug, PartialEq, Eq, Error)]
pub enum VolumeFault {
    /// There is no memory for a slot.
    #[error("out of memory")]
    OutOfMemory,
    /// A read of the store failed.
    #[error("store fault")]
    Store,
    /// A write of a line failed.
    #[error("write fault")]
    Write,
}
