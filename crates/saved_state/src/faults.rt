//! Why bytes are no saved state.

use thiserror::Error;

/// Why bytes are no saved state. They are looked for in this order.
#[derive(Clone, Copy, Debug, PartialEq, Eq, Error)]
pub enum BytesFault {
    /// They do not begin as a saved state does.
    #[error("no saved state")]
    NotSaved,
    /// They are of another version of the format.
    #[error("another version of the format")]
    OtherVersion,
    /// A saved state has another length.
    #[error("cut short, or too long")]
    OtherLength,
    /// The checksum does not fit: they were changed.
    #[error("the checksum does not fit")]
    OtherSum,
    /// A field has a value that none has.
    #[error("a field has a value that none has")]
    NotSound,
}
