//! Why a look is not taken.

use thiserror::Error;

/// Why a look is not taken.
#[derive(Clone, Copy, Debug, PartialEq, Eq, Error)]
pub enum LookFault {
    /// There is no channel with the number in the high byte of the address.
    #[error("no channel of this number")]
    NoChannel,
    /// There is no such moment, or no such answer to its event.
    #[error("no such moment")]
    BadMoment,
    /// The lines of a look may have more bytes than there is room for.
    #[error("room for fewer than 2,048 bytes")]
    NoRoom,
}
