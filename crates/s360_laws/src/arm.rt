//! What the arm of a drive does between programs.

/// The arm of a drive, as the channel knows it.
#[derive(Clone, Copy, Debug, PartialEq, Eq)]
pub enum Arm {
    /// The arm is at rest, and the drive owes no device end for it.
    AtRest,
    /// The arm moves. Its device end is still to come.
    InMotion,
    /// The arm has arrived. Its device end is not yet stored.
    Arrived,
}
