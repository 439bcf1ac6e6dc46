//! Parts of a slot.

/// A part of a slot.
#[derive(Clone, Copy)]
pub struct Window {
    /// Where it begins, from the slot's beginning.
    pub start: usize,
    /// How many bytes it has.
    pub len: usize,
}
