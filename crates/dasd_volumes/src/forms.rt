//! How lines are written.

/// For whom lines are written.
#[derive(Clone, Copy)]
pub enum Style {
    /// For people: words and hexadecimal addresses.
    Text,
    /// For programs: one object of JSON a line.
    Json,
}

/// How lines are written: their style, and the volume's path as a string of JSON with its quotes, which objects have.
#[derive(Clone, Copy)]
pub struct Form<'a> {
    /// The style.
    pub style: Style,
    /// The path, in quotes.
    pub path: &'a str,
}
