//! Counts with their nouns: `1 track`, `2 tracks`.
ghost use Rattle.std.specs.Prelude.{◌≡◌, ◌==◌, if◌then◌else◌, Some};
ghost use Rattle.counted_io.specs.Quantities.{quantity_text};

use std::fmt;

/// A count and its noun.
#[derive(Clone, Copy)]
pub struct Quantity<'a> {
    /// The count.
    pub number: u64,
    /// The noun of one, with what follows it, such as a verb.
    pub one: &'a str,
    /// The noun of none or of several.
    pub many: &'a str,
}

impl<'a> Quantity<'a> {
    /// So many, and the noun of one and of several.
    pub fn new(number: u64, one: &'a str, many: &'a str) -> Quantity<'a>
        ensures number { result.number ≡ number }
        ensures one { result.one.now ≡ one.now }
        ensures many { result.many.now ≡ many.now }
    {
        Quantity { number, one, many }
    }
}

impl fmt::Display for Quantity<'_> {
    ghost output = { λ q. Some (quantity_text q.number q.one.now q.many.now) };

    fn fmt<W: fmt::Write>(&self, f: &mut fmt::Formatter<W>) -> fmt::Result {
        let number = self.number;
        let noun = noun_of(number, self.one, self.many);
        write!(f, "{number} {noun}")
    }
}

// The noun of so many.
fn noun_of<'a>(number: u64, one: &'a str, many: &'a str) -> &'a str
    ensures { result.now ≡ (if number == 1 then one.now else many.now) }
{
    if number == 1 { one } else { many }
}
