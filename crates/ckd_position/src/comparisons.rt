//! What a search asks of an area.

ghost use Rattle.std.specs.Prelude.{◌≡◌, ◌↔◌, ◌≤◌, IsTrue, length};
ghost use Rattle.std.specs.Ordering.{is_eq, nat_cmp, ordering_then};
ghost use Rattle.std.specs.Cmp.Lexicographic.{slice_cmp};
ghost use Rattle.ckd_position.specs.Comparisons.{accepts, is_satisfied, Satisfies};

use std::cmp::Ordering;

/// What a search asks of the area's bytes, beside those that it is given.
#[derive(Clone, Copy)]
pub enum Compare {
    /// They are the same.
    Equal,
    /// They are higher: at the first place where the two differ, the track's byte is greater.
    High,
    /// They are the same or higher.
    EqualOrHigh,
}

impl Compare {
    /// Whether this order of the area's bytes to those given is as the search asks.
    pub fn accepts(self, order: Ordering) -> bool
        ensures { result ≡ accepts self order }
    {
        match self {
            Compare::Equal => order.is_eq(),
            Compare::High => order.is_gt(),
            Compare::EqualOrHigh => order.is_ge(),
        }
    }
}

/// The order of an area's bytes to those given, behind bytes whose order is known: unsigned bytes, from the left, so that
/// the first two that differ decide.
#[inline(always)]
pub fn compared(so_far: Ordering, area: &[u8], comparand: &[u8]) -> Ordering
    ensures { result ≡ ordering_then so_far (slice_cmp nat_cmp area.now comparand.now) }
{
    so_far.then(order_of(area, comparand))
}

// The order of an area's bytes to those given.
// The five of an identifier by themselves: how many they are is then known as the crate is compiled.
#[inline(always)]
fn order_of(area: &[u8], comparand: &[u8]) -> Ordering
    ensures { result ≡ slice_cmp nat_cmp area.now comparand.now }
{
    let identifiers = (<&[u8; 5]>::try_from(area), <&[u8; 5]>::try_from(comparand));
    if let (Ok(identifier), Ok(other)) = identifiers {
        return identifier.cmp(other);
    }
    area.cmp(comparand)
}

// Whether an area's bytes are those given. Those of an identifier by themselves too.
#[inline(always)]
#[tactic(auto, using(crate::proofs::Order::same_bytes))]
fn is_same(area: &[u8], comparand: &[u8]) -> bool
    ensures { result ≡ is_eq (slice_cmp nat_cmp area.now comparand.now) }
{
    let identifiers = (<&[u8; 5]>::try_from(area), <&[u8; 5]>::try_from(comparand));
    if let (Ok(identifier), Ok(other)) = identifiers {
        return identifier == other;
    }
    area == comparand
}

/// Whether the bytes of an area are as the search asks, beside as many bytes as it is given: unsigned bytes, from the
/// left (component descriptions of the 2841 and the 2314, 'Search Commands').
#[inline(always)]
#[tactic(auto, using(crate::proofs::Order::satisfied_means))]
pub fn verdict(compare: Compare, area: &[u8], comparand: &[u8]) -> bool
    requires { length comparand.now ≤ length area.now }
    ensures value { result ≡ is_satisfied compare area.now comparand.now }
    ensures meaning { IsTrue result ↔ Satisfies compare area.now comparand.now }
{
    let beside = &area[..comparand.len()];
    match compare {
        Compare::Equal => is_same(beside, comparand),
        _ => compare.accepts(compared(Ordering::Equal, beside, comparand)),
    }
}
