//! Events that are the same.

ghost use Rattle.std.specs.Prelude.{◌≡◌, true};

use s360_laws::Event;

// Whether two events are the same.
fn is_same(one: &Event, other: &Event) -> bool
    ensures { result ≡ true → one.now ≡ other.now }
{
    match (one, other) {
        (Event::Sio(one), Event::Sio(other)) => one == other,
        (Event::Tio(one), Event::Tio(other)) => one == other,
        (Event::Hio(one), Event::Hio(other)) => one == other,
        (Event::Tch, Event::Tch) => true,
        (Event::Step(one), Event::Step(other)) => one == other,
        (Event::Run(one), Event::Run(other)) => one == other,
        (Event::Arrive(one), Event::Arrive(other)) => one == other,
        (Event::Interrupt, Event::Interrupt) => true,
        (Event::Reset, Event::Reset) => true,
        (Event::Store(at, bytes), Event::Store(other, others)) => {
            at == other && bytes.as_slice() == others.as_slice()
        }
        (Event::Key(at, key), Event::Key(other, others)) => at == other
            && key.get() == others.get(),
        (Event::Show(at, count), Event::Show(other, others)) => {
            at == other && count.get() == others.get()
        }
        _ => false,
    }
}

/// Whether two lists have the same events, one after another.
pub(crate) fn are_same(some: &[Event], others: &[Event]) -> bool
    ensures { result ≡ true → some.now ≡ others.now }
{
    if some.len() != others.len() {
        return false;
    }
    let mut at = 0;
    for event in some {
        if !is_same(event, &others[at]) {
            return false;
        }
        at += 1;
    }
    true
}
