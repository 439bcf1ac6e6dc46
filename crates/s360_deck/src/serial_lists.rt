//! The serial list: the same programs, with nothing left between their units but what changed storage.

ghost use Rattle.std.specs.Prelude.{◌≡◌, ◌+◌, ◌*◌, ◌<◌, ◌^◌, false, ◌++◌, ◌∷◌, [], ℕ, None, map, length, IfOk, OnOk};
ghost use Rattle.s360_laws.specs.Events as machine;
ghost use Rattle.s360_laws.specs.SerialLists.{changes_nothing, that_change, is_step, is_arrival, is_between, steps_ahead, arrivals_last, steps_of};
ghost use Rattle.s360_laws.specs.SerialLists.{steps_joined, serial_list};
ghost use Rattle.s360_laws.specs.History.{acts};
ghost use Rattle.s360_laws.specs.Seen.{event_seen, condition_seen, status_seen, csw_seen};
ghost use Rattle.s360_deck.specs.Serial.{exchange_seen, exchanges_seen, exchanges_of, events_in, serial_events, Fits, AllFit, Places, Joins};

use s360_laws::{Answer, Condition, Event, Status};
use s360_words::Csw;
use std::alloc::{AllocError, Global};

/// An event with the answer that was given to it.
#[derive(Clone, Copy)]
pub(crate) struct Exchange<'a> {
    /// The event.
    pub(crate) event: &'a Event,
    /// The answer.
    pub(crate) answer: &'a Answer,
}

/// The serial list of a list of events and of the answers that a channel gave to them: what changed nothing is left out,
/// arrivals stand behind the last step of the program that was running, and steps that stand together become steps of
/// 65,535 units and one of the rest. Run again from the same state it does the same programs.
///
/// # Errors
///
/// There is no memory for it.
#[tactic(auto, using(crate::proofs::SerialParts::serial_acts))]
pub fn serial(alloc: Global, events: &[Event], answers: &[Answer]) -> Result<Vec<Event>, AllocError>
    requires { AllFit events.now answers.now }
    ensures rules { IfOk result (λ list. map event_seen list.items ≡ serial_events events.now answers.now) }
    ensures acts { let given = exchanges_of events.now answers.now in acts (serial_list given) ≡ acts given }
{
    let changes = what_changed(alloc, events, answers)?;
    let ordered = arrivals_last(alloc, changes.as_slice())?;
    steps_together(alloc, ordered.as_slice())
}

// The exchanges that changed something.
fn what_changed<'a>(
    alloc: Global,
    events: &'a [Event],
    answers: &'a [Answer],
) -> Result<Vec<Exchange<'a>>, AllocError>
    requires { AllFit events.now answers.now }
    ensures { IfOk result (λ list. exchanges_seen list.items ≡ that_change (exchanges_of events.now answers.now)) }
{
    let mut list = Vec::new(alloc);
    let mut events = events;
    let mut answers = answers;
    while let ([event, later_events @ ..], [answer, later_answers @ ..]) = (events, answers) {
        keep_change(&mut list, Exchange { event, answer })?;
        events = later_events;
        answers = later_answers;
    }
    Ok(list)
}

fn keep_change<'a>(list: &mut Vec<Exchange<'a>>, exchange: Exchange<'a>) -> Result<(), AllocError>
    requires { Fits exchange.event.now exchange.answer.now }
    ensures { OnOk result (exchanges_seen list.new.items
        ≡ exchanges_seen list.old.items ++ that_change (exchange_seen exchange.entry ∷ [])) }
{
    if changes_nothing(exchange) {
        return Ok(());
    }
    list.push(exchange)?;
    Ok(())
}

// Whether the answer shows that the event changed nothing.
fn changes_nothing(exchange: Exchange) -> bool
    requires { Fits exchange.event.now exchange.answer.now }
    ensures { result ≡ changes_nothing (exchange_seen exchange.entry) }
{
    match (exchange.event, exchange.answer) {
        (Event::Sio(_), Answer::Sio(_, condition)) => is_refused_start(condition),
        (Event::Tio(_), Answer::Tio(_, condition)) => stores_no_csw(condition),
        (Event::Hio(_), Answer::Hio(_, condition)) => halts_nothing(condition),
        (Event::Tch, _) | (Event::Show(_, _), _) => true,
        (Event::Step(_), Answer::Step(done)) => *done == 0,
        (Event::Run(_), Answer::Run(done)) => *done == 0,
        (Event::Arrive(_), Answer::Arrive(_, arrived)) => !*arrived,
        (Event::Interrupt, Answer::Interrupt(given)) => given.is_none(),
        (Event::Reset, _) => false,
        (Event::Store(_, _), Answer::Store(kept)) => !*kept,
        (Event::Key(_, _), Answer::Key(kept)) => !*kept,
        _ => unreachable!(),
    }
}

// A start that was not accepted, and stored nothing.
fn is_refused_start(condition: &Condition<Status>) -> bool
    ensures { (a : ℕ) → result ≡ changes_nothing (machine.Sio a, None, condition_seen status_seen condition.now) }
{
    matches!(condition, Condition::Two | Condition::Three)
}

// A test that stored no channel status word.
fn stores_no_csw(condition: &Condition<Csw>) -> bool
    ensures { (a : ℕ) → result ≡ changes_nothing (machine.Tio a, None, condition_seen csw_seen condition.now) }
{
    !matches!(condition, Condition::Stored(_))
}

// A halt that halted no program, and stored nothing.
fn halts_nothing(condition: &Condition<Status>) -> bool
    ensures { (a : ℕ) → result ≡ changes_nothing (machine.Hio a, None, condition_seen status_seen condition.now) }
{
    matches!(condition, Condition::Zero | Condition::Three)
}

impl Exchange<'_> {
    ghost use Rattle.std.specs.Prelude.{◌≡◌};
    ghost use Rattle.s360_laws.specs.SerialLists.{is_step, is_arrival, is_between};
    ghost use Rattle.s360_deck.specs.Serial.{exchange_seen, units_done};

    // Whether it is a step.
    fn is_step(&self) -> bool
        ensures { result ≡ is_step (exchange_seen self.now) }
    {
        matches!(self.event, Event::Step(_) | Event::Run(_))
    }

    // How many units it did, if it is a step.
    fn units_done(&self) -> Option<u32>
        ensures { result ≡ units_done (exchange_seen self.now) }
    {
        if !self.is_step() {
            return None;
        }
        match self.answer {
            Answer::Step(done) => Some(u32::from(*done)),
            Answer::Run(done) => Some(*done),
            _ => None,
        }
    }

    // Whether it is an arrival.
    fn is_arrival(&self) -> bool
        ensures { result ≡ is_arrival (exchange_seen self.now) }
    {
        matches!(self.event, Event::Arrive(_))
    }

    // Whether it stands between the steps of two programs.
    fn is_between(&self) -> bool
        ensures { result ≡ is_between (exchange_seen self.now) }
    {
        matches!(self.event, Event::Sio(_) | Event::Hio(_) | Event::Reset)
    }
}

// Whether there is a further step of the program.
fn steps_ahead(list: &[Exchange]) -> bool
    ensures { result ≡ steps_ahead (exchanges_seen list.now) }
{
    let mut rest = list;
    while let [exchange, behind @ ..] = rest {
        if exchange.is_between() {
            return false;
        }
        if exchange.is_step() {
            return true;
        }
        rest = behind;
    }
    false
}

// Arrivals between the steps of a program stand behind the last of them.
fn arrivals_last<'a>(alloc: Global, list: &[Exchange<'a>]) -> Result<Vec<Exchange<'a>>, AllocError>
    ensures { IfOk result (λ ordered. exchanges_seen ordered.items ≡ arrivals_last false [] (exchanges_seen list.now)) }
{
    let mut ordered = Vec::new(alloc);
    let mut held = Vec::new(alloc);
    let mut inside = false;
    let mut rest = list;
    while let [exchange, behind @ ..] = rest {
        inside = place(
            &mut ordered,
            &mut held,
            inside,
            *exchange,
            steps_ahead(behind),
        )?;
        rest = behind;
    }
    append(&mut ordered, &mut held)?;
    Ok(ordered)
}

// One exchange more, where a program's steps have begun or not and go on or not; answers whether they have begun then.
fn place<'a>(
    ordered: &mut Vec<Exchange<'a>>,
    held: &mut Vec<Exchange<'a>>,
    inside: bool,
    exchange: Exchange<'a>,
    more_steps: bool,
) -> Result<bool, AllocError>
    ensures { IfOk result (λ now. Places ordered.old.items ordered.new.items held.old.items held.new.items inside
        exchange.entry more_steps now) }
{
    if exchange.is_arrival() && inside && more_steps {
        held.push(exchange)?;
        return Ok(inside);
    }
    ordered.push(exchange)?;
    if exchange.is_step() && !more_steps {
        append(ordered, held)?;
        return Ok(false);
    }
    Ok(exchange.is_step() || inside && !exchange.is_between())
}

// What is held goes behind what is ordered.
fn append<'a>(
    ordered: &mut Vec<Exchange<'a>>,
    held: &mut Vec<Exchange<'a>>,
) -> Result<(), AllocError>
    ensures ordered { OnOk result (ordered.new.items ≡ ordered.old.items ++ held.old.items) }
    ensures held { OnOk result (held.new.items ≡ []) }
{
    ordered.append(held)
}

// Steps that stand together become steps of 65,535 units and one of the rest.
fn steps_together(alloc: Global, list: &[Exchange]) -> Result<Vec<Event>, AllocError>
    ensures { IfOk result (λ events. map event_seen events.items
        ≡ events_in (steps_joined 0 (exchanges_seen list.now))) }
{
    let mut events = Vec::new(alloc);
    let mut units: u128 = 0;
    let mut rest = list;
    while let [exchange, behind @ ..] = rest {
        units = join(&mut events, units, *exchange)?;
        rest = behind;
    }
    push_steps(&mut events, units)?;
    Ok(events)
}

// One exchange more behind so many units of steps that stand together; answers how many stand together then.
fn join(events: &mut Vec<Event>, units: u128, exchange: Exchange) -> Result<u128, AllocError>
    requires { units < 2 ^ 100 }
    ensures { IfOk result (λ more. Joins (map event_seen events.old.items) (map event_seen events.new.items) units
        (exchange_seen exchange.entry) more) }
{
    if let Some(done) = exchange.units_done() {
        return Ok(units + u128::from(done));
    }
    push_steps(events, units)?;
    events.push(exchange.event.copy())?;
    Ok(0)
}

// So many units of steps.
fn push_steps(events: &mut Vec<Event>, units: u128) -> Result<(), AllocError>
    ensures { OnOk result (map event_seen events.new.items
        ≡ map event_seen events.old.items ++ events_in (steps_of units)) }
{
    for _ in 0..units / 65_535 {
        events.push(Event::Step(65_535))?;
    }
    let rest = units % 65_535;
    if rest == 0 {
        return Ok(());
    }
    events.push(Event::Step(rest as u16))?;
    Ok(())
}
