//! Laws of decks that have run. Each function here does nothing: what it ensures follows from what `run` and `run_counted` promise.

ghost use Rattle.s360_deck.specs.Laws.{RunsKeepHeadline, RunsAreSerial, RunsReportFaults};

/// The headline holds of the events of every deck that has run.
pub fn runs_keep_the_headline()
    ensures { RunsKeepHeadline }
{}

/// Where no store failed, a deck that has run did its accepted programs one after another, each cut at its counted unit.
pub fn runs_are_serial()
    ensures { RunsAreSerial }
{}

/// Each failure of a store is reported by the event of the deck that met it, and by no other.
pub fn runs_report_faults()
    ensures { RunsReportFaults }
{}
