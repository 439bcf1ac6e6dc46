//! What a trace tells of a program's end.

use crate::seen::{Seen, Went, has_unit_check, place_in};
use crate::stored::{last_of, next_byte, word_at};
use crate::trace::Trace;
use bitflags::Flags;
use s360_program::view::AtWork;
use s360_words::{BLOCK_SIZE, Ccw, ChannelStatus, Csw, UnitStatus};
use trace_words::{
    Behind, CheckReason, NotTaken, Onward, Remark, TraceLine, WorkedOn, just, worked_on_at_end,
    worked_on_so_far,
};

impl Trace {
    /// The program is over that was so before its last unit.
    pub(crate) fn ends(&mut self, before: Went, seen: &Seen) {
        let Some(csw) = seen.ended else {
            return;
        };
        let last = last_of(csw);
        let was_taken = match &self.line {
            Some(line) => line.at == last,
            None => false,
        };
        let code = self.tell_last(last, &csw, seen);
        self.tell_channel(&csw, before.at_work, was_taken, seen);
        self.tell_unit(csw.unit, code, seen);
        self.forget_command();
    }

    // Why the channel ended the program, if it did.
    fn tell_channel(&mut self, csw: &Csw, before: AtWork, was_taken: bool, seen: &Seen) {
        if csw.channel.contains(ChannelStatus::PROGRAM_CHECK) && !was_taken {
            let last = last_of(*csw);
            let reason = CheckReason::Word(last, word_at(last, seen.storage.last));
            return self.tell_check(csw.channel, reason);
        }
        if csw.channel.0 & !ChannelStatus::PROGRAM_CONTROLLED_INTERRUPTION.0 == 0 {
            return;
        }
        let reason = if csw.channel.contains(ChannelStatus::INCORRECT_LENGTH) {
            CheckReason::Length(csw.count)
        } else {
            of_refused_byte(csw, before, seen)
        };
        self.tell_check(csw.channel, reason);
    }

    // Why a command ended in unit check, and that its record has no data.
    fn tell_unit(&mut self, unit: UnitStatus, code: u8, seen: &Seen) {
        if has_unit_check(unit) {
            self.tell_sense(code, seen);
        }
        if unit.contains(UnitStatus::UNIT_EXCEPTION) {
            self.text.line(&Remark::UnitException);
        }
    }

    // The line of the word in which a program ended; the code of its command.
    fn tell_last(&mut self, last: u32, csw: &Csw, seen: &Seen) -> u8 {
        let word = word_at(last, seen.storage.last);
        match (self.line, word) {
            (Some(line), _) if line.at == last => self.tell_over(line, csw, seen),
            (None, Some(ccw)) if !csw.channel.contains(ChannelStatus::PROGRAM_CHECK) => {
                self.tell_lost_credit(ccw);
                self.tell_asked(ccw);
                self.counted = Some(last);
                self.tell_over(TraceLine::of(last, ccw), csw, seen)
            }
            (before, _) => self.tell_not_reached(last, word, before, csw.unit),
        }
    }

    // A word that was not taken, behind the line of the one before it; the code of that.
    fn tell_not_reached(
        &mut self,
        last: u32,
        word: Option<Ccw>,
        before: Option<TraceLine>,
        unit: UnitStatus,
    ) -> u8 {
        let code = match before {
            Some(line) => {
                self.tell_chaining(&line);
                line.code
            }
            None => 0,
        };
        self.text.line(&NotTaken {
            at: last,
            word,
            before,
            unit,
        });
        code
    }

    fn tell_over(&mut self, line: TraceLine, csw: &Csw, seen: &Seen) -> u8 {
        let behind = Behind {
            unit: csw.unit,
            onward: Onward::Ended(csw.count),
        };
        let came = self.worked_on_by(&line, csw, seen);
        self.tell_word(line, came, behind);
        self.tell_filled_by(&line, csw.unit);
        line.code
    }

    // What the command came to in which a program ended.
    fn worked_on_by(&self, line: &TraceLine, csw: &Csw, seen: &Seen) -> WorkedOn {
        let satisfied = csw.unit.contains(UnitStatus::STATUS_MODIFIER);
        let place = place_in(seen.drive, csw.unit);
        worked_on_at_end(line, self.met, &self.passed, satisfied, place)
    }

    // What a write has filled with zeros in which a program ended, unless it failed.
    fn tell_filled_by(&mut self, line: &TraceLine, unit: UnitStatus) {
        if !has_unit_check(unit) {
            self.tell_filled(line);
        }
    }

    /// A program is cut, if one runs; whether the track that it wrote is lost.
    pub(crate) fn cut(&mut self, is_lost: bool, seen: &Seen) {
        if self.program.is_none() || seen.program.is_some() {
            return;
        }
        let line = self.line;
        if let Some(line) = line {
            self.tell_cut(&line, is_lost, seen);
        }
        if let Some(csw) = seen.ended {
            let code = match line {
                Some(line) => line.code,
                None => 0,
            };
            self.tell_unit(csw.unit, code, seen);
        }
        self.forget_command();
    }

    // The word in which a program is cut. Of one that a reset cuts no status is known.
    fn tell_cut(&mut self, line: &TraceLine, is_lost: bool, seen: &Seen) {
        if line.is_told {
            return;
        }
        let (came, behind, failed) = match seen.ended {
            Some(csw) => {
                let behind = Behind {
                    unit: csw.unit,
                    onward: Onward::Halted(csw.count),
                };
                (
                    self.worked_on_by(line, &csw, seen),
                    behind,
                    has_unit_check(csw.unit),
                )
            }
            None => (
                self.worked_on_by_reset(line, seen),
                just(Onward::Cut),
                is_lost,
            ),
        };
        self.tell_word(*line, came, behind);
        if !failed {
            self.tell_filled(line);
        }
    }

    // What a command came to that a reset cut: where the arm stands, or the area.
    fn worked_on_by_reset(&self, line: &TraceLine, seen: &Seen) -> WorkedOn {
        let place = place_in(seen.drive, UnitStatus(0));
        match worked_on_at_end(line, None, &self.passed, false, place) {
            WorkedOn::Nothing => worked_on_so_far(line, self.met),
            came => came,
        }
    }

    /// That the channel ended a program, or did not begin it, and why; the interruption that a word asked for ends none.
    pub(crate) fn tell_check(&mut self, channel: ChannelStatus, reason: CheckReason) {
        let asked = ChannelStatus::PROGRAM_CONTROLLED_INTERRUPTION;
        self.fails = true;
        let channel = ChannelStatus(channel.0 & !asked.0);
        self.text.line(&Remark::Check(channel, reason));
    }
}

// Why a byte could not go to its place in storage, or come from it.
fn of_refused_byte(csw: &Csw, before: AtWork, seen: &Seen) -> CheckReason {
    let Some(at) = next_byte(before) else {
        return CheckReason::Address;
    };
    match seen.storage.key {
        Some(key) => CheckReason::Key(at - at % BLOCK_SIZE, key, csw.key),
        None => CheckReason::Outside(at, seen.storage.size),
    }
}
