//! What a trace tells of a program's start, and of a command's.

use crate::seen::{Seen, has_unit_check, place_in};
use crate::trace::{Leave, Trace};
use bitflags::Flags;
use s360_laws::{Condition, Status};
use s360_program::view::{AtWork, ProgramView};
use s360_words::{Ccw, ChannelStatus, UnitStatus};
use trace_words::{
    Behind, CHAINED, CheckReason, NotTaken, Onward, Remark, TraceLine, WorkedOn, just,
    worked_on_at_end,
};

impl Trace {
    /// What came of a start.
    pub(crate) fn started(&mut self, condition: &Condition<Status>, seen: &Seen) {
        match condition {
            Condition::Zero => {
                self.begins_anew();
                if let Some(program) = seen.program {
                    self.begins(program, seen);
                }
            }
            Condition::Stored(status) if !status.unit.contains(UnitStatus::BUSY) => {
                self.begins_anew();
                self.stored(*status, seen);
            }
            _ => {}
        }
    }

    // A program begins: nothing is known of its track.
    fn begins_anew(&mut self) {
        self.forget_command();
        self.known = None;
        self.leave = Leave::Nothing;
        self.counted = None;
    }

    // A start that stored status, as its first word was not taken, was rejected, or was over at once. The status may stand over the word.
    fn stored(&mut self, status: Status, seen: &Seen) {
        let word = self.start.address_word;
        let at = word & 0x00FF_FFFF;
        let ccw = self.start.word;
        if status.channel.contains(ChannelStatus::PROGRAM_CHECK) {
            let mut reason = CheckReason::AddressWord;
            if word & 0x0F00_0000 == 0 {
                self.text.line(&NotTaken {
                    at,
                    word: ccw,
                    before: None,
                    unit: UnitStatus(0),
                });
                reason = CheckReason::Word(at, ccw);
            }
            return self.tell_check(status.channel, reason);
        }
        if let Some(ccw) = ccw {
            self.over_at_once(TraceLine::of(at, ccw), status, seen);
        }
    }

    fn over_at_once(&mut self, line: TraceLine, status: Status, seen: &Seen) {
        if status
            .channel
            .contains(ChannelStatus::PROGRAM_CONTROLLED_INTERRUPTION)
        {
            self.text.line(&Remark::AsksForInterruption);
        }
        let place = place_in(seen.drive, status.unit);
        let behind = Behind {
            unit: status.unit,
            onward: Onward::Untold,
        };
        let came = worked_on_at_end(&line, None, &self.passed, false, place);
        self.tell_word(line, came, behind);
        if has_unit_check(status.unit) {
            self.tell_sense(line.code, seen);
        }
    }

    /// A command begins under the word that was fetched last.
    pub(crate) fn begins(&mut self, now: ProgramView, seen: &Seen) {
        match now.at_work {
            AtWork::Looking(ccw) | AtWork::Moving(ccw, _) => {
                self.forget_command();
                self.line = Some(TraceLine::of(now.last, ccw));
                self.counted = Some(now.last);
                self.tell_asked(ccw);
            }
            AtWork::Fetching => {
                if let Some(ccw) = seen.storage.last {
                    self.immediate(now.last, ccw, seen);
                }
            }
        }
    }

    // A word that was over in the unit that fetched it, and behind which the program goes on.
    fn immediate(&mut self, at: u32, ccw: Ccw, seen: &Seen) {
        let line = TraceLine::of(at, ccw);
        if ccw.is_transfer() {
            return self.tell_word(line, WorkedOn::Nothing, just(Onward::Untold));
        }
        self.tell_asked(ccw);
        let Some(work) = &seen.work else {
            return;
        };
        let place = Some((work.registers.cylinder, work.registers.head));
        let came = worked_on_at_end(&line, None, &self.passed, false, place);
        self.tell_word(line, came, CHAINED);
        self.counted = Some(at);
        self.leave = Leave::Nothing;
    }
}
