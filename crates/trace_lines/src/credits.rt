//! What a trace tells of a command that is over: the key that a search met, the bytes that a write filled with zeros, and what is left for the
//! write that may stand right behind it.

use crate::seen::{Seen, Work};
use crate::trace::{Leave, Trace};
use ckd_command::Credit;
use ckd_command::tables::credit_of_search;
use ckd_sense::Command;
use ckd_track::key_length;
use s360_words::Ccw;
use trace_words::{Compared, CreditUse, Met, Remark, TraceLine, key_in, room_behind};

impl Trace {
    /// The key of the record that a search by key has met.
    pub(crate) fn tell_key_met(&mut self, line: &TraceLine, work: &Work) {
        if !matches!(
            line.command(),
            Some(Command::SearchKeyEqual | Command::SearchKeyHigh | Command::SearchKeyEqualOrHigh)
        ) {
            return;
        }
        if let (Some(met), Some(slot)) = (self.met, work.slot) {
            if let Some((number, key)) = key_in(slot, met.area) {
                self.text.line(&Remark::Key(number, key));
            }
        }
    }

    /// The bytes that a write has filled with zeros, where fewer came than its area has.
    pub(crate) fn tell_filled(&mut self, line: &TraceLine) {
        let Some(command) = line.command() else {
            return;
        };
        if let Some(filled) = self.passed.filled(command, self.met) {
            self.text.line(&Remark::Filled(filled));
        }
    }

    /// What a command that is over leaves for a write.
    pub(crate) fn leaves(&mut self, line: &TraceLine, skips: bool, seen: &Seen) {
        let Some(work) = &seen.work else {
            return;
        };
        self.leave = Leave::Nothing;
        if let Some(credit) = work.registers.credit {
            self.text.line(&Remark::Credit(CreditUse::Leaves, credit));
            self.keep_room(credit, seen);
            return;
        }
        if skips {
            self.leaves_no_credit(line);
        }
    }

    // That a search leaves no credit which was satisfied, since it compared too few bytes.
    fn leaves_no_credit(&mut self, line: &TraceLine) {
        let (Some(command), Some(met)) = (line.command(), self.met) else {
            return;
        };
        if let Some(missed) = credit_of_search(command, Some(met.area)) {
            let compared = Compared {
                count: self.passed.count,
                of: compared_size(command, met),
            };
            self.leave = Leave::TooFew(missed, compared);
            self.text.line(&Remark::NoCredit(compared));
        }
    }

    // Keeps what is left of the track behind the record of a credit, where that is seen.
    fn keep_room(&mut self, credit: Credit, seen: &Seen) {
        let (Some(number), Some(work), Some(drive)) = (
            record_of_credit(credit),
            &seen.work,
            seen.drive,
        ) else {
            return;
        };
        let Some(slot) = work.slot else {
            return;
        };
        if let Some(room) = room_behind(slot, number, drive.model) {
            self.leave = Leave::Room(room);
        }
    }

    /// A credit that is gone as the command of a word begins behind which the program goes on.
    pub(crate) fn tell_used_credit(&mut self, seen: &Seen) {
        let Some(ccw) = seen.storage.last else {
            return;
        };
        let becomes = if is_credited(ccw.code) {
            CreditUse::Uses
        } else {
            CreditUse::TakesAway
        };
        self.tell_gone(ccw, becomes);
    }

    /// A credit that is gone by a command that ends its program as it begins.
    pub(crate) fn tell_lost_credit(&mut self, ccw: Ccw) {
        self.tell_gone(ccw, CreditUse::TakesAway);
    }

    fn tell_gone(&mut self, ccw: Ccw, becomes: CreditUse) {
        let Some(before) = self.registers else {
            return;
        };
        let Some(credit) = before.credit else {
            return;
        };
        if !ccw.is_transfer() {
            self.text.line(&Remark::Credit(becomes, credit));
        }
    }
}

// Whether the command of a code needs a credit.
fn is_credited(code: u8) -> bool {
    matches!(code, 0x15 | 0x1D | 0x05 | 0x0D)
}

// The record behind which a credit lets another be made, if it is a record's.
fn record_of_credit(credit: Credit) -> Option<usize> {
    match credit {
        Credit::EqualHomeAddress | Credit::WroteHomeAddress => None,
        Credit::EqualId(number) | Credit::EqualKey(number) | Credit::WroteRecord(number) => {
            Some(number)
        }
    }
}

// How many bytes a search that lets a write follow compares in all, where that is known.
fn compared_size(command: Command, met: Met) -> Option<u32> {
    match command {
        Command::SearchHomeAddressEqual => Some(4),
        Command::SearchIdEqual => Some(5),
        Command::SearchKeyEqual => Some(key_length(&met.count?) as u32),
        _ => None,
    }
}
