//! Where the channel is in a program, and how it fetches channel command words (Principles of Operation, Input/Output
//! Operations: 'Channel Command Word', 'Chaining', 'Transfer in Channel').

ghost use Rattle.std.specs.Prelude.{◌≡◌, ◌+◌, ◌≤◌, ◌^◌};
ghost use Rattle.s360_laws.specs.Places.{fetch, past_ccw, past_transfer, past_no_ccw, is_invalid};
ghost use Rattle.s360_laws.specs.Runs.{first_place};
ghost use Rattle.s360_program.specs.Place.{place_of, fetched_of, FetchedWithin, modified_place};

use bitflags::Flags;
use s360_storage::MainStorage;
use s360_words::{Ccw, UnitStatus};

/// The channel's place in a program.
#[derive(Clone, Copy)]
pub(crate) struct Place {
    /// Where the next word is.
    pub(crate) next: u32,
    /// Whether that may be a transfer in channel.
    pub(crate) may_transfer: bool,
    /// Where the last word was whose fetch was tried.
    pub(crate) last: u32,
    /// The count left in the last good word.
    pub(crate) residual: u16,
    /// Whether an interruption is asked for and not yet taken.
    pub(crate) interruption: bool,
}

/// What is found where a channel command word is fetched.
#[derive(Clone, Copy)]
pub(crate) enum Fetched {
    /// None that may stand there, which is a program check.
    NoCcw,
    /// A transfer in channel to this address.
    TransferTo(u32),
    /// A good one.
    GoodCcw(Ccw),
}

// What a word may not have that is no transfer in channel.
fn is_invalid(begins: bool, ccw: Ccw) -> bool
    ensures { result ≡ is_invalid begins ccw }
{
    ccw.count == 0 || ccw.has_reserved_flags() || begins && ccw.code % 16 == 0
}

impl Place {
    /// The place before the first word, which may be no transfer in channel.
    pub(crate) fn first(address: u32) -> Place
        ensures { place_of result ≡ first_place address }
    {
        Place {
            next: address,
            may_transfer: false,
            last: address,
            residual: 0,
            interruption: false,
        }
    }

    /// Fetches the next word, which begins a command or chains data.
    pub(crate) fn fetch<M: MainStorage>(&self, storage: &M, begins: bool) -> Fetched
        ensures fetched { fetched_of result ≡ fetch (M.holds storage.now) (place_of self.now) begins }
        ensures within { FetchedWithin (place_of self.now) (fetched_of result) }
    {
        let next = self.next;
        if next % 8 != 0 {
            return Fetched::NoCcw;
        }
        // No storage is greater than 2 to the 24.
        let _size = storage.size();
        let Some(ccw) = storage.ccw_at(next) else {
            return Fetched::NoCcw;
        };
        if ccw.is_transfer() {
            return if self.may_transfer {
                Fetched::TransferTo(ccw.address)
            } else {
                Fetched::NoCcw
            };
        }
        if is_invalid(begins, ccw) {
            return Fetched::NoCcw;
        }
        Fetched::GoodCcw(ccw)
    }

    /// Goes by a good word.
    pub(crate) fn go_by(&mut self, ccw: Ccw)
        requires { self.old.next + 8 ≤ 2 ^ 24 }
        ensures { place_of self.new ≡ past_ccw (place_of self.old) ccw }
    {
        self.last = self.next;
        self.next += 8;
        self.may_transfer = true;
        self.residual = ccw.count;
        if ccw.interrupts() {
            self.interruption = true;
        }
    }

    /// Goes to where a transfer in channel leads.
    pub(crate) fn transfer(&mut self, address: u32)
        ensures { place_of self.new ≡ past_transfer (place_of self.old) address }
    {
        self.last = self.next;
        self.next = address;
        self.may_transfer = false;
    }

    /// Stays where no word was found.
    pub(crate) fn miss(&mut self)
        ensures { place_of self.new ≡ past_no_ccw (place_of self.old) }
    {
        self.last = self.next;
    }

    /// Goes past the next word, where status modifier says so.
    pub(crate) fn modify(&mut self, unit: UnitStatus)
        requires { self.old.next ≤ 2 ^ 24 }
        ensures place { place_of self.new ≡ modified_place (place_of self.old) unit }
        ensures next { self.new.next ≤ 2 ^ 24 + 8 }
        ensures last { self.new.last ≡ self.old.last }
    {
        if unit.intersects(UnitStatus::STATUS_MODIFIER) {
            self.next += 8;
        }
    }
}
