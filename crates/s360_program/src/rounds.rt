//! A search that fails, and a transfer in channel behind it that leads back to it: while records pass by, the program goes round, and
//! nothing changes but where the track stands (Principles of Operation, Input/Output Operations: 'Transfer in Channel').

ghost use Rattle.std.specs.Prelude.{◌≡◌, ◌≤◌, ◌+◌, ◌<◌, ◌^◌, length, take, drop, IfSome};
ghost use Rattle.s360_program.specs.Place.{place_of};
ghost use Rattle.s360_program.specs.Steps.{Fits, GoesRound};
ghost use Rattle.s360_laws.specs.Rounds.{LeadsBack};

use crate::place::{Fetched, Place};
use crate::run::{Comes, Run};
use ckd_drive::Drive;
use ckd_image::ImageStore;
use ckd_position::{Area, Position};
use s360_storage::MainStorage;
use s360_words::Ccw;

// The word of a search at this place, if a transfer in channel behind it leads back to it.
fn leads_back<M: MainStorage>(place: &Place, storage: &M) -> Option<Ccw>
    ensures { IfSome result (LeadsBack (M.holds storage.now) (place_of place.now)) }
{
    let Fetched::GoodCcw(ccw) = place.fetch(storage, true) else {
        return None;
    };
    if !ccw.chains_command() || ccw.chains_data() || ccw.interrupts() || place.residual != 0 {
        return None;
    }
    let mut behind = *place;
    behind.go_by(ccw);
    let Fetched::TransferTo(address) = behind.fetch(storage, true) else {
        return None;
    };
    if address != place.next || place.last != behind.next || place.may_transfer {
        return None;
    }
    let end = ccw.address as usize + usize::from(ccw.count);
    if end > storage.size() as usize {
        return None;
    }
    Some(ccw)
}

impl Run {
    /// Goes round as often as the search of the next word fails at once, and as so many units allow, where that word was reached by
    /// a transfer in channel behind it. Answers how many units that were.
    #[inline(always)]
    pub(crate) fn pass_rounds<S: ImageStore, M: MainStorage>(
        &self,
        most: u32,
        storage: &M,
        drive: &mut Drive<S>,
    ) -> u32
        requires fits { Fits self.now drive.old }
        requires stage { self.now.comes ≡ Comes.NextCommand }
        ensures { GoesRound self.now (M.holds storage.now) most result drive.old drive.new }
    {
        // asked first, since few words are reached so
        if self.place.may_transfer || self.place.last != self.place.next + 8 {
            return 0;
        }
        // most searches that fail once fail at the first record of the track, and find theirs behind it
        match drive.registers().position {
            Position::At(Area::Of(_, i)) if i > 0 => self.go_round(most, storage, drive),
            _ => 0,
        }
    }

    // The same, where the last word stood behind the next one.
    #[inline(never)]
    fn go_round<S: ImageStore, M: MainStorage>(
        &self,
        most: u32,
        storage: &M,
        drive: &mut Drive<S>,
    ) -> u32
        requires fits { Fits self.now drive.old }
        requires stage { self.now.comes ≡ Comes.NextCommand }
        ensures { GoesRound self.now (M.holds storage.now) most result drive.old drive.new }
    {
        let Some(ccw) = leads_back(&self.place, storage) else {
            return 0;
        };
        let wanted = storage.bytes_from(ccw.address, usize::from(ccw.count));
        let round = u32::from(ccw.count) + 3;
        drive.pass_by(ccw.code, wanted, most / round) * round
    }
}
