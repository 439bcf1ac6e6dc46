//! A table of where the records of a slot stand.

ghost use Rattle.std.specs.Prelude.{◌≡◌, ◌≤◌, ◌<◌, ◌-◌, ◌/◌, ◌^◌, length, take, drop, Ok, IfOk};
ghost use Rattle.ckd_track.specs.Track.{track_of, number_of_records, offsets_of};

use crate::fault::SlotFault;
use crate::walk::{RECORDS_START, record_size_at};

/// Notes in the table at which offset of the slot each record's count area begins, in order, and answers how many
/// records there are. What stands in the table behind them stays.
///
/// Each record takes eight bytes or more behind the home address, so a table of an eighth of the slot's length is long
/// enough.
///
/// # Errors
///
/// Fails as [`read_slot`](crate::read_slot) does; the table then holds any numbers.
#[tactic(auto, using(crate::proofs::Reading::counting, crate::proofs::Reading::noting))]
pub fn index_slot(slot: &[u8], table: &mut [u32]) -> Result<usize, SlotFault>
    requires offsets_fit { length slot.now < 2 ^ 32 }
    requires room { (length slot.now - 5) / 8 ≤ length table.old }
    ensures number { result ≡ number_of_records (track_of slot.now) }
    ensures offsets { IfOk result (λ n. offsets_of slot.now ≡ Ok (take n table.new)) }
    ensures within { IfOk result (λ n. n ≤ length table.new) }
    ensures behind { IfOk result (λ n. drop n table.new ≡ drop n table.old) }
{
    if slot.len() < RECORDS_START {
        return Err(SlotFault::NoEnd(0));
    }
    let mut at = RECORDS_START;
    let mut records = 0;
    while let Some(size) = record_size_at(slot, at)? {
        table[records] = at as u32;
        at += size;
        records += 1;
    }
    Ok(records)
}
