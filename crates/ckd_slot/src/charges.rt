//! What the records of the track at hand leave of the capacity.

ghost use Rattle.std.specs.Prelude.{◌≡◌, ◌≤◌, List, Some, length, take};
ghost use Rattle.ckd_track.specs.Track.{Record, key_length, data_length};
ghost use Rattle.ckd_track.specs.Model.{capacity_of};
ghost use Rattle.ckd_track.specs.Charges.{capacity_left, has_room};
ghost use Rattle.ckd_slot.specs.Buffer.{IsCharged};

use ckd_track::{DriveModel, TrackView, capacity_behind, fits_behind, lengths};

/// What the first records of a track, so many of them, leave of a model's capacity, where others follow them; `None` where
/// they take more.
#[derive(Clone, Copy)]
pub(crate) struct Charged {
    pub(crate) model: DriveModel,
    pub(crate) records: usize,
    pub(crate) left: Option<u32>,
}

impl Charged {
    /// Of no record.
    pub(crate) fn none(model: DriveModel) -> Charged
        ensures { result ≡ record { model = model; records = 0; left = Some (capacity_of model) } }
    {
        Charged {
            model,
            records: 0,
            left: Some(model.capacity()),
        }
    }

    /// Begins anew where it is that of more records, which then may be others.
    pub(crate) fn keep(&mut self, records: usize)
        ensures within { self.new.records ≤ records }
        ensures model { self.new.model ≡ self.old.model }
        ensures stays { self.old.records ≤ records → self.new ≡ self.old }
        ensures kept { (old new : List Record) → take records new ≡ take records old → IsCharged old self.old
            → IsCharged new self.new }
    {
        if self.records > records {
            *self = Charged::none(self.model);
        }
    }

    // Begins anew where it is that of another model.
    fn turn_to(&mut self, model: DriveModel)
        ensures model { self.new.model ≡ model }
        ensures kept { (rs : List Record) → IsCharged rs self.old → IsCharged rs self.new }
    {
        if self.model != model {
            *self = Charged::none(model);
        }
    }

    // Goes on to so many records of the track, mostly from those before the last of them.
    fn reach(&mut self, model: DriveModel, view: &TrackView, records: usize)
        requires charged { IsCharged view.now.records self.old }
        requires there { records ≤ length view.now.records }
        ensures { self.new ≡ record {
          model = model;
          records = records;
          left = capacity_left model (take records view.now.records);
        } }
    {
        self.turn_to(model);
        self.keep(records);
        self.left = capacity_behind(model, view, self.left, self.records, records);
        self.records = records;
    }

    /// Whether a new record with these count bytes fits behind the first records of the track, so many of them.
    ///
    /// What these take is kept from one such question to the next, so that records that are formatted one behind another are
    /// each counted once.
    pub(crate) fn fits(
        &mut self,
        model: DriveModel,
        view: &TrackView,
        records: usize,
        count: &[u8; 8],
    ) -> bool
        requires charged { IsCharged view.now.records self.old }
        requires there { records ≤ length view.now.records }
        ensures fits { result ≡ has_room model (take records view.now.records) (key_length count.now)
            (data_length count.now) }
        ensures reached { self.new ≡ record {
          model = model;
          records = records;
          left = capacity_left model (take records view.now.records);
        } }
    {
        self.reach(model, view, records);
        let (kl, dl) = lengths(count);
        fits_behind(model, records, self.left, kl, dl)
    }
}
