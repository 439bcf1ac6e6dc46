//! Channels that are taken apart.

ghost use Rattle.std.specs.Prelude.{◌≡◌, map, option_map};
ghost use Rattle.s360_words.specs.Storage.{Storage as StorageState};
ghost use Rattle.s360_channel.specs.Selector.{over};
ghost use Rattle.s360_channels.specs.Ending.{Ends, FinishesAll, RemovesAt};
ghost use Rattle.s360_channels.specs.Selectors.{across};

use crate::selectors::Selectors;
use ckd_image::{Image, ImageStore};
use s360_channel::{Reset, Selector};

/// What a channel was made of, after its last reset.
#[derive(Drop)]
pub struct Removed<S: ImageStore> {
    /// The image of each drive with the low byte of its address, in the order of attachment.
    pub images: [Option<(u8, Image<S>)>; 8],
    /// What the last reset answered.
    pub reset: Reset,
}

impl<S: ImageStore> Selectors<S> {
    /// Resets the channel with this number, takes it away, and gives back the images of its drives; none where there is no such
    /// channel. It makes at most one call of a store, which saves a track that was written.
    pub fn remove(&mut self, number: u8) -> Option<Removed<S>>
        ensures does { (s : StorageState) → RemovesAt number (option_map (λ c. record { images = c.images; unsaved = c.reset.unsaved }) result)
            (across self.old s) (across self.new s) }
        ensures same { self.new.size ≡ self.old.size }
    {
        let Some(place) = self.place(number) else {
            return None;
        };
        let selector = self.list[place].take()?;
        Some(end(selector))
    }

    /// Resets each channel, in order of the channels' numbers, and gives back by their numbers what each was made of, as `remove`
    /// does. It makes at most one call of a store for each channel, which saves a track that was written.
    pub fn finish(mut self) -> [Option<Removed<S>>; 7]
        ensures { (s : StorageState) → FinishesAll (across self s) s (map
            (option_map (λ c. record { images = c.images; unsaved = c.reset.unsaved })) result) }
    {
        [
            self.remove(0),
            self.remove(1),
            self.remove(2),
            self.remove(3),
            self.remove(4),
            self.remove(5),
            self.remove(6),
        ]
    }
}

// A channel is reset, and taken apart. Whatever its storage is, it stays.
fn end<S: ImageStore>(mut selector: Selector<S>) -> Removed<S>
    ensures { (s : StorageState) → Ends (over selector s) (record { images = result.images; unsaved = result.reset.unsaved }) s }
{
    let reset = selector.reset();
    Removed {
        images: selector.into_images(),
        reset,
    }
}
