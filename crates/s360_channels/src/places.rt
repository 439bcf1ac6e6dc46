//! A channel is found by its number.

ghost use Rattle.std.specs.Prelude.{◌≡◌, IfSome, None, nat_le, option_map, true};
ghost use Rattle.s360_channels.specs.Channels.{numbered};
ghost use Rattle.s360_channels.specs.Inside.{IsPlace};

use crate::selectors::Selectors;
use ckd_image::ImageStore;
use s360_channel::Selector;

impl<S: ImageStore> Selectors<S> {
    /// The place of the channel with this number in the list, if a channel may have it.
    #[inline(always)]
    pub(crate) fn place(&self, number: u8) -> Option<usize>
        ensures there { IfSome result (λ place. IsPlace number place) }
        ensures beyond { result ≡ None → nat_le 7 number ≡ true }
        ensures missing { result ≡ None → numbered number self.now.channels ≡ None }
    {
        // what is known of the list as soon as one of the fields is read
        let _size = self.size;
        let place = number as usize;
        if place >= self.list.len() {
            return None;
        }
        Some(place)
    }

    /// The channel with this number, lent, if there is one.
    #[inline(always)]
    pub(crate) fn selector(&self, number: u8) -> Option<&Selector<S>>
        ensures { option_map (λ c. c.now) result ≡ numbered number self.now.channels }
    {
        let place = self.place(number)?;
        self.list[place].as_ref()
    }
}
