//! Channels between two programs are saved as a value, and put back.

ghost use Rattle.std.specs.Prelude.{◌≡◌, None, length, OnErr, OnOk, IfErr, IfSome};
ghost use Rattle.s360_channels.specs.Saves.{AllShow, AllStandBack, all_back, all_saved, back_at, saved_at, why_not_all, why_not_at};

use crate::faults::SavedFault;
use crate::selectors::Selectors;
use ckd_image::ImageStore;
use s360_channel::{SavedChannel, Selector};

impl<S: ImageStore> Selectors<S> {
    /// All of the channels between two programs, by their numbers, beside main storage and the volumes; none while a program runs.
    pub fn saved(&self) -> Option<[Option<SavedChannel>; 7]>
        ensures saved { result ≡ all_saved self.now.channels }
        ensures shows { IfSome result (λ saved. AllShow saved self.now.channels) }
    {
        self.all_saved()
    }

    // The same, as it is kept.
    fn all_saved(&self) -> Option<[Option<SavedChannel>; 7]>
        ensures { result ≡ all_saved self.now.channels }
    {
        let [zero, one, two, three, four, five, six] = &self.list;
        Some([
            saved_at(zero)?,
            saved_at(one)?,
            saved_at(two)?,
            saved_at(three)?,
            saved_at(four)?,
            saved_at(five)?,
            saved_at(six)?,
        ])
    }

    /// Puts all channels back as they were saved, or none: of each its subchannel, and of its drives the arms, cylinders, heads and
    /// sense bytes. Volumes stay. It makes no call of a store and takes no memory.
    ///
    /// # Errors
    ///
    /// `OtherChannels`, and what a channel refuses; nothing has changed.
    pub fn restore(&mut self, saved: &[Option<SavedChannel>; 7]) -> Result<(), SavedFault>
        ensures restored { OnOk result (self.new ≡ record self.old { channels = all_back saved.now self.old.channels }) }
        ensures stand { OnOk result (AllStandBack saved.now self.old.channels self.new.channels) }
        ensures allowed { OnOk result (why_not_all saved.now self.old.channels ≡ None) }
        ensures refused { IfErr result (λ e. why_not_all saved.now self.old.channels ≡ Some e) }
        ensures stays { OnErr result (self.new ≡ self.old) }
    {
        match why_not_all(saved, &self.list) {
            Some(fault) => return Err(fault),
            None => {}
        }
        put_back(saved, &mut self.list);
        self.quiet = false;
        Ok(())
    }
}

// What is saved of a number's channel, if there is one.
fn saved_at<S: ImageStore>(selector: &Option<Selector<S>>) -> Option<Option<SavedChannel>>
    ensures { result ≡ saved_at selector.now }
{
    match selector {
        Some(selector) => Some(Some(selector.saved()?)),
        None => Some(None),
    }
}

// The first reason why channels are not put back.
fn why_not_all<S: ImageStore>(
    saved: &[Option<SavedChannel>],
    list: &[Option<Selector<S>>],
) -> Option<SavedFault>
    ensures { result ≡ why_not_all saved.now list.now }
{
    let [first, others @ ..] = saved else {
        return None;
    };
    let [selector, behind @ ..] = list else {
        return None;
    };
    match why_not_at(first, selector) {
        Some(why) => Some(why),
        None => why_not_all(others, behind),
    }
}

// Why a number's channel is not put back.
fn why_not_at<S: ImageStore>(
    saved: &Option<SavedChannel>,
    selector: &Option<Selector<S>>,
) -> Option<SavedFault>
    ensures { result ≡ why_not_at saved.now selector.now }
{
    match (saved, selector) {
        (None, None) => None,
        (Some(saved), Some(selector)) => match selector.why_not_back(saved) {
            Some(why) => Some(SavedFault::Refused(why)),
            None => None,
        },
        _ => Some(SavedFault::OtherChannels),
    }
}

// All are as they were saved.
fn put_back<S: ImageStore>(saved: &[Option<SavedChannel>; 7], list: &mut [Option<Selector<S>>; 7])
    requires { why_not_all saved.now list.old ≡ None }
    ensures { list.new ≡ all_back saved.now list.old }
{
    for place in 0..7 {
        put_back_at(&saved[place], &mut list[place]);
    }
}

// A number's channel is as it was saved.
fn put_back_at<S: ImageStore>(saved: &Option<SavedChannel>, selector: &mut Option<Selector<S>>)
    requires { why_not_at saved.now selector.old ≡ None }
    ensures { selector.new ≡ back_at saved.now selector.old }
{
    if let (Some(saved), Some(selector)) = (saved, selector) {
        selector.put_back(saved);
    }
}
