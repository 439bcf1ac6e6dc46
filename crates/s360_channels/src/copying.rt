//! Several channels are copied in memory, also in the middle of their programs.

ghost use Rattle.std.specs.Prelude.{◌≡◌, IfOk};

use crate::selectors::Selectors;
use ckd_image::CopyStore;
use s360_channel::Selector;
use std::alloc::{AllocError, Global};

impl<S: CopyStore> Selectors<S> {
    /// Second channels that are as these are, each with copies of its drives and their volumes: see
    /// [`Selector::copy`](s360_channel::Selector::copy).
    ///
    /// # Errors
    ///
    /// There is no memory for them. These channels stay in any case, and what was copied is let go.
    pub fn copy(&self, alloc: Global) -> Result<Selectors<S>, AllocError>
        ensures { IfOk result (λ copy. copy ≡ self.now) }
    {
        Ok(Selectors {
            size: self.size,
            list: copy_list(alloc, &self.list)?,
            quiet: self.quiet,
        })
    }
}

// A copy of each channel, at its place.
fn copy_list<S: CopyStore>(
    alloc: Global,
    list: &[Option<Selector<S>>; 7],
) -> Result<[Option<Selector<S>>; 7], AllocError>
    ensures { IfOk result (λ copies. copies ≡ list.now) }
{
    let [zero, one, two, three, four, five, six] = list;
    Ok([
        copy_selector(alloc, zero)?,
        copy_selector(alloc, one)?,
        copy_selector(alloc, two)?,
        copy_selector(alloc, three)?,
        copy_selector(alloc, four)?,
        copy_selector(alloc, five)?,
        copy_selector(alloc, six)?,
    ])
}

// A copy of the channel, if there is one.
fn copy_selector<S: CopyStore>(
    alloc: Global,
    selector: &Option<Selector<S>>,
) -> Result<Option<Selector<S>>, AllocError>
    ensures { IfOk result (λ copy. copy ≡ selector.now) }
{
    match selector {
        Some(selector) => Ok(Some(selector.copy(alloc)?)),
        None => Ok(None),
    }
}
