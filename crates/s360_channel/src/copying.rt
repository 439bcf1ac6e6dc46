//! A channel is copied in memory, also in the middle of a program.

ghost use Rattle.std.specs.Prelude.{◌≡◌, IfOk};

use crate::channel::Channel;
use crate::selector::Selector;
use crate::subchannel::Subchannel;
use ckd_image::CopyStore;
use std::alloc::{AllocError, Global};

impl<S: CopyStore> Selector<S> {
    /// A second selector that is as this one is: number and size, what its subchannel does, and copies of its drives with their
    /// volumes, in their order. It may be called at any time, also while a program runs. The two stand for the same machines; so
    /// whatever is called of both from then on, over storages with the same bytes and keys, is answered alike, as long as their
    /// stores fail alike. No call of one changes the other. It takes as much memory as the drives and their volumes have, and makes
    /// no call of a store but to copy it.
    ///
    /// # Errors
    ///
    /// There is no such memory. This selector stays in any case, and what was copied is let go.
    pub fn copy(&self, alloc: Global) -> Result<Selector<S>, AllocError>
        ensures { IfOk result (λ copy. copy ≡ self.now) }
    {
        Ok(Selector {
            number: self.number,
            size: self.size,
            subchannel: self.subchannel.copy(),
            drives: self.drives.copy(alloc)?,
        })
    }
}

impl<S: CopyStore> Channel<S> {
    /// A second channel that is as this one is, with its storage and its drives with their volumes: see
    /// [`Selector::copy`](Selector::copy). The two stand for the same machines.
    ///
    /// # Errors
    ///
    /// There is no such memory. This channel stays in any case, and what was copied is let go.
    pub fn copy(&self, alloc: Global) -> Result<Channel<S>, AllocError>
        ensures { IfOk result (λ copy. copy ≡ self.now) }
    {
        Ok(Channel {
            selector: self.selector.copy(alloc)?,
            storage: self.storage.copy(alloc)?,
        })
    }
}

impl Subchannel {
    // The same once more. It takes no memory.
    fn copy(&self) -> Subchannel
        ensures { result ≡ self.now }
    {
        match self {
            Subchannel::Idle => Subchannel::Idle,
            Subchannel::Working(place, running) => Subchannel::Working(*place, running.copy()),
            Subchannel::Pending(device, csw) => Subchannel::Pending(*device, *csw),
        }
    }
}
