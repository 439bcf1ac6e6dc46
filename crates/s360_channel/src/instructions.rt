//! The processor's input/output instructions (Principles of Operation, Input/Output Operations).

ghost use Rattle.std.specs.Prelude.{◌≡◌};
ghost use Rattle.s360_laws.specs.Events as machine;
ghost use Rattle.s360_laws.specs.Machine.{Machine};
ghost use Rattle.s360_laws.specs.Seen.{condition_seen, status_seen, csw_seen, answer_seen};
ghost use Rattle.s360_laws.specs.declared.answers.Answer.TheVariants as answer;
ghost use Rattle.s360_channel.specs.Channel.{StandsFor};
ghost use Rattle.s360_channel.specs.Calls.{DoesQuietly, Does, CallsNoStore, CallsAtMost};

use crate::channel::Channel;
use ckd_image::ImageStore;
use s360_laws::{Condition, Status};
use s360_words::Csw;

impl<S: ImageStore> Channel<S> {
    /// Start I/O at an input/output address: 0, the program that the channel address word leads to was accepted and runs; 1, this
    /// unit status and channel status were stored; 2, the channel is busy; 3, there is no such device. It makes no call of a
    /// store ('Start I/O').
    pub fn sio(&mut self, address: u16) -> Condition<Status>
        ensures does { (m : Machine) → StandsFor self.old m
            → DoesQuietly (machine.Sio address) m (answer_seen (answer.Sio address result)) self.new }
        ensures calls { CallsNoStore self.old self.new }
    {
        self.selector.sio(&mut self.storage, address)
    }

    /// Test I/O at an input/output address: 0, the device is available; 1, this channel status word was stored; 2, the channel is
    /// busy; 3, there is no such device. It makes no call of a store ('Test I/O').
    pub fn tio(&mut self, address: u16) -> Condition<Csw>
        ensures does { (m : Machine) → StandsFor self.old m
            → DoesQuietly (machine.Tio address) m (answer_seen (answer.Tio address result)) self.new }
        ensures calls { CallsNoStore self.old self.new }
    {
        self.selector.tio(&mut self.storage, address)
    }

    /// Halt I/O at an input/output address: 0, a channel status word pends, and stays; 1, nothing ran, and a status of zeros
    /// was stored; 2, the program that ran is cut, and its channel status word pends; 3, there is no such device. It makes at
    /// most one call of a store, which saves a track that was written ('Halt I/O').
    pub fn hio(&mut self, address: u16) -> Condition<Status>
        ensures does { (m : Machine) → StandsFor self.old m
            → Does (machine.Hio address) m (answer_seen (answer.Hio address result)) self.old self.new }
        ensures calls { CallsAtMost 1 self.old self.new }
    {
        self.selector.hio(&mut self.storage, address)
    }

    /// Test Channel: 0, it is available; 1, a channel status word pends; 2, a program runs ('Test Channel').
    pub fn tch(&self) -> Condition<()>
        ensures { (m : Machine) → StandsFor self.now m
            → DoesQuietly machine.Tch m (answer_seen (answer.Tch result)) self.now }
    {
        self.selector.tch()
    }
}
