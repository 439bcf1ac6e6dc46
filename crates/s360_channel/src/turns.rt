//! What happens beside the processor's instructions: units of the program that runs, arms that arrive, interruptions, resets.

ghost use Rattle.std.specs.Prelude.{◌≡◌, ◌*◌, ◌≤◌};
ghost use Rattle.s360_laws.specs.Events as machine;
ghost use Rattle.s360_laws.specs.Machine.{Machine};
ghost use Rattle.s360_channel.specs.Channel.{StandsFor};
ghost use Rattle.s360_channel.specs.Views.{subchannel_seen};
ghost use Rattle.s360_channel.specs.Calls.{DoesQuietly, Does, CallsNoStore, CallsAtMost};

use crate::channel::{Channel, Reset};
use crate::view::RunOn;
use ckd_image::ImageStore;
use s360_words::Csw;

impl<S: ImageStore> Channel<S> {
    /// Lets the program that runs do so many units, and answers how many it did: fewer where it ended, and none where none
    /// runs. A unit makes at most two calls of a store. Where one fails the program is over in that unit, its channel status
    /// word has unit check, and the drive's sense equipment check.
    pub fn step(&mut self, units: u16) -> u16
        ensures does { (m : Machine) → StandsFor self.old m
            → Does (machine.StepBy units) m (machine.Stepped result) self.old self.new }
        ensures most { result ≤ units }
        ensures calls { CallsAtMost (2 * result) self.old self.new }
    {
        self.selector.step(&mut self.storage, units)
    }

    /// Lets the program that runs do units until it ends, so many at most, as one step of this number does; and says what the
    /// subchannel does behind them.
    pub fn run_on(&mut self, units: u32) -> RunOn
        ensures does { (m : Machine) → StandsFor self.old m
            → Does (machine.StepBy units) m (machine.Stepped result.units) self.old self.new }
        ensures behind { (m : Machine) → StandsFor self.new m → result.subchannel ≡ subchannel_seen m m.subchannel }
        ensures most { result.units ≤ units }
        ensures calls { CallsAtMost (2 * result.units) self.old self.new }
    {
        self.selector.run_on(&mut self.storage, units)
    }

    /// The arm of the drive at an input/output address arrives, if it moves: then its device end is to be stored. It makes no
    /// call of a store.
    pub fn arrive(&mut self, address: u16) -> bool
        ensures does { (m : Machine) → StandsFor self.old m
            → DoesQuietly (machine.Arrive address) m (machine.HasArrived result) self.new }
        ensures calls { CallsNoStore self.old self.new }
    {
        self.selector.arrive(address)
    }

    /// The processor takes an interruption: the address that interrupts, and the channel status word that is stored. While a
    /// program runs it is the one that a word of it asked for. Otherwise the channel status word that pends comes first, then the
    /// device end of the lowest address whose arm has arrived. It makes no call of a store ('Input/Output Interruptions',
    /// 'Program-Controlled Interruption').
    pub fn interrupt(&mut self) -> Option<(u16, Csw)>
        ensures does { (m : Machine) → StandsFor self.old m
            → DoesQuietly machine.Interrupt m (machine.Interrupted result) self.new }
        ensures calls { CallsNoStore self.old self.new }
    {
        self.selector.interrupt(&mut self.storage)
    }

    /// Resets the channel and its drives: a program that runs is cut, what pends is lost, arms are at rest, sense bytes are
    /// zero. It makes at most one call of a store, which saves a track that was written.
    pub fn reset(&mut self) -> Reset
        ensures does { (m : Machine) → StandsFor self.old m
            → Does machine.Reset m (machine.WasReset result.unsaved) self.old self.new }
        ensures calls { CallsAtMost 1 self.old self.new }
    {
        self.selector.reset()
    }
}
