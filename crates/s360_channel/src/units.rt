//! Units of the program that runs.

ghost use Rattle.std.specs.Prelude.{◌≡◌, ◌*◌, ◌≤◌, length};
ghost use Rattle.s360_storage.specs.Kept.{KeepsStorage};
ghost use Rattle.s360_laws.specs.Events as machine;
ghost use Rattle.s360_laws.specs.Machine.{Machine};
ghost use Rattle.s360_channel.specs.Channel.{StandsFor};
ghost use Rattle.s360_channel.specs.Calls.{Does, CallsAtMost};
ghost use Rattle.s360_channel.specs.Selector.{KeepsSelector, over};
ghost use Rattle.s360_channel.specs.Views.{subchannel_seen};

use crate::ending::end_program;
use crate::selector::Selector;
use crate::subchannel::Subchannel;
use crate::view::RunOn;
use ckd_image::ImageStore;
use s360_storage::MainStorage;

impl<S: ImageStore> Selector<S> {
    /// Lets the program that runs do so many units, over this storage, as `Channel::step`.
    pub fn step<M: MainStorage>(&mut self, storage: &mut M, units: u16) -> u16
        requires size { length (M.holds storage.old).bytes ≡ self.old.size }
        ensures does { (m : Machine) → StandsFor (over self.old (M.holds storage.old)) m
            → Does (machine.StepBy units) m (machine.Stepped result) (over self.old (M.holds storage.old)) (over self.new (M.holds storage.new)) }
        ensures most { result ≤ units }
        ensures calls { CallsAtMost (2 * result) (over self.old (M.holds storage.old)) (over self.new (M.holds storage.new)) }
        ensures same { KeepsSelector self.old self.new }
        ensures keeps { KeepsStorage (M.holds storage.old) (M.holds storage.new) }
        ensures place { M.place storage.new ≡ M.place storage.old }
    {
        self.advance(storage, u32::from(units)) as u16
    }

    /// Lets the program that runs do units until it ends, so many at most, over this storage, as `Channel::run_on`.
    pub fn run_on<M: MainStorage>(&mut self, storage: &mut M, units: u32) -> RunOn
        requires size { length (M.holds storage.old).bytes ≡ self.old.size }
        ensures does { (m : Machine) → StandsFor (over self.old (M.holds storage.old)) m
            → Does (machine.StepBy units) m (machine.Stepped result.units) (over self.old (M.holds storage.old)) (over self.new (M.holds storage.new)) }
        ensures behind { (m : Machine) → StandsFor (over self.new (M.holds storage.new)) m
            → result.subchannel ≡ subchannel_seen m m.subchannel }
        ensures most { result.units ≤ units }
        ensures calls { CallsAtMost (2 * result.units) (over self.old (M.holds storage.old)) (over self.new (M.holds storage.new)) }
        ensures same { KeepsSelector self.old self.new }
        ensures keeps { KeepsStorage (M.holds storage.old) (M.holds storage.new) }
        ensures place { M.place storage.new ≡ M.place storage.old }
    {
        let units = self.advance(storage, units);
        RunOn {
            units,
            subchannel: self.subchannel_shown(),
        }
    }

    // A step of so many units.
    fn advance<M: MainStorage>(&mut self, storage: &mut M, units: u32) -> u32
        requires size { length (M.holds storage.old).bytes ≡ self.old.size }
        ensures does { (m : Machine) → StandsFor (over self.old (M.holds storage.old)) m
            → Does (machine.StepBy units) m (machine.Stepped result) (over self.old (M.holds storage.old)) (over self.new (M.holds storage.new)) }
        ensures most { result ≤ units }
        ensures calls { CallsAtMost (2 * result) (over self.old (M.holds storage.old)) (over self.new (M.holds storage.new)) }
        ensures same { KeepsSelector self.old self.new }
        ensures keeps { KeepsStorage (M.holds storage.old) (M.holds storage.new) }
        ensures place { M.place storage.new ≡ M.place storage.old }
    {
        self.is_over(storage);
        let Subchannel::Working(place, running) = &mut self.subchannel else {
            return 0;
        };
        let place = *place;
        let advance = self.drives.advance(place, running, units, storage);
        if let Some((csw, motion)) = advance.ending {
            end_program(place, csw, motion, &mut self.subchannel, &mut self.drives);
        }
        advance.done
    }
}
