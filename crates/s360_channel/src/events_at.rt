//! Any event at a channel.

ghost use Rattle.std.specs.Prelude.{◌≡◌, ◌≤◌, length, option_map};
ghost use Rattle.s360_laws.specs.Events as machine;
ghost use Rattle.s360_laws.specs.Machine.{Machine};
ghost use Rattle.s360_laws.specs.Seen.{event_seen, answer_seen};
ghost use Rattle.s360_laws.specs.Answered.{IsAnswered};
ghost use Rattle.s360_channel.specs.Channel.{StandsFor};
ghost use Rattle.s360_channel.specs.Calls.{CallsAtMost, Does, DoesQuietly, most_calls};

use crate::channel::Channel;
use arrayvec::ArrayVec;
use ckd_image::ImageStore;
use s360_laws::{Answer, Event, ShowCount};

impl<S: ImageStore> Channel<S> {
    /// Does what an event asks, and answers it. It takes no memory, and calls a store at most twice for each unit of a step or run, and
    /// once at Halt I/O and at a reset.
    pub fn react(&mut self, event: &Event) -> Answer
        ensures does { (m : Machine) → StandsFor self.old m
            → Does (event_seen event.now) m (answer_seen result) self.old self.new }
        ensures calls { CallsAtMost (most_calls (event_seen event.now) (answer_seen result)) self.old self.new }
        ensures answered { IsAnswered event.now result }
    {
        match event {
            Event::Sio(address) => Answer::Sio(*address, self.sio(*address)),
            Event::Tio(address) => Answer::Tio(*address, self.tio(*address)),
            Event::Hio(address) => Answer::Hio(*address, self.hio(*address)),
            Event::Tch => Answer::Tch(self.tch()),
            Event::Step(units) => Answer::Step(self.step(*units)),
            Event::Run(units) => Answer::Run(self.run_on(*units).units),
            Event::Arrive(address) => Answer::Arrive(*address, self.arrive(*address)),
            Event::Interrupt => Answer::Interrupt(self.interrupt()),
            Event::Reset => Answer::Reset(self.reset().unsaved),
            Event::Store(at, bytes) => Answer::Store(self.poke(*at, bytes.as_slice()).is_ok()),
            Event::Key(at, key) => Answer::Key(self.set_key(*at, key.get()).is_ok()),
            Event::Show(at, count) => Answer::Show(*at, self.shown(*at, *count)),
        }
    }

    // These bytes of storage, if they are within it.
    #[tactic(auto, using(crate::proofs::PartLengths::part_length))]
    fn shown(&self, at: u32, count: ShowCount) -> Option<ArrayVec<u8, 32>>
        ensures { (m : Machine) → StandsFor self.now m
            → DoesQuietly (machine.Show at count) m (machine.Shown (option_map (λ b. b.items) result)) self.now }
    {
        match self.peek(at, u32::from(count.get())) {
            Some(bytes) => Some(copied(bytes)),
            None => None,
        }
    }
}

// The same bytes again.
fn copied(bytes: &[u8]) -> ArrayVec<u8, 32>
    requires { length bytes.now ≤ 32 }
    ensures { result.items ≡ bytes.now }
{
    let mut again = ArrayVec::new();
    let copied = again.try_extend_from_slice(bytes);
    prove!(copied.is_ok());
    again
}
