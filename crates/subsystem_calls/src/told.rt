//! A moment at which a trace looks, as its caller tells it.

ghost use Rattle.std.specs.Prelude.{◌≡◌};
ghost use Rattle.subsystem_calls.specs.Looks.{is_moment};

/// A moment, by numbers: what happens at which channel, and what was answered.
#[repr(C)]
#[derive(Clone, Copy)]
pub struct ToldMoment {
    /// 0: Start I/O is about to be called. 1: the channel's program has done a unit. Behind a call that was answered: 2 Start I/O, 3 Test
    /// I/O, 4 Halt I/O, 5 Test Channel, 6 a step, 7 a run, 8 an arrival, 9 an interruption, 10 a reset. 11: the trace ends.
    pub what: u8,
    /// The number of the channel that is looked at.
    pub channel: u8,
    /// The address of a call that has one.
    pub address: u16,
    /// The condition code; how many units were done; 1 for an arm that arrived, an interruption that was taken, a track that is lost, and
    /// else 0.
    pub answer: u32,
    /// Where the track is that is lost.
    pub cylinder: u16,
    /// Its head.
    pub head: u16,
}

impl ToldMoment {
    /// Whether there is such a moment, and such an answer.
    pub(crate) fn is_moment(&self) -> bool
        ensures { result ≡ is_moment self.now }
    {
        let answer = self.answer;
        if self.what < 2 || self.what == 7 || self.what == 11 {
            return true;
        }
        if self.what < 6 {
            return answer < 4;
        }
        if self.what == 6 {
            return answer < 65_536;
        }
        self.what < 11 && answer < 2
    }
}
