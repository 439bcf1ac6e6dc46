//! How far a long job has come.

ghost use Rattle.std.specs.Prelude.{◌≡◌, Bool, false, Some};
ghost use Rattle.dasd_volumes.specs.Sizes.{takes_long};
ghost use Rattle.dasd_volumes.specs.Stages.{stage_text};

use ckd_track::Geometry;
use std::fmt;

/// A volume of at most so many bytes is done at once, and nothing is shown of it.
const SMALL_VOLUME: u64 = 4_194_304;

/// What a job over a large volume is about.
#[derive(Clone, Copy)]
pub enum Stage {
    /// A new volume of so many cylinders is made.
    Formatting(u16),
    /// The image of a volume of so many cylinders is written.
    Writing(u16),
    /// A cylinder of so many is checked; the first has the number 1.
    Checking(u16, u16),
}

impl fmt::Display for Stage {
    ghost output = { λ s. Some (stage_text s) };

    fn fmt<W: fmt::Write>(&self, f: &mut fmt::Formatter<W>) -> fmt::Result {
        match self {
            Stage::Formatting(cylinders) => write!(f, "formatting {cylinders} cylinders"),
            Stage::Writing(cylinders) => write!(f, "writing {cylinders} cylinders"),
            Stage::Checking(cylinder, cylinders) => {
                write!(f, "checking cylinder {cylinder} of {cylinders}")
            }
        }
    }
}

/// A line that shows what a job is about while it goes on, beside what it prints.
pub trait Progress {
    // whether the line shows something
    ghost is_shown: { Self → Bool } = { λ _. false };

    /// The line shows this from now on.
    fn show(&mut self, stage: Stage);

    /// The line shows nothing from now on.
    fn clear(&mut self)
        ensures { is_shown self.new ≡ false };
}

/// Whether a job over the tracks of a volume takes long enough to be shown: their slots are more than 4 MiB.
pub fn is_large(geometry: Geometry) -> bool
    ensures { result ≡ takes_long geometry }
{
    geometry.tracks() as u64 * geometry.track_size as u64 > SMALL_VOLUME
}
