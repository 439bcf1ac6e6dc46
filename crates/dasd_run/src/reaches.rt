//! How a command ends over a volume that may lack tracks.

ghost use Rattle.std.specs.Prelude.{◌≡◌};
ghost use Rattle.dasd_run.specs.Reaches.{with_reach};

use crate::commands::{Ending, worse};
use dasd_jobs::Reach;
use program_faults::ProgramFault;

/// How a command ends that ended so over a volume whose files go so far: there are findings where they lack tracks.
pub(crate) fn with_reach(
    reach: Reach,
    ended: Result<Ending, ProgramFault>,
) -> Result<Ending, ProgramFault>
    ensures { result ≡ with_reach reach ended }
{
    let ending = ended?;
    Ok(worse(ending, reach.lacking > 0))
}
