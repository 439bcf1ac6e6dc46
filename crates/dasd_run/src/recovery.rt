//! Saves that were cut off.

ghost use Rattle.dasd_run.specs.Ended.{KeepsFiles};
ghost use Rattle.dasd_run.specs.Recovered.{Recovers};

use crate::commands::Ending;
use crate::host::Host;
use dasd_jobs::{Journals, Progress, recover_files};
use dasd_words::RecoveredFiles;
use program_faults::ProgramFault;
use std::io::{Read, Write};

/// Completes the saves of these files, or drops their journals. It prints nothing; what is done is told beside that.
pub(crate) fn recover<F: Journals, R: Read, W: Write, P: Progress>(
    host: &mut Host<F, R, W, P>,
    asked: &RecoveredFiles,
) -> Result<Ending, ProgramFault>
    ensures keeps { KeepsFiles result host.old host.new }
    ensures recovers { Recovers result host.old host.new }
{
    recover_files(&mut host.files, asked.paths.as_slice(), asked.drops)?;
    Ok(Ending::Done)
}
