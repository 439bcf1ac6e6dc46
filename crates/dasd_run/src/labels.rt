//! The format of a volume with a label.

ghost use Rattle.std.specs.Prelude.{◌≡◌};
ghost use Rattle.dasd_run.specs.Ended.{KeepsFiles};
ghost use Rattle.dasd_run.specs.Labels.{FormatsWithLabel};

use crate::commands::Ending;
use crate::host::Host;
use changed_volumes::{LabelledVolume, format_labelled};
use dasd_jobs::{Progress, Traces};
use dasd_words::NewImage;
use new_labels::NewLabel;
use program_faults::ProgramFault;
use std::io::{Read, Write};

/// Writes a new image with a label and an empty table of contents.
pub(crate) fn format_with_label<F: Traces, R: Read, W: Write, P: Progress>(
    host: &mut Host<F, R, W, P>,
    image: &NewImage,
    label: NewLabel,
) -> Result<Ending, ProgramFault>
    ensures keeps { KeepsFiles result host.old host.new }
    ensures formats { FormatsWithLabel result image.now label host.old host.new }
    ensures unread { host.new.read ≡ host.old.read }
{
    let volume = LabelledVolume {
        path: image.path,
        model: image.model,
        cylinders: image.cylinders,
        replaces: image.replaces,
        label,
    };
    format_labelled(
        host.alloc,
        &mut host.files,
        &mut host.writer,
        &mut host.progress,
        &volume,
    )?;
    Ok(Ending::Done)
}
