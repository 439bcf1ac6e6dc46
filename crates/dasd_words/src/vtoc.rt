//! The words of `dasd vtoc`.

ghost use Rattle.std.specs.Prelude.{◌≡◌, true};
ghost use Rattle.dasd_words.specs.InPacks.{lists};

use crate::listings::PATHS;
use crate::options::{AS_FAR, ArgKind, ArgRow, CommandRow, JSON};
use crate::requests::{DetailedVolume, PrintedVolume, Request};
use clap::ArgMatches;

/// The option for the members of a volume.
pub(crate) const MEMBERS: ArgRow = ArgRow {
    id: "members",
    help: "prints the members of each partitioned data set too, after the table",
    kind: ArgKind::Flag,
};

/// The option for more of each data set.
pub(crate) const LONG: ArgRow = ArgRow {
    id: "long",
    help: "prints more of each data set, after the table: its extents, volumes, keys and password",
    kind: ArgKind::Flag,
};

/// The command, with its words.
pub(crate) static COMMAND: CommandRow = CommandRow {
    name: "vtoc",
    about: "Prints the label of a volume, its data sets, and what is wrong with them",
    usage: None,
    after_help: "Example: dasd vtoc pack.ckd",
    args: &[PATHS, MEMBERS, LONG, AS_FAR, JSON],
};

/// What it is asked of this volume.
pub(crate) fn read<'a>(options: &ArgMatches<'a>, volume: PrintedVolume<'a>) -> Request<'a>
    ensures { lists result ≡ true }
{
    let members = options.get_flag("members");
    let is_long = options.get_flag("long");
    if members || is_long {
        return Request::ListDetails(DetailedVolume {
            volume,
            members,
            is_long,
        });
    }
    Request::ListContents(volume)
}
