//! The words of a label: of `dasd format`, and of `dasd relabel`.

ghost use Rattle.std.specs.Prelude.{◌≡◌, ◌+◌, ◌*◌, IfSome};
ghost use Rattle.ckd_track.specs.Model.{heads_of};

use crate::commands::wrong;
use crate::options::not_taken;
use crate::requests::WordFault;
use ckd_track::DriveModel;
use clap::ArgMatches;
use new_labels::{NewLabel, owner_of, serial_of};
use std::alloc::Global;

/// A blank in EBCDIC.
const BLANK: u8 = 0x40;

/// Where the table of contents begins without the word for it: behind the track of the label.
const TABLE_START: &str = "0:1";

const SERIAL_RULE: &str = "1 to 6 letters A to Z, digits, #, @, $ and -";

const OWNER_RULE: &str = "at most 10 letters A to Z, digits, #, @, $, - and blanks";

const TRACKS_RULE: &str = "a number of tracks from 1 to 65535";

const START_RULE: &str = "a cylinder and a head of the drive, as 0:1";

const TOO_FAR: &str = "error: --vtoc-at takes one of the first 65536 tracks of a volume\n";

const ALONE: &str = "error: --owner, --vtoc and --vtoc-at go with --label\n";

/// What a label is to say; none is a volume without one.
pub(crate) fn read_label(
    alloc: Global,
    options: &ArgMatches,
    model: DriveModel,
) -> Result<Option<NewLabel>, WordFault> {
    let Some(serial) = read_serial(alloc, options)? else {
        return without_label(alloc, options);
    };
    let owner = read_owner(alloc, options)?.unwrap_or([BLANK; 10]);
    let start = options.get_str("vtoc-at").unwrap_or(TABLE_START);
    let Some((cylinder, head)) = read_start(start, model) else {
        return Err(not_taken(alloc, "vtoc-at", START_RULE, start));
    };
    let Some(first) = number_of(cylinder, head, model) else {
        return Err(wrong(alloc, TOO_FAR));
    };
    Ok(Some(NewLabel {
        serial,
        owner,
        first,
        tracks: read_tracks(alloc, options, model.heads().saturating_sub(head))?,
    }))
}

/// The serial number that is given, if one is.
pub(crate) fn read_serial(
    alloc: Global,
    options: &ArgMatches,
) -> Result<Option<[u8; 6]>, WordFault> {
    let Some(word) = options.get_str("label") else {
        return Ok(None);
    };
    match serial_of(word) {
        Some(serial) => Ok(Some(serial)),
        None => Err(not_taken(alloc, "label", SERIAL_RULE, word)),
    }
}

/// The owner's name that is given, if one is.
pub(crate) fn read_owner(
    alloc: Global,
    options: &ArgMatches,
) -> Result<Option<[u8; 10]>, WordFault> {
    let Some(word) = options.get_str("owner") else {
        return Ok(None);
    };
    match owner_of(word) {
        Some(owner) => Ok(Some(owner)),
        None => Err(not_taken(alloc, "owner", OWNER_RULE, word)),
    }
}

// The words that go with a label are not there without one.
fn without_label(alloc: Global, options: &ArgMatches) -> Result<Option<NewLabel>, WordFault> {
    for id in ["owner", "vtoc", "vtoc-at"] {
        if options.get_str(id).is_some() {
            return Err(wrong(alloc, ALONE));
        }
    }
    Ok(None)
}

// Cylinder and head of the table's first track, the head below those that the drive has.
fn read_start(word: &str, model: DriveModel) -> Option<(u16, u16)> {
    let (cylinder, head) = word.split_once(':')?;
    let cylinder = read_number(cylinder)?;
    let head = read_number(head)?;
    if head >= model.heads() {
        return None;
    }
    Some((cylinder, head))
}

/// Decimal digits alone.
pub(crate) fn read_number(digits: &str) -> Option<u16> {
    if !digits.bytes().all(|byte| byte.is_ascii_digit()) {
        return None;
    }
    digits.parse::<u16>().ok()
}

// The number of a track on its volume.
fn number_of(cylinder: u16, head: u16, model: DriveModel) -> Option<u16>
    ensures { IfSome result (λ n. n ≡ cylinder * heads_of model + head) }
{
    cylinder.checked_mul(model.heads())?.checked_add(head)
}

// How many tracks the table has: as many as are left of its first cylinder, where nothing is said.
fn read_tracks(alloc: Global, options: &ArgMatches, left: u16) -> Result<u16, WordFault> {
    let Some(word) = options.get_str("vtoc") else {
        return Ok(left);
    };
    match read_number(word) {
        Some(0) | None => Err(not_taken(alloc, "vtoc", TRACKS_RULE, word)),
        Some(tracks) => Ok(tracks),
    }
}
