//! What is told of a fault beside its one line.

use ckd_image::MountFault;
use dasd_jobs::JobFault;
use dasd_run::ProgramFault;
use dasd_words::{VOLUME_RULE, first_bad_volume, object_path, taken_address};
use file_places::Notes;
use host_files::Remarks;
use serde_json::Value;
use std::alloc::{AllocError, Global};
use std::fmt;
use std::io::Write;

/// The text of a fault where memory lacks.
const NO_MEMORY: &str = "out of memory";

/// Remarks what would be right in the place of what a fault refuses.
pub(crate) fn note_rule(alloc: Global, words: &[&str], remarks: &Remarks, fault: &ProgramFault) {
    match fault {
        ProgramFault::BadVolume => {
            if let Some(word) = first_bad_volume(alloc, words) {
                remarks.note(&NoVolume(word));
            }
        }
        ProgramFault::AddressTaken => {
            if let Some(device) = taken_address(alloc, words) {
                remarks.note(&Taken(device));
            }
        }
        _ => {}
    }
    if let Some(rule) = rule_of(fault) {
        remarks.note(&rule);
    }
}

/// Prints an object of JSON for a fault, with all that was remarked, where the words ask for objects. Where memory lacks it takes none.
pub(crate) fn write_fault<W: Write>(
    alloc: Global,
    words: &[&str],
    remarks: &Remarks,
    writer: &mut W,
    fault: &ProgramFault,
) {
    // no command was begun
    if fault.status() == 2 {
        return;
    }
    let Ok(text) = format!(in alloc; "{fault}") else {
        return;
    };
    if text.as_str() == NO_MEMORY {
        return;
    }
    if let Some(object) = object_of(alloc, words, remarks, text.as_str()) {
        let object = object.as_str();
        if writeln!(writer, "{object}").is_ok() {
            let _ = writer.flush();
        }
    }
}

/// Prints an object of JSON for what was remarked of a volume that was read as far as it goes, where the words ask for objects and something
/// was. Where memory lacks it takes none.
///
/// # Errors
///
/// A write failed, or the flush.
pub(crate) fn write_reach<W: Write>(
    alloc: Global,
    words: &[&str],
    remarks: &Remarks,
    writer: &mut W,
) -> Result<(), ProgramFault> {
    let Some(object) = reach_object(alloc, words, remarks) else {
        return Ok(());
    };
    let object = object.as_str();
    match writeln!(writer, "{object}").and_then(|()| writer.flush()) {
        Ok(()) => Ok(()),
        Err(_) => Err(ProgramFault::Job(JobFault::Write)),
    }
}

// The object of what was remarked.
fn reach_object(alloc: Global, words: &[&str], remarks: &Remarks) -> Option<String> {
    let path = object_path(alloc, words)?;
    let path = quoted(alloc, path.as_str()).ok()?;
    let listed = listed(alloc, remarks)?;
    if listed.is_empty() {
        return None;
    }
    format!(in alloc; "{{\"path\":{path},\"remarks\":[{listed}]}}").ok()
}

// The object of a fault with this text.
fn object_of(alloc: Global, words: &[&str], remarks: &Remarks, text: &str) -> Option<String> {
    let path = object_path(alloc, words)?;
    let path = quoted(alloc, path.as_str()).ok()?;
    let text = quoted(alloc, text).ok()?;
    let listed = listed(alloc, remarks)?;
    format!(in alloc; "{{\"path\":{path},\"fault\":{text},\"remarks\":[{listed}]}}").ok()
}

// A text as a string of JSON.
fn quoted(alloc: Global, text: &str) -> Result<String, AllocError> {
    Value::String(text.to_string(alloc)?).to_string(alloc)
}

// All that was remarked, as strings of JSON with commas between.
fn listed(alloc: Global, remarks: &Remarks) -> Option<String> {
    let text = remarks.text()?;
    let mut listed = String::new(alloc);
    for line in text.as_str().lines() {
        if !listed.is_empty() {
            listed.push(',').ok()?;
        }
        let remark = quoted(alloc, line.trim_start()).ok()?;
        listed.push_str(remark.as_str()).ok()?;
    }
    Some(listed)
}

// What would be right, where the text of a fault does not say it.
fn rule_of(fault: &ProgramFault) -> Option<&'static str> {
    match fault {
        ProgramFault::BadVolume => Some(VOLUME_RULE),
        ProgramFault::StorageSize => {
            Some("main storage has 4096 to 16777216 bytes, a multiple of 2048")
        }
        ProgramFault::ChannelNumber => Some("a channel has a number from 0 to 6"),
        ProgramFault::AddressTaken => {
            Some("each volume has an address of its own; the files of one image are named together")
        }
        ProgramFault::TooManyDrives => Some("a channel has at most eight drives"),
        ProgramFault::NoTrack => Some("dasd list says how many cylinders and heads a volume has"),
        ProgramFault::NoRecord => Some("dasd list says which records each track has"),
        ProgramFault::Job(JobFault::Mount(fault)) => rule_of_image(*fault),
        _ => None,
    }
}

// The same of files that hold no image.
fn rule_of_image(fault: MountFault) -> Option<&'static str> {
    match fault {
        MountFault::Split => {
            Some("a command takes one volume: several paths are the files of one image, in order")
        }
        MountFault::Compressed => Some("cckd2ckd of Hercules makes an uncompressed image of it"),
        MountFault::DeviceType => Some("dasd knows the drives 2311 and 2314"),
        _ => None,
    }
}

/// A word that is refused.
#[derive(Clone, Copy)]
struct NoVolume<'a>(&'a str);

impl fmt::Display for NoVolume<'_> {
    fn fmt<W: fmt::Write>(&self, f: &mut fmt::Formatter<W>) -> fmt::Result {
        write!(f, "{} names no volume", self.0)
    }
}

/// An address that two volumes have.
#[derive(Clone, Copy)]
struct Taken(u8);

impl fmt::Display for Taken {
    fn fmt<W: fmt::Write>(&self, f: &mut fmt::Formatter<W>) -> fmt::Result {
        let device = self.0;
        write!(f, "{device:02X} is the address of two volumes")
    }
}
