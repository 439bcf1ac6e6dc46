//! Drives are attached and detached.

ghost use Rattle.std.specs.Prelude.{◌≡◌, ◌/◌, ◌%◌, map, pos};
ghost use Rattle.ckd_track.specs.Model.{model_numbered};
ghost use Rattle.s360_words.specs.Storage.{Storage as StorageState};
ghost use Rattle.s360_channels.specs.Channels.{channel_at};
ghost use Rattle.s360_channels.specs.Selectors.{across};
ghost use Rattle.dasd_subsystem.specs.Attaching.{Attaches, NotAttached};
ghost use Rattle.subsystem_calls.specs.Attaching.{AttachesOf, Detached, DoneOrRefused, RefusesDetach, RefusesOf, TellsWhy};
ghost use Rattle.subsystem_calls.specs.Codes.{refusal_code};

use crate::tell::{BAD_MODEL, DONE, of_detach, of_refusal};
use ckd_track::DriveModel;
use dasd_files::VolumeFile;
use dasd_subsystem::Subsystem;
use s360_channels::Selectors;
use std::alloc::Global;

/// Attaches a drive under an address, with the image that copies of these files are.
pub fn attach(subsystem: &mut Subsystem, alloc: Global, address: u16, files: &[&[u8]]) -> i32
    ensures does { (s : StorageState) → DoneOrRefused result (across subsystem.old.channels s) (across subsystem.new.channels s)
        (Attaches address (map (λ file. file.now) files.now) (across subsystem.old.channels s) (across subsystem.new.channels s))
        (TellsWhy refusal_code (NotAttached (channel_at (address / 256) (across subsystem.old.channels s)) (address % 256)
        (map (λ file. file.now) files.now)) result) }
    ensures storage { subsystem.new.storage ≡ subsystem.old.storage }
{
    match subsystem.attach(alloc, address, files) {
        Ok(()) => DONE,
        Err(refusal) => of_refusal(refusal),
    }
}

/// Attaches a drive of this model, 2311 or 2314, with a new volume of so many cylinders.
pub fn attach_new(
    subsystem: &mut Subsystem,
    alloc: Global,
    address: u16,
    model: u16,
    cylinders: u16,
) -> i32
    ensures does { (s : StorageState) → DoneOrRefused result (across subsystem.old.channels s) (across subsystem.new.channels s)
        (AttachesOf (model_numbered model) address cylinders (across subsystem.old.channels s) (across subsystem.new.channels s))
        (RefusesOf (model_numbered model) address cylinders result (across subsystem.old.channels s)) }
    ensures storage { subsystem.new.storage ≡ subsystem.old.storage }
{
    let Some(model) = DriveModel::numbered(model) else {
        return BAD_MODEL;
    };
    match subsystem.attach_new(alloc, address, model, cylinders) {
        Ok(()) => DONE,
        Err(refusal) => of_refusal(refusal),
    }
}

/// Takes a drive off its channel, and frees its volume.
pub fn detach(channels: &mut Selectors<VolumeFile>, address: u16) -> i32
    ensures does { (s : StorageState) → DoneOrRefused result (across channels.old s) (across channels.new s)
        (Detached address (across channels.old s) (across channels.new s))
        (RefusesDetach address result (across channels.old s)) }
    ensures same { channels.new.size ≡ channels.old.size }
{
    match channels.detach(address) {
        Ok(image) => {
            drop(image);
            DONE
        }
        Err(fault) => of_detach(fault),
    }
}
