//! Drives are attached and detached.

ghost use Rattle.std.specs.Prelude.{◌≡◌, ◌/◌, ◌%◌, map, pos};
ghost use Rattle.ckd_track.specs.Model.{model_numbered};
ghost use Rattle.s360_channels.specs.Channels.{channel_at};
ghost use Rattle.dasd_subsystem.specs.Attaching.{AreImage, Attaches, NotAttached, NotMounted};
ghost use Rattle.subsystem_calls.specs.Attaching.{AttachesOf, Detached, DoneOrRefused, RefusesDetach, RefusesOf, TellsWhy};
ghost use Rattle.subsystem_calls.specs.Codes.{refusal_code};
ghost use Rattle.dasd_c.specs.Calls.{CallsAny};

use crate::handle::{Handle, put, take};
use dasd_subsystem::check;
use std::alloc::Global;
use subsystem_calls::tell::{DONE, NOTHING_HELD, of_refusal};
use subsystem_calls::{attach, attach_new, detach};

/// Whether these files, in their order, are an image.
#[unsafe(no_mangle)]
pub extern "C" fn dasd_check(alloc: Global, files: &[&[u8]]) -> i32
    ensures image { result ≡ pos 0 → AreImage (map (λ file. file.now) files.now) }
    ensures refused { (result ≡ pos 0 → ⊥) → TellsWhy refusal_code (NotMounted (map (λ file. file.now) files.now)) result }
{
    match check(alloc, files) {
        Ok(()) => DONE,
        Err(refusal) => of_refusal(refusal),
    }
}

/// Attaches a drive under an address, with the image that copies of these files are.
#[unsafe(no_mangle)]
pub extern "C" fn dasd_attach(
    handle: &mut Handle,
    alloc: Global,
    address: u16,
    files: &[&[u8]],
) -> i32
    ensures { CallsAny handle.old.slot.held handle.new.slot.held result
        (λ old new. DoneOrRefused result old new (Attaches address (map (λ file. file.now) files.now) old new)
        (TellsWhy refusal_code (NotAttached (channel_at (address / 256) old) (address % 256) (map (λ file. file.now) files.now)) result)) }
{
    let Some(mut subsystem) = take(handle, alloc) else {
        return NOTHING_HELD;
    };
    let code = attach(&mut subsystem, alloc, address, files);
    put(handle, subsystem);
    code
}

/// Attaches a drive of this model, 2311 or 2314, with a new volume of so many cylinders.
#[unsafe(no_mangle)]
pub extern "C" fn dasd_attach_new(
    handle: &mut Handle,
    alloc: Global,
    address: u16,
    model: u16,
    cylinders: u16,
) -> i32
    ensures { CallsAny handle.old.slot.held handle.new.slot.held result
        (λ old new. DoneOrRefused result old new (AttachesOf (model_numbered model) address cylinders old new)
        (RefusesOf (model_numbered model) address cylinders result old)) }
{
    let Some(mut subsystem) = take(handle, alloc) else {
        return NOTHING_HELD;
    };
    let code = attach_new(&mut subsystem, alloc, address, model, cylinders);
    put(handle, subsystem);
    code
}

/// Takes a drive off its channel, and frees its volume.
#[unsafe(no_mangle)]
pub extern "C" fn dasd_detach(handle: &mut Handle, alloc: Global, address: u16) -> i32
    ensures { CallsAny handle.old.slot.held handle.new.slot.held result
        (λ old new. DoneOrRefused result old new (Detached address old new) (RefusesDetach address result old)) }
{
    let Some(mut subsystem) = take(handle, alloc) else {
        return NOTHING_HELD;
    };
    let code = detach(&mut subsystem.channels, address);
    put(handle, subsystem);
    code
}
