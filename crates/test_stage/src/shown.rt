//! How what a channel shows is printed.

use ckd_image::Image;
use s360_channel::{DriveView, SubchannelView, View, Watched};
use s360_laws::arm::Arm;
use stage_drives::{say_geometry, say_program};
use stage_files::{FileStore, Said, Word};

/// A channel: `STATE working 91, 90 InMotion, 91 AtRest`.
pub(crate) fn say_state(view: &View, said: &mut Said) {
    said.put("STATE");
    say_subchannel(view.subchannel, said);
    for drive in &view.drives {
        if let Some((device, arm)) = drive {
            said.answer(",", &[Word::Byte(*device), arm_name(*arm)]);
        }
    }
}

fn arm_name(arm: Arm) -> Word<'static> {
    Word::Text(match arm {
        Arm::AtRest => "AtRest",
        Arm::InMotion => "InMotion",
        Arm::Arrived => "Arrived",
    })
}

/// A subchannel: ` working 91 and asks`.
pub(crate) fn say_subchannel(view: SubchannelView, said: &mut Said) {
    match view {
        SubchannelView::Idle => said.put(" idle"),
        SubchannelView::Working(device, asks) => {
            said.answer(" working", &[Word::Byte(device)]);
            said.put(if asks { " and asks" } else { "" });
        }
        SubchannelView::Pending(device, csw) => {
            let csw = csw.to_bytes();
            said.answer(" pending", &[Word::Byte(device), Word::Digits(&csw)]);
        }
    }
}

/// The program that runs, if one does.
pub(crate) fn say_view(watched: Option<Watched>, said: &mut Said) {
    match watched {
        Some(watched) => {
            said.answer("VIEW", &[Word::Byte(watched.device)]);
            say_program(&watched.program, said);
        }
        None => said.put("VIEW NONE"),
    }
}

/// What is known of a drive, if it is there.
pub(crate) fn say_drive(view: Option<DriveView>, said: &mut Said) {
    let Some(it) = view else {
        return said.put("UNIT NONE");
    };
    said.answer(
        "UNIT",
        &[
            Word::Number(it.model.number() as u64),
            Word::Text("CYLINDERS"),
            Word::Number(it.cylinders as u64),
            Word::Text("ARM"),
            arm_name(it.arm),
        ],
    );
    said.answer(
        " AT",
        &[
            Word::Number(it.cylinder as u64),
            Word::Number(it.head as u64),
            Word::Text("SENSE"),
            Word::Digits(&it.sense),
        ],
    );
}

/// The image of a drive, if it is there.
pub(crate) fn say_image(image: Option<&Image<FileStore>>, said: &mut Said) {
    match image {
        Some(image) => say_geometry(image.geometry(), said),
        None => said.put("IMAGE NONE"),
    }
}
