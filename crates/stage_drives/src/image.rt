//! Files that are mounted, and an image alone.

use crate::alone::{Alone, put};
use crate::drive::NO_DRIVE;
use crate::shown::say_geometry;
use ckd_drive::{Drive, Phase};
use ckd_image::Image;
use stage_files::{FileStore, Files, Line, MEMORY, No, Said, Word};
use std::alloc::Global;

const NO_IMAGE: &str = "no image is held alone: MOUNT makes one";

/// Calls of files: they are mounted, for a drive or alone, or come back.
#[derive(Clone, Copy)]
pub(crate) enum Mounts {
    Drive,
    DriveBack,
    Image,
    OneFile,
    ImageBack,
}

impl Alone {
    /// Mounts files, or gives them back.
    pub(crate) fn mounts(
        &mut self,
        rt: &HostRuntime,
        files: &mut Files,
        mounts: Mounts,
        line: &mut Line,
    ) {
        match mounts {
            Mounts::Drive => self.mount_drive(rt, files, line),
            Mounts::DriveBack => self.release_drive(rt, files, &mut line.said),
            Mounts::Image => self.mount(rt, files, line),
            Mounts::OneFile => self.mount_one(rt, files, line),
            Mounts::ImageBack => self.release_image(rt, files, &mut line.said),
        }
    }

    // A drive over these files.
    fn mount_drive(&mut self, rt: &HostRuntime, files: &mut Files, line: &mut Line) {
        let Some(image) = files.mount(rt, line.words(0), &mut line.said) else {
            return;
        };
        match Drive::new(rt.alloc(), image) {
            Ok(drive) => {
                put(&mut self.program, None);
                put(&mut self.drive, Some(drive));
                line.said.ok();
            }
            Err((fault, image)) => files.refuse(rt, image, &fault, &mut line.said),
        }
    }

    // Takes the drive apart.
    fn release_drive(&mut self, rt: &HostRuntime, files: &mut Files, said: &mut Said) {
        let Some(drive) = self.drive.take() else {
            return said.no(NO_DRIVE);
        };
        if drive.phase() != Phase::Idle || drive.is_written() {
            put(&mut self.drive, Some(drive));
            return said.no("a command is open, or a track is not saved");
        }
        files.release(rt, drive.into_image(), said);
    }

    fn mount(&mut self, rt: &HostRuntime, files: &mut Files, line: &mut Line) {
        if let Some(image) = files.mount(rt, line.words(0), &mut line.said) {
            self.keep_image(image, &mut line.said);
        }
    }

    fn mount_one(&mut self, rt: &HostRuntime, files: &mut Files, line: &mut Line) {
        let store = match files.store(rt, line.word(0)) {
            Ok(store) => store,
            Err(No(why)) => return line.said.no(why),
        };
        match Image::mount(store) {
            Ok(image) => self.keep_image(image, &mut line.said),
            Err((fault, store)) => {
                line.said.refused(&fault);
                files.keep_one(rt, store, &mut line.said);
            }
        }
    }

    fn keep_image(&mut self, image: Image<FileStore>, said: &mut Said) {
        say_geometry(image.geometry(), said);
        put(&mut self.image, Some(image));
    }

    fn release_image(&mut self, rt: &HostRuntime, files: &mut Files, said: &mut Said) {
        match self.image.take() {
            Some(image) => files.release(rt, image, said),
            None => said.no(NO_IMAGE),
        }
    }

    /// Loads the slot of a track, which is kept too.
    pub(crate) fn load(&mut self, alloc: Global, line: &mut Line) {
        let Some(image) = &mut self.image else {
            return line.said.no(NO_IMAGE);
        };
        let (geometry, track) = (image.geometry(), line.wide(0));
        if track >= geometry.tracks() {
            return line.said.no("no such track");
        }
        let Ok(mut slot) = vec![in alloc; 0u8; geometry.track_size as usize] else {
            return line.said.no(MEMORY);
        };
        if let Err(fault) = image.load(track, slot.as_mut_slice()) {
            return line.said.refused(&fault);
        }
        line.said.answer("SLOT", &[Word::Spelled(slot.as_slice())]);
        put(&mut self.slot, slot);
    }

    /// Saves a slot that begins with the bytes of a line.
    pub(crate) fn save(&mut self, alloc: Global, line: &mut Line) {
        let Some(image) = &mut self.image else {
            return line.said.no(NO_IMAGE);
        };
        let (geometry, track) = (image.geometry(), line.wide(0));
        if track >= geometry.tracks() {
            return line.said.no("no such track");
        }
        let Ok(mut slot) = vec![in alloc; 0u8; geometry.track_size as usize] else {
            return line.said.no(MEMORY);
        };
        let n = line.bytes.len();
        if n > slot.len() {
            return line.said.no("more bytes than a slot has");
        }
        slot.as_mut_slice()[..n].copy_from_slice(line.bytes.as_slice());
        match image.save(track, slot.as_slice()) {
            Ok(()) => line.said.ok(),
            Err(fault) => line.said.refused(&fault),
        }
    }
}
