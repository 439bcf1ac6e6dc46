//! A channel over the volumes that words name, and what becomes of their files.

ghost use Rattle.std.specs.Prelude.{◌≡◌, ◌<◌, [], true, false, position, IfOk, IfErr, OnOk};
ghost use Rattle.std.specs.List.{AllZip};
ghost use Rattle.s360_words.specs.Storage.{is_size};
ghost use Rattle.dasd_run.specs.Built.{IsNewChannel, NotMade, Opens, OpensVolumes, AttachesOne, HasNoImage, is_addressed, HasAddressOf, NotAttached, NotBuilt};
ghost use Rattle.program_faults.specs.Faults.{keeps_files};
ghost use Rattle.dasd_run.specs.Saves.{SavesRun};

use crate::remarks::Remark;
use crate::saves::save_all;
use ckd_image::Image;
use dasd_files::VolumeFile;
use dasd_jobs::{ImageFiles, JobFault, new_image, read_image};
use dasd_words::{Volume, VolumeSource};
use program_faults::{ProgramFault, of_volume};
use s360_channel::{AttachFault, Channel, Finished, NewFault, SubchannelView};
use s360_words::{Storage, StorageFault};
use std::alloc::Global;

/// A channel over images that were read from files.
pub type Disks = Channel<VolumeFile>;

/// A channel with this number, over cleared main storage of this size, with a drive for each volume in the order of the words. The
/// files of the volumes are opened in this order, and no other. No file is written.
///
/// # Errors
///
/// The first of these: the size, the number, and what is wrong with the first faulty volume, which is not read, holds no
/// image, or is not attached. The files of those before it were opened then, and none of those behind it.
pub fn build<F: ImageFiles>(
    alloc: Global,
    files: &mut F,
    storage: u32,
    number: u8,
    volumes: &[Volume],
) -> Result<Disks, ProgramFault>
    ensures kept { F.written files.new ≡ F.written files.old }
    ensures is_new { IfOk result (λ c. IsNewChannel storage number c) }
    ensures drives { IfOk result (λ c. OpensVolumes volumes.now c.drives (F.opened files.old) (F.opened files.new)) }
    ensures not_built { IfErr result (λ e. NotBuilt e storage number volumes.now (F.opened files.old) (F.opened files.new)) }
{
    let mut channel = new_channel(alloc, storage, number)?;
    for i in 0..volumes.len() {
        attach(alloc, files, &mut channel, &volumes[..i], &volumes[i])?;
    }
    Ok(channel)
}

// A channel without drives.
fn new_channel(alloc: Global, storage: u32, number: u8) -> Result<Disks, ProgramFault>
    ensures is_new { IfOk result (λ c. IsNewChannel storage number c) }
    ensures no_drives { IfOk result (λ c. c.drives ≡ []) }
    ensures sound { IfOk result (λ c. (is_size storage ≡ true) × (number < 7)) }
    ensures not_made { IfErr result (λ e. NotMade e storage number) }
{
    let storage = match Storage::new(alloc, storage) {
        Ok(storage) => storage,
        Err(StorageFault::BadSize) => return Err(ProgramFault::StorageSize),
        Err(StorageFault::OutOfMemory) => return Err(ProgramFault::OutOfMemory),
    };
    match Channel::new(number, storage) {
        Ok(channel) => Ok(channel),
        Err((NewFault::BadNumber, _)) => Err(ProgramFault::ChannelNumber),
    }
}

// One drive more, behind those of the volumes before.
fn attach<F: ImageFiles>(
    alloc: Global,
    files: &mut F,
    channel: &mut Disks,
    before: &[Volume],
    volume: &Volume,
) -> Result<(), ProgramFault>
    requires { AllZip HasAddressOf before.now channel.old.drives }
    ensures kept { F.written files.new ≡ F.written files.old }
    ensures drive { OnOk result (AttachesOne volume.now channel.old channel.new (F.opened files.old) (F.opened files.new)) }
    ensures not_attached { IfErr result (λ e. NotAttached e before.now volume.now (F.opened files.old) (F.opened files.new)) }
{
    let image = match open(alloc, files, &volume.source) {
        Ok(image) => image,
        Err(fault) => {
            let is_taken = place_of(before, volume.device).is_some();
            return Err(of_volume(fault, is_taken));
        }
    };
    match channel.attach(alloc, volume.device, image) {
        Ok(()) => Ok(()),
        Err((AttachFault::UnitTaken, _)) => Err(ProgramFault::AddressTaken),
        Err((AttachFault::Full, _)) => Err(ProgramFault::TooManyDrives),
        Err((AttachFault::OutOfMemory(_), _)) => Err(ProgramFault::OutOfMemory),
    }
}

// The place of the first of these volumes that has this address.
fn place_of(volumes: &[Volume], device: u8) -> Option<usize>
    ensures { result ≡ position (is_addressed device) volumes.now }
{
    volumes.iter().position(
        |volume: &Volume| -> bool
            ensures { result ≡ is_addressed device volume.now }
        { volume.device == device },
    )
}

// The image of a volume, for which its files are opened and no other.
fn open<F: ImageFiles>(
    alloc: Global,
    files: &mut F,
    source: &VolumeSource,
) -> Result<Image<VolumeFile>, JobFault>
    ensures kept { F.written files.new ≡ F.written files.old }
    ensures opens { IfOk result (λ image. Opens source.now image (F.opened files.old) (F.opened files.new)) }
    ensures not_opened { IfErr result (λ e. HasNoImage e source.now (F.opened files.old) (F.opened files.new)) }
{
    match source {
        VolumeSource::Files(paths) => read_image(alloc, files, paths.as_slice()),
        VolumeSource::New { model, cylinders } => new_image(alloc, *model, *cylinders),
    }
}

/// Resets a channel, and saves its volumes as one: writes the files of them that were changed, each whole, in the order of the words.
/// These are the volumes that it was built over.
///
/// # Errors
///
/// A file can't be written: none is.
pub fn finish<F: ImageFiles>(
    alloc: Global,
    files: &mut F,
    volumes: &[Volume],
    channel: Disks,
) -> Result<(), ProgramFault>
    ensures saves { SavesRun result volumes.now channel (F.written files.old) (F.written files.new) }
    ensures same { F.opened files.new ≡ F.opened files.old }
    ensures fault { IfErr result (λ e. keeps_files e ≡ false) }
{
    tell_running(files, &channel);
    let Finished {
        storage: _,
        mut images,
        reset,
    } = channel.finish();
    if let Some((address, cylinder, head)) = reset.unsaved {
        files.remark(&Remark::Unsaved(address, cylinder, head));
    }
    save_all(alloc, files, volumes, &mut images)
}

/// Says of a channel whose deck is done that a program still runs, if one does.
pub(crate) fn tell_running<F: ImageFiles>(files: &mut F, channel: &Disks)
    ensures kept { F.written files.new ≡ F.written files.old }
    ensures same { F.opened files.new ≡ F.opened files.old }
{
    if let SubchannelView::Working(device, _) = channel.state().subchannel {
        files.remark(&Remark::StillRan(device));
    }
}
