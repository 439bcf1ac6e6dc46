//! The drives of a channel, in the order in which they were attached.

ghost use Rattle.std.specs.Prelude.{◌≡◌, ◌<◌, ◌≤◌, ◌+◌, ◌++◌, ◌∷◌, [], map, length, slice_get, position, option_map, Some, filter, IfOk, OnOk, OnErr, IfErr};
ghost use Rattle.std.specs.List.{remove};
ghost use Rattle.ckd_drive.specs.Work.{new_drive};
ghost use Rattle.s360_program.specs.Advances.{Rests};
ghost use Rattle.s360_program.specs.Stands.{Stands};
ghost use Rattle.s360_laws.specs.Machine.{lowest, lower, has_arrived};
ghost use Rattle.attached_drives.specs.Drives.{is_at, device_of, new_attached, AllRest};
ghost use Rattle.attached_drives.specs.Drives.{images_of};
ghost use Rattle.attached_drives.specs.DriveCalls.{DriveChanges, DriveIs, Starts, AdvancesAt, CutsAt, ArmChanges, OnlyDrive, TakesFirst, Removes, ExchangesPack};
ghost use Rattle.attached_drives.specs.DriveCalls.{MayExchange, MayRestore, RestoresAt, RestsAt, at_rest_attached};
ghost use Rattle.attached_drives.specs.Saved.{attached_as_saved};
ghost use Rattle.ckd_drive.specs.Work.{has_track};
ghost use Rattle.attached_drives.specs.Drives.{fits_drive, is_same_model};
ghost use Rattle.attached_drives.specs.Slots.{present, is_held};
ghost use Rattle.attached_drives.specs.Shown.{drives_seen, drive_seen};

use crate::attached_drive::AttachedDrive;
use crate::drives_saved::SavedDrive;
use crate::view::DriveView;
use arrayvec::ArrayVec;
use ckd_drive::Drive;
use ckd_image::{Image, ImageStore};
use ckd_track::{DriveModel, Geometry};
use s360_laws::arm::Arm;
use s360_program::program::{LongAdvance, Running, Start};
use s360_storage::MainStorage;
use s360_words::Csw;
use std::alloc::{AllocError, Global};
use std::marker::Model;

/// Up to eight drives, named by their places in the order of attachment. Each place of the list up to its length has one: a
/// blank, which a list of a fixed capacity needs, stands only behind them.
#[derive(Drop)]
pub struct Drives<S: ImageStore> {
    pub(crate) list: ArrayVec<Option<AttachedDrive<S>>, 8>,
}

impl<S: ImageStore> Model for Drives<S> {
    ghost use Rattle.std.specs.Prelude.{List};
    ghost use Rattle.attached_drives.specs.Drives.{AttachedState};
    ghost use Rattle.attached_drives.specs.Slots.{present, AllHeld};

    ghost Value = { List AttachedState };

    ghost view = { λ u. present u.list.items };

    ghost invariant = { λ u. AllHeld 8 u.list.items };
}

impl<S: ImageStore> Drives<S> {
    /// No drives.
    pub fn new() -> Drives<S>
        ensures { result ≡ [] }
    {
        Drives {
            list: ArrayVec::new(),
        }
    }

    /// How many there are.
    pub fn len(&self) -> usize
        ensures count { result ≡ length self.now }
        ensures few { result ≤ 8 }
    {
        self.list.len()
    }

    /// Adds one over an image, behind the others.
    pub fn attach(
        &mut self,
        alloc: Global,
        device: u8,
        image: Image<S>,
    ) -> Result<(), (AllocError, Image<S>)>
        requires { length self.old < 8 }
        ensures attached { OnOk result (self.new ≡ self.old ++ new_attached device image ∷ []) }
        ensures stays { OnErr result (self.new ≡ self.old) }
        ensures handed_back { IfErr result (λ e. e.1 ≡ image) }
    {
        let drive = drive_of(alloc, image)?;
        self.push(AttachedDrive {
            device,
            arm: Arm::AtRest,
            drive,
        });
        Ok(())
    }

    /// One drive more.
    pub(crate) fn push(&mut self, attached: AttachedDrive<S>)
        requires { length self.old < 8 }
        ensures { self.new ≡ self.old ++ attached ∷ [] }
    {
        self.list.push(Some(attached));
    }

    /// The one at a place.
    pub(crate) fn at(&self, place: usize) -> &AttachedDrive<S>
        requires { place < length self.now }
        ensures { Some result.now ≡ slice_get self.now place }
    {
        match &self.list.as_slice()[place] {
            Some(attached) => attached,
            None => unreachable!(),
        }
    }

    // Takes the one at a place out.
    fn take(&mut self, place: usize) -> AttachedDrive<S>
        requires { place < length self.old }
        ensures was { Some result ≡ slice_get self.old place }
        ensures becomes { self.new ≡ remove self.old place }
    {
        match self.list.remove(place) {
            Some(attached) => attached,
            None => unreachable!(),
        }
    }

    /// Takes the drive at a place out, and gives its image back.
    pub fn remove(&mut self, place: usize) -> Image<S>
        requires { DriveIs place Rests self.old }
        ensures { Removes place result self.old self.new }
    {
        Box::into_inner(self.take(place).drive).into_image()
    }

    /// Whether a pack of this geometry fits the drive at a place.
    pub fn fits(&self, place: usize, geometry: Geometry) -> bool
        requires { place < length self.now }
        ensures volume { Some result ≡ option_map (λ u. fits_drive u.drive.state.volume.geometry geometry)
            (slice_get self.now place) }
        ensures image { Some result ≡ option_map (λ u. fits_drive u.drive.image.geometry geometry)
            (slice_get self.now place) }
    {
        let held = self.at(place).drive.geometry();
        is_same_model(held.model, geometry.model) && held.track_size == geometry.track_size
    }

    /// The drive at a place takes another image, and gives its own back.
    pub fn exchange(&mut self, place: usize, image: Image<S>) -> Image<S>
        requires { DriveIs place (MayExchange image.geometry.track_size) self.old }
        ensures { ExchangesPack place image result self.old self.new }
    {
        match &mut self.list.as_mut_slice()[place] {
            Some(attached) => attached.drive.exchange(image),
            None => unreachable!(),
        }
    }

    /// Whether the volume of the drive at a place has the track where one was saved.
    pub fn has_track(&self, place: usize, saved: SavedDrive) -> bool
        requires { place < length self.now }
        ensures { Some result ≡ option_map (λ u. has_track u.drive.state.volume.geometry saved.cylinder saved.head)
            (slice_get self.now place) }
    {
        let geometry = self.at(place).drive.geometry();
        saved.cylinder < geometry.cylinders && saved.head < geometry.model.heads()
    }

    /// The drive at a place is as one was saved from now on.
    pub fn restore(&mut self, place: usize, saved: SavedDrive)
        requires { DriveIs place (MayRestore saved) self.old }
        ensures { RestoresAt place saved self.old self.new }
    {
        match &mut self.list.as_mut_slice()[place] {
            Some(attached) => restore(attached, saved),
            None => unreachable!(),
        }
    }

    /// The place of the drive with this address, if it is attached.
    pub fn place_of(&self, device: u8) -> Option<usize>
        ensures { result ≡ position (is_at device) self.now }
    {
        place_of(self.list.as_slice(), device)
    }

    /// The low byte of the address of the drive at a place.
    pub fn device(&self, place: usize) -> u8
        requires { place < length self.now }
        ensures { Some result ≡ option_map (λ u. u.device) (slice_get self.now place) }
    {
        self.at(place).device
    }

    /// What the arm of the drive at a place does.
    pub fn arm(&self, place: usize) -> Arm
        requires { place < length self.now }
        ensures { Some result ≡ option_map (λ u. u.arm) (slice_get self.now place) }
    {
        self.at(place).arm
    }

    /// The drive at a place.
    pub fn drive(&self, place: usize) -> &Drive<S>
        requires { place < length self.now }
        ensures { Some result.now ≡ option_map (λ u. u.drive) (slice_get self.now place) }
    {
        &self.at(place).drive
    }

    /// What is known of the drive at a place.
    pub fn seen(&self, place: usize) -> DriveView
        requires { place < length self.now }
        ensures { Some result ≡ option_map (λ u. drive_seen (device_of u)) (slice_get self.now place) }
    {
        let attached = self.at(place);
        let geometry = attached.drive.geometry();
        DriveView {
            model: geometry.model,
            cylinders: geometry.cylinders,
            arm: attached.arm,
            cylinder: attached.drive.cylinder(),
            head: attached.drive.head(),
            sense: attached.drive.sense(),
        }
    }

    /// Lets the arm of the drive at a place do this from now on.
    pub fn set_arm(&mut self, place: usize, arm: Arm)
        requires { place < length self.old }
        ensures { ArmChanges place arm self.old self.new }
    {
        match &mut self.list.as_mut_slice()[place] {
            Some(attached) => attached.arm = arm,
            None => unreachable!(),
        }
    }

    /// The lowest address of a drive whose arm has arrived.
    pub fn lowest_arrived(&self) -> Option<u8>
        ensures { result ≡ lowest (filter has_arrived (map device_of self.now)) }
    {
        lowest_arrived(self.list.as_slice())
    }

    /// The drive at a place does the first unit of a program.
    pub fn start<M: MainStorage>(&mut self, place: usize, caw: u32, storage: &M) -> Start
        requires { DriveIs place Rests self.old }
        ensures { DriveChanges place (Starts caw (M.holds storage.now) result) self.old self.new }
    {
        match &mut self.list.as_mut_slice()[place] {
            Some(attached) => start(attached, caw, storage),
            None => unreachable!(),
        }
    }

    /// The program that runs at a place does so many units, unless it ends before.
    pub fn advance<M: MainStorage>(
        &mut self,
        place: usize,
        running: &mut Running,
        units: u32,
        storage: &mut M,
    ) -> LongAdvance
        requires { DriveIs place (Stands running.old) self.old }
        ensures advances { DriveChanges place (AdvancesAt running.old (M.holds storage.old) units result running.new (M.holds storage.new)) self.old
            self.new }
        ensures place { M.place storage.new ≡ M.place storage.old }
    {
        match &mut self.list.as_mut_slice()[place] {
            Some(attached) => advance(attached, running, units, storage),
            None => unreachable!(),
        }
    }

    /// The program that runs at a place is cut.
    pub fn cut(&mut self, place: usize, running: Running) -> (Csw, bool, Option<(u16, u16)>)
        requires { DriveIs place (Stands running) self.old }
        ensures { DriveChanges place (CutsAt running result) self.old self.new }
    {
        match &mut self.list.as_mut_slice()[place] {
            Some(attached) => cut(attached, running),
            None => unreachable!(),
        }
    }

    /// All arms are at rest, and all sense bytes zero.
    #[tactic(auto, using(crate::proofs::Fronts::front_length, crate::proofs::Fronts::front_all))]
    pub fn reset(&mut self)
        requires { AllRest self.old }
        ensures { self.new ≡ map at_rest_attached self.old }
    {
        for place in 0..self.len() {
            self.reset_at(place);
        }
    }

    // The same of the one at a place.
    fn reset_at(&mut self, place: usize)
        requires { DriveIs place Rests self.old }
        ensures { RestsAt place self.old self.new }
    {
        match &mut self.list.as_mut_slice()[place] {
            Some(attached) => reset(attached),
            None => unreachable!(),
        }
    }

    /// The low byte of each one's address, and its arm.
    pub fn shown(&self) -> [Option<(u8, Arm)>; 8]
        ensures { result ≡ drives_seen (map device_of self.now) }
    {
        // what is known of their number
        let _count = self.len();
        [
            self.shown_at(0),
            self.shown_at(1),
            self.shown_at(2),
            self.shown_at(3),
            self.shown_at(4),
            self.shown_at(5),
            self.shown_at(6),
            self.shown_at(7),
        ]
    }

    // The same of the one at a place, if there is one.
    #[tactic(auto, using(std::proofs::lemmas::Option::slice_get_past))]
    fn shown_at(&self, place: usize) -> Option<(u8, Arm)>
        ensures { result ≡ option_map (λ u. (u.device, u.arm)) (slice_get self.now place) }
    {
        if place >= self.len() {
            return None;
        }
        let attached = self.at(place);
        Some((attached.device, attached.arm))
    }

    /// The image of each, with the low byte of its address.
    pub fn into_images(self) -> [Option<(u8, Image<S>)>; 8]
        requires { AllRest self }
        ensures images { result ≡ images_of self }
        ensures volumes { map (λ u. u.drive.image.slots) self ≡ map (λ u. u.drive.state.volume.slots) self }
    {
        // what is known of their number
        let _count = self.len();
        let mut drives = self;
        [
            drives.take_first(),
            drives.take_first(),
            drives.take_first(),
            drives.take_first(),
            drives.take_first(),
            drives.take_first(),
            drives.take_first(),
            drives.take_first(),
        ]
    }

    // Takes the first drive out, if there is one: its address and its image.
    fn take_first(&mut self) -> Option<(u8, Image<S>)>
        requires { AllRest self.old }
        ensures taken { TakesFirst self.old self.new result }
        ensures rests { AllRest self.new }
    {
        if self.len() == 0 {
            return None;
        }
        let AttachedDrive {
            device,
            arm: _,
            drive,
        } = self.take(0);
        Some((device, Box::into_inner(drive).into_image()))
    }
}

// A drive over an image, on the heap; the image comes back where there is no memory.
fn drive_of<S: ImageStore>(
    alloc: Global,
    image: Image<S>,
) -> Result<Box<Drive<S>>, (AllocError, Image<S>)>
    ensures ok { IfOk result (λ d. d.value ≡ new_drive image) }
    ensures err { IfErr result (λ e. e.1 ≡ image) }
{
    let drive = Drive::new(alloc, image)?;
    match Box::new(alloc, drive) {
        Ok(drive) => Ok(drive),
        Err(refused) => Err((AllocError, refused.value.into_image())),
    }
}

// A drive is as one was saved.
fn restore<S: ImageStore>(attached: &mut AttachedDrive<S>, saved: SavedDrive)
    requires { MayRestore saved attached.old.drive }
    ensures { attached.new ≡ attached_as_saved saved attached.old }
{
    let restored = attached
        .drive
        .restore(saved.cylinder, saved.head, saved.sense);
    let Ok(()) = restored else {
        unreachable!();
    };
    attached.arm = saved.arm;
}

fn is_same_model(held: DriveModel, other: DriveModel) -> bool
    ensures { result ≡ is_same_model held other }
{
    match (held, other) {
        (DriveModel::D2311, DriveModel::D2311) => true,
        (DriveModel::D2314, DriveModel::D2314) => true,
        _ => false,
    }
}

// The place that holds the drive with this address, if one does.
fn place_of<S: ImageStore>(drives: &[Option<AttachedDrive<S>>], device: u8) -> Option<usize>
    ensures { result ≡ position (is_held device) drives.now }
{
    drives.iter().position(
        |slot: &Option<AttachedDrive<S>>| -> bool
            ensures { result ≡ is_held device slot.now }
        {
            match slot {
                Some(attached) => attached.device == device,
                None => false,
            }
        },
    )
}

// A drive does the first unit of a program.
fn start<S: ImageStore, M: MainStorage>(
    attached: &mut AttachedDrive<S>,
    caw: u32,
    storage: &M,
) -> Start
    requires { Rests attached.old.drive }
    ensures { OnlyDrive (Starts caw (M.holds storage.now) result) attached.old attached.new }
{
    Running::start(caw, storage, &mut *attached.drive)
}

// The program that runs at a drive does so many units, unless it ends before.
fn advance<S: ImageStore, M: MainStorage>(
    attached: &mut AttachedDrive<S>,
    running: &mut Running,
    units: u32,
    storage: &mut M,
) -> LongAdvance
    requires { Stands running.old attached.old.drive }
    ensures advances { OnlyDrive (AdvancesAt running.old (M.holds storage.old) units result running.new (M.holds storage.new)) attached.old
        attached.new }
    ensures place { M.place storage.new ≡ M.place storage.old }
{
    running.run_on(units, storage, &mut *attached.drive)
}

// The program that runs at a drive is cut.
fn cut<S: ImageStore>(
    attached: &mut AttachedDrive<S>,
    running: Running,
) -> (Csw, bool, Option<(u16, u16)>)
    requires { Stands running attached.old.drive }
    ensures { OnlyDrive (CutsAt running result) attached.old attached.new }
{
    running.cut(&mut *attached.drive)
}

// The arm is at rest, and all sense bytes zero.
fn reset<S: ImageStore>(attached: &mut AttachedDrive<S>)
    requires { Rests attached.old.drive }
    ensures { attached.new ≡ at_rest_attached attached.old }
{
    attached.arm = Arm::AtRest;
    attached.drive.clear_sense();
}

// The lowest address of a drive whose arm has arrived.
fn lowest_arrived<S: ImageStore>(drives: &[Option<AttachedDrive<S>>]) -> Option<u8>
    ensures { result ≡ lowest (filter has_arrived (map device_of (present drives.now))) }
{
    let [slot, others @ ..] = drives else {
        return None;
    };
    let behind = lowest_arrived(others);
    match slot {
        Some(attached) if attached.arm == Arm::Arrived => Some(lower(attached.device, behind)),
        _ => behind,
    }
}

fn lower(device: u8, behind: Option<u8>) -> u8
    ensures { Some result ≡ lower device behind }
{
    match behind {
        Some(other) if device >= other => other,
        _ => device,
    }
}
