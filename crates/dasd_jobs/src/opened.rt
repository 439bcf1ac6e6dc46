//! The volume in files that are read in place.

ghost use Rattle.std.specs.Prelude.{◌≡◌, ◌≢◌, ◌⊎◌, ◌+◌, ◌*◌, ◌<◌, ◌≤◌, ◌++◌, ◌∷◌, vec_len, length, map, slice_index_or, All, IsSome, [], None, Ok, IfOk, IfErr};
ghost use Rattle.std.specs.Prelude.{IfSome, IfNone, OnOk};
ghost use Rattle.std.specs.List.{sum};
ghost use Rattle.std.specs.List.{AllZip, AllByRecursion};
ghost use Rattle.arrayvec.specs.ArrayVec.{array_vec_len};
ghost use Rattle.ckd_track.specs.Geometry.{IsGeometry};
ghost use Rattle.ckd_image.specs.Header.{mount_of};
ghost use Rattle.ckd_image.specs.Files.{each, place_in};
ghost use Rattle.dasd_jobs.specs.Sources.{StandsIn, IsHeader, OpensPaths, Mounts, IsReach};
ghost use Rattle.dasd_jobs.specs.Unopened.{NotOpened};
ghost use Rattle.dasd_jobs.specs.Opening.{IsHeadOf, AddsFile, AddsHead, NotAdded, IsBroken, alone, judged};

use crate::faults::{JobFault, of_mount, of_read};
use crate::files::{ImageFiles, OpenedFile};
use crate::headers::HeaderStore;
use crate::lengths::{Reach, judged_at, lacking, left_out, remark_reach, tracks_in};
use crate::reasons::{Head, remark_on};
use arrayvec::ArrayVec;
use ckd_image::{HEADER_LENGTH, Image, MOST_FILES, MountFault, StoreFault};
use ckd_track::Geometry;
use dasd_volumes::SlotReader;
use ghost_data::Count;
use std::alloc::Global;
use std::marker::Model;

/// A volume whose files were opened, and are read slot by slot.
#[derive(Drop)]
pub struct OpenedVolume<O: OpenedFile> {
    files: Vec<O>,
    /// How many tracks each file holds.
    tracks: ArrayVec<u32, MOST_FILES>,
    geometry: Geometry,
    reach: Reach,
    failed: Count,
}

impl<O: OpenedFile> Model for OpenedVolume<O> {
    ghost use Rattle.std.specs.Prelude.{◌≡◌, length, map};
    ghost use Rattle.ckd_track.specs.Geometry.{IsGeometry};
    ghost use Rattle.dasd_jobs.specs.Sources.{OpenedState, IsReach};
    ghost use Rattle.dasd_jobs.specs.Opening.{Lies};

    ghost Value = { OpenedState };

    ghost view = { λ v. record { geometry = v.geometry; contents = map O.content v.files.items; failures = v.failed } };

    ghost invariant = { λ v. IsGeometry v.geometry × (length v.files.items ≡ length v.tracks.items)
        × Lies v.geometry (map O.content v.files.items) v.tracks.items × IsReach v.geometry (map O.content v.files.items) v.reach };
}

impl<O: OpenedFile> SlotReader for OpenedVolume<O> {
    ghost use Rattle.dasd_jobs.specs.Sources.{volume_in};

    ghost volume = { λ v. volume_in v.geometry v.contents };

    ghost failures = { λ v. v.failures };

    fn geometry(&self) -> Geometry {
        self.geometry
    }

    fn load(&mut self, track: u32, slot: &mut [u8]) -> Result<usize, StoreFault> {
        let size = self.geometry.track_size;
        match load_from(&mut self.files, self.tracks.as_slice(), size, track, slot) {
            Ok(held) => Ok(held),
            Err(fault) => {
                self.failed = self.failed.next();
                Err(fault)
            }
        }
    }
}

/// Where the slot of a track is: the place of the file that holds it, and the track's number among those of that file.
#[derive(Clone, Copy)]
struct SlotPlace {
    file: usize,
    track: u32,
}

// Where the slot of a track is, in files of so many tracks each; nowhere behind the last one.
fn place_of(tracks: &[u32], track: u32) -> Option<SlotPlace>
    ensures held { IfSome result (λ place. track < sum tracks.now) }
    ensures lacking { IfNone result (sum tracks.now ≤ track) }
    ensures exists { IfSome result (λ place. place.file < length tracks.now) }
    ensures file { IfSome result (λ place. place.file ≡ (place_in tracks.now track).file) }
    ensures track { IfSome result (λ place. place.track ≡ (place_in tracks.now track).track) }
{
    let [held, others @ ..] = tracks else {
        return None;
    };
    if track < *held {
        return Some(SlotPlace { file: 0, track });
    }
    match place_of(others, track - *held) {
        Some(behind) => Some(SlotPlace {
            file: behind.file + 1,
            track: behind.track,
        }),
        None => None,
    }
}

// Reads the slot of a track from its place in the file that holds it, and says how many of its bytes there are; none where no file does.
fn load_from<O: OpenedFile>(
    files: &mut Vec<O>,
    tracks: &[u32],
    size: u32,
    track: u32,
    slot: &mut [u8],
) -> Result<usize, StoreFault>
    requires { vec_len files.old ≡ length tracks.now }
    ensures within { IfOk result (λ held. held ≤ length slot.new) }
    ensures read { let place = place_in tracks.now track in IfOk result (λ held. track < sum tracks.now → (held ≡ length slot.new)
        × StandsIn (slice_index_or (map O.content files.old.items) place.file None) (512 + place.track * size) slot.new) }
    ensures lacking { IfOk result (λ held. sum tracks.now ≤ track → held ≡ 0) }
    ensures kept { map O.content files.new.items ≡ map O.content files.old.items }
{
    let Some(place) = place_of(tracks, track) else {
        return Ok(0);
    };
    let at = HEADER_LENGTH as u64 + place.track as u64 * size as u64;
    match read_from(files, place.file, at, slot) {
        Ok(()) => Ok(slot.len()),
        Err(fault) => Err(fault),
    }
}

/// Reads from the file at this place.
pub(crate) fn read_from<O: OpenedFile>(
    files: &mut Vec<O>,
    place: usize,
    at: u64,
    into: &mut [u8],
) -> Result<(), StoreFault>
    requires { place < vec_len files.old }
    ensures read { OnOk result (StandsIn (slice_index_or (map O.content files.old.items) place None) at into.new) }
    ensures kept { map O.content files.new.items ≡ map O.content files.old.items }
{
    let files = files.as_mut_slice();
    files[place].read_at(at, into)
}

/// The volume of the image that these files hold, in their order: their headers are read and judged, and their lengths; but for that of
/// the last one, or of the only one, where they are read as far as they go: then the volume has each cylinder of which a slot stands whole
/// in a file, and may lack tracks. It is read slot by slot, while the files stay as they are.
///
/// # Errors
///
/// The first file that can't be opened or whose header can't be read; or why the files hold no image, all of which are opened then; or no
/// memory. Of more files than an image has none is opened.
pub fn open_volume<F: ImageFiles>(
    alloc: Global,
    files: &mut F,
    paths: &[&str],
    as_far: bool,
) -> Result<OpenedVolume<F::Opened>, JobFault>
    ensures kept { F.written files.new ≡ F.written files.old }
    ensures fault { IfErr result (λ e. e ≢ JobFault.Write) }
    ensures opens { IfOk result (λ v. OpensPaths (map (λ path. path.now) paths.now) v.contents (F.opened files.old) (F.opened files.new)) }
    ensures mounts { IfOk result (λ v. Mounts as_far v.contents v.geometry) }
    ensures not_opened { IfErr result (λ e. NotOpened as_far e (map (λ path. path.now) paths.now) (F.opened files.old) (F.opened files.new)) }
{
    if paths.len() > MOST_FILES {
        return Err(JobFault::Mount(MountFault::Split));
    }
    let mut opened = Vec::new(alloc);
    let mut heads = Vec::new(alloc);
    for path in paths {
        add_file(alloc, files, path, &mut opened, &mut heads)?;
    }
    let heads = heads.as_slice();
    match mounted(heads, as_far) {
        Ok(geometry) => {
            let volume = volume_of(opened, heads, geometry);
            remark_reach(files, paths, geometry, volume.reach);
            Ok(volume)
        }
        Err(fault) => {
            remark_on(files, paths, heads, fault);
            Err(of_mount(fault))
        }
    }
}

// Opens one file more, and keeps it with its header.
fn add_file<F: ImageFiles>(
    alloc: Global,
    files: &mut F,
    path: &str,
    opened: &mut Vec<F::Opened>,
    heads: &mut Vec<Head>,
) -> Result<(), JobFault>
    ensures kept { F.written files.new ≡ F.written files.old }
    ensures fault { IfErr result (λ e. e ≢ JobFault.Write) }
    ensures adds { OnOk result (AddsFile path.now (map F.Opened.content opened.old.items) (map F.Opened.content opened.new.items)
        heads.old.items heads.new.items (F.opened files.old) (F.opened files.new)) }
    ensures not_added { IfErr result (λ e. NotAdded e path.now (F.opened files.old) (F.opened files.new)) }
{
    match files.open(alloc, path) {
        Ok(file) => add_head(file, opened, heads),
        Err(fault) => Err(of_read(fault)),
    }
}

/// Keeps a file that was opened, with its header.
///
/// # Errors
///
/// The header can't be read, or there is no memory.
pub(crate) fn add_head<O: OpenedFile>(
    mut file: O,
    opened: &mut Vec<O>,
    heads: &mut Vec<Head>,
) -> Result<(), JobFault>
    ensures adds { OnOk result (AddsHead (O.content file) (map O.content opened.old.items) (map O.content opened.new.items) heads.old.items heads.new.items) }
    ensures fault { IfErr result (λ e. (e ≡ JobFault.Read) ⊎ (e ≡ JobFault.OutOfMemory)) }
{
    let head = read_head(&mut file)?;
    push(heads, head)?;
    push(opened, file)?;
    Ok(())
}

// One more at the end of a list.
fn push<T: Drop>(list: &mut Vec<T>, item: T) -> Result<(), JobFault>
    ensures pushed { OnOk result (list.new.items ≡ list.old.items ++ item ∷ []) }
    ensures fault { IfErr result (λ e. e ≡ JobFault.OutOfMemory) }
{
    match list.push(item) {
        Ok(()) => Ok(()),
        Err(_) => Err(JobFault::OutOfMemory),
    }
}

// The header of a file and its length.
fn read_head<O: OpenedFile>(file: &mut O) -> Result<Head, JobFault>
    ensures head { IfOk result (IsHeadOf (O.content file.old)) }
    ensures kept { O.content file.new ≡ O.content file.old }
    ensures fault { IfErr result (λ e. e ≡ JobFault.Read) }
{
    let len = file.len();
    let mut header = [0; HEADER_LENGTH];
    if len < HEADER_LENGTH as u64 {
        return Ok(Head { header, len });
    }
    match file.read_at(0, &mut header) {
        Ok(()) => Ok(Head { header, len }),
        Err(_) => Err(JobFault::Read),
    }
}

/// The geometry of the volume in files with these headers, which are read as far as they go or not; or why they hold none.
#[tactic(auto, using(crate::proofs::Reached::judged_count))]
pub(crate) fn mounted(heads: &[Head], as_far: bool) -> Result<Geometry, MountFault>
    ensures valid { IfOk result IsGeometry }
    ensures mounts { IfOk result (λ g. mount_of (map alone (judged as_far heads.now)) ≡ Ok g) }
    ensures long { IfOk result (λ g. AllByRecursion (λ head. 512 ≤ head.len) heads.now) }
    ensures not_mounted { IfErr result (λ e. length heads.now ≤ 8 → IsBroken e (map alone (judged as_far heads.now))) }
{
    let mut stores = ArrayVec::new();
    for i in 0..heads.len() {
        if stores.is_full() {
            return Err(MountFault::Split);
        }
        let head = judged_at(heads, i, as_far);
        append(&mut stores, HeaderStore::new(head.header, head.len));
    }
    match Image::mount_files(stores) {
        Ok(image) => Ok(image.geometry()),
        Err((fault, _)) => Err(fault),
    }
}

// Appends the store of a header.
fn append(stores: &mut ArrayVec<Option<HeaderStore>, MOST_FILES>, store: HeaderStore)
    requires room { array_vec_len stores.old < 8 }
    requires there { All IsSome stores.old.items }
    ensures there { All IsSome stores.new.items }
    ensures count { array_vec_len stores.new ≡ array_vec_len stores.old + 1 }
    ensures content { each (λ s. s.content) stores.new.items ≡ each (λ s. s.content) stores.old.items ++ store.content ∷ [] }
{
    stores.push(Some(store));
}

// The volume of this geometry in files with these headers.
fn volume_of<O: OpenedFile>(files: Vec<O>, heads: &[Head], geometry: Geometry) -> OpenedVolume<O>
    requires valid { IsGeometry geometry }
    requires heads { AllZip IsHeadOf (map O.content files.items) heads.now }
    requires long { AllByRecursion (λ head. 512 ≤ head.len) heads.now }
    requires room { length heads.now ≤ 8 }
    ensures { result ≡ record { geometry = geometry; contents = map O.content files.items; failures = 0 } }
{
    let mut tracks = ArrayVec::new();
    for head in heads {
        tracks.push(tracks_in(head, geometry));
    }
    let reach = Reach {
        lacking: lacking(tracks.as_slice(), geometry.tracks()),
        left_out: left_out(heads, geometry),
    };
    OpenedVolume {
        files,
        tracks,
        geometry,
        reach,
        failed: Count::new(),
    }
}

impl<O: OpenedFile> OpenedVolume<O> {
    /// How far its files go.
    pub fn reach(&self) -> Reach
        ensures { IsReach self.now.geometry self.now.contents result }
    {
        self.reach
    }

    /// The headers of its files, in their order, read of the files that were opened for it.
    ///
    /// # Errors
    ///
    /// A header can't be read, or there is no memory.
    pub fn read_headers(&mut self, alloc: Global) -> Result<Vec<[u8; HEADER_LENGTH]>, JobFault>
        ensures headers { IfOk result (λ headers. AllZip IsHeader self.old.contents headers.items) }
        ensures kept { self.new ≡ self.old }
        ensures fault { IfErr result (λ e. (e ≡ JobFault.Read) ⊎ (e ≡ JobFault.OutOfMemory)) }
    {
        headers_of(alloc, &mut self.files)
    }
}

// The headers of these files, in their order.
fn headers_of<O: OpenedFile>(
    alloc: Global,
    files: &mut Vec<O>,
) -> Result<Vec<[u8; HEADER_LENGTH]>, JobFault>
    ensures headers { IfOk result (λ headers. AllZip IsHeader (map O.content files.old.items) headers.items) }
    ensures kept { map O.content files.new.items ≡ map O.content files.old.items }
    ensures fault { IfErr result (λ e. (e ≡ JobFault.Read) ⊎ (e ≡ JobFault.OutOfMemory)) }
{
    let mut headers = Vec::new(alloc);
    for i in 0..files.len() {
        let header = match header_of(files, i) {
            Ok(header) => header,
            Err(fault) => return Err(fault),
        };
        if headers.push(header).is_err() {
            return Err(JobFault::OutOfMemory);
        }
    }
    Ok(headers)
}

// The header of the file at this place.
fn header_of<O: OpenedFile>(
    files: &mut Vec<O>,
    place: usize,
) -> Result<[u8; HEADER_LENGTH], JobFault>
    requires { place < vec_len files.old }
    ensures header { IfOk result (IsHeader (slice_index_or (map O.content files.old.items) place None)) }
    ensures kept { map O.content files.new.items ≡ map O.content files.old.items }
    ensures fault { IfErr result (λ e. e ≡ JobFault.Read) }
{
    let mut header = [0; HEADER_LENGTH];
    match read_from(files, place, 0, &mut header) {
        Ok(()) => Ok(header),
        Err(_) => Err(JobFault::Read),
    }
}
