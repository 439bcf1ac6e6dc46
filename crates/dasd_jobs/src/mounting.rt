//! Images in memory, and the files that hold them.

ghost use Rattle.std.specs.Prelude.{◌≡◌, ◌⊎◌, ◌+◌, ◌<◌, ◌≤◌, [], ◌∷◌, ◌++◌, vec_len, length, map, replicate, slice_index_or, None, All, IsSome, IfOk, IfErr};
ghost use Rattle.std.specs.Prelude.{OnOk};
ghost use Rattle.std.specs.List.{AllZip};
ghost use Rattle.arrayvec.specs.ArrayVec.{array_vec_len};
ghost use Rattle.ckd_image.specs.Files.{each};
ghost use Rattle.dasd_jobs.specs.Sources.{StandsIn, IsWhole, OpensPaths, ReadsWhole};
ghost use Rattle.dasd_jobs.specs.Opening.{IsHeadOf, AddsFile, NotLocked, IsNoImage};
ghost use Rattle.dasd_jobs.specs.Unopened.{NotRead, NotFormatted};
ghost use Rattle.dasd_jobs.specs.Written.{files_of};
ghost use Rattle.ckd_track.specs.Geometry.{new_geometry};
ghost use Rattle.ckd_image.specs.Layout.{image_length};
ghost use Rattle.ckd_image.specs.Image.{HoldsImage, new_image};
ghost use Rattle.dasd_jobs.specs.Back.{AreAsMade, IsWritten, IsWrittenOne, AreWritten, WritesBack};

use crate::faults::{JobFault, of_mount, of_read, of_write};
use crate::files::{FileFault, ImageFiles, NewFile, OpenedFile};
use crate::opened::{add_head, mounted, read_from};
use crate::reasons::{Head, remark_on};
use arrayvec::ArrayVec;
use ckd_image::{Image, ImageStore, MOST_FILES, MountFault, StoreFault, image_len};
use ckd_track::DriveModel;
use dasd_files::VolumeFile;
use std::alloc::Global;

/// The image that these files hold, in their order, read into memory. Each of them is locked, from before it is read, and no other
/// file is opened; their headers and lengths are judged before the rest is read. Its stores hold what was read, and are known by it.
///
/// # Errors
///
/// The first file that can't be locked or whose header can't be read; or why the files hold no image, all of which are opened then; or the
/// first that can't be read whole; or no memory. Of more files than an image has none is opened, and none behind one that is named again.
pub fn read_image<F: ImageFiles>(
    alloc: Global,
    files: &mut F,
    paths: &[&str],
) -> Result<Image<VolumeFile>, JobFault>
    ensures kept { F.written files.new ≡ F.written files.old }
    ensures as_read { IfOk result (λ i. HoldsImage i.lasting.origins i) }
    ensures whole { IfOk result (λ i. ReadsWhole (map (λ path. path.now) paths.now) i.lasting.origins (F.opened files.old) (F.opened files.new)) }
    ensures not_read { IfErr result (λ e. NotRead e (map (λ path. path.now) paths.now) (F.opened files.old) (F.opened files.new)) }
{
    if paths.len() > MOST_FILES {
        return Err(JobFault::Mount(MountFault::Split));
    }
    let mut heads = Vec::new(alloc);
    let mut locked = lock_files(alloc, files, paths, &mut heads)?;
    let heads = heads.as_slice();
    if let Err(fault) = mounted(heads, false) {
        remark_on(files, paths, heads, fault);
        return Err(of_mount(fault));
    }
    let stores = read_files(alloc, &mut locked, heads)?;
    mount(stores)
}

// The image in these stores.
fn mount(stores: ArrayVec<Option<VolumeFile>, MOST_FILES>) -> Result<Image<VolumeFile>, JobFault>
    requires there { All IsSome stores.items }
    requires as_made { AreAsMade stores.items }
    ensures as_read { IfOk result (λ i. HoldsImage i.lasting.origins i) }
    ensures same { IfOk result (λ i. i.lasting.origins ≡ each (λ s. s.content) stores.items) }
    ensures not_mounted { IfErr result (λ e. IsNoImage e (each (λ s. s.content) stores.items)) }
{
    match Image::mount_files(stores) {
        Ok(image) => Ok(image),
        Err((fault, _)) => Err(of_mount(fault)),
    }
}

// Locks these files, in their order, and reads their headers.
fn lock_files<F: ImageFiles>(
    alloc: Global,
    files: &mut F,
    paths: &[&str],
    heads: &mut Vec<Head>,
) -> Result<Vec<F::Opened>, JobFault>
    requires { heads.old.items ≡ [] }
    ensures kept { F.written files.new ≡ F.written files.old }
    ensures opens { IfOk result (λ locked. OpensPaths (map (λ path. path.now) paths.now) (map F.Opened.content locked.items)
        (F.opened files.old) (F.opened files.new)) }
    ensures heads { IfOk result (λ locked. AllZip IsHeadOf (map F.Opened.content locked.items) heads.new.items) }
    ensures not_locked { IfErr result (λ e. NotRead e (map (λ path. path.now) paths.now) (F.opened files.old) (F.opened files.new)) }
{
    let mut locked = Vec::new(alloc);
    for path in paths {
        lock_file(alloc, files, path, &mut locked, heads)?;
    }
    Ok(locked)
}

// Locks one file more. One that was locked before is none of the others of its image.
fn lock_file<F: ImageFiles>(
    alloc: Global,
    files: &mut F,
    path: &str,
    locked: &mut Vec<F::Opened>,
    heads: &mut Vec<Head>,
) -> Result<(), JobFault>
    ensures kept { F.written files.new ≡ F.written files.old }
    ensures adds { OnOk result (AddsFile path.now (map F.Opened.content locked.old.items) (map F.Opened.content locked.new.items)
        heads.old.items heads.new.items (F.opened files.old) (F.opened files.new)) }
    ensures not_locked { IfErr result (λ e. NotLocked e (length heads.old.items) path.now (F.opened files.old) (F.opened files.new)) }
{
    let file = match files.lock(alloc, path) {
        Ok(file) => file,
        Err(FileFault::Twice) if !heads.is_empty() => {
            return Err(JobFault::Mount(MountFault::Split));
        }
        Err(fault) => return Err(of_read(fault)),
    };
    add_head(file, locked, heads)
}

// The bytes of these files, which have these headers, in their order, or the first that can't be read.
fn read_files<O: OpenedFile>(
    alloc: Global,
    locked: &mut Vec<O>,
    heads: &[Head],
) -> Result<ArrayVec<Option<VolumeFile>, MOST_FILES>, JobFault>
    requires room { vec_len locked.old ≤ 8 }
    requires heads { AllZip IsHeadOf (map O.content locked.old.items) heads.now }
    ensures there { IfOk result (λ stores. All IsSome stores.items) }
    ensures as_made { IfOk result (λ stores. AreAsMade stores.items) }
    ensures whole { IfOk result (λ stores. AllZip IsWhole (map O.content locked.old.items) (each (λ s. s.content) stores.items)) }
    ensures fault { IfErr result (λ e. (e ≡ JobFault.Read) ⊎ (e ≡ JobFault.OutOfMemory)) }
{
    let mut stores = ArrayVec::new();
    for (i, head) in heads.iter().enumerate() {
        let bytes = read_bytes(alloc, locked, i, head.len)?;
        append(&mut stores, VolumeFile::new(bytes));
    }
    Ok(stores)
}

// Appends the store of a file.
fn append(stores: &mut ArrayVec<Option<VolumeFile>, MOST_FILES>, store: VolumeFile)
    requires room { array_vec_len stores.old < 8 }
    requires there { All IsSome stores.old.items }
    ensures there { All IsSome stores.new.items }
    ensures count { array_vec_len stores.new ≡ array_vec_len stores.old + 1 }
    ensures content { each (λ s. s.content) stores.new.items ≡ each (λ s. s.content) stores.old.items ++ store.content ∷ [] }
    ensures as_made { AreAsMade stores.old.items → store.content ≡ store.origin → AreAsMade stores.new.items }
{
    stores.push(Some(store));
}

// So many bytes of the file at this place, from its beginning on.
fn read_bytes<O: OpenedFile>(
    alloc: Global,
    locked: &mut Vec<O>,
    place: usize,
    len: u64,
) -> Result<Vec<u8>, JobFault>
    requires { place < vec_len locked.old }
    ensures read { IfOk result (λ bytes. StandsIn (slice_index_or (map O.content locked.old.items) place None) 0 bytes.items) }
    ensures count { IfOk result (λ bytes. length bytes.items ≡ len) }
    ensures kept { map O.content locked.new.items ≡ map O.content locked.old.items }
    ensures fault { IfErr result (λ e. (e ≡ JobFault.Read) ⊎ (e ≡ JobFault.OutOfMemory)) }
{
    let Ok(mut bytes) = vec![in alloc; 0u8; len as usize] else {
        return Err(JobFault::OutOfMemory);
    };
    match read_from(locked, place, 0, bytes.as_mut_slice()) {
        Ok(()) => Ok(bytes),
        Err(_) => Err(JobFault::Read),
    }
}

/// A new volume in memory.
///
/// # Errors
///
/// There is no memory for it, or it would have no cylinders.
pub fn new_image(
    alloc: Global,
    model: DriveModel,
    cylinders: u16,
) -> Result<Image<VolumeFile>, JobFault>
    ensures image { IfOk result (λ i. i ≡ new_image model cylinders (replicate (image_length (new_geometry model cylinders)) 0) 0) }
    ensures not_formatted { IfErr result (λ e. NotFormatted e cylinders) }
{
    let length = image_len(model, cylinders) as usize;
    let bytes = vec![in alloc; 0u8; length].map_err(|_| JobFault::OutOfMemory)?;
    match Image::format(VolumeFile::new(bytes), model, cylinders) {
        Ok(image) => Ok(image),
        Err((fault, _)) => Err(JobFault::Mount(fault)),
    }
}

// Begins a new file of these bytes, which is to take the place of the one at a path.
fn begin_with<'a, F: ImageFiles>(
    alloc: Global,
    files: &mut F,
    path: &'a str,
    bytes: &[u8],
) -> Result<NewFile<'a, F::Draft>, JobFault>
    ensures path { IfOk result (λ new. new.path.now ≡ path.now) }
    ensures bytes { IfOk result (λ new. F.Draft.content new.draft ≡ bytes.now) }
    ensures kept { F.written files.new ≡ F.written files.old }
    ensures same { F.opened files.new ≡ F.opened files.old }
{
    let mut draft = match files.begin(alloc, path, true) {
        Ok(draft) => draft,
        Err(fault) => return Err(of_write(fault)),
    };
    match write_bytes(&mut draft, bytes) {
        Ok(()) => Ok(NewFile { path, draft }),
        Err(_) => Err(JobFault::Write),
    }
}

// Writes bytes into a file without any.
fn write_bytes<D: ImageStore>(draft: &mut D, bytes: &[u8]) -> Result<(), StoreFault>
    requires empty { D.content draft.old ≡ [] }
    ensures { OnOk result (D.content draft.new ≡ bytes.now) }
{
    draft.write_at(0, bytes)
}

/// Saves an image as one: writes those of its files that were changed, each whole and in their order, and no other. Each of the others
/// holds what was read of it.
///
/// # Errors
///
/// A file can't be written: none is.
pub fn write_back<F: ImageFiles>(
    alloc: Global,
    files: &mut F,
    paths: &[&str],
    image: Image<VolumeFile>,
) -> Result<(), JobFault>
    ensures writes { WritesBack result (map (λ path. path.now) paths.now) image (F.written files.old) (F.written files.new) }
    ensures same { F.opened files.new ≡ F.opened files.old }
{
    let mut new = Vec::new(alloc);
    begin_changed(alloc, files, paths, image, &mut new)?;
    match files.put_all(new) {
        Ok(()) => Ok(()),
        Err(fault) => Err(of_write(fault)),
    }
}

/// Begins a new file for each file of an image that was changed, with all that this holds now, behind those that were begun before. None
/// of them is there yet.
///
/// # Errors
///
/// A file can't be written, or there is no memory.
pub fn begin_changed<'a, F: ImageFiles>(
    alloc: Global,
    files: &mut F,
    paths: &[&'a str],
    image: Image<VolumeFile>,
    new: &mut Vec<NewFile<'a, F::Draft>>,
) -> Result<(), JobFault>
    ensures begins { OnOk result (IsWritten (map (λ path. path.now) paths.now) image
        (files_of F.Draft.content new.old.items) (files_of F.Draft.content new.new.items)) }
    ensures kept { F.written files.new ≡ F.written files.old }
    ensures same { F.opened files.new ≡ F.opened files.old }
{
    let stores = image.into_stores();
    begin_stores(alloc, files, paths, stores.as_slice(), new)
}

// Begins a new file for each store that was changed.
fn begin_stores<'a, F: ImageFiles>(
    alloc: Global,
    files: &mut F,
    paths: &[&'a str],
    stores: &[Option<VolumeFile>],
    new: &mut Vec<NewFile<'a, F::Draft>>,
) -> Result<(), JobFault>
    ensures begins { OnOk result (AreWritten (map (λ path. path.now) paths.now) stores.now
        (files_of F.Draft.content new.old.items) (files_of F.Draft.content new.new.items)) }
    ensures kept { F.written files.new ≡ F.written files.old }
    ensures same { F.opened files.new ≡ F.opened files.old }
{
    for i in 0..paths.len() {
        if i < stores.len() {
            begin_one(alloc, files, paths[i], &stores[i], new)?;
        }
    }
    Ok(())
}

// Begins a new file for one that was changed.
fn begin_one<'a, F: ImageFiles>(
    alloc: Global,
    files: &mut F,
    path: &'a str,
    store: &Option<VolumeFile>,
    new: &mut Vec<NewFile<'a, F::Draft>>,
) -> Result<(), JobFault>
    ensures begins { OnOk result (IsWrittenOne path.now store.now (files_of F.Draft.content new.old.items) (files_of F.Draft.content new.new.items)) }
    ensures kept { F.written files.new ≡ F.written files.old }
    ensures same { F.opened files.new ≡ F.opened files.old }
{
    let store = match store {
        Some(store) if store.is_changed() => store,
        _ => return Ok(()),
    };
    let begun = begin_with(alloc, files, path, store.bytes())?;
    match new.push(begun) {
        Ok(()) => Ok(()),
        Err(_) => Err(JobFault::OutOfMemory),
    }
}
