//! An image in memory whose volume gets the data sets of a folder.

ghost use Rattle.std.specs.Prelude.{◌≡◌, ◌==◌, if◌then◌else◌, codes, ◌++◌, map, slice_index_or, [], IfOk, IfErr, OnOk, None, Some};
ghost use Rattle.std.specs.String.{string_bytes};
ghost use Rattle.changed_volumes.specs.Changes.{IsSameImage};
ghost use Rattle.dasd_unload.specs.Unloads.{file_name};
ghost use Rattle.loaded_sets.specs.Loads.{loaded_line};
ghost use Rattle.loaded_folders.specs.Loads.{form_of, undetailed, uncarried, IsSequential, GetsBy, GetsOne, GetsAll, IsStopped};
ghost use Rattle.loaded_folders.specs.Parts.{folder_set, IsNoMemory, IsToldOf, IsNotBy, IsNotOne, IsUncarried};

use crate::entries::{entries_of, member_entries};
use crate::fault::{FolderFault, FolderRefusal, NO_MEMORY, Uncarried};
use crate::sets::FolderSet;
use changed_volumes::ChangeFault;
use ckd_image::Image;
use dasd_files::VolumeFile;
use loaded_sets::{
    LoadFault, LoadedLibrary, LoadedSet, NewSetForm, SourceForm, load_image, load_library,
    new_label,
};
use set_forms::{SetDetails, SetForm};
use std::alloc::{AllocError, Global};
use volume_labels::{RecordAttributes, safe_name};

/// The bits of an organisation that say that a data set is direct, and that it is indexed sequential (IBM System/360 Operating System, System
/// Control Blocks, 'Data Set Control Block', format 1, DS1DSORG).
const DIRECT: u16 = 0x2000;

const INDEXED: u16 = 0x8000;

/// The bits of the types of extents that say that one shares its cylinders, and that one is for user labels.
const SHARED: u8 = 0x80;

const USER_LABELS: u8 = 0x40;

// What the label of a data set is to say, by its line.
fn form_of(line: &SetForm) -> NewSetForm
    ensures { result ≡ form_of line.now }
{
    NewSetForm {
        organisation: line.organisation,
        attributes: RecordAttributes {
            format: line.format,
            record_length: line.record_length,
            block_length: line.block_length,
        },
        key_length: line.key_length,
        created: line.created,
        expires: line.expires,
    }
}

// What the fault of a data set of a name is.
fn of_load(alloc: Global, name: &[u8; 44], fault: LoadFault) -> FolderFault
    ensures { IsToldOf result name.now fault }
{
    match fault {
        ChangeFault::Refused(refusal) => match safe_name(alloc, name) {
            Ok(name) => ChangeFault::Refused(FolderRefusal::Load(name, refusal)),
            Err(_) => NO_MEMORY,
        },
        ChangeFault::Job(fault) => ChangeFault::Job(fault),
        ChangeFault::Save(fault) => ChangeFault::Save(fault),
    }
}

// The bytes of a data set's own file.
fn bytes_of<'a>(set: &FolderSet<'a>) -> &'a [u8]
    ensures { result.now ≡ slice_index_or (folder_set set.now).files 0 [] }
{
    match set.files {
        [bytes, ..] => bytes.as_slice(),
        [] => &[],
    }
}

// Puts a data set without a directory onto the volume of an image.
fn load_sequential(
    alloc: Global,
    image: &mut Image<VolumeFile>,
    source: SourceForm,
    set: &FolderSet,
) -> Result<u32, FolderFault>
    ensures same { IsSameImage image.old image.new }
    ensures loaded { IfOk result (λ tracks. GetsBy None source (folder_set set.now) image.old.geometry image.old.slots tracks image.new.slots) }
    ensures fault { IfErr result (λ e. IsNotBy None e source (folder_set set.now) image.old.geometry image.old.slots) }
{
    let line = &set.lines.form;
    let loaded = LoadedSet {
        name: line.name,
        form: form_of(line),
        kept: new_label(),
        source,
        bytes: bytes_of(set),
    };
    match load_image(alloc, image, &loaded) {
        Ok(tracks) => Ok(tracks),
        Err(fault) => Err(of_load(alloc, &line.name, fault)),
    }
}

// Puts a library with a directory of so many blocks onto the volume of an image.
fn load_partitioned(
    alloc: Global,
    image: &mut Image<VolumeFile>,
    source: SourceForm,
    set: &FolderSet,
    blocks: u16,
) -> Result<u32, FolderFault>
    ensures same { IsSameImage image.old image.new }
    ensures loaded { IfOk result (λ tracks. GetsBy (Some blocks) source (folder_set set.now) image.old.geometry image.old.slots tracks
        image.new.slots) }
    ensures fault { IfErr result (λ e. IsNotBy (Some blocks) e source (folder_set set.now) image.old.geometry image.old.slots) }
{
    let line = &set.lines.form;
    let entries = match entries_of(alloc, &line.name, set.lines.entries.as_slice()) {
        Ok(entries) => entries,
        Err(fault) => return Err(fault),
    };
    let Ok(entries) = member_entries(alloc, entries.as_slice()) else {
        return Err(NO_MEMORY);
    };
    let Ok(members) = slices(alloc, set.files) else {
        return Err(NO_MEMORY);
    };
    let library = LoadedLibrary {
        name: line.name,
        form: form_of(line),
        kept: new_label(),
        source,
        directory_blocks: usize::from(blocks),
        entries: entries.as_slice(),
        members: members.as_slice(),
    };
    match load_library(alloc, image, &library) {
        Ok(tracks) => Ok(tracks),
        Err(fault) => Err(of_load(alloc, &line.name, fault)),
    }
}

// The bytes of files as slices.
fn slices(alloc: Global, files: &[Vec<u8>]) -> Result<Vec<&[u8]>, AllocError>
    ensures { IfOk result (λ all. map (λ f. f.now) all.items ≡ map (λ f. f.items) files.now) }
{
    let mut all = Vec::new(alloc);
    for file in files {
        all.push(file.as_slice())?;
    }
    Ok(all)
}

// Why a folder does not carry the data set of a line, if it does not.
fn uncarried(line: &SetForm) -> Option<Uncarried>
    ensures { result ≡ uncarried line.now }
{
    if line.organisation & DIRECT != 0 {
        return Some(Uncarried::Direct);
    }
    if line.organisation & INDEXED != 0 {
        return Some(Uncarried::Indexed);
    }
    match line.details {
        Some(details) => undetailed(details),
        None => None,
    }
}

// The same by what the line says of its volume and its extents.
fn undetailed(details: SetDetails) -> Option<Uncarried>
    ensures { result ≡ undetailed details }
{
    if details.volume > 1 {
        return Some(Uncarried::Part(details.volume));
    }
    if details.extents & SHARED != 0 {
        return Some(Uncarried::Shared);
    }
    if details.extents & USER_LABELS != 0 {
        return Some(Uncarried::UserLabels);
    }
    None
}

// What it is that a folder does not carry a data set of a name.
fn of_uncarried(alloc: Global, name: &[u8; 44], why: Uncarried) -> FolderFault
    ensures { IsUncarried result name.now why }
{
    match safe_name(alloc, name) {
        Ok(name) => ChangeFault::Refused(FolderRefusal::Uncarried(name, why)),
        Err(_) => NO_MEMORY,
    }
}

// Puts a data set of a folder onto the volume of an image, if the folder carries it.
#[tactic(auto, using(crate::proofs::Told::not_carried, crate::proofs::Told::gets_one, crate::proofs::Told::not_one_if))]
fn load_one(
    alloc: Global,
    image: &mut Image<VolumeFile>,
    source: SourceForm,
    set: &FolderSet,
) -> Result<u32, FolderFault>
    ensures same { IsSameImage image.old image.new }
    ensures loaded { IfOk result (λ tracks. GetsOne source (folder_set set.now) image.old.geometry image.old.slots tracks image.new.slots) }
    ensures fault { IfErr result (λ e. IsNotOne e source (folder_set set.now) image.old.geometry image.old.slots) }
{
    let line = &set.lines.form;
    if let Some(why) = uncarried(line) {
        return Err(of_uncarried(alloc, &line.name, why));
    }
    match line.directory {
        None => load_sequential(alloc, image, source, set),
        Some(blocks) => load_partitioned(alloc, image, source, set, blocks),
    }
}

// Adds the line of a data set with so many tracks.
fn push_line(
    alloc: Global,
    lines: &mut String,
    name: &[u8; 44],
    tracks: u32,
) -> Result<(), FolderFault>
    ensures line { OnOk result (string_bytes lines.new ≡ string_bytes lines.old ++ loaded_line (file_name name.now None) tracks) }
    ensures fault { IfErr result IsNoMemory }
{
    match add_line(alloc, lines, name, tracks) {
        Ok(()) => Ok(()),
        Err(_) => Err(NO_MEMORY),
    }
}

// The same; an error says only that there is no memory.
fn add_line(
    alloc: Global,
    lines: &mut String,
    name: &[u8; 44],
    tracks: u32,
) -> Result<(), AllocError>
    ensures { OnOk result (string_bytes lines.new ≡ string_bytes lines.old ++ loaded_line (file_name name.now None) tracks) }
{
    let name = safe_name(alloc, name)?;
    let count = tracks.to_string(alloc)?;
    push(lines, "loaded ")?;
    push(lines, name.as_str())?;
    push(lines, " ")?;
    push(lines, count.as_str())?;
    push(lines, noun(tracks))?;
    push(lines, "\n")
}

// What so many tracks are.
fn noun(tracks: u32) -> &'static str
    ensures { result.now ≡ (if tracks == 1 then codes " track" else codes " tracks") }
{
    if tracks == 1 { " track" } else { " tracks" }
}

// Adds a text.
fn push(to: &mut String, text: &str) -> Result<(), AllocError>
    ensures { OnOk result (string_bytes to.new ≡ string_bytes to.old ++ text.now) }
{
    to.push_str(text)
}

/// Puts data sets of a folder onto the volume of an image in memory, one behind another, and answers the lines that say so.
///
/// # Errors
///
/// The first that is not loaded, for whichever reason; or there is no memory. The image then holds any bytes in its slots.
pub(crate) fn load_all(
    alloc: Global,
    image: &mut Image<VolumeFile>,
    source: SourceForm,
    sets: &[FolderSet],
) -> Result<String, FolderFault>
    ensures same { IsSameImage image.old image.new }
    ensures loaded { IfOk result (λ lines. GetsAll source (map folder_set sets.now) image.old.geometry image.old.slots image.new.slots
        (string_bytes lines)) }
    ensures fault { IfErr result (λ e. IsStopped e source (map folder_set sets.now) image.old.geometry image.old.slots) }
{
    let mut lines = String::new(alloc);
    for set in sets {
        let tracks = match load_one(alloc, image, source, set) {
            Ok(tracks) => tracks,
            Err(fault) => return Err(fault),
        };
        match push_line(alloc, &mut lines, &set.lines.form.name, tracks) {
            Ok(()) => {}
            Err(fault) => return Err(fault),
        }
    }
    Ok(lines)
}
