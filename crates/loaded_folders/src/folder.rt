//! The files of a folder are read.

ghost use Rattle.std.specs.Prelude.{◌≡◌, ◌≤◌, ◌<◌, ◌++◌, ◌∷◌, [], length, map, Ok, IfOk, IfErr, OnOk, OnErr};
ghost use Rattle.std.specs.String.{string_bytes};
ghost use Rattle.dasd_jobs.specs.Sources.{ReadsFront};
ghost use Rattle.dasd_unload.specs.Volumes.{path_in};
ghost use Rattle.set_forms.specs.Parsing.{parsed};
ghost use Rattle.loaded_folders.specs.Reading.{HasText, ReadsFiles};
ghost use Rattle.loaded_folders.specs.Parts.{IsNoMemory, IsNoFile, HasNoText, IsWrong, StopsReading};

use crate::fault::{FolderFault, FolderRefusal, NO_MEMORY};
use crate::names::path_in;
use changed_volumes::ChangeFault;
use dasd_jobs::{FileFault, ImageFiles};
use set_forms::{FILE_NAME, FormLine, TextFault, parse};
use std::alloc::Global;

/// The most bytes that the text of a folder may have.
const MOST_TEXT: usize = 16_777_216;

/// More bytes than a volume has room for: of 65,535 cylinders with 20 heads, whose tracks have 7,294 bytes each.
const MOST_BYTES: usize = 9_560_245_800;

// What a fault of the file of a name is.
fn of_file(alloc: Global, name: &str, fault: FileFault) -> FolderFault
    ensures { IsNoFile result name.now }
{
    match fault {
        FileFault::OutOfMemory => NO_MEMORY,
        _ => match name.to_string(alloc) {
            Ok(name) => ChangeFault::Refused(FolderRefusal::NoFile(name)),
            Err(_) => NO_MEMORY,
        },
    }
}

/// Reads the text of a folder.
///
/// # Errors
///
/// It can't be read, or is longer than it may be; or there is no memory.
pub(crate) fn read_text<F: ImageFiles>(
    alloc: Global,
    files: &mut F,
    folder: &str,
) -> Result<Vec<u8>, FolderFault>
    ensures kept { F.written files.new ≡ F.written files.old }
    ensures text { IfOk result (λ text. HasText folder.now text.items (F.opened files.old) (F.opened files.new)) }
    ensures fault { IfErr result (λ e. HasNoText e folder.now (F.opened files.old) (F.opened files.new)) }
{
    let Ok(path) = path_in(alloc, folder, FILE_NAME) else {
        return Err(NO_MEMORY);
    };
    match files.read(alloc, path.as_str(), MOST_TEXT + 1) {
        Ok(text) => short(text),
        Err(fault) => Err(of_file(alloc, FILE_NAME, fault)),
    }
}

// A text, if it is no longer than it may be.
fn short(text: Vec<u8>) -> Result<Vec<u8>, FolderFault>
    ensures short { IfOk result (λ same. (same.items ≡ text.items) × (length text.items ≤ 16777216)) }
    ensures long { IfErr result (λ e. (e ≡ ChangeFault.Refused FolderRefusal.TooLong) × (16777216 < length text.items)) }
{
    if text.len() > MOST_TEXT {
        return Err(ChangeFault::Refused(FolderRefusal::TooLong));
    }
    Ok(text)
}

/// What the lines of a text say.
///
/// # Errors
///
/// The first line that is wrong is told; or there is no memory.
pub(crate) fn parse_text(alloc: Global, text: &[u8]) -> Result<Vec<FormLine>, FolderFault>
    ensures forms { IfOk result (λ forms. parsed text.now ≡ Ok forms.items) }
    ensures fault { IfErr result (λ e. IsWrong e text.now) }
{
    match parse(alloc, text) {
        Ok(forms) => Ok(forms),
        Err(TextFault::Line(number, fault)) => {
            Err(ChangeFault::Refused(FolderRefusal::Line(number, fault)))
        }
        Err(TextFault::OutOfMemory) => Err(NO_MEMORY),
    }
}

// Reads the file of a name from a folder.
fn read_file<F: ImageFiles>(
    alloc: Global,
    files: &mut F,
    folder: &str,
    name: &str,
) -> Result<Vec<u8>, FolderFault>
    ensures kept { F.written files.new ≡ F.written files.old }
    ensures read { IfOk result (λ bytes. ReadsFront (path_in folder.now name.now) 9560245800 bytes.items (F.opened files.old) (F.opened files.new)) }
    ensures same { OnErr result (F.opened files.new ≡ F.opened files.old) }
    ensures fault { IfErr result (λ e. IsNoFile e name.now) }
{
    let Ok(path) = path_in(alloc, folder, name) else {
        return Err(NO_MEMORY);
    };
    match files.read(alloc, path.as_str(), MOST_BYTES) {
        Ok(bytes) => Ok(bytes),
        Err(fault) => Err(of_file(alloc, name, fault)),
    }
}

// Adds the bytes of a file.
fn push(all: &mut Vec<Vec<u8>>, bytes: Vec<u8>) -> Result<(), FolderFault>
    ensures all { OnOk result (map (λ b. b.items) all.new.items ≡ map (λ b. b.items) all.old.items ++ bytes.items ∷ []) }
    ensures fault { IfErr result IsNoMemory }
{
    match all.push(bytes) {
        Ok(()) => Ok(()),
        Err(_) => Err(NO_MEMORY),
    }
}

/// Reads the files of these names from a folder, one behind another.
///
/// # Errors
///
/// The first that can't be read is told; or there is no memory.
pub(crate) fn read_files<F: ImageFiles>(
    alloc: Global,
    files: &mut F,
    folder: &str,
    names: &[String],
) -> Result<Vec<Vec<u8>>, FolderFault>
    ensures kept { F.written files.new ≡ F.written files.old }
    ensures read { IfOk result (λ all. ReadsFiles folder.now (map string_bytes names.now) (map (λ b. b.items) all.items) (F.opened files.old)
        (F.opened files.new)) }
    ensures fault { IfErr result (λ e. StopsReading e folder.now (map string_bytes names.now) (F.opened files.old) (F.opened files.new)) }
{
    let mut all = Vec::new(alloc);
    for name in names {
        let bytes = match read_file(alloc, files, folder, name.as_str()) {
            Ok(bytes) => bytes,
            Err(fault) => return Err(fault),
        };
        match push(&mut all, bytes) {
            Ok(()) => {}
            Err(fault) => return Err(fault),
        }
    }
    Ok(all)
}
