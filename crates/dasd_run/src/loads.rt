//! The files that a text in words loads.

ghost use Rattle.std.specs.Prelude.{◌≡◌, map};
ghost use Rattle.dasd_run.specs.Loads.{ReadsNamed, AddsLoaded, Loads};

use dasd_jobs::{FileFault, ImageFiles};
use s360_assembler::{AssemblyFault, LoadableFile};
use std::alloc::Global;

/// The most bytes that files may have together: a deck spells each by two digits, and has at most twice as many bytes.
const MOST_BYTES: usize = 524_288;

// The file of a name; none where it can't be read.
fn read_named<F: ImageFiles>(
    alloc: Global,
    files: &mut F,
    name: &[u8],
) -> Result<Option<LoadableFile>, AssemblyFault>
    ensures kept { F.written files.new ≡ F.written files.old }
    ensures reads { ReadsNamed result name.now (F.opened files.old) (F.opened files.new) }
{
    let Ok(copy) = name.to_vec(alloc) else {
        return Err(AssemblyFault::OutOfMemory);
    };
    let Ok(path) = std::str::from_utf8(name) else {
        return Ok(None);
    };
    match files.read(alloc, path, MOST_BYTES + 1) {
        Ok(bytes) => Ok(Some(LoadableFile { name: copy, bytes })),
        Err(FileFault::OutOfMemory) => Err(AssemblyFault::OutOfMemory),
        Err(_) => Ok(None),
    }
}

// Adds a file, if there is one, and answers how many bytes more may be loaded.
fn add_loaded(
    loaded: &mut Vec<LoadableFile>,
    left: usize,
    file: Option<LoadableFile>,
) -> Result<usize, AssemblyFault>
    ensures { AddsLoaded result file left loaded.old.items loaded.new.items }
{
    let Some(file) = file else {
        return Ok(left);
    };
    let size = file.bytes.len();
    if size > left {
        return Err(AssemblyFault::TooLong);
    }
    match loaded.push(file) {
        Ok(()) => Ok(left - size),
        Err(_) => Err(AssemblyFault::OutOfMemory),
    }
}

/// The files of these names, as far as they can be read.
///
/// # Errors
///
/// They have more bytes together than a deck can have; or there is no memory.
pub(crate) fn load_files<F: ImageFiles>(
    alloc: Global,
    files: &mut F,
    names: &[Vec<u8>],
) -> Result<Vec<LoadableFile>, AssemblyFault>
    ensures kept { F.written files.new ≡ F.written files.old }
    ensures loads { Loads result (map (λ name. name.items) names.now) (F.opened files.old) (F.opened files.new) }
{
    let mut loaded = Vec::new(alloc);
    let mut left = MOST_BYTES;
    for i in 0..names.len() {
        let file = read_named(alloc, files, names[i].as_slice())?;
        left = add_loaded(&mut loaded, left, file)?;
    }
    Ok(loaded)
}
