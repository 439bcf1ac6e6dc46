//! Files whose bytes a text puts into storage.

ghost use Rattle.std.specs.Prelude.{◌≡◌, option_map, position, IfOk, map};
ghost use Rattle.s360_assembler.specs.Files.{file_name_of, name_loaded, with_name, files_named, has_name, bytes_at};

use crate::constants::letter_and_text;
use crate::fields::{fields_of, position_of, raised};
use s360_deck::{split_at_line_feed, without_carriage_return};
use std::alloc::{AllocError, Global};

/// The most bytes of a line.
const LINE_LENGTH: usize = 512;

/// A file that a text may load.
#[derive(Drop)]
pub struct LoadableFile {
    /// Its name.
    pub name: Vec<u8>,
    /// What it holds.
    pub bytes: Vec<u8>,
}

/// The name of the file that operands name, as `C'storage.bin'`.
pub(crate) fn file_name_of(operands: &[u8]) -> Option<&[u8]>
    ensures { option_map (λ name. name.now) result ≡ file_name_of operands.now }
{
    let (letter, name) = letter_and_text(operands)?;
    if letter != b'C' || name.is_empty() || position_of(b'\'', name).is_some() {
        return None;
    }
    Some(name)
}

// The name of the file that a line loads.
fn name_loaded(line: &[u8]) -> Option<&[u8]>
    ensures { option_map (λ name. name.now) result ≡ name_loaded line.now }
{
    if line.len() > LINE_LENGTH {
        return None;
    }
    let fields = fields_of(line);
    if fields.operation != &b"LOAD"[..] {
        return None;
    }
    file_name_of(fields.operands)
}

// One more name, if there is one.
fn add_name(alloc: Global, names: &mut Vec<Vec<u8>>, name: Option<&[u8]>) -> Result<(), AllocError>
    ensures { IfOk result (λ _. map (λ n. n.items) names.new.items
        ≡ with_name (map (λ n. n.items) names.old.items) (option_map (λ n. n.now) name.entry)) }
{
    if let Some(name) = name {
        let copy = name.to_vec(alloc)?;
        names.push(copy)?;
    }
    Ok(())
}

/// The names of the files that a text loads, in the order of its lines, each as often as it stands there.
///
/// # Errors
///
/// There is no memory for them.
pub fn files_named(alloc: Global, text: &[u8]) -> Result<Vec<Vec<u8>>, AllocError>
    ensures { IfOk result (λ names. map (λ n. n.items) names.items ≡ files_named text.now) }
{
    let capitals = raised(alloc, text)?;
    let mut names = Vec::new(alloc);
    let mut rest = capitals.as_slice();
    while !rest.is_empty() {
        let (line, behind) = split_at_line_feed(rest);
        add_name(
            alloc,
            &mut names,
            name_loaded(without_carriage_return(line)),
        )?;
        rest = behind;
    }
    Ok(names)
}

/// The place of the first of these files that has a name.
pub(crate) fn place_named(files: &[LoadableFile], name: &[u8]) -> Option<usize>
    ensures { result ≡ position (has_name name.now) files.now }
{
    files.iter().position(
        |file: &LoadableFile| -> bool
            ensures { result ≡ has_name name.entry.now file.now }
        { file.name.as_slice() == name },
    )
}

/// What the file at a place holds.
pub(crate) fn bytes_at(files: &[LoadableFile], place: usize) -> &[u8]
    ensures { result.now ≡ bytes_at files.now place }
{
    match files.get(place) {
        Some(file) => file.bytes.as_slice(),
        None => &[],
    }
}
