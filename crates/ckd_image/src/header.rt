//! The header of an image's file.

ghost use Rattle.std.specs.Prelude.{◌≡◌, ◌<◌, ◌≤◌, ◌+◌, ◌^◌, length, ◌++◌, drop, Some, All};
ghost use Rattle.ckd_track.specs.Model.{heads_of, slot_size_of};
ghost use Rattle.ckd_image.specs.Header.{fields_of, on_model, is_part, are_parts, are_together, cylinders_of, cylinders_in, volume_of, model_of};
ghost use Rattle.ckd_image.specs.Header.{device_type_of, new_header, fields_behind_id};
ghost use Rattle.byteorder.specs.Endian.{little_bytes};

use crate::fault::MountFault;
use crate::layout::HEADER_LENGTH;
use byteorder::{ByteOrder, LittleEndian};
use ckd_track::{DriveModel, Geometry};

/// The id of an uncompressed image.
const IMAGE_ID: [u8; 8] = *b"CKD_P370";

/// What a track with one full record takes besides the drive's capacity, in bytes: home address,
/// R0, the record's count area, and the end mark.
const BESIDES_CAPACITY: u32 = 37;

/// The greatest track size, in bytes.
const GREATEST_TRACK_SIZE: u32 = 65_536;

/// What the header of a file says, as far as one file can keep the rules, and the file's length.
#[derive(Clone, Copy)]
pub(crate) struct FileHeader {
    /// The drive, by its device type.
    pub(crate) model: DriveModel,
    /// The bytes of a track's slot.
    pub(crate) track_size: u32,
    /// The file's number among those of its image.
    pub(crate) sequence: u8,
    /// The last cylinder in a file that is not the last; else 0.
    pub(crate) highest_cylinder: u16,
    /// The file's length, in bytes.
    pub(crate) len: u64,
}

// What stands in a list of headers behind those that were read.
impl Default for FileHeader {
    fn default() -> FileHeader {
        FileHeader {
            model: DriveModel::D2311,
            track_size: 0,
            sequence: 0,
            highest_cylinder: 0,
            len: 0,
        }
    }
}

/// What the header of a file of this length says, or the first rule on one file that is broken.
pub(crate) fn read_fields(header: &[u8], len: u64) -> Result<FileHeader, MountFault>
    requires whole { length header.now ≡ 512 }
    ensures { result ≡ fields_of header.now len }
{
    if header[..5] == b"CKD_C"[..] || header[..5] == b"CKD_S"[..] {
        return Err(MountFault::Compressed);
    }
    if header[..8] != IMAGE_ID[..] {
        return Err(MountFault::NotCkdP370);
    }
    match model_of_device(header[16]) {
        None => Err(MountFault::DeviceType),
        Some(model) => read_fields_of(header, len, model),
    }
}

/// The drive of a device type.
fn model_of_device(device: u8) -> Option<DriveModel>
    ensures { result ≡ model_of device }
{
    match device {
        0x11 => Some(DriveModel::D2311),
        0x14 => Some(DriveModel::D2314),
        _ => None,
    }
}

/// The device type of a drive.
fn device_type(model: DriveModel) -> u8
    ensures { result ≡ device_type_of model }
{
    match model {
        DriveModel::D2311 => 0x11,
        DriveModel::D2314 => 0x14,
    }
}

/// What a header says of a drive of this model, or the first rule behind the device type that is
/// broken.
fn read_fields_of(header: &[u8], len: u64, model: DriveModel) -> Result<FileHeader, MountFault>
    requires whole { length header.now ≡ 512 }
    ensures { result ≡ on_model header.now len (Some model) }
{
    if LittleEndian::read_u32(&header[8..12]) != model.heads() as u32 {
        return Err(MountFault::Heads);
    }
    let track_size = LittleEndian::read_u32(&header[12..16]);
    if track_size < model.capacity() + BESIDES_CAPACITY || track_size > GREATEST_TRACK_SIZE {
        return Err(MountFault::TrackSize);
    }
    Ok(FileHeader {
        model,
        track_size,
        sequence: header[17],
        highest_cylinder: LittleEndian::read_u16(&header[18..20]),
        len,
    })
}

/// The geometry of the image in the files of these headers, or the first rule on all of them that is
/// broken.
pub(crate) fn volume_of_files(headers: &[FileHeader]) -> Result<Geometry, MountFault>
    requires count { length headers.now < 256 }
    requires sizes { All (λ h. 0 < h.track_size) headers.now }
    ensures { result ≡ volume_of headers.now }
{
    let [first, ..] = headers else {
        return Err(MountFault::Split);
    };
    if !are_files_of_one(headers) {
        return Err(MountFault::Split);
    }
    let size = first.model.heads() as u64 * first.track_size as u64;
    match cylinders_of_files(headers, size, 0) {
        None => Err(MountFault::Length),
        Some(cylinders) => Ok(Geometry {
            model: first.model,
            cylinders,
            track_size: first.track_size,
        }),
    }
}

/// Whether the files of these headers are those of one image, in order.
fn are_files_of_one(headers: &[FileHeader]) -> bool
    requires count { length headers.now < 256 }
    ensures { result ≡ are_together headers.now }
{
    match headers {
        [] => false,
        [only] => only.sequence <= 1 && only.highest_cylinder == 0,
        [first, ..] => are_parts_of(first, 1, 0, headers),
    }
}

/// Whether this file belongs to the image of the first one, as the `n`-th.
fn is_part_of(first: &FileHeader, n: u8, file: &FileHeader) -> bool
    ensures { result ≡ is_part first.now n file.now }
{
    file.sequence == n
        && device_type(file.model) == device_type(first.model)
        && file.track_size == first.track_size
}

/// Whether these are the files of the first one's image from the `n`-th to the last. The one before
/// them has this highest cylinder.
fn are_parts_of(first: &FileHeader, n: u8, before: u16, files: &[FileHeader]) -> bool
    requires count { n + length files.now < 257 }
    ensures { result ≡ are_parts first.now n before files.now }
{
    match files {
        [] => false,
        [last] => is_part_of(first, n, last) && last.highest_cylinder == 0,
        [file, rest @ ..] => {
            is_part_of(first, n, file)
                && before < file.highest_cylinder
                && are_parts_of(first, n + 1, file.highest_cylinder, rest)
        }
    }
}

/// The cylinders of all files, this many of them before these and of this many bytes each, where
/// each file but the last holds exactly those up to its highest one.
fn cylinders_of_files(files: &[FileHeader], size: u64, before: u64) -> Option<u16>
    requires size { 0 < size }
    requires most { size < 2 ^ 40 }
    requires before { before ≤ 65536 }
    ensures { result ≡ cylinders_in size before files.now }
{
    match files {
        [] => None,
        [last] => cylinders_with_last(size, before, last.len),
        [file, rest @ ..] => {
            let behind = file.highest_cylinder as u64 + 1;
            if file.len != HEADER_LENGTH as u64 + behind.saturating_sub(before) * size {
                return None;
            }
            cylinders_of_files(rest, size, behind)
        }
    }
}

/// The cylinders up to those of the last file, if it is a header and 1 or more of them, and all are
/// at most 65,535.
fn cylinders_with_last(size: u64, before: u64, len: u64) -> Option<u16>
    requires size { 0 < size }
    requires before { before ≤ 65536 }
    ensures { result ≡ cylinders_of size before len }
{
    let cylinders = len.saturating_sub(HEADER_LENGTH as u64) / size;
    if len < HEADER_LENGTH as u64 || HEADER_LENGTH as u64 + cylinders * size != len {
        return None;
    }
    if cylinders == 0 || cylinders > u16::MAX as u64 - before.min(u16::MAX as u64) {
        return None;
    }
    Some((before + cylinders) as u16)
}

/// The header of a new image in one file.
pub(crate) fn new_header_of(model: DriveModel) -> [u8; HEADER_LENGTH]
    ensures { result ≡ new_header model }
{
    let mut header = [0; HEADER_LENGTH];
    header[..8].copy_from_slice(&IMAGE_ID);
    put_fields(&mut header[8..], model);
    header
}

/// Puts the fields of a new image behind its id.
fn put_fields(fields: &mut [u8], model: DriveModel)
    requires { 12 ≤ length fields.old }
    ensures { fields.new ≡ fields_behind_id model ++ drop 12 fields.old }
{
    LittleEndian::write_u32(fields, model.heads() as u32);
    LittleEndian::write_u32(&mut fields[4..], model.slot_size());
    fields[8..12].copy_from_slice(&[device_type(model), 0, 0, 0]);
}
