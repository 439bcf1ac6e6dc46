//! The words that name volumes.

ghost use Rattle.std.specs.Prelude.{◌≡◌, ◌++◌, ◌∷◌, [], OnOk};

use crate::record_words::read_count;
use crate::requests::WordFault;
use arrayvec::ArrayVec;
use ckd_image::MOST_FILES;
use ckd_track::DriveModel;

/// Where the volume of a drive comes from.
#[derive(Drop)]
pub enum VolumeSource<'a> {
    /// The files of one image, in their order: at least one.
    Files(ArrayVec<&'a str, MOST_FILES>),
    /// A new volume in memory, which is written to no file.
    New {
        /// Its drive.
        model: DriveModel,
        /// Its cylinders: at least one.
        cylinders: u16,
    },
}

/// A drive of a run: the words `UU=PATH` that stand one after another with one address, or one word `UU=new:M:N`.
#[derive(Drop)]
pub struct Volume<'a> {
    /// The address of the device.
    pub device: u8,
    /// Its volume.
    pub source: VolumeSource<'a>,
}

/// What one word names.
#[derive(Clone, Copy)]
pub(crate) enum Named<'a> {
    Path(&'a str),
    New(DriveModel, u16),
}

/// Reads a volume's word: two hexadecimal digits, an equals sign, and a path or `new:` with a model and the number of
/// cylinders, 1 to 65535. None is a word of another form.
pub(crate) fn read_volume(word: &str) -> Option<(u8, Named<'_>)> {
    let (digits, source) = word.split_once('=')?;
    let device = read_device(digits)?;
    let named = match source.strip_prefix("new:") {
        Some(volume) => read_new_volume(volume)?,
        None if source.is_empty() => return None,
        None => Named::Path(source),
    };
    Some((device, named))
}

// Two hexadecimal digits.
fn read_device(digits: &str) -> Option<u8> {
    let [high, low] = digits.as_bytes() else {
        return None;
    };
    let high = char::from(*high).to_digit(16)?;
    let low = char::from(*low).to_digit(16)?;
    Some((16 * high + low) as u8)
}

// A model and the number of cylinders.
fn read_new_volume(volume: &str) -> Option<Named<'_>> {
    let (model, cylinders) = volume.split_once(':')?;
    let model = read_model(model)?;
    let cylinders = read_count(cylinders)?;
    Some(Named::New(model, cylinders))
}

/// The drive of a model's number.
pub(crate) fn read_model(model: &str) -> Option<DriveModel> {
    match model {
        "2311" => Some(DriveModel::D2311),
        "2314" => Some(DriveModel::D2314),
        _ => None,
    }
}

/// One word more, behind the volumes of the words before it: a path of the last one's address is one more file of its image.
///
/// # Errors
///
/// It would be the ninth file of an image, or there is no memory.
pub(crate) fn add_volume<'a>(
    volumes: &mut Vec<Volume<'a>>,
    device: u8,
    named: Named<'a>,
) -> Result<(), WordFault> {
    let path = match named {
        Named::New(model, cylinders) => {
            return push_volume(volumes, device, VolumeSource::New { model, cylinders });
        }
        Named::Path(path) => path,
    };
    if let Some(last) = volumes.last_mut() {
        if last.device == device {
            if let VolumeSource::Files(paths) = &mut last.source {
                return paths.try_push(path).map_err(|_| WordFault::BadVolume);
            }
        }
    }
    let mut paths = ArrayVec::new();
    paths.push(path);
    push_volume(volumes, device, VolumeSource::Files(paths))
}

// A volume more, with what it comes from.
fn push_volume<'a>(
    volumes: &mut Vec<Volume<'a>>,
    device: u8,
    source: VolumeSource<'a>,
) -> Result<(), WordFault>
    ensures { OnOk result (volumes.new.items ≡ volumes.old.items ++ record { device = device; source = source.entry } ∷ []) }
{
    match volumes.push(Volume { device, source }) {
        Ok(()) => Ok(()),
        Err(_) => Err(WordFault::OutOfMemory),
    }
}
