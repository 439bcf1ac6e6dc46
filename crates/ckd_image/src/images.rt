//! An image: a volume in one to eight stores, read and written slot by slot.

ghost use Rattle.std.specs.Prelude.{◌≡◌, ◌+◌, ◌≤◌, ◌<◌, max, [], ◌∷◌, length, map, take, Ok, option_map, slice_index_or, slice_set, IfOk, IfErr, OnOk, OnErr};
ghost use Rattle.std.specs.Prelude.{All, IsSome};
ghost use Rattle.std.specs.List.{sum};
ghost use Rattle.ckd_track.specs.Geometry.{tracks_of, new_geometry};
ghost use Rattle.ckd_image.specs.Layout.{image_length};
ghost use Rattle.ckd_image.specs.Header.{mount_of};
ghost use Rattle.ckd_image.specs.Files.{each, listed};
ghost use Rattle.ckd_image.specs.Image.{IsImage, IsFileAt, Holds, HoldsImage, image_in, MountRefused, FilesRefused, new_image, format_of, FormatRefused};

use crate::fault::MountFault;
use crate::files::{in_array, in_list, read_header, read_headers, read_slot, write_slot};
use crate::header::volume_of_files;
use crate::layout::file_length;
use crate::new_volume::write_new_volume;
use crate::store::{ImageStore, StoreFault};
use crate::stores::{MOST_FILES, Stores, array_of, count_tracks, only_store, store_at, stores_of};
use arrayvec::ArrayVec;
use ckd_track::{DriveModel, Geometry};
use ghost_data::Count;
use std::marker::Model;

/// A volume that is held in one to eight stores, each with a file of it. Its slots are read and
/// written whole, and the files' lengths stay.
#[derive(Drop)]
pub struct Image<S: ImageStore> {
    pub(crate) stores: Stores<S>,
    pub(crate) geometry: Geometry,
    /// How many tracks each file holds.
    pub(crate) tracks: [u32; MOST_FILES],
    pub(crate) loads: Count,
    pub(crate) saves: Count,
}

impl<S: ImageStore> Model for Image<S> {
    ghost use Rattle.std.specs.Prelude.{◌≡◌, Ok, take, map};
    ghost use Rattle.std.specs.List.{sum, concat};
    ghost use Rattle.ckd_track.specs.Geometry.{tracks_of};
    ghost use Rattle.ckd_image.specs.Header.{mount_of};
    ghost use Rattle.ckd_image.specs.Slots.{slots_in};
    ghost use Rattle.ckd_image.specs.Files.{each, listed, slot_bytes, HoldTracks};
    ghost use Rattle.ckd_image.specs.Image.{ImageState};

    ghost Value = { ImageState };

    ghost view = { λ i. record {
      geometry = i.geometry;
      slots = slots_in i.geometry.track_size (tracks_of i.geometry) (slot_bytes (each S.content (listed i.stores)));
      lasting = record { header = concat (map (take 512) (each S.content (listed i.stores))); origins = each S.origin (listed i.stores) };
      failures = sum (each S.failures (listed i.stores));
      loads = i.loads;
      saves = i.saves;
    } };

    ghost invariant = { λ i. (mount_of (each S.content (listed i.stores)) ≡ Ok i.geometry)
        × HoldTracks S.content i.geometry.track_size (listed i.stores) i.tracks };
}

/// The image of this geometry in these files.
fn image_of<S: ImageStore>(stores: Stores<S>, geometry: Geometry) -> Image<S>
    requires { mount_of (each S.content (listed stores)) ≡ Ok geometry }
    ensures { result ≡ image_in geometry (each S.content (listed stores)) (each S.origin (listed stores))
        (sum (each S.failures (listed stores))) }
{
    let tracks = count_tracks(&stores, geometry.track_size);
    Image {
        stores,
        geometry,
        tracks,
        loads: Count::new(),
        saves: Count::new(),
    }
}

/// The image of this geometry in one file.
fn image_of_one<S: ImageStore>(store: S, geometry: Geometry) -> Image<S>
    requires { mount_of (S.content store ∷ []) ≡ Ok geometry }
    ensures { result ≡ image_in geometry (S.content store ∷ []) (S.origin store ∷ []) (S.failures store) }
{
    image_of(only_store(store), geometry)
}

impl<S: ImageStore> Image<S> {
    /// Holds the image of this store, which is one file. The faults are looked for in this order,
    /// and each hands the store back: `Length` where the store is shorter than a header, which is
    /// before any read; `StoreFault`, where the header was not read; `Compressed`, `NotCkdP370`,
    /// `DeviceType`, `Heads`, `TrackSize`; `Split` where the header is that of one of several
    /// files; and `Length` where the store is not exactly as long as the header and 1 to 65,535
    /// cylinders. The slots and the reserved bytes of the header are not looked at.
    pub fn mount(mut store: S) -> Result<Image<S>, (MountFault, S)>
        ensures holds { IfOk result (λ i. Holds (S.content store ∷ []) i.geometry i.slots) }
        ensures image { IfOk result
            (λ i. i ≡ image_in i.geometry (S.content store ∷ []) (S.origin store ∷ []) (S.failures store)) }
        ensures refused { IfErr result
            (λ e. MountRefused e.0 (S.content store) (S.failures store) (S.failures e.1)) }
        ensures kept { IfErr result (λ e. S.content e.1 ≡ S.content store) }
        ensures same { IfErr result (λ e. S.origin e.1 ≡ S.origin store) }
    {
        let header = match read_header(&mut store) {
            Ok(header) => header,
            Err(fault) => return Err((fault, store)),
        };
        match volume_of_files(&[header]) {
            Ok(geometry) => Ok(image_of_one(store, geometry)),
            Err(fault) => Err((fault, store)),
        }
    }

    /// Holds the image of these stores, which are its files in order, one to eight of them. Each
    /// refusal hands them back in their order. The faults are looked for in this order: `Split`
    /// where there is no file. Then for each file in order `Length` where it is shorter than a
    /// header, which is before any read; `StoreFault`, where its header was not read; `Compressed`,
    /// `NotCkdP370`, `DeviceType`, `Heads`, `TrackSize`. Then `Split`, where these are not the files
    /// of one image: an only file is as in `mount`; of several, each bears its number, from 1 on,
    /// as its file sequence, and the first one's device type and track size, and the highest
    /// cylinder of each but the last is above that of the file before it, and above 0; that of the
    /// last is 0. Then `Length`, where a file is not exactly as long as a header and its cylinders:
    /// those behind the file before it up to its highest one, and 1 or more in the last, at most
    /// 65,535 in all. The slots and the reserved bytes of the headers are not looked at. It takes
    /// no memory.
    pub fn mount_files(
        mut files: ArrayVec<Option<S>, 8>,
    ) -> Result<Image<S>, (MountFault, ArrayVec<Option<S>, 8>)>
        requires there { All IsSome files.items }
        ensures holds { IfOk result (λ i. Holds (each S.content files.items) i.geometry i.slots) }
        ensures image { IfOk result
            (λ i. i ≡ image_in i.geometry (each S.content files.items) (each S.origin files.items) (sum (each S.failures files.items))) }
        ensures refused { IfErr result
            (λ e. FilesRefused e.0 (each S.content files.items) (each S.failures files.items) (each S.failures e.1.items)) }
        ensures kept { IfErr result (λ e. each S.content e.1.items ≡ each S.content files.items) }
        ensures same { IfErr result (λ e. each S.origin e.1.items ≡ each S.origin files.items) }
        ensures there { IfErr result (λ e. All IsSome e.1.items) }
    {
        let headers = match read_headers(files.as_mut_slice()) {
            Ok(headers) => headers,
            Err(fault) => return Err((fault, files)),
        };
        match volume_of_files(headers.as_slice()) {
            Ok(geometry) => Ok(image_of(stores_of(in_array(files)), geometry)),
            Err(fault) => Err((fault, files)),
        }
    }

    /// Writes a new volume of so many cylinders over all that the store holds, and holds its image.
    /// The faults are looked for in this order, and each hands the store back: `Length` where
    /// `cylinders` is 0 or the store is longer than the new image, which is before any write; and
    /// `StoreFault` where a write failed, after which what was written holds any bytes.
    pub fn format(
        mut store: S,
        model: DriveModel,
        cylinders: u16,
    ) -> Result<Image<S>, (MountFault, S)>
        ensures allowed { OnOk result
            (format_of model cylinders (length (S.content store)) ≡ Ok (new_geometry model cylinders)) }
        ensures image { IfOk result (λ i. i ≡ new_image model cylinders (S.origin store) (S.failures store)) }
        ensures refused { IfErr result (λ e. FormatRefused e.0
            (format_of model cylinders (length (S.content store)))
            (S.failures store) (S.failures e.1)) }
        ensures kept { IfErr result
            (λ e. e.0 ≡ MountFault.Length → S.content e.1 ≡ S.content store) }
        ensures same { IfErr result (λ e. S.origin e.1 ≡ S.origin store) }
        ensures not_shorter { IfErr result
            (λ e. length (S.content store) ≤ length (S.content e.1)) }
        ensures not_longer { let len = image_length (new_geometry model cylinders) in IfErr result
            (λ e. length (S.content e.1) ≤ max (length (S.content store)) len) }
    {
        let geometry = Geometry::new(model, cylinders);
        if cylinders == 0 || store.len() > file_length(geometry) {
            return Err((MountFault::Length, store));
        }
        match write_new_volume(&mut store, geometry) {
            Ok(()) => Ok(image_of_one(store, geometry)),
            Err(_) => Err((MountFault::StoreFault, store)),
        }
    }

    /// What the headers say.
    #[tactic(auto, using(crate::proofs::ImageLemmas::is_image))]
    pub fn geometry(&self) -> Geometry
        ensures geometry { result ≡ self.now.geometry }
        ensures image { IsImage self.now }
    {
        self.geometry
    }

    /// The store of a file, by its place among the image's files, lent; none behind the last one.
    pub fn store(&self, place: usize) -> Option<&S>
        ensures file { IsFileAt self.now place (option_map (λ s. S.content s.now) result) }
    {
        store_at(&self.stores, place)
    }

    /// Reads the slot of a track from the file that holds it. After an error `slot` holds any bytes.
    pub fn load(&mut self, track: u32, slot: &mut [u8]) -> Result<(), StoreFault>
        requires exists { track < tracks_of self.old.geometry }
        requires size { length slot.old ≡ self.old.geometry.track_size }
        ensures geometry { self.new.geometry ≡ self.old.geometry }
        ensures slot { OnOk result (slot.new ≡ slice_index_or self.old.slots track []) }
        ensures ok { OnOk result (self.new ≡ record self.old { loads = self.old.loads + 1 }) }
        ensures err { OnErr result (self.new ≡ record self.old {
          loads = self.old.loads + 1;
          failures = self.old.failures + 1;
        }) }
    {
        self.loads = self.loads.next();
        let size = self.geometry.track_size;
        read_slot(&mut self.stores, &self.tracks, size, track, slot)
    }

    /// Writes the slot of a track into the file that holds it. After an error that slot holds any bytes.
    pub fn save(&mut self, track: u32, slot: &[u8]) -> Result<(), StoreFault>
        requires exists { track < tracks_of self.old.geometry }
        requires size { length slot.now ≡ self.old.geometry.track_size }
        ensures geometry { self.new.geometry ≡ self.old.geometry }
        ensures ok { OnOk result (self.new ≡ record self.old {
          saves = self.old.saves + 1;
          slots = slice_set self.old.slots track slot.now;
        }) }
        ensures err { OnErr result (self.new ≡ record self.old {
          saves = self.old.saves + 1;
          failures = self.old.failures + 1;
          slots = slice_set self.old.slots track (slice_index_or self.new.slots track []);
        }) }
        ensures size { length (slice_index_or self.new.slots track []) ≡ self.old.geometry.track_size }
    {
        self.saves = self.saves.next();
        let size = self.geometry.track_size;
        write_slot(&mut self.stores, &self.tracks, size, track, slot)
    }

    /// The stores that were given, in their order; they hold the image. It takes no memory.
    pub fn into_stores(self) -> ArrayVec<Option<S>, 8>
        ensures holds { HoldsImage (each S.content result.items) self }
        ensures same { each S.origin result.items ≡ self.lasting.origins }
        ensures failures { sum (each S.failures result.items) ≡ self.failures }
        ensures there { All IsSome result.items }
    {
        let Image {
            stores,
            geometry: _,
            tracks: _,
            loads: _,
            saves: _,
        } = self;
        in_list(array_of(stores), ArrayVec::new())
    }
}
