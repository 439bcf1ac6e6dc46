//! The files of an image: a slot is found by its track's number.

ghost use Rattle.std.specs.Prelude.{◌≡◌, ◌+◌, ◌-◌, ◌*◌, ◌<◌, ◌≤◌, [], ◌∷◌, ◌++◌, length, take, map, replicate, None, IsSome, slice_range, slice_set, All, OnOk};
ghost use Rattle.std.specs.Prelude.{OnErr, IfOk, IfErr, Ok};
ghost use Rattle.std.specs.List.{sum};
ghost use Rattle.arrayvec.specs.ArrayVec.{array_vec_len};
ghost use Rattle.ckd_image.specs.Store.{overwritten, Torn, Counts};
ghost use Rattle.ckd_image.specs.Header.{head_of, header_of, headers_of};
ghost use Rattle.ckd_image.specs.Files.{held, file_at, each, slot_bytes, place_in, listed, HoldTracks, HeaderRefused, HeadersRefused};

use crate::fault::MountFault;
use crate::header::{FileHeader, read_fields};
use crate::layout::{HEADER_LENGTH, slot_start};
use crate::store::{ImageStore, StoreFault};
use crate::stores::{MOST_FILES, Stores, read_store, take_file, write_store};
use arrayvec::ArrayVec;

/// Where the slot of a track is: the place of the file that holds it, and the track's number among
/// those of that file.
#[derive(Clone, Copy)]
struct SlotPlace {
    file: usize,
    track: u32,
}

/// Where the slot of a track is, in files of so many tracks each.
fn place_of(tracks: &[u32], track: u32) -> SlotPlace
    requires { track < sum tracks.now }
    ensures place { result ≡ place_in tracks.now track }
    ensures exists { result.file < length tracks.now }
{
    let [held, others @ ..] = tracks else {
        unreachable!()
    };
    if track < *held {
        return SlotPlace { file: 0, track };
    }
    let behind = place_of(others, track - *held);
    SlotPlace {
        file: behind.file + 1,
        track: behind.track,
    }
}

/// Reads the slot of a track from the file that holds it, and no other file is touched.
pub(crate) fn read_slot<S: ImageStore>(
    stores: &mut Stores<S>,
    tracks: &[u32],
    size: u32,
    track: u32,
    slot: &mut [u8],
) -> Result<(), StoreFault>
    requires held { HoldTracks S.content size (listed stores.old) tracks.now }
    requires count { length tracks.now ≡ 8 }
    requires exists { track < sum tracks.now }
    requires whole { length slot.old ≡ size }
    ensures read { OnOk result
        (slot.new ≡ slice_range (slot_bytes (each S.content (listed stores.old))) (track * size) (track * size + size)) }
    ensures one { let place = place_in tracks.now track in listed stores.new
        ≡ slice_set (listed stores.old) place.file (file_at (listed stores.new) place.file) }
    ensures kept { each S.content (listed stores.new) ≡ each S.content (listed stores.old) }
    ensures held { HoldTracks S.content size (listed stores.new) tracks.now }
    ensures same { each S.origin (listed stores.new) ≡ each S.origin (listed stores.old) }
    ensures counted { Counts (sum (each S.failures (listed stores.old))) (sum (each S.failures (listed stores.new)))
        result }
{
    let place = place_of(tracks, track);
    read_store(stores, place.file, slot_start(size, place.track), slot)
}

/// Writes the slot of a track into the file that holds it, and no other file is touched.
pub(crate) fn write_slot<S: ImageStore>(
    stores: &mut Stores<S>,
    tracks: &[u32],
    size: u32,
    track: u32,
    slot: &[u8],
) -> Result<(), StoreFault>
    requires held { HoldTracks S.content size (listed stores.old) tracks.now }
    requires count { length tracks.now ≡ 8 }
    requires exists { track < sum tracks.now }
    requires whole { length slot.now ≡ size }
    ensures written { OnOk result
        (slot_bytes (each S.content (listed stores.new)) ≡ overwritten (slot_bytes (each S.content (listed stores.old))) (track * size) slot.now) }
    ensures torn { OnErr result
        (Torn (slot_bytes (each S.content (listed stores.old))) (slot_bytes (each S.content (listed stores.new))) (track * size) size) }
    ensures one { let place = place_in tracks.now track in listed stores.new
        ≡ slice_set (listed stores.old) place.file (file_at (listed stores.new) place.file) }
    ensures heads { map head_of (each S.content (listed stores.new))
        ≡ map head_of (each S.content (listed stores.old)) }
    ensures headers { map (take 512) (each S.content (listed stores.new))
        ≡ map (take 512) (each S.content (listed stores.old)) }
    ensures held { HoldTracks S.content size (listed stores.new) tracks.now }
    ensures same { each S.origin (listed stores.new) ≡ each S.origin (listed stores.old) }
    ensures counted { Counts (sum (each S.failures (listed stores.old))) (sum (each S.failures (listed stores.new)))
        result }
{
    let place = place_of(tracks, track);
    write_store(stores, place.file, slot_start(size, place.track), slot)
}

/// Reads the header of a file, unless it is below 512 bytes.
pub(crate) fn read_header<S: ImageStore>(store: &mut S) -> Result<FileHeader, MountFault>
    ensures ok { IfOk result (λ h. header_of (head_of (S.content store.old)) ≡ Ok h) }
    ensures size { IfOk result (λ h. 0 < h.track_size) }
    ensures err { IfErr result (λ e. HeaderRefused e (S.content store.old) (S.failures store.old)
        (S.failures store.new)) }
    ensures kept { S.content store.new ≡ S.content store.old }
    ensures same { S.origin store.new ≡ S.origin store.old }
    ensures none { OnOk result (S.failures store.new ≡ S.failures store.old) }
{
    let len = store.len();
    if len < HEADER_LENGTH as u64 {
        return Err(MountFault::Length);
    }
    let mut header = [0; HEADER_LENGTH];
    if store.read_at(0, &mut header).is_err() {
        return Err(MountFault::StoreFault);
    }
    read_fields(&header, len)
}

/// Reads the header of the file at this place.
fn read_header_at<S: ImageStore>(
    files: &mut [Option<S>],
    place: usize,
) -> Result<FileHeader, MountFault>
    requires exists { place < length files.old }
    requires there { IsSome (file_at files.old place) }
    ensures ok { IfOk result (λ h. header_of (head_of (held S.content [] (file_at files.old place))) ≡ Ok h) }
    ensures size { IfOk result (λ h. 0 < h.track_size) }
    ensures err { IfErr result (λ e. HeaderRefused e (held S.content [] (file_at files.old place))
        (held S.failures 0 (file_at files.old place)) (held S.failures 0 (file_at files.new place))) }
    ensures files { files.new ≡ slice_set files.old place (file_at files.new place) }
    ensures there { IsSome (file_at files.new place) }
    ensures kept { held S.content [] (file_at files.new place) ≡ held S.content [] (file_at files.old place) }
    ensures same { held S.origin [] (file_at files.new place) ≡ held S.origin [] (file_at files.old place) }
    ensures none { OnOk result (held S.failures 0 (file_at files.new place)
        ≡ held S.failures 0 (file_at files.old place)) }
{
    match &mut files[place] {
        Some(store) => read_header(store),
        None => unreachable!(),
    }
}

/// What the headers of the files say, which are read in order.
pub(crate) fn read_headers<S: ImageStore>(
    files: &mut [Option<S>],
) -> Result<ArrayVec<FileHeader, MOST_FILES>, MountFault>
    requires room { length files.old ≤ 8 }
    requires there { All IsSome files.old }
    ensures ok { IfOk result (λ read. headers_of [] (map head_of (each S.content files.old)) ≡ Ok read.items) }
    ensures sizes { IfOk result (λ read. All (λ h. 0 < h.track_size) read.items) }
    ensures count { IfOk result (λ read. array_vec_len read ≡ length files.old) }
    ensures err { IfErr result (λ e. HeadersRefused e (map head_of (each S.content files.old))
        (each S.failures files.old) (each S.failures files.new)) }
    ensures kept { each S.content files.new ≡ each S.content files.old }
    ensures same { each S.origin files.new ≡ each S.origin files.old }
    ensures none { OnOk result (each S.failures files.new ≡ each S.failures files.old) }
    ensures there { All IsSome files.new }
{
    let mut read = ArrayVec::new();
    for place in 0..files.len() {
        match read_header_at(files, place) {
            Ok(header) => read.push(header),
            Err(fault) => return Err(fault),
        }
    }
    Ok(read)
}

/// The files of a list, in an array.
pub(crate) fn in_array<S: ImageStore>(
    mut files: ArrayVec<Option<S>, MOST_FILES>,
) -> [Option<S>; MOST_FILES]
    ensures { result ≡ files.items ++ replicate (8 - array_vec_len files) None }
{
    for _place in files.len()..MOST_FILES {
        files.push(None);
    }
    match files.into_inner() {
        Ok(files) => files,
        Err(_) => unreachable!(),
    }
}

/// Appends a file to a list, if it is there.
#[tactic(auto, using(crate::proofs::ReadLemmas::each_pushed))]
fn append<S: ImageStore>(stores: &mut ArrayVec<Option<S>, MOST_FILES>, file: Option<S>)
    requires room { array_vec_len stores.old < 8 }
    requires there { All IsSome stores.old.items }
    ensures content { each S.content stores.new.items ≡ each S.content stores.old.items ++ each S.content (file ∷ []) }
    ensures origins { each S.origin stores.new.items ≡ each S.origin stores.old.items ++ each S.origin (file ∷ []) }
    ensures failures { each S.failures stores.new.items
        ≡ each S.failures stores.old.items ++ each S.failures (file ∷ []) }
    ensures there { All IsSome stores.new.items }
    ensures count { array_vec_len stores.new ≤ array_vec_len stores.old + 1 }
{
    if file.is_some() {
        stores.push(file);
    }
}

/// The files that are there, in a list. `stores` is an empty one.
pub(crate) fn in_list<S: ImageStore>(
    mut files: [Option<S>; MOST_FILES],
    mut stores: ArrayVec<Option<S>, MOST_FILES>,
) -> ArrayVec<Option<S>, MOST_FILES>
    requires { stores.items ≡ [] }
    ensures content { each S.content result.items ≡ each S.content files }
    ensures origins { each S.origin result.items ≡ each S.origin files }
    ensures failures { each S.failures result.items ≡ each S.failures files }
    ensures there { All IsSome result.items }
{
    for place in 0..MOST_FILES {
        let file = take_file(&mut files, place);
        append(&mut stores, file);
    }
    stores
}
