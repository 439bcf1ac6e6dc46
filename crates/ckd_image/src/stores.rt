//! The stores that hold the files of an image.

ghost use Rattle.std.specs.Prelude.{◌≡◌, ◌+◌, ◌<◌, ◌≤◌, [], length, None, IsSome, slice_get, slice_range, slice_set, ◌∷◌, option_map, IfOk, OnOk, OnErr};
ghost use Rattle.std.specs.List.{AllByRecursion};
ghost use Rattle.ckd_image.specs.Store.{overwritten, Torn, Counts};
ghost use Rattle.ckd_image.specs.Files.{held, file_at, each, listed, alone, HoldTracks, HoldsWhole};

use crate::copying::CopyStore;
use crate::layout::HEADER_LENGTH;
use crate::store::{ImageStore, StoreFault};
use std::alloc::{AllocError, Global};

/// The most files of one image. Contracts and definitions have the number 8 for it, and are proved of the code that has
/// this name.
pub const MOST_FILES: usize = 8;

/// The stores that hold the files of an image, in order, and none behind them. Each has a field of
/// its own: what the prover is given of an array of them is so long that searches above stop at it.
#[derive(Drop)]
pub(crate) struct Stores<S: ImageStore> {
    first: Option<S>,
    second: Option<S>,
    third: Option<S>,
    fourth: Option<S>,
    fifth: Option<S>,
    sixth: Option<S>,
    seventh: Option<S>,
    eighth: Option<S>,
}

/// Reads from this file.
fn read_file<S: ImageStore>(
    file: &mut Option<S>,
    at: u64,
    into: &mut [u8],
) -> Result<(), StoreFault>
    requires there { IsSome file.old }
    requires within { at + length into.old ≤ length (held S.content [] file.old) }
    ensures read { OnOk result (into.new ≡ slice_range (held S.content [] file.old) at (at + length into.old)) }
    ensures there { IsSome file.new }
    ensures kept { held S.content [] file.new ≡ held S.content [] file.old }
    ensures same { held S.origin [] file.new ≡ held S.origin [] file.old }
    ensures counted { Counts (held S.failures 0 file.old) (held S.failures 0 file.new) result }
{
    match file {
        Some(store) => store.read_at(at, into),
        None => unreachable!(),
    }
}

/// Writes into this file.
fn write_file<S: ImageStore>(file: &mut Option<S>, at: u64, bytes: &[u8]) -> Result<(), StoreFault>
    requires there { IsSome file.old }
    requires within { at ≤ length (held S.content [] file.old) }
    ensures written { OnOk result (held S.content [] file.new ≡ overwritten (held S.content [] file.old) at bytes.now) }
    ensures torn { OnErr result
        (Torn (held S.content [] file.old) (held S.content [] file.new) at (length bytes.now)) }
    ensures there { IsSome file.new }
    ensures same { held S.origin [] file.new ≡ held S.origin [] file.old }
    ensures counted { Counts (held S.failures 0 file.old) (held S.failures 0 file.new) result }
{
    match file {
        Some(store) => store.write_at(at, bytes),
        None => unreachable!(),
    }
}

/// Reads from the file at this place.
pub(crate) fn read_store<S: ImageStore>(
    stores: &mut Stores<S>,
    place: usize,
    at: u64,
    into: &mut [u8],
) -> Result<(), StoreFault>
    requires exists { place < 8 }
    requires there { IsSome (file_at (listed stores.old) place) }
    requires within { at + length into.old ≤ length (held S.content [] (file_at (listed stores.old) place)) }
    ensures read { OnOk result
        (into.new ≡ slice_range (held S.content [] (file_at (listed stores.old) place)) at (at + length into.old)) }
    ensures files { listed stores.new ≡ slice_set (listed stores.old) place (file_at (listed stores.new) place) }
    ensures there { IsSome (file_at (listed stores.new) place) }
    ensures kept { held S.content [] (file_at (listed stores.new) place)
        ≡ held S.content [] (file_at (listed stores.old) place) }
    ensures same { held S.origin [] (file_at (listed stores.new) place)
        ≡ held S.origin [] (file_at (listed stores.old) place) }
    ensures counted { Counts (held S.failures 0 (file_at (listed stores.old) place))
        (held S.failures 0 (file_at (listed stores.new) place)) result }
{
    match place {
        0 => read_file(&mut stores.first, at, into),
        1 => read_file(&mut stores.second, at, into),
        2 => read_file(&mut stores.third, at, into),
        3 => read_file(&mut stores.fourth, at, into),
        4 => read_file(&mut stores.fifth, at, into),
        5 => read_file(&mut stores.sixth, at, into),
        6 => read_file(&mut stores.seventh, at, into),
        _ => read_file(&mut stores.eighth, at, into),
    }
}

/// Writes into the file at this place.
pub(crate) fn write_store<S: ImageStore>(
    stores: &mut Stores<S>,
    place: usize,
    at: u64,
    bytes: &[u8],
) -> Result<(), StoreFault>
    requires exists { place < 8 }
    requires there { IsSome (file_at (listed stores.old) place) }
    requires within { at ≤ length (held S.content [] (file_at (listed stores.old) place)) }
    ensures written { OnOk result
        (held S.content [] (file_at (listed stores.new) place) ≡ overwritten (held S.content [] (file_at (listed stores.old) place)) at bytes.now) }
    ensures torn { OnErr result
        (Torn (held S.content [] (file_at (listed stores.old) place)) (held S.content [] (file_at (listed stores.new) place)) at (length bytes.now)) }
    ensures files { listed stores.new ≡ slice_set (listed stores.old) place (file_at (listed stores.new) place) }
    ensures there { IsSome (file_at (listed stores.new) place) }
    ensures same { held S.origin [] (file_at (listed stores.new) place)
        ≡ held S.origin [] (file_at (listed stores.old) place) }
    ensures counted { Counts (held S.failures 0 (file_at (listed stores.old) place))
        (held S.failures 0 (file_at (listed stores.new) place)) result }
{
    match place {
        0 => write_file(&mut stores.first, at, bytes),
        1 => write_file(&mut stores.second, at, bytes),
        2 => write_file(&mut stores.third, at, bytes),
        3 => write_file(&mut stores.fourth, at, bytes),
        4 => write_file(&mut stores.fifth, at, bytes),
        5 => write_file(&mut stores.sixth, at, bytes),
        6 => write_file(&mut stores.seventh, at, bytes),
        _ => write_file(&mut stores.eighth, at, bytes),
    }
}

/// The tracks in a file, of this many bytes each; none where there is no file.
#[tactic(auto, using(crate::proofs::ReadLemmas::counted_one))]
fn tracks_in<S: ImageStore>(file: &Option<S>, size: u32) -> u32
    requires some { 0 < size }
    requires whole { AllByRecursion (HoldsWhole size) (each S.content (file.now ∷ [])) }
    ensures { HoldTracks S.content size (file.now ∷ []) (result ∷ []) }
{
    match file {
        Some(store) => ((store.len() - HEADER_LENGTH as u64) / size as u64) as u32,
        None => 0,
    }
}

/// How many tracks of this many bytes each file holds.
#[tactic(auto, using(crate::proofs::StoreLemmas::counting))]
pub(crate) fn count_tracks<S: ImageStore>(stores: &Stores<S>, size: u32) -> [u32; MOST_FILES]
    requires some { 0 < size }
    requires whole { AllByRecursion (HoldsWhole size) (each S.content (listed stores.now)) }
    ensures { HoldTracks S.content size (listed stores.now) result }
{
    [
        tracks_in(&stores.first, size),
        tracks_in(&stores.second, size),
        tracks_in(&stores.third, size),
        tracks_in(&stores.fourth, size),
        tracks_in(&stores.fifth, size),
        tracks_in(&stores.sixth, size),
        tracks_in(&stores.seventh, size),
        tracks_in(&stores.eighth, size),
    ]
}

/// Takes the file at this place.
pub(crate) fn take_file<S: ImageStore>(files: &mut [Option<S>], place: usize) -> Option<S>
    requires exists { place < length files.old }
    ensures file { result ≡ file_at files.old place }
    ensures files { files.new ≡ slice_set files.old place None }
{
    files[place].take()
}

/// The store of the file at this place, lent, if there is one.
pub(crate) fn store_at<S: ImageStore>(stores: &Stores<S>, place: usize) -> Option<&S>
    ensures { option_map (λ s. S.content s.now) result ≡ slice_get (each S.content (listed stores.now)) place }
{
    nth_store(
        &[
            stores.first.as_ref(),
            stores.second.as_ref(),
            stores.third.as_ref(),
            stores.fourth.as_ref(),
            stores.fifth.as_ref(),
            stores.sixth.as_ref(),
            stores.seventh.as_ref(),
            stores.eighth.as_ref(),
        ],
        place,
    )
}

/// The store at this place among those that are there.
fn nth_store<'a, S: ImageStore>(stores: &[Option<&'a S>], place: usize) -> Option<&'a S>
    ensures { option_map (λ s. S.content s.now) result ≡ slice_get (each (λ s. S.content s.now) stores.now) place }
{
    let [store, others @ ..] = stores else {
        return None;
    };
    match store {
        None => nth_store(others, place),
        Some(store) if place == 0 => Some(store),
        Some(_) => nth_store(others, place - 1),
    }
}

/// This store alone.
pub(crate) fn only_store<S: ImageStore>(store: S) -> Stores<S>
    ensures { result ≡ alone store }
{
    Stores {
        first: Some(store),
        second: None,
        third: None,
        fourth: None,
        fifth: None,
        sixth: None,
        seventh: None,
        eighth: None,
    }
}

/// The stores in this array.
pub(crate) fn stores_of<S: ImageStore>(mut files: [Option<S>; MOST_FILES]) -> Stores<S>
    ensures { listed result ≡ files }
{
    Stores {
        first: take_file(&mut files, 0),
        second: take_file(&mut files, 1),
        third: take_file(&mut files, 2),
        fourth: take_file(&mut files, 3),
        fifth: take_file(&mut files, 4),
        sixth: take_file(&mut files, 5),
        seventh: take_file(&mut files, 6),
        eighth: take_file(&mut files, 7),
    }
}

/// The array of these stores.
pub(crate) fn array_of<S: ImageStore>(stores: Stores<S>) -> [Option<S>; MOST_FILES]
    ensures { result ≡ listed stores }
{
    let Stores {
        first,
        second,
        third,
        fourth,
        fifth,
        sixth,
        seventh,
        eighth,
    } = stores;
    [first, second, third, fourth, fifth, sixth, seventh, eighth]
}

// A copy of the file, if there is one.
fn copy_file<S: CopyStore>(alloc: Global, file: &Option<S>) -> Result<Option<S>, AllocError>
    ensures { IfOk result (λ copy. copy ≡ file.now) }
{
    match file {
        Some(store) => Ok(Some(store.copy(alloc)?)),
        None => Ok(None),
    }
}

/// Copies of these stores.
pub(crate) fn copy_stores<S: CopyStore>(
    alloc: Global,
    stores: &Stores<S>,
) -> Result<Stores<S>, AllocError>
    ensures { IfOk result (λ copies. copies ≡ stores.now) }
{
    Ok(Stores {
        first: copy_file(alloc, &stores.first)?,
        second: copy_file(alloc, &stores.second)?,
        third: copy_file(alloc, &stores.third)?,
        fourth: copy_file(alloc, &stores.fourth)?,
        fifth: copy_file(alloc, &stores.fifth)?,
        sixth: copy_file(alloc, &stores.sixth)?,
        seventh: copy_file(alloc, &stores.seventh)?,
        eighth: copy_file(alloc, &stores.eighth)?,
    })
}
