//! The laws of split extents, which share their cylinders with others. Each function here does nothing: what it ensures is a law of
//! the definitions in `specs/`.

ghost use Rattle.std.specs.Prelude.{◌≡◌};
ghost use Rattle.volume_labels.specs.Addresses.{tracks_of_extent, track_in};
ghost use Rattle.volume_labels.specs.Sharing.{TracksLieIn, HasAllTracks, ShareNoTrack, three_heads};

/// Each track of a split extent lies on one of its cylinders and of its heads.
#[tactic(auto, using(crate::proofs::Sharing::tracks_lie_in))]
pub fn tracks_lie_in()
    ensures { TracksLieIn }
{}

/// Each track on its cylinders and heads is one of its tracks.
#[tactic(auto, using(crate::proofs::Sharing::has_all_tracks))]
pub fn has_all_tracks()
    ensures { HasAllTracks }
{}

/// Two split extents with no head in common have no track in common.
#[tactic(auto, using(crate::proofs::Sharing::share_no_track))]
pub fn share_no_track()
    ensures { ShareNoTrack }
{}

/// Of a 2311, which has ten heads, three heads of five cylinders are fifteen tracks. The first is head 2 of cylinder 5, number 52 on
/// the volume; track 7 is the second of the third cylinder, head 3 of cylinder 7; the last is head 4 of cylinder 9.
pub fn three_heads_of_ten()
    ensures tracks { tracks_of_extent 10 three_heads ≡ 15 }
    ensures first { track_in 10 three_heads 0 ≡ 52 }
    ensures third_cylinder { track_in 10 three_heads 7 ≡ 73 }
    ensures last { track_in 10 three_heads 14 ≡ 94 }
{}
