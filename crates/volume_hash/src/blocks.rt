//! The hash of what the blocks of a data set or of a member say.

ghost use Rattle.std.specs.Prelude.{◌≡◌, ◌≢◌, ◌++◌, IfOk, IfErr};
ghost use Rattle.sha2.specs.Sha256.{sha256};
ghost use Rattle.dasd_volumes.specs.Reading.{IsRead};
ghost use Rattle.volume_hash.specs.SetMessage.{is_end_of_file, ending, IsHashOfBlocks};

use crate::Message;
use counted_io::Counted;
use dasd_extract::{Cause, ExtractedForm, Source, extract};
use dasd_volumes::{SlotReader, VolumeFault};
use std::alloc::Global;
use volume_labels::{Extent, RelativeAddress};

/// How many tracks are read at most; no data set has more.
const MOST_TRACKS: u16 = u16::MAX;

/// What stands behind a message of something that is not whole.
const NOT_WHOLE: [u8; 1] = [0];

/// The hash of the blocks of a data set or of a member, or of a data set with members.
#[derive(Clone, Copy)]
pub struct BlocksHash {
    /// The SHA-256 of what they say.
    pub digest: [u8; 32],
    /// Whether they end with an end of file.
    pub is_whole: bool,
}

/// The hash of what the blocks of a data set or of a member say: of each key length, data length, key and data, from an address on over
/// the extents, up to the first end of file. Where they lie is no part of it. One slot is in memory at a time.
///
/// # Errors
///
/// There is no memory for a slot, or a read of the volume failed.
pub(crate) fn hash_blocks<V: SlotReader>(
    alloc: Global,
    volume: &mut V,
    extents: &[Extent],
    start: RelativeAddress,
) -> Result<BlocksHash, VolumeFault>
    ensures hash { IfOk result (IsHashOfBlocks extents.now start (V.volume volume.old)) }
    ensures fault { IfErr result (λ e. e ≢ VolumeFault.Write) }
    ensures volume { IsRead result (V.volume volume.old) (V.volume volume.new) (V.failures volume.old) (V.failures volume.new) }
{
    let source = Source {
        extents,
        start,
        tracks: MOST_TRACKS,
        form: ExtractedForm::Keyed,
    };
    let mut message = Counted::new(begun(b"blocks"));
    let stop = match extract(alloc, volume, &mut message, source) {
        Ok(stop) => stop,
        Err(VolumeFault::Store) => return Err(VolumeFault::Store),
        Err(_) => return Err(VolumeFault::OutOfMemory),
    };
    let is_whole = is_end_of_file(stop.cause);
    Ok(ended(message.into_inner(), is_whole))
}

/// A message that begins with a word.
pub(crate) fn begun(word: &[u8]) -> Message
    ensures { result ≡ word.now }
{
    let mut message = Message::new();
    message.add(word);
    message
}

/// The hash of a message and its ending.
pub(crate) fn ended(mut message: Message, is_whole: bool) -> BlocksHash
    ensures digest { result.digest ≡ sha256 (message ++ ending is_whole) }
    ensures whole { result.is_whole ≡ is_whole }
{
    add_ending(&mut message, is_whole);
    BlocksHash {
        digest: message.digest(),
        is_whole,
    }
}

// What stands behind something that is not whole goes to its message.
fn add_ending(message: &mut Message, is_whole: bool)
    ensures { message.new ≡ message.old ++ ending is_whole }
{
    if !is_whole {
        message.add(&NOT_WHOLE);
    }
}

/// Whether blocks end with an end of file.
pub(crate) fn is_end_of_file(cause: Cause) -> bool
    ensures { result ≡ is_end_of_file cause }
{
    matches!(cause, Cause::EndOfFile | Cause::EndBehindAlternates)
}
