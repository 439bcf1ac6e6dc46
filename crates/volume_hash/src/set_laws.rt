//! What the message of blocks tells. The function here does nothing: what it ensures is a law of the definitions in `specs/`.

ghost use Rattle.volume_hash.specs.SetsApart.{MessageIsWhatBlocksSay};

/// Blocks have the message of others exactly where each of them has the key and the data of that of the others, in order, and both end
/// with an end of file or neither does.
#[tactic(auto, using(crate::proofs::SetsAlike::message_is_what_blocks_say))]
pub fn message_is_what_blocks_say()
    ensures { MessageIsWhatBlocksSay }
{}
