//! A checksum by which bytes that were changed are known.

ghost use Rattle.std.specs.Prelude.{◌≡◌};
ghost use Rattle.saved_state.specs.Bytes.{checksum};

/// The Adler-32 checksum of these bytes (RFC 1950).
#[tactic(auto, unfolding(crate::specs::Bytes::checksum))]
pub(crate) fn checksum(bytes: &[u8]) -> u32
    ensures { result ≡ checksum bytes.now }
{
    let mut low: u32 = 1;
    let mut high: u32 = 0;
    for byte in bytes {
        low = (low + *byte as u32) % 65521;
        high = (high + low) % 65521;
    }
    high * 65536 + low
}
