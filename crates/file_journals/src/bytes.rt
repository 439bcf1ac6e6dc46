//! The bytes of a journal of version 1.1.0 beside those of its file.

ghost use Rattle.std.specs.Prelude.{◌≡◌, ◌↔◌, length, IsTrue};
ghost use Rattle.file_journals.specs.Bytes.{AreEither};

/// Whether each byte that a file holds is the one that is saved, or the one that it held before.
pub fn are_either(saved: &[u8], differing: &[u8], held: &[u8]) -> bool
    requires saved { length saved.now ≡ length held.now }
    requires differing { length differing.now ≡ length held.now }
    ensures { IsTrue result ↔ AreEither saved.now differing.now held.now }
{
    for i in 0..held.len() {
        if held[i] != saved[i] && held[i] != saved[i] ^ differing[i] {
            return false;
        }
    }
    true
}
