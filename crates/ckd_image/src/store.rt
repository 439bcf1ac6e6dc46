//! What an image is kept in.

ghost use Rattle.std.specs.Prelude.{◌≡◌, ℕ, ◌+◌, ◌≤◌, List, length, slice_range, OnOk, OnErr};
ghost use Rattle.ckd_image.specs.Store.{overwritten, Torn, Counts};

use thiserror::Error;

/// A read or a write that the store did not do.
#[derive(Clone, Copy, Debug, PartialEq, Eq, Error)]
#[error("store fault")]
pub struct StoreFault;

/// A row of bytes that is read and written in parts, as a file is. Each call may fail, and is
/// counted if it does.
pub trait ImageStore: Drop {
    ghost content: { Self → List ℕ };

    // what the store held when it was made: by it a store is known again, since no call changes it; contracts alone speak of it
    ghost origin: { Self → List ℕ };

    // how many calls failed; a whole number that contracts alone speak of
    ghost failures: { Self → ℕ };

    /// The number of bytes held.
    fn len(&self) -> u64
        ensures { result ≡ length (content self.now) };

    /// Reads the bytes from `at` on that fill `into`. After an error `into` holds any bytes, and
    /// the content stays.
    fn read_at(&mut self, at: u64, into: &mut [u8]) -> Result<(), StoreFault>
        requires { at + length into.old ≤ length (content self.old) }
        ensures read { OnOk result (into.new ≡ slice_range (content self.old) at (at + length into.old)) }
        ensures kept { content self.new ≡ content self.old }
        ensures same { origin self.new ≡ origin self.old }
        ensures counted { Counts (failures self.old) (failures self.new) result };

    /// Writes these bytes from `at` on; past the end they extend the content. After an error the
    /// range holds any bytes, as far as it lies within the content, and the content has its length.
    fn write_at(&mut self, at: u64, bytes: &[u8]) -> Result<(), StoreFault>
        requires { at ≤ length (content self.old) }
        ensures written { OnOk result (content self.new ≡ overwritten (content self.old) at bytes.now) }
        ensures torn { OnErr result (Torn (content self.old) (content self.new) at (length bytes.now)) }
        ensures same { origin self.new ≡ origin self.old }
        ensures counted { Counts (failures self.old) (failures self.new) result };
}
