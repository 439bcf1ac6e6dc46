//! A running program is copied.

ghost use Rattle.std.specs.Prelude.{◌≡◌};

use crate::program::Running;

impl Running {
    /// The same program, at the same unit: over a storage with the same bytes and keys and a copy of the drive it goes on as this
    /// one does. It takes no memory.
    pub fn copy(&self) -> Running
        ensures { result ≡ self.now }
    {
        Running { run: self.run }
    }
}
