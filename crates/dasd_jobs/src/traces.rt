//! What a trace is written to.

ghost use Rattle.std.specs.Prelude.{◌≡◌};

use crate::files::{FileFault, ImageFiles};
use std::alloc::Global;
use std::io::Write;

/// Files, and what a trace can be written to beside them.
pub trait Traces: ImageFiles {
    /// What takes the lines of a trace.
    type Sink: Write + Drop;

    /// Opens a file for a trace, or standard error where there is no path. A file that is not there is made; one that is there keeps its
    /// bytes until the trace is first written or flushed, and is locked. `beside` are the other files that are used.
    ///
    /// # Errors
    ///
    /// The host can't open the file for writing; it is one of those beside it, also by another name, or standard input or output;
    /// another program has locked it; or there is no memory.
    fn open_trace(
        &mut self,
        alloc: Global,
        path: Option<&str>,
        beside: &[&str],
    ) -> Result<Self::Sink, FileFault>
        ensures kept { Self.written self.new ≡ Self.written self.old }
        ensures same { Self.opened self.new ≡ Self.opened self.old };
}
