//! Laws of several channels. Each function here does nothing: what it ensures follows from what the calls promise.

ghost use Rattle.s360_channels.specs.Several.{HeadlineOfEach};

/// Whatever is done to several channels, the headline holds of each of them, by a list of its inputs in which the processor stores
/// what the others left in the shared storage.
pub fn headline_of_each()
    ensures { HeadlineOfEach }
{}
