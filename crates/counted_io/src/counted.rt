//! A reader or a writer of which contracts know what passed, and how often a call failed.

ghost use Rattle.std.specs.Prelude.{◌≡◌, []};
ghost use Rattle.std.specs.Io.{ReadsAtMost, WritesAtMost};
ghost use Rattle.std.specs.Io.KnownBytes.{Keeps, ReadConsumes, WriteAppends};
ghost use Rattle.counted_io.specs.Calls.{CountsCall, CountsWrite, PassesTaken, FlushesTaken};

use ghost_data::{Count, Trace};
use std::io::{Read, Result, Write};
use std::marker::Model;

/// A reader or a writer, the bytes that passed since it was made, those of them that were flushed, and how many of its calls failed.
/// Only contracts read these three; they take no memory and no code. With them a contract can say that a fault comes exactly where a
/// call failed, that nothing of a text is held back, and what was read of a reader of whose bytes nothing is known.
///
/// Only its own calls change them: no other code can claim that a call failed, or that bytes were flushed.
///
/// A read or a flush fails where it answers an error; a write fails where it answers an error, or takes no byte of some.
#[derive(Drop)]
pub struct Counted<T> {
    inner: T,
    passed: Trace,
    flushed: Trace,
    failures: Count,
}

impl<T> Model for Counted<T> {
    ghost use Rattle.counted_io.specs.Calls.{CountedState};

    ghost Value = { CountedState T };

    ghost view = { λ c. record {
      inner = c.inner;
      passed = c.passed.bytes;
      flushed = c.flushed.bytes;
      failures = c.failures;
    } };
}

impl<T> Counted<T> {
    /// This reader or writer: nothing has passed, and no call has failed.
    pub fn new(inner: T) -> Counted<T>
        ensures inner { result.inner ≡ inner }
        ensures passed { result.passed ≡ [] }
        ensures flushed { result.flushed ≡ [] }
        ensures failures { result.failures ≡ 0 }
    {
        Counted {
            inner,
            passed: Trace::new(),
            flushed: Trace::new(),
            failures: Count::new(),
        }
    }

    /// The reader or writer itself, lent to be looked at.
    pub fn get_ref(&self) -> &T
        ensures { result.now ≡ self.now.inner }
    {
        &self.inner
    }

    /// The reader or writer itself.
    pub fn into_inner(self) -> T
        ensures { result ≡ self.inner }
    {
        let Counted {
            inner,
            passed: _,
            flushed: _,
            failures: _,
        } = self;
        inner
    }
}

impl<R: Read> Read for Counted<R> {
    ghost remaining = { λ c. R.remaining c.inner };

    fn read(&mut self, into: &mut [u8]) -> Result<usize>
        ensures bound { ReadsAtMost result into.new }
        ensures bytes { ReadConsumes (R.remaining self.old.inner) (R.remaining self.new.inner) result into.new }
        ensures passed { PassesTaken self.old.passed self.new.passed result into.new }
        ensures flushed { self.new.flushed ≡ self.old.flushed }
        ensures counted { CountsCall self.old.failures self.new.failures result }
    {
        let read = self.inner.read(into);
        match &read {
            Ok(count) => self.passed = self.passed.and(&into[..*count]),
            Err(_) => self.failures = self.failures.next(),
        }
        read
    }
}

impl<W: Write> Write for Counted<W> {
    ghost contents = { λ c. W.contents c.inner };

    fn write(&mut self, bytes: &[u8]) -> Result<usize>
        ensures bound { WritesAtMost result bytes.now }
        ensures bytes { WriteAppends (W.contents self.old.inner) (W.contents self.new.inner) result bytes.now }
        ensures passed { PassesTaken self.old.passed self.new.passed result bytes.now }
        ensures flushed { self.new.flushed ≡ self.old.flushed }
        ensures counted { CountsWrite self.old.failures self.new.failures result bytes.now }
    {
        let written = self.inner.write(bytes);
        let failed = match &written {
            Ok(count) => {
                self.passed = self.passed.and(&bytes[..*count]);
                *count == 0 && !bytes.is_empty()
            }
            Err(_) => true,
        };
        if failed {
            self.failures = self.failures.next();
        }
        written
    }

    #[tactic(auto, using(crate::proofs::Written::none_more))]
    fn flush(&mut self) -> Result<()>
        ensures bytes { Keeps (W.contents self.old.inner) (W.contents self.new.inner) }
        ensures passed { self.new.passed ≡ self.old.passed }
        ensures flushed { FlushesTaken self.old.flushed self.new.flushed result self.old.passed }
        ensures counted { CountsCall self.old.failures self.new.failures result }
    {
        let flushed = self.inner.flush();
        match &flushed {
            Ok(()) => self.flushed = self.passed.and(&[]),
            Err(_) => self.failures = self.failures.next(),
        }
        flushed
    }
}
