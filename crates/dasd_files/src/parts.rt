//! When the parts of a file were written last.

ghost use Rattle.std.specs.Prelude.{◌≡◌, ◌+◌, ◌-◌, ◌^◌, ◌<◌, ◌≤◌, length, IfOk};
ghost use Rattle.dasd_files.specs.Parts.{is_part, marked, may_differ, numbered, parts_of};

use std::alloc::{AllocError, Global};
use std::marker::Model;

/// The parts of a file, and for each the number to which the file's number of changes moved on as it was written last.
#[derive(Drop)]
pub(crate) struct Parts {
    lead: u32,
    size: u32,
    numbers: Vec<u64>,
}

impl Model for Parts {
    ghost use Rattle.std.specs.Prelude.{◌<◌};
    ghost use Rattle.dasd_files.specs.Parts.{PartsState};

    ghost Value = { PartsState };

    ghost view = { λ p. record { lead = p.lead; size = p.size; numbers = p.numbers.items } };

    ghost invariant = { λ p. 0 < p.size };
}

impl Parts {
    /// The parts of so many bytes, all with this number. The only error is that memory was refused.
    pub(crate) fn new(
        alloc: Global,
        lead: u32,
        size: u32,
        bytes: usize,
        number: u64,
    ) -> Result<Parts, AllocError>
        requires some { 0 < size }
        requires few { bytes < 2 ^ 63 }
        ensures { IfOk result (λ p. p ≡ parts_of lead size bytes number) }
    {
        let count = (bytes + lead as usize + (size as usize - 1)) / size as usize;
        Ok(Parts {
            lead,
            size,
            numbers: vec![in alloc; number; count]?,
        })
    }

    /// So many bytes from a place on were written, as the number moved on to this one. Most writes lie in one part.
    pub(crate) fn mark(&mut self, at: usize, len: usize, number: u64)
        requires few { at + len < 2 ^ 63 }
        ensures { self.new ≡ marked self.old at len number }
    {
        let size = self.size as usize;
        let from = at + self.lead as usize;
        let part = from / size;
        let reach = from % size + len;
        if reach > 0 && reach <= size && part < self.numbers.len() {
            set_number(self.numbers.as_mut_slice(), part, number);
            return;
        }
        self.mark_each(at, len, number);
    }

    // The same, of however many parts.
    fn mark_each(&mut self, at: usize, len: usize, number: u64)
        requires few { at + len < 2 ^ 63 }
        ensures { self.new ≡ marked self.old at len number }
    {
        let lead = self.lead as usize;
        let size = self.size as usize;
        let to = ((at + len + lead + (size - 1)) / size).min(self.numbers.len());
        let from = ((at + lead) / size).min(to);
        set_numbers(self.numbers.as_mut_slice(), from, to, number);
    }

    /// All of them have this number.
    pub(crate) fn mark_all(&mut self, number: u64)
        ensures { self.new ≡ record self.old { numbers = numbered self.old.numbers 0 (length self.old.numbers) number } }
    {
        let to = self.numbers.len();
        set_numbers(self.numbers.as_mut_slice(), 0, to, number);
    }

    /// Whether so many bytes from a place on may have been written since the number was this one.
    pub(crate) fn may_differ(&self, number: u64, at: usize, len: usize) -> bool
        requires few { at < 2 ^ 63 }
        ensures { result ≡ may_differ self.now number at len }
    {
        let from = at + self.lead as usize;
        let size = self.size as usize;
        if from % size == 0 && len == size && from / size < self.numbers.len() {
            return self.numbers[from / size] > number;
        }
        true
    }

    /// The same parts once more.
    pub(crate) fn copy(&self, alloc: Global) -> Result<Parts, AllocError>
        ensures { IfOk result (λ copy. copy ≡ self.now) }
    {
        Ok(Parts {
            lead: self.lead,
            size: self.size,
            numbers: Vec::from_slice(alloc, &self.numbers)?,
        })
    }
}

// The number at a place is this one.
fn set_number(numbers: &mut [u64], at: usize, number: u64)
    requires there { at < length numbers.old }
    ensures { numbers.new ≡ numbered numbers.old at (at + 1) number }
{
    numbers[at] = number;
}

// Numbers from one place to before another are this one.
fn set_numbers(numbers: &mut [u64], from: usize, to: usize, number: u64)
    requires order { from ≤ to }
    requires there { to ≤ length numbers.old }
    ensures { numbers.new ≡ numbered numbers.old from to number }
{
    numbers[from..to].fill(number);
}
