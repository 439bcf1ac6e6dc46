//! What a program keeps of a trace between two looks, in plain numbers of known widths. All zero it is nothing.

ghost use Rattle.std.specs.Prelude.{◌≡◌, ◌^◌, ◌==◌, if◌then◌else◌, None, Some};
ghost use Rattle.trace_kept.specs.Kept.{one_more, number_below, kept_word, word_in, kept_area, met_in, number_of_area, record_of_area, area_of};
ghost use Rattle.trace_kept.specs.Kept.{number_of_credit, record_of_credit, credit_of, kept_line, line_in, kept_bytes, bytes_in};

use ckd_command::Credit;
use ckd_position::{Area, RecordPart};
use s360_words::{Ccw, CcwFlags};
use trace_words::{Met, Passed, TraceLine};

/// One more than a number, or 0 where there is none.
pub fn one_more(number: Option<u32>) -> u64
    ensures { result ≡ one_more number }
{
    match number {
        Some(number) => u64::from(number) + 1,
        None => 0,
    }
}

/// The number than which this is one more.
pub fn number_of(kept: u64) -> Option<u32>
    ensures { result ≡ number_below (2 ^ 32) kept }
{
    u32::try_from(kept.checked_sub(1)?).ok()
}

/// The low byte of an address than which this is one more.
pub fn device_of(kept: u64) -> Option<u8>
    ensures { result ≡ number_below 256 kept }
{
    u8::try_from(kept.checked_sub(1)?).ok()
}

/// A channel command word.
#[repr(C)]
#[derive(Clone, Copy)]
pub struct KeptWord {
    /// The data address.
    pub address: u32,
    /// How many bytes the word asks for.
    pub count: u16,
    /// The command code.
    pub code: u8,
    /// The flags.
    pub flags: u8,
}

/// No word.
pub const NO_WORD: KeptWord = KeptWord {
    address: 0,
    count: 0,
    code: 0,
    flags: 0,
};

impl KeptWord {
    /// A word in numbers.
    pub fn of(word: Ccw) -> KeptWord
        ensures { result ≡ kept_word word }
    {
        KeptWord {
            address: word.address,
            count: word.count,
            code: word.code,
            flags: word.flags.0,
        }
    }

    /// The word.
    pub fn word(&self) -> Ccw
        ensures { result ≡ word_in self.now }
    {
        Ccw {
            code: self.code,
            address: self.address,
            flags: CcwFlags(self.flags),
            count: self.count,
        }
    }
}

/// An area that was met, by a number: 0 none, 1 the home address, 2 a count, 3 a key, 4 a data area; its record, and that one's count area
/// behind a 1.
#[repr(C)]
#[derive(Clone, Copy)]
pub struct KeptArea {
    /// The number of the record.
    pub number: u64,
    /// Its count area, or zeros.
    pub count: [u8; 8],
    /// The number of the area.
    pub area: u8,
    /// Whether the count area was seen.
    pub is_counted: u8,
    /// Zeros.
    pub reserved: [u8; 6],
}

impl KeptArea {
    /// An area that was met, in numbers.
    pub fn of(met: Option<Met>) -> KeptArea
        ensures { result ≡ kept_area met }
    {
        let Some(met) = met else {
            return KeptArea {
                number: 0,
                count: [0; 8],
                area: 0,
                is_counted: 0,
                reserved: [0; 6],
            };
        };
        let (area, number) = number_of_area(met.area);
        let count = met.count.unwrap_or([0; 8]);
        KeptArea {
            number,
            count,
            area,
            is_counted: met.count.is_some() as u8,
            reserved: [0; 6],
        }
    }

    /// What was met.
    pub fn met(&self) -> Option<Met>
        ensures { result ≡ met_in self.now }
    {
        Some(Met {
            area: area_of(self.area, self.number)?,
            count: self.count_area(),
        })
    }

    fn count_area(&self) -> Option<[u8; 8]>
        ensures { result ≡ (if self.now.is_counted == 0 then None else Some self.now.count) }
    {
        let count = self.count;
        if self.is_counted == 0 {
            None
        } else {
            Some(count)
        }
    }
}

fn number_of_area(area: Area) -> (u8, u64)
    ensures area { result.0 ≡ number_of_area area }
    ensures number { result.1 ≡ record_of_area area }
{
    match area {
        Area::HomeAddress => (1, 0),
        Area::Of(RecordPart::Count, record) => (2, record as u64),
        Area::Of(RecordPart::Key, record) => (3, record as u64),
        Area::Of(RecordPart::Data, record) => (4, record as u64),
    }
}

fn area_of(area: u8, number: u64) -> Option<Area>
    ensures { result ≡ area_of area number }
{
    match area {
        1 => Some(Area::HomeAddress),
        2 => Some(Area::Of(RecordPart::Count, number as usize)),
        3 => Some(Area::Of(RecordPart::Key, number as usize)),
        4 => Some(Area::Of(RecordPart::Data, number as usize)),
        _ => None,
    }
}

/// The number of a credit, and its record.
pub fn number_of_credit(credit: Option<Credit>) -> (u8, u64)
    ensures credit { result.0 ≡ number_of_credit credit }
    ensures number { result.1 ≡ record_of_credit credit }
{
    match credit {
        None => (0, 0),
        Some(Credit::EqualHomeAddress) => (1, 0),
        Some(Credit::EqualId(record)) => (2, record as u64),
        Some(Credit::EqualKey(record)) => (3, record as u64),
        Some(Credit::WroteHomeAddress) => (4, 0),
        Some(Credit::WroteRecord(record)) => (5, record as u64),
    }
}

/// The credit of a number and a record.
pub fn credit_of(credit: u8, number: u64) -> Option<Credit>
    ensures { result ≡ credit_of credit number }
{
    match credit {
        1 => Some(Credit::EqualHomeAddress),
        2 => Some(Credit::EqualId(number as usize)),
        3 => Some(Credit::EqualKey(number as usize)),
        4 => Some(Credit::WroteHomeAddress),
        5 => Some(Credit::WroteRecord(number as usize)),
        _ => None,
    }
}

/// The line of the word at work, behind a 1.
#[repr(C)]
#[derive(Clone, Copy)]
pub struct KeptLine {
    /// Where the word stands.
    pub at: u32,
    /// How many bytes moved under it.
    pub moved: u32,
    /// The word.
    pub word: KeptWord,
    /// The first of these bytes.
    pub first: [u8; 6],
    /// The code of its command.
    pub code: u8,
    /// Whether it has a further area of that command.
    pub is_chained: u8,
    /// Whether it is written already.
    pub is_told: u8,
    /// Whether there is a line.
    pub is_known: u8,
    /// Zeros.
    pub reserved: [u8; 2],
}

impl KeptLine {
    /// A line in numbers.
    pub fn of(line: Option<TraceLine>) -> KeptLine
        ensures { result ≡ kept_line line }
    {
        let mut kept = KeptLine {
            at: 0,
            moved: 0,
            word: NO_WORD,
            first: [0; 6],
            code: 0,
            is_chained: 0,
            is_told: 0,
            is_known: 0,
            reserved: [0; 2],
        };
        if let Some(line) = line {
            let first = line.first;
            kept.at = line.at;
            kept.moved = line.moved;
            kept.word = KeptWord::of(line.ccw);
            kept.first = first;
            kept.code = line.code;
            kept.is_chained = line.is_chained as u8;
            kept.is_told = line.is_told as u8;
            kept.is_known = 1;
        }
        kept
    }

    /// The line.
    pub fn line(&self) -> Option<TraceLine>
        ensures { result ≡ line_in self.now }
    {
        if self.is_known == 0 {
            return None;
        }
        let first = self.first;
        Some(TraceLine {
            at: self.at,
            ccw: self.word.word(),
            code: self.code,
            is_chained: self.is_chained != 0,
            moved: self.moved,
            first,
            is_told: self.is_told != 0,
        })
    }
}

/// What has passed in a command.
#[repr(C)]
#[derive(Clone, Copy)]
pub struct KeptBytes {
    /// The first of them.
    pub first: [u8; 8],
    /// How many.
    pub count: u32,
    /// Whether the index has passed while the command looked for its area.
    pub has_turned: u8,
    /// Zeros.
    pub reserved: [u8; 3],
}

impl KeptBytes {
    /// What has passed, in numbers.
    pub fn of(passed: &Passed) -> KeptBytes
        ensures { result ≡ kept_bytes passed.now }
    {
        let first = passed.first;
        KeptBytes {
            first,
            count: passed.count,
            has_turned: passed.has_turned as u8,
            reserved: [0; 3],
        }
    }

    /// What has passed.
    pub fn passed(&self) -> Passed
        ensures { result ≡ bytes_in self.now }
    {
        let first = self.first;
        Passed {
            count: self.count,
            first,
            has_turned: self.has_turned != 0,
        }
    }
}
