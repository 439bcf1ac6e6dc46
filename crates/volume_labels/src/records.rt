//! The records of a block: fixed length, variable length with descriptor words, or undefined length.

ghost use Rattle.std.specs.Prelude.{◌≡◌, ◌≤◌, ◌<◌, ◌+◌, length, IfOk, IfSome};
ghost use Rattle.volume_labels.specs.Records.{form_of, number_at, segment_of, fixed_record, described, variable_record, next_record, IsWithin};

/// The form of a data set's records.
#[derive(Clone, Copy)]
pub enum RecordForm {
    /// Records of this length, in bytes; 0 is one record a block.
    Fixed(u16),
    /// Records of variable length, each whole in its block.
    Variable,
    /// Records of variable length, of which a block may hold a part.
    Spanned,
    /// Blocks of undefined length, each of which is one record.
    Undefined,
}

/// Which part of a record stands in a block.
#[derive(Clone, Copy, PartialEq, Eq)]
pub enum Segment {
    /// All of it.
    Whole,
    /// Its beginning.
    First,
    /// Its end.
    Last,
    /// Neither its beginning nor its end.
    Middle,
}

/// A record of a block, or a part of one: the bytes from `start` up to `end`, without descriptor words. The next one stands at
/// `end`.
#[derive(Clone, Copy)]
pub struct Piece {
    /// Where it begins.
    pub start: usize,
    /// Where it ends.
    pub end: usize,
    /// Which part of its record it is.
    pub segment: Segment,
}

/// Why the records of a block can't be told apart.
#[derive(Clone, Copy, Debug, PartialEq, Eq)]
pub enum RecordFault {
    /// What is left of a block of fixed records is shorter than one.
    ShortRecord,
    /// Fewer than four bytes are left, where a descriptor word must stand.
    NoDescriptor,
    /// The block descriptor word has another length than the block.
    BlockLength,
    /// A record descriptor word has a length of less than four, or of more than is left of the block.
    RecordLength,
    /// A record descriptor word has a segment code that its form has not.
    SegmentCode,
}

/// The form that a control block's record format says (System Control Blocks, 'Data Set Control Block', DS1RECFM): the two high
/// bits are fixed, variable or undefined; the fifth is, for variable ones, spanned. None where neither of the two is set.
pub fn record_form(format: u8, record_length: u16) -> Option<RecordForm>
    ensures { result ≡ form_of format record_length }
{
    match format / 64 {
        2 => Some(RecordForm::Fixed(record_length)),
        1 if format / 8 % 2 == 1 => Some(RecordForm::Spanned),
        1 => Some(RecordForm::Variable),
        3 => Some(RecordForm::Undefined),
        _ => None,
    }
}

// The number in the two bytes from an offset on.
fn number_at(block: &[u8], at: usize) -> usize
    requires { at + 2 ≤ length block.now }
    ensures value { result ≡ number_at block.now at }
    ensures limit { result < 65536 }
{
    block[at] as usize * 256 + block[at + 1] as usize
}

// The segment of a code.
fn segment_of(code: u8) -> Option<Segment>
    ensures { result ≡ segment_of code }
{
    match code {
        0 => Some(Segment::Whole),
        1 => Some(Segment::First),
        2 => Some(Segment::Last),
        3 => Some(Segment::Middle),
        _ => None,
    }
}

// The fixed record at an offset.
fn fixed_record(size: usize, block: &[u8], at: usize) -> Result<Option<Piece>, RecordFault>
    requires within { at ≤ length block.now }
    requires size { size < 65536 }
    ensures { result ≡ fixed_record size block.now at }
{
    let len = block.len();
    if at == len {
        return Ok(None);
    }
    let start = at;
    let segment = Segment::Whole;
    if size == 0 {
        return Ok(Some(Piece {
            start,
            end: len,
            segment,
        }));
    }
    if len - at < size {
        return Err(RecordFault::ShortRecord);
    }
    Ok(Some(Piece {
        start,
        end: at + size,
        segment,
    }))
}

// The record whose descriptor word stands at an offset.
fn described(spans: bool, block: &[u8], at: usize) -> Result<Option<Piece>, RecordFault>
    requires { at ≤ length block.now }
    ensures { result ≡ described spans block.now at }
{
    let left = block.len() - at;
    if left == 0 {
        return Ok(None);
    }
    if left < 4 {
        return Err(RecordFault::NoDescriptor);
    }
    let record = number_at(block, at);
    if record < 4 || left < record {
        return Err(RecordFault::RecordLength);
    }
    match segment_of(block[at + 2]) {
        Some(segment) if spans || segment == Segment::Whole => Ok(Some(Piece {
            start: at + 4,
            end: at + record,
            segment,
        })),
        _ => Err(RecordFault::SegmentCode),
    }
}

// The variable record at an offset; the block descriptor word stands before the first one.
fn variable_record(spans: bool, block: &[u8], at: usize) -> Result<Option<Piece>, RecordFault>
    requires { at ≤ length block.now }
    ensures { result ≡ variable_record spans block.now at }
{
    if at > 0 {
        return described(spans, block, at);
    }
    if block.len() < 4 {
        return Err(RecordFault::NoDescriptor);
    }
    if number_at(block, 0) != block.len() {
        return Err(RecordFault::BlockLength);
    }
    described(spans, block, 4)
}

/// The record of a block that stands at an offset, which is 0 for the first one and the end of the one before for each other.
/// None behind the last one.
///
/// # Errors
///
/// What stands there is no record of this form.
pub fn next_record(form: RecordForm, block: &[u8], at: usize) -> Result<Option<Piece>, RecordFault>
    requires { at ≤ length block.now }
    ensures value { result ≡ next_record form block.now at }
    ensures within { IfOk result (λ found. IfSome found (IsWithin block.now at)) }
{
    match form {
        RecordForm::Fixed(record) => fixed_record(record as usize, block, at),
        RecordForm::Undefined => fixed_record(0, block, at),
        RecordForm::Variable => variable_record(false, block, at),
        RecordForm::Spanned => variable_record(true, block, at),
    }
}
