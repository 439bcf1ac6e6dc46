//! The lines of a deck in words: label, operation, operands and remark in columns.

use crate::pieces::Piece;
use arrayvec::ArrayString;
use s360_explain::{code_name, word_of};
use s360_laws::Event;
use s360_words::{Ccw, CcwFlags};
use std::alloc::{AllocError, Global};

/// The names of flags, each with its bit.
const FLAG_NAMES: [(u8, &str); 5] = [
    (0x80, "CD"),
    (0x40, "CC"),
    (0x20, "SLI"),
    (0x10, "SKIP"),
    (0x08, "PCI"),
];

/// What a line has.
#[derive(Drop)]
pub(crate) struct Line {
    operation: ArrayString<8>,
    operands: String,
    remark: &'static str,
}

/// An address, and whether it is said by its label.
#[derive(Clone, Copy)]
pub(crate) struct Place {
    pub(crate) address: u32,
    pub(crate) has_label: bool,
}

/// A line as it is written, without line feed, of a statement that has this label or none.
pub(crate) fn written(
    alloc: Global,
    label: Option<u32>,
    line: &Line,
) -> Result<String, AllocError> {
    let operation = line.operation.as_str();
    let operands = line.operands.as_str();
    let remark = line.remark;
    match label {
        Some(address) => {
            format!(in alloc; "L{address:06X}  {operation:<8}{operands:<26} {remark}")
        }
        None => format!(in alloc; "         {operation:<8}{operands:<26} {remark}"),
    }
}

// A line without a remark.
fn plain(name: &str, operands: String) -> Line {
    Line {
        operation: name_of(name),
        operands,
        remark: "",
    }
}

// The name of an operation, as far as there is room, which there is for each.
fn name_of(name: &str) -> ArrayString<8> {
    let mut operation = ArrayString::new();
    let _ = operation.try_push_str(name);
    operation
}

// An address.
fn address_text(alloc: Global, place: Place) -> Result<String, AllocError> {
    let address = place.address;
    if place.has_label {
        format!(in alloc; "L{address:06X}")
    } else {
        format!(in alloc; "X'{address:06X}'")
    }
}

// The names of flags, with plus signs between.
fn flags_text(alloc: Global, flags: CcwFlags) -> Result<String, AllocError> {
    let mut text = String::new(alloc);
    for (bit, name) in FLAG_NAMES {
        if flags.0 & bit != 0 {
            if !text.is_empty() {
                text.push_str("+")?;
            }
            text.push_str(name)?;
        }
    }
    Ok(text)
}

// Bytes in hexadecimal digits.
fn bytes_text(alloc: Global, bytes: &[u8]) -> Result<String, AllocError> {
    let mut text = String::new(alloc);
    for byte in bytes {
        let digits = format!(in alloc; "{byte:02X}")?;
        text.push_str(digits.as_str())?;
    }
    Ok(text)
}

// The address, and flags and count of a word, which a Transfer In Channel without them does not need.
fn word_operands(alloc: Global, word: Ccw, place: Place) -> Result<String, AllocError> {
    let address = address_text(alloc, place)?;
    if word.is_transfer() && word.flags.0 == 0 && word.count == 0 {
        return Ok(address);
    }
    let flags = flags_text(alloc, word.flags)?;
    let count = word.count;
    format!(in alloc; "{address},{flags},{count}")
}

/// The line of a channel command word.
pub(crate) fn word_line(alloc: Global, word: Ccw, place: Place) -> Result<Line, AllocError> {
    let operands = word_operands(alloc, word, place)?;
    let remark = code_name(word.code);
    let operation = word_of(word.code);
    if !operation.is_empty() {
        return Ok(Line {
            operation,
            operands,
            remark,
        });
    }
    let code = word.code;
    let operands = format!(in alloc; "X'{code:02X}',{operands}")?;
    Ok(Line {
        operation: name_of("CCW"),
        operands,
        remark,
    })
}

/// The line of an address constant.
pub(crate) fn pointer_line(alloc: Global, place: Place) -> Result<Line, AllocError> {
    let address = address_text(alloc, place)?;
    Ok(plain("DC", format!(in alloc; "A({address})")?))
}

/// The line of a constant: so many times these bytes.
pub(crate) fn constant_line(alloc: Global, times: usize, bytes: &[u8]) -> Result<Line, AllocError> {
    let bytes = bytes_text(alloc, bytes)?;
    let operands = if times == 1 {
        format!(in alloc; "X'{bytes}'")?
    } else {
        format!(in alloc; "{times}X'{bytes}'")?
    };
    Ok(plain("DC", operands))
}

/// The line that says where statements stand.
pub(crate) fn origin_line(alloc: Global, at: u32) -> Result<Line, AllocError> {
    let place = Place {
        address: at,
        has_label: false,
    };
    Ok(plain("ORG", address_text(alloc, place)?))
}

// An address of a device.
fn device_text(alloc: Global, address: u16) -> Result<String, AllocError> {
    format!(in alloc; "{address:03X}")
}

// A number.
fn number_text(alloc: Global, number: u32) -> Result<String, AllocError> {
    format!(in alloc; "{number}")
}

/// The line of an event as decks have it.
pub(crate) fn event_line(alloc: Global, event: &Event) -> Result<Line, AllocError> {
    Ok(match event {
        Event::Sio(address) => plain("SIO", device_text(alloc, *address)?),
        Event::Tio(address) => plain("TIO", device_text(alloc, *address)?),
        Event::Hio(address) => plain("HIO", device_text(alloc, *address)?),
        Event::Arrive(address) => plain("ARRIVE", device_text(alloc, *address)?),
        Event::Step(units) => plain("STEP", number_text(alloc, u32::from(*units))?),
        Event::Run(units) => plain("RUN", number_text(alloc, *units)?),
        Event::Tch => plain("TCH", String::new(alloc)),
        Event::Interrupt => plain("INT", String::new(alloc)),
        Event::Reset => plain("RESET", String::new(alloc)),
        Event::Store(at, bytes) => {
            let bytes = bytes_text(alloc, bytes.as_slice())?;
            plain("STORE", format!(in alloc; "{at:06X} {bytes}")?)
        }
        Event::Key(at, key) => {
            let key = key.get();
            plain("KEY", format!(in alloc; "{at:06X} {key:X}")?)
        }
        Event::Show(at, count) => {
            let count = count.get();
            plain("SHOW", format!(in alloc; "{at:06X} {count}")?)
        }
    })
}
