//! What operands of lines are.

/// What an operand is.
#[derive(Clone, Copy)]
pub enum Kind {
    /// A name.
    Name,
    /// All words that are left, also none.
    Names,
    /// Just this word.
    Is(&'static str),
    /// A drive: `2311` or `2314`.
    Model,
    /// Bytes: hexadecimal digits, of which a part may be followed by how often it stands there, as in `0000+C1*80`; or none, `-`.
    Bytes,
    /// A number within a range.
    Number(Range),
}

/// The numbers that an operand may be.
#[derive(Clone, Copy)]
pub struct Range {
    /// Whether its digits are hexadecimal; else they are decimal.
    pub is_hexadecimal: bool,
    /// The largest.
    pub most: u64,
    /// Whether `-` is taken, as the largest of 64 bits.
    pub takes_none: bool,
    /// What is said of a word that is none of them.
    pub wrong: &'static str,
}

/// A byte, in hexadecimal digits.
pub const BYTE: Kind = Kind::Number(Range {
    is_hexadecimal: true,
    most: 0xFF,
    takes_none: false,
    wrong: "no byte in two hexadecimal digits",
});

/// A storage key, 0 to F.
pub const KEY: Kind = Kind::Number(Range {
    is_hexadecimal: true,
    most: 0xF,
    takes_none: false,
    wrong: "no key of 0 to F",
});

/// An input/output address, in hexadecimal digits.
pub const DEVICE: Kind = Kind::Number(Range {
    is_hexadecimal: true,
    most: 0xFFFF,
    takes_none: false,
    wrong: "no input/output address in hexadecimal digits",
});

/// An address in storage, or another word of four bytes, in hexadecimal digits.
pub const AT: Kind = Kind::Number(Range {
    is_hexadecimal: true,
    most: 0xFFFF_FFFF,
    takes_none: false,
    wrong: "no address in hexadecimal digits",
});

/// Eight bytes in 16 hexadecimal digits.
pub const DIGITS: Kind = Kind::Number(Range {
    is_hexadecimal: true,
    most: 0xFFFF_FFFF_FFFF_FFFF,
    takes_none: false,
    wrong: "no 16 hexadecimal digits",
});

/// A decimal number.
pub const NUMBER: Kind = Kind::Number(Range {
    is_hexadecimal: false,
    most: 0xFFFF_FFFF_FFFF_FFFF,
    takes_none: false,
    wrong: "no number",
});

/// A decimal number, or none, `-`.
pub const NUMBER_OR_NONE: Kind = Kind::Number(Range {
    is_hexadecimal: false,
    most: 0xFFFF_FFFF_FFFF_FFFF,
    takes_none: true,
    wrong: "no number",
});

/// The number of a channel, or the length of a key.
pub const SMALL: Kind = Kind::Number(Range {
    is_hexadecimal: false,
    most: 0xFF,
    takes_none: false,
    wrong: "no number up to 255",
});

/// A decimal number up to 65,535.
pub const HALF: Kind = Kind::Number(Range {
    is_hexadecimal: false,
    most: 0xFFFF,
    takes_none: false,
    wrong: "no number up to 65535",
});

/// A decimal number up to 4,294,967,295.
pub const WIDE: Kind = Kind::Number(Range {
    is_hexadecimal: false,
    most: 0xFFFF_FFFF,
    takes_none: false,
    wrong: "no number up to 4294967295",
});
