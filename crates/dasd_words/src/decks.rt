//! The words of decks, as `dasd run --help` shows them, and what is said of an operand that is wrong.

/// The words of a deck, with their limits and answers; and how a line is written.
pub const DECK_TABLE: &str = "\
A deck is a text with an event a line, and each answer is a line:
  SIO uuu             Start I/O                SIO uuu CC c; CC 1 is followed by storage bytes 68 and 69
  TIO uuu             Test I/O                 TIO uuu CC c; CC 1 is followed by the channel status word
  HIO uuu             Halt I/O                 HIO uuu CC c, as SIO
  TCH                 Test Channel             TCH CC c
  STEP n              so many units of work    STEP done; n is 0 to 65535
  RUN [n]             units until it ends      RUN done; at most n, 1 to 4294967295, or 16777216
  ARRIVE uuu          a moving arm arrives     ARRIVE uuu YES or NO
  INT                 an interruption, if any  INT NONE, or INT uuu and the channel status word
  RESET               a system reset           RESET CLEAN, or RESET UNSAVED uuu cccc hhhh
  STORE aaaaaa hex..  bytes into storage       STORE OK or OUTSIDE; 1 to 128 bytes
  KEY aaaaaa k        a block's storage key    KEY OK or OUTSIDE; k is one digit
  SHOW aaaaaa n       bytes of storage         SHOW aaaaaa hex or OUTSIDE; n is 1 to 32
uuu is the address of a device in three hexadecimal digits: the channel's number, and the UU of a VOLUME.
aaaaaa is an address of storage in one to six hexadecimal digits. Letters may be small or capital.
A line has at most 512 bytes and a deck 1,048,576. Empty lines and lines beginning with * are ignored.
An accepted program does its work only by STEP and RUN. Each file of a volume that the deck changed is written over at
the end, or with --replace replaced by a new one; one that can't be written stays as it was. `docs/DECKS.md` has eight decks.

Example: dasd run 90=work.ckd 91=new:2311:5 < deck.txt";

/// What the words behind the first one of a deck's line must be.
pub fn operand_rule(word: &str) -> &'static str {
    if word.eq_ignore_ascii_case("STEP") {
        "STEP takes a number up to 65535"
    } else if word.eq_ignore_ascii_case("RUN") {
        "RUN takes no operand, or a number from 1 to 4294967295"
    } else if word.eq_ignore_ascii_case("STORE") {
        "STORE takes an address of one to six hexadecimal digits, and 1 to 128 bytes of two digits each"
    } else if word.eq_ignore_ascii_case("SHOW") {
        "SHOW takes an address of one to six hexadecimal digits, and a number from 1 to 32"
    } else if word.eq_ignore_ascii_case("KEY") {
        "KEY takes an address of one to six hexadecimal digits, and one hexadecimal digit"
    } else if takes_nothing(word) {
        "TCH, INT and RESET take no operand"
    } else {
        "SIO, TIO, HIO and ARRIVE take an address of three hexadecimal digits"
    }
}

// Whether this event has no operand.
fn takes_nothing(word: &str) -> bool {
    word.eq_ignore_ascii_case("TCH")
        || word.eq_ignore_ascii_case("INT")
        || word.eq_ignore_ascii_case("RESET")
}
