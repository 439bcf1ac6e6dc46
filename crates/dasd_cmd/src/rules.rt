//! What would be right in the place of what a text refuses.

/// How the text of a fault ends, and what would be right then.
pub(crate) const RULES: [(&str, &str); 17] = [
    (
        "not a name of a data set",
        "a data set has a name of at most 44 characters: simple names of 1 to 8 capital letters, digits, #, @, $ and \
hyphens, joined by periods, each of which begins with no digit or hyphen",
    ),
    (
        "not a name of a member",
        "a member has a name of 1 to 8 capital letters, digits, #, @ and $, which begins with no digit",
    ),
    (
        "no volume label",
        "record 3 of track 0 is no label VOL1: dasd format --label makes a volume that has one",
    ),
    (
        "no volume table of contents",
        "the label leads to none: dasd check --contents says more",
    ),
    (
        "the volume has findings",
        "dasd vtoc prints them, and this command changes no volume that has any",
    ),
    (
        "the directory is not whole",
        "dasd check --contents says what is wrong with it",
    ),
    (
        "a data set has this name",
        "it stays: rename or delete it first, or load under another name",
    ),
    (
        "has the new name",
        "it stays: rename or delete it first, or take another name",
    ),
    (
        "no run of free tracks is long enough",
        "a data set that is loaded takes free tracks in one run: dasd vtoc says how many are free",
    ),
    (
        "no free control block in the volume table of contents",
        "each data set has a control block there: delete one, or format a volume with a larger --vtoc",
    ),
    (
        "no room for its free tracks",
        "the table of contents has too few free control blocks for the runs of its free tracks",
    ),
    (
        "the volume would not be whole with the data set",
        "nothing was saved: dasd check --contents says what is on the volume",
    ),
    (
        "no record format",
        "the label does not say how records are cut: give --record-format, or take the blocks by --raw",
    ),
    (
        "no record length",
        "records of format FB have one length: give --record-length",
    ),
    (
        "record length and block length contradict each other",
        "a block of FB is a multiple of its records, one of F is one record, and one of V or VB has 4 bytes more than a record",
    ),
    (
        "the file ends within a record",
        "its bytes are no multiple of the record length: lines of text are loaded by --text",
    ),
    (
        "has a character that is no text of EBCDIC",
        "a line has printing characters of code page 037, in UTF-8: other bytes are loaded without --text",
    ),
];
