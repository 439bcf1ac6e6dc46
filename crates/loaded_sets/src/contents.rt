//! What a file has for a data set: its blocks, and how they are told apart.

ghost use Rattle.std.specs.Prelude.{◌≡◌, IfOk, IfErr, Ok};
ghost use Rattle.record_tracks.specs.BlockFaults.{IsCutFor};
ghost use Rattle.loaded_sets.specs.Contents.{layout_of_set, length_said, new_label, label_of, text_size, text_bytes, IsNoText};

use crate::SetLabel;
use crate::fault::{ContentFault, Unmade};
use new_labels::{KeptFields, new_fields};
use record_tracks::{TextRecordsFault, text_records};
use std::alloc::Global;
use volume_labels::{AttributeFault, Date, Layout, RecordAttributes, RecordForm, layout_given};

/// A label that says nothing of its records.
const SILENT: RecordAttributes = RecordAttributes {
    format: 0,
    record_length: 0,
    block_length: 0,
};

/// What the bytes of a file are.
#[derive(Clone, Copy, PartialEq, Eq)]
pub enum SourceForm {
    /// The blocks of a data set as they stand, one behind another.
    Blocks,
    /// Each block behind its lengths and its key: a byte 1, the length of the key in a byte, that of the data in two, the key, and the data.
    WithLengths,
    /// Lines of text, each of which is a record.
    Text,
}

/// What is asked of a new data set, beside its name and its file.
#[derive(Clone, Copy)]
pub struct NewSetForm {
    /// Its organisation, as bits.
    pub organisation: u16,
    /// The format of its records, and the lengths of these and of blocks.
    pub attributes: RecordAttributes,
    /// The length of its keys, in bytes.
    pub key_length: u8,
    /// When it was made.
    pub created: Date,
    /// When it may be scratched.
    pub expires: Date,
}

/// What a data set that was on a volume before keeps beside that: its room, and what else its label said.
#[derive(Clone, Copy)]
pub struct KeptLabel {
    /// How many tracks it gets at least; it gets more where its records take more.
    pub tracks: u64,
    /// What its label says beside its name, its days, its form and its place.
    pub fields: KeptFields,
}

/// What a data set has of these that was on none: the tracks that its records take, and the fields of a new label.
pub fn new_label() -> KeptLabel
    ensures { result ≡ new_label }
{
    KeptLabel {
        tracks: 0,
        fields: new_fields(),
    }
}

/// A data set that is put onto a volume.
#[derive(Clone, Copy)]
pub struct LoadedSet<'a> {
    /// Its name, in EBCDIC, with blanks behind it.
    pub name: [u8; 44],
    /// What its label is to say.
    pub form: NewSetForm,
    /// What it keeps.
    pub kept: KeptLabel,
    /// What its bytes are.
    pub source: SourceForm,
    /// The bytes of its file.
    pub bytes: &'a [u8],
}

/// How the records of a data set lie in its blocks, by the format and the lengths that are given.
///
/// # Errors
///
/// The first fault of the format and the lengths, as `layout_given` of `volume_labels` tells it.
pub fn layout_of_set(form: &NewSetForm) -> Result<Layout, AttributeFault>
    ensures { result ≡ layout_of_set form.now }
{
    layout_given(SILENT, form.attributes)
}

// The length of records that a label says.
fn length_said(layout: Layout, given: u16) -> u16
    ensures { result ≡ length_said layout.form given }
{
    match layout.form {
        RecordForm::Fixed(size) => size,
        RecordForm::Variable | RecordForm::Spanned => given,
        RecordForm::Undefined => 0,
    }
}

/// What the label of a data set of this layout says.
pub fn label_of(form: &NewSetForm, kept: KeptLabel, layout: Layout) -> SetLabel
    ensures { result ≡ label_of form.now kept layout }
{
    SetLabel {
        organisation: form.organisation,
        format: form.attributes.format,
        block_length: layout.longest,
        record_length: length_said(layout, form.attributes.record_length),
        key_length: form.key_length,
        created: form.created,
        expires: form.expires,
        tracks: kept.tracks,
        kept: kept.fields,
    }
}

// How long the record of a line of text is.
fn text_size(layout: Layout) -> Option<u16>
    ensures { result ≡ text_size layout }
{
    match layout.form {
        RecordForm::Fixed(size) if size > 0 => Some(size),
        _ => None,
    }
}

/// The records of a text, one behind another.
///
/// # Errors
///
/// The layout is not of records of one length, or a line is no record; or there is no memory.
pub fn text_bytes(alloc: Global, layout: Layout, text: &[u8]) -> Result<Vec<u8>, Unmade>
    ensures bytes { IfOk result (λ made. text_bytes layout text.now ≡ Ok made.items) }
    ensures fault { IfErr result (λ e. IsNoText e layout text.now) }
{
    let Some(size) = text_size(layout) else {
        return Err(Unmade::Content(ContentFault::NotText));
    };
    match text_records(alloc, text, size) {
        Ok(made) => Ok(made),
        Err(TextRecordsFault::Line(number, fault)) => Err(Unmade::Content(ContentFault::Line(
            number, fault,
        ))),
        Err(TextRecordsFault::OutOfMemory) => Err(Unmade::OutOfMemory),
    }
}
