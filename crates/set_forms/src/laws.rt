//! The law of the text: what is written of forms is read as these. The function here does nothing: what it ensures follows from the
//! definitions.

ghost use Rattle.set_forms.specs.Laws.{AreReadBack};

/// The text of any forms that a volume can have is parsed to these forms.
#[tactic(auto, using(crate::proofs::ReadBack::are_read_back))]
pub fn are_read_back()
    ensures { AreReadBack }
{}
