//! Laws of saved states. A function here does nothing: what it ensures follows from the definitions.

ghost use Rattle.saved_state.specs.Laws.{WhatIsWrittenIsRead};

/// Whatever was saved of the seven channels is read off its bytes. So no two states have the same bytes.
pub fn what_is_written_is_read()
    ensures { WhatIsWrittenIsRead }
{}
