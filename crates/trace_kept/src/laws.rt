//! What is kept of a trace comes back as it was. The function here does nothing: what it ensures are laws of the definitions in `specs/`.

ghost use Rattle.trace_kept.specs.Laws.{NoNumberComesBack, NumberComesBack, WordComesBack, AreaComesBack, CreditComesBack};
ghost use Rattle.trace_kept.specs.Laws.{LineComesBack, BytesComeBack};

/// Numbers, words, areas, credits, lines and bytes of a trace come back as they were kept.
pub fn what_is_kept_comes_back()
    ensures none { NoNumberComesBack }
    ensures number { NumberComesBack }
    ensures word { WordComesBack }
    ensures area { AreaComesBack }
    ensures credit { CreditComesBack }
    ensures line { LineComesBack }
    ensures bytes { BytesComeBack }
{}
