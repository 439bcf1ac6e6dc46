//! What holds of the words of commands and of the words of channel programs.

ghost use Rattle.s360_explain.specs.Laws.{EachCodeHasItsWord, EachWordIsItsCodes};

/// Each code that has a word is the code of that word, and of its long name; and a word that has a code is its word or its long name.
pub fn words_and_codes_are_inverse()
    ensures codes { EachCodeHasItsWord }
    ensures words { EachWordIsItsCodes }
{}
