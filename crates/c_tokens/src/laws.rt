//! Laws of the tokens of texts, each as the contract of a function that does nothing.

ghost use Rattle.c_tokens.specs.Names.{NamesOfLetters};

/// The bytes of a token that is a name are letters, digits and `_`, and the first is no digit.
pub fn names_of_letters()
    ensures { NamesOfLetters }
{}
