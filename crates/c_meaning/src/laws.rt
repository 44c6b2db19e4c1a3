//! Laws of the meaning, each as the contract of a function that does nothing.

ghost use Rattle.c_meaning.specs.Laws.{SpareTurns};

/// A run that isn't out of turns has the same output and ending with more turns.
pub fn spare_turns()
    ensures { SpareTurns }
{}
