//! Laws of lowering, each as the contract of a function that does nothing.

ghost use Rattle.c_lower.specs.Laws.{FoundByNumber};

/// In the graph of a function the block with the number of a name is the block of that name.
pub fn found_by_number()
    ensures { FoundByNumber }
{}
