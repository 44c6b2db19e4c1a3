//! Laws of operand depths. They speak of definitions alone, so that no change of a body proves them
//! again.

ghost use Rattle.operand_depths.specs.Laws.{EachGraphIsSteady, PruningKeepsDepths, EachPrunedGraphIsSteady};

/// Each block of a sound source's graphs begins with one number of operands, each operation and
/// ending finds those that it takes, at most 16,384 stand at once, and the cells that an operation
/// names are there. It stays so when the graphs are pruned.
///
/// It does nothing: a caller gets its clauses.
pub fn depths()
    ensures lowered { EachGraphIsSteady }
    ensures kept { PruningKeepsDepths }
    ensures pruned { EachPrunedGraphIsSteady }
{}
