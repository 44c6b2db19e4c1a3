//! Laws of the pruned graphs of sound sources. They speak of definitions alone, so that no change
//! of a body proves them again.

ghost use Rattle.orderly_units.specs.Laws.{EachGraphGoesWell, EachSourceIsOrderly, EachSourceIsWithin};

/// In the graphs of a sound source an arc goes to a later block, or back to its own or an earlier
/// one, and each block but the first that the first reaches is entered from an earlier one. So the
/// pruned graphs are an orderly unit, whose code passes the checks; and where lowering and pruning
/// refuse nothing, they are within the limits of a code.
///
/// It does nothing: a caller gets its clauses.
pub fn orderly()
    ensures lowered { EachGraphGoesWell }
    ensures pruned { EachSourceIsOrderly }
    ensures limits { EachSourceIsWithin }
{}
