//! Laws of the code of a unit. They speak of definitions alone, so that no change of a body proves
//! them again.

ghost use Rattle.stack_code.specs.Laws.{EmittedCodeFollows, EachGraphIsLaidOut};
ghost use Rattle.stack_code.specs.Laws.{LaidCodeIsEmitted, LaidCodePasses};
ghost use Rattle.stack_code.specs.Laws.{LaidCodeIsShort, ModesOnlyMark, MarksAreThere};
ghost use Rattle.stack_code.specs.Laws.{CountedDepthIsEnough, LaidCodeIsSound};
ghost use Rattle.stack_code.specs.Laws.{PlainCodePasses, CoveredCodePasses};

/// The code of a unit has the output and the ending of the unit's run at every turn limit, and in a
/// closed run each call marks what stands on the arcs of its walk. The layout lays every graph out,
/// so its code is one of the unit; its instructions break no rule, and are no more than the unit's
/// size. In both modes only marks stand on arcs, and they name counters and rows that are there.
/// The depth that is counted by going through a graph's blocks in order is enough for its code,
/// so that the code of an orderly unit is sound; and where the unit is within the limits of codes
/// its code passes all checks.
///
/// It does nothing: a caller gets its clauses.
pub fn emission()
    ensures follows { EmittedCodeFollows }
    ensures laid { EachGraphIsLaidOut }
    ensures emits { LaidCodeIsEmitted }
    ensures passes { LaidCodePasses }
    ensures short { LaidCodeIsShort }
    ensures modes { ModesOnlyMark }
    ensures there { MarksAreThere }
    ensures depth { CountedDepthIsEnough }
    ensures sound { LaidCodeIsSound }
    ensures plain { PlainCodePasses }
    ensures covered { CoveredCodePasses }
{}
