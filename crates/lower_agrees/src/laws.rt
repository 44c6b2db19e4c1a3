//! Laws of lowering. They speak of definitions alone, so that no change of a body proves them
//! again.

ghost use Rattle.lower_agrees.specs.Agreement.{EachSourceAgrees, EachBlockEndsWell, EachBlockHasLines, EachRunIsShort};

/// The run of a source's graphs has the output and the ending of the source's meaning. The endings
/// of their blocks lead to blocks, upward but for arcs back, and the lines of their blocks ascend;
/// so a run is over within a number of blocks.
///
/// It does nothing: a caller gets its clauses.
pub fn agreement()
    ensures agrees { EachSourceAgrees }
    ensures targets { EachBlockEndsWell }
    ensures lines { EachBlockHasLines }
    ensures short { EachRunIsShort }
{}
