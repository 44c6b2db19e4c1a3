//! The law of line counts. It speaks of definitions alone, so that no change of a body proves it
//! again.

ghost use Rattle.report_parts.specs.Laws.{LinesArePassages};

/// Where the counts of arcs are the numbers of their passages in walks, the count of each line is
/// the number of its passages: of the places in all walks where a block of the line follows a block
/// that isn't of it.
///
/// It does nothing: a caller gets its clause.
pub fn line_counts()
    ensures { LinesArePassages }
{}
