//! Laws of rows. They speak of definitions alone, so that no change of a body proves them again.

ghost use Rattle.word_rules.specs.Laws.{BeginRowsReadBack, PassRowsReadBack};

/// What is read of a row as it stands in a table is the row.
///
/// It does nothing: a caller gets its clauses.
pub fn spelling()
    ensures begin { BeginRowsReadBack }
    ensures pass { PassRowsReadBack }
{}
