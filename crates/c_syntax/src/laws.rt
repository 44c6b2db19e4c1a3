//! The law of the grammar. It speaks of definitions alone, so that no change of a body proves it
//! again.

ghost use Rattle.c_syntax.specs.Laws.{DerivedTreesAreSources};

/// The tree that tokens derive is a tree of exactly these tokens by the grammar of C17.
///
/// It does nothing: a caller gets its clause.
pub fn derived_trees()
    ensures { DerivedTreesAreSources }
{}
