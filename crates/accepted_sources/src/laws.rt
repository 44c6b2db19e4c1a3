//! The law of accepted texts. It speaks of definitions alone, so that no change of a body proves it
//! again.

ghost use Rattle.accepted_sources.specs.Laws.{AcceptedAreCSources, CSourcesAreNotRefused, SyntaxIsNoSource};

/// A text is accepted exactly where it is a C source within the limits, and then it is refused only
/// for want of memory; where its tokens are refused as bad syntax, they are no source by the
/// grammar of C17.
///
/// It does nothing: a caller gets its clauses.
pub fn c_sources_are_accepted()
    ensures accepted { AcceptedAreCSources }
    ensures refused { CSourcesAreNotRefused }
    ensures syntax { SyntaxIsNoSource }
{}
