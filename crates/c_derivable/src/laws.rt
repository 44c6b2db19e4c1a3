//! The law of the two grammars. It speaks of definitions alone, so that no change of a body proves
//! it again.

ghost use Rattle.c_derivable.specs.Laws.{DerivesExactlySources, EachSourceHasOneTree};

/// Tokens derive a tree by the rules that look ahead exactly where they are a source with it by the
/// grammar of C17 and `(void)` is none of its parameters; and at most one tree is such.
///
/// It does nothing: a caller gets its clauses.
pub fn derives_exactly_sources()
    ensures exactly { DerivesExactlySources }
    ensures one { EachSourceHasOneTree }
{}
