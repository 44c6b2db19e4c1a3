//! The law of merging. It speaks of definitions alone, so that no change of a body proves it again.

ghost use Rattle.run_merge.specs.Merging.{InAnyOrder};

/// Counts that were merged in any order, over any machines, are the same.
///
/// It does nothing: a caller gets its clause.
pub fn any_order()
    ensures { InAnyOrder }
{}
