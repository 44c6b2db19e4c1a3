//! Laws of lowering and pruning together. They speak of definitions alone, so that no change of a
//! body proves them again.

ghost use Rattle.prune_agrees.specs.Joined.{EachSourceAgrees, EachGraphIsWellMade};

/// The run of a source's pruned graphs has the output and the ending of the source's meaning, and
/// each graph is one whose pruned graph has a net.
///
/// It does nothing: a caller gets its clauses.
pub fn agreement()
    ensures agrees { EachSourceAgrees }
    ensures made { EachGraphIsWellMade }
{}
