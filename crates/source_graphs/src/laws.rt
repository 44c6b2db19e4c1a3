//! Laws of texts. They speak of definitions alone, so that no change of a body proves them again.

ghost use Rattle.source_graphs.specs.Accepted.{AcceptedIsNotRefused};

/// No fault stands in a text that is accepted, so `graphs_of` refuses it only for want of memory.
///
/// It does nothing: a caller gets its clause.
#[tactic(auto, using(crate::proofs::Acceptance::refused_for_memory))]
pub fn accepting()
    ensures { AcceptedIsNotRefused }
{}
