//! Laws of the runs of graphs, each as the contract of a function that does nothing.

ghost use Rattle.flow_graph.specs.Laws.{ClosedWalks};

/// In a closed run the walk of each call goes from the entry, by block 2, to the exit.
pub fn closed_walks()
    ensures { ClosedWalks }
{}
