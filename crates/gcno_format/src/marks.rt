//! Arcs with their flags.

ghost use Rattle.std.specs.Prelude.{◌≡◌, ◌<◌, ◌≤◌, ◌^◌, not, length, IfOk};
ghost use Rattle.cov_base.specs.Falls.{is_real};
ghost use Rattle.gcno_format.specs.Marks as spec;

use cov_base::{ArcKind, FlowArc, Net, NoMemory, falls};
use span_tree::{SpanTree, tree_of};
use std::alloc::Global;

/// An arc of a net as notes tell it.
#[derive(Clone, Copy, Debug, PartialEq, Eq)]
pub struct Marked {
    /// The block that is left.
    pub from: u32,
    /// The block that is entered.
    pub to: u32,
    /// 1 where the arc is on the spanning tree, 2 where it is a call-exit arc, 4 where control
    /// falls along it.
    pub flags: u32,
}

/// The arcs of the net with their flags.
pub fn marks_of(alloc: Global, net: &Net) -> Result<Vec<Marked>, NoMemory>
    ensures { IfOk result (λ v. v.items ≡ spec.marked net.now) }
{
    let tree = tree_of(alloc, net)?;
    marked_on(alloc, &tree, net.arcs())
}

fn marked_on(alloc: Global, tree: &SpanTree, arcs: &[FlowArc]) -> Result<Vec<Marked>, NoMemory>
    requires { length arcs.now < 2 ^ 32 }
    ensures { IfOk result (λ v. v.items ≡ spec.marked_from tree.now 0 arcs.now) }
{
    let mut marks = Vec::new(alloc);
    for (index, arc) in arcs.iter().enumerate() {
        marks.push(mark_of(tree.on_tree(index as u32), arc))?;
    }
    Ok(marks)
}

fn mark_of(on: bool, arc: &FlowArc) -> Marked
    ensures { result ≡ spec.mark_of on arc.now }
{
    Marked {
        from: arc.from,
        to: arc.to,
        flags: flag(on, 1) + flag(is_call_exit(arc), 2) + flag(falls(arc), 4),
    }
}

fn flag(set: bool, value: u32) -> u32
    ensures value { result ≡ spec.flag set value }
    ensures most { result ≤ value }
{
    if set { value } else { 0 }
}

fn is_call_exit(arc: &FlowArc) -> bool
    ensures { result ≡ not (is_real arc.now.kind) }
{
    match arc.kind {
        ArcKind::Real => false,
        ArcKind::CallExit => true,
    }
}
