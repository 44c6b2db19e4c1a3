//! The spanning tree of a net.

ghost use Rattle.std.specs.Prelude.{◌≡◌, ◌<◌, length, IfOk};
ghost use Rattle.std.specs.List.{All};
ghost use Rattle.span_tree.specs.Tree.{arrivals, order_of, link_of, is_linked};
ghost use Rattle.span_tree.specs.Spanning.{Spans};
ghost use Rattle.span_tree.specs.Tables.{AreLinks, AreOn, LinkWithin, with_on};

use crate::arrival::Arrival;
use crate::arriving::arrive;
use cov_base::{Net, NoMemory};
use std::alloc::{AllocError, Global};
use std::marker::Model;

/// The spanning tree of a net: its blocks in order of arrival, and the arcs by which they came.
#[derive(Drop)]
pub struct SpanTree {
    came: Vec<Arrival>,
    order: Vec<u32>,
    links: Vec<Option<u32>>,
    on: Vec<bool>,
}

impl Model for SpanTree {
    ghost use Rattle.std.specs.Prelude.{List};
    ghost use Rattle.span_tree.specs.declared.arrival.Arrival.{Arrival as ArrivalSeen};
    ghost use Rattle.span_tree.specs.Tables.{AreTables};

    ghost Value = { List ArrivalSeen };

    ghost view = { λ t. t.came.items };

    ghost invariant = { λ t. AreTables t.came.items t.order.items t.links.items t.on.items };
}

/// The spanning tree of the net, by breadth-first search from the exit: blocks are taken in order
/// of arrival, and of a block taken the arcs in order, the unwritten arc from the exit to the entry
/// first.
pub fn tree_of(alloc: Global, net: &Net) -> Result<SpanTree, NoMemory>
    ensures tree { IfOk result (λ t. t ≡ arrivals net.now) }
    ensures spans { IfOk result (λ t. Spans net.now t) }
{
    let blocks = net.blocks();
    let arcs = net.arcs().len();
    let came = arrive(alloc, net)?;
    let order = order_from(alloc, &came)?;
    let links = links_from(alloc, blocks, &came)?;
    let on = on_from(alloc, arcs, &came)?;
    Ok(SpanTree {
        came,
        order,
        links,
        on,
    })
}

fn order_from(alloc: Global, came: &[Arrival]) -> Result<Vec<u32>, AllocError>
    ensures { IfOk result (λ v. v.items ≡ order_of came.now) }
{
    let mut order = Vec::new(alloc);
    for arrival in came {
        order.push(arrival.block)?;
    }
    Ok(order)
}

fn links_from(alloc: Global, blocks: u32, came: &[Arrival]) -> Result<Vec<Option<u32>>, AllocError>
    requires { All (λ a. a.block < blocks) came.now }
    ensures { IfOk result (λ v. AreLinks came.now v.items) }
{
    let mut links = vec![in alloc; None; blocks as usize]?;
    let mut left = came.len();
    while left > 0 {
        left -= 1;
        let arrival = came[left];
        links[arrival.block as usize] = arrival.link;
    }
    Ok(links)
}

fn on_from(alloc: Global, arcs: usize, came: &[Arrival]) -> Result<Vec<bool>, AllocError>
    requires { All (λ a. LinkWithin arcs a.link) came.now }
    ensures { IfOk result (λ v. AreOn came.now v.items) }
{
    let mut on = vec![in alloc; false; arcs]?;
    let mut left = came.len();
    while left > 0 {
        left -= 1;
        put_on(&mut on, came[left].link);
    }
    Ok(on)
}

fn put_on(on: &mut [bool], link: Option<u32>)
    requires { LinkWithin (length on.old) link }
    ensures { on.new ≡ with_on link on.old }
{
    if let Some(arc) = link {
        on[arc as usize] = true;
    }
}

impl SpanTree {
    /// Whether the arc is on the tree.
    pub fn on_tree(&self, arc: u32) -> bool
        ensures { result ≡ is_linked self.now arc }
    {
        match self.on.get(arc as usize) {
            Some(on) => *on,
            None => false,
        }
    }

    /// The blocks in order of arrival.
    pub fn order(&self) -> &[u32]
        ensures { result.now ≡ order_of self.now }
    {
        &self.order
    }

    /// The arc by which the block came.
    pub fn link(&self, block: u32) -> Option<u32>
        ensures { result ≡ link_of self.now block }
    {
        match self.links.get(block as usize) {
            Some(link) => *link,
            None => None,
        }
    }
}
