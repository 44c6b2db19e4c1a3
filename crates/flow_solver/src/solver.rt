//! Numbers on the arcs of a net that agree with its counters and balance.

ghost use Rattle.std.specs.Prelude.{◌≡◌, ◌≤◌, ◌<◌, ◌^◌, ℕ, pos, length, unsigned_abs, IfSome};
ghost use Rattle.std.specs.List.{All, position};
ghost use Rattle.cov_base.specs.Net.{IsNet};
ghost use Rattle.span_tree.specs.Tree.{arrivals, off, order_of, link_of};
ghost use Rattle.span_tree.specs.Tables.{LinkWithin};
ghost use Rattle.flow_solver.specs.Circulation.{Circulation, HasOneCirculation};
ghost use Rattle.flow_solver.specs.Circulation.{is_negative, refused};
ghost use Rattle.flow_solver.specs.Solving as spec;

use cov_base::{FlowArc, Net};
use span_tree::SpanTree;

/// The first arc with a negative number: the counters are those of no walks through the net.
#[derive(Clone, Copy, Debug, PartialEq, Eq)]
pub struct NotAFlow(pub u32);

/// Puts on each arc the number that the counters of the arcs off the tree give it: the only numbers
/// that agree with them and balance at each block, where an unwritten arc from the exit to the
/// entry has one too. Where a number is negative, the first such arc is told, and all numbers stand
/// as well. Takes no memory, and time in proportion to the blocks and arcs.
pub fn solve(net: &Net, tree: &SpanTree, given: &[u64], out: &mut [i128]) -> Result<(), NotAFlow>
    requires tree { tree.now ≡ arrivals net.now }
    requires counters { length given.now ≡ length (off net.now) }
    requires counts { All (λ n. n < 2 ^ 63) given.now }
    requires places { length out.old ≡ length net.now.arcs }
    ensures numbers { Circulation net.now given.now out.new }
    ensures refusal { refused result ≡ position is_negative out.new }
    ensures only { HasOneCirculation net.now }
{
    clear(out);
    spread(net, tree, given, out);
    gather(net, tree, out);
    match first_negative(out) {
        Some(arc) => Err(NotAFlow(arc as u32)),
        None => Ok(()),
    }
}

/// The index of the first negative number.
fn first_negative(numbers: &[i128]) -> Option<usize>
    ensures value { result ≡ position is_negative numbers.now }
    ensures within { IfSome result (λ i. i < length numbers.now) }
{
    numbers.iter().position(|number| *number < 0)
}

fn clear(out: &mut [i128])
    ensures { All (λ number. number ≡ pos 0) out.new }
{
    for number in out.iter_mut() {
        *number = 0;
    }
}

/// Each counter's number is on its arc, and the surplus of each block in the place of the arc by
/// which it came.
fn spread(net: &Net, tree: &SpanTree, given: &[u64], out: &mut [i128])
    requires tree { tree.now ≡ arrivals net.now }
    requires counts { All (λ n. n < 2 ^ 63) given.now }
    requires places { length out.old ≡ length net.now.arcs }
    requires clear { All (λ number. number ≡ pos 0) out.old }
    ensures numbers { out.new ≡ spec.spread tree.now 0 net.now.arcs given.now out.old }
    ensures small { All (λ number. unsigned_abs number ≤ 2 ^ 77) out.new }
    ensures net { IsNet net.now }
{
    let arcs = net.arcs();
    let mut left = given;
    for (index, arc) in arcs.iter().enumerate() {
        left = put_first(tree, index as u32, arc, left, out);
    }
}

/// The first of the counters left is that of the arc, if the arc is off the tree; gives those
/// behind it.
fn put_first<'a>(
    tree: &SpanTree,
    index: u32,
    arc: &FlowArc,
    left: &'a [u64],
    out: &mut [i128],
) -> &'a [u64]
    requires links { (b : ℕ) → LinkWithin (length out.old) (link_of tree.now b) }
    requires within { index < length out.old }
    requires counts { All (λ n. n < 2 ^ 63) left.now }
    requires small { All (λ number. unsigned_abs number ≤ 2 ^ 77) out.old }
    ensures numbers { out.new ≡ spec.numbers_with tree.now index arc.now left.now out.old }
    ensures left { result.now ≡ spec.counters_behind tree.now index left.now }
{
    if tree.on_tree(index) {
        return left;
    }
    match left.split_first() {
        Some((number, behind)) => {
            put_along(tree, index, arc, i128::from(*number), out);
            behind
        }
        None => left,
    }
}

/// The number goes along the arc.
fn put_along(tree: &SpanTree, index: u32, arc: &FlowArc, number: i128, out: &mut [i128])
    requires links { (b : ℕ) → LinkWithin (length out.old) (link_of tree.now b) }
    requires within { index < length out.old }
    requires count { unsigned_abs number ≤ 2 ^ 63 }
    requires small { All (λ number. unsigned_abs number ≤ 2 ^ 77) out.old }
    ensures { out.new ≡ spec.put_along tree.now index arc.now number out.old }
{
    out[index as usize] = number;
    add_at(tree, arc.to, number, out);
    add_at(tree, arc.from, -number, out);
}

/// The number is added to the surplus of the block.
fn add_at(tree: &SpanTree, block: u32, number: i128, out: &mut [i128])
    requires link { LinkWithin (length out.old) (link_of tree.now block) }
    requires count { unsigned_abs number ≤ 2 ^ 100 }
    requires small { All (λ number. unsigned_abs number ≤ 2 ^ 100) out.old }
    ensures { out.new ≡ spec.add_at tree.now block number out.old }
{
    if let Some(arc) = tree.link(block) {
        out[arc as usize] += number;
    }
}

/// From the last block that came to the first, the arc by which it came takes up its surplus.
fn gather(net: &Net, tree: &SpanTree, out: &mut [i128])
    requires tree { tree.now ≡ arrivals net.now }
    requires places { length out.old ≡ length net.now.arcs }
    requires small { All (λ number. unsigned_abs number ≤ 2 ^ 77) out.old }
    ensures { out.new ≡ spec.gathered net.now.arcs tree.now (order_of tree.now) out.old }
{
    let arcs = net.arcs();
    let order = tree.order();
    let mut left = order.len();
    while left > 0 {
        left -= 1;
        settle(arcs, tree, order[left], out);
    }
}

/// The arc by which the block came takes up its surplus, which passes to the other end.
fn settle(arcs: &[FlowArc], tree: &SpanTree, block: u32, out: &mut [i128])
    requires links { (b : ℕ) → LinkWithin (length out.old) (link_of tree.now b) }
    requires places { length out.old ≡ length arcs.now }
    requires small { All (λ number. unsigned_abs number ≤ 2 ^ 90) out.old }
    ensures { out.new ≡ spec.settled arcs.now tree.now block out.old }
{
    let Some(index) = tree.link(block) else {
        return;
    };
    let arc = arcs[index as usize];
    let surplus = out[index as usize];
    if arc.to == block {
        out[index as usize] = -surplus;
        add_at(tree, arc.from, surplus, out);
    } else {
        add_at(tree, arc.to, surplus, out);
    }
}
