//! The names of blocks: the node of the tree that a block belongs to, and which of its blocks it
//! is.

ghost use Rattle.std.specs.Prelude.{◌≡◌, suc, IfOk, OnOk};
ghost use Rattle.c_lower.specs.Items as items;

use crate::named::Label;
use std::alloc::AllocError;

/// A node, and the line of its operator.
#[derive(Clone, Copy, Debug)]
pub struct Site {
    pub node: u32,
    pub line: u32,
}

impl Site {
    /// This node and line.
    pub fn new(node: u32, line: u32) -> Site
        ensures { result ≡ record { node = node; line = line } }
    {
        Site { node, line }
    }
}

/// Where a condition goes: to the first block where it isn't 0, and else to the second.
#[derive(Clone, Copy, Debug)]
pub struct Targets {
    pub one: Label,
    pub other: Label,
}

impl Targets {
    /// The targets of `!`.
    pub fn turned(self) -> Targets
        ensures { result ≡ record { one = self.other; other = self.one } }
    {
        Targets {
            one: self.other,
            other: self.one,
        }
    }
}

/// The number of the node that begins here. No tree of a text has 2^32 nodes.
pub fn take_node(next: &mut u32) -> Result<u32, AllocError>
    ensures number { IfOk result (λ m. m ≡ next.old) }
    ensures next { OnOk result (next.new ≡ suc next.old) }
{
    let node = *next;
    if node == u32::MAX {
        return Err(AllocError);
    }
    *next = node + 1;
    Ok(node)
}

/// The block of the part that a condition guards.
pub fn body(node: u32) -> Label
    ensures { result ≡ items.body_of node }
{
    Label { node, part: 0 }
}

/// The block behind `else`.
pub fn otherwise(node: u32) -> Label
    ensures { result ≡ items.else_of node }
{
    Label { node, part: 1 }
}

/// The test of a `do`.
pub fn tail_test(node: u32) -> Label
    ensures { result ≡ items.test_of node }
{
    Label { node, part: 2 }
}

/// The block where a condition is 0.
pub fn when_false(node: u32) -> Label
    ensures { result ≡ items.false_of node }
{
    Label { node, part: 3 }
}

/// The way back of a `do`.
pub fn again(node: u32) -> Label
    ensures { result ≡ items.again_of node }
{
    Label { node, part: 4 }
}

/// The head of a loop.
pub fn head(node: u32) -> Label
    ensures { result ≡ items.head_of node }
{
    Label { node, part: 5 }
}

/// Where two ways come together.
pub fn join(node: u32) -> Label
    ensures { result ≡ items.join_of node }
{
    Label { node, part: 6 }
}

/// A group of labels of a `switch`, by its first label.
pub fn group(node: u32) -> Label
    ensures { result ≡ items.label_of node }
{
    Label { node, part: 7 }
}

/// The right side of `&&` or `||`.
pub fn right_side(node: u32) -> Label
    ensures { result ≡ items.right_of node }
{
    Label { node, part: 8 }
}

/// The block behind a call.
pub fn behind_call(node: u32) -> Label
    ensures { result ≡ items.next_of node }
{
    Label { node, part: 9 }
}

/// The block where a condition isn't 0.
pub fn when_true(node: u32) -> Label
    ensures { result ≡ items.true_of node }
{
    Label { node, part: 10 }
}

/// The step of a `for`.
pub fn step(node: u32) -> Label
    ensures { result ≡ items.step_of node }
{
    Label { node, part: 11 }
}

/// The second operand of `?:`.
pub fn second(node: u32) -> Label
    ensures { result ≡ items.second_of node }
{
    Label { node, part: 12 }
}

/// The third operand of `?:`.
pub fn third(node: u32) -> Label
    ensures { result ≡ items.third_of node }
{
    Label { node, part: 13 }
}

/// The end of a statement.
pub fn end(node: u32) -> Label
    ensures { result ≡ items.end_of node }
{
    Label { node, part: 14 }
}

/// Where a condition goes that is taken as a value.
pub fn truth(node: u32) -> Targets
    ensures { result ≡ record { one = items.true_of node; other = items.false_of node } }
{
    Targets {
        one: when_true(node),
        other: when_false(node),
    }
}

/// Where the first operand of `?:` goes.
pub fn choices(node: u32) -> Targets
    ensures { result ≡ record { one = items.second_of node; other = items.third_of node } }
{
    Targets {
        one: second(node),
        other: third(node),
    }
}

/// Where the left side of `&&` goes.
pub fn if_both(node: u32, to: Targets) -> Targets
    ensures { result ≡ record { one = items.right_of node; other = to.other } }
{
    Targets {
        one: right_side(node),
        other: to.other,
    }
}

/// Where the left side of `||` goes.
pub fn if_either(node: u32, to: Targets) -> Targets
    ensures { result ≡ record { one = to.one; other = items.right_of node } }
{
    Targets {
        one: to.one,
        other: right_side(node),
    }
}

/// Where the condition of an `if` without `else`, or of a loop, goes.
pub fn body_or_end(node: u32) -> Targets
    ensures { result ≡ record { one = items.body_of node; other = items.end_of node } }
{
    Targets {
        one: body(node),
        other: end(node),
    }
}

/// Where the condition of an `if` with `else` goes.
pub fn body_or_else(node: u32) -> Targets
    ensures { result ≡ record { one = items.body_of node; other = items.else_of node } }
{
    Targets {
        one: body(node),
        other: otherwise(node),
    }
}

/// Where the test of a `do` goes.
pub fn again_or_end(node: u32) -> Targets
    ensures { result ≡ record { one = items.again_of node; other = items.end_of node } }
{
    Targets {
        one: again(node),
        other: end(node),
    }
}
