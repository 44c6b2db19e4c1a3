//! Loops.

ghost use Rattle.std.specs.Prelude.{◌≡◌, ◌+◌, ◌∷◌, Some, None, OnOk, option_map};
ghost use Rattle.c_tree.specs.TypedStmt.{TypedStmt as Form};
ghost use Rattle.c_tree.specs.TypedView.{typed_expr_view, typed_stmt_view, other_typed_of};
ghost use Rattle.c_lower.specs.Items.{Close as Ending, Item, ways, nodes, stmt_nodes, code, code_other, other_nodes, nodes_if, tested, stepped, continues_to};
ghost use Rattle.c_lower.specs.Items.{test_of, again_of, end_of, body_of, head_of, step_of};
ghost use Rattle.c_lower.specs.Building.{Puts};
ghost use Rattle.c_lower.specs.ExitView.{exit_view};
ghost use Rattle.c_lower.specs.PartViews.{head_view};

use crate::blocks::Blocks;
use crate::conditions::enter;
use crate::exits::{Exit, Exits};
use crate::labels;
use crate::labels::take_node;
use crate::named::{Close, Label};
use crate::statements::statement;
use crate::values::effect;
use c_tree::{Boxed, TypedExpr, TypedForHead, TypedStmt};
use std::alloc::AllocError;

/// A loop goes back, and what follows it begins.
fn turn_back(out: &mut Blocks, to: Label, end: Label) -> Result<(), AllocError>
    ensures { OnOk result (Puts out.old out.new
        (λ rest. Item.End (Ending.Back to) None ∷ Item.Begin end None ∷ rest)) }
{
    out.end(Close::Back(to), None)?;
    out.begin(end, None)
}

/// A `while`.
#[cycle(statement)]
pub fn while_loop(
    out: &mut Blocks,
    next: &mut u32,
    e: &TypedExpr,
    body: &TypedStmt,
) -> Result<(), AllocError>
    ensures code { OnOk result (Puts out.old out.new
        (λ rest. code (Form.While (typed_expr_view e.now) (typed_stmt_view body.now)) next.old
        Ending.Leave Ending.Leave rest)) }
    ensures next { OnOk result (next.new ≡ next.old + stmt_nodes
        (Form.While (typed_expr_view e.now) (typed_stmt_view body.now))) }
{
    let node = take_node(next)?;
    let inside = Exits {
        breaks: Exit::Jump(labels::end(node)),
        continues: Exit::Back(labels::head(node)),
    };
    out.begin(labels::head(node), None)?;
    enter(out, next, e, labels::body_or_end(node), None)?;
    statement(out, next, body, &inside)?;
    turn_back(out, labels::head(node), labels::end(node))
}

/// The test of a `do`, and its way back.
fn test_again(
    out: &mut Blocks,
    next: &mut u32,
    node: u32,
    e: &TypedExpr,
    line: u32,
) -> Result<(), AllocError>
    ensures code { OnOk result (Puts out.old out.new (λ rest. Item.Begin (test_of node) None ∷
        (ways (typed_expr_view e.now) next.old).test (again_of node) (end_of node)
        (Item.Begin (again_of node) (Some line) ∷ rest))) }
    ensures next { OnOk result (next.new ≡ next.old + nodes (typed_expr_view e.now)) }
{
    out.begin(labels::tail_test(node), None)?;
    enter(out, next, e, labels::again_or_end(node), Some(line))
}

/// A `do`, with the line of its `while`.
#[cycle(statement)]
pub fn do_loop(
    out: &mut Blocks,
    next: &mut u32,
    body: &TypedStmt,
    e: &TypedExpr,
    line: u32,
) -> Result<(), AllocError>
    ensures code { OnOk result (Puts out.old out.new
        (λ rest. code (Form.DoWhile (typed_stmt_view body.now) (typed_expr_view e.now) line)
        next.old Ending.Leave Ending.Leave rest)) }
    ensures next { OnOk result (next.new ≡ next.old + stmt_nodes
        (Form.DoWhile (typed_stmt_view body.now) (typed_expr_view e.now) line)) }
{
    let node = take_node(next)?;
    let inside = Exits {
        breaks: Exit::Jump(labels::end(node)),
        continues: Exit::Jump(labels::tail_test(node)),
    };
    out.begin(labels::body(node), None)?;
    statement(out, next, body, &inside)?;
    test_again(out, next, node, e, line)?;
    turn_back(out, labels::body(node), labels::end(node))
}

/// The test of a `for`, where it has one.
fn test_if(
    out: &mut Blocks,
    next: &mut u32,
    node: u32,
    e: &Option<Boxed<TypedExpr>>,
) -> Result<(), AllocError>
    ensures code { OnOk result (Puts out.old out.new
        (λ rest. tested (option_map typed_expr_view e.now) next.old (body_of node) (end_of node)
        rest)) }
    ensures next { OnOk result
        (next.new ≡ next.old + nodes_if (option_map typed_expr_view e.now)) }
{
    match e {
        Some(e) => enter(out, next, e.get(), labels::body_or_end(node), None),
        None => Ok(()),
    }
}

/// The step of a `for`, where it has one.
fn step_if(
    out: &mut Blocks,
    next: &mut u32,
    node: u32,
    e: &Option<Boxed<TypedExpr>>,
) -> Result<(), AllocError>
    ensures code { OnOk result (Puts out.old out.new
        (λ rest. stepped (option_map typed_expr_view e.now) next.old (step_of node) rest)) }
    ensures next { OnOk result
        (next.new ≡ next.old + nodes_if (option_map typed_expr_view e.now)) }
{
    match e {
        Some(e) => {
            out.begin(labels::step(node), None)?;
            effect(out, next, e.get())
        }
        None => Ok(()),
    }
}

/// Where `continue` goes in a `for`: to the step, or back to the head where there is none.
fn continue_to(node: u32, step: &Option<Boxed<TypedExpr>>) -> Exit
    ensures { exit_view result ≡ continues_to (option_map typed_expr_view step.now)
        (step_of node) (head_of node) }
{
    match step {
        Some(_) => Exit::Jump(labels::step(node)),
        None => Exit::Back(labels::head(node)),
    }
}

/// The first part of a `for`, where it has one.
#[cycle(statement)]
fn first_if(
    out: &mut Blocks,
    next: &mut u32,
    first: &Option<TypedStmt>,
    exits: &Exits,
) -> Result<(), AllocError>
    ensures code { OnOk result (Puts out.old out.new
        (λ rest. code_other (other_typed_of (option_map typed_stmt_view first.now)) next.old
        (exit_view exits.now.breaks) (exit_view exits.now.continues) rest)) }
    ensures next { OnOk result (next.new ≡ next.old
        + other_nodes (other_typed_of (option_map typed_stmt_view first.now))) }
{
    match first {
        Some(first) => statement(out, next, first, exits),
        None => Ok(()),
    }
}

/// A `for` from its test on.
#[cycle(statement)]
fn round(
    out: &mut Blocks,
    next: &mut u32,
    node: u32,
    e: &Option<Boxed<TypedExpr>>,
    step: &Option<Boxed<TypedExpr>>,
    body: &TypedStmt,
) -> Result<(), AllocError>
    ensures code { OnOk result (Puts out.old out.new
        (λ rest. tested (option_map typed_expr_view e.now) next.old (body_of node) (end_of node)
        (code (typed_stmt_view body.now)
        (next.old + nodes_if (option_map typed_expr_view e.now)) (Ending.Jump (end_of node))
        (continues_to (option_map typed_expr_view step.now) (step_of node) (head_of node))
        (stepped (option_map typed_expr_view step.now)
        (next.old + nodes_if (option_map typed_expr_view e.now)
        + stmt_nodes (typed_stmt_view body.now)) (step_of node) rest)))) }
    ensures next { OnOk result (next.new ≡ next.old
        + (nodes_if (option_map typed_expr_view e.now) + stmt_nodes (typed_stmt_view body.now)
        + nodes_if (option_map typed_expr_view step.now))) }
{
    let inside = Exits {
        breaks: Exit::Jump(labels::end(node)),
        continues: continue_to(node, step),
    };
    test_if(out, next, node, e)?;
    statement(out, next, body, &inside)?;
    step_if(out, next, node, step)
}

/// A `for`.
#[cycle(statement)]
pub fn for_loop(
    out: &mut Blocks,
    next: &mut u32,
    head: &TypedForHead,
    body: &TypedStmt,
    exits: &Exits,
) -> Result<(), AllocError>
    ensures code { OnOk result (Puts out.old out.new
        (λ rest. code (Form.For (head_view head.now) (typed_stmt_view body.now)) next.old
        (exit_view exits.now.breaks) (exit_view exits.now.continues) rest)) }
    ensures next { OnOk result (next.new ≡ next.old + stmt_nodes
        (Form.For (head_view head.now) (typed_stmt_view body.now))) }
{
    let node = take_node(next)?;
    first_if(out, next, &head.first, exits)?;
    out.begin(labels::head(node), None)?;
    round(out, next, node, &head.test, &head.step, body)?;
    turn_back(out, labels::head(node), labels::end(node))
}
