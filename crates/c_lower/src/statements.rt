//! Statements.

ghost use Rattle.std.specs.Prelude.{◌≡◌, ◌+◌, OnOk, map, option_map};
ghost use Rattle.c_tree.specs.TypedStmt.{TypedStmt as Form, OtherTyped as Other};
ghost use Rattle.c_tree.specs.TypedView.{typed_expr_view, typed_stmt_view, typed_stmts_of, other_typed_of};
ghost use Rattle.c_lower.specs.Items.{code, codes_of, stmt_nodes, stmts_nodes, nodes_if, value_if};
ghost use Rattle.c_lower.specs.Building.{Puts};
ghost use Rattle.c_lower.specs.ExitView.{exit_view};

use crate::blocks::Blocks;
use crate::conditions::enter;
use crate::declarations::declare;
use crate::exits::Exits;
use crate::labels;
use crate::labels::take_node;
use crate::loops::{do_loop, for_loop, while_loop};
use crate::named::Close;
use crate::pieces::else_part;
use crate::switches::switch;
use crate::values::{effect, value};
use c_tree::{Boxed, TypedExpr, TypedStmt};
use std::alloc::AllocError;

/// A statement, with where `break` and `continue` go.
#[cycle(statement)]
pub fn statement(
    out: &mut Blocks,
    next: &mut u32,
    s: &TypedStmt,
    exits: &Exits,
) -> Result<(), AllocError>
    ensures code { OnOk result (Puts out.old out.new (λ rest. code (typed_stmt_view s.now)
        next.old (exit_view exits.now.breaks) (exit_view exits.now.continues) rest)) }
    ensures next { OnOk result (next.new ≡ next.old + stmt_nodes (typed_stmt_view s.now)) }
{
    match s {
        TypedStmt::Vars(vars) => {
            take_node(next)?;
            declare(out, next, vars.as_slice())
        }
        TypedStmt::Block(inner) => {
            take_node(next)?;
            statements(out, next, inner.as_slice(), exits)
        }
        TypedStmt::Empty => {
            take_node(next)?;
            Ok(())
        }
        TypedStmt::Value(e) => {
            take_node(next)?;
            effect(out, next, e.get())
        }
        TypedStmt::If(e, first, other) => {
            if_statement(out, next, e.get(), first.get(), other, exits)
        }
        TypedStmt::While(e, body) => while_loop(out, next, e.get(), body.get()),
        TypedStmt::DoWhile(body, e, line) => do_loop(out, next, body.get(), e.get(), *line),
        TypedStmt::For(head, body) => for_loop(out, next, head.get(), body.get(), exits),
        TypedStmt::Switch(e, items) => {
            switch(out, next, e.get(), items.as_slice(), exits.continues)
        }
        TypedStmt::Break(_, line) => {
            take_node(next)?;
            out.end(exits.breaks.close(), Some(*line))
        }
        TypedStmt::Continue(_, line) => {
            take_node(next)?;
            out.end(exits.continues.close(), Some(*line))
        }
        TypedStmt::Return(e, _, line) => {
            take_node(next)?;
            put_result(out, next, e)?;
            out.end(Close::Leave, Some(*line))
        }
    }
}

/// Statements one after another.
#[cycle(statement)]
pub fn statements(
    out: &mut Blocks,
    next: &mut u32,
    stmts: &[TypedStmt],
    exits: &Exits,
) -> Result<(), AllocError>
    ensures code { OnOk result (Puts out.old out.new
        (λ rest. codes_of (typed_stmts_of (map typed_stmt_view stmts.now)) next.old
        (exit_view exits.now.breaks) (exit_view exits.now.continues) rest)) }
    ensures next { OnOk result
        (next.new ≡ next.old + stmts_nodes (typed_stmts_of (map typed_stmt_view stmts.now))) }
{
    for stmt in stmts {
        statement(out, next, stmt, exits)?;
    }
    Ok(())
}

/// An `if`.
#[cycle(statement)]
fn if_statement(
    out: &mut Blocks,
    next: &mut u32,
    e: &TypedExpr,
    first: &TypedStmt,
    other: &Option<Boxed<TypedStmt>>,
    exits: &Exits,
) -> Result<(), AllocError>
    ensures code { OnOk result (Puts out.old out.new
        (λ rest. code (Form.If (typed_expr_view e.now) (typed_stmt_view first.now)
        (other_typed_of (option_map typed_stmt_view other.now)))
        next.old (exit_view exits.now.breaks) (exit_view exits.now.continues) rest)) }
    ensures next { OnOk result (next.new ≡ next.old + stmt_nodes
        (Form.If (typed_expr_view e.now) (typed_stmt_view first.now)
        (other_typed_of (option_map typed_stmt_view other.now)))) }
{
    match other {
        Some(second) => if_else(out, next, e, first, second.get(), exits),
        None => if_alone(out, next, e, first, exits),
    }
}

/// An `if` without an `else`.
#[cycle(statement)]
fn if_alone(
    out: &mut Blocks,
    next: &mut u32,
    e: &TypedExpr,
    first: &TypedStmt,
    exits: &Exits,
) -> Result<(), AllocError>
    ensures code { OnOk result (Puts out.old out.new
        (λ rest. code (Form.If (typed_expr_view e.now) (typed_stmt_view first.now) Other.Nothing)
        next.old (exit_view exits.now.breaks) (exit_view exits.now.continues) rest)) }
    ensures next { OnOk result (next.new ≡ next.old + stmt_nodes
        (Form.If (typed_expr_view e.now) (typed_stmt_view first.now) Other.Nothing)) }
{
    let node = take_node(next)?;
    enter(out, next, e, labels::body_or_end(node), None)?;
    statement(out, next, first, exits)?;
    out.begin(labels::end(node), None)
}

/// An `if` with an `else`.
#[cycle(statement)]
fn if_else(
    out: &mut Blocks,
    next: &mut u32,
    e: &TypedExpr,
    first: &TypedStmt,
    second: &TypedStmt,
    exits: &Exits,
) -> Result<(), AllocError>
    ensures code { OnOk result (Puts out.old out.new
        (λ rest. code (Form.If (typed_expr_view e.now) (typed_stmt_view first.now)
        (Other.There (typed_stmt_view second.now)))
        next.old (exit_view exits.now.breaks) (exit_view exits.now.continues) rest)) }
    ensures next { OnOk result (next.new ≡ next.old + stmt_nodes
        (Form.If (typed_expr_view e.now) (typed_stmt_view first.now)
        (Other.There (typed_stmt_view second.now)))) }
{
    let node = take_node(next)?;
    enter(out, next, e, labels::body_or_else(node), None)?;
    statement(out, next, first, exits)?;
    else_part(out, node)?;
    statement(out, next, second, exits)?;
    out.begin(labels::end(node), None)
}

/// The value of a `return`, where it has one.
fn put_result(
    out: &mut Blocks,
    next: &mut u32,
    e: &Option<Boxed<TypedExpr>>,
) -> Result<(), AllocError>
    ensures code { OnOk result (Puts out.old out.new
        (λ rest. value_if (option_map typed_expr_view e.now) next.old rest)) }
    ensures next { OnOk result
        (next.new ≡ next.old + nodes_if (option_map typed_expr_view e.now)) }
{
    match e {
        Some(e) => value(out, next, e.get()),
        None => Ok(()),
    }
}
