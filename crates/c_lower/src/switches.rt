//! Switches.

ghost use Rattle.std.specs.Prelude.{◌≡◌, ◌+◌, ◌∷◌, ◌++◌, Bool, List, suc, Some, None, OnOk, IfOk, map};
ghost use Rattle.c_tree.specs.TypedStmt.{TypedStmt as Form, TypedItems as Row};
ghost use Rattle.c_tree.specs.TypedView.{typed_expr_view, typed_items_of};
ghost use Rattle.c_lower.specs.Items.{Name, Item, Close as Ending, code, code_items, item_nodes, items_nodes, stmt_nodes};
ghost use Rattle.c_lower.specs.Items.{group_at, labelled, cases_of, default_of};
ghost use Rattle.c_lower.specs.Building.{Puts, made};
ghost use Rattle.c_lower.specs.ExitView.{exit_view};
ghost use Rattle.c_lower.specs.PartViews.{item_view};
ghost use Rattle.c_lower.specs.Tables.{default_or};

use crate::blocks::Blocks;
use crate::exits::{Exit, Exits};
use crate::labels;
use crate::labels::take_node;
use crate::named::Label;
use crate::statements::statement;
use crate::tables::Table;
use crate::values::value;
use c_tree::{TypedExpr, TypedSwitchItem};
use std::alloc::AllocError;

/// The block of a label: that of the label before it, where one stands there, or one of its own,
/// which begins.
fn label(out: &mut Blocks, next: &mut u32, group: &mut Option<Label>) -> Result<Label, AllocError>
    ensures code { OnOk result (Puts out.old out.new (λ rest. labelled group.old next.old rest)) }
    ensures next { OnOk result (next.new ≡ suc next.old) }
    ensures group { OnOk result (group.new ≡ Some (group_at group.old next.old)) }
    ensures label { IfOk result (λ l. l ≡ group_at group.old next.old) }
{
    let node = take_node(next)?;
    if let Some(label) = *group {
        return Ok(label);
    }
    let label = labels::group(node);
    out.begin(label, None)?;
    *group = Some(label);
    Ok(label)
}

/// A label or an item of a `switch`, before others, and what it adds to the table.
#[cycle(statement)]
fn switch_item(
    out: &mut Blocks,
    next: &mut u32,
    table: &mut Table,
    group: &mut Option<Label>,
    item: &TypedSwitchItem,
    exits: &Exits,
) -> Result<(), AllocError>
    ensures code { OnOk result ((row : Row) (gives : Bool) (rest : List Item)
        → made gives out.new (code_items row next.new group.new (exit_view exits.now.breaks)
        (exit_view exits.now.continues) rest) ≡ made gives out.old (code_items
        (Row.Further (item_view item.now) row) next.old group.old (exit_view exits.now.breaks)
        (exit_view exits.now.continues) rest)) }
    ensures next { OnOk result (next.new ≡ next.old + item_nodes (item_view item.now)) }
    ensures cases { OnOk result ((row : Row) → table.new.cases ++ cases_of row next.new group.new
        ≡ table.old.cases ++ cases_of (Row.Further (item_view item.now) row) next.old group.old) }
    ensures default { OnOk result ((row : Row) (end : Name)
        → default_or table.new.default (default_of row next.new group.new end)
        ≡ default_or table.old.default (default_of (Row.Further (item_view item.now) row) next.old
        group.old end)) }
{
    match item {
        TypedSwitchItem::Case(number, _) => {
            let to = label(out, next, group)?;
            table.add(*number, to)
        }
        TypedSwitchItem::Default(_) => {
            let to = label(out, next, group)?;
            table.add_default(to);
            Ok(())
        }
        TypedSwitchItem::Item(stmt) => {
            *group = None;
            statement(out, next, stmt, exits)
        }
    }
}

/// The labels and items of a `switch`, and their table.
#[cycle(statement)]
fn switch_items(
    out: &mut Blocks,
    next: &mut u32,
    table: &mut Table,
    row: &[TypedSwitchItem],
    exits: &Exits,
) -> Result<(), AllocError>
    ensures code { OnOk result (Puts out.old out.new (λ rest. code_items
        (typed_items_of (map item_view row.now)) next.old None (exit_view exits.now.breaks)
        (exit_view exits.now.continues) rest)) }
    ensures next { OnOk result
        (next.new ≡ next.old + items_nodes (typed_items_of (map item_view row.now))) }
    ensures cases { OnOk result (table.new.cases
        ≡ table.old.cases ++ cases_of (typed_items_of (map item_view row.now)) next.old None) }
    ensures default { OnOk result ((end : Name) → default_or table.new.default end
        ≡ default_or table.old.default
        (default_of (typed_items_of (map item_view row.now)) next.old None end)) }
{
    let mut group = None;
    for item in row {
        switch_item(out, next, table, &mut group, item, exits)?;
    }
    Ok(())
}

/// The ending that selects, and behind it the labels and items.
#[cycle(statement)]
fn arms(
    out: &mut Blocks,
    next: &mut u32,
    row: &[TypedSwitchItem],
    end: Label,
    continues: Exit,
) -> Result<(), AllocError>
    ensures code { OnOk result (Puts out.old out.new (λ rest. Item.End (Ending.Select
        (cases_of (typed_items_of (map item_view row.now)) next.old None)
        (default_of (typed_items_of (map item_view row.now)) next.old None end)) None ∷
        code_items (typed_items_of (map item_view row.now)) next.old None (Ending.Jump end)
        (exit_view continues) rest)) }
    ensures next { OnOk result
        (next.new ≡ next.old + items_nodes (typed_items_of (map item_view row.now))) }
{
    let exits = Exits {
        breaks: Exit::Jump(end),
        continues,
    };
    let mut blocks = out.apart();
    let mut table = out.no_table();
    switch_items(&mut blocks, next, &mut table, row, &exits)?;
    out.select(table, end, blocks)
}

/// A `switch`.
#[cycle(statement)]
pub fn switch(
    out: &mut Blocks,
    next: &mut u32,
    e: &TypedExpr,
    row: &[TypedSwitchItem],
    continues: Exit,
) -> Result<(), AllocError>
    ensures code { OnOk result (Puts out.old out.new (λ rest. code (Form.Switch
        (typed_expr_view e.now) (typed_items_of (map item_view row.now))) next.old Ending.Leave
        (exit_view continues) rest)) }
    ensures next { OnOk result (next.new ≡ next.old + stmt_nodes (Form.Switch
        (typed_expr_view e.now) (typed_items_of (map item_view row.now)))) }
{
    let node = take_node(next)?;
    value(out, next, e)?;
    arms(out, next, row, labels::end(node), continues)?;
    out.begin(labels::end(node), None)
}
