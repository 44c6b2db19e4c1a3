//! Statements: their typed form, or a fault that stands in them.

ghost use Rattle.std.specs.Prelude.{◌≡◌, ℤ, true, false, cond, [], ◌∷◌, ◌++◌, pos, map, option_map, unwrap_or};
ghost use Rattle.int_ops.specs.Conversion as conversion;
ghost use Rattle.c_tree.specs.declared.typed_expr.CellAt.TheVariants as cell;
ghost use Rattle.c_tree.specs.Stmt.{Stmt as plain};
ghost use Rattle.c_tree.specs.TypedStmt.{TypedStmt as Typed, TypedItem};
ghost use Rattle.c_tree.specs.TreeView.{expr_view, var_view, stmt_view, for_view, stmts_of, other_of, items_of};
ghost use Rattle.c_tree.specs.TypedView.{typed_expr_view, typed_stmt_view};
ghost use Rattle.c_typing.specs.declared.fault.TypeFault.TheVariants as fault;
ghost use Rattle.c_typing.specs.TypedForms.{typed, number_type as type_of};
ghost use Rattle.c_typing.specs.Constants.{constant as value_of};
ghost use Rattle.c_typing.specs.ExprFaults.{value_faults};
ghost use Rattle.c_typing.specs.Names.{inner, leaving};
ghost use Rattle.c_typing.specs.Declarations.{declare_vars, vars_faults, typed_vars};
ghost use Rattle.c_typing.specs.Statements as spec;
ghost use Rattle.c_typing.specs.StmtFaults as of;
ghost use Rattle.c_typing.specs.StmtFaults.{Labels as Labelled};
ghost use Rattle.c_values.specs.Checks.{Checks, Passes, Goes};
ghost use Rattle.c_types.specs.StmtChecks.{inside_of, item_seen, typed_item_seen, typed_head_seen, typed_other_seen, typed_stmts_seen, typed_items_seen};

use crate::declarations::locals;
use crate::labels::Labels;
use crate::stmt_forms::{braces, for_form, switch_form};
use c_tree::{
    Base, Expr, ForHead, Stmt, SwitchItem, TypedExpr, TypedForHead, TypedStmt, TypedSwitchItem, Var,
};
use c_typing::TypeFault;
use c_values::constants::constant;
use c_values::expr::{Checked, expr, value};
use c_values::forms::{converted, number_type, promoted_base};
use c_values::scopes::Scopes;
use cov_base::Refusal;
use int_ops::convert;
use sqlite_items::{Boxed, Items};
use std::alloc::Global;

/// What a statement stands in: a function with this result, and whether `break` and `continue` may
/// stand there.
#[derive(Clone, Copy)]
pub struct Context {
    pub result: Base,
    pub breaks: bool,
    pub continues: bool,
}

impl Context {
    /// In the body of a loop.
    fn in_loop(self) -> Context
        ensures { result ≡ record { result = self.result; breaks = true; continues = true } }
    {
        Context {
            result: self.result,
            breaks: true,
            continues: true,
        }
    }

    /// In the braces of a `switch`.
    fn in_switch(self) -> Context
        ensures { result
            ≡ record { result = self.result; breaks = true; continues = self.continues } }
    {
        Context {
            result: self.result,
            breaks: true,
            continues: self.continues,
        }
    }
}

/// The outermost block of a function with this result.
pub fn outermost(base: Base) -> Context
    ensures { result ≡ record { result = base; breaks = false; continues = false } }
{
    Context {
        result: base,
        breaks: false,
        continues: false,
    }
}

/// A `break` or `continue` stands where it may.
fn allowed(allows: bool, place: u32) -> Checked<()>
    ensures { Passes (of.jump_faults allows place) result }
{
    if allows {
        return Ok(());
    }
    Err(Refusal::Refused(TypeFault::OutsideLoop(place)))
}

/// A condition that may be left out.
fn condition(
    alloc: Global,
    names: &Scopes,
    e: &Option<Boxed<Expr>>,
) -> Checked<Option<Boxed<TypedExpr>>>
    ensures { Checks (option_map typed_expr_view)
        (of.test_faults names.now.scopes (option_map expr_view e.now))
        (option_map (typed names.now.scopes) (option_map expr_view e.now)) result }
{
    match e {
        None => Ok(None),
        Some(e) => {
            let e = value(alloc, names, e.get())?;
            Ok(Some(Boxed::new(alloc, e)?))
        }
    }
}

/// An expression that may be left out, and whose value isn't wanted.
fn step(alloc: Global, names: &Scopes, e: &Option<Boxed<Expr>>) -> Checked<Option<Boxed<TypedExpr>>>
    ensures { Checks (option_map typed_expr_view)
        (of.faults_if names.now.scopes (option_map expr_view e.now))
        (option_map (typed names.now.scopes) (option_map expr_view e.now)) result }
{
    match e {
        None => Ok(None),
        Some(e) => {
            let e = expr(alloc, names, e.get())?;
            Ok(Some(Boxed::new(alloc, e)?))
        }
    }
}

/// What a `return` at a place gives, in a function with this result.
fn returned(
    alloc: Global,
    names: &Scopes,
    result_base: Base,
    e: &Option<Boxed<Expr>>,
    place: u32,
) -> Checked<Option<Boxed<TypedExpr>>>
    ensures { Checks (option_map typed_expr_view)
        (of.return_faults result_base names.now.scopes (option_map expr_view e.now) place)
        (spec.returned result_base names.now.scopes (option_map expr_view e.now)) result }
{
    match (result_base, e) {
        (Base::Void, None) => Ok(None),
        (Base::Void, Some(_)) | (Base::Int(_), None) => {
            Err(Refusal::Refused(TypeFault::VoidValue(place)))
        }
        (Base::Int(t), Some(e)) => {
            let e = value(alloc, names, e.get())?;
            let e = converted(alloc, e, Base::Int(t))?;
            Ok(Some(Boxed::new(alloc, e)?))
        }
    }
}

/// The value of a case, where its expression is constant and doesn't trap.
fn case_value(alloc: Global, names: &Scopes, e: &Expr) -> Checked<Option<i128>>
    ensures { Checks (λ o. o) (value_faults names.now.scopes (expr_view e.now))
        (value_of (typed names.now.scopes (expr_view e.now))) result }
{
    let e = value(alloc, names, e)?;
    Ok(constant(&e))
}

/// The number of a case with this value, converted to the type of its `switch`.
fn case_number(to: Base, value: Option<i128>, labels: &mut Labels, place: u32) -> Checked<i128>
    ensures { Checks {V = ℤ × Labelled} (λ n. (n, labels.new))
        (of.case_faults (type_of to) labels.old value place) (
          conversion.convert (type_of to) (unwrap_or value (pos 0)),
          of.with_case (type_of to)
              labels.old value,
        ) result }
{
    let Some(n) = value else {
        return Err(Refusal::Refused(TypeFault::BadCase(place)));
    };
    let n = convert(number_type(to), n);
    if !labels.add(n)? {
        return Err(Refusal::Refused(TypeFault::TwiceCase(place)));
    }
    Ok(n)
}

/// That of a case with this expression.
#[tactic(auto, using(c_values::proofs::CheckLaws::in_left, c_values::proofs::CheckLaws::behind_none))]
fn case_label(
    alloc: Global,
    names: &Scopes,
    to: Base,
    labels: &mut Labels,
    e: &Expr,
    place: u32,
) -> Checked<i128>
    ensures { Checks {V = ℤ × Labelled} (λ n. (n, labels.new))
        (value_faults names.now.scopes (expr_view e.now)
        ++ of.case_faults (type_of to) labels.old
        (value_of (typed names.now.scopes (expr_view e.now))) place) (
          spec.case_number names.now.scopes to (expr_view e.now),
          of.with_case (type_of to) labels.old
              (value_of (typed names.now.scopes (expr_view e.now))),
        ) result }
{
    let value = case_value(alloc, names, e)?;
    case_number(to, value, labels, place)
}

/// A default at a place.
fn default_label(labels: &mut Labels, place: u32) -> Checked<()>
    ensures { Checks (λ _. labels.new) (cond labels.old.default (fault.TwiceCase place ∷ []) [])
        (record { values = labels.old.values; default = true }) result }
{
    if labels.has_default() {
        return Err(Refusal::Refused(TypeFault::TwiceCase(place)));
    }
    labels.set_default();
    Ok(())
}

/// The typed form of a declaration.
fn declaration(alloc: Global, names: &mut Scopes, vars: &Items<Var>) -> Checked<TypedStmt>
    ensures { Goes typed_stmt_view (vars_faults names.old (map var_view vars.now))
        (Typed.Vars (typed_vars names.old (map var_view vars.now)))
        (declare_vars cell.Local names.old (map var_view vars.now)) result names.new }
{
    let vars = locals(alloc, names, vars.as_slice())?;
    Ok(TypedStmt::Vars(vars))
}

/// That of a statement, in this context. What it declares is declared behind it.
#[cycle(stmt)]
fn stmt(alloc: Global, names: &mut Scopes, context: Context, s: &Stmt) -> Checked<TypedStmt>
    ensures { Goes typed_stmt_view
        (of.stmt_faults context.result (inside_of context) names.old (stmt_view s.now))
        (spec.typed_stmt context.result names.old (stmt_view s.now))
        (spec.after names.old (stmt_view s.now))
        result names.new }
{
    match s {
        Stmt::Vars(vars) => declaration(alloc, names, vars),
        Stmt::Block(items) => block(alloc, names, context, items),
        Stmt::Empty => Ok(TypedStmt::Empty),
        Stmt::Value(e) => {
            let e = expr(alloc, names, e.get())?;
            Ok(TypedStmt::Value(Boxed::new(alloc, e)?))
        }
        Stmt::If(e, s, other) => if_statement(alloc, names, context, e.get(), s.get(), other),
        Stmt::While(e, s) => while_loop(alloc, names, context, e.get(), s.get()),
        Stmt::DoWhile(s, e, line) => do_loop(alloc, names, context, s.get(), e.get(), *line),
        Stmt::For(head, s) => for_loop(alloc, names, context, head.get(), s.get()),
        Stmt::Switch(e, items) => switch(alloc, names, context, e.get(), items),
        Stmt::Break(place, line) => {
            allowed(context.breaks, *place)?;
            Ok(TypedStmt::Break(*place, *line))
        }
        Stmt::Continue(place, line) => {
            allowed(context.continues, *place)?;
            Ok(TypedStmt::Continue(*place, *line))
        }
        Stmt::Return(e, place, line) => {
            let e = returned(alloc, names, context.result, e, *place)?;
            Ok(TypedStmt::Return(e, *place, *line))
        }
    }
}

/// That of a statement in a scope of its own.
#[cycle(stmt)]
fn nested(alloc: Global, names: &mut Scopes, context: Context, s: &Stmt) -> Checked<TypedStmt>
    ensures { Goes typed_stmt_view
        (of.stmt_faults context.result (inside_of context) (inner names.old) (stmt_view s.now))
        (spec.typed_stmt context.result (inner names.old) (stmt_view s.now))
        (leaving names.old (spec.after (inner names.old) (stmt_view s.now))) result names.new }
{
    names.open()?;
    let s = stmt(alloc, names, context, s)?;
    names.close();
    Ok(s)
}

/// Those of statements, one behind another.
#[cycle(stmt)]
pub fn stmts(
    alloc: Global,
    names: &mut Scopes,
    context: Context,
    ss: &[Stmt],
) -> Checked<Items<TypedStmt>>
    ensures { Goes typed_stmts_seen
        (of.stmts_faults context.result (inside_of context) names.old
        (stmts_of (map stmt_view ss.now)))
        (spec.typed_stmts context.result names.old (stmts_of (map stmt_view ss.now)))
        (spec.after_all names.old (stmts_of (map stmt_view ss.now))) result names.new }
{
    let mut made = Items::new(alloc);
    for s in ss {
        let s = stmt(alloc, names, context, s)?;
        made.push(s)?;
    }
    Ok(made)
}

/// That of a block.
#[cycle(stmt)]
fn block(
    alloc: Global,
    names: &mut Scopes,
    context: Context,
    ss: &Items<Stmt>,
) -> Checked<TypedStmt>
    ensures { Goes typed_stmt_view
        (of.stmts_faults context.result (inside_of context) (inner names.old)
        (stmts_of (map stmt_view ss.now)))
        (Typed.Block
        (spec.typed_stmts context.result (inner names.old) (stmts_of (map stmt_view ss.now))))
        (leaving names.old (spec.after_all (inner names.old) (stmts_of (map stmt_view ss.now))))
        result names.new }
{
    names.open()?;
    let ss = stmts(alloc, names, context, ss.as_slice())?;
    names.close();
    Ok(braces(ss))
}

/// That of the statement behind `else`, where there is one.
#[cycle(stmt)]
fn otherwise(
    alloc: Global,
    names: &mut Scopes,
    context: Context,
    s: &Option<Boxed<Stmt>>,
) -> Checked<Option<Boxed<TypedStmt>>>
    ensures { Goes typed_other_seen
        (of.other_faults context.result (inside_of context) (inner names.old)
        (other_of (option_map stmt_view s.now)))
        (spec.typed_other context.result (inner names.old) (other_of (option_map stmt_view s.now)))
        (leaving names.old
        (spec.after_other (inner names.old) (other_of (option_map stmt_view s.now))))
        result names.new }
{
    match s {
        None => Ok(None),
        Some(s) => {
            let s = nested(alloc, names, context, s.get())?;
            Ok(Some(Boxed::new(alloc, s)?))
        }
    }
}

/// That of an `if`.
#[cycle(stmt)]
#[tactic(auto, using(c_values::proofs::CheckLaws::in_left, c_values::proofs::CheckLaws::in_right))]
fn if_statement(
    alloc: Global,
    names: &mut Scopes,
    context: Context,
    e: &Expr,
    s: &Stmt,
    other: &Option<Boxed<Stmt>>,
) -> Checked<TypedStmt>
    ensures { Goes typed_stmt_view
        (of.stmt_faults context.result (inside_of context) names.old
        (plain.If (expr_view e.now) (stmt_view s.now) (other_of (option_map stmt_view other.now))))
        (spec.typed_stmt context.result names.old
        (plain.If (expr_view e.now) (stmt_view s.now) (other_of (option_map stmt_view other.now))))
        (spec.after names.old
        (plain.If (expr_view e.now) (stmt_view s.now) (other_of (option_map stmt_view other.now))))
        result names.new }
{
    let e = value(alloc, names, e)?;
    let s = nested(alloc, names, context, s)?;
    let other = otherwise(alloc, names, context, other)?;
    let e = Boxed::new(alloc, e)?;
    Ok(TypedStmt::If(e, Boxed::new(alloc, s)?, other))
}

/// That of a `while`.
#[cycle(stmt)]
#[tactic(auto, using(c_values::proofs::CheckLaws::in_left, c_values::proofs::CheckLaws::in_right))]
fn while_loop(
    alloc: Global,
    names: &mut Scopes,
    context: Context,
    e: &Expr,
    s: &Stmt,
) -> Checked<TypedStmt>
    ensures { Goes typed_stmt_view
        (of.stmt_faults context.result (inside_of context) names.old
        (plain.While (expr_view e.now) (stmt_view s.now)))
        (spec.typed_stmt context.result names.old (plain.While (expr_view e.now) (stmt_view s.now)))
        (spec.after names.old (plain.While (expr_view e.now) (stmt_view s.now))) result names.new }
{
    let e = value(alloc, names, e)?;
    let s = nested(alloc, names, context.in_loop(), s)?;
    let e = Boxed::new(alloc, e)?;
    Ok(TypedStmt::While(e, Boxed::new(alloc, s)?))
}

/// That of a `do` with its `while` in this line.
#[cycle(stmt)]
#[tactic(auto, using(c_values::proofs::CheckLaws::in_left, c_values::proofs::CheckLaws::in_right))]
fn do_loop(
    alloc: Global,
    names: &mut Scopes,
    context: Context,
    s: &Stmt,
    e: &Expr,
    line: u32,
) -> Checked<TypedStmt>
    ensures { Goes typed_stmt_view
        (of.stmt_faults context.result (inside_of context) names.old
        (plain.DoWhile (stmt_view s.now) (expr_view e.now) line))
        (spec.typed_stmt context.result names.old
        (plain.DoWhile (stmt_view s.now) (expr_view e.now) line))
        (spec.after names.old (plain.DoWhile (stmt_view s.now) (expr_view e.now) line)) result
        names.new }
{
    let s = nested(alloc, names, context.in_loop(), s)?;
    let e = value(alloc, names, e)?;
    let s = Boxed::new(alloc, s)?;
    Ok(TypedStmt::DoWhile(s, Boxed::new(alloc, e)?, line))
}

/// That of the first part of a `for`, where there is one.
#[cycle(stmt)]
fn first_part(
    alloc: Global,
    names: &mut Scopes,
    context: Context,
    s: &Option<Stmt>,
) -> Checked<Option<TypedStmt>>
    ensures { Goes typed_other_seen
        (of.other_faults context.result (inside_of context) names.old
        (other_of (option_map stmt_view s.now)))
        (spec.typed_other context.result names.old (other_of (option_map stmt_view s.now)))
        (spec.after_other names.old (other_of (option_map stmt_view s.now))) result names.new }
{
    match s {
        None => Ok(None),
        Some(s) => Ok(Some(stmt(alloc, names, context, s)?)),
    }
}

/// That of the parentheses of a `for`.
#[cycle(stmt)]
#[tactic(auto, using(c_values::proofs::CheckLaws::in_left, c_values::proofs::CheckLaws::in_right))]
fn for_head(
    alloc: Global,
    names: &mut Scopes,
    context: Context,
    head: &ForHead,
) -> Checked<TypedForHead>
    ensures { Goes typed_head_seen
        (of.head_faults context.result (inside_of context) names.old (for_view head.now))
        (spec.typed_head context.result names.old (for_view head.now))
        (spec.after_head names.old (for_view head.now))
        result names.new }
{
    let first = first_part(alloc, names, context, &head.first)?;
    let test = condition(alloc, names, &head.test)?;
    let step = step(alloc, names, &head.step)?;
    Ok(TypedForHead { first, test, step })
}

/// That of a `for`.
#[cycle(stmt)]
#[tactic(auto, using(c_values::proofs::CheckLaws::in_left, c_values::proofs::CheckLaws::in_right))]
fn for_loop(
    alloc: Global,
    names: &mut Scopes,
    context: Context,
    head: &ForHead,
    s: &Stmt,
) -> Checked<TypedStmt>
    ensures { Goes typed_stmt_view
        (of.stmt_faults context.result (inside_of context) names.old
        (plain.For (for_view head.now) (stmt_view s.now)))
        (spec.typed_stmt context.result names.old (plain.For (for_view head.now) (stmt_view s.now)))
        (spec.after names.old (plain.For (for_view head.now) (stmt_view s.now))) result names.new }
{
    names.open()?;
    let head = for_head(alloc, names, context, head)?;
    let s = stmt(alloc, names, context.in_loop(), s)?;
    names.close();
    Ok(for_form(alloc, head, s)?)
}

/// That of a label or an item of a `switch` over this type.
#[cycle(stmt)]
fn switch_item(
    alloc: Global,
    names: &mut Scopes,
    context: Context,
    to: Base,
    labels: &mut Labels,
    item: &SwitchItem,
) -> Checked<TypedSwitchItem>
    ensures { Goes {V = TypedItem × Labelled} (λ i. (typed_item_seen i, labels.new))
        (of.item_faults context.result (inside_of context) names.old (type_of to) labels.old
        (item_seen item.now)) (
          spec.typed_item context.result names.old to (item_seen item.now),
          of.labelled (type_of to) names.old.scopes labels.old (item_seen item.now),
        )
        (spec.after_item names.old (item_seen item.now)) result names.new }
{
    match item {
        SwitchItem::Case(e, place) => {
            let number = case_label(alloc, names, to, labels, e.get(), *place)?;
            Ok(TypedSwitchItem::Case(number, *place))
        }
        SwitchItem::Default(place) => {
            default_label(labels, *place)?;
            Ok(TypedSwitchItem::Default(*place))
        }
        SwitchItem::Item(s) => Ok(TypedSwitchItem::Item(stmt(alloc, names, context, s)?)),
    }
}

/// Those of all labels and items of a `switch` over this type.
#[cycle(stmt)]
fn switch_items(
    alloc: Global,
    names: &mut Scopes,
    context: Context,
    to: Base,
    items: &[SwitchItem],
) -> Checked<Items<TypedSwitchItem>>
    ensures { Goes typed_items_seen
        (of.items_faults context.result (inside_of context) names.old (type_of to) of.no_labels
        (items_of (map item_seen items.now)))
        (spec.typed_items context.result names.old to (items_of (map item_seen items.now)))
        (spec.after_items names.old (items_of (map item_seen items.now))) result names.new }
{
    let mut labels = Labels::new(alloc);
    let mut made = Items::new(alloc);
    for item in items {
        let item = switch_item(alloc, names, context, to, &mut labels, item)?;
        made.push(item)?;
    }
    Ok(made)
}

/// That of a `switch`.
#[cycle(stmt)]
fn switch(
    alloc: Global,
    names: &mut Scopes,
    context: Context,
    e: &Expr,
    items: &Items<SwitchItem>,
) -> Checked<TypedStmt>
    ensures { Goes typed_stmt_view
        (of.stmt_faults context.result (inside_of context) names.old
        (plain.Switch (expr_view e.now) (items_of (map item_seen items.now))))
        (spec.typed_stmt context.result names.old
        (plain.Switch (expr_view e.now) (items_of (map item_seen items.now))))
        (spec.after names.old (plain.Switch (expr_view e.now) (items_of (map item_seen items.now))))
        result names.new }
{
    let e = value(alloc, names, e)?;
    let to = promoted_base(e.base);
    let e = converted(alloc, e, to)?;
    names.open()?;
    let items = switch_items(alloc, names, context.in_switch(), to, items.as_slice())?;
    names.close();
    Ok(switch_form(alloc, e, items)?)
}
