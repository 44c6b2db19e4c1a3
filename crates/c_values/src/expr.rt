//! Expressions: their typed form, or a fault that stands in them.

ghost use Rattle.std.specs.Prelude.{◌≡◌, [], ◌++◌, Some, map};
ghost use Rattle.c_tree.specs.TreeView.{expr_view, exprs_of};
ghost use Rattle.c_tree.specs.TypedView.{typed_expr_view};
ghost use Rattle.c_typing.specs.declared.names.Meaning.TheVariants as meant;
ghost use Rattle.c_typing.specs.Names.{meaning};
ghost use Rattle.c_typing.specs.TypedForms as spec;
ghost use Rattle.c_typing.specs.ExprFaults as of;
ghost use Rattle.c_values.specs.Checks.{Checks, Passes, turned, pair_view, args_view};

use crate::forms;
use crate::scopes::Scopes;
use c_tree::{Base, Callee, CellAt, Expr, ExprKind, Ident, TypedExpr};
use c_typing::{Meaning, TypeFault};
use cov_base::Refusal;
use int_ops::IntType;
use sqlite_items::Items;
use std::alloc::Global;

/// A typed form, or a fault that stands, or no memory.
pub type Checked<T> = Result<T, Refusal<TypeFault>>;

/// A name that stands as a value.
fn named(names: &Scopes, name: &Ident, place: u32, line: u32) -> Checked<TypedExpr>
    ensures { Checks typed_expr_view (of.name_faults (meaning names.now.scopes name.now) place)
        (spec.named (meaning names.now.scopes name.now) place line) result }
{
    match names.meaning(name) {
        None => Err(Refusal::Refused(TypeFault::Unknown(place))),
        Some(Meaning::Function(..)) => Err(Refusal::Refused(TypeFault::NotAVariable(place))),
        Some(Meaning::Variable(_, Some(_), _)) => {
            Err(Refusal::Refused(TypeFault::ArrayValue(place)))
        }
        Some(Meaning::Variable(cell, None, t)) => Ok(forms::name(*cell, *t, place, line)),
    }
}

/// The array that an indexed name means: its first cell, its length and its type.
fn array(names: &Scopes, name: &Ident, place: u32) -> Checked<(CellAt, u64, IntType)>
    ensures { Checks (λ a. Some (meant.Variable a.0 (Some a.1) a.2))
        (of.index_faults (meaning names.now.scopes name.now) place)
        (meaning names.now.scopes name.now) result }
{
    match names.meaning(name) {
        None => Err(Refusal::Refused(TypeFault::Unknown(place))),
        Some(Meaning::Variable(cell, Some(length), t)) => Ok((*cell, *length, *t)),
        Some(_) => Err(Refusal::Refused(TypeFault::NotAnArray(place))),
    }
}

/// What a call of a name with so many arguments calls: the function, its result and the types of
/// its parameters.
fn callee<'a>(
    names: &'a Scopes,
    name: &Ident,
    count: usize,
    place: u32,
) -> Checked<(Callee, Base, &'a [Base])>
    ensures { Checks (λ f. Some (meant.Function (Some f.0) f.1 f.2.now))
        (of.call_faults (meaning names.now.scopes name.now) count place)
        (meaning names.now.scopes name.now) result }
{
    match names.meaning(name) {
        None => Err(Refusal::Refused(TypeFault::Unknown(place))),
        Some(Meaning::Variable(..)) => Err(Refusal::Refused(TypeFault::NotAFunction(place))),
        Some(Meaning::Function(None, _, _)) => Err(Refusal::Refused(TypeFault::NoBody(place))),
        Some(Meaning::Function(Some(callee), result, params)) => {
            if params.len() != count {
                return Err(Refusal::Refused(TypeFault::ArgCount(place)));
            }
            Ok((*callee, *result, params.as_slice()))
        }
    }
}

/// What an expression designates, parentheses aside.
pub enum Designated {
    /// A function's name.
    Function,
    /// Another name, or an element.
    Variable,
    /// Neither.
    Neither,
}

/// What an expression designates.
fn designates(names: &Scopes, e: &Expr) -> Designated
    ensures { (operator fs : _)
        → of.changed names.now.scopes (of.bare (expr_view e.now)) operator fs
        ≡ turned result operator fs }
{
    match &e.kind {
        ExprKind::Paren(inner) => designates(names, inner.get()),
        ExprKind::Name(name) => match names.meaning(name) {
            Some(Meaning::Function(..)) => Designated::Function,
            Some(Meaning::Variable(..)) | None => Designated::Variable,
        },
        ExprKind::Index(..) => Designated::Variable,
        ExprKind::Number(..)
        | ExprKind::EofName
        | ExprKind::Call(..)
        | ExprKind::Plus(_)
        | ExprKind::Minus(_)
        | ExprKind::Complement(_)
        | ExprKind::Not(_)
        | ExprKind::Cast(..)
        | ExprKind::Binary(..)
        | ExprKind::AndAlso(..)
        | ExprKind::OrElse(..)
        | ExprKind::Choose(..)
        | ExprKind::Assign(..)
        | ExprKind::Before(..)
        | ExprKind::After(..)
        | ExprKind::Comma(..) => Designated::Neither,
    }
}

/// The second and third operand of `?:`, of these types and at these places, are both void, or both
/// have a value.
fn agree(x: Base, x_place: u32, y: Base, y_place: u32) -> Checked<()>
    ensures { Passes (of.sides [] x x_place [] y y_place) result }
{
    match (x, y) {
        (Base::Void, Base::Void) | (Base::Int(_), Base::Int(_)) => Ok(()),
        (Base::Void, Base::Int(_)) => Err(Refusal::Refused(TypeFault::VoidValue(x_place))),
        (Base::Int(_), Base::Void) => Err(Refusal::Refused(TypeFault::VoidValue(y_place))),
    }
}

/// The typed form of an expression.
#[cycle(expr)]
pub fn expr(alloc: Global, names: &Scopes, e: &Expr) -> Checked<TypedExpr>
    ensures { Checks typed_expr_view (of.faults names.now.scopes (expr_view e.now))
        (spec.typed names.now.scopes (expr_view e.now)) result }
{
    let (place, line) = (e.place, e.line);
    match &e.kind {
        ExprKind::Name(name) => named(names, name, place, line),
        ExprKind::Number(number, t) => Ok(forms::number(*number, *t, place, line)),
        ExprKind::EofName => Ok(forms::eof_name(place, line)),
        ExprKind::Paren(inner) => expr(alloc, names, inner.get()),
        ExprKind::Call(name, args) => call(alloc, names, name, args.as_slice(), (place, line)),
        ExprKind::Index(name, p, l, index) => {
            element(alloc, names, name, (*p, *l), index.get(), (place, line))
        }
        ExprKind::Plus(e) => {
            let e = value(alloc, names, e.get())?;
            Ok(forms::plus(alloc, e, place, line)?)
        }
        ExprKind::Minus(e) => {
            let e = value(alloc, names, e.get())?;
            Ok(forms::minus(alloc, e, place, line)?)
        }
        ExprKind::Complement(e) => {
            let e = value(alloc, names, e.get())?;
            Ok(forms::complement(alloc, e, place, line)?)
        }
        ExprKind::Not(e) => {
            let e = value(alloc, names, e.get())?;
            Ok(forms::not(alloc, e, place, line)?)
        }
        ExprKind::Cast(Base::Void, e) => {
            let e = expr(alloc, names, e.get())?;
            Ok(forms::cast(alloc, Base::Void, e, place, line)?)
        }
        ExprKind::Cast(Base::Int(t), e) => {
            let e = value(alloc, names, e.get())?;
            Ok(forms::cast(alloc, Base::Int(*t), e, place, line)?)
        }
        ExprKind::Binary(op, l, r) => {
            let (l, r) = values(alloc, names, l.get(), r.get())?;
            Ok(forms::operated(alloc, *op, l, r, place, line)?)
        }
        ExprKind::AndAlso(l, r) => {
            let (l, r) = values(alloc, names, l.get(), r.get())?;
            Ok(forms::and_also(alloc, l, r, place, line)?)
        }
        ExprKind::OrElse(l, r) => {
            let (l, r) = values(alloc, names, l.get(), r.get())?;
            Ok(forms::or_else(alloc, l, r, place, line)?)
        }
        ExprKind::Choose(c, x, y) => {
            choice(alloc, names, c.get(), x.get(), y.get(), (place, line))
        }
        ExprKind::Assign(op, l, r) => {
            let (l, r) = assignment(alloc, names, l.get(), r.get(), place)?;
            Ok(forms::assigned(alloc, *op, l, r, place, line)?)
        }
        ExprKind::Before(op, e) => {
            let e = target(alloc, names, e.get(), place)?;
            Ok(forms::before(alloc, *op, e, place, line)?)
        }
        ExprKind::After(op, e) => {
            let e = target(alloc, names, e.get(), place)?;
            Ok(forms::after(alloc, *op, e, place, line)?)
        }
        ExprKind::Comma(l, r) => {
            let (l, r) = both(alloc, names, l.get(), r.get())?;
            Ok(forms::comma(alloc, l, r, place, line)?)
        }
    }
}

/// That of an expression where a value is wanted.
#[cycle(expr)]
pub fn value(alloc: Global, names: &Scopes, e: &Expr) -> Checked<TypedExpr>
    ensures { Checks typed_expr_view (of.value_faults names.now.scopes (expr_view e.now))
        (spec.typed names.now.scopes (expr_view e.now)) result }
{
    let typed = expr(alloc, names, e)?;
    match typed.base {
        Base::Void => Err(Refusal::Refused(TypeFault::VoidValue(e.place))),
        Base::Int(_) => Ok(typed),
    }
}

/// Those of two operands with values.
#[cycle(expr)]
#[tactic(auto, using(crate::proofs::CheckLaws::in_left, crate::proofs::CheckLaws::in_right))]
fn values(alloc: Global, names: &Scopes, l: &Expr, r: &Expr) -> Checked<(TypedExpr, TypedExpr)>
    ensures { Checks pair_view
        (of.operand_faults names.now.scopes (expr_view l.now) (expr_view r.now))
        (spec.typed_pair names.now.scopes (expr_view l.now) (expr_view r.now)) result }
{
    let l = value(alloc, names, l)?;
    let r = value(alloc, names, r)?;
    Ok((l, r))
}

/// Those of two operands of which a value isn't wanted.
#[cycle(expr)]
#[tactic(auto, using(crate::proofs::CheckLaws::in_left, crate::proofs::CheckLaws::in_right))]
fn both(alloc: Global, names: &Scopes, l: &Expr, r: &Expr) -> Checked<(TypedExpr, TypedExpr)>
    ensures { Checks pair_view (of.both_faults names.now.scopes (expr_view l.now) (expr_view r.now))
        (spec.typed_pair names.now.scopes (expr_view l.now) (expr_view r.now)) result }
{
    let l = expr(alloc, names, l)?;
    let r = expr(alloc, names, r)?;
    Ok((l, r))
}

/// Those of the second and third operand of `?:`.
#[cycle(expr)]
#[tactic(auto, using(crate::proofs::CheckLaws::in_first_side, crate::proofs::CheckLaws::in_second_side))]
fn sides(alloc: Global, names: &Scopes, x: &Expr, y: &Expr) -> Checked<(TypedExpr, TypedExpr)>
    ensures { Checks pair_view
        (of.sides_faults names.now.scopes (expr_view x.now) (expr_view y.now))
        (spec.typed_pair names.now.scopes (expr_view x.now) (expr_view y.now)) result }
{
    let first = expr(alloc, names, x)?;
    let second = expr(alloc, names, y)?;
    agree(first.base, x.place, second.base, y.place)?;
    Ok((first, second))
}

/// That of `?:` with these operands.
#[cycle(expr)]
#[tactic(auto, using(crate::proofs::CheckLaws::in_left, crate::proofs::CheckLaws::in_right))]
fn choice(
    alloc: Global,
    names: &Scopes,
    c: &Expr,
    x: &Expr,
    y: &Expr,
    at: (u32, u32),
) -> Checked<TypedExpr>
    ensures { Checks typed_expr_view
        (of.choice_faults names.now.scopes (expr_view c.now) (expr_view x.now) (expr_view y.now))
        (spec.chosen (spec.typed names.now.scopes (expr_view c.now))
        (spec.typed names.now.scopes (expr_view x.now))
        (spec.typed names.now.scopes (expr_view y.now)) at.0 at.1) result }
{
    let c = value(alloc, names, c)?;
    let (x, y) = sides(alloc, names, x, y)?;
    Ok(forms::chosen(alloc, c, x, y, at.0, at.1)?)
}

/// That of what the operator at a place assigns to or steps.
#[cycle(expr)]
#[tactic(auto, using(crate::proofs::CheckLaws::in_left, crate::proofs::CheckLaws::at_end))]
fn target(alloc: Global, names: &Scopes, e: &Expr, operator: u32) -> Checked<TypedExpr>
    ensures { Checks typed_expr_view (of.target_faults names.now.scopes (expr_view e.now) operator)
        (spec.typed names.now.scopes (expr_view e.now)) result }
{
    match designates(names, e) {
        Designated::Function => Err(Refusal::Refused(TypeFault::NotAVariable(operator))),
        Designated::Variable => expr(alloc, names, e),
        Designated::Neither => {
            expr(alloc, names, e)?;
            Err(Refusal::Refused(TypeFault::NotAVariable(operator)))
        }
    }
}

/// Those of both sides of an assignment by the operator at a place.
#[cycle(expr)]
#[tactic(auto, using(crate::proofs::CheckLaws::in_left, crate::proofs::CheckLaws::in_right))]
fn assignment(
    alloc: Global,
    names: &Scopes,
    l: &Expr,
    r: &Expr,
    operator: u32,
) -> Checked<(TypedExpr, TypedExpr)>
    ensures { Checks pair_view
        (of.assigned_faults names.now.scopes (expr_view l.now) (expr_view r.now) operator)
        (spec.typed_pair names.now.scopes (expr_view l.now) (expr_view r.now)) result }
{
    let l = target(alloc, names, l, operator)?;
    let r = value(alloc, names, r)?;
    Ok((l, r))
}

/// That of an element of an array, whose name has this place and line.
#[cycle(expr)]
#[tactic(auto, using(crate::proofs::CheckLaws::in_left, crate::proofs::CheckLaws::in_right))]
fn element(
    alloc: Global,
    names: &Scopes,
    name: &Ident,
    name_at: (u32, u32),
    index: &Expr,
    at: (u32, u32),
) -> Checked<TypedExpr>
    ensures { Checks typed_expr_view
        (of.element_faults names.now.scopes name.now name_at.0 (expr_view index.now))
        (spec.element (meaning names.now.scopes name.now) name_at.0 name_at.1
        (spec.typed names.now.scopes (expr_view index.now)) at.0 at.1) result }
{
    let array = array(names, name, name_at.0)?;
    let index = value(alloc, names, index)?;
    Ok(forms::element(alloc, array, name_at, index, at.0, at.1)?)
}

/// That of a call with these arguments.
#[cycle(expr)]
#[tactic(auto, using(crate::proofs::CheckLaws::in_left, crate::proofs::CheckLaws::in_right))]
fn call(
    alloc: Global,
    names: &Scopes,
    name: &Ident,
    args: &[Expr],
    at: (u32, u32),
) -> Checked<TypedExpr>
    ensures { Checks typed_expr_view
        (of.call_faults (meaning names.now.scopes name.now)
        (of.count (exprs_of (map expr_view args.now))) at.0
        ++ of.args_faults names.now.scopes (exprs_of (map expr_view args.now)))
        (spec.called (meaning names.now.scopes name.now)
        (spec.typed_args names.now.scopes (exprs_of (map expr_view args.now))) at.0 at.1) result }
{
    let (callee, result, params) = callee(names, name, args.len(), at.0)?;
    let args = passed(alloc, names, params, args)?;
    Ok(forms::call(callee, args, result, at.0, at.1))
}

/// Those of arguments for parameters of these types.
#[cycle(expr)]
fn passed(
    alloc: Global,
    names: &Scopes,
    params: &[Base],
    args: &[Expr],
) -> Checked<Items<TypedExpr>>
    ensures { Checks args_view (of.args_faults names.now.scopes (exprs_of (map expr_view args.now)))
        (spec.passed params.now
        (spec.typed_args names.now.scopes (exprs_of (map expr_view args.now)))) result }
{
    let mut passed = Items::new(alloc);
    for (at, arg) in args.iter().enumerate() {
        let arg = value(alloc, names, arg)?;
        passed.push(forms::passed(alloc, arg, params, at)?)?;
    }
    Ok(passed)
}
