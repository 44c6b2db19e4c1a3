//! Declarations of variables: what they declare, their typed form, and the faults in them.

ghost use Rattle.std.specs.Prelude.{◌≡◌, ℕ, ℤ, List, ◌+◌, false, cond, [], ◌∷◌, ◌++◌, length, map, flat_map, replicate, Some, unwrap_or, option_and_then, OnOk};
ghost use Rattle.int_ops.specs.Ranges.{IsNumber};
ghost use Rattle.c_tree.specs.declared.expr.Base.TheVariants as base;
ghost use Rattle.c_tree.specs.declared.typed_expr.CellAt.TheVariants as cell;
ghost use Rattle.c_tree.specs.TreeView.{expr_view, size_view, init_view, var_view};
ghost use Rattle.c_tree.specs.TypedView.{typed_expr_view, typed_init_view, typed_var_view};
ghost use Rattle.c_tree.specs.TypedParts.{cells_of};
ghost use Rattle.c_typing.specs.declared.fault.TypeFault.TheVariants as fault;
ghost use Rattle.c_typing.specs.declared.names.Meaning.TheVariants as meant;
ghost use Rattle.c_typing.specs.Names.{is_declared, declare as declared};
ghost use Rattle.c_typing.specs.TypedForms.{typed, converted, number_type as type_of};
ghost use Rattle.c_typing.specs.Constants.{constant as value_of};
ghost use Rattle.c_typing.specs.ExprFaults.{void_value, value_faults};
ghost use Rattle.c_typing.specs.Declarations as spec;
ghost use Rattle.c_values.specs.Checks.{Checks, Passes, Goes};

use c_tree::{Base, CellAt, Expr, Globals, Ident, Init, Size, TypedExpr, TypedInit, TypedVar, Var};
use c_typing::{Meaning, TypeFault};
use c_values::constants::constant;
use c_values::expr::{Checked, value};
use c_values::forms::{converted, number_type};
use c_values::scopes::Scopes;
use cov_base::{ARRAY_LIMIT, Refusal};
use int_ops::{IntType, convert};
use sqlite_items::Items;
use std::alloc::{AllocError, Global};

/// The number of elements that a list of initialisers counts.
fn listed(init: &Init) -> Option<u64>
    ensures { result ≡ spec.listed (init_view init.now) }
{
    match init {
        Init::List(es) => Some(es.len() as u64),
        Init::Absent | Init::One(_) => None,
    }
}

/// The number as a length, where it is one from 1 to the limit.
fn as_length(n: u64) -> Option<u64>
    ensures { result ≡ spec.as_length n }
{
    if 1 <= n && n <= ARRAY_LIMIT {
        Some(n)
    } else {
        None
    }
}

/// A length that is counted from a list.
fn counted_length(init: &Init) -> Option<u64>
    ensures { result ≡ option_and_then spec.as_length (spec.listed (init_view init.now)) }
{
    match listed(init) {
        Some(n) => as_length(n),
        None => None,
    }
}

/// A length that an expression tells.
fn told_length(e: &TypedExpr) -> Option<u64>
    ensures { result ≡ option_and_then spec.length_in (value_of (typed_expr_view e.now)) }
{
    match constant(e) {
        Some(n) => length_in(n),
        None => None,
    }
}

/// A whole number as a length, where it is one.
fn length_in(n: i128) -> Option<u64>
    requires { IsNumber n }
    ensures { result ≡ spec.length_in n }
{
    if n < 0 {
        return None;
    }
    as_length(n as u64)
}

/// An array has a length, which no list of initialisers passes.
fn fitting(length: Option<u64>, count: Option<u64>, place: u32) -> Checked<Option<u64>>
    ensures { Checks (λ n. n) (cond (spec.fits length count) [] (fault.ArraySize place ∷ []))
        (Some (unwrap_or length 1)) result }
{
    match (length, count) {
        (None, _) => Err(Refusal::Refused(TypeFault::ArraySize(place))),
        (Some(_), None) => Ok(length),
        (Some(n), Some(given)) => {
            if given <= n {
                Ok(length)
            } else {
                Err(Refusal::Refused(TypeFault::ArraySize(place)))
            }
        }
    }
}

/// The length of a variable with its name at this place, where it is an array.
#[tactic(auto, using(c_values::proofs::CheckLaws::in_left, c_values::proofs::CheckLaws::behind_none))]
fn length(
    alloc: Global,
    names: &Scopes,
    size: &Size,
    init: &Init,
    place: u32,
) -> Checked<Option<u64>>
    ensures { Checks (λ n. n)
        (spec.size_faults names.now.scopes (size_view size.now) (init_view init.now) place)
        (spec.length_of names.now.scopes (size_view size.now) (init_view init.now)) result }
{
    match size {
        Size::Scalar => Ok(None),
        Size::Unsized => fitting(counted_length(init), listed(init), place),
        Size::Len(e) => {
            let e = value(alloc, names, e)?;
            fitting(told_length(&e), listed(init), place)
        }
    }
}

/// A variable or a parameter isn't void.
pub fn not_void(base: Base, place: u32) -> Checked<()>
    ensures { Passes (void_value base place) result }
{
    match base {
        Base::Void => Err(Refusal::Refused(TypeFault::VoidValue(place))),
        Base::Int(_) => Ok(()),
    }
}

/// The innermost scope doesn't declare the name yet.
pub fn undeclared(names: &Scopes, name: &Ident, place: u32) -> Checked<()>
    ensures { Passes (spec.again_faults names.now.scopes name.now place) result }
{
    if names.is_declared(name) {
        return Err(Refusal::Refused(TypeFault::Redeclared(place)));
    }
    Ok(())
}

/// A scalar has no list of initialisers, and an array no single one.
fn well_initialised(size: &Size, init: &Init, place: u32) -> Checked<()>
    ensures { Passes (spec.form_faults (size_view size.now) (init_view init.now) place) result }
{
    match (size, init) {
        (_, Init::Absent)
        | (Size::Scalar, Init::One(_))
        | (Size::Unsized | Size::Len(_), Init::List(_)) => Ok(()),
        (Size::Unsized | Size::Len(_), Init::One(_)) | (Size::Scalar, Init::List(_)) => {
            Err(Refusal::Refused(TypeFault::ArrayValue(place)))
        }
    }
}

/// A variable but for the parts of its initialiser; its length, where it is an array.
#[tactic(auto, using(c_values::proofs::CheckLaws::in_left, c_values::proofs::CheckLaws::in_right))]
fn declarator(alloc: Global, names: &Scopes, v: &Var) -> Checked<Option<u64>>
    ensures { Checks (λ n. n) (spec.declarator_faults names.now.scopes (var_view v.now))
        (spec.var_length names.now.scopes (var_view v.now)) result }
{
    not_void(v.base, v.place)?;
    let length = length(alloc, names, &v.size, &v.init, v.place)?;
    undeclared(names, &v.name, v.place)?;
    well_initialised(&v.size, &v.init, v.place)?;
    Ok(length)
}

/// Declares a variable with this first cell and length, and takes its cells.
fn declare(
    alloc: Global,
    names: &mut Scopes,
    v: &Var,
    at: CellAt,
    length: Option<u64>,
) -> Result<(), AllocError>
    requires { is_declared names.old.scopes v.now.name ≡ false }
    ensures { OnOk result (names.new ≡ record {
      scopes = declared v.now.name (meant.Variable at length (type_of v.now.base)) names.old.scopes;
      next = names.old.next + cells_of length;
    }) }
{
    let name = Ident::of(alloc, v.name.bytes())?;
    names.declare(name, Meaning::Variable(at, length, number_type(v.base)))?;
    names.take(length.unwrap_or(1))
}

/// Initialisers converted to the type of a variable's elements.
fn initialisers(alloc: Global, names: &Scopes, t: IntType, es: &[Expr]) -> Checked<Items<TypedExpr>>
    ensures { Checks (map typed_expr_view)
        (flat_map (value_faults names.now.scopes) (map expr_view es.now))
        (map (λ e. converted (typed names.now.scopes e) (base.Int t)) (map expr_view es.now))
        result }
{
    let mut made = Items::new(alloc);
    for e in es {
        let e = value(alloc, names, e)?;
        made.push(converted(alloc, e, Base::Int(t))?)?;
    }
    Ok(made)
}

/// The typed form of a local variable's initialiser.
fn initialiser(alloc: Global, names: &Scopes, t: IntType, init: &Init) -> Checked<TypedInit>
    ensures { Checks typed_init_view (spec.init_faults names.now.scopes (init_view init.now))
        (spec.typed_init names.now.scopes t (init_view init.now)) result }
{
    match init {
        Init::Absent => Ok(TypedInit::Absent),
        Init::One(e) => {
            let e = value(alloc, names, e)?;
            Ok(TypedInit::One(converted(alloc, e, Base::Int(t))?))
        }
        Init::List(es) => Ok(TypedInit::List(initialisers(alloc, names, t, es.as_slice())?)),
    }
}

/// The typed form of a local variable, which is declared.
#[tactic(auto, using(c_values::proofs::CheckLaws::in_left, crate::proofs::DeclLaws::new_name))]
fn local(alloc: Global, names: &mut Scopes, v: &Var) -> Checked<TypedVar>
    ensures { Goes typed_var_view (spec.var_faults names.old (var_view v.now))
        (spec.typed_var names.old (var_view v.now))
        (spec.declare_var cell.Local names.old (var_view v.now))
        result names.new }
{
    let cell = names.next();
    let number_type = number_type(v.base);
    let length = declarator(alloc, names, v)?;
    declare(alloc, names, v, CellAt::Local(cell), length)?;
    let init = initialiser(alloc, names, number_type, &v.init)?;
    Ok(TypedVar {
        cell,
        number_type,
        length,
        init,
        place: v.place,
        line: v.line,
    })
}

/// The typed form of a declaration's variables, which are declared.
pub fn locals(alloc: Global, names: &mut Scopes, vars: &[Var]) -> Checked<Items<TypedVar>>
    ensures { Goes (map typed_var_view) (spec.vars_faults names.old (map var_view vars.now))
        (spec.typed_vars names.old (map var_view vars.now))
        (spec.declare_vars cell.Local names.old (map var_view vars.now)) result names.new }
{
    let mut made = Items::new(alloc);
    for v in vars {
        let v = local(alloc, names, v)?;
        made.push(v)?;
    }
    Ok(made)
}

/// Puts so many of a number behind the others. No list of 2^64 numbers is held.
fn put(numbers: &mut Globals, number: i128, count: u64) -> Result<(), AllocError>
    ensures { OnOk result (numbers.new ≡ numbers.old ++ replicate count number) }
{
    if numbers.len().checked_add(count).is_none() {
        return Err(AllocError);
    }
    numbers.push(number, count)
}

/// The number that an initialiser gives to a cell of the type. The global's name has this place.
#[tactic(auto, using(c_values::proofs::CheckLaws::in_left, c_values::proofs::CheckLaws::in_right))]
fn number(alloc: Global, names: &Scopes, t: IntType, place: u32, e: &Expr) -> Checked<i128>
    ensures { Checks (λ n. n) (spec.number_faults names.now.scopes place (expr_view e.now))
        (spec.number names.now.scopes t (expr_view e.now)) result }
{
    let e = value(alloc, names, e)?;
    match constant(&e) {
        Some(n) => Ok(convert(t, n)),
        None => Err(Refusal::Refused(TypeFault::NotConstant(place))),
    }
}

/// Puts the numbers that a list of initialisers gives behind the others.
fn listed_numbers(
    alloc: Global,
    names: &Scopes,
    t: IntType,
    place: u32,
    es: &[Expr],
    numbers: &mut Globals,
) -> Checked<()>
    ensures { Checks (λ _. numbers.new)
        (flat_map (spec.number_faults names.now.scopes place) (map expr_view es.now))
        (numbers.old ++ map (spec.number names.now.scopes t) (map expr_view es.now)) result }
{
    for e in es {
        let n = number(alloc, names, t, place, e)?;
        put(numbers, n, 1)?;
    }
    Ok(())
}

/// Puts the numbers that an initialiser gives behind the others, and says how many they are.
fn given_numbers(alloc: Global, names: &Scopes, v: &Var, numbers: &mut Globals) -> Checked<u64>
    ensures { Checks {V = ℕ × List ℤ} (λ count. (count, numbers.new))
        (spec.numbers_faults names.now.scopes v.now.place (init_view v.now.init)) (
          length (spec.given_numbers names.now.scopes (type_of v.now.base) (init_view v.now.init)),
          numbers.old
              ++ spec.given_numbers names.now.scopes (type_of v.now.base) (init_view v.now.init),
        ) result }
{
    let t = number_type(v.base);
    match &v.init {
        Init::Absent => Ok(0),
        Init::One(e) => {
            let n = number(alloc, names, t, v.place, e)?;
            put(numbers, n, 1)?;
            Ok(1)
        }
        Init::List(es) => {
            listed_numbers(alloc, names, t, v.place, es.as_slice(), numbers)?;
            Ok(es.len() as u64)
        }
    }
}

/// Declares a global, and puts the numbers that its cells begin with behind the others.
#[tactic(auto, using(c_values::proofs::CheckLaws::in_left, crate::proofs::DeclLaws::new_name))]
fn global(alloc: Global, names: &mut Scopes, v: &Var, numbers: &mut Globals) -> Checked<()>
    ensures { Goes (λ _. numbers.new) (spec.global_faults names.old (var_view v.now))
        (numbers.old ++ spec.numbers names.old (var_view v.now))
        (spec.declare_var cell.Global names.old (var_view v.now)) result names.new }
{
    let cell = names.next();
    let length = declarator(alloc, names, v)?;
    declare(alloc, names, v, CellAt::Global(cell), length)?;
    let count = given_numbers(alloc, names, v, numbers)?;
    put(numbers, 0, length.unwrap_or(1).saturating_sub(count))?;
    Ok(())
}

/// Declares the globals of a declaration, and puts their numbers behind the others.
pub fn globals(
    alloc: Global,
    names: &mut Scopes,
    vars: &[Var],
    numbers: &mut Globals,
) -> Checked<()>
    ensures { Goes (λ _. numbers.new) (spec.globals_faults names.old (map var_view vars.now))
        (numbers.old ++ spec.all_numbers names.old (map var_view vars.now))
        (spec.declare_vars cell.Global names.old (map var_view vars.now)) result names.new }
{
    for v in vars {
        global(alloc, names, v, numbers)?;
    }
    Ok(())
}
