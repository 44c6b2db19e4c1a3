//! A whole source: its functions and globals.

ghost use Rattle.std.specs.Prelude.{◌≡◌, ℤ, List, Some, false, cond, [], ◌∷◌, ◌++◌, length, map, unwrap_or, position, bytes_eq, codes, IfOk, OnOk};
ghost use Rattle.std.specs.List.{list_any};
ghost use Rattle.c_tree.specs.Formed.{IsTree};
ghost use Rattle.c_tree.specs.Sound.{Sound};
ghost use Rattle.c_tree.specs.Tree.{Outer as plain};
ghost use Rattle.c_tree.specs.Typed.{TypedFunction as PlainFunction};
ghost use Rattle.c_tree.specs.TreeView.{param_view, stmt_view, stmts_of, head_view, outer_view, tree_view};
ghost use Rattle.c_tree.specs.TypedView.{function_view, typed_view};
ghost use Rattle.c_typing.specs.declared.fault.TypeFault.TheVariants as fault;
ghost use Rattle.c_typing.specs.declared.names.Meaning.TheVariants as meant;
ghost use Rattle.c_typing.specs.Names.{is_declared, declare};
ghost use Rattle.c_typing.specs.TypedForms.{number_type as type_of};
ghost use Rattle.c_typing.specs.Sources as spec;
ghost use Rattle.c_values.specs.Checks.{Checks, Passes, Goes, Moves};
ghost use Rattle.c_types.specs.SourceChecks.{functions_of, numbers_of};

use crate::declarations::globals;
use crate::functions::Functions;
use crate::heads::{agreeing, declare_head, defining, enter, no_params};
use crate::statements::{outermost, stmts};
use c_tree::{Base, Callee, Globals, Head, Ident, Outer, Param, Stmt, Tree, Typed, TypedFunction};
use c_typing::{Meaning, TypeFault};
use c_values::expr::Checked;
use c_values::forms::{INT, number_type, same_base};
use c_values::scopes::Scopes;
use cov_base::Refusal;
use int_ops::IntType;
use sqlite_items::Items;
use std::alloc::{AllocError, Global};

/// Declares a function that stands before the text.
fn declare_built_in(
    alloc: Global,
    names: &mut Scopes,
    name: &[u8],
    callee: Callee,
    result_base: Base,
    params: &[Base],
) -> Result<(), AllocError>
    requires { is_declared names.old.scopes name.now ≡ false }
    ensures { OnOk result (names.new ≡ record {
      scopes = declare name.now (meant.Function (Some callee) result_base params.now)
          names.old.scopes;
      next = names.old.next;
    }) }
{
    let name = Ident::of(alloc, name)?;
    let params = Items::from_slice(alloc, params)?;
    names.declare(name, Meaning::Function(Some(callee), result_base, params))
}

/// Where a source begins: the scope of the file, with the functions that stand before the text.
fn before_the_text(alloc: Global) -> Result<Scopes, AllocError>
    ensures { IfOk result (λ names. names ≡ spec.at_the_start.here) }
{
    let mut names = Scopes::new(alloc);
    declare_built_in(alloc, &mut names, b"getchar", Callee::GetChar, INT, &[])?;
    declare_built_in(alloc, &mut names, b"putchar", Callee::PutChar, INT, &[INT])?;
    declare_built_in(alloc, &mut names, b"exit", Callee::Exit, Base::Void, &[INT])?;
    Ok(names)
}

/// A prototype.
fn prototype(
    alloc: Global,
    names: &mut Scopes,
    functions: &Functions<'_>,
    head: &Head,
) -> Checked<()>
    ensures { Moves
        (spec.outer_faults functions.now (record { here = names.old; made = 0 })
        (plain.Prototype (head_view head.now)))
        (spec.declare_head functions.now names.old (head_view head.now)) result names.new }
{
    declare_head(alloc, names, functions, head)?;
    agreeing(names, head)?;
    let next = names.next();
    enter(alloc, names, head)?;
    names.leave(next);
    Ok(())
}

/// The types of parameters, where none is void.
fn param_types(alloc: Global, params: &[Param]) -> Result<Items<IntType>, AllocError>
    ensures { IfOk result (λ types. types
        ≡ map type_of (map (λ p. p.base) (map param_view params.now))) }
{
    let mut types = Items::new(alloc);
    for p in params {
        types.push(number_type(p.base))?;
    }
    Ok(types)
}

/// The typed form of a function, which is defined behind so many others.
fn function(
    alloc: Global,
    names: &mut Scopes,
    functions: &Functions<'_>,
    made: usize,
    head: &Head,
    body: &[Stmt],
) -> Checked<TypedFunction>
    ensures { Goes function_view
        (spec.outer_faults functions.now (record { here = names.old; made = made })
        (plain.Function (head_view head.now) (stmts_of (map stmt_view body.now))))
        (spec.typed_function (spec.declare_head functions.now names.old (head_view head.now))
        (head_view head.now)
        (stmts_of (map stmt_view body.now)))
        (spec.declare_head functions.now names.old (head_view head.now)) result names.new }
{
    declare_head(alloc, names, functions, head)?;
    defining(names, head, made)?;
    let next = names.next();
    enter(alloc, names, head)?;
    let body = stmts(alloc, names, outermost(head.base), body)?;
    let cells = names.next();
    names.leave(next);
    let name = Ident::of(alloc, head.name.bytes())?;
    let params = param_types(alloc, head.params.as_slice())?;
    Ok(TypedFunction {
        name,
        line: head.line,
        result: head.base,
        params,
        cells,
        body,
    })
}

/// A part of a source, behind these functions and globals.
fn part(
    alloc: Global,
    names: &mut Scopes,
    functions: &Functions<'_>,
    made: &mut Items<TypedFunction>,
    numbers: &mut Globals,
    outer: &Outer,
) -> Checked<()>
    ensures moves { Moves
        (spec.outer_faults functions.now (record { here = names.old; made = length made.old })
        (outer_view outer.now))
        (spec.after_outer functions.now (record { here = names.old; made = length made.old })
        (outer_view outer.now)).here
        result names.new }
    ensures made { OnOk result (map function_view made.new ≡ map function_view made.old
        ++ functions_of functions.now (record { here = names.old; made = length made.old })
        (outer_view outer.now)) }
    ensures numbers { OnOk result (numbers.new ≡ numbers.old
        ++ numbers_of (record { here = names.old; made = length made.old })
        (outer_view outer.now)) }
    ensures count { OnOk result (length made.new
        ≡ (spec.after_outer functions.now (record { here = names.old; made = length made.old })
        (outer_view outer.now)).made) }
{
    match outer {
        Outer::Vars(vars) => globals(alloc, names, vars.as_slice(), numbers),
        Outer::Prototype(head) => prototype(alloc, names, functions, head),
        Outer::Function(head, body) => {
            let f = function(alloc, names, functions, made.len(), head, body.as_slice())?;
            made.push(f)?;
            Ok(())
        }
    }
}

/// All parts of a source.
fn parts(
    alloc: Global,
    names: &mut Scopes,
    functions: &Functions<'_>,
    numbers: &mut Globals,
    outers: &[Outer],
) -> Checked<Items<TypedFunction>>
    ensures { Checks {V = List PlainFunction × List ℤ}
        (λ made. (map function_view made, numbers.new))
        (spec.outers_faults functions.now (record { here = names.old; made = 0 })
        (map outer_view outers.now)) (
          spec.typed_functions functions.now (record { here = names.old; made = 0 })
              (map outer_view outers.now),
          numbers.old
              ++ spec.global_numbers functions.now (record { here = names.old; made = 0 })
              (map outer_view outers.now),
        )
        result }
{
    let mut made = Items::new(alloc);
    for outer in outers {
        part(alloc, names, functions, &mut made, numbers, outer)?;
    }
    Ok(made)
}

/// Whether the part is a definition `int main(void)`.
fn is_main(outer: &Outer) -> bool
    ensures { result ≡ spec.is_main (outer_view outer.now) }
{
    match outer {
        Outer::Function(head, _) => {
            head.name.bytes() == b"main".as_slice()
                && same_base(head.base, INT)
                && no_params(head.params.as_slice())
        }
        Outer::Vars(_) | Outer::Prototype(_) => false,
    }
}

/// Whether one of the parts is.
fn any_main(outers: &[Outer]) -> bool
    ensures { result ≡ list_any (λ o. spec.is_main (outer_view o)) outers.now }
{
    outers.iter().any(|o| is_main(o))
}

/// Whether a source with these parts defines `int main(void)`.
fn defines_main(outers: &[Outer]) -> bool
    ensures { result ≡ list_any spec.is_main (map outer_view outers.now) }
{
    any_main(outers)
}

/// A source with these parts, whose last token ends there, defines `int main(void)`.
fn has_main(outers: &[Outer], end: u32) -> Checked<()>
    ensures { Passes (cond (list_any spec.is_main (map outer_view outers.now)) []
        (fault.NoMain end ∷ [])) result }
{
    if defines_main(outers) {
        return Ok(());
    }
    Err(Refusal::Refused(TypeFault::NoMain(end)))
}

/// The number of `main`, or 0 where there is none.
fn main_number(alloc: Global, functions: &Functions<'_>) -> Result<u32, AllocError>
    ensures { IfOk result (λ n. n ≡ unwrap_or (position (bytes_eq (codes "main")) functions.now) 0) }
{
    let main = Ident::of(alloc, b"main")?;
    match functions.number(&main) {
        Some(number) => Ok(number),
        None => Ok(0),
    }
}

/// The typed form of a source, or a fault.
#[tactic(auto, using(c_values::proofs::CheckLaws::in_left, c_values::proofs::CheckLaws::in_right))]
fn typed_form(alloc: Global, tree: &Tree) -> Checked<Typed>
    ensures { Checks typed_view (spec.type_faults (tree_view tree.now))
        (spec.typed_of (tree_view tree.now)) result }
{
    let outers = tree.outers.as_slice();
    let functions = Functions::of(alloc, outers)?;
    let mut names = before_the_text(alloc)?;
    let mut globals = Globals::new(alloc);
    let made = parts(alloc, &mut names, &functions, &mut globals, outers)?;
    has_main(outers, tree.end)?;
    let main = main_number(alloc, &functions)?;
    Ok(Typed {
        functions: made,
        globals,
        main,
    })
}

/// The typed form of a source. `Ok` exactly where no fault of names and types stands in it, but for
/// want of memory; a refusal names a fault that stands, with its place.
pub fn check(alloc: Global, tree: &Tree) -> Result<Typed, Refusal<TypeFault>>
    ensures exact { Checks typed_view (spec.type_faults (tree_view tree.now))
        (spec.typed_of (tree_view tree.now)) result }
    ensures sound { IfOk result (λ typed. IsTree (tree_view tree.now) → Sound (typed_view typed)) }
{
    typed_form(alloc, tree)
}
