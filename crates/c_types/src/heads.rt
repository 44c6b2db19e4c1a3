//! Heads of functions: what they declare, and the faults in them.

ghost use Rattle.std.specs.Prelude.{◌≡◌, ◌≤◌, ◌&&◌, [], length, map, IfOk, OnOk};
ghost use Rattle.c_tree.specs.TreeView.{param_view, head_view};
ghost use Rattle.c_typing.specs.Names.{meaning};
ghost use Rattle.c_typing.specs.Sources as spec;
ghost use Rattle.c_values.specs.Checks.{Passes, Moves};

use crate::declarations::{not_void, undeclared};
use crate::functions::Functions;
use c_tree::{Base, Callee, CellAt, Head, Ident, Param};
use c_typing::{Meaning, TypeFault};
use c_values::expr::Checked;
use c_values::forms::{number_type, same_base};
use c_values::scopes::Scopes;
use cov_base::{PARAMETER_LIMIT, Refusal};
use sqlite_items::Items;
use std::alloc::{AllocError, Global};

/// The types of parameters.
fn param_bases(alloc: Global, params: &[Param]) -> Result<Items<Base>, AllocError>
    ensures { IfOk result (λ bases. bases ≡ map (λ p. p.base) (map param_view params.now)) }
{
    let mut bases = Items::new(alloc);
    for p in params {
        bases.push(p.base)?;
    }
    Ok(bases)
}

/// Declares what a head declares. The first declaration of a name stands.
pub fn declare_head(
    alloc: Global,
    names: &mut Scopes,
    functions: &Functions<'_>,
    head: &Head,
) -> Result<(), AllocError>
    ensures { OnOk result
        (names.new ≡ spec.declare_head functions.now names.old (head_view head.now)) }
{
    if names.is_declared(&head.name) {
        return Ok(());
    }
    let params = param_bases(alloc, head.params.as_slice())?;
    let callee = functions.callee(&head.name);
    let name = Ident::of(alloc, head.name.bytes())?;
    names.declare(name, Meaning::Function(callee, head.base, params))
}

/// Parameters have these types.
fn same_bases(bases: &[Base], params: &[Param]) -> bool
    ensures { result ≡ spec.same_bases bases.now (map (λ p. p.base) (map param_view params.now)) }
{
    if bases.len() != params.len() {
        return false;
    }
    for (at, p) in params.iter().enumerate() {
        if !same_base(bases[at], p.base) {
            return false;
        }
    }
    true
}

/// What the name of a head means agrees with the head.
pub fn agrees(names: &Scopes, head: &Head) -> bool
    ensures { result ≡ spec.agrees (meaning names.now.scopes head.now.name) (head_view head.now) }
{
    match names.meaning(&head.name) {
        Some(Meaning::Function(_, result, params)) => {
            same_base(*result, head.base) && same_bases(params.as_slice(), head.params.as_slice())
        }
        Some(Meaning::Variable(..)) | None => false,
    }
}

/// The name means the function that is defined behind so many.
pub fn is_own(names: &Scopes, name: &Ident, made: usize) -> bool
    ensures { result ≡ spec.is_own (meaning names.now.scopes name.now) made }
{
    match names.meaning(name) {
        Some(Meaning::Function(Some(Callee::Function(number)), _, _)) => *number as usize == made,
        Some(
            Meaning::Function(Some(Callee::GetChar | Callee::PutChar | Callee::Exit) | None, _, _)
            | Meaning::Variable(..),
        )
        | None => false,
    }
}

/// A head agrees with what its name means.
pub fn agreeing(names: &Scopes, head: &Head) -> Checked<()>
    ensures { Passes (spec.unless_fine
        (spec.agrees (meaning names.now.scopes head.now.name) (head_view head.now))
        head.now.place) result }
{
    if agrees(names, head) {
        return Ok(());
    }
    Err(Refusal::Refused(TypeFault::Redeclared(head.place)))
}

/// The head of a definition behind so many agrees with what its name means, and is its own.
pub fn defining(names: &Scopes, head: &Head, made: usize) -> Checked<()>
    ensures { Passes
        (spec.unless_fine (spec.agrees (meaning names.now.scopes head.now.name) (head_view head.now)
        && spec.is_own (meaning names.now.scopes head.now.name) made) head.now.place) result }
{
    if agrees(names, head) && is_own(names, &head.name, made) {
        return Ok(());
    }
    Err(Refusal::Refused(TypeFault::Redeclared(head.place)))
}

/// There are no parameters.
pub fn no_params(params: &[Param]) -> bool
    ensures { result ≡ spec.same_bases (map (λ p. p.base) (map param_view params.now)) [] }
{
    same_bases(&[], params)
}

/// No parameter is void.
fn not_void_params(params: &[Param]) -> Checked<()>
    ensures { Passes (spec.void_params (map param_view params.now)) result }
{
    for p in params {
        not_void(p.base, p.place)?;
    }
    Ok(())
}

/// Declares a parameter in the next cell.
#[tactic(auto, using(crate::proofs::HeadLaws::new_param))]
fn parameter(alloc: Global, names: &mut Scopes, p: &Param) -> Checked<()>
    ensures { Moves (spec.param_faults names.old p.now.name p.now.place)
        (spec.declare_param names.old p.now.name p.now.base) result names.new }
{
    if let Some(name) = &p.name {
        undeclared(names, name, p.place)?;
        let at = CellAt::Local(names.next());
        let name = Ident::of(alloc, name.bytes())?;
        names.declare(name, Meaning::Variable(at, None, number_type(p.base)))?;
    }
    names.take(1)?;
    Ok(())
}

/// Declares parameters.
fn parameters(alloc: Global, names: &mut Scopes, params: &[Param]) -> Checked<()>
    ensures { Moves (spec.params_faults names.old (map param_view params.now))
        (spec.declare_params names.old (map param_view params.now)) result names.new }
{
    for p in params {
        parameter(alloc, names, p)?;
    }
    Ok(())
}

/// Opens the scope of a function and declares its parameters.
#[tactic(auto, using(c_values::proofs::CheckLaws::in_left, c_values::proofs::CheckLaws::in_right))]
pub fn enter(alloc: Global, names: &mut Scopes, head: &Head) -> Checked<()>
    ensures moves { Moves (spec.own_faults names.old (head_view head.now))
        (spec.body_start names.old (head_view head.now)) result names.new }
    ensures within { OnOk result (2 ≤ length names.new.scopes) }
{
    if head.params.len() > PARAMETER_LIMIT {
        return Err(Refusal::Refused(TypeFault::TooManyParameters(head.place)));
    }
    not_void_params(head.params.as_slice())?;
    names.enter()?;
    parameters(alloc, names, head.params.as_slice())?;
    Ok(())
}
