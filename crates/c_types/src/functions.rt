//! The functions that a source defines, by their names.

ghost use Rattle.std.specs.Prelude.{◌≡◌, [], ◌∷◌, ◌++◌, length, map, position, bytes_eq, IfOk, OnOk};
ghost use Rattle.c_tree.specs.TreeView.{outer_view};
ghost use Rattle.c_typing.specs.Sources as spec;
ghost use Rattle.c_types.specs.Functions.{AreNumbers};

use c_tree::{Callee, Ident, Outer};
use indexmap::IndexMap;
use std::alloc::{AllocError, Global};
use std::marker::Model;

/// The number of the first function of each name.
type Numbers = IndexMap<Ident, u32>;

/// The functions that a source defines, each with its number.
#[derive(Drop)]
pub struct Functions<'a> {
    outers: &'a [Outer],
    numbers: Numbers,
}

impl<'a> Model for Functions<'a> {
    ghost use Rattle.std.specs.Prelude.{ℕ, List, map};
    ghost use Rattle.c_tree.specs.TreeView.{outer_view};
    ghost use Rattle.c_typing.specs.Sources.{defined};
    ghost use Rattle.c_types.specs.Functions.{AreNumbers};

    ghost Value = { List (List ℕ) };

    ghost view = { λ f. defined (map outer_view f.outers.now) };

    ghost invariant = { λ f. AreNumbers (defined (map outer_view f.outers.now)) f.numbers.entries };
}

/// One more function is defined, which has this number.
fn add(alloc: Global, numbers: &mut Numbers, name: &Ident, number: u32) -> Result<(), AllocError>
    ensures { OnOk result
        ((names : _) → length names ≡ number → AreNumbers names numbers.old.entries
        → AreNumbers (names ++ name.now ∷ []) numbers.new.entries) }
{
    if numbers.contains_key(name) {
        return Ok(());
    }
    let name = Ident::of(alloc, name.bytes())?;
    numbers.insert(name, number)?;
    Ok(())
}

/// The functions of one more part of a source, which stands behind so many; how many are before the
/// next.
fn add_part(
    alloc: Global,
    numbers: &mut Numbers,
    outer: &Outer,
    count: u32,
) -> Result<u32, AllocError>
    ensures { IfOk result
        (λ more. (names : _) → length names ≡ count → AreNumbers names numbers.old.entries
        → AreNumbers (names ++ spec.defined (outer_view outer.now ∷ [])) numbers.new.entries
        × (length (names ++ spec.defined (outer_view outer.now ∷ [])) ≡ more)) }
{
    match outer {
        Outer::Function(head, _) => {
            add(alloc, numbers, &head.name, count)?;
            Ok(count.checked_add(1).ok_or(AllocError)?)
        }
        Outer::Vars(_) | Outer::Prototype(_) => Ok(count),
    }
}

/// The numbers of the functions that a source defines. No source defines 2^32.
fn numbers_of(alloc: Global, outers: &[Outer]) -> Result<Numbers, AllocError>
    ensures { IfOk result (λ n. AreNumbers (spec.defined (map outer_view outers.now)) n.entries) }
{
    let mut numbers = IndexMap::new(alloc);
    let mut count: u32 = 0;
    for outer in outers {
        count = add_part(alloc, &mut numbers, outer, count)?;
    }
    Ok(numbers)
}

impl<'a> Functions<'a> {
    /// Those of a source with these parts.
    pub fn of(alloc: Global, outers: &'a [Outer]) -> Result<Functions<'a>, AllocError>
        ensures { IfOk result (λ f. f ≡ spec.defined (map outer_view outers.now)) }
    {
        let numbers = numbers_of(alloc, outers)?;
        Ok(Functions { outers, numbers })
    }

    /// The number of the first function of a name.
    pub fn number(&self, name: &Ident) -> Option<u32>
        ensures { result ≡ position (bytes_eq name.now) self.now }
    {
        match self.numbers.get(name) {
            Some(number) => Some(*number),
            None => None,
        }
    }

    /// What a call of a name calls.
    pub fn callee(&self, name: &Ident) -> Option<Callee>
        ensures { result ≡ spec.callee_of self.now name.now }
    {
        match self.number(name) {
            Some(number) => Some(Callee::Function(number)),
            None => None,
        }
    }
}
