//! What the names of a source mean where the check stands.

ghost use Rattle.std.specs.Prelude.{◌≡◌, ◌+◌, ◌≤◌, false, [], ◌∷◌, map, reverse, drop, length, OnOk};
ghost use Rattle.std.specs.Option.{option_copied};
ghost use Rattle.c_typing.specs.Names as spec;
ghost use Rattle.c_typing.specs.Sources.{in_function};

use c_tree::Ident;
use c_typing::Meaning;
use indexmap::IndexMap;
use std::alloc::{AllocError, Global};
use std::marker::Model;
use std::mem;

/// The names of one scope in the order of their declarations, each with what it means.
type Names = IndexMap<Ident, Meaning>;

/// The scopes at a point of the text, from the file's in, and the number of the next cell.
#[derive(Drop)]
pub struct Scopes {
    alloc: Global,
    outer: Vec<Names>,
    inner: Names,
    next: u64,
}

impl Model for Scopes {
    ghost use Rattle.std.specs.Prelude.{◌∷◌, map, reverse};
    ghost use Rattle.c_typing.specs.Names.{Here};

    ghost Value = { Here };

    ghost view = { λ s. record {
      scopes = s.inner.entries ∷ map (λ m. m.entries)
          (reverse s.outer.items);
      next = s.next;
    } };
}

/// What a name means in these scopes, of which the last is the innermost.
fn meaning_in<'a>(scopes: &'a [Names], name: &Ident) -> Option<&'a Meaning>
    ensures { option_copied result ≡ spec.meaning (map (λ m. m.entries) (reverse scopes.now))
        name.now }
{
    let (last, rest) = scopes.split_last()?;
    match last.get(name) {
        Some(found) => Some(found),
        None => meaning_in(rest, name),
    }
}

impl Scopes {
    /// One scope without names.
    pub fn new(alloc: Global) -> Scopes
        ensures { result ≡ record { scopes = [] ∷ []; next = 0 } }
    {
        Scopes {
            alloc,
            outer: Vec::new(alloc),
            inner: IndexMap::new(alloc),
            next: 0,
        }
    }

    /// The number of the next cell.
    pub fn next(&self) -> u64
        ensures { result ≡ self.now.next }
    {
        self.next
    }

    /// What a name means here.
    pub fn meaning(&self, name: &Ident) -> Option<&Meaning>
        ensures { option_copied result ≡ spec.meaning self.now.scopes name.now }
    {
        match self.inner.get(name) {
            Some(found) => Some(found),
            None => meaning_in(&self.outer, name),
        }
    }

    /// Whether the innermost scope declares the name.
    pub fn is_declared(&self, name: &Ident) -> bool
        ensures { result ≡ spec.is_declared self.now.scopes name.now }
    {
        self.inner.contains_key(name)
    }

    /// Opens a scope.
    pub fn open(&mut self) -> Result<(), AllocError>
        ensures opened { OnOk result (self.new ≡ spec.inner self.old) }
        ensures within { OnOk result (2 ≤ length self.new.scopes) }
    {
        let inner = mem::replace(&mut self.inner, IndexMap::new(self.alloc));
        self.outer.push(inner)?;
        Ok(())
    }

    /// Closes the innermost scope. Its cells stay taken.
    pub fn close(&mut self)
        requires { 2 ≤ length self.old.scopes }
        ensures { self.new ≡ record { scopes = drop 1 self.old.scopes; next = self.old.next } }
    {
        if let Some(outer) = self.outer.pop() {
            self.inner = outer;
        }
    }

    /// Opens the scope of a function, whose cells are numbered from 0.
    pub fn enter(&mut self) -> Result<(), AllocError>
        ensures entered { OnOk result (self.new ≡ in_function self.old) }
        ensures within { OnOk result (2 ≤ length self.new.scopes) }
    {
        self.open()?;
        self.next = 0;
        Ok(())
    }

    /// Closes the scope of a function. The next cell is again that of the file.
    pub fn leave(&mut self, next: u64)
        requires { 2 ≤ length self.old.scopes }
        ensures { self.new ≡ record { scopes = drop 1 self.old.scopes; next = next } }
    {
        self.close();
        self.next = next;
    }

    /// Declares a name that the innermost scope doesn't declare yet.
    pub fn declare(&mut self, name: Ident, meaning: Meaning) -> Result<(), AllocError>
        requires { spec.is_declared self.old.scopes name ≡ false }
        ensures { OnOk result (self.new ≡ record {
          scopes = spec.declare name meaning
              self.old.scopes;
          next = self.old.next;
        }) }
    {
        self.inner.insert(name, meaning)?;
        Ok(())
    }

    /// Takes so many cells.
    pub fn take(&mut self, cells: u64) -> Result<(), AllocError>
        ensures { OnOk result (self.new ≡ record {
          scopes = self.old.scopes;
          next = self.old.next +
              cells;
        }) }
    {
        self.next = self.next.checked_add(cells).ok_or(AllocError)?;
        Ok(())
    }
}
