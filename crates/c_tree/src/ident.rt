//! Names.

ghost use Rattle.std.specs.Prelude.{◌≡◌, IfOk};
ghost use Rattle.std.specs.Bool.{Decides};
ghost use Rattle.std.specs.Str.{bytes_eq};
ghost use Rattle.std.specs.Cmp.{partial_equiv_from_equiv};
ghost use Rattle.std.specs.Cmp.Lexicographic.{nat_list_eq_equiv};
ghost use Rattle.std.specs.Hash as fed;
ghost use Rattle.std.proofs.lemmas.Slice.Eq.{bytes_eq-Decides};

use std::alloc::{AllocError, Global};
use std::hash::{Hash, Hasher};
use std::marker::Model;

/// A name, which contracts see as its bytes.
#[derive(Debug, Drop)]
pub struct Ident {
    text: Vec<u8>,
}

impl Model for Ident {
    ghost use Rattle.std.specs.Prelude.{List, ℕ};

    ghost Value = { List ℕ };

    ghost view = { λ i. i.text.items };
}

impl Ident {
    /// The name with these bytes.
    pub fn of(alloc: Global, bytes: &[u8]) -> Result<Ident, AllocError>
        ensures { IfOk result (λ i. i ≡ bytes.now) }
    {
        Ok(Ident {
            text: Vec::from_slice(alloc, bytes)?,
        })
    }

    /// Its bytes.
    pub fn bytes(&self) -> &[u8]
        ensures { result.now ≡ self.now }
    {
        &self.text
    }
}

/// Names are equal where their bytes are.
impl PartialEq for Ident {
    ghost eq = { bytes_eq };

    ghost laws = { partial_equiv_from_equiv nat_list_eq_equiv };

    fn eq(&self, other: &Ident) -> bool
        ensures value { result ≡ bytes_eq self.now other.now }
        ensures same { Decides result (self.now ≡ other.now) }
    {
        self.bytes() == other.bytes()
    }
}

impl Eq for Ident {
    ghost laws = { nat_list_eq_equiv };
}

impl Hash for Ident {
    ghost hash_input = { fed.slice fed.u8 };

    ghost respects_eq = { (fed.same_Alike (fed.slice fed.u8) bytes_eq-Decides).fed };

    fn hash<H: Hasher>(&self, state: &mut H) {
        self.bytes().hash(state);
    }
}
