//! Lines of a block.

ghost use Rattle.std.specs.Prelude.{◌≡◌, [], slice_get, Some, OnOk, OnErr, MatchResult};
ghost use Rattle.flow_graph.specs.Ascending.{inserted, Ascends, HasPlace};

use std::alloc::{AllocError, Global};
use std::marker::Model;

/// Lines of a source, ascending and each once.
#[derive(Debug, Drop)]
pub struct Lines {
    items: Vec<u32>,
}

impl Model for Lines {
    ghost use Rattle.std.specs.Prelude.{List, ℕ};
    ghost use Rattle.flow_graph.specs.Ascending.{Ascends};

    ghost Value = { List ℕ };

    ghost view = { λ l. l.items.items };

    ghost invariant = { λ l. Ascends l.items.items };
}

impl Lines {
    /// No lines.
    pub fn new(alloc: Global) -> Lines
        ensures { result ≡ [] }
    {
        Lines {
            items: Vec::new(alloc),
        }
    }

    /// Puts a line into its place, unless it is there.
    pub fn add(&mut self, line: u32) -> Result<(), AllocError>
        ensures ok { OnOk result (self.new ≡ inserted line self.old) }
        ensures err { OnErr result (self.new ≡ self.old) }
    {
        match find(&self.items, line) {
            Ok(_) => Ok(()),
            Err(at) => {
                self.items.insert(at, line)?;
                Ok(())
            }
        }
    }

    /// The lines, without taking memory.
    pub fn into_vec(self) -> Vec<u32>
        ensures { result.items ≡ self }
    {
        self.items
    }
}

/// Where the line stands among ascending lines, or else where it has its place. The lines of a
/// block come nearly in their order, so it looks from the end.
fn find(lines: &[u32], line: u32) -> Result<usize, usize>
    requires { Ascends lines.now }
    ensures { MatchResult result (λ k. slice_get lines.now k ≡ Some line)
        (HasPlace lines.now line) }
{
    let mut at = lines.len();
    while at > 0 {
        let last = lines[at - 1];
        if last == line {
            return Ok(at - 1);
        }
        if last < line {
            return Err(at);
        }
        at -= 1;
    }
    Err(0)
}
