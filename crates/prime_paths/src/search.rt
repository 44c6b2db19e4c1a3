//! The search for prime paths: simple paths grow block by block from each start.

ghost use Rattle.std.specs.Prelude.{◌≡◌, ◌+◌, ◌<◌, ◌≤◌, ◌++◌, ◌∷◌, [], true, OnOk};
ghost use Rattle.prime_paths.specs.Paths.{is_inner, is_simple_path, leads};
ghost use Rattle.prime_paths.specs.Lister.{grow, grown_by, is_prime, simple_paths};
ghost use Rattle.prime_paths.specs.Trail.{last_of};
ghost use Rattle.prime_paths.specs.Search as spec;

use crate::found::{Found, Stop};
use crate::trail::Trail;
use crate::ways::Ways;
use std::alloc::Global;
use std::sync::ledger::Ledger;
use word_rules::Steps;

/// Whether no block lengthens the path.
fn is_whole(ways: &Ways<'_>, trail: &Trail) -> bool
    requires simple { is_simple_path ways.now trail.now.blocks ≡ true }
    requires room { trail.now.room ≡ ways.now.blocks }
    ensures { result ≡ is_prime ways.now trail.now.blocks }
{
    let first = trail.first();
    let last = trail.last();
    if trail.any_open(first, ways.next(last)) {
        return false;
    }
    !trail.any_open(last, ways.prior(first))
}

/// The path is found if it is prime.
fn note(ways: &Ways<'_>, trail: &Trail, found: &mut Found) -> Result<(), Stop>
    requires simple { is_simple_path ways.now trail.now.blocks ≡ true }
    requires room { trail.now.room ≡ ways.now.blocks }
    ensures found { spec.Comes (spec.noted ways.now trail.now.blocks found.old) found.new result }
    ensures left { found.new.left ≡ found.old.left }
{
    if is_whole(ways, trail) {
        return found.add(trail.blocks(), &[]);
    }
    Ok(())
}

/// The path comes back to its first block.
fn close<L: Ledger>(
    trail: &Trail,
    first: u32,
    found: &mut Found,
    steps: &mut Steps<L>,
) -> Result<(), Stop>
    ensures found { spec.Comes
        (spec.followed (spec.charged found.old) (spec.added (trail.now.blocks ++ first ∷ [])))
        found.new result }
    ensures steps { steps.new + found.new.left ≡ steps.old + found.old.left }
{
    found.extend(steps)?;
    found.add(trail.blocks(), &[first])
}

/// Finds the prime paths that begin with the path, which are at most so many blocks longer.
#[cycle(grow)]
fn grow_from<L: Ledger>(
    ways: &Ways<'_>,
    fuel: u32,
    trail: &mut Trail,
    found: &mut Found,
    steps: &mut Steps<L>,
) -> Result<(), Stop>
    requires simple { is_simple_path ways.now trail.old.blocks ≡ true }
    requires room { trail.old.room ≡ ways.now.blocks }
    ensures blocks { OnOk result (trail.new.blocks ≡ trail.old.blocks) }
    ensures room { OnOk result (trail.new.room ≡ trail.old.room) }
    ensures found { spec.Comes (spec.from_path ways.now fuel trail.old.blocks found.old)
        found.new result }
    ensures steps { steps.new + found.new.left ≡ steps.old + found.old.left }
{
    note(ways, trail, found)?;
    if fuel == 0 {
        return Ok(());
    }
    let row = ways.next(trail.last());
    for block in row {
        grow_by(ways, fuel - 1, trail, *block, found, steps)?;
    }
    Ok(())
}

/// Finds the prime paths that begin with the path and the block, to which an arc leads from its
/// last.
#[cycle(grow)]
#[tactic(auto, using(crate::proofs::Growing::longer_simple))]
fn grow_by<L: Ledger>(
    ways: &Ways<'_>,
    fuel: u32,
    trail: &mut Trail,
    block: u32,
    found: &mut Found,
    steps: &mut Steps<L>,
) -> Result<(), Stop>
    requires simple { is_simple_path ways.now trail.old.blocks ≡ true }
    requires room { trail.old.room ≡ ways.now.blocks }
    requires way { leads ways.now (last_of trail.old.blocks) block ≡ true }
    requires inner { is_inner ways.now block ≡ true }
    ensures blocks { OnOk result (trail.new.blocks ≡ trail.old.blocks) }
    ensures room { OnOk result (trail.new.room ≡ trail.old.room) }
    ensures found { spec.Comes
        (spec.visits ways.now (grown_by ways.now fuel trail.old.blocks block) found.old)
        found.new result }
    ensures steps { steps.new + found.new.left ≡ steps.old + found.old.left }
{
    if block == trail.first() {
        return close(trail, block, found, steps);
    }
    if trail.holds(block) {
        return Ok(());
    }
    found.extend(steps)?;
    trail.push(block)?;
    let grown = grow_from(ways, fuel, trail, found, steps);
    trail.pop();
    grown
}

/// Finds the prime paths that begin with the block.
fn start<L: Ledger>(
    ways: &Ways<'_>,
    trail: &mut Trail,
    block: u32,
    found: &mut Found,
    steps: &mut Steps<L>,
) -> Result<(), Stop>
    requires low { 2 ≤ block }
    requires high { block < ways.now.blocks }
    requires blocks { trail.old.blocks ≡ [] }
    requires room { trail.old.room ≡ ways.now.blocks }
    ensures blocks { OnOk result (trail.new.blocks ≡ []) }
    ensures room { OnOk result (trail.new.room ≡ trail.old.room) }
    ensures found { spec.Comes
        (spec.visits ways.now (grow ways.now ways.now.blocks (block ∷ [])) found.old)
        found.new result }
    ensures steps { steps.new + found.new.left ≡ steps.old + found.old.left }
{
    trail.push(block)?;
    let grown = grow_from(ways, ways.blocks(), trail, found, steps);
    trail.pop();
    grown
}

/// Finds all prime paths of the net.
pub fn search<L: Ledger>(
    alloc: Global,
    ways: &Ways<'_>,
    found: &mut Found,
    steps: &mut Steps<L>,
) -> Result<(), Stop>
    ensures found { spec.Comes (spec.visits ways.now (simple_paths ways.now) found.old)
        found.new result }
    ensures steps { steps.new + found.new.left ≡ steps.old + found.old.left }
{
    let mut trail = Trail::new(alloc, ways.blocks())?;
    for block in 2..ways.blocks() {
        start(ways, &mut trail, block, found, steps)?;
    }
    Ok(())
}
