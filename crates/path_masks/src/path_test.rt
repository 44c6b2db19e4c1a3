//! Tests of a path that the rows of masks call for.

ghost use Rattle.std.specs.Prelude.{◌≡◌, ◌&&◌, ◌==◌};
ghost use Rattle.prime_paths.specs.Paths.{among};
ghost use Rattle.path_masks.specs.UnderWay as spec;
ghost use Rattle.path_masks.specs.Masks as masks;
ghost use Rattle.path_masks.specs.PathTests as tests;

/// A test of a path.
#[derive(Clone, Copy)]
pub enum PathTest {
    /// It begins at the block.
    BeginsAt(u32),
    /// It is the block alone.
    IsJust(u32),
    /// It goes from the one block to the other.
    HasMove(u32, u32),
    /// Its last move goes from the one block to the other.
    EndsByMove(u32, u32),
    /// It holds the first block, or begins at the second.
    Touches(u32, u32),
}

impl PathTest {
    /// Whether the path passes the test.
    pub fn passes(self, path: &[u32]) -> bool
        ensures { result ≡ tests.passes self path.now }
    {
        match self {
            PathTest::BeginsAt(block) => begins_at(path, block),
            PathTest::IsJust(block) => is_just(path, block),
            PathTest::HasMove(from, to) => has_move(path, from, to),
            PathTest::EndsByMove(from, to) => ends_by_move(path, from, to),
            PathTest::Touches(held, first) => touches(path, held, first),
        }
    }
}

fn begins_at(path: &[u32], block: u32) -> bool
    ensures { result ≡ spec.begins_at block path.now }
{
    match path.split_first() {
        Some((first, _)) => *first == block,
        None => false,
    }
}

#[tactic(auto, using(crate::proofs::TestLaws::just_one, crate::proofs::TestLaws::just_other))]
fn is_just(path: &[u32], block: u32) -> bool
    ensures { result ≡ spec.is_just block path.now }
{
    if path.len() != 1 {
        return false;
    }
    path[0] == block
}

fn has_move(path: &[u32], from: u32, to: u32) -> bool
    ensures { result ≡ spec.has_move from to path.now }
{
    let mut at = 1;
    while at < path.len() {
        if is_move(path[at - 1], path[at], from, to) {
            return true;
        }
        at += 1;
    }
    false
}

fn is_move(before: u32, after: u32, from: u32, to: u32) -> bool
    ensures { result ≡ ((before == from) && (after == to)) }
{
    before == from && after == to
}

fn ends_by_move(path: &[u32], from: u32, to: u32) -> bool
    ensures { result ≡ spec.ends_by_move from to path.now }
{
    if path.len() < 2 {
        return false;
    }
    is_move(path[path.len() - 2], path[path.len() - 1], from, to)
}

fn touches(path: &[u32], held: u32, first: u32) -> bool
    ensures { result ≡ masks.touches held first path.now }
{
    holds(path, held) || begins_at(path, first)
}

fn holds(path: &[u32], block: u32) -> bool
    ensures { result ≡ among block path.now }
{
    path.iter().any(|held| block == *held)
}
