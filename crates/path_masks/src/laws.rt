//! Laws of masks. They speak of definitions alone, so that no change of a body proves them again.

ghost use Rattle.path_masks.specs.Laws.{BitsTell, TestsDecide, WalkBegins, WalkGoesOn};
ghost use Rattle.path_masks.specs.Laws.{WalksAreSeen, PrimesAreFit};
ghost use Rattle.path_masks.specs.NetWalks.{RowsNameWords, PrimesAreFollowed, PrimesAreSeen};
ghost use Rattle.path_masks.specs.NetWalks.{PathsAreFollowed, PathsAreSeen, PrimesAreFollowable};

/// Along any walk the bits are exactly those of the paths under way, and the words seen gain
/// exactly the bits of the paths that the walk contains.
///
/// It does nothing: a caller gets its clauses.
pub fn masks()
    ensures bits { BitsTell }
    ensures tests { TestsDecide }
    ensures begins { WalkBegins }
    ensures goes { WalkGoesOn }
    ensures seen { WalksAreSeen }
    ensures primes { PrimesAreFit }
{}

/// What `list_primes` and `rows_of` give for a net belongs together: along any walk of the net the
/// bits are exactly those of its prime paths that are under way, and after any walks the words seen
/// are exactly the bits of its prime paths that some walk contains. Each entry of the rows names
/// one of the words, as `begin` and `pass` want it.
///
/// It does nothing: a caller gets its clauses.
pub fn primes()
    ensures words { RowsNameWords }
    ensures follow { PrimesAreFollowed }
    ensures seen { PrimesAreSeen }
{}

/// What `rows_of` gives for any simple paths of a net, prime or not, each of two or more blocks or
/// the net's first block alone: along any walk of the net the bits are exactly those of the paths
/// under way, and after any walks the words seen are exactly the bits of the paths that some walk
/// contains. Prime paths are such paths.
///
/// It does nothing: a caller gets its clauses.
pub fn simple_paths()
    ensures primes { PrimesAreFollowable }
    ensures follow { PathsAreFollowed }
    ensures seen { PathsAreSeen }
{}
