//! Laws of prime paths. They speak of definitions alone, so that no change of a body proves them
//! again.

ghost use Rattle.prime_paths.specs.Laws.{HasOneList, EachIsPartOfAPrime, NoneIsLong, SimpleAreFew};

/// A net has one list of its prime paths; each simple path is a part of one of them, and so there
/// are not many more simple paths than prime ones.
///
/// It does nothing: a caller gets its clauses.
pub fn primes()
    ensures one { HasOneList }
    ensures part { EachIsPartOfAPrime }
    ensures long { NoneIsLong }
    ensures few { SimpleAreFew }
{}
