//! Why a call gives no value.

ghost use Rattle.std.specs.Prelude.{◌≡◌};
ghost use Rattle.cov_base.specs.declared.refusal.Refusal.TheVariants as refusal;

use std::alloc::{AllocError, AllocFailed};

/// Why a call gives no value.
#[derive(Debug, Drop)]
pub enum Refusal<F> {
    /// What was passed has this fault.
    Refused(F),
    /// Memory ran out.
    NoMemory,
}

impl<F> From<AllocError> for Refusal<F> {
    ghost from_gives = { λ _ e. e ≡ refusal.NoMemory };

    fn from(_: AllocError) -> Self {
        Refusal::NoMemory
    }
}

impl<T: Drop, F> From<AllocFailed<T>> for Refusal<F> {
    ghost from_gives = { λ _ e. e ≡ refusal.NoMemory };

    fn from(_: AllocFailed<T>) -> Self {
        Refusal::NoMemory
    }
}
