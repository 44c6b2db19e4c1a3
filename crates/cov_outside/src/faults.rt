// Why a call of the outside fails.
ghost use Rattle.std.specs.Prelude.{◌≡◌};

use std::alloc::{AllocError, AllocFailed};

/// Why a call of the file system wasn't done.
#[derive(Clone, Copy)]
pub(crate) enum CallFault {
    /// The system told an error.
    Failed,
    /// The call was interrupted, and may be tried again.
    Interrupted,
    /// The system had no memory for it.
    NoMemory,
}

/// A read failed.
#[derive(Clone, Copy, Debug, PartialEq, Eq)]
pub struct Failed;

/// Why bytes were not written.
#[derive(Clone, Copy, Debug, PartialEq, Eq)]
pub enum SinkFault {
    Failed,
    NoMemory,
}

/// Why a file was not loaded.
#[derive(Clone, Copy, Debug, PartialEq, Eq)]
pub enum LoadFault {
    Failed,
    TooLong,
    NoMemory,
}

/// Why bytes weren't read to the end.
#[derive(Clone, Copy, Debug, PartialEq, Eq)]
pub enum ReadRefusal {
    /// A read failed.
    Failed,
    /// There are more than the limit.
    TooLong,
    /// Memory ran out.
    NoMemory,
}

impl From<Failed> for ReadRefusal {
    ghost use Rattle.cov_outside.specs.declared.faults.ReadRefusal.TheVariants as refusal;

    ghost from_gives = { λ _ refused. refused ≡ refusal.Failed };

    fn from(_: Failed) -> ReadRefusal {
        ReadRefusal::Failed
    }
}

impl From<AllocError> for ReadRefusal {
    ghost use Rattle.cov_outside.specs.declared.faults.ReadRefusal.TheVariants.{NoMemory};

    ghost from_gives = { λ _ refused. refused ≡ NoMemory };

    fn from(_: AllocError) -> ReadRefusal {
        ReadRefusal::NoMemory
    }
}

impl<T: Drop> From<AllocFailed<T>> for ReadRefusal {
    ghost use Rattle.cov_outside.specs.declared.faults.ReadRefusal.TheVariants.{NoMemory};

    ghost from_gives = { λ _ refused. refused ≡ NoMemory };

    fn from(_: AllocFailed<T>) -> ReadRefusal {
        ReadRefusal::NoMemory
    }
}

impl From<AllocError> for CallFault {
    ghost use Rattle.cov_outside.specs.declared.faults.CallFault.TheVariants.{NoMemory};

    ghost from_gives = { λ _ fault. fault ≡ NoMemory };

    fn from(_: AllocError) -> CallFault {
        CallFault::NoMemory
    }
}

impl<T: Drop> From<AllocFailed<T>> for CallFault {
    ghost use Rattle.cov_outside.specs.declared.faults.CallFault.TheVariants.{NoMemory};

    ghost from_gives = { λ _ fault. fault ≡ NoMemory };

    fn from(_: AllocFailed<T>) -> CallFault {
        CallFault::NoMemory
    }
}

impl From<AllocError> for SinkFault {
    ghost use Rattle.cov_outside.specs.declared.faults.SinkFault.TheVariants.{NoMemory};

    ghost from_gives = { λ _ fault. fault ≡ NoMemory };

    fn from(_: AllocError) -> SinkFault {
        SinkFault::NoMemory
    }
}

impl<T: Drop> From<AllocFailed<T>> for SinkFault {
    ghost use Rattle.cov_outside.specs.declared.faults.SinkFault.TheVariants.{NoMemory};

    ghost from_gives = { λ _ fault. fault ≡ NoMemory };

    fn from(_: AllocFailed<T>) -> SinkFault {
        SinkFault::NoMemory
    }
}

impl From<AllocError> for LoadFault {
    ghost use Rattle.cov_outside.specs.declared.faults.LoadFault.TheVariants.{NoMemory};

    ghost from_gives = { λ _ fault. fault ≡ NoMemory };

    fn from(_: AllocError) -> LoadFault {
        LoadFault::NoMemory
    }
}

impl From<CallFault> for LoadFault {
    ghost use Rattle.cov_outside.specs.FileCalls.{load_fault_of};

    ghost from_gives = { λ call fault. fault ≡ load_fault_of call };

    fn from(fault: CallFault) -> LoadFault {
        match fault {
            CallFault::Failed | CallFault::Interrupted => LoadFault::Failed,
            CallFault::NoMemory => LoadFault::NoMemory,
        }
    }
}

impl From<CallFault> for SinkFault {
    ghost use Rattle.cov_outside.specs.FileCalls.{sink_fault_of};

    ghost from_gives = { λ call fault. fault ≡ sink_fault_of call };

    fn from(fault: CallFault) -> SinkFault {
        match fault {
            CallFault::Failed | CallFault::Interrupted => SinkFault::Failed,
            CallFault::NoMemory => SinkFault::NoMemory,
        }
    }
}
