ghost use Rattle.std.specs.Prelude.{◌≡◌, ◌≢◌, MatchResult};
ghost use Rattle.mencius_io.specs.declared.fault.IoFault.TheVariants as fault;

use json::Invalid;
use mencius_base::NoMemory;
use std::alloc::{AllocError, AllocFailed};
use thiserror::Error;

/// The problem that kept a task from doing its work. It is a problem of the input, the reader, the writer or memory.
#[derive(Clone, Copy, Debug, PartialEq, Eq, Error)]
pub enum IoFault {
    #[error("the scenario is not JSON")]
    NotJson,
    #[error("the scenario does not have the shape of a scenario")]
    BadShape,
    #[error("a number, a length or the whole scenario is past its limit")]
    BadLimit,
    #[error("the scenario could not be read to its end")]
    ReadFailed,
    #[error("the text could not be written to its end")]
    WriteFailed,
    #[error("memory ran out")]
    NoMemory,
}

impl IoFault {
    /// Returns the fault if it is a fault of the input, the reader or the writer. Fails with `NoMemory` if the fault is
    /// that memory ran out, because this says nothing about any of them.
    pub fn memory_apart(self) -> Result<IoFault, NoMemory>
        ensures { MatchResult result (λ other. (other ≡ self) × (self ≢ fault.NoMemory))
            (λ _. self ≡ fault.NoMemory) }
    {
        if self == IoFault::NoMemory {
            return Err(NoMemory);
        }
        Ok(self)
    }
}

impl From<AllocError> for IoFault {
    ghost from_gives = { λ _ f. f ≡ fault.NoMemory };

    fn from(_refused: AllocError) -> IoFault {
        IoFault::NoMemory
    }
}

impl<T: Drop> From<AllocFailed<T>> for IoFault {
    ghost from_gives = { λ _ f. f ≡ fault.NoMemory };

    fn from(_refused: AllocFailed<T>) -> IoFault {
        IoFault::NoMemory
    }
}

impl From<NoMemory> for IoFault {
    ghost from_gives = { λ _ f. f ≡ fault.NoMemory };

    fn from(_refused: NoMemory) -> IoFault {
        IoFault::NoMemory
    }
}

impl From<Invalid> for IoFault {
    ghost from_gives = { λ _ f. f ≡ fault.NotJson };

    fn from(_invalid: Invalid) -> IoFault {
        IoFault::NotJson
    }
}
