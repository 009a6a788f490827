//! The faults that end a task.

ghost use Rattle.std.specs.Prelude.{◌≡◌};
ghost use Rattle.mencius_app.specs.Fault.{fault_name, fault_number};

use crate::run_failure::RunFailure;
use mencius_io::{Failure, IoFault};
use std::alloc::AllocError;
use thiserror::Error;

/// Why a task ended without doing its work.
#[derive(Clone, Copy, Debug, PartialEq, Eq, Error)]
pub enum AppFault {
    #[error("fault 21 NotJson")]
    NotJson,
    #[error("fault 22 BadShape")]
    BadShape,
    #[error("fault 23 BadLimit")]
    BadLimit,
    #[error("fault 24 ReadFailed")]
    ReadFailed,
    #[error("fault 25 WriteFailed")]
    WriteFailed,
    #[error("fault 26 NoMemory")]
    NoMemory,
    #[error("fault 27 BoardFailed")]
    BoardFailed,
}

impl AppFault {
    /// Returns the number of the fault, 21 to 27, as the program prints it.
    pub fn number(&self) -> u8
        ensures { result ≡ fault_number self.now }
    {
        match self {
            AppFault::NotJson => 21,
            AppFault::BadShape => 22,
            AppFault::BadLimit => 23,
            AppFault::ReadFailed => 24,
            AppFault::WriteFailed => 25,
            AppFault::NoMemory => 26,
            AppFault::BoardFailed => 27,
        }
    }

    /// Returns the name of the fault, as the program prints it.
    pub fn name(&self) -> &'static str
        ensures { result.now ≡ fault_name self.now }
    {
        match self {
            AppFault::NotJson => "NotJson",
            AppFault::BadShape => "BadShape",
            AppFault::BadLimit => "BadLimit",
            AppFault::ReadFailed => "ReadFailed",
            AppFault::WriteFailed => "WriteFailed",
            AppFault::NoMemory => "NoMemory",
            AppFault::BoardFailed => "BoardFailed",
        }
    }
}

impl From<IoFault> for AppFault {
    ghost use Rattle.std.specs.Prelude.{◌≡◌};
    ghost use Rattle.mencius_app.specs.Fault.{app_fault};

    ghost from_gives = { λ cause fault. fault ≡ app_fault cause };

    fn from(cause: IoFault) -> AppFault {
        match cause {
            IoFault::NotJson => AppFault::NotJson,
            IoFault::BadShape => AppFault::BadShape,
            IoFault::BadLimit => AppFault::BadLimit,
            IoFault::ReadFailed => AppFault::ReadFailed,
            IoFault::WriteFailed => AppFault::WriteFailed,
            IoFault::NoMemory => AppFault::NoMemory,
        }
    }
}

impl From<AllocError> for AppFault {
    ghost use Rattle.std.specs.Prelude.{◌≡◌};
    ghost use Rattle.mencius_app.specs.declared.fault.AppFault.TheVariants as at;

    ghost from_gives = { λ _ fault. fault ≡ at.NoMemory };

    fn from(_refused: AllocError) -> AppFault {
        AppFault::NoMemory
    }
}

/// Drops the words that explain the fault.
impl From<Failure> for AppFault {
    ghost use Rattle.std.specs.Prelude.{◌≡◌};
    ghost use Rattle.mencius_app.specs.Fault.{app_fault};

    ghost from_gives = { λ failure fault. fault ≡ app_fault failure.fault };

    fn from(failure: Failure) -> AppFault {
        AppFault::from(failure.fault)
    }
}

/// Drops the words that explain the fault.
impl From<RunFailure> for AppFault {
    ghost use Rattle.std.specs.Prelude.{◌≡◌};
    ghost use Rattle.mencius_app.specs.Fault.{fault_of_run};

    ghost from_gives = { λ run fault. fault ≡ fault_of_run run };

    fn from(run: RunFailure) -> AppFault {
        match run {
            RunFailure::Failed(failure) => AppFault::from(failure),
            RunFailure::BoardFailed => AppFault::BoardFailed,
        }
    }
}
