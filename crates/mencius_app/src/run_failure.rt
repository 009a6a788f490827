//! Why a run failed.

use mencius_board::BoardFault;
use mencius_io::{Failure, IoFault};
use std::alloc::AllocError;

/// The reason why a run failed. It is either a reason that any task may have, or a failure of the board.
#[derive(Debug, Drop, PartialEq, Eq)]
pub enum RunFailure {
    /// The input is bad, reading or writing failed, or memory ran out.
    Failed(Failure),
    /// The board that the workers share failed. Either a thread could not be started, or the board gave no reader or
    /// showed nothing.
    BoardFailed,
}

impl From<Failure> for RunFailure {
    ghost use Rattle.std.specs.Prelude.{◌≡◌};
    ghost use Rattle.mencius_app.specs.declared.run_failure.RunFailure.TheVariants as at;

    ghost from_gives = { λ failure run. run ≡ at.Failed failure };

    fn from(failure: Failure) -> RunFailure {
        RunFailure::Failed(failure)
    }
}

impl From<IoFault> for RunFailure {
    ghost use Rattle.std.specs.Prelude.{◌≡◌, None};
    ghost use Rattle.mencius_app.specs.declared.run_failure.RunFailure.TheVariants as at;

    ghost from_gives = { λ fault run. run ≡ at.Failed (record { fault = fault; words = None }) };

    fn from(fault: IoFault) -> RunFailure {
        RunFailure::Failed(Failure { fault, words: None })
    }
}

impl From<AllocError> for RunFailure {
    ghost use Rattle.std.specs.Prelude.{◌≡◌};
    ghost use Rattle.mencius_app.specs.Failures.{out_of_memory};

    ghost from_gives = { λ _ run. run ≡ out_of_memory };

    fn from(_refused: AllocError) -> RunFailure {
        RunFailure::from(IoFault::NoMemory)
    }
}

impl From<BoardFault> for RunFailure {
    ghost use Rattle.std.specs.Prelude.{◌≡◌};
    ghost use Rattle.mencius_app.specs.Failures.{failure_of_board};

    ghost from_gives = { λ fault run. run ≡ failure_of_board fault };

    fn from(fault: BoardFault) -> RunFailure {
        match fault {
            BoardFault::NoMemory => RunFailure::from(IoFault::NoMemory),
            BoardFault::NoReader | BoardFault::ShowRefused | BoardFault::NoWorker => {
                RunFailure::BoardFailed
            }
        }
    }
}
