ghost use Rattle.std.specs.Prelude.{◌≡◌};
ghost use Rattle.mencius_board.specs.Faults.{board_fault_name, board_fault_number};

use mencius_base::NoMemory;
use std::alloc::AllocError;
use thiserror::Error;

/// The reason why a call of a board, of a reader or of the workers failed.
#[derive(Clone, Copy, Debug, PartialEq, Eq, Error)]
pub enum BoardFault {
    /// A request for memory was refused.
    #[error("memory ran out")]
    NoMemory,
    /// The board has no place left for another reader, or a reader could not enter, for example because the board is
    /// gone.
    #[error("there is no place for a reader, or the board is gone")]
    NoReader,
    /// Commands could not be handed over or published.
    #[error("what was to be shown was refused")]
    ShowRefused,
    /// A worker's thread could not be started.
    #[error("a thread could not be started")]
    NoWorker,
}

impl BoardFault {
    /// Returns the number of the fault, 14 to 17. No two faults have the same number.
    pub fn number(&self) -> u8
        ensures { result ≡ board_fault_number self.now }
    {
        match self {
            BoardFault::NoMemory => 14,
            BoardFault::NoReader => 15,
            BoardFault::ShowRefused => 16,
            BoardFault::NoWorker => 17,
        }
    }

    /// Returns the name of the fault, which is the name of its variant.
    pub fn name(&self) -> &'static str
        ensures { result.now ≡ board_fault_name self.now }
    {
        match self {
            BoardFault::NoMemory => "NoMemory",
            BoardFault::NoReader => "NoReader",
            BoardFault::ShowRefused => "ShowRefused",
            BoardFault::NoWorker => "NoWorker",
        }
    }
}

impl From<NoMemory> for BoardFault {
    ghost use Rattle.mencius_board.specs.declared.fault.BoardFault.TheVariants as fault;

    ghost from_gives = { λ _ f. f ≡ fault.NoMemory };

    fn from(_refused: NoMemory) -> BoardFault {
        BoardFault::NoMemory
    }
}

impl From<AllocError> for BoardFault {
    ghost use Rattle.mencius_board.specs.declared.fault.BoardFault.TheVariants as fault;

    ghost from_gives = { λ _ f. f ≡ fault.NoMemory };

    fn from(_refused: AllocError) -> BoardFault {
        BoardFault::NoMemory
    }
}
