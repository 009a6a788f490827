use crate::fault::IoFault;
use mencius_base::NoMemory;
use std::alloc::AllocError;

/// The reason why a task ended without doing its work. It is a fault, and the words that say where the input is wrong.
#[derive(Debug, Drop, PartialEq, Eq)]
pub struct Failure {
    /// The fault.
    pub fault: IoFault,
    /// The words, without a line feed, if there are any.
    pub words: Option<String>,
}

impl From<IoFault> for Failure {
    ghost use Rattle.std.specs.Prelude.{◌≡◌, None};

    ghost from_gives = { λ fault x. (x.fault ≡ fault) × (x.words ≡ None) };

    fn from(fault: IoFault) -> Failure {
        Failure { fault, words: None }
    }
}

impl From<NoMemory> for Failure {
    ghost use Rattle.std.specs.Prelude.{◌≡◌, None};
    ghost use Rattle.mencius_io.specs.declared.fault.IoFault.TheVariants as fault;

    ghost from_gives = { λ _ x. (x.fault ≡ fault.NoMemory) × (x.words ≡ None) };

    fn from(_refused: NoMemory) -> Failure {
        Failure::from(IoFault::NoMemory)
    }
}

impl From<AllocError> for Failure {
    ghost use Rattle.std.specs.Prelude.{◌≡◌, None};
    ghost use Rattle.mencius_io.specs.declared.fault.IoFault.TheVariants as fault;

    ghost from_gives = { λ _ x. (x.fault ≡ fault.NoMemory) × (x.words ≡ None) };

    fn from(_refused: AllocError) -> Failure {
        Failure::from(IoFault::NoMemory)
    }
}
