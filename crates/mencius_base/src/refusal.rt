ghost use Rattle.std.specs.Prelude.{◌≡◌, ◌≢◌, MatchResult};
ghost use Rattle.mencius_base.specs.Refusal.{refusal_name, refusal_number};
ghost use Rattle.mencius_base.specs.declared.refusal.Refusal.TheVariants as refusal;

use std::alloc::{AllocError, AllocFailed};
use thiserror::Error;

/// The reason why an event or a call is refused. A refused event or call has changed nothing.
#[derive(Clone, Copy, Debug, PartialEq, Eq, Error)]
pub enum Refusal {
    #[error("there is no server of that number")]
    BadServer,
    #[error("a command of that identity was submitted before")]
    DuplicateCommand,
    #[error("the server owns no free instance any more")]
    InstancesFull,
    #[error("no message of that number was sent")]
    NoMessage,
    #[error("the message is for another server")]
    NotAddressed,
    #[error("the message was lost on its way to that server")]
    LostMessage,
    #[error("a server does not suspect itself")]
    SelfSuspect,
    #[error("the suspected server owns no instance that could be revoked now")]
    NothingToRevoke,
    #[error("an instance to be revoked has no round left")]
    RoundsFull,
    #[error("no command of that server waits to be suggested again")]
    NothingWaiting,
    #[error("the server has not learned its next instance")]
    NothingToExecute,
    #[error("there would be more than 262,144 messages")]
    MessagesFull,
    #[error("there are 262,144 events already")]
    EventsFull,
    #[error("memory ran out")]
    NoMemory,
}

impl Refusal {
    /// Returns the number of the refusal, 1 to 14.
    pub fn number(&self) -> u8
        ensures { result ≡ refusal_number self.now }
    {
        match self {
            Refusal::BadServer => 1,
            Refusal::DuplicateCommand => 2,
            Refusal::InstancesFull => 3,
            Refusal::NoMessage => 4,
            Refusal::NotAddressed => 5,
            Refusal::LostMessage => 6,
            Refusal::SelfSuspect => 7,
            Refusal::NothingToRevoke => 8,
            Refusal::RoundsFull => 9,
            Refusal::NothingWaiting => 10,
            Refusal::NothingToExecute => 11,
            Refusal::MessagesFull => 12,
            Refusal::EventsFull => 13,
            Refusal::NoMemory => 14,
        }
    }

    /// Returns the name of the refusal, as reports print it.
    pub fn name(&self) -> &'static str
        ensures { result.now ≡ refusal_name self.now }
    {
        match self {
            Refusal::BadServer => "BadServer",
            Refusal::DuplicateCommand => "DuplicateCommand",
            Refusal::InstancesFull => "InstancesFull",
            Refusal::NoMessage => "NoMessage",
            Refusal::NotAddressed => "NotAddressed",
            Refusal::LostMessage => "LostMessage",
            Refusal::SelfSuspect => "SelfSuspect",
            Refusal::NothingToRevoke => "NothingToRevoke",
            Refusal::RoundsFull => "RoundsFull",
            Refusal::NothingWaiting => "NothingWaiting",
            Refusal::NothingToExecute => "NothingToExecute",
            Refusal::MessagesFull => "MessagesFull",
            Refusal::EventsFull => "EventsFull",
            Refusal::NoMemory => "NoMemory",
        }
    }

    /// Returns the refusal if its reason is in the event itself, and fails with `NoMemory` otherwise. Running out of
    /// memory says nothing about an event, so it ends the call that asked for memory.
    pub fn memory_apart(self) -> Result<Refusal, NoMemory>
        ensures { MatchResult result (λ other. (other ≡ self) × (self ≢ refusal.NoMemory))
            (λ _. self ≡ refusal.NoMemory) }
    {
        if self == Refusal::NoMemory {
            return Err(NoMemory);
        }
        Ok(self)
    }
}

/// The error of a call that can only fail if memory runs out.
#[derive(Clone, Copy, Debug, PartialEq, Eq, Error)]
#[error("memory ran out")]
pub struct NoMemory;

impl From<AllocError> for NoMemory {
    fn from(_refused: AllocError) -> NoMemory {
        NoMemory
    }
}

impl<T: Drop> From<AllocFailed<T>> for NoMemory {
    fn from(_refused: AllocFailed<T>) -> NoMemory {
        NoMemory
    }
}

impl From<NoMemory> for Refusal {
    ghost from_gives = { λ _ r. r ≡ refusal.NoMemory };

    fn from(_refused: NoMemory) -> Refusal {
        Refusal::NoMemory
    }
}

impl From<AllocError> for Refusal {
    ghost from_gives = { λ _ r. r ≡ refusal.NoMemory };

    fn from(_refused: AllocError) -> Refusal {
        Refusal::NoMemory
    }
}

impl<T: Drop> From<AllocFailed<T>> for Refusal {
    ghost from_gives = { λ _ r. r ≡ refusal.NoMemory };

    fn from(_refused: AllocFailed<T>) -> Refusal {
        Refusal::NoMemory
    }
}
