ghost use Rattle.std.specs.Prelude.{◌≡◌};
ghost use Rattle.mencius_judge.specs.Violations.{promise_of};

use mencius_base::{CommandId, Key, Text};
use mencius_log::Answer;

/// A promise of a store.
#[derive(Clone, Copy, Debug, PartialEq, Eq)]
pub enum Promise {
    /// An identity belongs to only one command.
    OneCommand,
    /// A command that is executed or gets a reply was submitted before.
    Submitted,
    /// No server executes a command twice.
    Once,
    /// One of the histories of any two servers is a prefix of the other.
    SameOrder,
    /// If a command in a history was first submitted after another one had a reply other than `failed`, the other one
    /// comes before it.
    RealTime,
    /// All replies to a command are the same.
    OneReply,
    /// A reply is right for the text that a map holds at the command's key after it has executed exactly the commands
    /// before it in a history.
    RightReply,
    /// A lookup finds the text that its key held after a prefix of a history. This prefix contains everything that the
    /// reader saw or was told of before.
    RightLookup,
    /// A server that is said to be settled has all commands that had a reply other than `failed` before.
    Settled,
    /// A server that takes over commands of another server has no history, and the other server has that many commands.
    Restore,
}

/// How an observation breaks a promise. Places in a history count from 0.
#[derive(Debug, Drop)]
pub enum Violation {
    /// A different command was submitted with the identity of an earlier one.
    OneCommand {
        id: CommandId,
    },
    /// The command was executed or had a reply, but was not submitted before.
    Submitted {
        id: CommandId,
    },
    /// The server executed the command at this place, but had already executed it before.
    Once {
        server: u32,
        place: usize,
        id: CommandId,
    },
    /// The server executed the command `found` at this place, but another server executed `expected` there.
    SameOrder {
        server: u32,
        place: usize,
        expected: CommandId,
        found: CommandId,
    },
    /// The server executed the command at this place, but had not executed `behind`. That command had its reply when
    /// this one was first submitted.
    RealTime {
        server: u32,
        place: usize,
        id: CommandId,
        behind: CommandId,
    },
    /// The command has the reply `found`, but its first reply was `expected`.
    OneReply {
        id: CommandId,
        expected: Answer,
        found: Answer,
    },
    /// The command has the reply `found`, but a map that executes the history holds `expected` at the command's key
    /// and place.
    RightReply {
        id: CommandId,
        place: usize,
        expected: Option<Text>,
        found: Answer,
    },
    /// The reader had seen the first `from` commands of the longest history, which has `to` commands. The key did not
    /// hold the text `found` after any number of commands from `from` to `to`.
    RightLookup {
        reader: u32,
        key: Key,
        from: usize,
        to: usize,
        found: Option<Text>,
    },
    /// The server is said to be settled, but does not have this command, which was acknowledged before.
    Settled {
        server: u32,
        id: CommandId,
    },
    /// The server takes over the first `count` commands of the server `source`. But it has a history, or `source` has
    /// fewer commands.
    Restore {
        server: u32,
        source: u32,
        count: u32,
    },
}

impl Violation {
    /// Returns the promise that is broken.
    pub fn promise(&self) -> Promise
        ensures { result ≡ promise_of self.now }
    {
        match self {
            Violation::OneCommand { .. } => Promise::OneCommand,
            Violation::Submitted { .. } => Promise::Submitted,
            Violation::Once { .. } => Promise::Once,
            Violation::SameOrder { .. } => Promise::SameOrder,
            Violation::RealTime { .. } => Promise::RealTime,
            Violation::OneReply { .. } => Promise::OneReply,
            Violation::RightReply { .. } => Promise::RightReply,
            Violation::RightLookup { .. } => Promise::RightLookup,
            Violation::Settled { .. } => Promise::Settled,
            Violation::Restore { .. } => Promise::Restore,
        }
    }
}
