//! The verdict on a log that clients saw.

use crate::client_counts::ClientCounts;
use crate::client_log::ClientLog;
use mencius_base::CommandId;
use mencius_judge::{Quote, Violation};
use mencius_log::Answer;

/// The reason why a search was given up.
#[derive(Clone, Copy, Debug, PartialEq, Eq)]
pub enum GiveUp {
    /// This number of commands of the key, or more, wait for their replies.
    Waiting { count: usize },
    /// The reply at the line makes this number of configurations of the key, or more.
    Configurations { most: usize },
}

/// The verdict on the submissions and replies of a log. The numbers of lines count from 1.
#[derive(Debug, Drop)]
pub enum ClientVerdict {
    /// This order of the commands is a linearization of the log, which has at least one reply.
    Linearizable {
        counts: ClientCounts,
        order: Vec<CommandId>,
    },
    /// The log has no reply, so nothing was judged.
    Unjudged {
        counts: ClientCounts,
    },
    /// The line with this number is a reply to a command of this key. With it, the log has no linearization. The lines
    /// before it have one. The quotes are the lines about the key since the last moment at which none of its commands
    /// waited for a reply. If the reply had one of the answers `fitting`, the lines about the key would have a
    /// linearization.
    NotLinearizable {
        number: u64,
        key: String,
        quotes: Vec<Quote>,
        fitting: Vec<Answer>,
    },
    /// The submission or reply at the line with this number breaks a promise.
    Broken {
        number: u64,
        violation: Violation,
    },
    /// The search was given up at the line with this number, which submits a command of this key or replies to one.
    Undecided {
        number: u64,
        key: String,
        cause: GiveUp,
    },
}

/// A log that clients saw, and the verdict on it.
#[derive(Debug, Drop)]
pub struct ClientJudgement {
    pub verdict: ClientVerdict,
    pub log: ClientLog,
}
