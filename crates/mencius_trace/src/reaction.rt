//! The reaction of a server to a message.

use mencius_base::{Ballot, Value};

/// The reaction of a server to a message that it hears, apart from its reply. The variants after `Counted` are reasons,
/// which are shown only if the message had no effect.
#[derive(Clone, Copy, Debug, PartialEq, Eq)]
pub enum Reaction {
    /// There is nothing to say about the message.
    Effective,
    /// The message is a promise or an acceptance that counts.
    Counted,
    /// The server has already promised this ballot.
    Promised(Ballot),
    /// The server tries this ballot, which is not the message's ballot.
    Tries(Ballot),
    /// The server has already learned this value.
    Learned(Value),
    /// The server has already proposed a value at the ballot.
    Proposed,
}
