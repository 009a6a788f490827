//! The facts of a trace.

ghost use Rattle.std.specs.Prelude.{◌≡◌, ◌∷◌, ◌++◌, [], OnOk};

use crate::reaction::Reaction;
use mencius_base::{Ballot, Message, Refusal, Value, Vote};
use std::alloc::AllocError;

/// A fact of a trace, apart from the events and the progress of the servers. Each fact has a line of its own.
#[derive(Clone, Copy)]
pub enum Fact {
    /// The event is refused.
    Refused(Refusal),
    /// A server has heard the promises of `count` servers at a ballot, and `majority` servers are a majority.
    Promises {
        server: u8,
        inst: u32,
        ballot: Ballot,
        count: usize,
        majority: u8,
    },
    /// A server has heard the acceptances of `count` servers at a ballot, and `majority` servers are a majority.
    Acceptances {
        server: u8,
        inst: u32,
        ballot: Ballot,
        count: usize,
        majority: u8,
    },
    /// A server heard a message that had no effect. The reaction is the reason.
    Ignored {
        server: u8,
        message: Message,
        reaction: Reaction,
    },
    /// A server learned the value of an instance.
    Learned {
        server: u8,
        inst: u32,
        value: Value,
    },
    /// The message with this number was sent.
    Sent {
        number: u32,
        message: Message,
    },
    /// The next own instance of a server changed.
    Front {
        server: u8,
        front: u32,
    },
    /// A server executed an instance.
    Executed {
        server: u8,
        inst: u32,
        value: Value,
    },
    /// The command with this ticket got its reply when a server executed an instance.
    Reply {
        server: u8,
        inst: u32,
        ticket: u32,
    },
    /// A server neither heard nor lost the message with this number.
    Unheard {
        number: u32,
        message: Message,
        server: u8,
    },
}

/// Adds a fact to a list.
pub(crate) fn push_fact(facts: &mut Vec<Fact>, fact: Fact) -> Result<(), AllocError>
    ensures { OnOk result (facts.new.items ≡ facts.old.items ++ fact ∷ []) }
{
    // proof: the types that a fact can hold
    let _message: Option<Message> = None;
    let _reaction: Option<Reaction> = None;
    let _refusal: Option<Refusal> = None;
    let _value: Option<Value> = None;
    let _vote: Option<Vote> = None;
    facts.push(fact)?;
    Ok(())
}
