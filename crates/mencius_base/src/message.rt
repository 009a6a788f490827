ghost use Rattle.std.specs.Prelude.{◌≡◌};

use crate::ballot::Ballot;
use crate::limits::{GREATEST_FRONT, INSTANCES};
use crate::members::Members;

/// A value that an instance may decide.
#[derive(Clone, Copy, Debug, PartialEq, Eq)]
pub enum Value {
    /// No command. The instance is passed over.
    Noop,
    /// The command with this ticket, which is its place in the list of all submitted commands, from 0.
    Ticket(u32),
}

/// The value that a server accepted last at an instance, with its ballot.
#[derive(Clone, Copy, Debug, PartialEq, Eq)]
pub struct Vote {
    pub ballot: Ballot,
    pub value: Value,
}

/// An acceptor's reply to a Prepare.
#[derive(Clone, Copy, Debug, PartialEq, Eq)]
pub enum Answer {
    /// The acceptor will accept nothing below the ballot from now on, and reports its vote, if it has one.
    Promise(Option<Vote>),
    /// The acceptor has already learned the instance's value, and no ballot is needed any more.
    Known(Value),
    /// The acceptor already promised or accepted this ballot or a greater one, and sends nothing.
    Silent,
}

/// A message that a server sends. Messages are numbered from 0 in order of sending. Accepted and Promise go to one
/// server. All other messages go to every server, including the sender. All of them are messages of Coordinated Paxos,
/// with its actions suggest, skip and revoke. `docs/MODEL.md` names the source.
#[derive(Clone, Copy, Debug, PartialEq, Eq)]
pub enum Message {
    /// The owner of an instance proposes a command there, at the owner's ballot.
    Suggest {
        from: u8,
        inst: u32,
        ticket: u32,
    },
    /// A server gives up its own instances from `first` up to, but not including, `stop`.
    Skip {
        from: u8,
        first: u32,
        stop: u32,
    },
    /// A server accepted the value that was proposed at a ballot.
    Accepted {
        from: u8,
        to: u8,
        inst: u32,
        ballot: Ballot,
    },
    /// A server begins a first phase. It asks for promises and for earlier votes.
    Prepare {
        from: u8,
        inst: u32,
        ballot: Ballot,
    },
    /// A server promises to accept nothing below a ballot, and reports its vote.
    Promise {
        from: u8,
        to: u8,
        inst: u32,
        ballot: Ballot,
        vote: Option<Vote>,
    },
    /// The leader of a ballot proposes a value at it.
    Propose {
        from: u8,
        inst: u32,
        ballot: Ballot,
        value: Value,
    },
    /// A server reports the value that an instance decided.
    Learn {
        from: u8,
        inst: u32,
        value: Value,
    },
}

impl Message {
    ghost use Rattle.mencius_base.specs.Message.{is_sent_to, is_for, is_within};

    /// Returns whether the message may be delivered to a server.
    ///
    /// The message must go to that server, and the server must be a member. All servers that the message names must be
    /// members. Its instance, or the `first` of a Skip, must be at most 4,095, and the `stop` of a Skip at most 4,102.
    /// A Prepare, Promise or Propose must not be at the owner's ballot.
    pub fn is_for(&self, members: Members, server: u8) -> bool
        ensures { result ≡ is_for members server self.now }
    {
        server < members.count() && self.is_sent_to(server) && self.is_within(members)
    }

    /// Returns whether the message goes to a server. Accepted and Promise have one addressee. All other messages go to
    /// every server, including the sender.
    pub fn is_sent_to(&self, server: u8) -> bool
        ensures { result ≡ is_sent_to server self.now }
    {
        match *self {
            Message::Accepted { to, .. } | Message::Promise { to, .. } => to == server,
            _ => true,
        }
    }

    // Returns whether the servers, the instance and the ballot of the message are within their limits.
    fn is_within(&self, members: Members) -> bool
        ensures { result ≡ is_within members self.now }
    {
        let count = members.count();
        match *self {
            Message::Suggest { from, inst, .. } | Message::Learn { from, inst, .. } => {
                from < count && inst < INSTANCES
            }
            Message::Skip { from, first, stop } => from < count
                && first < INSTANCES
                && stop <= GREATEST_FRONT,
            Message::Accepted { from, to, inst, .. } => from < count
                && to < count
                && inst < INSTANCES,
            Message::Prepare { from, inst, ballot }
            | Message::Propose {
                from,
                inst,
                ballot,
                ..
            } => from < count && inst < INSTANCES && 0 < ballot.number(),
            Message::Promise {
                from,
                to,
                inst,
                ballot,
                ..
            } => from < count && to < count && inst < INSTANCES && 0 < ballot.number(),
        }
    }
}
