//! The words of the protocol, as types.
//!
//! They are members and ballots, commands of clients, messages of servers, events of a cluster, refusals, and plans of
//! workers. Nothing here decides anything. Each type keeps its own limits, so the crates above never test them again.
#![tactic(auto)]

mod ballot;
mod command;
mod event;
mod limits;
mod members;
mod message;
mod outbox;
mod plan;
mod refusal;

pub use ballot::Ballot;
pub use command::{BadCommand, Command, CommandId, Key, Op, Text, is_name};
pub use event::{Entry, Event};
pub use limits::{
    GREATEST_BETA, GREATEST_FRONT, GREATEST_LOSS, GREATEST_ROUND, INSTANCES, MOST_EVENTS,
    MOST_KEY_BYTES, MOST_MESSAGES, MOST_READERS, MOST_SERVERS, MOST_TEXT_BYTES, MOST_TURNS,
    MOST_WORKERS,
};
pub use members::Members;
pub use message::{Answer, Message, Value, Vote};
pub use outbox::Outbox;
pub use plan::Plan;
pub use refusal::{NoMemory, Refusal};
