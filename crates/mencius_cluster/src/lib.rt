//! A cluster of servers takes one event after another, and stores a journal of the events that it accepted.
//!
//! All servers live in one process, and the network is the list of all messages that were ever sent. The module
//! [`laws`] states facts that hold for every cluster, no matter which events it took.
#![tactic(auto)]

mod cluster;
mod message_bits;
mod salt;
mod submission;
mod submissions;

pub use cluster::{Cluster, Effect};
pub use mencius_model::laws;
pub use mencius_server::Glance;
pub use message_bits::MessageBits;
pub use salt::salt_after;
pub use submission::{Answered, Submission};
