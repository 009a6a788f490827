//! The model of the protocol, as definitions and laws.
//!
//! - The trace is the list of lines that the events of a cluster make.
//! - The questions, such as the ballot that a server promised at an instance, are functions of the trace.
//! - The rules define the lines that each event adds to the trace.
//! - The laws hold of every journal that replays.
//!
//! A program neither stores nor computes any of this when it runs. The crates above store and compute the values that
//! these definitions describe. Their contracts say so.
#![tactic(auto)]

pub mod further_laws;
pub mod laws;
