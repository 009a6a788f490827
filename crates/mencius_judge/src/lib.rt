//! A judge of replicated stores. It receives the observations of a store one after the other, and reports whether the
//! store has kept its promises so far.
//!
//! The judge does not depend on any protocol. The commands that servers executed are its witness, so it does not search
//! for an order. Each observation costs only a few lookups in maps. The crates above also use the modules `answers`,
//! `operations` and `tables`.
#![tactic(auto)]

pub mod answers;
mod counts;
mod histories;
mod judge;
pub mod laws;
mod log_reader;
pub mod operations;
mod places;
mod quote;
mod quotes;
mod reply_checks;
mod settled;
pub mod tables;
mod texts;
mod timeline;
mod timelines;
mod violation;

pub use counts::{Counts, one_more};
pub use judge::Judge;
pub use log_reader::{Breach, Judgement, LogReader, Verdict, judge_log};
pub use quote::Quote;
pub use violation::{Promise, Violation};
