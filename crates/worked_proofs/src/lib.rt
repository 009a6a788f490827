//! Worked proofs by callers: what you can conclude from the public contracts and the laws alone, without looking inside.
//!
//! - [`histories`]: the histories of two servers of a cluster, at one moment and before and after more events.
//! - [`hands`]: three servers that a simulator steps itself.
//! - [`runs`]: a run with one worker has one text.
#![tactic(auto)]

pub mod hands;
pub mod histories;
pub mod runs;
