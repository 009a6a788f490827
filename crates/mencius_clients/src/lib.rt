//! Whether some order of the commands is a linearization of what clients saw of a store.
#![tactic(auto)]

mod answers;
mod client_counts;
mod client_json;
mod client_judge;
mod client_lines;
mod client_log;
mod client_verdict;
mod configuration;
mod effects;
mod explanation;
mod first_lines;
mod fitting_answers;
mod heard;
mod key_lines;
mod key_search;
pub mod laws;
mod line_keys;
mod orders;
mod outcome;
mod search;
mod slot_set;
mod slots;
mod states;
mod steps;
mod texts;
mod timed_command;
mod twins;
mod work;

pub use client_counts::ClientCounts;
pub use client_json::push_client_json;
pub use client_judge::judge_clients;
pub use client_lines::{push_client_explanation, push_client_verdict, push_order};
pub use client_log::{ClientLog, read_log};
pub use client_verdict::{ClientJudgement, ClientVerdict, GiveUp};
