//! The log of a replicated store, line by line.
//!
//! A line says what somebody observed of the store ([`Observation`]). `whole_lines` cuts a log into its lines, `line` reads
//! a line, and `observation_lines` writes one. `bad_line` says why a line cannot be read, in the words of `wrong`. The
//! crates above decide what an observation means.
#![tactic(auto)]

mod bad_line;
mod line;
mod observation;
mod observation_lines;
mod whole_lines;
mod wrong;

pub use bad_line::{line_cut_short, line_too_long, misread_line};
pub use line::{MOST_LINE_BYTES, is_remark, parse_line, parse_observation};
pub use observation::{Answer, Observation};
pub use observation_lines::{push_answer, push_held, push_observation};
pub use whole_lines::cut_line;
