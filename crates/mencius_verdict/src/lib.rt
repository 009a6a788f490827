//! The text that reports a verdict on a log: its line, the lines of the log that show it, a sentence that explains it, and
//! all of this as one JSON object.
#![tactic(auto)]

mod json_fields;
mod sentences;
mod verdict_json;
mod verdict_lines;

pub use json_fields::{
    push_key_field, push_lines_field, push_number_field, push_size_field, push_verdict_field,
};
pub use verdict_json::{push_breach_json, push_json};
pub use verdict_lines::{push_broken, push_explanation, push_kept, push_quotes, push_unjudged};
