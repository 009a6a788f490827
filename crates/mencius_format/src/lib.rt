//! Writes events and commands as text, and reads them again.
//!
//! Both directions share their definitions. `print` writes the text. `words` splits a text into words and reads its
//! numbers. `parse` builds the event or the command that a text describes, or returns its fault. `operations` contains
//! everything that differs from one operation to another. The law in [`laws`] says that a written text is read back
//! unchanged. The crates above decide where a text comes from and where it goes. `words_left` takes the words of a text
//! one by one for an explanation, and `shown_text` shows a text in the words of one.
#![tactic(auto)]

mod both_or_fault;
pub mod laws;
mod operations;
mod parse;
mod part;
mod print;
mod shown_text;
mod text_version;
mod version;
mod words;
mod words_left;

pub use both_or_fault::both;
pub use operations::{NO_OPERATION, operands_of, version_of_command};
pub use parse::{
    behind_submit, fault_of, parse_command, parse_event, parse_id, parse_other_event,
    parse_submission,
};
pub use part::Part;
pub use print::{
    push_command, push_deliver, push_event, push_execute, push_id, push_lose, push_retry,
    push_submit, push_suspect,
};
pub use shown_text::shown;
pub use text_version::{command_version, event_version, submit_version};
pub use version::{FIRST_VERSION, NEWEST_VERSION, may_stand_in};
pub use words::{cut_at_dot, cut_at_space, parse_u8, parse_u32};
pub use words_left::{left_over, next_word};
