//! The text of a trace, or its JSON objects. It shows each event of a schedule and its effects, with one fact in each
//! line.
#![tactic(auto)]

mod before;
mod effects;
mod event_lines;
mod fact;
mod facts;
mod json;
mod last_lines;
mod reaction;
mod slots;
mod suggestions;
mod topic;
mod unheard;
mod view;
mod votes;
mod words;

pub use event_lines::tell;
pub use fact::Fact;
pub use last_lines::{push_closing, push_opening};
pub use reaction::Reaction;
pub use slots::push_slots;
pub use suggestions::suggested_instances;
pub use topic::Topic;
pub use view::View;
pub use words::push_answer;
