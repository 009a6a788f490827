//! Reads the values of a JSON text from its tokens.
//!
//! `json` returns one token after another. `value` reads the next value from these tokens and builds no tree. It reads
//! a number or a text, enters a list or an object, or passes any value. The result is the same as in the tree of
//! `serde_json`, which `tree` builds. If the text is not JSON, the result is `Invalid`. `stops` then says in words
//! where the text stops being JSON.
//!
//! `crowd` finds the texts that would need too large a tree. It counts their bytes with `count`. The crates above
//! interpret the text.
#![tactic(auto)]

mod count;
mod crowd;
mod stops;
mod tree;
mod value;

pub use crowd::{Crowd, crowd_in};
pub use stops::stop_in;
pub use tree::tree_of;
pub use value::{
    MOST_DEPTH, enter_array, enter_object, is_begin_object, next_text, next_whole, pass, pass_from,
};
