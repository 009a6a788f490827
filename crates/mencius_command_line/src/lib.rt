//! Reads the words after the program's name exactly, and contains the program's pages of help.
#![tactic(auto)]

mod arguments;
mod client_options;
mod draw_options;
mod line;
mod pages;
mod tasks;
mod trace_options;

pub use arguments::{are_texts, read_arguments};
pub use client_options::ClientOptions;
pub use line::{Task, read_command_line};
pub use pages::text_to_show;
pub use trace_options::TraceOptions;
