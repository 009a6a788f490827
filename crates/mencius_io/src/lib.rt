//! Input and output of a task. This crate has the faults that end a task, readers and writers that count their failed
//! calls, and functions that read or write everything.
#![tactic(auto)]

mod failure;
mod fault;
mod read;
mod retries;
mod sink;
mod source;
mod write;

pub use failure::Failure;
pub use fault::IoFault;
pub use read::{READ_BYTES, read_all, read_some};
pub use retries::MOST_RETRIES;
pub use sink::Sink;
pub use source::{Source, Std};
pub use write::write_all;
