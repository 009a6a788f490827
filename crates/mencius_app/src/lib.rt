//! The tasks of the program, from the bytes of an input to the text that they print. They replay, trace, draw, check or
//! run a scenario, print the state after it, or judge a log.
#![tactic(auto)]

mod arguments;
mod call;
mod checks;
mod client_judgements;
mod ending;
mod failure;
mod fault;
mod input;
mod judgements;
mod no_task;
mod output;
mod pictures;
mod printed;
mod replays;
mod run_failure;
mod runs;
mod states;
mod traces;
mod turns;

pub use arguments::arguments_of;
pub use call::{perform, perform_in_turns};
pub use checks::check;
pub use client_judgements::judge_by_clients;
pub use ending::{Ending, end, ending_of, exit_status};
pub use fault::AppFault;
pub use judgements::{is_kept, judge, text_of_verdict};
pub use mencius_board::{Gate, Open};
pub use mencius_command_line::{ClientOptions, Task, read_command_line};
pub use mencius_input::{Events, Scenario, read_plan, read_scenario};
pub use mencius_io::{Failure, IoFault, Sink, Source, Std};
pub use pictures::draw;
pub use printed::report;
pub use replays::{replay, replay_explained};
pub use run_failure::RunFailure;
pub use runs::{run, run_explained};
pub use states::state;
pub use traces::trace;
pub use turns::run_in_turns;
