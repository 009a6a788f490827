//! A board is a cluster that threads step one at a time, while readers look up keys without a lock.
//!
//! A [`Board`] holds the cluster, and steps it through one event after another. Threads share the board under a
//! `Mutex`. [`Board::show`] shows the commands of the longest history to readers, all at once.
//!
//! A [`Reader`] looks up a key in the map that these commands produce, and never waits. It also keeps a floor, which is
//! the longest list that it saw or learned from a [`News`]. No later lookup uses a list that is shorter than the floor.
//!
//! [`run_workers`] lets threads step a board. Each thread has its own random generator, and [`pick`] turns three random
//! words into an event.
#![tactic(auto)]

mod board;
mod fault;
mod longest;
mod news;
mod pending;
mod reader;
pub mod readings;
mod run;
mod shown;
mod shown_log;
mod version;
mod workers;

pub use board::Board;
pub use fault::BoardFault;
pub use mencius_base::Plan;
pub use mencius_choices::{Chooser, Pick, pick};
pub use news::News;
pub use reader::Reader;
pub use run::run_plan;
pub use workers::{Gate, Open, lend, run_workers, worker_turn};
