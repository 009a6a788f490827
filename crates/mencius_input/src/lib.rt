//! Reads the input of the program, the bytes of a scenario, exactly. The law in [`laws`] says that each mistake in them
//! has a place. The faults that end a run are in `mencius_io`, and so are its readers and writers.
#![tactic(auto)]

mod commands;
mod events;
mod explanation;
mod faulty_items;
mod field;
mod fields;
mod kind;
pub mod laws;
mod newest;
mod places;
mod plan;
mod scenario;
mod schedule;
mod wrong;

pub use events::{Events, EventsLeft};
pub use explanation::{explain, explain_unread};
pub use field::Field;
pub use kind::{Kind, kind_of};
pub use places::{Place, place_of};
pub use plan::read_plan;
pub use scenario::{Scenario, read_scenario};
