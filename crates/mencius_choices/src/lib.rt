//! The events that the workers of a run choose.
//!
//! A [`Plan`](mencius_base::Plan) describes the work of the workers, and a [`Chooser`] makes the choices of one of
//! them. The chooser draws three words from its own random generator, and [`pick`] returns the choice that they pick.
//! It reads a cluster, but never steps it.
#![tactic(auto)]

mod choice;
mod chooser;
mod order;
mod table;

pub use choice::Pick;
pub use chooser::{Chooser, Progress, first_choosers};
pub use table::pick;
