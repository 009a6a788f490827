//! Draws a schedule as a space-time diagram. The input is the text of the schedule's trace, and the output is an SVG
//! file.
#![tactic(auto)]

mod colours;
mod drawing;
mod facts;
mod feet;
mod frame;
mod labels;
pub mod laws;
mod layout;
mod marks;
mod options;
mod places;
mod svg;
mod ways;
mod words;

pub use drawing::picture;
pub use options::{MOST_LEVELS, Options, Scheme, TooLarge};
