//! Tests of facts that no contract states. Calls succeed if there is enough memory, words pick the expected events, a
//! reader without News sees the shown list, and workers run side by side.

mod choices;
mod fixtures;
mod readers;
mod workers;
