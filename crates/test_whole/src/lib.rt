//! Tests of the parts by their public calls, and of behaviour that the built program cannot show. They are one crate, so
//! that the libraries under test are read only once, and a crate of their own, so that no part is proved a second time
//! with its tests.
//!
//! The parts are commands and outboxes, single instances, single servers, the map, and boards with their readers and
//! workers. The other tests cover each call of a cluster, the conclusions of callers, workers and readers on a board, and
//! readers and writers that fail. The judges of logs have no test here, because `tests/logs.json` and `checks/clients`
//! have worked logs for the built program.
#![tactic(auto)]

#[cfg(test)]
mod base;
#[cfg(test)]
mod board;
#[cfg(test)]
mod callers;
#[cfg(test)]
mod calls;
#[cfg(test)]
mod courses;
#[cfg(test)]
mod executor;
#[cfg(test)]
mod orders;
#[cfg(test)]
mod rotation;
#[cfg(test)]
mod runs;
#[cfg(test)]
mod same;
#[cfg(test)]
mod server;
#[cfg(test)]
mod slot;
#[cfg(test)]
mod streams;
