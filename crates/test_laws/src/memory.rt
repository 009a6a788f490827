//! Steps a board through the scenario on standard input. Before the first event and after each event, it shows the
//! board, gives the News to a reader, and looks up the key `a` with this reader. If memory runs out in one of these
//! calls, it checks that nothing changed, including the reader's results. Then it makes the call again.
//!
//! `checks/memory` makes each growth of the program's memory fail in turn. The program must then print the same as if no
//! growth had failed. It prints the report and the result of the last lookup.
//!
//! The scenario may also be a scenario of a run with two workers. If beta is 0, `run_workers` runs them, otherwise
//! `run_plan`. The program then prints one line. The line has the name of their fault, or `Ok`, and the number of turns
//! that each worker began.
//!
//! For `parts`, the program steps single servers and executors through the scenario instead of a board. It makes their
//! calls again in the same way. No cluster makes room before these calls. The program prints a line for each server, and
//! the number of messages that were sent.
//!
//! The exit status is one of these:
//!
//! - 0 if nothing changed. If a call was made again, standard error has its name.
//! - 6 if any other call failed, for example because memory ran out in it.
//! - 9 if something changed. Standard error names it.

use crate::parts::step_parts;
use crate::watched::{Call, Stop, Watched};
use crate::workers::run_counted;
use mencius_app::{read_plan, report};
use mencius_cluster::Cluster;
use mencius_input::{Events, Scenario, read_scenario};
use mencius_io::{IoFault, Sink, write_all};
use std::alloc::Global;
use std::sync::Wait;
use std::thread::Threads;

// Shows the board, and takes the events of a scenario. Each call that was refused memory is made again.
fn walk<R: Wait>(
    rt: &R,
    alloc: Global,
    bytes: &[u8],
    events: Events,
    watched: &mut Watched,
) -> Result<(), Stop> {
    let mut taken: usize = 0;
    watched.show(rt, alloc, bytes, taken)?;
    watched.look_up(alloc)?;
    for event in events {
        watched.step(alloc, bytes, taken, event)?;
        taken = taken.saturating_add(1);
        watched.show(rt, alloc, bytes, taken)?;
        watched.look_up(alloc)?;
    }
    Ok(())
}

// Writes the report and the result of the last lookup.
fn conclude<W: Sink>(alloc: Global, watched: &Watched, sink: &mut W) -> Result<(), Stop> {
    let count = watched.count();
    let Ok(line) = format!(in alloc; "lookup {:?} of {count}\n", watched.found()) else {
        return Err(Stop::Elsewhere);
    };
    if report(alloc, watched.cluster(), sink).is_err() {
        return Err(Stop::Elsewhere);
    }
    write_all(sink, line.as_bytes()).map_err(|_| Stop::Elsewhere)
}

// Runs the scenario in the bytes on a board. Returns the last call that was refused memory, if any.
fn course<R: Wait, W: Sink>(
    rt: &R,
    alloc: Global,
    bytes: &[u8],
    scenario: Scenario<Events>,
    sink: &mut W,
) -> Result<Option<Call>, Stop> {
    let Ok(cluster) = Cluster::new(alloc, scenario.members) else {
        return Err(Stop::Elsewhere);
    };
    let mut watched = Watched::new(rt, alloc, cluster)?;
    let mut done = walk(rt, alloc, bytes, scenario.course, &mut watched);
    if done.is_ok() {
        done = conclude(alloc, &watched, sink);
    }
    let refused = watched.refused();
    watched.end(rt);
    done.map(|()| refused)
}

// Runs the workers of a run's scenario, and writes the line with their result.
fn run<R: Threads + Wait + Sync, W: Sink>(
    rt: &R,
    alloc: Global,
    bytes: &[u8],
    sink: &mut W,
) -> Result<(), Stop> {
    let Ok(scenario) = read_plan(alloc, bytes) else {
        return Err(Stop::Elsewhere);
    };
    let line = run_counted(rt, alloc, &scenario)?;
    write_all(sink, line.as_bytes()).map_err(|_| Stop::Elsewhere)
}

// Runs the scenario in the bytes, which has events or workers. Returns the call that was made again, if any.
fn perform<R: Threads + Wait + Sync, W: Sink>(
    rt: &R,
    alloc: Global,
    bytes: &[u8],
    sink: &mut W,
) -> Result<Option<Call>, Stop> {
    match read_scenario(alloc, bytes) {
        Ok(scenario) => course(rt, alloc, bytes, scenario, sink),
        Err(IoFault::BadShape) => run(rt, alloc, bytes, sink).map(|()| None),
        Err(_) => Err(Stop::Elsewhere),
    }
}

// Returns the exit status. Writes the name of the repeated call, or of the change, to standard error.
fn status_of<W: Sink>(done: Result<Option<Call>, Stop>, errors: &mut W) -> u8 {
    match done {
        Ok(None) => 0,
        Ok(Some(call)) => {
            let _ = write_all(errors, call.name().as_bytes());
            0
        }
        Err(Stop::Elsewhere) => 6,
        Err(Stop::Changed(answer)) => {
            let _ = write_all(errors, answer.as_bytes());
            9
        }
    }
}

/// Steps a board through the scenario on standard input, or runs workers on it. Returns the exit status.
pub fn try_board<R: Threads + Wait + Sync, W: Sink, E: Sink>(
    rt: &R,
    alloc: Global,
    bytes: &[u8],
    sink: &mut W,
    errors: &mut E,
) -> u8 {
    status_of(perform(rt, alloc, bytes, sink), errors)
}

/// Steps single servers and executors through the scenario on standard input. Returns the exit status.
pub fn try_parts<W: Sink, E: Sink>(
    alloc: Global,
    bytes: &[u8],
    sink: &mut W,
    errors: &mut E,
) -> u8 {
    status_of(step_parts(alloc, bytes, sink), errors)
}
