//! Steps a cluster through a schedule, and delivers all its messages again.
//!
//! Standard input contains the schedule, which is a scenario of a replay. After its events, the program delivers each
//! message that was sent so far again, from the last to the first, twice over. Messages that are sent meanwhile are left
//! alone. Then each server executes all that it can. After each event, no history and no reply may have changed (see
//! `observed`). These checks are tested, not proved. They take no facts from the contracts, although the contracts
//! already state the laws.
//!
//! The exit status is one of these:
//!
//! - 0 if nothing is wrong.
//! - 2 if standard input contains no scenario of a replay.
//! - 6 if memory ran out.
//! - 9 if something is wrong. Standard error then names it.

use crate::observed::Observed;
use mencius_base::{Event, INSTANCES, Members, NoMemory, Vote};
use mencius_cluster::Cluster;
use mencius_input::{Events, read_scenario};
use mencius_io::{IoFault, Sink, write_all};
use std::alloc::{AllocError, Global};

// Why a walk ends early.
#[derive(Clone, Copy, Debug, PartialEq, Eq)]
enum Stop {
    // Standard input contains no scenario.
    NoScenario,
    // Memory ran out.
    NoMemory,
    // Something is wrong, and the text names it.
    Broken(&'static str),
}

impl From<AllocError> for Stop {
    fn from(_refused: AllocError) -> Stop {
        Stop::NoMemory
    }
}

impl From<NoMemory> for Stop {
    fn from(_refused: NoMemory) -> Stop {
        Stop::NoMemory
    }
}

// A cluster, and its histories and replies so far.
#[derive(Drop)]
struct Walk {
    cluster: Cluster,
    seen: Observed,
}

impl Walk {
    fn new(alloc: Global, members: Members) -> Result<Walk, Stop> {
        let Ok(cluster) = Cluster::new(alloc, members) else {
            return Err(Stop::NoMemory);
        };
        Ok(Walk {
            cluster,
            seen: Observed::new(alloc),
        })
    }

    // Steps the cluster by an event. Returns whether the cluster accepted it.
    fn take(&mut self, event: Event) -> Result<bool, Stop> {
        let answer = self.cluster.step(event);
        if let Err(refusal) = &answer {
            refusal.memory_apart()?;
        }
        match self.seen.see(&self.cluster)? {
            Some(problem) => Err(Stop::Broken(problem)),
            None => Ok(answer.is_ok()),
        }
    }

    // Steps the cluster through the events of a schedule.
    fn follow(&mut self, events: Events) -> Result<(), Stop> {
        for event in events {
            self.take(event)?;
        }
        Ok(())
    }

    // Delivers the first `sent` messages, from the last to the first. Each message goes to every server that it was
    // sent to.
    fn deliver_backwards(&mut self, sent: u32) -> Result<(), Stop> {
        for back in 1..=sent {
            self.deliver_everywhere(sent - back)?;
        }
        Ok(())
    }

    fn deliver_everywhere(&mut self, message: u32) -> Result<(), Stop> {
        let _named: Option<Vote> = None; // proof: a message can hold a vote
        let Some(sent) = self.cluster.message(message) else {
            return Ok(());
        };
        for server in 0..self.cluster.servers() {
            if sent.is_sent_to(server) {
                self.take(Event::Deliver { message, server })?;
            }
        }
        Ok(())
    }

    // Lets each server execute until the cluster refuses.
    fn execute_all(&mut self) -> Result<(), Stop> {
        for server in 0..self.cluster.servers() {
            self.execute(server)?;
        }
        Ok(())
    }

    fn execute(&mut self, server: u8) -> Result<(), Stop> {
        for _ in 0..INSTANCES {
            if !self.take(Event::Execute { server })? {
                break;
            }
        }
        Ok(())
    }

    // Delivers all messages again, and lets each server execute all that it can.
    fn send_again(&mut self) -> Result<(), Stop> {
        let sent = self.cluster.messages();
        self.deliver_backwards(sent)?;
        self.deliver_backwards(sent)?;
        self.execute_all()
    }
}

// Steps a cluster through the schedule in the bytes, and delivers all its messages again.
fn try_schedule(alloc: Global, bytes: &[u8]) -> Result<(), Stop> {
    let scenario = match read_scenario(alloc, bytes) {
        Ok(scenario) => scenario,
        Err(IoFault::NoMemory) => return Err(Stop::NoMemory),
        Err(_) => return Err(Stop::NoScenario),
    };
    let mut walk = Walk::new(alloc, scenario.members)?;
    walk.follow(scenario.course)?;
    walk.send_again()
}

/// Tests the histories and replies on the schedule in the bytes. Returns the exit status, and writes what is wrong to
/// standard error.
pub fn try_laws<E: Sink>(alloc: Global, bytes: &[u8], errors: &mut E) -> u8 {
    match try_schedule(alloc, bytes) {
        Ok(()) => 0,
        Err(Stop::NoScenario) => 2,
        Err(Stop::NoMemory) => 6,
        Err(Stop::Broken(problem)) => {
            let _ = write_all(errors, problem.as_bytes());
            9
        }
    }
}
