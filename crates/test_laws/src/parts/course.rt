//! Steps single servers and executors through a scenario.

use super::Parts;
use super::same::first_difference;
use crate::watched::{Call, Stop};
use mencius_base::{Event, Refusal};
use mencius_input::{Events, read_scenario};
use mencius_io::{Sink, write_all};
use std::alloc::Global;

impl Parts {
    // Takes an event after the first `taken` events of the scenario. Returns the call that was refused memory, if any.
    fn take(
        &mut self,
        alloc: Global,
        bytes: &[u8],
        taken: usize,
        event: Event,
    ) -> Result<Option<Call>, Stop> {
        let mut answer = self.call(&event);
        let mut refused = None;
        if answer == Err(Refusal::NoMemory) {
            refused = call_of(&event);
            self.judge(alloc, bytes, taken)?;
            answer = self.call(&event);
        }
        if answer == Err(Refusal::NoMemory) {
            return Err(Stop::Changed("call again"));
        }
        self.settle(event, answer).map_err(|_| Stop::Elsewhere)?;
        Ok(refused)
    }

    // Checks that these parts are the same as new parts after the first `taken` events of the scenario.
    fn judge(&self, alloc: Global, bytes: &[u8], taken: usize) -> Result<(), Stop> {
        let before = retraced(alloc, bytes, taken)?;
        match first_difference(&before, self) {
            None => Ok(()),
            Some(difference) => Err(Stop::Changed(difference)),
        }
    }
}

// Returns the call that an event stands for, if there is one.
fn call_of(event: &Event) -> Option<Call> {
    match event {
        Event::Submit { .. } => Some(Call::Submit),
        Event::Deliver { .. } => Some(Call::Hear),
        Event::Lose { .. } => None,
        Event::Suspect { .. } => Some(Call::Suspect),
        Event::Retry { .. } => Some(Call::Retry),
        Event::Execute { .. } => Some(Call::Execute),
    }
}

// Reads the scenario in the bytes. Returns its events, and new parts that have not taken any event.
fn opening(alloc: Global, bytes: &[u8]) -> Result<(Parts, Events), Stop> {
    let Ok(scenario) = read_scenario(alloc, bytes) else {
        return Err(Stop::Elsewhere);
    };
    let Ok(parts) = Parts::new(alloc, scenario.members) else {
        return Err(Stop::Elsewhere);
    };
    Ok((parts, scenario.course))
}

// Returns new parts after the first `taken` events of a scenario.
fn retraced(alloc: Global, bytes: &[u8], taken: usize) -> Result<Parts, Stop> {
    let (mut parts, events) = opening(alloc, bytes)?;
    let mut events = events.into_iter();
    for _ in 0..taken {
        let Some(event) = events.next() else {
            break;
        };
        let answer = parts.call(&event);
        parts.settle(event, answer).map_err(|_| Stop::Elsewhere)?;
    }
    Ok(parts)
}

/// Steps servers and executors through the scenario in the bytes, and writes their progress. Returns the last call that
/// was refused memory, if any.
pub fn step_parts<W: Sink>(
    alloc: Global,
    bytes: &[u8],
    sink: &mut W,
) -> Result<Option<Call>, Stop> {
    let (mut parts, events) = opening(alloc, bytes)?;
    let mut refused = None;
    let mut taken: usize = 0;
    for event in events {
        if let Some(call) = parts.take(alloc, bytes, taken, event)? {
            refused = Some(call);
        }
        taken = taken.saturating_add(1);
    }
    let Ok(text) = parts.report(alloc) else {
        return Err(Stop::Elsewhere);
    };
    match write_all(sink, text.as_bytes()) {
        Ok(()) => Ok(refused),
        Err(_) => Err(Stop::Elsewhere),
    }
}
