//! Compares single servers and executors by the results of their calls.

use super::Parts;
use crate::watched::KEY;
use map_exec::Executor;
use mencius_base::{INSTANCES, Outbox};
use mencius_server::Server;

/// Compares the results of all calls of two parts. Returns the name of the first call whose results differ, or `None`
/// if all results are the same.
pub fn first_difference(first: &Parts, second: &Parts) -> Option<&'static str> {
    for (one, other) in first.servers.iter().zip(second.servers.iter()) {
        let found = of_server(one, other);
        if found.is_some() {
            return found;
        }
    }
    for (one, other) in first.executors.iter().zip(second.executors.iter()) {
        let found = of_executor(one, other);
        if found.is_some() {
            return found;
        }
    }
    of_messages(&first.out, &second.out)
}

fn of_server(first: &Server, second: &Server) -> Option<&'static str> {
    if first.front() != second.front() {
        return Some("front");
    }
    if first.waiting() != second.waiting() {
        return Some("waiting");
    }
    if first.kept() != second.kept() {
        return Some("kept");
    }
    for inst in 0..INSTANCES {
        let found = of_instance(first, second, inst);
        if found.is_some() {
            return found;
        }
    }
    None
}

fn of_instance(first: &Server, second: &Server, inst: u32) -> Option<&'static str> {
    if first.learned(inst) != second.learned(inst) {
        return Some("learned");
    }
    if first.glance(inst) != second.glance(inst) {
        return Some("glance");
    }
    if first.waiting_at(inst) != second.waiting_at(inst) {
        return Some("waiting at");
    }
    None
}

fn of_executor(first: &Executor, second: &Executor) -> Option<&'static str> {
    if first.history() != second.history() {
        return Some("history");
    }
    if first.get(KEY) != second.get(KEY) {
        return Some("get");
    }
    None
}

fn of_messages(first: &Outbox, second: &Outbox) -> Option<&'static str> {
    if first.messages() != second.messages() {
        return Some("messages");
    }
    if first.limit() != second.limit() {
        return Some("limit");
    }
    None
}
