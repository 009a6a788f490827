//! Compares two clusters by the results of their calls.

use mencius_base::INSTANCES;
use mencius_cluster::Cluster;
use std::alloc::{AllocError, Global};
use std::fmt::Debug;

// Returns the name of the first call about a server whose results differ.
fn of_server(first: &Cluster, second: &Cluster, server: u8) -> Option<&'static str> {
    if first.front(server) != second.front(server) {
        return Some("front");
    }
    if first.done(server) != second.done(server) {
        return Some("done");
    }
    if first.history(server) != second.history(server) {
        return Some("history");
    }
    for inst in 0..INSTANCES {
        if first.learned(server, inst) != second.learned(server, inst) {
            return Some("learned");
        }
        if first.waiting_at(server, inst) != second.waiting_at(server, inst) {
            return Some("waiting");
        }
    }
    None
}

fn of_servers(first: &Cluster, second: &Cluster) -> Option<&'static str> {
    if first.servers() != second.servers() {
        return Some("servers");
    }
    if first.longest() != second.longest() {
        return Some("longest");
    }
    for server in 0..first.servers() {
        let found = of_server(first, second, server);
        if found.is_some() {
            return found;
        }
    }
    None
}

// Whether two results are printed differently.
fn differ<T: Debug>(alloc: Global, first: &T, second: &T) -> Result<bool, AllocError> {
    let text = format!(in alloc; "{first:?}")?;
    let text_again = format!(in alloc; "{second:?}")?;
    Ok(text.as_str() != text_again.as_str())
}

// Returns the name of the first call about a command whose results differ.
fn of_command(
    alloc: Global,
    first: &Cluster,
    second: &Cluster,
    ticket: u32,
) -> Result<Option<&'static str>, AllocError> {
    let command = first.command(ticket);
    if differ(alloc, &command, &second.command(ticket))? {
        return Ok(Some("command"));
    }
    if differ(alloc, &first.submission(ticket), &second.submission(ticket))? {
        return Ok(Some("submission"));
    }
    let Some(command) = command else {
        return Ok(None);
    };
    if differ(
        alloc,
        &first.reply(command.id()),
        &second.reply(command.id()),
    )? {
        return Ok(Some("reply"));
    }
    Ok(None)
}

// Returns the name of the first call about the commands and their replies whose results differ.
fn of_commands(
    alloc: Global,
    first: &Cluster,
    second: &Cluster,
) -> Result<Option<&'static str>, AllocError> {
    if first.commands() != second.commands() {
        return Ok(Some("commands"));
    }
    for ticket in 0..first.commands() {
        let found = of_command(alloc, first, second, ticket)?;
        if found.is_some() {
            return Ok(found);
        }
    }
    Ok(None)
}

fn of_messages(first: &Cluster, second: &Cluster) -> Option<&'static str> {
    if first.messages() != second.messages() {
        return Some("messages");
    }
    for number in 0..first.messages() {
        if first.message(number) != second.message(number) {
            return Some("message");
        }
    }
    None
}

/// Compares the results of all calls of two clusters. Returns the name of the first call whose results differ, or
/// `None` if all results are the same.
pub fn first_difference(
    alloc: Global,
    first: &Cluster,
    second: &Cluster,
) -> Result<Option<&'static str>, AllocError> {
    if first.events() != second.events() {
        return Ok(Some("events"));
    }
    if first.journal() != second.journal() {
        return Ok(Some("journal"));
    }
    if let Some(found) = of_messages(first, second) {
        return Ok(Some(found));
    }
    if let Some(found) = of_servers(first, second) {
        return Ok(Some(found));
    }
    of_commands(alloc, first, second)
}
