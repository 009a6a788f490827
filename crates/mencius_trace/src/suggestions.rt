//! The instances that a command was suggested for.

ghost use Rattle.std.specs.Prelude.{◌≡◌, ◌++◌, slice_get, IfOk, OnOk};
ghost use Rattle.mencius_base.specs.Command.{is_same_id};
ghost use Rattle.mencius_cluster.specs.State.{trace_of};
ghost use Rattle.mencius_model.specs.Trace.{sent_messages};
ghost use Rattle.mencius_trace.specs.After.{of_message};
ghost use Rattle.mencius_trace.specs.Suggestions.{is_ticket_of, suggested_in, suggested_instances};

use mencius_base::{CommandId, Message, Vote};
use mencius_cluster::Cluster;
use std::alloc::{AllocError, Global};

/// Returns the instances that the command with this identity was suggested for, in the order of the suggestions.
pub fn suggested_instances(
    alloc: Global,
    cluster: &Cluster,
    id: CommandId,
) -> Result<Vec<u32>, AllocError>
    ensures { IfOk result (λ found. found.items ≡ suggested_instances (trace_of cluster.now) id) }
{
    let mut found = Vec::new(alloc);
    for number in 0..cluster.messages() {
        push_suggested(&mut found, cluster, id, number)?;
    }
    Ok(found)
}

fn push_suggested(
    found: &mut Vec<u32>,
    cluster: &Cluster,
    id: CommandId,
    number: u32,
) -> Result<(), AllocError>
    ensures { OnOk result (found.new.items ≡ found.old.items
        ++ of_message (suggested_in (trace_of cluster.now) id) number
        (slice_get (sent_messages (trace_of cluster.now)) number)) }
{
    let _named: Option<Vote> = None; // proof: a message can hold a vote
    match cluster.message(number) {
        Some(message) => push_suggested_in(found, cluster, id, number, &message),
        None => Ok(()),
    }
}

fn push_suggested_in(
    found: &mut Vec<u32>,
    cluster: &Cluster,
    id: CommandId,
    number: u32,
    message: &Message,
) -> Result<(), AllocError>
    ensures { OnOk result (found.new.items ≡ found.old.items
        ++ suggested_in (trace_of cluster.now) id (number, message.now)) }
{
    let Message::Suggest { inst, ticket, .. } = *message else {
        return Ok(());
    };
    if is_ticket_of(cluster, id, ticket) {
        found.push(inst)?;
    }
    Ok(())
}

fn is_ticket_of(cluster: &Cluster, id: CommandId, ticket: u32) -> bool
    ensures { result ≡ is_ticket_of (trace_of cluster.now) id ticket }
{
    match cluster.command(ticket) {
        Some(command) => is_same_id(command.id(), id),
        None => false,
    }
}

/// Returns whether two identities are the same.
pub(crate) fn is_same_id(first: CommandId, second: CommandId) -> bool
    ensures { result ≡ is_same_id first second }
{
    first.client == second.client && first.number == second.number
}
