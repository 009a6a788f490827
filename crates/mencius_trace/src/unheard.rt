//! The messages that may still be heard.

ghost use Rattle.std.specs.Prelude.{◌≡◌, ◌<◌, ◌++◌, ◌||◌, ℕ, IfOk, OnOk, slice_get, string_bytes};
ghost use Rattle.std.specs.List.{list_any};
ghost use Rattle.mencius_base.specs.Limits.{most_servers};
ghost use Rattle.mencius_cluster.specs.MessageBits.{has_bit_in};
ghost use Rattle.mencius_cluster.specs.State.{trace_of};
ghost use Rattle.mencius_model.specs.Trace.{sent_messages};
ghost use Rattle.mencius_trace.specs.After.{of_message};
ghost use Rattle.mencius_trace.specs.LastLines.{is_settled_by, last_line, unheard_at, unheard_lines, unheard_text};
ghost use Rattle.mencius_trace.specs.Settled.{AreSettled, IsOfServer, is_settled_by_entry};

use crate::event_lines::push_fact_rest;
use crate::fact::Fact;
use crate::view::{View, concerns};
use mencius_base::{Entry, Message, NoMemory, Vote};
use mencius_cluster::{Cluster, MessageBits};
use std::alloc::{AllocError, Global};

/// Adds a line for each message and each server that it goes to, if the server neither heard nor lost it. The work
/// grows with the number of messages and the length of the journal. The messages and the journal are each read once.
pub(crate) fn push_unheard(
    alloc: Global,
    text: &mut String,
    view: &View,
    suggested: &[u32],
    cluster: &Cluster,
) -> Result<(), NoMemory>
    ensures { OnOk result (string_bytes text.new ≡ string_bytes text.old
        ++ unheard_text view.now suggested.now cluster.now.members (trace_of cluster.now)) }
{
    let settled = settled(alloc, cluster)?;
    push_all(text, view, suggested, cluster, &settled)?;
    Ok(())
}

// Returns a mark for each pair of a message and a server that heard or lost it.
fn settled(alloc: Global, cluster: &Cluster) -> Result<MessageBits, NoMemory>
    ensures { IfOk result (AreSettled (trace_of cluster.now)) }
{
    cluster.replays(); // proof: the journal replays to the trace
    let _within_limit = cluster.servers(); // proof: 1 to 7 servers
    let mut marks = MessageBits::new(alloc);
    for entry in cluster.journal() {
        settle(&mut marks, entry)?;
    }
    Ok(marks)
}

fn settle(marks: &mut MessageBits, entry: &Entry) -> Result<(), NoMemory>
    requires { IsOfServer entry.now }
    ensures { OnOk result ((k p : ℕ) → has_bit_in marks.new k p
        ≡ (is_settled_by_entry k p entry.now || has_bit_in marks.old k p)) }
{
    match *entry {
        Entry::Deliver { message, server } | Entry::Lose { message, server } => {
            marks.reserve(message)?;
            marks.mark(message, server);
            Ok(())
        }
        Entry::Submit { .. }
        | Entry::Suspect { .. }
        | Entry::Retry { .. }
        | Entry::Execute { .. } => Ok(()),
    }
}

fn push_all(
    text: &mut String,
    view: &View,
    suggested: &[u32],
    cluster: &Cluster,
    settled: &MessageBits,
) -> Result<(), AllocError>
    requires { AreSettled (trace_of cluster.now) settled.now }
    ensures { OnOk result (string_bytes text.new ≡ string_bytes text.old
        ++ unheard_text view.now suggested.now cluster.now.members (trace_of cluster.now)) }
{
    for number in 0..cluster.messages() {
        push_unheard_lines(text, view, suggested, cluster, settled, number)?;
    }
    Ok(())
}

fn push_unheard_lines(
    text: &mut String,
    view: &View,
    suggested: &[u32],
    cluster: &Cluster,
    settled: &MessageBits,
    number: u32,
) -> Result<(), AllocError>
    requires { AreSettled (trace_of cluster.now) settled.now }
    ensures { OnOk result (string_bytes text.new ≡ string_bytes text.old
        ++ of_message (unheard_lines view.now suggested.now cluster.now.members (trace_of cluster.now)) number
        (slice_get (sent_messages (trace_of cluster.now)) number)) }
{
    let _named: Option<Vote> = None; // proof: a message can hold a vote
    match cluster.message(number) {
        Some(message) => {
            push_for_each(text, view, suggested, cluster, settled, number, &message)
        }
        None => Ok(()),
    }
}

fn push_for_each(
    text: &mut String,
    view: &View,
    suggested: &[u32],
    cluster: &Cluster,
    settled: &MessageBits,
    number: u32,
    message: &Message,
) -> Result<(), AllocError>
    requires { AreSettled (trace_of cluster.now) settled.now }
    ensures { OnOk result (string_bytes text.new ≡ string_bytes text.old
        ++ unheard_lines view.now suggested.now cluster.now.members (trace_of cluster.now) (number, message.now)) }
{
    for server in 0..cluster.servers() {
        push_for(
            text, view, suggested, cluster, settled, number, message, server,
        )?;
    }
    Ok(())
}

fn push_for(
    text: &mut String,
    view: &View,
    suggested: &[u32],
    cluster: &Cluster,
    settled: &MessageBits,
    number: u32,
    message: &Message,
    server: u8,
) -> Result<(), AllocError>
    requires small { server < most_servers }
    requires settled { has_bit_in settled.now number server
        ≡ list_any (is_settled_by number server) (trace_of cluster.now) }
    ensures { OnOk result (string_bytes text.new ≡ string_bytes text.old
        ++ unheard_at view.now suggested.now cluster.now.members (trace_of cluster.now) number message.now server) }
{
    if !message.is_sent_to(server) || settled.is_marked(number, server) {
        return Ok(());
    }
    let _named: Option<Vote> = None; // proof: a message can hold a vote
    let message = *message;
    let fact = Fact::Unheard {
        number,
        message,
        server,
    };
    push_last_line(text, view, suggested, cluster, &fact)
}

fn push_last_line(
    text: &mut String,
    view: &View,
    suggested: &[u32],
    cluster: &Cluster,
    fact: &Fact,
) -> Result<(), AllocError>
    ensures { OnOk result (string_bytes text.new ≡ string_bytes text.old
        ++ last_line view.now suggested.now cluster.now.members (trace_of cluster.now) fact.now) }
{
    if !concerns(view, suggested, cluster, fact) {
        return Ok(());
    }
    if view.is_json {
        text.push('{')?;
    }
    push_fact_rest(text, view, cluster, fact)
}
