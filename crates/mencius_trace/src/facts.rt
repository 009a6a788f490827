//! The lines of a printed trace. Each line states one fact.

ghost use Rattle.std.specs.Prelude.{◌≡◌, ◌++◌, string_bytes, OnOk};
ghost use Rattle.mencius_cluster.specs.State.{trace_of};
ghost use Rattle.mencius_model.specs.Replies.{command_at};
ghost use Rattle.mencius_trace.specs.Facts.{at_ballot, content_text, event_line, executed_line, fact_line, front_line, ignored_line, kind_text, learned_line, reason_text, refused_line, reply_line, sent_line, tally_line, unheard_line, value_text, vote_text, way_text, with_value};

use crate::fact::Fact;
use crate::reaction::Reaction;
use crate::words::{push_answer, push_ticket};
use mencius_base::{Ballot, Event, Message, Refusal, Value, Vote};
use mencius_cluster::Cluster;
use mencius_format::{push_event, push_id};
use std::alloc::AllocError;

/// Adds a value to a text. A command is shown by its identity.
pub(crate) fn push_value(
    text: &mut String,
    cluster: &Cluster,
    value: Value,
) -> Result<(), AllocError>
    ensures { OnOk result (string_bytes text.new
        ≡ string_bytes text.old ++ value_text (trace_of cluster.now) value) }
{
    match value {
        Value::Noop => text.push_str("no-op"),
        Value::Ticket(ticket) => push_ticket(text, cluster, ticket),
    }
}

/// Adds a vote with its ballot and value to a text, or says that there is none.
pub(crate) fn push_vote(
    text: &mut String,
    cluster: &Cluster,
    vote: Option<Vote>,
) -> Result<(), AllocError>
    ensures { OnOk result (string_bytes text.new
        ≡ string_bytes text.old ++ vote_text (trace_of cluster.now) vote) }
{
    let Some(vote) = vote else {
        return text.push_str(" vote none");
    };
    let ballot = vote.ballot.number();
    write!(text, " vote {ballot} ")?;
    push_value(text, cluster, vote.value)
}

fn push_with_value(text: &mut String, cluster: &Cluster, value: Value) -> Result<(), AllocError>
    ensures { OnOk result (string_bytes text.new
        ≡ string_bytes text.old ++ with_value (trace_of cluster.now) value) }
{
    text.push_str(" value ")?;
    push_value(text, cluster, value)
}

fn push_at_ballot(text: &mut String, inst: u32, ballot: Ballot) -> Result<(), AllocError>
    ensures { OnOk result (string_bytes text.new
        ≡ string_bytes text.old ++ at_ballot inst ballot) }
{
    let ballot = ballot.number();
    write!(text, " instance {inst} ballot {ballot}")
}

pub(crate) fn kind_of(message: &Message) -> &'static str
    ensures { result.now ≡ kind_text message.now }
{
    match message {
        Message::Suggest { .. } => "Suggest",
        Message::Skip { .. } => "Skip",
        Message::Accepted { .. } => "Accepted",
        Message::Prepare { .. } => "Prepare",
        Message::Promise { .. } => "Promise",
        Message::Propose { .. } => "Propose",
        Message::Learn { .. } => "Learn",
    }
}

fn push_way(text: &mut String, message: Message) -> Result<(), AllocError>
    ensures { OnOk result (string_bytes text.new ≡ string_bytes text.old ++ way_text message) }
{
    match message {
        Message::Suggest { from, .. }
        | Message::Skip { from, .. }
        | Message::Prepare { from, .. }
        | Message::Propose { from, .. }
        | Message::Learn { from, .. } => write!(text, " from {from} to all"),
        Message::Accepted { from, to, .. } | Message::Promise { from, to, .. } => {
            write!(text, " from {from} to {to}")
        }
    }
}

fn push_content(text: &mut String, cluster: &Cluster, message: Message) -> Result<(), AllocError>
    ensures { OnOk result (string_bytes text.new
        ≡ string_bytes text.old ++ content_text (trace_of cluster.now) message) }
{
    match message {
        Message::Suggest { inst, ticket, .. } => {
            push_at_ballot(text, inst, Ballot::OWNER)?;
            push_with_value(text, cluster, Value::Ticket(ticket))
        }
        Message::Skip { first, stop, .. } => write!(text, " instances {first} to {stop}"),
        Message::Accepted { inst, ballot, .. } | Message::Prepare { inst, ballot, .. } => {
            push_at_ballot(text, inst, ballot)
        }
        Message::Promise {
            inst,
            ballot,
            vote,
            ..
        } => {
            push_at_ballot(text, inst, ballot)?;
            push_vote(text, cluster, vote)
        }
        Message::Propose {
            inst,
            ballot,
            value,
            ..
        } => {
            push_at_ballot(text, inst, ballot)?;
            push_with_value(text, cluster, value)
        }
        Message::Learn { inst, value, .. } => {
            write!(text, " instance {inst}")?;
            push_with_value(text, cluster, value)
        }
    }
}

// Adds the line of a message that was sent, with its number.
fn push_sent(
    text: &mut String,
    cluster: &Cluster,
    number: u32,
    message: Message,
) -> Result<(), AllocError>
    ensures { OnOk result (string_bytes text.new
        ≡ string_bytes text.old ++ sent_line (trace_of cluster.now) (number, message)) }
{
    let kind = kind_of(&message);
    write!(text, "sent {number} {kind}")?;
    push_way(text, message)?;
    push_content(text, cluster, message)?;
    text.push('\n')
}

/// Adds the line of an event, with its place among all events.
pub(crate) fn push_event_line(
    text: &mut String,
    place: usize,
    event: &Event,
) -> Result<(), AllocError>
    ensures { OnOk result (string_bytes text.new
        ≡ string_bytes text.old ++ event_line place event.now) }
{
    write!(text, "event {place} ")?;
    push_event(text, event)?;
    text.push('\n')
}

fn push_refused(text: &mut String, refusal: Refusal) -> Result<(), AllocError>
    ensures { OnOk result (string_bytes text.new ≡ string_bytes text.old ++ refused_line refusal) }
{
    let name = refusal.name();
    writeln!(text, "refused {name}")
}

fn push_learned(
    text: &mut String,
    cluster: &Cluster,
    server: u8,
    inst: u32,
    value: Value,
) -> Result<(), AllocError>
    ensures { OnOk result (string_bytes text.new ≡ string_bytes text.old
        ++ learned_line (trace_of cluster.now) server inst value) }
{
    write!(text, "learned {server} instance {inst}")?;
    push_with_value(text, cluster, value)?;
    text.push('\n')
}

fn push_executed(
    text: &mut String,
    cluster: &Cluster,
    server: u8,
    inst: u32,
    value: Value,
) -> Result<(), AllocError>
    ensures { OnOk result (string_bytes text.new ≡ string_bytes text.old
        ++ executed_line (trace_of cluster.now) server inst value) }
{
    write!(text, "executed {server} instance {inst}")?;
    push_with_value(text, cluster, value)?;
    text.push('\n')
}

fn push_front(text: &mut String, server: u8, front: u32) -> Result<(), AllocError>
    ensures { OnOk result (string_bytes text.new
        ≡ string_bytes text.old ++ front_line server front) }
{
    writeln!(text, "front {server} {front}")
}

// Adds the line with the number of servers whose promises or acceptances were counted, and the number of servers that
// is a majority.
fn push_tally(
    text: &mut String,
    kind: &str,
    server: u8,
    inst: u32,
    ballot: Ballot,
    count: usize,
    majority: u8,
) -> Result<(), AllocError>
    ensures { OnOk result (string_bytes text.new ≡ string_bytes text.old
        ++ tally_line kind.now server inst ballot count majority) }
{
    write!(text, "{kind} {server}")?;
    push_at_ballot(text, inst, ballot)?;
    writeln!(text, " count {count} of {majority}")
}

fn push_reason(text: &mut String, cluster: &Cluster, reaction: Reaction) -> Result<(), AllocError>
    ensures { OnOk result (string_bytes text.new
        ≡ string_bytes text.old ++ reason_text (trace_of cluster.now) reaction) }
{
    match reaction {
        Reaction::Promised(ballot) => {
            let ballot = ballot.number();
            write!(text, "promised {ballot}")
        }
        Reaction::Tries(ballot) => {
            let ballot = ballot.number();
            write!(text, "tries {ballot}")
        }
        Reaction::Learned(value) => {
            text.push_str("learned ")?;
            push_value(text, cluster, value)
        }
        Reaction::Proposed => text.push_str("proposed already"),
        Reaction::Effective | Reaction::Counted => Ok(()),
    }
}

fn push_ignored(text: &mut String, cluster: &Cluster, reaction: Reaction) -> Result<(), AllocError>
    ensures { OnOk result (string_bytes text.new
        ≡ string_bytes text.old ++ ignored_line (trace_of cluster.now) reaction) }
{
    text.push_str("ignored ")?;
    push_reason(text, cluster, reaction)?;
    text.push('\n')
}

fn push_reply(text: &mut String, cluster: &Cluster, ticket: u32) -> Result<(), AllocError>
    ensures { OnOk result (string_bytes text.new ≡ string_bytes text.old
        ++ reply_line (trace_of cluster.now) (command_at (trace_of cluster.now) ticket)) }
{
    let Some(submission) = cluster.submission(ticket) else {
        return Ok(());
    };
    text.push_str("reply ")?;
    push_id(text, submission.command.id())?;
    text.push(' ')?;
    push_answer(text, &submission.reply)?;
    text.push('\n')
}

fn push_unheard(
    text: &mut String,
    number: u32,
    message: &Message,
    server: u8,
) -> Result<(), AllocError>
    ensures { OnOk result (string_bytes text.new
        ≡ string_bytes text.old ++ unheard_line number message.now server) }
{
    let kind = kind_of(message);
    writeln!(text, "unheard {number} {kind} to {server}")
}

/// Adds the line of a fact.
pub(crate) fn push_fact_line(
    text: &mut String,
    cluster: &Cluster,
    fact: Fact,
) -> Result<(), AllocError>
    ensures { OnOk result (string_bytes text.new
        ≡ string_bytes text.old ++ fact_line (trace_of cluster.now) fact) }
{
    let _named: Option<Vote> = None; // proof: a message can hold a vote
    match fact {
        Fact::Refused(refusal) => push_refused(text, refusal),
        Fact::Promises {
            server,
            inst,
            ballot,
            count,
            majority,
        } => push_tally(text, "promises", server, inst, ballot, count, majority),
        Fact::Acceptances {
            server,
            inst,
            ballot,
            count,
            majority,
        } => push_tally(text, "acceptances", server, inst, ballot, count, majority),
        Fact::Ignored { reaction, .. } => push_ignored(text, cluster, reaction),
        Fact::Learned {
            server,
            inst,
            value,
        } => push_learned(text, cluster, server, inst, value),
        Fact::Sent { number, message } => push_sent(text, cluster, number, message),
        Fact::Front { server, front } => push_front(text, server, front),
        Fact::Executed {
            server,
            inst,
            value,
        } => push_executed(text, cluster, server, inst, value),
        Fact::Reply { ticket, .. } => push_reply(text, cluster, ticket),
        Fact::Unheard {
            number,
            message,
            server,
        } => push_unheard(text, number, &message, server),
    }
}
