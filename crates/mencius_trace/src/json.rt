//! The JSON objects of a trace. No text in them needs an escape.

ghost use Rattle.std.specs.Prelude.{◌≡◌, ◌++◌, ◌<◌, OnOk, Some, string_bytes};
ghost use Rattle.std.specs.List.{flat_map};
ghost use Rattle.mencius_base.specs.Limits.{instance_count};
ghost use Rattle.mencius_base.specs.Members.{IsMember, instances};
ghost use Rattle.mencius_cluster.specs.Answers.{bytes_in};
ghost use Rattle.mencius_cluster.specs.State.{trace_of};
ghost use Rattle.mencius_model.specs.Replies.{command_at};
ghost use Rattle.mencius_model.specs.Server.{waiting_at};
ghost use Rattle.mencius_trace.specs.Effects.{instance_of};
ghost use Rattle.mencius_trace.specs.Json.{answer_json, ballot_json, command_json, content_json, done_fields, event_json, fact_json, front_field, front_json, ignored_json, kind_json, place_json, progress_json, reason_json, refused_json, reply_fact_json, reply_json, sent_json, server_json, server_start, servers_json, tally_json, ticket_json, unheard_json, value_fact_json, value_json, vote_json, waiting_json, way_json, word_ballot_json, word_json};

use crate::before::{instance_of, server_of};
use crate::fact::Fact;
use crate::facts::{kind_of, push_value};
use crate::reaction::Reaction;
use crate::words::{push_answer, push_ticket};
use mencius_base::{Ballot, CommandId, Event, INSTANCES, Message, Refusal, Value, Vote};
use mencius_cluster::{Answered, Cluster};
use mencius_format::{push_event, push_id};
use std::alloc::AllocError;

fn push_ballot(text: &mut String, inst: u32, ballot: Ballot) -> Result<(), AllocError>
    ensures { OnOk result (string_bytes text.new ≡ string_bytes text.old ++ ballot_json inst ballot) }
{
    let ballot = ballot.number();
    write!(text, ",\"instance\":{inst},\"ballot\":{ballot}")
}

fn push_place(text: &mut String, server: u8, inst: u32) -> Result<(), AllocError>
    ensures { OnOk result (string_bytes text.new ≡ string_bytes text.old ++ place_json server inst) }
{
    write!(text, ",\"server\":{server},\"instance\":{inst}")
}

fn push_value_field(text: &mut String, cluster: &Cluster, value: Value) -> Result<(), AllocError>
    ensures { OnOk result (string_bytes text.new
        ≡ string_bytes text.old ++ value_json (trace_of cluster.now) value) }
{
    text.push_str(",\"value\":\"")?;
    push_value(text, cluster, value)?;
    text.push_str("\"")
}

fn push_vote(text: &mut String, cluster: &Cluster, vote: Option<Vote>) -> Result<(), AllocError>
    ensures { OnOk result (string_bytes text.new
        ≡ string_bytes text.old ++ vote_json (trace_of cluster.now) vote) }
{
    match vote {
        Some(vote) => push_some_vote(text, cluster, vote),
        None => text.push_str(",\"vote\":null"),
    }
}

fn push_some_vote(text: &mut String, cluster: &Cluster, vote: Vote) -> Result<(), AllocError>
    ensures { OnOk result (string_bytes text.new
        ≡ string_bytes text.old ++ vote_json (trace_of cluster.now) (Some vote)) }
{
    let ballot = vote.ballot.number();
    text.push_str(",\"vote\":{\"ballot\":")?;
    write!(text, "{ballot}")?;
    push_value_field(text, cluster, vote.value)?;
    text.push_str("}")
}

fn push_kind(text: &mut String, message: &Message) -> Result<(), AllocError>
    ensures { OnOk result (string_bytes text.new ≡ string_bytes text.old ++ kind_json message.now) }
{
    let kind = kind_of(message);
    write!(text, ",\"kind\":\"{kind}\"")
}

// Adds the fields of a server and of the instance of a message.
fn push_place_of(text: &mut String, server: u8, message: &Message) -> Result<(), AllocError>
    ensures { OnOk result (string_bytes text.new
        ≡ string_bytes text.old ++ place_json server (instance_of message.now)) }
{
    push_place(text, server, instance_of(message))
}

fn push_way(text: &mut String, message: Message) -> Result<(), AllocError>
    ensures { OnOk result (string_bytes text.new ≡ string_bytes text.old ++ way_json message) }
{
    match message {
        Message::Suggest { from, .. }
        | Message::Skip { from, .. }
        | Message::Prepare { from, .. }
        | Message::Propose { from, .. }
        | Message::Learn { from, .. } => write!(text, ",\"from\":{from},\"to\":\"all\""),
        Message::Accepted { from, to, .. } | Message::Promise { from, to, .. } => {
            write!(text, ",\"from\":{from},\"to\":{to}")
        }
    }
}

fn push_content(text: &mut String, cluster: &Cluster, message: Message) -> Result<(), AllocError>
    ensures { OnOk result (string_bytes text.new
        ≡ string_bytes text.old ++ content_json (trace_of cluster.now) message) }
{
    match message {
        Message::Suggest { inst, ticket, .. } => {
            push_ballot(text, inst, Ballot::OWNER)?;
            push_value_field(text, cluster, Value::Ticket(ticket))
        }
        Message::Skip { first, stop, .. } => write!(text, ",\"first\":{first},\"stop\":{stop}"),
        Message::Accepted { inst, ballot, .. } | Message::Prepare { inst, ballot, .. } => {
            push_ballot(text, inst, ballot)
        }
        Message::Promise {
            inst,
            ballot,
            vote,
            ..
        } => {
            push_ballot(text, inst, ballot)?;
            push_vote(text, cluster, vote)
        }
        Message::Propose {
            inst,
            ballot,
            value,
            ..
        } => {
            push_ballot(text, inst, ballot)?;
            push_value_field(text, cluster, value)
        }
        Message::Learn { inst, value, .. } => {
            write!(text, ",\"instance\":{inst}")?;
            push_value_field(text, cluster, value)
        }
    }
}

fn push_word(text: &mut String, word: &str) -> Result<(), AllocError>
    ensures { OnOk result (string_bytes text.new ≡ string_bytes text.old ++ word_json word.now) }
{
    write!(text, ",\"reason\":\"{word}\"")
}

fn push_word_and_ballot(text: &mut String, word: &str, ballot: Ballot) -> Result<(), AllocError>
    ensures { OnOk result (string_bytes text.new
        ≡ string_bytes text.old ++ word_ballot_json word.now ballot) }
{
    push_word(text, word)?;
    let ballot = ballot.number();
    write!(text, ",\"ballot\":{ballot}")
}

fn push_reason(text: &mut String, cluster: &Cluster, reaction: Reaction) -> Result<(), AllocError>
    ensures { OnOk result (string_bytes text.new
        ≡ string_bytes text.old ++ reason_json (trace_of cluster.now) reaction) }
{
    match reaction {
        Reaction::Promised(ballot) => push_word_and_ballot(text, "promised", ballot),
        Reaction::Tries(ballot) => push_word_and_ballot(text, "tries", ballot),
        Reaction::Learned(value) => {
            push_word(text, "learned")?;
            push_value_field(text, cluster, value)
        }
        Reaction::Proposed => push_word(text, "proposed already"),
        Reaction::Effective | Reaction::Counted => Ok(()),
    }
}

fn push_tally(
    text: &mut String,
    kind: &str,
    server: u8,
    inst: u32,
    ballot: Ballot,
    count: usize,
    majority: u8,
) -> Result<(), AllocError>
    ensures { OnOk result (string_bytes text.new ≡ string_bytes text.old
        ++ tally_json kind.now server inst ballot count majority) }
{
    write!(text, "\"fact\":\"{kind}\",\"server\":{server}")?;
    push_ballot(text, inst, ballot)?;
    write!(text, ",\"count\":{count},\"majority\":{majority}")
}

fn push_value_fact(
    text: &mut String,
    kind: &str,
    cluster: &Cluster,
    server: u8,
    inst: u32,
    value: Value,
) -> Result<(), AllocError>
    ensures { OnOk result (string_bytes text.new ≡ string_bytes text.old
        ++ value_fact_json kind.now (trace_of cluster.now) server inst value) }
{
    write!(text, "\"fact\":\"{kind}\"")?;
    push_place(text, server, inst)?;
    push_value_field(text, cluster, value)
}

fn push_ignored(
    text: &mut String,
    cluster: &Cluster,
    server: u8,
    message: &Message,
    reaction: Reaction,
) -> Result<(), AllocError>
    ensures { OnOk result (string_bytes text.new ≡ string_bytes text.old
        ++ ignored_json (trace_of cluster.now) server message.now reaction) }
{
    text.push_str("\"fact\":\"ignored\"")?;
    push_place_of(text, server, message)?;
    push_kind(text, message)?;
    push_reason(text, cluster, reaction)
}

fn push_sent(
    text: &mut String,
    cluster: &Cluster,
    number: u32,
    message: Message,
) -> Result<(), AllocError>
    ensures { OnOk result (string_bytes text.new
        ≡ string_bytes text.old ++ sent_json (trace_of cluster.now) number message) }
{
    write!(text, "\"fact\":\"sent\",\"message\":{number}")?;
    push_kind(text, &message)?;
    push_way(text, message)?;
    push_content(text, cluster, message)
}

fn push_unheard(
    text: &mut String,
    number: u32,
    message: &Message,
    server: u8,
) -> Result<(), AllocError>
    ensures { OnOk result (string_bytes text.new
        ≡ string_bytes text.old ++ unheard_json number message.now server) }
{
    write!(text, "\"fact\":\"unheard\",\"message\":{number}")?;
    push_kind(text, message)?;
    push_place_of(text, server, message)
}

fn push_reply(text: &mut String, cluster: &Cluster, ticket: u32) -> Result<(), AllocError>
    ensures { OnOk result (string_bytes text.new ≡ string_bytes text.old
        ++ reply_json (trace_of cluster.now) (command_at (trace_of cluster.now) ticket)) }
{
    let Some(submission) = cluster.submission(ticket) else {
        return Ok(());
    };
    push_command(text, submission.command.id())?;
    push_answer_field(text, &submission.reply)
}

fn push_command(text: &mut String, id: CommandId) -> Result<(), AllocError>
    ensures { OnOk result (string_bytes text.new ≡ string_bytes text.old ++ command_json id) }
{
    text.push_str(",\"command\":\"")?;
    push_id(text, id)?;
    text.push_str("\"")
}

fn push_answer_field(text: &mut String, answer: &Answered) -> Result<(), AllocError>
    ensures { OnOk result (string_bytes text.new
        ≡ string_bytes text.old ++ answer_json (Some (bytes_in answer.now))) }
{
    text.push_str(",\"reply\":\"")?;
    push_answer(text, answer)?;
    text.push_str("\"")
}

fn push_refused(text: &mut String, refusal: Refusal) -> Result<(), AllocError>
    ensures { OnOk result (string_bytes text.new ≡ string_bytes text.old ++ refused_json refusal) }
{
    let name = refusal.name();
    write!(text, "\"fact\":\"refused\",\"refusal\":\"{name}\"")
}

fn push_front(text: &mut String, server: u8, front: u32) -> Result<(), AllocError>
    ensures { OnOk result (string_bytes text.new ≡ string_bytes text.old ++ front_json server front) }
{
    text.push_str("\"fact\":\"front\"")?;
    push_place(text, server, front)
}

fn push_reply_fact(
    text: &mut String,
    cluster: &Cluster,
    server: u8,
    inst: u32,
    ticket: u32,
) -> Result<(), AllocError>
    ensures { OnOk result (string_bytes text.new ≡ string_bytes text.old
        ++ reply_fact_json (trace_of cluster.now) server inst ticket) }
{
    text.push_str("\"fact\":\"reply\"")?;
    push_place(text, server, inst)?;
    push_reply(text, cluster, ticket)
}

/// Adds the fields of a fact, without the braces.
pub(crate) fn push_fact_json(
    text: &mut String,
    cluster: &Cluster,
    fact: Fact,
) -> Result<(), AllocError>
    ensures { OnOk result (string_bytes text.new
        ≡ string_bytes text.old ++ fact_json (trace_of cluster.now) fact) }
{
    let _named: Option<Vote> = None; // proof: a message can hold a vote
    match fact {
        Fact::Refused(refusal) => push_refused(text, refusal),
        Fact::Promises {
            server,
            inst,
            ballot,
            count,
            majority,
        } => push_tally(text, "promises", server, inst, ballot, count, majority),
        Fact::Acceptances {
            server,
            inst,
            ballot,
            count,
            majority,
        } => push_tally(text, "acceptances", server, inst, ballot, count, majority),
        Fact::Ignored {
            server,
            message,
            reaction,
        } => push_ignored(text, cluster, server, &message, reaction),
        Fact::Learned {
            server,
            inst,
            value,
        } => push_value_fact(text, "learned", cluster, server, inst, value),
        Fact::Sent { number, message } => push_sent(text, cluster, number, message),
        Fact::Front { server, front } => push_front(text, server, front),
        Fact::Executed {
            server,
            inst,
            value,
        } => push_value_fact(text, "executed", cluster, server, inst, value),
        Fact::Reply {
            server,
            inst,
            ticket,
        } => push_reply_fact(text, cluster, server, inst, ticket),
        Fact::Unheard {
            number,
            message,
            server,
        } => push_unheard(text, number, &message, server),
    }
}

/// Adds the object of an event, with its place among all events.
pub(crate) fn push_event_json(
    text: &mut String,
    place: usize,
    event: &Event,
) -> Result<(), AllocError>
    ensures { OnOk result (string_bytes text.new ≡ string_bytes text.old ++ event_json place event.now) }
{
    let server = server_of(event);
    write!(
        text,
        "{{\"event\":{place},\"fact\":\"event\",\"server\":{server},\"text\":\""
    )?;
    push_event(text, event)?;
    text.push_str("\"}\n")
}

/// Adds the object of the number of servers.
pub(crate) fn push_servers_json(text: &mut String, servers: u8) -> Result<(), AllocError>
    ensures { OnOk result (string_bytes text.new ≡ string_bytes text.old ++ servers_json servers) }
{
    write!(text, "{{\"fact\":\"servers\",\"servers\":{servers}}}\n")
}

/// Adds the objects of a server, which are its progress and the commands that wait at it.
pub(crate) fn push_server_json(
    text: &mut String,
    cluster: &Cluster,
    server: u8,
) -> Result<(), AllocError>
    requires { IsMember cluster.now.members server }
    ensures { OnOk result (string_bytes text.new
        ≡ string_bytes text.old ++ server_json cluster.now.members (trace_of cluster.now) server) }
{
    let Some(front) = cluster.front(server) else {
        unreachable!();
    };
    let Some(done) = cluster.done(server) else {
        unreachable!();
    };
    push_progress(text, server, front, done)?;
    push_waiting(text, cluster, server)
}

fn push_progress(text: &mut String, server: u8, front: u32, done: u32) -> Result<(), AllocError>
    ensures { OnOk result (string_bytes text.new
        ≡ string_bytes text.old ++ progress_json server front done) }
{
    push_server_start(text, server)?;
    push_front_field(text, front)?;
    push_done_fields(text, done)?;
    text.push_str("}\n")
}

fn push_server_start(text: &mut String, server: u8) -> Result<(), AllocError>
    ensures { OnOk result (string_bytes text.new ≡ string_bytes text.old ++ server_start server) }
{
    write!(text, "{{\"fact\":\"server\",\"server\":{server}")
}

fn push_front_field(text: &mut String, front: u32) -> Result<(), AllocError>
    ensures { OnOk result (string_bytes text.new ≡ string_bytes text.old ++ front_field front) }
{
    write!(text, ",\"front\":{front}")
}

fn push_done_fields(text: &mut String, done: u32) -> Result<(), AllocError>
    ensures { OnOk result (string_bytes text.new ≡ string_bytes text.old ++ done_fields done) }
{
    write!(text, ",\"executed\":{done},\"next\":{done}")
}

fn push_waiting(text: &mut String, cluster: &Cluster, server: u8) -> Result<(), AllocError>
    requires { IsMember cluster.now.members server }
    ensures { OnOk result (string_bytes text.new ≡ string_bytes text.old
        ++ flat_map (λ i. waiting_json (trace_of cluster.now) server i
        (waiting_at (trace_of cluster.now) server i)) instances) }
{
    for inst in 0..INSTANCES {
        push_waiting_at(text, cluster, server, inst)?;
    }
    Ok(())
}

fn push_waiting_at(
    text: &mut String,
    cluster: &Cluster,
    server: u8,
    inst: u32,
) -> Result<(), AllocError>
    requires member { IsMember cluster.now.members server }
    requires small { inst < instance_count }
    ensures { OnOk result (string_bytes text.new ≡ string_bytes text.old
        ++ waiting_json (trace_of cluster.now) server inst
        (waiting_at (trace_of cluster.now) server inst)) }
{
    let Some(ticket) = cluster.waiting_at(server, inst) else {
        return Ok(());
    };
    push_waiting_ticket(text, cluster, server, inst, ticket)
}

fn push_waiting_ticket(
    text: &mut String,
    cluster: &Cluster,
    server: u8,
    inst: u32,
    ticket: u32,
) -> Result<(), AllocError>
    ensures { OnOk result (string_bytes text.new ≡ string_bytes text.old
        ++ waiting_json (trace_of cluster.now) server inst (Some ticket)) }
{
    text.push_str("{\"fact\":\"waiting\"")?;
    push_place(text, server, inst)?;
    push_ticket_field(text, cluster, ticket)?;
    text.push_str("}\n")
}

fn push_ticket_field(text: &mut String, cluster: &Cluster, ticket: u32) -> Result<(), AllocError>
    ensures { OnOk result (string_bytes text.new
        ≡ string_bytes text.old ++ ticket_json (trace_of cluster.now) ticket) }
{
    text.push_str(",\"command\":\"")?;
    push_ticket(text, cluster, ticket)?;
    text.push_str("\"")
}
