//! Prints the report of a cluster.

ghost use Rattle.std.specs.Prelude.{ℕ, ◌≡◌, ◌<◌, ◌≤◌, ◌+◌, ◌⊎◌, ◌++◌, length, string_bytes, Some, [], IfErr, IsErrOf, OnOk, slice_get};
ghost use Rattle.std.specs.Io.KnownBytes.{Appends};
ghost use Rattle.std.specs.List.{flat_map};
ghost use Rattle.std.specs.Option.{option_map_or};
ghost use Rattle.mencius_base.specs.Members.{IsMember, numbers_below};
ghost use Rattle.mencius_io.specs.Streams.{HasFailed, WritesFront, most_failed_calls};
ghost use Rattle.mencius_app.specs.Report.{report_text, server_line};
ghost use Rattle.mencius_model.specs.Trace.{submitted_commands};
ghost use Rattle.mencius_cluster.specs.State.{trace_of};
ghost use Rattle.mencius_model.specs.Replies.{reply_of};
ghost use Rattle.mencius_trace.specs.Words.{answer_line, tickets_text};

use crate::fault::AppFault;
use mencius_cluster::{Cluster, laws};
use mencius_format::push_id;
use mencius_io::{Sink, write_all};
use mencius_trace::push_answer;
use std::alloc::{AllocError, Global};

/// Writes the whole report of a cluster. At most 1,001 calls of the writer fail.
pub fn report<W: Sink>(alloc: Global, cluster: &Cluster, sink: &mut W) -> Result<(), AppFault>
    ensures whole { OnOk result (Appends (W.state sink.old).bytes (W.state sink.new).bytes
        (report_text cluster.now.members (trace_of cluster.now))) }
    ensures faults { IfErr result (λ f. (f ≡ AppFault.WriteFailed) ⊎ (f ≡ AppFault.NoMemory)) }
    ensures failed { IsErrOf result AppFault.WriteFailed
        → HasFailed (W.state sink.old).failures (W.state sink.new).failures }
    ensures front { IsErrOf result AppFault.WriteFailed
        → WritesFront (W.state sink.old).bytes (W.state sink.new).bytes
        (report_text cluster.now.members (trace_of cluster.now)) }
    ensures nothing { IsErrOf result AppFault.NoMemory → sink.new ≡ sink.old }
    ensures tried { (W.state sink.new).failures ≤ (W.state sink.old).failures + most_failed_calls }
{
    let mut text = String::new(alloc);
    push_report(&mut text, cluster)?;
    write_all(sink, text.as_bytes())?;
    Ok(())
}

/// Adds the report of a cluster to a text.
#[tactic(auto, unfolding(crate::specs::Report::report_text))]
pub(crate) fn push_report(text: &mut String, cluster: &Cluster) -> Result<(), AllocError>
    ensures { OnOk result (string_bytes text.new
        ≡ string_bytes text.old ++ report_text cluster.now.members (trace_of cluster.now)) }
{
    let servers = cluster.servers();
    let messages = cluster.messages();
    let events = cluster.events();
    writeln!(
        text,
        "servers {servers} messages {messages} events {events}"
    )?;
    push_servers(text, cluster)?;
    push_replies(text, cluster)
}

fn push_servers(text: &mut String, cluster: &Cluster) -> Result<(), AllocError>
    ensures { OnOk result (string_bytes text.new ≡ string_bytes text.old
        ++ flat_map (server_line cluster.now.members (trace_of cluster.now))
        (numbers_below cluster.now.members.count)) }
{
    for server in 0..cluster.servers() {
        push_server(text, cluster, server)?;
    }
    Ok(())
}

/// Adds the line of a server, with its front, the number of instances that it executed, and its history.
pub(crate) fn push_server(
    text: &mut String,
    cluster: &Cluster,
    server: u8,
) -> Result<(), AllocError>
    requires { IsMember cluster.now.members server }
    ensures { OnOk result (string_bytes text.new
        ≡ string_bytes text.old ++ server_line cluster.now.members (trace_of cluster.now) server) }
{
    laws::once(); // proof: a history has each command once
    cluster.replays(); // proof: the journal replays to the trace
    let Some(front) = cluster.front(server) else {
        unreachable!();
    };
    let Some(done) = cluster.done(server) else {
        unreachable!();
    };
    let Some(history) = cluster.history(server) else {
        unreachable!();
    };
    write!(text, "server {server} front {front} done {done} history")?;
    push_history(text, cluster, history)?;
    text.push('\n')
}

fn push_history(text: &mut String, cluster: &Cluster, tickets: &[u32]) -> Result<(), AllocError>
    requires { (n t : ℕ) → slice_get tickets.now n ≡ Some t
        → t < length (submitted_commands (trace_of cluster.now)) }
    ensures { OnOk result (string_bytes text.new
        ≡ string_bytes text.old ++ tickets_text (trace_of cluster.now) tickets.now) }
{
    if tickets.is_empty() {
        return text.push_str(" -");
    }
    for ticket in tickets {
        let Some(command) = cluster.command(*ticket) else {
            unreachable!();
        };
        text.push(' ')?;
        push_id(text, command.id())?;
    }
    Ok(())
}

fn push_replies(text: &mut String, cluster: &Cluster) -> Result<(), AllocError>
    ensures { OnOk result (string_bytes text.new ≡ string_bytes text.old
        ++ flat_map (λ x. answer_line x.0.id (reply_of (trace_of cluster.now) x.0.id))
        (submitted_commands (trace_of cluster.now))) }
{
    for ticket in 0..cluster.commands() {
        push_reply(text, cluster, ticket)?;
    }
    Ok(())
}

fn push_reply(text: &mut String, cluster: &Cluster, ticket: u32) -> Result<(), AllocError>
    requires { ticket < length (submitted_commands (trace_of cluster.now)) }
    ensures { OnOk result (string_bytes text.new ≡ string_bytes text.old
        ++ option_map_or (λ x. answer_line x.0.id (reply_of (trace_of cluster.now) x.0.id))
        (slice_get (submitted_commands (trace_of cluster.now)) ticket) []) }
{
    let Some(submission) = cluster.submission(ticket) else {
        unreachable!();
    };
    text.push_str("reply ")?;
    push_id(text, submission.command.id())?;
    text.push(' ')?;
    push_answer(text, &submission.reply)?;
    text.push('\n')
}
