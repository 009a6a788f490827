//! The lines after the last event.

ghost use Rattle.std.specs.Prelude.{◌≡◌, ◌<◌, ◌++◌, IfOk, OnOk, is_some, string_bytes};
ghost use Rattle.mencius_base.specs.Limits.{instance_count};
ghost use Rattle.mencius_base.specs.Members.{IsMember};
ghost use Rattle.mencius_cluster.specs.State.{trace_of};
ghost use Rattle.mencius_model.specs.Server.{waiting_at, waiting_tickets};
ghost use Rattle.mencius_trace.specs.LastLines.{chosen_server, closing_text, first_line, progress_text, server_line, server_lines, servers_line, ticket_in};
ghost use Rattle.mencius_trace.specs.Words.{tickets_text};

use crate::json::{push_server_json, push_servers_json};
use crate::unheard::push_unheard;
use crate::view::{View, concerns_server, is_filtered};
use crate::words::push_ticket;
use mencius_base::{INSTANCES, Members, NoMemory};
use mencius_cluster::Cluster;
use std::alloc::{AllocError, Global};

/// Adds the chosen lines after the last event. There is a line for each server. There is also a line for each message and each
/// server that it goes to, if the server neither heard nor lost it.
///
/// The running time, and the memory besides the text, grow with the length of the journal.
pub fn push_closing(
    alloc: Global,
    text: &mut String,
    view: &View,
    suggested: &[u32],
    cluster: &Cluster,
) -> Result<(), NoMemory>
    ensures { OnOk result (string_bytes text.new ≡ string_bytes text.old
        ++ closing_text view.now suggested.now cluster.now.members (trace_of cluster.now)) }
{
    push_servers(text, view, suggested, cluster)?;
    push_unheard(alloc, text, view, suggested, cluster)
}

/// Adds the first line, which has the number of servers, unless only some lines are chosen.
pub fn push_opening(text: &mut String, view: &View, members: Members) -> Result<(), AllocError>
    ensures { OnOk result (string_bytes text.new ≡ string_bytes text.old ++ first_line view.now members) }
{
    let servers = members.count();
    if is_filtered(view) {
        return Ok(());
    }
    if view.is_json {
        return push_servers_json(text, servers);
    }
    push_servers_line(text, servers)
}

fn push_servers_line(text: &mut String, servers: u8) -> Result<(), AllocError>
    ensures { OnOk result (string_bytes text.new ≡ string_bytes text.old ++ servers_line servers) }
{
    writeln!(text, "servers {servers}")
}

// Adds the lines of each server, with its front, its progress and the tickets that wait at it.
fn push_servers(
    text: &mut String,
    view: &View,
    suggested: &[u32],
    cluster: &Cluster,
) -> Result<(), AllocError>
    ensures { OnOk result (string_bytes text.new ≡ string_bytes text.old
        ++ server_lines view.now suggested.now cluster.now.members (trace_of cluster.now)) }
{
    for server in 0..cluster.servers() {
        push_chosen_server(text, view, suggested, cluster, server)?;
    }
    Ok(())
}

fn push_chosen_server(
    text: &mut String,
    view: &View,
    suggested: &[u32],
    cluster: &Cluster,
    server: u8,
) -> Result<(), AllocError>
    requires { IsMember cluster.now.members server }
    ensures { OnOk result (string_bytes text.new ≡ string_bytes text.old
        ++ chosen_server view.now suggested.now cluster.now.members (trace_of cluster.now) server) }
{
    if !concerns_server(view, suggested, cluster, server) {
        return Ok(());
    }
    if view.is_json {
        return push_server_json(text, cluster, server);
    }
    push_server(text, cluster, server)
}

fn push_server(text: &mut String, cluster: &Cluster, server: u8) -> Result<(), AllocError>
    requires { IsMember cluster.now.members server }
    ensures { OnOk result (string_bytes text.new
        ≡ string_bytes text.old ++ server_line cluster.now.members (trace_of cluster.now) server) }
{
    let Some(front) = cluster.front(server) else {
        unreachable!();
    };
    let Some(done) = cluster.done(server) else {
        unreachable!();
    };
    push_progress(text, server, front, done)?;
    push_waiting(text, cluster, server)?;
    text.push('\n')
}

fn push_progress(text: &mut String, server: u8, front: u32, done: u32) -> Result<(), AllocError>
    ensures { OnOk result (string_bytes text.new
        ≡ string_bytes text.old ++ progress_text server front done) }
{
    write!(
        text,
        "server {server} front {front} executed {done} next {done} waiting"
    )
}

// Adds the tickets that wait at a server, or a dash if none waits.
fn push_waiting(text: &mut String, cluster: &Cluster, server: u8) -> Result<(), AllocError>
    requires { IsMember cluster.now.members server }
    ensures { OnOk result (string_bytes text.new ≡ string_bytes text.old
        ++ tickets_text (trace_of cluster.now) (waiting_tickets (trace_of cluster.now) server)) }
{
    let mut some = false;
    for inst in 0..INSTANCES {
        some = push_waiting_at(text, cluster, server, inst)? || some;
    }
    if !some {
        text.push_str(" -")?;
    }
    Ok(())
}

// Adds the ticket that waits because the server lost this instance, if there is one. Returns whether there is one.
fn push_waiting_at(
    text: &mut String,
    cluster: &Cluster,
    server: u8,
    inst: u32,
) -> Result<bool, AllocError>
    requires member { IsMember cluster.now.members server }
    requires small { inst < instance_count }
    ensures text { OnOk result (string_bytes text.new ≡ string_bytes text.old
        ++ ticket_in (trace_of cluster.now) (waiting_at (trace_of cluster.now) server inst)) }
    ensures some { IfOk result (λ x. x ≡ is_some (waiting_at (trace_of cluster.now) server inst)) }
{
    let Some(ticket) = cluster.waiting_at(server, inst) else {
        return Ok(false);
    };
    text.push(' ')?;
    push_ticket(text, cluster, ticket)?;
    Ok(true)
}
