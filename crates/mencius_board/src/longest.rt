ghost use Rattle.std.specs.Prelude.{◌≡◌, ◌<◌, ◌^◌, ◌++◌, IfOk, OnOk, length, option_to_list};
ghost use Rattle.mencius_model.specs.Trace.{submitted_commands};
ghost use Rattle.mencius_model.specs.Replies.{command_at};
ghost use Rattle.mencius_cluster.specs.State.{trace_of};
ghost use Rattle.mencius_board.specs.Boards.{longest_of};

use mencius_base::{Command, NoMemory};
use mencius_cluster::{Cluster, laws};
use std::alloc::Global;

/// Returns a copy of the commands of the longest history, in order.
pub fn copy_longest(alloc: Global, cluster: &Cluster) -> Result<Vec<Command>, NoMemory>
    ensures list { IfOk result (λ x. x.items ≡ longest_of cluster.now) }
    ensures limit { IfOk result (λ x. length x.items < 2 ^ 32) }
{
    laws::once(); // proof: a history has each command once
    cluster.replays(); // proof: the journal replays to the trace
    let server = cluster.longest();
    let _within_limit = cluster.done(server).unwrap(); // proof: the history's length fits in 32 bits
    let tickets = cluster.history(server).unwrap();
    let mut list = Vec::with_capacity(alloc, tickets.len())?;
    for ticket in tickets {
        push_command(&mut list, cluster, *ticket)?;
    }
    Ok(list)
}

// Appends a copy of the command that has this ticket.
fn push_command(list: &mut Vec<Command>, cluster: &Cluster, ticket: u32) -> Result<(), NoMemory>
    requires { ticket < length (submitted_commands (trace_of cluster.now)) }
    ensures { OnOk result (list.new.items
        ≡ list.old.items ++ option_to_list (command_at (trace_of cluster.now) ticket)) }
{
    let Some(command) = cluster.command(ticket) else {
        unreachable!();
    };
    list.push(command.clone()?)?;
    Ok(())
}
