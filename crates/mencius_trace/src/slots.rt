//! The lines about what a server knows of each instance.

ghost use Rattle.std.specs.Prelude.{◌≡◌, ◌<◌, ◌++◌, string_bytes, OnOk};
ghost use Rattle.mencius_base.specs.Limits.{instance_count};
ghost use Rattle.mencius_base.specs.Members.{IsMember};
ghost use Rattle.mencius_cluster.specs.State.{trace_of};
ghost use Rattle.mencius_model.specs.Instance.{accepted_ballot};
ghost use Rattle.mencius_trace.specs.Slots.{acceptor_text, is_heard_of, learner_text, proposer_text, slot_line, slot_line_at, slot_lines, slot_text, value_or_none};

use crate::facts::{push_value, push_vote};
use crate::votes::{accepted_by, vote_of};
use mencius_base::{Ballot, INSTANCES, Value, Vote};
use mencius_cluster::{Cluster, Glance};
use std::alloc::{AllocError, Global};

/// Adds a line for each instance that a server of the cluster knows anything about. The line contains:
///
/// - the ballot that the server promised there, and the vote of the server;
/// - the ballot that the server tries, and the value that it proposed at that ballot;
/// - the numbers of servers whose promises and acceptances at that ballot the server heard;
/// - the value that the server learned.
///
/// The work is one pass over the messages. For each instance where the server accepted something, there is another pass
/// up to the proposal.
pub fn push_slots(
    alloc: Global,
    text: &mut String,
    cluster: &Cluster,
    server: u8,
) -> Result<(), AllocError>
    requires { IsMember cluster.now.members server }
    ensures { OnOk result (string_bytes text.new ≡ string_bytes text.old
        ++ slot_lines cluster.now.members (trace_of cluster.now) server instance_count) }
{
    let ballots = accepted_by(alloc, cluster, server)?;
    for inst in 0..INSTANCES {
        push_slot_at(text, cluster, server, inst, ballots[inst as usize])?;
    }
    Ok(())
}

// Adds the line of an instance, if the server knows anything about it. `ballot` is the greatest ballot that the server
// accepted there.
fn push_slot_at(
    text: &mut String,
    cluster: &Cluster,
    server: u8,
    inst: u32,
    ballot: Option<Ballot>,
) -> Result<(), AllocError>
    requires member { IsMember cluster.now.members server }
    requires small { inst < instance_count }
    requires ballot { ballot ≡ accepted_ballot (trace_of cluster.now) server inst }
    ensures { OnOk result (string_bytes text.new ≡ string_bytes text.old
        ++ slot_line_at cluster.now.members (trace_of cluster.now) server inst) }
{
    let Some(glance) = cluster.glance(server, inst) else {
        unreachable!();
    };
    let vote = vote_of(cluster, inst, ballot);
    push_slot(text, cluster, server, inst, &glance, vote)
}

fn push_slot(
    text: &mut String,
    cluster: &Cluster,
    server: u8,
    inst: u32,
    glance: &Glance,
    vote: Option<Vote>,
) -> Result<(), AllocError>
    ensures { OnOk result (string_bytes text.new ≡ string_bytes text.old
        ++ slot_line (trace_of cluster.now) server inst glance.now vote) }
{
    if !is_heard_of(glance, &vote) {
        return Ok(());
    }
    write!(text, "slot {server} instance {inst}")?;
    push_knowledge(text, cluster, glance, vote)?;
    text.push('\n')
}

// Returns whether a server with this glance and this vote heard or did anything at the instance.
fn is_heard_of(glance: &Glance, vote: &Option<Vote>) -> bool
    ensures { result ≡ is_heard_of glance.now vote.now }
{
    glance.promised > Ballot::OWNER
        || vote.is_some()
        || glance.trying > Ballot::OWNER
        || glance.proposal.is_some()
        || glance.learned.is_some()
}

// Adds the knowledge of the server as acceptor, as proposer and as learner.
fn push_knowledge(
    text: &mut String,
    cluster: &Cluster,
    glance: &Glance,
    vote: Option<Vote>,
) -> Result<(), AllocError>
    ensures { OnOk result (string_bytes text.new
        ≡ string_bytes text.old ++ slot_text (trace_of cluster.now) glance.now vote) }
{
    push_acceptor(text, cluster, glance.promised, vote)?;
    push_proposer(text, cluster, glance)?;
    push_learner(text, cluster, glance.learned)
}

fn push_acceptor(
    text: &mut String,
    cluster: &Cluster,
    ballot: Ballot,
    vote: Option<Vote>,
) -> Result<(), AllocError>
    ensures { OnOk result (string_bytes text.new
        ≡ string_bytes text.old ++ acceptor_text (trace_of cluster.now) ballot vote) }
{
    let ballot = ballot.number();
    write!(text, " promised {ballot}")?;
    push_vote(text, cluster, vote)
}

fn push_proposer(text: &mut String, cluster: &Cluster, glance: &Glance) -> Result<(), AllocError>
    ensures { OnOk result (string_bytes text.new
        ≡ string_bytes text.old ++ proposer_text (trace_of cluster.now) glance.now) }
{
    let tried = glance.trying.number();
    let promises = glance.promise_count;
    let acceptances = glance.acceptance_count;
    write!(text, " tries {tried} promises {promises} proposed ")?;
    push_value_or_none(text, cluster, glance.proposal)?;
    write!(text, " acceptances {acceptances}")
}

fn push_learner(
    text: &mut String,
    cluster: &Cluster,
    learned: Option<Value>,
) -> Result<(), AllocError>
    ensures { OnOk result (string_bytes text.new
        ≡ string_bytes text.old ++ learner_text (trace_of cluster.now) learned) }
{
    text.push_str(" learned ")?;
    push_value_or_none(text, cluster, learned)
}

fn push_value_or_none(
    text: &mut String,
    cluster: &Cluster,
    value: Option<Value>,
) -> Result<(), AllocError>
    ensures { OnOk result (string_bytes text.new
        ≡ string_bytes text.old ++ value_or_none (trace_of cluster.now) value) }
{
    match value {
        Some(value) => push_value(text, cluster, value),
        None => text.push_str("none"),
    }
}
