//! Finds the votes of a server in the messages that were sent.

ghost use Rattle.std.specs.Prelude.{ℕ, ◌≡◌, ◌<◌, IfOk, None, Some, option_and_then, option_map, slice_index_or, vec_len};
ghost use Rattle.mencius_base.specs.Limits.{instance_count};
ghost use Rattle.mencius_cluster.specs.State.{trace_of};
ghost use Rattle.mencius_model.specs.Instance.{accepted_ballot, accepted_by, greater_ballot, proposal, proposal_by};
ghost use Rattle.mencius_model.specs.Trace.{Sent};

use mencius_base::{Ballot, INSTANCES, Message, Value, Vote};
use mencius_cluster::Cluster;
use std::alloc::{AllocError, Global};

/// Returns for each instance the greatest ballot that the server accepted there, if it accepted any.
pub(crate) fn accepted_by(
    alloc: Global,
    cluster: &Cluster,
    server: u8,
) -> Result<Vec<Option<Ballot>>, AllocError>
    ensures len { IfOk result (λ x. vec_len x ≡ instance_count) }
    ensures ballots { IfOk result (λ x. (i : ℕ) → i < instance_count
        → slice_index_or x.items i None ≡ accepted_ballot (trace_of cluster.now) server i) }
{
    let _named: Option<Vote> = None; // proof: a message can hold a vote
    let mut ballots = no_ballots(alloc)?;
    for number in 0..cluster.messages() {
        let Some(message) = cluster.message(number) else {
            unreachable!();
        };
        raise(&mut ballots, server, &message);
    }
    Ok(ballots)
}

// Returns a list without a ballot at any instance.
fn no_ballots(alloc: Global) -> Result<Vec<Option<Ballot>>, AllocError>
    ensures len { IfOk result (λ x. vec_len x ≡ instance_count) }
    ensures none { IfOk result (λ x. (i : ℕ) → slice_index_or x.items i None ≡ None) }
{
    let mut ballots = Vec::new(alloc);
    for _inst in 0..INSTANCES {
        ballots.push(None)?;
    }
    Ok(ballots)
}

// Raises the ballot at an instance if the message says that the server accepted a greater ballot there than before.
fn raise(ballots: &mut Vec<Option<Ballot>>, server: u8, message: &Message)
    requires { vec_len ballots.old ≡ instance_count }
    ensures len { vec_len ballots.new ≡ instance_count }
    ensures greater { (i : ℕ) → i < instance_count → slice_index_or ballots.new.items i None
        ≡ greater_ballot (slice_index_or ballots.old.items i None) (accepted_by server i (Sent message.now)) }
{
    if let Message::Accepted {
        from,
        inst,
        ballot,
        ..
    } = *message
    {
        if from == server && inst < INSTANCES {
            let place = inst as usize;
            ballots[place] = Some(greater_ballot(ballots[place], ballot));
        }
    }
}

fn greater_ballot(former: Option<Ballot>, ballot: Ballot) -> Ballot
    ensures { Some result ≡ greater_ballot former (Some ballot) }
{
    match former {
        Some(former) if ballot <= former => former,
        _ => ballot,
    }
}

/// Returns the vote of a server at an instance. `ballot` is the greatest ballot that the server accepted there, if any.
pub(crate) fn vote_of(cluster: &Cluster, inst: u32, ballot: Option<Ballot>) -> Option<Vote>
    ensures { result ≡ option_and_then
        (λ b. option_map (λ x. record { ballot = b; value = x }) (proposal (trace_of cluster.now) inst b)) ballot }
{
    let ballot = ballot?;
    let value = proposal(cluster, inst, ballot)?;
    Some(Vote { ballot, value })
}

// Returns the value that was proposed at a ballot of an instance, if any.
fn proposal(cluster: &Cluster, inst: u32, ballot: Ballot) -> Option<Value>
    ensures { result ≡ proposal (trace_of cluster.now) inst ballot }
{
    let _named: Option<Vote> = None; // proof: a message can hold a vote
    for number in 0..cluster.messages() {
        let Some(message) = cluster.message(number) else {
            unreachable!();
        };
        if let Some(value) = proposal_by(&message, inst, ballot) {
            return Some(value);
        }
    }
    None
}

// Returns the value that a message proposes at a ballot of an instance, if any.
fn proposal_by(message: &Message, at: u32, tried: Ballot) -> Option<Value>
    ensures { result ≡ proposal_by at tried (Sent message.now) }
{
    match *message {
        Message::Suggest { inst, ticket, .. } if inst == at && tried == Ballot::OWNER => {
            Some(Value::Ticket(ticket))
        }
        Message::Propose {
            inst,
            ballot,
            value,
            ..
        } if inst == at && ballot == tried && tried > Ballot::OWNER => Some(value),
        _ => None,
    }
}
