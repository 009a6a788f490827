//! Conclusions that a caller can draw from the public contracts of a cluster and its laws alone.
//!
//! Nothing here looks inside a cluster. The proofs rest on these promises of the calls and the laws:
//!
//! - The journal of a cluster replays.
//! - A step puts its event at the end of the journal.
//! - The laws state facts about each journal that replays.

ghost use Rattle.std.specs.Prelude.{List, ◌≡◌, ◌++◌, ◌↔◌, OnOk, OnErr, IfOk, IfErr, IfSome, IsSome};
ghost use Rattle.mencius_base.specs.Members.{IsMember};
ghost use Rattle.mencius_base.specs.declared.event.Event.{Event};
ghost use Rattle.mencius_model.specs.Executed.{IsComparable, history};
ghost use Rattle.mencius_cluster.specs.State.{trace_of};
ghost use Rattle.mencius_model.specs.Outcomes.{accepted_from};
ghost use Rattle.worked_proofs.specs.HistoriesAcross.{AgreeAcross, AreHistoriesAcross, IsRefusalAcross, SameMembersAndHasher};

use mencius_base::{Event, NoMemory, Refusal};
use mencius_cluster::{Cluster, laws};
use std::alloc::Global;

/// The history of a server, and the history of the same or another server after further events.
#[derive(Debug, Drop)]
pub struct TwoHistories {
    /// The tickets that the first server had executed before the events, in order.
    pub earlier: Vec<u32>,
    /// The tickets that the second server had executed after them, in order.
    pub later: Vec<u32>,
}

/// Notes the history of a server, steps the cluster through the events, and then notes the history of the same or
/// another server. It skips the events that the cluster refuses. One of the two histories is a prefix of the other. If
/// both belong to one server, the earlier history is a prefix of the later history.
///
/// It fails with `BadServer` if one of the servers is not a member, and then nothing has changed. After `NoMemory`, the
/// cluster may have taken some of the events.
pub fn note_across(
    alloc: Global,
    cluster: &mut Cluster,
    server: u8,
    events: Vec<Event>,
    other: u8,
) -> Result<TwoHistories, Refusal>
    // The histories that were noted, and the change of the cluster.
    ensures histories { IfOk result (AreHistoriesAcross cluster.old cluster.new server other) }
    ensures journal { OnOk result (cluster.new.journal ≡ cluster.old.journal
        ++ accepted_from cluster.old.members (trace_of cluster.old) events.items) }
    ensures same { SameMembersAndHasher cluster.old cluster.new }

    // The conclusion for the caller.
    ensures agree { IfOk result (AgreeAcross server other) }

    ensures refusal { IfErr result (IsRefusalAcross cluster.old cluster.new server other) }
{
    // The calls of the laws, and of `replays` below, only give their promises to the proof.
    laws::agreement(); // proof: histories agree
    laws::growth(); // proof: histories only grow
    let servers = cluster.servers();
    if server >= servers || other >= servers {
        return Err(Refusal::BadServer);
    }
    cluster.replays(); // proof: the journal replays to the trace
    let earlier = cluster.history(server).unwrap().to_vec(alloc)?;
    step_all(cluster, events)?;
    cluster.replays(); // proof: the journal replays to the trace
    let later = cluster.history(other).unwrap().to_vec(alloc)?;
    Ok(TwoHistories { earlier, later })
}

/// Returns the histories of two servers at one moment, or `None` if one of the servers is not a member. One of the two
/// histories is a prefix of the other.
pub fn histories(cluster: &Cluster, first: u8, second: u8) -> Option<(&[u32], &[u32])>
    ensures some { IsSome result
        ↔ ((IsMember cluster.now.members first) × (IsMember cluster.now.members second)) }
    ensures first { IfSome result (λ h. h.0.now ≡ history (trace_of cluster.now) first) }
    ensures second { IfSome result (λ h. h.1.now ≡ history (trace_of cluster.now) second) }
    ensures comparable { IfSome result (λ h. IsComparable h.0.now h.1.now) }
{
    // These two calls only give their promises to the proof.
    laws::agreement(); // proof: histories agree
    cluster.replays(); // proof: the journal replays to the trace
    Some((cluster.history(first)?, cluster.history(second)?))
}

// Steps a cluster through the events, and skips the events that it refuses.
fn step_all(cluster: &mut Cluster, events: Vec<Event>) -> Result<(), NoMemory>
    ensures journal { OnOk result (cluster.new.journal ≡ cluster.old.journal
        ++ accepted_from cluster.old.members (trace_of cluster.old) events.items) }
    ensures same { SameMembersAndHasher cluster.old cluster.new }
    ensures taken { OnErr result ((taken : List Event)
        × (cluster.new.journal ≡ cluster.old.journal ++ taken)) }
{
    for event in events {
        match cluster.step(event) {
            Ok(_) => {}
            Err(refusal) => {
                refusal.memory_apart()?;
            }
        }
    }
    Ok(())
}
