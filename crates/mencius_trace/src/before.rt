//! The notes taken before an event, so that its effects can be shown after it.

ghost use Rattle.std.specs.Prelude.{◌≡◌, ◌<◌, ◌∷◌, ◌++◌, ◌&&◌, [], IfOk, OnOk, if◌then◌else◌, is_none, map};
ghost use Rattle.std.specs.List.{filter};
ghost use Rattle.mencius_base.specs.Limits.{instance_count};
ghost use Rattle.mencius_base.specs.Members.{IsMember, instances};
ghost use Rattle.mencius_base.specs.declared.message.Message.TheVariants.{Skip};
ghost use Rattle.mencius_base.specs.declared.message.Value.TheVariants.{Noop};
ghost use Rattle.mencius_model.specs.Instance.{learned_value};
ghost use Rattle.mencius_model.specs.Rules.{is_skipped_by};
ghost use Rattle.mencius_model.specs.Trace.{Learned};
ghost use Rattle.mencius_model.specs.Next.{server_of};
ghost use Rattle.mencius_cluster.specs.State.{trace_of};
ghost use Rattle.mencius_trace.specs.declared.fact.Fact.TheVariants.{Learned as FactLearned};
ghost use Rattle.mencius_trace.specs.Effects.{if_tried, instance_of, learned_facts, learned_or, proposed_or, reaction, reaction_at};
ghost use Rattle.mencius_trace.specs.Before.{AreSkipped, IsBefore, IsReaction, execution_in, heard_in, is_awaited};

use crate::fact::{Fact, push_fact};
use crate::reaction::Reaction;
use mencius_base::{Ballot, Event, INSTANCES, Message, Value, Vote};
use mencius_cluster::{Answered, Cluster, Glance};
use std::alloc::{AllocError, Global};

/// The notes taken before an event.
#[derive(Drop)]
pub(crate) struct Before {
    /// The server that the event happens at.
    pub(crate) server: u8,
    /// The front of the server that the event happens at.
    pub(crate) front: Option<u32>,
    /// The message that the event delivers.
    pub(crate) heard: Option<Message>,
    /// The reaction of the server to the message that the event delivers.
    pub(crate) reaction: Reaction,
    /// The facts about the instances that a Skip makes the server learn.
    pub(crate) skipped: Vec<Fact>,
    /// The instance that the event executes, with its value.
    pub(crate) execution: Option<(u32, Value)>,
    /// Whether the command that the event executes has no reply yet.
    pub(crate) is_awaited: bool,
}

/// Takes the notes before an event.
pub(crate) fn note(alloc: Global, cluster: &Cluster, event: &Event) -> Result<Before, AllocError>
    ensures { IfOk result (IsBefore cluster.now event.now) }
{
    cluster.replays(); // proof: the journal replays to the trace
    let server = server_of(event);
    let heard = heard_in(cluster, event);
    let execution = execution_in(cluster, event);
    let is_awaited = is_awaited(cluster, &execution);
    let reaction = reaction_in(cluster, server, &heard);
    let skipped = skipped_in(alloc, cluster, server, &heard)?;
    Ok(Before {
        server,
        front: cluster.front(server),
        heard,
        reaction,
        skipped,
        execution,
        is_awaited,
    })
}

pub(crate) fn server_of(event: &Event) -> u8
    ensures { result ≡ server_of event.now }
{
    match event {
        Event::Submit { server, .. }
        | Event::Deliver { server, .. }
        | Event::Lose { server, .. }
        | Event::Suspect { server, .. }
        | Event::Retry { server }
        | Event::Execute { server } => *server,
    }
}

fn heard_in(cluster: &Cluster, event: &Event) -> Option<Message>
    ensures { result ≡ heard_in (trace_of cluster.now) event.now }
{
    let _named: Option<Vote> = None; // proof: a message can hold a vote
    match event {
        Event::Deliver { message, .. } => cluster.message(*message),
        _ => None,
    }
}

fn execution_in(cluster: &Cluster, event: &Event) -> Option<(u32, Value)>
    ensures { IsMember cluster.now.members (server_of event.now)
        → result ≡ execution_in (trace_of cluster.now) event.now }
{
    let Event::Execute { server } = event else {
        return None;
    };
    let inst = cluster.done(*server)?;
    let value = cluster.learned(*server, inst)?;
    Some((inst, value))
}

fn is_awaited(cluster: &Cluster, execution: &Option<(u32, Value)>) -> bool
    ensures { result ≡ is_awaited (trace_of cluster.now) execution.now }
{
    let Some((_, Value::Ticket(ticket))) = execution else {
        return false;
    };
    match cluster.submission(*ticket) {
        Some(submission) => matches!(submission.reply, Answered::Pending),
        None => false,
    }
}

fn reaction_in(cluster: &Cluster, server: u8, heard: &Option<Message>) -> Reaction
    ensures { IsReaction cluster.now.members (trace_of cluster.now) server heard.now result }
{
    match heard {
        Some(message) => reaction_of(cluster, server, message),
        None => Reaction::Effective,
    }
}

/// Returns the reaction of a server to a message.
fn reaction_of(cluster: &Cluster, server: u8, message: &Message) -> Reaction
    ensures { IsMember cluster.now.members server → instance_of message.now < instance_count
        → result ≡ reaction cluster.now.members (trace_of cluster.now) server message.now }
{
    match cluster.glance(server, instance_of(message)) {
        Some(glance) => reaction_at(&glance, message),
        None => Reaction::Effective,
    }
}

fn reaction_at(glance: &Glance, message: &Message) -> Reaction
    ensures { result ≡ reaction_at glance.now message.now }
{
    match *message {
        Message::Suggest { .. } | Message::Prepare { .. } | Message::Propose { .. } => {
            Reaction::Promised(glance.promised)
        }
        Message::Skip { .. } | Message::Learn { .. } => learned_or(
            glance.learned,
            Reaction::Effective,
        ),
        Message::Accepted { ballot, .. } => {
            if_tried(
                ballot,
                glance.trying,
                learned_or(glance.learned, Reaction::Counted),
            )
        }
        Message::Promise { ballot, .. } => {
            if_tried(
                ballot,
                glance.trying,
                learned_or(glance.learned, counted(glance.proposal)),
            )
        }
    }
}

// A promise counts only if the server has not proposed a value yet.
fn counted(proposal: Option<Value>) -> Reaction
    ensures { result ≡ proposed_or proposal Reaction.Counted }
{
    match proposal {
        Some(_) => Reaction::Proposed,
        None => Reaction::Counted,
    }
}

pub(crate) fn instance_of(message: &Message) -> u32
    ensures { result ≡ instance_of message.now }
{
    match *message {
        Message::Suggest { inst, .. }
        | Message::Accepted { inst, .. }
        | Message::Prepare { inst, .. }
        | Message::Promise { inst, .. }
        | Message::Propose { inst, .. }
        | Message::Learn { inst, .. } => inst,
        Message::Skip { first, .. } => first,
    }
}

fn learned_or(learned: Option<Value>, otherwise: Reaction) -> Reaction
    ensures { result ≡ learned_or learned otherwise }
{
    match learned {
        Some(value) => Reaction::Learned(value),
        None => otherwise,
    }
}

fn if_tried(ballot: Ballot, tried: Ballot, reaction: Reaction) -> Reaction
    ensures { result ≡ if_tried ballot tried reaction }
{
    if ballot == tried {
        reaction
    } else {
        Reaction::Tries(tried)
    }
}

/// Returns the facts about the instances that a Skip makes a server learn.
fn skipped_in(
    alloc: Global,
    cluster: &Cluster,
    server: u8,
    heard: &Option<Message>,
) -> Result<Vec<Fact>, AllocError>
    ensures { IfOk result (λ facts.
        AreSkipped cluster.now.members (trace_of cluster.now) server heard.now facts.items) }
{
    let mut facts = Vec::new(alloc);
    if let Some(Message::Skip { from, first, stop }) = heard {
        push_skipped(&mut facts, cluster, server, *from, *first, *stop)?;
    }
    Ok(facts)
}

fn push_skipped(
    facts: &mut Vec<Fact>,
    cluster: &Cluster,
    server: u8,
    from: u8,
    first: u32,
    stop: u32,
) -> Result<(), AllocError>
    ensures { OnOk result (IsMember cluster.now.members server → first < instance_count
        → facts.new.items ≡ facts.old.items ++ learned_facts
        (map (λ i. Learned server i Noop)
        (filter (λ i. is_skipped_by cluster.now.members i (Skip from first stop)
        && is_none (learned_value (trace_of cluster.now) server i)) instances))) }
{
    let members = cluster.members();
    for inst in first..stop.min(INSTANCES) {
        let is_own = members.owner(inst) == from;
        push_where_unlearned(facts, cluster, server, inst, is_own)?;
    }
    Ok(())
}

// Adds the fact about an instance, if it is wanted and the server has not learned the instance.
fn push_where_unlearned(
    facts: &mut Vec<Fact>,
    cluster: &Cluster,
    server: u8,
    inst: u32,
    is_wanted: bool,
) -> Result<(), AllocError>
    ensures { OnOk result (IsMember cluster.now.members server → facts.new.items
        ≡ facts.old.items
        ++ (if is_wanted && is_none (learned_value (trace_of cluster.now) server inst)
        then FactLearned server inst Noop ∷ [] else [])) }
{
    if is_wanted && cluster.learned(server, inst).is_none() {
        let value = Value::Noop;
        return push_fact(
            facts,
            Fact::Learned {
                server,
                inst,
                value,
            },
        );
    }
    Ok(())
}
