//! The effects of an event.

ghost use Rattle.std.specs.Prelude.{ℕ, ◌≡◌, ◌==◌, ◌&&◌, false, slice_get, ◌<◌, ◌++◌, ◌-◌, Some, IfSome, OnOk, length};
ghost use Rattle.mencius_base.specs.Limits.{instance_count};
ghost use Rattle.mencius_base.specs.Members.{IsMember};
ghost use Rattle.mencius_base.specs.declared.event.Event.{Event};
ghost use Rattle.mencius_cluster.specs.State.{ClusterState, IsStepped, trace_of};
ghost use Rattle.mencius_model.specs.Replies.{command_at};
ghost use Rattle.mencius_model.specs.Server.{front};
ghost use Rattle.mencius_model.specs.Trace.{sent_messages};
ghost use Rattle.mencius_trace.specs.After.{execution_after, learned_after, learned_at, learned_of, messages_from, notice_after, of_message};
ghost use Rattle.mencius_trace.specs.Before.{IsBefore};
ghost use Rattle.mencius_trace.specs.Effects.{awaited_facts, counts, effects, front_facts, given_to, instance_of, notice, sent_fact};

use crate::before::{Before, instance_of};
use crate::fact::{Fact, push_fact};
use crate::reaction::Reaction;
use mencius_base::{Members, Message, NoMemory, Value, Vote};
use mencius_cluster::{Answered, Cluster, Effect, Glance};
use std::alloc::AllocError;

/// Adds the facts about all effects of an accepted event.
pub(crate) fn push_effects(
    facts: &mut Vec<Fact>,
    cluster: &Cluster,
    before: &Before,
    effect: Effect,
) -> Result<(), NoMemory>
    ensures { OnOk result ((x : ClusterState) (e : Event) → IsBefore x e before.now
        → IsStepped x cluster.now e effect → facts.new.items
        ≡ facts.old.items ++ effects x.members (trace_of x) (trace_of cluster.now) e) }
{
    let _within_limit = cluster.servers(); // proof: 1 to 7 servers
    push_notice(facts, cluster, before, is_ignored(effect))?;
    push_learned(facts, cluster, before, effect.learned)?;
    push_sent(facts, cluster, effect.first)?;
    push_front(facts, cluster, before.server, before.front)?;
    push_execution(facts, cluster, before)?;
    Ok(())
}

fn is_ignored(effect: Effect) -> bool
    ensures { result ≡ (effect.sent == 0 && effect.learned == 0) }
{
    effect.sent == 0 && effect.learned == 0
}

fn push_notice(
    facts: &mut Vec<Fact>,
    cluster: &Cluster,
    before: &Before,
    is_ignored: bool,
) -> Result<(), AllocError>
    ensures { OnOk result (IsMember cluster.now.members before.now.server
        → IfSome before.now.heard (λ x. instance_of x < instance_count)
        → facts.new.items ≡ facts.old.items ++ notice_after cluster.now.members
        (trace_of cluster.now) before.now.server is_ignored before.now.reaction before.now.heard) }
{
    match &before.heard {
        Some(message) => {
            push_notice_of(
                facts,
                cluster,
                before.server,
                message,
                is_ignored,
                before.reaction,
            )
        }
        None => Ok(()),
    }
}

fn push_notice_of(
    facts: &mut Vec<Fact>,
    cluster: &Cluster,
    server: u8,
    message: &Message,
    is_ignored: bool,
    reaction: Reaction,
) -> Result<(), AllocError>
    ensures { OnOk result (IsMember cluster.now.members server
        → instance_of message.now < instance_count
        → facts.new.items ≡ facts.old.items ++ notice cluster.now.members
        (trace_of cluster.now) server message.now is_ignored reaction) }
{
    if reaction == Reaction::Effective {
        return Ok(());
    }
    if reaction == Reaction::Counted {
        return push_count(facts, cluster, server, message);
    }
    if is_ignored {
        return push_fact(
            facts,
            Fact::Ignored {
                server,
                message: *message,
                reaction,
            },
        );
    }
    Ok(())
}

fn push_count(
    facts: &mut Vec<Fact>,
    cluster: &Cluster,
    server: u8,
    message: &Message,
) -> Result<(), AllocError>
    ensures { OnOk result (IsMember cluster.now.members server
        → instance_of message.now < instance_count
        → facts.new.items ≡ facts.old.items ++ notice cluster.now.members
        (trace_of cluster.now) server message.now false Reaction.Counted) }
{
    match cluster.glance(server, instance_of(message)) {
        Some(glance) => push_count_of(facts, cluster.members(), server, &glance, message),
        None => Ok(()),
    }
}

fn push_count_of(
    facts: &mut Vec<Fact>,
    members: Members,
    server: u8,
    glance: &Glance,
    message: &Message,
) -> Result<(), AllocError>
    ensures { OnOk result (facts.new.items
        ≡ facts.old.items ++ counts members server glance.now message.now) }
{
    let majority = members.majority();
    match *message {
        Message::Promise { inst, ballot, .. } => {
            let count = glance.promise_count;
            push_fact(
                facts,
                Fact::Promises {
                    server,
                    inst,
                    ballot,
                    count,
                    majority,
                },
            )
        }
        Message::Accepted { inst, ballot, .. } => {
            let count = glance.acceptance_count;
            push_fact(
                facts,
                Fact::Acceptances {
                    server,
                    inst,
                    ballot,
                    count,
                    majority,
                },
            )
        }
        Message::Suggest { .. }
        | Message::Skip { .. }
        | Message::Prepare { .. }
        | Message::Propose { .. }
        | Message::Learn { .. } => Ok(()),
    }
}

fn push_learned(
    facts: &mut Vec<Fact>,
    cluster: &Cluster,
    before: &Before,
    learned: u32,
) -> Result<(), AllocError>
    ensures { OnOk result (IsMember cluster.now.members before.now.server
        → facts.new.items ≡ facts.old.items ++ learned_after (trace_of cluster.now)
        before.now.server before.now.skipped.items learned before.now.heard) }
{
    match &before.heard {
        Some(message) => {
            let skipped = before.skipped.as_slice();
            push_learned_of(facts, cluster, before.server, skipped, learned, message)
        }
        None => Ok(()),
    }
}

fn push_learned_of(
    facts: &mut Vec<Fact>,
    cluster: &Cluster,
    server: u8,
    skipped: &[Fact],
    learned: u32,
    message: &Message,
) -> Result<(), AllocError>
    ensures { OnOk result (IsMember cluster.now.members server → facts.new.items
        ≡ facts.old.items
        ++ learned_of (trace_of cluster.now) server skipped.now learned message.now) }
{
    match *message {
        Message::Skip { .. } => push_all(facts, skipped),
        Message::Accepted { inst, .. } => push_learned_at(facts, cluster, server, inst, learned),
        Message::Learn { inst, .. } => push_learned_at(facts, cluster, server, inst, learned),
        Message::Suggest { .. }
        | Message::Prepare { .. }
        | Message::Promise { .. }
        | Message::Propose { .. } => Ok(()),
    }
}

fn push_learned_at(
    facts: &mut Vec<Fact>,
    cluster: &Cluster,
    server: u8,
    inst: u32,
    learned: u32,
) -> Result<(), AllocError>
    ensures { OnOk result (IsMember cluster.now.members server → facts.new.items
        ≡ facts.old.items ++ learned_at (trace_of cluster.now) server inst learned) }
{
    if learned == 0 {
        return Ok(());
    }
    match cluster.learned(server, inst) {
        Some(value) => push_fact(
            facts,
            Fact::Learned {
                server,
                inst,
                value,
            },
        ),
        None => Ok(()),
    }
}

// Adds the facts about the messages from number `first` on.
fn push_sent(facts: &mut Vec<Fact>, cluster: &Cluster, first: u32) -> Result<(), AllocError>
    ensures { OnOk result (facts.new.items ≡ facts.old.items
        ++ messages_from (trace_of cluster.now) first
        (length (sent_messages (trace_of cluster.now)) - first)) }
{
    for number in first..cluster.messages() {
        push_sent_at(facts, cluster, number)?;
    }
    Ok(())
}

fn push_sent_at(facts: &mut Vec<Fact>, cluster: &Cluster, number: u32) -> Result<(), AllocError>
    ensures { OnOk result (facts.new.items ≡ facts.old.items
        ++ of_message sent_fact number
        (slice_get (sent_messages (trace_of cluster.now)) number)) }
{
    let _named: Option<Vote> = None; // proof: a message can hold a vote
    match cluster.message(number) {
        Some(message) => push_fact(facts, Fact::Sent { number, message }),
        None => Ok(()),
    }
}

fn push_front(
    facts: &mut Vec<Fact>,
    cluster: &Cluster,
    server: u8,
    before: Option<u32>,
) -> Result<(), AllocError>
    ensures { OnOk result ((old : ℕ) → before ≡ Some old → IsMember cluster.now.members server
        → facts.new.items ≡ facts.old.items
        ++ front_facts server old (front cluster.now.members (trace_of cluster.now) server)) }
{
    let Some(old) = before else {
        return Ok(());
    };
    let Some(front) = cluster.front(server) else {
        return Ok(());
    };
    if old == front {
        return Ok(());
    }
    push_fact(facts, Fact::Front { server, front })
}

fn push_execution(
    facts: &mut Vec<Fact>,
    cluster: &Cluster,
    before: &Before,
) -> Result<(), AllocError>
    ensures { OnOk result (facts.new.items ≡ facts.old.items
        ++ execution_after (trace_of cluster.now) before.now.server before.now.is_awaited
        before.now.execution) }
{
    let Some((inst, value)) = before.execution else {
        return Ok(());
    };
    let server = before.server;
    push_fact(
        facts,
        Fact::Executed {
            server,
            inst,
            value,
        },
    )?;
    push_awaited(facts, cluster, server, inst, before.is_awaited, value)
}

fn push_awaited(
    facts: &mut Vec<Fact>,
    cluster: &Cluster,
    server: u8,
    inst: u32,
    is_awaited: bool,
    value: Value,
) -> Result<(), AllocError>
    ensures { OnOk result (facts.new.items ≡ facts.old.items
        ++ awaited_facts (trace_of cluster.now) server inst is_awaited value) }
{
    match value {
        Value::Ticket(ticket) => {
            if is_awaited {
                return push_given(facts, cluster, server, inst, ticket);
            }
            Ok(())
        }
        Value::Noop => Ok(()),
    }
}

fn push_given(
    facts: &mut Vec<Fact>,
    cluster: &Cluster,
    server: u8,
    inst: u32,
    ticket: u32,
) -> Result<(), AllocError>
    ensures { OnOk result (facts.new.items ≡ facts.old.items ++ given_to (trace_of cluster.now)
        server inst ticket (command_at (trace_of cluster.now) ticket)) }
{
    let Some(submission) = cluster.submission(ticket) else {
        return Ok(());
    };
    if matches!(submission.reply, Answered::Pending) {
        return Ok(());
    }
    push_fact(
        facts,
        Fact::Reply {
            server,
            inst,
            ticket,
        },
    )
}

// Adds facts to a list.
fn push_all(facts: &mut Vec<Fact>, more: &[Fact]) -> Result<(), AllocError>
    ensures { OnOk result (facts.new.items ≡ facts.old.items ++ more.now) }
{
    let _named: Option<Vote> = None; // proof: a message can hold a vote
    facts.extend_from_slice(more)
}
