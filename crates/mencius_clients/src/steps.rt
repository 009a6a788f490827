//! The effects of waiting commands, one after the other, up to a command that gets its reply.

ghost use Rattle.std.specs.Prelude.{◌≡◌, true, ◌<◌, ◌≤◌, ◌⊎◌, List, IfOk, IfSome, OnOk, IsTrue, None, Some, length};
ghost use Rattle.mencius_base.specs.declared.command.Command.{Command};
ghost use Rattle.mencius_log.specs.declared.observation.Observation.{Observation};
ghost use Rattle.mencius_clients.specs.declared.configuration.Configuration.{Configuration};
ghost use Rattle.mencius_clients.specs.OrdersSoFar.{AreReachable, AreSoundlySettled, AreWithin, IsLongerTrail, IsReachable, IsSoundlyFreed, numbered, trail_with};
ghost use Rattle.mencius_clients.specs.Configurations.{AllFollow, AreLost, AreReplyLines, Calls, FollowsAt, HasLess, HasRead, IsFreed, IsLonger, IsOneOf, IsRead, IsReadOn, IsSettled, IsUnacknowledged, has_slot, waiting};
ghost use Rattle.mencius_clients.specs.States.{ReachMany};

use crate::answers::is_unacknowledged;
use crate::configuration::Configuration;
use crate::effects::{stepped, with_read, with_reads};
use crate::slot_set::SlotSet;
use crate::states::is_given_up;
use crate::texts::submitted_at;
use crate::twins::{gives_way, twins_of};
use crate::work::{Work, configuration_at};
use mencius_base::NoMemory;
use mencius_log::Observation;
use std::alloc::Global;
use std::collections::BTreeMap;

/// A command that took effect.
#[derive(Clone, Copy, Debug)]
pub struct Step {
    // The line that submits the command.
    pub line: usize,
    // The number of the step before, from 1, or 0 if there is none.
    pub before: usize,
}

// Adds a step to the trail, if there is one. Returns the configuration after it.
fn with_step(
    from: &Configuration,
    step: Option<Step>,
    trail: &mut Vec<Step>,
) -> Result<Configuration, NoMemory>
    ensures trail { OnOk result (trail.new.items ≡ trail_with trail.old.items step) }
    ensures number { IfOk result (λ c. c ≡ numbered from.now step (length (trail_with trail.old.items step))) }
{
    let Some(step) = step else {
        return Ok(*from);
    };
    trail.push(step)?;
    Ok(Configuration {
        done: from.done,
        text: from.text,
        unseen: from.unseen,
        trail: trail.len(),
    })
}

// Lets a waiting read take effect, if its reply is right for the text of the configuration, and adds it to the trail.
fn with_read_step(
    log: &[Observation],
    replies: &BTreeMap<u64, usize>,
    slots: &[Option<usize>],
    from: &Configuration,
    slot: usize,
    trail: &mut Vec<Step>,
) -> Result<Configuration, NoMemory>
    requires slot { slot < length slots.now }
    requires few { length slots.now ≤ 4096 }
    ensures read { IfOk result (λ c. (from.now ≡ c) ⊎ IsRead log.now (waiting log.now slots.now) slot from.now c) }
    ensures trail_longer { OnOk result (IsLongerTrail trail.old.items trail.new.items) }
    ensures sound { IfOk result (λ c. (cs : List Configuration) → AreWithin cs trail.old.items
        → IsReachable log.now slots.now trail.old.items cs from.now
        → IsReachable log.now slots.now trail.new.items cs c) }
{
    let read = with_read(log, replies, slots, from, slot);
    if from.done.has(slot) || !read.done.has(slot) {
        return Ok(*from);
    }
    let Some(line) = slots[slot] else {
        return Ok(*from);
    };
    trail.push(Step {
        line,
        before: from.trail,
    })?;
    Ok(Configuration {
        done: read.done,
        text: read.text,
        unseen: read.unseen,
        trail: trail.len(),
    })
}

// Lets the waiting reads in some slots take effect, as `with_read_step` does.
fn with_read_steps(
    log: &[Observation],
    replies: &BTreeMap<u64, usize>,
    slots: &[Option<usize>],
    from: &Configuration,
    wanted: &SlotSet,
    trail: &mut Vec<Step>,
) -> Result<Configuration, NoMemory>
    requires { length slots.now ≤ 4096 }
    ensures read { IfOk result (λ c. IsReadOn log.now (waiting log.now slots.now) from.now c) }
    ensures trail_longer { OnOk result (IsLongerTrail trail.old.items trail.new.items) }
    ensures sound { IfOk result (λ c. (cs : List Configuration) → AreWithin cs trail.old.items
        → IsReachable log.now slots.now trail.old.items cs from.now
        → IsReachable log.now slots.now trail.new.items cs c) }
{
    let mut new = *from;
    for slot in 0..slots.len() {
        if wanted.has(slot) {
            new = with_read_step(log, replies, slots, &new, slot, trail)?;
        }
    }
    Ok(new)
}

// Adds a configuration, after the waiting reads that are right for its text, unless a known one stands for it. The
// configuration was reached by the step, if there is one.
fn push_new(
    log: &[Observation],
    replies: &BTreeMap<u64, usize>,
    slots: &[Option<usize>],
    new: &Configuration,
    step: Option<Step>,
    lost: &SlotSet,
    work: &mut Work,
    trail: &mut Vec<Step>,
) -> Result<(), NoMemory>
    requires lost { AreLost log.now (waiting log.now slots.now) lost.now }
    requires few { length slots.now ≤ 4096 }
    ensures longer { OnOk result (IsLonger work.old.configurations.items work.new.configurations.items) }
    ensures there { OnOk result (HasRead log.now (waiting log.now slots.now) work.new.configurations.items new.now) }
    ensures trail_longer { OnOk result (IsLongerTrail trail.old.items trail.new.items) }
    ensures sound { OnOk result ((cs : List Configuration) → AreWithin cs trail.old.items
        → IsReachable log.now slots.now (trail_with trail.old.items step) cs
        (numbered new.now step (length (trail_with trail.old.items step)))
        → AreReachable log.now slots.now trail.old.items cs work.old.configurations.items
        → AreReachable log.now slots.now trail.new.items cs work.new.configurations.items) }
{
    let read = with_reads(log, replies, slots, new);
    if work.has_better(log, &read, lost) {
        return Ok(());
    }
    let from = with_step(new, step, trail)?;
    let reached = with_read_steps(log, replies, slots, &from, &read.done, trail)?;
    work.push(log, reached, lost)?;
    Ok(())
}

// Adds the configuration after the command in a slot.
fn push_step(
    log: &[Observation],
    replies: &BTreeMap<u64, usize>,
    slots: &[Option<usize>],
    from: &Configuration,
    slot: usize,
    lost: &SlotSet,
    work: &mut Work,
    trail: &mut Vec<Step>,
) -> Result<(), NoMemory>
    requires slot { slot < length slots.now }
    requires lost { AreLost log.now (waiting log.now slots.now) lost.now }
    requires few { length slots.now ≤ 4096 }
    requires replies { AreReplyLines log.now replies.now (length log.now) }
    ensures longer { OnOk result (IsLonger work.old.configurations.items work.new.configurations.items) }
    ensures follows { OnOk result (FollowsAt log.now slots.now work.new.configurations.items from.now slot) }
    ensures trail_longer { OnOk result (IsLongerTrail trail.old.items trail.new.items) }
    ensures sound { OnOk result ((cs : List Configuration) → AreWithin cs trail.old.items
        → IsReachable log.now slots.now trail.old.items cs from.now
        → AreReachable log.now slots.now trail.old.items cs work.old.configurations.items
        → AreReachable log.now slots.now trail.new.items cs work.new.configurations.items) }
{
    let Some(line) = slots[slot] else {
        return Ok(());
    };
    let Some(command) = submitted_at(log, line) else {
        return Ok(());
    };
    if from.done.has(slot) {
        return Ok(());
    }
    let Some(new) = stepped(log, replies, from, slot, line, command) else {
        return Ok(());
    };
    let step = Step {
        line,
        before: from.trail,
    };
    push_new(log, replies, slots, &new, Some(step), lost, work, trail)
}

// Adds the configurations after each of the waiting commands.
fn push_steps(
    log: &[Observation],
    replies: &BTreeMap<u64, usize>,
    slots: &[Option<usize>],
    from: &Configuration,
    lost: &SlotSet,
    twins: &[usize],
    work: &mut Work,
    trail: &mut Vec<Step>,
) -> Result<(), NoMemory>
    requires lost { AreLost log.now (waiting log.now slots.now) lost.now }
    requires few { length slots.now ≤ 4096 }
    requires replies { AreReplyLines log.now replies.now (length log.now) }
    ensures longer { OnOk result (IsLonger work.old.configurations.items work.new.configurations.items) }
    ensures follow { OnOk result (AllFollow log.now slots.now work.new.configurations.items from.now) }
    ensures trail_longer { OnOk result (IsLongerTrail trail.old.items trail.new.items) }
    ensures sound { OnOk result ((cs : List Configuration) → AreWithin cs trail.old.items
        → IsReachable log.now slots.now trail.old.items cs from.now
        → AreReachable log.now slots.now trail.old.items cs work.old.configurations.items
        → AreReachable log.now slots.now trail.new.items cs work.new.configurations.items) }
{
    for slot in 0..slots.len() {
        if !gives_way(log, slots, from, slot, lost, twins) {
            push_step(log, replies, slots, from, slot, lost, work, trail)?;
        }
    }
    Ok(())
}

// Returns the configurations after the waiting reads that are right for their texts.
fn begun(
    alloc: Global,
    log: &[Observation],
    replies: &BTreeMap<u64, usize>,
    slots: &[Option<usize>],
    configurations: &[Configuration],
    lost: &SlotSet,
    trail: &mut Vec<Step>,
) -> Result<Work, NoMemory>
    requires lost { AreLost log.now (waiting log.now slots.now) lost.now }
    requires few { length slots.now ≤ 4096 }
    ensures begins { IfOk result (λ work. (c : Configuration) → IsOneOf configurations.now c
        → HasRead log.now (waiting log.now slots.now) work.configurations.items c) }
    ensures trail_longer { OnOk result (IsLongerTrail trail.old.items trail.new.items) }
    ensures sound { IfOk result (λ work. AreWithin configurations.now trail.old.items
        → AreReachable log.now slots.now trail.new.items configurations.now work.configurations.items) }
{
    let mut work = Work::new(alloc);
    for configuration in configurations {
        push_new(
            log,
            replies,
            slots,
            configuration,
            None,
            lost,
            &mut work,
            trail,
        )?;
    }
    Ok(work)
}

// Returns the configuration after the reply to the command in a slot.
fn freed(from: &Configuration, slot: usize) -> Configuration
    requires { slot < 4096 }
    ensures freed { (log : List Observation) (calls : Calls) → IsFreed log calls slot from.now result }
    ensures sound { has_slot from.now.done slot ≡ true → IsSoundlyFreed slot from.now result }
{
    Configuration {
        done: from.done.without(slot),
        text: from.text,
        unseen: false,
        trail: from.trail,
    }
}

// Adds the configuration after the reply to the command in a slot, unless a known one stands for it.
fn push_freed(
    log: &[Observation],
    next: &mut Work,
    from: &Configuration,
    slot: usize,
    lost: &SlotSet,
) -> Result<(), NoMemory>
    requires { slot < 4096 }
    ensures longer { OnOk result (IsLonger next.old.configurations.items next.new.configurations.items) }
    ensures there { OnOk result ((calls : Calls) → AreLost log.now calls lost.now
        → (d : Configuration) × IsOneOf next.new.configurations.items d × IsFreed log.now calls slot from.now d) }
    ensures sound { OnOk result (has_slot from.now.done slot ≡ true → (d : Configuration)
        → IsOneOf next.new.configurations.items d
        → IsOneOf next.old.configurations.items d ⊎ IsSoundlyFreed slot from.now d) }
{
    let new = freed(from, slot);
    if next.has_better(log, &new, lost) {
        return Ok(());
    }
    next.push(log, new, lost)?;
    Ok(())
}

// Returns the configurations without those that a later one stands for.
fn best_of(
    alloc: Global,
    log: &[Observation],
    configurations: &[Configuration],
    lost: &SlotSet,
) -> Result<Vec<Configuration>, NoMemory>
    ensures best { IfOk result (λ best. (calls : Calls) → AreLost log.now calls lost.now
        → (d : Configuration) → IsOneOf configurations.now d → HasLess log.now calls best.items d) }
    ensures within { IfOk result (λ best. (d : Configuration) → IsOneOf best.items d → IsOneOf configurations.now d) }
{
    let mut best = Work::new(alloc);
    for count in 0..configurations.len() {
        let configuration = configurations[configurations.len() - 1 - count];
        push_better(log, &mut best, configuration, lost)?;
    }
    Ok(best.configurations)
}

// Adds a configuration, unless another one stands for it.
fn push_better(
    log: &[Observation],
    best: &mut Work,
    new: Configuration,
    lost: &SlotSet,
) -> Result<(), NoMemory>
    ensures longer { OnOk result (IsLonger best.old.configurations.items best.new.configurations.items) }
    ensures there { OnOk result ((calls : Calls) → AreLost log.now calls lost.now
        → HasLess log.now calls best.new.configurations.items new) }
    ensures within { OnOk result ((d : Configuration) → IsOneOf best.new.configurations.items d
        → IsOneOf best.old.configurations.items d ⊎ (d ≡ new)) }
{
    if best.has_better(log, &new, lost) {
        return Ok(());
    }
    best.push(log, new, lost)?;
    Ok(())
}

// Returns the slots of commands that never get a reply other than `failed`.
fn lost_slots(
    log: &[Observation],
    replies: &BTreeMap<u64, usize>,
    slots: &[Option<usize>],
) -> SlotSet
    requires few { length slots.now ≤ 4096 }
    requires replies { AreReplyLines log.now replies.now (length log.now) }
    ensures { AreLost log.now (waiting log.now slots.now) result }
{
    let mut lost = SlotSet::new();
    for slot in 0..slots.len() {
        if is_lost(log, replies, slots, slot) {
            lost = lost.with(slot);
        }
    }
    lost
}

fn is_lost(
    log: &[Observation],
    replies: &BTreeMap<u64, usize>,
    slots: &[Option<usize>],
    slot: usize,
) -> bool
    requires slot { slot < length slots.now }
    requires replies { AreReplyLines log.now replies.now (length log.now) }
    ensures { IsTrue result → (f : Command) → waiting log.now slots.now slot ≡ Some f → IsUnacknowledged log.now f.id }
{
    let Some(line) = slots[slot] else {
        return false;
    };
    match submitted_at(log, line) {
        Some(command) => is_unacknowledged(log, replies, command),
        None => false,
    }
}

/// Returns the configurations after the reply to the command in a slot, in which this command has taken effect, perhaps
/// after others. Returns None if `limit` different configurations arise or more.
pub fn settled(
    alloc: Global,
    log: &[Observation],
    replies: &BTreeMap<u64, usize>,
    slots: &[Option<usize>],
    configurations: &[Configuration],
    slot: usize,
    limit: usize,
    trail: &mut Vec<Step>,
) -> Result<Option<Vec<Configuration>>, NoMemory>
    requires slot { slot < 4096 }
    requires few { length slots.now ≤ 4096 }
    requires replies { AreReplyLines log.now replies.now (length log.now) }
    ensures settled { IfOk result (λ o. IfSome o (λ next. IsSettled log.now slots.now configurations.now slot next.items)) }
    ensures trail_longer { OnOk result (IsLongerTrail trail.old.items trail.new.items) }
    ensures sound { IfOk result (λ o. IfSome o (λ next. AreWithin configurations.now trail.old.items
        → AreSoundlySettled log.now slots.now trail.new.items configurations.now slot next.items)) }
    ensures many { IfOk result (λ o. o ≡ None → AreWithin configurations.now trail.old.items
        → ReachMany log.now slots.now trail.new.items configurations.now limit) }
{
    let lost = lost_slots(log, replies, slots);
    let twins = twins_of(alloc, log, slots, &lost)?;
    let mut work = begun(alloc, log, replies, slots, configurations, &lost, trail)?;
    let mut next = Work::new(alloc);
    for place in 0..usize::MAX {
        if is_given_up(alloc, log, work.configurations.as_slice(), place, limit)? {
            return Ok(None);
        }
        let Some(from) = configuration_at(work.configurations.as_slice(), place) else {
            let best = best_of(alloc, log, next.configurations.as_slice(), &lost)?;
            return Ok(Some(best));
        };
        if from.done.has(slot) {
            push_freed(log, &mut next, &from, slot, &lost)?;
        } else {
            push_steps(
                log,
                replies,
                slots,
                &from,
                &lost,
                twins.as_slice(),
                &mut work,
                trail,
            )?;
        }
    }
    // No list has as many configurations.
    Err(NoMemory)
}
