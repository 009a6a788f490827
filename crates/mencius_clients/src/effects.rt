//! The effect of one waiting command, and of waiting reads, on a configuration.

ghost use Rattle.std.specs.Prelude.{◌≡◌, ◌≢◌, true, Contains, ◌<◌, ◌≤◌, ◌⊎◌, ℕ, IfSome, MatchOption, Some, false, length, slice_get};
ghost use Rattle.mencius_log.specs.declared.observation.Observation.TheVariants.{Reply};
ghost use Rattle.mencius_judge.specs.Log.{is_failed};
ghost use Rattle.mencius_clients.specs.OrdersSoFar.{IsSoundEffect, IsSoundRead};
ghost use Rattle.mencius_clients.specs.Configurations.{AreReplyLines, Calls, IsBarred, IsPassed, IsRead, IsReadOn, IsRefuted, IsStep, IsUnacknowledged, become, has_slot, submitted_by, text_at, waiting};

use crate::answers::{is_right_at, is_unacknowledged, reads_text, reply_at};
use crate::configuration::Configuration;
use crate::texts::{is_cas, is_same_text_at, number_after, submitted_at};
use mencius_base::Command;
use mencius_log::{Answer, Observation};
use std::collections::BTreeMap;

// Returns the configuration after the command that a line submits.
fn after(
    log: &[Observation],
    from: &Configuration,
    slot: usize,
    line: usize,
    command: &Command,
    unseen: bool,
) -> Configuration
    requires slot { slot < 4096 }
    requires line { submitted_by (slice_get log.now line) ≡ Some command.now }
    ensures here { has_slot result.done slot ≡ true }
    ensures elsewhere { (other : ℕ) → other ≢ slot → has_slot result.done other ≡ has_slot from.now.done other }
    ensures text { text_at log.now result.text ≡ become (text_at log.now from.now.text) command.now.op }
    ensures unseen { result.unseen ≡ unseen }
{
    Configuration {
        done: from.done.with(slot),
        text: number_after(log, from.text, line, command.op()),
        unseen,
        trail: from.trail,
    }
}

// Returns the configuration after a command that has this reply. Returns None if the reply would be wrong.
fn answered_step(
    log: &[Observation],
    from: &Configuration,
    slot: usize,
    line: usize,
    command: &Command,
    answer: &Answer,
) -> Option<Configuration>
    requires slot { slot < 4096 }
    requires line { submitted_by (slice_get log.now line) ≡ Some command.now }
    requires answer { Contains log.now (Reply command.now.id answer.now) }
    requires counts { is_failed answer.now ≡ false }
    ensures step { MatchOption result (IsRefuted log.now command.now from.now)
        (λ c. (calls : Calls) → IsStep log.now calls slot command.now from.now c) }
    ensures sound { IfSome result (λ c. IsSoundEffect log.now slot command.now from.now c) }
{
    if !is_right_at(log, from.text, command.op(), answer) {
        return None;
    }
    Some(after(log, from, slot, line, command, false))
}

// Returns the configuration after a command that never has a reply other than `failed`. Returns None if the command
// changes nothing, or overwrites a text that no one has seen.
fn unanswered_step(
    log: &[Observation],
    from: &Configuration,
    slot: usize,
    line: usize,
    command: &Command,
) -> Option<Configuration>
    requires slot { slot < 4096 }
    requires line { submitted_by (slice_get log.now line) ≡ Some command.now }
    requires unacknowledged { IsUnacknowledged log.now command.now.id }
    ensures step { MatchOption result (IsPassed log.now command.now from.now)
        (λ c. (calls : Calls) → IsStep log.now calls slot command.now from.now c) }
    ensures sound { IfSome result (λ c. IsSoundEffect log.now slot command.now from.now c) }
{
    let new = after(log, from, slot, line, command, true);
    if is_same_text_at(log, new.text, from.text) {
        return None;
    }
    if from.unseen && !is_cas(command.op()) {
        return None;
    }
    Some(new)
}

/// Returns the configuration after the command that a line submits, if the command may take effect.
pub fn stepped(
    log: &[Observation],
    replies: &BTreeMap<u64, usize>,
    from: &Configuration,
    slot: usize,
    line: usize,
    command: &Command,
) -> Option<Configuration>
    requires slot { slot < 4096 }
    requires line { submitted_by (slice_get log.now line) ≡ Some command.now }
    requires replies { AreReplyLines log.now replies.now (length log.now) }
    ensures step { MatchOption result (IsBarred log.now command.now from.now)
        (λ c. (calls : Calls) → IsStep log.now calls slot command.now from.now c) }
    ensures sound { IfSome result (λ c. IsSoundEffect log.now slot command.now from.now c) }
{
    if is_unacknowledged(log, replies, command) {
        return unanswered_step(log, from, slot, line, command);
    }
    let answer = reply_at(log, replies, command.id())?;
    answered_step(log, from, slot, line, command, answer)
}

/// Lets a waiting read take effect, if its reply is right for the text of the configuration.
pub fn with_read(
    log: &[Observation],
    replies: &BTreeMap<u64, usize>,
    slots: &[Option<usize>],
    from: &Configuration,
    slot: usize,
) -> Configuration
    requires slot { slot < length slots.now }
    requires few { length slots.now ≤ 4096 }
    ensures read { (from.now ≡ result) ⊎ IsRead log.now (waiting log.now slots.now) slot from.now result }
    ensures sound { (from.now ≡ result) ⊎ IsSoundRead log.now slots.now slot from.now result }
{
    let Some(line) = slots[slot] else {
        return *from;
    };
    let Some(command) = submitted_at(log, line) else {
        return *from;
    };
    if from.done.has(slot) || !reads_text(log, replies, from.text, command) {
        return *from;
    }
    Configuration {
        done: from.done.with(slot),
        text: from.text,
        unseen: false,
        trail: from.trail,
    }
}

/// Lets all waiting reads take effect whose replies are right for the text of the configuration.
pub fn with_reads(
    log: &[Observation],
    replies: &BTreeMap<u64, usize>,
    slots: &[Option<usize>],
    from: &Configuration,
) -> Configuration
    requires { length slots.now ≤ 4096 }
    ensures { IsReadOn log.now (waiting log.now slots.now) from.now result }
{
    let mut new = *from;
    for slot in 0..slots.len() {
        new = with_read(log, replies, slots, &new, slot);
    }
    new
}
