//! Equal commands that never get a reply other than `failed`. Of these, the one in the lowest slot takes effect first.

ghost use Rattle.std.specs.Prelude.{◌≡◌, ◌<◌, ◌≤◌, IsTrue, MatchOption, None, Some, length};
ghost use Rattle.mencius_base.specs.declared.command.Command.{Command};
ghost use Rattle.mencius_clients.specs.Configurations.{GivesWay, waiting};

use crate::configuration::Configuration;
use crate::slot_set::SlotSet;
use crate::texts::submitted_at;
use mencius_base::{Command, NoMemory};
use mencius_judge::operations::is_same_op;
use mencius_log::Observation;
use std::alloc::Global;

/// Returns, for each slot, the nearest lower slot with an equal command, if both commands are lost. The numbers of these
/// slots count from 1, and 0 means none. Every use is checked, so nothing is proved about them.
pub fn twins_of(
    alloc: Global,
    log: &[Observation],
    slots: &[Option<usize>],
    lost: &SlotSet,
) -> Result<Vec<usize>, NoMemory>
    requires { length slots.now ≤ 4096 }
{
    let mut twins = Vec::new(alloc);
    for slot in 0..slots.len() {
        twins.push(twin_of(log, slots, lost, slot))?;
    }
    Ok(twins)
}

// Returns the number of the nearest lower slot with an equal command that is lost too, or 0.
fn twin_of(log: &[Observation], slots: &[Option<usize>], lost: &SlotSet, slot: usize) -> usize
    requires slot { slot < length slots.now }
    requires few { length slots.now ≤ 4096 }
{
    let mut twin = 0;
    if lost.has(slot) {
        for lower in 0..slot {
            if lost.has(lower) && are_equal_at(log, slots, lower, slot) {
                twin = lower + 1;
            }
        }
    }
    twin
}

/// Returns whether an equal command in a lower slot takes effect first.
pub fn gives_way(
    log: &[Observation],
    slots: &[Option<usize>],
    from: &Configuration,
    slot: usize,
    lost: &SlotSet,
    twins: &[usize],
) -> bool
    requires slot { slot < length slots.now }
    requires few { length slots.now ≤ 4096 }
    ensures { IsTrue result → GivesWay log.now slots.now lost.now from.now slot }
{
    let number = number_at(twins, slot);
    if number == 0 {
        return false;
    }
    let twin = number - 1;
    if twin >= slot || from.done.has(twin) || !lost.has(twin) || !lost.has(slot) {
        return false;
    }
    are_equal_at(log, slots, twin, slot)
}

fn number_at(twins: &[usize], slot: usize) -> usize {
    match twins.get(slot) {
        Some(number) => *number,
        None => 0,
    }
}

// Returns whether commands with the same operation wait in two slots.
fn are_equal_at(log: &[Observation], slots: &[Option<usize>], twin: usize, slot: usize) -> bool
    requires slot { slot < length slots.now }
    requires twin { twin < length slots.now }
    ensures { IsTrue result → (f : Command) × (d : Command) × (waiting log.now slots.now twin ≡ Some f)
        × (waiting log.now slots.now slot ≡ Some d) × (f.op ≡ d.op) }
{
    let Some(other) = waiting_at(log, slots, twin) else {
        return false;
    };
    let Some(command) = waiting_at(log, slots, slot) else {
        return false;
    };
    is_same_op(other.op(), command.op())
}

// Returns the command that waits in a slot.
fn waiting_at<'a>(
    log: &'a [Observation],
    slots: &[Option<usize>],
    slot: usize,
) -> Option<&'a Command>
    requires { slot < length slots.now }
    ensures { MatchOption result (waiting log.now slots.now slot ≡ None)
        (λ c. waiting log.now slots.now slot ≡ Some c.now) }
{
    let Some(line) = slots[slot] else {
        return None;
    };
    submitted_at(log, line)
}
