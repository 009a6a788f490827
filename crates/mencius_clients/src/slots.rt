//! The slots in which the commands of a key wait for their replies.

ghost use Rattle.std.specs.Prelude.{◌≡◌, ◌<◌, MatchBool, MatchOption, None, Some, length};
ghost use Rattle.mencius_base.specs.declared.command.Command.{Command};
ghost use Rattle.mencius_clients.specs.Configurations.{AreFull, IsSlotOf, IsWaitingAt, waiting};

use crate::texts::submitted_at;
use mencius_base::CommandId;
use mencius_log::Observation;

/// Returns a slot in which no command waits.
pub fn free_slot(log: &[Observation], slots: &[Option<usize>]) -> Option<usize>
    ensures { MatchOption result (AreFull log.now slots.now)
        (λ slot. (waiting log.now slots.now slot ≡ None) × (slot < length slots.now)) }
{
    for slot in 0..slots.len() {
        if is_free(log, slots, slot) {
            return Some(slot);
        }
    }
    None
}

// Returns whether no command waits in a slot.
fn is_free(log: &[Observation], slots: &[Option<usize>], slot: usize) -> bool
    requires { slot < length slots.now }
    ensures { MatchBool result (waiting log.now slots.now slot ≡ None)
        ((c : Command) × (waiting log.now slots.now slot ≡ Some c)) }
{
    let Some(line) = slots[slot] else {
        return true;
    };
    match submitted_at(log, line) {
        Some(_command) => false,
        None => true,
    }
}

/// Returns the slot in which a command waits.
pub fn slot_of(log: &[Observation], slots: &[Option<usize>], id: CommandId) -> Option<usize>
    ensures { IsSlotOf log.now slots.now id result }
{
    for slot in 0..slots.len() {
        if is_waiting_at(log, slots, slot, id) {
            return Some(slot);
        }
    }
    None
}

// Returns whether this command waits in a slot.
fn is_waiting_at(log: &[Observation], slots: &[Option<usize>], slot: usize, id: CommandId) -> bool
    requires { slot < length slots.now }
    ensures { MatchBool result (IsWaitingAt log.now slots.now id slot)
        (IsWaitingAt log.now slots.now id slot → ⊥) }
{
    let Some(line) = slots[slot] else {
        return false;
    };
    match submitted_at(log, line) {
        Some(command) => command.id() == id,
        None => false,
    }
}
