//! The stored knowledge about instances, in slots and in intervals of skipped instances.
ghost use Rattle.mencius_base.specs.Limits.{greatest_front, instance_count};
ghost use Rattle.mencius_server.specs.Instances.{IsSorted, instance_slot_in, is_in_skipped, slot_by_skip};
ghost use Rattle.mencius_server.specs.LearnedIntervals.{AreLearnedIntervals};
ghost use Rattle.mencius_server.specs.Calls.{IsFirstOpen};
ghost use Rattle.std.specs.Prelude.{◌≡◌, ℕ, ◌<◌, ◌≤◌, false, true, is_none};

use crate::learned_intervals::LearnedIntervals;
use crate::owned_interval::next_owned;
use crate::skipped_intervals::SkippedIntervals;
use crate::slots::{Slots, blank};
use coord_paxos::Slot;
use mencius_base::{INSTANCES, Members, Value};

/// The knowledge about each instance. An instance has a slot if the server heard or did something there other than
/// hearing a Skip. Intervals cover the instances where the server heard only a Skip.
///
/// If an instance has a slot and also lies in an interval, its slot has learned a value.
#[derive(Drop)]
pub(crate) struct StoredInstances {
    pub(crate) members: Members,
    pub(crate) slots: Slots,
    // For each server, the intervals of instances that it was heard to skip.
    pub(crate) skipped: Vec<SkippedIntervals>,
}

impl StoredInstances {
    /// Returns whether the owner of an instance was heard to skip it.
    pub(crate) fn is_skipped(&self, inst: u32) -> bool
        requires { IsSorted self.now.members self.now.skipped.items }
        ensures { result ≡ is_in_skipped self.now.members self.now.skipped.items inst }
    {
        self.skipped[self.members.owner(inst) as usize].has_instance(inst)
    }

    /// Returns the knowledge about an instance that has no slot.
    pub(crate) fn slot_by_skip(&self, inst: u32) -> Slot
        requires { IsSorted self.now.members self.now.skipped.items }
        ensures { result ≡ slot_by_skip self.now.members
            (is_in_skipped self.now.members self.now.skipped.items inst) }
    {
        blank(self.members, self.is_skipped(inst))
    }

    /// Returns the value that the server learned at an instance, if any.
    pub(crate) fn learned(&self, inst: u32) -> Option<Value>
        requires sorted { IsSorted self.now.members self.now.skipped.items }
        requires small { inst < instance_count }
        ensures { result ≡ (instance_slot_in self.now.members self.now.slots self.now.skipped.items inst).learned }
    {
        match self.slots.get(inst) {
            Some(slot) => slot.learned(),
            None => {
                if self.is_skipped(inst) {
                    Some(Value::Noop)
                } else {
                    None
                }
            }
        }
    }

    /// Returns the lowest unlearned instance at or above `from`, or 4,096 if all these instances are learned.
    pub(crate) fn learned_from(&self, from: u32) -> u32
        requires sorted { IsSorted self.now.members self.now.skipped.items }
        requires small { from ≤ instance_count }
        ensures small { result ≤ instance_count }
        ensures learned { (j : ℕ) → from ≤ j → j < result
            → is_none (instance_slot_in self.now.members self.now.slots self.now.skipped.items j).learned ≡ false }
        ensures least { result < instance_count
            → is_none (instance_slot_in self.now.members self.now.slots self.now.skipped.items result).learned ≡ true }
    {
        let mut inst = from;
        while inst < INSTANCES && self.learned(inst).is_some() {
            inst += 1;
        }
        inst
    }

    /// Returns the lowest unlearned instance of the owner of `from`, starting at `from`. If that instance is not below
    /// `stop`, the result is a place that is not below `stop`.
    ///
    /// The search leaps over the known intervals of learned instances, and records the interval that it finds.
    pub(crate) fn open_from(
        &self,
        learned_intervals: &mut LearnedIntervals,
        from: u32,
        stop: u32,
    ) -> u32
        requires sorted { IsSorted self.now.members self.now.skipped.items }
        requires near { from ≤ greatest_front }
        requires small { stop ≤ instance_count }
        requires learned_intervals { AreLearnedIntervals self.now.members
            (λ j. is_none (instance_slot_in self.now.members self.now.slots self.now.skipped.items j).learned)
            learned_intervals.old }
        ensures first { IsFirstOpen self.now.members
            (λ j. is_none (instance_slot_in self.now.members self.now.slots self.now.skipped.items j).learned)
            from stop result }
        ensures learned_intervals { AreLearnedIntervals self.now.members
            (λ j. is_none (instance_slot_in self.now.members self.now.slots self.now.skipped.items j).learned)
            learned_intervals.new }
    {
        let mut inst = from;
        while inst < stop && self.learned(inst).is_some() {
            inst = learned_intervals.past(inst, next_owned(self.members, inst));
        }
        if from < stop {
            learned_intervals.put(from, inst);
        }
        inst
    }
}
