//! A server's knowledge about all instances.
ghost use Rattle.mencius_base.specs.Limits.{instance_count};
ghost use Rattle.coord_paxos.specs.Slot.{acceptance_answer, prepare_answer, promise_answer};
ghost use Rattle.mencius_server.specs.Changes.{IsSaid, slot_after_change};
ghost use Rattle.mencius_server.specs.Glances.{glance_of};
ghost use Rattle.mencius_server.specs.Instances.{has_slot, instance_slot, instances_after_skip, instances_after_suggest, new_instances, newly_skipped_stored, with_instance_slot, with_stored};
ghost use Rattle.std.specs.List.{count_by};
ghost use Rattle.std.specs.Prelude.{◌≡◌, ◌<◌, false, true, None, slice_index_or, IfOk, OnErr, OnOk};

use crate::change::Change;
use crate::glance::{Glance, glance_at};
use crate::learned_intervals::LearnedIntervals;
use crate::owned_interval::OwnedInterval;
use crate::skipped_intervals::SkippedIntervals;
use crate::slots::Slots;
use crate::stored_instances::StoredInstances;
use crate::tally::Tallies;
use coord_paxos::Answer;
use mencius_base::{Ballot, INSTANCES, Members, NoMemory, Value, Vote};
use std::alloc::Global;
use std::marker::Model;

mod suspicion;

/// A server's knowledge about each instance, with bounds and counts that save repeated searches.
#[derive(Drop)]
pub(crate) struct Instances {
    stored: StoredInstances,
    // The lowest unlearned instance, or 4,096 if every instance is learned.
    learned_below: u32,
    // For each server, counts of the instances that a suspicion would revoke, up to the reach of earlier suspicions.
    tallies: Tallies,
    // Intervals of learned instances that earlier suspicions passed.
    learned_intervals: LearnedIntervals,
}

impl Model for Instances {
    ghost use Rattle.mencius_server.specs.Instances.{InstancesState, instances_in};
    ghost use Rattle.mencius_server.specs.Tallies.{IsInstancesInside};

    ghost Value = { InstancesState };

    ghost view = { λ s. instances_in s.stored.members s.stored.slots s.stored.skipped.items };

    ghost invariant = { λ s. IsInstancesInside s.stored.members s.stored.slots s.stored.skipped.items s.learned_below
        s.tallies s.learned_intervals };
}

impl Instances {
    /// Makes the knowledge of a server that knows nothing about any instance.
    pub(crate) fn new(alloc: Global, members: Members) -> Result<Instances, NoMemory>
        ensures ok { IfOk result (λ s. s ≡ new_instances members) }
    {
        let skipped = SkippedIntervals::none_of_each(alloc, members)?;
        let learned_intervals = LearnedIntervals::new(alloc)?;
        Ok(Instances {
            stored: StoredInstances {
                members,
                slots: Slots::new(alloc),
                skipped,
            },
            learned_below: 0,
            tallies: Tallies::new(),
            learned_intervals,
        })
    }

    /// Returns the value that the server learned at an instance, if any.
    pub(crate) fn learned(&self, inst: u32) -> Option<Value>
        requires { inst < instance_count }
        ensures { result ≡ (instance_slot self.now inst).learned }
    {
        self.stored.learned(inst)
    }

    /// Returns the value that the server proposed at an instance, if any.
    pub(crate) fn proposal(&self, inst: u32) -> Option<Value>
        requires { inst < instance_count }
        ensures { result ≡ (instance_slot self.now inst).proposal }
    {
        match self.stored.slots.get(inst) {
            Some(slot) => slot.proposal(),
            None => None,
        }
    }

    /// Returns the greatest ballot that the server promised or accepted at an instance.
    pub(crate) fn promised(&self, inst: u32) -> Ballot
        requires { inst < instance_count }
        ensures { result ≡ (instance_slot self.now inst).promised }
    {
        match self.stored.slots.get(inst) {
            Some(slot) => slot.promised(),
            None => Ballot::OWNER,
        }
    }

    /// Returns the greatest ballot that the server tries at an instance.
    pub(crate) fn trying(&self, inst: u32) -> Ballot
        requires { inst < instance_count }
        ensures { result ≡ (instance_slot self.now inst).trying }
    {
        match self.stored.slots.get(inst) {
            Some(slot) => slot.trying(),
            None => Ballot::OWNER,
        }
    }

    /// Returns a summary of the knowledge about an instance.
    pub(crate) fn glance(&self, inst: u32) -> Glance
        requires { inst < instance_count }
        ensures { result ≡ glance_of (instance_slot self.now inst) }
    {
        match self.stored.slots.get(inst) {
            Some(slot) => glance_at(slot),
            None => glance_at(&self.stored.slot_by_skip(inst)),
        }
    }

    /// Returns the answer to a Prepare at an instance.
    pub(crate) fn prepare_answer(&self, inst: u32, ballot: Ballot) -> Answer
        requires { inst < instance_count }
        ensures { result ≡ prepare_answer (instance_slot self.now inst) ballot }
    {
        match self.stored.slots.get(inst) {
            Some(slot) => slot.prepare_answer(ballot),
            None => self.stored.slot_by_skip(inst).prepare_answer(ballot),
        }
    }

    /// Returns the value that is due to be proposed at an instance once a promise is counted, if any.
    pub(crate) fn promise_answer(
        &self,
        inst: u32,
        from: u8,
        ballot: Ballot,
        vote: Option<Vote>,
    ) -> Option<Value>
        requires small { inst < instance_count }
        requires member { from < (instance_slot self.now inst).members.count }
        ensures { result ≡ promise_answer (instance_slot self.now inst) from ballot vote }
    {
        match self.stored.slots.get(inst) {
            Some(slot) => slot.promise_answer(from, ballot, vote),
            None => self
                .stored
                .slot_by_skip(inst)
                .promise_answer(from, ballot, vote),
        }
    }

    /// Returns the value that is learned at an instance once an acceptance is counted, if any.
    pub(crate) fn acceptance_answer(&self, inst: u32, from: u8, ballot: Ballot) -> Option<Value>
        requires small { inst < instance_count }
        requires member { from < (instance_slot self.now inst).members.count }
        ensures { result ≡ acceptance_answer (instance_slot self.now inst) from ballot }
    {
        match self.stored.slots.get(inst) {
            Some(slot) => slot.acceptance_answer(from, ballot),
            None => self
                .stored
                .slot_by_skip(inst)
                .acceptance_answer(from, ballot),
        }
    }

    /// Returns whether a server's acceptance at the tried ballot was counted at an instance.
    pub(crate) fn has_accepter(&self, inst: u32, from: u8) -> bool
        requires { inst < instance_count }
        ensures { result ≡ true → slice_index_or (instance_slot self.now inst).accepts from false
            ≡ true }
    {
        match self.stored.slots.get(inst) {
            Some(slot) => {
                let accepts = slot.accepts();
                (from as usize) < accepts.len() && accepts[from as usize]
            }
            None => false,
        }
    }

    /// Changes the slot of an instance in place. If the instance has no slot, the call first stores a new one. Only
    /// this step allocates.
    pub(crate) fn change(&mut self, inst: u32, change: Change) -> Result<(), NoMemory>
        requires small { inst < instance_count }
        requires said { IsSaid (instance_slot self.old inst).members change }
        ensures ok { OnOk result (self.new
            ≡ with_instance_slot self.old inst (slot_after_change (instance_slot self.old inst) change)) }
        ensures err { OnErr result (self.new ≡ self.old) }
    {
        self.store(inst)?;
        let slot = self.stored.slots.at(inst);
        self.tallies.change(self.stored.members, inst, slot, change);
        if inst == self.learned_below {
            self.learned_below = self.stored.learned_from(inst);
        }
        Ok(())
    }

    /// Records the server's own suggestion at an instance where it has proposed nothing.
    pub(crate) fn suggest(&mut self, inst: u32, ticket: u32) -> Result<(), NoMemory>
        requires small { inst < instance_count }
        requires unsaid { (instance_slot self.old inst).proposal ≡ None }
        requires own { (instance_slot self.old inst).trying ≡ 0 }
        ensures ok { OnOk result (self.new ≡ instances_after_suggest self.old inst ticket) }
        ensures err { OnErr result (self.new ≡ self.old) }
    {
        self.store(inst)?;
        self.stored.slots.at(inst).suggest(ticket);
        Ok(())
    }

    // Stores a slot at an instance that has none, and otherwise changes nothing.
    fn store(&mut self, inst: u32) -> Result<(), NoMemory>
        requires { inst < instance_count }
        ensures ok { OnOk result (self.new ≡ with_stored self.old inst) }
        ensures there { OnOk result (has_slot self.new inst ≡ true) }
        ensures err { OnErr result (self.new ≡ self.old) }
    {
        if self.stored.slots.has_slot(inst) {
            return Ok(());
        }
        let was_skipped = self.stored.is_skipped(inst);
        self.stored
            .slots
            .store(self.stored.members, inst, was_skipped)?;
        Ok(())
    }

    /// Learns no-op at the instances of server `from` in an interval. Returns the number of these instances that were
    /// unlearned before.
    ///
    /// If the interval was skipped before, the call only searches the skipped intervals. Otherwise, its time is about
    /// the number of slots that may be stored in the interval. If the server was suspected before, the call also visits
    /// the server's instances in the interval below the reach of that suspicion.
    pub(crate) fn skip(&mut self, from: u8, first: u32, stop: u32) -> Result<u32, NoMemory>
        requires member { from < self.old.members.count }
        requires small { first < instance_count }
        ensures after { OnOk result (self.new ≡ instances_after_skip self.old from first stop) }
        ensures learned { IfOk result (λ n. n ≡ newly_skipped_stored self.old from first stop) }
        ensures err { OnErr result (self.new ≡ self.old) }
    {
        let members = self.stored.members;
        let first = members.first_owned(from, first);
        let stop = members.first_owned(from, stop.min(INSTANCES));
        if self.stored.skipped[from as usize].past(first) >= stop {
            return Ok(0);
        }
        let interval = OwnedInterval {
            members,
            server: from,
            first,
            stop,
        };
        let _within_limit = members.count(); // proof: at most 7 servers
        let tally = self
            .stored
            .tally_after_skip(&interval, self.tallies.get(from));
        let intervals = &mut self.stored.skipped[from as usize];
        let learned = self.stored.slots.skip(intervals, &interval)?;
        self.tallies.put(from, tally);
        self.learned_below = self.stored.learned_from(self.learned_below);
        Ok(learned)
    }

    /// Returns the number of stored slots and the number of skipped intervals.
    pub(crate) fn kept(&self) -> (u32, u32)
        ensures { result.0 ≡ count_by (λ x. x) self.now.is_stored }
    {
        let slots = self.stored.slots.len() as u32;
        let mut intervals: u32 = 0;
        for skipped in &self.stored.skipped {
            intervals = intervals.saturating_add(u32::try_from(skipped.len()).unwrap_or(u32::MAX));
        }
        (slots, intervals)
    }
}
