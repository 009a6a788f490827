//! Counts of the instances that a suspicion would revoke. They are updated as the instances change.
ghost use Rattle.mencius_base.specs.Limits.{instance_count, most_servers};
ghost use Rattle.mencius_base.specs.Members.{owner};
ghost use Rattle.mencius_base.specs.Refusal.{IsRefusedFor};
ghost use Rattle.mencius_server.specs.Changes.{IsSaid, slot_after_change};
ghost use Rattle.mencius_server.specs.Instances.{IsSorted, instance_slot_in};
ghost use Rattle.mencius_server.specs.Machine.{is_spent};
ghost use Rattle.mencius_server.specs.Slots.{slot_after_skip_in};
ghost use Rattle.mencius_server.specs.Tallies.{HasCounted, IsTally, IsTallyFrom, no_tally, tally_after, tally_cause, tally_difference, tally_of, tally_sum, with_counted, without_counted};
ghost use Rattle.mencius_server.specs.declared.tally.Tally.{Tally};
ghost use Rattle.std.specs.Prelude.{◌≡◌, ℕ, ◌+◌, ◌<◌, ◌≤◌, ◌==◌, ◌⊎◌, OnOk, false, true, if◌then◌else◌};

use crate::change::Change;
use crate::owned_interval::{OwnedInterval, next_owned};
use crate::revocation::next_round_of;
use crate::stored_instances::StoredInstances;
use coord_paxos::Slot;
use mencius_base::{GREATEST_ROUND, MOST_SERVERS, Members, Outbox, Refusal};
use std::marker::Model;

/// Counts of one server's instances below a place.
#[derive(Clone, Copy)]
pub(crate) struct Tally {
    /// The place below which instances are counted.
    pub(crate) stop: u32,
    /// The number of counted instances that are unlearned.
    pub(crate) open_count: u32,
    /// The number of counted instances that are unlearned and have no further round.
    pub(crate) spent_count: u32,
}

impl Tally {
    /// The tally of no instances.
    pub(crate) const NOTHING: Tally = Tally {
        stop: 0,
        open_count: 0,
        spent_count: 0,
    };

    /// Adds an instance that has a slot.
    pub(crate) fn with_slot(self, members: Members, slot: &Slot) -> Tally
        requires few { self.open_count ≤ instance_count }
        requires fewer { self.spent_count ≤ instance_count }
        ensures { result ≡ with_counted members self slot.now }
    {
        let is_open = slot.learned().is_none();
        Tally {
            stop: self.stop,
            open_count: self.open_count + u32::from(is_open),
            spent_count: self.spent_count + u32::from(is_open && is_spent(members, slot)),
        }
    }

    /// Removes an instance that was counted and has a slot.
    pub(crate) fn without_slot(self, members: Members, slot: &Slot) -> Tally
        requires { HasCounted members self slot.now }
        ensures { result ≡ without_counted members self slot.now }
    {
        let is_open = slot.learned().is_none();
        Tally {
            stop: self.stop,
            open_count: self.open_count - u32::from(is_open),
            spent_count: self.spent_count - u32::from(is_open && is_spent(members, slot)),
        }
    }

    /// Adds `further`, which is a tally of the instances that follow the end of this tally.
    pub(crate) fn plus(self, further: Tally) -> Tally
        requires few { self.open_count + further.open_count ≤ instance_count }
        requires fewer { self.spent_count + further.spent_count ≤ instance_count }
        ensures { result ≡ tally_sum self further }
    {
        Tally {
            stop: further.stop,
            open_count: self.open_count + further.open_count,
            spent_count: self.spent_count + further.spent_count,
        }
    }

    /// Subtracts a tally of some of the counted instances.
    pub(crate) fn without(self, some: Tally) -> Tally
        requires few { some.open_count ≤ self.open_count }
        requires fewer { some.spent_count ≤ self.spent_count }
        ensures { result ≡ tally_difference self some }
    {
        Tally {
            stop: self.stop,
            open_count: self.open_count - some.open_count,
            spent_count: self.spent_count - some.spent_count,
        }
    }

    /// Makes room for the Prepares of a suspicion with this tally, or returns the cause for which the suspicion is
    /// refused.
    pub(crate) fn reserve(self, out: &mut Outbox) -> Result<(), Refusal>
        ensures refusal { IsRefusedFor (tally_cause self out.old) result }
        ensures rounds { OnOk result (self.spent_count ≡ 0) }
        ensures room { OnOk result (self.open_count ≤ out.new.room) }
        ensures messages { out.new.messages ≡ out.old.messages }
        ensures kept { out.old.room ≤ out.new.room }
        ensures limit { out.new.limit ≡ out.old.limit }
    {
        if self.open_count == 0 {
            return Err(Refusal::NothingToRevoke);
        }
        if self.spent_count > 0 {
            return Err(Refusal::RoundsFull);
        }
        out.reserve(self.open_count)
    }
}

// Returns whether a slot has no further round.
fn is_spent(members: Members, slot: &Slot) -> bool
    ensures { result ≡ is_spent members slot.now }
{
    next_round_of(members, slot) > GREATEST_ROUND
}

/// A tally for each server.
#[derive(Drop)]
pub(crate) struct Tallies {
    by_server: [Tally; MOST_SERVERS as usize],
}

impl Model for Tallies {
    ghost use Rattle.std.specs.Prelude.{List};
    ghost use Rattle.mencius_server.specs.declared.tally.Tally.{Tally};

    ghost Value = { List Tally };

    ghost view = { λ s. s.by_server };
}

impl Tallies {
    /// Makes a tally of no instances for each server.
    pub(crate) fn new() -> Tallies
        ensures { (q : ℕ) → tally_of result q ≡ no_tally }
    {
        Tallies {
            by_server: [Tally::NOTHING; MOST_SERVERS as usize],
        }
    }

    /// Returns the tally of a server.
    pub(crate) fn get(&self, server: u8) -> Tally
        requires { server < most_servers }
        ensures { result ≡ tally_of self.now server }
    {
        self.by_server[server as usize]
    }

    /// Returns the tally of a server if its end is at most `stop`, and otherwise the tally of no instances.
    pub(crate) fn up_to(&self, server: u8, stop: u32) -> Tally
        requires { server < most_servers }
        ensures was { (result ≡ tally_of self.now server) ⊎ (result ≡ no_tally) }
        ensures low { result.stop ≤ stop }
    {
        let tally = self.get(server);
        if tally.stop > stop {
            return Tally::NOTHING;
        }
        tally
    }

    /// Sets the tally of a server.
    pub(crate) fn put(&mut self, server: u8, tally: Tally)
        requires { server < most_servers }
        ensures { (q : ℕ) → tally_of self.new q
            ≡ (if q == server then tally else tally_of self.old q) }
    {
        self.by_server[server as usize] = tally;
    }

    /// Forgets the tally of a server if `is_changed` says that many of its instances may have changed. The next suspicion
    /// of that server counts them again.
    pub(crate) fn forget_changed(&mut self, server: u8, is_changed: bool)
        requires { server < most_servers }
        ensures forgotten { is_changed ≡ true → tally_of self.new server ≡ no_tally }
        ensures kept { is_changed ≡ false → tally_of self.new server ≡ tally_of self.old server }
        ensures rest { (q : ℕ) → (q ≡ server → ⊥) → tally_of self.new q ≡ tally_of self.old q }
    {
        if is_changed {
            self.put(server, Tally::NOTHING);
        }
    }

    /// Changes the slot of an instance. If the instance is counted, the call updates its owner's tally.
    pub(crate) fn change(&mut self, members: Members, inst: u32, slot: &mut Slot, change: Change)
        requires said { IsSaid slot.old.members change }
        requires counted { inst < (tally_of self.old (owner members inst)).stop
            → HasCounted members (tally_of self.old (owner members inst)) slot.old }
        ensures slot { slot.new ≡ slot_after_change slot.old change }
        ensures counted { (q : ℕ) → tally_of self.new q
            ≡ (if q == owner members inst
            then tally_after members inst (tally_of self.old q) slot.old slot.new
            else tally_of self.old q) }
    {
        let owner = members.owner(inst);
        let tally = self.get(owner);
        if inst >= tally.stop {
            change.make(slot);
            return;
        }
        let others = tally.without_slot(members, slot);
        change.make(slot);
        self.put(owner, others.with_slot(members, slot));
    }
}

impl StoredInstances {
    /// Counts a server's instances from `first` up to, but not including, `stop`.
    pub(crate) fn tally_from(&self, server: u8, first: u32, stop: u32) -> Tally
        requires sorted { IsSorted self.now.members self.now.skipped.items }
        requires member { server < self.now.members.count }
        requires ahead { first ≤ stop }
        requires small { stop ≤ instance_count }
        ensures counted { IsTallyFrom self.now.members
            (instance_slot_in self.now.members self.now.slots self.now.skipped.items) server first result }
        ensures stop { result.stop ≡ stop }
    {
        let mut tally = Tally {
            stop,
            open_count: 0,
            spent_count: 0,
        };
        let mut inst = self.members.first_owned(server, first);
        while inst < stop {
            tally = self.tally_with(inst, tally);
            inst = next_owned(self.members, inst);
        }
        tally
    }

    // Adds one instance to a tally.
    fn tally_with(&self, inst: u32, tally: Tally) -> Tally
        requires sorted { IsSorted self.now.members self.now.skipped.items }
        requires small { inst < instance_count }
        requires few { tally.open_count ≤ instance_count }
        requires fewer { tally.spent_count ≤ instance_count }
        ensures { result ≡ with_counted self.now.members tally
            (instance_slot_in self.now.members self.now.slots self.now.skipped.items inst) }
    {
        match self.slots.get(inst) {
            Some(slot) => tally.with_slot(self.members, slot),
            None => tally.with_slot(self.members, &self.slot_by_skip(inst)),
        }
    }

    /// Returns the tally of the interval's server once no-op is learned at the instances of the interval.
    ///
    /// The call visits only the instances of the interval that `tally` counts.
    pub(crate) fn tally_after_skip(&self, interval: &OwnedInterval, tally: Tally) -> Tally
        requires members { interval.now.members ≡ self.now.members }
        requires sorted { IsSorted self.now.members self.now.skipped.items }
        requires member { interval.now.server < self.now.members.count }
        requires counted { IsTally interval.now.members
            (instance_slot_in interval.now.members self.now.slots self.now.skipped.items) interval.now.server tally }
        ensures { IsTally interval.now.members
            (λ j. slot_after_skip_in interval.now j
            (instance_slot_in interval.now.members self.now.slots self.now.skipped.items j))
            interval.now.server result }
    {
        let first = interval.first;
        let stop = interval.stop.min(tally.stop);
        if first >= stop {
            return tally;
        }
        let newly_skipped = self.tally_from(interval.server, first, stop);
        tally.without(newly_skipped)
    }
}
