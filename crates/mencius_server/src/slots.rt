//! The stored slots, by instance.
ghost use Rattle.mencius_base.specs.Limits.{instance_count};
ghost use Rattle.coord_paxos.specs.Fresh.{new_slot};
ghost use Rattle.coord_paxos.specs.Slot.{after_learn};
ghost use Rattle.coord_paxos.specs.SlotState.{SlotState};
ghost use Rattle.mencius_base.specs.Members.{numbers_below, instances, owner};
ghost use Rattle.mencius_base.specs.declared.message.Value.TheVariants.{Noop};
ghost use Rattle.mencius_server.specs.Instances.{is_newly_skipped_in, slot_by_skip};
ghost use Rattle.mencius_server.specs.LentSlots.{LendsSlot};
ghost use Rattle.mencius_server.specs.Machine.{is_spent};
ghost use Rattle.mencius_server.specs.Intervals.{AreSkippedIntervals, is_between, is_in_any};
ghost use Rattle.mencius_server.specs.LearnedIntervals.{AreLearnedIntervals};
ghost use Rattle.mencius_server.specs.Slots.{PassesLearnedIntervals, is_covered_slot, is_lacking, is_learned, is_learned_before, is_unlearned, new_slot_at, prepare_at, prepare_of, slot_after_phase, slot_after_skip_in, stored_after_phase, stored_at};
ghost use Rattle.mencius_server.specs.OwnedIntervals.{IsOwnedInterval};
ghost use Rattle.std.specs.Borrow.{sem};
ghost use Rattle.std.specs.List.{count_by, filter};
ghost use Rattle.std.specs.Option.{option_map};
ghost use Rattle.mencius_server.specs.Calls.{CanBeginAll, CanBeginAt, CanSkip};
ghost use Rattle.mencius_base.specs.Outbox.{IsPushed};
ghost use Rattle.std.specs.Prelude.{◌≡◌, ℕ, ◌+◌, ◌<◌, ◌≤◌, ◌==◌, ◌++◌, ◌&&◌, ◌||◌, not, false, true, is_none, is_some, length, map, slice_index_or, vec_capacity, vec_len, IfNone, IfOk, IfSome, IsSome, None, OnErr, OnOk, Some, if◌then◌else◌};

use crate::learned_intervals::LearnedIntervals;
use crate::owned_interval::{OwnedInterval, next_owned};
use crate::revocation::begin_slot;
use crate::skipped_intervals::SkippedIntervals;
use coord_paxos::Slot;
use mencius_base::{INSTANCES, Members, NoMemory, Outbox, Value};
use std::alloc::Global;
use std::marker::Model;

/// The stored slots. Each slot belongs to one instance.
///
/// A call finds a slot without a search and changes it in place. A call can also make room for several slots before it
/// stores the first of them.
#[derive(Drop)]
pub(crate) struct Slots {
    // For each instance, its slot, if one is stored. Instances past the end of the list have no slot.
    slots: Vec<Option<Slot>>,
}

impl Model for Slots {
    ghost use Rattle.std.specs.Prelude.{List, Option, ◌≤◌, length};
    ghost use Rattle.mencius_base.specs.Limits.{instance_count};
    ghost use Rattle.coord_paxos.specs.SlotState.{SlotState};

    ghost Value = { List (Option SlotState) };

    ghost view = { λ s. s.slots.items };

    ghost invariant = { λ s. length s.slots.items ≤ instance_count };
}

impl Slots {
    /// Makes a list without slots. This does not allocate.
    pub(crate) fn new(alloc: Global) -> Slots
        ensures { (j : ℕ) → stored_at result j ≡ None }
    {
        Slots {
            slots: Vec::new(alloc),
        }
    }

    /// Returns the number of stored slots.
    pub(crate) fn len(&self) -> usize
        ensures count { result ≡ count_by is_some self.now }
        ensures few { length self.now ≤ instance_count }
    {
        self.slots.iter().filter(|slot| slot.is_some()).count()
    }

    /// Returns the slot that is stored at an instance, if any.
    pub(crate) fn get(&self, inst: u32) -> Option<&Slot>
        requires { inst < instance_count }
        ensures there { IfSome result (λ s. stored_at self.now inst ≡ Some s.now) }
        ensures none { IfNone result (stored_at self.now inst ≡ None) }
    {
        if (inst as usize) < self.slots.len() {
            self.slots[inst as usize].as_ref()
        } else {
            None
        }
    }

    /// Returns whether a slot is stored at an instance.
    pub(crate) fn has_slot(&self, inst: u32) -> bool
        requires { inst < instance_count }
        ensures { result ≡ is_some (stored_at self.now inst) }
    {
        self.get(inst).is_some()
    }

    /// Returns the slot that is stored at an instance, so that the caller can change it in place.
    pub(crate) fn at(&mut self, inst: u32) -> &mut Slot
        requires small { inst < instance_count }
        requires there { IsSome (stored_at self.old inst) }
        ensures* lends { sem 𝓛 (LendsSlot self.entry inst result) }
        ensures value { stored_at self.old inst ≡ Some result.now }
    {
        match &mut self.slots[inst as usize] {
            Some(slot) => slot,
            None => unreachable!(),
        }
    }

    /// Stores a slot at an instance that has none. If the instance was skipped, the slot has learned no-op.
    pub(crate) fn store(
        &mut self,
        members: Members,
        inst: u32,
        is_skipped: bool,
    ) -> Result<(), NoMemory>
        requires small { inst < instance_count }
        requires none { stored_at self.old inst ≡ None }
        ensures ok { OnOk result ((j : ℕ) → stored_at self.new j
            ≡ (if j == inst then Some (slot_by_skip members is_skipped) else stored_at self.old j)) }
        ensures err { OnErr result (self.new ≡ self.old) }
    {
        widen(&mut self.slots, inst as usize + 1)?;
        self.slots[inst as usize] = Some(blank(members, is_skipped));
        Ok(())
    }

    /// Stores a new slot at each instance of an interval that has no slot and lies in no skipped interval.
    pub(crate) fn store_all(
        &mut self,
        interval: OwnedInterval,
        skipped: &SkippedIntervals,
        learned_intervals: &LearnedIntervals,
    ) -> Result<(), NoMemory>
        requires interval { IsOwnedInterval interval }
        requires small { interval.stop ≤ instance_count }
        requires learned_intervals { AreLearnedIntervals interval.members (is_lacking interval skipped.now self.old)
            learned_intervals.now }
        ensures ok { OnOk result ((j : ℕ) → stored_at self.new j
            ≡ new_slot_at interval skipped.now j (stored_at self.old j)) }
        ensures err { OnErr result (self.new ≡ self.old) }
    {
        widen(&mut self.slots, interval.stop as usize)?;
        store_lacking(&mut self.slots, interval, skipped, learned_intervals);
        Ok(())
    }

    /// Starts a first phase at each unlearned slot of an interval. Returns whether any of these phases is in the last
    /// round.
    ///
    /// `out` has room for the Prepares.
    pub(crate) fn begin_all(
        &mut self,
        interval: OwnedInterval,
        id: u8,
        learned_intervals: &mut LearnedIntervals,
        out: &mut Outbox,
    ) -> bool
        requires { CanBeginAll interval id self.old learned_intervals.old out.old }
        ensures slots { (j : ℕ) → stored_at self.new j
            ≡ stored_after_phase interval id j (stored_at self.old j) }
        ensures sent { out.new.messages
            ≡ out.old.messages
            ++ map (prepare_of interval id self.old)
            (filter (is_covered_slot interval self.old) (numbers_below interval.stop)) }
        ensures limit { out.new.limit ≡ out.old.limit }
        ensures last { result ≡ false → (j : ℕ) (s : SlotState) → is_covered_slot interval self.old j ≡ true
            → stored_at self.new j ≡ Some s → is_spent interval.members s ≡ false }
        ensures learned_intervals { PassesLearnedIntervals interval self.old learned_intervals.old
            learned_intervals.new }
    {
        let members = interval.members;
        let stop = interval.stop;
        let mut is_last = false;
        let mut inst = interval.first;
        while inst < stop {
            match self.begin(members, id, inst, out) {
                Some(is_last_here) => {
                    is_last = is_last || is_last_here;
                    inst = next_owned(members, inst);
                }
                None => {
                    let mut end = inst;
                    while end < stop && !self.is_unlearned(end) {
                        end = learned_intervals.past(end, next_owned(members, end));
                    }
                    learned_intervals.put(inst, end);
                    inst = end;
                }
            }
        }
        is_last
    }

    // Starts a first phase at an instance with an unlearned slot, and returns whether that phase is in the last round.
    // At any other instance, the function starts no phase and returns `None`.
    fn begin(&mut self, members: Members, id: u8, inst: u32, out: &mut Outbox) -> Option<bool>
        requires { CanBeginAt members id inst self.old out.old }
        ensures slots { (j : ℕ) → stored_at self.new j
            ≡ (if j == inst
            then option_map (slot_after_phase members id) (stored_at self.old j)
            else stored_at self.old j) }
        ensures pushed { IsPushed (prepare_at members id inst (stored_at self.old inst))
            (if is_unlearned (stored_at self.old inst) then 1 else 0) out.old out.new }
        ensures begun { is_some result ≡ is_unlearned (stored_at self.old inst) }
        ensures last { result ≡ Some false → (s : SlotState)
            → stored_at self.new inst ≡ Some s → is_spent members s ≡ false }
    {
        if self.has_slot(inst) {
            begin_slot(self.at(inst), members, id, inst, out)
        } else {
            None
        }
    }

    // Returns whether an instance has a slot that has learned nothing.
    fn is_unlearned(&self, inst: u32) -> bool
        requires { inst < instance_count }
        ensures { result ≡ is_unlearned (stored_at self.now inst) }
    {
        match self.get(inst) {
            Some(slot) => slot.learned().is_none(),
            None => false,
        }
    }

    /// Learns no-op at the instances of an interval. Returns the number of these instances that were unlearned before.
    pub(crate) fn skip(
        &mut self,
        intervals: &mut SkippedIntervals,
        interval: &OwnedInterval,
    ) -> Result<u32, NoMemory>
        requires { CanSkip interval.now intervals.old self.old }
        ensures skipped { AreSkippedIntervals interval.now.members interval.now.server intervals.new }
        ensures covers { OnOk result ((j : ℕ) → j < instance_count
            → owner interval.now.members j ≡ interval.now.server
            → is_in_any intervals.new j
            ≡ (is_in_any intervals.old j || is_between interval.now.first interval.now.stop j)) }
        ensures slots { OnOk result ((j : ℕ) → j < instance_count
            → stored_at self.new j ≡ option_map (slot_after_skip_in interval.now j) (stored_at self.old j)) }
        ensures learned { IfOk result (λ n. n
            ≡ count_by (is_newly_skipped_in interval.now intervals.old self.old) instances) }
        ensures err { OnErr result ((intervals.new ≡ intervals.old) × (self.new ≡ self.old)) }
    {
        let first = interval.first;
        let stop = interval.stop;
        let members = interval.members;
        let learned_before = self.count_learned_before(*interval, intervals);
        let further = intervals.add(first, stop)?;
        self.learn_noops(*interval);
        Ok(further / u32::from(members.count()) - learned_before)
    }

    // Counts the slots of an interval that have learned a value and whose instance lies in no skipped interval.
    fn count_learned_before(&self, interval: OwnedInterval, skipped: &SkippedIntervals) -> u32
        requires interval { IsOwnedInterval interval }
        ensures { result ≡ count_by (is_learned_before interval skipped.now self.now) instances }
    {
        let members = interval.members;
        let stop = self.end_of(interval.stop);
        let mut count = 0;
        let mut inst = interval.first;
        while inst < stop {
            count += u32::from(self.is_learned_before(inst, skipped));
            inst = next_owned(members, inst);
        }
        count
    }

    // Returns whether an instance has a slot that has learned a value, and lies in no skipped interval.
    fn is_learned_before(&self, inst: u32, skipped: &SkippedIntervals) -> bool
        requires { inst < instance_count }
        ensures { result ≡ (not (is_in_any skipped.now inst) && is_learned (stored_at self.now inst)) }
    {
        match self.get(inst) {
            Some(slot) => slot.learned().is_some() && !skipped.has_instance(inst),
            None => false,
        }
    }

    // Learns no-op at each unlearned slot of an interval.
    fn learn_noops(&mut self, interval: OwnedInterval)
        requires interval { IsOwnedInterval interval }
        ensures { (j : ℕ) → j < instance_count
            → stored_at self.new j ≡ option_map (slot_after_skip_in interval j) (stored_at self.old j) }
    {
        let members = interval.members;
        let stop = self.end_of(interval.stop);
        let mut inst = interval.first;
        while inst < stop {
            self.learn_noop(inst);
            inst = next_owned(members, inst);
        }
    }

    // Learns no-op at the slot of an instance, if the instance has a slot.
    fn learn_noop(&mut self, inst: u32)
        requires { inst < instance_count }
        ensures { (j : ℕ) → stored_at self.new j
            ≡ (if j == inst
            then option_map (λ s. after_learn s Noop) (stored_at self.old j)
            else stored_at self.old j) }
    {
        if self.has_slot(inst) {
            self.at(inst).learn(Value::Noop);
        }
    }

    // Returns a place at or below `stop`. No slot is stored from that place up to, but not including, `stop`.
    fn end_of(&self, stop: u32) -> u32
        ensures small { result ≤ instance_count }
        ensures within { result ≤ stop }
        ensures none { (j : ℕ) → result ≤ j → j < stop → stored_at self.now j ≡ None }
    {
        let len = self.slots.len().min(INSTANCES as usize) as u32;
        len.min(stop)
    }
}

// Lengthens the list to at least `wanted` instances, and at most to all instances. The new entries have no slot.
fn widen(slots: &mut Vec<Option<Slot>>, wanted: usize) -> Result<(), NoMemory>
    requires small { wanted ≤ instance_count }
    requires few { vec_len slots.old ≤ instance_count }
    ensures reach { OnOk result (wanted ≤ vec_len slots.new) }
    ensures few { vec_len slots.new ≤ instance_count }
    ensures same { (j : ℕ) → stored_at slots.new.items j ≡ stored_at slots.old.items j }
    ensures err { OnErr result (slots.new.items ≡ slots.old.items) }
{
    if slots.len() >= wanted {
        return Ok(());
    }
    // A few more entries than wanted, so that the next instances often need no growth.
    let wider = (wanted + 63).min(INSTANCES as usize);
    slots.reserve(wider - slots.len())?;
    while slots.len() < wider {
        slots.push_reserved(None);
    }
    Ok(())
}

// Stores a new slot at each instance of an interval that has no slot and lies in no skipped interval. The list reaches
// the end of the interval.
fn store_lacking(
    slots: &mut Vec<Option<Slot>>,
    interval: OwnedInterval,
    skipped: &SkippedIntervals,
    learned_intervals: &LearnedIntervals,
)
    requires interval { IsOwnedInterval interval }
    requires small { interval.stop ≤ instance_count }
    requires wide { interval.stop ≤ vec_len slots.old }
    requires learned_intervals { AreLearnedIntervals interval.members
        (is_lacking interval skipped.now slots.old.items) learned_intervals.now }
    ensures len { vec_len slots.new ≡ vec_len slots.old }
    ensures stored { (j : ℕ) → stored_at slots.new.items j
        ≡ new_slot_at interval skipped.now j (stored_at slots.old.items j) }
{
    let members = interval.members;
    let stop = interval.stop;
    let mut inst = interval.first;
    while inst < stop {
        let next = next_owned(members, inst);
        if is_bare(slots, skipped, inst) {
            slots[inst as usize] = Some(Slot::new(members));
            inst = next;
        } else {
            inst = learned_intervals.past(inst, next);
        }
    }
}

// Returns whether an instance has no slot and lies in no skipped interval.
fn is_bare(slots: &[Option<Slot>], skipped: &SkippedIntervals, inst: u32) -> bool
    requires { inst < length slots.now }
    ensures { result ≡ (is_none (stored_at slots.now inst) && not (is_in_any skipped.now inst)) }
{
    // A look at the list needs no search, so it comes first.
    slots[inst as usize].is_none() && !skipped.has_instance(inst)
}

/// Makes a slot for an instance where the server has heard at most a Skip.
pub(crate) fn blank(members: Members, is_skipped: bool) -> Slot
    ensures { result ≡ slot_by_skip members is_skipped }
{
    if is_skipped {
        Slot::known(members, Value::Noop)
    } else {
        Slot::new(members)
    }
}
