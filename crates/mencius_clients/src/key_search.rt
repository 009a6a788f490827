//! The search of one key.

ghost use Rattle.std.specs.Prelude.{◌≡◌, ◌≤◌, [], ◌∷◌, IfOk, MatchBool, OnOk, false, length};
ghost use Rattle.std.specs.Vec.{vec_len};

use crate::configuration::Configuration;
use crate::outcome::Outcome;
use crate::slot_set::{SLOTS, SlotSet};
use crate::slots::{free_slot, slot_of};
use crate::steps::{Step, settled};
use mencius_base::{CommandId, NoMemory};
use mencius_log::Observation;
use std::alloc::Global;
use std::collections::BTreeMap;

/// The search for an order of the commands of one key, after a part of the log.
#[derive(Drop)]
pub struct KeySearch {
    // The commands that wait for their replies, by the lines that submit them.
    pub slots: Vec<Option<usize>>,
    pub configurations: Vec<Configuration>,
    ghost few: { vec_len slots ≤ 4096 },
}

impl KeySearch {
    ghost use Rattle.mencius_clients.specs.Configurations.{AreReplyLines, IsAnswered, IsCrowded, IsPlaced, no_slots};
    ghost use Rattle.mencius_clients.specs.OrdersSoFar.{AreWithin, IsLongerTrail, IsSoundlyAnswered};
    ghost use Rattle.mencius_clients.specs.States.{ReachMany};
    ghost use Rattle.mencius_clients.specs.declared.outcome.Outcome.TheVariants.{Goes};
    ghost use Rattle.mencius_clients.specs.declared.outcome.Outcome.TheVariants as outcomes;

    /// Returns the search before any command of the key is submitted.
    pub fn new(alloc: Global) -> Result<KeySearch, NoMemory>
        ensures slots { IfOk result (λ s. s.slots.items ≡ []) }
        ensures configurations { IfOk result (λ s. s.configurations.items
            ≡ record { done = no_slots; text = 0; unseen = false; trail = 0 } ∷ []) }
    {
        let none = Configuration {
            done: SlotSet::new(),
            text: 0,
            unseen: false,
            trail: 0,
        };
        Ok(KeySearch {
            slots: Vec::new(alloc),
            configurations: vec![in alloc; none; 1]?,
        })
    }

    /// Lets the command that a line submits wait in a free slot. Returns false if no slot is free.
    pub fn call(&mut self, log: &[Observation], line: usize) -> Result<bool, NoMemory>
        ensures configurations { self.new.configurations.items ≡ self.old.configurations.items }
        ensures placed { IfOk result (λ placed. MatchBool placed
            (IsPlaced log.now self.old.slots.items self.new.slots.items line)
            (IsCrowded log.now self.old.slots.items)) }
    {
        if let Some(slot) = free_slot(log, self.slots.as_slice()) {
            self.slots[slot] = Some(line);
            return Ok(true);
        }
        if self.slots.len() >= SLOTS {
            return Ok(false);
        }
        self.slots.push(Some(line))?;
        Ok(true)
    }

    /// Takes a reply to a command.
    pub fn reply(
        &mut self,
        alloc: Global,
        log: &[Observation],
        replies: &BTreeMap<u64, usize>,
        id: CommandId,
        limit: usize,
        trail: &mut Vec<Step>,
    ) -> Result<Outcome, NoMemory>
        requires { AreReplyLines log.now replies.now (length log.now) }
        ensures answered { IfOk result (λ outcome. IsAnswered log.now id self.old.slots.items
            self.old.configurations.items self.new.slots.items self.new.configurations.items outcome) }
        ensures trail_longer { OnOk result (IsLongerTrail trail.old.items trail.new.items) }
        ensures sound { IfOk result (λ outcome. outcome ≡ Goes → IsSoundlyAnswered log.now id self.old.slots.items
            self.old.configurations.items self.new.slots.items self.new.configurations.items
            trail.old.items trail.new.items) }
        ensures many { IfOk result (λ outcome. outcome ≡ outcomes.Configurations → AreWithin self.old.configurations.items trail.old.items
            → ReachMany log.now self.old.slots.items trail.new.items self.old.configurations.items limit) }
    {
        let slots = self.slots.as_slice();
        let Some(slot) = slot_of(log, slots, id) else {
            return Ok(Outcome::Goes);
        };
        let configurations = self.configurations.as_slice();
        let Some(next) = settled(
            alloc,
            log,
            replies,
            slots,
            configurations,
            slot,
            limit,
            trail,
        )?
        else {
            return Ok(Outcome::Configurations);
        };
        if next.is_empty() {
            return Ok(Outcome::Unexplained);
        }
        self.slots[slot] = None;
        self.configurations = next;
        Ok(Outcome::Goes)
    }
}
