//! The search of a whole log, one line after the other.

ghost use Rattle.std.specs.Prelude.{◌≡◌, ◌≢◌, ◌++◌, ◌∷◌, ℕ, List, [], IfOk, MatchBool, MatchOption, OnOk, Option, None, Some, length, reverse, slice_get};
ghost use Rattle.std.specs.Bool.{OnTrue};
ghost use Rattle.std.specs.BTreeMap.{Updates, get, get_by_text};
ghost use Rattle.std.specs.Ordering.{nat_cmp};
ghost use Rattle.mencius_judge.specs.Log.{Log};
ghost use Rattle.mencius_judge.specs.Tables.{identity_key};
ghost use Rattle.mencius_log.specs.declared.observation.Observation.{Observation};
ghost use Rattle.mencius_log.specs.declared.observation.Observation.TheVariants.{Reply, Submit};
ghost use Rattle.mencius_clients.specs.Configurations.{AreReplyLines, IsAnswered, IsCrowded, IsPlaced, submitted_by};

use crate::answers::is_idle;
use crate::key_search::KeySearch;
use crate::outcome::Outcome;
use crate::steps::Step;
use crate::texts::submitted_at;
use mencius_base::{Command, CommandId, NoMemory};
use mencius_judge::answers::is_failed;
use mencius_judge::operations::key_of;
use mencius_judge::tables::{identity_key, put, put_text};
use mencius_log::{Answer, Observation};
use std::alloc::Global;
use std::collections::BTreeMap;

/// A search for an order, after a part of the log.
#[derive(Drop)]
pub struct Search {
    alloc: Global,
    // The line that first submits each command, by its identity.
    pub calls: BTreeMap<u64, usize>,
    pub by_key: BTreeMap<String, KeySearch>,
    pub trail: Vec<Step>,
}

impl Search {
    ghost use Rattle.mencius_clients.specs.Searched.{HasSearched, IsAfter, called_at, configurations_of, slots_of};
    ghost use Rattle.mencius_clients.specs.OrdersSoFar.{AreWithin, HasFound, IsLongerTrail, IsSoundlyAnswered};
    ghost use Rattle.mencius_clients.specs.ManyStates.{ComesAfterMany};
    ghost use Rattle.mencius_clients.specs.States.{ReachMany};
    ghost use Rattle.mencius_clients.specs.declared.outcome.Outcome.TheVariants.{Goes};
    ghost use Rattle.mencius_clients.specs.declared.outcome.Outcome.TheVariants as outcomes;
    ghost use Rattle.mencius_judge.specs.Promises.{AreOneReply};

    /// Returns the search before the first line.
    pub fn new(alloc: Global) -> Search
        ensures searched { (w : Log) (log : List Observation) → HasSearched w [] log result }
        ensures found { (log : List Observation) → HasFound log [] result }
    {
        Search {
            alloc,
            calls: BTreeMap::new(alloc),
            by_key: BTreeMap::new(alloc),
            trail: Vec::new(alloc),
        }
    }

    /// Takes the next line of the log.
    pub fn take(
        &mut self,
        log: &[Observation],
        replies: &BTreeMap<u64, usize>,
        line: usize,
        observation: &Observation,
        limit: usize,
    ) -> Result<Outcome, NoMemory>
        requires line { slice_get log.now line ≡ Some observation.now }
        requires replies { AreReplyLines log.now replies.now (length log.now) }
        ensures after { IfOk result (λ outcome. (u later : Log) → reverse log.now ≡ later ++ observation.now ∷ u
            → HasSearched (reverse log.now) u log.now self.old
            → IsAfter (reverse log.now) (observation.now ∷ u) log.now self.new outcome) }
        ensures found { IfOk result (λ outcome. (u later : Log) → reverse log.now ≡ later ++ observation.now ∷ u
            → line ≡ length u → AreOneReply (reverse log.now) → HasSearched (reverse log.now) u log.now self.old
            → HasFound log.now u self.old → outcome ≡ Goes → HasFound log.now (observation.now ∷ u) self.new) }
        ensures many { IfOk result (λ outcome. (u later : Log) → reverse log.now ≡ later ++ observation.now ∷ u
            → AreOneReply (reverse log.now) → HasSearched (reverse log.now) u log.now self.old → HasFound log.now u self.old
            → outcome ≡ outcomes.Configurations → ComesAfterMany u observation.now limit) }
    {
        match observation {
            Observation::Submit { command } => {
                let called = self.call(log, replies, line, command)?;
                Ok(called)
            }
            Observation::Reply { id, answer } => {
                let replied = self.reply(log, replies, *id, answer, limit)?;
                Ok(replied)
            }
            _ => Ok(Outcome::Goes),
        }
    }

    fn call(
        &mut self,
        log: &[Observation],
        replies: &BTreeMap<u64, usize>,
        line: usize,
        command: &Command,
    ) -> Result<Outcome, NoMemory>
        requires line { slice_get log.now line ≡ Some (Submit command.now) }
        requires replies { AreReplyLines log.now replies.now (length log.now) }
        ensures after { IfOk result (λ outcome. (u later : Log) → reverse log.now ≡ later ++ Submit command.now ∷ u
            → HasSearched (reverse log.now) u log.now self.old
            → IsAfter (reverse log.now) (Submit command.now ∷ u) log.now self.new outcome) }
        ensures found { IfOk result (λ outcome. (u later : Log) → reverse log.now ≡ later ++ Submit command.now ∷ u
            → line ≡ length u → HasSearched (reverse log.now) u log.now self.old → HasFound log.now u self.old
            → outcome ≡ Goes → HasFound log.now (Submit command.now ∷ u) self.new) }
    {
        let id = command.id();
        if let Some(_known) = self.called(log, id) {
            return Ok(Outcome::Goes);
        }
        if is_idle(log, replies, command) {
            put(&mut self.calls, identity_key(id), line)?;
            return Ok(Outcome::Goes);
        }
        if !self.call_key(log, key_of(command.op()), line)? {
            return Ok(Outcome::Waiting);
        }
        put(&mut self.calls, identity_key(id), line)?;
        Ok(Outcome::Goes)
    }

    // Lets the command that a line submits wait in a slot of its key. Returns false if no slot is free.
    fn call_key(&mut self, log: &[Observation], key: &str, line: usize) -> Result<bool, NoMemory>
        ensures calls { self.new.calls ≡ self.old.calls }
        ensures slots { IfOk result (λ placed. MatchBool placed
            (IsPlaced log.now (slots_of (get_by_text self.old.by_key key.now))
            (slots_of (get_by_text self.new.by_key key.now)) line)
            (IsCrowded log.now (slots_of (get_by_text self.old.by_key key.now)))) }
        ensures configurations { IfOk result (λ placed. OnTrue placed (configurations_of (get_by_text self.new.by_key key.now)
            ≡ configurations_of (get_by_text self.old.by_key key.now))) }
        ensures others { IfOk result (λ placed. OnTrue placed ((x : List ℕ) → x ≢ key.now
            → get_by_text self.new.by_key x ≡ get_by_text self.old.by_key x)) }
        ensures trail { self.new.trail ≡ self.old.trail }
    {
        let mut search = self.take_key(key)?;
        if !search.call(log, line)? {
            return Ok(false);
        }
        put_text(self.alloc, &mut self.by_key, key, search)?;
        Ok(true)
    }

    // Takes the search of a key out of the table.
    fn take_key(&mut self, key: &str) -> Result<KeySearch, NoMemory>
        ensures calls { self.new.calls ≡ self.old.calls }
        ensures slots { IfOk result (λ s. s.slots.items ≡ slots_of (get_by_text self.old.by_key key.now)) }
        ensures configurations { IfOk result (λ s. s.configurations.items
            ≡ configurations_of (get_by_text self.old.by_key key.now)) }
        ensures others { (x : List ℕ) → x ≢ key.now
            → get_by_text self.new.by_key x ≡ get_by_text self.old.by_key x }
        ensures trail { self.new.trail ≡ self.old.trail }
    {
        match self.by_key.remove(key) {
            Some(search) => Ok(search),
            None => KeySearch::new(self.alloc),
        }
    }

    fn reply(
        &mut self,
        log: &[Observation],
        replies: &BTreeMap<u64, usize>,
        id: CommandId,
        answer: &Answer,
        limit: usize,
    ) -> Result<Outcome, NoMemory>
        requires { AreReplyLines log.now replies.now (length log.now) }
        ensures after { IfOk result (λ outcome. (u later : Log) → reverse log.now ≡ later ++ Reply id answer.now ∷ u
            → HasSearched (reverse log.now) u log.now self.old
            → IsAfter (reverse log.now) (Reply id answer.now ∷ u) log.now self.new outcome) }
        ensures found { IfOk result (λ outcome. (u later : Log) → reverse log.now ≡ later ++ Reply id answer.now ∷ u
            → AreOneReply (reverse log.now) → HasSearched (reverse log.now) u log.now self.old → HasFound log.now u self.old
            → outcome ≡ Goes → HasFound log.now (Reply id answer.now ∷ u) self.new) }
        ensures many { IfOk result (λ outcome. (u later : Log) → reverse log.now ≡ later ++ Reply id answer.now ∷ u
            → AreOneReply (reverse log.now) → HasSearched (reverse log.now) u log.now self.old → HasFound log.now u self.old
            → outcome ≡ outcomes.Configurations → ComesAfterMany u (Reply id answer.now) limit) }
    {
        if is_failed(answer) {
            return Ok(Outcome::Goes);
        }
        let Some(command) = self.called(log, id) else {
            return Ok(Outcome::Unexplained);
        };
        let outcome = self.reply_key(log, replies, key_of(command.op()), id, limit)?;
        Ok(outcome)
    }

    // Returns the command with an identity, if it was submitted.
    fn called<'a>(&self, log: &'a [Observation], id: CommandId) -> Option<&'a Command>
        ensures { MatchOption result (called_at log.now (get nat_cmp self.now.calls (identity_key id)) ≡ None)
            (λ c. called_at log.now (get nat_cmp self.now.calls (identity_key id)) ≡ Some c.now) }
    {
        match self.calls.get(&identity_key(id)) {
            Some(line) => submitted_at(log, *line),
            None => None,
        }
    }

    // Takes a reply to a command of this key.
    fn reply_key(
        &mut self,
        log: &[Observation],
        replies: &BTreeMap<u64, usize>,
        key: &str,
        id: CommandId,
        limit: usize,
    ) -> Result<Outcome, NoMemory>
        requires { AreReplyLines log.now replies.now (length log.now) }
        ensures calls { self.new.calls ≡ self.old.calls }
        ensures own { IfOk result (λ outcome. IsAnswered log.now id (slots_of (get_by_text self.old.by_key key.now))
            (configurations_of (get_by_text self.old.by_key key.now)) (slots_of (get_by_text self.new.by_key key.now))
            (configurations_of (get_by_text self.new.by_key key.now)) outcome) }
        ensures others { OnOk result ((x : List ℕ) → x ≢ key.now
            → get_by_text self.new.by_key x ≡ get_by_text self.old.by_key x) }
        ensures trail_longer { OnOk result (IsLongerTrail self.old.trail.items self.new.trail.items) }
        ensures sound { IfOk result (λ outcome. outcome ≡ Goes → IsSoundlyAnswered log.now id
            (slots_of (get_by_text self.old.by_key key.now)) (configurations_of (get_by_text self.old.by_key key.now))
            (slots_of (get_by_text self.new.by_key key.now)) (configurations_of (get_by_text self.new.by_key key.now))
            self.old.trail.items self.new.trail.items) }
        ensures many { IfOk result (λ outcome. outcome ≡ outcomes.Configurations
            → AreWithin (configurations_of (get_by_text self.old.by_key key.now)) self.old.trail.items
            → ReachMany log.now (slots_of (get_by_text self.old.by_key key.now)) self.new.trail.items
            (configurations_of (get_by_text self.old.by_key key.now)) limit) }
    {
        let mut search = self.take_key(key)?;
        let outcome = search.reply(self.alloc, log, replies, id, limit, &mut self.trail)?;
        put_text(self.alloc, &mut self.by_key, key, search)?;
        Ok(outcome)
    }
}
