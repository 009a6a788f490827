//! The lines of a log that are about one key.

ghost use Rattle.std.specs.Prelude.{◌≡◌, ◌∷◌, ◌+◌, ◌<◌, ◌++◌, ℕ, List, [], IfOk, IsTrue, OnOk, bytes_eq, if◌then◌else◌, length, nat_eq, reverse, take};
ghost use Rattle.mencius_base.specs.declared.command.Command.{Command};
ghost use Rattle.mencius_model.specs.KeyMap.{key_of};
ghost use Rattle.mencius_log.specs.declared.observation.Answer.{Answer};
ghost use Rattle.mencius_log.specs.declared.observation.Observation.TheVariants.{Reply, Submit};
ghost use Rattle.mencius_judge.specs.Log.{Log};
ghost use Rattle.mencius_judge.specs.Quotes.{NumberedLog, log_of};
ghost use Rattle.mencius_clients.specs.FittingAnswers.{HasAbout, about_key};
ghost use Rattle.mencius_clients.specs.KeyLines.{HasLines, Tracks, is_about, lines_about, waits};
ghost use Rattle.mencius_clients.specs.ReadLogs.{IsNumbered, numbers_of};

use crate::client_log::{ClientLog, number_at};
use mencius_base::{CommandId, NoMemory};
use mencius_judge::Quote;
use mencius_judge::operations::key_of;
use mencius_judge::tables::{identity_key, put};
use mencius_log::Observation;
use std::alloc::Global;
use std::collections::BTreeMap;

/// The lines about a key since the last moment at which none of its commands waited for a reply.
#[derive(Drop)]
pub struct KeyLines {
    // Whether a command of the key waits, by its identity.
    states: BTreeMap<u64, bool>,
    // How many of them wait.
    waiting: usize,
    quotes: Vec<Quote>,
}

impl KeyLines {
    fn new(alloc: Global) -> KeyLines
        ensures { (key : List ℕ) → HasLines key [] result }
    {
        KeyLines {
            states: BTreeMap::new(alloc),
            waiting: 0,
            quotes: Vec::new(alloc),
        }
    }

    // Takes the next line of the log, which has this number.
    fn take(&mut self, key: &str, number: u64, observation: &Observation) -> Result<(), NoMemory>
        ensures { OnOk result ((n : NumberedLog) → HasLines key.now n self.old
            → HasLines key.now (record { number = number; observation = observation.now } ∷ n) self.new) }
    {
        let is_about = self.is_about(key, observation);
        self.quote(number, observation, is_about)?;
        self.note(key, observation)
    }

    // Returns whether the next observation submits a command of the key, or replies to one.
    fn is_about(&self, key: &str, observation: &Observation) -> bool
        ensures { (w : Log) → Tracks key.now w self.now → result ≡ is_about key.now w observation.now }
    {
        match observation {
            Observation::Submit { command } => key_of(command.op()) == key,
            Observation::Reply { id, .. } => self.state_of(*id).is_some(),
            _ => false,
        }
    }

    // Returns whether the command of the key with this identity waits, or `None` without such a command.
    fn state_of(&self, id: CommandId) -> Option<bool>
        ensures { (key : List ℕ) (w : Log) → Tracks key w self.now → result ≡ waits key w id }
    {
        match self.states.get(&identity_key(id)) {
            Some(is_waiting) => Some(*is_waiting),
            None => None,
        }
    }

    // Forgets the lines before a moment at which no command waits, and adds the next line if it is about the key.
    fn quote(
        &mut self,
        number: u64,
        observation: &Observation,
        is_about: bool,
    ) -> Result<(), NoMemory>
        ensures quotes { OnOk result (self.new.quotes.items
            ≡ (if nat_eq self.old.waiting 0 then [] else self.old.quotes.items)
            ++ (if is_about then record { number = number; observation = observation.now } ∷ [] else [])) }
        ensures states { self.new.states ≡ self.old.states }
        ensures waiting { self.new.waiting ≡ self.old.waiting }
    {
        if self.waiting == 0 {
            self.quotes.clear();
        }
        if !is_about {
            return Ok(());
        }
        let observation = observation.clone()?;
        self.quotes.push(Quote {
            number,
            observation,
        })?;
        Ok(())
    }

    // Appends the next observation to some lines if it is about the key, and notes its command.
    fn push_about(
        &mut self,
        lines: &mut Vec<Observation>,
        key: &str,
        observation: &Observation,
    ) -> Result<(), NoMemory>
        ensures { OnOk result ((w : Log) → HasAbout key.now w self.old lines.old.items
            → HasAbout key.now (observation.now ∷ w) self.new lines.new.items) }
    {
        let is_about = self.is_about(key, observation);
        push_if(lines, observation, is_about)?;
        self.note(key, observation)
    }

    // Notes the command that the next observation submits or replies to, if it is one of the key.
    fn note(&mut self, key: &str, observation: &Observation) -> Result<(), NoMemory>
        ensures tracks { OnOk result ((w : Log) → Tracks key.now w self.old
            → Tracks key.now (observation.now ∷ w) self.new) }
        ensures quotes { OnOk result (self.new.quotes ≡ self.old.quotes) }
    {
        match observation {
            Observation::Submit { command } if key_of(command.op()) == key => {
                self.note_submission(command.id())
            }
            Observation::Reply { id, .. } => self.note_reply(*id),
            _ => Ok(()),
        }
    }

    // Notes that a command of the key is submitted. It may have been submitted before.
    fn note_submission(&mut self, id: CommandId) -> Result<(), NoMemory>
        ensures tracks { OnOk result ((key : List ℕ) (w : Log) (c : Command) → c.id ≡ id
            → IsTrue (bytes_eq (key_of c.op) key) → Tracks key w self.old → Tracks key (Submit c ∷ w) self.new) }
        ensures quotes { OnOk result (self.new.quotes ≡ self.old.quotes) }
    {
        if self.state_of(id).is_some() {
            return Ok(());
        }
        let Some(waiting) = self.waiting.checked_add(1) else {
            return Err(NoMemory);
        };
        put(&mut self.states, identity_key(id), true)?;
        self.waiting = waiting;
        Ok(())
    }

    // Notes a reply. The command may be one of another key.
    fn note_reply(&mut self, id: CommandId) -> Result<(), NoMemory>
        ensures tracks { OnOk result ((key : List ℕ) (w : Log) (answer : Answer) → Tracks key w self.old
            → Tracks key (Reply id answer ∷ w) self.new) }
        ensures quotes { OnOk result (self.new.quotes ≡ self.old.quotes) }
    {
        if self.state_of(id) != Some(true) {
            return Ok(());
        }
        put(&mut self.states, identity_key(id), false)?;
        self.waiting = self.waiting.saturating_sub(1);
        Ok(())
    }
}

/// Returns the lines up to this one that are about a key, since the last moment at which none of its commands waited for
/// a reply.
pub fn key_lines(
    alloc: Global,
    log: &ClientLog,
    line: usize,
    key: &str,
) -> Result<Vec<Quote>, NoMemory>
    requires numbered { IsNumbered log.now }
    requires within { line < length log.now.observations.items }
    ensures { IfOk result (λ quotes. (n : NumberedLog)
        → log_of n ≡ reverse (take (line + 1) log.now.observations.items)
        → numbers_of n ≡ reverse (take (line + 1) log.now.numbers.items)
        → quotes.items ≡ reverse (lines_about key.now n)) }
{
    let mut lines = KeyLines::new(alloc);
    for place in 0..line + 1 {
        let number = number_at(log, place);
        let observation = &log.observations[place];
        lines.take(key, number, observation)?;
    }
    Ok(lines.quotes)
}

// Appends an observation to some lines, if it is about the key.
fn push_if(
    lines: &mut Vec<Observation>,
    observation: &Observation,
    is_about: bool,
) -> Result<(), NoMemory>
    ensures { OnOk result (lines.new.items
        ≡ (if is_about then lines.old.items ++ observation.now ∷ [] else lines.old.items)) }
{
    if is_about {
        lines.push(observation.clone()?)?;
    }
    Ok(())
}

/// Returns the observations of these lines that are about a key.
pub fn lines_of_key(
    alloc: Global,
    log: &[Observation],
    key: &str,
) -> Result<Vec<Observation>, NoMemory>
    ensures { IfOk result (λ lines. reverse lines.items ≡ about_key key.now (reverse log.now)) }
{
    let mut known = KeyLines::new(alloc);
    let mut lines = Vec::new(alloc);
    for line in 0..log.len() {
        known.push_about(&mut lines, key, &log[line])?;
    }
    Ok(lines)
}
