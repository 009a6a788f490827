ghost use Rattle.std.specs.Prelude.{◌≡◌, ◌≢◌, ◌++◌, ◌∷◌, ℕ, ◌+◌, ◌≤◌, List, [], IfOk, OnOk, MatchOption, Option, length};
ghost use Rattle.std.specs.BTreeMap.{get_by_text};
ghost use Rattle.mencius_base.specs.declared.command.Command.{Command};
ghost use Rattle.mencius_model.specs.KeyMap.{out};
ghost use Rattle.mencius_judge.specs.Timelines.{AreTimelines, HasNone, IsBeginning, IsFirstCount, IsTimelineOf, held_by, text_of};

use crate::operations::{key_of, text_after};
use crate::tables::put_text;
use crate::texts::{copy_of, is_same_text};
use crate::timeline::Timeline;
use mencius_base::{Command, NoMemory, Text};
use std::alloc::Global;
use std::collections::BTreeMap;

/// The text that each key held after each number of commands.
#[derive(Drop)]
pub struct Timelines {
    alloc: Global,
    pub by_key: BTreeMap<String, Timeline>,
}

impl Timelines {
    /// Creates the timelines before any command is executed. No key holds a text then.
    pub fn new(alloc: Global) -> Timelines
        ensures { AreTimelines [] result.by_key }
    {
        Timelines {
            alloc,
            by_key: BTreeMap::new(alloc),
        }
    }

    /// Executes a command, which is the `count`-th one. Returns the text that its key held before it.
    pub fn execute(&mut self, command: &Command, count: usize) -> Result<Option<Text>, NoMemory>
        ensures reply { IfOk result (λ reply. (cs : List Command) → AreTimelines cs self.old.by_key
            → reply ≡ out cs command.now) }
        ensures after { OnOk result ((cs : List Command) → AreTimelines cs self.old.by_key
            → length cs + 1 ≡ count → AreTimelines (cs ++ command.now ∷ []) self.new.by_key) }
    {
        let op = command.op();
        let key = key_of(op);
        let held = self.text_of(key)?;
        let text = text_after(&held, op)?;
        if !is_same_text(&held, &text) {
            self.change(key, text, count)?;
        }
        Ok(held)
    }

    /// Returns the lowest number of commands, from `from` to `to`, after which the key held this text. Returns `None`
    /// if the key held it after none of these numbers. `to` must be the number of all executed commands.
    pub fn first_count(
        &self,
        key: &str,
        text: &Option<Text>,
        from: usize,
        to: usize,
    ) -> Option<usize>
        ensures { (cs : List Command) → AreTimelines cs self.now.by_key → length cs ≡ to
            → MatchOption result (HasNone (held_by cs key.now) text.now from to)
            (IsFirstCount (held_by cs key.now) text.now from to) }
    {
        match self.by_key.get(key) {
            Some(timeline) => timeline.first_count(text, from, to),
            None => first_absence(text, from, to),
        }
    }

    /// Returns a copy of the text that the key of a command holds now.
    pub fn text_before(&self, command: &Command) -> Result<Option<Text>, NoMemory>
        ensures { IfOk result (λ reply. (cs : List Command) → AreTimelines cs self.now.by_key
            → reply ≡ out cs command.now) }
    {
        let op = command.op();
        let key = key_of(op);
        let text = self.text_of(key)?;
        Ok(text)
    }

    /// Returns the number of commands after which a key began to hold the text that it held after `count` commands, or
    /// 0 if it has held this text from the beginning. The key must have held this text after `count` commands.
    pub fn began(&self, key: &str, text: &Option<Text>, count: usize) -> usize
        ensures { (cs : List Command) → AreTimelines cs self.now.by_key → count ≤ length cs
            → held_by cs key.now count ≡ text.now → IsBeginning (held_by cs key.now) count result }
    {
        match self.by_key.get(key) {
            Some(timeline) => timeline.began(text, count),
            None => 0,
        }
    }

    /// Returns the number of commands after which a key began to hold its present text, or 0 if it was never changed.
    pub fn changed(&self, key: &str) -> usize
        ensures { (cs : List Command) → AreTimelines cs self.now.by_key
            → IsBeginning (held_by cs key.now) (length cs) result }
    {
        match self.by_key.get(key) {
            Some(timeline) => timeline.since,
            None => 0,
        }
    }

    // Returns a copy of the text that a key holds now.
    fn text_of(&self, key: &str) -> Result<Option<Text>, NoMemory>
        ensures { IfOk result (λ text. text ≡ text_of (get_by_text self.now.by_key key.now)) }
    {
        match self.by_key.get(key) {
            Some(timeline) => copy_of(&timeline.text),
            None => Ok(None),
        }
    }

    // Records that a key holds this text, or none, after `count` commands.
    fn change(&mut self, key: &str, text: Option<Text>, count: usize) -> Result<(), NoMemory>
        ensures own { OnOk result ((held after : ℕ → Option (List ℕ)) (n : ℕ)
            → IsTimelineOf held n (get_by_text self.old.by_key key.now) → n + 1 ≡ count
            → ((m : ℕ) → m ≤ n → after m ≡ held m) → after count ≡ text → after count ≢ held n
            → IsTimelineOf after count (get_by_text self.new.by_key key.now)) }
        ensures others { OnOk result ((x : List ℕ) → x ≢ key.now
            → get_by_text self.new.by_key x ≡ get_by_text self.old.by_key x) }
    {
        let mut timeline = match self.by_key.remove(key) {
            Some(timeline) => timeline,
            None => Timeline::new(self.alloc),
        };
        timeline.change(self.alloc, text, count)?;
        put_text(self.alloc, &mut self.by_key, key, timeline)
    }
}

// Like `Timelines::first_count`, for a key that has never held a text.
fn first_absence(text: &Option<Text>, from: usize, to: usize) -> Option<usize>
    ensures { (held : ℕ → Option (List ℕ)) → IsTimelineOf held to None
        → MatchOption result (HasNone held text.now from to) (IsFirstCount held text.now from to) }
{
    if text.is_none() && from <= to {
        return Some(from);
    }
    None
}
