ghost use Rattle.std.specs.Prelude.{◌≡◌, ◌≢◌, ◌≤◌, ◌++◌, ◌∷◌, ℕ, List, [], OnOk, MatchOption, Option};
ghost use Rattle.std.specs.BTreeMap.{get_by_text};
ghost use Rattle.mencius_judge.specs.Timelines.{HasNone, IsBeginning, IsFirstCount, IsFirstPeriod, IsTimeline, AreRising, AllBefore, items_of, periods_of};

use crate::tables::put_text;
use crate::texts::is_same_text;
use mencius_base::{NoMemory, Text};
use std::alloc::Global;
use std::collections::BTreeMap;

/// A range of numbers of commands after which a key held one text. It goes from `first` up to, but not including,
/// `stop`.
#[derive(Clone, Copy)]
pub struct Period {
    pub first: usize,
    pub stop: usize,
}

/// The text that one key held after each number of commands.
#[derive(Drop)]
pub struct Timeline {
    // The text that the key holds now, and the number of commands after which it began to hold it.
    pub text: Option<Text>,
    pub since: usize,
    // The earlier periods in which the key held no text, and the earlier periods of each text. The oldest period is
    // first.
    pub absences: Vec<Period>,
    pub presences: BTreeMap<String, Vec<Period>>,
}

impl Timeline {
    /// Creates the timeline of a key that has never held a text.
    pub fn new(alloc: Global) -> Timeline
        ensures text { result.text ≡ None }
        ensures since { result.since ≡ 0 }
        ensures periods { (x : Option (List ℕ)) → periods_of result x ≡ [] }
    {
        Timeline {
            text: None,
            since: 0,
            absences: Vec::new(alloc),
            presences: BTreeMap::new(alloc),
        }
    }

    /// Records that the key holds this text, or none, after `count` commands.
    pub fn change(
        &mut self,
        alloc: Global,
        text: Option<Text>,
        count: usize,
    ) -> Result<(), NoMemory>
        ensures text { OnOk result (self.new.text ≡ text) }
        ensures since { OnOk result (self.new.since ≡ count) }
        ensures former { OnOk result (periods_of self.new self.old.text
            ≡ periods_of self.old self.old.text ++ record { first = self.old.since; stop = count } ∷ []) }
        ensures others { OnOk result ((x : Option (List ℕ)) → x ≢ self.old.text
            → periods_of self.new x ≡ periods_of self.old x) }
    {
        let period = Period {
            first: self.since,
            stop: count,
        };
        match &self.text {
            None => self.absences.push(period)?,
            Some(former) => push_period(alloc, &mut self.presences, former.as_str(), period)?,
        }
        self.text = text;
        self.since = count;
        Ok(())
    }

    /// Returns the lowest number of commands, from `from` to `to`, after which the key held this text. Returns `None`
    /// if the key held it after none of these numbers. `to` must be the number of all executed commands.
    pub fn first_count(&self, text: &Option<Text>, from: usize, to: usize) -> Option<usize>
        ensures { (held : ℕ → Option (List ℕ)) → IsTimeline held to self.now
            → MatchOption result (HasNone held text.now from to) (IsFirstCount held text.now from to) }
    {
        if let Some(period) = self.first_period(text, from) {
            return Some(period.first.max(from));
        }
        if from <= to && is_same_text(&self.text, text) {
            return Some(self.since.max(from));
        }
        None
    }

    /// Returns the number of commands after which the key began to hold the text that it held after `count` commands.
    pub fn began(&self, text: &Option<Text>, count: usize) -> usize
        ensures { (held : ℕ → Option (List ℕ)) (to : ℕ) → IsTimeline held to self.now → count ≤ to
            → held count ≡ text.now → IsBeginning held count result }
    {
        match self.first_period(text, count) {
            Some(period) => period.first,
            None => self.since,
        }
    }

    // Returns the first period of a text that contains `from` or begins after it.
    fn first_period(&self, text: &Option<Text>, from: usize) -> Option<Period>
        ensures { AreRising (periods_of self.now text.now)
            → MatchOption result (AllBefore (periods_of self.now text.now) from)
            (IsFirstPeriod (periods_of self.now text.now) from) }
    {
        match text {
            None => period_after(self.absences.as_slice(), from),
            Some(text) => match self.presences.get(text.as_str()) {
                Some(periods) => period_after(periods.as_slice(), from),
                None => None,
            },
        }
    }
}

// Returns the first of these periods that contains `from` or begins after it.
fn period_after(periods: &[Period], from: usize) -> Option<Period>
    ensures { AreRising periods.now
        → MatchOption result (AllBefore periods.now from) (IsFirstPeriod periods.now from) }
{
    let place = periods.partition_point(|period| period.stop <= from);
    match periods.get(place) {
        Some(period) => Some(*period),
        None => None,
    }
}

// Appends a period to the periods of a text.
fn push_period(
    alloc: Global,
    presences: &mut BTreeMap<String, Vec<Period>>,
    text: &str,
    period: Period,
) -> Result<(), NoMemory>
    ensures own { OnOk result (items_of (get_by_text presences.new text.now)
        ≡ items_of (get_by_text presences.old text.now) ++ period ∷ []) }
    ensures others { OnOk result ((x : List ℕ) → x ≢ text.now
        → items_of (get_by_text presences.new x) ≡ items_of (get_by_text presences.old x)) }
{
    let mut periods = match presences.remove(text) {
        Some(periods) => periods,
        None => Vec::new(alloc),
    };
    periods.push(period)?;
    put_text(alloc, presences, text, periods)
}
