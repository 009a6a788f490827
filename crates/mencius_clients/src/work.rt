//! Configurations with an index of them, by what a configuration has in common with one that stands for it.

ghost use Rattle.std.specs.Prelude.{◌≡◌, ◌++◌, ◌∷◌, ℕ, List, [], ◌≤◌, OnOk, IsTrue, MatchOption, Some, length, slice_get};
ghost use Rattle.mencius_log.specs.declared.observation.Observation.{Observation};
ghost use Rattle.mencius_clients.specs.Configurations.{AreLost, Calls, HasLess, IsAsGood};

use crate::configuration::Configuration;
use crate::slot_set::{FIRST_MARK, MARK_FACTOR, SlotSet};
use crate::texts::{is_same_text_at, text_at};
use mencius_base::NoMemory;
use mencius_log::Observation;
use std::alloc::Global;
use std::collections::BTreeMap;

// How many bytes of a text count for its mark.
const MARKED: usize = 64;

/// A list of configurations and its index. Every find is compared, so nothing is proved about the index.
#[derive(Drop)]
pub struct Work {
    pub configurations: Vec<Configuration>,
    // The number of the last configuration with each mark, from 1.
    last: BTreeMap<u64, usize>,
    // For each configuration, the number of the one before it that has the same mark, from 1, or 0 if there is none.
    before: Vec<usize>,
}

impl Work {
    /// Returns an empty list.
    pub fn new(alloc: Global) -> Work
        ensures { result.configurations.items ≡ [] }
    {
        Work {
            configurations: Vec::new(alloc),
            last: BTreeMap::new(alloc),
            before: Vec::new(alloc),
        }
    }

    /// Returns whether one of the configurations stands for this one.
    pub fn has_better(&self, log: &[Observation], sought: &Configuration, lost: &SlotSet) -> bool
        ensures { IsTrue result → (calls : Calls) → AreLost log.now calls lost.now
            → HasLess log.now calls self.now.configurations.items sought.now }
    {
        let mut number = self.last_with(mark_of(log, sought, lost));
        for _ in 0..self.before.len() {
            if number == 0 {
                return false;
            }
            if self.is_better_at(log, number - 1, sought, lost) {
                return true;
            }
            number = self.number_before(number - 1);
        }
        false
    }

    // Returns whether the configuration at a place stands for this one.
    fn is_better_at(
        &self,
        log: &[Observation],
        place: usize,
        sought: &Configuration,
        lost: &SlotSet,
    ) -> bool
        ensures { IsTrue result → (calls : Calls) → AreLost log.now calls lost.now
            → HasLess log.now calls self.now.configurations.items sought.now }
    {
        match configuration_at(self.configurations.as_slice(), place) {
            Some(known) => is_as_good(log, &known, sought, lost),
            None => false,
        }
    }

    // Returns the number of the last configuration with a mark, or 0.
    fn last_with(&self, mark: u64) -> usize {
        match self.last.get(&mark) {
            Some(number) => *number,
            None => 0,
        }
    }

    // Returns the number of the configuration before the one at a place that has the same mark, or 0.
    fn number_before(&self, place: usize) -> usize {
        match self.before.get(place) {
            Some(number) => *number,
            None => 0,
        }
    }

    /// Adds a configuration.
    pub fn push(
        &mut self,
        log: &[Observation],
        new: Configuration,
        lost: &SlotSet,
    ) -> Result<(), NoMemory>
        ensures { OnOk result (self.new.configurations.items ≡ self.old.configurations.items ++ new ∷ []) }
    {
        let mark = mark_of(log, &new, lost);
        self.configurations.push(new)?;
        let before = self.last_with(mark);
        self.last.insert(mark, self.configurations.len())?;
        self.before.push(before)?;
        Ok(())
    }
}

/// Returns the configuration at a place.
pub fn configuration_at(configurations: &[Configuration], place: usize) -> Option<Configuration>
    ensures { MatchOption result (length configurations.now ≤ place)
        (λ c. slice_get configurations.now place ≡ Some c) }
{
    match configurations.get(place) {
        Some(configuration) => Some(*configuration),
        None => None,
    }
}

// Returns whether the known configuration stands for the other one.
fn is_as_good(
    log: &[Observation],
    known: &Configuration,
    sought: &Configuration,
    lost: &SlotSet,
) -> bool
    ensures { IsTrue result → (calls : Calls) → AreLost log.now calls lost.now
        → IsAsGood log.now calls known.now sought.now }
{
    (!known.unseen || sought.unseen)
        && known.done.is_less(&sought.done, lost)
        && is_same_text_at(log, known.text, sought.text)
}

// Returns the mark of a configuration. One that stands for it has the same mark.
fn mark_of(log: &[Observation], configuration: &Configuration, lost: &SlotSet) -> u64 {
    let text = match text_at(log, configuration.text) {
        Some(text) => text_mark(text.as_str()),
        None => 0,
    };
    configuration.done.mark(lost) ^ text
}

// Returns a number that equal texts have in common.
fn text_mark(text: &str) -> u64 {
    let bytes = text.as_bytes();
    let mut mark = FIRST_MARK;
    for place in 0..bytes.len().min(MARKED) {
        mark = (mark ^ u64::from(bytes[place])).wrapping_mul(MARK_FACTOR);
    }
    mark
}
