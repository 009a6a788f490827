//! Sets of slots.

ghost use Rattle.std.specs.Prelude.{◌≡◌, ◌≢◌, ◌<◌, ◌≤◌, ℕ, List, IfSome, IsTrue, true, false};
ghost use Rattle.mencius_log.specs.declared.observation.Observation.{Observation};
ghost use Rattle.mencius_clients.specs.Configurations.{AreLost, Calls, IsLess, has_slot, no_slots};
ghost use Rattle.mencius_clients.specs.States.{HasNext, IsFirstDifference};

/// The highest number of commands of one key that may wait for their replies at once.
pub const SLOTS: usize = 4096;

// How many words of 64 bits a set has.
const WORDS: usize = 64;

/// The first mark, and the factor for each part that is marked (FNV-1a).
pub const FIRST_MARK: u64 = 0xcbf2_9ce4_8422_2325;

pub const MARK_FACTOR: u64 = 0x100_0000_01b3;

/// A set of slots, with one bit for each slot.
#[derive(Clone, Copy, Debug)]
pub struct SlotSet {
    words: [u64; WORDS],
}

impl SlotSet {
    /// Returns the empty set.
    pub fn new() -> SlotSet
        ensures { result ≡ no_slots }
    {
        SlotSet { words: [0; WORDS] }
    }

    /// Returns whether a slot is in the set.
    pub fn has(&self, slot: usize) -> bool
        requires { slot < 4096 }
        ensures { result ≡ has_slot self.now slot }
    {
        (self.words[slot / 64] >> (slot % 64)) & 1 == 1
    }

    /// Returns the set with the slot.
    pub fn with(&self, slot: usize) -> SlotSet
        requires { slot < 4096 }
        ensures here { has_slot result slot ≡ true }
        ensures elsewhere { (other : ℕ) → other ≢ slot → has_slot result other ≡ has_slot self.now other }
    {
        let mut words = self.words;
        words[slot / 64] |= 1 << (slot % 64);
        SlotSet { words }
    }

    /// Returns the set without the slot.
    pub fn without(&self, slot: usize) -> SlotSet
        requires { slot < 4096 }
        ensures here { has_slot result slot ≡ false }
        ensures elsewhere { (other : ℕ) → other ≢ slot → has_slot result other ≡ has_slot self.now other }
    {
        let mut words = self.words;
        words[slot / 64] &= !(1 << (slot % 64));
        SlotSet { words }
    }

    /// Returns whether another set differs from this one only by having more of the lost slots.
    pub fn is_less(&self, most: &SlotSet, lost: &SlotSet) -> bool
        ensures { IsTrue result → (log : List Observation) (calls : Calls) → AreLost log calls lost.now
            → IsLess log calls self.now most.now }
    {
        for word in 0..WORDS {
            if self.words[word] | (most.words[word] & lost.words[word]) != most.words[word] {
                return false;
            }
        }
        true
    }

    /// Returns whether another set has the first slot that only one of the two sets has.
    pub fn has_next(&self, other: &SlotSet) -> bool
        ensures { IsTrue result → HasNext self.now other.now }
    {
        match self.first_difference(other) {
            Some(slot) => other.has(slot),
            None => false,
        }
    }

    // Returns the first slot that only one of the two sets has.
    fn first_difference(&self, other: &SlotSet) -> Option<usize>
        ensures { IfSome result (λ slot. IsFirstDifference self.now other.now slot) }
    {
        for word in 0..WORDS {
            if self.words[word] != other.words[word] {
                return self.first_difference_from(other, 64 * word);
            }
        }
        None
    }

    // Returns the first of the next 64 slots that only one of the two sets has.
    fn first_difference_from(&self, other: &SlotSet, start: usize) -> Option<usize>
        requires few { start ≤ 4032 }
        requires same { (t : ℕ) → t < start → has_slot self.now t ≡ has_slot other.now t }
        ensures { IfSome result (λ slot. IsFirstDifference self.now other.now slot) }
    {
        for slot in start..start + 64 {
            if self.has(slot) != other.has(slot) {
                return Some(slot);
            }
        }
        None
    }

    /// Returns a number that two sets have in common if they differ only by lost slots.
    pub fn mark(&self, lost: &SlotSet) -> u64 {
        let mut mark = FIRST_MARK;
        for word in 0..WORDS {
            mark = (mark ^ (self.words[word] & !lost.words[word])).wrapping_mul(MARK_FACTOR);
        }
        mark
    }
}
