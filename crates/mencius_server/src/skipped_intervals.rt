//! Intervals of the instances that one server skipped.
//!
//! With n servers, a server owns every n-th instance. An interval represents only the server's own instances in it. The
//! intervals are in rising order, and no two of them overlap or touch.
ghost use Rattle.mencius_server.specs.Intervals.{IsRising, is_in_any, reach_of, with_interval};
ghost use Rattle.mencius_server.specs.declared.skipped_intervals.Interval.{Interval};
ghost use Rattle.std.specs.Prelude.{◌≡◌, ℕ, ◌+◌, ◌<◌, ◌≤◌, [], true, false, length, slice_index_or, vec_capacity, vec_len, IfOk, OnErr, OnOk};

use mencius_base::{Members, NoMemory};
use std::alloc::Global;
use std::marker::Model;

/// An interval from one instance of a server up to, but not including, another instance of that server.
#[derive(Clone, Copy)]
pub(crate) struct Interval {
    pub(crate) first: u32,
    pub(crate) stop: u32,
}

/// The intervals of instances that one server was heard to skip.
#[derive(Drop)]
pub(crate) struct SkippedIntervals {
    intervals: Vec<Interval>,
}

impl Model for SkippedIntervals {
    ghost use Rattle.std.specs.Prelude.{List};
    ghost use Rattle.mencius_server.specs.Intervals.{IsRising};
    ghost use Rattle.mencius_server.specs.declared.skipped_intervals.Interval.{Interval};

    ghost Value = { List Interval };

    ghost view = { λ r. r.intervals.items };

    ghost invariant = { λ r. IsRising 0 r.intervals.items };
}

impl SkippedIntervals {
    /// Makes an empty list of intervals. This does not allocate.
    pub(crate) fn new(alloc: Global) -> SkippedIntervals
        ensures { result ≡ [] }
    {
        SkippedIntervals {
            intervals: Vec::new(alloc),
        }
    }

    /// Makes an empty list of intervals for each server.
    pub(crate) fn none_of_each(
        alloc: Global,
        members: Members,
    ) -> Result<Vec<SkippedIntervals>, NoMemory>
        ensures none { IfOk result (λ x. (q : ℕ) → slice_index_or x.items q [] ≡ []) }
        ensures count { IfOk result (λ x. length x.items ≡ members.count) }
    {
        let count = members.count() as usize;
        let mut skipped = Vec::new(alloc);
        while skipped.len() < count {
            skipped.push(SkippedIntervals::new(alloc))?;
        }
        Ok(skipped)
    }

    /// Returns the number of intervals.
    pub(crate) fn len(&self) -> usize
        ensures { result ≡ length self.now }
    {
        self.intervals.len()
    }

    /// Returns whether an instance lies in one of the intervals. The number of steps grows with the logarithm of the
    /// number of intervals.
    pub(crate) fn has_instance(&self, inst: u32) -> bool
        ensures { result ≡ is_in_any self.now inst }
    {
        self.past(inst) != inst
    }

    /// Returns the lowest place at or above `inst` that lies in no interval.
    pub(crate) fn past(&self, inst: u32) -> u32
        ensures above { inst ≤ result }
        ensures covered { (j : ℕ) → inst ≤ j → j < result → is_in_any self.now j ≡ true }
        ensures open { is_in_any self.now result ≡ false }
    {
        let at = first_past(&self.intervals, inst);
        if at < self.intervals.len() && self.intervals[at].first <= inst {
            self.intervals[at].stop
        } else {
            inst
        }
    }

    /// Adds an interval and joins it with the intervals that it meets. Returns by how much the total length of the
    /// intervals grows.
    pub(crate) fn add(&mut self, first: u32, stop: u32) -> Result<u32, NoMemory>
        requires { first < stop }
        ensures ok { OnOk result (self.new ≡ with_interval self.old first stop) }
        ensures further { IfOk result (λ n. n + reach_of self.old ≡ reach_of self.new) }
        ensures err { OnErr result (self.new ≡ self.old) }
    {
        self.intervals.reserve(1)?;
        Ok(join(&mut self.intervals, first, stop))
    }
}

// Returns the position of the first interval that ends above `inst`, or the number of intervals if none ends there.
fn first_past(intervals: &[Interval], inst: u32) -> usize
    requires { IsRising 0 intervals.now }
    ensures within { result ≤ length intervals.now }
    ensures before { (n : ℕ) (d : Interval) → n < result → (slice_index_or intervals.now n d).stop ≤ inst }
    ensures after { (n : ℕ) (d : Interval) → result ≤ n → n < length intervals.now
        → inst < (slice_index_or intervals.now n d).stop }
{
    let mut low = 0;
    let mut high = intervals.len();
    while low < high {
        let middle = low + (high - low) / 2;
        if intervals[middle].stop <= inst {
            low = middle + 1;
        } else {
            high = middle;
        }
    }
    low
}

// Adds an interval and joins it with the intervals that it meets. The list has room for it. Returns by how much the
// total length of the intervals grows.
fn join(intervals: &mut Vec<Interval>, first: u32, stop: u32) -> u32
    requires rising { IsRising 0 intervals.old.items }
    requires some { first < stop }
    requires room { vec_len intervals.old < vec_capacity intervals.old }
    ensures joined { intervals.new.items ≡ with_interval intervals.old.items first stop }
    ensures further { result + reach_of intervals.old.items ≡ reach_of intervals.new.items }
{
    let at = if first == 0 {
        0
    } else {
        first_past(intervals, first - 1)
    };
    let mut union = Interval { first, stop };
    let mut absorbed = 0;
    while at < intervals.len() && intervals[at].first <= union.stop {
        let met = intervals.remove(at);
        union.first = union.first.min(met.first);
        union.stop = union.stop.max(met.stop);
        absorbed += met.stop - met.first;
    }
    let _ = intervals.insert(at, union);
    union.stop - union.first - absorbed
}
