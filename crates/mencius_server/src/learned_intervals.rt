//! Intervals of learned instances. Suspicions leap over them.
ghost use Rattle.mencius_base.specs.Limits.{greatest_front, instance_count};
ghost use Rattle.mencius_server.specs.LearnedIntervals.{interval_end};
ghost use Rattle.std.specs.Prelude.{◌≡◌, ℕ, ◌<◌, ◌≤◌, ◌==◌, IfOk, if◌then◌else◌, nat_lt};

use mencius_base::{INSTANCES, NoMemory};
use std::alloc::Global;
use std::marker::Model;

/// For each instance, the end of an interval that begins there. All instances of the same owner in that interval are
/// learned. A suspicion records an interval when it passes it.
///
/// Learned instances stay learned, so no interval is ever removed.
#[derive(Drop)]
pub(crate) struct LearnedIntervals {
    // 0 if no interval is known to begin at the instance.
    ends: Vec<u16>,
}

impl Model for LearnedIntervals {
    ghost use Rattle.std.specs.Prelude.{◌≡◌, ℕ, List, vec_len};
    ghost use Rattle.mencius_base.specs.Limits.{instance_count};

    ghost Value = { List ℕ };

    ghost view = { λ r. r.ends.items };

    ghost invariant = { λ r. vec_len r.ends ≡ instance_count };
}

impl LearnedIntervals {
    /// Makes a table without known intervals.
    pub(crate) fn new(alloc: Global) -> Result<LearnedIntervals, NoMemory>
        ensures { IfOk result (λ r. (i : ℕ) → interval_end r i ≡ 0) }
    {
        Ok(LearnedIntervals {
            ends: vec![in alloc; 0; INSTANCES as usize]?,
        })
    }

    /// Returns the place to look at after a learned instance. This is the end of the interval that is known to begin at
    /// the instance, or `next` if no such interval is known.
    pub(crate) fn past(&self, inst: u32, next: u32) -> u32
        requires { inst < instance_count }
        ensures { result ≡ (if nat_lt inst (interval_end self.now inst)
            then interval_end self.now inst
            else next) }
    {
        let end = u32::from(self.ends[inst as usize]);
        if inst < end { end } else { next }
    }

    /// Sets the end of the interval that begins at an instance.
    pub(crate) fn put(&mut self, inst: u32, end: u32)
        requires small { inst < instance_count }
        requires near { end ≤ greatest_front }
        ensures { (i : ℕ) → interval_end self.new i ≡ (if i == inst then end else interval_end self.old i) }
    {
        self.ends[inst as usize] = end as u16;
    }
}
