//! The first line that leaves a log without a linearization.

ghost use Rattle.std.specs.Prelude.{◌≡◌, ◌<◌, ◌≤◌, ◌+◌, IfOk, length, reverse};
ghost use Rattle.mencius_judge.specs.Promises.{AreOneReply};
ghost use Rattle.mencius_clients.specs.Explained.{IsBetween};
ghost use Rattle.mencius_clients.specs.FirstLines.{IsFirstLine, IsVerdictOn};

use crate::explanation::{Cause, Explanation, explain};
use mencius_base::NoMemory;
use mencius_log::Observation;
use std::alloc::Global;

/// The first line that leaves a log without a linearization, or the reason why it was not found. Lines count from 0.
#[derive(Debug, Drop)]
pub enum FirstLine {
    /// The lines before this one have a linearization. With this line they have none.
    Found { line: usize },
    /// A search was given up.
    Undecided { cause: Cause },
}

/// Whether the first lines of a log have a linearization.
#[derive(Debug, Drop)]
pub enum Verdict {
    Has,
    Lacks,
    Undecided { cause: Cause },
}

/// Returns the first line that leaves a log without a linearization. The whole log has none, but the lines before `start`
/// have one. Most often, the line `start` is the first one, so it is tried first. Then the lines that may be the first one
/// are halved.
pub fn first_line(
    alloc: Global,
    log: &[Observation],
    limit: usize,
    start: usize,
) -> Result<FirstLine, NoMemory>
    requires one_reply { AreOneReply (reverse log.now) }
    requires between { IsBetween log.now start (length log.now) }
    ensures { IfOk result (IsFirstLine log.now limit) }
{
    let mut low = start;
    let mut high = log.len();
    while high - low > 1 {
        let count = count_between(low, high, start);
        match verdict_on(alloc, log, count, limit)? {
            Verdict::Has => low = count,
            Verdict::Lacks => high = count,
            Verdict::Undecided { cause } => return Ok(FirstLine::Undecided { cause }),
        }
    }
    Ok(FirstLine::Found { line: low })
}

// Returns a number between two others: the one after `low` if that is the start, or else the middle.
fn count_between(low: usize, high: usize, start: usize) -> usize
    requires { low + 1 < high }
    ensures more { low < result }
    ensures less { result < high }
{
    if low == start {
        return low + 1;
    }
    low + (high - low) / 2
}

// Returns whether the first `count` lines have a linearization.
fn verdict_on(
    alloc: Global,
    log: &[Observation],
    count: usize,
    limit: usize,
) -> Result<Verdict, NoMemory>
    requires one_reply { AreOneReply (reverse log.now) }
    requires within { count ≤ length log.now }
    ensures { IfOk result (IsVerdictOn log.now limit count) }
{
    match explain(alloc, &log[..count], limit)? {
        Explanation::Explained { .. } => Ok(Verdict::Has),
        Explanation::Unexplained { .. } => Ok(Verdict::Lacks),
        Explanation::Undecided { cause } => Ok(Verdict::Undecided { cause }),
    }
}
