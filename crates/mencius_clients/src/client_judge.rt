//! Judges a log that clients saw.

ghost use Rattle.std.specs.Prelude.{◌≡◌, ◌≤◌, ◌+◌, ◌<◌, ℕ, List, IfErr, IfOk, Some, length, reverse, slice_get, take};
ghost use Rattle.mencius_io.specs.Streams.{TakesAtMost, most_bytes, most_failed_calls};
ghost use Rattle.mencius_judge.specs.Promises.{AreOneReply, WereSubmitted};
ghost use Rattle.mencius_log.specs.declared.observation.Observation.{Observation};
ghost use Rattle.mencius_clients.specs.FirstLines.{IsFoundLine};
ghost use Rattle.mencius_clients.specs.ClientVerdicts.{HasCommandAt, IsClientJudgement, IsGivenUp, IsVerdictFor};
ghost use Rattle.mencius_clients.specs.Explained.{HasHeard, IsBetween, IsBroken, IsCause, heard};
ghost use Rattle.mencius_clients.specs.ReadLogs.{IsLogOf, IsNumbered, IsReadFailure};

use crate::client_counts::counts_of;
use crate::client_log::{ClientLog, number_at, read_log};
use crate::client_verdict::{ClientJudgement, ClientVerdict, GiveUp};
use crate::explanation::{Cause, Explanation, explain};
use crate::first_lines::{FirstLine, first_line};
use crate::fitting_answers::fitting_answers;
use crate::heard::{Heard, hear};
use crate::key_lines::key_lines;
use crate::line_keys::key_at;
use mencius_base::NoMemory;
use mencius_io::{Failure, Source};
use mencius_judge::{Judge, Violation};
use std::alloc::Global;

// The greatest number of commands of one key that may wait.
const MOST_WAITING: usize = 4096;

/// Reads a log to its end, and searches for an order of its commands that is a linearization of its submissions and
/// replies. The search is given up if a reply makes `most` configurations of its key or more.
///
/// The failures are those of [`read_log`].
#[tactic(auto, using(crate::proofs::ReadingLines::log_numbered))]
pub fn judge_clients<R: Source>(
    alloc: Global,
    source: &mut R,
    most: usize,
) -> Result<ClientJudgement, Failure>
    ensures verdict { IfOk result (IsClientJudgement (R.state source.old).bytes most) }
    ensures fault { IfErr result (IsReadFailure (R.state source.old).bytes
        (R.state source.old).failures (R.state source.new).failures) }
    ensures taken { TakesAtMost (most_bytes + 1) (R.state source.old).bytes (R.state source.new).bytes }
    ensures tried { (R.state source.new).failures ≤ (R.state source.old).failures + most_failed_calls }
{
    let log = read_log(alloc, source)?;
    let verdict = judge_lines(alloc, &log, most)?;
    Ok(ClientJudgement { verdict, log })
}

// Judges the lines of a log.
#[tactic(auto, using(crate::proofs::LineCommands::heard_submitted))]
fn judge_lines(alloc: Global, log: &ClientLog, most: usize) -> Result<ClientVerdict, NoMemory>
    requires { IsNumbered log.now }
    ensures { IfOk result (λ verdict. (bytes : List ℕ) → IsLogOf bytes log.now → IsVerdictFor bytes most verdict) }
{
    match hear(alloc, log.observations.as_slice())? {
        Heard::Broken { fault } => Ok(broken(log, fault.line, fault.violation)),
        Heard::Kept { judge } => judge_heard(alloc, judge, log, most),
    }
}

// Judges a log whose submissions and replies the judge has seen.
#[tactic(auto, using(crate::proofs::LineCommands::heard_submitted, crate::proofs::Verdicts::unjudged_right, crate::proofs::Verdicts::linearized_right))]
fn judge_heard(
    alloc: Global,
    judge: Judge,
    log: &ClientLog,
    most: usize,
) -> Result<ClientVerdict, NoMemory>
    requires numbered { IsNumbered log.now }
    requires heard { HasHeard judge (heard (reverse log.now.observations.items)) }
    ensures { IfOk result (λ verdict. (bytes : List ℕ) → IsLogOf bytes log.now → IsVerdictFor bytes most verdict) }
{
    let lines = log.observations.as_slice();
    let counts = counts_of(alloc, &judge, lines)?;
    if counts.replies == 0 {
        return Ok(ClientVerdict::Unjudged { counts });
    }
    match explain(alloc, lines, most)? {
        Explanation::Explained { order } => Ok(ClientVerdict::Linearizable { counts, order }),
        Explanation::Unexplained { line } => judge_unexplained(alloc, log, most, line),
        Explanation::Undecided { cause } => undecided(alloc, log, most, cause),
    }
}

// Returns the verdict on a log that has no linearization. The lines before `start` have one.
fn judge_unexplained(
    alloc: Global,
    log: &ClientLog,
    most: usize,
    start: usize,
) -> Result<ClientVerdict, NoMemory>
    requires numbered { IsNumbered log.now }
    requires submitted { WereSubmitted (heard (reverse log.now.observations.items)) }
    requires one_reply { AreOneReply (reverse log.now.observations.items) }
    requires between { IsBetween log.now.observations.items start (length log.now.observations.items) }
    ensures { IfOk result (λ verdict. (bytes : List ℕ) → IsLogOf bytes log.now → IsVerdictFor bytes most verdict) }
{
    match first_line(alloc, log.observations.as_slice(), most, start)? {
        FirstLine::Found { line } => first_without(alloc, log, most, line),
        FirstLine::Undecided { cause } => undecided(alloc, log, most, cause),
    }
}

// Returns the verdict on a log that first has no linearization with this line.
#[tactic(auto, using(crate::proofs::LineCommands::found_command, crate::proofs::Verdicts::command_within, crate::proofs::Verdicts::first_right))]
fn first_without(
    alloc: Global,
    log: &ClientLog,
    limit: usize,
    line: usize,
) -> Result<ClientVerdict, NoMemory>
    requires numbered { IsNumbered log.now }
    requires submitted { WereSubmitted (heard (reverse log.now.observations.items)) }
    requires first { IsFoundLine log.now.observations.items line }
    ensures { IfOk result (λ verdict. (bytes : List ℕ) (most : ℕ) → IsLogOf bytes log.now
        → IsVerdictFor bytes most verdict) }
{
    let key = key_at(alloc, log.observations.as_slice(), line)?;
    let quotes = key_lines(alloc, log, line, key.as_str())?;
    let fitting = fitting_answers(
        alloc,
        log.observations.as_slice(),
        line,
        key.as_str(),
        limit,
    )?;
    let number = number_at(log, line);
    Ok(ClientVerdict::NotLinearizable {
        number,
        key,
        quotes,
        fitting,
    })
}

// Returns the verdict on a log that breaks a promise at this line.
#[tactic(auto, using(crate::proofs::Verdicts::broken_within, crate::proofs::Verdicts::broken_right))]
fn broken(log: &ClientLog, line: usize, violation: Violation) -> ClientVerdict
    requires numbered { IsNumbered log.now }
    requires broken { IsBroken log.now.observations.items line violation }
    ensures { (bytes : List ℕ) (most : ℕ) → IsLogOf bytes log.now → IsVerdictFor bytes most result }
{
    let number = number_at(log, line);
    ClientVerdict::Broken { number, violation }
}

// Returns the verdict after a search that was given up for this reason.
#[tactic(auto, using(crate::proofs::LineCommands::many_command, crate::proofs::LineCommands::states_command, crate::proofs::Verdicts::many_given_up, crate::proofs::Verdicts::states_given_up))]
fn undecided(
    alloc: Global,
    log: &ClientLog,
    most: usize,
    cause: Cause,
) -> Result<ClientVerdict, NoMemory>
    requires numbered { IsNumbered log.now }
    requires submitted { WereSubmitted (heard (reverse log.now.observations.items)) }
    requires cause { IsCause log.now.observations.items most cause }
    ensures { IfOk result (λ verdict. (bytes : List ℕ) → IsLogOf bytes log.now → IsVerdictFor bytes most verdict) }
{
    match cause {
        Cause::Waiting { line } => {
            let count = MOST_WAITING + 1;
            given_up(alloc, log, line, GiveUp::Waiting { count })
        }
        Cause::Configurations { line } => given_up(
            alloc,
            log,
            line,
            GiveUp::Configurations { most },
        ),
    }
}

// Returns the verdict after a search that was given up at this line for this reason.
#[tactic(auto, using(crate::proofs::Verdicts::command_within, crate::proofs::Verdicts::undecided_right))]
fn given_up(
    alloc: Global,
    log: &ClientLog,
    line: usize,
    cause: GiveUp,
) -> Result<ClientVerdict, NoMemory>
    requires numbered { IsNumbered log.now }
    requires there { HasCommandAt log.now.observations.items line }
    ensures { IfOk result (λ verdict. (bytes : List ℕ) (most : ℕ) → IsLogOf bytes log.now
        → ((o : Observation) → slice_get log.now.observations.items line ≡ Some o
        → IsGivenUp (reverse (take line log.now.observations.items)) o most cause)
        → IsVerdictFor bytes most verdict) }
{
    let key = key_at(alloc, log.observations.as_slice(), line)?;
    let number = number_at(log, line);
    Ok(ClientVerdict::Undecided { number, key, cause })
}
