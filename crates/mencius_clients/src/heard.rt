//! The submissions and replies of a log, as the judge of stores sees them.

ghost use Rattle.std.specs.Prelude.{◌≡◌, ◌∷◌, [], IfOk, MatchOption, reverse};
ghost use Rattle.mencius_judge.specs.Judged.{Breaks};
ghost use Rattle.mencius_judge.specs.Log.{Log};
ghost use Rattle.mencius_clients.specs.Explained.{HasHeard, IsBroken, IsHeard, heard, is_of_client};

use mencius_base::NoMemory;
use mencius_judge::{Judge, Violation};
use mencius_log::Observation;
use std::alloc::Global;

/// The line at which submissions and replies break a promise, and how.
#[derive(Drop)]
pub struct Fault {
    pub line: usize,
    pub violation: Violation,
}

/// What a judge has heard of a log.
#[derive(Drop)]
pub enum Heard {
    /// This judge has seen the submissions and replies, which keep all promises.
    Kept { judge: Judge },
    /// A submission or reply breaks a promise.
    Broken { fault: Fault },
}

/// Shows a new judge the submissions and replies, up to the first one that breaks a promise.
pub fn hear(alloc: Global, log: &[Observation]) -> Result<Heard, NoMemory>
    ensures { IfOk result (IsHeard log.now) }
{
    let mut judge = Judge::new(alloc)?;
    match observe_lines(&mut judge, log)? {
        Some(fault) => Ok(Heard::Broken { fault }),
        None => Ok(Heard::Kept { judge }),
    }
}

// Shows the judge the submissions and replies. Returns the first one that breaks a promise.
fn observe_lines(judge: &mut Judge, log: &[Observation]) -> Result<Option<Fault>, NoMemory>
    ensures { IfOk result (λ found. HasHeard judge.old []
        → MatchOption found (HasHeard judge.new (heard (reverse log.now)))
        (λ fault. IsBroken log.now fault.line fault.violation)) }
{
    for line in 0..log.len() {
        if let Some(violation) = observe_line(judge, &log[line])? {
            return Ok(Some(Fault { line, violation }));
        }
    }
    Ok(None)
}

// Shows the judge an observation, if it is a submission or a reply. Returns how it breaks a promise.
fn observe_line(judge: &mut Judge, observation: &Observation) -> Result<Option<Violation>, NoMemory>
    ensures { IfOk result (λ found. (w : Log) → HasHeard judge.old (heard w)
        → MatchOption found (HasHeard judge.new (heard (observation.now ∷ w)))
        (λ violation. Breaks (heard w) observation.now violation)) }
{
    if !is_of_client(observation) {
        return Ok(None);
    }
    judge.observe(0, observation)
}

// Returns whether an observation is a submission or a reply.
fn is_of_client(observation: &Observation) -> bool
    ensures { result ≡ is_of_client observation.now }
{
    match observation {
        Observation::Submit { .. } | Observation::Reply { .. } => true,
        _ => false,
    }
}
