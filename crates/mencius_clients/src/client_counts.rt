//! Counts of the commands, the replies and the keys of a log.

ghost use Rattle.std.specs.Prelude.{◌≡◌, ◌∷◌, ◌+◌, ℕ, List, IfOk, if◌then◌else◌, reverse};
ghost use Rattle.mencius_judge.specs.Log.{Log};
ghost use Rattle.mencius_clients.specs.ClientCounts.{AreClientCounts, key_count};
ghost use Rattle.mencius_clients.specs.Explained.{HasHeard, heard};
ghost use Rattle.mencius_clients.specs.Keys.{AreKeys, PutsKey};

use mencius_base::NoMemory;
use mencius_judge::Judge;
use mencius_judge::operations::key_of;
use mencius_judge::tables::put_text;
use mencius_log::Observation;
use std::alloc::Global;
use std::collections::BTreeMap;

/// The counts of a log whose submissions and replies keep all promises.
#[derive(Clone, Copy, Debug, PartialEq, Eq)]
pub struct ClientCounts {
    /// The number of different identities of submitted commands.
    pub commands: u64,
    /// The number of commands that had a reply.
    pub replies: u64,
    /// The number of commands that had no reply.
    pub lost: u64,
    /// The number of different keys of the submitted commands.
    pub keys: usize,
}

/// Returns the counts of a log, if the judge has seen its submissions and replies.
pub fn counts_of(
    alloc: Global,
    judge: &Judge,
    log: &[Observation],
) -> Result<ClientCounts, NoMemory>
    ensures { IfOk result (λ counts. HasHeard judge.now (heard (reverse log.now))
        → AreClientCounts (reverse log.now) counts) }
{
    let keys = count_keys(alloc, log)?;
    let counts = judge.counts();
    Ok(ClientCounts {
        commands: counts.commands,
        replies: counts.replies,
        lost: counts.commands.saturating_sub(counts.replies),
        keys,
    })
}

// Returns the number of different keys of the submitted commands.
fn count_keys(alloc: Global, log: &[Observation]) -> Result<usize, NoMemory>
    ensures { IfOk result (λ count. count ≡ key_count (reverse log.now)) }
{
    let mut keys = BTreeMap::new(alloc);
    let mut count: usize = 0;
    for line in 0..log.len() {
        let is_new = note_key(alloc, &mut keys, &log[line])?;
        let more = raised(count, is_new)?;
        count = more;
    }
    Ok(count)
}

// Returns the count after a key. No count is known to come near the greatest `usize`.
fn raised(count: usize, is_new: bool) -> Result<usize, NoMemory>
    ensures { IfOk result (λ more. more ≡ (if is_new then count + 1 else count)) }
{
    if is_new {
        return count.checked_add(1).ok_or(NoMemory);
    }
    Ok(count)
}

// Notes the key of the command that an observation submits. Returns whether the key is new.
fn note_key(
    alloc: Global,
    keys: &mut BTreeMap<String, bool>,
    observation: &Observation,
) -> Result<bool, NoMemory>
    ensures { IfOk result (λ is_new. (w : Log) → AreKeys w keys.old → AreKeys (observation.now ∷ w) keys.new
        × (key_count (observation.now ∷ w) ≡ (if is_new then key_count w + 1 else key_count w))) }
{
    match observation {
        Observation::Submit { command } => put_key(alloc, keys, key_of(command.op())),
        _ => Ok(false),
    }
}

// Adds a key. Returns whether it is new.
fn put_key(alloc: Global, keys: &mut BTreeMap<String, bool>, key: &str) -> Result<bool, NoMemory>
    ensures { IfOk result (λ is_new. PutsKey keys.old keys.new key.now is_new) }
{
    if keys.contains_key(key) {
        return Ok(false);
    }
    put_text(alloc, keys, key, true)?;
    Ok(true)
}
