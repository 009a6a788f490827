//! The acknowledged commands, and which of them are known to be in the longest history.

ghost use Rattle.std.specs.Prelude.{◌≡◌, ◌<◌, ◌≤◌, ◌∷◌, ◌++◌, [], if◌then◌else◌, OnOk, MatchOption, Some, length, slice_get};
ghost use Rattle.std.specs.List.{count_by};
ghost use Rattle.mencius_judge.specs.Log.{is_failed};
ghost use Rattle.mencius_judge.specs.Tables.{AreSettled, IsNotSettledAt, IsPlaceOf, has_no_place};

use crate::answers::is_failed;
use crate::judge::{Execution, SettledCommands};
use crate::tables::identity_key;
use mencius_base::{CommandId, NoMemory};
use mencius_log::Answer;
use std::collections::BTreeMap;

// Adds a command to the acknowledged commands if its first reply is not `failed`.
pub(crate) fn acknowledge(
    acknowledged: &mut Vec<CommandId>,
    id: CommandId,
    answer: &Answer,
) -> Result<(), NoMemory>
    ensures { OnOk result (acknowledged.new.items
        ≡ if is_failed answer.now then acknowledged.old.items else acknowledged.old.items ++ id ∷ []) }
{
    if !is_failed(answer) {
        acknowledged.push(id)?;
    }
    Ok(())
}

// Adds the acknowledged commands that are in the longest history to those that are known to be there, up to the first one
// that is in no history.
pub(crate) fn count_settled(
    executions: &BTreeMap<u64, Execution>,
    acknowledged: &[CommandId],
    start: SettledCommands,
) -> SettledCommands
    ensures settled { AreSettled acknowledged.now executions.now start.count start.highest
        → AreSettled acknowledged.now executions.now result.count result.highest }
    ensures all { IsNotSettledAt acknowledged.now executions.now result.count }
{
    let mut settled = start;
    for count in start.count..acknowledged.len() {
        let Some(place) = place_of(executions, acknowledged, count) else {
            return settled;
        };
        settled = SettledCommands {
            count: count + 1,
            highest: settled.highest.max(place),
        };
    }
    settled
}

// Returns the place in the longest history of the acknowledged command at this place of `acknowledged`.
fn place_of(
    executions: &BTreeMap<u64, Execution>,
    acknowledged: &[CommandId],
    place: usize,
) -> Option<usize>
    ensures { MatchOption result (IsNotSettledAt acknowledged.now executions.now place)
        (IsPlaceOf acknowledged.now executions.now place) }
{
    let id = id_at(acknowledged, place)?;
    match executions.get(&identity_key(id)) {
        Some(execution) => Some(execution.place),
        None => None,
    }
}

// Returns the number of acknowledged commands that were not executed.
pub(crate) fn open_count(executions: &BTreeMap<u64, Execution>, acknowledged: &[CommandId]) -> usize
    ensures { result ≡ count_by (has_no_place executions.now) acknowledged.now }
{
    acknowledged
        .iter()
        .filter(|id| !executions.contains_key(&identity_key(**id)))
        .count()
}

// Returns the first acknowledged command that was not executed, if it is one of the first `behind` acknowledged commands.
pub(crate) fn first_unsettled(
    acknowledged: &[CommandId],
    settled: usize,
    behind: usize,
) -> Option<CommandId>
    ensures { MatchOption result (settled < behind → length acknowledged.now ≤ settled)
        (λ id. (settled < behind) × (slice_get acknowledged.now settled ≡ Some id)) }
{
    if settled < behind {
        return id_at(acknowledged, settled);
    }
    None
}

// Returns the identity at this place of a list, if there is one.
pub(crate) fn id_at(ids: &[CommandId], place: usize) -> Option<CommandId>
    ensures { result ≡ slice_get ids.now place }
{
    ids.get(place).copied()
}
