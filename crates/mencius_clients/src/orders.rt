//! The order of all commands, from the orders of the keys that a search found.

ghost use Rattle.std.specs.Prelude.{◌≡◌, ◌++◌, IfOk, IfSome, MatchOption, OnOk, None, Some, [], length, reverse, slice_get};
ghost use Rattle.std.specs.BTreeMap.{IsOrdered, values};
ghost use Rattle.std.specs.String.{string_cmp};
ghost use Rattle.mencius_judge.specs.Linearization.{IsLinearization};
ghost use Rattle.mencius_clients.specs.Configurations.{submitted_by};
ghost use Rattle.mencius_clients.specs.Locality.{ids_of};
ghost use Rattle.mencius_clients.specs.KeyOrders.{HaveKeyOrders, gathered, last_step, lines_back, lines_of, sorted, step_of, timed_lines, timed_one};

use crate::key_search::KeySearch;
use crate::search::Search;
use crate::steps::Step;
use crate::texts::submitted_at;
use crate::timed_command::TimedCommand;
use mencius_base::{CommandId, NoMemory};
use mencius_log::Observation;
use std::alloc::Global;

/// Merges the orders of all keys by the moments of their commands. So a command that was submitted after the reply to
/// another one comes after it.
pub fn merged_order(
    alloc: Global,
    log: &[Observation],
    search: &Search,
) -> Result<Vec<CommandId>, NoMemory>
    ensures { IfOk result (λ order. HaveKeyOrders log.now search.now → IsLinearization (reverse log.now) order.items) }
{
    let commands = sorted_commands(alloc, log, search)?;
    let order = ids_of(alloc, commands.as_slice())?;
    Ok(order)
}

// Returns the commands of all keys, sorted by their moments.
fn sorted_commands(
    alloc: Global,
    log: &[Observation],
    search: &Search,
) -> Result<Vec<TimedCommand>, NoMemory>
    ensures ordered { OnOk result (IsOrdered string_cmp search.now.by_key) }
    ensures commands { IfOk result (λ commands. commands.items
        ≡ sorted (gathered log.now search.now.trail.items (values search.now.by_key))) }
{
    let mut commands = gathered(alloc, log, search)?;
    commands.sort_by_key(|command| command.moment)?;
    Ok(commands)
}

// Returns the identities of commands.
fn ids_of(alloc: Global, commands: &[TimedCommand]) -> Result<Vec<CommandId>, NoMemory>
    ensures { IfOk result (λ ids. ids.items ≡ ids_of commands.now) }
{
    let mut ids = Vec::new(alloc);
    for command in commands {
        ids.push(command.id)?;
    }
    Ok(ids)
}

// Returns the commands of all keys, one key after the other.
fn gathered(
    alloc: Global,
    log: &[Observation],
    search: &Search,
) -> Result<Vec<TimedCommand>, NoMemory>
    ensures ordered { OnOk result (IsOrdered string_cmp search.now.by_key) }
    ensures commands { IfOk result (λ commands. commands.items
        ≡ gathered log.now search.now.trail.items (values search.now.by_key)) }
{
    let mut commands = Vec::new(alloc);
    for of_key in search.by_key.values() {
        push_commands(alloc, log, of_key, search.trail.as_slice(), &mut commands)?;
    }
    Ok(commands)
}

// Adds the commands of a key, in their order. The moment of each one is the latest line up to its own that submits a
// command of the order.
fn push_commands(
    alloc: Global,
    log: &[Observation],
    search: &KeySearch,
    trail: &[Step],
    commands: &mut Vec<TimedCommand>,
) -> Result<(), NoMemory>
    ensures { OnOk result (commands.new.items
        ≡ commands.old.items ++ timed_lines log.now 0 (lines_of trail.now search.now)) }
{
    let lines = lines_of(alloc, search, trail)?;
    let mut moment = 0;
    for line in lines.as_slice() {
        moment = moment.max(*line);
        push_command(log, moment, *line, commands)?;
    }
    Ok(())
}

// Adds the command that a line submits.
fn push_command(
    log: &[Observation],
    moment: usize,
    line: usize,
    commands: &mut Vec<TimedCommand>,
) -> Result<(), NoMemory>
    ensures { OnOk result (commands.new.items
        ≡ commands.old.items ++ timed_one (submitted_by (slice_get log.now line)) moment []) }
{
    if let Some(command) = submitted_at(log, line) {
        commands.push(TimedCommand {
            moment,
            id: command.id(),
        })?;
    }
    Ok(())
}

// Returns the lines of the commands that lead to the first configuration of a key, in their order.
fn lines_of(alloc: Global, search: &KeySearch, trail: &[Step]) -> Result<Vec<usize>, NoMemory>
    ensures { IfOk result (λ lines. lines.items ≡ lines_of trail.now search.now) }
{
    let mut lines = lines_back(alloc, trail, last_step(search))?;
    lines.reverse();
    Ok(lines)
}

// Returns the number of the last step that led to the first configuration of a key.
fn last_step(search: &KeySearch) -> usize
    ensures { result ≡ last_step search.now.configurations.items }
{
    match search.configurations.as_slice().first() {
        Some(configuration) => configuration.trail,
        None => 0,
    }
}

// Returns the lines of a step and of all steps before it. The last step comes first.
fn lines_back(alloc: Global, trail: &[Step], number: usize) -> Result<Vec<usize>, NoMemory>
    ensures { IfOk result (λ lines. lines.items ≡ lines_back trail.now (length trail.now) number) }
{
    let mut lines = Vec::new(alloc);
    let mut next = number;
    for _ in 0..trail.len() {
        let Some(step) = step_of(trail, next) else {
            return Ok(lines);
        };
        lines.push(step.line)?;
        next = step.before;
    }
    Ok(lines)
}

// Returns the step with a number.
fn step_of(trail: &[Step], number: usize) -> Option<Step>
    ensures { result ≡ step_of trail.now number }
{
    if number == 0 {
        return None;
    }
    match trail.get(number - 1) {
        Some(step) => Some(*step),
        None => None,
    }
}
