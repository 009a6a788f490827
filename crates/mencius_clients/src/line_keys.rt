//! The key of the command at a line of a log.

ghost use Rattle.std.specs.Prelude.{◌≡◌, IfOk, MatchOption, None, Some, reverse, slice_get, string_bytes};
ghost use Rattle.mencius_judge.specs.Log.{command_of};
ghost use Rattle.mencius_base.specs.declared.command.Command.{Command};
ghost use Rattle.mencius_clients.specs.Configurations.{submitted_by};
ghost use Rattle.mencius_clients.specs.ClientVerdicts.{HasCommandAt, IsCommandAt, IsKeyAt};

use crate::texts::submitted_at;
use mencius_base::{Command, CommandId, NoMemory};
use mencius_judge::operations::key_of;
use mencius_log::Observation;
use std::alloc::Global;

/// Returns the key of the command that a line submits or replies to.
#[tactic(auto, using(crate::proofs::LineCommands::key_here))]
pub fn key_at(alloc: Global, log: &[Observation], line: usize) -> Result<String, NoMemory>
    requires { HasCommandAt log.now line }
    ensures { IfOk result (λ key. IsKeyAt log.now line (string_bytes key)) }
{
    let Some(command) = command_at(log, line) else {
        unreachable!()
    };
    Ok(String::from_str(alloc, key_of(command.op()))?)
}

// Returns the command that a line submits or replies to.
#[tactic(auto, using(crate::proofs::LineCommands::here_submitted, crate::proofs::LineCommands::here_replied, crate::proofs::LineCommands::none_replied))]
fn command_at(log: &[Observation], line: usize) -> Option<&Command>
    ensures { MatchOption result (HasCommandAt log.now line → ⊥) (λ c. IsCommandAt log.now line c.now) }
{
    match log.get(line) {
        Some(Observation::Submit { command }) => Some(command),
        Some(Observation::Reply { id, .. }) => submitted_in(&log[..line], *id),
        _ => None,
    }
}

// Returns the first command with an identity that some lines submit.
fn submitted_in(lines: &[Observation], id: CommandId) -> Option<&Command>
    ensures { MatchOption result (command_of (reverse lines.now) id ≡ None)
        (λ c. command_of (reverse lines.now) id ≡ Some c.now) }
{
    for line in 0..lines.len() {
        if let Some(command) = submitted_as(lines, line, id) {
            return Some(command);
        }
    }
    None
}

// Returns the command that a line submits, if it has this identity.
fn submitted_as(lines: &[Observation], line: usize, id: CommandId) -> Option<&Command>
    ensures { MatchOption result ((c : Command) → submitted_by (slice_get lines.now line) ≡ Some c → c.id ≡ id → ⊥)
        (λ c. (submitted_by (slice_get lines.now line) ≡ Some c.now) × (c.now.id ≡ id)) }
{
    match submitted_at(lines, line) {
        Some(command) if command.id() == id => Some(command),
        _ => None,
    }
}
