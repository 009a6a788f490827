//! Builds the tasks of the program and their options.

ghost use Rattle.std.specs.Prelude.{◌≡◌, IfOk, false};
ghost use Rattle.clap.specs.Words.{App, new_app, rule_of, with_rule};
ghost use Rattle.mencius_command_line.specs.Options.{IsTask, flag, valued};

use clap::{Arg, ArgAction, Command};
use std::alloc::{AllocError, Global};

// Builds a flag, which is an option without a value.
fn flag<'a>(alloc: Global, name: &'a str) -> Arg<'a>
    ensures rule { rule_of result ≡ flag name.now }
    ensures local { result.global ≡ false }
{
    Arg::new(alloc, name).long(name).action(ArgAction::SetTrue)
}

// Builds an option with a value, which the usage calls `value`.
fn valued<'a>(alloc: Global, name: &'a str, value: &'a str) -> Arg<'a>
    ensures rule { rule_of result ≡ valued name.now }
    ensures local { result.global ≡ false }
{
    Arg::new(alloc, name)
        .long(name)
        .action(ArgAction::Set)
        .value_name(value)
}

/// Builds a task without options.
pub(crate) fn new_task<'a>(alloc: Global, name: &'a str, usage: &'a str) -> Command<'a>
    ensures { IsTask (new_app name.now) result }
{
    Command::new(alloc, name).override_usage(usage)
}

/// Adds a flag to a task.
pub(crate) fn with_flag<'a>(
    alloc: Global,
    task: Command<'a>,
    name: &'a str,
) -> Result<Command<'a>, AllocError>
    ensures { (a : App) → IsTask a task.entry → IfOk result (IsTask (with_rule a (flag name.now))) }
{
    task.arg(flag(alloc, name))
}

/// Adds an option with a value to a task.
pub(crate) fn with_value<'a>(
    alloc: Global,
    task: Command<'a>,
    name: &'a str,
    value: &'a str,
) -> Result<Command<'a>, AllocError>
    ensures { (a : App) → IsTask a task.entry → IfOk result (IsTask (with_rule a (valued name.now))) }
{
    task.arg(valued(alloc, name, value))
}
