//! Reads the options of the task `trace`. They choose the form of the trace and its lines.

ghost use Rattle.std.specs.Prelude.{◌≡◌, IfOk, Ok, Some, codes};
ghost use Rattle.clap.specs.Words.{FailsBy, first_of, found_of, kind_of, rows_of};
ghost use Rattle.mencius_command_line.specs.Options.{IsTask};
ghost use Rattle.mencius_command_line.specs.TraceOptions.{command_in, instance_in, server_in, trace_faults, trace_options_of, trace_task, word_faults};

use crate::line::has_flag;
use crate::tasks::{new_task, with_flag, with_value};
use clap::error::ErrorKind;
use clap::{ArgMatches, Command, Error};
use mencius_base::CommandId;
use mencius_format::{parse_id, parse_u8, parse_u32};
use std::alloc::{AllocError, Global};

/// The form of a trace, and the choice of its lines.
#[derive(Clone, Copy, Debug, PartialEq, Eq)]
pub struct TraceOptions {
    /// Whether each line is a JSON object.
    pub is_json: bool,
    /// The instance that the lines concern, if one is chosen.
    pub instance: Option<u32>,
    /// The command that the lines concern, if one is chosen.
    pub command: Option<CommandId>,
    /// The server that the lines concern, if one is chosen.
    pub server: Option<u8>,
}

const TRACE_USAGE: &str = "mencius trace [OPTIONS] < SCENARIO";

const INSTANCE_RULE: &str = "an instance is a number, 0 to 4294967295";

const COMMAND_RULE: &str =
    "the ID of a command is CLIENT.NUMBER, two numbers from 0 to 4294967295 without leading zeros";

const SERVER_RULE: &str = "a server is a number, 0 to 255";

/// Builds the task `trace`, with its options.
pub(crate) fn trace_command<'a>(alloc: Global) -> Result<Command<'a>, AllocError>
    ensures { IfOk result (IsTask trace_task) }
{
    let task = new_task(alloc, "trace", TRACE_USAGE);
    let task = with_flag(alloc, task, "json")?;
    let task = with_value(alloc, task, "instance", "I")?;
    let task = with_value(alloc, task, "command", "ID")?;
    with_value(alloc, task, "server", "S")
}

// Builds the error for a word that is not the value of its option. It has the form of `clap`'s own errors, and the usage
// of `trace`.
fn word_error(alloc: Global, option: &str, word: &str, rule: &str) -> Result<Error, AllocError>
    ensures { IfOk result (λ e. kind_of e ≡ ErrorKind.ValueValidation) }
{
    let message = format!(in alloc; "invalid value '{word}' for '{option}': {rule}")?;
    trace_command(alloc)?.error(ErrorKind::ValueValidation, message.as_str())
}

// Returns the instance that `--instance` names, if it is given.
fn instance_in(alloc: Global, matches: &ArgMatches) -> Result<Option<u32>, Error>
    ensures instance { IfOk result (λ x.
        instance_in (first_of (codes "instance") (rows_of (found_of matches.now))) ≡ Ok x) }
    ensures faults { FailsBy
        (word_faults (instance_in (first_of (codes "instance") (rows_of (found_of matches.now))))) result }
{
    match matches.get_str("instance") {
        Some(word) => match parse_u32(word) {
            Ok(instance) => Ok(Some(instance)),
            Err(_) => Err(word_error(alloc, "--instance <I>", word, INSTANCE_RULE)?),
        },
        None => Ok(None),
    }
}

// Returns the command that `--command` names, if it is given.
fn command_in(alloc: Global, matches: &ArgMatches) -> Result<Option<CommandId>, Error>
    ensures command { IfOk result (λ x.
        command_in (first_of (codes "command") (rows_of (found_of matches.now))) ≡ Ok x) }
    ensures faults { FailsBy
        (word_faults (command_in (first_of (codes "command") (rows_of (found_of matches.now))))) result }
{
    match matches.get_str("command") {
        Some(word) => match parse_id(word) {
            Ok(id) => Ok(Some(id)),
            Err(_) => Err(word_error(alloc, "--command <ID>", word, COMMAND_RULE)?),
        },
        None => Ok(None),
    }
}

// Returns the server that `--server` names, if it is given.
fn server_in(alloc: Global, matches: &ArgMatches) -> Result<Option<u8>, Error>
    ensures server { IfOk result (λ x.
        server_in (first_of (codes "server") (rows_of (found_of matches.now))) ≡ Ok x) }
    ensures faults { FailsBy
        (word_faults (server_in (first_of (codes "server") (rows_of (found_of matches.now))))) result }
{
    match matches.get_str("server") {
        Some(word) => match parse_u8(word) {
            Ok(server) => Ok(Some(server)),
            Err(_) => Err(word_error(alloc, "--server <S>", word, SERVER_RULE)?),
        },
        None => Ok(None),
    }
}

/// Returns the form of the trace and the choice of its lines that the options of `trace` request. Fails if a word is not
/// the value of its option.
pub(crate) fn trace_options_of(alloc: Global, matches: &ArgMatches) -> Result<TraceOptions, Error>
    ensures options { IfOk result (λ options.
        trace_options_of (rows_of (found_of matches.now)) ≡ Some options) }
    ensures faults { FailsBy (trace_faults (trace_options_of (rows_of (found_of matches.now)))) result }
{
    let instance = instance_in(alloc, matches)?;
    let command = command_in(alloc, matches)?;
    let server = server_in(alloc, matches)?;
    let is_json = has_flag(matches, "json");
    Ok(TraceOptions {
        is_json,
        instance,
        command,
        server,
    })
}
