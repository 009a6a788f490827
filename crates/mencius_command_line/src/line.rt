//! Reads the words after the program's name.

ghost use Rattle.std.specs.Prelude.{◌≡◌, ◌≤◌, ◌∷◌, IfErr, IfOk, Some, codes, length, map, option_copied, option_map, string_bytes};
ghost use Rattle.clap.specs.Words.{App, FailsBy, HasKind, app_of, first_of, found_of, kind_of, rows_of, subcommand_rows_of, with_subcommand};
ghost use Rattle.mencius_command_line.specs.CommandLine.{task_in, task_by_name, judge_by, task_state, bad_key_faults, faults, is_key, judge_task, program, replay_task, run_task, value_faults, with_joined_key, with_replays, without_tasks, words_read};
ghost use Rattle.mencius_command_line.specs.Options.{IsTask, has_flag};

use crate::client_options::{ClientOptions, client_options_of, has_client_option};
use crate::draw_options::{draw_command, options_of};
use crate::tasks::{new_task, with_flag, with_value};
use crate::trace_options::{TraceOptions, trace_command, trace_options_of};
use clap::error::ErrorKind;
use clap::{ArgMatches, Command, Error};
use mencius_base::{MOST_KEY_BYTES, is_name};
use mencius_draw::Options;
use std::alloc::{AllocError, Global};

/// The task that a command line requests, with its options.
#[derive(Debug, Drop, PartialEq, Eq)]
pub enum Task {
    /// A replay of the scenario on standard input.
    Replay {
        /// Whether the replay ends with another exit status if an event is refused.
        is_strict: bool,
    },
    /// A trace of the scenario on standard input, or a part of the trace.
    Trace(TraceOptions),
    /// A picture of a part of the scenario on standard input.
    Draw(Options),
    /// A check of the scenario on standard input.
    Check,
    /// A judgement of the log on standard input.
    Judge {
        /// Whether only the line of the verdict is printed.
        is_brief: bool,
        /// Whether the verdict is printed as a JSON object.
        is_json: bool,
    },
    /// A judgement of what clients saw, by the log on standard input.
    Clients(ClientOptions),
    /// A run of the workers of the scenario on standard input.
    Run {
        /// Whether the journal is printed before the report.
        with_journal: bool,
        /// Whether the observations of the servers are printed in place of the report.
        with_observations: bool,
        /// The key to look up at the end, if there is one.
        key: Option<String>,
    },
}

// A program with a version has the option `--version`. The text that this option prints is in `pages`.
const VERSION: &str = "0.1.0";

const KEY_RULE: &str = "a key has 1 to 64 ASCII letters, digits, `_`, `-` or `.`";

const REPLAY_USAGE: &str = "mencius replay [OPTIONS] < SCENARIO";

const CHECK_USAGE: &str = "mencius check < SCENARIO";

const JUDGE_USAGE: &str = "mencius judge [OPTIONS] < LOG";

const RUN_USAGE: &str = "mencius run [OPTIONS] < SCENARIO";

// Builds the task `run`, with its options.
fn run_command<'a>(alloc: Global) -> Result<Command<'a>, AllocError>
    ensures { IfOk result (IsTask run_task) }
{
    let task = new_task(alloc, "run", RUN_USAGE);
    let task = with_flag(alloc, task, "journal")?;
    let task = with_flag(alloc, task, "observations")?;
    with_value(alloc, task, "lookup", "KEY")
}

// Builds the task `replay`, with its option.
fn replay_command<'a>(alloc: Global) -> Result<Command<'a>, AllocError>
    ensures { IfOk result (IsTask replay_task) }
{
    with_flag(alloc, new_task(alloc, "replay", REPLAY_USAGE), "strict")
}

/// Builds the task `judge`, with its options.
pub(crate) fn judge_command<'a>(alloc: Global) -> Result<Command<'a>, AllocError>
    ensures { IfOk result (IsTask judge_task) }
{
    let task = new_task(alloc, "judge", JUDGE_USAGE);
    let task = with_flag(alloc, task, "brief")?;
    let task = with_flag(alloc, task, "json")?;
    let task = with_flag(alloc, task, "clients")?;
    let task = with_value(alloc, task, "most", "N")?;
    with_flag(alloc, task, "order")
}

// Builds the program without its tasks.
fn without_tasks<'a>(alloc: Global) -> Command<'a>
    ensures { app_of result ≡ without_tasks }
{
    Command::new(alloc, "mencius")
        .version(VERSION)
        .subcommand_required(true)
}

// Adds a task to the program, if the task could be built.
fn with_task<'a>(
    program: Command<'a>,
    task: Result<Command<'a>, AllocError>,
) -> Result<Command<'a>, AllocError>
    ensures { (a : App) → IfOk task.entry (IsTask a)
        → IfOk result (λ command. app_of command ≡ with_subcommand (app_of program.entry) a.top) }
{
    program.subcommand(task?)
}

// Builds the program with the tasks `replay`, `trace`, `draw` and `check`.
fn with_replays<'a>(alloc: Global) -> Result<Command<'a>, AllocError>
    ensures { IfOk result (λ command. app_of command ≡ with_replays) }
{
    let program = with_task(without_tasks(alloc), replay_command(alloc))?;
    let program = with_task(program, trace_command(alloc))?;
    let program = with_task(program, draw_command(alloc))?;
    program.subcommand(new_task(alloc, "check", CHECK_USAGE))
}

// Builds the program with all its tasks.
fn command_line<'a>(alloc: Global) -> Result<Command<'a>, AllocError>
    ensures { IfOk result (λ command. app_of command ≡ program) }
{
    let program = with_replays(alloc)?;
    let program = with_task(program, judge_command(alloc))?;
    with_task(program, run_command(alloc))
}

/// Returns whether a flag was given.
pub(crate) fn has_flag(options: &ArgMatches, flag: &str) -> bool
    ensures { result ≡ has_flag flag.now (rows_of (found_of options.now)) }
{
    match options.get_str(flag) {
        Some(text) => text == "true",
        None => false,
    }
}

// Returns the next word as `clap` is to read it, and the words that remain.
fn next_word<'a>(
    alloc: Global,
    word: &String,
    after: &'a [String],
) -> Result<(String, &'a [String]), AllocError>
    ensures read { IfOk result (λ r.
        with_joined_key (string_bytes word.now ∷ map string_bytes after.now)
        ≡ string_bytes r.0 ∷ with_joined_key (map string_bytes r.1.now)) }
    ensures shorter { IfOk result (λ r. length r.1.now ≤ length after.now) }
{
    match after.split_first() {
        Some((key, further)) if word.as_str() == "--lookup" => {
            Ok((format!(in alloc; "{word}={key}")?, further))
        }
        _ => Ok((word.clone()?, after)),
    }
}

// Returns the words as `clap` is to read them. `--lookup` is joined to its KEY, because `clap` accepts a KEY that
// begins with a hyphen only after `=`.
fn words_read(alloc: Global, words: &[String]) -> Result<Vec<String>, AllocError>
    ensures { IfOk result (λ x. map string_bytes x.items
        ≡ words_read (map string_bytes words.now)) }
{
    let mut joined = Vec::new(alloc);
    let Some((name, mut rest)) = words.split_first() else {
        return Ok(joined);
    };
    joined.push(name.clone()?)?;
    while let Some((word, after)) = rest.split_first() {
        let (word, left) = next_word(alloc, word, after)?;
        joined.push(word)?;
        rest = left;
    }
    Ok(joined)
}

// Returns the key that was given with `--lookup`, if there is one.
fn key_of(alloc: Global, options: &ArgMatches) -> Result<Option<String>, AllocError>
    ensures { IfOk result (λ key.
        option_map string_bytes key ≡ first_of (codes "lookup") (rows_of (found_of options.now))) }
{
    match options.get_str("lookup") {
        Some(key) => Ok(Some(String::from_str(alloc, key)?)),
        None => Ok(None),
    }
}

// Returns the judgement that the options of `judge` request.
fn judge_by(alloc: Global, options: &ArgMatches) -> Result<Task, Error>
    ensures task { IfOk result (λ task. task_state task ≡ judge_by (rows_of (found_of options.now))) }
    ensures faults { IfErr result (HasKind (value_faults (judge_by (rows_of (found_of options.now))))) }
{
    if has_client_option(options) {
        return Ok(Task::Clients(client_options_of(alloc, options)?));
    }
    let is_brief = has_flag(options, "brief");
    let is_json = has_flag(options, "json");
    Ok(Task::Judge { is_brief, is_json })
}

// Returns the task with this name, with its options.
fn task_named(alloc: Global, name: &str, options: &ArgMatches) -> Result<Task, Error>
    ensures task { IfOk result (λ task. task_state task
        ≡ task_by_name (Some (name.now, rows_of (found_of options.now)))) }
    ensures faults { IfErr result
        (HasKind (value_faults (task_by_name (Some (name.now, rows_of (found_of options.now)))))) }
{
    if name == "run" {
        let with_journal = has_flag(options, "journal");
        let with_observations = has_flag(options, "observations");
        let key = key_of(alloc, options)?;
        return Ok(Task::Run {
            with_journal,
            with_observations,
            key,
        });
    }
    if name == "trace" {
        return Ok(Task::Trace(trace_options_of(alloc, options)?));
    }
    if name == "draw" {
        return Ok(Task::Draw(options_of(alloc, options)?));
    }
    if name == "check" {
        return Ok(Task::Check);
    }
    if name == "judge" {
        return judge_by(alloc, options);
    }
    let is_strict = has_flag(options, "strict");
    Ok(Task::Replay { is_strict })
}

// Returns the task that was requested.
fn task_of(alloc: Global, matches: &ArgMatches) -> Result<Task, Error>
    ensures task { IfOk result
        (λ task. task_state task ≡ task_by_name (subcommand_rows_of matches.now)) }
    ensures faults { IfErr result
        (HasKind (value_faults (task_by_name (subcommand_rows_of matches.now)))) }
{
    match matches.subcommand() {
        Some((name, options)) => task_named(alloc, name, options),
        None => Ok(Task::Replay { is_strict: false }),
    }
}

// Returns whether a word is a key.
fn is_key(word: &str) -> bool
    ensures { result ≡ is_key word.now }
{
    is_name(word) && !word.is_empty() && word.len() <= MOST_KEY_BYTES
}

// Returns the word that was given as the key to look up, if it is not a key.
fn bad_key(task: &Task) -> Option<&str>
    ensures { value_faults (task_state task.now) ≡ bad_key_faults (option_copied result) }
{
    match task {
        Task::Run { key: Some(key), .. } if !is_key(key.as_str()) => Some(key.as_str()),
        _ => None,
    }
}

// Returns the task, or fails if the word that was given as its key is not a key.
fn with_good_key(alloc: Global, task: Task) -> Result<Task, Error>
    ensures task { IfOk result (λ x. task_state x ≡ task_state task) }
    ensures faults { FailsBy (value_faults (task_state task)) result }
{
    match bad_key(&task) {
        Some(key) => Err(key_error(alloc, key)?),
        None => Ok(task),
    }
}

// Builds the error for a word that is not a key. It has the form of `clap`'s own errors, and the usage of `run`.
fn key_error(alloc: Global, key: &str) -> Result<Error, AllocError>
    ensures { IfOk result (λ e. kind_of e ≡ ErrorKind.ValueValidation) }
{
    let message = format!(in alloc; "invalid value '{key}' for '--lookup <KEY>': {KEY_RULE}")?;
    run_command(alloc)?.error(ErrorKind::ValueValidation, message.as_str())
}

/// Reads a command line. The first of `words` is the program's name, which may be any word. Before the other words are
/// read, each `--lookup` is joined to the word after it, as `--lookup=KEY`.
///
/// `clap` decides which words are accepted, which task and options they request, and which kind of error refused words
/// cause. For `clap`, the program has a version and these six subcommands:
///
/// - `replay [--strict]`
/// - `trace [--json] [--instance I] [--command ID] [--server S]`
/// - `draw [--from EVENT] [--to EVENT] [--dark] [--light]`
/// - `check`
/// - `judge [--brief] [--json] [--clients] [--most N] [--order]`
/// - `run [--journal] [--observations] [--lookup KEY]`
///
/// A KEY that is not a key of a command is also refused. So is an EVENT, an I, an N or an S that is not a number, and an
/// ID that is not the identity of a command. `--most` and `--order` are refused without `--clients`.
///
/// # Errors
///
/// The error contains the text to print, and says whether the text goes to standard error. Its exit status is 0 if help
/// or the version was requested, and 2 for a bad command line. Its kind is `ValueValidation` for a bad value of an
/// option, and for options of `judge` that do not fit together. It is `OutOfMemory` if memory ran out, which may happen
/// for any words.
pub fn read_command_line(alloc: Global, words: &[String]) -> Result<Task, Error>
    ensures task { IfOk result (λ task. task_state task ≡ task_in (map string_bytes words.now)) }
    ensures faults { FailsBy (faults (map string_bytes words.now)) result }
{
    let words = words_read(alloc, words)?;
    let mut command = command_line(alloc)?;
    let matches = command.try_get_matches_from_mut(words.as_slice())?;
    let task = task_of(alloc, &matches)?;
    with_good_key(alloc, task)
}
