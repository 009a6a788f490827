//! A call of the program, from its arguments to its ending.

ghost use Rattle.std.specs.Prelude.{◌≡◌, ◌≢◌};
ghost use Rattle.mencius_command_line.specs.CommandLine.{bytes_of, task_state};
ghost use Rattle.mencius_app.specs.Calls.{AsksAs, BeginsCall, BeginsTask, EndsTask, IsProgramCall, MakesText, call_streams, is_reporting, task_with, view_of};
ghost use Rattle.mencius_app.specs.Tasks.{streams, used};

use crate::checks::read_check;
use crate::client_judgements::read_client_judgement;
use crate::ending::{Ending, ending_of, ending_of_run};
use crate::judgements::read_judgement;
use crate::no_task::{NOT_TEXT, answer_command_line};
use crate::output::{Output, deliver};
use crate::pictures::read_picture;
use crate::replays::read_replay;
use crate::runs::run_explained;
use crate::traces::read_trace;
use crate::turns::read_turns;
use mencius_board::Open;
use mencius_command_line::{Task, TraceOptions, are_texts, read_arguments};
use mencius_io::{Failure, Sink, Source, write_all};
use mencius_trace::View;
use std::alloc::Global;
use std::sync::Wait;
use std::thread::Threads;

/// How far a call came without doing a run.
#[derive(Drop)]
pub(crate) enum Begun {
    /// The call has ended.
    Ended(Ending),
    /// The call still has to do its run.
    Run(RunOptions),
}

/// How far a task came before it writes anything.
#[derive(Drop)]
pub(crate) enum Made {
    /// The text of the task, or the reason why the task has none.
    Text(Result<Output, Failure>),
    /// The task is a run, which has not begun.
    Run(RunOptions),
}

/// The options of a run.
#[derive(Drop)]
pub(crate) struct RunOptions {
    /// Whether the text begins with the line of the journal.
    pub with_journal: bool,
    /// Whether the observations of the servers replace the report.
    pub with_observations: bool,
    /// The key to look up, if there is one.
    pub key: Option<String>,
}

/// Does what the arguments after the program's name ask for, and writes the text to `sink`. It does a
/// [`replay`](crate::replay), a [`trace`](crate::trace), a picture ([`draw`](crate::draw)), a [`check`](crate::check)
/// or a [`run`](crate::run) of the scenario in `source`, or judges the log in it ([`judge`](crate::judge)). Help and
/// the version go to `sink` too. The arguments do not include the program's own name. If they are wrong, for example
/// because one is not UTF-8, it reads nothing and writes the reason to `errors`. Otherwise it writes nothing to
/// `errors`, because [`end`](crate::end) reports a fault.
///
/// It ends with `Done` only after it has written the whole text. If a strict replay had refused events or the log
/// breaks a promise, it ends with `Refused` instead of `Done`. Only a run waits for threads.
pub fn perform<R: Source, W: Sink, E: Sink, T: Threads + Wait + Sync>(
    rt: &T,
    alloc: Global,
    arguments: &[Vec<u8>],
    source: &mut R,
    sink: &mut W,
    errors: &mut E,
) -> Ending
    ensures call { IsProgramCall (bytes_of arguments.now) (call_streams (used R.state source.old source.new)
        (used W.state sink.old sink.new) (used E.state errors.old errors.new)) result }
{
    match begin(alloc, arguments, source, sink, errors) {
        Begun::Ended(ending) => ending,
        Begun::Run(options) => perform_run(rt, alloc, &options, source, sink),
    }
}

/// Does what [`perform`] does, but starts no thread. It does a run with [`run_in_turns`](crate::run_in_turns), so it
/// never waits and has no board that could fail.
pub fn perform_in_turns<R: Source, W: Sink, E: Sink>(
    alloc: Global,
    arguments: &[Vec<u8>],
    source: &mut R,
    sink: &mut W,
    errors: &mut E,
) -> Ending
    ensures call { IsProgramCall (bytes_of arguments.now) (call_streams (used R.state source.old source.new)
        (used W.state sink.old sink.new) (used E.state errors.old errors.new)) result }
    ensures no_board { result ≢ Ending.BoardFailed }
{
    match begin(alloc, arguments, source, sink, errors) {
        Begun::Ended(ending) => ending,
        Begun::Run(options) => perform_run_in_turns(alloc, &options, source, sink),
    }
}

// Does everything that the arguments ask for, except a run. For a run, it reads and writes nothing.
fn begin<R: Source, W: Sink, E: Sink>(
    alloc: Global,
    arguments: &[Vec<u8>],
    source: &mut R,
    sink: &mut W,
    errors: &mut E,
) -> Begun
    ensures { BeginsCall (bytes_of arguments.now) (call_streams (used R.state source.old source.new)
        (used W.state sink.old sink.new) (used E.state errors.old errors.new)) result }
{
    if !are_texts(arguments) {
        // If standard error fails, there is nowhere left to report it.
        let _ = write_all(errors, NOT_TEXT.as_bytes());
        return Begun::Ended(Ending::BadCommandLine);
    }
    match read_arguments(alloc, arguments) {
        Ok(task) => begin_task(alloc, task, source, sink),
        Err(error) => Begun::Ended(answer_command_line(alloc, arguments, &error, sink, errors)),
    }
}

// Does a task, unless it is a run.
fn begin_task<R: Source, W: Sink>(alloc: Global, task: Task, source: &mut R, sink: &mut W) -> Begun
    ensures { BeginsTask (task_state task) (used R.state source.old source.new)
        (used W.state sink.old sink.new) result }
{
    let is_reported = is_reporting(&task);
    match read_task(alloc, task, source) {
        Made::Text(made) => Begun::Ended(ending_of(is_reported, deliver(sink, made))),
        Made::Run(options) => Begun::Run(options),
    }
}

// Returns whether the ending of a task reports a text that is not clean.
fn is_reporting(task: &Task) -> bool
    ensures { result ≡ is_reporting (task_state task.now) }
{
    match task {
        Task::Replay { is_strict } => *is_strict,
        Task::Judge { .. } => true,
        Task::Clients(_) => true,
        Task::Trace(_) | Task::Draw(_) | Task::Check | Task::Run { .. } => false,
    }
}

// Returns the view that the options of `trace` request.
fn view_of(options: TraceOptions) -> View
    ensures { result ≡ view_of options }
{
    View {
        is_json: options.is_json,
        instance: options.instance,
        command: options.command,
        server: options.server,
    }
}

// Reads the input of a task and makes its text. For a run, it reads nothing and returns the options of the run.
fn read_task<R: Source>(alloc: Global, task: Task, source: &mut R) -> Made
    ensures { MakesText (task_state task) (used R.state source.old source.new) result }
{
    match task {
        Task::Replay { .. } => Made::Text(read_replay(alloc, source)),
        Task::Trace(options) => Made::Text(read_trace(alloc, source, &view_of(options))),
        Task::Draw(options) => Made::Text(read_picture(alloc, source, &options)),
        Task::Check => Made::Text(read_check(alloc, source)),
        Task::Judge { is_brief, is_json } => {
            Made::Text(read_judgement(alloc, source, is_brief, is_json))
        }
        Task::Clients(options) => Made::Text(read_client_judgement(alloc, source, options)),
        Task::Run {
            with_journal,
            with_observations,
            key,
        } => Made::Run(RunOptions {
            with_journal,
            with_observations,
            key,
        }),
    }
}

// Does a run in threads. No other function here waits for threads.
fn perform_run<R: Source, W: Sink, T: Threads + Wait + Sync>(
    rt: &T,
    alloc: Global,
    options: &RunOptions,
    source: &mut R,
    sink: &mut W,
) -> Ending
    ensures ended { EndsTask (task_with options.now) (streams (R.state source.old) (R.state source.new)
        (W.state sink.old) (W.state sink.new)) result }
    ensures asked { AsksAs (task_with options.now) (streams (R.state source.old) (R.state source.new)
        (W.state sink.old) (W.state sink.new)) }
    ensures board { result ≡ Ending.BoardFailed → sink.new ≡ sink.old }
{
    let key = options.key.as_deref();
    ending_of_run(run_explained(
        rt,
        alloc,
        source,
        sink,
        &Open,
        options.with_journal,
        options.with_observations,
        key,
    ))
}

// Does a run whose workers take turns.
fn perform_run_in_turns<R: Source, W: Sink>(
    alloc: Global,
    options: &RunOptions,
    source: &mut R,
    sink: &mut W,
) -> Ending
    ensures ended { EndsTask (task_with options.now) (streams (R.state source.old) (R.state source.new)
        (W.state sink.old) (W.state sink.new)) result }
    ensures asked { AsksAs (task_with options.now) (streams (R.state source.old) (R.state source.new)
        (W.state sink.old) (W.state sink.new)) }
    ensures no_board { result ≢ Ending.BoardFailed }
{
    let key = options.key.as_deref();
    let made = read_turns(
        alloc,
        source,
        options.with_journal,
        options.with_observations,
        key,
    );
    ending_of(false, deliver(sink, made))
}
