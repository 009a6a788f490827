//! The check of a scenario, and the line that it prints.

ghost use Rattle.std.specs.Prelude.{◌≡◌, ◌⊎◌, ◌++◌, map, string_bytes, true, IfErr, IfOk, IfSome, OnOk, Err, Ok};
ghost use Rattle.std.specs.List.{flat_map};
ghost use Rattle.std.specs.Io.KnownBytes.{IsAtEnd};
ghost use Rattle.mencius_input.specs.Kinds.{kind_in};
ghost use Rattle.mencius_input.specs.Scenario.{scenario};
ghost use Rattle.mencius_app.specs.Check.{EitherScenario, check_task, either_scenario, count_text, explained_check, ok_line, replay_line, run_line};
ghost use Rattle.mencius_app.specs.Failures.{ExplainsByFields, Fails, FailsToMake};
ghost use Rattle.mencius_app.specs.Tasks.{AsksLittle, AsksReader, IsOutput, Writes, streams};

use crate::failure::{misread, unread};
use crate::output::{Output, deliver};
use mencius_base::{Command, Plan};
use mencius_input::{Events, Kind, Scenario, kind_of, read_plan, read_scenario};
use mencius_io::{Failure, IoFault, Sink, Source, read_all};
use std::alloc::{AllocError, Global};

/// Reads a scenario of `replay` or of `run` to its end, and writes how much it contains. For `replay`, it writes the
/// numbers of servers and events. For `run`, it writes the numbers of servers, of workers, of turns of each worker, and
/// of commands in each list. It steps no event, and no worker takes a turn.
///
/// The fields of the scenario decide which of the two kinds it is, as in [`kind_of`].
///
/// # Errors
///
/// Fails with the same fault as `replay` or `run` (the task of that kind) if that task reads the same input.
pub fn check<R: Source, W: Sink>(alloc: Global, source: &mut R, sink: &mut W) -> Result<(), Failure>
    // All bytes were read, they are a scenario, and its line was written.
    ensures end { OnOk result (IsAtEnd (R.state source.new).bytes) }
    ensures done { OnOk result (Writes check_task (streams (R.state source.old) (R.state source.new)
        (W.state sink.old) (W.state sink.new)) true) }

    // The cause of a fault. In every case, the use of the reader and the writer is limited.
    ensures fault { IfErr result (Fails explained_check (streams (R.state source.old) (R.state source.new)
        (W.state sink.old) (W.state sink.new))) }
    ensures asked { AsksLittle (streams (R.state source.old) (R.state source.new)
        (W.state sink.old) (W.state sink.new)) }
{
    deliver(sink, read_check(alloc, source))?;
    Ok(())
}

/// Reads a scenario and makes its line.
pub(crate) fn read_check<R: Source>(alloc: Global, source: &mut R) -> Result<Output, Failure>
    ensures end { OnOk result (IsAtEnd (R.state source.new).bytes) }
    ensures made { IfOk result (IsOutput check_task (R.state source.old).bytes) }
    ensures fault { IfErr result (FailsToMake explained_check (R.state source.old) (R.state source.new)) }
    ensures asked { AsksReader (R.state source.old) (R.state source.new) }
{
    let bytes = match read_all(alloc, source) {
        Ok(bytes) => bytes,
        Err(fault) => return Err(unread(alloc, fault)),
    };
    let text = line_in(alloc, bytes.as_slice())?;
    Ok(Output {
        text,
        is_clean: true,
        judge: None,
    })
}

// Returns the line of the scenario in these bytes.
fn line_in(alloc: Global, bytes: &[u8]) -> Result<String, Failure>
    ensures line { IfOk result (λ s. (written : EitherScenario)
        × (either_scenario bytes.now ≡ Ok written) × (string_bytes s ≡ ok_line written)) }
    ensures fault { IfErr result (λ failure. (failure.fault ≡ IoFault.NoMemory)
        ⊎ (either_scenario bytes.now ≡ Err failure.fault)) }
    ensures words { IfErr result (λ failure. IfSome failure.words (λ words.
        ExplainsByFields failure.fault bytes.now (string_bytes words))) }
{
    match read_scenario(alloc, bytes) {
        Ok(scenario) => Ok(replay_line(alloc, &scenario)?),
        Err(fault) => {
            if fault == IoFault::BadShape {
                line_of_other_shape(alloc, bytes)
            } else {
                Err(misread(alloc, Kind::Replay, bytes, fault))
            }
        }
    }
}

// Returns the line of bytes that do not have the shape of a scenario of `replay`.
fn line_of_other_shape(alloc: Global, bytes: &[u8]) -> Result<String, Failure>
    requires { scenario bytes.now ≡ Err IoFault.BadShape }
    ensures line { IfOk result (λ s. (written : EitherScenario)
        × (either_scenario bytes.now ≡ Ok written) × (string_bytes s ≡ ok_line written)) }
    ensures fault { IfErr result (λ failure. (failure.fault ≡ IoFault.NoMemory)
        ⊎ (either_scenario bytes.now ≡ Err failure.fault)) }
    ensures words { IfErr result (λ failure. IfSome failure.words (λ words.
        ExplainsByFields failure.fault bytes.now (string_bytes words))) }
{
    match kind_of(alloc, bytes)? {
        Kind::Replay => Err(misread(alloc, Kind::Replay, bytes, IoFault::BadShape)),
        Kind::Run => line_of_run(alloc, bytes),
    }
}

// Returns the line of the scenario in these bytes, which are meant as a scenario of `run`.
fn line_of_run(alloc: Global, bytes: &[u8]) -> Result<String, Failure>
    requires { kind_in bytes.now ≡ Kind.Run }
    ensures line { IfOk result (λ s. (written : EitherScenario)
        × (either_scenario bytes.now ≡ Ok written) × (string_bytes s ≡ ok_line written)) }
    ensures fault { IfErr result (λ failure. (failure.fault ≡ IoFault.NoMemory)
        ⊎ (either_scenario bytes.now ≡ Err failure.fault)) }
    ensures words { IfErr result (λ failure. IfSome failure.words (λ words.
        ExplainsByFields failure.fault bytes.now (string_bytes words))) }
{
    match read_plan(alloc, bytes) {
        Ok(scenario) => Ok(run_line(alloc, &scenario)?),
        Err(fault) => Err(misread(alloc, Kind::Run, bytes, fault)),
    }
}

// Returns the line of a scenario of `replay`.
fn replay_line(alloc: Global, scenario: &Scenario<Events>) -> Result<String, AllocError>
    ensures { IfOk result (λ s. string_bytes s ≡ replay_line scenario.now) }
{
    let servers = scenario.members.count();
    let events = scenario.course.len();
    let mut line = String::new(alloc);
    writeln!(line, "ok servers {servers} events {events}")?;
    Ok(line)
}

// Returns the line of a scenario of `run`.
fn run_line(alloc: Global, scenario: &Scenario<Plan>) -> Result<String, AllocError>
    ensures { IfOk result (λ s. string_bytes s ≡ run_line scenario.now) }
{
    let servers = scenario.members.count();
    let workers = scenario.course.workers();
    let turns = scenario.course.turns();
    let mut line = String::new(alloc);
    write!(
        line,
        "ok servers {servers} workers {workers} turns {turns} commands"
    )?;
    push_list_counts(&mut line, scenario.course.commands())?;
    line.push('\n')?;
    Ok(line)
}

// Adds the number of commands in each list.
fn push_list_counts(line: &mut String, lists: &[Vec<Command>]) -> Result<(), AllocError>
    ensures { OnOk result (string_bytes line.new
        ≡ string_bytes line.old ++ flat_map count_text (map (λ l. l.items) lists.now)) }
{
    for list in lists {
        let count = list.len();
        write!(line, " {count}")?;
    }
    Ok(())
}
