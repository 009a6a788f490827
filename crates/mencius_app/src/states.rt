//! Prints the state of each server after a scenario.

ghost use Rattle.std.specs.Prelude.{◌≡◌, ◌++◌, [], true, string_bytes, IfErr, IfOk, OnOk};
ghost use Rattle.std.specs.Io.KnownBytes.{IsAtEnd};
ghost use Rattle.std.specs.List.{flat_map};
ghost use Rattle.mencius_app.specs.Failures.{Fails, FailsToMake, explained_as};
ghost use Rattle.mencius_app.specs.Replay.{salt_of_events};
ghost use Rattle.mencius_app.specs.States.{server_state, state_task, state_text};
ghost use Rattle.mencius_app.specs.Tasks.{AsksLittle, AsksReader, IsOutput, Writes, streams};
ghost use Rattle.mencius_base.specs.Members.{IsMember, numbers_below};
ghost use Rattle.mencius_cluster.specs.Salt.{hasher_with};
ghost use Rattle.mencius_cluster.specs.State.{trace_of};

use crate::input::read_input;
use crate::output::{Output, deliver};
use crate::printed::push_server;
use crate::replays::step_all;
use mencius_base::{Members, NoMemory};
use mencius_cluster::{Cluster, salt_after};
use mencius_input::{Events, Kind};
use mencius_io::{Failure, Sink, Source};
use mencius_trace::push_slots;
use std::alloc::{AllocError, Global};

/// Reads a scenario to its end and steps a new cluster through its events. Then writes a line for each refused event.
/// After these lines, it writes for each server the server's line of the report, and a line for each instance that the
/// server knows anything about (`mencius_trace::push_slots`).
///
/// The whole text is made before any of it is written. If memory runs out at an event, the task fails with `NoMemory`.
pub fn state<R: Source, W: Sink>(alloc: Global, source: &mut R, sink: &mut W) -> Result<(), Failure>
    // All bytes were read, they are a scenario, and the text of the state after it was written.
    ensures end { OnOk result (IsAtEnd (R.state source.new).bytes) }
    ensures done { OnOk result (Writes state_task (streams (R.state source.old) (R.state source.new)
        (W.state sink.old) (W.state sink.new)) true) }

    // The cause of a fault. In every case, the use of the reader and the writer is limited.
    ensures fault { IfErr result (Fails (explained_as Kind.Replay state_task) (streams (R.state source.old) (R.state source.new)
        (W.state sink.old) (W.state sink.new))) }
    ensures asked { AsksLittle (streams (R.state source.old) (R.state source.new)
        (W.state sink.old) (W.state sink.new)) }
{
    deliver(sink, read_state(alloc, source))?;
    Ok(())
}

// Reads a scenario and makes the text of the state after it.
fn read_state<R: Source>(alloc: Global, source: &mut R) -> Result<Output, Failure>
    ensures end { OnOk result (IsAtEnd (R.state source.new).bytes) }
    ensures made { IfOk result (IsOutput state_task (R.state source.old).bytes) }
    ensures fault { IfErr result (FailsToMake (explained_as Kind.Replay state_task) (R.state source.old) (R.state source.new)) }
    ensures asked { AsksReader (R.state source.old) (R.state source.new) }
{
    let scenario = read_input(alloc, source)?;
    let text = state_of(alloc, scenario.members, scenario.course)?;
    Ok(Output {
        text,
        is_clean: true,
        judge: None,
    })
}

// Makes the text of the state after these events.
fn state_of(alloc: Global, members: Members, events: Events) -> Result<String, NoMemory>
    ensures text { IfOk result (λ s. string_bytes s ≡ state_text members events) }
{
    let mut cluster = Cluster::with_salt(alloc, members, salt_after(0, events.commands()))?;
    let mut text = String::new(alloc);
    push_state(alloc, &mut text, &mut cluster, events)?;
    Ok(text)
}

// Steps a new cluster, which has the salt of the events, through these events. Adds a line for each refused event, and
// then the state.
fn push_state(
    alloc: Global,
    text: &mut String,
    cluster: &mut Cluster,
    events: Events,
) -> Result<(), NoMemory>
    requires journal { cluster.old.journal ≡ [] }
    requires salt { cluster.old.hasher ≡ hasher_with (salt_of_events events) }
    ensures { OnOk result (string_bytes text.new
        ≡ string_bytes text.old ++ state_text cluster.old.members events) }
{
    step_all(cluster, events, text)?;
    push_states(alloc, text, cluster)?;
    Ok(())
}

fn push_states(alloc: Global, text: &mut String, cluster: &Cluster) -> Result<(), AllocError>
    ensures { OnOk result (string_bytes text.new ≡ string_bytes text.old
        ++ flat_map (server_state cluster.now.members (trace_of cluster.now))
        (numbers_below cluster.now.members.count)) }
{
    for server in 0..cluster.servers() {
        push_server_state(alloc, text, cluster, server)?;
    }
    Ok(())
}

fn push_server_state(
    alloc: Global,
    text: &mut String,
    cluster: &Cluster,
    server: u8,
) -> Result<(), AllocError>
    requires { IsMember cluster.now.members server }
    ensures { OnOk result (string_bytes text.new
        ≡ string_bytes text.old ++ server_state cluster.now.members (trace_of cluster.now) server) }
{
    push_server(text, cluster, server)?;
    push_slots(alloc, text, cluster, server)
}
