//! The trace of a scenario, and the text that it prints.

ghost use Rattle.std.specs.Prelude.{◌≡◌, ◌++◌, ◌∷◌, [], true, string_bytes, IfErr, IfOk, OnOk};
ghost use Rattle.std.specs.Io.KnownBytes.{IsAtEnd};
ghost use Rattle.mencius_app.specs.Failures.{Fails, FailsToMake, explained_as};
ghost use Rattle.mencius_app.specs.Replay.{salt_of_events};
ghost use Rattle.mencius_app.specs.Trace.{chosen_text, trace_task};
ghost use Rattle.mencius_app.specs.Tasks.{AsksLittle, AsksReader, IsOutput, Writes, streams};
ghost use Rattle.mencius_cluster.specs.Salt.{hasher_with};
ghost use Rattle.mencius_cluster.specs.State.{trace_of};
ghost use Rattle.mencius_model.specs.Outcomes.{trace_from};
ghost use Rattle.mencius_trace.specs.LastLines.{events_text, view_text};
ghost use Rattle.mencius_trace.specs.Suggestions.{suggested_instances};

use crate::input::read_input;
use crate::output::{Output, deliver};
use crate::replays::step_one;
use mencius_base::{CommandId, Event, Members, NoMemory};
use mencius_cluster::{Cluster, salt_after};
use mencius_input::{Events, Kind};
use mencius_io::{Failure, Sink, Source};
use mencius_trace::{View, push_closing, push_opening, suggested_instances, tell};
use std::alloc::Global;

/// Reads a scenario to its end and steps a new cluster through its events. Writes the effects of each event, one fact
/// on each line. Then writes how far each server is, and which messages were not heard. The view says whether the lines
/// are JSON objects, and which of them are written. The whole text is made before any of it is written. If memory runs
/// out at an event, the trace fails with `NoMemory`.
pub fn trace<R: Source, W: Sink>(
    alloc: Global,
    source: &mut R,
    sink: &mut W,
    view: &View,
) -> Result<(), Failure>
    // All bytes were read, they are a scenario, and the text of its trace was written.
    ensures end { OnOk result (IsAtEnd (R.state source.new).bytes) }
    ensures done { OnOk result (Writes (trace_task view.now) (streams (R.state source.old) (R.state source.new)
        (W.state sink.old) (W.state sink.new)) true) }

    // The cause of a fault. In every case, the use of the reader and the writer is limited.
    ensures fault { IfErr result (Fails (explained_as Kind.Replay (trace_task view.now)) (streams (R.state source.old) (R.state source.new)
        (W.state sink.old) (W.state sink.new))) }
    ensures asked { AsksLittle (streams (R.state source.old) (R.state source.new)
        (W.state sink.old) (W.state sink.new)) }
{
    deliver(sink, read_trace(alloc, source, view))?;
    Ok(())
}

/// Reads a scenario and makes the text of its trace.
pub(crate) fn read_trace<R: Source>(
    alloc: Global,
    source: &mut R,
    view: &View,
) -> Result<Output, Failure>
    ensures end { OnOk result (IsAtEnd (R.state source.new).bytes) }
    ensures made { IfOk result (IsOutput (trace_task view.now) (R.state source.old).bytes) }
    ensures fault { IfErr result (FailsToMake (explained_as Kind.Replay (trace_task view.now)) (R.state source.old) (R.state source.new)) }
    ensures asked { AsksReader (R.state source.old) (R.state source.new) }
{
    let scenario = read_input(alloc, source)?;
    let text = traced(alloc, scenario.members, scenario.course, view)?;
    Ok(Output {
        text,
        is_clean: true,
        judge: None,
    })
}

/// Makes the text of the trace of a new cluster that steps through these events, in the form of the view.
pub(crate) fn traced(
    alloc: Global,
    members: Members,
    events: Events,
    view: &View,
) -> Result<String, NoMemory>
    ensures text { IfOk result (λ s. string_bytes s ≡ chosen_text view.now members events) }
{
    match view.command {
        Some(id) => traced_command(alloc, members, events, view, id),
        None => traced_events(alloc, members, events, view),
    }
}

// Makes the text of the trace of a view that chooses no command.
fn traced_events(
    alloc: Global,
    members: Members,
    events: Events,
    view: &View,
) -> Result<String, NoMemory>
    ensures text { IfOk result (λ s. string_bytes s ≡ view_text view.now [] members events) }
{
    let mut cluster = Cluster::with_salt(alloc, members, salt_after(0, events.commands()))?;
    text_of_trace(alloc, view, &mut cluster, events)
}

// Steps a new cluster, which has the salt of these events, through them, and makes the text of its trace.
fn text_of_trace(
    alloc: Global,
    view: &View,
    cluster: &mut Cluster,
    events: Events,
) -> Result<String, NoMemory>
    requires journal { cluster.old.journal ≡ [] }
    requires salt { cluster.old.hasher ≡ hasher_with (salt_of_events events) }
    ensures { IfOk result (λ s. string_bytes s ≡ view_text view.now [] cluster.old.members events) }
{
    let mut text = String::new(alloc);
    push_opening(&mut text, view, cluster.members())?;
    push_events(alloc, &mut text, view, cluster, events)?;
    Ok(text)
}

// Makes the text of the trace of a view that chooses a command. The events are stepped twice, because the first lines
// may concern an instance that the command is suggested for later.
fn traced_command(
    alloc: Global,
    members: Members,
    events: Events,
    view: &View,
    id: CommandId,
) -> Result<String, NoMemory>
    ensures text { IfOk result (λ s. string_bytes s
        ≡ view_text view.now (suggested_instances (trace_from members [] events) id) members events) }
{
    let salt = salt_after(0, events.commands());
    let (events, suggested) = events_and_suggestions(alloc, members, salt, events, id)?;
    kept_trace(alloc, members, salt, events, view, suggested.as_slice())
}

// Returns the events, and the instances that a command is suggested for while a new cluster steps through them.
fn events_and_suggestions(
    alloc: Global,
    members: Members,
    salt: u64,
    events: Events,
    id: CommandId,
) -> Result<(Vec<Event>, Vec<u32>), NoMemory>
    requires salt { salt ≡ salt_of_events events }
    ensures kept { IfOk result (λ x. x.0.items ≡ events) }
    ensures suggested { IfOk result (λ x. x.1.items ≡ suggested_instances (trace_from members [] events) id) }
{
    let mut cluster = Cluster::with_salt(alloc, members, salt)?;
    step_and_suggest(alloc, &mut cluster, events, id)
}

// Steps a cluster through events. Returns the events, and the instances for which a command was suggested.
fn step_and_suggest(
    alloc: Global,
    cluster: &mut Cluster,
    events: Events,
    id: CommandId,
) -> Result<(Vec<Event>, Vec<u32>), NoMemory>
    requires salt { cluster.old.hasher ≡ hasher_with (salt_of_events events) }
    ensures kept { IfOk result (λ x. x.0.items ≡ events) }
    ensures suggested { IfOk result (λ x. x.1.items
        ≡ suggested_instances (trace_from cluster.old.members (trace_of cluster.old) events) id) }
{
    let kept = step_and_keep(alloc, cluster, events)?;
    let suggested = suggested_instances(alloc, cluster, id)?;
    Ok((kept, suggested))
}

// Makes the text of the trace of a view that chooses a command, which is suggested for these instances.
fn kept_trace(
    alloc: Global,
    members: Members,
    salt: u64,
    events: Vec<Event>,
    view: &View,
    suggested: &[u32],
) -> Result<String, NoMemory>
    requires salt { salt ≡ salt_of_events events.items }
    ensures text { IfOk result (λ s. string_bytes s ≡ view_text view.now suggested.now members events.items) }
{
    let mut cluster = Cluster::with_salt(alloc, members, salt)?;
    text_of_kept_trace(alloc, view, suggested, &mut cluster, events)
}

// Does the same for a view that chooses a command.
fn text_of_kept_trace(
    alloc: Global,
    view: &View,
    suggested: &[u32],
    cluster: &mut Cluster,
    events: Vec<Event>,
) -> Result<String, NoMemory>
    requires journal { cluster.old.journal ≡ [] }
    requires salt { cluster.old.hasher ≡ hasher_with (salt_of_events events.items) }
    ensures { IfOk result (λ s. string_bytes s
        ≡ view_text view.now suggested.now cluster.old.members events.items) }
{
    let mut text = String::new(alloc);
    push_opening(&mut text, view, cluster.members())?;
    push_kept_events(alloc, &mut text, view, suggested, cluster, events)?;
    Ok(text)
}

// Steps a cluster, which has the salt of the events, through the events, and returns the events.
fn step_and_keep(
    alloc: Global,
    cluster: &mut Cluster,
    events: Events,
) -> Result<Vec<Event>, NoMemory>
    requires salt { cluster.old.hasher ≡ hasher_with (salt_of_events events) }
    ensures kept { IfOk result (λ kept. kept.items ≡ events) }
    ensures trace { OnOk result (trace_of cluster.new
        ≡ trace_from cluster.old.members (trace_of cluster.old) events) }
{
    let mut kept = Vec::new(alloc);
    for event in events {
        keep(&mut kept, &event)?;
        step_one(cluster, event)?;
    }
    Ok(kept)
}

// Adds a copy of an event.
fn keep(kept: &mut Vec<Event>, event: &Event) -> Result<(), NoMemory>
    ensures { OnOk result (kept.new.items ≡ kept.old.items ++ event.now ∷ []) }
{
    kept.push(event.clone()?)?;
    Ok(())
}

// Steps a cluster through the events, and adds the chosen lines of each event. After the last event, adds the closing
// lines.
fn push_events(
    alloc: Global,
    text: &mut String,
    view: &View,
    cluster: &mut Cluster,
    events: Events,
) -> Result<(), NoMemory>
    ensures { OnOk result (string_bytes text.new ≡ string_bytes text.old
        ++ events_text view.now [] cluster.old.members (trace_of cluster.old) 0 events) }
{
    let count = events.len();
    let mut place = 0usize;
    for event in events {
        prove!(place < count);
        tell(alloc, text, view, &[], cluster, place, event)?;
        place += 1;
    }
    push_closing(alloc, text, view, &[], cluster)
}

// Does the same for a view that chooses a command.
fn push_kept_events(
    alloc: Global,
    text: &mut String,
    view: &View,
    suggested: &[u32],
    cluster: &mut Cluster,
    events: Vec<Event>,
) -> Result<(), NoMemory>
    ensures { OnOk result (string_bytes text.new ≡ string_bytes text.old
        ++ events_text view.now suggested.now cluster.old.members (trace_of cluster.old) 0 events.items) }
{
    let count = events.len();
    let mut place = 0usize;
    for event in events {
        prove!(place < count);
        tell(alloc, text, view, suggested, cluster, place, event)?;
        place += 1;
    }
    push_closing(alloc, text, view, suggested, cluster)
}
