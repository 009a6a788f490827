//! The lines of an event.

ghost use Rattle.std.specs.Prelude.{◌≡◌, ◌≢◌, ◌∷◌, ◌++◌, [], OnOk, string_bytes};
ghost use Rattle.std.specs.List.{flat_map, list_any};
ghost use Rattle.std.specs.Result.{result_unwrap_or};
ghost use Rattle.mencius_base.specs.declared.refusal.Refusal.TheVariants.{NoMemory as Unreserved};
ghost use Rattle.mencius_cluster.specs.State.{trace_of};
ghost use Rattle.mencius_model.specs.Next.{next};
ghost use Rattle.mencius_trace.specs.Choice.{concerns};
ghost use Rattle.mencius_trace.specs.Effects.{outcome_facts};
ghost use Rattle.mencius_trace.specs.EventLines.{chosen_line, chosen_lines, event_lines, event_start, fact_rest, is_refusal, line_start};

use crate::before::note;
use crate::effects::push_effects;
use crate::fact::{Fact, push_fact};
use crate::facts::{push_event_line, push_fact_line};
use crate::json::{push_event_json, push_fact_json};
use crate::view::{View, concerns, concerns_event, is_filtered};
use mencius_base::{Event, NoMemory, Refusal};
use mencius_cluster::Cluster;
use std::alloc::{AllocError, Global};

/// Steps a cluster by the event at `place`. Adds the event, and its effects or its refusal, to a text, in the form of
/// the view. If the view chooses a command, `suggested` has the instances that the command was suggested for.
pub fn tell(
    alloc: Global,
    text: &mut String,
    view: &View,
    suggested: &[u32],
    cluster: &mut Cluster,
    place: usize,
    event: Event,
) -> Result<(), NoMemory>
    ensures text { OnOk result (string_bytes text.new ≡ string_bytes text.old
        ++ event_lines view.now suggested.now cluster.old.members (trace_of cluster.old) place event) }
    ensures trace { OnOk result (trace_of cluster.new
        ≡ result_unwrap_or (next cluster.old.members (trace_of cluster.old) event) (trace_of cluster.old)) }
    ensures members { OnOk result (cluster.new.members ≡ cluster.old.members) }
    ensures hasher { OnOk result (cluster.new.hasher ≡ cluster.old.hasher) }
{
    let mut start = String::new(alloc);
    push_event_start(&mut start, view, place, &event)?;
    let is_named = concerns_event(view, suggested, cluster, &event);
    let mut facts = Vec::new(alloc);
    step(alloc, &mut facts, cluster, event)?;
    push_chosen_lines(
        text,
        view,
        suggested,
        cluster,
        place,
        is_named,
        start.as_str(),
        facts.as_slice(),
    )?;
    Ok(())
}

fn push_event_start(
    text: &mut String,
    view: &View,
    place: usize,
    event: &Event,
) -> Result<(), AllocError>
    ensures { OnOk result (string_bytes text.new
        ≡ string_bytes text.old ++ event_start view.now place event.now) }
{
    if view.is_json {
        push_event_json(text, place, event)
    } else {
        push_event_line(text, place, event)
    }
}

// Steps a cluster by an event, and adds the facts about its effects or its refusal.
fn step(
    alloc: Global,
    facts: &mut Vec<Fact>,
    cluster: &mut Cluster,
    event: Event,
) -> Result<(), NoMemory>
    ensures facts { OnOk result (facts.new.items ≡ facts.old.items
        ++ outcome_facts cluster.old.members (trace_of cluster.old) event
        (next cluster.old.members (trace_of cluster.old) event)) }
    ensures trace { OnOk result (trace_of cluster.new
        ≡ result_unwrap_or (next cluster.old.members (trace_of cluster.old) event) (trace_of cluster.old)) }
    ensures members { OnOk result (cluster.new.members ≡ cluster.old.members) }
    ensures hasher { OnOk result (cluster.new.hasher ≡ cluster.old.hasher) }
{
    let before = note(alloc, cluster, &event)?;
    match cluster.step(event) {
        Ok(effect) => push_effects(facts, cluster, &before, effect),
        Err(refusal) => push_refusal(facts, refusal),
    }
}

fn push_refusal(facts: &mut Vec<Fact>, refusal: Refusal) -> Result<(), NoMemory>
    ensures facts { OnOk result (facts.new.items ≡ facts.old.items ++ Fact.Refused refusal ∷ []) }
    ensures other { OnOk result (refusal ≢ Unreserved) }
{
    push_fact(facts, Fact::Refused(refusal.memory_apart()?))?;
    Ok(())
}

// Adds the line of an event and the chosen facts about it, unless neither the event nor a fact is chosen.
fn push_chosen_lines(
    text: &mut String,
    view: &View,
    suggested: &[u32],
    cluster: &Cluster,
    place: usize,
    is_named: bool,
    start: &str,
    facts: &[Fact],
) -> Result<(), AllocError>
    ensures { OnOk result (string_bytes text.new ≡ string_bytes text.old ++ chosen_lines view.now suggested.now
        cluster.now.members (trace_of cluster.now) place is_named start.now facts.now) }
{
    if is_named || concerns_any(view, suggested, cluster, facts) {
        text.push_str(start)?;
        return push_facts(text, view, suggested, cluster, place, facts);
    }
    Ok(())
}

fn concerns_any(view: &View, suggested: &[u32], cluster: &Cluster, facts: &[Fact]) -> bool
    ensures { result ≡ list_any
        (concerns view.now suggested.now cluster.now.members (trace_of cluster.now)) facts.now }
{
    let mut rest = facts;
    while let Some((fact, after)) = rest.split_first() {
        if concerns(view, suggested, cluster, fact) {
            return true;
        }
        rest = after;
    }
    false
}

fn push_facts(
    text: &mut String,
    view: &View,
    suggested: &[u32],
    cluster: &Cluster,
    place: usize,
    facts: &[Fact],
) -> Result<(), AllocError>
    ensures { OnOk result (string_bytes text.new ≡ string_bytes text.old
        ++ flat_map (chosen_line view.now suggested.now cluster.now.members (trace_of cluster.now) place) facts.now) }
{
    for fact in facts {
        push_where_chosen(text, view, suggested, cluster, place, fact)?;
    }
    Ok(())
}

fn push_where_chosen(
    text: &mut String,
    view: &View,
    suggested: &[u32],
    cluster: &Cluster,
    place: usize,
    fact: &Fact,
) -> Result<(), AllocError>
    ensures { OnOk result (string_bytes text.new ≡ string_bytes text.old
        ++ chosen_line view.now suggested.now cluster.now.members (trace_of cluster.now) place fact.now) }
{
    if is_refusal(fact) || concerns(view, suggested, cluster, fact) {
        push_line_start(text, view, place)?;
        return push_fact_rest(text, view, cluster, fact);
    }
    Ok(())
}

fn is_refusal(fact: &Fact) -> bool
    ensures { result ≡ is_refusal fact.now }
{
    matches!(fact, Fact::Refused(_))
}

fn push_line_start(text: &mut String, view: &View, place: usize) -> Result<(), AllocError>
    ensures { OnOk result (string_bytes text.new ≡ string_bytes text.old ++ line_start view.now place) }
{
    if view.is_json {
        return write!(text, "{{\"event\":{place},");
    }
    if is_filtered(view) {
        return write!(text, "event {place} ");
    }
    Ok(())
}

/// Adds a fact in the form of the view, after the start of its line.
pub(crate) fn push_fact_rest(
    text: &mut String,
    view: &View,
    cluster: &Cluster,
    fact: &Fact,
) -> Result<(), AllocError>
    ensures { OnOk result (string_bytes text.new
        ≡ string_bytes text.old ++ fact_rest view.now (trace_of cluster.now) fact.now) }
{
    if view.is_json {
        push_fact_json(text, cluster, *fact)?;
        return text.push_str("}\n");
    }
    push_fact_line(text, cluster, *fact)
}
