//! Configurations with different states.

ghost use Rattle.std.specs.Prelude.{◌≡◌, ◌+◌, ◌⊎◌, ℕ, IfOk, IsTrue, OnOk, Some, length, slice_get};
ghost use Rattle.std.specs.declared.cmp.Ordering.TheVariants.{Less};
ghost use Rattle.mencius_clients.specs.declared.configuration.Configuration.{Configuration};
ghost use Rattle.mencius_clients.specs.Configurations.{IsOneOf, text_at};
ghost use Rattle.mencius_clients.specs.States.{AreRising, HasManyIn, Precedes, text_cmp};

use crate::configuration::Configuration;
use crate::texts::{is_same_text_at, text_at};
use crate::work::configuration_at;
use mencius_base::NoMemory;
use mencius_log::Observation;
use std::alloc::Global;
use std::cmp::Ordering;

/// Returns whether a search that goes on at this place must be given up. It must if `limit` places come before this one,
/// and at least `limit` of the configurations have different states.
pub fn is_given_up(
    alloc: Global,
    log: &[Observation],
    configurations: &[Configuration],
    place: usize,
    limit: usize,
) -> Result<bool, NoMemory>
    ensures { IfOk result (λ ends. IsTrue ends → HasManyIn log.now configurations.now limit) }
{
    if place < limit {
        return Ok(false);
    }
    has_many(alloc, log, configurations, limit)
}

// Returns whether at least `most` of the configurations have different states. It sorts them by their states, and counts
// those whose state comes after the ones before.
fn has_many(
    alloc: Global,
    log: &[Observation],
    configurations: &[Configuration],
    most: usize,
) -> Result<bool, NoMemory>
    ensures { IfOk result (λ many. IsTrue many → HasManyIn log.now configurations.now most) }
{
    let places = sorted_places(alloc, log, configurations)?;
    let mut rising = Vec::new(alloc);
    for place in &places {
        push_at(log, configurations, *place, &mut rising)?;
    }
    Ok(rising.len() >= most)
}

// Returns the places of configurations, sorted by their states.
fn sorted_places(
    alloc: Global,
    log: &[Observation],
    configurations: &[Configuration],
) -> Result<Vec<usize>, NoMemory> {
    let mut places = Vec::new(alloc);
    for place in 0..configurations.len() {
        places.push(place)?;
    }
    places.sort_unstable_by(|place, other| order_at(log, configurations, *place, *other));
    Ok(places)
}

// Returns how the configurations at two places compare.
fn order_at(
    log: &[Observation],
    configurations: &[Configuration],
    place: usize,
    other: usize,
) -> Ordering {
    match (configurations.get(place), configurations.get(other)) {
        (Some(one), Some(two)) => order(log, one, two),
        _ => place.cmp(&other),
    }
}

fn order(log: &[Observation], one: &Configuration, two: &Configuration) -> Ordering {
    if precedes(log, one, two) {
        return Ordering::Less;
    }
    if precedes(log, two, one) {
        return Ordering::Greater;
    }
    Ordering::Equal
}

// Appends the configuration at a place if its state comes after that of the last one.
fn push_at(
    log: &[Observation],
    configurations: &[Configuration],
    place: usize,
    rising: &mut Vec<Configuration>,
) -> Result<(), NoMemory>
    ensures rising { OnOk result (AreRising log.now rising.old.items → AreRising log.now rising.new.items) }
    ensures within { OnOk result ((d : Configuration) → IsOneOf rising.new.items d
        → IsOneOf rising.old.items d ⊎ IsOneOf configurations.now d) }
{
    let Some(next) = configuration_at(configurations, place) else {
        return Ok(());
    };
    if !comes_after(log, rising.as_slice(), &next) {
        return Ok(());
    }
    rising.push(next)?;
    Ok(())
}

// Returns whether the state of a configuration comes after that of the last one of a list.
fn comes_after(log: &[Observation], rising: &[Configuration], next: &Configuration) -> bool
    ensures { IsTrue result → (n : ℕ) (c : Configuration) → n + 1 ≡ length rising.now
        → slice_get rising.now n ≡ Some c → Precedes log.now c next.now }
{
    if rising.is_empty() {
        return true;
    }
    match configuration_at(rising, rising.len() - 1) {
        Some(last) => precedes(log, &last, next),
        None => false,
    }
}

// Returns whether the state of the first configuration comes before that of the second one.
fn precedes(log: &[Observation], one: &Configuration, two: &Configuration) -> bool
    ensures { IsTrue result → Precedes log.now one.now two.now }
{
    if !is_same_text_at(log, one.text, two.text) {
        return text_precedes(log, one.text, two.text);
    }
    if one.unseen != two.unseen {
        return two.unseen;
    }
    one.done.has_next(&two.done)
}

// Returns whether the text with a number comes before the one with another number.
fn text_precedes(log: &[Observation], number: usize, other: usize) -> bool
    ensures { IsTrue result → text_cmp (text_at log.now number) (text_at log.now other) ≡ Less }
{
    match (text_at(log, number), text_at(log, other)) {
        (Some(text), Some(other)) => text.as_str().cmp(other.as_str()).is_lt(),
        (None, Some(_)) => true,
        _ => false,
    }
}
