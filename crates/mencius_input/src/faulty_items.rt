//! Finds the events and commands that have a fault.

ghost use Rattle.std.specs.Prelude.{◌≡◌, IfOk, None, Ok, Some, not, option_map, string_bytes};
ghost use Rattle.std.specs.Result.{result_err};
ghost use Rattle.serde_json.specs.Find.{as_str};
ghost use Rattle.serde_json.specs.View.{items_view, view};
ghost use Rattle.mencius_format.specs.Grammar.{command_of, is_command_within, event_of, is_event_within, may_stand_in, newest_version};
ghost use Rattle.mencius_format.specs.ValuesOrFaults.{value_or_fault};
ghost use Rattle.mencius_input.specs.Places.{first_item, is_fault, is_limit, is_shape, item_fault, item_version};
ghost use Rattle.mencius_format.specs.Words.{words};

use crate::kind::Kind;
use mencius_base::NoMemory;
use mencius_format::{
    FIRST_VERSION, command_version, event_version, may_stand_in, parse_command, parse_event,
};
use mencius_io::IoFault;
use serde_json::Value;
use std::alloc::Global;

/// Finds the first item that has the fault. Returns its index, from 0, and its text if it is a string.
pub(crate) fn first_item(
    alloc: Global,
    kind: Kind,
    version: u64,
    items: &[Value],
    fault: IoFault,
) -> Result<Option<(usize, Option<String>)>, NoMemory>
    ensures { IfOk result (λ o. option_map (λ x. (x.0, option_map string_bytes x.1)) o
        ≡ first_item kind fault version (items_view items.now)) }
{
    for (index, item) in items.iter().enumerate() {
        if has_fault(alloc, kind, version, item, fault)? {
            let text = text_of_item(alloc, item)?;
            return Ok(Some((index, text)));
        }
    }
    Ok(None)
}

// Returns whether an item has the fault.
fn has_fault(
    alloc: Global,
    kind: Kind,
    version: u64,
    item: &Value,
    fault: IoFault,
) -> Result<bool, NoMemory>
    ensures { IfOk result (λ x. x ≡ is_fault fault (item_fault kind version (view item.now))) }
{
    let found = fault_of_item(alloc, kind, version, item)?;
    Ok(is_fault(fault, found))
}

// Returns whether `found` is the fault. Only `BadShape` and `BadLimit` count.
fn is_fault(fault: IoFault, found: Option<IoFault>) -> bool
    ensures { result ≡ is_fault fault found }
{
    match found {
        Some(IoFault::BadShape) => is_shape(fault),
        Some(IoFault::BadLimit) => is_limit(fault),
        _ => false,
    }
}

/// Returns whether the fault is `BadShape`.
pub(crate) fn is_shape(fault: IoFault) -> bool
    ensures { result ≡ is_shape fault }
{
    matches!(fault, IoFault::BadShape)
}

/// Returns whether the fault is `BadLimit`.
pub(crate) fn is_limit(fault: IoFault) -> bool
    ensures { result ≡ is_limit fault }
{
    matches!(fault, IoFault::BadLimit)
}

// Returns the fault of an item in this version, if it has one.
fn fault_of_item(
    alloc: Global,
    kind: Kind,
    version: u64,
    item: &Value,
) -> Result<Option<IoFault>, NoMemory>
    ensures { IfOk result (λ o. o ≡ item_fault kind version (view item.now)) }
{
    if is_too_new(kind, version, item) {
        return Ok(Some(IoFault::BadShape));
    }
    newest_fault_of_item(alloc, kind, item)
}

// Returns whether this version does not allow an item.
fn is_too_new(kind: Kind, version: u64, item: &Value) -> bool
    ensures { result ≡ not (may_stand_in (item_version kind (view item.now)) version) }
{
    !may_stand_in(item_version(kind, item), version)
}

// Returns the lowest version that an item needs. Only the word of its operation decides this.
fn item_version(kind: Kind, item: &Value) -> u64
    ensures { result ≡ item_version kind (view item.now) }
{
    match (item.as_str(), kind) {
        (Some(text), Kind::Replay) => event_version(text),
        (Some(text), Kind::Run) => command_version(text),
        (None, _) => FIRST_VERSION,
    }
}

// Returns the fault of an item in the newest version, if it has one.
fn newest_fault_of_item(
    alloc: Global,
    kind: Kind,
    item: &Value,
) -> Result<Option<IoFault>, NoMemory>
    ensures { IfOk result (λ o. o ≡ item_fault kind newest_version (view item.now)) }
{
    match (item.as_str(), kind) {
        (Some(text), Kind::Replay) => fault_of_event(alloc, text),
        (Some(text), Kind::Run) => fault_of_command(alloc, text),
        (None, _) => Ok(Some(IoFault::BadShape)),
    }
}

// Returns the fault of an event in the newest version, if it has one.
fn fault_of_event(alloc: Global, text: &str) -> Result<Option<IoFault>, NoMemory>
    ensures { IfOk result (λ o.
        o ≡ result_err (value_or_fault is_event_within (event_of newest_version (words text.now)))) }
{
    match parse_event(alloc, text) {
        Ok(_) => Ok(None),
        Err(fault) => Ok(Some(fault.memory_apart()?)),
    }
}

// Returns the fault of a command in the newest version, if it has one.
fn fault_of_command(alloc: Global, text: &str) -> Result<Option<IoFault>, NoMemory>
    ensures { IfOk result (λ o.
        o ≡ result_err
        (value_or_fault is_command_within (command_of newest_version (words text.now)))) }
{
    match parse_command(alloc, text) {
        Ok(_) => Ok(None),
        Err(fault) => Ok(Some(fault.memory_apart()?)),
    }
}

// Returns the text of an item, if the item is a string.
fn text_of_item(alloc: Global, item: &Value) -> Result<Option<String>, NoMemory>
    ensures { IfOk result (λ o. option_map string_bytes o ≡ as_str (view item.now)) }
{
    match item.as_str() {
        Some(text) => Ok(Some(String::from_str(alloc, text)?)),
        None => Ok(None),
    }
}
