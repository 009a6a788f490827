//! Finds the place of a fault in a scenario.

ghost use Rattle.std.specs.Prelude.{◌≡◌, ◌&&◌, IfOk, None, Ok, Some, find, is_some, option_map, true};
ghost use Rattle.serde_json.specs.Find.{as_number, as_object};
ghost use Rattle.serde_json.specs.Read.{read};
ghost use Rattle.serde_json.specs.View.{items_view, view};
ghost use Rattle.mencius_input.specs.FieldsOf.{field_number, fields};
ghost use Rattle.mencius_input.specs.declared.field.Field.TheVariants.{Servers};
ghost use Rattle.mencius_input.specs.Places.{count_place, field_named, field_place, first_in, first_item, first_of, first_place, is_great_number, is_lacking, is_limit, is_shape, items_place, lack_place, list_field_place, list_place, names_in, not_whole, number_place, place_in, place_state, version_in};

use crate::faulty_items::{first_item, is_limit, is_shape};
use crate::field::{Field, list_field, whole_fields};
use crate::kind::Kind;
use json::{Reader, Scratch};
use mencius_base::NoMemory;
use mencius_format::NEWEST_VERSION;
use mencius_io::IoFault;
use mencius_json::{MOST_DEPTH, pass, tree_of};
use serde_json::Value;
use std::alloc::Global;

/// A place where a scenario has a fault.
#[derive(Debug, Drop, PartialEq, Eq)]
pub enum Place {
    /// The whole value, which is not an object.
    NoObject,
    /// A field that no scenario of the kind has.
    Unknown {
        name: String,
    },
    /// A field that is missing.
    Missing {
        field: Field,
    },
    /// A field that is not a whole number, or is past its limits.
    Number {
        field: Field,
    },
    /// A field with a number that is too great to be read as a whole number.
    GreatNumber {
        field: Field,
    },
    /// A field that is not a list.
    NoList {
        field: Field,
    },
    /// An event. `index` counts from 0, and `version` is the version that the event is judged by. `text` is the text of
    /// the event, or `None` if it is not a string.
    Event {
        index: usize,
        version: u64,
        text: Option<String>,
    },
    /// An item of the commands that is not a list. `list` is its index, from 0.
    NoSublist {
        list: usize,
    },
    /// A command. `list` is the index of its list, and `index` is its index there, both from 0. `version` is the
    /// version that the command is judged by. `text` is the text of the command, or `None` if it is not a string.
    Command {
        list: usize,
        index: usize,
        version: u64,
        text: Option<String>,
    },
    /// The commands, if they are `count` lists and not one list for each of the servers.
    Lists {
        count: usize,
        servers: u64,
    },
}

// Returns the whole number of a field, or its default if the field is missing.
#[tactic(auto, unfolding(crate::specs::FieldsOf::field_number))]
fn said_number(scenario: &Value, field: Field) -> Option<u64>
    ensures { result ≡ field_number field (view scenario.now) }
{
    match scenario.get(field.name()) {
        Some(value) => value.as_u64(),
        None => field.default(),
    }
}

// Returns the version that events and commands are judged by. It is the version of the scenario, or the newest version
// if the scenario has not a whole number as its version.
fn version_in(scenario: &Value) -> u64
    ensures { result ≡ version_in (view scenario.now) }
{
    said_number(scenario, Field::Version).unwrap_or(NEWEST_VERSION)
}

// Finds the place of the fault in an item of the commands.
fn place_in_list(
    alloc: Global,
    version: u64,
    list: usize,
    value: &Value,
    fault: IoFault,
) -> Result<Option<Place>, NoMemory>
    ensures { IfOk result (λ o. option_map place_state o
        ≡ list_place fault version list (view value.now)) }
{
    let Some(items) = value.as_array() else {
        if is_shape(fault) {
            return Ok(Some(Place::NoSublist { list }));
        }
        return Ok(None);
    };
    match first_item(alloc, Kind::Run, version, items.as_slice(), fault)? {
        Some((index, text)) => Ok(Some(Place::Command {
            list,
            index,
            version,
            text,
        })),
        None => Ok(None),
    }
}

// Finds the first place of the fault in the lists of commands.
fn first_in_lists(
    alloc: Global,
    version: u64,
    lists: &[Value],
    fault: IoFault,
) -> Result<Option<Place>, NoMemory>
    ensures { IfOk result (λ o. option_map place_state o
        ≡ first_of (list_place fault version) 0 (items_view lists.now)) }
{
    for (list, value) in lists.iter().enumerate() {
        let place = place_in_list(alloc, version, list, value, fault)?;
        if place.is_some() {
            return Ok(place);
        }
    }
    Ok(None)
}

// Returns the commands as the place of a `BadLimit` if they are not one list for each server. The number of servers
// must be within its limits.
fn lists_amiss(scenario: &Value, count: usize, fault: IoFault) -> Option<Place>
    ensures { option_map place_state result
        ≡ count_place fault count (field_number Servers (view scenario.now)) }
{
    let servers = said_number(scenario, Field::Servers)?;
    if is_limit(fault) && Field::Servers.is_within(servers) && count as u64 != servers {
        return Some(Place::Lists { count, servers });
    }
    None
}

// Finds the place of the fault in the commands of a run.
fn place_in_commands(
    alloc: Global,
    scenario: &Value,
    lists: &[Value],
    fault: IoFault,
) -> Result<Option<Place>, NoMemory>
    ensures { IfOk result (λ o. option_map place_state o
        ≡ items_place Kind.Run fault (view scenario.now) (items_view lists.now)) }
{
    let place = first_in_lists(alloc, version_in(scenario), lists, fault)?;
    if place.is_some() {
        return Ok(place);
    }
    Ok(lists_amiss(scenario, lists.len(), fault))
}

// Finds the place of the fault in the events of a schedule.
fn place_in_events(
    alloc: Global,
    scenario: &Value,
    events: &[Value],
    fault: IoFault,
) -> Result<Option<Place>, NoMemory>
    ensures { IfOk result (λ o. option_map place_state o
        ≡ items_place Kind.Replay fault (view scenario.now) (items_view events.now)) }
{
    let version = version_in(scenario);
    match first_item(alloc, Kind::Replay, version, events, fault)? {
        Some((index, text)) => Ok(Some(Place::Event {
            index,
            version,
            text,
        })),
        None => Ok(None),
    }
}

// Finds the place of the fault in the field that is a list.
fn place_in_list_field(
    alloc: Global,
    kind: Kind,
    scenario: &Value,
    fault: IoFault,
) -> Result<Option<Place>, NoMemory>
    ensures { IfOk result (λ o. option_map place_state o
        ≡ list_field_place kind fault (view scenario.now)) }
{
    let field = list_field(kind);
    let Some(value) = scenario.get(field.name()) else {
        return Ok(None);
    };
    let Some(items) = value.as_array() else {
        if is_shape(fault) {
            return Ok(Some(Place::NoList { field }));
        }
        return Ok(None);
    };
    match kind {
        Kind::Replay => place_in_events(alloc, scenario, items.as_slice(), fault),
        Kind::Run => place_in_commands(alloc, scenario, items.as_slice(), fault),
    }
}

// Returns whether a value is a number too great to be read as a whole number. A fraction just below 2 to the 64th is
// too great if it rounds to that power.
fn is_great(value: &Value) -> bool
    ensures { result ≡ is_great_number (as_number (view value.now)) }
{
    match value.as_number() {
        Some(number) => match number.as_u64() {
            Some(_) => false,
            None => number.as_f64().unwrap_or(0.0) >= 18_446_744_073_709_551_616.0,
        },
        None => false,
    }
}

// Returns the place of a field that is not a whole number.
fn not_whole(field: Field, value: &Value) -> Place
    ensures { place_state result ≡ not_whole field (view value.now) }
{
    if is_great(value) {
        Place::GreatNumber { field }
    } else {
        Place::Number { field }
    }
}

// Finds the place of the fault in a field that should be a whole number.
fn place_in_number(scenario: &Value, field: Field, fault: IoFault) -> Option<Place>
    ensures { option_map place_state result ≡ number_place fault field (view scenario.now) }
{
    let value = scenario.get(field.name())?;
    match value.as_u64() {
        None => {
            if is_shape(fault) {
                return Some(not_whole(field, value));
            }
            None
        }
        Some(number) => {
            if is_limit(fault) && !field.is_within(number) {
                return Some(Place::Number { field });
            }
            None
        }
    }
}

// Returns the field of a kind that is a whole number and has this name.
fn field_named(kind: Kind, name: &str) -> Option<Field>
    ensures { result ≡ field_named kind name.now }
{
    for field in whole_fields(kind) {
        if name == field.name() {
            return Some(*field);
        }
    }
    None
}

// Finds the place of the fault in the field with this name. `in_list` is the place of the fault in the field that is a
// list. It is returned when the name of that field first comes. So the list is examined only once, even if its field is
// written several times.
fn place_named(
    alloc: Global,
    kind: Kind,
    in_list: &mut Option<Place>,
    scenario: &Value,
    name: &str,
    fault: IoFault,
) -> Result<Option<Place>, NoMemory>
    requires { option_map place_state in_list.old ≡ list_field_place kind fault (view scenario.now) }
    ensures place { IfOk result (λ o. option_map place_state o
        ≡ field_place kind fault (view scenario.now) name.now) }
    ensures kept { result ≡ Ok None → in_list.new ≡ in_list.old }
{
    match field_named(kind, name) {
        Some(field) => Ok(place_in_number(scenario, field, fault)),
        None => {
            if name == list_field(kind).name() {
                return Ok(in_list.take());
            }
            if is_shape(fault) {
                let name = String::from_str(alloc, name)?;
                return Ok(Some(Place::Unknown { name }));
            }
            Ok(None)
        }
    }
}

// Finds the first place of the fault in the fields, in the order of the text.
fn first_in_fields(
    alloc: Global,
    kind: Kind,
    text: &str,
    scenario: &Value,
    fault: IoFault,
) -> Result<Option<Place>, NoMemory>
    requires of { read text.now ≡ Some (view scenario.now) }
    requires object { is_some (as_object (view scenario.now)) ≡ true }
    ensures { IfOk result (λ o. option_map place_state o
        ≡ first_in kind fault (view scenario.now) (names_in text.now)) }
{
    let mut scratch = Scratch::new(alloc);
    let mut reader = Reader::new(text, &mut scratch)?;
    let _brace = reader.next();
    let mut in_list = place_in_list_field(alloc, kind, scenario, fault)?;
    'fields: while let Ok(Some(name)) = reader.next_key() {
        let place = place_named(alloc, kind, &mut in_list, scenario, name, fault)?;
        if place.is_some() {
            return Ok(place);
        }
        if pass(&mut reader, MOST_DEPTH - 1).is_err() {
            return Ok(None);
        }
    }
    Ok(None)
}

// Returns whether a field must be present, but is missing.
fn is_lacking(scenario: &Value, field: Field) -> bool
    ensures { result ≡ is_lacking (view scenario.now) field }
{
    field.default().is_none() && scenario.get(field.name()).is_none()
}

// Returns the first field that must be present, but is missing.
fn first_lack(kind: Kind, scenario: &Value) -> Option<Field>
    ensures { result ≡ find (is_lacking (view scenario.now)) (fields kind) }
{
    for field in whole_fields(kind) {
        if is_lacking(scenario, *field) {
            return Some(*field);
        }
    }
    let list = list_field(kind);
    if is_lacking(scenario, list) {
        return Some(list);
    }
    None
}

// Returns the first field that must be present, but is missing, as the place of a `BadShape`.
fn lack_in(kind: Kind, scenario: &Value, fault: IoFault) -> Option<Place>
    ensures { option_map place_state result ≡ lack_place kind fault (view scenario.now) }
{
    if !is_shape(fault) {
        return None;
    }
    let field = first_lack(kind, scenario)?;
    Some(Place::Missing { field })
}

// Finds the first place of the fault in a text, which must be JSON. `scenario` is the value of the text.
fn place_in(
    alloc: Global,
    kind: Kind,
    text: &str,
    scenario: &Value,
    fault: IoFault,
) -> Result<Option<Place>, NoMemory>
    requires { read text.now ≡ Some (view scenario.now) }
    ensures { IfOk result (λ o. option_map place_state o
        ≡ place_in kind fault (names_in text.now) (view scenario.now)) }
{
    if scenario.as_object().is_none() {
        if is_shape(fault) {
            return Ok(Some(Place::NoObject));
        }
        return Ok(None);
    }
    let place = first_in_fields(alloc, kind, text, scenario, fault)?;
    if place.is_some() {
        return Ok(place);
    }
    Ok(lack_in(kind, scenario, fault))
}

/// Finds the first place in a text that has the fault `BadShape` or `BadLimit`. The text is read as a scenario of the
/// kind. Places come in the order of the text, and a missing field comes last. Returns `None` if no place of the text
/// has the fault.
///
/// # Errors
///
/// `NoMemory` if memory ran out.
pub fn place_of(
    alloc: Global,
    kind: Kind,
    bytes: &[u8],
    fault: IoFault,
) -> Result<Option<Place>, NoMemory>
    ensures { IfOk result (λ o. option_map place_state o ≡ first_place kind fault bytes.now) }
{
    let Ok(text) = std::str::from_utf8(bytes) else {
        return Ok(None);
    };
    match tree_of(alloc, text)? {
        Some(scenario) => place_in(alloc, kind, text, &scenario, fault),
        None => Ok(None),
    }
}
