//! Reads the fields of a scenario's object, one after another.

ghost use Rattle.std.specs.Prelude.{◌≡◌, ◌<◌, IfErr, IfOk, OnOk, Some, length, map};
ghost use Rattle.serde_json.specs.Data.{Data, Members, put};
ghost use Rattle.serde_json.specs.Read.{max_depth, read};
ghost use Rattle.mencius_input.specs.FieldValues.{AreAll, AreFieldValues, IsUnread, list_kept, list_said};
ghost use Rattle.mencius_input.specs.FieldsOf.{default_of, whole_fields};
ghost use Rattle.mencius_json.specs.Next.{next_members, next_value};
ghost use Rattle.mencius_input.specs.Scenario.{json_of};
ghost use Rattle.mencius_input.specs.Stops.{StopsBy};

use crate::commands::next_lists;
use crate::events::Events;
use crate::field::{index_of_name, list_field, whole_fields};
use crate::kind::Kind;
use crate::newest::Newest;
use crate::schedule::next_events;
use json::{Reader, Scratch};
use mencius_base::{Command, NoMemory};
use mencius_io::IoFault;
use mencius_json::{MOST_DEPTH, enter_object, next_whole, pass};
use std::alloc::Global;

/// The values of the fields that were read. If a field was written twice, its last value counts.
#[derive(Drop)]
pub(crate) struct FieldValues {
    /// The number of each field that must be a whole number, if it has one, in the order of the table.
    pub wholes: Vec<Option<u64>>,
    /// The content of the field that is a list, if this field was read.
    pub list: Option<KeptList>,
    /// Whether there is a field that no scenario of the kind has.
    pub has_other: bool,
}

/// The content of the list of a scenario.
#[derive(Drop)]
pub(crate) enum KeptList {
    Events(Newest<Events>),
    Commands(Newest<Vec<Vec<Command>>>),
}

// Returns the numbers of the fields before any field was read.
fn defaults(alloc: Global, kind: Kind) -> Result<Vec<Option<u64>>, NoMemory>
    ensures { IfOk result (λ wholes. wholes.items ≡ map default_of (whole_fields kind)) }
{
    let mut wholes = Vec::new(alloc);
    for field in whole_fields(kind) {
        wholes.push(field.default())?;
    }
    Ok(wholes)
}

/// Reads bytes as a scenario of the kind and returns its fields. Fails with `NotJson` if the bytes are not JSON. Fails
/// with `BadShape` if their value is not an object, or has a field that no scenario of the kind has.
#[tactic(auto, using(crate::proofs::JsonTexts::utf8_yes, crate::proofs::JsonTexts::utf8_no))]
pub(crate) fn read_fields(alloc: Global, kind: Kind, bytes: &[u8]) -> Result<FieldValues, IoFault>
    ensures ok { IfOk result (λ f. AreAll kind f (json_of bytes.now)) }
    ensures err { IfErr result (IsUnread kind (json_of bytes.now)) }
{
    match std::str::from_utf8(bytes) {
        Ok(text) => read_text(alloc, kind, text),
        Err(_) => Err(IoFault::NotJson),
    }
}

// Reads a text as a scenario of the kind and returns its fields.
fn read_text(alloc: Global, kind: Kind, text: &str) -> Result<FieldValues, IoFault>
    ensures ok { IfOk result (λ f. AreAll kind f (read text.now)) }
    ensures err { IfErr result (IsUnread kind (read text.now)) }
{
    let mut scratch = Scratch::new(alloc);
    let mut reader = Reader::new(text, &mut scratch)?;
    let fields = next_scenario(alloc, kind, &mut reader)?;
    if reader.next().is_some() {
        return Err(IoFault::NotJson);
    }
    fields
}

// Reads the next value as a scenario of the kind. The inner result contains its fields or its fault. The outer result
// fails only if no value comes next or memory ran out.
fn next_scenario(
    alloc: Global,
    kind: Kind,
    reader: &mut Reader<'_>,
) -> Result<Result<FieldValues, IoFault>, IoFault>
    ensures ok { IfOk result (λ r. (d : Data)
        × (next_value max_depth reader.old ≡ Some (d, reader.new))
        × IfOk r (λ f. AreAll kind f (Some d)) × IfErr r (IsUnread kind (Some d))) }
    ensures err { IfErr result (λ f. StopsBy (next_value max_depth reader.old) f) }
{
    if enter_object(reader, MOST_DEPTH)? {
        let fields = next_fields(alloc, kind, reader, MOST_DEPTH - 1)?;
        if fields.has_other {
            return Ok(Err(IoFault::BadShape));
        }
        Ok(Ok(fields))
    } else {
        Ok(Err(IoFault::BadShape))
    }
}

// Reads the fields of an object that is meant as a scenario of the kind. Its opening brace was read already.
fn next_fields(
    alloc: Global,
    kind: Kind,
    reader: &mut Reader<'_>,
    depth: usize,
) -> Result<FieldValues, IoFault>
    requires { 1 < depth }
    ensures ok { IfOk result
        (λ f. (ms : Members) × (next_members depth reader.old ≡ Some (ms, reader.new))
        × AreFieldValues kind f ms) }
    ensures err { IfErr result (λ f. StopsBy (next_members depth reader.old) f) }
{
    let wholes = defaults(alloc, kind)?;
    let mut fields = FieldValues {
        wholes,
        list: None,
        has_other: false,
    };
    'fields: while let Some(name) = reader.next_key()? {
        read_field(alloc, kind, reader, depth, &mut fields, name)?;
    }
    Ok(fields)
}

// Reads the value of the field with this name into `fields`.
fn read_field(
    alloc: Global,
    kind: Kind,
    reader: &mut Reader<'_>,
    depth: usize,
    fields: &mut FieldValues,
    name: &str,
) -> Result<(), IoFault>
    requires depth { 1 < depth }
    requires known { (ms : Members) × AreFieldValues kind fields.old ms }
    ensures ok { OnOk result ((d : Data) × (next_value depth reader.old ≡ Some (d, reader.new))
        × ((ms : Members) → AreFieldValues kind fields.old ms
        → AreFieldValues kind fields.new (put name.now d ms))) }
    ensures shorter { OnOk result (length reader.new < length reader.old) }
    ensures err { IfErr result (λ f. StopsBy (next_value depth reader.old) f) }
{
    match index_of_name(kind, name) {
        Some(index) => {
            let whole = next_whole(reader, depth)?;
            fields.wholes[index] = whole;
        }
        None => {
            if name == list_field(kind).name() {
                // The content of an earlier field with this name is dropped first, so that only one list uses memory.
                fields.list = None;
                let kept = next_list(alloc, kind, reader, depth)?;
                fields.list = Some(kept);
            } else {
                pass(reader, depth)?;
                fields.has_other = true;
            }
        }
    }
    Ok(())
}

// Reads the next value as the list of a scenario of the kind.
fn next_list(
    alloc: Global,
    kind: Kind,
    reader: &mut Reader<'_>,
    depth: usize,
) -> Result<KeptList, IoFault>
    requires { 1 < depth }
    ensures ok { IfOk result (λ r. (d : Data) × (next_value depth reader.old ≡ Some (d, reader.new))
        × (list_kept r ≡ list_said kind d)) }
    ensures shorter { OnOk result (length reader.new < length reader.old) }
    ensures err { IfErr result (λ f. StopsBy (next_value depth reader.old) f) }
{
    match kind {
        Kind::Replay => {
            let events = next_events(alloc, reader, depth)?;
            Ok(KeptList::Events(events))
        }
        Kind::Run => {
            let commands = next_lists(alloc, reader, depth)?;
            Ok(KeptList::Commands(commands))
        }
    }
}
