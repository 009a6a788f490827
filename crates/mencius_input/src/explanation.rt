//! Says in words where a scenario is wrong.

ghost use Rattle.std.specs.Prelude.{◌≡◌, ◌∷◌, ◌++◌, IfOk, OnOk, codes, decimal, option_map, string_bytes};
ghost use Rattle.mencius_format.specs.Shown.{shown_text};
ghost use Rattle.mencius_input.specs.Places.{place_state};
ghost use Rattle.mencius_input.specs.Explanations.{Explains, ExplainsItem, ExplainsPlace, ExplainsUnread, IsPlaced, counts_words, crowd_words, field_words, kind_name, limit_words, number_words, range_words, unknown_words, unplaced_words};

use crate::field::{Field, Shape, list_field, whole_fields};
use crate::kind::Kind;
use crate::places::{Place, place_of};
use crate::wrong::wrong_item;
use mencius_base::NoMemory;
use mencius_format::shown;
use mencius_io::IoFault;
use mencius_json::{Crowd, crowd_in, stop_in};
use std::alloc::Global;

// Describes a number that is out of a range.
fn range_words(alloc: Global, least: u64, greatest: u64) -> Result<String, NoMemory>
    ensures { IfOk result (λ s. string_bytes s ≡ range_words least greatest) }
{
    if greatest > least && greatest - least == 1 {
        Ok(format!(in alloc; "not {least} or {greatest}")?)
    } else {
        Ok(format!(in alloc; "not {least} to {greatest}")?)
    }
}

// Describes a number that is out of the limits of a field.
#[tactic(auto, unfolding(crate::specs::Explanations::limit_words))]
fn limit_words(alloc: Global, field: Field) -> Result<String, NoMemory>
    ensures { IfOk result (λ s. string_bytes s ≡ limit_words field) }
{
    match field.shape() {
        Shape::Whole {
            least,
            greatest,
            ..
        } => range_words(alloc, least, greatest),
        Shape::List => Ok(String::from_str(alloc, "not a list")?),
    }
}

// Describes the problem with a field that should be a whole number.
fn number_words(alloc: Global, field: Field, fault: IoFault) -> Result<String, NoMemory>
    ensures { IfOk result (λ s. string_bytes s ≡ number_words fault field) }
{
    match fault {
        IoFault::BadShape => Ok(String::from_str(alloc, "not a whole number")?),
        _ => limit_words(alloc, field),
    }
}

// Returns the name of a kind of scenario.
fn kind_name(kind: Kind) -> &'static str
    ensures { result.now ≡ kind_name kind }
{
    match kind {
        Kind::Replay => "replay",
        Kind::Run => "run",
    }
}

// Appends the names of all fields of the kind, to follow the name of an unknown field.
fn push_unknown(words: &mut String, kind: Kind) -> Result<(), NoMemory>
    ensures { OnOk result (string_bytes words.new ≡ string_bytes words.old ++ unknown_words kind) }
{
    words.push_str(" is no field: a scenario of ")?;
    words.push_str(kind_name(kind))?;
    words.push_str(" has version")?;
    for field in &whole_fields(kind)[1..] {
        words.push_str(", ")?;
        words.push_str(field.name())?;
    }
    words.push_str(" and ")?;
    words.push_str(list_field(kind).name())?;
    Ok(())
}

// Returns the words about a field that a scenario has.
fn of_field(alloc: Global, field: Field, said: &str) -> Result<String, NoMemory>
    ensures { IfOk result (λ s. string_bytes s ≡ field_words field said.now) }
{
    let name = field.name();
    Ok(format!(in alloc; "the field \"{name}\" is {said}")?)
}

// Returns the words about a field that no scenario of the kind has.
fn of_unknown(alloc: Global, kind: Kind, name: &str) -> Result<String, NoMemory>
    ensures { IfOk result (λ s. string_bytes s ≡ shown_text name.now ++ unknown_words kind) }
{
    let mut words = shown(alloc, name)?;
    push_unknown(&mut words, kind)?;
    Ok(words)
}

// Returns a text in quotes, followed by the words about it.
fn of_text(alloc: Global, text: &str, said: &str) -> Result<String, NoMemory>
    ensures { IfOk result (λ s. string_bytes s ≡ shown_text text.now ++ 58 ∷ 32 ∷ said.now) }
{
    let text = shown(alloc, text)?;
    Ok(format!(in alloc; "{text}: {said}")?)
}

// Returns the words about an event or a command.
fn of_item(
    alloc: Global,
    kind: Kind,
    version: u64,
    text: &Option<String>,
    fault: IoFault,
) -> Result<String, NoMemory>
    ensures { IfOk result (λ s. ExplainsItem (option_map string_bytes text.now) (string_bytes s)) }
{
    match text {
        Some(text) => {
            let said = wrong_item(alloc, kind, version, text.as_str(), fault)?;
            of_text(alloc, text.as_str(), said.as_str())
        }
        None => Ok(String::from_str(alloc, "is not a string")?),
    }
}

// Returns the words about an event, with its index.
fn of_event(alloc: Global, index: usize, said: &str) -> Result<String, NoMemory>
    ensures { IfOk result (λ s. string_bytes s
        ≡ codes "event " ++ decimal index ++ 32 ∷ said.now) }
{
    Ok(format!(in alloc; "event {index} {said}")?)
}

// Returns the words about a command, with its list and its index.
fn of_command(alloc: Global, list: usize, index: usize, said: &str) -> Result<String, NoMemory>
    ensures { IfOk result (λ s. string_bytes s
        ≡ codes "command " ++ decimal index ++ codes " of list " ++ decimal list ++ 32 ∷ said.now) }
{
    Ok(format!(in alloc; "command {index} of list {list} {said}")?)
}

// Returns the words about an item of the commands that is not a list.
fn of_list(alloc: Global, list: usize) -> Result<String, NoMemory>
    ensures { IfOk result (λ s. string_bytes s
        ≡ codes "item " ++ decimal list ++ codes " of the field \"commands\" is not a list") }
{
    Ok(format!(in alloc; "item {list} of the field \"commands\" is not a list")?)
}

// Returns the number of lists and the number of servers, in words.
fn counts(alloc: Global, lists: usize, servers: u64) -> Result<String, NoMemory>
    ensures { IfOk result (λ s. string_bytes s ≡ counts_words lists servers) }
{
    Ok(format!(in alloc; "lists {lists}, servers {servers}")?)
}

// Returns the words about commands that are not one list for each server.
fn of_lists(alloc: Global, count: usize, servers: u64) -> Result<String, NoMemory>
    ensures { IfOk result (λ s. string_bytes s ≡ field_words Field.Commands
        (codes "not one list for each server: " ++ counts_words count servers)) }
{
    let counts = counts(alloc, count, servers)?;
    let said = format!(in alloc; "not one list for each server: {counts}")?;
    of_field(alloc, Field::Commands, said.as_str())
}

// Describes the problem at a place that has the fault.
fn wrong_place(alloc: Global, kind: Kind, place: &Place, fault: IoFault) -> Result<String, NoMemory>
    ensures { IfOk result (λ s. ExplainsPlace kind fault (place_state place.now) (string_bytes s)) }
{
    match place {
        Place::NoObject => Ok(String::from_str(alloc, "the text is not a JSON object")?),
        Place::Unknown { name } => of_unknown(alloc, kind, name.as_str()),
        Place::Missing { field } => of_field(alloc, *field, "missing"),
        Place::Number { field } => {
            let said = number_words(alloc, *field, fault)?;
            of_field(alloc, *field, said.as_str())
        }
        Place::GreatNumber { field } => {
            let said = limit_words(alloc, *field)?;
            of_field(alloc, *field, said.as_str())
        }
        Place::NoList { field } => of_field(alloc, *field, "not a list"),
        Place::Event {
            index,
            version,
            text,
        } => {
            let said = of_item(alloc, Kind::Replay, *version, text, fault)?;
            of_event(alloc, *index, said.as_str())
        }
        Place::NoSublist { list } => of_list(alloc, *list),
        Place::Command {
            list,
            index,
            version,
            text,
        } => {
            let said = of_item(alloc, Kind::Run, *version, text, fault)?;
            of_command(alloc, *list, *index, said.as_str())
        }
        Place::Lists { count, servers } => of_lists(alloc, *count, *servers),
    }
}

// Returns the words about a text with too many signs for a search for the place.
fn crowd_words(crowd: Crowd) -> &'static str
    ensures { result.now ≡ crowd_words crowd }
{
    match crowd {
        Crowd::Braces => "more than 65,536 { are in the text, where a scenario has one",
        Crowd::Brackets => {
            "more than 65,536 [ are in the text, where a scenario has at most eight"
        }
        Crowd::Separators => {
            "more than 1,700,000 commas and colons are in the text, which has no room for so many events"
        }
    }
}

// Returns the words about a fault if no place with this fault was found.
fn unplaced(fault: IoFault) -> &'static str
    ensures { result.now ≡ unplaced_words fault }
{
    match fault {
        IoFault::BadLimit => "a number, a length or a count is past its limit",
        _ => "the text is not a scenario",
    }
}

// Describes the place where the shape is bad or a limit is passed.
fn tell_place(alloc: Global, kind: Kind, bytes: &[u8], fault: IoFault) -> Result<String, NoMemory>
    ensures { IfOk result (λ s. IsPlaced kind fault bytes.now (string_bytes s)) }
{
    if let Some(crowd) = crowd_in(bytes) {
        return Ok(String::from_str(alloc, crowd_words(crowd))?);
    }
    match place_of(alloc, kind, bytes, fault)? {
        Some(place) => wrong_place(alloc, kind, &place, fault),
        None => Ok(String::from_str(alloc, unplaced(fault))?),
    }
}

/// Says in one line of words where the scenario in `bytes` has its fault. `kind` is the kind of scenario that the bytes
/// are read as. `fault` is the fault that [`read_scenario`](crate::read_scenario), or [`read_plan`](crate::read_plan)
/// for a run, returns for the bytes.
///
/// - For `NotJson`, the words name the line and the column. Both count from 1, and the column counts characters.
/// - For `BadShape` and `BadLimit`, the words name the field, the event or the command. They give an event or a command
///   by its index from 0 and by its text, and say which word of it is wrong.
///
/// The place is the first place in the text that has the fault. If the text has too many signs for a tree (see
/// [`crowd_in`](mencius_json::crowd_in)), the words name no place. The line does not end in a line feed, and contains
/// no other control character.
///
/// # Errors
///
/// `NoMemory` if memory ran out.
pub fn explain(alloc: Global, kind: Kind, bytes: &[u8], fault: IoFault) -> Result<String, NoMemory>
    ensures { IfOk result (λ s. Explains kind fault bytes.now (string_bytes s)) }
{
    match fault {
        IoFault::NotJson => stop_in(alloc, bytes),
        IoFault::BadShape => tell_place(alloc, kind, bytes, IoFault::BadShape),
        IoFault::BadLimit => tell_place(alloc, kind, bytes, IoFault::BadLimit),
        _ => Ok(format!(in alloc; "{fault}")?),
    }
}

/// Says in one line of words why bytes were not read to their end. `fault` is the fault that
/// [`read_all`](mencius_io::read_all) returns, which is `BadLimit` if there are too many bytes.
///
/// # Errors
///
/// `NoMemory` if memory ran out.
pub fn explain_unread(alloc: Global, fault: IoFault) -> Result<String, NoMemory>
    ensures { IfOk result (λ s. ExplainsUnread fault (string_bytes s)) }
{
    match fault {
        IoFault::BadLimit => Ok(String::from_str(
            alloc,
            "the scenario is longer than 16,777,216 bytes",
        )?),
        _ => Ok(format!(in alloc; "{fault}")?),
    }
}
