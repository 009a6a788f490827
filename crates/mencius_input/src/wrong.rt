//! Says in words which word of an event or a command is wrong. Each word is judged by the function that reads it.

use crate::kind::Kind;
use mencius_base::{BadCommand, Command, CommandId, Key, NoMemory, Op, Text};
use mencius_format::{
    NO_OPERATION, Part, command_version, cut_at_dot, event_version, fault_of, left_over,
    may_stand_in, next_word, operands_of, parse_id, parse_u8, parse_u32, shown,
};
use mencius_io::IoFault;
use std::alloc::Global;

// Returns the parts that follow the first word of an event, up to the operation of a command.
fn parts_behind(first: &str) -> Option<&'static [Part]> {
    match first {
        "deliver" | "lose" => Some(&[Part::Message, Part::Server]),
        "suspect" => Some(&[Part::Server, Part::Suspected]),
        "retry" | "execute" => Some(&[Part::Server]),
        "submit" => Some(&[Part::Server, Part::Id]),
        _ => None,
    }
}

// Returns whether a word consists of two or more digits and begins with a 0.
fn has_leading_zero(word: &str) -> bool {
    match word.as_bytes() {
        [b'0', rest @ ..] => !rest.is_empty() && rest.iter().all(|b| b.is_ascii_digit()),
        _ => false,
    }
}

// Describes the problem with a number. `found` is the fault of the number.
fn wrong_number(
    alloc: Global,
    name: &str,
    word: &str,
    found: IoFault,
    greatest: u32,
) -> Result<String, NoMemory> {
    if found == IoFault::BadLimit {
        return Ok(format!(in alloc; "{name} is greater than {greatest}")?);
    }
    if has_leading_zero(word) {
        return Ok(format!(in alloc; "{name} has a leading zero")?);
    }
    let word = shown(alloc, word)?;
    Ok(format!(in alloc; "{name} is not a number: {word}")?)
}

fn wrong_u8(
    alloc: Global,
    name: &str,
    word: &str,
    fault: IoFault,
) -> Result<Option<String>, NoMemory> {
    match parse_u8(word) {
        Err(found) if found == fault => {
            Ok(Some(wrong_number(alloc, name, word, found, u32::from(u8::MAX))?))
        }
        _ => Ok(None),
    }
}

fn wrong_u32(
    alloc: Global,
    name: &str,
    word: &str,
    fault: IoFault,
) -> Result<Option<String>, NoMemory> {
    match parse_u32(word) {
        Err(found) if found == fault => {
            Ok(Some(wrong_number(alloc, name, word, found, u32::MAX)?))
        }
        _ => Ok(None),
    }
}

fn wrong_id(alloc: Global, word: &str, fault: IoFault) -> Result<Option<String>, NoMemory> {
    if parse_id(word).err() != Some(fault) {
        return Ok(None);
    }
    let Ok((client, number)) = cut_at_dot(word) else {
        let word = shown(alloc, word)?;
        return Ok(Some(format!(in alloc; "the command ID is not CLIENT.NUMBER: {word}")?));
    };
    if let Some(words) = wrong_u32(alloc, "the client of the command ID", client, fault)? {
        return Ok(Some(words));
    }
    wrong_u32(alloc, "the number of the command ID", number, fault)
}

// Describes the problem with the key or the text of an operation, if it has the fault. A command judges the key or
// text.
fn wrong_op(alloc: Global, part: Part, op: Op, fault: IoFault) -> Result<Option<String>, NoMemory> {
    let id = CommandId {
        client: 0,
        number: 0,
    };
    let Err(bad) = Command::new(id, op) else {
        return Ok(None);
    };
    if fault_of(bad) != fault {
        return Ok(None);
    }
    Ok(Some(words_of_bad(alloc, part, bad)?))
}

// Returns the command's own words for a key or text that it refuses. If the operation has two texts, the words say
// which text is refused.
fn words_of_bad(alloc: Global, part: Part, bad: BadCommand) -> Result<String, NoMemory> {
    let words = format!(in alloc; "{bad}")?;
    match (part, words.as_str().strip_prefix("a text")) {
        (Part::NamedText(name), Some(rest)) => Ok(format!(in alloc; "{name}{rest}")?),
        _ => Ok(words),
    }
}

fn wrong_text(
    alloc: Global,
    part: Part,
    word: &str,
    fault: IoFault,
) -> Result<Option<String>, NoMemory> {
    let key = Key::new(String::from_str(alloc, "k")?);
    let text = Text::new(String::from_str(alloc, word)?);
    wrong_op(alloc, part, Op::Set { key, text }, fault)
}

fn wrong_key(alloc: Global, word: &str, fault: IoFault) -> Result<Option<String>, NoMemory> {
    let key = Key::new(String::from_str(alloc, word)?);
    wrong_op(alloc, Part::Key, Op::Get { key }, fault)
}

// Describes the problem with a word that is present, if the word has the fault.
fn wrong_word(
    alloc: Global,
    part: Part,
    word: &str,
    fault: IoFault,
) -> Result<Option<String>, NoMemory> {
    match part {
        Part::Server | Part::Suspected => wrong_u8(alloc, part.name(), word, fault),
        Part::Message => wrong_u32(alloc, part.name(), word, fault),
        Part::Id => wrong_id(alloc, word, fault),
        Part::Key => wrong_key(alloc, word, fault),
        Part::Text | Part::NamedText(_) => wrong_text(alloc, part, word, fault),
    }
}

// Describes the problem with a number or an operation that is empty.
fn empty(alloc: Global, name: &str, is_last: bool) -> Result<String, NoMemory> {
    if is_last {
        return Ok(format!(in alloc; "{name} is missing")?);
    }
    Ok(format!(in alloc; "there are two spaces before {name}")?)
}

// Describes the problem with a word that is missing.
fn missing(alloc: Global, part: Part) -> Result<String, NoMemory> {
    let name = part.name();
    if let Part::Text | Part::NamedText(_) = part {
        return Ok(format!(in alloc; "{name} is missing: an empty one has a space before it")?);
    }
    Ok(format!(in alloc; "{name} is missing")?)
}

// Describes the problem with the first of these words that is missing or has the fault.
fn wrong_words(
    alloc: Global,
    parts: &[Part],
    left: &mut Option<&str>,
    fault: IoFault,
) -> Result<Option<String>, NoMemory> {
    for part in parts {
        let Some(word) = next_word(left) else {
            return Ok(Some(missing(alloc, *part)?));
        };
        if let Some(words) = wrong_word(alloc, *part, word, fault)? {
            if word.is_empty() && !matches!(part, Part::Key) {
                return Ok(Some(empty(alloc, part.name(), left.is_none())?));
            }
            return Ok(Some(words));
        }
    }
    Ok(None)
}

// Describes the problem with the operation, or with the first of its words that is missing or has the fault.
fn wrong_operation(
    alloc: Global,
    left: &mut Option<&str>,
    fault: IoFault,
) -> Result<Option<String>, NoMemory> {
    let name = "the operation";
    let Some(operation) = next_word(left) else {
        return Ok(Some(format!(in alloc; "{name} is missing")?));
    };
    if operation.is_empty() {
        return Ok(Some(empty(alloc, name, left.is_none())?));
    }
    let Some(operands) = operands_of(operation) else {
        let word = shown(alloc, operation)?;
        return Ok(Some(format!(in alloc; "{NO_OPERATION}: {word}")?));
    };
    wrong_words(alloc, operands, left, fault)
}

// Describes the problem with a text that does not begin as an event does.
fn unknown(alloc: Global, first: &str, is_whole: bool) -> Result<String, NoMemory> {
    if !first.is_empty() {
        let word = shown(alloc, first)?;
        return Ok(format!(in alloc;
            "no event begins with {word}: each begins with submit, deliver, lose, suspect, retry or execute"
        )?);
    }
    let words = if is_whole {
        "it is empty"
    } else {
        "it begins with a space"
    };
    Ok(String::from_str(alloc, words)?)
}

// Describes the problem with the text of an event.
fn wrong_event(alloc: Global, text: &str, fault: IoFault) -> Result<String, NoMemory> {
    let mut left = Some(text);
    let first = next_word(&mut left).unwrap_or("");
    let Some(parts) = parts_behind(first) else {
        return unknown(alloc, first, left.is_none());
    };
    if let Some(words) = wrong_words(alloc, parts, &mut left, fault)? {
        return Ok(words);
    }
    if first == "submit" {
        if let Some(words) = wrong_operation(alloc, &mut left, fault)? {
            return Ok(words);
        }
    }
    left_over(alloc, &mut left)
}

// Describes the problem with the text of a command.
fn wrong_command(alloc: Global, text: &str, fault: IoFault) -> Result<String, NoMemory> {
    let mut left = Some(text);
    if let Some(words) = wrong_words(alloc, &[Part::Id], &mut left, fault)? {
        return Ok(words);
    }
    if let Some(words) = wrong_operation(alloc, &mut left, fault)? {
        return Ok(words);
    }
    left_over(alloc, &mut left)
}

// Returns the lowest version that a text needs. Only the word of its operation decides this.
fn version_of_text(kind: Kind, text: &str) -> u64 {
    match kind {
        Kind::Replay => event_version(text),
        Kind::Run => command_version(text),
    }
}

// Returns the word in the place of the operation.
fn operation_in(kind: Kind, text: &str) -> &str {
    let mut left = Some(text);
    if matches!(kind, Kind::Replay) {
        let _submit = next_word(&mut left);
        let _server = next_word(&mut left);
    }
    let _id = next_word(&mut left);
    next_word(&mut left).unwrap_or("")
}

/// Describes the problem with the text of an event or, in a run, of a command. The text has this fault in the version.
/// The result describes the first word of the text that has the fault.
pub(crate) fn wrong_item(
    alloc: Global,
    kind: Kind,
    version: u64,
    text: &str,
    fault: IoFault,
) -> Result<String, NoMemory> {
    let needed = version_of_text(kind, text);
    if !may_stand_in(needed, version) {
        let operation = operation_in(kind, text);
        return Ok(format!(in alloc; "only version {needed} has the operation {operation}")?);
    }
    match kind {
        Kind::Replay => wrong_event(alloc, text, fault),
        Kind::Run => wrong_command(alloc, text, fault),
    }
}
