//! Explains the fault of a line to a person. The functions that read numbers and identities also check them here.

use crate::line::{MOST_LINE_BYTES, without_return};
use mencius_base::{MOST_KEY_BYTES, MOST_TEXT_BYTES, NoMemory, is_name};
use mencius_format::{
    NO_OPERATION, Part, left_over, next_word, operands_of, parse_id, parse_u32, shown,
};
use mencius_io::IoFault;
use std::alloc::Global;

// The kind of a word after the first one of an observation.
#[derive(Clone, Copy, Debug)]
enum Word {
    Server,
    Source,
    Count,
    Reader,
    Id,
    Key,
    Text,
    Found,
    Answer,
}

/// Returns the explanation of a line that is too long.
pub(crate) fn too_long(alloc: Global) -> Result<String, NoMemory> {
    Ok(String::from_str(alloc, "it is longer than 1,024 bytes")?)
}

/// Returns the explanation of a last line without a line feed.
pub(crate) fn cut_short(alloc: Global, line: &[u8]) -> Result<String, NoMemory> {
    let words = "the log ends in it: end it with a line feed, or remove it";
    match str::from_utf8(line) {
        Ok(text) => {
            let word = shown(alloc, last_word(text))?;
            Ok(format!(in alloc; "{words}: {word}")?)
        }
        Err(_) => Ok(String::from_str(alloc, words)?),
    }
}

fn last_word(text: &str) -> &str {
    match text.rsplit_once(' ') {
        Some((_, word)) => word,
        None => text,
    }
}

/// Returns the explanation of a line that has this fault. It is about the first word that has the fault, if the line is
/// UTF-8 and not too long.
pub(crate) fn wrong_line(alloc: Global, line: &[u8], fault: IoFault) -> Result<String, NoMemory> {
    if line.len() > MOST_LINE_BYTES {
        return too_long(alloc);
    }
    match str::from_utf8(without_return(line)) {
        Ok(text) => wrong_text(alloc, text, fault),
        Err(_) => Ok(String::from_str(alloc, "it is not UTF-8")?),
    }
}

fn wrong_text(alloc: Global, text: &str, fault: IoFault) -> Result<String, NoMemory> {
    let mut left = Some(text);
    let first = next_word(&mut left).unwrap_or("");
    let Some(words) = words_behind(first) else {
        return unknown(alloc, first);
    };
    if let Some(wrong) = wrong_words(alloc, words, &mut left, fault)? {
        return Ok(wrong);
    }
    if first == "submit" {
        if let Some(wrong) = wrong_operation(alloc, &mut left, fault)? {
            return Ok(wrong);
        }
    }
    left_over(alloc, &mut left)
}

fn unknown(alloc: Global, first: &str) -> Result<String, NoMemory> {
    if first.is_empty() {
        return Ok(String::from_str(alloc, "it begins with a space")?);
    }
    if first.strip_prefix("\u{feff}").is_some() {
        return Ok(String::from_str(
            alloc,
            "it begins with a byte order mark, which a log does not have",
        )?);
    }
    let word = shown(alloc, first)?;
    let kinds = "each begins with submit, execute, reply, lookup, told, settled or restore";
    match first.as_bytes() {
        [b'0'..=b'9', ..] => Ok(format!(in alloc;
            "no line begins with {word}: {kinds}, and conformance/merge reads logs with times in front"
        )?),
        _ => Ok(format!(in alloc; "no line begins with {word}: {kinds}")?),
    }
}

// Returns the kinds of the words after the first one, up to the operation of a command. Returns `None` if no
// observation begins with `first`.
fn words_behind(first: &str) -> Option<&'static [Word]> {
    match first {
        "submit" => Some(&[Word::Id]),
        "execute" => Some(&[Word::Server, Word::Id]),
        "reply" => Some(&[Word::Id, Word::Answer]),
        "lookup" => Some(&[Word::Reader, Word::Key, Word::Found]),
        "told" => Some(&[Word::Reader, Word::Server]),
        "settled" => Some(&[Word::Server]),
        "restore" => Some(&[Word::Server, Word::Source, Word::Count]),
        _ => None,
    }
}

// Explains the first of these words that has the fault or is missing.
fn wrong_words(
    alloc: Global,
    words: &[Word],
    left: &mut Option<&str>,
    fault: IoFault,
) -> Result<Option<String>, NoMemory> {
    for word in words {
        let Some(text) = next_word(left) else {
            return Ok(Some(missing(alloc, *word)?));
        };
        if has_fault(*word, text, fault) {
            if text.is_empty() && left.is_none() {
                return Ok(Some(missing(alloc, *word)?));
            }
            return Ok(Some(wrong_word(alloc, *word, text, fault)?));
        }
    }
    Ok(None)
}

// Explains the operation, or the first of its words that has the fault or is missing.
fn wrong_operation(
    alloc: Global,
    left: &mut Option<&str>,
    fault: IoFault,
) -> Result<Option<String>, NoMemory> {
    let operation = next_word(left).unwrap_or("");
    if operation.is_empty() {
        let words = match left {
            Some(_) => "there are two spaces before the operation",
            None => "the operation is missing",
        };
        return Ok(Some(String::from_str(alloc, words)?));
    }
    let Some(operands) = operands_of(operation) else {
        let word = shown(alloc, operation)?;
        return Ok(Some(format!(in alloc; "{NO_OPERATION}: {word}")?));
    };
    for part in operands {
        let word = match part {
            Part::Key => Word::Key,
            _ => Word::Text,
        };
        if let Some(wrong) = wrong_words(alloc, &[word], left, fault)? {
            return Ok(Some(wrong));
        }
    }
    Ok(None)
}

fn has_fault(word: Word, text: &str, fault: IoFault) -> bool {
    match word {
        Word::Server | Word::Source | Word::Count | Word::Reader => parse_u32(text).err()
            == Some(fault),
        Word::Id => parse_id(text).err() == Some(fault),
        Word::Key => named_fault(text, 1, MOST_KEY_BYTES) == Some(fault),
        Word::Text => named_fault(text, 0, MOST_TEXT_BYTES) == Some(fault),
        Word::Found => found_fault(text) == Some(fault),
        Word::Answer => answer_fault(text) == Some(fault),
    }
}

// Returns the fault of a name that must have `least` to `most` bytes.
fn named_fault(text: &str, least: usize, most: usize) -> Option<IoFault> {
    if !is_name(text) {
        return Some(IoFault::BadShape);
    }
    if text.len() < least || text.len() > most {
        return Some(IoFault::BadLimit);
    }
    None
}

fn found_fault(text: &str) -> Option<IoFault> {
    if text == "none" {
        return None;
    }
    match text.strip_prefix("=") {
        Some(text) => named_fault(text, 0, MOST_TEXT_BYTES),
        None => Some(IoFault::BadShape),
    }
}

fn answer_fault(text: &str) -> Option<IoFault> {
    match text {
        "ok" | "failed" => None,
        _ => found_fault(text),
    }
}

fn name_of(word: Word) -> &'static str {
    match word {
        Word::Server => "the server",
        Word::Source => "the server of the snapshot",
        Word::Count => "the number of commands",
        Word::Reader => "the reader",
        Word::Id => "the command ID",
        Word::Key => "the key",
        Word::Text => "the text",
        Word::Found | Word::Answer => "the answer",
    }
}

// Returns the words that say what can be in the place of a word.
fn rule_of(word: Word) -> &'static str {
    match word {
        Word::Server | Word::Source | Word::Count | Word::Reader => "a number from 0 to 4294967295",
        Word::Id => "CLIENT.NUMBER, each a number from 0 to 4294967295",
        Word::Key => "1 to 64 ASCII letters, digits, `_`, `-` or `.`",
        Word::Text => "0 to 256 ASCII letters, digits, `_`, `-` or `.`",
        Word::Found => "`none`, or `=` and 0 to 256 ASCII letters, digits, `_`, `-` or `.`",
        Word::Answer =>
            "`ok`, `failed`, `none`, or `=` and 0 to 256 ASCII letters, digits, `_`, `-` or `.`",
    }
}

fn wrong_word(alloc: Global, word: Word, text: &str, fault: IoFault) -> Result<String, NoMemory> {
    let name = name_of(word);
    if text.is_empty() {
        return Ok(format!(in alloc; "there are two spaces before {name}")?);
    }
    if fault == IoFault::BadLimit {
        if let Some(most) = most_bytes(word) {
            let bytes = text.strip_prefix("=").unwrap_or(text).len();
            return Ok(format!(in alloc; "{name} has {bytes} bytes, and may have at most {most}")?);
        }
    }
    let has_zeros = fault == IoFault::BadShape && is_number_with_zeros(word, text);
    let text = shown(alloc, text)?;
    if has_zeros {
        return Ok(format!(in alloc; "{name} has a leading zero: {text}")?);
    }
    let rule = rule_of(word);
    Ok(format!(in alloc; "{name} is not {rule}: {text}")?)
}

// Returns the most bytes of a name.
fn most_bytes(word: Word) -> Option<usize> {
    match word {
        Word::Key => Some(MOST_KEY_BYTES),
        Word::Text | Word::Found | Word::Answer => Some(MOST_TEXT_BYTES),
        _ => None,
    }
}

// Returns whether a word has the shape of a number or an identity, but for leading zeros. The word is known to be wrong.
fn is_number_with_zeros(word: Word, text: &str) -> bool {
    match word {
        Word::Server | Word::Source | Word::Count | Word::Reader => is_digits(text),
        Word::Id => match text.split_once('.') {
            Some((client, number)) => is_digits(client) && is_digits(number),
            None => false,
        },
        _ => false,
    }
}

fn is_digits(text: &str) -> bool {
    !text.is_empty() && text.as_bytes().iter().all(|byte| byte.is_ascii_digit())
}

fn missing(alloc: Global, word: Word) -> Result<String, NoMemory> {
    if let Word::Text = word {
        let words = "a text is missing: an empty one has a space before it";
        return Ok(String::from_str(alloc, words)?);
    }
    let name = name_of(word);
    let rule = rule_of(word);
    Ok(format!(in alloc; "{name} is missing: it is {rule}")?)
}
