//! Says where a text stops being JSON.

ghost use Rattle.std.specs.Prelude.{◌≡◌, ◌≤◌, ◌<◌, ◌-◌, ◌==◌, IfOk, drop, get_or, length, string_bytes};
ghost use Rattle.std.specs.List.{filter};
ghost use Rattle.json.specs.Word.{is_space};
ghost use Rattle.mencius_json.specs.Stops.{IsStop, IsWrongAt, characters_in, place_behind, stop_words};

use crate::count::count_of;
use crate::crowd::crowd_in;
use crate::tree::memory_apart;
use crate::value::{MOST_DEPTH, pass, whole_number};
use json::{Reader, Scratch, Token};
use mencius_base::NoMemory;
use serde_json::Value;
use std::alloc::Global;

const NO_JSON: &str = "not JSON";

const NO_COLON: &str = "a colon is missing behind this name";

const NO_VALUE: &str = "a value is missing before this";

const NO_NAME: &str = "a name in double quotes has to stand here";

const GOES_ON: &str = "the text goes on after its value";

// Returns the offset of the last line of `front`. `feeds` is the number of line feeds in `front`.
fn last_line_start(front: &[u8], feeds: usize) -> usize
    requires { feeds ≡ length (filter (λ byte. byte == 10) front.now) }
    ensures within { result ≤ length front.now }
    ensures last { length (filter (λ byte. byte == 10) (drop result front.now)) ≡ 0 }
    ensures line { 0 < result → get_or front.now (result - 1) 0 ≡ 10 }
{
    if feeds == 0 {
        return 0;
    }
    let mut start = front.len();
    'bytes: while start > 0 && front[start - 1] != b'\n' {
        start -= 1;
    }
    start
}

// Counts the characters that begin in some bytes.
fn characters_in(bytes: &[u8]) -> usize
    ensures { result ≡ characters_in bytes.now }
{
    bytes.iter().filter(|byte| **byte & 0xc0 != 0x80).count()
}

// Returns the line and the column after the text `front`. Both count from 1, and a column counts characters.
fn line_and_column(front: &[u8]) -> (usize, usize)
    ensures { result ≡ place_behind front.now }
{
    let feeds = count_of(front, b'\n');
    let (_, last_line) = front.split_at(last_line_start(front, feeds));
    (1 + feeds, 1 + characters_in(last_line))
}

// Returns the offset where reading stops in a text that is not JSON.
fn read_to(alloc: Global, text: &str) -> Result<usize, NoMemory> {
    let mut scratch = Scratch::new(alloc);
    let mut reader = Reader::new(text, &mut scratch)?;
    let _ = pass(&mut reader, MOST_DEPTH);
    Ok(reader.offset())
}

// Returns `Some(true)` if the bytes are a whole value, and `Some(false)` if they are only the front of one. Returns
// `None` if they are neither.
fn front_of(alloc: Global, bytes: &[u8]) -> Result<Option<bool>, NoMemory> {
    match memory_apart(Value::from_slice(alloc, bytes))? {
        Ok(_) => Ok(Some(true)),
        Err(e) if e.is_eof() => Ok(Some(false)),
        Err(_) => Ok(None),
    }
}

// Adds a token's bracket to the open brackets if the token opens one, and removes the last bracket if it closes one.
// `open` begins with the outermost bracket.
fn pass_bracket(open: &mut Vec<u8>, token: Token<'_>) -> Result<(), NoMemory> {
    match token {
        Token::BeginArray => open.push(b'[')?,
        Token::BeginObject => open.push(b'{')?,
        Token::EndArray | Token::EndObject => {
            open.pop();
        }
        _ => {}
    }
    Ok(())
}

// Describes the problem with a token if reading stops at it. `open` contains the brackets that are open before the
// token. If `is_behind_name` is true, the token comes directly after a name.
fn wrong_token(token: Token<'_>, open: &[u8], is_behind_name: bool) -> &'static str {
    match (token, open) {
        (Token::Number(text), _) if whole_number(text).is_none() => "the number is too great",
        (Token::BeginArray | Token::BeginObject, _) if open.len() >= MOST_DEPTH => {
            "nested more than 127 deep"
        }
        (Token::Key(_), _) => "a colon stands behind this string, which is no name",
        (Token::EndObject | Token::EndArray, _) if is_behind_name => NO_VALUE,
        (Token::EndObject, [.., b'[']) => "a ] is missing before this",
        (Token::EndArray, [.., b'{']) => "a } is missing before this",
        (Token::EndObject | Token::EndArray, []) => NO_VALUE,
        (Token::EndObject | Token::EndArray, [_]) => GOES_ON,
        (Token::String(_), [.., b'{']) if !is_behind_name => NO_COLON,
        (_, [.., b'{']) if !is_behind_name => NO_NAME,
        (_, []) => GOES_ON,
        _ => NO_JSON,
    }
}

// Returns whether a byte is a blank.
fn is_blank(byte: u8) -> bool
    ensures { result ≡ is_space byte }
{
    matches!(byte, b' ' | b'\t' | b'\n' | b'\r')
}

// Returns the offset of the next token, searching from `offset` on. Blanks and commas before the token are passed.
fn token_start(bytes: &[u8], offset: usize) -> usize {
    let behind = &bytes[offset.min(bytes.len())..];
    let passed = behind.iter().position(|b| !is_blank(*b) && *b != b',');
    offset.saturating_add(passed.unwrap_or(0))
}

// Counts the blanks at the beginning of a text.
fn blanks_before(text: &str) -> usize {
    let bytes = text.as_bytes();
    let first = bytes.iter().position(|b| !is_blank(*b));
    first.unwrap_or(bytes.len())
}

// The last token that begins before an offset.
#[derive(Clone, Copy)]
struct Last {
    // The offset of the token's first byte.
    start: usize,
    // The problem with the token, if reading stopped at it.
    wrong: &'static str,
    // Whether the innermost bracket that is open after the token belongs to an object.
    is_in_object: bool,
}

// Finds the last token that begins before an offset.
fn last_before(alloc: Global, text: &str, offset: usize) -> Result<Last, NoMemory> {
    let mut scratch = Scratch::new(alloc);
    let mut reader = Reader::new(text, &mut scratch)?;
    let mut last = Last {
        start: 0,
        wrong: NO_JSON,
        is_in_object: false,
    };
    let mut open = Vec::new(alloc);
    let mut is_behind_name = false;
    let mut start = token_start(text.as_bytes(), reader.offset());
    'tokens: while let Some(token) = reader.next() {
        if start >= offset {
            break;
        }
        let wrong = wrong_token(token, open.as_slice(), is_behind_name);
        is_behind_name = matches!(token, Token::Key(_));
        pass_bracket(&mut open, token)?;
        last = Last {
            start,
            wrong,
            is_in_object: matches!(open.last(), Some(b'{')),
        };
        start = token_start(text.as_bytes(), reader.offset());
    }
    Ok(last)
}

// Returns the last byte that is not a blank.
fn last_solid(bytes: &[u8]) -> Option<u8> {
    bytes.iter().rev().find(|b| !is_blank(**b)).copied()
}

// Describes the problem with a string. `inside` is the text after its opening quote.
fn wrong_string(inside: &[u8]) -> &'static str {
    let mut is_escaped = false;
    for byte in inside {
        if *byte < b' ' {
            return "a control character stands in a string";
        }
        if !is_escaped && *byte == b'"' {
            return "a string has an escape that JSON does not have";
        }
        is_escaped = !is_escaped && *byte == b'\\';
    }
    "a string does not end"
}

// Describes the problem with `rest`, which must begin with a name if `is_name` is true, and with a value otherwise.
fn wrong_beginning(rest: &[u8], is_name: bool) -> &'static str {
    match rest {
        [b'"', inside @ ..] => wrong_string(inside),
        [b'A'..=b'Z' | b'a'..=b'z' | b'_', ..] => "a word without quotes",
        _ if is_name => NO_NAME,
        [b',' | b':' | b']' | b'}', ..] => NO_VALUE,
        [b'0'..=b'9' | b'-' | b'+' | b'.', ..] => "not a number as JSON writes it",
        _ => "a value must be here",
    }
}

// Describes the problem with `rest`, which comes after a value and must begin with a comma or a closing bracket. `last`
// is the last byte of that value.
fn wrong_next(last: u8, rest: &[u8]) -> &'static str {
    match (last, rest) {
        (_, [b':', ..]) => "a colon, which stands behind a name alone",
        (b'"', [b'"', ..]) => "a comma is missing before this",
        (b'"', _) => "a comma or a quote is missing before this",
        _ => "a comma is missing before this",
    }
}

// Describes the problem with `rest`, which comes after the front of a value. `is_whole` says whether the front is a
// whole value. `is_in_object` says whether its innermost open bracket belongs to an object.
fn wrong_behind(front: &[u8], rest: &[u8], is_whole: bool, is_in_object: bool) -> &'static str {
    match (last_solid(front), rest) {
        (_, [b'/', b'/' | b'*', ..]) => "a comment, which JSON does not have",
        (_, [b'\'', ..]) => "a single quote, but a string of JSON has double quotes",
        (Some(b','), [b']' | b'}', ..]) => "a comma stands before the closing bracket",
        (Some(b'{' | b','), _) if is_in_object => wrong_beginning(rest, true),
        (None | Some(b'[' | b',' | b':'), _) => wrong_beginning(rest, false),
        (Some(_), _) if is_whole => GOES_ON,
        (Some(last), _) => wrong_next(last, rest),
    }
}

// Returns the brackets that the front of a value leaves open. The first is the outermost.
fn open_brackets(alloc: Global, front: &str) -> Result<Vec<u8>, NoMemory> {
    let mut scratch = Scratch::new(alloc);
    let mut reader = Reader::new(front, &mut scratch)?;
    let mut open = Vec::new(alloc);
    'tokens: while let Some(token) = reader.next() {
        pass_bracket(&mut open, token)?;
    }
    Ok(open)
}

// Describes the problem with a text that is only the front of a value.
fn wrong_end(alloc: Global, front: &str) -> Result<&'static str, NoMemory> {
    Ok(match open_brackets(alloc, front)?.last() {
        Some(b'[') => "the text ends too soon: a ] is missing",
        Some(_) => "the text ends too soon: a } is missing",
        None => "the text ends too soon: a value is missing",
    })
}

// Returns the offset where reading stops in a text that is not JSON, and the problem there. The text must not begin
// with a blank.
fn stop_of_solid(alloc: Global, text: &str) -> Result<(usize, &'static str), NoMemory> {
    let offset = read_to(alloc, text)?.min(text.len());
    let (front, rest) = text.as_bytes().split_at(offset);
    // A more exact explanation needs a tree of the front.
    if crowd_in(front).is_some() {
        return Ok((offset, NO_JSON));
    }
    let Some(is_whole) = front_of(alloc, front)? else {
        let last = last_before(alloc, text, offset)?;
        return Ok((last.start, last.wrong));
    };
    if rest.is_empty() {
        return Ok((offset, wrong_end(alloc, text)?));
    }
    let last = last_before(alloc, text, offset)?;
    if last.wrong == NO_COLON {
        return Ok((last.start, last.wrong));
    }
    let wrong = wrong_behind(front, rest, is_whole, last.is_in_object);
    Ok((offset, wrong))
}

// Returns the offset where reading stops in a text that is not JSON, and the problem there. The blanks before the first
// token are examined only once.
fn stop_of(alloc: Global, text: &str) -> Result<(usize, &'static str), NoMemory> {
    let solid = text.get(blanks_before(text)..).unwrap_or(text);
    let (offset, wrong) = stop_of_solid(alloc, solid)?;
    Ok(((text.len() - solid.len()).saturating_add(offset), wrong))
}

// Returns the offset where bytes stop being JSON, and the problem there. The bytes must not be JSON.
fn wrong_bytes(alloc: Global, bytes: &[u8]) -> Result<(usize, &'static str), NoMemory>
    ensures { IfOk result (λ x. IsWrongAt bytes.now x.0 x.1.now) }
{
    if bytes.starts_with(b"\xef\xbb\xbf") {
        return Ok((0, "a byte order mark, which JSON does not have"));
    }
    match std::str::from_utf8(bytes) {
        Ok(text) => {
            let (offset, wrong) = stop_of(alloc, text)?;
            Ok((offset.min(bytes.len()), wrong))
        }
        Err(e) => Ok((e.valid_up_to(), "not UTF-8")),
    }
}

// Writes down a problem with its line and column.
fn wrong_at(alloc: Global, line: usize, column: usize, wrong: &str) -> Result<String, NoMemory>
    ensures { IfOk result (λ s. string_bytes s ≡ stop_words (line, column) wrong.now) }
{
    Ok(format!(in alloc; "line {line}, column {column}: {wrong}")?)
}

/// Says in words where bytes stop being JSON, and describes the problem there. The bytes must not be JSON. An example
/// is `line 1, column 7: a comma is missing before this`. Lines and columns count from 1, and columns count characters.
///
/// A byte order mark is reported before any other problem. If the bytes are not UTF-8, this is the next problem, and
/// its place is after the longest front that is UTF-8.
///
/// If [`crowd_in`] finds too many signs for a tree in the text before the stop, this function does not look for the
/// problem. It then reports `not JSON` at the place where reading stopped. Fails only with `NoMemory`.
pub fn stop_in(alloc: Global, bytes: &[u8]) -> Result<String, NoMemory>
    ensures { IfOk result (λ s. IsStop bytes.now (string_bytes s)) }
{
    let (offset, wrong) = wrong_bytes(alloc, bytes)?;
    let (line, column) = line_and_column(&bytes[..offset]);
    wrong_at(alloc, line, column, wrong)
}
