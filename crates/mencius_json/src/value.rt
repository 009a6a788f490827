//! Reads the next value of a JSON text from its tokens, and builds no tree.
//!
//! `depth` says how deep lists and objects may nest in the value, including the value itself. `Invalid` says that no
//! such value comes next. The text is then not JSON, or it nests deeper. After `Invalid`, the remaining tokens have no
//! meaning.

ghost use Rattle.std.specs.Prelude.{true, false, ◌≡◌, ◌∷◌, ◌<◌, ◌+◌, ◌==◌, Some, None, IfErr, IfOk, OnOk, length, option_and_then, option_map};
ghost use Rattle.json.specs.Reads.{token_of};
ghost use Rattle.serde_json.specs.Data.{Data, Items, Members};
ghost use Rattle.serde_json.specs.Find.{as_number, as_str, as_u64};
ghost use Rattle.serde_json.specs.Read.{float_of, number_from, number_of};
ghost use Rattle.mencius_json.specs.Next.{EntersArray, EntersObject, next_items, next_members, next_value, number_text, is_begin_array, is_begin_object, text_of};

use fast_float::Numeral;
use json::{Invalid, Reader, Token};

/// The greatest depth of nested lists and objects in a JSON text. It is the same as in `serde_json`.
pub const MOST_DEPTH: usize = 127;

// Returns the text of a string token, and `None` for any other token.
fn text_in<'a>(token: Token<'a>) -> Option<&'a str>
    ensures { option_map (λ s. s.now) result ≡ text_of (token_of token.entry) }
{
    match token {
        Token::String(text) => Some(text),
        _ => None,
    }
}

// Returns the text of a number token, and `None` for any other token.
fn number_in<'a>(token: Token<'a>) -> Option<&'a str>
    ensures { option_map (λ s. s.now) result ≡ number_text (token_of token.entry) }
{
    match token {
        Token::Number(text) => Some(text),
        _ => None,
    }
}

// Returns whether a token begins a list.
fn is_begin_array(token: Token<'_>) -> bool
    ensures { result ≡ is_begin_array (token_of token.entry) }
{
    matches!(token, Token::BeginArray)
}

/// Returns whether a token begins an object.
pub fn is_begin_object(token: Token<'_>) -> bool
    ensures { result ≡ is_begin_object (token_of token.entry) }
{
    matches!(token, Token::BeginObject)
}

// Reads a number that is negative or not a `u64`. Returns `Some(None)` if it is finite, and `None` if it is too large.
fn finite(is_negative: bool, numeral: &Numeral<'_>) -> Option<Option<u64>>
    ensures { result ≡ option_map as_u64 (float_of is_negative numeral.now) }
{
    if numeral.to_float::<f64>(is_negative).is_finite() {
        Some(None)
    } else {
        None
    }
}

fn unsigned(numeral: &Numeral<'_>) -> Option<Option<u64>>
    ensures { result ≡ option_map as_u64 (number_from false numeral.now) }
{
    match numeral.to_u64() {
        Some(number) => Some(Some(number)),
        None => finite(false, numeral),
    }
}

fn negative(numeral: &Numeral<'_>) -> Option<Option<u64>>
    ensures { result ≡ option_map as_u64 (number_from true numeral.now) }
{
    if let Some(number) = numeral.to_i64(true) {
        if number < 0 {
            return Some(None);
        }
    }
    finite(true, numeral)
}

/// Reads the text of a number. Returns `Some(Some(n))` for a whole number `n` that is a `u64`, and `Some(None)` for any
/// other number. Returns `None` if the number is too large for `serde_json`.
#[tactic(auto, unfolding(serde_json::specs::Read::number_of))]
pub(crate) fn whole_number(text: &str) -> Option<Option<u64>>
    ensures { result ≡ option_map as_u64 (number_of text.now) }
{
    let bytes = text.as_bytes();
    match bytes.split_first() {
        Some((b'-', digits)) => negative(&Numeral::scan(digits)),
        _ => unsigned(&Numeral::scan(bytes)),
    }
}

/// Passes the rest of a value after its first token, `token`, was read. Fails with `Invalid` if `token` and the tokens
/// after it do not begin with a value that nests at most `depth` deep.
#[cycle(pass)]
pub fn pass_from(reader: &mut Reader<'_>, token: Token<'_>, depth: usize) -> Result<(), Invalid>
    ensures ok { OnOk result ((d : Data)
        × (next_value depth (token_of token.entry ∷ reader.old) ≡ Some (d, reader.new))) }
    ensures shorter { OnOk result (length reader.new < length reader.old + 1) }
    ensures err { IfErr result
        (λ _. next_value depth (token_of token.entry ∷ reader.old) ≡ None) }
{
    match token {
        Token::String(_) | Token::Bool(_) | Token::Null => Ok(()),
        Token::Number(text) => match whole_number(text) {
            Some(_) => Ok(()),
            None => Err(Invalid),
        },
        Token::EndObject | Token::EndArray | Token::Key(_) | Token::Bad => Err(Invalid),
        Token::BeginArray => {
            if depth == 0 {
                return Err(Invalid);
            }
            pass_items(reader, depth - 1)
        }
        Token::BeginObject => {
            if depth == 0 {
                return Err(Invalid);
            }
            pass_members(reader, depth - 1)
        }
    }
}

/// Passes the next value. Fails with `Invalid` if no value comes next, or if the value nests more than `depth` deep.
#[cycle(pass)]
pub fn pass(reader: &mut Reader<'_>, depth: usize) -> Result<(), Invalid>
    ensures ok { OnOk result ((d : Data) × (next_value depth reader.old ≡ Some (d, reader.new))) }
    ensures shorter { OnOk result (length reader.new < length reader.old) }
    ensures err { IfErr result (λ _. next_value depth reader.old ≡ None) }
{
    let token = reader.next().ok_or(Invalid)?;
    pass_from(reader, token, depth)
}

// Passes the items of a list and its closing bracket.
#[cycle(pass)]
fn pass_items(reader: &mut Reader<'_>, depth: usize) -> Result<(), Invalid>
    ensures ok { OnOk result
        ((ds : Items) × (next_items depth reader.old ≡ Some (ds, reader.new))) }
    ensures shorter { OnOk result (length reader.new < length reader.old) }
    ensures err { IfErr result (λ _. next_items depth reader.old ≡ None) }
{
    'items: while !reader.take_end_array() {
        pass(reader, depth)?;
    }
    Ok(())
}

// Passes the fields of an object and its closing brace.
#[cycle(pass)]
fn pass_members(reader: &mut Reader<'_>, depth: usize) -> Result<(), Invalid>
    ensures ok { OnOk result
        ((ms : Members) × (next_members depth reader.old ≡ Some (ms, reader.new))) }
    ensures shorter { OnOk result (length reader.new < length reader.old) }
    ensures err { IfErr result (λ _. next_members depth reader.old ≡ None) }
{
    'members: while let Some(_) = reader.next_key()? {
        pass(reader, depth)?;
    }
    Ok(())
}

/// Reads the next value, and returns it if it is a whole number that fits in a `u64`. Any other value is passed, and
/// the result is `None`. Fails with `Invalid` under the same conditions as [`pass`].
pub fn next_whole(reader: &mut Reader<'_>, depth: usize) -> Result<Option<u64>, Invalid>
    ensures ok { IfOk result (λ x. (d : Data) × (next_value depth reader.old ≡ Some (d, reader.new))
        × (x ≡ option_and_then as_u64 (as_number d))) }
    ensures shorter { OnOk result (length reader.new < length reader.old) }
    ensures err { IfErr result (λ _. next_value depth reader.old ≡ None) }
{
    let token = reader.next().ok_or(Invalid)?;
    match number_in(token) {
        Some(text) => match whole_number(text) {
            Some(whole) => Ok(whole),
            None => Err(Invalid),
        },
        None => {
            pass_from(reader, token, depth)?;
            Ok(None)
        }
    }
}

/// Reads the next value, and returns its text if it is a text. Any other value is passed, and the result is `None`.
/// Fails with `Invalid` under the same conditions as [`pass`].
// This function is always inlined, because a call would move each text through memory.
#[inline(always)]
pub fn next_text<'a>(reader: &mut Reader<'a>, depth: usize) -> Result<Option<&'a str>, Invalid>
    ensures ok { IfOk result (λ x. (d : Data) × (next_value depth reader.old ≡ Some (d, reader.new))
        × (option_map (λ s. s.now) x ≡ as_str d)) }
    ensures shorter { OnOk result (length reader.new < length reader.old) }
    ensures err { IfErr result (λ _. next_value depth reader.old ≡ None) }
{
    let token = reader.next().ok_or(Invalid)?;
    match text_in(token) {
        Some(text) => Ok(Some(text)),
        None => {
            pass_from(reader, token, depth)?;
            Ok(None)
        }
    }
}

/// Returns whether the next value is a list. If it is, only its opening bracket is read. Its items come next, and each
/// may nest one level less deep. Any other value is passed. Fails with `Invalid` under the same conditions as [`pass`],
/// but checks a list only up to its opening bracket.
pub fn enter_array(reader: &mut Reader<'_>, depth: usize) -> Result<bool, Invalid>
    requires { 0 < depth }
    ensures ok { IfOk result (EntersArray depth reader.old reader.new) }
    ensures shorter { OnOk result (length reader.new < length reader.old) }
    ensures err { IfErr result (λ _. next_value depth reader.old ≡ None) }
{
    let token = reader.next().ok_or(Invalid)?;
    if is_begin_array(token) {
        return Ok(true);
    }
    pass_from(reader, token, depth)?;
    Ok(false)
}

/// Returns whether the next value is an object. If it is, only its opening brace is read. Its fields come next, and
/// each value may nest one level less deep. Any other value is passed. Fails with `Invalid` under the same conditions
/// as [`pass`], but checks an object only up to its opening brace.
pub fn enter_object(reader: &mut Reader<'_>, depth: usize) -> Result<bool, Invalid>
    requires { 0 < depth }
    ensures ok { IfOk result (EntersObject depth reader.old reader.new) }
    ensures shorter { OnOk result (length reader.new < length reader.old) }
    ensures err { IfErr result (λ _. next_value depth reader.old ≡ None) }
{
    let token = reader.next().ok_or(Invalid)?;
    if is_begin_object(token) {
        return Ok(true);
    }
    pass_from(reader, token, depth)?;
    Ok(false)
}
