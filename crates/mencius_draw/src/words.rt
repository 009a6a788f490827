//! The words of a line of a trace. One space separates each word from the next.

ghost use Rattle.std.specs.Prelude.{◌≡◌, ◌++◌, ◌==◌, ◌<◌, OnOk, string_bytes};
ghost use Rattle.std.specs.List.{position};
ghost use Rattle.std.specs.Str.{bytes_eq};
ghost use Rattle.mencius_draw.specs.Words.{behind_first_word, first_word, is_plain, number, plain_byte, plain_text, rest, word};

use std::alloc::AllocError;

// Returns the index of the first space, if there is one.
fn first_space(line: &[u8]) -> Option<usize>
    ensures { result ≡ position (λ b. b == 32) line.now }
{
    line.iter().position(|b| *b == b' ')
}

// Returns the rest of the line after the first space. It is empty if the line has no space.
fn behind_first_word(line: &[u8]) -> &[u8]
    ensures { result.now ≡ behind_first_word line.now }
{
    match first_space(line) {
        Some(place) if place < line.len() => &line[place + 1..],
        _ => &[],
    }
}

// Returns the part of the line before the first space, or the whole line if it has no space.
fn first_word(line: &[u8]) -> &[u8]
    ensures { result.now ≡ first_word line.now }
{
    match first_space(line) {
        Some(place) if place < line.len() => &line[..place],
        _ => line,
    }
}

/// Returns the rest of a line after its first `words` words.
pub(crate) fn rest(line: &[u8], words: usize) -> &[u8]
    ensures { result.now ≡ rest words line.now }
{
    let mut left = line;
    for _passed in 0..words {
        left = behind_first_word(left);
    }
    left
}

/// Returns the word at a place, counted from 0. The word is empty if the line has fewer words.
#[tactic(auto, unfolding(crate::specs::Words::word))]
pub(crate) fn word(line: &[u8], place: usize) -> &[u8]
    ensures { result.now ≡ word place line.now }
{
    first_word(rest(line, place))
}

/// Whether `word` is equal to `name`.
pub(crate) fn is_word(word: &[u8], name: &str) -> bool
    ensures { result ≡ bytes_eq word.now name.now }
{
    word == name.as_bytes()
}

/// Returns the number that the digits of a word write, but at most 4,294,967,295.
#[tactic(auto, unfolding(crate::specs::Words::number))]
pub(crate) fn number(word: &[u8]) -> u32
    ensures { result ≡ number word.now }
{
    let mut so_far = 0u32;
    for byte in word {
        let digit = u32::from(byte.saturating_sub(b'0'));
        so_far = so_far.saturating_mul(10).saturating_add(digit);
    }
    so_far
}

// Whether a byte is a letter, a digit or a mark that a trace may contain.
fn is_in_trace(byte: u8) -> bool {
    (b'a' <= byte && byte <= b'z')
        || (b'A' <= byte && byte <= b'Z')
        || (b'0' <= byte && byte <= b'9')
        || byte == b' '
        || byte == b'-'
        || byte == b'.'
        || byte == b'='
        || byte == b'_'
}

/// Adds bytes of a trace, with a question mark for each byte that no trace contains.
pub(crate) fn push_shown(text: &mut String, bytes: &[u8]) -> Result<(), AllocError> {
    for byte in bytes {
        let is_known = is_in_trace(*byte);
        text.push(char::from(if is_known { *byte } else { b'?' }))?;
    }
    Ok(())
}

// Whether a byte is a line end, or a printable byte that XML does not reserve.
fn is_plain(byte: u8) -> bool
    ensures { result ≡ is_plain byte }
{
    (b' ' <= byte
        && byte <= b'~'
        && !(byte == b'"' || byte == b'&' || byte == b'\'' || byte == b'<' || byte == b'>'))
        || byte == b'\n'
}

/// Returns a plain byte as it is, and a question mark for any other byte.
#[tactic(auto, unfolding(crate::specs::Words::plain_byte))]
pub(crate) fn plain_byte(byte: u8) -> char
    ensures value { result ≡ plain_byte byte }
    ensures ascii { result < 128 }
{
    if is_plain(byte) {
        char::from(byte)
    } else {
        '?'
    }
}

/// Adds bytes to the text of a picture, with a question mark for each byte that is not plain.
pub(crate) fn push_plain(text: &mut String, bytes: &[u8]) -> Result<(), AllocError>
    ensures { OnOk result (string_bytes text.new ≡ string_bytes text.old ++ plain_text bytes.now) }
{
    for byte in bytes {
        text.push(plain_byte(*byte))?;
    }
    Ok(())
}
