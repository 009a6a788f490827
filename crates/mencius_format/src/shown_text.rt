//! Shows a text in the words of an explanation.

ghost use Rattle.std.specs.Prelude.{◌≡◌, ◌<◌, ◌++◌, IfOk, OnOk, flat_map, length, string_bytes, take};
ghost use Rattle.std.specs.Str.{chars};
ghost use Rattle.mencius_format.specs.Shown.{is_among, is_hidden, most_shown, shown_char, shown_number, shown_text};

use mencius_base::NoMemory;
use std::alloc::Global;

// The greatest length of a text that is shown whole, in characters.
const MOST_SHOWN: usize = 60;

// Returns whether the number of a character is at least `from` and below `end`.
fn is_among(from: u32, end: u32, code: u32) -> bool
    ensures { result ≡ is_among from end code }
{
    code >= from && code < end
}

// Returns whether a character must not be shown as it is. A terminal may act on such a character, show nothing for it,
// or reverse the direction of the text after it.
fn is_hidden(c: char) -> bool
    ensures { result ≡ is_hidden c }
{
    let code = c as u32;
    code < 0x20
        || is_among(0x7f, 0xa0, code)
        || is_among(0x200b, 0x2010, code)
        || is_among(0x2028, 0x2030, code)
        || is_among(0x2060, 0x2070, code)
        || code == 0xfeff
}

// Appends the number of a character to the words.
fn push_number(words: &mut String, c: char) -> Result<(), NoMemory>
    ensures { OnOk result (string_bytes words.new ≡ string_bytes words.old ++ shown_number c) }
{
    let code = c as u32;
    write!(words, "\\u{{{code:x}}}")?;
    Ok(())
}

// Appends a character to the words as it is shown.
#[tactic(auto, unfolding(crate::specs::Shown::shown_char))]
fn push_shown(words: &mut String, c: char) -> Result<(), NoMemory>
    ensures { OnOk result (string_bytes words.new ≡ string_bytes words.old ++ shown_char c) }
{
    if is_hidden(c) {
        return push_number(words, c);
    }
    if c == '"' {
        words.push_str("\\\"")?;
        return Ok(());
    }
    if c == '\\' {
        words.push_str("\\\\")?;
        return Ok(());
    }
    words.push(c)?;
    Ok(())
}

// Appends the front of a text, at most 60 characters, to the words as it is shown.
fn push_front(words: &mut String, text: &str) -> Result<(), NoMemory>
    ensures { OnOk result (string_bytes words.new
        ≡ string_bytes words.old ++ flat_map shown_char (take most_shown (chars text.now))) }
{
    for c in text.chars().take(MOST_SHOWN) {
        push_shown(words, c)?;
    }
    Ok(())
}

// Counts the characters of a text.
fn count_of_chars(text: &str) -> usize
    ensures { result ≡ length (chars text.now) }
{
    text.chars().count()
}

/// Returns a text in quotes. Quotes and backslashes get a backslash before them. A character that must not be shown,
/// such as a control character, is replaced by its number. If the text has more than 60 characters, only the first 60
/// are shown, and two dots follow.
pub fn shown(alloc: Global, text: &str) -> Result<String, NoMemory>
    ensures { IfOk result (λ s. string_bytes s ≡ shown_text text.now) }
{
    let mut words = String::from_str(alloc, "\"")?;
    push_front(&mut words, text)?;
    if count_of_chars(text) > MOST_SHOWN {
        words.push_str("..")?;
    }
    words.push('"')?;
    Ok(words)
}
