//! Splits a text into words, and reads the words that are numbers.

ghost use Rattle.std.specs.Prelude.{ℕ, List, ◌≡◌, ◌≢◌, ◌∷◌, ◌++◌, [], ◌<◌, ◌==◌, IfSome, MatchOption, MatchResult, Some};
ghost use Rattle.std.specs.List.{list_all, position};
ghost use Rattle.std.specs.Char.{is_ascii_digit};
ghost use Rattle.mencius_format.specs.ValuesOrFaults.{value_or_fault};
ghost use Rattle.mencius_format.specs.Words.{is_number, is_u8, is_u32, number_of, parts, words};

use mencius_io::IoFault;

// Returns the text before the first byte `at`, and the text after it. Returns `BadShape` if the text does not contain
// this byte.
fn cut(text: &str, at: u8) -> Result<(&str, &str), IoFault>
    requires { at < 128 }
    ensures { MatchResult result
        (λ x. parts at text.now ≡ x.0.now ∷ parts at x.1.now)
        (λ f. (f ≡ IoFault.BadShape) × (parts at text.now ≡ text.now ∷ [])) }
{
    match first_of(text, at) {
        Some(place) => Ok((&text[..place], &text[place + 1..])),
        None => Err(IoFault::BadShape),
    }
}

/// Returns the first word of a text, and the text after the first space. Returns `BadShape` if the text has no space.
pub fn cut_at_space(text: &str) -> Result<(&str, &str), IoFault>
    ensures { MatchResult result
        (λ x. words text.now ≡ x.0.now ∷ words x.1.now)
        (λ f. (f ≡ IoFault.BadShape) × (words text.now ≡ text.now ∷ [])) }
{
    cut(text, b' ')
}

/// Returns the two numbers of an identity as words, which are the text before the first dot and the text after it.
/// Returns `BadShape` if the word has no dot.
pub fn cut_at_dot(word: &str) -> Result<(&str, &str), IoFault>
    ensures { MatchResult result
        (λ x. parts 46 word.now ≡ x.0.now ∷ parts 46 x.1.now)
        (λ f. (f ≡ IoFault.BadShape) × (parts 46 word.now ≡ word.now ∷ [])) }
{
    cut(word, b'.')
}

/// Returns the text after `word` and one space, or `None` if the text does not begin with both.
pub(crate) fn behind<'a>(text: &'a str, word: &str) -> Option<&'a str>
    ensures { MatchOption result ((rest : List ℕ) → text.now ≢ word.now ++ 32 ∷ rest)
        (λ rest. text.now ≡ word.now ++ 32 ∷ rest.now) }
{
    let bytes = text.as_bytes();
    let place = word.len();
    if place < bytes.len() && bytes[place] == b' ' && &text[..place] == word {
        return Some(&text[place + 1..]);
    }
    None
}

// Returns the place of the first byte `wanted`. Never inlined, because a caller would compute the places after that
// byte during the search. That takes four times as many instructions for each byte.
#[inline(never)]
fn first_of(text: &str, wanted: u8) -> Option<usize>
    ensures { result ≡ position (λ x. x == wanted) text.now }
{
    text.as_bytes().iter().position(|b| *b == wanted)
}

fn are_digits(bytes: &[u8]) -> bool
    ensures { result ≡ list_all is_ascii_digit bytes.now }
{
    bytes.iter().all(|b| b.is_ascii_digit())
}

// Returns whether the word is `0`, or one or more digits that do not begin with 0.
fn is_number(word: &str) -> bool
    ensures { result ≡ is_number word.now }
{
    match word.as_bytes().split_first() {
        None => false,
        Some((b'0', rest)) => rest.is_empty(),
        Some((first, rest)) => first.is_ascii_digit() && are_digits(rest),
    }
}

// Returns the number of a word with exactly one digit. Most numbers of a schedule have one digit.
#[tactic(auto, unfolding(crate::specs::Words::number_of))]
fn one_digit(word: &str) -> Option<u8>
    ensures { IfSome result (λ n. (number_of word.now ≡ Some n) × (n < 10)) }
{
    match word.as_bytes() {
        [digit] if digit.is_ascii_digit() => Some(*digit - b'0'),
        _ => None,
    }
}

// Returns the number of a word that begins with 1 to 9, if it is less than 4,294,967,296. It goes through the word
// once.
fn read_u32(word: &str) -> Option<u32>
    ensures { IfSome result (λ n. number_of word.now ≡ Some n) }
{
    let bytes = word.as_bytes();
    if bytes.is_empty() || bytes[0] < b'1' || bytes[0] > b'9' {
        return None;
    }
    match word.parse::<u32>() {
        Ok(n) => Some(n),
        Err(_) => None,
    }
}

/// Reads a number from 0 to 255, in decimal digits without leading zeros. Returns `BadLimit` for a greater number, and
/// `BadShape` for any other word.
#[tactic(auto, using(crate::proofs::NumberWords::parsed), unfolding(crate::specs::Words::number_of))]
pub fn parse_u8(word: &str) -> Result<u8, IoFault>
    ensures { result ≡ value_or_fault is_u8 (number_of word.now) }
{
    if let Some(digit) = one_digit(word) {
        return Ok(digit);
    }
    if !is_number(word) {
        return Err(IoFault::BadShape);
    }
    match word.parse::<u8>() {
        Ok(n) => Ok(n),
        Err(_) => Err(IoFault::BadLimit),
    }
}

/// Reads a number from 0 to 4,294,967,295, in decimal digits without leading zeros. Returns `BadLimit` for a greater
/// number, and `BadShape` for any other word.
#[tactic(auto, using(crate::proofs::NumberWords::parsed), unfolding(crate::specs::Words::number_of))]
pub fn parse_u32(word: &str) -> Result<u32, IoFault>
    ensures { result ≡ value_or_fault is_u32 (number_of word.now) }
{
    if let Some(digit) = one_digit(word) {
        return Ok(digit as u32);
    }
    if let Some(number) = read_u32(word) {
        return Ok(number);
    }
    if !is_number(word) {
        return Err(IoFault::BadShape);
    }
    match word.parse::<u32>() {
        Ok(n) => Ok(n),
        Err(_) => Err(IoFault::BadLimit),
    }
}
