//! Texts by their numbers. A text has the number 1 higher than the line of a command that writes it, and no text has 0.

ghost use Rattle.std.specs.Prelude.{◌≡◌, ◌<◌, ◌↔◌, None, Some, IsTrue, MatchOption, length, slice_get};
ghost use Rattle.mencius_model.specs.KeyMap.{has_text, new_text};
ghost use Rattle.mencius_judge.specs.Answers.{is_done, is_without_effect};
ghost use Rattle.mencius_clients.specs.Configurations.{become, is_cas, submitted_by, text_at, text_of};

use mencius_base::{Command, Op, Text};
use mencius_judge::operations::{expected, is_read, new_text};
use mencius_log::Observation;

/// Returns the command that a line submits.
pub fn submitted_at(log: &[Observation], line: usize) -> Option<&Command>
    ensures { MatchOption result (submitted_by (slice_get log.now line) ≡ None)
        (λ c. submitted_by (slice_get log.now line) ≡ Some c.now) }
{
    match log.get(line) {
        Some(Observation::Submit { command }) => Some(command),
        _ => None,
    }
}

/// Returns the text with a number.
pub fn text_at(log: &[Observation], number: usize) -> Option<&Text>
    ensures { MatchOption result (text_at log.now number ≡ None) (λ t. text_at log.now number ≡ Some t.now) }
{
    if number == 0 {
        return None;
    }
    match submitted_at(log, number - 1) {
        Some(command) => new_text(command.op()),
        None => None,
    }
}

/// Returns whether the text with a number is this one.
pub fn is_text_at(log: &[Observation], number: usize, text: &Option<Text>) -> bool
    ensures { IsTrue result ↔ (text_at log.now number ≡ text.now) }
{
    match (text_at(log, number), text) {
        (Some(held), Some(text)) => held.as_str() == text.as_str(),
        (None, None) => true,
        _ => false,
    }
}

/// Returns whether the texts with two numbers are the same.
pub fn is_same_text_at(log: &[Observation], number: usize, other: usize) -> bool
    ensures { IsTrue result ↔ (text_at log.now number ≡ text_at log.now other) }
{
    if number == other {
        return true;
    }
    match (text_at(log, number), text_at(log, other)) {
        (Some(text), Some(other)) => text.as_str() == other.as_str(),
        (None, None) => true,
        _ => false,
    }
}

/// Returns whether an operation compares before it writes.
pub fn is_cas(op: &Op) -> bool
    ensures { result ≡ is_cas op.now }
{
    expected(op).is_some()
}

/// Returns whether a number has a text, and it is exactly this one.
pub fn has_text_at(log: &[Observation], number: usize, expected: &Text) -> bool
    ensures { result ≡ has_text (text_at log.now number) expected.now }
{
    match text_at(log, number) {
        Some(held) => held.as_str() == expected.as_str(),
        None => false,
    }
}

/// Returns whether `ok` is right for an operation whose key holds the text with this number.
pub fn is_done_at(log: &[Observation], held: usize, op: &Op) -> bool
    ensures { result ≡ is_done op.now (text_at log.now held) }
{
    match expected(op) {
        Some(old) => has_text_at(log, held, old),
        None => true,
    }
}

/// Returns whether `failed` is right for an operation whose key holds the text with this number.
pub fn is_without_effect_at(log: &[Observation], held: usize, op: &Op) -> bool
    ensures { result ≡ is_without_effect op.now (text_at log.now held) }
{
    is_read(op) || !is_done_at(log, held, op)
}

/// Returns the number of the text that a key holds after the operation that a line submits, if it held this one before.
pub fn number_after(log: &[Observation], held: usize, line: usize, op: &Op) -> usize
    requires { line < length log.now }
    ensures { text_of (submitted_by (slice_get log.now line)) ≡ new_text op.now
        → text_at log.now result ≡ become (text_at log.now held) op.now }
{
    if is_without_effect_at(log, held, op) {
        return held;
    }
    match new_text(op) {
        Some(_) => line + 1,
        None => 0,
    }
}
