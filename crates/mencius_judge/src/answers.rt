//! When a reply is right, and when two replies are the same.

ghost use Rattle.std.specs.Prelude.{◌≡◌, ◌↔◌, IfOk, IsTrue};
ghost use Rattle.mencius_judge.specs.Answers.{IsRight, is_done, is_without_effect};
ghost use Rattle.mencius_judge.specs.Log.{is_failed};

use crate::operations::{expected, has_text, is_read};
use crate::texts::{copy_of, is_same_text};
use mencius_base::{NoMemory, Op, Text};
use mencius_log::Answer;

/// Returns whether a reply is `failed`.
pub fn is_failed(answer: &Answer) -> bool
    ensures { result ≡ is_failed answer.now }
{
    match answer {
        Answer::Held { .. } | Answer::Done => false,
        Answer::Failed => true,
    }
}

/// Returns whether two replies are written in the same way.
pub fn is_same_answer(first: &Answer, second: &Answer) -> bool
    ensures { IsTrue result ↔ (first.now ≡ second.now) }
{
    match (first, second) {
        (Answer::Held { text }, Answer::Held { text: other }) => is_same_text(text, other),
        (Answer::Done, Answer::Done) => true,
        (Answer::Failed, Answer::Failed) => true,
        _ => false,
    }
}

/// Returns a copy of a reply.
pub fn copy_of_answer(answer: &Answer) -> Result<Answer, NoMemory>
    ensures { IfOk result (λ copy. copy ≡ answer.now) }
{
    match answer {
        Answer::Held { text } => Ok(Answer::Held {
            text: copy_of(text)?,
        }),
        Answer::Done => Ok(Answer::Done),
        Answer::Failed => Ok(Answer::Failed),
    }
}

/// Returns whether a reply is right for an operation whose key holds this text before it.
pub fn is_right(op: &Op, held: &Option<Text>, answer: &Answer) -> bool
    ensures { IsTrue result ↔ IsRight op.now held.now answer.now }
{
    match answer {
        Answer::Held { text } => is_same_text(text, held),
        Answer::Done => is_done(op, held),
        Answer::Failed => is_without_effect(op, held),
    }
}

// Returns whether `ok` is right for an operation whose key holds this text before it.
fn is_done(op: &Op, held: &Option<Text>) -> bool
    ensures { result ≡ is_done op.now held.now }
{
    match expected(op) {
        Some(old) => has_text(held, old),
        None => true,
    }
}

// Returns whether `failed` is right for an operation whose key holds this text before it.
fn is_without_effect(op: &Op, held: &Option<Text>) -> bool
    ensures { result ≡ is_without_effect op.now held.now }
{
    is_read(op) || !is_done(op, held)
}
