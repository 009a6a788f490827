//! The failures of a task whose input is wrong, with the words that explain them.

ghost use Rattle.std.specs.Prelude.{◌≡◌, IfSome, string_bytes, true};
ghost use Rattle.mencius_input.specs.Explanations.{Explains, ExplainsUnread};
ghost use Rattle.mencius_app.specs.Failures.{ExplainsAs, IsOtherKind, other_kind_words};

use mencius_input::{Kind, explain, explain_unread, read_plan, read_scenario};
use mencius_io::{Failure, IoFault};
use std::alloc::Global;

/// Returns the failure of a task that could not read all of its input.
pub(crate) fn unread(alloc: Global, fault: IoFault) -> Failure
    ensures fault { result.fault ≡ fault }
    ensures words { IfSome result.words (λ words. ExplainsUnread fault (string_bytes words)) }
{
    let words = if fault == IoFault::NoMemory {
        None
    } else {
        explain_unread(alloc, fault).ok()
    };
    Failure { fault, words }
}

/// Returns the failure of a task whose input, as a scenario of this kind, has this fault.
pub(crate) fn misread(alloc: Global, kind: Kind, bytes: &[u8], fault: IoFault) -> Failure
    ensures fault { result.fault ≡ fault }
    ensures words { IfSome result.words (λ words.
        Explains kind fault bytes.now (string_bytes words)) }
{
    let words = if fault == IoFault::NoMemory {
        None
    } else {
        explain(alloc, kind, bytes, fault).ok()
    };
    Failure { fault, words }
}

/// Returns the failure of a task that accepts only scenarios of this kind. If the input is a scenario of the other
/// kind, the words say so.
pub(crate) fn misread_as(alloc: Global, kind: Kind, bytes: &[u8], fault: IoFault) -> Failure
    ensures fault { result.fault ≡ fault }
    ensures words { IfSome result.words (λ words.
        ExplainsAs kind fault bytes.now (string_bytes words)) }
{
    if fault == IoFault::BadShape && is_other_kind(alloc, kind, bytes) {
        let words = words_of_other(alloc, kind);
        return Failure { fault, words };
    }
    misread(alloc, kind, bytes, fault)
}

// Returns whether these bytes are a scenario of the other kind, or `false` if memory runs out.
fn is_other_kind(alloc: Global, kind: Kind, bytes: &[u8]) -> bool
    ensures { result ≡ true → IsOtherKind kind bytes.now }
{
    match kind {
        Kind::Replay => read_plan(alloc, bytes).is_ok(),
        Kind::Run => read_scenario(alloc, bytes).is_ok(),
    }
}

fn words_of_other(alloc: Global, kind: Kind) -> Option<String>
    ensures { IfSome result (λ words. string_bytes words ≡ other_kind_words kind) }
{
    let words = match kind {
        Kind::Replay => "this is a scenario of a run: `mencius run` takes it",
        Kind::Run => "this is a scenario of events: `mencius replay` takes it",
    };
    String::from_str(alloc, words).ok()
}
