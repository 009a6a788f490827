//! Everything that distinguishes one operation on the map from another.

ghost use Rattle.std.specs.Prelude.{◌≡◌, ◌↔◌, IfOk, IsTrue, MatchOption, None, Some};
ghost use Rattle.mencius_model.specs.KeyMap.{has_text, key_of, expected, is_read, new_text};
ghost use Rattle.mencius_judge.specs.Timelines.{Becomes};

use crate::texts::copy_of;
use mencius_base::{NoMemory, Op, Text};

/// Returns whether two operations are the same.
pub fn is_same_op(first: &Op, second: &Op) -> bool
    ensures { IsTrue result ↔ (first.now ≡ second.now) }
{
    match (first, second) {
        (
            Op::Set { key, text },
            Op::Set {
                key: other,
                text: value,
            },
        ) => key.as_str() == other.as_str() && text.as_str() == value.as_str(),
        (Op::Get { key }, Op::Get { key: other }) => key.as_str() == other.as_str(),
        (Op::Del { key }, Op::Del { key: other }) => key.as_str() == other.as_str(),
        (
            Op::Cas { key, held, text },
            Op::Cas {
                key: other,
                held: former,
                text: value,
            },
        ) => {
            key.as_str() == other.as_str()
                && held.as_str() == former.as_str()
                && text.as_str() == value.as_str()
        }
        _ => false,
    }
}

/// Returns the key of an operation.
pub fn key_of(op: &Op) -> &str
    ensures { result.now ≡ key_of op.now }
{
    match op {
        Op::Set { key, .. } | Op::Get { key } | Op::Del { key } | Op::Cas { key, .. } =>
            key.as_str(),
    }
}

/// Returns the text that an operation expects its key to hold, if it compares before it writes.
pub fn expected(op: &Op) -> Option<&Text>
    ensures { MatchOption result (expected op.now ≡ None) (λ t. expected op.now ≡ Some t.now) }
{
    match op {
        Op::Cas { held, .. } => Some(held),
        Op::Set { .. } | Op::Get { .. } | Op::Del { .. } => None,
    }
}

/// Returns the text that an operation writes.
pub fn new_text(op: &Op) -> Option<&Text>
    ensures { MatchOption result (new_text op.now ≡ None) (λ t. new_text op.now ≡ Some t.now) }
{
    match op {
        Op::Set { text, .. } | Op::Cas { text, .. } => Some(text),
        Op::Get { .. } | Op::Del { .. } => None,
    }
}

/// Returns whether an operation only reads.
pub fn is_read(op: &Op) -> bool
    ensures { result ≡ is_read op.now }
{
    match op {
        Op::Get { .. } => true,
        Op::Set { .. } | Op::Del { .. } | Op::Cas { .. } => false,
    }
}

/// Returns the text that the key of an operation holds after it, if the key held `former` before it.
#[tactic(auto, using(crate::proofs::keys::Changes::put_there, crate::proofs::keys::Changes::taken_there, crate::proofs::keys::Changes::put_where_held))]
pub fn text_after(former: &Option<Text>, op: &Op) -> Result<Option<Text>, NoMemory>
    ensures { IfOk result (Becomes former.now op.now) }
{
    match op {
        Op::Set { text, .. } => Ok(Some(text.clone()?)),
        Op::Get { .. } => copy_of(former),
        Op::Del { .. } => Ok(None),
        Op::Cas { held, text, .. } if has_text(former, held) => Ok(Some(text.clone()?)),
        Op::Cas { .. } => copy_of(former),
    }
}

/// Returns whether there is a former text, and it is exactly `held`.
pub fn has_text(former: &Option<Text>, held: &Text) -> bool
    ensures { result ≡ has_text former.now held.now }
{
    match former {
        Some(former) => former.as_str() == held.as_str(),
        None => false,
    }
}
