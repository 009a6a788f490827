//! Decides which kind of scenario a text is meant as.

ghost use Rattle.std.specs.Prelude.{◌≡◌, IfOk};
ghost use Rattle.serde_json.specs.View.{view};
ghost use Rattle.mencius_input.specs.Kinds.{has_field, has_run_field, kind_in, kind_of};

use crate::field::{Field, run_fields};
use mencius_base::NoMemory;
use mencius_json::{crowd_in, tree_of};
use serde_json::Value;
use std::alloc::Global;

/// The kind of a scenario.
#[derive(Clone, Copy, Debug, PartialEq, Eq)]
pub enum Kind {
    /// Events that are replayed or traced.
    Replay,
    /// A plan that workers follow.
    Run,
}

// Returns whether a field is present.
fn has_field(field: Field, value: &Value) -> bool
    ensures { result ≡ has_field field (view value.now) }
{
    value.get(field.name()).is_some()
}

// Returns whether any field is present that only the scenario of a run has.
#[tactic(auto, unfolding(crate::specs::Kinds::has_run_field))]
fn has_run_field(value: &Value) -> bool
    ensures { result ≡ has_run_field (view value.now) }
{
    for field in run_fields() {
        if has_field(*field, value) {
            return true;
        }
    }
    has_field(Field::Commands, value)
}

// Returns the kind that a value is meant as.
fn kind_of_value(value: &Value) -> Kind
    ensures { result ≡ kind_of (view value.now) }
{
    if !has_field(Field::Events, value) && has_run_field(value) {
        Kind::Run
    } else {
        Kind::Replay
    }
}

/// Returns the kind of scenario that a text is meant as. The fields of the text decide this. The kind is `Run` if the
/// text has no field `events`, but a field that only a run has, such as `workers` or `commands`. Otherwise it is
/// `Replay`. It is also `Replay` if the text is not JSON, or has too many signs for a tree (see
/// [`crowd_in`](mencius_json::crowd_in)).
///
/// # Errors
///
/// `NoMemory` if memory ran out.
#[tactic(auto, using(crate::proofs::JsonTexts::utf8_yes, crate::proofs::JsonTexts::utf8_no))]
pub fn kind_of(alloc: Global, bytes: &[u8]) -> Result<Kind, NoMemory>
    ensures { IfOk result (λ kind. kind ≡ kind_in bytes.now) }
{
    if crowd_in(bytes).is_some() {
        return Ok(Kind::Replay);
    }
    let Ok(text) = std::str::from_utf8(bytes) else {
        return Ok(Kind::Replay);
    };
    match tree_of(alloc, text)? {
        Some(value) => Ok(kind_of_value(&value)),
        None => Ok(Kind::Replay),
    }
}
