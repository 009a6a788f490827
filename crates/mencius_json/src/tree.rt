//! Builds the tree of a JSON text.

ghost use Rattle.std.specs.Prelude.{◌≡◌, IfErr, IfOk, option_map};
ghost use Rattle.serde_json.specs.Read.{read};
ghost use Rattle.serde_json.specs.View.{view};
ghost use Rattle.serde_json.specs.Errors.{IsMemory};

use mencius_base::NoMemory;
use serde_json::{Error, Value};
use std::alloc::Global;

/// Separates a failed allocation from the errors of a text. Fails with `NoMemory` if `serde_json` reports that memory
/// ran out. Any other result of `serde_json` is returned unchanged.
pub(crate) fn memory_apart(answer: Result<Value, Error>) -> Result<Result<Value, Error>, NoMemory>
    ensures answer { IfOk result (λ same. same ≡ answer) }
    ensures text { IfOk result (λ same. IfErr same (λ e. ¬ IsMemory e)) }
{
    match answer {
        Ok(tree) => Ok(Ok(tree)),
        Err(e) if e.is_memory() => Err(NoMemory),
        Err(e) => Ok(Err(e)),
    }
}

/// Builds the tree of a text. Returns `None` if the text is not JSON, and fails only with `NoMemory`.
pub fn tree_of(alloc: Global, text: &str) -> Result<Option<Value>, NoMemory>
    ensures { IfOk result (λ o. option_map view o ≡ read text.now) }
{
    Ok(memory_apart(Value::from_str(alloc, text))?.ok())
}
