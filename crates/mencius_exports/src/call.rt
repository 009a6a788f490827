//! A call of the program over bytes in memory.

ghost use Rattle.std.specs.Prelude.{◌≡◌, ◌++◌, [], IfOk, false, true, map};
ghost use Rattle.mencius_app.specs.Ending.{lines_of_ending, status_of_ending};
ghost use Rattle.mencius_exports.specs.Calls.{IsCall, IsStateCall, ending_of_state, memory_status, words_in};

use crate::streams::{Input, Text};
use mencius_app::{AppFault, Ending, Failure, end, exit_status, perform_in_turns, state};
use mencius_base::NoMemory;
use std::alloc::Global;

/// The result of a call of the program.
#[derive(Drop)]
pub(crate) struct Called {
    /// Its exit status.
    pub status: u8,
    /// The text for standard output.
    pub printed: Vec<u8>,
    /// The text for standard error.
    pub said: Vec<u8>,
    /// Whether it read its input.
    pub is_asked: bool,
}

impl Called {
    /// Makes the result of a call that ran out of memory. It printed nothing and said nothing.
    pub fn without_memory(alloc: Global) -> Called
        ensures status { result.status ≡ memory_status }
        ensures printed { result.printed.items ≡ [] }
        ensures said { result.said.items ≡ [] }
        ensures unread { result.is_asked ≡ false }
    {
        Called {
            status: exit_status(AppFault::NoMemory),
            printed: Vec::new(alloc),
            said: Vec::new(alloc),
            is_asked: false,
        }
    }

    /// Makes the result of a call that has done nothing yet, and wants its input.
    pub fn wanting(alloc: Global) -> Called
        ensures status { result.status ≡ 0 }
        ensures printed { result.printed.items ≡ [] }
        ensures said { result.said.items ≡ [] }
        ensures wants { result.is_asked ≡ true }
    {
        Called {
            status: 0,
            printed: Vec::new(alloc),
            said: Vec::new(alloc),
            is_asked: true,
        }
    }
}

/// Calls the program with these arguments and this input. Each argument ends with a zero byte.
pub(crate) fn call(alloc: Global, words: &[u8], input: &[u8]) -> Result<Called, NoMemory>
    ensures { IfOk result (λ x. IsCall (words_in words.now) input.now x.status x.printed.items
        x.said.items x.is_asked) }
{
    let arguments = arguments_in(alloc, words)?;
    let mut source = Input::new(input);
    let mut sink = Text::new(alloc);
    let mut errors = Text::new(alloc);
    let arguments = arguments.as_slice();
    let ending = perform_in_turns(alloc, arguments, &mut source, &mut sink, &mut errors);
    end_call(ending, source.is_asked, sink, errors)
}

/// Makes the text of the state after the scenario in this input.
pub(crate) fn call_for_state(alloc: Global, input: &[u8]) -> Result<Called, NoMemory>
    ensures { IfOk result (λ x. IsStateCall input.now x.status x.printed.items x.said.items
        x.is_asked) }
{
    let mut source = Input::new(input);
    let mut sink = Text::new(alloc);
    let ending = ending_of_state(state(alloc, &mut source, &mut sink));
    end_call(ending, true, sink, Text::new(alloc))
}

// Returns the ending of a call for a state.
fn ending_of_state(done: Result<(), Failure>) -> Ending
    ensures { result ≡ ending_of_state done }
{
    match done {
        Ok(()) => Ending::Done,
        Err(failure) => Ending::Failed(failure),
    }
}

/// Returns the result of a call with this ending, unless there was no memory for one of its texts.
pub(crate) fn end_call(
    ending: Ending,
    is_asked: bool,
    sink: Text,
    errors: Text,
) -> Result<Called, NoMemory>
    ensures whole { IfOk result (λ _. (sink.failures ≡ 0) × (errors.failures ≡ 0)) }
    ensures status { IfOk result (λ x. x.status ≡ status_of_ending ending) }
    ensures printed { IfOk result (λ x. x.printed.items ≡ sink.bytes.items) }
    ensures said { IfOk result (λ x. x.said.items ≡ errors.bytes.items ++ lines_of_ending ending) }
    ensures read { IfOk result (λ x. x.is_asked ≡ is_asked) }
{
    if sink.failures > 0 || errors.failures > 0 {
        return Err(NoMemory);
    }
    let mut errors = errors;
    let status = end(ending, &mut errors);
    if errors.failures > 0 {
        return Err(NoMemory);
    }
    Ok(Called {
        status,
        printed: sink.bytes,
        said: errors.bytes,
        is_asked,
    })
}

// Splits bytes into arguments, each of which ends with a zero byte. Bytes after the last zero byte are ignored.
fn arguments_in(alloc: Global, words: &[u8]) -> Result<Vec<Vec<u8>>, NoMemory>
    ensures { IfOk result (λ x. map (λ a. a.items) x.items ≡ words_in words.now) }
{
    let mut arguments = Vec::new(alloc);
    let mut word = Vec::new(alloc);
    for byte in words {
        if *byte == 0 {
            arguments.push(word)?;
            word = Vec::new(alloc);
        } else {
            word.push(*byte)?;
        }
    }
    Ok(arguments)
}
