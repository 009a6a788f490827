//! Prints help, the version, or the mistake in the arguments.

ghost use Rattle.std.specs.Prelude.{◌≡◌, ◌≢◌, ◌⊎◌, ◌≤◌, ◌+◌, ℕ, List, IfSome, Some, None};
ghost use Rattle.std.specs.Io.KnownBytes.{Appends};
ghost use Rattle.clap.specs.Words.{kind_of};
ghost use Rattle.mencius_command_line.specs.CommandLine.{bytes_of};
ghost use Rattle.mencius_command_line.specs.Help.{shown_for};
ghost use Rattle.mencius_io.specs.Streams.{HasFailed, WritesFront, most_failed_calls};
ghost use Rattle.mencius_app.specs.Calls.{IsMistakeText, WritesOrFails};
ghost use Rattle.mencius_app.specs.Ending.{failure_in};

use crate::ending::{Ending, write_both};
use clap::Error;
use clap::error::ErrorKind;
use mencius_command_line::text_to_show;
use mencius_io::{Failure, IoFault, Sink, write_all};
use std::alloc::Global;

/// The message of `clap` for an argument that is not text. It is a constant, so the program can report such an argument
/// even if memory runs out.
pub(crate) const NOT_TEXT: &str = "\
error: invalid UTF-8 was detected in one or more arguments

Usage: mencius <COMMAND>

For more information, try '--help'.
";

// The beginning of each message of `clap`.
const ERROR: &str = "error: ";

/// Writes help or the version to `sink` if the arguments request it. Otherwise, writes the mistake in the arguments to
/// `errors`.
pub(crate) fn answer_command_line<W: Sink, E: Sink>(
    alloc: Global,
    arguments: &[Vec<u8>],
    error: &Error,
    sink: &mut W,
    errors: &mut E,
) -> Ending
    // The call ends with `Done` only if it wrote the text that the arguments request.
    ensures done { result ≡ Ending.Done → (text : List ℕ)
        × (shown_for (kind_of error.now) (bytes_of arguments.now) ≡ Some text)
        × Appends (W.state sink.old).bytes (W.state sink.new).bytes text }
    ensures plain { (result ≢ Ending.Refused) × (result ≢ Ending.BoardFailed)
        × (kind_of error.now ≡ ErrorKind.OutOfMemory → IfSome (failure_in result)
        (λ failure. failure.fault ≡ IoFault.NoMemory)) }

    // A mistake is reported, and nothing was written to `sink`.
    ensures misused { result ≡ Ending.BadCommandLine → (kind_of error.now ≢ ErrorKind.OutOfMemory)
        × (shown_for (kind_of error.now) (bytes_of arguments.now) ≡ None)
        × (sink.new ≡ sink.old) }
    ensures complaint { result ≡ Ending.BadCommandLine → (text : List ℕ) × IsMistakeText text
        × WritesOrFails (E.state errors.old) (E.state errors.new) text }
    ensures quiet { result ≢ Ending.BadCommandLine → errors.new ≡ errors.old }

    ensures fault { IfSome (failure_in result) (λ failure. (failure.words ≡ None)
        × (((failure.fault ≡ IoFault.WriteFailed)
        × HasFailed (W.state sink.old).failures (W.state sink.new).failures × (text : List ℕ)
        × (shown_for (kind_of error.now) (bytes_of arguments.now) ≡ Some text)
        × WritesFront (W.state sink.old).bytes (W.state sink.new).bytes text)
        ⊎ ((failure.fault ≡ IoFault.NoMemory) × (sink.new ≡ sink.old)))) }
    ensures tried { (W.state sink.new).failures
        ≤ (W.state sink.old).failures + most_failed_calls }
{
    if error.kind() == ErrorKind::OutOfMemory {
        return Ending::Failed(Failure::from(IoFault::NoMemory));
    }
    match text_to_show(error.kind(), arguments) {
        Some(text) => match write_all(sink, text.as_bytes()) {
            Ok(()) => Ending::Done,
            Err(fault) => Ending::Failed(Failure::from(fault)),
        },
        None => complain(alloc, error, errors),
    }
}

// Writes the mistake in the command line to `errors`.
fn complain<E: Sink>(alloc: Global, error: &Error, errors: &mut E) -> Ending
    ensures cases { (result ≡ Ending.BadCommandLine)
        ⊎ (result ≡ Ending.Failed (record { fault = IoFault.NoMemory; words = None })) }
    ensures complaint { result ≡ Ending.BadCommandLine → (text : List ℕ) × IsMistakeText text
        × WritesOrFails (E.state errors.old) (E.state errors.new) text }
    ensures quiet { result ≢ Ending.BadCommandLine → errors.new ≡ errors.old }
{
    let Ok(text) = format!(in alloc; "{error}") else {
        return Ending::Failed(Failure {
            fault: IoFault::NoMemory,
            words: None,
        });
    };
    let text = text.as_str();
    // `clap` promises nothing about its text. Each of its messages does begin with `ERROR`, and this code makes sure of
    // it.
    let words = text.strip_prefix(ERROR).unwrap_or(text);
    // If standard error fails, there is nowhere left to report it.
    let _ = write_both(errors, ERROR, words);
    Ending::BadCommandLine
}
