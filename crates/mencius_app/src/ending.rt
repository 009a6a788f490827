//! The end of a call of the program, with its exit status and its lines on standard error.

ghost use Rattle.std.specs.Prelude.{◌≡◌, ◌++◌, OnOk, OnErr, codes, option_copied};
ghost use Rattle.std.specs.Io.KnownBytes.{Appends};
ghost use Rattle.mencius_io.specs.Streams.{HasFailed, WritesFront};
ghost use Rattle.mencius_app.specs.Calls.{WritesOrFails};
ghost use Rattle.mencius_app.specs.Ending.{ending_of, ending_of_run, fault_line, lines_of_ending, status_of, status_of_ending, words_line};

use crate::fault::AppFault;
use crate::run_failure::RunFailure;
use mencius_io::{Failure, IoFault, Sink, write_all};

/// How a call of the program ended.
#[derive(Debug, Drop, PartialEq, Eq)]
pub enum Ending {
    /// The call did everything that the command line requests, and wrote the whole text.
    Done,
    /// The call wrote the whole text, but a strict replay had refused events, or the judged log breaks a promise.
    Refused,
    /// The command line is refused.
    BadCommandLine,
    /// The call failed with a fault.
    Failed(Failure),
    /// The board that the workers of a run share failed.
    BoardFailed,
}

/// Ends a call of the program. If the call failed, writes the line of its fault, `mencius: fault NUMBER NAME`, and then
/// the words that explain it, if there are any. If the lines can't be written, the status stays the same. Returns the
/// exit status:
///
/// - 0 if everything was done;
/// - 1 if a strict replay had refused events or a judged log breaks a promise;
/// - 2 for a bad command line;
/// - otherwise [`exit_status`] of the fault.
pub fn end<E: Sink>(ending: Ending, errors: &mut E) -> u8
    ensures status { result ≡ status_of_ending ending }
    ensures lines { WritesOrFails (E.state errors.old) (E.state errors.new) (lines_of_ending ending) }
{
    match ending {
        Ending::Done => 0,
        Ending::Refused => 1,
        Ending::BadCommandLine => 2,
        Ending::Failed(Failure { fault, words }) => {
            write_fault(errors, AppFault::from(fault), words.as_deref())
        }
        Ending::BoardFailed => write_fault(errors, AppFault::BoardFailed, None),
    }
}

/// Returns the ending of a call from the result of its task. If a text is not clean, the ending is `Refused` only if
/// `is_reported` is set.
pub fn ending_of(is_reported: bool, done: Result<bool, Failure>) -> Ending
    ensures { result ≡ ending_of is_reported done }
{
    match done {
        Ok(is_clean) => {
            if is_reported && !is_clean {
                Ending::Refused
            } else {
                Ending::Done
            }
        }
        Err(failure) => Ending::Failed(failure),
    }
}

/// Returns the ending of a call from the result of its run.
pub(crate) fn ending_of_run(done: Result<(), RunFailure>) -> Ending
    ensures { result ≡ ending_of_run done }
{
    match done {
        Ok(()) => Ending::Done,
        Err(RunFailure::Failed(failure)) => Ending::Failed(failure),
        Err(RunFailure::BoardFailed) => Ending::BoardFailed,
    }
}

/// Returns the exit status of a task that ended with a fault. It is 3 for a bad input, 4 if reading or writing failed,
/// and 5 if memory ran out or the board failed.
pub fn exit_status(fault: AppFault) -> u8
    ensures { result ≡ status_of fault }
{
    match fault {
        AppFault::NotJson | AppFault::BadShape | AppFault::BadLimit => 3,
        AppFault::ReadFailed | AppFault::WriteFailed => 4,
        AppFault::NoMemory | AppFault::BoardFailed => 5,
    }
}

// Writes the line of a fault, and then the words for it as another line, if there are any. Returns the exit status.
fn write_fault<E: Sink>(errors: &mut E, fault: AppFault, words: Option<&str>) -> u8
    ensures status { result ≡ status_of fault }
    ensures lines { WritesOrFails (E.state errors.old) (E.state errors.new)
        (fault_line fault ++ words_line (option_copied words.entry)) }
{
    // If standard error fails, there is nowhere left to report it.
    let _ = match words {
        Some(words) => write_words(errors, line_of_fault(fault), words),
        None => write_all(errors, line_of_fault(fault).as_bytes()),
    };
    exit_status(fault)
}

// Writes a line, and then some words as another line.
fn write_words<E: Sink>(errors: &mut E, line: &str, words: &str) -> Result<(), IoFault>
    ensures whole { OnOk result (Appends (E.state errors.old).bytes (E.state errors.new).bytes
        (line.now ++ (words.now ++ codes "\n"))) }
    ensures front { WritesFront (E.state errors.old).bytes (E.state errors.new).bytes
        (line.now ++ (words.now ++ codes "\n")) }
    ensures failed { OnErr result (HasFailed (E.state errors.old).failures (E.state errors.new).failures) }
{
    write_all(errors, line.as_bytes())?;
    let done = write_both(errors, words, "\n");
    let _within_limit = errors.failures(); // proof: the count fits in 64 bits
    done
}

/// Writes two texts, one after the other.
pub(crate) fn write_both<E: Sink>(errors: &mut E, first: &str, second: &str) -> Result<(), IoFault>
    ensures whole { OnOk result (Appends (E.state errors.old).bytes (E.state errors.new).bytes
        (first.now ++ second.now)) }
    ensures front { WritesFront (E.state errors.old).bytes (E.state errors.new).bytes
        (first.now ++ second.now) }
    ensures failed { OnErr result (HasFailed (E.state errors.old).failures (E.state errors.new).failures) }
{
    write_all(errors, first.as_bytes())?;
    let done = write_all(errors, second.as_bytes());
    let _within_limit = errors.failures(); // proof: the count fits in 64 bits
    done
}

// Returns the line of a fault. It does not allocate, because memory may have run out.
#[tactic(auto, unfolding(core::specs::Fmt::digits))]
fn line_of_fault(fault: AppFault) -> &'static str
    ensures { result.now ≡ fault_line fault }
{
    match fault {
        AppFault::NotJson => "mencius: fault 21 NotJson\n",
        AppFault::BadShape => "mencius: fault 22 BadShape\n",
        AppFault::BadLimit => "mencius: fault 23 BadLimit\n",
        AppFault::ReadFailed => "mencius: fault 24 ReadFailed\n",
        AppFault::WriteFailed => "mencius: fault 25 WriteFailed\n",
        AppFault::NoMemory => "mencius: fault 26 NoMemory\n",
        AppFault::BoardFailed => "mencius: fault 27 BoardFailed\n",
    }
}
