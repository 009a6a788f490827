//! The failures of a log with a line that cannot be read.

ghost use Rattle.std.specs.Prelude.{◌≡◌, None, IfOk, string_bytes};
ghost use Rattle.mencius_log.specs.BadLines.{ExplainsLine, MayExplainLine};

use crate::wrong::{cut_short, too_long, wrong_line};
use mencius_base::NoMemory;
use mencius_io::{Failure, IoFault};
use std::alloc::Global;

/// Returns the failure of a log in which the line with this number has this fault, which
/// [`parse_line`](crate::parse_line) returned for it. Its words explain the line. It has no words if memory ran out.
#[inline(never)]
pub fn misread_line(alloc: Global, number: u64, line: &[u8], fault: IoFault) -> Failure
    ensures fault { result.fault ≡ fault }
    ensures words { MayExplainLine number result.words }
    ensures none { fault ≡ IoFault.NoMemory → result.words ≡ None }
{
    bad_line(alloc, number, fault, wrong_line(alloc, line, fault))
}

/// Returns the failure of a log in which the line with this number is too long. The fault is `BadLimit`.
pub fn line_too_long(alloc: Global, number: u64) -> Failure
    ensures fault { result.fault ≡ IoFault.BadLimit }
    ensures words { MayExplainLine number result.words }
{
    bad_line(alloc, number, IoFault::BadLimit, too_long(alloc))
}

/// Returns the failure of a log that ends within the line with this number, of which these bytes are there. The fault is
/// `BadShape`.
pub fn line_cut_short(alloc: Global, number: u64, line: &[u8]) -> Failure
    ensures fault { result.fault ≡ IoFault.BadShape }
    ensures words { MayExplainLine number result.words }
{
    bad_line(alloc, number, IoFault::BadShape, cut_short(alloc, line))
}

// Returns the failure of a log with this bad line. Its words explain the line, unless memory ran out.
fn bad_line(alloc: Global, number: u64, fault: IoFault, wrong: Result<String, NoMemory>) -> Failure
    ensures fault { result.fault ≡ fault }
    ensures words { MayExplainLine number result.words }
    ensures none { fault ≡ IoFault.NoMemory → result.words ≡ None }
{
    if fault == IoFault::NoMemory {
        return Failure::from(fault);
    }
    Failure {
        fault,
        words: words_of(alloc, number, wrong).ok(),
    }
}

fn words_of(alloc: Global, number: u64, wrong: Result<String, NoMemory>) -> Result<String, NoMemory>
    ensures { IfOk result (λ words. ExplainsLine number (string_bytes words)) }
{
    let text = wrong?;
    Ok(format!(in alloc; "line {number}: {text}")?)
}
