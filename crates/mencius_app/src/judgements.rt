//! The judgement of a log, and the text that it prints.

ghost use Rattle.std.specs.Prelude.{◌≡◌, ◌≤◌, ◌+◌, ◌++◌, string_bytes, IfErr, IfOk, OnOk};
ghost use Rattle.mencius_io.specs.Streams.{most_failed_calls};
ghost use Rattle.mencius_judge.specs.declared.log_reader.Verdict.TheVariants.{Broken};
ghost use Rattle.mencius_app.specs.Failures.{Fails, FailsToMake};
ghost use Rattle.mencius_app.specs.Judgements.{explained_judgement, is_kept, judge_task, report_text, verdict_text};
ghost use Rattle.mencius_app.specs.Tasks.{IsOutput, Writes, streams};

use crate::output::{Output, deliver};
use mencius_io::{Failure, Sink, Source};
use mencius_judge::{Breach, Verdict, judge_log};
use mencius_verdict::{push_broken, push_explanation, push_json, push_kept, push_unjudged};
use std::alloc::{AllocError, Global};

/// Judges the log from a reader as its bytes arrive, and writes the verdict. If a line of the log breaks a promise, it
/// writes the verdict at once, without waiting for more, with the lines that show the violation and a sentence.
/// Otherwise it writes the verdict at the end of the log, as one line. `is_brief` leaves out the lines and the sentence.
/// `is_json` gives one JSON object in place of all of it. Returns whether all promises are kept and something was
/// judged.
///
/// # Errors
///
/// Fails with the errors of [`judge_log`], and with `WriteFailed`.
pub fn judge<R: Source, W: Sink>(
    alloc: Global,
    source: &mut R,
    sink: &mut W,
    is_brief: bool,
    is_json: bool,
) -> Result<bool, Failure>
    // The text of the verdict was written.
    ensures done { IfOk result (Writes (judge_task is_brief is_json)
        (streams (R.state source.old) (R.state source.new) (W.state sink.old) (W.state sink.new))) }

    // The cause of a fault. In every case, the number of failed calls is limited.
    ensures fault { IfErr result (Fails (explained_judgement is_brief is_json)
        (streams (R.state source.old) (R.state source.new) (W.state sink.old) (W.state sink.new))) }
    ensures few_reads { (R.state source.new).failures
        ≤ (R.state source.old).failures + most_failed_calls }
    ensures few_writes { (W.state sink.new).failures
        ≤ (W.state sink.old).failures + most_failed_calls }
{
    deliver(sink, read_judgement(alloc, source, is_brief, is_json))
}

/// Judges a log and makes the text of the verdict.
pub(crate) fn read_judgement<R: Source>(
    alloc: Global,
    source: &mut R,
    is_brief: bool,
    is_json: bool,
) -> Result<Output, Failure>
    ensures made { IfOk result (IsOutput (judge_task is_brief is_json) (R.state source.old).bytes) }
    ensures fault { IfErr result (FailsToMake (explained_judgement is_brief is_json)
        (R.state source.old) (R.state source.new)) }
    ensures few { (R.state source.new).failures
        ≤ (R.state source.old).failures + most_failed_calls }
{
    let judgement = judge_log(alloc, source)?;
    let text = text_of_verdict(alloc, &judgement.verdict, is_brief, is_json)?;
    let is_clean = is_kept(&judgement.verdict);
    Ok(Output {
        text,
        is_clean,
        judge: Some(judgement.judge),
    })
}

/// Returns the text of a verdict, as [`judge`] writes it. `is_brief` leaves out the explanation, and `is_json` gives a
/// JSON object.
pub fn text_of_verdict(
    alloc: Global,
    verdict: &Verdict,
    is_brief: bool,
    is_json: bool,
) -> Result<String, AllocError>
    ensures { IfOk result (λ s. string_bytes s ≡ verdict_text is_brief is_json verdict.now) }
{
    let mut text = String::new(alloc);
    if is_json {
        push_json(&mut text, verdict)?;
        return Ok(text);
    }
    push_report(&mut text, verdict, is_brief)?;
    Ok(text)
}

// Appends the text of a verdict, which is no JSON object.
fn push_report(text: &mut String, verdict: &Verdict, is_brief: bool) -> Result<(), AllocError>
    ensures { OnOk result (string_bytes text.new
        ≡ string_bytes text.old ++ report_text is_brief verdict.now) }
{
    match verdict {
        Verdict::Kept(counts) => push_kept(text, counts),
        Verdict::Unjudged(counts) => push_unjudged(text, counts),
        Verdict::Broken(breach) => push_breach(text, breach, is_brief),
    }
}

// Appends the text of a verdict on a log that breaks a promise.
fn push_breach(text: &mut String, breach: &Breach, is_brief: bool) -> Result<(), AllocError>
    ensures { OnOk result (string_bytes text.new
        ≡ string_bytes text.old ++ report_text is_brief (Broken breach.now)) }
{
    push_broken(text, breach.number, &breach.violation)?;
    if is_brief {
        return Ok(());
    }
    push_explanation(text, &breach.violation, breach.quotes.as_slice())
}

/// Returns whether the verdict is that all promises are kept and something was judged.
pub fn is_kept(verdict: &Verdict) -> bool
    ensures { result ≡ is_kept verdict.now }
{
    match verdict {
        Verdict::Kept(_) => true,
        Verdict::Unjudged(_) => false,
        Verdict::Broken(_) => false,
    }
}
