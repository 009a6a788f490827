//! The judgement of what clients saw, and the text that it prints.

ghost use Rattle.std.specs.Prelude.{◌≡◌, ◌≤◌, ◌+◌, ◌++◌, string_bytes, IfErr, IfOk, OnOk};
ghost use Rattle.mencius_app.specs.ClientJudgements.{client_text, clients_task, explained_clients, further_text, is_linearizable, order_text};
ghost use Rattle.mencius_app.specs.Failures.{Fails, FailsToMake};
ghost use Rattle.mencius_app.specs.Tasks.{AsksLittle, AsksReader, IsOutput, Writes, streams};

use crate::output::{Output, deliver};
use mencius_clients::{
    ClientVerdict, judge_clients, push_client_explanation, push_client_json, push_client_verdict,
    push_order,
};
use mencius_command_line::ClientOptions;
use mencius_io::{Failure, Sink, Source};
use std::alloc::{AllocError, Global};

/// Judges what clients saw: the submissions and replies of the log from a reader. It reads the log to its end, and then
/// writes the verdict as one line. If the log has no linearization, the lines that show it and a sentence follow, unless
/// the options ask for a brief verdict. The options may also request the order that was found. It follows the verdict, as
/// the executions of one server. Or they may request one JSON object in place of all of it. Returns whether the log is
/// linearizable.
///
/// # Errors
///
/// Fails with the errors of [`judge_clients`], and with `WriteFailed`.
pub fn judge_by_clients<R: Source, W: Sink>(
    alloc: Global,
    source: &mut R,
    sink: &mut W,
    options: ClientOptions,
) -> Result<bool, Failure>
    // The text of the verdict was written.
    ensures done { IfOk result (Writes (clients_task options)
        (streams (R.state source.old) (R.state source.new) (W.state sink.old) (W.state sink.new))) }

    // The cause of a fault, and the limits on the use of the reader and the writer.
    ensures fault { IfErr result (Fails (explained_clients options)
        (streams (R.state source.old) (R.state source.new) (W.state sink.old) (W.state sink.new))) }
    ensures asked { AsksLittle
        (streams (R.state source.old) (R.state source.new) (W.state sink.old) (W.state sink.new)) }
{
    deliver(sink, read_client_judgement(alloc, source, options))
}

/// Judges what clients saw and makes the text of the verdict.
pub(crate) fn read_client_judgement<R: Source>(
    alloc: Global,
    source: &mut R,
    options: ClientOptions,
) -> Result<Output, Failure>
    ensures made { IfOk result (IsOutput (clients_task options) (R.state source.old).bytes) }
    ensures fault { IfErr result (FailsToMake (explained_clients options)
        (R.state source.old) (R.state source.new)) }
    ensures asked { AsksReader (R.state source.old) (R.state source.new) }
{
    let judgement = judge_clients(alloc, source, options.most as usize)?;
    let text = text_of(alloc, &judgement.verdict, options)?;
    Ok(Output {
        text,
        is_clean: is_linearizable(&judgement.verdict),
        judge: None,
    })
}

// Returns the text of a verdict.
fn text_of(
    alloc: Global,
    verdict: &ClientVerdict,
    options: ClientOptions,
) -> Result<String, AllocError>
    ensures { IfOk result (λ s. string_bytes s ≡ client_text options verdict.now) }
{
    let mut text = String::new(alloc);
    if options.is_json {
        push_client_json(&mut text, verdict, options.with_order)?;
        return Ok(text);
    }
    push_client_verdict(&mut text, verdict)?;
    push_further(&mut text, verdict, options)?;
    Ok(text)
}

// Appends the text after the line of a verdict: its explanation and the order, as the options request.
fn push_further(
    text: &mut String,
    verdict: &ClientVerdict,
    options: ClientOptions,
) -> Result<(), AllocError>
    ensures { OnOk result (string_bytes text.new ≡ string_bytes text.old ++ further_text options verdict.now) }
{
    if !options.is_brief {
        push_client_explanation(text, verdict)?;
    }
    if options.with_order {
        push_order_of(text, verdict)?;
    }
    Ok(())
}

// Appends the lines of the order of a verdict.
fn push_order_of(text: &mut String, verdict: &ClientVerdict) -> Result<(), AllocError>
    ensures { OnOk result (string_bytes text.new ≡ string_bytes text.old ++ order_text verdict.now) }
{
    match verdict {
        ClientVerdict::Linearizable { order, .. } => push_order(text, order.as_slice()),
        ClientVerdict::Unjudged { .. }
        | ClientVerdict::NotLinearizable { .. }
        | ClientVerdict::Broken { .. }
        | ClientVerdict::Undecided { .. } => Ok(()),
    }
}

fn is_linearizable(verdict: &ClientVerdict) -> bool
    ensures { result ≡ is_linearizable verdict.now }
{
    match verdict {
        ClientVerdict::Linearizable { .. } => true,
        ClientVerdict::Unjudged { .. }
        | ClientVerdict::NotLinearizable { .. }
        | ClientVerdict::Broken { .. }
        | ClientVerdict::Undecided { .. } => false,
    }
}
