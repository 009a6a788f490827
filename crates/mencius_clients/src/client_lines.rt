//! Appends the line that reports a verdict on a log that clients saw.

ghost use Rattle.std.specs.Prelude.{◌≡◌, ◌++◌, ◌∷◌, [], OnOk, codes, flat_map, string_bytes};
ghost use Rattle.mencius_log.specs.ObservationLines.{answer_text};
ghost use Rattle.mencius_verdict.specs.VerdictLines.{quote_lines};
ghost use Rattle.mencius_clients.specs.ClientLines.{cause_text, client_explanation, client_verdict_line, counted_line, execution_line, fitting_sentence, fitting_text, named_text, order_lines, said_text, undecided_line, without_line, without_text};

use crate::client_counts::ClientCounts;
use crate::client_verdict::{ClientVerdict, GiveUp};
use mencius_base::CommandId;
use mencius_judge::Quote;
use mencius_log::{Answer, Observation, push_answer, push_observation};
use mencius_verdict::{push_broken, push_quotes};
use std::alloc::AllocError;

/// Appends the line that reports a verdict.
pub fn push_client_verdict(text: &mut String, verdict: &ClientVerdict) -> Result<(), AllocError>
    ensures { OnOk result (string_bytes text.new
        ≡ string_bytes text.old ++ client_verdict_line verdict.now) }
{
    match verdict {
        ClientVerdict::Linearizable { counts, .. } => push_counted(text, "linearizable", counts),
        ClientVerdict::Unjudged { counts } => push_counted(text, "unjudged", counts),
        ClientVerdict::NotLinearizable { number, key, .. } => push_without(
            text,
            *number,
            key.as_str(),
        ),
        ClientVerdict::Broken { number, violation } => push_broken(text, *number, violation),
        ClientVerdict::Undecided { number, key, cause } => push_undecided(
            text,
            *number,
            key.as_str(),
            *cause,
        ),
    }
}

// The sentences that say why a log has no linearization.
const FITTING_SENTENCE: &str = "No order of the commands fits the last of these replies. \
    In an order, a command comes after those that had a reply before it was submitted, and a map gives each reply.";

/// Appends the lines that explain a verdict. Only a log without a linearization has them. They are the quoted lines and
/// some sentences.
pub fn push_client_explanation(text: &mut String, verdict: &ClientVerdict) -> Result<(), AllocError>
    ensures { OnOk result (string_bytes text.new
        ≡ string_bytes text.old ++ client_explanation verdict.now) }
{
    match verdict {
        ClientVerdict::NotLinearizable {
            quotes,
            fitting,
            ..
        } => { push_unfitting(text, quotes.as_slice(), fitting.as_slice()) }
        ClientVerdict::Linearizable { .. }
        | ClientVerdict::Unjudged { .. }
        | ClientVerdict::Broken { .. }
        | ClientVerdict::Undecided { .. } => Ok(()),
    }
}

// Appends quoted lines, and the sentences that say why they show that a log has no linearization.
fn push_unfitting(text: &mut String, quotes: &[Quote], fitting: &[Answer]) -> Result<(), AllocError>
    ensures { OnOk result (string_bytes text.new
        ≡ string_bytes text.old ++ (quote_lines quotes.now ++ (said_text fitting.now ++ 10 ∷ []))) }
{
    push_quotes(text, quotes)?;
    push_said(text, fitting)?;
    text.push('\n')
}

/// Appends the words that explain a log without a linearization. They name the fitting answers.
pub(crate) fn push_said(text: &mut String, fitting: &[Answer]) -> Result<(), AllocError>
    ensures { OnOk result (string_bytes text.new ≡ string_bytes text.old ++ said_text fitting.now) }
{
    text.push_str(FITTING_SENTENCE)?;
    push_fitting(text, fitting)
}

// Appends the words that name the fitting answers.
fn push_fitting(text: &mut String, fitting: &[Answer]) -> Result<(), AllocError>
    ensures { OnOk result (string_bytes text.new ≡ string_bytes text.old ++ fitting_text fitting.now) }
{
    let Some((first, others)) = fitting.split_first() else {
        return Ok(());
    };
    push_named(text, first, others)
}

// Appends the words that name one fitting answer or more.
fn push_named(text: &mut String, first: &Answer, others: &[Answer]) -> Result<(), AllocError>
    ensures { OnOk result (string_bytes text.new ≡ string_bytes text.old ++ named_text first.now others.now) }
{
    text.push_str(" The last reply could be ")?;
    push_answer(text, first)?;
    push_other_answers(text, others)?;
    text.push_str(" instead.")
}

// Appends answers, each after `or`.
fn push_other_answers(text: &mut String, answers: &[Answer]) -> Result<(), AllocError>
    ensures { OnOk result (string_bytes text.new
        ≡ string_bytes text.old ++ flat_map (λ x. codes " or " ++ answer_text x) answers.now) }
{
    for answer in answers {
        text.push_str(" or ")?;
        push_answer(text, answer)?;
    }
    Ok(())
}

/// Appends an order as the lines of a log in which server 0 executes its commands.
pub fn push_order(text: &mut String, order: &[CommandId]) -> Result<(), AllocError>
    ensures { OnOk result (string_bytes text.new ≡ string_bytes text.old ++ order_lines order.now) }
{
    for id in order {
        push_execution(text, *id)?;
    }
    Ok(())
}

// Appends the line of a log that says that server 0 executed a command.
fn push_execution(text: &mut String, id: CommandId) -> Result<(), AllocError>
    ensures { OnOk result (string_bytes text.new ≡ string_bytes text.old ++ execution_line id) }
{
    push_observation(text, &Observation::Execute { server: 0, id })?;
    text.push('\n')
}

// Appends a word and the counts of a log.
fn push_counted(text: &mut String, word: &str, counts: &ClientCounts) -> Result<(), AllocError>
    ensures { OnOk result (string_bytes text.new
        ≡ string_bytes text.old ++ counted_line word.now counts.now) }
{
    let commands = counts.commands;
    let replies = counts.replies;
    let lost = counts.lost;
    let keys = counts.keys;
    text.push_str(word)?;
    writeln!(
        text,
        " commands {commands} replies {replies} lost {lost} keys {keys}"
    )
}

// Appends the line that reports the first line with which a log has no linearization.
fn push_without(text: &mut String, number: u64, key: &str) -> Result<(), AllocError>
    ensures { OnOk result (string_bytes text.new ≡ string_bytes text.old ++ without_line number key.now) }
{
    push_without_text(text, number, key)?;
    text.push('\n')
}

// Appends the words for the first line with which a log has no linearization.
fn push_without_text(text: &mut String, number: u64, key: &str) -> Result<(), AllocError>
    ensures { OnOk result (string_bytes text.new ≡ string_bytes text.old ++ without_text number key.now) }
{
    write!(text, "violation {number} Linearizable key {key}")
}

// Appends the line that reports a search that was given up.
fn push_undecided(
    text: &mut String,
    number: u64,
    key: &str,
    cause: GiveUp,
) -> Result<(), AllocError>
    ensures { OnOk result (string_bytes text.new
        ≡ string_bytes text.old ++ undecided_line number key.now cause) }
{
    write!(text, "undecided {number} key {key}")?;
    push_cause(text, cause)
}

// Appends the reason why a search was given up, and a line feed.
fn push_cause(text: &mut String, cause: GiveUp) -> Result<(), AllocError>
    ensures { OnOk result (string_bytes text.new ≡ string_bytes text.old ++ cause_text cause) }
{
    match cause {
        GiveUp::Waiting { count } => writeln!(text, " waiting {count}"),
        GiveUp::Configurations { most } => writeln!(text, " configurations {most}"),
    }
}
