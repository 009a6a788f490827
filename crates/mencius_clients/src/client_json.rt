//! Appends the JSON object that reports a verdict on a log that clients saw. No text in it needs an escape.

ghost use Rattle.std.specs.Prelude.{◌≡◌, ◌++◌, ◌∷◌, [], OnOk, codes, flat_map, if◌then◌else◌, string_bytes};
ghost use Rattle.mencius_verdict.specs.VerdictJson.{text_field};
ghost use Rattle.mencius_clients.specs.ClientJson.{cause_field, client_json, counts_fields, fitting_field, linearizable_json, order_field, quoted_answer, quoted_answers, quoted_id, quoted_ids, undecided_json, without_json};
ghost use Rattle.mencius_clients.specs.ClientLines.{said_text};

use crate::client_counts::ClientCounts;
use crate::client_lines::push_said;
use crate::client_verdict::{ClientVerdict, GiveUp};
use mencius_base::CommandId;
use mencius_format::push_id;
use mencius_judge::Quote;
use mencius_log::{Answer, push_answer};
use mencius_verdict::{
    push_breach_json, push_key_field, push_lines_field, push_number_field, push_size_field,
    push_verdict_field,
};
use std::alloc::AllocError;

/// Appends a verdict as one JSON object, and a line feed. `with_order` adds the order of a linearizable log.
pub fn push_client_json(
    text: &mut String,
    verdict: &ClientVerdict,
    with_order: bool,
) -> Result<(), AllocError>
    ensures { OnOk result (string_bytes text.new
        ≡ string_bytes text.old ++ client_json with_order verdict.now) }
{
    match verdict {
        ClientVerdict::Linearizable { counts, order } => {
            push_linearizable(text, counts, order.as_slice(), with_order)
        }
        ClientVerdict::Unjudged { counts } => {
            push_counts(text, "unjudged", counts)?;
            text.push_str("}\n")
        }
        ClientVerdict::NotLinearizable {
            number,
            key,
            quotes,
            fitting,
        } => push_without(
            text,
            *number,
            key.as_str(),
            quotes.as_slice(),
            fitting.as_slice(),
        ),
        ClientVerdict::Broken { number, violation } => {
            push_breach_json(text, *number, violation, &[])
        }
        ClientVerdict::Undecided { number, key, cause } => {
            push_undecided(text, *number, key.as_str(), *cause)
        }
    }
}

// Appends the object of a linearizable log.
fn push_linearizable(
    text: &mut String,
    counts: &ClientCounts,
    order: &[CommandId],
    with_order: bool,
) -> Result<(), AllocError>
    ensures { OnOk result (string_bytes text.new
        ≡ string_bytes text.old ++ linearizable_json with_order counts.now order.now) }
{
    push_counts(text, "linearizable", counts)?;
    push_order_if(text, order, with_order)?;
    text.push_str("}\n")
}

// Appends the field of an order, if it is requested.
fn push_order_if(text: &mut String, order: &[CommandId], with_order: bool) -> Result<(), AllocError>
    ensures { OnOk result (string_bytes text.new
        ≡ string_bytes text.old ++ (if with_order then order_field order.now else [])) }
{
    if with_order {
        push_order_field(text, order)?;
    }
    Ok(())
}

// Appends the start of the object of a verdict with counts.
fn push_counts(text: &mut String, word: &str, counts: &ClientCounts) -> Result<(), AllocError>
    ensures { OnOk result (string_bytes text.new
        ≡ string_bytes text.old ++ counts_fields word.now counts.now) }
{
    push_verdict_field(text, word)?;
    push_number_field(text, "commands", counts.commands)?;
    push_number_field(text, "replies", counts.replies)?;
    push_number_field(text, "lost", counts.lost)?;
    push_size_field(text, "keys", counts.keys)
}

// Appends the field of an order.
fn push_order_field(text: &mut String, order: &[CommandId]) -> Result<(), AllocError>
    ensures { OnOk result (string_bytes text.new
        ≡ string_bytes text.old ++ order_field order.now) }
{
    text.push_str(",\"order\":[")?;
    push_ids(text, order)?;
    text.push(']')
}

// Appends identities in quotes, with commas between them.
fn push_ids(text: &mut String, ids: &[CommandId]) -> Result<(), AllocError>
    ensures { OnOk result (string_bytes text.new
        ≡ string_bytes text.old ++ quoted_ids ids.now) }
{
    let Some((first, others)) = ids.split_first() else {
        return Ok(());
    };
    push_quoted_id(text, *first)?;
    push_other_ids(text, others)
}

// Appends identities in quotes, each after a comma.
fn push_other_ids(text: &mut String, ids: &[CommandId]) -> Result<(), AllocError>
    ensures { OnOk result (string_bytes text.new
        ≡ string_bytes text.old ++ flat_map (λ x. 44 ∷ quoted_id x) ids.now) }
{
    for id in ids {
        text.push(',')?;
        push_quoted_id(text, *id)?;
    }
    Ok(())
}

fn push_quoted_id(text: &mut String, id: CommandId) -> Result<(), AllocError>
    ensures { OnOk result (string_bytes text.new ≡ string_bytes text.old ++ quoted_id id) }
{
    text.push('"')?;
    push_id(text, id)?;
    text.push('"')
}

// Appends the object of a log that has no linearization.
fn push_without(
    text: &mut String,
    number: u64,
    key: &str,
    quotes: &[Quote],
    fitting: &[Answer],
) -> Result<(), AllocError>
    ensures { OnOk result (string_bytes text.new
        ≡ string_bytes text.old ++ without_json number key.now quotes.now fitting.now) }
{
    push_verdict_field(text, "violation")?;
    text.push_str(",\"promise\":\"Linearizable\"")?;
    push_number_field(text, "line", number)?;
    push_key_field(text, key)?;
    push_lines_field(text, quotes)?;
    push_fitting_field(text, fitting)?;
    push_sentence_field(text, fitting)?;
    text.push_str("}\n")
}

fn push_sentence_field(text: &mut String, fitting: &[Answer]) -> Result<(), AllocError>
    ensures { OnOk result (string_bytes text.new
        ≡ string_bytes text.old ++ text_field (codes "sentence") (said_text fitting.now)) }
{
    text.push_str(",\"sentence\":\"")?;
    push_said(text, fitting)?;
    text.push('"')
}

// Appends the field of the fitting answers.
fn push_fitting_field(text: &mut String, fitting: &[Answer]) -> Result<(), AllocError>
    ensures { OnOk result (string_bytes text.new
        ≡ string_bytes text.old ++ fitting_field fitting.now) }
{
    text.push_str(",\"fitting\":[")?;
    push_answers(text, fitting)?;
    text.push(']')
}

// Appends answers in quotes, with commas between them.
fn push_answers(text: &mut String, answers: &[Answer]) -> Result<(), AllocError>
    ensures { OnOk result (string_bytes text.new
        ≡ string_bytes text.old ++ quoted_answers answers.now) }
{
    let Some((first, others)) = answers.split_first() else {
        return Ok(());
    };
    push_quoted_answer(text, first)?;
    push_other_answers(text, others)
}

// Appends answers in quotes, each after a comma.
fn push_other_answers(text: &mut String, answers: &[Answer]) -> Result<(), AllocError>
    ensures { OnOk result (string_bytes text.new
        ≡ string_bytes text.old ++ flat_map (λ x. 44 ∷ quoted_answer x) answers.now) }
{
    for answer in answers {
        text.push(',')?;
        push_quoted_answer(text, answer)?;
    }
    Ok(())
}

fn push_quoted_answer(text: &mut String, answer: &Answer) -> Result<(), AllocError>
    ensures { OnOk result (string_bytes text.new ≡ string_bytes text.old ++ quoted_answer answer.now) }
{
    text.push('"')?;
    push_answer(text, answer)?;
    text.push('"')
}

// Appends the object of a search that was given up.
fn push_undecided(
    text: &mut String,
    number: u64,
    key: &str,
    cause: GiveUp,
) -> Result<(), AllocError>
    ensures { OnOk result (string_bytes text.new
        ≡ string_bytes text.old ++ undecided_json number key.now cause) }
{
    push_verdict_field(text, "undecided")?;
    push_number_field(text, "line", number)?;
    push_key_field(text, key)?;
    push_cause_field(text, cause)?;
    text.push_str("}\n")
}

// Appends the field with the reason why a search was given up.
fn push_cause_field(text: &mut String, cause: GiveUp) -> Result<(), AllocError>
    ensures { OnOk result (string_bytes text.new ≡ string_bytes text.old ++ cause_field cause) }
{
    match cause {
        GiveUp::Waiting { count } => push_size_field(text, "waiting", count),
        GiveUp::Configurations { most } => push_size_field(text, "configurations", most),
    }
}
