//! Appends the JSON object that reports a verdict. No text in it needs an escape.

ghost use Rattle.std.specs.Prelude.{◌≡◌, ◌++◌, OnOk, codes, string_bytes};
ghost use Rattle.mencius_format.specs.Texts.{id_text};
ghost use Rattle.mencius_log.specs.ObservationLines.{answer_text, held_text};
ghost use Rattle.mencius_verdict.specs.Sentences.{sentence_text};
ghost use Rattle.mencius_verdict.specs.VerdictJson.{breach_json, command_figures, counts_json, figures_json, found_fields, json_text, name_of, number_field, place_fields, promise_name, server_figures, text_field};

use crate::json_fields::{
    push_key_field, push_lines_field, push_number_field, push_size_field, push_verdict_field,
};
use crate::sentences::push_sentence;
use mencius_base::{CommandId, Key, Text};
use mencius_format::push_id;
use mencius_judge::{Counts, Promise, Quote, Verdict, Violation};
use mencius_log::{Answer, push_answer, push_held};
use std::alloc::AllocError;

/// Appends a verdict as one JSON object, and a line feed.
pub fn push_json(text: &mut String, verdict: &Verdict) -> Result<(), AllocError>
    ensures { OnOk result (string_bytes text.new ≡ string_bytes text.old ++ json_text verdict.now) }
{
    match verdict {
        Verdict::Kept(counts) => push_counts(text, "ok", counts),
        Verdict::Unjudged(counts) => push_counts(text, "unjudged", counts),
        Verdict::Broken(breach) => push_breach_json(
            text,
            breach.number,
            &breach.violation,
            breach.quotes.as_slice(),
        ),
    }
}

fn push_counts(text: &mut String, word: &str, counts: &Counts) -> Result<(), AllocError>
    ensures { OnOk result (string_bytes text.new
        ≡ string_bytes text.old ++ counts_json word.now counts.now) }
{
    push_verdict_field(text, word)?;
    push_size_field(text, "servers", counts.servers)?;
    push_number_field(text, "commands", counts.commands)?;
    push_size_field(text, "executed", counts.executed)?;
    push_number_field(text, "replies", counts.replies)?;
    push_size_field(text, "open", counts.open_replies)?;
    push_number_field(text, "lookups", counts.lookups)?;
    push_size_field(text, "shortest", counts.shortest)?;
    text.push_str("}\n")
}

/// Appends the object of a log that breaks a promise at the line with this number, and a line feed.
pub fn push_breach_json(
    text: &mut String,
    number: u64,
    violation: &Violation,
    quotes: &[Quote],
) -> Result<(), AllocError>
    ensures { OnOk result (string_bytes text.new
        ≡ string_bytes text.old ++ breach_json number violation.now quotes.now) }
{
    push_verdict_field(text, "violation")?;
    push_promise(text, violation)?;
    push_number_field(text, "line", number)?;
    push_figures(text, violation)?;
    push_lines_field(text, quotes)?;
    push_said(text, violation)?;
    text.push_str("}\n")
}

// Appends the field with the broken promise.
fn push_promise(text: &mut String, violation: &Violation) -> Result<(), AllocError>
    ensures { OnOk result (string_bytes text.new
        ≡ string_bytes text.old ++ text_field (codes "promise") (promise_name violation.now)) }
{
    let promise = promise_name(violation);
    write!(text, ",\"promise\":\"{promise}\"")
}

// Appends the field with the sentence.
fn push_said(text: &mut String, violation: &Violation) -> Result<(), AllocError>
    ensures { OnOk result (string_bytes text.new
        ≡ string_bytes text.old ++ text_field (codes "sentence") (sentence_text violation.now)) }
{
    text.push_str(",\"sentence\":\"")?;
    push_sentence(text, violation)?;
    text.push('"')
}

fn promise_name(violation: &Violation) -> &'static str
    ensures { result.now ≡ promise_name violation.now }
{
    name_of(violation.promise())
}

// Returns the name of a promise.
fn name_of(promise: Promise) -> &'static str
    ensures { result.now ≡ name_of promise }
{
    match promise {
        Promise::OneCommand => "OneCommand",
        Promise::Submitted => "Submitted",
        Promise::Once => "Once",
        Promise::SameOrder => "SameOrder",
        Promise::RealTime => "RealTime",
        Promise::OneReply => "OneReply",
        Promise::RightReply => "RightReply",
        Promise::RightLookup => "RightLookup",
        Promise::Settled => "Settled",
        Promise::Restore => "Restore",
    }
}

// Appends the figures of a violation.
fn push_figures(text: &mut String, violation: &Violation) -> Result<(), AllocError>
    ensures { OnOk result (string_bytes text.new
        ≡ string_bytes text.old ++ figures_json violation.now) }
{
    push_command_figures(text, violation)?;
    push_server_figures(text, violation)
}

// Appends the figures of a violation that does not name a server.
fn push_command_figures(text: &mut String, violation: &Violation) -> Result<(), AllocError>
    ensures { OnOk result (string_bytes text.new
        ≡ string_bytes text.old ++ command_figures violation.now) }
{
    match violation {
        Violation::OneCommand { id } => push_name(text, "command", *id),
        Violation::Submitted { id } => push_name(text, "command", *id),
        Violation::OneReply {
            id,
            expected,
            found,
        } => push_reply_figures(text, *id, expected, found),
        Violation::RightReply {
            id,
            place,
            expected,
            found,
        } => push_place_figures(text, *id, *place, expected, found),
        Violation::RightLookup {
            reader,
            key,
            from,
            to,
            found,
        } => push_lookup_figures(text, *reader, key, *from, *to, found),
        Violation::Once { .. } => Ok(()),
        Violation::SameOrder { .. } => Ok(()),
        Violation::RealTime { .. } => Ok(()),
        Violation::Settled { .. } => Ok(()),
        Violation::Restore { .. } => Ok(()),
    }
}

// Appends the figures of two different replies to a command.
fn push_reply_figures(
    text: &mut String,
    id: CommandId,
    expected: &Answer,
    found: &Answer,
) -> Result<(), AllocError>
    ensures { OnOk result (string_bytes text.new ≡ string_bytes text.old
        ++ (text_field (codes "command") (id_text id)
        ++ found_fields (answer_text expected.now) (answer_text found.now))) }
{
    push_name(text, "command", id)?;
    push_reply(text, "expected", expected)?;
    push_reply(text, "found", found)
}

// Appends the figures of a wrong reply to a command at a place.
fn push_place_figures(
    text: &mut String,
    id: CommandId,
    place: usize,
    expected: &Option<Text>,
    found: &Answer,
) -> Result<(), AllocError>
    ensures { OnOk result (string_bytes text.new ≡ string_bytes text.old
        ++ (text_field (codes "command") (id_text id) ++ (number_field (codes "place") place
        ++ found_fields (held_text expected.now) (answer_text found.now)))) }
{
    push_name(text, "command", id)?;
    push_size_field(text, "place", place)?;
    push_text(text, "expected", expected)?;
    push_reply(text, "found", found)
}

// Appends the figures of a wrong lookup.
fn push_lookup_figures(
    text: &mut String,
    reader: u32,
    key: &Key,
    from: usize,
    to: usize,
    found: &Option<Text>,
) -> Result<(), AllocError>
    ensures { OnOk result (string_bytes text.new ≡ string_bytes text.old
        ++ (number_field (codes "reader") reader ++ (text_field (codes "key") key.now
        ++ (number_field (codes "from") from ++ (number_field (codes "to") to
        ++ text_field (codes "found") (held_text found.now)))))) }
{
    push_number_field(text, "reader", u64::from(reader))?;
    push_key_field(text, key.as_str())?;
    push_size_field(text, "from", from)?;
    push_size_field(text, "to", to)?;
    push_text(text, "found", found)
}

// Appends the figures of a violation that names a server.
fn push_server_figures(text: &mut String, violation: &Violation) -> Result<(), AllocError>
    ensures { OnOk result (string_bytes text.new
        ≡ string_bytes text.old ++ server_figures violation.now) }
{
    match violation {
        Violation::Once { server, place, id } => {
            push_place(text, *server, *place)?;
            push_name(text, "command", *id)
        }
        Violation::SameOrder {
            server,
            place,
            expected,
            found,
        } => {
            push_place(text, *server, *place)?;
            push_names(text, "expected", *expected, "found", *found)
        }
        Violation::RealTime {
            server,
            place,
            id,
            behind,
        } => {
            push_place(text, *server, *place)?;
            push_names(text, "command", *id, "behind", *behind)
        }
        Violation::Settled { server, id } => push_settled_figures(text, *server, *id),
        Violation::Restore {
            server,
            source,
            count,
        } => push_restore_figures(text, *server, *source, *count),
        Violation::OneCommand { .. }
        | Violation::Submitted { .. }
        | Violation::OneReply { .. }
        | Violation::RightReply { .. }
        | Violation::RightLookup { .. } => Ok(()),
    }
}

// Appends the figures of a server that lacks a command.
fn push_settled_figures(text: &mut String, server: u32, id: CommandId) -> Result<(), AllocError>
    ensures { OnOk result (string_bytes text.new ≡ string_bytes text.old
        ++ (number_field (codes "server") server ++ text_field (codes "command") (id_text id))) }
{
    push_server(text, server)?;
    push_name(text, "command", id)
}

// Appends a field with a server.
fn push_server(text: &mut String, server: u32) -> Result<(), AllocError>
    ensures { OnOk result (string_bytes text.new
        ≡ string_bytes text.old ++ number_field (codes "server") server) }
{
    push_number_field(text, "server", u64::from(server))
}

// Appends the figures of a snapshot that a server could not take over.
fn push_restore_figures(
    text: &mut String,
    server: u32,
    source: u32,
    count: u32,
) -> Result<(), AllocError>
    ensures { OnOk result (string_bytes text.new ≡ string_bytes text.old
        ++ (number_field (codes "server") server ++ (number_field (codes "from") source
        ++ number_field (codes "place") count))) }
{
    push_server(text, server)?;
    push_number_field(text, "from", u64::from(source))?;
    push_number_field(text, "place", u64::from(count))
}

// Appends two fields with the identities of commands.
fn push_names(
    text: &mut String,
    name: &str,
    id: CommandId,
    further: &str,
    other: CommandId,
) -> Result<(), AllocError>
    ensures { OnOk result (string_bytes text.new ≡ string_bytes text.old
        ++ (text_field name.now (id_text id) ++ text_field further.now (id_text other))) }
{
    push_name(text, name, id)?;
    push_name(text, further, other)
}

fn push_place(text: &mut String, server: u32, place: usize) -> Result<(), AllocError>
    ensures { OnOk result (string_bytes text.new
        ≡ string_bytes text.old ++ place_fields server place) }
{
    push_server(text, server)?;
    push_size_field(text, "place", place)
}

// Appends a field with the identity of a command, after a comma.
fn push_name(text: &mut String, name: &str, id: CommandId) -> Result<(), AllocError>
    ensures { OnOk result (string_bytes text.new
        ≡ string_bytes text.old ++ text_field name.now (id_text id)) }
{
    write!(text, ",\"{name}\":\"")?;
    push_id(text, id)?;
    text.push('"')
}

// Appends a field with a text that a key held, after a comma.
fn push_text(text: &mut String, name: &str, held: &Option<Text>) -> Result<(), AllocError>
    ensures { OnOk result (string_bytes text.new
        ≡ string_bytes text.old ++ text_field name.now (held_text held.now)) }
{
    write!(text, ",\"{name}\":\"")?;
    push_held(text, held)?;
    text.push('"')
}

// Appends a field with a reply, after a comma.
fn push_reply(text: &mut String, name: &str, answer: &Answer) -> Result<(), AllocError>
    ensures { OnOk result (string_bytes text.new
        ≡ string_bytes text.old ++ text_field name.now (answer_text answer.now)) }
{
    write!(text, ",\"{name}\":\"")?;
    push_answer(text, answer)?;
    text.push('"')
}
