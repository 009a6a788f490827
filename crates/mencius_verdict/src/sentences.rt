//! Appends the sentence that says what a violation expects, and why.

ghost use Rattle.std.specs.Prelude.{◌≡◌, ◌++◌, OnOk, string_bytes};
ghost use Rattle.mencius_format.specs.Texts.{id_text};
ghost use Rattle.mencius_verdict.specs.Sentences.{command_sentence, floor_text, gives_text, lookup_sentence, once_sentence, one_reply_sentence, range_text, real_time_sentence, reply_sentence, restore_sentence, same_order_sentence, sentence_text, server_sentence, settled_sentence};

use crate::verdict_lines::push_named;
use mencius_base::{CommandId, Key, Text};
use mencius_format::push_id;
use mencius_judge::Violation;
use mencius_log::{Answer, push_answer, push_held};
use std::alloc::AllocError;

/// Appends the sentence for a violation.
pub(crate) fn push_sentence(text: &mut String, violation: &Violation) -> Result<(), AllocError>
    ensures { OnOk result (string_bytes text.new
        ≡ string_bytes text.old ++ sentence_text violation.now) }
{
    push_command_sentence(text, violation)?;
    push_server_sentence(text, violation)
}

// Appends the sentence for a violation that does not name a server.
fn push_command_sentence(text: &mut String, violation: &Violation) -> Result<(), AllocError>
    ensures { OnOk result (string_bytes text.new
        ≡ string_bytes text.old ++ command_sentence violation.now) }
{
    match violation {
        Violation::OneCommand { id } => push_about(
            text,
            "Each submission of ",
            *id,
            " must be of the same command, because an ID belongs to only one command.",
        ),
        Violation::Submitted { id } => push_about(
            text,
            "A line before this one must submit ",
            *id,
            ", because a store executes and answers only commands that a client submitted.",
        ),
        Violation::OneReply { id, expected, .. } => push_one_reply(text, *id, expected),
        Violation::RightReply {
            id,
            place,
            expected,
            found,
        } => push_wrong_reply(text, *id, *place, expected, found),
        Violation::RightLookup {
            reader,
            key,
            from,
            to,
            ..
        } => push_lookup(text, *reader, key, *from, *to),
        Violation::Once { .. } => Ok(()),
        Violation::SameOrder { .. } => Ok(()),
        Violation::RealTime { .. } => Ok(()),
        Violation::Settled { .. } => Ok(()),
        Violation::Restore { .. } => Ok(()),
    }
}

// Appends the sentence for a violation that names a server.
fn push_server_sentence(text: &mut String, violation: &Violation) -> Result<(), AllocError>
    ensures { OnOk result (string_bytes text.new
        ≡ string_bytes text.old ++ server_sentence violation.now) }
{
    match violation {
        Violation::Once { server, place, id } => push_once(text, *server, *place, *id),
        Violation::SameOrder {
            server,
            place,
            expected,
            ..
        } => push_same_order(text, *server, *place, *expected),
        Violation::RealTime {
            server,
            id,
            behind,
            ..
        } => push_real_time(text, *server, *id, *behind),
        Violation::Settled { server, id } => push_settled(text, *server, *id),
        Violation::Restore {
            server,
            source,
            count,
        } => push_restore(text, *server, *source, *count),
        Violation::OneCommand { .. } => Ok(()),
        Violation::Submitted { .. } => Ok(()),
        Violation::OneReply { .. } => Ok(()),
        Violation::RightReply { .. } => Ok(()),
        Violation::RightLookup { .. } => Ok(()),
    }
}

// Appends some words, the identity of a command, and more words.
fn push_about(
    text: &mut String,
    words: &str,
    id: CommandId,
    further: &str,
) -> Result<(), AllocError>
    ensures { OnOk result (string_bytes text.new
        ≡ string_bytes text.old ++ (words.now ++ (id_text id ++ further.now))) }
{
    text.push_str(words)?;
    push_id(text, id)?;
    text.push_str(further)
}

fn push_one_reply(text: &mut String, id: CommandId, expected: &Answer) -> Result<(), AllocError>
    ensures { OnOk result (string_bytes text.new
        ≡ string_bytes text.old ++ one_reply_sentence id expected.now) }
{
    push_about(text, "The reply to ", id, " must be ")?;
    push_answer(text, expected)?;
    text.push_str(", because the command got this reply before.")
}

// Appends the sentence for a wrong reply. A map that executes only the commands before the place holds the text `held`.
fn push_wrong_reply(
    text: &mut String,
    id: CommandId,
    place: usize,
    held: &Option<Text>,
    found: &Answer,
) -> Result<(), AllocError>
    ensures { OnOk result (string_bytes text.new
        ≡ string_bytes text.old ++ reply_sentence id place held.now found.now) }
{
    match found {
        Answer::Held { .. } => {
            push_about(text, "The reply to ", id, " must be ")?;
            push_held(text, held)?;
            push_gives(text, place, held)?;
            text.push('.')
        }
        Answer::Done => {
            push_about(text, "The reply to ", id, " must not be ok")?;
            push_gives(text, place, held)?;
            text.push_str(", so the command does not take effect.")
        }
        Answer::Failed => {
            push_about(text, "The reply to ", id, " must not be failed")?;
            push_gives(text, place, held)?;
            text.push_str(", so the command takes effect.")
        }
    }
}

// Appends the reason why a reply is wrong.
fn push_gives(text: &mut String, place: usize, held: &Option<Text>) -> Result<(), AllocError>
    ensures { OnOk result (string_bytes text.new
        ≡ string_bytes text.old ++ gives_text place held.now) }
{
    write!(
        text,
        ", because a map that executes only the commands before place {place}"
    )?;
    text.push_str(" gives ")?;
    push_held(text, held)
}

fn push_lookup(
    text: &mut String,
    reader: u32,
    key: &Key,
    from: usize,
    to: usize,
) -> Result<(), AllocError>
    ensures { OnOk result (string_bytes text.new
        ≡ string_bytes text.old ++ lookup_sentence reader key.now from to) }
{
    write!(text, "Reader {reader}")?;
    text.push_str(" must find a text that ")?;
    text.push_str(key.as_str())?;
    text.push_str(" held after ")?;
    push_range(text, from, to)?;
    text.push_str(" of the executed commands")?;
    push_floor(text, from)?;
    text.push_str(".")
}

// Appends the numbers of commands from `from` to `to`.
fn push_range(text: &mut String, from: usize, to: usize) -> Result<(), AllocError>
    ensures { OnOk result (string_bytes text.new ≡ string_bytes text.old ++ range_text from to) }
{
    if from == to {
        write!(text, "exactly {from}")
    } else {
        write!(text, "{from} to {to}")
    }
}

// Appends the reason why a reader must see the first `from` commands, if there are any.
fn push_floor(text: &mut String, from: usize) -> Result<(), AllocError>
    ensures { OnOk result (string_bytes text.new ≡ string_bytes text.old ++ floor_text from) }
{
    if from == 0 {
        return Ok(());
    }
    write!(text, ", because it saw or was told of the first {from}")
}

fn push_once(text: &mut String, server: u32, place: usize, id: CommandId) -> Result<(), AllocError>
    ensures { OnOk result (string_bytes text.new
        ≡ string_bytes text.old ++ once_sentence server place id) }
{
    write!(text, "Server {server}")?;
    write!(text, " must execute another command at place {place}")?;
    push_about(text, ", because it has already executed ", id, ".")
}

fn push_same_order(
    text: &mut String,
    server: u32,
    place: usize,
    expected: CommandId,
) -> Result<(), AllocError>
    ensures { OnOk result (string_bytes text.new
        ≡ string_bytes text.old ++ same_order_sentence server place expected) }
{
    write!(text, "Server {server}")?;
    push_named(text, " must execute ", expected)?;
    write!(text, " at place {place}")?;
    text.push_str(
        ", because another server has executed it there, and all servers must execute the same commands in the same order.",
    )
}

fn push_real_time(
    text: &mut String,
    server: u32,
    id: CommandId,
    behind: CommandId,
) -> Result<(), AllocError>
    ensures { OnOk result (string_bytes text.new
        ≡ string_bytes text.old ++ real_time_sentence server id behind) }
{
    write!(text, "Server {server}")?;
    push_named(text, " must execute ", behind)?;
    push_named(text, " before ", id)?;
    push_named(text, ", because ", behind)?;
    push_named(text, " had its reply before ", id)?;
    text.push_str(" was submitted.")
}

fn push_settled(text: &mut String, server: u32, id: CommandId) -> Result<(), AllocError>
    ensures { OnOk result (string_bytes text.new
        ≡ string_bytes text.old ++ settled_sentence server id) }
{
    write!(text, "Server {server}")?;
    push_named(text, " must have executed ", id)?;
    push_named(text, ", because ", id)?;
    text.push_str(" had its reply before this line.")
}

fn push_restore(text: &mut String, server: u32, source: u32, count: u32) -> Result<(), AllocError>
    ensures { OnOk result (string_bytes text.new
        ≡ string_bytes text.old ++ restore_sentence server source count) }
{
    write!(text, "Server {server}")?;
    write!(text, " can take over {count}")?;
    write!(text, " of the commands of server {source}")?;
    write!(text, " only if it has executed nothing and server {source}")?;
    text.push_str(
        " has that many. Such a line is usually a fault of the log. A server that starts anew takes a new number.",
    )
}
