//! Replies: when one is right, and which one counts.

ghost use Rattle.std.specs.Prelude.{⊤, ◌≡◌, ◌↔◌, ◌<◌, ◌+◌, true, false, IfOk, IfSome, IsTrue, MatchOption, OnOk, Contains, Some, length, slice_get};
ghost use Rattle.mencius_log.specs.declared.observation.Answer.{Answer};
ghost use Rattle.mencius_log.specs.declared.observation.Observation.TheVariants.{Reply};
ghost use Rattle.mencius_judge.specs.Answers.{IsRight};
ghost use Rattle.mencius_judge.specs.Log.{is_failed};
ghost use Rattle.mencius_model.specs.KeyMap.{is_read};
ghost use Rattle.mencius_clients.specs.Configurations.{AreReplyLines, HasNote, HasReplyLine, IsAcknowledged, IsIdle, IsUnacknowledged, text_at};

use crate::texts::{is_done_at, is_text_at, is_without_effect_at};
use mencius_base::{Command, CommandId, NoMemory, Op};
use mencius_judge::answers::is_failed;
use mencius_judge::operations::is_read;
use mencius_judge::tables::{identity_key, put};
use mencius_log::{Answer, Observation};
use std::alloc::Global;
use std::collections::BTreeMap;

/// Returns whether a reply is right for an operation whose key holds the text with this number.
pub fn is_right_at(log: &[Observation], held: usize, op: &Op, answer: &Answer) -> bool
    ensures { IsTrue result ↔ IsRight op.now (text_at log.now held) answer.now }
{
    match answer {
        Answer::Held { text } => is_text_at(log, held, text),
        Answer::Done => is_done_at(log, held, op),
        Answer::Failed => is_without_effect_at(log, held, op),
    }
}

/// Returns the reply to a command that counts: one other than `failed`, if there is one.
pub fn reply_at<'a>(
    log: &'a [Observation],
    replies: &BTreeMap<u64, usize>,
    id: CommandId,
) -> Option<&'a Answer>
    ensures there { IfSome result (λ answer. Contains log.now (Reply id answer.now)) }
    ensures counts { MatchOption result (HasReplyLine log.now replies.now id → ⊥)
        (λ answer. is_failed answer.now ≡ false → HasReplyLine log.now replies.now id) }
    ensures failed { IfSome result (λ answer. HasReplyLine log.now replies.now id → is_failed answer.now ≡ false) }
    ensures none { MatchOption result (HasNote log.now replies.now id → ⊥) (λ answer. ⊤) }
{
    match replies.get(&identity_key(id)) {
        Some(line) => match log.get(*line) {
            Some(Observation::Reply { id: found, answer }) if *found == id => Some(answer),
            _ => None,
        },
        None => None,
    }
}

/// Returns the line of each command's reply that counts, by its identity.
pub fn reply_lines(alloc: Global, log: &[Observation]) -> Result<BTreeMap<u64, usize>, NoMemory>
    ensures { IfOk result (λ replies. AreReplyLines log.now replies (length log.now)) }
{
    let mut lines = BTreeMap::new(alloc);
    for line in 0..log.len() {
        note_line(log, &mut lines, line)?;
    }
    Ok(lines)
}

// Notes the reply at a line, if there is one.
fn note_line(
    log: &[Observation],
    replies: &mut BTreeMap<u64, usize>,
    line: usize,
) -> Result<(), NoMemory>
    requires { line < length log.now }
    ensures { OnOk result (AreReplyLines log.now replies.old line → AreReplyLines log.now replies.new (line + 1)) }
{
    match &log[line] {
        Observation::Reply { id, answer } => note_reply(log, replies, line, *id, answer),
        _ => Ok(()),
    }
}

// Notes a reply, unless another one counts already.
fn note_reply(
    log: &[Observation],
    replies: &mut BTreeMap<u64, usize>,
    line: usize,
    id: CommandId,
    answer: &Answer,
) -> Result<(), NoMemory>
    requires { slice_get log.now line ≡ Some (Reply id answer.now) }
    ensures { OnOk result (AreReplyLines log.now replies.old line → AreReplyLines log.now replies.new (line + 1)) }
{
    if has_reply(log, replies, id) {
        return Ok(());
    }
    put(replies, identity_key(id), line)?;
    Ok(())
}

// Returns whether a reply to a command is known that is not `failed`.
fn has_reply(log: &[Observation], replies: &BTreeMap<u64, usize>, id: CommandId) -> bool
    ensures { IsTrue result ↔ HasReplyLine log.now replies.now id }
{
    match reply_at(log, replies, id) {
        Some(answer) => !is_failed(answer),
        None => false,
    }
}

/// Returns whether a command has no reply other than `failed`.
pub fn is_unacknowledged(
    log: &[Observation],
    replies: &BTreeMap<u64, usize>,
    command: &Command,
) -> bool
    requires { AreReplyLines log.now replies.now (length log.now) }
    ensures unacknowledged { IsTrue result → IsUnacknowledged log.now command.now.id }
    ensures other { result ≡ false → HasReplyLine log.now replies.now command.now.id }
{
    !has_reply(log, replies, command.id())
}

/// Returns whether a command has no reply other than `failed`, and changes nothing.
pub fn is_idle(log: &[Observation], replies: &BTreeMap<u64, usize>, command: &Command) -> bool
    requires { AreReplyLines log.now replies.now (length log.now) }
    ensures idle { IsTrue result → IsIdle log.now command.now }
    ensures other { result ≡ false → IsUnacknowledged log.now command.now.id
        → (reply : Answer) → Contains log.now (Reply command.now.id reply) → ⊥ }
{
    match reply_at(log, replies, command.id()) {
        Some(answer) => is_failed(answer),
        None => is_read(command.op()),
    }
}

/// Returns whether a command is a read that has a reply, which is right for the text with this number.
pub fn reads_text(
    log: &[Observation],
    replies: &BTreeMap<u64, usize>,
    held: usize,
    command: &Command,
) -> bool
    ensures read { IsTrue result → IsAcknowledged log.now command.now.id × (is_read command.now.op ≡ true) }
    ensures right { IsTrue result → (answer : Answer) × Contains log.now (Reply command.now.id answer)
        × IsRight command.now.op (text_at log.now held) answer }
{
    if !is_read(command.op()) {
        return false;
    }
    match reply_at(log, replies, command.id()) {
        Some(answer) => !is_failed(answer) && is_right_at(log, held, command.op(), answer),
        None => false,
    }
}
