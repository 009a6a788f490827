//! Judges a reply to a command, by its first reply and by its place in the longest history.

ghost use Rattle.std.specs.Prelude.{◌≡◌, ◌≢◌, List, IfOk, MatchOption, Some};
ghost use Rattle.std.specs.BTreeMap.{get};
ghost use Rattle.std.specs.Ordering.{nat_cmp};
ghost use Rattle.mencius_base.specs.declared.command.Command.{Command};
ghost use Rattle.mencius_model.specs.KeyMap.{out};
ghost use Rattle.mencius_judge.specs.declared.judge.Execution.{Execution};
ghost use Rattle.mencius_judge.specs.declared.judge.FirstReply.{FirstReply};
ghost use Rattle.mencius_judge.specs.declared.violation.Violation.TheVariants.{OneReply, RightReply};
ghost use Rattle.mencius_judge.specs.Answers.{IsRight};
ghost use Rattle.mencius_judge.specs.Tables.{IsNoWrong, IsNoWrongExecution};
ghost use Rattle.mencius_judge.specs.Timelines.{AreTimelines};

use crate::answers::{copy_of_answer, is_right, is_same_answer};
use crate::judge::{Execution, FirstReply};
use crate::texts::copy_of;
use crate::timelines::Timelines;
use crate::violation::Violation;
use mencius_base::{Command, CommandId, NoMemory, Text};
use mencius_log::Answer;
use std::collections::BTreeMap;

// Judges a reply to a command at a place of the longest history. Its key holds the text `held` there.
fn wrong_reply(
    command: &Command,
    place: usize,
    held: &Option<Text>,
    found: &Answer,
) -> Result<Option<Violation>, NoMemory>
    ensures { IfOk result (λ x. MatchOption x (IsRight command.now.op held.now found.now)
        (λ v. (v ≡ RightReply command.now.id place held.now found.now)
        × (IsRight command.now.op held.now found.now → ⊥))) }
{
    if is_right(command.op(), held, found) {
        return Ok(None);
    }
    Ok(Some(Violation::RightReply {
        id: command.id(),
        place,
        expected: copy_of(held)?,
        found: copy_of_answer(found)?,
    }))
}

// Judges a reply to a command, which has this number in the map if it is in the longest history.
pub(crate) fn wrong_at_place(
    executions: &BTreeMap<u64, Execution>,
    key: u64,
    command: &Command,
    found: &Answer,
) -> Result<Option<Violation>, NoMemory>
    ensures { IfOk result (λ x. MatchOption x (IsNoWrongExecution executions.now key command.now.op found.now)
        (λ v. (at : Execution) × (get nat_cmp executions.now key ≡ Some at)
        × (v ≡ RightReply command.now.id at.place at.held found.now)
        × (IsRight command.now.op at.held found.now → ⊥))) }
{
    match executions.get(&key) {
        Some(execution) => wrong_reply(command, execution.place, &execution.held, found),
        None => Ok(None),
    }
}

// Judges the first reply to a command, which has this number in the map, if it got one before it was executed at this
// place. The timelines are those of the commands before.
pub(crate) fn wrong_before(
    timelines: &Timelines,
    replies: &BTreeMap<u64, FirstReply>,
    key: u64,
    command: &Command,
    place: usize,
) -> Result<Option<Violation>, NoMemory>
    ensures { IfOk result (λ x. (cs : List Command) → AreTimelines cs timelines.now.by_key
        → MatchOption x (IsNoWrong replies.now key command.now.op (out cs command.now))
        (λ v. (first : FirstReply) × (get nat_cmp replies.now key ≡ Some first)
        × (v ≡ RightReply command.now.id place (out cs command.now) first.answer)
        × (IsRight command.now.op (out cs command.now) first.answer → ⊥))) }
{
    let Some(first) = replies.get(&key) else {
        return Ok(None);
    };
    let held = timelines.text_before(command)?;
    let wrong = wrong_reply(command, place, &held, &first.answer)?;
    Ok(wrong)
}

// Judges a reply to a command that had a reply before.
pub(crate) fn other_reply(
    id: CommandId,
    expected: &Answer,
    found: &Answer,
) -> Result<Option<Violation>, NoMemory>
    ensures { IfOk result (λ x. MatchOption x (expected.now ≡ found.now)
        (λ v. (v ≡ OneReply id expected.now found.now) × (expected.now ≢ found.now))) }
{
    if is_same_answer(expected, found) {
        return Ok(None);
    }
    Ok(Some(Violation::OneReply {
        id,
        expected: copy_of_answer(expected)?,
        found: copy_of_answer(found)?,
    }))
}
