//! The answers that would fit in place of the one that leaves a log without a linearization.

ghost use Rattle.std.specs.Prelude.{◌≡◌, ◌≤◌, ◌++◌, ◌∷◌, [], IfOk, IfSome, IsTrue, OnOk, Some, if◌then◌else◌, length, reverse, slice_get, take};
ghost use Rattle.std.specs.List.{All};
ghost use Rattle.std.specs.Vec.{vec_len};
ghost use Rattle.mencius_log.specs.declared.observation.Answer.{Answer};
ghost use Rattle.mencius_log.specs.declared.observation.Observation.{Observation};
ghost use Rattle.mencius_log.specs.declared.observation.Observation.TheVariants.{Reply};
ghost use Rattle.mencius_judge.specs.Log.{Log};
ghost use Rattle.mencius_judge.specs.Promises.{AreOneReply};
ghost use Rattle.mencius_clients.specs.Explained.{IsLinearizable};
ghost use Rattle.mencius_clients.specs.FittingAnswers.{AllFit, Fits, about_key};

use crate::explanation::{Explanation, explain};
use crate::heard::{Heard, hear};
use crate::key_lines::lines_of_key;
use mencius_base::{CommandId, NoMemory, Text};
use mencius_judge::operations::new_text;
use mencius_log::{Answer, Observation};
use std::alloc::Global;

// The greatest number of different texts that are tried.
const MOST_TEXTS: usize = 16;

// The greatest number of lines about the key. Each text takes a search over all of them, and with this many lines such a
// search takes about a tenth of a second.
const MOST_LINES: usize = 10_000;

/// Returns answers that would fit as the reply at this line: the lines about the key before it, and then the reply with
/// this answer, have a linearization. It tries the last 16 different texts that these lines write, the last one first,
/// and then no text. It leaves out an answer if the search for it is given up. If more than 10,000 lines are about the
/// key, it tries none.
pub fn fitting_answers(
    alloc: Global,
    log: &[Observation],
    line: usize,
    key: &str,
    limit: usize,
) -> Result<Vec<Answer>, NoMemory>
    requires { line ≤ length log.now }
    ensures { IfOk result (λ answers. (o : Observation) → slice_get log.now line ≡ Some o
        → All (Fits (about_key key.now (reverse (take line log.now))) o) answers.items) }
{
    let Some(id) = reply_at(log, line) else {
        return Ok(Vec::new(alloc));
    };
    let lines = lines_of_key(alloc, &log[..line], key)?;
    if lines.len() > MOST_LINES {
        return Ok(Vec::new(alloc));
    }
    fitting_after(alloc, lines, id, limit)
}

// Returns the identity of the command that a line replies to.
fn reply_at(log: &[Observation], line: usize) -> Option<CommandId>
    ensures { IfSome result (λ id. (found : Answer) × (slice_get log.now line ≡ Some (Reply id found))) }
{
    match log.get(line) {
        Some(Observation::Reply { id, .. }) => Some(*id),
        _ => None,
    }
}

// Returns answers that would fit as the reply to a command after these lines.
fn fitting_after(
    alloc: Global,
    mut lines: Vec<Observation>,
    id: CommandId,
    limit: usize,
) -> Result<Vec<Answer>, NoMemory>
    ensures { IfOk result (λ answers. AllFit (reverse lines.items) id answers.items) }
{
    let answers = written_answers(alloc, lines.as_slice())?;
    let mut fitting = Vec::new(alloc);
    for answer in &answers {
        try_answer(alloc, &mut lines, id, answer, limit, &mut fitting)?;
    }
    Ok(fitting)
}

// Appends an answer if it would fit as the reply to a command after these lines.
fn try_answer(
    alloc: Global,
    lines: &mut Vec<Observation>,
    id: CommandId,
    answer: &Answer,
    limit: usize,
    fitting: &mut Vec<Answer>,
) -> Result<(), NoMemory>
    ensures lines { OnOk result (lines.new.items ≡ lines.old.items) }
    ensures fitting { OnOk result ((w : Log) → w ≡ reverse lines.old.items → AllFit w id fitting.old.items
        → AllFit w id fitting.new.items) }
{
    let fits = fits(alloc, lines, id, answer, limit)?;
    push_if(fitting, answer, fits)
}

// Appends an answer if it fits.
fn push_if(fitting: &mut Vec<Answer>, answer: &Answer, fits: bool) -> Result<(), NoMemory>
    ensures { OnOk result (fitting.new.items
        ≡ (if fits then fitting.old.items ++ answer.now ∷ [] else fitting.old.items)) }
{
    if fits {
        fitting.push(answer.clone()?)?;
    }
    Ok(())
}

// Returns whether a reply with this answer would fit after these lines. Returns false if the search is given up.
fn fits(
    alloc: Global,
    lines: &mut Vec<Observation>,
    id: CommandId,
    answer: &Answer,
    limit: usize,
) -> Result<bool, NoMemory>
    ensures fits { IfOk result (λ fits. IsTrue fits → IsLinearizable (Reply id answer.now ∷ reverse lines.old.items)) }
    ensures lines { OnOk result (lines.new.items ≡ lines.old.items) }
{
    let answer = answer.clone()?;
    lines.push(Observation::Reply { id, answer })?;
    let fits = has_order(alloc, lines.as_slice(), limit)?;
    let _reply = lines.pop();
    Ok(fits)
}

// Returns whether some order is a linearization of these lines. Returns false if the search is given up.
fn has_order(alloc: Global, lines: &[Observation], limit: usize) -> Result<bool, NoMemory>
    ensures { IfOk result (λ has. IsTrue has → IsLinearizable (reverse lines.now)) }
{
    match hear(alloc, lines)? {
        Heard::Kept { .. } => is_explained(alloc, lines, limit),
        Heard::Broken { .. } => Ok(false),
    }
}

// Returns whether a search finds a linearization of these lines.
fn is_explained(alloc: Global, lines: &[Observation], limit: usize) -> Result<bool, NoMemory>
    requires { AreOneReply (reverse lines.now) }
    ensures { IfOk result (λ has. IsTrue has → IsLinearizable (reverse lines.now)) }
{
    match explain(alloc, lines, limit)? {
        Explanation::Explained { .. } => Ok(true),
        Explanation::Unexplained { .. } => Ok(false),
        Explanation::Undecided { .. } => Ok(false),
    }
}

// Returns the last different texts that these lines write, as answers. The last one comes first, and no text comes last.
fn written_answers(alloc: Global, lines: &[Observation]) -> Result<Vec<Answer>, NoMemory>
    ensures { IfOk result (λ answers. vec_len answers ≤ 17) }
{
    let mut answers = Vec::new(alloc);
    for observation in lines.iter().rev() {
        push_written(&mut answers, observation)?;
    }
    answers.push(Answer::Held { text: None })?;
    Ok(answers)
}

// Appends the text that an observation writes, as an answer, unless there are 16 already or it is one of them.
fn push_written(answers: &mut Vec<Answer>, observation: &Observation) -> Result<(), NoMemory>
    ensures { OnOk result (vec_len answers.old ≤ 16 → vec_len answers.new ≤ 16) }
{
    let Some(text) = written_by(observation) else {
        return Ok(());
    };
    if answers.len() >= MOST_TEXTS || has_text(answers.as_slice(), text) {
        return Ok(());
    }
    let text = Some(text.clone()?);
    answers.push(Answer::Held { text })?;
    Ok(())
}

// Returns the text that an observation writes.
fn written_by(observation: &Observation) -> Option<&Text> {
    match observation {
        Observation::Submit { command } => new_text(command.op()),
        _ => None,
    }
}

fn has_text(answers: &[Answer], text: &Text) -> bool {
    answers.iter().any(|answer| is_text(answer, text))
}

fn is_text(answer: &Answer, text: &Text) -> bool {
    match answer {
        Answer::Held { text: Some(held) } => held.as_str() == text.as_str(),
        _ => false,
    }
}
