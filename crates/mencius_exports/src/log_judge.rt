//! A judge that takes a log in pieces, and keeps its verdict.

ghost use Rattle.std.specs.Prelude.{◌≡◌, ◌++◌, ℕ, List, [], Some, false, true, IfOk, MatchOption};
ghost use Rattle.mencius_judge.specs.Taken.{HasTaken};
ghost use Rattle.mencius_app.specs.Ending.{ending_of, lines_of_ending, status_of_ending};
ghost use Rattle.mencius_exports.specs.LiveJudges.{HasRead, IsCalled, IsJudgement, ReportsEnd};
ghost use Rattle.mencius_exports.specs.declared.call.Called.{Called};

use crate::answer::{Answer, tell_texts};
use crate::call::{Called, end_call};
use crate::streams::Text;
use mencius_app::{Failure, ending_of, is_kept, text_of_verdict};
use mencius_base::NoMemory;
use mencius_judge::{LogReader, Verdict};
use std::alloc::Global;

/// A judge that takes a log in pieces. Once it has a verdict, it keeps the verdict, and takes nothing more.
#[derive(Drop)]
pub(crate) struct LogJudge {
    /// Whether the text of the verdict is brief.
    pub is_brief: bool,
    /// Whether the text of the verdict is a JSON object.
    pub is_json: bool,
    /// The judge, up to its verdict.
    pub reader: LogReader,
    /// The verdict, as a call of the program prints it.
    pub verdict: Option<Called>,
}

impl LogJudge {
    /// Creates a judge that has taken nothing.
    pub(crate) fn new(alloc: Global, is_brief: bool, is_json: bool) -> Result<LogJudge, NoMemory>
        ensures brief { IfOk result (λ j. j.is_brief ≡ is_brief) }
        ensures json { IfOk result (λ j. j.is_json ≡ is_json) }
        ensures empty { IfOk result (λ j. HasRead j []) }
    {
        let reader = LogReader::new(alloc)?;
        Ok(LogJudge {
            is_brief,
            is_json,
            reader,
            verdict: None,
        })
    }

    /// Takes the next bytes of the log, unless there is a verdict.
    pub(crate) fn take(&mut self, alloc: Global, bytes: &[u8])
        ensures brief { self.new.is_brief ≡ self.old.is_brief }
        ensures json { self.new.is_json ≡ self.old.is_json }
        ensures taken { (before : List ℕ) → HasRead self.old before → HasRead self.new (before ++ bytes.now) }
        ensures kept { (called : Called) → self.old.verdict ≡ Some called → self.new ≡ self.old }
    {
        if self.verdict.is_some() {
            return;
        }
        if let Some(judgement) = take_piece(alloc, &mut self.reader, bytes) {
            self.verdict = Some(report(alloc, judgement, self.is_brief, self.is_json));
        }
    }

    /// Reports the verdict on the log if it ends here. Puts each text into its buffer if the whole text fits.
    pub(crate) fn tell_end(
        &self,
        alloc: Global,
        printed: &mut [u8],
        said: &mut [u8],
        answer: &mut Answer,
    )
        ensures { ReportsEnd self.now answer.new printed.old printed.new said.old said.new }
    {
        match &self.verdict {
            Some(called) => tell_texts(called, printed, said, answer),
            None => {
                let judgement = self.reader.end(alloc);
                let called = report(alloc, judgement, self.is_brief, self.is_json);
                tell_texts(&called, printed, said, answer);
            }
        }
    }
}

// Takes the next bytes of a log. Returns the verdict if a line breaks a promise or is bad.
fn take_piece(
    alloc: Global,
    reader: &mut LogReader,
    bytes: &[u8],
) -> Option<Result<Verdict, Failure>>
    ensures { MatchOption result
        ((before : List ℕ) → HasTaken reader.old before → HasTaken reader.new (before ++ bytes.now))
        (λ x. (before : List ℕ) → HasTaken reader.old before → (rest : List ℕ)
        → IsJudgement ((before ++ bytes.now) ++ rest) x) }
{
    match reader.take(alloc, bytes) {
        Ok(None) => None,
        Ok(Some(breach)) => Some(Ok(Verdict::Broken(Box::into_inner(breach)))),
        Err(failure) => Some(Err(failure)),
    }
}

// Returns the call of the program that reports this verdict or this failure.
fn report(
    alloc: Global,
    judgement: Result<Verdict, Failure>,
    is_brief: bool,
    is_json: bool,
) -> Called
    ensures { (bytes : List ℕ) → IsJudgement bytes judgement → IsCalled is_brief is_json bytes result }
{
    match print(alloc, judgement, is_brief, is_json) {
        Ok(called) => called,
        Err(_) => Called::without_memory(alloc),
    }
}

// Prints this verdict or this failure.
fn print(
    alloc: Global,
    judgement: Result<Verdict, Failure>,
    is_brief: bool,
    is_json: bool,
) -> Result<Called, NoMemory>
    ensures { IfOk result (λ x. (bytes : List ℕ) → IsJudgement bytes judgement
        → IsCalled is_brief is_json bytes x) }
{
    match judgement {
        Ok(verdict) => {
            let text = text_of_verdict(alloc, &verdict, is_brief, is_json)?;
            end_judgement(alloc, Ok(is_kept(&verdict)), text.into_bytes())
        }
        Err(failure) => end_judgement(alloc, Err(failure), Vec::new(alloc)),
    }
}

// Returns a call of the program that printed this text and has this result.
fn end_judgement(
    alloc: Global,
    done: Result<bool, Failure>,
    printed: Vec<u8>,
) -> Result<Called, NoMemory>
    ensures status { IfOk result (λ x. x.status ≡ status_of_ending (ending_of true done)) }
    ensures printed { IfOk result (λ x. x.printed.items ≡ printed.items) }
    ensures said { IfOk result (λ x. x.said.items ≡ lines_of_ending (ending_of true done)) }
    ensures wants_nothing { IfOk result (λ x. x.is_asked ≡ false) }
{
    let sink = Text {
        bytes: printed,
        failures: 0,
    };
    end_call(ending_of(true, done), false, sink, Text::new(alloc))
}
