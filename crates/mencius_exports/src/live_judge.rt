//! The judge of a log, as a host keeps it.

ghost use Rattle.std.specs.Prelude.{◌≡◌, Some, None, false, true, MatchOption};
ghost use Rattle.mencius_exports.specs.LiveJudges.{IsWhole, Reports};

use crate::answer::{Answer, tell_texts};
use crate::call::Called;
use crate::held::Held;
use crate::log_judge::LogJudge;
use crate::loose::Loose;
use std::alloc::Global;
use std::mem::replace;

/// The judge of a log, or no judge. The host owns the memory of this struct. It sets all its bytes to zero, which is no
/// judge, and then gives it only to the functions that begin with `mencius_judge_`.
#[repr(C)]
#[derive(Drop)]
pub struct LiveJudge {
    /// Whether there is a judge.
    is_begun: bool,
    /// The judge.
    held: Held,
}

/// Takes the judge out, if there is one.
pub(crate) fn take_out(judge: &mut LiveJudge, alloc: Global) -> Option<Box<LogJudge>>
    requires { IsWhole judge.old }
    ensures whole { IsWhole judge.new }
    ensures none { judge.new.held.value ≡ None }
    ensures found { MatchOption result (judge.old.held.value ≡ None)
        (λ b. judge.old.held.value ≡ Some b.value) }
{
    if !judge.is_begun {
        return None;
    }
    let held = replace(&mut judge.held, Held::empty());
    judge.is_begun = false;
    Some(Loose::into_box(held.into_loose(alloc)))
}

/// Puts a judge into an empty place.
pub(crate) fn put_back(judge: &mut LiveJudge, judging: Box<LogJudge>)
    requires { judge.old.held.value ≡ None }
    ensures whole { IsWhole judge.new }
    ensures put { judge.new.held.value ≡ Some judging.value }
{
    judge.held = Held::of(Loose::of(judging));
    judge.is_begun = true;
}

/// Reports the verdict of a judge, or that the judge wants more bytes. Puts each text into its buffer if the whole text
/// fits.
pub(crate) fn tell_verdict(
    alloc: Global,
    judging: &LogJudge,
    printed: &mut [u8],
    said: &mut [u8],
    answer: &mut Answer,
)
    ensures { Reports judging.now.verdict answer.new printed.old printed.new said.old said.new }
{
    match &judging.verdict {
        Some(called) => tell_texts(called, printed, said, answer),
        None => tell_texts(&Called::wanting(alloc), printed, said, answer),
    }
}
