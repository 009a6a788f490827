//! The program's calls over bytes in memory, for a host without streams or processes. The host passes arguments and
//! standard input, and gets standard output, standard error and the exit status. The static library for C and other
//! languages and the WebAssembly module of `module/` are both built from this crate.
#![tactic(auto)]

ghost use Rattle.std.specs.Prelude.{◌≡◌, None};
ghost use Rattle.mencius_exports.specs.Calls.{IsAnswered, IsStateAnswered};
ghost use Rattle.mencius_exports.specs.LiveJudges.{Begins, Ends, IsWhole, TakesBytes};

mod answer;
mod call;
mod held;
mod live_judge;
mod log_judge;
mod loose;
mod streams;

use crate::answer::tell;
use crate::call::{call, call_for_state};
use crate::live_judge::{put_back, take_out, tell_verdict};
use crate::log_judge::LogJudge;
pub use answer::Answer;
pub use live_judge::LiveJudge;
use mencius_base::NoMemory;
use std::alloc::Global;

/// Does what the program `mencius` does with these arguments and this standard input. Each argument ends with a zero
/// byte.
///
/// The text for standard output goes to the start of `printed` if the whole text fits, and the text for standard error
/// to the start of `said` under the same condition. The rest of both stays unchanged. `answer` gets the exit status and
/// the lengths of both texts.
///
/// A run starts no thread. Its workers take turns in the calling thread. If there is no memory for the arguments or for
/// one of the texts, the status is 5 and both texts are empty. Nothing is kept from one call to the next.
#[unsafe(no_mangle)]
pub extern "C" fn mencius_call(
    alloc: Global,
    words: &[u8],
    input: &[u8],
    printed: &mut [u8],
    said: &mut [u8],
    answer: &mut Answer,
)
    ensures { IsAnswered words.now input.now answer.new printed.old printed.new said.old said.new }
{
    tell(alloc, call(alloc, words, input), printed, said, answer);
}

/// Steps a new cluster through the events of a scenario of `replay`, and prints what each server knows afterwards.
///
/// The output has a line `refused PLACE REFUSAL` for each refused event. Then come the lines of each server: its line
/// of the report, and a line for each instance that it knows anything about:
///
/// `slot SERVER instance INSTANCE promised BALLOT vote BALLOT VALUE tries BALLOT promises COUNT proposed VALUE
/// acceptances COUNT learned VALUE`
///
/// The vote is `none` if the server has accepted nothing there, and a value is `none` if it has none. The proposal and
/// both counts belong to the ballot that the server tries, which is 0 before its first. All else is as for
/// [`mencius_call`] with the argument `trace`.
#[unsafe(no_mangle)]
pub extern "C" fn mencius_state(
    alloc: Global,
    input: &[u8],
    printed: &mut [u8],
    said: &mut [u8],
    answer: &mut Answer,
)
    ensures { IsStateAnswered input.now answer.new printed.old printed.new said.old said.new }
{
    tell(alloc, call_for_state(alloc, input), printed, said, answer);
}

/// Begins to judge a log that arrives in pieces. `is_brief` and `is_json` are the options of `mencius judge`. If there
/// is already a judge, frees it first. If there is no memory, there is no judge, and the other calls then report status
/// 5.
#[unsafe(no_mangle)]
pub extern "C" fn mencius_judge_begin(
    alloc: Global,
    judge: &mut LiveJudge,
    is_brief: bool,
    is_json: bool,
)
    requires { IsWhole judge.old }
    ensures { Begins is_brief is_json judge.new }
{
    let _before = take_out(judge, alloc);
    let Ok(judging) = LogJudge::new(alloc, is_brief, is_json) else {
        return;
    };
    if let Ok(boxed) = Box::new(alloc, judging) {
        put_back(judge, boxed);
    }
}

/// Gives the judge the next bytes of the log, and reports its verdict as soon as it has one.
///
/// `asked` of the answer is 1 as long as the judge has no verdict, and wants more bytes. Then both texts are empty. It
/// is 0 if a line of the bytes so far breaks a promise or is bad, or if memory ran out. Then the status and the texts
/// are those of `mencius judge`, no matter what follows these bytes. The judge keeps the verdict, and takes nothing
/// more. So if a text did not fit into its buffer, call again with larger buffers.
///
/// The judge keeps no line after its end. So the call takes time for its own bytes alone.
#[unsafe(no_mangle)]
pub extern "C" fn mencius_judge_take(
    alloc: Global,
    judge: &mut LiveJudge,
    bytes: &[u8],
    printed: &mut [u8],
    said: &mut [u8],
    answer: &mut Answer,
)
    requires { IsWhole judge.old }
    ensures { TakesBytes bytes.now judge.old judge.new answer.new
        printed.old printed.new said.old said.new }
{
    match take_out(judge, alloc) {
        Some(judging) => {
            let mut judging = judging;
            judging.take(alloc, bytes);
            tell_verdict(alloc, &judging, printed, said, answer);
            put_back(judge, judging);
        }
        None => tell(alloc, Err(NoMemory), printed, said, answer),
    }
}

/// Reports the verdict on the log if it ends here. The judge stays the same, so it may take more bytes after that. If a
/// text did not fit into its buffer, call again with larger buffers. `asked` of the answer is 0.
#[unsafe(no_mangle)]
pub extern "C" fn mencius_judge_verdict(
    alloc: Global,
    judge: &mut LiveJudge,
    printed: &mut [u8],
    said: &mut [u8],
    answer: &mut Answer,
)
    requires { IsWhole judge.old }
    ensures { Ends judge.old judge.new answer.new printed.old printed.new said.old said.new }
{
    match take_out(judge, alloc) {
        Some(judging) => {
            judging.tell_end(alloc, printed, said, answer);
            put_back(judge, judging);
        }
        None => tell(alloc, Err(NoMemory), printed, said, answer),
    }
}

/// Frees the judge, if there is one. It may have no verdict yet. To free its data may take a second after a log of a
/// million lines.
#[unsafe(no_mangle)]
pub extern "C" fn mencius_judge_free(alloc: Global, judge: &mut LiveJudge)
    requires { IsWhole judge.old }
    ensures whole { IsWhole judge.new }
    ensures none { judge.new.held.value ≡ None }
{
    let _freed = take_out(judge, alloc);
}
