//! Draws the trace of a scenario as a picture.

ghost use Rattle.std.specs.Prelude.{◌≡◌, IfErr, IfOk, IfSome, Ok, OnOk, string_bytes, true};
ghost use Rattle.std.specs.Io.KnownBytes.{IsAtEnd};
ghost use Rattle.mencius_draw.specs.Picture.{IsPicture};
ghost use Rattle.mencius_app.specs.Pictures.{IsRefusedAs, draw_task, explained_drawing, too_large_words};
ghost use Rattle.mencius_app.specs.Failures.{Fails, FailsToMake};
ghost use Rattle.mencius_app.specs.Tasks.{AsksLittle, AsksReader, IsOutput, Writes, streams};

use crate::input::read_input;
use crate::output::{Output, deliver};
use crate::traces::traced;
use mencius_draw::{MOST_LEVELS, Options, TooLarge, picture};
use mencius_io::{Failure, IoFault, Sink, Source};
use mencius_trace::View;
use std::alloc::{AllocError, Global};

/// Reads a scenario to its end, and writes a picture of its [`trace`](crate::trace), or of the events that `options`
/// name. The whole text is made before any of it is written. If the part takes more levels than a picture may have, the
/// fault is `BadLimit`. Its words then name the options that ask for fewer events.
pub fn draw<R: Source, W: Sink>(
    alloc: Global,
    source: &mut R,
    sink: &mut W,
    options: &Options,
) -> Result<(), Failure>
    // All bytes were read, they are a scenario, and the picture of its trace was written.
    ensures end { OnOk result (IsAtEnd (R.state source.new).bytes) }
    ensures done { OnOk result (Writes (draw_task options.now) (streams (R.state source.old) (R.state source.new)
        (W.state sink.old) (W.state sink.new)) true) }

    // The cause of a fault. In every case, the use of the reader and the writer is limited.
    ensures fault { IfErr result (Fails (explained_drawing options.now) (streams (R.state source.old) (R.state source.new)
        (W.state sink.old) (W.state sink.new))) }
    ensures asked { AsksLittle (streams (R.state source.old) (R.state source.new)
        (W.state sink.old) (W.state sink.new)) }
{
    deliver(sink, read_picture(alloc, source, options))?;
    Ok(())
}

/// Reads a scenario and makes the picture of its trace.
pub(crate) fn read_picture<R: Source>(
    alloc: Global,
    source: &mut R,
    options: &Options,
) -> Result<Output, Failure>
    ensures end { OnOk result (IsAtEnd (R.state source.new).bytes) }
    ensures made { IfOk result (IsOutput (draw_task options.now) (R.state source.old).bytes) }
    ensures fault { IfErr result (FailsToMake (explained_drawing options.now) (R.state source.old) (R.state source.new)) }
    ensures asked { AsksReader (R.state source.old) (R.state source.new) }
{
    let scenario = read_input(alloc, source)?;
    let whole = View {
        is_json: false,
        instance: None,
        command: None,
        server: None,
    };
    let trace = traced(alloc, scenario.members, scenario.course, &whole)?;
    let text = drawn(alloc, trace.as_str(), options)?;
    Ok(Output {
        text,
        is_clean: true,
        judge: None,
    })
}

// Returns the picture of a trace, or the failure if the picture would be too large.
fn drawn(alloc: Global, trace: &str, options: &Options) -> Result<String, Failure>
    ensures picture { IfOk result (λ text. IsPicture options.now trace.now (Ok text)) }
    ensures refused { IfErr result (IsRefusedAs options.now trace.now) }
{
    match picture(alloc, trace, options)? {
        Ok(text) => Ok(text),
        Err(large) => Err(too_large(alloc, large)),
    }
}

// Returns the failure of a part of a trace that is too large for a picture.
fn too_large(alloc: Global, large: TooLarge) -> Failure
    ensures fault { result.fault ≡ IoFault.BadLimit }
    ensures words { IfSome result.words (λ words. string_bytes words ≡ too_large_words large.levels) }
{
    Failure {
        fault: IoFault::BadLimit,
        words: words_of_levels(alloc, large.levels).ok(),
    }
}

fn words_of_levels(alloc: Global, levels: usize) -> Result<String, AllocError>
    ensures { IfOk result (λ words. string_bytes words ≡ too_large_words levels) }
{
    let words = format!(in alloc;
        "the picture has {levels} levels and may have at most {MOST_LEVELS}: ask for fewer events by `--from` and `--to`"
    )?;
    Ok(words)
}
