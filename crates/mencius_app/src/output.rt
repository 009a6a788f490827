//! The text that a task makes, and how it is written.

ghost use Rattle.std.specs.Prelude.{◌≡◌, ◌≤◌, ◌+◌, IfErr};
ghost use Rattle.mencius_io.specs.Streams.{most_failed_calls};
ghost use Rattle.mencius_app.specs.Tasks.{Delivers};

use mencius_io::{Failure, Sink, write_all};
use mencius_judge::Judge;

/// The text that a task makes from its input.
#[derive(Drop)]
pub(crate) struct Output {
    /// The whole text.
    pub text: String,
    /// Whether no event was refused, and no promise is broken.
    pub is_clean: bool,
    /// The judge of a log. It is kept until the text is written, because it may take a second to free its data.
    pub judge: Option<Judge>,
}

/// Writes the text that a task made, if it made one. Returns whether the text is clean, or why the task failed.
pub(crate) fn deliver<W: Sink>(sink: &mut W, made: Result<Output, Failure>) -> Result<bool, Failure>
    ensures delivers { Delivers made (W.state sink.old) (W.state sink.new) result }
    ensures unwritten { IfErr made (λ _. sink.new ≡ sink.old) }
    ensures tried { (W.state sink.new).failures
        ≤ (W.state sink.old).failures + most_failed_calls }
{
    let output = made?;
    write_all(sink, output.text.as_bytes())?;
    Ok(output.is_clean)
}
