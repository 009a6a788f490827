ghost use Rattle.std.specs.Prelude.{◌≡◌, ◌⊎◌, ◌+◌, ◌≤◌, IfErr, OnOk, OnErr};
ghost use Rattle.std.specs.Io.KnownBytes.{Appends};
ghost use Rattle.mencius_io.specs.Streams.{HasFailed, WritesFront, most_failed_calls, most_failures};

use crate::fault::IoFault;
use crate::retries::{MOST_RETRIES, spend_retry};
use crate::sink::Sink;

/// Writes the whole text, or fails with `WriteFailed` after it has written a prefix of the text. If a call is
/// interrupted, it makes the call again, up to 1,000 times in total. Any other error ends the writing, and so does a
/// call that takes no byte.
pub fn write_all<W: Sink>(sink: &mut W, text: &[u8]) -> Result<(), IoFault>
    ensures whole { OnOk result (Appends (W.state sink.old).bytes (W.state sink.new).bytes text.now) }
    ensures front { WritesFront (W.state sink.old).bytes (W.state sink.new).bytes text.now }
    ensures fault { IfErr result (λ f. f ≡ IoFault.WriteFailed) }
    ensures failed { OnErr result (HasFailed (W.state sink.old).failures (W.state sink.new).failures) }
    ensures counted { ((W.state sink.old).failures ≤ (W.state sink.new).failures)
        ⊎ ((W.state sink.new).failures ≡ most_failures) }
    ensures tried { (W.state sink.new).failures ≤ (W.state sink.old).failures + most_failed_calls }
{
    let mut written = 0usize;
    let mut retries = MOST_RETRIES;
    while written < text.len() {
        match sink.write(&text[written..]) {
            Ok(0) => return Err(IoFault::WriteFailed),
            Ok(n) => written += n,
            Err(e) => {
                if !spend_retry(&e, &mut retries) {
                    return Err(IoFault::WriteFailed);
                }
            }
        }
    }
    Ok(())
}
