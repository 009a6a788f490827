ghost use Rattle.std.specs.Prelude.{◌≡◌, ◌⊎◌, ◌+◌, ◌<◌, ◌≤◌, length, vec_len, IfOk, IfErr, OnOk, OnErr, IfSome, IsErrOf};
ghost use Rattle.std.specs.Io.{ReadsAtMost};
ghost use Rattle.std.specs.Io.KnownBytes.{IsAtEnd, ReadConsumes};
ghost use Rattle.mencius_io.specs.Streams.{HasCounted, HasFailed, TakesAtMost, most_bytes, most_failed_calls};

use crate::fault::IoFault;
use crate::retries::{MOST_RETRIES, spend_retry};
use crate::source::Source;
use std::alloc::Global;

// The greatest length of a scenario, in bytes.
const MOST_BYTES: usize = 16_777_216;

/// The number of bytes that one call requests.
pub const READ_BYTES: usize = 8_192;

/// Reads some bytes into the front of `buf` and returns their number. It returns 0 only at the end of the source, or if
/// `buf` is empty. If a call is interrupted and some of the `retries` are left, it makes the call again and uses up one
/// of them. Any other error is `ReadFailed`, and so is an interruption if no retry is left.
pub fn read_some<R: Source>(
    source: &mut R,
    buf: &mut [u8],
    retries: &mut u32,
) -> Result<usize, IoFault>
    // The bytes that were read.
    ensures bound { ReadsAtMost result buf.new }
    ensures bytes { ReadConsumes (R.state source.old).bytes (R.state source.new).bytes result buf.new }

    // The fault and its cause.
    ensures fault { IfErr result (λ f. f ≡ IoFault.ReadFailed) }
    ensures failed { OnErr result (HasFailed (R.state source.old).failures (R.state source.new).failures) }

    // The number of failed calls. Each of them used up one retry, except the call that ended the reading.
    ensures counted { HasCounted (R.state source.old).failures (R.state source.new).failures }
    ensures retried { OnOk result
        ((R.state source.new).failures + retries.new ≤ (R.state source.old).failures + retries.old) }
    ensures tried { (R.state source.new).failures + retries.new ≤ (R.state source.old).failures + retries.old + 1 }
{
    'calls: loop {
        match source.read(buf) {
            Ok(n) => return Ok(n),
            Err(e) => {
                if !spend_retry(&e, retries) {
                    return Err(IoFault::ReadFailed);
                }
            }
        }
    }
}

/// Returns all bytes of a source. If the source is longer than 16,777,216 bytes, it reads one byte more than that,
/// fails with `BadLimit` and leaves the rest. If a call is interrupted, it makes the call again, up to 1,000 times in
/// total. Any other error is `ReadFailed`. It fails with `NoMemory` if there is no memory for the bytes that were read,
/// or for the 8,192 bytes that one call requests.
pub fn read_all<R: Source>(alloc: Global, source: &mut R) -> Result<Vec<u8>, IoFault>
    ensures whole { IfOk result (λ x. IfSome (R.state source.old).bytes (λ bytes. x.items ≡ bytes)) }
    ensures end { OnOk result (IsAtEnd (R.state source.new).bytes) }
    ensures fits { IfOk result (λ x. vec_len x ≤ most_bytes) }

    // The fault and its cause.
    ensures too_long { IsErrOf result IoFault.BadLimit
        → IfSome (R.state source.old).bytes (λ bytes. most_bytes < length bytes) }
    ensures failed { IsErrOf result IoFault.ReadFailed
        → HasFailed (R.state source.old).failures (R.state source.new).failures }
    ensures faults { IfErr result (λ f. (f ≡ IoFault.BadLimit) ⊎ (f ≡ IoFault.ReadFailed)
        ⊎ (f ≡ IoFault.NoMemory)) }

    // The use of the source is limited, even if reading fails.
    ensures taken { TakesAtMost (most_bytes + 1) (R.state source.old).bytes (R.state source.new).bytes }
    ensures tried { (R.state source.new).failures ≤ (R.state source.old).failures + most_failed_calls }
{
    let mut bytes = Vec::new(alloc);
    let mut retries = MOST_RETRIES;
    let mut room = Vec::new(alloc);
    room.resize(READ_BYTES, 0u8)?;
    let buf = room.as_mut_slice();
    'reads: while bytes.len() <= MOST_BYTES {
        let most = (MOST_BYTES + 1 - bytes.len()).min(buf.len());
        let n = read_some(source, &mut buf[..most], &mut retries)?;
        if n == 0 {
            return Ok(bytes);
        }
        bytes.extend_from_slice(&buf[..n])?;
    }
    Err(IoFault::BadLimit)
}
