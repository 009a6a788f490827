ghost use Rattle.std.specs.Prelude.{◌≡◌};
ghost use Rattle.std.specs.Io.{WritesAtMost};
ghost use Rattle.std.specs.Io.KnownBytes.{WriteAppends};
ghost use Rattle.mencius_io.specs.Streams.{CountsWrite, StreamState};

use crate::source::Std;
use std::io;
use std::io::Write;

/// A stream of bytes that a text is written to.
pub trait Sink {
    // The bytes that were written so far, if they are known, and the number of failed calls.
    ghost state: { Self → StreamState };

    /// Writes some bytes from the front of `buf` and returns their number, as `write` of `std::io::Write` does.
    fn write(&mut self, buf: &[u8]) -> io::Result<usize>
        ensures bound { WritesAtMost result buf.now }
        ensures bytes { WriteAppends (state self.old).bytes (state self.new).bytes result buf.now }
        ensures count { CountsWrite (state self.old).failures (state self.new).failures result buf.now };

    /// Returns the number of calls of `write` that failed. A call fails if it returns an error, or if it takes none of
    /// at least one byte. The count stays at the greatest `u64`.
    fn failures(&self) -> u64
        ensures { result ≡ (state self.now).failures };
}

impl<T: Write> Sink for Std<T> {
    ghost state = { λ s. record { bytes = T.contents s.inner; failures = s.failures } };

    fn write(&mut self, buf: &[u8]) -> io::Result<usize> {
        let answer = self.inner.write(buf);
        let is_failure = match answer {
            Ok(n) => n == 0 && !buf.is_empty(),
            Err(_) => true,
        };
        if is_failure {
            self.failures = self.failures.saturating_add(1);
        }
        answer
    }

    fn failures(&self) -> u64 {
        self.failures
    }
}
