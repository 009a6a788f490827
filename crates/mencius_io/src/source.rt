ghost use Rattle.std.specs.Prelude.{◌≡◌};
ghost use Rattle.std.specs.Io.{ReadsAtMost};
ghost use Rattle.std.specs.Io.KnownBytes.{ReadConsumes};
ghost use Rattle.mencius_io.specs.Streams.{CountsRead, StreamState};

use std::io;
use std::io::Read;
use std::marker::Model;

/// A stream of bytes that an input is read from.
pub trait Source {
    // The bytes that are still to be read, if they are known, and the number of failed calls.
    ghost state: { Self → StreamState };

    /// Reads some bytes into the front of `buf` and returns their number, as `read` of `std::io::Read` does. It returns
    /// 0 only at the end of the source, or if `buf` is empty.
    fn read(&mut self, buf: &mut [u8]) -> io::Result<usize>
        ensures bound { ReadsAtMost result buf.new }
        ensures bytes { ReadConsumes (state self.old).bytes (state self.new).bytes result buf.new }
        ensures count { CountsRead (state self.old).failures (state self.new).failures result };

    /// Returns the number of calls of `read` that returned an error. The count stays at the greatest `u64`.
    fn failures(&self) -> u64
        ensures { result ≡ (state self.now).failures };
}

/// A reader or a writer of `std`, with a count of its failures. It is a [`Source`] over any reader, and a
/// [`Sink`](crate::Sink) over any writer.
#[derive(Drop)]
pub struct Std<T> {
    pub(crate) inner: T,
    pub(crate) failures: u64,
}

impl<T> Model for Std<T> {
    ghost use Rattle.mencius_io.specs.Streams.{WithFailures};

    ghost Value = { WithFailures T };

    ghost view = { λ s. record { inner = s.inner; failures = s.failures } };
}

impl<T> Std<T> {
    /// Makes a reader or a writer that has not failed yet.
    pub fn new(inner: T) -> Std<T>
        ensures inner { result.inner ≡ inner }
        ensures none { result.failures ≡ 0 }
    {
        Std { inner, failures: 0 }
    }
}

impl<T: Read> Source for Std<T> {
    ghost state = { λ s. record { bytes = T.remaining s.inner; failures = s.failures } };

    fn read(&mut self, buf: &mut [u8]) -> io::Result<usize> {
        let answer = self.inner.read(buf);
        if answer.is_err() {
            self.failures = self.failures.saturating_add(1);
        }
        answer
    }

    fn failures(&self) -> u64 {
        self.failures
    }
}
