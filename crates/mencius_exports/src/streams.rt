//! The streams of a call, with an input and texts in memory.

ghost use Rattle.std.specs.Prelude.{◌≡◌, [], false, Some};

use mencius_io::{Sink, Source};
use std::alloc::Global;
use std::io;
use std::io::{Error, ErrorKind};

/// An input in memory, with a flag that says whether it was read. Reading it never fails.
#[derive(Drop)]
pub(crate) struct Input<'a> {
    /// The bytes that are still to be read.
    pub rest: &'a [u8],
    /// Whether a call tried to read the bytes or their end.
    pub is_asked: bool,
}

impl<'a> Input<'a> {
    /// Makes an input from these bytes, which nobody has read yet.
    pub fn new(bytes: &'a [u8]) -> Input<'a>
        ensures rest { result.rest.now ≡ bytes.now }
        ensures unread { result.is_asked ≡ false }
    {
        Input {
            rest: bytes,
            is_asked: false,
        }
    }
}

impl<'a> Source for Input<'a> {
    ghost state = { λ s. record { bytes = Some s.rest.now; failures = 0 } };

    fn read(&mut self, buf: &mut [u8]) -> io::Result<usize> {
        self.is_asked = true;
        let count = buf.len().min(self.rest.len());
        let (first, rest) = self.rest.split_at(count);
        buf[..count].copy_from_slice(first);
        self.rest = rest;
        Ok(count)
    }

    fn failures(&self) -> u64 {
        0
    }
}

/// A text in memory that grows with each write. A write fails if there is no memory for it.
#[derive(Drop)]
pub(crate) struct Text {
    /// The bytes that were written.
    pub bytes: Vec<u8>,
    /// The number of writes that failed.
    pub failures: u64,
}

impl Text {
    /// Makes an empty text.
    pub fn new(alloc: Global) -> Text
        ensures bytes { result.bytes.items ≡ [] }
        ensures none { result.failures ≡ 0 }
    {
        Text {
            bytes: Vec::new(alloc),
            failures: 0,
        }
    }
}

impl Sink for Text {
    ghost state = { λ s. record { bytes = Some s.bytes.items; failures = s.failures } };

    fn write(&mut self, buf: &[u8]) -> io::Result<usize> {
        match self.bytes.extend_from_slice(buf) {
            Ok(()) => Ok(buf.len()),
            Err(_) => {
                self.failures = self.failures.saturating_add(1);
                Err(Error::from(ErrorKind::OutOfMemory))
            }
        }
    }

    fn failures(&self) -> u64 {
        self.failures
    }
}
