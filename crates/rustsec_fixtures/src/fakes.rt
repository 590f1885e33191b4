//! Readers and writers over memory that give or take one byte a call, or a text a call, and fail at a given call.

ghost use Rattle.std.specs.Prelude.{◌≡◌, ◌++◌, ◌≤◌, [], Some, drop, vec_len};

use std::alloc::Global;
use std::io::{ErrorKind, Read, Write};
use std::{fmt, io};

/// A reader that gives one byte a call, and fails at the call with this number. Calls count from 1, so
/// none fails at 0.
#[derive(Drop)]
pub struct ByteReader<'a> {
    rest: &'a [u8],
    calls: u64,
    fails_at: u64,
    failure: ErrorKind,
}

impl<'a> ByteReader<'a> {
    /// Returns a reader of bytes.
    pub fn new(bytes: &'a [u8], fails_at: u64) -> ByteReader<'a>
        ensures { result.rest.now ≡ bytes.now }
    {
        ByteReader::failing(bytes, fails_at, ErrorKind::Other)
    }

    /// Returns a reader of bytes whose failure is that the call was interrupted.
    pub fn interrupted(bytes: &'a [u8], fails_at: u64) -> ByteReader<'a>
        ensures { result.rest.now ≡ bytes.now }
    {
        ByteReader::failing(bytes, fails_at, ErrorKind::Interrupted)
    }

    /// Returns a reader of bytes whose failure is of a kind.
    pub fn failing(bytes: &'a [u8], fails_at: u64, failure: ErrorKind) -> ByteReader<'a>
        ensures { result.rest.now ≡ bytes.now }
    {
        ByteReader {
            rest: bytes,
            calls: 0,
            fails_at,
            failure,
        }
    }
}

impl<'a> Read for ByteReader<'a> {
    ghost remaining = { λ r. Some r.rest.now };

    fn read(&mut self, buf: &mut [u8]) -> io::Result<usize> {
        self.calls = self.calls.saturating_add(1);
        if self.calls == self.fails_at {
            return Err(io::Error::from(self.failure));
        }
        let count = self.rest.len().min(buf.len()).min(1);
        let (front, back) = self.rest.split_at(count);
        buf[..count].copy_from_slice(front);
        self.rest = back;
        Ok(count)
    }
}

/// A writer to memory that takes one byte a call, and fails at the call with this number. Calls count
/// from 1, so none fails at 0.
#[derive(Drop)]
pub struct ByteWriter {
    held: Vec<u8>,
    calls: u64,
    fails_at: u64,
}

impl ByteWriter {
    /// Returns a writer that already holds some bytes.
    pub fn new(held: Vec<u8>, fails_at: u64) -> ByteWriter
        ensures { result.held.items ≡ held.items }
    {
        ByteWriter {
            held,
            calls: 0,
            fails_at,
        }
    }

    /// Returns the bytes that it holds: those it began with, and those that were written.
    pub fn held(&self) -> &[u8]
        ensures { result.now ≡ self.now.held.items }
    {
        self.held.as_slice()
    }
}

impl Write for ByteWriter {
    ghost contents = { λ w. Some w.held.items };

    fn write(&mut self, buf: &[u8]) -> io::Result<usize> {
        self.calls = self.calls.saturating_add(1);
        if self.calls == self.fails_at {
            return Err(io::Error::from(ErrorKind::Other));
        }
        let count = buf.len().min(1);
        self.held.extend_from_slice(&buf[..count])?;
        Ok(count)
    }

    fn flush(&mut self) -> io::Result<()> {
        Ok(())
    }
}

/// A writer of texts to memory that fails at the call with this number. Calls count from 1, so none fails at 0.
#[derive(Drop)]
pub struct TextWriter {
    held: Vec<u8>,
    calls: u64,
    fails_at: u64,
}

impl TextWriter {
    /// Returns a writer that holds no text yet.
    pub fn new(alloc: Global, fails_at: u64) -> TextWriter
        ensures { result.held.items ≡ [] }
    {
        TextWriter {
            held: Vec::new(alloc),
            calls: 0,
            fails_at,
        }
    }

    /// Returns the bytes that were written.
    pub fn held(&self) -> &[u8]
        ensures { result.now ≡ self.now.held.items }
    {
        self.held.as_slice()
    }

    /// Returns how many calls there were, with the one that failed.
    pub fn calls(&self) -> u64
        ensures { result ≡ self.now.calls }
    {
        self.calls
    }
}

impl fmt::Write for TextWriter {
    ghost write_str_gives = { λ before bytes after. after.held.items ≡ before.held.items ++ bytes };

    fn write_str(&mut self, text: &str) -> fmt::Result {
        self.calls = self.calls.saturating_add(1);
        if self.calls == self.fails_at {
            return Err(fmt::Error);
        }
        match self.held.extend_from_slice(text.as_bytes()) {
            Ok(()) => Ok(()),
            Err(_) => Err(fmt::Error),
        }
    }
}
