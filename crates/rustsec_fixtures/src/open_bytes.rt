//! An open file of a file system in memory.

ghost use Rattle.std.specs.Prelude.{◌≤◌, length};

use std::fs::{Metadata, OpenFile};
use std::io;
use std::io::{Read, Seek, SeekFrom, Write};

/// Returns the answer of a call that no reader makes.
pub fn unsupported() -> io::Error {
    io::Error::from(io::ErrorKind::Unsupported)
}

/// Copies the bytes that fit from the beginning of some bytes, and returns how many, and those after them.
pub fn copied<'a>(bytes: &'a [u8], buf: &mut [u8]) -> (usize, &'a [u8])
    ensures { result.0 ≤ length buf.new }
{
    let count = bytes.len().min(buf.len());
    let (now, later) = bytes.split_at(count);
    buf[..count].copy_from_slice(now);
    (count, later)
}

/// An open file, or a folder that was opened as a file: whether it is one, and the bytes that are left.
#[derive(Drop)]
pub struct OpenBytes<'a> {
    pub is_folder: bool,
    pub rest: &'a [u8],
}

/// Returns what the system answers about a folder, or about a file.
pub fn metadata_of(is_folder: bool) -> Metadata {
    if is_folder {
        Metadata::of_dir()
    } else {
        Metadata::of_file(0)
    }
}

impl<'a> OpenFile for OpenBytes<'a> {
    fn metadata(&self) -> io::Result<Metadata> {
        Ok(metadata_of(self.is_folder))
    }

    fn set_len(&self, _size: u64) -> io::Result<()> {
        Err(unsupported())
    }

    fn sync_all(&self) -> io::Result<()> {
        Err(unsupported())
    }

    fn sync_data(&self) -> io::Result<()> {
        Err(unsupported())
    }
}

impl<'a> Read for OpenBytes<'a> {
    fn read(&mut self, buf: &mut [u8]) -> io::Result<usize> {
        let (count, rest) = copied(self.rest, buf);
        self.rest = rest;
        Ok(count)
    }
}

impl<'a> Write for OpenBytes<'a> {
    fn write(&mut self, _buf: &[u8]) -> io::Result<usize> {
        Err(unsupported())
    }

    fn flush(&mut self) -> io::Result<()> {
        Err(unsupported())
    }
}

impl<'a> Seek for OpenBytes<'a> {
    fn seek(&mut self, _to: SeekFrom) -> io::Result<u64> {
        Err(unsupported())
    }
}
