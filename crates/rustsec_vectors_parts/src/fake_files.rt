//! A file system in memory, which answers alike for every path.

use rustsec_fixtures::{ByteReader, OpenBytes, metadata_of, unsupported};
use std::alloc::Allocator;
use std::fs::{Metadata, OpenOptions};
use std::io;
use std::rt::Files;

/// Paths that each lead to a file or a folder when they are asked, and to an empty file or a folder when they are opened,
/// and folders that all have one listing. Where a failure is given, each call about a path answers it.
#[derive(Drop)]
pub(crate) struct FakeFiles<'a> {
    pub(crate) is_folder: bool,
    pub(crate) opens_folder: bool,
    pub(crate) listing: &'a [u8],
    pub(crate) failure: Option<io::ErrorKind>,
}

impl<'a> FakeFiles<'a> {
    /// Returns this value, or the failure that is given.
    fn answer<T: Drop>(&self, value: T) -> io::Result<T> {
        match self.failure {
            Some(kind) => Err(io::Error::from(kind)),
            None => Ok(value),
        }
    }
}

impl<'a> Files for FakeFiles<'a> {
    type File = OpenBytes<'a>;

    type Dir = ByteReader<'a>;

    fn open_file(&self, _how: &OpenOptions, _path: &str) -> io::Result<OpenBytes<'a>> {
        let is_folder = self.opens_folder;
        self.answer(OpenBytes {
            is_folder,
            rest: &[],
        })
    }

    fn open_dir(&self, _path: &str) -> io::Result<ByteReader<'a>> {
        self.answer(ByteReader::new(self.listing, 0))
    }

    fn metadata(&self, _path: &str) -> io::Result<Metadata> {
        self.answer(metadata_of(self.is_folder))
    }

    fn symlink_metadata(&self, _path: &str) -> io::Result<Metadata> {
        self.answer(metadata_of(self.is_folder))
    }

    fn copy(&self, _from: &str, _to: &str) -> io::Result<u64> {
        Err(unsupported())
    }

    fn rename(&self, _from: &str, _to: &str) -> io::Result<()> {
        Err(unsupported())
    }

    fn remove_file(&self, _path: &str) -> io::Result<()> {
        Err(unsupported())
    }

    fn create_dir(&self, _path: &str) -> io::Result<()> {
        Err(unsupported())
    }

    fn remove_dir(&self, _path: &str) -> io::Result<()> {
        Err(unsupported())
    }

    fn remove_dir_all<B: Allocator>(&self, _alloc: B, _path: &str) -> io::Result<()> {
        Err(unsupported())
    }
}
