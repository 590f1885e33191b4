//! The files of a case, as a runtime that has them in memory.

use rustsec_fixtures::{OpenBytes, copied, metadata_of, unsupported};
use std::alloc::{Allocator, Global};
use std::fs::{Metadata, OpenOptions};
use std::io;
use std::io::Read;
use std::rt::Files;

/// A file of a case, or a folder if it has no contents.
#[derive(Drop)]
pub struct File {
    pub path: String,
    pub contents: Option<Vec<u8>>,
}

/// What a path leads to.
#[derive(Clone, Copy)]
enum Kind<'a> {
    File(&'a [u8]),
    Folder,
}

/// The system's number of the error that a path is missing.
const NO_ENTRY: i32 = 2;

/// The system's number of the error that a path leads through a file.
const NO_FOLDER: i32 = 20;

/// Returns the name in a folder through which a path leads, or `None` if the path is not below the folder.
fn name_in<'a>(path: &'a str, folder: &str) -> Option<&'a str> {
    let below = if folder.is_empty() {
        path
    } else {
        path.strip_prefix(folder)?.strip_prefix("/")?
    };
    match below.split_once("/") {
        Some((name, _)) => Some(name),
        None => Some(below),
    }
}

/// Returns a path without empty names and names `.`.
fn normal(alloc: Global, path: &str) -> io::Result<String> {
    let mut normal = String::new(alloc);
    for name in path.split("/") {
        if name.is_empty() || name == "." {
            continue;
        }
        if !normal.is_empty() {
            normal.push_str("/")?;
        }
        normal.push_str(name)?;
    }
    Ok(normal)
}

impl File {
    /// Returns what a path leads to by this file.
    fn kind_at(&self, path: &str) -> Option<Kind<'_>> {
        if self.path.as_str() == path {
            return match &self.contents {
                Some(bytes) => Some(Kind::File(bytes.as_slice())),
                None => Some(Kind::Folder),
            };
        }
        name_in(&self.path, path).map(|_| Kind::Folder)
    }

    /// Returns whether a path leads through this file.
    fn is_above(&self, path: &str) -> bool {
        self.contents.is_some() && name_in(path, &self.path).is_some()
    }
}

/// Files in memory.
#[derive(Drop)]
pub struct MemoryFiles<'a> {
    alloc: Global,
    files: &'a [File],
}

impl<'a> MemoryFiles<'a> {
    /// Returns a runtime with these files.
    pub fn new(alloc: Global, files: &'a [File]) -> MemoryFiles<'a> {
        MemoryFiles { alloc, files }
    }

    /// Returns the error of a path that leads nowhere.
    fn missing(&self, path: &str) -> io::Error {
        for file in self.files {
            if file.is_above(path) {
                return io::Error::from_raw_os_error(NO_FOLDER);
            }
        }
        io::Error::from_raw_os_error(NO_ENTRY)
    }

    /// Returns what a path leads to.
    fn kind(&self, path: &str) -> io::Result<Kind<'a>> {
        let path = normal(self.alloc, path)?;
        if path.is_empty() {
            return Ok(Kind::Folder);
        }
        for file in self.files {
            if let Some(kind) = file.kind_at(&path) {
                return Ok(kind);
            }
        }
        Err(self.missing(&path))
    }

    /// Returns what the system answers about a path.
    fn answer(&self, path: &str) -> io::Result<Metadata> {
        let is_folder = matches!(self.kind(path)?, Kind::Folder);
        Ok(metadata_of(is_folder))
    }

    /// Returns the names of a folder, each once.
    fn names(&self, path: &str) -> io::Result<Vec<&'a str>> {
        let mut names = Vec::new(self.alloc);
        for file in self.files {
            if let Some(name) = name_in(&file.path, path) {
                if !names.contains(&name) {
                    names.push(name)?;
                }
            }
        }
        Ok(names)
    }
}

/// An open folder: the names that are left, in the opposite order. Each read gives one.
#[derive(Drop)]
pub struct Listing<'a> {
    names: Vec<&'a str>,
}

impl<'a> Read for Listing<'a> {
    fn read(&mut self, buf: &mut [u8]) -> io::Result<usize> {
        let Some(name) = self.names.pop() else {
            return Ok(0);
        };
        let (count, rest) = copied(name.as_bytes(), buf);
        if !rest.is_empty() || count >= buf.len() {
            return Err(unsupported());
        }
        buf[count] = 0;
        Ok(count + 1)
    }
}

impl<'a> Files for MemoryFiles<'a> {
    type File = OpenBytes<'a>;

    type Dir = Listing<'a>;

    fn open_file(&self, _how: &OpenOptions, path: &str) -> io::Result<OpenBytes<'a>> {
        match self.kind(path)? {
            Kind::File(rest) => Ok(OpenBytes {
                is_folder: false,
                rest,
            }),
            Kind::Folder => Err(unsupported()),
        }
    }

    fn open_dir(&self, path: &str) -> io::Result<Listing<'a>> {
        match self.kind(path)? {
            Kind::File(_) => Err(io::Error::from_raw_os_error(NO_FOLDER)),
            Kind::Folder => {
                let path = normal(self.alloc, path)?;
                let mut names = self.names(&path)?;
                names.reverse();
                Ok(Listing { names })
            }
        }
    }

    fn metadata(&self, path: &str) -> io::Result<Metadata> {
        self.answer(path)
    }

    fn symlink_metadata(&self, path: &str) -> io::Result<Metadata> {
        self.answer(path)
    }

    fn copy(&self, _from: &str, _to: &str) -> io::Result<u64> {
        Err(unsupported())
    }

    fn rename(&self, _from: &str, _to: &str) -> io::Result<()> {
        Err(unsupported())
    }

    fn remove_file(&self, _path: &str) -> io::Result<()> {
        Err(unsupported())
    }

    fn create_dir(&self, _path: &str) -> io::Result<()> {
        Err(unsupported())
    }

    fn remove_dir(&self, _path: &str) -> io::Result<()> {
        Err(unsupported())
    }

    fn remove_dir_all<B: Allocator>(&self, _alloc: B, _path: &str) -> io::Result<()> {
        Err(unsupported())
    }
}
