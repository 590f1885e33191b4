//! The names in a folder's listing, from its bytes and from the folders of a runtime: all of them are listed, in their
//! order, a name that is not UTF-8 is refused, and an error of memory stays that.

use crate::fake_files::FakeFiles;
use rustsec_files::reading::text_of_file;
use rustsec_files::{Folders, RealFolders, entry_names, listed_names};
use rustsec_fixtures::{ByteReader, kind_of};
use rustsec_values::{Error, ErrorKind, Items, Text};
use std::alloc::Global;
use std::io;
use std::test::Fail;

/// Returns whether names are these words, in order.
fn are(names: &Items<Text>, words: &str) -> bool {
    for (name, word) in names.as_slice().iter().zip(words.split_whitespace()) {
        if name.as_str() != word {
            return false;
        }
    }
    names.len() == words.split_whitespace().count()
}

/// Returns whether a listing of these bytes, one a call, has these names; or is refused where none are given or a
/// call fails.
fn lists(alloc: Global, bytes: &[u8], fails_at: u64, wanted: Option<&str>) -> bool {
    let mut listing = ByteReader::new(bytes, fails_at);
    match (listed_names(alloc, &mut listing, "db"), wanted) {
        (Ok(names), Some(wanted)) => are(&names, wanted),
        (Err(error), None) => {
            error.kind() == ErrorKind::Io && error.message() == "couldn't read db"
        }
        _ => false,
    }
}

#[test]
fn names_of_listings(rt: HostRuntime) {
    for (bytes, fails_at, wanted) in &[
        (b"".as_slice(), 0, Some("")),
        (b".\0..\0", 0, Some("")),
        (b"b\0..\0.git\0a.md\0.\0...\0", 0, Some("b .git a.md ...")),
        (b"a\0a\0", 0, Some("a a")),
        (b"caf\xc3\xa9\0", 0, Some("caf\u{e9}")),
        (b"a\0\xff.md\0b\0", 0, None),
        (b"a\0b\0", 3, None),
        (b"a\0b\0", 5, None),
    ] {
        let holds = lists(rt.alloc(), bytes, *fails_at, *wanted);
        assert!(rt; holds, "of {wanted:?} at {fails_at}");
    }
}

/// Counts the names of a listing that has the given number of them.
fn count_of(alloc: Global, count: usize) -> Result<usize, Fail> {
    let listing = "a\0".repeat(alloc, count)?;
    let names = entry_names(alloc, &listing)?;
    Ok(names.len())
}

#[test]
fn names_of_long_listings(rt: HostRuntime) -> Result<(), Fail> {
    for count in &[99, 100, 101, 255, 256, 257, 70000] {
        assert!(rt; count_of(rt.alloc(), *count)? == *count, "of {count}");
    }
    Ok(())
}

/// Returns a file system whose folders have this listing, or answer this failure.
fn files(listing: &[u8], failure: Option<io::ErrorKind>) -> FakeFiles<'_> {
    FakeFiles {
        is_folder: true,
        opens_folder: true,
        listing,
        failure,
    }
}

/// Counts the names of a folder with this listing, or the folders in it.
fn names_of(alloc: Global, listing: &[u8]) -> Result<usize, Error> {
    let files = files(listing, None);
    let names = RealFolders::new(&files).names(alloc, "db")?;
    Ok(names.len())
}

fn folders_of(alloc: Global, listing: &[u8]) -> Result<usize, Error> {
    let files = files(listing, None);
    let entries = RealFolders::new(&files).list(alloc, "db")?;
    Ok(entries.as_slice().iter().filter(|e| e.folder).count())
}

/// Returns whether a folder with this many entries has as many names, and as many folders.
fn is_listed_whole(alloc: Global, count: usize) -> Result<bool, Fail> {
    let listing = "a.md\0".repeat(alloc, count)?;
    let bytes = listing.as_bytes();
    Ok(names_of(alloc, bytes)? == count && folders_of(alloc, bytes)? == count)
}

#[test]
fn opened_folders_are_listed_whole(rt: HostRuntime) -> Result<(), Fail> {
    for count in &[0, 1, 99, 100, 101, 300] {
        assert!(rt; is_listed_whole(rt.alloc(), *count)?, "of {count}");
    }
    Ok(())
}

fn is_refused_for(answer: Result<usize, Error>, why: &str) -> bool {
    match answer {
        Ok(_) => false,
        Err(error) => {
            error.kind() == ErrorKind::Io
                && error.message() == "couldn't read db"
                && error.cause() == Some(why)
        }
    }
}

/// Listings with names that are not UTF-8, each with the first such name and the byte offset where it begins. The name
/// has U+FFFD for what is not UTF-8.
const NAMES: &[(&[u8], &str, u64)] = &[
    (b"a.md\0\xff.md\0", "\u{fffd}.md", 5),
    (b"a.md\0caf\xc3\0b.md\0", "caf\u{fffd}", 8),
    (b"\xe9t\xe9.md\0\xff\0", "\u{fffd}t\u{fffd}.md", 0),
];

/// Returns whether a listing is refused for a name at an offset, as one of names and as one of folders.
fn is_refused(alloc: Global, bytes: &[u8], name: &str, at: u64) -> Result<bool, Fail> {
    let why = format!(in alloc;
        "the name of the entry `{name}` is not UTF-8, at byte offset {at} of the listing"
    )?;
    let folders = is_refused_for(folders_of(alloc, bytes), &why);
    Ok(folders && is_refused_for(names_of(alloc, bytes), &why))
}

#[test]
fn opened_folders_with_names_that_are_not_utf8(rt: HostRuntime) -> Result<(), Fail> {
    for (bytes, name, at) in NAMES {
        assert!(rt; is_refused(rt.alloc(), bytes, name, *at)?, "{name}");
    }
    Ok(())
}

/// Returns the kind of the refusal to list a folder, or to read a file, where the system answers this failure.
fn kind_of_listing(alloc: Global, failure: io::ErrorKind) -> Option<ErrorKind> {
    let files = files(b"", Some(failure));
    kind_of(RealFolders::new(&files).names(alloc, "db"))
}

fn kind_of_reading(alloc: Global, failure: io::ErrorKind) -> Option<ErrorKind> {
    let files = files(b"", Some(failure));
    kind_of(text_of_file(&files, alloc, "db"))
}

#[test]
fn errors_of_memory_stay_that(rt: HostRuntime) {
    for (failure, wanted) in &[
        (io::ErrorKind::OutOfMemory, ErrorKind::OutOfMemory),
        (io::ErrorKind::NotFound, ErrorKind::Io),
        (io::ErrorKind::PermissionDenied, ErrorKind::Io),
    ] {
        assert!(rt; kind_of_listing(rt.alloc(), *failure) == Some(*wanted));
        assert!(rt; kind_of_reading(rt.alloc(), *failure) == Some(*wanted));
    }
}
