//! Readers to their end, the texts of readers, and files that are exchanged between the question what a path leads to
//! and the opening: what is opened and is not a regular file is not read, and what was not a regular file is not
//! opened.

use crate::fake_files::FakeFiles;
use rustsec_files::reading;
use rustsec_fixtures::ByteReader;
use rustsec_values::ErrorKind;
use std::alloc::Global;
use std::test::Fail;

/// Returns whether a reader's bytes are these, all of them.
fn bytes_are_read(alloc: Global, bytes: &[u8]) -> bool {
    let mut reader = bytes;
    match reading::bytes_of(alloc, &mut reader) {
        Ok(all) => all.as_slice() == bytes,
        Err(_) => false,
    }
}

/// Returns whether all of this many bytes are read.
fn many_are_read(alloc: Global, count: usize) -> Result<bool, Fail> {
    let mut bytes = Vec::new(alloc);
    for at in 0..count {
        bytes.push((at % 251) as u8)?;
    }
    Ok(bytes_are_read(alloc, &bytes))
}

#[test]
fn readers_to_their_end(rt: HostRuntime) -> Result<(), Fail> {
    for count in &[0, 1, 8191, 8192, 8193, 65535, 65536, 65537, 1200000] {
        assert!(rt; many_are_read(rt.alloc(), *count)?, "of {count}");
    }
    Ok(())
}

/// Returns whether the text of a reader of one byte a call has this length, or is refused if a call fails.
fn slow_text(alloc: Global, count: usize, fails_at: u64) -> Result<bool, Fail> {
    let letters = "a".repeat(alloc, count)?;
    let mut reader = ByteReader::new(letters.as_bytes(), fails_at);
    Ok(match reading::text_of(alloc, &mut reader, "x.md") {
        Ok(text) => fails_at == 0 && text.len() == count,
        Err(error) => fails_at != 0 && error.kind() == ErrorKind::Io,
    })
}

// The last call finds the end, and may fail too.
#[test]
fn slow_and_failing_readers(rt: HostRuntime) -> Result<(), Fail> {
    for (count, fails_at) in &[(70000, 0), (3, 1), (3, 2), (3, 3), (3, 4)] {
        let is_right = slow_text(rt.alloc(), *count, *fails_at)?;
        assert!(rt; is_right, "{count} at {fails_at}");
    }
    Ok(())
}

/// Returns whether all bytes of a reader are read although a call was interrupted.
fn is_read_again(alloc: Global, bytes: &[u8], interrupted_at: u64) -> bool {
    let mut reader = ByteReader::interrupted(bytes, interrupted_at);
    match reading::bytes_of(alloc, &mut reader) {
        Ok(all) => all.as_slice() == bytes,
        Err(_) => false,
    }
}

#[test]
fn interrupted_readers(rt: HostRuntime) {
    for interrupted_at in &[1, 2, 3, 4] {
        assert!(rt; is_read_again(rt.alloc(), b"abc", *interrupted_at));
    }
}

/// Returns whether the text of a reader is this one, or refused if there is none.
fn text_is(alloc: Global, bytes: &[u8], want: Option<&str>) -> bool {
    let mut reader = bytes;
    match (reading::text_of(alloc, &mut reader, "x.md"), want) {
        (Ok(text), Some(want)) => text.as_str() == want,
        (Err(error), None) => error.kind() == ErrorKind::Io,
        _ => false,
    }
}

#[test]
fn texts_of_readers(rt: HostRuntime) {
    for (bytes, want) in &[
        (b"".as_slice(), Some("")),
        (b"a\r\nb\r\n", Some("a\r\nb\r\n")),
        (b"\xef\xbb\xbfa", Some("\u{feff}a")),
        (b"a\xff", None),
    ] {
        assert!(rt; text_is(rt.alloc(), bytes, *want), "of {want:?}");
    }
}

/// Returns whether the empty text is read, or refused for the reason that the file is not a regular one.
fn is_read(alloc: Global, is_folder: bool, opens_folder: bool, wanted: bool) -> bool {
    let files = FakeFiles {
        is_folder,
        opens_folder,
        listing: b"",
        failure: None,
    };
    match reading::text_of_file(&files, alloc, "x.md") {
        Ok(text) => wanted && text.is_empty(),
        Err(error) => {
            !wanted
                && error.kind() == ErrorKind::Io
                && error.message() == "couldn't read x.md"
                && error.cause() == Some("it is not a regular file")
        }
    }
}

#[test]
fn swapped_files(rt: HostRuntime) {
    for (is_folder, opens_folder, wanted) in &[
        (false, false, true),
        (false, true, false),
        (true, false, false),
        (true, true, false),
    ] {
        assert!(rt; is_read(rt.alloc(), *is_folder, *opens_folder, *wanted));
    }
}
