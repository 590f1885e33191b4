//! The text of a file, and the bytes of any reader, to their end; the failure of a path that cannot be opened, listed or
//! read.

ghost use Rattle.std.specs.Prelude.{◌≡◌, ◌⊎◌, ◌↔◌, IfErr, IfOk, IfSome, IsErr, IsOkAnd, IsUtf8, Ok, OnErr, OnOk, codes, string_bytes, true};
ghost use Rattle.std.specs.Fs.{file_type, IsFile};
ghost use Rattle.std.specs.IoError.{error_kind};
ghost use Rattle.std.specs.Str.Lossy.{utf8_valid_len};
ghost use Rattle.std.specs.Io.KnownBytes.{Consumes, IsAtEnd, Keeps};
ghost use Rattle.rustsec_files.specs.ReadFailures.{IsIoFailure, IsReadFailure, KeepsMemory, io_failure, not_utf8_from, open_message, read_message};
ghost use Rattle.rustsec_values.specs.Failure.{IsMemory, IsOfKind, IsRefusal, out_of_memory};

use rustsec_values::{Error, ErrorKind, Result};
use std::alloc::{AllocError, Global};
use std::fs::{Metadata, OpenFile};
use std::io::{ErrorKind as IoErrorKind, Read};
use std::rt::Files;
use std::{fs, io};

/// The most reads of a reader, 2^32, so that a call returns for a reader without an end too.
const MAX_READS: u64 = 4294967296;

/// Returns all bytes that a reader has left. A read that was interrupted is tried again.
///
/// # Errors
///
/// The reader's own error; `Other` if it has not ended after 2^32 reads; `OutOfMemory` if there is no
/// memory for the bytes.
pub fn bytes_of<R: Read>(alloc: Global, reader: &mut R) -> io::Result<Vec<u8>>
    ensures { IfOk result (λ v. IfSome (R.remaining reader.old) (λ bytes. v.items ≡ bytes)) }
{
    let mut all = Vec::new(alloc);
    // Every call clears the buffer, so it is small: most advisories fit it.
    let mut buf = [0u8; 8192];
    'reads: for _ in 0..MAX_READS {
        match reader.read(&mut buf) {
            Ok(0) => return Ok(all),
            Ok(count) => all.extend_from_slice(&buf[..count])?,
            Err(e) => {
                if e.kind() != IoErrorKind::Interrupted {
                    return Err(e);
                }
            }
        }
    }
    Err(io::Error::other("no end after 4294967296 reads"))
}

/// Returns whether reading failed since memory ran out, and not for what was read.
fn is_out_of_memory(error: &io::Error) -> bool
    ensures { result ≡ true ↔ error_kind error.now ≡ IoErrorKind.OutOfMemory }
{
    error.kind() == IoErrorKind::OutOfMemory
}

/// Returns the failure with this message, which memory may be refused for, and this cause.
fn io_error(alloc: Global, message: std::result::Result<String, AllocError>, why: &str) -> Error
    ensures ok { IfOk message (λ s. (result ≡ io_failure (string_bytes s) why.now) ⊎ (result ≡ out_of_memory)) }
    ensures err { IfErr message (λ _. result ≡ out_of_memory) }
{
    match message {
        Ok(message) => Error::with_source(alloc, ErrorKind::Io, &message, why),
        Err(refused) => Error::from(refused),
    }
}

/// Returns the failure of a file that was found and cannot be read, for this reason. The message names
/// the path, the cause is the reason.
pub fn read_error(alloc: Global, path: &str, why: &str) -> Error
    ensures exact { (result ≡ io_failure (read_message path.now) why.now) ⊎ (result ≡ out_of_memory) }
    ensures kind { IsOfKind ErrorKind.Io result }
    ensures names { IsIoFailure (read_message path.now) result }
{
    io_error(alloc, format!(in alloc; "couldn't read {path}"), why)
}

/// Returns the failure of a path that cannot be opened or listed, for this reason. The message names the
/// path, the cause is the reason.
pub fn open_error(alloc: Global, path: &str, why: &str) -> Error
    ensures exact { (result ≡ io_failure (open_message path.now) why.now) ⊎ (result ≡ out_of_memory) }
    ensures kind { IsOfKind ErrorKind.Io result }
    ensures names { IsIoFailure (open_message path.now) result }
{
    io_error(alloc, format!(in alloc; "couldn't open {path}"), why)
}

/// Returns what an error says. For an error of memory it returns `OutOfMemory`.
fn reason(alloc: Global, error: &io::Error) -> Result<String>
    ensures memory { error_kind error.now ≡ IoErrorKind.OutOfMemory → IsErr result }
    ensures err { IfErr result IsMemory }
{
    if is_out_of_memory(error) {
        return Err(Error::from(AllocError));
    }
    let why = format!(in alloc; "{error}")?;
    Ok(why)
}

/// Returns the failure of a file that was found and cannot be read, for this error. An error of memory
/// stays that.
fn read_error_from(alloc: Global, path: &str, error: io::Error) -> Error
    ensures memory { error_kind error ≡ IoErrorKind.OutOfMemory → result ≡ out_of_memory }
    ensures kind { IsOfKind ErrorKind.Io result }
    ensures names { IsIoFailure (read_message path.now) result }
{
    match reason(alloc, &error) {
        Ok(why) => read_error(alloc, path, &why),
        Err(refused) => refused,
    }
}

/// Returns the failure of a path that cannot be opened or listed, for this error. An error of memory
/// stays that.
fn open_error_from(alloc: Global, path: &str, error: io::Error) -> Error
    ensures memory { error_kind error ≡ IoErrorKind.OutOfMemory → result ≡ out_of_memory }
    ensures kind { IsOfKind ErrorKind.Io result }
    ensures names { IsIoFailure (open_message path.now) result }
{
    match reason(alloc, &error) {
        Ok(why) => open_error(alloc, path, &why),
        Err(refused) => refused,
    }
}

/// Returns what reading a file gave. `path` is for the message alone.
///
/// # Errors
///
/// `Io` for an error, which the cause tells; else `OutOfMemory`, for an error of memory or for the message.
pub fn read_answer<T>(alloc: Global, answer: io::Result<T>, path: &str) -> Result<T>
    ensures ok { IfOk answer (λ x. result ≡ Ok x) }
    ensures refused { IsErr answer → IsErr result }
    ensures memory { KeepsMemory answer result }
    ensures kind { IfErr result (IsOfKind ErrorKind.Io) }
    ensures names { IfErr result (IsIoFailure (read_message path.now)) }
{
    match answer {
        Ok(value) => Ok(value),
        Err(e) => Err(read_error_from(alloc, path, e)),
    }
}

/// Returns what opening a path gave, or asking the system about it. `path` is for the message alone.
///
/// # Errors
///
/// As `read_answer`. The message says that the path couldn't be opened.
pub fn open_answer<T>(alloc: Global, answer: io::Result<T>, path: &str) -> Result<T>
    ensures ok { IfOk answer (λ x. result ≡ Ok x) }
    ensures refused { IsErr answer → IsErr result }
    ensures memory { KeepsMemory answer result }
    ensures kind { IfErr result (IsOfKind ErrorKind.Io) }
    ensures names { IfErr result (IsIoFailure (open_message path.now)) }
{
    match answer {
        Ok(value) => Ok(value),
        Err(e) => Err(open_error_from(alloc, path, e)),
    }
}

/// Returns the failure of a file whose bytes are not UTF-8 from an offset on.
fn not_utf8_error(alloc: Global, path: &str, offset: usize) -> Error
    ensures exact { (result ≡ io_failure (read_message path.now) (not_utf8_from offset)) ⊎ (result ≡ out_of_memory) }
    ensures names { IsIoFailure (read_message path.now) result }
{
    match format!(in alloc; "it is not UTF-8 from byte offset {offset} on") {
        Ok(place) => read_error(alloc, path, &place),
        Err(refused) => Error::from(refused),
    }
}

/// Returns the text of a file that holds these bytes, with no copy of them. `path` is for the message
/// alone.
///
/// # Errors
///
/// `Io` if the bytes are not UTF-8; else `OutOfMemory`, for the message. The cause tells the offset from
/// which on they are not.
pub fn text_of_bytes(alloc: Global, bytes: Vec<u8>, path: &str) -> Result<String>
    ensures ok { IfOk result (λ s. string_bytes s ≡ bytes.items) }
    ensures err { IfErr result (IsRefusal ErrorKind.Io (¬ IsUtf8 bytes.items)) }
    ensures none { IfErr result (λ e. ¬ IsUtf8 bytes.items) }
    ensures exact { IfErr result (λ e. (e ≡ io_failure (read_message path.now) (not_utf8_from (utf8_valid_len bytes.items))) ⊎ (e ≡ out_of_memory)) }
    ensures kind { IfErr result (IsOfKind ErrorKind.Io) }
    ensures names { IfErr result (IsIoFailure (read_message path.now)) }
{
    match String::from_utf8(bytes) {
        Ok(text) => Ok(text),
        Err(e) => Err(not_utf8_error(alloc, path, e.utf8_error().valid_up_to())),
    }
}

/// Returns the text of the bytes that reading a file gave. `path` is for the message alone.
///
/// # Errors
///
/// As `read_answer`; then as `text_of_bytes`.
fn text_of_answer(alloc: Global, answer: io::Result<Vec<u8>>, path: &str) -> Result<String>
    ensures ok { IfOk result (λ s. IsOkAnd answer (λ bytes. string_bytes s ≡ bytes.items)) }
    ensures memory { KeepsMemory answer result }
    ensures none { IfErr result (λ e. IfOk answer (λ bytes. ¬ IsUtf8 bytes.items)) }
    ensures kind { IfErr result (IsOfKind ErrorKind.Io) }
    ensures names { IfErr result (IsIoFailure (read_message path.now)) }
{
    let bytes = read_answer(alloc, answer, path)?;
    text_of_bytes(alloc, bytes, path)
}

/// Returns the text of a file's reader: all bytes that it has left. `path` is for the message alone.
///
/// # Errors
///
/// `Io` if a read fails, the reader has not ended after 2^32 reads, or the bytes are not UTF-8; else
/// `OutOfMemory`. The message names the path, the cause says why.
pub fn text_of<R: Read>(alloc: Global, reader: &mut R, path: &str) -> Result<String>
    ensures text { IfOk result (λ s. IfSome (R.remaining reader.old) (λ bytes. string_bytes s ≡ bytes)) }
    ensures kind { IfErr result (IsOfKind ErrorKind.Io) }
    ensures names { IfErr result (IsIoFailure (read_message path.now)) }
{
    text_of_answer(alloc, bytes_of(alloc, reader), path)
}

/// Refuses a path that leads to a folder, a pipe, a device or a socket.
///
/// # Errors
///
/// `Io` where the system says so; else `OutOfMemory`, for the message.
fn expect_regular(alloc: Global, metadata: &Metadata, path: &str) -> Result<()>
    ensures ok { OnOk result (IsFile (file_type metadata.now)) }
    ensures none { OnErr result (¬ IsFile (file_type metadata.now)) }
    ensures exact { IfErr result (λ e. (e ≡ io_failure (read_message path.now) (codes "it is not a regular file")) ⊎ (e ≡ out_of_memory)) }
    ensures kind { IfErr result (IsOfKind ErrorKind.Io) }
    ensures names { IfErr result (IsIoFailure (read_message path.now)) }
{
    if metadata.is_file() {
        Ok(())
    } else {
        Err(read_error(alloc, path, "it is not a regular file"))
    }
}

/// Returns the text of an open file, which must be a regular one.
fn text_of_open<T: Read + OpenFile>(alloc: Global, file: &mut T, path: &str) -> Result<String>
    ensures text { IfOk result (λ s. IfSome (T.remaining file.old) (λ bytes. string_bytes s ≡ bytes)) }
    ensures kind { IfErr result (IsOfKind ErrorKind.Io) }
    ensures names { IfErr result (IsIoFailure (read_message path.now)) }
{
    let metadata = read_answer(alloc, file.metadata(), path)?;
    expect_regular(alloc, &metadata, path)?;
    text_of(alloc, file, path)
}

/// Opens a file and returns its text.
fn text_of_regular<R: Files>(rt: &R, alloc: Global, path: &str) -> Result<String>
    ensures text { IfOk result (λ s. (file : R.File) × IfSome (R.File.remaining file) (λ bytes. string_bytes s ≡ bytes)) }
    ensures kind { IfErr result (IsOfKind ErrorKind.Io) }
    ensures names { IfErr result (IsReadFailure path.now) }
{
    let mut file = open_answer(alloc, fs::File::open(rt, path), path)?;
    text_of_open(alloc, &mut file, path)
}

/// Returns the text of a file. What is not a regular file is not opened, so a path that leads to a pipe,
/// a device or a socket does not keep the call waiting. The open file is asked once more before it is
/// read. Opening may wait only where another program puts a pipe at the path between the two steps.
///
/// # Errors
///
/// `Io` if the file is not a regular one or cannot be opened; then as `text_of`. The message says whether
/// the file couldn't be opened or couldn't be read.
pub fn text_of_file<R: Files>(rt: &R, alloc: Global, path: &str) -> Result<String>
    ensures text { IfOk result (λ s. (file : R.File) × IfSome (R.File.remaining file) (λ bytes. string_bytes s ≡ bytes)) }
    ensures kind { IfErr result (IsOfKind ErrorKind.Io) }
    ensures names { IfErr result (IsReadFailure path.now) }
{
    let metadata = open_answer(alloc, fs::metadata(rt, path), path)?;
    expect_regular(alloc, &metadata, path)?;
    text_of_regular(rt, alloc, path)
}
