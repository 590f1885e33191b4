//! Small texts of 64 KiB and more, copies of their values, calls on these, and errors with them. A grammar that has no
//! longest text accepts them; every other one refuses them as it refuses a short text.

use crate::numbers::{LONG, long};
use rustsec::database::{Database, Query};
use rustsec_advisory::{Linter, linter};
use rustsec_files::{FolderEntry, SourceFile};
use rustsec_fixtures::{VALID, changed, interval, kind_of, prints, requirements};
use rustsec_lock::package::{Name, Package};
use rustsec_lock::platforms::{Arch, OS};
use rustsec_lock::{Cvss, Lockfile, SourceId};
use rustsec_policy::nearest_word;
use rustsec_registry::Signature;
use rustsec_texts::{
    Address, Category, Collection, Date, FunctionPath, Id, Identifier, Informational, Keyword,
    License, WarningKind,
};
use rustsec_values::{
    Error, ErrorKind, FromText, Text, file_error, text_error, text_error_with_cause, with_place,
};
use rustsec_versions::{
    Bound, OsvRange, Requirements, read_requirement, read_version, requirement_text, successor,
};
use semver::{Version, VersionReq};
use std::alloc::Global;
use std::fmt::Display;
use std::test::Fail;

/// Returns whether a long text is read as a value that prints as the text, and is copied; or whether it is refused with
/// `Parse`.
fn is_kept<T: FromText + Clone + Display + PartialEq>(
    alloc: Global,
    front: &str,
    filler: &str,
) -> Result<bool, Fail> {
    rustsec_fixtures::is_kept::<T>(alloc, &long(alloc, front, filler)?)
}

fn is_refused<T: FromText>(alloc: Global, front: &str, filler: &str) -> Result<bool, Fail> {
    let text = long(alloc, front, filler)?;
    Ok(kind_of(T::from_text(alloc, &text)) == Some(ErrorKind::Parse))
}

/// Returns whether the URL of a long address prints as the address.
fn has_long_url(alloc: Global) -> Result<bool, Fail> {
    let text = long(alloc, "https://example.com/", "a")?;
    let address = Address::from_str(alloc, &text)?;
    let url = address.to_url(alloc)?;
    Ok(url.as_str() == address.as_str())
}

#[test]
fn long_texts_that_are_read(rt: HostRuntime) -> Result<(), Fail> {
    let alloc = rt.alloc();
    assert!(rt; is_kept::<Id>(alloc, "X-", "a")?);
    assert!(rt; is_kept::<Id>(alloc, "RUSTSEC-2001-", "0")?);
    assert!(rt; is_kept::<Identifier>(alloc, "base", "a")?);
    assert!(rt; is_kept::<Name>(alloc, "base-", "a")?);
    assert!(rt; is_kept::<FunctionPath>(alloc, "base::", "a")?);
    assert!(rt; is_kept::<FunctionPath>(alloc, "base", "::a")?);
    assert!(rt; is_kept::<SourceId>(alloc, "git+https://example.com/", "a")?);
    assert!(rt; is_kept::<SourceId>(alloc, "registry+https://example.com/", "a")?);
    assert!(rt; is_kept::<Address>(alloc, "https://example.com/", "a")?);
    assert!(rt; is_kept::<Address>(alloc, "https://example.com/?", "a")?);
    assert!(rt; has_long_url(alloc)?);
    assert!(rt; is_kept::<Cvss>(alloc, "CVSS:4.0/", "a")?);
    assert!(rt; is_kept::<Category>(alloc, "x", "a")?);
    assert!(rt; is_kept::<Informational>(alloc, "x", "a")?);
    assert!(rt; is_kept::<Keyword>(alloc, "x", "a")?);
    assert!(rt; is_kept::<License>(alloc, "x", "a")?);
    Ok(())
}

#[test]
fn long_texts_that_are_refused(rt: HostRuntime) -> Result<(), Fail> {
    let alloc = rt.alloc();
    assert!(rt; is_refused::<Id>(alloc, "RUSTSEC-2001-", "9")?);
    assert!(rt; is_refused::<Id>(alloc, "CVE-2001-", "1-")?);
    assert!(rt; is_refused::<Date>(alloc, "2001-02-03", "0")?);
    assert!(rt; is_refused::<FunctionPath>(alloc, "base::", "0")?);
    assert!(rt; is_refused::<SourceId>(alloc, "git", "a")?);
    assert!(rt; is_refused::<SourceId>(alloc, "x+", "a")?);
    assert!(rt; is_refused::<Address>(alloc, "", "a")?);
    assert!(rt; is_refused::<Cvss>(alloc, "CVSS:3.1/", "AV:N/")?);
    assert!(rt; is_refused::<Cvss>(alloc, "CVSS:3.1/AV:", "N")?);
    assert!(rt; is_refused::<Cvss>(alloc, "CVSS:", "3")?);
    assert!(rt; is_refused::<Collection>(alloc, "crates", "s")?);
    assert!(rt; is_refused::<WarningKind>(alloc, "notice", "e")?);
    assert!(rt; is_refused::<Arch>(alloc, "x86", "6")?);
    assert!(rt; is_refused::<OS>(alloc, "windows", "s")?);
    Ok(())
}

/// Returns whether a long text is read as a version, or as a requirement, and prints as it was; or whether it is
/// refused as both.
fn version_is_kept(alloc: Global, front: &str, filler: &str) -> Result<bool, Fail> {
    let text = long(alloc, front, filler)?;
    prints(alloc, &read_version(alloc, &text, "a version")?, &text)
}

fn requirement_is_kept(alloc: Global, front: &str, filler: &str) -> Result<bool, Fail> {
    let text = long(alloc, front, filler)?;
    prints(alloc, &read_requirement(alloc, &text)?, &text)
}

fn both_are_refused(alloc: Global, front: &str, filler: &str) -> Result<bool, Fail> {
    let text = long(alloc, front, filler)?;
    let version = kind_of(read_version(alloc, &text, "a version"));
    let requirement = kind_of(read_requirement(alloc, &text));
    Ok(version == Some(ErrorKind::Parse) && requirement == version)
}

#[test]
fn long_versions(rt: HostRuntime) -> Result<(), Fail> {
    assert!(rt; version_is_kept(rt.alloc(), "1.2.3-", "a")?);
    assert!(rt; version_is_kept(rt.alloc(), "1.2.3-a", ".a")?);
    assert!(rt; version_is_kept(rt.alloc(), "1.2.3+", "a")?);
    assert!(rt; requirement_is_kept(rt.alloc(), ">=1.2.3-", "a")?);
    assert!(rt; both_are_refused(rt.alloc(), "1.2.", "9")?);
    Ok(())
}

/// Returns a file of an advisory whose ID and package are long, in a folder with a text after the package's name.
fn long_file(alloc: Global, more: &str) -> Result<SourceFile, Fail> {
    let id = long(alloc, "X-", "a")?;
    let name = long(alloc, "b", "a")?;
    let text = changed(alloc, VALID, "RUSTSEC-2001-2101", &id)?;
    let text = changed(alloc, &text, "base", &name)?;
    let path = format!(in alloc; "crates/{name}{more}/{id}.md")?;
    let (path, text) = (Text::from(path), Text::from(text));
    Ok(SourceFile { path, text })
}

/// Returns how many advisories a database has of a copy of such a file, or the kind of the refusal.
fn loaded(alloc: Global, more: &str) -> Result<Result<usize, ErrorKind>, Fail> {
    let copy = long_file(alloc, more)?.clone(alloc)?;
    Ok(match Database::load(alloc, &[copy]) {
        Ok(database) => Ok(database.iter().count()),
        Err(e) => Err(e.kind()),
    })
}

/// Returns whether a copy of the query for a package asks for its name, its version and its source.
fn is_asked(alloc: Global, package: &Package) -> Result<bool, Fail> {
    let query = Query::new(alloc).package(alloc, package)?.clone(alloc)?;
    Ok(
        query.asked_name() == Some(&package.name)
            && query.asked_version() == Some(&package.version)
            && query.asked_source() == package.source.as_ref(),
    )
}

/// Returns whether the package of a lockfile has a name, a version and a source, and is asked for.
fn is_first(alloc: Global, name: &str, version: &str, source: &str) -> Result<bool, Fail> {
    let text = format!(in alloc;
        "[[package]]\nname = \"{name}\"\nversion = \"{version}\"\nsource = \"{source}\"\n"
    )?;
    let lockfile = Lockfile::from_str(alloc, &text)?;
    let package = lockfile.packages.get(0).ok_or("no package")?;
    let found = format!(in alloc; "{} {}", package.name, package.version)?;
    let is_shown = found.split_once(" ") == Some((name, version));
    let url = package.source.as_ref().ok_or("no source")?.url();
    Ok(is_shown && source.ends_with(url) && is_asked(alloc, package)?)
}

fn long_package_is_read(alloc: Global) -> Result<bool, Fail> {
    let name = long(alloc, "b", "a")?;
    let version = long(alloc, "1.2.3-", "a")?;
    let source = long(alloc, "registry+https://example.com/", "a")?;
    is_first(alloc, &name, &version, &source)
}

#[test]
fn long_texts_in_files(rt: HostRuntime) -> Result<(), Fail> {
    assert!(rt; loaded(rt.alloc(), "")? == Ok(1));
    assert!(rt; loaded(rt.alloc(), "a")? == Err(ErrorKind::Repo));
    assert!(rt; long_package_is_read(rt.alloc())?);
    Ok(())
}

/// Returns whether copies of the interval, the bound and the range of a long version alone, of a list of a requirement
/// with a long pre-release, and of the entry of a folder with a long name are equal to them.
fn interval_is_copied(alloc: Global) -> Result<bool, Fail> {
    let text = long(alloc, "=1.2.3-", "a")?;
    let interval = interval(alloc, &text)??;
    Ok(interval.clone(alloc)? == interval)
}

fn bound_is_copied(alloc: Global) -> Result<bool, Fail> {
    let text = long(alloc, "1.2.3-", "a")?;
    let bound = Bound::Exclusive(read_version(alloc, &text, "a version")?);
    Ok(bound.clone(alloc)? == bound)
}

fn range_is_copied(alloc: Global) -> Result<bool, Fail> {
    let text = long(alloc, "1.2.3-", "a")?;
    let version = read_version(alloc, &text, "a version")?;
    let fixed = successor(alloc, &version)?;
    let introduced = Some(version);
    let range = OsvRange { introduced, fixed };
    let copy = range.clone(alloc)?;
    let has_sides = copy.introduced.is_some() && copy.fixed.is_some();
    Ok(has_sides && copy.introduced == range.introduced && copy.fixed == range.fixed)
}

fn list_is_copied(alloc: Global) -> Result<bool, Fail> {
    let text = long(alloc, ">=1.2.3-", "a")?;
    let list = Requirements::from(requirements(alloc, &[text.as_str()])?);
    Ok(list.clone(alloc)? == list)
}

fn entry_is_copied(alloc: Global) -> Result<bool, Fail> {
    let name = Text::from(long(alloc, "b", "a")?);
    let entry = FolderEntry { name, folder: true };
    Ok(entry.clone(alloc)? == entry)
}

/// Returns whether a lint error is of a key, and copies of it and of its kind are equal to them; and whether that holds
/// for the one error of an advisory with a long key.
fn error_is_copied(alloc: Global, error: &linter::Error, key: &str) -> Result<bool, Fail> {
    let wanted = linter::ErrorKind::key(alloc, key)?;
    let kind = error.kind().clone(alloc)?;
    let copy = error.clone(alloc)?;
    Ok(copy == *error && kind == *error.kind() && kind == wanted)
}

fn long_key_is_copied(alloc: Global) -> Result<bool, Fail> {
    let key = long(alloc, "other", "a")?;
    let section = format!(in alloc; "[versions]\n{key} = 1")?;
    let text = changed(alloc, VALID, "[versions]", &section)?;
    let linter = Linter::lint_string(alloc, &text, None)?;
    match linter.errors() {
        [error] => error_is_copied(alloc, error, &key),
        _ => Ok(false),
    }
}

#[test]
fn copies_of_long_values(rt: HostRuntime) -> Result<(), Fail> {
    assert!(rt; interval_is_copied(rt.alloc())?);
    assert!(rt; bound_is_copied(rt.alloc())?);
    assert!(rt; range_is_copied(rt.alloc())?);
    assert!(rt; list_is_copied(rt.alloc())?);
    assert!(rt; entry_is_copied(rt.alloc())?);
    assert!(rt; long_key_is_copied(rt.alloc())?);
    Ok(())
}

/// Returns whether the version least above one with a long pre-release has a further identifier, zero (SemVer 2.0.0,
/// section 11); whether a requirement with one is printed as it was; whether the address of an advisory with a long ID
/// ends with the ID; whether no word is near to a long text; and whether a long signature and its copy keep its bytes.
fn is_followed(alloc: Global) -> Result<bool, Fail> {
    let text = long(alloc, "1.2.3-", "a")?;
    let version = Version::parse(alloc, &text)?;
    let next = successor(alloc, &version)?.ok_or("no successor")?;
    let next = next.to_string(alloc)?;
    Ok(next.strip_suffix(".0") == Some(text.as_str()))
}

fn requirement_is_printed(alloc: Global) -> Result<bool, Fail> {
    let text = long(alloc, ">=1.2.3-", "a")?;
    let requirement = VersionReq::parse(alloc, &text)?;
    Ok(requirement_text(alloc, &requirement)? == text)
}

fn address_is_whole(alloc: Global) -> Result<bool, Fail> {
    let text = long(alloc, "RUSTSEC-2001-", "0")?;
    let id = Id::from_str(alloc, &text)?;
    let address = id.url(alloc)?.ok_or("no address")?;
    Ok(address.strip_prefix("https://rustsec.org/advisories/") == Some(text.as_str()))
}

fn nothing_is_near(alloc: Global) -> Result<bool, Fail> {
    let text = "unsound".repeat(alloc, LONG / 7)?;
    Ok(nearest_word(alloc, &["notice", "unmaintained", "unsound"], &text)?.is_none())
}

fn signature_is_kept(alloc: Global) -> Result<bool, Fail> {
    let bytes = "s".repeat(alloc, LONG)?;
    let signature = Signature::from_bytes(alloc, bytes.as_bytes())?;
    let copy = signature.clone(alloc)?;
    Ok(copy == signature && copy.as_ref() == bytes.as_bytes())
}

#[test]
fn calls_on_long_values(rt: HostRuntime) -> Result<(), Fail> {
    assert!(rt; is_followed(rt.alloc())?);
    assert!(rt; requirement_is_printed(rt.alloc())?);
    assert!(rt; address_is_whole(rt.alloc())?);
    assert!(rt; nothing_is_near(rt.alloc())?);
    assert!(rt; signature_is_kept(rt.alloc())?);
    Ok(())
}

/// Calls that make an error of a long text, the message, and whether the text is the cause too. In the message `@` is
/// the text, and `#` its first 60 bytes, which an error shows of a refused text.
const CALLS: &[(&str, &str, bool)] = &[
    ("Error::new", "@", false),
    ("Error::with_source", "it fails", true),
    ("with_place", "@: @", false),
    ("file_error", "error parsing @", true),
    ("text_error", "@ `#`, expected @", false),
    ("text_error_with_cause", "it is `x`, expected y", true),
];

/// Returns the error that a call makes of a text.
fn error_by(alloc: Global, call: &str, text: &str) -> Error {
    let parse = ErrorKind::Parse;
    match call {
        "Error::with_source" => Error::with_source(alloc, parse, "it fails", text),
        "with_place" => with_place(alloc, text, &Error::new(alloc, parse, text)),
        "file_error" => file_error(alloc, text, &Error::new(alloc, parse, text)),
        "text_error" => text_error(alloc, text, text, text),
        "text_error_with_cause" => text_error_with_cause(alloc, "it is", "x", "y", text),
        _ => Error::new(alloc, parse, text),
    }
}

/// Returns whether an error prints its message at its end, and whether a person is told the last of its message and its
/// cause at the end.
fn is_printed(alloc: Global, error: &Error) -> Result<bool, Fail> {
    let printed = error.to_string(alloc)?;
    Ok(printed.ends_with(error.message()))
}

fn is_told(alloc: Global, error: &Error) -> Result<bool, Fail> {
    let told = error.text_with_cause(alloc)?;
    Ok(told.ends_with(error.cause().unwrap_or(error.message())))
}

/// Returns whether an error of the kind `Parse` has this message and this cause; whether it and a copy of it have, and
/// it is printed and told; and whether that holds for the error that a call makes of a text.
fn is_parse(error: &Error, message: &str, cause: Option<&str>) -> bool {
    error.kind() == ErrorKind::Parse && error.message() == message && error.cause() == cause
}

fn keeps(alloc: Global, error: &Error, message: &str, cause: Option<&str>) -> Result<bool, Fail> {
    let copy = error.clone(alloc)?;
    Ok(
        is_parse(error, message, cause)
            && is_parse(&copy, message, cause)
            && is_printed(alloc, error)?
            && is_told(alloc, error)?,
    )
}

fn is_made(alloc: Global, row: &(&str, &str, bool), text: &str) -> Result<bool, Fail> {
    let (call, message, has_cause) = row;
    let error = error_by(alloc, call, text);
    let shown = "a".repeat(alloc, 60)?;
    let message = message
        .replace(alloc, "#", &shown)?
        .replace(alloc, "@", text)?;
    let cause = if *has_cause { Some(text) } else { None };
    keeps(alloc, &error, &message, cause)
}

#[test]
fn errors_with_long_texts(rt: HostRuntime) -> Result<(), Fail> {
    let text = "a".repeat(rt.alloc(), LONG)?;
    for row in CALLS {
        assert!(rt; is_made(rt.alloc(), row, &text)?, "of {}", row.0);
    }
    Ok(())
}
