//! Lockfiles: which texts are one, and their packages.

use crate::packages;
use crate::rows::is_copied;
use rustsec_fixtures::{changed, kind_of};
use rustsec_lock::Lockfile;
use rustsec_lock::package::Package;
use rustsec_values::ErrorKind;
use std::alloc::Global;
use std::fs;
use std::rt::Files;
use std::test::Fail;

/// A lockfile of two packages, the second without a source and a checksum.
const TWO_PACKAGES: &str = r#"version = 4

[[package]]
name = "base"
version = "1.0.0"
source = "registry+https://github.com/rust-lang/crates.io-index"
checksum = "00"
dependencies = ["local"]

[[package]]
name = "local"
version = "0.1.0"
"#;

/// Its packages: their names, versions, sources and checksums.
const PACKAGES: &[&str] = &[
    "base 1.0.0 registry+https://github.com/rust-lang/crates.io-index 00",
    "local 0.1.0 - -",
];

fn is_package(alloc: Global, package: &Package, line: &str) -> Result<bool, Fail> {
    let expected = packages::package(alloc, line)?;
    Ok(*package == expected)
}

/// Returns whether a lockfile has these packages, in this order, and no others.
fn has_packages(alloc: Global, lockfile: &Lockfile, lines: &[&str]) -> Result<bool, Fail> {
    let packages = lockfile.packages.as_slice();
    for (package, line) in packages.iter().zip(lines) {
        if !is_package(alloc, package, line)? {
            return Ok(false);
        }
    }
    Ok(packages.len() == lines.len())
}

fn text_has(alloc: Global, text: &str, lines: &[&str]) -> Result<bool, Fail> {
    let lockfile = Lockfile::from_str(alloc, text)?;
    has_packages(alloc, &lockfile, lines)
}

#[test]
fn lockfile_texts(rt: HostRuntime) -> Result<(), Fail> {
    assert!(rt; text_has(rt.alloc(), TWO_PACKAGES, PACKAGES)?);
    assert!(rt; text_has(rt.alloc(), "", &[])? && text_has(rt.alloc(), "package = []\n", &[])?);
    Ok(())
}

fn table_has(alloc: Global, table: &toml::Table, lines: &[&str]) -> Result<bool, Fail> {
    let lockfile = Lockfile::from_table(alloc, table)?;
    let copy = lockfile.clone(alloc)?;
    Ok(has_packages(alloc, &lockfile, lines)? && has_packages(alloc, &copy, lines)?)
}

#[test]
fn lockfile_tables(rt: HostRuntime) -> Result<(), Fail> {
    let table = toml::table_from_str(rt.alloc(), TWO_PACKAGES)?;
    assert!(rt; table_has(rt.alloc(), &table, PACKAGES)?);
    Ok(())
}

/// Returns whether the lockfile in a file of this text has the two packages. The file is removed again.
fn file_has<T: Files + AllocGlobal>(rt: &T, path: &str, text: &str) -> Result<bool, Fail> {
    fs::write(rt, path, text)?;
    let lockfile = Lockfile::load(rt, rt.alloc(), path)?;
    fs::remove_file(rt, path)?;
    has_packages(rt.alloc(), &lockfile, PACKAGES)
}

/// Returns whether a file of these bytes is refused with a kind of error. The file is removed again.
fn is_refused<T: Files + AllocGlobal>(
    rt: &T,
    path: &str,
    bytes: &[u8],
    kind: ErrorKind,
) -> Result<bool, Fail> {
    fs::write(rt, path, bytes)?;
    let found = kind_of(Lockfile::load(rt, rt.alloc(), path));
    fs::remove_file(rt, path)?;
    Ok(found == Some(kind))
}

#[test]
fn lockfile_files(rt: HostRuntime) -> Result<(), Fail> {
    assert!(rt; file_has(&rt, "two-packages.lock", TWO_PACKAGES)?);
    let absent = kind_of(Lockfile::load(&rt, rt.alloc(), "absent.lock"));
    assert!(rt; absent == Some(ErrorKind::Io));
    assert!(rt; is_refused(&rt, "no-text.lock", b"# \xff\n", ErrorKind::Io)?);
    assert!(rt; is_refused(&rt, "no-array.lock", b"package = 1\n", ErrorKind::Parse)?);
    Ok(())
}

// A mark before a TOML document is not part of it, as the crate `toml` reads it.
#[test]
fn lockfiles_after_a_mark_and_with_line_ends(rt: HostRuntime) -> Result<(), Fail> {
    let marked = changed(rt.alloc(), TWO_PACKAGES, "", "\u{feff}")?;
    assert!(rt; file_has(&rt, "marked.lock", &marked)?);
    let returns = TWO_PACKAGES.replace(rt.alloc(), "\n", "\r\n")?;
    assert!(rt; file_has(&rt, "line-ends.lock", &returns)?);
    Ok(())
}

// A lockfile above a megabyte, whose packages follow a comment of that length.
#[test]
fn a_lockfile_above_a_megabyte(rt: HostRuntime) -> Result<(), Fail> {
    let comment = "#\n".repeat(rt.alloc(), 600000)?;
    let text = changed(rt.alloc(), TWO_PACKAGES, "", &comment)?;
    assert!(rt; file_has(&rt, "long.lock", &text)?);
    Ok(())
}

#[test]
fn equal_lockfiles(rt: HostRuntime) -> Result<(), Fail> {
    let alloc = rt.alloc();
    let one = Lockfile::from_str(alloc, "[[package]]\nname = \"a\"\nversion = \"1.0.0\"")?;
    let text = "version = 3\n[[package]]\nversion = \"1.0.0\"\nname = \"a\"";
    let same = Lockfile::from_str(alloc, text)?;
    let other = Lockfile::from_str(alloc, "[[package]]\nname = \"a\"\nversion = \"1.0.1\"")?;
    let none = Lockfile::from_str(alloc, "")?;
    assert!(rt; one == same && one != other && one != none);
    assert!(rt; is_copied(&one)?);
    Ok(())
}
