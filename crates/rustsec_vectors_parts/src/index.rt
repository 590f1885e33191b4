//! What only a call shows of an index: names without a file, both entries of a version that a file lists twice, a
//! package that a lockfile has twice, and an index that cannot be listed. The files of the indexes are written by hand
//! from The Cargo Book and Cargo's source.

use rustsec_files::SourceFile;
use rustsec_fixtures::{Holds, MemoryFolders, Paths};
use rustsec_lock::Lockfile;
use rustsec_lock::package::Package;
use rustsec_registry::{
    IndexForm, IndexVersion, YankedPackages, index_path, versions_in, yanked_in,
};
use rustsec_values::{ErrorKind, Text};
use std::alloc::Global;
use std::test::Fail;

// A text that is not a package's name has no file.
#[test]
fn index_paths(rt: HostRuntime) -> Result<(), Fail> {
    for name in &["", ".", "..", "a/b", "../../etc/passwd", "a b", "caf\u{e9}"] {
        assert!(rt; index_path(rt.alloc(), name)?.is_none(), "of {name}");
    }
    Ok(())
}

/// Files of each form that list 1.0.0 twice, first as yanked.
const IN_CHECKOUT: &str =
    "{\"name\":\"foo\",\"vers\":\"1.0.0\",\"yanked\":true}\n\n{\"name\":\"foo\",\"vers\":\"1.0.0\",\"yanked\":null}\r\n";

const IN_CACHE: &str =
    "\u{3}\u{2}\0\0\0r\01.0.0\0{\"name\":\"foo\",\"vers\":\"1.0.0\",\"yanked\":true}\01.0.0\0{\"name\":\"foo\",\"vers\":\"1.0.0\"}\0";

/// Returns whether versions are 1.0.0 twice, first as yanked.
fn are_twice(versions: &[IndexVersion]) -> bool {
    let [first, second] = versions else {
        return false;
    };
    let are_equal = first.version.as_str() == "1.0.0" && second.version.as_str() == "1.0.0";
    are_equal && first.yanked && !second.yanked
}

fn lists_twice(alloc: Global, form: IndexForm, text: &str) -> Result<bool, Fail> {
    let (path, text) = (Text::from_str(alloc, "at")?, Text::from_str(alloc, text)?);
    let versions = versions_in(alloc, form, &SourceFile { path, text }, "foo")?;
    Ok(are_twice(versions.as_slice()))
}

#[test]
fn index_versions_twice(rt: HostRuntime) -> Result<(), Fail> {
    assert!(rt; lists_twice(rt.alloc(), IndexForm::Checkout, IN_CHECKOUT)?);
    assert!(rt; lists_twice(rt.alloc(), IndexForm::Cache, IN_CACHE)?);
    Ok(())
}

/// Two versions of `foo`, with the second one yanked; and a line with a damaged one after it.
const VERSIONS: &str =
    "{\"name\":\"foo\",\"vers\":\"0.1.0\",\"yanked\":false}\n{\"name\":\"foo\",\"vers\":\"0.2.0\",\"yanked\":true}\n";

const DAMAGED_LINES: &str = "{\"name\":\"foo\",\"vers\":\"0.1.0\"}\n{\"name\":\n";

/// A checkout of an index.
const CHECKOUT: Paths<'static> = &[
    (
        "index",
        Holds::Entries(&[("config.json", false), ("3", true)]),
    ),
    ("index/3", Holds::Entries(&[("f", true)])),
    ("index/3/f", Holds::Entries(&[("foo", false)])),
    ("index/3/f/foo", Holds::Text(VERSIONS)),
];

/// A checkout whose file of `foo` is damaged, and whose folder `3` cannot be listed.
const DAMAGED: Paths<'static> = &[
    ("index", Holds::Entries(&[("3", true)])),
    ("index/3/f/foo", Holds::Text(DAMAGED_LINES)),
];

/// Packages of crates.io, one of them twice, and packages of the same name from elsewhere.
const LOCKFILE: &str = r#"package = [
{ name = "foo", version = "0.3.0", source = "sparse+https://index.crates.io/" },
{ name = "foo", version = "0.2.0", source = "registry+https://github.com/rust-lang/crates.io-index" },
{ name = "foo", version = "0.1.0", source = "registry+https://github.com/rust-lang/crates.io-index" },
{ name = "foo", version = "0.2.0", source = "registry+https://github.com/rust-lang/crates.io-index" },
{ name = "bar", version = "1.0.0", source = "registry+https://github.com/rust-lang/crates.io-index" },
{ name = "foo", version = "0.2.0", source = "git+https://example.com/foo" },
{ name = "foo", version = "0.2.0", source = "registry+https://example.com/index" },
{ name = "foo", version = "0.2.0" },
]"#;

fn are_foo(packages: &[Package]) -> bool {
    match packages {
        [package] => package.name.as_str() == "foo" && package.version.minor == 2,
        _ => false,
    }
}

fn are_unlisted(texts: &[Text]) -> bool {
    let [first, second] = texts else {
        return false;
    };
    first.as_str() == "no such package in the registry: bar"
        && second.as_str() == "no such version in the registry: foo 0.3.0"
}

/// Returns what an index gives for the packages of the lockfile. No call fails.
fn found(alloc: Global, paths: Paths<'_>) -> Result<rustsec_values::Result<YankedPackages>, Fail> {
    let lockfile = Lockfile::from_str(alloc, LOCKFILE)?;
    let mut folders = MemoryFolders::turning(paths, paths, 0);
    let packages = lockfile.packages.as_slice();
    Ok(yanked_in(alloc, &mut folders, "index", packages))
}

/// Returns whether the checkout gives the yanked version of `foo` once, and texts for `bar` and for the third version.
fn is_given(alloc: Global) -> Result<bool, Fail> {
    let found = found(alloc, CHECKOUT)??;
    Ok(are_foo(found.packages.as_slice()) && are_unlisted(found.unlisted.as_slice()))
}

#[test]
fn yanked_packages(rt: HostRuntime) -> Result<(), Fail> {
    assert!(rt; is_given(rt.alloc())?);
    Ok(())
}

/// Returns whether the damaged checkout is refused since the folders fail.
fn is_refused(alloc: Global) -> Result<bool, Fail> {
    Ok(match found(alloc, DAMAGED)? {
        Ok(_) => false,
        Err(e) => e.kind() == ErrorKind::Io && e.message() == "the folders fail",
    })
}

// No folder shows that the file of `bar` is missing, so that is the first package that is refused.
#[test]
fn refused_indexes(rt: HostRuntime) -> Result<(), Fail> {
    assert!(rt; is_refused(rt.alloc())?);
    Ok(())
}
