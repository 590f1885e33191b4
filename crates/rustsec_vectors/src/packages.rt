//! Names, sources and packages of lockfiles.

use crate::rows::{field, is_copied, prints};
use rustsec_fixtures::version;
use rustsec_lock::SourceId;
use rustsec_lock::package::{Name, Package};
use rustsec_values::Text;
use std::alloc::Global;
use std::test::Fail;

/// The registry crates.io, by its index in git.
pub(crate) const GIT_INDEX: &str = "registry+https://github.com/rust-lang/crates.io-index";

/// Returns the word of a line at a place, unless there is none or a dash.
fn word(line: &str, place: usize) -> Option<&str> {
    let word = line.split(' ').nth(place)?;
    (word != "-").then_some(word)
}

fn source(alloc: Global, text: Option<&str>) -> Result<Option<SourceId>, Fail> {
    match text {
        Some(url) => Ok(Some(SourceId::from_url(alloc, url)?)),
        None => Ok(None),
    }
}

/// Returns the package of a line: its name, its version, and its source and checksum, or a dash for each.
pub(crate) fn package(alloc: Global, line: &str) -> Result<Package, Fail> {
    Ok(Package {
        name: Name::from_str(alloc, word(line, 0).unwrap_or(""))?,
        version: version(alloc, word(line, 1).unwrap_or(""))?,
        source: source(alloc, word(line, 2))?,
        checksum: Text::from_option(alloc, word(line, 3))?,
    })
}

/// Returns a package of this name and version from crates.io.
pub(crate) fn published(alloc: Global, name: &str, version: &str) -> Result<Package, Fail> {
    let line = format!(in alloc; "{name} {version} {GIT_INDEX}")?;
    package(alloc, &line)
}

#[test]
fn package_copies(rt: HostRuntime) -> Result<(), Fail> {
    let package = package(rt.alloc(), "base 1.0.0+a git+https://a/ 00")?;
    assert!(rt; is_copied(&package)?);
    Ok(())
}

fn is_name(alloc: Global, text: &str) -> Result<bool, Fail> {
    let name = Name::from_str(alloc, text)?;
    Ok(name.as_str() == text && prints(alloc, &name, text)? && is_copied(&name)?)
}

#[test]
fn names(rt: HostRuntime) -> Result<(), Fail> {
    assert!(rt; is_name(rt.alloc(), "é base\n")?);
    Ok(())
}

/// Sources: their texts, their kinds, where they are found, and whether they are the default registry.
const SOURCES: &str = "
git+https://example.com/base?branch=x#abc | Git | https://example.com/base | other
git+https://example.com/base#abc?x | Git | https://example.com/base | other
git+ssh://git@example.com/base | Git | ssh://git@example.com/base | other
registry+https://a/?b#c | Registry | https://a/?b#c | other
registry+https://github.com/rust-lang/crates.io-index | Registry | https://github.com/rust-lang/crates.io-index | default
sparse+https://index.crates.io/ | SparseRegistry | https://index.crates.io/ | default
sparse+https://index.crates.io | SparseRegistry | https://index.crates.io | other
registry+https://index.crates.io/ | Registry | https://index.crates.io/ | other
sparse+https://github.com/rust-lang/crates.io-index | SparseRegistry | https://github.com/rust-lang/crates.io-index | other
path+file:///a+b | Path | file:///a+b | other
local-registry+file:///a | LocalRegistry | file:///a | other
directory+file:///a | Directory | file:///a | other
";

fn has_parts(alloc: Global, source: &SourceId, kind: &str, url: &str) -> Result<bool, Fail> {
    let found = format!(in alloc; "{:?}", source.kind())?;
    Ok(found.as_str() == kind && source.url() == url)
}

/// Returns whether a text is a source with these parts, and is printed and copied.
fn is_source(
    alloc: Global,
    text: &str,
    kind: &str,
    url: &str,
    is_default: bool,
) -> Result<bool, Fail> {
    let source = SourceId::from_url(alloc, text)?;
    Ok(
        source.is_default_registry() == is_default
            && has_parts(alloc, &source, kind, url)?
            && prints(alloc, &source, text)?
            && is_copied(&source)?,
    )
}

fn is_row(alloc: Global, row: &str) -> Result<bool, Fail> {
    let (text, kind, url) = (field(row, 0), field(row, 1), field(row, 2));
    is_source(alloc, text, kind, url, field(row, 3) == "default")
}

#[test]
fn source_ids(rt: HostRuntime) -> Result<(), Fail> {
    for row in SOURCES.trim().lines() {
        assert!(rt; is_row(rt.alloc(), row)?, "{row}");
    }
    assert!(rt; is_source(rt.alloc(), "registry+ ", "Registry", " ", false)?);
    Ok(())
}

#[test]
fn default_source_id(rt: HostRuntime) -> Result<(), Fail> {
    let source = SourceId::default(rt.alloc())?;
    assert!(rt; prints(rt.alloc(), &source, GIT_INDEX)?);
    Ok(())
}
