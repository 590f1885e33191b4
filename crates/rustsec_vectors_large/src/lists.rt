//! Calls with long lists: ten thousand packages of a lockfile, six hundred events, a thousand packages and nine
//! thousand links of an OSV document, a thousand versions in an index.

use crate::folders::{package, packages};
use crate::numbers::{COUNT, MANY, numbered, numbered_by, occurrences};
use rustsec_advisory::Advisory;
use rustsec_database::Vulnerability;
use rustsec_fixtures::{Failing, Holds, MemoryFolders, Paths, SHORT};
use rustsec_lock::Lockfile;
use rustsec_lock::package::Name;
use rustsec_osv::OsvAdvisory;
use rustsec_osv_rules::{PackageVersion, is_affected, normalized};
use rustsec_registry::{CachedIndex, IndexVersion, Lookup, yanked_in};
use rustsec_report::Fixer;
use rustsec_values::{Error, ErrorKind, Items, Text};
use semver::Version;
use serde_json::Value;
use std::alloc::Global;
use std::test::Fail;

/// A registry that has version 1.0.0 of each package, which is yanked.
#[derive(Drop)]
struct AllYanked;

fn yanked_version(alloc: Global) -> Result<Items<IndexVersion>, Error> {
    let (version, yanked) = (Text::from_str(alloc, "1.0.0")?, true);
    let mut versions = Items::new(alloc);
    versions.push(IndexVersion { version, yanked })?;
    Ok(versions)
}

impl Lookup for AllYanked {
    ghost use Rattle.std.specs.Prelude.{⊤};

    ghost answers = { λ _ _ _. ⊤ };

    fn krate(&self, alloc: Global, _name: &Name) -> Result<Option<Items<IndexVersion>>, Error> {
        let versions = yanked_version(alloc)?;
        Ok(Some(versions))
    }
}

/// Returns the lockfile of thousands of packages.
fn lockfile_of(alloc: Global, package: &str) -> Result<Lockfile, Fail> {
    let text = numbered(alloc, COUNT, package)?;
    Ok(Lockfile::from_str(alloc, &text)?)
}

/// Returns how many packages of a lockfile are yanked, if none is refused.
fn yanked_count(alloc: Global, lockfile: &Lockfile) -> Result<usize, Fail> {
    let mut index = CachedIndex::new(alloc, AllYanked);
    let found = index.find_yanked(alloc, lockfile.packages.as_slice())?;
    if found.iter().any(|answer| answer.is_err()) {
        return Err(Fail::from("a package is refused"));
    }
    Ok(found.len())
}

#[test]
fn thousands_of_yanked_packages(rt: HostRuntime) -> Result<(), Fail> {
    let package = package(rt.alloc(), "package-$", "1.0.0")?;
    let lockfile = lockfile_of(rt.alloc(), &package)?;
    assert!(rt; yanked_count(rt.alloc(), &lockfile)? == MANY);
    Ok(())
}

/// Returns the vulnerability of the first package of a lockfile by the advisory with a text.
pub(crate) fn vulnerability_in(
    alloc: Global,
    lockfile: &Lockfile,
    text: &str,
) -> Result<Vulnerability, Fail> {
    let package = lockfile.packages.get(0).ok_or("no package")?;
    let advisory = Advisory::from_str(alloc, text)?;
    Ok(Vulnerability::new(alloc, &advisory, package)?)
}

/// Returns the words that update the packages of a lockfile by the advisory `SHORT`, with a space after each.
fn fix_words(alloc: Global, lockfile: Lockfile) -> Result<String, Fail> {
    let vulnerability = vulnerability_in(alloc, &lockfile, SHORT)?;
    let fixer = Fixer::new(lockfile, None, None);
    let command = fixer.get_fix_command(alloc, &vulnerability, false)?;
    let mut words = String::new(alloc);
    for word in command.words.as_slice() {
        words.push_str(word.as_str())?;
        words.push_str(" ")?;
    }
    Ok(words)
}

// The command names each version of the package once and in order.
#[test]
fn thousands_of_packages_to_update(rt: HostRuntime) -> Result<(), Fail> {
    let package = "[[package]]\nname = \"base\"\nversion = \"0.0.$\"\n";
    let words = fix_words(rt.alloc(), lockfile_of(rt.alloc(), package)?)?;
    let wanted = numbered(rt.alloc(), COUNT, "base@0.0.$ ")?;
    assert!(rt; words.strip_prefix("update ") == Some(wanted.as_str()));
    Ok(())
}

/// Reads a document; and returns it as it prints.
pub(crate) fn read_document(alloc: Global, text: &str) -> Result<OsvAdvisory, Fail> {
    let tree = Value::from_str(alloc, text)?;
    Ok(OsvAdvisory::from_value(alloc, &tree)?)
}

pub(crate) fn printed(alloc: Global, document: &OsvAdvisory) -> Result<String, Fail> {
    let tree = document.to_value(alloc)?;
    Ok(tree.to_string(alloc)?)
}

/// The text before the lists of a document.
const HEAD: &str =
    "{\"details\":\"\",\"id\":\"x\",\"modified\":\"\",\"published\":\"\",\"summary\":\"\",";

/// Returns an OSV document of the crate `base` with 300 ranges of affected versions, the greatest first.
fn document(alloc: Global) -> Result<OsvAdvisory, Fail> {
    let events = "{\"fixed\":\"$.2.0\"},{\"introduced\":\"$.1.0\"},";
    let events = numbered(alloc, 300, events)?;
    let events = events.trim_end_matches(',');
    let text = format!(in alloc;
        "{HEAD}\"affected\":[{{\"database_specific\":{{}},\"package\":{{\"ecosystem\":\"crates.io\",\"name\":\"base\"}},\"ranges\":[{{\"type\":\"SEMVER\",\"events\":[{events}]}}]}}]}}"
    )?;
    read_document(alloc, &text)
}

/// Returns whether a document calls a version of the crate `base` affected.
fn calls_affected(alloc: Global, document: &OsvAdvisory, version: &str) -> Result<bool, Fail> {
    let version = Version::parse(alloc, version)?;
    let question = PackageVersion {
        ecosystem: "crates.io",
        name: "base",
        version: &version,
    };
    Ok(is_affected(alloc, document, &question)?)
}

/// Returns how many introductions and fixes a document has after those at one version are dropped.
fn events_that_are_left(alloc: Global, document: OsvAdvisory) -> Result<(usize, usize), Fail> {
    let printed = printed(alloc, &normalized(alloc, document)?)?;
    let introduced = occurrences(&printed, "\"introduced\"");
    Ok((introduced, occurrences(&printed, "\"fixed\"")))
}

// The version is in the middle of the last range, or ends it. No two events are at one version.
#[test]
fn hundreds_of_ranges_of_a_document(rt: HostRuntime) -> Result<(), Fail> {
    let document = document(rt.alloc())?;
    assert!(rt; calls_affected(rt.alloc(), &document, "300.1.5")?);
    assert!(rt; !calls_affected(rt.alloc(), &document, "300.2.0")?);
    assert!(rt; events_that_are_left(rt.alloc(), document)? == (300, 300));
    Ok(())
}

/// Returns how many packages a document with these members of `affected` names.
fn named_packages(alloc: Global, affected: &str) -> Result<usize, Fail> {
    let affected = affected.trim_end_matches(',');
    let text = format!(in alloc; "{HEAD}\"affected\":[{affected}]}}")?;
    let document = read_document(alloc, &text)?;
    Ok(document.crates(alloc)?.len())
}

/// The link to an advisory, before a comma, and the link to the first one, with more after its ID.
const LINK: &str = "{\"type\":\"WEB\",\"url\":\"https://rustsec.org/advisories/RUSTSEC-2001-$\"},";

const AGAIN: &str =
    "{\"type\":\"WEB\",\"url\":\"https://rustsec.org/advisories/RUSTSEC-2001-1000.html\"}";

/// Returns the IDs that a document imports, each before a line feed.
fn imported(alloc: Global, document: &OsvAdvisory) -> Result<String, Fail> {
    let mut text = String::new(alloc);
    for id in &document.rustsec_refs_imported(alloc)? {
        text.push_str(id.as_str())?;
        text.push_str("\n")?;
    }
    Ok(text)
}

/// Returns whether a document with links to thousands of advisories, and once more to the first, imports each ID once.
fn all_are_imported(alloc: Global) -> Result<bool, Fail> {
    let links = numbered_by(alloc, (1000, 1, 9000), LINK)?;
    let text = format!(in alloc; "{HEAD}\"affected\":[],\"references\":[{links}{AGAIN}]}}")?;
    let document = read_document(alloc, &text)?;
    let wanted = numbered_by(alloc, (1000, 1, 9000), "RUSTSEC-2001-$\n")?;
    Ok(imported(alloc, &document)? == wanted)
}

#[test]
fn packages_and_links_of_a_document(rt: HostRuntime) -> Result<(), Fail> {
    let member =
        "{\"database_specific\":{},\"package\":{\"ecosystem\":\"crates.io\",\"name\":\"p$\"}},";
    let affected = numbered(rt.alloc(), 1000, member)?;
    assert!(rt; named_packages(rt.alloc(), &affected)? == 1000);
    assert!(rt; all_are_imported(rt.alloc())?);
    Ok(())
}

/// Returns an index with one file, that of `base`.
fn index_of<'a>(alloc: Global, file: &'a str) -> Result<Vec<(&'a str, Holds<'a>)>, Fail> {
    let mut rows = Vec::new(alloc);
    rows.push(("index/ba/se/base", Holds::Text(file)))?;
    rows.push(("index", Holds::Entries(&[])))?;
    Ok(rows)
}

/// Returns how many packages of a lockfile an index lists as yanked, and how many it does not list.
fn counts_in(alloc: Global, files: Paths<'_>, lockfile: &str) -> Result<(usize, usize), Fail> {
    let (at, kind) = (0, ErrorKind::Io);
    let mut folders = MemoryFolders::new(files, Failing { at, kind });
    let lockfile = Lockfile::from_str(alloc, lockfile)?;
    let found = yanked_in(alloc, &mut folders, "index", lockfile.packages.as_slice())?;
    Ok((found.packages.len(), found.unlisted.len()))
}

/// Returns these counts for an index with this file of `base`.
fn counts_by(alloc: Global, file: &str, lockfile: &str) -> Result<(usize, usize), Fail> {
    let rows = index_of(alloc, file)?;
    counts_in(alloc, &rows, lockfile)
}

/// Returns the file of a thousand versions of a package, all of them yanked by the last entry of their number.
fn index_file(alloc: Global) -> Result<String, Fail> {
    let mut file = numbered(alloc, 1000, "{\"name\":\"base\",\"vers\":\"0.0.$\"}\n")?;
    let yanked = "{\"name\":\"base\",\"vers\":\"0.0.$\",\"yanked\":true}\n";
    file.push_str(&numbered(alloc, 1000, yanked)?)?;
    Ok(file)
}

#[test]
fn a_thousand_versions_of_a_name(rt: HostRuntime) -> Result<(), Fail> {
    let lockfile = packages(rt.alloc(), 1000, "base", "0.0.$")?;
    let file = index_file(rt.alloc())?;
    assert!(rt; counts_by(rt.alloc(), &file, &lockfile)? == (1000, 0));
    Ok(())
}
