//! Databases of files, which are written as in `stored`: the first fault, queries, orders, look-ups, vulnerabilities.

use crate::stored::{kind_word, load_all, path_of, text_of};
use rustsec_advisory::Advisory;
use rustsec_database::{Database, Entries, Query, SourceFile};
use rustsec_lock::Lockfile;
use rustsec_lock::package::Name;
use rustsec_texts::{Collection, Id};
use rustsec_values::Text;
use std::alloc::Global;
use std::test::Fail;
use std::vec;

fn source_files(alloc: Global, files: &str) -> Result<Vec<SourceFile>, Fail> {
    let mut list = Vec::new(alloc);
    for words in files.split(", ") {
        let (path, changes) = path_of(words);
        let text = Text::from(text_of(alloc, changes)?);
        let path = Text::from_str(alloc, path)?;
        list.push(SourceFile { path, text })?;
    }
    Ok(list)
}

fn database(alloc: Global, files: &str) -> Result<Database, Fail> {
    let files = source_files(alloc, files)?;
    Ok(Database::load(alloc, files.as_slice())?)
}

/// Returns how many advisories a database of files has, and a word for its refusal.
fn count(alloc: Global, files: &[SourceFile]) -> (usize, &'static str) {
    match Database::load(alloc, files) {
        Ok(database) => (database.iter().count(), "loaded"),
        Err(e) => (0, kind_word(e.kind())),
    }
}

fn is_loaded(alloc: Global, files: &str, wanted: (usize, &str)) -> Result<bool, Fail> {
    let files = source_files(alloc, files)?;
    Ok(count(alloc, &files) == wanted)
}

/// The valid advisory, alone and with a file after it whose name is not its ID, and a text that is not an advisory.
const ONE: &str = "crates/base/RUSTSEC-2001-2101.md";

const MISPLACED_FIRST: &str =
    "crates/base/RUSTSEC-2001-2101.md, crates/base/x.md RUSTSEC-2001-2102, crates/base/RUSTSEC-2001-2101.md broken";

const BROKEN_FIRST: &str =
    "crates/base/RUSTSEC-2001-2101.md, crates/base/RUSTSEC-2001-2101.md broken, crates/base/x.md RUSTSEC-2001-2102";

#[test]
fn load_first_fault(rt: HostRuntime) -> Result<(), Fail> {
    assert!(rt; is_loaded(rt.alloc(), MISPLACED_FIRST, (0, "repo"))?);
    assert!(rt; is_loaded(rt.alloc(), BROKEN_FIRST, (0, "parse"))?);
    assert!(rt; is_loaded(rt.alloc(), ONE, (1, "loaded"))?);
    assert!(rt; count(rt.alloc(), &[]) == (0, "loaded"));
    Ok(())
}

/// Returns a query with what a word asks for: a collection, a year, the name of a package.
fn with_word(alloc: Global, query: Query, word: &str) -> Result<Query, Fail> {
    Ok(match word {
        "crates" => query.collection(Collection::Crates),
        "rust" => query.collection(Collection::Rust),
        "2001" => query.year(2001),
        "2525" => query.year(2525),
        name => query.package_name(Name::from_str(alloc, name)?),
    })
}

fn query(alloc: Global, words: &str) -> Result<Query, Fail> {
    let mut query = Query::new(alloc);
    for word in words.split_whitespace() {
        query = with_word(alloc, query, word)?;
    }
    Ok(query)
}

/// Returns whether advisories have IDs with these last digits, in order.
fn have_ids(advisories: &[&Advisory], ids: &str) -> bool {
    for (advisory, id) in advisories.iter().zip(ids.split_whitespace()) {
        if !advisory.id().as_str().ends_with(id) {
            return false;
        }
    }
    advisories.len() == ids.split_whitespace().count()
}

/// Files whose IDs are in another order than the files.
const TWO: &str =
    "crates/base/RUSTSEC-2001-2101.md, rust/base/RUSTSEC-2001-2102.md RUSTSEC-2001-2102";

const THREE: &str =
    "crates/base/RUSTSEC-2001-2103.md RUSTSEC-2001-2103, rust/base/RUSTSEC-2001-2102.md RUSTSEC-2001-2102, crates/base/RUSTSEC-2001-2101.md";

/// Returns whether a query over the database of files gives advisories of IDs with these last digits, in order.
fn gives(alloc: Global, files: &str, words: &str, ids: &str) -> Result<bool, Fail> {
    let query = query(alloc, words)?;
    let database = database(alloc, files)?;
    let found = database.query(alloc, &query)?;
    Ok(have_ids(found.as_slice(), ids))
}

#[test]
fn queries(rt: HostRuntime) -> Result<(), Fail> {
    for (files, words, ids) in &[
        (ONE, "crates base 2525", ""),
        (ONE, "crates base 2001", "2101"),
        (ONE, "crates base", "2101"),
        (ONE, "rust base", ""),
        (ONE, "2001", "2101"),
        (ONE, "2525", ""),
        (TWO, "crates base 2525", ""),
        (TWO, "crates base 2001", "2101"),
        (TWO, "rust base 2001", "2102"),
        (TWO, "rust other 2001", ""),
        (TWO, "crates 2001", "2101"),
        (TWO, "base 2001", "2101 2102"),
        (TWO, "2001", "2101 2102"),
        (TWO, "2525", ""),
        (THREE, "", "2103 2102 2101"),
        (THREE, "crates base", "2103 2101"),
    ] {
        assert!(rt; gives(rt.alloc(), files, words, ids)?, "{words} in {files}");
    }
    Ok(())
}

/// Returns whether a database gives its advisories by IDs with these last digits, in order.
fn iterates(alloc: Global, database: &Database, ids: &str) -> Result<bool, Fail> {
    let mut advisories = Vec::new(alloc);
    for advisory in database.iter() {
        advisories.push(advisory)?;
    }
    Ok(have_ids(advisories.as_slice(), ids))
}

fn next_is(advisories: &mut vec::IntoIter<Advisory>, id: &str) -> bool {
    match advisories.next() {
        Some(advisory) => advisory.id().as_str().ends_with(id),
        None => false,
    }
}

/// Returns whether advisories by value have IDs with these last digits, in order, and end.
fn give_ids(mut advisories: vec::IntoIter<Advisory>, ids: &str) -> bool {
    for id in ids.split_whitespace() {
        if !next_is(&mut advisories, id) {
            return false;
        }
    }
    advisories.next().is_none()
}

fn entries_give_ids(alloc: Global) -> Result<bool, Fail> {
    let mut entries = Entries::new(alloc);
    load_all(alloc, &mut entries, THREE)?;
    Ok(give_ids(entries.into_iter(), "2103 2102 2101"))
}

#[test]
fn load_order(rt: HostRuntime) -> Result<(), Fail> {
    let database = database(rt.alloc(), THREE)?;
    assert!(rt; iterates(rt.alloc(), &database, "2103 2102 2101")?);
    assert!(rt; give_ids(database.into_iter(), "2103 2102 2101"));
    assert!(rt; entries_give_ids(rt.alloc())?);
    Ok(())
}

fn has(alloc: Global, database: &Database, id: &str) -> Result<bool, Fail> {
    let id = Id::from_str(alloc, id)?;
    let found = database.get(&id).map(|advisory| advisory.id());
    Ok(found == Some(&id))
}

#[test]
fn look_ups_by_id(rt: HostRuntime) -> Result<(), Fail> {
    let database = database(rt.alloc(), TWO)?;
    assert!(rt; has(rt.alloc(), &database, "RUSTSEC-2001-2101")?);
    assert!(rt; has(rt.alloc(), &database, "RUSTSEC-2001-2102")?);
    assert!(rt; !has(rt.alloc(), &database, "RUSTSEC-2001-2103")?);
    assert!(rt; !has(rt.alloc(), &database, "RUSTSEC-0000-0000")?);
    Ok(())
}

/// A package before its version, and after it.
const PACKAGE: &str = "[[package]]\nname = \"base\"\nversion = \"";

const SOURCE: &str = "\"\nsource = \"registry+https://github.com/rust-lang/crates.io-index\"\n";

/// Returns how many vulnerabilities a lockfile has, by the scope of crates and by a query for nothing. It has a
/// vulnerable package twice, once more without a source, and in a version that is patched.
fn vulnerabilities(alloc: Global, database: &Database) -> Result<(usize, usize), Fail> {
    let text = format!(in alloc;
        "{PACKAGE}1.0.0{SOURCE}{PACKAGE}1.0.0\"\n{PACKAGE}1.2.3{SOURCE}{PACKAGE}1.0.0{SOURCE}"
    )?;
    let lockfile = Lockfile::from_str(alloc, &text)?;
    let crates = database.vulnerabilities(alloc, &lockfile)?.len();
    let all = database.query_vulnerabilities(alloc, &lockfile, &Query::new(alloc))?;
    Ok((crates, all.len()))
}

#[test]
fn a_package_that_stands_twice(rt: HostRuntime) -> Result<(), Fail> {
    let database = database(rt.alloc(), TWO)?;
    assert!(rt; vulnerabilities(rt.alloc(), &database)? == (2, 4));
    Ok(())
}
