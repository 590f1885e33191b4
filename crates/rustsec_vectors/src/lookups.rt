//! Yanked packages by look-ups of the tests, and signatures.

use crate::packages::package;
use crate::rows::field;
use rustsec_lock::package::{Name, Package};
use rustsec_registry::{CachedIndex, IndexVersion, Lookup, Signature};
use rustsec_values::{Error, ErrorKind, Items, Text};
use std::alloc::Global;
use std::cell::Cell;
use std::fmt::Write as _;
use std::test::Fail;

/// Examples with packages, the answers of a registry to its look-ups, and what calls of `find_yanked` answer. A slash is
/// between one look-up or call and the next; the last answer of a registry stays. A registry has names, each with the
/// versions that it lists, a yanked one with `!` after it; or the registry fails, or has no memory.
const CALLS: &str = "
yanked | b 1.0.0, a 2.0.0, a 1.0.0, a 1.0.0 | a 1.0.0! 2.0.0 | a 1.0.0; NotFound;
changing_look_up | a 1.0.0, a 2.0.0 | a 1.0.0! 2.0.0 / a 1.0.0 2.0.0! | a 1.0.0; / a 1.0.0;
look_up_doubles | a 1.0.0, a 1.0.0+b | a 1.0.0 1.0.0! | a 1.0.0; NotFound;
look_up_that_fails | a 1.0.0, a 2.0.0 | a fails / a 1.0.0! 2.0.0! | Registry; Registry; / Registry; Registry;
look_up_out_of_memory | a 1.0.0, b 1.0.0 | a 1.0.0! / b has no memory | refused: OutOfMemory / refused: OutOfMemory
refused_memory_keeps | a 1.0.0, a 2.0.0, b 1.0.0 | a 1.0.0! 2.0.0 / b has no memory / a 1.0.0 2.0.0!, b 1.0.0! | refused: OutOfMemory / a 1.0.0; b 1.0.0;
";

/// A registry that answers differently at each look-up, and with its last answer from then on.
#[derive(Drop)]
struct Changing<'a> {
    says: &'a str,
    asked: Cell<usize>,
}

/// The versions that a registry lists of a name, if it has the name.
type Listed = Result<Option<Items<IndexVersion>>, Error>;

fn listed(alloc: Global, texts: &str) -> Result<Items<IndexVersion>, Error> {
    let mut versions = Items::new(alloc);
    for text in texts.split(' ') {
        let version = Text::from_str(alloc, text.trim_end_matches('!'))?;
        let yanked = text.ends_with('!');
        versions.push(IndexVersion { version, yanked })?;
    }
    Ok(versions)
}

fn said_of<'a>(names: &'a str, name: &str) -> Option<&'a str> {
    for row in names.split(',') {
        match row.trim().split_once(' ') {
            Some((at, said)) if at == name => return Some(said),
            _ => {}
        }
    }
    None
}

fn answer(alloc: Global, said: Option<&str>) -> Listed {
    match said {
        Some("fails") => Err(Error::new(alloc, ErrorKind::Registry, "the registry fails")),
        Some("has no memory") => Err(Error::new(alloc, ErrorKind::OutOfMemory, "no memory")),
        Some(texts) => Ok(Some(listed(alloc, texts)?)),
        None => Ok(None),
    }
}

impl<'a> Lookup for Changing<'a> {
    ghost use Rattle.std.specs.Prelude.{⊤};

    ghost answers = { λ _ _ _. ⊤ };

    fn krate(&self, alloc: Global, name: &Name) -> Listed {
        let asked = self.asked.get();
        self.asked.set(asked.saturating_add(1));
        let last = self.says.split('/').count().saturating_sub(1);
        match self.says.split('/').nth(asked.min(last)) {
            Some(names) => answer(alloc, said_of(names, name.as_str())),
            None => Ok(None),
        }
    }
}

fn packages(alloc: Global, list: &str) -> Result<Vec<Package>, Fail> {
    let mut packages = Vec::new(alloc);
    for line in list.split(',') {
        packages.push(package(alloc, line.trim())?)?;
    }
    Ok(packages)
}

fn text_of(alloc: Global, answers: &[Result<&Package, Error>]) -> Result<String, Fail> {
    let mut text = String::new(alloc);
    for answer in answers {
        match answer {
            Ok(package) => write!(text, "{} {}; ", package.name, package.version)?,
            Err(e) => write!(text, "{:?}; ", e.kind())?,
        }
    }
    Ok(text)
}

fn finds(
    alloc: Global,
    index: &mut CachedIndex<Changing<'_>>,
    packages: &[Package],
    expected: &str,
) -> Result<bool, Fail> {
    match index.find_yanked(alloc, packages) {
        Ok(answers) => {
            let text = text_of(alloc, &answers)?;
            Ok(text.as_str().trim_end() == expected)
        }
        Err(e) => {
            let text = format!(in alloc; "refused: {:?}", e.kind())?;
            Ok(text.as_str() == expected)
        }
    }
}

fn answers_as_wanted(alloc: Global, row: &str) -> Result<bool, Fail> {
    let packages = packages(alloc, field(row, 1))?;
    let registry = Changing {
        says: field(row, 2),
        asked: Cell::new(0),
    };
    let mut index = CachedIndex::new(alloc, registry);
    for expected in field(row, 3).split('/') {
        if !finds(alloc, &mut index, &packages, expected.trim())? {
            return Ok(false);
        }
    }
    Ok(true)
}

#[test]
fn yanked(rt: HostRuntime) -> Result<(), Fail> {
    for row in CALLS.trim().lines() {
        assert!(rt; answers_as_wanted(rt.alloc(), row)?, "{row}");
    }
    Ok(())
}

/// Returns whether a signature and its copy hold these bytes, and another does not equal them.
fn keeps(alloc: Global, bytes: &[u8], other: &[u8]) -> Result<bool, Fail> {
    let signature = Signature::from_bytes(alloc, bytes)?;
    let copy = signature.clone(alloc)?;
    let other = Signature::from_bytes(alloc, other)?;
    Ok(signature.as_ref() == bytes && copy == signature && signature != other)
}

#[test]
fn signatures(rt: HostRuntime) -> Result<(), Fail> {
    let rows: &[(&[u8], &[u8])] = &[(&[], &[97]), (&[255, 0], &[255])];
    for (bytes, other) in rows {
        assert!(rt; keeps(rt.alloc(), bytes, other)?);
    }
    Ok(())
}
