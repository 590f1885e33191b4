//! The call `CachedIndex::find_yanked`, over a look-up that answers differently each time.

use crate::files::text_of;
use crate::window::{closes, opens, refusal};
use rustsec_lock::Lockfile;
use rustsec_lock::package::{Name, Package};
use rustsec_registry::{CachedIndex, IndexVersion, Lookup};
use rustsec_values::{Error, Items, Result, Text};
use std::alloc::Global;
use std::cell::Cell;

/// The versions that the registry lists for each name.
const VERSIONS: &[&str] = &["1.0.0", "2.0.0", "3.0.0", "4.0.0", "5.0.0"];

/// A registry that has all names. At the first look-up only the first version is yanked, at the second look-up only
/// the second one, and so on.
#[derive(Drop)]
struct Counting<'a> {
    asked: &'a Cell<usize>,
}

/// Returns all versions, one of them yanked.
fn listed(alloc: Global, yanked: usize) -> Result<Items<IndexVersion>> {
    let mut versions = Items::new(alloc);
    for (i, text) in VERSIONS.iter().enumerate() {
        let version = Text::from_str(alloc, text)?;
        versions.push(IndexVersion {
            version,
            yanked: i == yanked,
        })?;
    }
    Ok(versions)
}

impl<'a> Lookup for Counting<'a> {
    ghost use Rattle.std.specs.Prelude.{⊤};

    ghost answers = { λ _ _ _. ⊤ };

    fn krate(&self, alloc: Global, _name: &Name) -> Result<Option<Items<IndexVersion>>> {
        let asked = self.asked.get();
        self.asked.set(asked.saturating_add(1));
        let versions = listed(alloc, asked)?;
        Ok(Some(versions))
    }
}

/// Returns the text of answers, each followed by a space: the yanked packages, and errors.
fn answers_text(alloc: Global, answers: &[std::result::Result<&Package, Error>]) -> Result<String> {
    let mut text = String::new(alloc);
    for answer in answers {
        match answer {
            Ok(package) => write!(text, "{}@{} ", package.name, package.version)?,
            Err(e) => write!(text, "{e} ")?,
        }
    }
    Ok(text)
}

/// Returns the text of answers, or the error of the call.
fn answer_text(
    alloc: Global,
    answers: &Result<Vec<std::result::Result<&Package, Error>>>,
) -> Result<String> {
    match answers {
        Ok(answers) => answers_text(alloc, answers),
        Err(e) => {
            let mut text = refusal(alloc, e)?;
            text.push_str(" ")?;
            Ok(text)
        }
    }
}

/// Writes the answer of a call, and the number of look-ups so far.
fn write_answers(
    rt: &HostRuntime,
    word: &str,
    answers: &Result<Vec<std::result::Result<&Package, Error>>>,
    asked: &Cell<usize>,
) -> Result<()> {
    let text = answer_text(rt.alloc(), answers)?;
    let asked = asked.get();
    let _ = println!(rt; "{word} {text}asked {asked}");
    Ok(())
}

/// Looks up the first package, then all, and then all twice more.
fn write_calls(rt: &HostRuntime, packages: &[Package]) -> Result<()> {
    let alloc = rt.alloc();
    let asked = Cell::new(0);
    let mut index = CachedIndex::new(alloc, Counting { asked: &asked });
    let first = packages.split_at(packages.len().min(1)).0;
    write_answers(rt, "before", &index.find_yanked(alloc, first), &asked)?;
    opens(rt);
    let answers = index.find_yanked(alloc, packages);
    closes(rt);
    write_answers(rt, "answer", &answers, &asked)?;
    write_answers(rt, "again", &index.find_yanked(alloc, packages), &asked)?;
    write_answers(rt, "third", &index.find_yanked(alloc, packages), &asked)
}

/// Writes the answers over the packages of a lockfile.
pub fn write_find_yanked(rt: &HostRuntime, lock: &str) -> Result<()> {
    let lock = text_of(rt, lock)?;
    let lockfile = Lockfile::from_str(rt.alloc(), &lock)?;
    write_calls(rt, lockfile.packages.as_slice())
}
