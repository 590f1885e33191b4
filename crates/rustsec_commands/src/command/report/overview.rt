//! Says what a report looked at, and warns of what makes it say less than it seems to.

ghost use Rattle.rustsec_files.specs.Allowed.{AllowSame};

use rustsec_database::KeptDatabase;
use rustsec_files::Folders;
use rustsec_lock::package::Package;
use rustsec_lock::{Lockfile, SourceKind};
use rustsec_texts::Id;
use rustsec_values::{Result, push_shown};
use std::alloc::Global;
use std::fmt::Write as _;

/// The number of packages that a line names. Further ones are counted.
const NAMED: usize = 10;

/// The paths of a report: the root of its database and its lockfile.
#[derive(Clone, Copy, Debug)]
pub struct Paths<'a> {
    /// The root of the database.
    pub root: &'a str,
    /// The lockfile.
    pub lock: &'a str,
}

/// What a report looked at.
#[derive(Clone, Copy)]
pub struct LookedAt<'a> {
    /// Where the database and the lockfile are.
    pub paths: Paths<'a>,
    /// What was kept of the database.
    pub kept: &'a KeptDatabase,
    /// The lockfile.
    pub lockfile: &'a Lockfile,
    /// The IDs that are ignored.
    pub ignored: &'a [Id],
}

/// Why advisories without a source do not match a package.
#[derive(Clone, Copy, PartialEq, Eq)]
enum Unmatched {
    /// The package has no source.
    WithoutSource,
    /// The source is another than the default registry.
    FromElsewhere,
    /// The source is the sparse index of the default registry. Advisories without a source are for its index in git.
    FromSparseIndex,
}

/// Returns why advisories without a source do not match a package, or `None` if they may.
fn why_unmatched(package: &Package) -> Option<Unmatched> {
    let Some(source) = &package.source else {
        return Some(Unmatched::WithoutSource);
    };
    if !source.is_default_registry() {
        return Some(Unmatched::FromElsewhere);
    }
    match source.kind() {
        SourceKind::SparseRegistry => Some(Unmatched::FromSparseIndex),
        _ => None,
    }
}

/// Returns the words of a line for the packages of a reason.
fn reason(why: Unmatched) -> &'static str {
    match why {
        Unmatched::WithoutSource => " without a source, and not audited",
        Unmatched::FromElsewhere => " not from the default registry, and not audited",
        Unmatched::FromSparseIndex => {
            " from the default registry's sparse index, which advisories without a source do not match"
        }
    }
}

/// Appends a warning that names a path or an ID, on one line.
fn add_warning(note: &mut String, what: &str, name: &str) -> Result<()> {
    note.push_str("rustsec_audit: warning: ")?;
    note.push_str(what)?;
    push_shown(note, name)?;
    note.push_str("\n")?;
    Ok(())
}

/// Appends a number with the word for one or for several.
fn add_number(note: &mut String, number: usize, one: &str, several: &str) -> Result<()> {
    let word = if number == 1 { one } else { several };
    write!(note, "{number} {word}")?;
    Ok(())
}

/// Appends the names and versions of the first packages of a reason.
fn add_packages(note: &mut String, packages: &[Package], why: Unmatched) -> Result<()> {
    let mut named: usize = 0;
    for package in packages {
        if named < NAMED && why_unmatched(package) == Some(why) {
            note.push_str(if named == 0 { ": " } else { ", " })?;
            push_shown(note, package.name.as_str())?;
            let version = &package.version;
            write!(note, " {version}")?;
            named += 1;
        }
    }
    Ok(())
}

/// Appends a line that counts the packages of a reason, and names the first ones.
fn add_unmatched(note: &mut String, packages: &[Package], why: Unmatched) -> Result<()> {
    let number = packages
        .iter()
        .filter(|p| why_unmatched(p) == Some(why))
        .count();
    if number == 0 {
        return Ok(());
    }
    note.push_str("rustsec_audit: ")?;
    add_number(note, number, "package is", "packages are")?;
    note.push_str(reason(why))?;
    add_packages(note, packages, why)?;
    if number > NAMED {
        note.push_str(", ...")?;
    }
    note.push_str("\n")?;
    Ok(())
}

/// Appends a warning for each ignored ID that no advisory has.
fn add_ignored(note: &mut String, kept: &KeptDatabase, ignored: &[Id]) -> Result<()> {
    for id in ignored {
        if !kept.has_id(id) {
            add_warning(note, "no advisory has the ignored ID ", id.as_str())?;
        }
    }
    Ok(())
}

/// Appends the line with the numbers of advisories and packages, after a warning for each that is zero.
fn add_numbers(
    note: &mut String,
    paths: Paths<'_>,
    advisories: usize,
    packages: usize,
) -> Result<()> {
    if advisories == 0 {
        add_warning(note, "there is no advisory under ", paths.root)?;
    }
    if packages == 0 {
        add_warning(note, "there is no package in ", paths.lock)?;
    }
    note.push_str("rustsec_audit: ")?;
    add_number(note, advisories, "advisory", "advisories")?;
    note.push_str(", ")?;
    add_number(note, packages, "package", "packages")?;
    note.push_str("\n")?;
    Ok(())
}

/// Appends a warning if the folder `rust` of a root cannot be listed. Its advisories are left out then.
fn add_unlisted<F: Folders>(
    alloc: Global,
    folders: &mut F,
    note: &mut String,
    root: &str,
) -> Result<()>
    ensures same { AllowSame (F.allowed folders.old) (F.allowed folders.new) }
{
    let path = format!(in alloc; "{root}/rust")?;
    if let Err(error) = folders.list(alloc, &path) {
        let why = error.text_with_cause(alloc)?;
        add_warning(note, "", &why)?;
    }
    Ok(())
}

/// Returns a line of warning if the folder `rust` of a root cannot be listed, else no text. Its advisories are left out
/// then. No contract mentions the line.
///
/// # Errors
///
/// `OutOfMemory` alone.
pub fn unlisted_note<F: Folders>(alloc: Global, folders: &mut F, root: &str) -> Result<String>
    ensures same { AllowSame (F.allowed folders.old) (F.allowed folders.new) }
{
    let mut note = String::new(alloc);
    add_unlisted(alloc, folders, &mut note, root)?;
    Ok(note)
}

/// Returns the lines that say what a report looked at: the folder `rust` if it cannot be listed, the packages that
/// advisories without a source do not match, the ignored IDs that no advisory has, and the numbers of advisories and
/// packages.
pub fn overview<F: Folders>(
    alloc: Global,
    folders: &mut F,
    looked_at: LookedAt<'_>,
) -> Result<String>
    ensures same { AllowSame (F.allowed folders.old) (F.allowed folders.new) }
{
    let mut note = String::new(alloc);
    let packages = looked_at.lockfile.packages.as_slice();
    add_unlisted(alloc, folders, &mut note, looked_at.paths.root)?;
    add_unmatched(&mut note, packages, Unmatched::WithoutSource)?;
    add_unmatched(&mut note, packages, Unmatched::FromElsewhere)?;
    add_unmatched(&mut note, packages, Unmatched::FromSparseIndex)?;
    add_ignored(&mut note, looked_at.kept, looked_at.ignored)?;
    let advisories = looked_at.kept.number();
    add_numbers(&mut note, looked_at.paths, advisories, packages.len())?;
    Ok(note)
}
