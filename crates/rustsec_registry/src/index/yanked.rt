//! Which packages of a lockfile are yanked, by an index that a folder has.

ghost use Rattle.std.specs.Prelude.{◌≡◌, ◌≢◌, ◌⊎◌, ◌++◌, ◌∷◌, [], Err, IfErr, IfOk, OnOk, map};
ghost use Rattle.rustsec_files.specs.Allowed.{AllowSame};
ghost use Rattle.rustsec_values.specs.Failure.{IsMemory};
ghost use Rattle.rustsec_registry.specs.Yanked.{seen};
ghost use Rattle.rustsec_registry.specs.index.YankedPackages.{AreTaken, IsFirstOther, IsGivenFor, IsRefusedFor, IsTaken, IsYankedIn, IsYankedRefusal, asked, is_asked, messages_in, packages_in};

use crate::CachedIndex;
use crate::index::folder::IndexFolder;
use rustsec_files::Folders;
use rustsec_lock::package::Package;
use rustsec_values::{Error, ErrorKind, Items, Result, Text};
use std::alloc::Global;

/// Which packages are yanked, and which ones the index does not list.
#[derive(Debug, Drop)]
pub struct YankedPackages {
    /// The packages that are yanked, each once, in the order of packages.
    pub packages: Items<Package>,
    /// For each distinct package that the index does not list, in the order of packages, a text for people.
    pub unlisted: Items<Text>,
}

/// The answer of a look-up for a package.
type Answer<'a> = std::result::Result<&'a Package, Error>;

/// Returns whether the source of a package is the default registry.
fn is_asked(package: &Package) -> bool
    ensures { result ≡ is_asked «package».now }
{
    match &package.source {
        Some(source) => source.is_default_registry(),
        None => false,
    }
}

/// Appends a copy of a package, if its source is the default registry.
fn push_asked(alloc: Global, copies: &mut Items<Package>, package: &Package) -> Result<()>
    ensures ok { OnOk result (copies.new ≡ copies.old ++ asked («package».now ∷ [])) }
    ensures err { IfErr result IsMemory }
{
    if is_asked(package) {
        let copy = package.clone(alloc)?;
        copies.push(copy)?;
    }
    Ok(())
}

/// Returns copies of those packages whose source is the default registry.
fn asked(alloc: Global, packages: &[Package]) -> Result<Items<Package>>
    ensures ok { IfOk result (λ copies. copies ≡ asked packages.now) }
    ensures err { IfErr result IsMemory }
{
    let mut copies = Items::new(alloc);
    for package in packages {
        push_asked(alloc, &mut copies, package)?;
    }
    Ok(copies)
}

/// Appends a package that is yanked, or the message for one that is not listed. Another error is the result.
fn take(alloc: Global, yanked: &mut YankedPackages, answer: &Answer<'_>) -> Result<()>
    ensures taken { OnOk result (IsTaken (seen answer.now)) }
    ensures packages { OnOk result (yanked.new.packages ≡ yanked.old.packages ++ packages_in (seen answer.now ∷ [])) }
    ensures unlisted { OnOk result (yanked.new.unlisted ≡ yanked.old.unlisted ++ messages_in (seen answer.now ∷ [])) }
    ensures err { IfErr result (λ e. ((e.kind ≢ ErrorKind.NotFound) × (seen answer.now ≡ Err e)) ⊎ IsMemory e) }
{
    match answer {
        Ok(package) => {
            let copy = (*package).clone(alloc)?;
            yanked.packages.push(copy)?;
            Ok(())
        }
        Err(e) if e.kind() == ErrorKind::NotFound => {
            let text = Text::from_str(alloc, e.message())?;
            yanked.unlisted.push(text)?;
            Ok(())
        }
        Err(e) => {
            let copy = e.clone(alloc)?;
            Err(copy)
        }
    }
}

/// Returns the packages of some answers and the messages of the others, or the first error that is not `NotFound`.
fn taken(alloc: Global, answers: &[Answer<'_>]) -> Result<YankedPackages>
    ensures ok { IfOk result (AreTaken (map seen answers.now)) }
    ensures err { IfErr result (λ e. IsFirstOther (map seen answers.now) e ⊎ IsMemory e) }
{
    let mut yanked = YankedPackages {
        packages: Items::new(alloc),
        unlisted: Items::new(alloc),
    };
    for answer in answers {
        take(alloc, &mut yanked, answer)?;
    }
    Ok(yanked)
}

/// Returns which of some packages are yanked, by the index in a folder. All of them are asked.
fn given_for<F: Folders>(
    alloc: Global,
    folders: &mut F,
    root: &str,
    packages: &[Package],
) -> Result<YankedPackages>
    ensures ok { IfOk result (IsGivenFor (F.allowed folders.old) root.now packages.now) }
    ensures err { IfErr result (IsRefusedFor (F.allowed folders.old) root.now packages.now) }
    ensures same { AllowSame (F.allowed folders.old) (F.allowed folders.new) }
{
    let index = IndexFolder::read(alloc, folders, root, packages)?;
    let mut cached = CachedIndex::new(alloc, index);
    let answers = cached.find_yanked(alloc, packages)?;
    taken(alloc, answers.as_slice())
}

/// Returns which of some packages are yanked, by the index in a folder: a checkout of an index, or the caches of Cargo
/// in its folder `.cache`. Only packages whose source is the default registry are asked. A package is yanked if the
/// last entry for its version, in the file of its name, says so.
///
/// # Errors
///
/// `Io` if the folder cannot be listed. The error of the first package whose file is damaged (`Parse`, with the path
/// and the line or the byte offset) or cannot be read (`Io`). Else `OutOfMemory`.
pub fn yanked_in<F: Folders>(
    alloc: Global,
    folders: &mut F,
    root: &str,
    packages: &[Package],
) -> Result<YankedPackages>
    ensures ok { IfOk result (IsYankedIn (F.allowed folders.old) root.now packages.now) }
    ensures err { IfErr result (IsYankedRefusal (F.allowed folders.old) root.now packages.now) }
    ensures same { AllowSame (F.allowed folders.old) (F.allowed folders.new) }
{
    let asked = asked(alloc, packages)?;
    given_for(alloc, folders, root, asked.as_slice())
}
