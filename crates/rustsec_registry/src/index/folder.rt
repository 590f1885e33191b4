//! Look-ups in an index that a folder has.

ghost use Rattle.std.specs.Prelude.{◌≡◌, ◌⊎◌, Err, IfErr, IfOk, None, Ok, OnOk, option_copied};
ghost use Rattle.rustsec_files.specs.Allowed.{AllowSame};
ghost use Rattle.rustsec_values.specs.Failure.{IsMemory, IsRefusal};
ghost use Rattle.rustsec_registry.specs.Lookups.{at};
ghost use Rattle.rustsec_registry.specs.index.IndexFolder.{AnswersAll, AreAnswers, IsAnswer, IsAdded, IsFileAnswer, IsGiven, IsIndex, IsTextAnswer, IsUnreadAnswer};
ghost use Rattle.rustsec_registry.specs.index.IndexPath.{below};

use crate::index::file::versions_in;
use crate::index::path::index_path;
use crate::index::place::{Place, find_place, is_missing};
use crate::{IndexVersion, Lookup};
use rustsec_files::{Folders, SourceFile};
use rustsec_lock::package::{Name, Package};
use rustsec_values::{Error, ErrorKind, Items, Result, SortedMap, Text};
use std::alloc::{AllocError, Global};
use std::marker::Model;

/// The answer for a name: the versions that its file lists, `None` if the name is missing, or an error.
type Answer = Result<Option<Items<IndexVersion>>>;

/// Returns the path of a file below a folder.
fn below(alloc: Global, folder: &str, names: &[Text]) -> std::result::Result<Text, AllocError>
    ensures { IfOk result (λ path. path ≡ below folder.now names.now) }
{
    let mut path = String::from_str(alloc, folder)?;
    for name in names {
        path.push_str("/")?;
        path.push_str(name.as_str())?;
    }
    Ok(Text::from(path))
}

/// Returns the answer for a file that was read.
fn answer_of_text(alloc: Global, place: &Place, file: &SourceFile, name: &str) -> Result<Answer>
    ensures ok { IfOk result (IsTextAnswer place.now file.now name.now) }
    ensures err { IfErr result IsMemory }
{
    match versions_in(alloc, place.form, file, name) {
        Ok(versions) => Ok(Ok(Some(versions))),
        Err(e) => {
            if e.kind() == ErrorKind::OutOfMemory {
                return Err(Error::from(AllocError));
            }
            Ok(Err(e))
        }
    }
}

/// Returns the answer for a file that cannot be read, with the error of its reading.
fn answer_without_text<F: Folders>(
    alloc: Global,
    folders: &mut F,
    place: &Place,
    path: &[Text],
    error: Error,
) -> Result<Answer>
    ensures ok { IfOk result (IsUnreadAnswer (F.allowed folders.old) place.now path.now error) }
    ensures err { IfErr result IsMemory }
    ensures same { AllowSame (F.allowed folders.old) (F.allowed folders.new) }
{
    if error.kind() == ErrorKind::OutOfMemory {
        return Err(Error::from(AllocError));
    }
    if is_missing(alloc, folders, place.root.as_str(), path)? {
        return Ok(Ok(None));
    }
    Ok(Err(error))
}

/// Returns the answer for the file at a path.
fn file_answer<F: Folders>(
    alloc: Global,
    folders: &mut F,
    place: &Place,
    path: &[Text],
    name: &str,
) -> Result<Answer>
    ensures ok { IfOk result (IsFileAnswer (F.allowed folders.old) place.now path.now name.now) }
    ensures err { IfErr result IsMemory }
    ensures same { AllowSame (F.allowed folders.old) (F.allowed folders.new) }
{
    let file = below(alloc, place.root.as_str(), path)?;
    match folders.read(alloc, file.as_str()) {
        Ok(text) => answer_of_text(alloc, place, &SourceFile { path: file, text }, name),
        Err(e) => answer_without_text(alloc, folders, place, path, e),
    }
}

/// Returns the answer for a name.
fn answer<F: Folders>(alloc: Global, folders: &mut F, place: &Place, name: &str) -> Result<Answer>
    ensures ok { IfOk result (IsAnswer (F.allowed folders.old) place.now name.now) }
    ensures err { IfErr result IsMemory }
    ensures same { AllowSame (F.allowed folders.old) (F.allowed folders.new) }
{
    match index_path(alloc, name)? {
        Some(path) => file_answer(alloc, folders, place, path.as_slice(), name),
        None => Ok(Ok(None)),
    }
}

/// Returns the answer that was read for a name, if any.
fn at<'a>(answers: &'a SortedMap<Name, Answer>, name: &Name) -> Option<&'a Answer>
    ensures { option_copied result ≡ at name.now answers.now }
{
    answers.get(name)
}

/// Reads the answer for the name of a package, unless there is one.
fn add<F: Folders>(
    alloc: Global,
    folders: &mut F,
    place: &Place,
    answers: &mut SortedMap<Name, Answer>,
    package: &Package,
) -> Result<()>
    ensures added { OnOk result (IsAdded (F.allowed folders.old) place.now «package».now.name answers.old answers.new) }
    ensures err { IfErr result IsMemory }
    ensures same { AllowSame (F.allowed folders.old) (F.allowed folders.new) }
{
    if at(answers, &package.name).is_some() {
        return Ok(());
    }
    let answer = answer(alloc, folders, place, package.name.as_str())?;
    let name = package.name.clone(alloc)?;
    answers.insert(name, answer)?;
    Ok(())
}

/// Reads the answers for the names of packages, each once.
fn answers_for<F: Folders>(
    alloc: Global,
    folders: &mut F,
    place: &Place,
    packages: &[Package],
) -> Result<SortedMap<Name, Answer>>
    ensures each { IfOk result (AreAnswers (F.allowed folders.old) place.now) }
    ensures all { IfOk result (AnswersAll packages.now) }
    ensures err { IfErr result IsMemory }
    ensures same { AllowSame (F.allowed folders.old) (F.allowed folders.new) }
{
    let mut answers = SortedMap::new(alloc);
    for package in packages {
        add(alloc, folders, place, &mut answers, package)?;
    }
    Ok(answers)
}

/// Returns equal versions.
fn copies(
    alloc: Global,
    versions: &Items<IndexVersion>,
) -> std::result::Result<Items<IndexVersion>, AllocError>
    ensures { IfOk result (λ copies. copies ≡ versions.now) }
{
    let all = versions.as_slice();
    let mut copies = Items::new(alloc);
    for entry in all {
        let version = entry.version.clone()?;
        let yanked = entry.yanked;
        copies.push(IndexVersion { version, yanked })?;
    }
    Ok(copies)
}

/// Returns an equal answer.
fn copy_of(alloc: Global, answer: &Answer) -> Answer
    ensures ok { IfOk result (λ versions. answer.now ≡ Ok versions) }
    ensures err { IfErr result (λ e. (answer.now ≡ Err e) ⊎ IsMemory e) }
{
    match answer {
        Ok(Some(versions)) => {
            let versions = copies(alloc, versions)?;
            Ok(Some(versions))
        }
        Ok(None) => Ok(None),
        Err(e) => {
            let copy = e.clone(alloc)?;
            Err(copy)
        }
    }
}

/// What an index in a folder lists for some names. A checkout of an index and the caches of Cargo are read.
///
/// The files of all names are read at once, since a look-up may not change the folders. A file that cannot be read or
/// is damaged is an error for its name alone.
#[derive(Debug, Drop)]
pub struct IndexFolder {
    answers: SortedMap<Name, Answer>,
}

impl Model for IndexFolder {
    ghost use Rattle.std.specs.Prelude.{List, ℕ};
    ghost use Rattle.rustsec_registry.specs.Lookups.{Answer};

    ghost Value = { List (List ℕ × Answer) };

    ghost view = { λ i. i.answers };
}

impl IndexFolder {
    /// Reads what an index lists for the names of packages, from the folder of a checkout, or from the folder `.cache`
    /// in it, if any.
    ///
    /// # Errors
    ///
    /// `Io` if the folder cannot be listed; else `OutOfMemory`.
    pub fn read<F: Folders>(
        alloc: Global,
        folders: &mut F,
        root: &str,
        packages: &[Package],
    ) -> Result<IndexFolder>
        ensures ok { IfOk result (IsIndex (F.allowed folders.old) root.now) }
        ensures all { IfOk result (AnswersAll packages.now) }
        ensures err { IfErr result (IsRefusal ErrorKind.Io ((F.allowed folders.old).lists root.now None)) }
        ensures same { AllowSame (F.allowed folders.old) (F.allowed folders.new) }
    {
        let place = find_place(alloc, folders, root)?;
        let answers = answers_for(alloc, folders, &place, packages)?;
        Ok(IndexFolder { answers })
    }
}

impl Lookup for IndexFolder {
    ghost use Rattle.rustsec_registry.specs.Lookups.{at};
    ghost use Rattle.rustsec_registry.specs.index.IndexFolder.{IsGiven};

    ghost answers = { λ i name a. IsGiven (at name i) a };

    /// Returns the versions that were read for a name, or `None` if the name is missing.
    ///
    /// # Errors
    ///
    /// `Parse` for a damaged file, `Io` for one that cannot be read, `BadParam` if the name is not one of those that
    /// were read; else `OutOfMemory`.
    fn krate(&self, alloc: Global, name: &Name) -> Answer {
        match at(&self.answers, name) {
            Some(answer) => copy_of(alloc, answer),
            None => Err(Error::new(
                alloc,
                ErrorKind::BadParam,
                "the index was not read for this name",
            )),
        }
    }
}
