//! Lockfiles (`Cargo.lock`).

ghost use Rattle.std.specs.Prelude.{◌≡◌, ◌≢◌, ◌++◌, ◌∷◌, ◌⊎◌, [], ℕ, IfErr, IfOk, List, MatchResult, None, OnErr, OnOk, Some, codes, option_map};
ghost use Rattle.semver.specs.Identifiers.{parts_of};
ghost use Rattle.toml.specs.Data.{get_member};
ghost use Rattle.toml.specs.View.{array_view, table_view, view};
ghost use Rattle.rustsec_values.specs.Reading.{read_all, read_optional};
ghost use Rattle.rustsec_files.specs.Allowed.{AllowSame, read_from, real_files, real_folders};
ghost use Rattle.rustsec_values.specs.Failure.{IsMemory, IsOfKind, IsRefusal};
ghost use Rattle.rustsec_toml.specs.Fields.{list_of};
ghost use Rattle.rustsec_lock.specs.Lockfile.{AreValid, IsLockfileAt, IsLockfileRefusal, IsParseFailure, NamesLockfile, lockfile_of, package_in, package_of, packages_of, version_of};
ghost use Rattle.rustsec_lock.specs.Source.{source_id_of};

use crate::names::Name;
use crate::packages::Package;
use crate::source::SourceId;
use rustsec_files::{Folders, RealFolders};
use rustsec_toml::{Section, TablePlace, document};
use rustsec_values::{
    Error, ErrorKind, ExactClone, ExactEq, Items, Result, Text, beginning_of, file_error,
    text_error, with_place,
};
use rustsec_versions::read_version;
use semver::Version;
use std::alloc::{AllocError, Global};
use std::rt::Files;
use toml::value::Array;
use toml::{Table, Value};

/// Parses the version of a package.
fn version_in(alloc: Global, section: Section<'_>, text: &str) -> Result<Version>
    ensures ok { IfOk result (λ v. version_of text.now ≡ Some (parts_of v)) }
    ensures err { IfErr result (IsRefusal ErrorKind.Parse (version_of text.now ≡ None)) }
{
    match read_version(alloc, text, text) {
        Ok(version) => Ok(version),
        Err(e) => Err(section.with_key(alloc, "version", &e)),
    }
}

/// Parses the source of a package, which may be missing.
fn source_in(alloc: Global, section: Section<'_>, text: Option<&str>) -> Result<Option<SourceId>>
    ensures ok { IfOk result (λ s. read_optional source_id_of (option_map (λ t. t.now) text.entry) ≡ Some s) }
    ensures err { IfErr result (IsRefusal ErrorKind.Parse (read_optional source_id_of (option_map (λ t. t.now) text.entry) ≡ None)) }
{
    match text {
        Some(text) => {
            let source = section.parse_str(alloc, "source", text)?;
            Ok(Some(source))
        }
        None => Ok(None),
    }
}

/// Reads the package of a table.
fn package_in(alloc: Global, table: &Table, place: TablePlace<'_>) -> Result<Package>
    ensures ok { IfOk result (λ p. package_in (table_view table.now) ≡ Some p) }
    ensures err { IfErr result (IsRefusal ErrorKind.Parse (package_in (table_view table.now) ≡ None)) }
{
    let section = Section {
        table,
        name: "[[package]]",
        place,
    };
    let name: Name = section.parse_str(alloc, "name", section.string_at(alloc, "name")?)?;
    let version = version_in(alloc, section, section.string_at(alloc, "version")?)?;
    let source = source_in(alloc, section, section.optional_string_at(alloc, "source")?)?;
    let checksum = Text::from_option(alloc, section.optional_string_at(alloc, "checksum")?)?;
    Ok(Package {
        name,
        version,
        source,
        checksum,
    })
}

/// Reads the package of a value, which must be a table.
fn package_of(alloc: Global, value: &Value, place: TablePlace<'_>) -> Result<Package>
    ensures ok { IfOk result (λ p. package_of (view value.now) ≡ Some p) }
    ensures err { IfErr result (IsRefusal ErrorKind.Parse (package_of (view value.now) ≡ None)) }
{
    match value.as_table() {
        Some(table) => package_in(alloc, table, place),
        None => {
            let error = text_error(alloc, "not a package: found", value.type_str(), "a table");
            Err(place.with_place(alloc, "", error))
        }
    }
}

/// Returns the place of a package for a message: its position among the packages, from 1 on, and its name, if any.
fn place_of(alloc: Global, index: usize, value: &Value) -> std::result::Result<String, AllocError> {
    let place = index.saturating_add(1);
    match value.get("name").and_then(Value::as_str) {
        Some(name) => {
            let name = beginning_of(name, 60);
            format!(in alloc; "package {place}, `{name}`")
        }
        None => format!(in alloc; "package {place}"),
    }
}

/// Adds the place of a package before the message of an error about it.
fn with_package(alloc: Global, index: usize, value: &Value, error: &Error) -> Error
    ensures kind { IsOfKind error.now.kind result }
    ensures memory { IsMemory error.now → IsMemory result }
{
    match place_of(alloc, index, value) {
        Ok(place) => with_place(alloc, &place, error),
        Err(refused) => Error::from(refused),
    }
}

/// Returns the place of a package in the text of a lockfile.
fn package_place(text: &str, index: usize) -> TablePlace<'_> {
    TablePlace {
        text,
        path: &["package"],
        index: Some(index),
        element: None,
        line: 1,
    }
}

/// Appends the package of a value in the text of a lockfile, which is empty if it is unknown.
fn add_package(
    alloc: Global,
    packages: &mut Items<Package>,
    value: &Value,
    text: &str,
) -> Result<()>
    ensures ok { OnOk result (option_map (λ p. packages.old ++ p ∷ []) (package_of (view value.now)) ≡ Some packages.new) }
    ensures err { IfErr result (IsRefusal ErrorKind.Parse (package_of (view value.now) ≡ None)) }
{
    let place = package_place(text, packages.len());
    match package_of(alloc, value, place) {
        Ok(package) => {
            packages.push(package)?;
            Ok(())
        }
        Err(e) => Err(with_package(alloc, packages.len(), value, &e)),
    }
}

/// Reads the packages of an array, in order.
fn packages_in(alloc: Global, array: &Array, text: &str) -> Result<Items<Package>>
    ensures ok { IfOk result (λ ps. read_all package_of (list_of (array_view array.now)) ≡ Some ps) }
    ensures err { IfErr result (IsRefusal ErrorKind.Parse (read_all package_of (list_of (array_view array.now)) ≡ None)) }
{
    let mut packages = Items::new(alloc);
    for value in array {
        add_package(alloc, &mut packages, value, text)?;
    }
    Ok(packages)
}

/// Reads the packages of a lockfile's table in this text, which is empty if it is unknown.
#[tactic(auto, using(crate::proofs::ValidVersions::values_valid))]
fn packages_at(alloc: Global, table: &Table, text: &str) -> Result<Items<Package>>
    ensures ok { IfOk result (λ ps. packages_of (table_view table.now) ≡ Some ps) }
    ensures valid { IfOk result AreValid }
    ensures err { IfErr result (IsRefusal ErrorKind.Parse (packages_of (table_view table.now) ≡ None)) }
    ensures none { OnErr result (get_member (codes "package") (table_view table.now) ≢ None) }
{
    let section = Section {
        table,
        name: "the lockfile",
        place: TablePlace::whole(text),
    };
    let Some(value) = section.get("package") else {
        return Ok(Items::new(alloc));
    };
    let array = section.array_of(alloc, "package", value, "an array of tables")?;
    packages_in(alloc, array, text)
}

/// A lockfile: its packages, in order.
#[derive(Clone, Debug, PartialEq, Eq, Drop)]
pub struct Lockfile {
    /// The packages.
    pub packages: Items<Package>,
}

impl Lockfile {
    /// Reads the lockfile of a TOML table. The array `package` holds a table for each package, with the texts
    /// `name`, `version` and, if present, `source` and `checksum`. Without that key there are no packages.
    /// Other keys are ignored.
    ///
    /// # Errors
    ///
    /// `Parse` if a value is of another type, a name or a version is missing, or a text is refused; else
    /// `OutOfMemory`. The message names the package, by its position from 1 on and its name.
    pub fn from_table(alloc: Global, table: &Table) -> Result<Lockfile>
        ensures ok { IfOk result (λ l. packages_of (table_view table.now) ≡ Some l.packages) }
        ensures valid { IfOk result (λ l. AreValid l.packages) }
        ensures err { IfErr result (IsRefusal ErrorKind.Parse (packages_of (table_view table.now) ≡ None)) }

        // A lockfile without the key `package` takes no memory.
        ensures none { OnErr result (get_member (codes "package") (table_view table.now) ≢ None) }
    {
        Lockfile::from_document(alloc, table, "")
    }

    /// Reads the lockfile of a document's table, as `from_table`. The text of the document is for the messages alone: they
    /// then have the line and the column of the fault, both from 1 on, and the beginning of that line.
    ///
    /// # Errors
    ///
    /// As `from_table`.
    pub fn from_document(alloc: Global, table: &Table, text: &str) -> Result<Lockfile>
        ensures ok { IfOk result (λ l. packages_of (table_view table.now) ≡ Some l.packages) }
        ensures valid { IfOk result (λ l. AreValid l.packages) }
        ensures err { IfErr result (IsRefusal ErrorKind.Parse (packages_of (table_view table.now) ≡ None)) }

        // A lockfile without the key `package` takes no memory.
        ensures none { OnErr result (get_member (codes "package") (table_view table.now) ≢ None) }
    {
        let packages = packages_at(alloc, table, text)?;
        Ok(Lockfile { packages })
    }

    /// Parses a lockfile, which is a TOML document.
    ///
    /// # Errors
    ///
    /// `Parse` if the text is not a TOML document, or `from_table` refuses its table; else `OutOfMemory`. The message has
    /// the line and the column of the fault, both from 1 on, and the beginning of that line.
    pub fn from_str(alloc: Global, text: &str) -> Result<Lockfile>
        ensures ok { IfOk result (λ l. lockfile_of text.now ≡ Some l.packages) }
        ensures valid { IfOk result (λ l. AreValid l.packages) }
        ensures err { IfErr result (IsRefusal ErrorKind.Parse (lockfile_of text.now ≡ None)) }
    {
        let table = document(alloc, text, TablePlace::whole(text), "the lockfile")?;
        Lockfile::from_document(alloc, &table, text)
    }

    /// Reads the lockfile of a file's text. `path` is for the message alone.
    fn of_file(alloc: Global, path: &str, text: &str) -> Result<Lockfile>
        ensures ok { IfOk result (λ l. lockfile_of text.now ≡ Some l.packages) }
        ensures valid { IfOk result (λ l. AreValid l.packages) }
        ensures err { IfErr result (IsRefusal ErrorKind.Parse (lockfile_of text.now ≡ None)) }
        ensures names { IfErr result (IsParseFailure path.now) }
    {
        match Lockfile::from_str(alloc, text) {
            Ok(lockfile) => Ok(lockfile),
            Err(e) => Err(file_error(alloc, path, &e)),
        }
    }

    /// Reads the lockfile at a path of any folders.
    ///
    /// # Errors
    ///
    /// `Io` if the file cannot be read or is not UTF-8; else as `from_str`. The message of a refused text
    /// names the path, and the message of `from_str` is the cause.
    pub fn load_with<F: Folders>(alloc: Global, folders: &mut F, path: &str) -> Result<Lockfile>
        ensures ok { IfOk result (λ l. IsLockfileAt (F.allowed folders.old) path.now l.packages) }
        ensures valid { IfOk result (λ l. AreValid l.packages) }
        ensures err { IfErr result (IsLockfileRefusal (F.allowed folders.old) path.now) }
        ensures same { AllowSame (F.allowed folders.old) (F.allowed folders.new) }
        ensures names { IfErr result (λ e. IsParseFailure path.now e ⊎ F.refuses folders.old path.now e) }
        ensures opened { MatchResult result
            (λ l. IsLockfileAt (read_from F.opened (F.allowed folders.old)) path.now l.packages)
            (IsLockfileRefusal (read_from F.opened (F.allowed folders.old)) path.now) }
    {
        let text = folders.read(alloc, path)?;
        Lockfile::of_file(alloc, path, text.as_str())
    }

    /// Reads the lockfile at a path of the disk, as `load_with`.
    ///
    /// # Errors
    ///
    /// As `load_with`. Every message but that of out of memory names the path.
    pub fn load<R: Files>(rt: &R, alloc: Global, path: &str) -> Result<Lockfile>
        ensures ok { IfOk result (λ l. IsLockfileAt real_folders path.now l.packages) }
        ensures valid { IfOk result (λ l. AreValid l.packages) }
        ensures err { IfErr result (IsLockfileRefusal real_folders path.now) }
        ensures names { IfErr result (NamesLockfile path.now) }
        ensures opened { MatchResult result
            (λ l. IsLockfileAt (real_files R.File.remaining) path.now l.packages)
            (IsLockfileRefusal (real_files R.File.remaining) path.now) }
    {
        Lockfile::load_with(alloc, &mut RealFolders::new(rt), path)
    }

    /// Returns an equal lockfile.
    ///
    /// # Errors
    ///
    /// `OutOfMemory` alone.
    pub fn clone(&self, _alloc: Global) -> Result<Lockfile>
        ensures ok { IfOk result (λ l. l ≡ self.now) }
        ensures err { IfErr result IsMemory }
    {
        let copy = Clone::clone(self)?;
        Ok(copy)
    }
}

impl ExactClone for Lockfile {
    ghost use Rattle.std.proofs.Common.{rules};

    ghost exact = { λ x y e. Prim.search rules };
}

impl ExactEq for Lockfile {
    ghost use Rattle.rustsec_lock.specs.LockfileEquality.{lockfile_decides};

    ghost decides = { lockfile_decides };
}
