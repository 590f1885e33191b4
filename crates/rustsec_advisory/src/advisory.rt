//! Advisories, and the reader of their files.

ghost use Rattle.std.specs.Prelude.{◌≡◌, ◌⊎◌, [], ℕ, IfErr, IfOk, List, MatchResult, None, Some, is_some, nat_eq, option_and_then, string_bytes};
ghost use Rattle.std.specs.List.{starts_with};
ghost use Rattle.rustsec_lock.specs.Cvss.{cvss_severity};
ghost use Rattle.toml.specs.Parse.{parse_document};
ghost use Rattle.toml.specs.View.{table_view};
ghost use Rattle.rustsec_files.specs.Allowed.{AllowSame, read_from, real_files, real_folders};
ghost use Rattle.rustsec_advisory.specs.Advisory.{IsAdvisory, IsAdvisoryWith, IsFrontLine, IsOfDocument, document_text, header};
ghost use Rattle.rustsec_advisory.specs.FileRefusals.{IsAdvisoryAt, IsAdvisoryRefusal, IsOfFile, IsTextRefusal, NamesFile};
ghost use Rattle.rustsec_files.specs.Paths.{is_draft};
ghost use Rattle.rustsec_texts.specs.Parts.{opening, parts_of};
ghost use Rattle.rustsec_texts.specs.PatternCuts.{after_prefix};
ghost use Rattle.rustsec_advisory.specs.declared.advisory.Advisory as given;
ghost use Rattle.rustsec_values.specs.Failure.{IsMemory, IsOfKind, IsRefusal, out_of_memory};

use crate::affected::Affected;
use crate::front_matter;
use crate::metadata::Metadata;
use rustsec_files::path::FilePath;
use rustsec_files::{Folders, RealFolders};
use rustsec_lock::Severity;
use rustsec_texts::{Date, Id, Parts};
use rustsec_toml::{Place, Section, TablePlace, document, key_at};
use rustsec_values::{Error, ErrorKind, ExactClone, ExactEq, Result, file_error};
use rustsec_versions::Versions;
use std::alloc::{AllocError, Global};
use std::rt::Files;
use toml::Table;

/// A security advisory: its metadata, the platforms and functions that are affected, and the requirements that
/// determine the affected versions.
#[derive(Clone, Debug, PartialEq, Eq)]
pub struct Advisory {
    /// The table `advisory` of the document, with the title and the description.
    pub metadata: Metadata,
    /// The table `affected`, if present.
    pub affected: Option<Affected>,
    /// The requirements of the table `versions`.
    pub versions: Versions,
}

/// Hand-written: a derived `Drop` is proved again, field by field, at every exit of every owner.
impl Drop for Advisory {
    fn drop(self) {
        let Advisory {
            metadata: _,
            affected: _,
            versions: _,
        } = self;
    }
}

/// Returns whether a front matter begins with the header of the table `advisory`.
fn has_header(front: &str) -> bool
    ensures { result ≡ starts_with nat_eq front.now header }
{
    front.starts_with("[advisory]")
}

/// Returns the text of the document: the front matter, with the line `[advisory]` before it unless it begins so.
fn document_text(alloc: Global, front: &str) -> std::result::Result<String, AllocError>
    ensures { IfOk result (λ s. string_bytes s ≡ document_text front.now) }
{
    let mut text = String::new(alloc);
    if !has_header(front) {
        text.push_str("[advisory]\n")?;
    }
    text.push_str(front)?;
    Ok(text)
}

/// Returns the keys that lead to the table `advisory` in a front matter, which may leave out its header.
pub(crate) fn header_keys(front: &str) -> &'static [&'static str] {
    if has_header(front) {
        &["advisory"]
    } else {
        &[]
    }
}

/// Returns the text after the opening of an advisory's file, or the whole text if it has none.
fn after_opening(text: &str) -> &str
    ensures { (body : List ℕ) → after_prefix opening text.now ≡ Some body → result.now ≡ body }
{
    match text.strip_prefix("```toml") {
        Some(body) => body,
        None => text,
    }
}

/// Returns the line of the file in which the front matter begins, from 1 on: after the opening, and after white space.
pub fn first_line(text: &str) -> usize
    ensures { IsFrontLine text.now result }
{
    Place::of_end(text, after_opening(text).trim_start()).line
}

/// Returns what is wrong with a front matter whose first line is not its header.
fn late_words(front: &str) -> &'static str {
    if front.trim_start().starts_with('#') {
        "a comment is above the header `[advisory]`, expected the header in the first line of the front matter"
    } else {
        "the first line of the front matter is not `[advisory]`, expected the header there, written so"
    }
}

/// Returns the error for a front matter with this header further below, before which it was added, or the given error
/// for one without it.
fn late_header_error(alloc: Global, front: TablePlace<'_>, error: Error) -> Error
    ensures kind { IsOfKind ErrorKind.Parse error → IsOfKind ErrorKind.Parse result }
    ensures memory { IsMemory error → IsMemory result }
{
    if has_header(front.text) || error.kind() == ErrorKind::OutOfMemory {
        return error;
    }
    match key_at(alloc, front.text, &["advisory"]) {
        Ok(Some(_)) => {
            let late = Error::new(alloc, ErrorKind::Parse, late_words(front.text));
            front.with_place(alloc, "advisory", late)
        }
        Ok(None) => error,
        Err(refused) => Error::from(refused),
    }
}

/// Returns the place of a front matter that begins in this line of a file.
pub(crate) fn front_place(front: &str, line: usize) -> TablePlace<'_>
    ensures text { result.text.now ≡ front.now }
    ensures path { result.path.now ≡ [] }
    ensures index { result.index ≡ None }
    ensures element { result.element ≡ None }
    ensures line { result.line ≡ line }
{
    TablePlace {
        text: front,
        path: &[],
        index: None,
        element: None,
        line,
    }
}

/// Parses the document of a front matter that begins in this line of a file.
fn front_document(alloc: Global, front: &str, line: usize) -> Result<Table>
    ensures ok { IfOk result (λ t. parse_document (document_text front.now) ≡ Some (table_view t)) }
    ensures err { IfErr result (IsRefusal ErrorKind.Parse (parse_document (document_text front.now) ≡ None)) }
{
    let text = document_text(alloc, front)?;
    let place = front_place(front, line);
    match document(alloc, &text, place, "the front matter") {
        Ok(table) => Ok(table),
        Err(e) => Err(late_header_error(alloc, place, e)),
    }
}

/// Reads the advisory of a document, with this title and description.
fn of_document(
    alloc: Global,
    document: Section<'_>,
    title: &str,
    description: &str,
) -> Result<Advisory>
    ensures ok { IfOk result (IsOfDocument (table_view document.entry.table.now) title.now description.now) }
    ensures err { IfErr result (IsRefusal ErrorKind.Parse
        ((a : given.Advisory) → ¬ IsOfDocument (table_view document.entry.table.now) title.now description.now a)) }
{
    let table = document.table_at(alloc, "advisory")?;
    let metadata = front_matter::metadata(
        alloc,
        Section {
            table,
            name: "[advisory]",
            place: document.place.at(header_keys(document.place.text)),
        },
        title,
        description,
    )?;
    let table = document.table_at(alloc, "versions")?;
    let versions = front_matter::versions(
        alloc,
        Section {
            table,
            name: "[versions]",
            place: document.place.at(&["versions"]),
        },
    )?;
    let affected = front_matter::affected_at(alloc, document, "affected")?;
    Ok(Advisory {
        metadata,
        affected,
        versions,
    })
}

/// Returns the text from the place on at which a part of an advisory is missing: the Markdown after the front matter, or
/// the whole text if the front matter has no end.
fn missing_from(text: &str) -> &str {
    match text
        .strip_prefix("```toml")
        .and_then(|body| body.split_once("\n```"))
    {
        Some((_, markdown)) => markdown.trim_start(),
        None => text,
    }
}

/// Returns the parts of a text. An error says where the missing part is expected.
fn parts_in(alloc: Global, text: &str) -> Result<Parts<'_>>
    ensures ok { IfOk result (λ p. parts_of text.now ≡ Some (record {
      front_matter = p.front_matter.now;
      markdown = p.markdown.now;
      title = p.title.now;
      description = p.description.now;
    })) }
    ensures err { IfErr result (IsRefusal ErrorKind.Parse (parts_of text.now ≡ None)) }
{
    match Parts::parse(alloc, text) {
        Ok(parts) => Ok(parts),
        Err(e) => Err(TablePlace::whole(text).with_place_of(alloc, missing_from(text), e)),
    }
}

/// Parses the advisory of a text with these parts, and returns the document of its front matter too.
fn read_parts(alloc: Global, text: &str, parts: Parts<'_>) -> Result<(Advisory, Table)>
    requires { parts_of text.now ≡ Some (record {
      front_matter = parts.front_matter.now;
      markdown = parts.markdown.now;
      title = parts.title.now;
      description = parts.description.now;
    }) }
    ensures ok { IfOk result (λ r. IsAdvisoryWith text.now (table_view r.1) r.0) }
    ensures err { IfErr result (IsRefusal ErrorKind.Parse ((a : given.Advisory) → ¬ IsAdvisory text.now a)) }
{
    let line = first_line(text);
    let document = front_document(alloc, parts.front_matter, line)?;
    let whole = Section {
        table: &document,
        name: "the front matter",
        place: front_place(parts.front_matter, line),
    };
    let advisory = of_document(alloc, whole, parts.title, parts.description)?;
    Ok((advisory, document))
}

/// Parses an advisory, and returns the document of its front matter too.
pub(crate) fn read(alloc: Global, text: &str) -> Result<(Advisory, Table)>
    ensures ok { IfOk result (λ r. IsAdvisoryWith text.now (table_view r.1) r.0) }
    ensures err { IfErr result (IsRefusal ErrorKind.Parse ((a : given.Advisory) → ¬ IsAdvisory text.now a)) }
{
    let parts = parts_in(alloc, text)?;
    read_parts(alloc, text, parts)
}

impl Advisory {
    /// Parses an advisory: front matter between fences, then Markdown with a title.
    ///
    /// # Errors
    ///
    /// `Parse` if the text does not have such parts, its front matter is not a TOML document, a required
    /// key is missing, a value is of another kind or refused, or the versions are not accepted; else
    /// `OutOfMemory`.
    pub fn from_str(alloc: Global, text: &str) -> Result<Advisory>
        ensures ok { IfOk result (IsAdvisory text.now) }
        ensures only { IfOk result (λ a. (b : given.Advisory) → IsAdvisory text.now b → b ≡ a) }
        ensures err { IfErr result (IsRefusal ErrorKind.Parse ((a : given.Advisory) → ¬ IsAdvisory text.now a)) }
    {
        let (advisory, _) = read(alloc, text)?;
        Ok(advisory)
    }

    /// Reads the advisory of a file's text. `path` is for the message alone.
    fn of_file(alloc: Global, path: &str, text: &str) -> Result<Advisory>
        ensures ok { IfOk result (IsAdvisory text.now) }
        ensures err { IfErr result (IsTextRefusal text.now) }
        ensures names { IfErr result (IsOfFile path.now) }
    {
        match Advisory::from_str(alloc, text) {
            Ok(advisory) => Ok(advisory),
            Err(e) => Err(file_error(alloc, path, &e)),
        }
    }

    /// Reads the advisory of the file at a path of any folders.
    ///
    /// # Errors
    ///
    /// `Io` if the file cannot be read or is not UTF-8; then as `from_str`. The message of a refused text
    /// names the path; the cause is what `from_str` says, followed by its own cause.
    pub fn load_file_with<F: Folders>(
        alloc: Global,
        folders: &mut F,
        path: &str,
    ) -> Result<Advisory>
        ensures ok { IfOk result (IsAdvisoryAt (F.allowed folders.old) path.now) }
        ensures err { IfErr result (IsAdvisoryRefusal (F.allowed folders.old) path.now) }
        ensures same { AllowSame (F.allowed folders.old) (F.allowed folders.new) }
        ensures names { IfErr result (λ e. F.refuses folders.old path.now e ⊎ IsOfFile path.now e) }
        ensures opened { MatchResult result
            (IsAdvisoryAt (read_from F.opened (F.allowed folders.old)) path.now)
            (IsAdvisoryRefusal (read_from F.opened (F.allowed folders.old)) path.now) }
    {
        let text = folders.read(alloc, path)?;
        Advisory::of_file(alloc, path, text.as_str())
    }

    /// Reads the advisory of the file at a path of the disk, as `load_file_with`.
    ///
    /// # Errors
    ///
    /// As `load_file_with`. Every message but that of out of memory names the path.
    pub fn load_file<R: Files>(rt: &R, alloc: Global, path: &str) -> Result<Advisory>
        ensures ok { IfOk result (IsAdvisoryAt real_folders path.now) }
        ensures err { IfErr result (IsAdvisoryRefusal real_folders path.now) }
        ensures names { IfErr result (NamesFile path.now) }
        ensures opened { MatchResult result
            (IsAdvisoryAt (real_files R.File.remaining) path.now)
            (IsAdvisoryRefusal (real_files R.File.remaining) path.now) }
    {
        Advisory::load_file_with(alloc, &mut RealFolders::new(rt), path)
    }

    /// Returns the ID.
    pub fn id(&self) -> &Id
        ensures { result.now ≡ self.now.metadata.id }
    {
        &self.metadata.id
    }

    /// Returns the title.
    pub fn title(&self) -> &str
        ensures { result.now ≡ self.now.metadata.title }
    {
        self.metadata.title.as_str()
    }

    /// Returns the description.
    pub fn description(&self) -> &str
        ensures { result.now ≡ self.now.metadata.description }
    {
        self.metadata.description.as_str()
    }

    /// Returns the day on which the vulnerability was disclosed.
    pub fn date(&self) -> &Date
        ensures { result.now ≡ self.now.metadata.date }
    {
        &self.metadata.date
    }

    /// Returns the severity of the CVSS vector, if there is a vector of version 3.
    pub fn severity(&self) -> Option<Severity>
        ensures { result ≡ option_and_then cvss_severity self.now.metadata.cvss }
    {
        match &self.metadata.cvss {
            Some(cvss) => cvss.severity(),
            None => None,
        }
    }

    /// Returns whether it was withdrawn.
    pub fn withdrawn(&self) -> bool
        ensures { result ≡ is_some self.now.metadata.withdrawn }
    {
        self.metadata.withdrawn.is_some()
    }

    /// Takes the advisory apart. This takes no memory.
    pub fn into_parts(self) -> (Metadata, Option<Affected>, Versions)
        ensures { result ≡ (self.metadata, self.affected, self.versions) }
    {
        let Advisory {
            metadata,
            affected,
            versions,
        } = self;
        (metadata, affected, versions)
    }

    /// Returns whether a path is that of a draft: whether its file name begins with `RUSTSEC-0000-0000.`.
    pub fn is_draft(path: &str) -> bool
        ensures { result ≡ is_draft path.now }
    {
        FilePath::of(path).is_draft()
    }

    /// Returns an equal advisory.
    ///
    /// # Errors
    ///
    /// `OutOfMemory` alone.
    pub fn clone(&self, _alloc: Global) -> Result<Advisory>
        ensures ok { IfOk result (λ a. a ≡ self.now) }
        ensures err { IfErr result IsMemory }
    {
        let copy = Clone::clone(self)?;
        Ok(copy)
    }
}

impl ExactClone for Advisory {
    ghost use Rattle.std.proofs.Common.{rules};

    ghost exact = { λ x y e. Prim.search rules };
}

impl ExactEq for Advisory {
    ghost use Rattle.rustsec_advisory.specs.EqualityLaws.{advisory_decides};

    ghost decides = { advisory_decides };
}
