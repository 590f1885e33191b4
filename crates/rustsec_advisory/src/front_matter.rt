//! Reads the tables of a front matter's document.

ghost use Rattle.std.specs.Prelude.{◌≡◌, ◌≢◌, [], IfErr, IfOk, List, None, OnOk, Option, Some};
ghost use Rattle.toml.specs.Data.{as_str, get_member};
ghost use Rattle.toml.specs.View.{table_view};
ghost use Rattle.rustsec_advisory.specs.Advisory.{AreVersions, IsAffectedAt};
ghost use Rattle.rustsec_advisory.specs.Affected.{AreFunctions, AreFunctionsAt, Function, IsAffected};
ghost use Rattle.rustsec_advisory.specs.Metadata.{AreKinds, AreTerms, IsMetadata, IsOrigin, IsSubject};
ghost use Rattle.rustsec_advisory.specs.declared.affected.Affected as affected;
ghost use Rattle.rustsec_advisory.specs.declared.metadata.Kinds as kinds;
ghost use Rattle.rustsec_advisory.specs.declared.metadata.Metadata as metadata;
ghost use Rattle.rustsec_advisory.specs.declared.metadata.Origin as origin;
ghost use Rattle.rustsec_advisory.specs.declared.metadata.Subject as subject;
ghost use Rattle.rustsec_advisory.specs.declared.metadata.Terms as terms;
ghost use Rattle.rustsec_texts.specs.Paths.{path_of};
ghost use Rattle.rustsec_toml.specs.Fields.{defaulted};
ghost use Rattle.rustsec_values.specs.Failure.{IsMemory, IsOfKind, IsRefusal, out_of_memory};
ghost use Rattle.rustsec_versions.specs.acceptance.Lists.{Lists};

use crate::affected::Affected;
use crate::metadata::{Kinds, Metadata, MetadataParts, Origin, Subject, Terms};
use crate::requirements::{optional_requirements_at, requirements, requirements_at};
use rustsec_texts::{FunctionPath, License};
use rustsec_toml::{Section, TablePlace};
use rustsec_values::{Error, ErrorKind, Result, SortedMap, Text};
use rustsec_versions::{Requirements, UnaffectedRange, Versions};
use semver::VersionReq;
use std::alloc::{AllocError, Global};
use toml::Table;

/// Reads the subject from the table `advisory`: names, package and day.
fn subject(alloc: Global, section: Section<'_>) -> Result<Subject>
    ensures ok { IfOk result (λ s. IsSubject (table_view section.entry.table.now) s) }
    ensures err { IfErr result (IsRefusal ErrorKind.Parse ((s : subject.Subject) → ¬ IsSubject (table_view section.entry.table.now) s)) }
{
    Ok(Subject {
        id: section.required(alloc, "id")?,
        name: section.required(alloc, "package")?,
        date: section.required(alloc, "date")?,
        aliases: section.list(alloc, "aliases")?,
        related: section.list(alloc, "related")?,
    })
}

/// Reads the classification of the vulnerability from the table `advisory`.
fn kinds(alloc: Global, section: Section<'_>) -> Result<Kinds>
    ensures ok { IfOk result (λ k. AreKinds (table_view section.entry.table.now) k) }
    ensures err { IfErr result (IsRefusal ErrorKind.Parse ((k : kinds.Kinds) → ¬ AreKinds (table_view section.entry.table.now) k)) }
{
    Ok(Kinds {
        collection: section.optional(alloc, "collection")?,
        categories: section.list(alloc, "categories")?,
        keywords: section.list(alloc, "keywords")?,
        cvss: section.optional(alloc, "cvss")?,
        informational: section.optional(alloc, "informational")?,
    })
}

/// Reads the references, the source and the address from the table `advisory`.
fn origin(alloc: Global, section: Section<'_>) -> Result<Origin>
    ensures ok { IfOk result (λ o. IsOrigin (table_view section.entry.table.now) o) }
    ensures err { IfErr result (IsRefusal ErrorKind.Parse ((o : origin.Origin) → ¬ IsOrigin (table_view section.entry.table.now) o)) }
{
    Ok(Origin {
        references: section.list(alloc, "references")?,
        source: section.optional(alloc, "source")?,
        url: section.optional(alloc, "url")?,
    })
}

/// Reads the withdrawal, the license and the expectation of deletion from the table `advisory`.
fn terms(alloc: Global, section: Section<'_>) -> Result<Terms>
    ensures ok { IfOk result (λ t. AreTerms (table_view section.entry.table.now) t) }
    ensures err { IfErr result (IsRefusal ErrorKind.Parse ((t : terms.Terms) → ¬ AreTerms (table_view section.entry.table.now) t)) }
{
    Ok(Terms {
        withdrawn: section.optional(alloc, "withdrawn")?,
        license: section.or_default(alloc, "license", License::default())?,
        expect_deleted: section.bool_or_false(alloc, "expect-deleted")?,
    })
}

/// Checks that the string at a key is missing or empty.
fn no_text_at(alloc: Global, section: Section<'_>, key: &str) -> Result<()>
    ensures ok { OnOk result (defaulted [] as_str key.now (table_view section.entry.table.now) ≡ Some []) }
    ensures err { IfErr result (IsRefusal ErrorKind.Parse (defaulted [] as_str key.now (table_view section.entry.table.now) ≢ Some [])) }
{
    let Some(value) = section.get(key) else {
        return Ok(());
    };
    match value.as_str() {
        Some("") => Ok(()),
        _ => Err(section.unexpected_error(
            alloc,
            key,
            value,
            "no text, as the Markdown below gives it",
        )),
    }
}

/// Reads the table `advisory`, with the title and the description of the Markdown.
pub fn metadata(
    alloc: Global,
    section: Section<'_>,
    title: &str,
    description: &str,
) -> Result<Metadata>
    ensures ok { IfOk result (IsMetadata (table_view section.entry.table.now) title.now description.now) }
    ensures err { IfErr result (IsRefusal ErrorKind.Parse
        ((m : metadata.Metadata) → ¬ IsMetadata (table_view section.entry.table.now) title.now description.now m)) }
{
    no_text_at(alloc, section, "title")?;
    no_text_at(alloc, section, "description")?;
    let subject = subject(alloc, section)?;
    let kinds = kinds(alloc, section)?;
    let origin = origin(alloc, section)?;
    let terms = terms(alloc, section)?;
    let title = Text::from_str(alloc, title)?;
    let description = Text::from_str(alloc, description)?;
    let parts = MetadataParts {
        title,
        description,
        subject,
        kinds,
        origin,
        terms,
    };
    Ok(Metadata::from_parts(parts))
}

/// Returns whether a requirement is not admissible.
fn is_refused(alloc: Global, requirement: &VersionReq) -> std::result::Result<bool, AllocError> {
    let Err(error) = UnaffectedRange::from_req(alloc, requirement) else {
        return Ok(false);
    };
    if error.kind() == ErrorKind::OutOfMemory {
        return Err(AllocError);
    }
    Ok(true)
}

/// Returns the position of the first requirement at a key that is not admissible.
fn refused_position(alloc: Global, section: Section<'_>, key: &str) -> Result<Option<usize>> {
    let requirements = optional_requirements_at(alloc, section, key)?;
    for (position, requirement) in requirements.iter().enumerate() {
        if is_refused(alloc, requirement)? {
            return Ok(Some(position));
        }
    }
    Ok(None)
}

/// A list of requirements at fault: its key, and the position of its first requirement that is not admissible.
#[derive(Clone, Copy)]
struct FaultyList {
    key: &'static str,
    position: Option<usize>,
}

/// Returns the list at fault. If all requirements are admissible, an unaffected one overlaps another.
fn list_at_fault(alloc: Global, section: Section<'_>) -> Result<FaultyList> {
    let key = "patched";
    let position = refused_position(alloc, section, key)?;
    if position.is_some() {
        return Ok(FaultyList { key, position });
    }
    let key = "unaffected";
    let position = refused_position(alloc, section, key)?;
    Ok(FaultyList { key, position })
}

/// Adds the place of a list of requirements, or of a requirement in it, to an error.
fn with_list_place(alloc: Global, place: TablePlace<'_>, list: FaultyList, error: Error) -> Error
    ensures kind { IsOfKind error.kind result }
    ensures memory { IsMemory error → IsMemory result }
{
    match list.position {
        Some(position) => place
            .at_element(position)
            .with_place(alloc, list.key, error),
        None => place.with_place(alloc, list.key, error),
    }
}

/// What lists of requirements have to be.
const LISTS: &str =
    "requirements of one interval each, no unaffected one of which overlaps another";

/// Turns an error about lists of requirements into the error of the list at fault, in the table that holds them.
fn list_error(alloc: Global, section: Section<'_>, error: Error) -> Error
    ensures memory { error ≡ out_of_memory → result ≡ out_of_memory }
    ensures kind { IsOfKind ErrorKind.Parse result }
{
    if error.kind() == ErrorKind::OutOfMemory {
        return Error::from(AllocError);
    }
    // Both lists were read before, so only a lack of memory is an error here.
    let Ok(list) = list_at_fault(alloc, section) else {
        return Error::from(AllocError);
    };
    let (key, name, message) = (list.key, section.name, error.message());
    let error = match format!(in alloc; "key `{key}` in {name}: {message}, expected {LISTS}") {
        Ok(message) => Error::with_cause(alloc, ErrorKind::Parse, &message, error.cause()),
        Err(refused) => Error::from(refused),
    };
    with_list_place(alloc, section.place, list, error)
}

/// Reads the lists of the table `versions`.
pub fn versions(alloc: Global, section: Section<'_>) -> Result<Versions>
    ensures ok { IfOk result (AreVersions (table_view section.entry.table.now)) }
    ensures err { IfErr result (IsRefusal ErrorKind.Parse ((ls : Lists) → ¬ AreVersions (table_view section.entry.table.now) ls)) }
{
    let patched = requirements_at(alloc, section, "patched")?;
    let unaffected = optional_requirements_at(alloc, section, "unaffected")?;
    match Versions::new(alloc, patched, unaffected) {
        Ok(versions) => Ok(versions),
        Err(e) => Err(list_error(alloc, section, e)),
    }
}

/// Returns the section of the table of functions, below the section `affected`.
fn functions_section<'a>(affected: Section<'a>, table: &'a Table) -> Section<'a> {
    Section {
        table,
        name: "[affected.functions]",
        place: affected.place.at(&["affected", "functions"]),
    }
}

/// Parses a key of the table of functions as a path.
fn function_path(alloc: Global, section: Section<'_>, key: &str) -> Result<FunctionPath>
    ensures ok { IfOk result (λ p. path_of key.now ≡ Some p) }
    ensures err { IfErr result (IsRefusal ErrorKind.Parse (path_of key.now ≡ None)) }
{
    section.parse_str(alloc, key, key)
}

/// Reads the functions of a table, by their paths. `section` is for messages.
fn functions(
    alloc: Global,
    section: Section<'_>,
    table: &Table,
) -> Result<SortedMap<FunctionPath, Requirements>>
    ensures ok { IfOk result (AreFunctions (table_view table.now)) }
    ensures err { IfErr result (IsRefusal ErrorKind.Parse ((fs : List Function) → ¬ AreFunctions (table_view table.now) fs)) }
{
    let mut functions = SortedMap::new(alloc);
    for (key, value) in table.iter() {
        let name = key.as_str();
        let path = function_path(alloc, section, name)?;
        let reqs = requirements(alloc, section, name, value)?;
        functions.insert(path, Requirements::from(reqs))?;
    }
    Ok(functions)
}

/// Reads the functions at a key; none if the key is missing.
fn functions_at(
    alloc: Global,
    section: Section<'_>,
    key: &str,
) -> Result<SortedMap<FunctionPath, Requirements>>
    ensures ok { IfOk result (AreFunctionsAt (get_member key.now (table_view section.entry.table.now))) }
    ensures err { IfErr result (IsRefusal ErrorKind.Parse
        ((fs : List Function) → ¬ AreFunctionsAt (get_member key.now (table_view section.entry.table.now)) fs)) }
{
    let Some(value) = section.get(key) else {
        return Ok(SortedMap::new(alloc));
    };
    match value.as_table() {
        Some(inner) => functions(alloc, functions_section(section, inner), inner),
        None => Err(section.unexpected_error(alloc, key, value, "a table")),
    }
}

/// Reads the table `affected`.
fn affected_in(alloc: Global, section: Section<'_>) -> Result<Affected>
    ensures ok { IfOk result (IsAffected (table_view section.entry.table.now)) }
    ensures err { IfErr result (IsRefusal ErrorKind.Parse ((a : affected.Affected) → ¬ IsAffected (table_view section.entry.table.now) a)) }
{
    let arch = section.list(alloc, "arch")?;
    let os = section.list(alloc, "os")?;
    let functions = functions_at(alloc, section, "functions")?;
    Ok(Affected {
        arch,
        os,
        functions,
    })
}

/// Reads the table `affected` at a key, if the key is present.
pub fn affected_at(alloc: Global, section: Section<'_>, key: &str) -> Result<Option<Affected>>
    ensures ok { IfOk result (IsAffectedAt (get_member key.now (table_view section.entry.table.now))) }
    ensures err { IfErr result (IsRefusal ErrorKind.Parse
        ((a : Option affected.Affected) → ¬ IsAffectedAt (get_member key.now (table_view section.entry.table.now)) a)) }
{
    let Some(value) = section.get(key) else {
        return Ok(None);
    };
    let Some(table) = value.as_table() else {
        return Err(section.unexpected_error(alloc, key, value, "a table"));
    };
    let affected = affected_in(
        alloc,
        Section {
            table,
            name: "[affected]",
            place: section.place.at(&["affected"]),
        },
    )?;
    Ok(Some(affected))
}
