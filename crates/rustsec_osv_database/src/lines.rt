//! Exports advisories, a line of JSON each.

ghost use Rattle.std.specs.Prelude.{◌≡◌, ◌≢◌, ◌++◌, ◌||◌, IfErr, IfOk, OnOk, string_bytes};
ghost use Rattle.serde_json.specs.View.{view};
ghost use Rattle.rustsec_osv.specs.Documents.{Document};
ghost use Rattle.rustsec_osv.specs.Export.{IsDocument};
ghost use Rattle.rustsec_osv.specs.DocumentCodec.{document_tree};
ghost use Rattle.rustsec_json.specs.Lines.{tree_line};
ghost use Rattle.rustsec_values.specs.Failure.{IsMemory};
ghost use Rattle.rustsec_values.specs.declared.error.ErrorKind.TheVariants as kind;
ghost use Rattle.rustsec_osv_database.specs.Lines.{AreParts, HasNoDocument, IsPart, Part, chosen};

use crate::exported::{Choice, Exported};
use rustsec_advisory::Advisory;
use rustsec_json::tree_line;
use rustsec_osv::OsvAdvisory;
use rustsec_osv_rules::normalized;
use rustsec_values::Result;
use serde_json::Value;
use std::alloc::{AllocError, Global};

/// Returns the document that is written for a document.
fn chosen(alloc: Global, choice: Choice, document: OsvAdvisory) -> Result<OsvAdvisory>
    ensures ok { IfOk result (λ d. d ≡ chosen choice document) }
    ensures err { IfErr result IsMemory }
{
    if choice.normalized {
        return normalized(alloc, document);
    }
    Ok(document)
}

/// Returns the document of an advisory.
pub(crate) fn exported_document(
    alloc: Global,
    advisory: &Advisory,
    modified: &str,
) -> Result<OsvAdvisory>
    ensures ok { IfOk result (IsDocument advisory.now modified.now) }
    ensures err { IfErr result (λ e. e.kind ≢ kind.OutOfMemory → HasNoDocument advisory.now) }
{
    let copy = advisory.clone(alloc)?;
    OsvAdvisory::from_rustsec(alloc, copy, modified)
}

/// Returns the document that is written for an advisory.
fn chosen_of(
    alloc: Global,
    advisory: &Advisory,
    modified: &str,
    choice: Choice,
) -> Result<OsvAdvisory>
    ensures ok { IfOk result (λ d. (whole : Document) × (IsDocument advisory.now modified.now whole × (d ≡ chosen choice whole))) }
    ensures err { IfErr result (λ e. e.kind ≢ kind.OutOfMemory → HasNoDocument advisory.now) }
{
    let document = exported_document(alloc, advisory, modified)?;
    chosen(alloc, choice, document)
}

/// Builds the tree of a document.
pub(crate) fn tree_of(
    alloc: Global,
    document: &OsvAdvisory,
) -> std::result::Result<Value, AllocError>
    ensures { IfOk result (λ v. view v ≡ document_tree document.now) }
{
    match document.to_value(alloc) {
        Ok(tree) => Ok(tree),
        Err(_) => Err(AllocError),
    }
}

/// Returns the text of a document's tree on one line.
fn document_line(alloc: Global, document: &OsvAdvisory) -> std::result::Result<String, AllocError>
    ensures { IfOk result (λ t. string_bytes t ≡ tree_line (document_tree document.now)) }
{
    let tree = tree_of(alloc, document)?;
    tree_line(alloc, &tree)
}

/// Writes what there is of an advisory: its line, or a note that it has no document.
fn push_part(
    alloc: Global,
    exported: &mut Exported,
    advisory: &Advisory,
    modified: &str,
    choice: Choice,
) -> std::result::Result<(), AllocError>
    ensures { OnOk result ((p : Part) × (IsPart choice modified.now advisory.now p
        × (string_bytes exported.new.text ≡ string_bytes exported.old.text ++ p.line)
        × (exported.new.missing ≡ (exported.old.missing || p.missing)))) }
{
    if choice.is_left_out(advisory) {
        return Ok(());
    }
    match chosen_of(alloc, advisory, modified, choice) {
        Ok(document) => {
            let line = document_line(alloc, &document)?;
            exported.push_line(&line)
        }
        Err(error) => exported.push_missing(alloc, advisory, &error),
    }
}

/// Exports advisories in their order: for each one a line of JSON, its OSV document, with `modified` as the time of its
/// last change, which is not checked. An advisory that is left out, or that has no document, has no line; for the latter
/// there is a note.
///
/// # Errors
///
/// Out of memory.
pub fn export(
    alloc: Global,
    advisories: &[Advisory],
    modified: &str,
    choice: Choice,
) -> std::result::Result<Exported, AllocError>
    ensures { IfOk result (λ e. AreParts choice modified.now advisories.now (string_bytes e.text) e.missing) }
{
    let mut exported = Exported::new(alloc);
    for advisory in advisories {
        push_part(alloc, &mut exported, advisory, modified, choice)?;
    }
    Ok(exported)
}
