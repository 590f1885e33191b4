//! Exports an advisory as an OSV document.

ghost use Rattle.std.specs.Prelude.{◌≡◌, ◌⊎◌, ◌++◌, ◌∷◌, ℕ, [], All, IfErr, IfOk, List, None, Some, map, option_map, option_to_list};
ghost use Rattle.semver.specs.Parse.{Parts};
ghost use Rattle.rustsec_texts.specs.Licenses.{license_name};
ghost use Rattle.rustsec_values.specs.Failure.{IsRefusal};
ghost use Rattle.rustsec_versions.specs.acceptance.Lists.{affected};
ghost use Rattle.rustsec_versions.specs.order.Precedence.{IsVersion};
ghost use Rattle.rustsec_versions.specs.ranges.AcceptedRanges.{HasUnboundedInterval};
ghost use Rattle.rustsec_osv.specs.DocumentCodec.{AreEventsValid, IsReferenceAgain, document_tree, read_document};
ghost use Rattle.rustsec_advisory.specs.Advisory.{IsAdvisory};
ghost use Rattle.rustsec_osv.specs.EventObjects.{AreEventsRead};
ghost use Rattle.rustsec_osv.specs.Events.{events_say};
ghost use Rattle.rustsec_osv.specs.Export.{IsDocument, database_of, document_events, document_with, member_of, noon, package_of, severity_of};
ghost use Rattle.rustsec_osv.specs.References.{own_pages, reference_of, references_of};
ghost use Rattle.rustsec_osv.specs.declared.reference.OsvReference.{OsvReference};

use crate::affected::{OsvAffected, OsvPackage};
use crate::document::{MainOsvDatabaseSpecific, OsvAdvisory};
use crate::export::events::range_of;
use crate::export::members::{affected_of, database_of, noon, noon_of, package_of, severities_of};
use crate::export::references::{own_pages, with_addresses};
use crate::ranges::OsvJsonRange;
use crate::reference::OsvReference;
use crate::severity::OsvSeverity;
use rustsec_advisory::metadata::MetadataParts;
use rustsec_advisory::{Advisory, Affected, Metadata};
use rustsec_values::{ErrorKind, Items, Result, Text};
use std::alloc::{AllocError, Global};

/// The members of a document that are newly allocated, not moved from the advisory.
#[derive(Drop)]
struct Owned {
    modified: Text,
    published: Text,
    withdrawn: Option<Text>,
    license: Text,
    severity: Items<OsvSeverity>,
    package: OsvPackage,
    pages: Items<OsvReference>,
}

/// Builds the newly allocated members of an advisory's document.
fn build_owned(alloc: Global, metadata: &Metadata, modified: &str) -> Result<Owned>
    ensures owned { IfOk result (λ m. m ≡ record {
      modified = modified.now;
      published = noon metadata.now.date;
      withdrawn = option_map noon metadata.now.withdrawn;
      license = license_name metadata.now.license;
      severity = map severity_of (option_to_list metadata.now.cvss);
      «package» = package_of metadata.now.«package»;
      pages = m.pages;
    }) }
    ensures pages { IfOk result (λ m. own_pages metadata.now.«package» metadata.now.id.text ≡ Some m.pages) }
    ensures again { IfOk result (λ m. All IsReferenceAgain m.pages) }
    ensures err { IfErr result (IsRefusal ErrorKind.Parse (own_pages metadata.now.«package» metadata.now.id.text ≡ None)) }
{
    let pages = own_pages(alloc, &metadata.package, &metadata.id)?;
    Ok(Owned {
        modified: Text::from_str(alloc, modified)?,
        published: noon(alloc, &metadata.date)?,
        withdrawn: noon_of(alloc, &metadata.withdrawn)?,
        license: Text::from_str(alloc, metadata.license.spdx())?,
        severity: severities_of(alloc, &metadata.cvss)?,
        package: package_of(alloc, &metadata.package)?,
        pages,
    })
}

/// Assembles the document of an advisory's parts and the newly allocated members; `schema_version` stays unset.
fn assemble(
    alloc: Global,
    owned: Owned,
    parts: MetadataParts,
    affected: Option<Affected>,
    range: OsvJsonRange,
) -> std::result::Result<OsvAdvisory, AllocError>
    requires { All IsReferenceAgain owned.pages }
    ensures value { IfOk result (λ d. d ≡ record {
      schema_version = None;
      id = parts.subject.id;
      modified = owned.modified;
      published = owned.published;
      withdrawn = owned.withdrawn;
      aliases = parts.subject.aliases;
      related = parts.subject.related;
      summary = parts.title;
      details = parts.description;
      severity = owned.severity;
      affected = member_of owned.«package» (database_of parts.kinds) affected range ∷ [];
      references = owned.pages ++ map reference_of (option_to_list parts.origin.url ++ parts.origin.references);
      database_specific = record { license = Some owned.license };
    }) }
    ensures again { IfOk result (λ d. All IsReferenceAgain d.references) }
{
    let references = with_addresses(owned.pages, parts.origin)?;
    let database = database_of(parts.kinds);
    let affected = affected_of(alloc, owned.package, database, affected, range)?;
    let subject = parts.subject;
    Ok(OsvAdvisory {
        schema_version: None,
        id: subject.id,
        modified: owned.modified,
        published: owned.published,
        withdrawn: owned.withdrawn,
        aliases: subject.aliases,
        related: subject.related,
        summary: parts.title,
        details: parts.description,
        severity: owned.severity,
        affected,
        references,
        database_specific: MainOsvDatabaseSpecific {
            license: Some(owned.license),
        },
    })
}

/// Builds the document of an advisory's metadata, with this range.
fn document_with(
    alloc: Global,
    metadata: Metadata,
    affected: Option<Affected>,
    range: OsvJsonRange,
    modified: &str,
) -> Result<OsvAdvisory>
    ensures ok { IfOk result (λ d. (references : List OsvReference) × (references_of metadata ≡ Some references)
        × (d ≡ document_with metadata affected modified.now references range)) }
    ensures again { IfOk result (λ d. All IsReferenceAgain d.references) }
    ensures err { IfErr result (IsRefusal ErrorKind.Parse (references_of metadata ≡ None)) }
{
    let owned = build_owned(alloc, &metadata, modified)?;
    let document = assemble(alloc, owned, metadata.into_parts(), affected, range)?;
    Ok(document)
}

impl OsvAdvisory {
    /// Returns the OSV document of an advisory. `modified` is when it was last changed, and is not checked.
    ///
    /// # Errors
    ///
    /// `BadParam` if the list of ranges is empty, that is, if one merged interval of the requirements is unbounded
    /// on both sides, as that of `*`; else `Parse` if the address of the package's page or of the advisory's page
    /// is refused; else `OutOfMemory`.
    pub fn from_rustsec(alloc: Global, advisory: Advisory, modified: &str) -> Result<OsvAdvisory>
        ensures ok { IfOk result (IsDocument advisory modified.now) }

        // The document's events call a valid version affected exactly if the advisory does.
        ensures events { IfOk result (λ d. (v : Parts) → IsVersion v → events_say (document_events d) v ≡ affected advisory.versions v) }

        // The versions of the events are valid.
        ensures valid { IfOk result AreEventsValid }

        // In the document's tree, the JSON object of each event is read as this event.
        ensures objects { IfOk result (λ d. AreEventsRead (document_tree d) (document_events d)) }

        // If the advisory is that of a text, the document's tree is read as this document.
        ensures again { IfOk result (λ d. (t : List ℕ) → IsAdvisory t advisory → read_document (document_tree d) ≡ Some d) }
        ensures err { IfErr result (λ e. IsRefusal ErrorKind.BadParam (HasUnboundedInterval advisory.versions) e
            ⊎ IsRefusal ErrorKind.Parse ((¬ HasUnboundedInterval advisory.versions) × (references_of advisory.metadata ≡ None)) e) }
    {
        let (metadata, affected, versions) = advisory.into_parts();
        let range = range_of(alloc, &versions)?;
        document_with(alloc, metadata, affected, range, modified)
    }
}
