//! Builds and reads the trees of documents.

ghost use Rattle.std.specs.Prelude.{◌≡◌, IfErr, IfOk, None, OnOk, Some, codes, option_map};
ghost use Rattle.serde_json.specs.Data.{string};
ghost use Rattle.serde_json.specs.View.{members_view, view};
ghost use Rattle.rustsec_json.specs.Codecs.{put_some};
ghost use Rattle.rustsec_json.specs.Fields.{defaulted, text};
ghost use Rattle.rustsec_osv.specs.DocumentCodec.{AreEventsValid, IsDocumentAgain, document_tree, license_codec, read_document, read_severity, reference_codec, severity_tree};
ghost use Rattle.rustsec_osv.specs.DocumentKinds.{reference_kind_name, reference_kind_of};
ghost use Rattle.rustsec_osv.specs.Documents.{Document, ranges_of};
ghost use Rattle.rustsec_osv.specs.EventCodec.{version_of, version_tree};
ghost use Rattle.rustsec_osv.specs.EventObjects.{AreEventsRead};
ghost use Rattle.rustsec_osv.specs.Export.{document_events};
ghost use Rattle.rustsec_values.specs.Failure.{IsMemory, IsRefusal};
ghost use Rattle.semver.specs.Identifiers.{parts_of};

use crate::affected::OsvAffected;
use crate::codec::event::version_tree;
use crate::document::{MainOsvDatabaseSpecific, OsvAdvisory};
use crate::export::members::severity_of;
use crate::reference::{OsvReference, OsvReferenceKind};
use crate::severity::OsvSeverity;
use rustsec_json::{
    FromTree, ToTree, fields_of, list_at, member, optional_at, put_at, put_if, required_at,
    unexpected_error,
};
use rustsec_lock::Cvss;
use rustsec_texts::Id;
use rustsec_values::{ErrorKind, Items, Result, Text, text_error};
use rustsec_versions::read_version;
use semver::Version;
use serde_json::{Map, Value};
use std::alloc::{AllocError, Global};
use std::marker::Model;

impl ToTree for OsvReferenceKind {
    ghost tree = { λ k. string (reference_kind_name k) };

    fn to_tree(&self, alloc: Global) -> std::result::Result<Value, AllocError> {
        Value::try_from_str(alloc, self.as_str())
    }
}

impl FromTree for OsvReferenceKind {
    ghost reads = { text (reference_kind_of) };

    fn from_tree(alloc: Global, tree: &Value) -> Result<OsvReferenceKind> {
        match tree.as_str() {
            Some(text) => OsvReferenceKind::from_str(alloc, text),
            None => Err(unexpected_error(alloc, tree, "a string")),
        }
    }
}

impl ToTree for OsvReference {
    ghost tree = { reference_codec.tree };

    fn to_tree(&self, alloc: Global) -> std::result::Result<Value, AllocError> {
        let mut fields = Map::new(alloc);
        put_at(alloc, &mut fields, "type", &self.kind)?;
        put_at(alloc, &mut fields, "url", &self.url)?;
        Ok(Value::from(fields))
    }
}

impl FromTree for OsvReference {
    ghost reads = { reference_codec.read };

    fn from_tree(alloc: Global, tree: &Value) -> Result<OsvReference> {
        let fields = fields_of(alloc, tree)?;
        let kind = required_at(alloc, fields, "type")?;
        let url = required_at(alloc, fields, "url")?;
        Ok(OsvReference { kind, url })
    }
}

impl ToTree for OsvSeverity {
    ghost tree = { severity_tree };

    fn to_tree(&self, alloc: Global) -> std::result::Result<Value, AllocError> {
        let score = match self {
            OsvSeverity::CVSS_V3(base) => base.to_string(alloc)?,
            OsvSeverity::CVSS_V4(vector) => String::from_str(alloc, vector.as_str())?,
        };
        let mut fields = Map::new(alloc);
        let kind = Value::try_from_str(alloc, self.kind())?;
        serde_json::put(&mut fields, alloc, "type", kind)?;
        serde_json::put(&mut fields, alloc, "score", Value::from(score))?;
        Ok(Value::from(fields))
    }
}

impl FromTree for OsvSeverity {
    ghost reads = { read_severity };

    fn from_tree(alloc: Global, tree: &Value) -> Result<OsvSeverity> {
        let fields = fields_of(alloc, tree)?;
        let kind: Text = required_at(alloc, fields, "type")?;
        let vector: Cvss = required_at(alloc, fields, "score")?;
        let severity = severity_of(&vector)?;
        if kind.as_str() == severity.kind() {
            return Ok(severity);
        }
        let (found, wanted) = (kind.as_str(), severity.kind());
        Err(text_error(alloc, "wrong type of the vector", found, wanted))
    }
}

impl ToTree for MainOsvDatabaseSpecific {
    ghost tree = { license_codec.tree };

    fn to_tree(&self, alloc: Global) -> std::result::Result<Value, AllocError> {
        let mut fields = Map::new(alloc);
        put_at(alloc, &mut fields, "license", &self.license)?;
        Ok(Value::from(fields))
    }
}

impl FromTree for MainOsvDatabaseSpecific {
    ghost reads = { license_codec.read };

    fn from_tree(alloc: Global, tree: &Value) -> Result<MainOsvDatabaseSpecific> {
        let fields = fields_of(alloc, tree)?;
        let license = optional_at(alloc, fields, "license")?;
        Ok(MainOsvDatabaseSpecific { license })
    }
}

/// Reads `database_specific`; without a license if the key is missing.
fn license_at(alloc: Global, fields: &Map<String, Value>) -> Result<MainOsvDatabaseSpecific>
    ensures ok { IfOk result (λ m. defaulted (record { license = None }) license_codec.read (codes "database_specific") (members_view fields.now.entries) ≡ Some m) }
    ensures err { IfErr result (IsRefusal ErrorKind.Parse (defaulted (record { license = None }) license_codec.read (codes "database_specific") (members_view fields.now.entries) ≡ None)) }
{
    match member(fields, "database_specific") {
        Some(_) => required_at(alloc, fields, "database_specific"),
        None => Ok(MainOsvDatabaseSpecific::default()),
    }
}

/// A version, which contracts see by its parts.
#[derive(Drop)]
struct Release {
    version: Version,
}

impl Model for Release {
    ghost use Rattle.semver.specs.Identifiers.{parts_of};
    ghost use Rattle.semver.specs.Parse.{Parts};

    ghost Value = { Parts };

    ghost view = { λ r. parts_of r.version };
}

impl FromTree for Release {
    ghost reads = { text version_of };

    fn from_tree(alloc: Global, tree: &Value) -> Result<Release> {
        match tree.as_str() {
            Some(text) => {
                let version = read_version(alloc, text, text)?;
                Ok(Release { version })
            }
            None => Err(unexpected_error(alloc, tree, "a string")),
        }
    }
}

/// Returns the version in a release that may be missing.
fn version_in(release: Option<Release>) -> Option<Version>
    ensures { option_map parts_of result ≡ release }
{
    match release {
        Some(Release { version }) => Some(version),
        None => None,
    }
}

/// Puts the version of the schema at its key, if any.
fn put_schema_version(
    alloc: Global,
    fields: &mut Map<String, Value>,
    version: &Option<Version>,
) -> std::result::Result<(), AllocError>
    ensures { OnOk result (members_view fields.new.entries
        ≡ put_some (codes "schema_version") (option_map version_tree (option_map parts_of version.now)) (members_view fields.old.entries)) }
{
    match version {
        Some(version) => {
            let tree = version_tree(alloc, version)?;
            serde_json::put(fields, alloc, "schema_version", tree)
        }
        None => Ok(()),
    }
}

impl OsvAdvisory {
    /// Builds the tree of the document by the OSV schema: an object. Missing values are null, but
    /// `schema_version` and `withdrawn` are left out if missing.
    ///
    /// # Errors
    ///
    /// `OutOfMemory` alone.
    pub fn to_value(&self, alloc: Global) -> Result<Value>
        ensures ok { IfOk result (λ v. view v ≡ document_tree self.now) }
        ensures err { IfErr result IsMemory }

        // If the texts of a document's parts are parsed as these parts, the document's tree is read as the document.
        ensures again { IfOk result (λ v. IsDocumentAgain self.now → read_document (view v) ≡ Some self.now) }

        // If its events have valid versions, the JSON object of each event is read as this event.
        ensures objects { IfOk result (λ v. AreEventsValid self.now → AreEventsRead (view v) (document_events self.now)) }

        // Then any document that is read from the tree has the same ranges, in order.
        ensures ranges { IfOk result (λ v. AreEventsValid self.now → (d : Document) → read_document (view v) ≡ Some d
            → ranges_of d ≡ ranges_of self.now) }

        // It has the same events too, in order.
        ensures events { IfOk result (λ v. AreEventsValid self.now → (d : Document) → read_document (view v) ≡ Some d
            → document_events d ≡ document_events self.now) }
    {
        let mut fields = Map::new(alloc);
        put_schema_version(alloc, &mut fields, &self.schema_version)?;
        put_at(alloc, &mut fields, "id", &self.id)?;
        put_at(alloc, &mut fields, "modified", &self.modified)?;
        put_at(alloc, &mut fields, "published", &self.published)?;
        put_if(alloc, &mut fields, "withdrawn", &self.withdrawn)?;
        put_at(alloc, &mut fields, "summary", &self.summary)?;
        put_at(alloc, &mut fields, "details", &self.details)?;
        put_at(alloc, &mut fields, "severity", &self.severity)?;
        let database = &self.database_specific;
        put_at(alloc, &mut fields, "database_specific", database)?;
        put_at(alloc, &mut fields, "aliases", &self.aliases)?;
        put_at(alloc, &mut fields, "related", &self.related)?;
        put_at(alloc, &mut fields, "affected", &self.affected)?;
        put_at(alloc, &mut fields, "references", &self.references)?;
        Ok(Value::from(fields))
    }

    /// Reads a document from a tree. Keys that are not in the OSV schema are ignored, except in an event. A missing
    /// key has its default or means that the value is missing; null means missing only if the value may be missing.
    ///
    /// # Errors
    ///
    /// `Parse` if a required key is missing, or a value is of another kind or a refused text; else
    /// `OutOfMemory`.
    pub fn from_value(alloc: Global, tree: &Value) -> Result<OsvAdvisory>
        ensures ok { IfOk result (λ d. read_document (view tree.now) ≡ Some d) }
        ensures err { IfErr result (IsRefusal ErrorKind.Parse (read_document (view tree.now) ≡ None)) }
    {
        let fields = fields_of(alloc, tree)?;
        let schema_version: Option<Release> = optional_at(alloc, fields, "schema_version")?;
        let id: Id = required_at(alloc, fields, "id")?;
        let modified: Text = required_at(alloc, fields, "modified")?;
        let published: Text = required_at(alloc, fields, "published")?;
        let withdrawn: Option<Text> = optional_at(alloc, fields, "withdrawn")?;
        let summary: Text = required_at(alloc, fields, "summary")?;
        let details: Text = required_at(alloc, fields, "details")?;
        let severity: Items<OsvSeverity> = list_at(alloc, fields, "severity")?;
        let database_specific = license_at(alloc, fields)?;
        let aliases: Items<Id> = list_at(alloc, fields, "aliases")?;
        let related: Items<Id> = list_at(alloc, fields, "related")?;
        let affected: Items<OsvAffected> = list_at(alloc, fields, "affected")?;
        let references: Items<OsvReference> = list_at(alloc, fields, "references")?;
        Ok(OsvAdvisory {
            schema_version: version_in(schema_version),
            id,
            modified,
            published,
            withdrawn,
            aliases,
            related,
            summary,
            details,
            severity,
            affected,
            references,
            database_specific,
        })
    }
}
