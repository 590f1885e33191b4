//! Answers a query for a version of a package, as the service of OSV does.

ghost use Rattle.std.specs.Prelude.{◌≡◌, ◌≢◌, ◌∷◌, [], IfErr, IfOk, Contains, codes, map, string_bytes};
ghost use Rattle.semver.specs.Identifiers.{parts_of};
ghost use Rattle.serde_json.specs.View.{view};
ghost use Rattle.rustsec_advisory.specs.declared.advisory.Advisory as given;
ghost use Rattle.rustsec_json.specs.Trees.{list_tree};
ghost use Rattle.rustsec_osv.specs.DocumentCodec.{document_tree};
ghost use Rattle.rustsec_report.specs.Trees.{object_of};
ghost use Rattle.rustsec_values.specs.Failure.{IsRefusal};
ghost use Rattle.rustsec_values.specs.declared.error.ErrorKind.TheVariants as kind;
ghost use Rattle.rustsec_osv_database.specs.Answers.{AreDocuments, HasNoAnswer, IsAnswerOf, IsOwnDocument, answer_line, asked};
ghost use Rattle.rustsec_osv_database.specs.Lines.{HasNoDocument};

use crate::lines::{exported_document, tree_of};
use rustsec_advisory::Advisory;
use rustsec_database::{Database, Query};
use rustsec_json::tree_line;
use rustsec_lock::package::Name;
use rustsec_osv::{OsvAdvisory, noon};
use rustsec_texts::Collection;
use rustsec_values::{Error, ErrorKind, Items, Result};
use semver::Version;
use serde_json::{Map, Value};
use std::alloc::{AllocError, Global};

/// Returns the query for a version of a package of crates.io.
fn query_for(alloc: Global, name: Name, version: Version) -> Query
    ensures { result ≡ asked name (parts_of version) }
{
    Query::new(alloc)
        .collection(Collection::Crates)
        .package_name(name)
        .package_version(version)
        .withdrawn(false)
}

/// Returns the error for an advisory that has no document for this reason. Out of memory stays as it is.
fn document_error(alloc: Global, advisory: &Advisory, why: &Error) -> Error
    ensures { IsRefusal ErrorKind.BadParam (why.now.kind ≢ kind.OutOfMemory) result }
{
    if why.kind() == ErrorKind::OutOfMemory {
        return Error::from(AllocError);
    }
    let (id, message) = (advisory.metadata.id.as_str(), why.message());
    match format!(in alloc; "{id} has no OSV document: {message}") {
        Ok(message) => Error::with_cause(alloc, ErrorKind::BadParam, &message, why.cause()),
        Err(refused) => Error::from(refused),
    }
}

/// Returns the document of an advisory, as of noon of its day.
fn own_document(alloc: Global, advisory: &Advisory) -> Result<OsvAdvisory>
    ensures ok { IfOk result (IsOwnDocument advisory.now) }
    ensures err { IfErr result (IsRefusal ErrorKind.BadParam (HasNoDocument advisory.now)) }
{
    let noon = noon(alloc, &advisory.metadata.date)?;
    match exported_document(alloc, advisory, noon.as_str()) {
        Ok(document) => Ok(document),
        Err(error) => Err(document_error(alloc, advisory, &error)),
    }
}

/// Returns the documents of some advisories.
fn documents_of(alloc: Global, advisories: &[&Advisory]) -> Result<Items<OsvAdvisory>>
    ensures ok { IfOk result (AreDocuments (map (λ a. a.now) advisories.now)) }
    ensures err { IfErr result (IsRefusal ErrorKind.BadParam
        ((a : given.Advisory) × (Contains (map (λ a. a.now) advisories.now) a × HasNoDocument a))) }
{
    let mut documents = Items::new(alloc);
    for advisory in advisories {
        documents.push(own_document(alloc, advisory)?)?;
    }
    Ok(documents)
}

/// Builds the list of the trees of some documents.
fn trees_of(alloc: Global, documents: &[OsvAdvisory]) -> std::result::Result<Value, AllocError>
    ensures { IfOk result (λ v. view v ≡ list_tree document_tree documents.now) }
{
    let mut trees = Vec::new(alloc);
    for document in documents {
        trees.push(tree_of(alloc, document)?)?;
    }
    Ok(Value::from(trees))
}

/// Builds the object whose list `vulns` is this one.
#[tactic(auto, unfolding(rustsec_report::specs::Trees::with_members))]
fn answer_tree(alloc: Global, trees: Value) -> std::result::Result<Value, AllocError>
    ensures { IfOk result (λ v. view v ≡ object_of ((codes "vulns", view trees) ∷ [])) }
{
    let mut members: Map<String, Value> = Map::new(alloc);
    serde_json::put(&mut members, alloc, "vulns", trees)?;
    Ok(Value::from(members))
}

/// Returns the line of the answer with some documents.
fn answer_line(alloc: Global, documents: &[OsvAdvisory]) -> std::result::Result<String, AllocError>
    ensures { IfOk result (λ t. string_bytes t ≡ answer_line documents.now) }
{
    let trees = trees_of(alloc, documents)?;
    let tree = answer_tree(alloc, trees)?;
    tree_line(alloc, &tree)
}

/// Returns the answer to a query for a version of a package of crates.io: a line of JSON, an object whose list `vulns` has
/// the OSV documents of the advisories that affect the version, in the order in which they were loaded. Withdrawn
/// advisories are left out, and informational ones are not. The time of a document's last change is noon of its
/// advisory's day.
///
/// # Errors
///
/// `BadParam` if an advisory that affects the version has no document; else `OutOfMemory`.
pub fn answer_of(alloc: Global, database: &Database, name: Name, version: Version) -> Result<String>
    ensures ok { IfOk result (λ t. IsAnswerOf name (parts_of version) database.now (string_bytes t)) }
    ensures err { IfErr result (IsRefusal ErrorKind.BadParam (HasNoAnswer name (parts_of version) database.now)) }
{
    let query = query_for(alloc, name, version);
    let advisories = database.query(alloc, &query)?;
    let documents = documents_of(alloc, &advisories)?;
    let line = answer_line(alloc, documents.as_slice())?;
    Ok(line)
}
