//! Decides whether a JSON document keeps the rules of the OSV schema.

ghost use Rattle.std.specs.Prelude.{◌≡◌, ◌↔◌, true};
ghost use Rattle.serde_json.specs.View.{view};
ghost use Rattle.rustsec_osv_rules.specs.schema.Groups.{keeps_all, keeps_lists, keeps_texts};
ghost use Rattle.rustsec_osv_rules.specs.schema.Names.{document_keys};
ghost use Rattle.rustsec_osv_rules.specs.schema.Schema.{IsOsvSchema, has_one_place_of_severity};
ghost use Rattle.rustsec_osv_rules.specs.schema.Values.{object_of};

use crate::schema::affected::{Affected, NoSeverity, Severities};
use crate::schema::forms::{CreditType, LineForm, ReferenceType, TimeForm};
use crate::schema::keys::has_only;
use crate::schema::names::IdForm;
use crate::schema::rule::{
    AnyObject, AnyText, ListOf, OrNull, Rule, TextOf, has, optional, required,
};
use serde_json::Value;

/// A reference.
struct Reference;

impl Rule for Reference {
    ghost use Rattle.rustsec_osv_rules.specs.schema.Schema.{is_reference};

    ghost rule = { is_reference };

    fn holds(value: &Value) -> bool {
        required::<TextOf<ReferenceType>>(value, "type") && required::<AnyText>(value, "url")
    }
}

/// A credit.
struct Credit;

impl Rule for Credit {
    ghost use Rattle.rustsec_osv_rules.specs.schema.Schema.{is_credit};

    ghost rule = { is_credit };

    fn holds(value: &Value) -> bool {
        required::<AnyText>(value, "name")
            && optional::<ListOf<AnyText>>(value, "contact")
            && optional::<TextOf<CreditType>>(value, "type")
    }
}

/// Texts, or null.
type Texts = OrNull<ListOf<AnyText>>;

/// Returns whether a severity of the whole document leaves none to its members.
fn has_one_place_of_severity(document: &Value) -> bool
    ensures { result ≡ has_one_place_of_severity (view document.now) }
{
    !has(document, "severity") || optional::<OrNull<ListOf<NoSeverity>>>(document, "affected")
}

/// Returns whether a document is an object with the schema's keys alone.
fn has_known_keys(document: &Value) -> bool
    ensures { result ≡ object_of document_keys (view document.now) }
{
    match document.as_object() {
        Some(fields) => has_only(fields),
        None => false,
    }
}

/// Returns whether a document keeps the rules of the keys with texts.
fn keeps_texts(document: &Value) -> bool
    ensures { result ≡ keeps_texts (view document.now) }
{
    optional::<AnyText>(document, "schema_version")
        && required::<TextOf<IdForm>>(document, "id")
        && required::<TextOf<TimeForm>>(document, "modified")
        && optional::<TextOf<TimeForm>>(document, "published")
        && optional::<TextOf<TimeForm>>(document, "withdrawn")
        && optional::<TextOf<LineForm>>(document, "summary")
        && optional::<AnyText>(document, "details")
}

/// Returns whether a document keeps the rules of the keys with lists, and of the object.
fn keeps_lists(document: &Value) -> bool
    ensures { result ≡ keeps_lists (view document.now) }
{
    optional::<Texts>(document, "aliases")
        && optional::<Texts>(document, "related")
        && optional::<Texts>(document, "upstream")
        && optional::<Severities>(document, "severity")
        && optional::<OrNull<ListOf<Affected>>>(document, "affected")
        && has_one_place_of_severity(document)
        && optional::<OrNull<ListOf<Reference>>>(document, "references")
        && optional::<ListOf<Credit>>(document, "credits")
        && optional::<AnyObject>(document, "database_specific")
}

/// Returns whether a document keeps the rules of all its keys.
fn keeps_all(document: &Value) -> bool
    ensures { result ≡ keeps_all (view document.now) }
{
    has_known_keys(document) && keeps_texts(document) && keeps_lists(document)
}

/// Returns whether a JSON document keeps each rule of the OSV schema 1.7.0. It takes no memory.
pub fn is_osv_schema(document: &Value) -> bool
    ensures { (result ≡ true) ↔ IsOsvSchema (view document.now) }
{
    keeps_all(document)
}
