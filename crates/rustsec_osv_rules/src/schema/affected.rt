//! Severities, and the members of `affected`.

ghost use Rattle.std.specs.Prelude.{◌≡◌, ◌≤◌, cond, option_map};
ghost use Rattle.serde_json.specs.View.{view};
ghost use Rattle.rustsec_osv_rules.specs.schema.Schema.{are_ends_alike, has_repository, is_at_one_key, text_at};

use crate::schema::forms::{CommitType, RangeType};
use crate::schema::names::EcosystemForm;
use crate::schema::rule::{
    AnyObject, AnyText, ListOf, OrNull, Rule, TextOf, has, list_with, optional, required,
};
use crate::schema::vectors::is_score;
use serde_json::Value;

/// Returns the text at a key, if a text is there.
fn text_at<'a>(value: &'a Value, key: &str) -> Option<&'a str>
    ensures { option_map (λ t. t.now) result ≡ text_at key.now (view value.now) }
{
    match value.get(key) {
        Some(found) => found.as_str(),
        None => None,
    }
}

/// A severity.
pub(crate) struct Severity;

impl Rule for Severity {
    ghost use Rattle.rustsec_osv_rules.specs.schema.Groups.{is_severity};

    ghost rule = { is_severity };

    fn holds(value: &Value) -> bool {
        match (text_at(value, "type"), text_at(value, "score")) {
            (Some(kind), Some(score)) => is_score(kind, score),
            _ => false,
        }
    }
}

/// Severities, or null.
pub(crate) type Severities = OrNull<ListOf<Severity>>;

/// Returns 1 for true, 0 for false.
fn number(is: bool) -> usize
    ensures value { result ≡ cond is 1 0 }
    ensures bound { result ≤ 1 }
{
    if is { 1 } else { 0 }
}

/// Returns whether exactly one of the four keys of events is there.
fn is_at_one_key(value: &Value) -> bool
    ensures { result ≡ is_at_one_key (view value.now) }
{
    let count = number(has(value, "introduced"))
        + number(has(value, "fixed"))
        + number(has(value, "last_affected"))
        + number(has(value, "limit"));
    count == 1
}

/// An event of a range.
pub(crate) struct Event;

impl Rule for Event {
    ghost use Rattle.rustsec_osv_rules.specs.schema.Schema.{is_event};

    ghost rule = { is_event };

    fn holds(value: &Value) -> bool {
        is_at_one_key(value)
            && optional::<AnyText>(value, "introduced")
            && optional::<AnyText>(value, "fixed")
            && optional::<AnyText>(value, "last_affected")
            && optional::<AnyText>(value, "limit")
    }
}

/// An object with the key `introduced`.
struct WithIntroduced;

impl Rule for WithIntroduced {
    ghost use Rattle.std.specs.Prelude.{codes};
    ghost use Rattle.rustsec_osv_rules.specs.schema.Values.{has};

    ghost rule = { has (codes "introduced") };

    fn holds(value: &Value) -> bool {
        has(value, "introduced")
    }
}

/// An object with the key `fixed`.
struct WithFixed;

impl Rule for WithFixed {
    ghost use Rattle.std.specs.Prelude.{codes};
    ghost use Rattle.rustsec_osv_rules.specs.schema.Values.{has};

    ghost rule = { has (codes "fixed") };

    fn holds(value: &Value) -> bool {
        has(value, "fixed")
    }
}

/// An object with the key `last_affected`.
struct WithLastAffected;

impl Rule for WithLastAffected {
    ghost use Rattle.std.specs.Prelude.{codes};
    ghost use Rattle.rustsec_osv_rules.specs.schema.Values.{has};

    ghost rule = { has (codes "last_affected") };

    fn holds(value: &Value) -> bool {
        has(value, "last_affected")
    }
}

/// Returns whether events do not have both kinds of ends.
fn are_ends_alike(value: &Value) -> bool
    ensures { result ≡ are_ends_alike (view value.now) }
{
    !(list_with::<WithFixed>(value) && list_with::<WithLastAffected>(value))
}

/// The events of a range.
pub(crate) struct Events;

impl Rule for Events {
    ghost use Rattle.rustsec_osv_rules.specs.schema.Schema.{are_events};

    ghost rule = { are_events };

    fn holds(value: &Value) -> bool {
        ListOf::<Event>::holds(value) && list_with::<WithIntroduced>(value) && are_ends_alike(value)
    }
}

/// Returns whether a range of commits names its repository.
fn has_repository(value: &Value) -> bool
    ensures { result ≡ has_repository (view value.now) }
{
    !required::<TextOf<CommitType>>(value, "type") || has(value, "repo")
}

/// A range.
pub(crate) struct Range;

impl Rule for Range {
    ghost use Rattle.rustsec_osv_rules.specs.schema.Schema.{is_range};

    ghost rule = { is_range };

    fn holds(value: &Value) -> bool {
        required::<TextOf<RangeType>>(value, "type")
            && required::<Events>(value, "events")
            && has_repository(value)
            && optional::<AnyText>(value, "repo")
            && optional::<AnyObject>(value, "database_specific")
    }
}

/// A package.
pub(crate) struct Package;

impl Rule for Package {
    ghost use Rattle.rustsec_osv_rules.specs.schema.Schema.{is_package};

    ghost rule = { is_package };

    fn holds(value: &Value) -> bool {
        required::<TextOf<EcosystemForm>>(value, "ecosystem")
            && required::<AnyText>(value, "name")
            && optional::<AnyText>(value, "purl")
    }
}

/// A member of `affected`.
pub(crate) struct Affected;

impl Rule for Affected {
    ghost use Rattle.rustsec_osv_rules.specs.schema.Groups.{is_affected};

    ghost rule = { is_affected };

    fn holds(value: &Value) -> bool {
        value.is_object()
            && optional::<Package>(value, "package")
            && optional::<Severities>(value, "severity")
            && optional::<ListOf<Range>>(value, "ranges")
            && optional::<ListOf<AnyText>>(value, "versions")
            && optional::<AnyObject>(value, "ecosystem_specific")
            && optional::<AnyObject>(value, "database_specific")
    }
}

/// A member of `affected` without a severity of its own.
pub(crate) struct NoSeverity;

impl Rule for NoSeverity {
    ghost use Rattle.rustsec_osv_rules.specs.schema.Schema.{has_no_severity};

    ghost rule = { has_no_severity };

    fn holds(value: &Value) -> bool {
        match value.get("severity") {
            Some(severity) => severity.is_null(),
            None => true,
        }
    }
}
