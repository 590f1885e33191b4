//! The keys of a document.

ghost use Rattle.std.specs.Prelude.{◌≡◌, map};
ghost use Rattle.serde_json.specs.View.{members_view};
ghost use Rattle.rustsec_osv_rules.specs.schema.Names.{document_keys};
ghost use Rattle.rustsec_osv_rules.specs.schema.Values.{has_only};

use crate::schema::names::is_one_of;
use serde_json::{Map, Value};

/// Returns the keys that the schema has for documents.
#[tactic(auto, unfolding(crate::specs::schema::Names::document_keys))]
fn document_keys() -> &'static [&'static str]
    ensures { map (λ n. n.now) result.now ≡ document_keys }
{
    &[
        "schema_version",
        "id",
        "modified",
        "published",
        "withdrawn",
        "aliases",
        "related",
        "upstream",
        "summary",
        "details",
        "severity",
        "affected",
        "references",
        "credits",
        "database_specific",
    ]
}

/// Returns whether each key of an object is one that the schema has for documents.
pub(crate) fn has_only(fields: &Map<String, Value>) -> bool
    ensures { result ≡ has_only document_keys (members_view fields.now.entries) }
{
    let mut all = true;
    for (key, _) in fields {
        if !is_one_of(document_keys(), key.as_str().as_bytes()) {
            all = false;
        }
    }
    all
}
