//! Exports an advisory as a JSON document that keeps the OSV schema.

ghost use Rattle.std.specs.Prelude.{◌≡◌, ◌⊎◌, ℕ, IfErr, IfOk, List, None, true};
ghost use Rattle.serde_json.specs.View.{view};
ghost use Rattle.rustsec_advisory.specs.Advisory.{IsAdvisory};
ghost use Rattle.rustsec_values.specs.Failure.{IsRefusal};
ghost use Rattle.rustsec_versions.specs.ranges.AcceptedRanges.{HasUnboundedInterval};
ghost use Rattle.rustsec_osv.specs.Documents.{Document};
ghost use Rattle.rustsec_osv.specs.Export.{IsDocument};
ghost use Rattle.rustsec_osv.specs.References.{references_of};
ghost use Rattle.rustsec_osv.specs.DocumentCodec.{document_tree};
ghost use Rattle.rustsec_osv_rules.specs.evaluation.Order.{has_ordered_events};
ghost use Rattle.rustsec_osv_rules.specs.schema.Exports.{HasDays, IsForSchema};
ghost use Rattle.rustsec_osv_rules.specs.schema.Schema.{IsOsvSchema};

use rustsec_advisory::Advisory;
use rustsec_osv::OsvAdvisory;
use rustsec_values::{ErrorKind, Result};
use serde_json::Value;
use std::alloc::Global;

/// Returns the JSON tree of an advisory's OSV document, as `OsvAdvisory::from_rustsec` and `to_value`. `modified` is when
/// it was last changed, and is not checked.
///
/// # Errors
///
/// As `OsvAdvisory::from_rustsec`.
pub fn exported_value(alloc: Global, advisory: Advisory, modified: &str) -> Result<Value>
    ensures ok { IfOk result (λ v. (d : Document) × (IsDocument advisory modified.now d × (view v ≡ document_tree d))) }

    // The document keeps the OSV schema if the advisory and the time of its change are as the schema asks.
    ensures schema { IfOk result (λ v. HasDays advisory.metadata → IsForSchema advisory.metadata modified.now → IsOsvSchema (view v)) }

    // The days of an advisory that was read from a text are as the schema asks.
    ensures parsed { IfOk result (λ v. (t : List ℕ) → IsAdvisory t advisory → IsForSchema advisory.metadata modified.now → IsOsvSchema (view v)) }

    // The versions of its events rise, an order that the schema does not require.
    ensures ordered { IfOk result (λ v. (d : Document) × (has_ordered_events d ≡ true) × (view v ≡ document_tree d)) }
    ensures err { IfErr result (λ e. IsRefusal ErrorKind.BadParam (HasUnboundedInterval advisory.versions) e
        ⊎ IsRefusal ErrorKind.Parse ((¬ HasUnboundedInterval advisory.versions) × (references_of advisory.metadata ≡ None)) e) }
{
    let document = OsvAdvisory::from_rustsec(alloc, advisory, modified)?;
    document.to_value(alloc)
}
