//! Exports an advisory as a document that OSV's evaluation reads as the advisory.

ghost use Rattle.std.specs.Prelude.{◌≡◌, ◌⊎◌, Bool, IfErr, IfOk, None, codes, true};
ghost use Rattle.semver.specs.Parse.{Parts};
ghost use Rattle.rustsec_osv.specs.Export.{IsDocument, document_events};
ghost use Rattle.rustsec_osv.specs.References.{references_of};
ghost use Rattle.rustsec_osv_rules.specs.evaluation.Document.{IsAnswer};
ghost use Rattle.rustsec_osv_rules.specs.evaluation.Order.{has_ordered_events};
ghost use Rattle.rustsec_osv_rules.specs.evaluation.Pairs.{HaveOwnVersions, normalized_document};
ghost use Rattle.rustsec_versions.specs.ranges.AcceptedRanges.{HasUnboundedInterval};
ghost use Rattle.rustsec_values.specs.Failure.{IsRefusal};
ghost use Rattle.rustsec_versions.specs.acceptance.Lists.{affected};
ghost use Rattle.rustsec_versions.specs.order.Precedence.{IsVersion};

use rustsec_advisory::Advisory;
use rustsec_osv::OsvAdvisory;
use rustsec_values::{ErrorKind, Result};
use std::alloc::Global;

/// Returns the OSV document of an advisory, as `OsvAdvisory::from_rustsec`. `modified` is when it was last changed, and
/// is not checked.
///
/// # Errors
///
/// As `OsvAdvisory::from_rustsec`.
pub fn document_of(alloc: Global, advisory: Advisory, modified: &str) -> Result<OsvAdvisory>
    ensures ok { IfOk result (IsDocument advisory modified.now) }

    // If no two events are at one version, OSV's evaluation calls a valid version affected exactly if the advisory does.
    ensures evaluated { IfOk result (λ d. HaveOwnVersions (document_events d) → (v : Parts) (answer : Bool) → IsVersion v
        → IsAnswer (codes "crates.io") advisory.metadata.«package» v d answer → answer ≡ affected advisory.versions v) }

    // Without the pairs of neighbouring events at one version it always does.
    ensures normalized { IfOk result (λ d. (v : Parts) (answer : Bool) → IsVersion v
        → IsAnswer (codes "crates.io") advisory.metadata.«package» v (normalized_document d) answer → answer ≡ affected advisory.versions v) }

    // No two events are then at one version.
    ensures bare { IfOk result (λ d. HaveOwnVersions (document_events (normalized_document d))) }

    // The versions of its events rise, an order that the schema does not require.
    ensures ordered { IfOk result (λ d. has_ordered_events d ≡ true) }
    ensures err { IfErr result (λ e. IsRefusal ErrorKind.BadParam (HasUnboundedInterval advisory.versions) e
        ⊎ IsRefusal ErrorKind.Parse ((¬ HasUnboundedInterval advisory.versions) × (references_of advisory.metadata ≡ None)) e) }
{
    OsvAdvisory::from_rustsec(alloc, advisory, modified)
}
