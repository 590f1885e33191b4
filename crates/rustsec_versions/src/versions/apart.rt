//! Whether no two requirements overlap, whichever lists they are in.

ghost use Rattle.std.specs.Prelude.{◌≡◌, ◌++◌, IfOk, filter_map, true};
ghost use Rattle.rustsec_versions.specs.acceptance.Lists.{all_admissible};
ghost use Rattle.rustsec_versions.specs.interval.Apart.{are_apart};
ghost use Rattle.rustsec_versions.specs.order.Precedence.{precedence};
ghost use Rattle.rustsec_versions.specs.requirement.Requirement.{interval_of};

use crate::acceptance::merge::merged_intervals;
use crate::acceptance::tagged::{by_start, tagged_intervals};
use crate::requirement::requirements::Requirements;
use std::alloc::{AllocError, Global};

/// Returns whether no two of the intervals of two lists of admissible requirements overlap.
pub(crate) fn are_apart(
    alloc: Global,
    patched: &Requirements,
    unaffected: &Requirements,
) -> std::result::Result<bool, AllocError>
    ensures { IfOk result (λ b. b ≡ are_apart precedence (filter_map interval_of (patched.now ++ unaffected.now))) }
{
    let Ok(all) = tagged_intervals(alloc, patched, unaffected, false) else {
        // Each requirement is admissible, so only a lack of memory is an error here.
        return Err(AllocError);
    };
    let sorted = by_start(alloc, &all)?;
    let merged = merged_intervals(alloc, &sorted)?;
    Ok(merged.is_ok())
}
