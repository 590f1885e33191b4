//! The requirements whose interval holds a version.

ghost use Rattle.std.specs.Prelude.{◌≡◌, ◌++◌, IfErr, IfOk, OnOk, map};
ghost use Rattle.semver.specs.Identifiers.{parts_of};
ghost use Rattle.rustsec_values.specs.Failure.{IsMemory};
ghost use Rattle.rustsec_versions.specs.requirement.Requirement.{interval_of};
ghost use Rattle.rustsec_versions.specs.Views.{comparators_of};
ghost use Rattle.rustsec_explain.specs.Reasons.{applying, held_by, is_within, requirement_rows};

use crate::reason::{Reason, add_if};
use rustsec_values::{ErrorKind, Items, Result};
use rustsec_versions::UnaffectedRange;
use semver::{Version, VersionReq};
use std::alloc::Global;

/// Returns whether the interval of a requirement holds a version. A requirement without an interval holds none.
fn is_within(alloc: Global, version: &Version, requirement: &VersionReq) -> Result<bool>
    ensures ok { IfOk result (λ b. b ≡ is_within (parts_of version.now) (interval_of (comparators_of requirement.now))) }
    ensures err { IfErr result IsMemory }
{
    match UnaffectedRange::from_req(alloc, requirement) {
        Ok(interval) => Ok(interval.holds(version)),
        Err(e) => match e.kind() {
            ErrorKind::BadParam => Ok(false),
            _ => Err(e),
        },
    }
}

/// Returns the reason that the requirement at a place of a list holds the version.
fn held_by(is_patched: bool, place: usize) -> Reason
    ensures { result ≡ held_by is_patched place }
{
    if is_patched {
        Reason::HeldByPatched(place)
    } else {
        Reason::HeldByUnaffected(place)
    }
}

/// Appends a reason for each requirement of a list whose interval holds a version.
pub(crate) fn add_held(
    alloc: Global,
    reasons: &mut Items<Reason>,
    version: &Version,
    requirements: &[VersionReq],
    is_patched: bool,
) -> Result<()>
    ensures ok { OnOk result (reasons.new
        ≡ reasons.old ++ applying (requirement_rows (held_by is_patched) (parts_of version.now) 0 (map comparators_of requirements.now))) }
    ensures err { IfErr result IsMemory }
{
    for (place, requirement) in requirements.iter().enumerate() {
        let applies = is_within(alloc, version, requirement)?;
        add_if(reasons, applies, held_by(is_patched, place))?;
    }
    Ok(())
}
