//! Whether Cargo takes a version for the requirement that a locked version states.

ghost use Rattle.std.specs.Prelude.{◌≡◌, ◌∷◌, [], IfErr, IfOk, option_map};
ghost use Rattle.semver.specs.Identifiers.{parts_of};
ghost use Rattle.rustsec_values.specs.Failure.{IsMemory};
ghost use Rattle.rustsec_versions.specs.Views.{comparators_of};
ghost use Rattle.rustsec_check.specs.Compatible.{caret_of, is_compatible, is_compatible_with};

use rustsec_values::{ErrorKind, Result};
use rustsec_versions::UnaffectedRange;
use semver::{Comparator, Op, Version, VersionReq};
use std::alloc::{AllocError, Global};

/// Returns the requirement `^MAJOR.MINOR.PATCH-PRE` of a version.
fn caret_of(alloc: Global, version: &Version) -> Result<VersionReq>
    ensures ok { IfOk result (λ r. comparators_of r ≡ caret_of (parts_of version.now) ∷ []) }
    ensures err { IfErr result IsMemory }
{
    let pre = version.pre.clone()?;
    let mut comparators = Vec::new(alloc);
    let caret = Comparator {
        op: Op::Caret,
        major: version.major,
        minor: Some(version.minor),
        patch: Some(version.patch),
        pre,
    };
    comparators.push(caret).map_err(|_| AllocError)?;
    Ok(VersionReq { comparators })
}

/// Returns whether the interval of the requirement `^LOCKED` holds a version. A requirement whose end would need a
/// number above the greatest one has no interval, and holds none.
///
/// # Errors
///
/// `OutOfMemory` alone.
pub fn is_compatible(alloc: Global, locked: &Version, version: &Version) -> Result<bool>
    ensures ok { IfOk result (λ b. b ≡ is_compatible (parts_of locked.now) (parts_of version.now)) }
    ensures err { IfErr result IsMemory }
{
    let requirement = caret_of(alloc, locked)?;
    match UnaffectedRange::from_req(alloc, &requirement) {
        Ok(interval) => Ok(interval.holds(version)),
        Err(e) if e.kind() == ErrorKind::OutOfMemory => Err(e),
        Err(_) => Ok(false),
    }
}

/// Returns the same for a version that may be missing, which is not compatible.
pub(crate) fn is_compatible_with(
    alloc: Global,
    locked: &Version,
    version: &Option<Version>,
) -> Result<bool>
    ensures ok { IfOk result (λ b. b ≡ is_compatible_with (parts_of locked.now) (option_map parts_of version.now)) }
    ensures err { IfErr result IsMemory }
{
    match version {
        Some(version) => is_compatible(alloc, locked, version),
        None => Ok(false),
    }
}
