//! The successor of a version: the least version above it.

ghost use Rattle.std.specs.Prelude.{◌≡◌, ◌≢◌, ◌↔◌, ◌++◌, ◌-◌, ◌^◌, [], IfErr, IfOk, IfSome, IsNone, MatchResult, OnErr, codes, length, option_map, true};
ghost use Rattle.semver.specs.Grammar.{is_pre_release};
ghost use Rattle.semver.specs.Identifiers.{build_text, parts_of, pre_text};
ghost use Rattle.semver.specs.Parse.{memory_error};
ghost use Rattle.rustsec_values.specs.Failure.{IsMemory};
ghost use Rattle.rustsec_versions.specs.order.Precedence.{IsVersion, least_of};
ghost use Rattle.rustsec_versions.specs.order.Successor.{IsLeastAbove, successor};

use rustsec_values::{Error, Result};
use semver::{BuildMetadata, Prerelease, Version};
use std::alloc::{AllocError, Global};

/// Returns the least version with these three numbers: the pre-release `0`.
pub(crate) fn least_of(alloc: Global, major: u64, minor: u64, patch: u64) -> Result<Version>
    ensures ok { IfOk result (λ v. parts_of v ≡ least_of major minor patch) }
    ensures err { IfErr result IsMemory }
{
    match Prerelease::new(alloc, "0") {
        Ok(pre) => Ok(Version {
            major,
            minor,
            patch,
            pre,
            build: BuildMetadata::empty(),
        }),
        Err(_) => Err(Error::from(AllocError)),
    }
}

/// Returns a pre-release with one more identifier, `0`.
fn with_zero(alloc: Global, pre: &Prerelease) -> std::result::Result<Prerelease, semver::Error>
    ensures { is_pre_release (pre_text pre.now) ≡ true → length (pre_text pre.now) ≢ 0
        → MatchResult result (λ p. pre_text p ≡ pre_text pre.now ++ codes ".0") (λ e. e ≡ memory_error) }
{
    let text = format!(in alloc; "{pre}.0")?;
    Prerelease::new(alloc, text.as_str())
}

/// Returns the version least above this one in precedence, among all valid versions, pre-releases included (SemVer
/// 2.0.0, section 11): `1.2.4-0` above `1.2.3`, and `1.2.3-a.0` above `1.2.3-a`. It has no build metadata. By this
/// project's convention, a release whose patch is the greatest number has no successor.
///
/// # Errors
///
/// `OutOfMemory` alone.
pub fn successor(alloc: Global, version: &Version) -> Result<Option<Version>>
    ensures value { IsVersion (parts_of version.now) → IfOk result (λ o. option_map parts_of o ≡ successor (parts_of version.now)) }
    ensures least { IsVersion (parts_of version.now) → IfOk result (λ o. IfSome o (λ s. IsLeastAbove (parts_of version.now) (parts_of s))) }
    ensures valid { IsVersion (parts_of version.now) → IfOk result (λ o. IfSome o (λ s. IsVersion (parts_of s))) }
    ensures plain { IfOk result (λ o. IfSome o (λ s. build_text s.build ≡ [])) }
    ensures none { IfOk result (λ o. IsNone o ↔ ((pre_text version.now.pre ≡ []) × (version.now.patch ≡ 2 ^ 64 - 1))) }
    ensures err { IfErr result IsMemory }

    // The answer that there is none takes no memory.
    ensures refused { OnErr result (¬ ((pre_text version.now.pre ≡ []) × (version.now.patch ≡ 2 ^ 64 - 1))) }
{
    if version.pre.is_empty() {
        let Some(patch) = version.patch.checked_add(1) else {
            return Ok(None);
        };
        let next = least_of(alloc, version.major, version.minor, patch)?;
        return Ok(Some(next));
    }
    let Ok(pre) = with_zero(alloc, &version.pre) else {
        return Err(Error::from(AllocError));
    };
    Ok(Some(Version {
        major: version.major,
        minor: version.minor,
        patch: version.patch,
        pre,
        build: BuildMetadata::empty(),
    }))
}
