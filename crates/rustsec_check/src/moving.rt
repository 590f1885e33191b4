//! Whether an ignored advisory moves an answer.

ghost use Rattle.std.specs.Prelude.{◌≡◌, IfErr, IfOk, List, option_map};
ghost use Rattle.std.specs.Bool.{Decides};
ghost use Rattle.semver.specs.Identifiers.{parts_of};
ghost use Rattle.rustsec_values.specs.Failure.{IsMemory};
ghost use Rattle.rustsec_versions.specs.acceptance.Lists.{Lists};
ghost use Rattle.rustsec_versions.specs.order.Precedence.{IsVersion};
ghost use Rattle.rustsec_versions.specs.ranges.Ranges.{is_until};
ghost use Rattle.rustsec_check.specs.LeastFree.{AreRangesOfAll, IsValidStart};
ghost use Rattle.rustsec_check.specs.Moving.{MovesIn, later};
ghost use Rattle.rustsec_check.specs.Updates.{Moves};

use crate::ranges::is_until;
use crate::update::sweep;
use rustsec_values::Result;
use rustsec_versions::{OsvRange, Versions, ranges_for_advisory};
use semver::Version;
use std::alloc::Global;

/// An answer about a version, and what decides which advisories move it.
#[derive(Clone, Copy)]
pub(crate) struct Answer<'a> {
    /// The version.
    pub(crate) version: &'a Version,
    /// The least free version, if any.
    pub(crate) least_free: &'a Option<Version>,
    /// The ranges of the finding's own advisory, if any, and of those in force.
    pub(crate) in_force: &'a [OsvRange],
}

/// Returns the later one of a version and of where a range begins, in precedence.
fn later<'a>(introduced: &'a Option<Version>, version: &'a Version) -> &'a Version
    ensures { parts_of result.now ≡ later (option_map parts_of introduced.now) (parts_of version.now) }
{
    match introduced {
        Some(introduced) if !introduced.cmp_precedence(version).is_le() => introduced,
        _ => version,
    }
}

impl Answer<'_> {
    /// Returns whether a version is below the answer; each one is if there is no answer.
    fn is_above(&self, version: &Version) -> bool
        ensures { result ≡ is_until (option_map parts_of self.now.least_free.now) (parts_of version.now) }
    {
        is_until(self.least_free, version)
    }

    /// Returns whether a range holds a version, not below the one that is asked about and below the answer, that no range in
    /// force holds.
    fn is_moved_in(&self, range: &OsvRange) -> bool
        ensures { (all : List Lists) → AreRangesOfAll all self.now.in_force.now → IsVersion (parts_of self.now.version.now) → IsValidStart range.now.introduced
            → Decides result (MovesIn all (parts_of self.now.version.now) (option_map parts_of self.now.least_free.now) range.now) }
    {
        let start = later(&range.introduced, self.version);
        match sweep(self.in_force, start) {
            Some(found) => is_until(&range.fixed, found) && self.is_above(found),
            None => false,
        }
    }

    /// Returns whether requirements move the answer.
    pub(crate) fn is_moved_by(&self, alloc: Global, versions: &Versions) -> Result<bool>
        ensures ok { (all : List Lists) → AreRangesOfAll all self.now.in_force.now → IsVersion (parts_of self.now.version.now)
            → IfOk result (λ b. Decides b (Moves all (parts_of self.now.version.now) (option_map parts_of self.now.least_free.now) versions.now)) }
        ensures err { IfErr result IsMemory }
    {
        let ranges = ranges_for_advisory(alloc, versions)?;
        for range in ranges.as_slice() {
            if self.is_moved_in(range) {
                return Ok(true);
            }
        }
        Ok(false)
    }
}
