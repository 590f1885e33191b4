//! The affected functions of a vulnerability.

ghost use Rattle.std.specs.Prelude.{◌≡◌, ◌≢◌, ◌<◌, [], IfErr, IfOk, None, OnErr, Some, length, map, option_map};
ghost use Rattle.semver.specs.EvalViews.{matches_views};
ghost use Rattle.semver.specs.Identifiers.{parts_of};
ghost use Rattle.rustsec_values.specs.Failure.{IsMemory};
ghost use Rattle.rustsec_versions.specs.Views.{comparators_of};
ghost use Rattle.rustsec_database.specs.Functions.{functions_of, matching, matches_some};

use crate::vulnerability::Vulnerability;
use crate::vulnerability_ref::VulnerabilityRef;
use rustsec_texts::FunctionPath;
use rustsec_values::SortedMap;
use rustsec_versions::Requirements;
use semver::{Version, VersionReq};
use std::alloc::{AllocError, Global};

/// Returns whether a version matches a requirement, by Cargo's rule of matching.
fn matches_one(req: &VersionReq, version: &Version) -> bool
    ensures { result ≡ matches_views (comparators_of req.now) (parts_of version.now) }
{
    req.matches(version)
}

/// Returns whether a version matches some requirement.
fn matches_some(reqs: &[VersionReq], version: &Version) -> bool
    ensures { result ≡ matches_some (parts_of version.now) (map comparators_of reqs.now) }
{
    for req in reqs {
        if matches_one(req, version) {
            return true;
        }
    }
    false
}

/// Returns the paths of the functions with a requirement that a version matches, in their order.
fn matching(
    alloc: Global,
    functions: &SortedMap<FunctionPath, Requirements>,
    version: &Version,
) -> Result<Vec<FunctionPath>, AllocError>
    ensures ok { IfOk result (λ v. v.items ≡ matching (parts_of version.now) functions.now) }
    ensures none { OnErr result (0 < length (matching (parts_of version.now) functions.now)) }
{
    let mut paths = Vec::new(alloc);
    for (path, reqs) in functions {
        if matches_some(reqs.as_slice(), version) {
            paths.push(Clone::clone(path)?)?;
        }
    }
    Ok(paths)
}

impl<'a> VulnerabilityRef<'a> {
    /// Returns the paths of the listed functions with a requirement that the package's version matches, by Cargo's
    /// rule of matching, in the order of paths. The result is `None` if no function is listed.
    ///
    /// # Errors
    ///
    /// `OutOfMemory` alone, and only if there is such a function.
    pub fn affected_functions(
        &self,
        alloc: Global,
    ) -> rustsec_values::Result<Option<Vec<FunctionPath>>>
        ensures ok { IfOk result (λ o. option_map (λ v. v.items) o ≡ functions_of self.now) }
        ensures err { IfErr result IsMemory }

        // The answer that no function is listed takes no memory.
        ensures refused { OnErr result (functions_of self.now ≢ None) }

        // The answer that functions are listed, and none of them has such a requirement, takes no memory.
        ensures none { OnErr result (functions_of self.now ≢ Some []) }
    {
        match self.affected {
            Some(affected) => {
                if affected.functions.is_empty() {
                    return Ok(None);
                }
                let package = self.package;
                let paths = matching(alloc, &affected.functions, &package.version)?;
                Ok(Some(paths))
            }
            None => Ok(None),
        }
    }
}

impl Vulnerability {
    /// Returns the paths of the listed functions with a requirement that the package's version matches, by Cargo's
    /// rule of matching, in the order of paths. The result is `None` if no function is listed.
    ///
    /// # Errors
    ///
    /// `OutOfMemory` alone, and only if there is such a function.
    pub fn affected_functions(
        &self,
        alloc: Global,
    ) -> rustsec_values::Result<Option<Vec<FunctionPath>>>
        ensures ok { IfOk result (λ o. option_map (λ v. v.items) o ≡ functions_of self.now) }
        ensures err { IfErr result IsMemory }

        // The answer that no function is listed takes no memory.
        ensures refused { OnErr result (functions_of self.now ≢ None) }

        // The answer that functions are listed, and none of them has such a requirement, takes no memory.
        ensures none { OnErr result (functions_of self.now ≢ Some []) }
    {
        VulnerabilityRef::new(self).affected_functions(alloc)
    }
}
