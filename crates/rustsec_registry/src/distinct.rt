//! The distinct packages of a list.

ghost use Rattle.std.specs.Prelude.{◌≡◌, IfOk, map};
ghost use Rattle.rustsec_registry.specs.Packages.{AreDistinctPackages};

use rustsec_lock::package::Package;
use std::alloc::{AllocError, Global};

/// Returns references to packages.
fn references(alloc: Global, packages: &[Package]) -> std::result::Result<Vec<&Package>, AllocError>
    ensures { IfOk result (λ v. map (λ p. p.now) v.items ≡ packages.now) }
{
    packages.iter().collect(alloc)
}

/// Returns references to the distinct packages, in their order.
pub(crate) fn distinct(
    alloc: Global,
    packages: &[Package],
) -> std::result::Result<Vec<&Package>, AllocError>
    ensures { IfOk result (λ v. AreDistinctPackages packages.now (map (λ p. p.now) v.items)) }
{
    let mut sorted = references(alloc, packages)?;
    sorted.sort()?;
    sorted.dedup();
    Ok(sorted)
}
