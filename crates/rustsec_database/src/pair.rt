//! Pairs of a package and an advisory that a query finds, as references.

ghost use Rattle.std.specs.Prelude.{◌≡◌, ◌++◌, ◌<◌, IfErr, IfOk, OnErr, OnOk, length, map};
ghost use Rattle.rustsec_values.specs.Failure.{IsMemory};
ghost use Rattle.rustsec_database.specs.Pairs.{as_vulnerability};

use crate::Vulnerability;
use rustsec_advisory::Advisory;
use rustsec_lock::package::Package;
use rustsec_values::{Items, Result};
use std::alloc::{AllocError, Global};
use std::marker::Model;

/// A package, and an advisory that a query finds for it. Both are references.
#[derive(Drop)]
pub struct Pair<'a> {
    /// The package.
    pub package: &'a Package,
    /// The advisory.
    pub advisory: &'a Advisory,
}

impl<'a> Model for Pair<'a> {
    ghost use Rattle.rustsec_database.specs.Pairs.{Pair};

    ghost Value = { Pair };

    ghost view = { λ p. record { of = p.«package».now; by = p.advisory.now } };
}

impl<'a> Pair<'a> {
    /// Returns the pair as a vulnerability, with copies of the package and of the advisory.
    ///
    /// # Errors
    ///
    /// `OutOfMemory` alone.
    pub fn vulnerability(&self, alloc: Global) -> Result<Vulnerability>
        ensures ok { IfOk result (λ v. v ≡ as_vulnerability self.now) }
        ensures err { IfErr result IsMemory }
    {
        Vulnerability::new(alloc, self.advisory, self.package)
    }
}

/// Appends one pair for each advisory, all of `package`.
pub(crate) fn push_pairs<'a>(
    package: &'a Package,
    advisories: &[&'a Advisory],
    pairs: &mut Vec<Pair<'a>>,
) -> std::result::Result<(), AllocError>
    ensures { OnOk result (pairs.new.items
        ≡ pairs.old.items ++ map (λ a. record { of = «package».now; by = a }) (map (λ a. a.now) advisories.now)) }
{
    for advisory in advisories {
        let pair = Pair { package, advisory };
        pairs.push(pair).map_err(|_| AllocError)?;
    }
    Ok(())
}

/// Returns some pairs as vulnerabilities, in order.
///
/// # Errors
///
/// `OutOfMemory` alone, and only if there is a pair.
pub fn vulnerabilities_of(alloc: Global, pairs: &[Pair<'_>]) -> Result<Items<Vulnerability>>
    ensures ok { IfOk result (λ v. v ≡ map as_vulnerability pairs.now) }
    ensures err { IfErr result IsMemory }

    // An empty slice takes no memory.
    ensures none { OnErr result (0 < length pairs.now) }
{
    let mut vulnerabilities = Items::new(alloc);
    for pair in pairs {
        let vulnerability = pair.vulnerability(alloc)?;
        vulnerabilities.push(vulnerability)?;
    }
    Ok(vulnerabilities)
}
