//! The answer of a check.

ghost use Rattle.std.specs.Prelude.{◌≡◌};
ghost use Rattle.rustsec_check.specs.Findings.{fails};

use crate::findings::{Finding, IgnoredPair};
use rustsec_texts::Id;
use std::marker::Model;

/// The answer of a check.
#[derive(Drop)]
pub struct Check<'a> {
    /// The findings, package by package in the lockfile's order: of each the vulnerabilities and then the warnings, in
    /// the database's order.
    pub findings: Vec<Finding<'a>>,
    /// The pairs that would be findings if their advisories were not ignored, likewise.
    pub ignored: Vec<IgnoredPair<'a>>,
    /// The ignored IDs that some advisory has, and that ignored no pair.
    pub unused: Vec<&'a Id>,
    /// The ignored IDs that no advisory has.
    pub unknown: Vec<&'a Id>,
    /// How many pairs the least severity alone left out.
    pub below_threshold: usize,
}

impl<'a> Model for Check<'a> {
    ghost use Rattle.std.specs.Prelude.{map};
    ghost use Rattle.rustsec_check.specs.Values.{CheckValue};

    ghost Value = { CheckValue };

    ghost view = { λ c. record {
      findings = c.findings.items;
      ignored = c.ignored.items;
      unused = map (λ i. i.now) c.unused.items;
      unknown = map (λ i. i.now) c.unknown.items;
      below_threshold = c.below_threshold;
    } };
}

impl<'a> Check<'a> {
    /// Returns whether some finding is denied and not old.
    pub fn fails(&self) -> bool
        ensures { result ≡ fails self.now.findings }
    {
        self.findings
            .iter()
            .any(|finding| finding.is_denied && !finding.is_old)
    }
}
