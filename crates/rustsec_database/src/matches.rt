//! Tests of advisories by a query.

use crate::query::Query;
use rustsec_advisory::Advisory;
use rustsec_lock::package::Package;
use rustsec_values::Predicate;

/// The test whether an advisory matches a query.
#[derive(Drop)]
pub struct Matches<'a> {
    /// The query.
    pub query: &'a Query,
}

impl<'a> Predicate<Advisory> for Matches<'a> {
    ghost use Rattle.rustsec_database.specs.Selects.{selects};

    ghost holds = { λ test a. selects test.query.now a };

    fn holds(&self, advisory: &Advisory) -> bool {
        self.query.matches(advisory)
    }
}

/// The test whether an advisory matches a query for a package.
#[derive(Drop)]
pub struct MatchesPackage<'a> {
    /// The query.
    pub query: &'a Query,
    /// The package, whose name, version and source are asked for.
    pub package: &'a Package,
}

impl<'a> Predicate<Advisory> for MatchesPackage<'a> {
    ghost use Rattle.rustsec_database.specs.Query.{of_package};
    ghost use Rattle.rustsec_database.specs.Selects.{selects};

    ghost holds = { λ test a. selects (of_package test.query.now test.«package».now) a };

    fn holds(&self, advisory: &Advisory) -> bool {
        self.query.matches_package(self.package, advisory)
    }
}
