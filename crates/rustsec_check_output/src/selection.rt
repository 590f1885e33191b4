//! Selects findings by the package that they are about and by their rank.

ghost use Rattle.std.specs.Prelude.{◌≡◌, IfOk};
ghost use Rattle.std.specs.List.{filter, list_any};
ghost use Rattle.rustsec_check_output.specs.CheckText.{is_at};

use crate::rank::{Rank, Ranked};
use rustsec_values::Predicate;
use std::alloc::{AllocError, Global};

/// The test whether a finding is about the package at a place.
#[derive(Drop)]
pub(crate) struct At {
    pub(crate) place: usize,
}

impl<'a> Predicate<Ranked<'a>> for At {
    ghost use Rattle.rustsec_check_output.specs.CheckText.{is_at};

    ghost holds = { λ test f. is_at test.place f };

    fn holds(&self, finding: &Ranked<'a>) -> bool {
        finding.place() == self.place
    }
}

/// The test whether a finding is of a rank.
#[derive(Drop)]
pub(crate) struct Of {
    pub(crate) rank: Rank,
}

impl<'a> Predicate<Ranked<'a>> for Of {
    ghost use Rattle.rustsec_check_output.specs.CheckText.{is_of};

    ghost holds = { λ test f. is_of test.rank f };

    fn holds(&self, finding: &Ranked<'a>) -> bool {
        finding.is_of(self.rank)
    }
}

/// The test whether a finding is of a rank that is more severe than this one.
#[derive(Drop)]
pub(crate) struct Above {
    pub(crate) rank: Rank,
}

impl<'a> Predicate<Ranked<'a>> for Above {
    ghost use Rattle.rustsec_check_output.specs.CheckText.{is_above};

    ghost holds = { λ test f. is_above test.rank f };

    fn holds(&self, finding: &Ranked<'a>) -> bool {
        finding.is_above(self.rank)
    }
}

/// Returns the findings that pass a test, in order.
pub(crate) fn selected<'a, T: Predicate<Ranked<'a>>>(
    alloc: Global,
    findings: &[Ranked<'a>],
    test: &T,
) -> Result<Vec<Ranked<'a>>, AllocError>
    ensures { IfOk result (λ v. v.items ≡ filter (T.holds test.now) findings.now) }
{
    let mut found = Vec::new(alloc);
    for finding in findings {
        if test.holds(finding) {
            found.push(finding.copy())?;
        }
    }
    Ok(found)
}

/// Returns whether a finding is about the package at a place.
fn is_at(place: usize, finding: &Ranked<'_>) -> bool
    ensures { result ≡ is_at place finding.now }
{
    finding.place() == place
}

/// Returns whether some finding is about the package at a place.
pub(crate) fn has_at(findings: &[Ranked<'_>], place: usize) -> bool
    ensures { result ≡ list_any (is_at place) findings.now }
{
    findings.iter().any(|finding| is_at(place, finding))
}
