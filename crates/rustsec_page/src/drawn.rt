//! The findings of a check, each with the ranges of versions that its advisory affects.

ghost use Rattle.std.specs.Prelude.{◌≡◌, IfErr, IfOk};
ghost use Rattle.rustsec_versions.specs.ranges.AcceptedRanges.{AreRangesOf};
ghost use Rattle.rustsec_check_output.specs.CheckText.{rank_of, rank_place};
ghost use Rattle.rustsec_values.specs.Failure.{IsMemory};
ghost use Rattle.rustsec_page.specs.Findings.{AreDrawn};

use rustsec_check::Finding;
use rustsec_check_output::rank::rank_of;
use rustsec_values::Result;
use rustsec_versions::{OsvRange, Versions, ranges_for_advisory};
use std::alloc::{AllocError, Global};
use std::marker::Model;

/// A finding, with the ranges of versions that its advisory affects.
#[derive(Drop)]
pub(crate) struct Drawn<'a> {
    /// The finding.
    pub(crate) finding: &'a Finding<'a>,
    /// The ranges, in rising order.
    pub(crate) ranges: Vec<OsvRange>,
    rank_index: usize,
}

impl<'a> Model for Drawn<'a> {
    ghost use Rattle.std.specs.Prelude.{◌≡◌};
    ghost use Rattle.rustsec_check_output.specs.CheckText.{rank_of, rank_place};
    ghost use Rattle.rustsec_page.specs.Findings.{DrawnValue};

    ghost Value = { DrawnValue };

    ghost view = { λ d. record { finding = d.finding.now; ranges = d.ranges.items } };

    ghost invariant = { λ d. d.rank_index ≡ rank_place (rank_of d.finding.now) };
}

impl<'a> Drawn<'a> {
    /// Returns the place of the finding's rank among all.
    pub(crate) fn rank_index(&self) -> usize
        ensures { result ≡ rank_place (rank_of self.now.finding) }
    {
        self.rank_index
    }
}

/// Returns the ranges that an advisory's requirements leave affected.
fn ranges_of(alloc: Global, versions: &Versions) -> Result<Vec<OsvRange>>
    ensures ok { IfOk result (λ v. AreRangesOf versions.now v.items) }
    ensures err { IfErr result IsMemory }
{
    ranges_for_advisory(alloc, versions)
}

/// Returns a finding with the ranges of its advisory.
fn drawn_of<'a>(alloc: Global, finding: &'a Finding<'a>) -> Result<Drawn<'a>>
    ensures finding { IfOk result (λ d. d.finding ≡ finding.now) }
    ensures ranges { IfOk result (λ d. AreRangesOf d.finding.advisory.versions d.ranges) }
    ensures err { IfErr result IsMemory }
{
    let ranges = ranges_of(alloc, &finding.advisory.versions)?;
    let rank_index = rank_of(finding).place();
    Ok(Drawn {
        finding,
        ranges,
        rank_index,
    })
}

/// Returns findings with the ranges of their advisories, in order.
pub(crate) fn all_drawn<'a>(alloc: Global, findings: &'a [Finding<'a>]) -> Result<Vec<Drawn<'a>>>
    ensures ok { IfOk result (λ v. AreDrawn findings.now v.items) }
    ensures err { IfErr result IsMemory }
{
    let mut drawn = Vec::new(alloc);
    for finding in findings {
        let one = drawn_of(alloc, finding)?;
        drawn.push(one).map_err(|_| AllocError)?;
    }
    Ok(drawn)
}
