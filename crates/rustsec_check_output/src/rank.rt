//! Returns how severe a finding is, for the order in which findings are written.

ghost use Rattle.std.specs.Prelude.{◌≡◌, IfOk};
ghost use Rattle.rustsec_check_output.specs.CheckText.{is_above, is_of, rank_of, rank_place, rank_with, rated, ranks};

use crate::rating::severity_of;
use rustsec_check::Finding;
use rustsec_lock::Severity;
use rustsec_texts::WarningKind;
use std::alloc::{AllocError, Global};
use std::marker::Model;

/// How severe a finding is.
#[derive(Clone, Copy)]
pub enum Rank {
    /// A vulnerability that is rated critical.
    Critical,
    /// A vulnerability that is rated high.
    High,
    /// A vulnerability that is rated medium.
    Medium,
    /// A vulnerability that is rated low.
    Low,
    /// A vulnerability with the score 0.0.
    Harmless,
    /// A vulnerability without a rating.
    Unrated,
    /// A warning.
    Warning,
}

impl Rank {
    /// Returns all ranks, the most severe one first.
    pub(crate) fn all() -> &'static [Rank]
        ensures { result.now ≡ ranks }
    {
        &[
            Rank::Critical,
            Rank::High,
            Rank::Medium,
            Rank::Low,
            Rank::Harmless,
            Rank::Unrated,
            Rank::Warning,
        ]
    }

    /// Returns the place of the rank among all.
    pub fn place(self) -> usize
        ensures { result ≡ rank_place self }
    {
        match self {
            Rank::Critical => 0,
            Rank::High => 1,
            Rank::Medium => 2,
            Rank::Low => 3,
            Rank::Harmless => 4,
            Rank::Unrated => 5,
            Rank::Warning => 6,
        }
    }
}

/// Returns the rank of a vulnerability with this rating, if any.
fn rated(severity: Option<Severity>) -> Rank
    ensures { result ≡ rated severity }
{
    match severity {
        Some(Severity::Critical) => Rank::Critical,
        Some(Severity::High) => Rank::High,
        Some(Severity::Medium) => Rank::Medium,
        Some(Severity::Low) => Rank::Low,
        Some(Severity::None) => Rank::Harmless,
        None => Rank::Unrated,
    }
}

/// Returns the rank of a finding of this kind with this rating.
fn rank_with(kind: Option<WarningKind>, severity: Option<Severity>) -> Rank
    ensures { result ≡ rank_with kind severity }
{
    match kind {
        Some(_) => Rank::Warning,
        None => rated(severity),
    }
}

/// Returns the rank of a finding.
pub fn rank_of(finding: &Finding<'_>) -> Rank
    ensures { result ≡ rank_of finding.now }
{
    rank_with(finding.kind, severity_of(&finding.advisory.metadata))
}

/// A finding with its rank, which is found once and asked for often.
#[derive(Drop)]
pub(crate) struct Ranked<'a> {
    /// The finding.
    pub(crate) finding: &'a Finding<'a>,
    rank: Rank,
}

/// Contracts see the finding.
impl<'a> Model for Ranked<'a> {
    ghost use Rattle.std.specs.Prelude.{◌≡◌};
    ghost use Rattle.rustsec_check.specs.Values.{FindingValue};
    ghost use Rattle.rustsec_check_output.specs.CheckText.{rank_of};

    ghost Value = { FindingValue };

    ghost view = { λ r. r.finding.now };

    ghost invariant = { λ r. r.rank ≡ rank_of r.finding.now };
}

impl<'a> Ranked<'a> {
    /// Returns a finding with its rank.
    fn new(finding: &'a Finding<'a>) -> Ranked<'a>
        ensures { result ≡ finding.now }
    {
        Ranked {
            finding,
            rank: rank_of(finding),
        }
    }

    /// Returns the same finding with the same rank.
    pub(crate) fn copy(&self) -> Ranked<'a>
        ensures { result ≡ self.now }
    {
        Ranked {
            finding: self.finding,
            rank: self.rank,
        }
    }

    /// Returns the place of the package that the finding is about.
    pub(crate) fn place(&self) -> usize
        ensures { result ≡ self.now.place }
    {
        let found = self.finding;
        found.place
    }

    /// Returns whether the finding is of a rank.
    pub(crate) fn is_of(&self, rank: Rank) -> bool
        ensures { result ≡ is_of rank self.now }
    {
        self.rank.place() == rank.place()
    }

    /// Returns whether the finding is of a rank that is more severe than this one.
    pub(crate) fn is_above(&self, rank: Rank) -> bool
        ensures { result ≡ is_above rank self.now }
    {
        self.rank.place() < rank.place()
    }
}

/// Returns findings with their ranks, in order.
pub(crate) fn with_ranks<'a>(
    alloc: Global,
    findings: &'a [Finding<'a>],
) -> Result<Vec<Ranked<'a>>, AllocError>
    ensures { IfOk result (λ v. v.items ≡ findings.now) }
{
    let mut ranked = Vec::new(alloc);
    for finding in findings {
        ranked.push(Ranked::new(finding))?;
    }
    Ok(ranked)
}
