//! Writes the findings of a check for people, the most severe ones first.

ghost use Rattle.std.specs.Prelude.{◌≡◌, ◌++◌, IfOk, OnOk, length, string_bytes};
ghost use Rattle.std.specs.List.{filter, flat_map};
ghost use Rattle.rustsec_graph.specs.Entries.{places};
ghost use Rattle.rustsec_check_output.specs.CheckText.{block, by_rank, group_at, groups_of, in_order, is_of, is_topped_by};

use crate::block::push_block;
use crate::rank::{Rank, Ranked};
use crate::selection::{Above, At, Of, has_at, selected};
use rustsec_lock::package::Package;
use std::alloc::{AllocError, Global};

/// The findings to write, with the packages of the lockfile, in colour or without.
#[derive(Drop)]
pub(crate) struct Page<'a> {
    pub(crate) packages: &'a [Package],
    pub(crate) findings: &'a [Ranked<'a>],
    pub(crate) colored: bool,
}

/// Appends the blocks of the findings that are of a rank.
fn push_rank(
    text: &mut String,
    page: &Page<'_>,
    findings: &[Ranked<'_>],
    rank: Rank,
) -> Result<(), AllocError>
    ensures { OnOk result (string_bytes text.new ≡ string_bytes text.old ++ flat_map (block page.now.colored page.now.packages.now)
        (filter (is_of rank) findings.now)) }
{
    for finding in findings {
        if finding.is_of(rank) {
            push_block(text, page.colored, page.packages, finding.finding)?;
        }
    }
    Ok(())
}

/// Appends the blocks of findings, rank by rank.
fn push_ranks(text: &mut String, page: &Page<'_>, findings: &[Ranked<'_>]) -> Result<(), AllocError>
    ensures { OnOk result (string_bytes text.new ≡ string_bytes text.old ++ flat_map (block page.now.colored page.now.packages.now)
        (by_rank findings.now)) }
{
    for rank in Rank::all() {
        push_rank(text, page, findings, *rank)?;
    }
    Ok(())
}

/// Appends the blocks of the findings about the package at a place, rank by rank.
fn push_group(
    alloc: Global,
    text: &mut String,
    page: &Page<'_>,
    place: usize,
) -> Result<(), AllocError>
    ensures { OnOk result (string_bytes text.new ≡ string_bytes text.old ++ flat_map (block page.now.colored page.now.packages.now)
        (group_at page.now.findings.now place)) }
{
    let found = selected(alloc, page.findings, &At { place })?;
    push_ranks(text, page, &found)
}

/// Returns the places of the packages whose most severe finding is of a rank, in order.
fn topped_by(alloc: Global, page: &Page<'_>, rank: Rank) -> Result<Vec<usize>, AllocError>
    ensures { IfOk result (λ v. v.items ≡ filter (is_topped_by page.now.findings.now rank) (places (length page.now.packages.now))) }
{
    let of = selected(alloc, page.findings, &Of { rank })?;
    let above = selected(alloc, page.findings, &Above { rank })?;
    (0..page.packages.len())
        .filter(|place| has_at(&of, *place) && !has_at(&above, *place))
        .collect(alloc)
}

/// Appends the blocks of the findings about the packages whose most severe finding is of a rank.
fn push_groups(
    alloc: Global,
    text: &mut String,
    page: &Page<'_>,
    rank: Rank,
) -> Result<(), AllocError>
    ensures { OnOk result (string_bytes text.new ≡ string_bytes text.old ++ flat_map (block page.now.colored page.now.packages.now)
        (groups_of page.now.findings.now (length page.now.packages.now) rank)) }
{
    let places = topped_by(alloc, page, rank)?;
    for place in &places {
        push_group(alloc, text, page, *place)?;
    }
    Ok(())
}

/// Appends the blocks of all findings.
pub(crate) fn push_blocks(
    alloc: Global,
    text: &mut String,
    page: &Page<'_>,
) -> Result<(), AllocError>
    ensures { OnOk result (string_bytes text.new ≡ string_bytes text.old ++ flat_map (block page.now.colored page.now.packages.now)
        (in_order page.now.findings.now (length page.now.packages.now))) }
{
    for rank in Rank::all() {
        push_groups(alloc, text, page, *rank)?;
    }
    Ok(())
}
