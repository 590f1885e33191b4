//! Writes the findings of the page, the most severe rank first.

ghost use Rattle.std.specs.Prelude.{◌≡◌, ◌++◌, OnOk, string_bytes};
ghost use Rattle.std.specs.List.{filter, flat_map, list_any};
ghost use Rattle.rustsec_page.specs.Findings.{by_rank, finding, is_ranked, of_rank, ranked};
ghost use Rattle.rustsec_page.specs.Pieces.{text_of};

use crate::drawn::Drawn;
use crate::finding::push_finding;
use crate::pieces::push_section;
use crate::section::Section;
use rustsec_lock::package::Package;
use std::alloc::{AllocError, Global};

/// The findings to write, with the packages of the lockfile.
#[derive(Drop)]
pub(crate) struct Found<'a> {
    /// The packages.
    pub(crate) packages: &'a [Package],
    /// The findings, with the ranges of their advisories.
    pub(crate) drawn: &'a [Drawn<'a>],
}

/// Returns whether a finding has the rank at a place.
fn is_ranked(place: usize, drawn: &Drawn<'_>) -> bool
    ensures { result ≡ is_ranked place drawn.now }
{
    drawn.rank_index() == place
}

/// Returns whether some finding has the rank at a place.
fn has_ranked(drawn: &[Drawn<'_>], place: usize) -> bool
    ensures { result ≡ list_any (is_ranked place) drawn.now }
{
    drawn.iter().any(|one| is_ranked(place, one))
}

/// Appends the findings that have the rank at a place.
fn push_all_ranked(
    alloc: Global,
    text: &mut String,
    found: &Found<'_>,
    place: usize,
) -> Result<(), AllocError>
    ensures { OnOk result (string_bytes text.new ≡ string_bytes text.old
        ++ text_of (flat_map (finding found.now.packages.now) (filter (is_ranked place) found.now.drawn.now))) }
{
    for one in found.drawn {
        if is_ranked(place, one) {
            push_finding(alloc, text, found.packages, one)?;
        }
    }
    Ok(())
}

/// Appends the section of the findings that have the rank at a place.
#[tactic(auto, unfolding(crate::specs::Findings::ranked))]
fn push_ranked(
    alloc: Global,
    text: &mut String,
    found: &Found<'_>,
    place: usize,
    section: Section,
) -> Result<(), AllocError>
    ensures { OnOk result (string_bytes text.new ≡ string_bytes text.old
        ++ text_of (ranked found.now.packages.now found.now.drawn.now place section)) }
{
    push_section(text, section)?;
    push_all_ranked(alloc, text, found, place)?;
    push_section(text, Section::SectionEnd)
}

/// Appends the section of the findings that have the rank at a place, if any.
fn push_rank(
    alloc: Global,
    text: &mut String,
    found: &Found<'_>,
    place: usize,
    section: Section,
) -> Result<(), AllocError>
    ensures { OnOk result (string_bytes text.new ≡ string_bytes text.old
        ++ text_of (of_rank found.now.packages.now found.now.drawn.now place section)) }
{
    if has_ranked(found.drawn, place) {
        push_ranked(alloc, text, found, place, section)?;
    }
    Ok(())
}

/// Appends all findings.
#[tactic(auto, unfolding(crate::specs::Findings::by_rank))]
pub(crate) fn push_by_rank(
    alloc: Global,
    text: &mut String,
    found: &Found<'_>,
) -> Result<(), AllocError>
    ensures { OnOk result (string_bytes text.new ≡ string_bytes text.old
        ++ text_of (by_rank found.now.packages.now found.now.drawn.now)) }
{
    push_rank(alloc, text, found, 0, Section::Critical)?;
    push_rank(alloc, text, found, 1, Section::High)?;
    push_rank(alloc, text, found, 2, Section::Medium)?;
    push_rank(alloc, text, found, 3, Section::Low)?;
    push_rank(alloc, text, found, 4, Section::Harmless)?;
    push_rank(alloc, text, found, 5, Section::Unrated)?;
    push_rank(alloc, text, found, 6, Section::Warning)
}
