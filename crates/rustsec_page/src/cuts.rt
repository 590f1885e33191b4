//! The versions at which a line of versions has ticks, and where each is drawn.

ghost use Rattle.std.specs.Prelude.{◌≡◌, IfOk, OnOk, length, map, option_map};
ghost use Rattle.std.specs.List.{filter, fold, list_any};
ghost use Rattle.semver.specs.Identifiers.{parts_of};
ghost use Rattle.rustsec_versions.specs.order.Precedence.{is_below};
ghost use Rattle.rustsec_page.specs.Lines.{cuts_of, is_level, place, width, with_cut, with_end, with_range, x_from, x_of, x_till};

use rustsec_versions::OsvRange;
use semver::Version;
use std::alloc::{AllocError, Global};

/// Returns whether two versions have the same precedence.
fn is_level(a: &Version, b: &Version) -> bool
    ensures { result ≡ is_level (parts_of a.now) (parts_of b.now) }
{
    a.cmp_precedence(b).is_eq()
}

/// Returns whether a version is below another one, in precedence.
fn is_below(a: &Version, b: &Version) -> bool
    ensures { result ≡ is_below (parts_of a.now) (parts_of b.now) }
{
    a.cmp_precedence(b).is_lt()
}

/// Returns whether some version has the precedence of another one.
fn some_level(versions: &[Version], version: &Version) -> bool
    ensures { result ≡ list_any (λ c. is_level (parts_of c) (parts_of version.now)) versions.now }
{
    versions.iter().any(|other| is_level(other, version))
}

/// Returns whether a cut has the precedence of a version.
fn has_level(cuts: &[Version], version: &Version) -> bool
    ensures { result ≡ list_any (λ c. is_level c (parts_of version.now)) (map parts_of cuts.now) }
{
    some_level(cuts, version)
}

/// Adds a version to cuts, unless one of them has its precedence.
fn push_cut(cuts: &mut Vec<Version>, version: &Version) -> Result<(), AllocError>
    ensures { OnOk result (map parts_of cuts.new.items
        ≡ with_cut (map parts_of cuts.old.items) (parts_of version.now)) }
{
    if !has_level(cuts.as_slice(), version) {
        let cut = version.clone()?;
        cuts.push(cut)?;
    }
    Ok(())
}

/// Adds a version to cuts, if present.
fn push_end(cuts: &mut Vec<Version>, end: &Option<Version>) -> Result<(), AllocError>
    ensures { OnOk result (map parts_of cuts.new.items
        ≡ with_end (map parts_of cuts.old.items) (option_map parts_of end.now)) }
{
    match end {
        Some(version) => push_cut(cuts, version),
        None => Ok(()),
    }
}

/// Adds the ends of a range to cuts.
#[tactic(auto, unfolding(crate::specs::Lines::with_range))]
fn push_range(cuts: &mut Vec<Version>, range: &OsvRange) -> Result<(), AllocError>
    ensures { OnOk result (map parts_of cuts.new.items
        ≡ with_range (map parts_of cuts.old.items) range.now) }
{
    push_end(cuts, &range.introduced)?;
    push_end(cuts, &range.fixed)
}

/// Adds the ends of ranges to cuts.
fn push_ranges(cuts: &mut Vec<Version>, ranges: &[OsvRange]) -> Result<(), AllocError>
    ensures { OnOk result (map parts_of cuts.new.items
        ≡ fold with_range (map parts_of cuts.old.items) ranges.now) }
{
    for range in ranges {
        push_range(cuts, range)?;
    }
    Ok(())
}

/// Returns the cuts of a line: the ends of the ranges, the locked version and the least free one.
#[tactic(auto, unfolding(crate::specs::Lines::cuts_of))]
pub(crate) fn cuts_of(
    alloc: Global,
    ranges: &[OsvRange],
    locked: &Version,
    free: &Option<Version>,
) -> Result<Vec<Version>, AllocError>
    ensures { IfOk result (λ cuts. map parts_of cuts.items
        ≡ cuts_of ranges.now (parts_of locked.now) (option_map parts_of free.now)) }
{
    let mut cuts = Vec::new(alloc);
    push_ranges(&mut cuts, ranges)?;
    push_cut(&mut cuts, locked)?;
    push_end(&mut cuts, free)?;
    Ok(cuts)
}

/// Returns how many versions are below another one.
fn count_below(versions: &[Version], version: &Version) -> usize
    ensures { result ≡ length (filter (λ c. is_below (parts_of c) (parts_of version.now)) versions.now) }
{
    versions
        .iter()
        .filter(|other| is_below(other, version))
        .count()
}

/// Returns how many cuts are below a version.
fn place(cuts: &[Version], version: &Version) -> usize
    ensures { result ≡ place (map parts_of cuts.now) (parts_of version.now) }
{
    count_below(cuts, version)
}

/// Returns where a version is drawn.
#[tactic(auto, unfolding(crate::specs::Lines::x_of))]
pub(crate) fn x_of(cuts: &[Version], version: &Version) -> u128
    ensures { result ≡ x_of (map parts_of cuts.now) (parts_of version.now) }
{
    96 * (place(cuts, version) as u128) + 48
}

/// Returns how wide the line is.
#[tactic(auto, unfolding(crate::specs::Lines::width))]
pub(crate) fn width(cuts: &[Version]) -> u128
    ensures { result ≡ width (map parts_of cuts.now) }
{
    96 * (cuts.len() as u128)
}

/// Returns where the start of a range is drawn: at the left edge without one.
pub(crate) fn x_from(cuts: &[Version], introduced: &Option<Version>) -> u128
    ensures { result ≡ x_from (map parts_of cuts.now) (option_map parts_of introduced.now) }
{
    match introduced {
        Some(version) => x_of(cuts, version),
        None => 0,
    }
}

/// Returns where the end of a range is drawn: at the right edge without one.
pub(crate) fn x_till(cuts: &[Version], fixed: &Option<Version>) -> u128
    ensures { result ≡ x_till (map parts_of cuts.now) (option_map parts_of fixed.now) }
{
    match fixed {
        Some(version) => x_of(cuts, version),
        None => width(cuts),
    }
}
