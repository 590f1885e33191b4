//! Draws the line of versions of a finding (SVG 2).

ghost use Rattle.std.specs.Prelude.{◌≡◌, ◌++◌, None, OnOk, Some, map, option_map, string_bytes};
ghost use Rattle.std.specs.List.{flat_map};
ghost use Rattle.semver.specs.Identifiers.{parts_of, parts_text};
ghost use Rattle.rustsec_page.specs.Lines.{axis, caption, free_marker, free_markers, limits, line, line_over, locked_marker, range_words, shapes, stretch, tick};
ghost use Rattle.rustsec_page.specs.Pieces.{text_of};

use crate::cuts::{cuts_of, width, x_from, x_of, x_till};
use crate::drawing::Drawing;
use crate::pieces::{push_drawing, push_number, push_version};
use rustsec_versions::OsvRange;
use semver::Version;
use std::alloc::{AllocError, Global};

/// What a line of versions is drawn of.
#[derive(Drop)]
pub(crate) struct Line<'a> {
    /// The ranges that are affected.
    pub(crate) ranges: &'a [OsvRange],
    /// The locked version.
    pub(crate) locked: &'a Version,
    /// The least free version, if any.
    pub(crate) free: &'a Option<Version>,
}

/// Appends the line itself.
#[tactic(auto, unfolding(crate::specs::Lines::axis))]
fn push_axis(alloc: Global, text: &mut String, cuts: &[Version]) -> Result<(), AllocError>
    ensures { OnOk result (string_bytes text.new ≡ string_bytes text.old ++ text_of (axis (map parts_of cuts.now))) }
{
    let width = width(cuts);
    push_drawing(text, Drawing::Start)?;
    push_number(alloc, text, width)?;
    push_drawing(text, Drawing::Box)?;
    push_number(alloc, text, width)?;
    push_drawing(text, Drawing::AxisStart)?;
    push_number(alloc, text, width)?;
    push_drawing(text, Drawing::ShapeEnd)
}

/// Appends the affected stretch of a range.
#[tactic(auto, unfolding(crate::specs::Lines::stretch))]
fn push_stretch(
    alloc: Global,
    text: &mut String,
    cuts: &[Version],
    range: &OsvRange,
) -> Result<(), AllocError>
    ensures { OnOk result (string_bytes text.new ≡ string_bytes text.old
        ++ text_of (stretch (map parts_of cuts.now) range.now)) }
{
    push_drawing(text, Drawing::StretchStart)?;
    push_number(alloc, text, x_from(cuts, &range.introduced))?;
    push_drawing(text, Drawing::StretchTo)?;
    push_number(alloc, text, x_till(cuts, &range.fixed))?;
    push_drawing(text, Drawing::ShapeEnd)
}

/// Appends the affected stretches of ranges.
fn push_stretches(
    alloc: Global,
    text: &mut String,
    cuts: &[Version],
    ranges: &[OsvRange],
) -> Result<(), AllocError>
    ensures { OnOk result (string_bytes text.new ≡ string_bytes text.old
        ++ text_of (flat_map (stretch (map parts_of cuts.now)) ranges.now)) }
{
    for range in ranges {
        push_stretch(alloc, text, cuts, range)?;
    }
    Ok(())
}

/// Appends the tick of a cut.
#[tactic(auto, unfolding(crate::specs::Lines::tick))]
fn push_tick(
    alloc: Global,
    text: &mut String,
    cuts: &[Version],
    version: &Version,
) -> Result<(), AllocError>
    ensures { OnOk result (string_bytes text.new ≡ string_bytes text.old
        ++ text_of (tick (map parts_of cuts.now) (parts_of version.now))) }
{
    let x = x_of(cuts, version);
    push_drawing(text, Drawing::TickStart)?;
    push_number(alloc, text, x)?;
    push_drawing(text, Drawing::LabelStart)?;
    push_number(alloc, text, x)?;
    push_drawing(text, Drawing::LabelText)?;
    push_version(alloc, text, version)?;
    push_drawing(text, Drawing::LabelEnd)
}

/// Appends the ticks of all cuts.
fn push_ticks(alloc: Global, text: &mut String, cuts: &[Version]) -> Result<(), AllocError>
    ensures { OnOk result (string_bytes text.new ≡ string_bytes text.old
        ++ text_of (flat_map (tick (map parts_of cuts.now)) (map parts_of cuts.now))) }
{
    for cut in cuts {
        push_tick(alloc, text, cuts, cut)?;
    }
    Ok(())
}

/// Appends the marker of the locked version.
#[tactic(auto, unfolding(crate::specs::Lines::locked_marker))]
fn push_locked(
    alloc: Global,
    text: &mut String,
    cuts: &[Version],
    version: &Version,
) -> Result<(), AllocError>
    ensures { OnOk result (string_bytes text.new ≡ string_bytes text.old
        ++ text_of (locked_marker (map parts_of cuts.now) (parts_of version.now))) }
{
    let x = x_of(cuts, version);
    push_drawing(text, Drawing::LockedStart)?;
    push_number(alloc, text, x)?;
    push_drawing(text, Drawing::LockedLabel)?;
    push_number(alloc, text, x)?;
    push_drawing(text, Drawing::LockedEnd)
}

/// Appends the marker of the least free version.
#[tactic(auto, unfolding(crate::specs::Lines::free_marker))]
fn push_free(
    alloc: Global,
    text: &mut String,
    cuts: &[Version],
    version: &Version,
) -> Result<(), AllocError>
    ensures { OnOk result (string_bytes text.new ≡ string_bytes text.old
        ++ text_of (free_marker (map parts_of cuts.now) (parts_of version.now))) }
{
    let x = x_of(cuts, version);
    push_drawing(text, Drawing::FreeStart)?;
    push_number(alloc, text, x)?;
    push_drawing(text, Drawing::FreeLabel)?;
    push_number(alloc, text, x)?;
    push_drawing(text, Drawing::FreeEnd)
}

/// Appends the marker of the least free version, if present.
fn push_maybe_free(
    alloc: Global,
    text: &mut String,
    cuts: &[Version],
    free: &Option<Version>,
) -> Result<(), AllocError>
    ensures { OnOk result (string_bytes text.new ≡ string_bytes text.old
        ++ text_of (free_markers (map parts_of cuts.now) (option_map parts_of free.now))) }
{
    match free {
        Some(version) => push_free(alloc, text, cuts, version),
        None => Ok(()),
    }
}

/// Appends all shapes on the line.
#[tactic(auto, unfolding(crate::specs::Lines::shapes))]
fn push_shapes(
    alloc: Global,
    text: &mut String,
    cuts: &[Version],
    line: &Line<'_>,
) -> Result<(), AllocError>
    ensures { OnOk result (string_bytes text.new ≡ string_bytes text.old
        ++ text_of (shapes (map parts_of cuts.now) line.now.ranges.now (parts_of line.now.locked.now)
        (option_map parts_of line.now.free.now))) }
{
    push_stretches(alloc, text, cuts, line.ranges)?;
    push_ticks(alloc, text, cuts)?;
    push_locked(alloc, text, cuts, line.locked)?;
    push_maybe_free(alloc, text, cuts, line.free)
}

/// Appends which versions a range with an introduction has.
fn push_limits_from(
    alloc: Global,
    text: &mut String,
    introduced: &Version,
    fixed: &Option<Version>,
) -> Result<(), AllocError>
    ensures { OnOk result (string_bytes text.new ≡ string_bytes text.old
        ++ text_of (limits (Some (parts_of introduced.now)) (option_map parts_of fixed.now))) }
{
    push_drawing(text, Drawing::From)?;
    push_version(alloc, text, introduced)?;
    match fixed {
        Some(fixed) => {
            push_drawing(text, Drawing::To)?;
            push_version(alloc, text, fixed)
        }
        None => push_drawing(text, Drawing::On),
    }
}

/// Appends which versions a range without an introduction has.
fn push_limits_till(
    alloc: Global,
    text: &mut String,
    fixed: &Option<Version>,
) -> Result<(), AllocError>
    ensures { OnOk result (string_bytes text.new ≡ string_bytes text.old ++ text_of (limits None (option_map parts_of fixed.now))) }
{
    match fixed {
        Some(fixed) => {
            push_drawing(text, Drawing::Below)?;
            push_version(alloc, text, fixed)
        }
        None => push_drawing(text, Drawing::Every),
    }
}

/// Appends which versions a range has.
fn push_limits(alloc: Global, text: &mut String, range: &OsvRange) -> Result<(), AllocError>
    ensures { OnOk result (string_bytes text.new ≡ string_bytes text.old ++ text_of (limits range.now.introduced range.now.fixed)) }
{
    match &range.introduced {
        Some(introduced) => push_limits_from(alloc, text, introduced, &range.fixed),
        None => push_limits_till(alloc, text, &range.fixed),
    }
}

/// Appends the words of a range.
#[tactic(auto, unfolding(crate::specs::Lines::range_words))]
fn push_range_words(alloc: Global, text: &mut String, range: &OsvRange) -> Result<(), AllocError>
    ensures { OnOk result (string_bytes text.new ≡ string_bytes text.old ++ text_of (range_words range.now)) }
{
    push_drawing(text, Drawing::RangeStart)?;
    push_limits(alloc, text, range)?;
    push_drawing(text, Drawing::RangeEnd)
}

/// Appends the words of ranges.
fn push_all_words(alloc: Global, text: &mut String, ranges: &[OsvRange]) -> Result<(), AllocError>
    ensures { OnOk result (string_bytes text.new ≡ string_bytes text.old ++ text_of (flat_map range_words ranges.now)) }
{
    for range in ranges {
        push_range_words(alloc, text, range)?;
    }
    Ok(())
}

/// Appends the caption of a line: the words of its ranges.
fn push_caption(alloc: Global, text: &mut String, ranges: &[OsvRange]) -> Result<(), AllocError>
    ensures { OnOk result (string_bytes text.new ≡ string_bytes text.old ++ text_of (caption ranges.now)) }
{
    push_drawing(text, Drawing::CaptionStart)?;
    push_all_words(alloc, text, ranges)?;
    push_drawing(text, Drawing::End)
}

/// Appends a line over some cuts.
fn push_over(
    alloc: Global,
    text: &mut String,
    cuts: &[Version],
    line: &Line<'_>,
) -> Result<(), AllocError>
    ensures { OnOk result (string_bytes text.new ≡ string_bytes text.old
        ++ text_of (line_over (map parts_of cuts.now) line.now.ranges.now (parts_of line.now.locked.now)
        (option_map parts_of line.now.free.now))) }
{
    push_axis(alloc, text, cuts)?;
    push_shapes(alloc, text, cuts, line)?;
    push_caption(alloc, text, line.ranges)
}

/// Appends a line of versions.
#[tactic(auto, unfolding(crate::specs::Lines::line))]
pub(crate) fn push_line(
    alloc: Global,
    text: &mut String,
    drawn: &Line<'_>,
) -> Result<(), AllocError>
    ensures { OnOk result (string_bytes text.new ≡ string_bytes text.old
        ++ text_of (line drawn.now.ranges.now (parts_of drawn.now.locked.now) (option_map parts_of drawn.now.free.now))) }
{
    let cuts = cuts_of(alloc, drawn.ranges, drawn.locked, drawn.free)?;
    push_over(alloc, text, cuts.as_slice(), drawn)
}
