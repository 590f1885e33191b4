//! Writes stats as text: tables with bars.

ghost use Rattle.std.specs.Prelude.{◌≡◌, ◌++◌, ◌-◌, IfErr, IfOk, OnOk, codes, string_bytes};
ghost use Rattle.std.specs.Fmt.{decimal};
ghost use Rattle.std.specs.List.{repeat};
ghost use Rattle.rustsec_values.specs.Failure.{IsMemory};
ghost use Rattle.rustsec_stats.specs.StatsText.{bar, bar_width, count_line, first_tables, greatest, last_tables, row_line, row_lines, spaces, stats_text, table_text};

use crate::stats::{Count, Stats};
use rustsec_values::Result;
use std::alloc::{AllocError, Global};

/// Returns the greatest count of a table.
fn greatest(counts: &[Count]) -> usize
    ensures { result ≡ greatest counts.now }
{
    counts.iter().fold(0, |most, row| most.max(row.count))
}

/// Returns how many marks the bar of a count has.
fn bar_width(most: usize, count: usize) -> usize
    ensures { result ≡ bar_width most count }
{
    if most == 0 {
        return 0;
    }
    let most = most as u128;
    let marks = ((count as u128) * 40 + (most - 1)) / most;
    marks.min(40) as usize
}

/// Appends as many spaces as fill up a text to a width.
fn push_spaces(
    alloc: Global,
    line: &mut String,
    width: usize,
    text: &str,
) -> std::result::Result<(), AllocError>
    ensures { OnOk result (string_bytes line.new ≡ string_bytes line.old ++ spaces width text.now) }
{
    let spaces = " ".repeat(alloc, width.saturating_sub(text.len()))?;
    line.push_str(&spaces)?;
    Ok(())
}

/// Appends a bar.
fn push_bar(alloc: Global, line: &mut String, width: usize) -> std::result::Result<(), AllocError>
    ensures { OnOk result (string_bytes line.new ≡ string_bytes line.old ++ bar width) }
{
    if width == 0 {
        return Ok(());
    }
    let marks = "#".repeat(alloc, width)?;
    line.push_str("  ")?;
    line.push_str(&marks)?;
    Ok(())
}

/// Appends a count, at the right of its column.
fn push_count(alloc: Global, line: &mut String, count: usize) -> std::result::Result<(), AllocError>
    ensures { OnOk result (string_bytes line.new ≡ string_bytes line.old ++ (spaces 6 (decimal count) ++ decimal count)) }
{
    let digits = count.to_string(alloc)?;
    push_spaces(alloc, line, 6, &digits)?;
    line.push_str(&digits)?;
    Ok(())
}

/// Appends the line of a row.
#[tactic(auto, unfolding(crate::specs::StatsText::row_line))]
fn push_row(
    alloc: Global,
    text: &mut String,
    most: usize,
    row: &Count,
) -> std::result::Result<(), AllocError>
    ensures { OnOk result (string_bytes text.new ≡ string_bytes text.old ++ row_line most row.now) }
{
    text.push_str("  ")?;
    text.push_str(row.name.as_str())?;
    push_spaces(alloc, text, 22, row.name.as_str())?;
    push_count(alloc, text, row.count)?;
    push_bar(alloc, text, bar_width(most, row.count))?;
    text.push_str("\n")?;
    Ok(())
}

/// Appends the lines of the rows.
fn push_rows(
    alloc: Global,
    text: &mut String,
    most: usize,
    counts: &[Count],
) -> std::result::Result<(), AllocError>
    ensures { OnOk result (string_bytes text.new ≡ string_bytes text.old ++ row_lines most counts.now) }
{
    for row in counts {
        push_row(alloc, text, most, row)?;
    }
    Ok(())
}

/// Appends a table.
#[tactic(auto, unfolding(crate::specs::StatsText::table_text))]
fn push_table(
    alloc: Global,
    text: &mut String,
    heading: &str,
    counts: &[Count],
) -> std::result::Result<(), AllocError>
    ensures { OnOk result (string_bytes text.new ≡ string_bytes text.old ++ table_text heading.now counts.now) }
{
    text.push_str("\n")?;
    text.push_str(heading)?;
    text.push_str("\n")?;
    push_rows(alloc, text, greatest(counts), counts)
}

/// Returns the line with the number of advisories.
#[tactic(auto, unfolding(crate::specs::StatsText::count_line))]
fn count_line(alloc: Global, count: usize) -> std::result::Result<String, AllocError>
    ensures { IfOk result (λ t. string_bytes t ≡ count_line count) }
{
    format!(in alloc; "advisories: {count}\n")
}

/// Appends the tables of collections, years and kinds.
#[tactic(auto, unfolding(crate::specs::StatsText::first_tables))]
fn push_first(
    alloc: Global,
    text: &mut String,
    stats: &Stats,
) -> std::result::Result<(), AllocError>
    ensures { OnOk result (string_bytes text.new ≡ string_bytes text.old ++ first_tables stats.now) }
{
    push_table(alloc, text, "collections", stats.collections.as_slice())?;
    push_table(alloc, text, "years", stats.years.as_slice())?;
    push_table(alloc, text, "kinds", stats.kinds.as_slice())?;
    Ok(())
}

/// Appends the tables of categories, severities and withdrawals.
#[tactic(auto, unfolding(crate::specs::StatsText::last_tables))]
fn push_last(alloc: Global, text: &mut String, stats: &Stats) -> std::result::Result<(), AllocError>
    ensures { OnOk result (string_bytes text.new ≡ string_bytes text.old ++ last_tables stats.now) }
{
    push_table(alloc, text, "categories", stats.categories.as_slice())?;
    push_table(alloc, text, "severities", stats.severities.as_slice())?;
    push_table(alloc, text, "withdrawals", stats.withdrawals.as_slice())?;
    Ok(())
}

/// Returns the number of advisories and all tables.
#[tactic(auto, unfolding(crate::specs::StatsText::stats_text))]
fn text_of(alloc: Global, stats: &Stats) -> std::result::Result<String, AllocError>
    ensures { IfOk result (λ t. string_bytes t ≡ stats_text stats.now) }
{
    let mut text = count_line(alloc, stats.advisories)?;
    push_first(alloc, &mut text, stats)?;
    push_last(alloc, &mut text, stats)?;
    Ok(text)
}

/// Returns the text of stats: the number of advisories, and the six tables. A table has a heading, and a line for each
/// row: its name, its count, and a bar. The bar of the greatest count of a table has 40 marks, and that of any other a
/// share of them, rounded up, so that only a count of 0 has no bar.
///
/// # Errors
///
/// `OutOfMemory` alone.
pub fn stats_text(alloc: Global, stats: &Stats) -> Result<String>
    ensures ok { IfOk result (λ t. string_bytes t ≡ stats_text stats.now) }
    ensures err { IfErr result IsMemory }
{
    Ok(text_of(alloc, stats)?)
}
