//! Counts advisories, by table and row.

ghost use Rattle.std.specs.Prelude.{◌≡◌, IfErr, IfOk, count_by};
ghost use Rattle.std.specs.Fmt.{decimal};
ghost use Rattle.rustsec_values.specs.Failure.{IsMemory};
ghost use Rattle.rustsec_stats.specs.Stats.{count_of, stats_of, table_of};
ghost use Rattle.rustsec_stats.specs.Years.{is_of_year, years};

use crate::categories::CategoryRow;
use crate::rows::{CollectionRow, KindRow, Row, WithdrawalRow};
use crate::severities::SeverityRow;
use crate::years::{count_in, years};
use rustsec_advisory::Advisory;
use rustsec_values::{ClosedEnum, Items, Result, Text};
use std::alloc::{AllocError, Global};

/// A row of a table.
#[derive(Debug, Drop)]
pub struct Count {
    /// The name of the row.
    pub name: Text,
    /// How many advisories the row counts.
    pub count: usize,
}

/// How many advisories there are, by table and row.
#[derive(Debug, Drop)]
pub struct Stats {
    /// The number of advisories.
    pub advisories: usize,
    /// By collection: `crates`, `rust` and `no-collection`.
    pub collections: Items<Count>,
    /// By the year of the date, from the least year to the greatest.
    pub years: Items<Count>,
    /// By kind: `vulnerability`, `notice`, `unmaintained`, `unsound` and `other`.
    pub kinds: Items<Count>,
    /// By category: the ten that have a name of their own, and `other`.
    pub categories: Items<Count>,
    /// By severity: `none`, `low`, `medium`, `high`, `critical` and `no-score`.
    pub severities: Items<Count>,
    /// By withdrawal: `withdrawn` and `current`.
    pub withdrawals: Items<Count>,
}

/// Returns how many advisories a row counts.
fn counted<R: Row>(row: &R, advisories: &[Advisory]) -> usize
    ensures { result ≡ count_by (R.counts row.now) advisories.now }
{
    advisories
        .iter()
        .filter(|advisory| row.counts(advisory))
        .count()
}

/// Returns the name of a row, and how many advisories it counts.
fn count_of<R: ClosedEnum + Row>(
    alloc: Global,
    row: &R,
    advisories: &[Advisory],
) -> std::result::Result<Count, AllocError>
    ensures { IfOk result (λ c. c ≡ count_of (R.name_of row.now) (R.counts row.now) advisories.now) }
{
    let name = Text::from_str(alloc, row.name())?;
    let count = counted(row, advisories);
    Ok(Count { name, count })
}

/// Returns the table whose rows are the values of a type.
fn table<R: ClosedEnum + Row>(
    alloc: Global,
    advisories: &[Advisory],
) -> std::result::Result<Items<Count>, AllocError>
    ensures { IfOk result (λ t. t ≡ table_of R.name_of R.counts R.values advisories.now) }
{
    let mut counts = Items::new(alloc);
    for row in R::all() {
        counts.push(count_of(alloc, row, advisories)?)?;
    }
    Ok(counts)
}

/// Returns a year, and how many advisories have a date in it.
fn year_count(
    alloc: Global,
    year: u32,
    advisories: &[Advisory],
) -> std::result::Result<Count, AllocError>
    ensures { IfOk result (λ c. c ≡ count_of (decimal year) (is_of_year year) advisories.now) }
{
    let name = Text::from(year.to_string(alloc)?);
    let count = count_in(year, advisories);
    Ok(Count { name, count })
}

/// Returns the table whose rows are these years.
fn table_of_years(
    alloc: Global,
    years: &[u32],
    advisories: &[Advisory],
) -> std::result::Result<Items<Count>, AllocError>
    ensures { IfOk result (λ t. t ≡ table_of decimal is_of_year years.now advisories.now) }
{
    let mut counts = Items::new(alloc);
    for year in years {
        counts.push(year_count(alloc, *year, advisories)?)?;
    }
    Ok(counts)
}

/// Returns the table of the years, from the least to the greatest.
fn year_table(
    alloc: Global,
    advisories: &[Advisory],
) -> std::result::Result<Items<Count>, AllocError>
    ensures { IfOk result (λ t. t ≡ table_of decimal is_of_year (years advisories.now) advisories.now) }
{
    let years = years(alloc, advisories)?;
    table_of_years(alloc, years.as_slice(), advisories)
}

/// Returns all tables.
fn tables(alloc: Global, advisories: &[Advisory]) -> std::result::Result<Stats, AllocError>
    ensures { IfOk result (λ s. s ≡ stats_of advisories.now) }
{
    Ok(Stats {
        advisories: advisories.len(),
        collections: table::<CollectionRow>(alloc, advisories)?,
        years: year_table(alloc, advisories)?,
        kinds: table::<KindRow>(alloc, advisories)?,
        categories: table::<CategoryRow>(alloc, advisories)?,
        severities: table::<SeverityRow>(alloc, advisories)?,
        withdrawals: table::<WithdrawalRow>(alloc, advisories)?,
    })
}

/// Counts advisories by collection, year, kind, category, severity and withdrawal. Withdrawn ones are counted in each
/// table. An advisory is in one row of a table; it is in several rows of categories if it has several, and in none
/// if it has none.
///
/// # Errors
///
/// `OutOfMemory` alone.
pub fn stats_of(alloc: Global, advisories: &[Advisory]) -> Result<Stats>
    ensures ok { IfOk result (λ s. s ≡ stats_of advisories.now) }
    ensures err { IfErr result IsMemory }
{
    Ok(tables(alloc, advisories)?)
}
