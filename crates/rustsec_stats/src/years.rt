//! The years of the dates of advisories.

ghost use Rattle.std.specs.Prelude.{◌≡◌, IfOk, count_by, nat_le};
ghost use Rattle.std.specs.List.{list_any};
ghost use Rattle.rustsec_stats.specs.Years.{is_of_year, is_spanned, year_of, years};

use rustsec_advisory::Advisory;
use std::alloc::{AllocError, Global};

/// Returns the year of an advisory's date.
fn year_of(advisory: &Advisory) -> u32
    ensures { result ≡ year_of advisory.now }
{
    advisory.metadata.date.year()
}

/// Returns how many advisories have a date in a year.
pub(crate) fn count_in(year: u32, advisories: &[Advisory]) -> usize
    ensures { result ≡ count_by (is_of_year year) advisories.now }
{
    advisories
        .iter()
        .filter(|advisory| year_of(advisory) == year)
        .count()
}

/// Returns whether some advisory has a date in a year or before it.
fn begins_by(year: u32, advisories: &[Advisory]) -> bool
    ensures { result ≡ list_any (λ a. nat_le (year_of a) year) advisories.now }
{
    advisories.iter().any(|advisory| year_of(advisory) <= year)
}

/// Returns whether some advisory has a date in a year or after it.
fn reaches(year: u32, advisories: &[Advisory]) -> bool
    ensures { result ≡ list_any (λ a. nat_le year (year_of a)) advisories.now }
{
    advisories.iter().any(|advisory| year <= year_of(advisory))
}

/// Returns whether a year is from the least to the greatest of the advisories' years.
fn is_spanned(year: u32, advisories: &[Advisory]) -> bool
    ensures { result ≡ is_spanned advisories.now year }
{
    begins_by(year, advisories) && reaches(year, advisories)
}

/// Returns the years from the least to the greatest of the advisories' years.
pub(crate) fn years(alloc: Global, advisories: &[Advisory]) -> Result<Vec<u32>, AllocError>
    ensures { IfOk result (λ v. v.items ≡ years advisories.now) }
{
    (2000u32..2101)
        .filter(|year| is_spanned(*year, advisories))
        .collect(alloc)
}
