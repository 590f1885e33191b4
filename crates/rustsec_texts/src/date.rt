//! The dates of advisories.

ghost use Rattle.std.specs.Prelude.{◌≡◌, ◌<◌, ◌≤◌, IfErr, IfOk, IfSome, None, Some, nat_eq, option_map, refl};
ghost use Rattle.std.proofs.Common.{rules};
ghost use Rattle.std.specs.Cmp.{partial_equiv_from_equiv};
ghost use Rattle.std.specs.Cmp.Lexicographic.{bytes_decides, nat_list_cmp_total, nat_list_eq_equiv, pointwise, slice_cmp, texts_po, texts_ties};
ghost use Rattle.std.specs.Cmp.Rules.{hashing};
ghost use Rattle.std.specs.Hash as fed;
ghost use Rattle.std.specs.Ordering.{nat_cmp};
ghost use Rattle.rustsec_values.specs.Failure.{IsMemory, IsRefusal};
ghost use Rattle.rustsec_texts.specs.Dates.{Day, date_of, day_numbers, day_of, is_real_day};

use crate::numbers::{digits, three_parts};
use rustsec_values::{ErrorKind, ExactClone, ExactEq, FromText, Result, Text, text_error};
use std::alloc::Global;
use std::cmp::Ordering;
use std::convert::AsStr;
use std::fmt;
use std::hash::{Hash, Hasher};
use std::marker::Model;

/// A date `YYYY-MM-DD` (RFC 3339, `full-date`) of the years 2000 to 2100 that exists in the calendar.
#[derive(Clone, Debug, Drop)]
pub struct Date {
    text: Text,
    year: u32,
    month: u32,
    day: u32,
}

impl Model for Date {
    ghost use Rattle.std.specs.Prelude.{◌≡◌, ℕ, List, Some};
    ghost use Rattle.rustsec_texts.specs.Dates.{day_of};

    ghost Value = { List ℕ };

    ghost view = { λ d. d.text };

    ghost invariant = { λ d. day_of d.text ≡ Some (record { year = d.year; month = d.month; day = d.day }) };
}

/// Returns the year, the month and the day in a text `YYYY-MM-DD`.
fn day_numbers(text: &str) -> Option<(u32, u32, u32)>
    ensures value { option_map (λ d. record { year = d.0; month = d.1; day = d.2 }) result ≡ day_numbers text.now }
    ensures bound { IfSome result (λ d. (d.1 < 100) × (d.2 < 100)) }
{
    let (year, month, day) = three_parts(text)?;
    let year = digits(year, 4)?;
    let month = digits(month, 2)?;
    let day = digits(day, 2)?;
    Some((year, month, day))
}

/// Returns whether a day exists in the calendar.
fn is_real_day(year: u32, month: u32, day: u32) -> bool
    requires year { year ≤ 2100 }
    requires month { month < 100 }
    requires day { day < 100 }
    ensures { result ≡ is_real_day (record { year = year; month = month; day = day }) }
{
    jiff::civil::Date::new(year as i16, month as i8, day as i8).is_ok()
}

/// Returns the year, the month and the day of a date's text.
fn day_of(text: &str) -> Option<(u32, u32, u32)>
    ensures { option_map (λ d. record { year = d.0; month = d.1; day = d.2 }) result ≡ day_of text.now }
{
    let (year, month, day) = day_numbers(text)?;
    if !(2000..=2100).contains(&year) || !is_real_day(year, month, day) {
        return None;
    }
    Some((year, month, day))
}

impl Date {
    /// Parses a date (RFC 3339, `full-date`).
    ///
    /// # Errors
    ///
    /// `Parse` if the text is not `YYYY-MM-DD` with a year from 2000 to 2100, or the calendar has no
    /// such day; else `OutOfMemory`.
    pub fn from_str(alloc: Global, text: &str) -> Result<Date>
        ensures ok { IfOk result (λ d. date_of text.now ≡ Some d) }
        ensures text { IfOk result (λ d. d ≡ text.now) }
        ensures err { IfErr result (IsRefusal ErrorKind.Parse (date_of text.now ≡ None)) }
    {
        let Some((year, month, day)) = day_of(text) else {
            return Err(text_error(
                alloc,
                "malformed date",
                text,
                "YYYY-MM-DD, a day of the years 2000 to 2100",
            ));
        };
        let text = Text::from_str(alloc, text)?;
        Ok(Date {
            text,
            year,
            month,
            day,
        })
    }

    /// Returns the year.
    pub fn year(&self) -> u32
        ensures { option_map (λ (d : Day). d.year) (day_of self.now) ≡ Some result }
    {
        self.year
    }

    /// Returns the month, from 1 to 12.
    pub fn month(&self) -> u32
        ensures { option_map (λ (d : Day). d.month) (day_of self.now) ≡ Some result }
    {
        self.month
    }

    /// Returns the day of the month.
    pub fn day(&self) -> u32
        ensures { option_map (λ (d : Day). d.day) (day_of self.now) ≡ Some result }
    {
        self.day
    }

    /// Returns the text.
    pub fn as_str(&self) -> &str
        ensures value { result.now ≡ self.now }

        // Parsing the text gives the same date.
        ensures read_again { date_of self.now ≡ Some self.now }
    {
        self.text.as_str()
    }

    /// Returns an equal date.
    ///
    /// # Errors
    ///
    /// `OutOfMemory` alone.
    pub fn clone(&self, _alloc: Global) -> Result<Date>
        ensures ok { IfOk result (λ d. d ≡ self.now) }
        ensures err { IfErr result IsMemory }
    {
        let copy = Clone::clone(self)?;
        Ok(copy)
    }
}

impl FromText for Date {
    ghost use Rattle.rustsec_texts.specs.Dates.{date_of};

    ghost reads = { date_of };

    fn from_text(alloc: Global, text: &str) -> Result<Date> {
        Date::from_str(alloc, text)
    }
}

impl ExactClone for Date {
    ghost use Rattle.std.proofs.Common.{rules};

    ghost exact = { λ x y e. Prim.search rules };
}

impl PartialEq for Date {
    ghost eq = { pointwise nat_eq };

    ghost laws = { partial_equiv_from_equiv nat_list_eq_equiv };

    fn eq(&self, other: &Date) -> bool {
        self.text == other.text
    }
}

impl Eq for Date {
    ghost laws = { nat_list_eq_equiv };
}

impl ExactEq for Date {
    ghost decides = { bytes_decides };
}

impl PartialOrd for Date {
    ghost partial_cmp = { λ a b. Some (slice_cmp nat_cmp a b) };

    ghost laws = { texts_po };

    fn partial_cmp(&self, other: &Date) -> Option<Ordering> {
        Some(self.cmp(other))
    }
}

impl Ord for Date {
    ghost cmp = { slice_cmp nat_cmp };

    ghost total = { nat_list_cmp_total };

    ghost matches_partial_cmp = { λ a b. refl };

    ghost matches_eq = { texts_ties };

    /// Compares dates by their texts.
    fn cmp(&self, other: &Date) -> Ordering {
        self.text.cmp(&other.text)
    }
}

impl Hash for Date {
    ghost hash_input = { λ d. fed.str d };

    ghost respects_eq = { Prim.search (hashing, rules) };

    fn hash<H: Hasher>(&self, state: &mut H) {
        self.text.hash(state);
    }
}

impl fmt::Display for Date {
    ghost output = { λ d. Some d };

    fn fmt<W: fmt::Write>(&self, f: &mut fmt::Formatter<W>) -> fmt::Result {
        f.write_str(self.as_str())
    }
}

impl AsStr for Date {
    ghost text = { λ d. d };

    fn as_str(&self) -> &str {
        Date::as_str(self)
    }
}
