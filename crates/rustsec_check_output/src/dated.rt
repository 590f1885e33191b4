//! How many advisories a database has, and their latest date.

ghost use Rattle.std.specs.Prelude.{◌≡◌, length, option_map};
ghost use Rattle.rustsec_database.specs.Latest.{last_date, later};
ghost use Rattle.rustsec_check_output.specs.CheckTree.{dated_of};

use rustsec_advisory::Advisory;
use rustsec_database::{Database, KeptDatabase};
use rustsec_texts::Date;
use std::marker::Model;

/// How many advisories a database has, and their latest date, which is found once.
#[derive(Drop)]
pub struct Dated<'a> {
    count: usize,
    latest: Option<&'a Date>,
}

impl<'a> Model for Dated<'a> {
    ghost use Rattle.std.specs.Prelude.{option_map};
    ghost use Rattle.rustsec_check_output.specs.CheckTree.{DatedValue};

    ghost Value = { DatedValue };

    ghost view = { λ d. record { count = d.count; last_date = option_map (λ date. date.now) d.latest } };
}

/// Returns the later of a date, if any, and another one.
fn later<'a>(latest: Option<&'a Date>, date: &'a Date) -> Option<&'a Date>
    ensures { option_map (λ d. d.now) result ≡ later (option_map (λ d. d.now) latest.entry) date.now }
{
    match latest {
        Some(other) => {
            if date <= other {
                Some(other)
            } else {
                Some(date)
            }
        }
        None => Some(date),
    }
}

/// Returns the latest date of an advisory.
fn last_date(advisories: &[Advisory]) -> Option<&Date>
    ensures { option_map (λ d. d.now) result ≡ last_date advisories.now }
{
    let mut latest = None;
    for advisory in advisories {
        latest = later(latest, &advisory.metadata.date);
    }
    latest
}

impl<'a> Dated<'a> {
    /// Returns how many advisories a database has, and their latest date.
    pub fn new(database: &'a Database) -> Dated<'a>
        ensures { result ≡ dated_of database.now }
    {
        let advisories = database.iter().as_slice();
        Dated {
            count: advisories.len(),
            latest: last_date(advisories),
        }
    }

    /// Returns how many advisories there are under the root of a kept database, and their latest date. Those that were
    /// not kept count too.
    pub fn of_kept(kept: &'a KeptDatabase) -> Dated<'a>
        ensures { result ≡ record { count = length kept.now.ids; last_date = kept.now.last_date } }
    {
        Dated {
            count: kept.number(),
            latest: kept.last_date(),
        }
    }

    /// Returns how many advisories the database has.
    pub fn count(&self) -> usize
        ensures { result ≡ self.now.count }
    {
        self.count
    }

    /// Returns the latest date of an advisory.
    pub(crate) fn last_date(&self) -> Option<&Date>
        ensures { option_map (λ d. d.now) result ≡ self.now.last_date }
    {
        self.latest
    }
}
