//! A check with what it is written with.

use crate::dated::Dated;
use rustsec_check::{Check, Yanked};
use rustsec_lock::Lockfile;
use rustsec_policy::Ignored;
use rustsec_values::Text;
use std::marker::Model;

/// A check, with what it is written with.
#[derive(Drop)]
pub struct Written<'a, 'b> {
    /// How many advisories the database has that the check looked at, and their latest date.
    pub database: &'a Dated<'a>,
    /// The lockfile that the check looked at. Places of packages are places in it.
    pub lockfile: &'a Lockfile,
    /// The check.
    pub check: &'a Check<'b>,
    /// The entries that ignore advisories. The first that has the ID of an ignored advisory gives the reason and the
    /// last day.
    pub entries: &'a [Ignored],
    /// Notes for the reader, as they are.
    pub notes: &'a [Text],
    /// The packages that are yanked, or `None` if no index was asked.
    pub yanked: Option<&'a [Yanked<'b>]>,
}

impl<'a, 'b> Model for Written<'a, 'b> {
    ghost use Rattle.std.specs.Prelude.{option_map};
    ghost use Rattle.rustsec_check_output.specs.CheckTree.{WrittenValue};

    ghost Value = { WrittenValue };

    ghost view = { λ w. record {
      database = w.database.now;
      packages = w.lockfile.now.packages;
      check = w.check.now;
      entries = w.entries.now;
      notes = w.notes.now;
      yanked = option_map (λ y. y.now) w.yanked;
    } };
}
