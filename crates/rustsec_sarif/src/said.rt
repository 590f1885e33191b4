//! What is said about a package, and about the lockfile that has it.

use rustsec_lock::package::Package;
use rustsec_toml::Place;
use std::marker::Model;

/// The lockfile that results are about: its path, the places of the headers in its text, and how many packages it has.
#[derive(Drop)]
pub(crate) struct File<'a> {
    pub(crate) path: &'a str,
    pub(crate) places: &'a [Place],
    pub(crate) count: usize,
}

impl<'a> Model for File<'a> {
    ghost use Rattle.rustsec_sarif.specs.SarifTree.{FileValue};

    ghost Value = { FileValue };

    ghost view = { λ f. record { path = f.path.now; places = f.places.now; count = f.count } };
}

/// What is said about a package: the rule and its index, the level, the message, and the package at its index.
#[derive(Drop)]
pub(crate) struct Said<'a> {
    pub(crate) rule: &'a str,
    pub(crate) index: usize,
    pub(crate) level: &'a str,
    pub(crate) message: &'a str,
    pub(crate) package: &'a Package,
    pub(crate) place: usize,
}

impl<'a> Model for Said<'a> {
    ghost use Rattle.rustsec_sarif.specs.SarifTree.{SaidValue};

    ghost Value = { SaidValue };

    ghost view = { λ s. record {
      rule = s.rule.now;
      index = s.index;
      level = s.level.now;
      message = s.message.now;
      «package» = s.«package».now;
      place = s.place;
    } };
}
