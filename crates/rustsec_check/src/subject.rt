//! What a check looks at.

ghost use Rattle.std.specs.Prelude.{◌≡◌};
ghost use Rattle.rustsec_check.specs.Subjects.{subject_view};

use rustsec_database::Database;
use rustsec_graph::Graph;
use rustsec_lock::Lockfile;
use rustsec_policy::Denied;
use rustsec_report::Settings;
use std::marker::Model;

/// What a check looks at.
#[derive(Clone, Copy)]
pub struct Subject<'a> {
    /// The advisories.
    pub database: &'a Database,
    /// The packages.
    pub lockfile: &'a Lockfile,
    /// The graph of the same lockfile.
    pub graph: &'a Graph,
    /// Which advisories count: for which platforms, how severe, which are ignored and which give warnings.
    pub settings: &'a Settings,
    /// Which warnings are denied.
    pub denied: &'a [Denied],
    /// An older lockfile, if any. A finding about a package that it has is old.
    pub baseline: Option<&'a Lockfile>,
}

/// A subject, as contracts see it.
#[derive(Drop)]
pub(crate) struct Viewed<'a> {
    pub(crate) database: &'a Database,
    pub(crate) lockfile: &'a Lockfile,
    pub(crate) graph: &'a Graph,
    pub(crate) settings: &'a Settings,
    pub(crate) denied: &'a [Denied],
    pub(crate) baseline: Option<&'a Lockfile>,
}

impl<'a> Model for Viewed<'a> {
    ghost use Rattle.std.specs.Prelude.{option_map};
    ghost use Rattle.rustsec_check.specs.Values.{SubjectValue};

    ghost Value = { SubjectValue };

    ghost view = { λ s. record {
      advisories = s.database.now;
      packages = s.lockfile.now.packages;
      graph = s.graph.now;
      settings = s.settings.now;
      denied = s.denied.now;
      baseline = option_map (λ l. l.now.packages) s.baseline;
    } };
}

impl<'a> Viewed<'a> {
    /// Returns a subject as contracts see it.
    pub(crate) fn new(subject: Subject<'a>) -> Viewed<'a>
        ensures { result ≡ subject_view subject.entry }
    {
        Viewed {
            database: subject.database,
            lockfile: subject.lockfile,
            graph: subject.graph,
            settings: subject.settings,
            denied: subject.denied,
            baseline: subject.baseline,
        }
    }
}
