//! The pairs of a package and an advisory that count: those that a query finds, without ignored advisories.

ghost use Rattle.std.specs.Prelude.{◌≡◌, IfErr, IfOk, map};
ghost use Rattle.rustsec_values.specs.Failure.{IsMemory};
ghost use Rattle.rustsec_database.specs.Pairs.{as_vulnerability};
ghost use Rattle.rustsec_report.specs.Report.{found, without};

use rustsec_database::{Database, Pair, Query};
use rustsec_lock::Lockfile;
use rustsec_texts::Id;
use rustsec_values::{Items, Predicate, Result};
use std::alloc::Global;

/// The predicate that the advisory of a pair is not among these.
#[derive(Drop)]
struct NotAmong<'a> {
    ids: &'a Items<Id>,
}

impl<'a, 'b> Predicate<Pair<'b>> for NotAmong<'a> {
    ghost use Rattle.std.specs.Prelude.{not};
    ghost use Rattle.rustsec_report.specs.Report.{is_among};

    ghost holds = { λ test p. not (is_among test.ids.now p.by.metadata.id) };

    fn holds(&self, element: &Pair<'b>) -> bool {
        !self.ids.as_slice().contains(&element.advisory.metadata.id)
    }
}

/// Returns the pairs that a query finds for a lockfile's packages, in order, without those of ignored advisories.
pub(crate) fn counted_pairs<'a>(
    alloc: Global,
    database: &'a Database,
    lockfile: &'a Lockfile,
    query: &Query,
    ignored: &Items<Id>,
) -> Result<Items<Pair<'a>>>
    ensures ok { IfOk result (λ ps. map as_vulnerability ps ≡ without ignored.now (found database.now lockfile.now.packages query.now)) }
    ensures err { IfErr result IsMemory }
{
    let found = database.query_pairs(alloc, lockfile, query)?;
    let mut pairs = Items::from(found);
    pairs.retain(&NotAmong { ids: ignored });
    Ok(pairs)
}
