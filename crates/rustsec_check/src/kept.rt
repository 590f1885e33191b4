//! A check by a database that was kept for a lockfile, made the check by all advisories.

ghost use Rattle.std.specs.Prelude.{◌≡◌, not, Bool, IfErr, IfOk, List, map};
ghost use Rattle.std.specs.List.{filter, list_any};
ghost use Rattle.rustsec_values.specs.Failure.{IsMemory};
ghost use Rattle.rustsec_texts.specs.IdOrder.{id_eq};
ghost use Rattle.rustsec_advisory.specs.declared.advisory.Advisory as given;
ghost use Rattle.rustsec_database.specs.Kept.{IsKept, PassesBearing};
ghost use Rattle.rustsec_check.specs.Checks.{IsCheckOf, is_unused_of};
ghost use Rattle.rustsec_check.specs.Values.{SubjectValue};

use crate::checking::has_pair;
use crate::findings::IgnoredPair;
use crate::outcome::Check;
use rustsec_database::KeptDatabase;
use rustsec_texts::Id;
use rustsec_values::Result;
use std::alloc::{AllocError, Global};

/// Returns whether an advisory under the root has an ID, and no ignored pair does.
fn is_unused(kept: &KeptDatabase, ignored: &[IgnoredPair<'_>], id: &Id) -> bool
    ensures { result ≡ is_unused_of kept.now.ids ignored.now id.now }
{
    kept.has_id(id) && !has_pair(ignored, id)
}

/// Returns the IDs that an advisory under the root has and no ignored pair does, in order.
fn unused_of<'a>(
    alloc: Global,
    kept: &KeptDatabase,
    ignored: &[IgnoredPair<'_>],
    ids: &'a [Id],
) -> std::result::Result<Vec<&'a Id>, AllocError>
    ensures { IfOk result (λ v. map (λ i. i.now) v.items ≡ filter (is_unused_of kept.now.ids ignored.now) ids.now) }
{
    ids.iter()
        .filter(|id| is_unused(kept, ignored, id))
        .collect(alloc)
}

/// Returns the IDs that no advisory under the root has, in order.
fn unknown_of<'a>(
    alloc: Global,
    kept: &KeptDatabase,
    ids: &'a [Id],
) -> std::result::Result<Vec<&'a Id>, AllocError>
    ensures { IfOk result (λ v. map (λ i. i.now) v.items ≡ filter (λ id. not (list_any (id_eq id) kept.now.ids)) ids.now) }
{
    ids.iter().filter(|id| !kept.has_id(id)).collect(alloc)
}

impl<'a> Check<'a> {
    /// Returns this check as a check by all advisories under a root. It was made by those in `kept`, which has each advisory
    /// that bears on a package of the lockfile. Which of the ignored IDs, `ids`, are unused or unknown is decided again, by
    /// the IDs of all.
    ///
    /// # Errors
    ///
    /// `OutOfMemory` alone.
    pub fn with_all_ids(
        mut self,
        alloc: Global,
        kept: &KeptDatabase,
        ids: &'a [Id],
    ) -> Result<Check<'a>>
        ensures ok { IfOk result (λ c. (all : List given.Advisory) (s : SubjectValue) (test : given.Advisory → Bool) → PassesBearing test s.packages
            → IsKept test all kept.now → s.advisories ≡ kept.now.advisories → s.settings.ignore ≡ ids.now → IsCheckOf s self.entry → IsCheckOf (record s { advisories = all }) c) }
        ensures unused { IfOk result (λ c. c.unused ≡ filter (is_unused_of kept.now.ids self.entry.ignored) ids.now) }
        ensures unknown { IfOk result (λ c. c.unknown ≡ filter (λ id. not (list_any (id_eq id) kept.now.ids)) ids.now) }

        // All else is as it was.
        ensures findings { IfOk result (λ c. c.findings ≡ self.entry.findings) }
        ensures ignored { IfOk result (λ c. c.ignored ≡ self.entry.ignored) }
        ensures below_threshold { IfOk result (λ c. c.below_threshold ≡ self.entry.below_threshold) }
        ensures err { IfErr result IsMemory }
    {
        let unused = unused_of(alloc, kept, &self.ignored, ids)?;
        let unknown = unknown_of(alloc, kept, ids)?;
        self.unused = unused;
        self.unknown = unknown;
        Ok(self)
    }
}
