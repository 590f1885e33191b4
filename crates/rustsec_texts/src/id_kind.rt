//! The kinds of advisory IDs.

ghost use Rattle.std.specs.Prelude.{◌≡◌, Some, refl};
ghost use Rattle.std.specs.Cmp.{partial_equiv_from_equiv, po};
ghost use Rattle.std.specs.Hash as fed;
ghost use Rattle.rustsec_texts.specs.Ids.{kind_of_id};
ghost use Rattle.rustsec_texts.specs.IdOrder.{kind_decides, kind_eq, kind_equiv, kind_fed, kind_order, kind_place, kind_ties, kind_total};

use rustsec_values::{ExactClone, ExactEq};
use std::cmp::Ordering;
use std::hash::{Hash, Hasher};

/// The kind of an ID: who assigns it.
#[derive(Clone, Copy, Debug)]
pub enum IdKind {
    /// The RustSec advisory database.
    RustSec,
    /// Common Vulnerabilities and Exposures.
    Cve,
    /// GitHub's security advisories.
    Ghsa,
    /// Cisco Talos.
    Talos,
    /// Any other ID.
    Other,
}

impl IdKind {
    /// Returns the kind of an ID by the prefix of its text: `RUSTSEC-`, `CVE-`, `TALOS-` or `GHSA-`, else `Other`.
    pub fn detect(text: &str) -> IdKind
        ensures { result ≡ kind_of_id text.now }
    {
        if text.starts_with("RUSTSEC-") {
            IdKind::RustSec
        } else if text.starts_with("CVE-") {
            IdKind::Cve
        } else if text.starts_with("TALOS-") {
            IdKind::Talos
        } else if text.starts_with("GHSA-") {
            IdKind::Ghsa
        } else {
            IdKind::Other
        }
    }

    /// Returns the position of a kind in the order of kinds.
    fn place(self) -> u8
        ensures { result ≡ kind_place self }
    {
        match self {
            IdKind::RustSec => 0,
            IdKind::Cve => 1,
            IdKind::Ghsa => 2,
            IdKind::Talos => 3,
            IdKind::Other => 4,
        }
    }
}

impl ExactClone for IdKind {
    ghost exact = { λ x y e. e };
}

impl PartialEq for IdKind {
    ghost eq = { kind_eq };

    ghost laws = { partial_equiv_from_equiv kind_equiv };

    fn eq(&self, other: &IdKind) -> bool {
        self.place() == other.place()
    }
}

impl Eq for IdKind {
    ghost laws = { kind_equiv };
}

impl ExactEq for IdKind {
    ghost decides = { kind_decides };
}

impl PartialOrd for IdKind {
    ghost partial_cmp = { λ a b. Some (kind_order a b) };

    ghost laws = { po kind_total kind_ties };

    fn partial_cmp(&self, other: &IdKind) -> Option<Ordering> {
        Some(self.cmp(other))
    }
}

impl Ord for IdKind {
    ghost cmp = { kind_order };

    ghost total = { kind_total };

    ghost matches_partial_cmp = { λ a b. refl };

    ghost matches_eq = { kind_ties };

    /// Compares kinds: RustSec first, then CVE, GHSA, Talos and the others.
    fn cmp(&self, other: &IdKind) -> Ordering {
        self.place().cmp(&other.place())
    }
}

impl Hash for IdKind {
    ghost hash_input = { λ k. fed.u8 (kind_place k) };

    ghost respects_eq = { kind_fed };

    fn hash<H: Hasher>(&self, state: &mut H) {
        self.place().hash(state);
    }
}
