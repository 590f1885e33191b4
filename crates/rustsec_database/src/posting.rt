//! Postings: the entries of an index for advisories. A search asks a posting before it reads the advisory.

ghost use Rattle.std.specs.Prelude.{◌≡◌, option_map};
ghost use Rattle.semver.specs.Identifiers.{parts_of};
ghost use Rattle.rustsec_database.specs.Postings.{digest, is_near, posting_of};

use crate::slot::Slot;
use crate::span::{Span, span_of};
use rustsec_advisory::Advisory;
use rustsec_lock::package::Name;
use semver::Version;
use std::hash::{FoldHasher, Hasher};
use std::marker::Model;

/// The entry of an index for an advisory.
#[derive(Debug, Drop)]
pub(crate) struct Posting {
    /// The digest of the name of the advisory's package.
    digest: usize,
    /// The slot of the advisory.
    slot: Slot,
    /// The span of the affected versions.
    span: Span,
}

impl Model for Posting {
    ghost use Rattle.std.specs.Prelude.{ℕ};
    ghost use Rattle.rustsec_versions.specs.ranges.Ranges.{Range};

    ghost Value = { ℕ × ℕ × Range };

    ghost view = { λ p. (p.digest, p.slot, p.span) };
}

/// Returns the digest of a name, which different names may share.
#[tactic(auto, unfolding(crate::specs::Postings::digest))]
pub(crate) fn digest(name: &Name) -> usize
    ensures { result ≡ digest name.now }
{
    let mut hasher = FoldHasher::default();
    hasher.write(name.as_str().as_bytes());
    hasher.finish() as usize
}

impl Posting {
    /// Returns the posting of the advisory in a slot.
    pub(crate) fn new(advisory: &Advisory, slot: Slot) -> Posting
        ensures { result ≡ posting_of slot advisory.now }
    {
        Posting {
            digest: digest(&advisory.metadata.package),
            slot,
            span: span_of(&advisory.versions),
        }
    }

    /// Returns the digest.
    pub(crate) fn digest(&self) -> usize
        ensures { result ≡ self.now.0 }
    {
        self.digest
    }

    /// Returns the slot of the advisory.
    pub(crate) fn slot(&self) -> Slot
        ensures { result ≡ self.now.1 }
    {
        self.slot
    }

    /// Returns whether the digest is this one, and the span holds the version, if one is asked for.
    pub(crate) fn is_near(&self, digest: usize, version: Option<&Version>) -> bool
        ensures { result ≡ is_near digest (option_map (λ v. parts_of v.now) version.entry) self.now }
    {
        if self.digest != digest {
            return false;
        }
        match version {
            Some(version) => self.span.holds(version),
            None => true,
        }
    }
}
