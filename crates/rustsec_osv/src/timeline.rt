//! Events of a range (OSV schema, `affected[].ranges[].events`).

ghost use Rattle.std.specs.Prelude.{◌≡◌, IfErr, IfOk};
ghost use Rattle.rustsec_osv.specs.DocumentEvents.{event_of};
ghost use Rattle.rustsec_values.specs.Failure.{IsMemory};

use rustsec_values::Result;
use semver::Version;
use std::alloc::{AllocError, Global};

/// An event: a version at which a range begins or ends.
#[derive(Debug, Drop)]
pub enum OsvTimelineEvent {
    /// The first affected version.
    Introduced(Version),
    /// The first version that is not affected any more.
    Fixed(Version),
    /// The last affected version.
    LastAffected(Version),
}

impl OsvTimelineEvent {
    /// Returns an equal event.
    ///
    /// # Errors
    ///
    /// `OutOfMemory` alone.
    pub fn clone(&self, _alloc: Global) -> Result<OsvTimelineEvent>
        ensures ok { IfOk result (λ e. event_of e ≡ event_of self.now) }
        ensures err { IfErr result IsMemory }
    {
        Ok(Clone::clone(self)?)
    }
}

impl Clone for OsvTimelineEvent {
    ghost is_clone = { λ a b. event_of b ≡ event_of a };

    fn clone(&self) -> std::result::Result<OsvTimelineEvent, AllocError> {
        match self {
            OsvTimelineEvent::Introduced(version) => {
                Ok(OsvTimelineEvent::Introduced(version.clone()?))
            }
            OsvTimelineEvent::Fixed(version) => Ok(OsvTimelineEvent::Fixed(version.clone()?)),
            OsvTimelineEvent::LastAffected(version) => {
                Ok(OsvTimelineEvent::LastAffected(version.clone()?))
            }
        }
    }
}
