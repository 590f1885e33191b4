//! Ranges of affected versions (OSV schema, `affected[].ranges[]`).

ghost use Rattle.std.specs.Prelude.{◌≡◌, IfErr, IfOk};
ghost use Rattle.rustsec_values.specs.Failure.{IsMemory};

use crate::timeline::OsvTimelineEvent;
use rustsec_values::{ExactClone, Result, Text, exact_copy};
use std::alloc::{AllocError, Global};
use std::marker::Model;

/// A range of affected versions, given by its events.
#[derive(Debug)]
pub struct OsvJsonRange {
    /// The type of its versions, such as `SEMVER`; the key is `type`.
    pub kind: Text,
    /// Its events, in order.
    pub events: Vec<OsvTimelineEvent>,
}

impl Model for OsvJsonRange {
    ghost use Rattle.std.specs.Prelude.{map};
    ghost use Rattle.rustsec_osv.specs.DocumentEvents.{JsonRange, event_of};

    ghost Value = { JsonRange };

    ghost view = { λ r. record { kind = r.kind; events = map event_of r.events.items } };
}

/// Hand-written: a derived `Drop` is proved again, field by field, at every exit of every owner.
impl Drop for OsvJsonRange {
    fn drop(self) {
        let OsvJsonRange { kind: _, events: _ } = self;
    }
}

impl OsvJsonRange {
    /// Returns an equal range.
    ///
    /// # Errors
    ///
    /// `OutOfMemory` alone.
    pub fn clone(&self, _alloc: Global) -> Result<OsvJsonRange>
        ensures ok { IfOk result (λ x. x ≡ self.now) }
        ensures err { IfErr result IsMemory }
    {
        Ok(Clone::clone(self)?)
    }
}

impl Clone for OsvJsonRange {
    ghost is_clone = { λ a b. b ≡ a };

    fn clone(&self) -> std::result::Result<OsvJsonRange, AllocError> {
        let kind = exact_copy(&self.kind)?;
        let events = self.events.clone()?;
        Ok(OsvJsonRange { kind, events })
    }
}

impl ExactClone for OsvJsonRange {
    ghost exact = { λ x y e. e };
}
