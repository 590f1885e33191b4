//! The severity of a vulnerability (OSV schema, `severity`).

ghost use Rattle.std.proofs.Common.{rules};
ghost use Rattle.std.specs.Prelude.{◌≡◌, IfErr, IfOk};
ghost use Rattle.rustsec_osv.specs.DocumentCodec.{type_of};
ghost use Rattle.rustsec_values.specs.Failure.{IsMemory};

use rustsec_lock::Base;
use rustsec_values::{ExactClone, Result, Text};
use std::alloc::Global;

/// A CVSS vector, by its version.
#[derive(Clone, Debug, Drop)]
pub enum OsvSeverity {
    /// A vector of version 3.0 or 3.1.
    CVSS_V3(Base),
    /// A vector of version 4, as its text.
    CVSS_V4(Text),
}

impl OsvSeverity {
    /// Returns an equal vector.
    ///
    /// # Errors
    ///
    /// `OutOfMemory` alone.
    pub fn clone(&self, _alloc: Global) -> Result<OsvSeverity>
        ensures ok { IfOk result (λ x. x ≡ self.now) }
        ensures err { IfErr result IsMemory }
    {
        Ok(Clone::clone(self)?)
    }

    /// Returns the type of the vector.
    pub(crate) fn kind(&self) -> &'static str
        ensures { result.now ≡ type_of self.now }
    {
        match self {
            OsvSeverity::CVSS_V3(_) => "CVSS_V3",
            OsvSeverity::CVSS_V4(_) => "CVSS_V4",
        }
    }
}

impl ExactClone for OsvSeverity {
    ghost exact = { λ x y e. Prim.search rules };
}
