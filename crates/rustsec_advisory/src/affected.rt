//! The platforms and functions of a package that an advisory affects.

ghost use Rattle.std.specs.Prelude.{◌≡◌, [], IfErr, IfOk};
ghost use Rattle.rustsec_values.specs.Failure.{IsMemory};

use rustsec_lock::platforms::{Arch, OS};
use rustsec_texts::FunctionPath;
use rustsec_values::{ExactClone, ExactEq, Items, Result, SortedMap};
use rustsec_versions::Requirements;
use std::alloc::Global;

/// The affected platforms and functions.
#[derive(Clone, Debug, PartialEq, Eq)]
pub struct Affected {
    /// The architectures; an empty list means all.
    pub arch: Items<Arch>,
    /// The systems; an empty list means all.
    pub os: Items<OS>,
    /// The functions, each with requirements for the versions in which it is affected.
    pub functions: SortedMap<FunctionPath, Requirements>,
}

/// Hand-written: a derived `Drop` is proved again, field by field, at every exit of every owner.
impl Drop for Affected {
    fn drop(self) {
        let Affected {
            arch: _,
            os: _,
            functions: _,
        } = self;
    }
}

impl Affected {
    /// Returns a value that names no platform and no function. This takes no memory.
    pub fn default(alloc: Global) -> Affected
        ensures { result ≡ record { arch = []; os = []; functions = [] } }
    {
        Affected {
            arch: Items::new(alloc),
            os: Items::new(alloc),
            functions: SortedMap::new(alloc),
        }
    }

    /// Takes the value apart: architectures, systems and functions. This takes no memory.
    pub fn into_parts(
        self,
    ) -> (
        Items<Arch>,
        Items<OS>,
        SortedMap<FunctionPath, Requirements>,
    )
        ensures { result ≡ (self.arch, self.os, self.functions) }
    {
        let Affected {
            arch,
            os,
            functions,
        } = self;
        (arch, os, functions)
    }

    /// Returns an equal value.
    ///
    /// # Errors
    ///
    /// `OutOfMemory` alone.
    pub fn clone(&self, _alloc: Global) -> Result<Affected>
        ensures ok { IfOk result (λ a. a ≡ self.now) }
        ensures err { IfErr result IsMemory }
    {
        let copy = Clone::clone(self)?;
        Ok(copy)
    }
}

impl ExactClone for Affected {
    ghost use Rattle.std.proofs.Common.{rules};

    ghost exact = { λ x y e. Prim.search rules };
}

impl ExactEq for Affected {
    ghost use Rattle.rustsec_advisory.specs.EqualityLaws.{affected_decides};

    ghost decides = { affected_decides };
}
