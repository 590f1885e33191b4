//! A list of requirements that contracts see by its comparators.

ghost use Rattle.std.specs.Prelude.{◌≡◌, [], ◌++◌, ◌∷◌, IfErr, IfOk, OnErr, OnOk, map};
ghost use Rattle.std.specs.Cmp.{partial_equiv_from_equiv};
ghost use Rattle.rustsec_versions.specs.EqualityLaws.{requirements_decides};
ghost use Rattle.rustsec_versions.specs.Equality.{requirements_eq, requirements_equiv};
ghost use Rattle.rustsec_values.specs.Failure.{IsMemory};
ghost use Rattle.rustsec_versions.specs.Views.{comparators_of};

use rustsec_values::{Error, ExactClone, ExactEq, Result};
use semver::VersionReq;
use std::alloc::{AllocError, Global};
use std::marker::Model;

/// A list of requirements, which every contract sees as the list of their comparators.
#[derive(Debug, Drop)]
pub struct Requirements {
    list: Vec<VersionReq>,
}

impl Model for Requirements {
    ghost use Rattle.std.specs.Prelude.{List, map};
    ghost use Rattle.rustsec_versions.specs.Views.{comparators_of};
    ghost use Rattle.semver.specs.Parse.{Held};

    ghost Value = { List (List Held) };

    ghost view = { λ r. map comparators_of r.list.items };
}

impl Requirements {
    /// Returns the empty list, which takes no memory.
    pub fn new(alloc: Global) -> Requirements
        ensures { result ≡ [] }
    {
        Requirements {
            list: Vec::new(alloc),
        }
    }

    /// Returns the requirements as std's type.
    pub fn as_slice(&self) -> &[VersionReq]
        ensures { map comparators_of result.now ≡ self.now }
    {
        self.list.as_slice()
    }

    /// Returns an equal list.
    ///
    /// # Errors
    ///
    /// `OutOfMemory` alone.
    pub fn clone(&self, _alloc: Global) -> Result<Requirements>
        ensures ok { IfOk result (λ r. r ≡ self.now) }
        ensures err { IfErr result IsMemory }
    {
        let copy = Clone::clone(self)?;
        Ok(copy)
    }
}

impl From<Vec<VersionReq>> for Requirements {
    ghost use Rattle.std.specs.Prelude.{◌≡◌, map};
    ghost use Rattle.rustsec_versions.specs.Views.{comparators_of};

    ghost from_gives = { λ vector list. list ≡ map comparators_of vector.items };

    /// Converts a vector, whose memory it takes over.
    fn from(list: Vec<VersionReq>) -> Requirements {
        Requirements { list }
    }
}

impl From<Requirements> for Vec<VersionReq> {
    ghost use Rattle.std.specs.Prelude.{◌≡◌, map};
    ghost use Rattle.rustsec_versions.specs.Views.{comparators_of};

    ghost from_gives = { λ list vector. map comparators_of vector.items ≡ list };

    /// Returns the vector that holds the requirements, without a copy.
    fn from(requirements: Requirements) -> Vec<VersionReq> {
        let Requirements { list } = requirements;
        list
    }
}

impl Clone for Requirements {
    ghost is_clone = { λ a b. b ≡ a };

    fn clone(&self) -> std::result::Result<Requirements, AllocError> {
        let list = self.list.clone()?;
        Ok(Requirements { list })
    }
}

impl ExactClone for Requirements {
    ghost exact = { λ x y e. e };
}

impl PartialEq for Requirements {
    ghost eq = { requirements_eq };

    ghost laws = { partial_equiv_from_equiv requirements_equiv };

    fn eq(&self, other: &Requirements) -> bool {
        self.list == other.list
    }
}

impl Eq for Requirements {
    ghost laws = { requirements_equiv };
}

impl ExactEq for Requirements {
    ghost decides = { requirements_decides };
}
