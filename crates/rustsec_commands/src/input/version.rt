//! A version of the input.

ghost use Rattle.std.specs.Prelude.{◌≡◌, IfOk};
ghost use Rattle.semver.specs.Identifiers.{parts_of};
ghost use Rattle.rustsec_commands.specs.input.Views.{version_view};

use semver::Version;
use std::alloc::{AllocError, Global};
use std::boxed::Box;

/// A version of the input. One that is three numbers takes a third of the memory of a `Version`.
#[derive(Drop)]
pub enum InputVersion {
    /// The numbers of a version without pre-release and build metadata.
    Numbers(u64, u64, u64),
    /// Any other version.
    Whole(Box<Version>),
}

impl InputVersion {
    /// Returns a version of the input.
    pub fn new(alloc: Global, version: Version) -> Result<InputVersion, AllocError>
        ensures { IfOk result (λ v. version_view v ≡ parts_of version) }
    {
        if version.pre.is_empty() && version.build.is_empty() {
            return Ok(InputVersion::Numbers(version.major, version.minor, version.patch));
        }
        let whole = Box::new(alloc, version).map_err(|_| AllocError)?;
        Ok(InputVersion::Whole(whole))
    }
}
