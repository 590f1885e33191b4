//! Checks of a lockfile: which advisories affect which of its packages, why a package is there, what fails, and the least
//! version of a package that no advisory leaves affected.
#![tactic(auto)]

mod advice;
mod checking;
mod compatible;
mod counted;
mod facts;
mod findings;
mod found;
mod kept;
mod moving;
mod outcome;
mod ranges;
mod subject;
mod update;
mod yanked;

pub use crate::checking::check;
pub use crate::compatible::is_compatible;
pub use crate::findings::{Finding, IgnoredPair};
pub use crate::outcome::Check;
pub use crate::subject::Subject;
pub use crate::update::{Update, least_free};
pub use crate::yanked::{Yanked, yanked_fail, yanked_packages};
