//! Parts of a report. Their trees have no float, so the texts of their trees are known.

ghost use Rattle.std.specs.Prelude.{◌≡◌, IfOk, false};
ghost use Rattle.serde_json.specs.Data.{Data};
ghost use Rattle.serde_json.specs.View.{view};
ghost use Rattle.serde_json.specs.Written.{has_float};

use crate::info::LockfileInfo;
use crate::report_tree::{lockfile_tree, settings_tree, vulnerability_tree, warning_tree};
use crate::settings::Settings;
use crate::warning_ref::WarningRef;
use rustsec_database::VulnerabilityRef;
use serde_json::Value;
use std::alloc::{AllocError, Global};

/// A part of a report.
pub(crate) trait Part {
    ghost tree: { Self → Data };

    /// Builds the tree of the part.
    fn build_tree(&self, alloc: Global) -> Result<Value, AllocError>
        ensures tree { IfOk result (λ v. view v ≡ Self.tree self.now) }
        ensures plain { IfOk result (λ v. has_float (view v) ≡ false) };
}

impl<'a> Part for VulnerabilityRef<'a> {
    ghost use Rattle.rustsec_report.specs.Trees.{vulnerability_tree};

    ghost tree = { vulnerability_tree };

    fn build_tree(&self, alloc: Global) -> Result<Value, AllocError> {
        vulnerability_tree(alloc, self)
    }
}

impl<'a> Part for WarningRef<'a> {
    ghost use Rattle.rustsec_report.specs.Trees.{warning_tree};

    ghost tree = { warning_tree };

    fn build_tree(&self, alloc: Global) -> Result<Value, AllocError> {
        warning_tree(alloc, self)
    }
}

impl Part for LockfileInfo {
    ghost use Rattle.rustsec_report.specs.Trees.{lockfile_tree};

    ghost tree = { λ info. lockfile_tree info };

    fn build_tree(&self, alloc: Global) -> Result<Value, AllocError> {
        lockfile_tree(alloc, *self)
    }
}

impl Part for Settings {
    ghost use Rattle.rustsec_report.specs.Trees.{settings_tree};

    ghost tree = { λ settings. settings_tree settings };

    fn build_tree(&self, alloc: Global) -> Result<Value, AllocError> {
        settings_tree(alloc, self)
    }
}
