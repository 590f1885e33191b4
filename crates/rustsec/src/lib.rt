//! The RustSec advisory database, and audits of a `Cargo.lock` against it, under the paths of the Rust crate
//! `rustsec`. Each item is in one of the crates below, with its contract, except the version and the audit of texts: one
//! call whose contract is the main theorem of these crates.
#![tactic(auto)]

mod audit;
mod audited_advisory;

/// The version of the Rust crate that these crates port.
pub const VERSION: &str = "0.33.0";

/// Advisories: their files, their fields and the linter.
pub mod advisory {
    /// The platforms and functions that an advisory affects.
    pub mod affected {
        pub use rustsec_advisory::Affected;
        pub use rustsec_texts::{FunctionPath, Identifier};
    }

    pub use rustsec_advisory::{Advisory, Affected, Linter, Metadata, linter, metadata};
    pub use rustsec_lock::Severity;
    pub use rustsec_texts::{
        Address, Category, Date, FunctionPath, Id, IdKind, Identifier, Informational, Keyword,
        License, Parts,
    };
    pub use rustsec_versions::Versions;
}

/// Databases of advisories, and queries.
pub mod database {
    pub use rustsec_database::{Database, Iter, Query};
}

/// Ranges of affected versions, and OSV documents.
pub mod osv {
    pub use rustsec_osv::{
        MainOsvDatabaseSpecific, OsvAdvisory, OsvAffected, OsvDatabaseSpecific,
        OsvEcosystemSpecific, OsvEcosystemSpecificAffected, OsvJsonRange, OsvPackage, OsvReference,
        OsvReferenceKind, OsvSeverity, OsvTimelineEvent,
    };
    pub use rustsec_versions::{OsvRange, ranges_for_advisory};
}

/// Reports of what an audit found.
pub mod report {
    pub use rustsec_report::{
        LockfileInfo, Report, Settings, VulnerabilityInfo, WarningInfo, find_vulnerabilities,
        find_warnings,
    };
}

/// Reports on the packages in a binary.
pub mod binary_scanning {
    pub use rustsec_report::{BinaryFormat, filter_report_by_binary_type};
}

/// Look-ups in a registry.
pub mod registry {
    pub use rustsec_registry::CachedIndex;
}

/// The repository of the advisory database.
pub mod repository {
    /// Signatures of commits.
    pub mod signature {
        pub use rustsec_registry::Signature;
    }
}

/// Packages of a lockfile.
pub mod package {
    pub use rustsec_lock::SourceId;
    pub use rustsec_lock::package::{Name, Package};
}

/// Platforms.
pub mod platforms {
    pub use rustsec_lock::platforms::{Arch, OS};
}

pub use crate::audit::{Audit, audited};
pub use crate::audited_advisory::AuditedAdvisory;
pub use rustsec_advisory::Advisory;
pub use rustsec_database::{
    Database, Entries, Index, Pair, Slot, Vulnerability, vulnerabilities_of,
};
pub use rustsec_files::{FolderEntry, Folders, SourceFile};
pub use rustsec_lock::{
    AttackComplexity, AttackVector, Availability, Base, Confidentiality, Cvss, Integrity, Lockfile,
    PrivilegesRequired, Scope, Severity, SourceId, SourceKind, UserInteraction,
};
pub use rustsec_registry::{IndexVersion, Lookup};
pub use rustsec_report::{FixCommand, Fixer, Report, Warning};
pub use rustsec_texts::{Collection, WarningKind};
pub use rustsec_values::{Error, ErrorKind, Items, Result, SortedMap, Text};
pub use rustsec_versions::{
    Bound, Requirements, Steps, UnaffectedRange, requirement_text, successor,
};
pub use semver::{Version, VersionReq};
