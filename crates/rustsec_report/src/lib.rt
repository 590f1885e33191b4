//! Reports, owned and as references: the vulnerabilities of a lockfile's packages and the warnings about them; the
//! filter by binary format; the JSON tree of a report, and its text.
#![tactic(auto)]

mod advisory_tree;
mod arguments;
mod binary_format;
mod command;
mod counted;
mod end_to_end;
mod filter;
mod fixer;
mod generate;
mod info;
mod object;
mod part;
mod report;
mod report_json;
mod report_ref;
mod report_tree;
mod settings;
mod warning;
mod warning_ref;
mod warnings;

pub use crate::binary_format::BinaryFormat;
pub use crate::command::FixCommand;
pub use crate::filter::filter_report_by_binary_type;
pub use crate::fixer::Fixer;
pub use crate::generate::{find_vulnerabilities, find_warnings};
pub use crate::info::{LockfileInfo, VulnerabilityInfo};
pub use crate::object::{Members, put_tree};
pub use crate::report::Report;
pub use crate::report_ref::ReportRef;
pub use crate::settings::Settings;
pub use crate::warning::Warning;
pub use crate::warning_ref::{WarningRef, WarningsOfKind};
pub use crate::warnings::WarningInfo;
