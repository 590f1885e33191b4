//! Small texts of advisories, each with its grammar, and the parts of an advisory file.
#![tactic(auto)]

mod address;
mod category;
mod collection;
mod date;
mod function_path;
mod id;
mod id_kind;
mod identifier;
mod informational;
mod keyword;
mod license;
mod numbers;
mod parts;
mod warning_kind;

pub use crate::address::Address;
pub use crate::category::Category;
pub use crate::collection::Collection;
pub use crate::date::Date;
pub use crate::function_path::FunctionPath;
pub use crate::id::Id;
pub use crate::id_kind::IdKind;
pub use crate::identifier::Identifier;
pub use crate::informational::Informational;
pub use crate::keyword::Keyword;
pub use crate::license::License;
pub use crate::parts::Parts;
pub use crate::warning_kind::WarningKind;
