//! Counts the advisories of a database: by collection, year, kind, category, severity and withdrawal.
#![tactic(auto)]

mod categories;
mod rows;
mod severities;
mod stats;
mod text;
mod tree;
mod years;

pub use crate::categories::CategoryRow;
pub use crate::rows::{CollectionRow, KindRow, Row, WithdrawalRow};
pub use crate::severities::SeverityRow;
pub use crate::stats::{Count, Stats, stats_of};
pub use crate::text::stats_text;
pub use crate::tree::stats_tree;
