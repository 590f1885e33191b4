//! Texts, lists and maps over std's collections that contracts see as values: a text as its bytes, a list as its elements, a
//! map as its entries. Two values are the same to a contract if these are, wherever they are in memory. The error of all
//! crates, the refusals that show what was found, types whose values are read from texts, and texts as a terminal may show
//! them.
#![tactic(auto)]

mod beginning;
mod closed_table;
mod error;
mod from_text;
mod items;
mod laws;
mod predicate;
mod refusal;
mod shown;
mod sorted_map;
mod text;

pub use crate::beginning::beginning_of;
pub use crate::closed_table::{ClosedEnum, from_name};
pub use crate::error::{Error, ErrorKind, Result};
pub use crate::from_text::FromText;
pub use crate::items::Items;
pub use crate::laws::{ExactClone, ExactEq, StatedOrder, exact_copy};
pub use crate::predicate::Predicate;
pub use crate::refusal::{file_error, text_error, text_error_with_cause, with_place};
pub use crate::shown::{is_hidden, push_escape, push_shown};
pub use crate::sorted_map::SortedMap;
pub use crate::text::Text;
