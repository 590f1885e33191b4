//! A check as one HTML page for a browser.
#![tactic(auto)]

mod card;
mod cuts;
mod drawing;
mod drawn;
mod escape;
mod facts;
mod finding;
mod frame;
mod header;
mod item;
mod line;
mod links;
mod lists;
mod mended;
mod page;
mod pieces;
mod ranked;
mod section;
mod style;

pub use crate::links::push_linked;
pub use crate::lists::push_yanked_list;
pub use crate::page::page_text;
pub use crate::pieces::push_content;
