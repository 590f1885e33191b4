//! The JSON trees of documents and of their parts, and the readers of such trees.

mod affected;
mod document;
mod event;
