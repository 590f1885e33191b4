//! The forms of a registry's index on disk.

/// The form in which a folder has a registry's index.
#[derive(Clone, Copy, Debug, PartialEq, Eq)]
pub enum IndexForm {
    /// A checkout of the index: a line of JSON for each version.
    Checkout,
    /// Cargo's cache of an index, of its sparse protocol or of its git protocol.
    Cache,
}
