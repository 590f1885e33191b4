//! Where packages come from.

ghost use Rattle.std.specs.Prelude.{◌≡◌, ◌==◌, ◌<◌, IfErr, IfOk, None, Some, length};
ghost use Rattle.std.specs.List.{before_first};
ghost use Rattle.rustsec_values.specs.Failure.{IsMemory, IsRefusal};
ghost use Rattle.rustsec_lock.specs.Source.{default_source, is_default, kind_word, location_of, source_id_of, source_text, url_of};

use rustsec_values::{
    ClosedEnum, ErrorKind, ExactClone, ExactEq, FromText, Result, Text, from_name, text_error,
};
use std::alloc::Global;
use std::fmt;
use std::marker::Model;

/// The kind of a source.
#[derive(Clone, Copy, Debug, PartialEq, Eq)]
pub enum SourceKind {
    /// A registry whose index is a git repository.
    Registry,
    /// A registry whose index is read file by file.
    SparseRegistry,
    /// A git repository.
    Git,
    /// A folder of the file system.
    Path,
    /// A registry in a folder of the file system.
    LocalRegistry,
    /// A folder that holds packages.
    Directory,
}

impl SourceKind {
    /// Returns the word before the first `+` of a source.
    pub(crate) fn word(self) -> &'static str
        ensures { result.now ≡ kind_word self }
    {
        match self {
            SourceKind::Registry => "registry",
            SourceKind::SparseRegistry => "sparse",
            SourceKind::Git => "git",
            SourceKind::Path => "path",
            SourceKind::LocalRegistry => "local-registry",
            SourceKind::Directory => "directory",
        }
    }
}

impl ClosedEnum for SourceKind {
    ghost use Rattle.rustsec_lock.specs.Source.{kind_word, kinds};

    ghost name_of = { kind_word };

    ghost values = { kinds };

    fn all() -> &'static [SourceKind] {
        &[
            SourceKind::Registry,
            SourceKind::SparseRegistry,
            SourceKind::Git,
            SourceKind::Path,
            SourceKind::LocalRegistry,
            SourceKind::Directory,
        ]
    }

    fn name(&self) -> &'static str {
        self.word()
    }
}

impl ExactClone for SourceKind {
    ghost exact = { λ x y e. e };
}

impl ExactEq for SourceKind {
    ghost use denote.Enum.Bare.{same_true, true_same};
    ghost use Rattle.rustsec_lock.specs.contracts.source.SourceKind.{the_type};

    ghost decides = { λ x y. (same_true the_type tt x y, true_same the_type x y) };
}

/// The words of the kinds, for a message.
const KINDS: &str = "`registry`, `sparse`, `git`, `path`, `local-registry` or `directory`";

/// Returns the text before the first place of a mark, or all if the mark is missing.
fn up_to(text: &str, mark: char) -> &str
    requires { mark < 128 }
    ensures { result.now ≡ before_first (λ b. b == mark) text.now }
{
    match text.split_once(mark) {
        Some((before, _)) => before,
        None => text,
    }
}

/// Returns the text before the first question mark or number sign.
fn without_reference(address: &str) -> &str
    ensures { result.now ≡ location_of SourceKind.Git address.now }
{
    up_to(up_to(address, '?'), '#')
}

/// Returns the address for `url`: of a git source without its reference.
fn location(kind: SourceKind, address: &str) -> &str
    ensures { result.now ≡ location_of kind address.now }
{
    match kind {
        SourceKind::Git => without_reference(address),
        _ => address,
    }
}

/// Where a package comes from: a kind and an address, as in `registry+https://github.com/rust-lang/crates.io-index`
/// (a source ID of Cargo). It is compared by its text.
#[derive(Clone, Debug, Drop)]
pub struct SourceId {
    pub(crate) kind: SourceKind,
    pub(crate) address: Text,
}

impl Model for SourceId {
    ghost use Rattle.std.specs.Prelude.{◌<◌, length};
    ghost use Rattle.rustsec_lock.specs.Source.{Source, location_of};

    ghost Value = { Source };

    ghost view = { λ s. record { kind = s.kind; address = s.address } };

    ghost invariant = { λ s. 0 < length (location_of s.kind s.address) };
}

impl SourceId {
    /// Parses a source: `KIND+ADDRESS`, cut at the first `+`. The kinds are `registry`, `sparse`, `git`,
    /// `path`, `local-registry` and `directory`.
    ///
    /// # Errors
    ///
    /// `Parse` if there is no `+`, the kind is not one of these, or `url` would be empty; else
    /// `OutOfMemory`.
    pub fn from_url(alloc: Global, text: &str) -> Result<SourceId>
        ensures ok { IfOk result (λ s. source_id_of text.now ≡ Some s) }
        ensures text { IfOk result (λ s. source_text s ≡ text.now) }
        ensures err { IfErr result (IsRefusal ErrorKind.Parse (source_id_of text.now ≡ None)) }
    {
        let Some((word, address)) = text.split_once('+') else {
            return Err(text_error(alloc, "malformed source", text, "KIND+ADDRESS"));
        };
        let Some(kind) = from_name(word) else {
            return Err(text_error(alloc, "unknown kind of source", word, KINDS));
        };
        if location(kind, address).is_empty() {
            return Err(text_error(
                alloc,
                "no address in the source",
                text,
                "one after the first `+`",
            ));
        }
        let address = Text::from_str(alloc, address)?;
        Ok(SourceId { kind, address })
    }

    /// Returns the registry crates.io, by its index in git.
    ///
    /// # Errors
    ///
    /// `OutOfMemory` alone.
    pub fn default(alloc: Global) -> Result<SourceId>
        ensures ok { IfOk result (λ s. s ≡ default_source) }
        ensures err { IfErr result IsMemory }
    {
        let address = Text::from_str(alloc, "https://github.com/rust-lang/crates.io-index")?;
        Ok(SourceId {
            kind: SourceKind::Registry,
            address,
        })
    }

    /// Returns the kind.
    pub fn kind(&self) -> SourceKind
        ensures { result ≡ self.now.kind }
    {
        self.kind
    }

    /// Returns the address; for a git source, the part before the first `?` or `#`. It is not empty.
    pub fn url(&self) -> &str
        ensures url { result.now ≡ url_of self.now }
        ensures some { 0 < length result.now }

        // Parsing the text of a source gives the same source.
        ensures back { source_id_of (source_text self.now) ≡ Some self.now }
    {
        location(self.kind, self.address.as_str())
    }

    /// Returns whether this is the registry crates.io, by its index in git or by the sparse one.
    pub fn is_default_registry(&self) -> bool
        ensures { result ≡ is_default self.now }
    {
        match self.kind {
            SourceKind::Registry => {
                self.address.as_str() == "https://github.com/rust-lang/crates.io-index"
            }
            SourceKind::SparseRegistry => self.address.as_str() == "https://index.crates.io/",
            _ => false,
        }
    }

    /// Returns an equal source.
    ///
    /// # Errors
    ///
    /// `OutOfMemory` alone.
    pub fn clone(&self, _alloc: Global) -> Result<SourceId>
        ensures ok { IfOk result (λ s. s ≡ self.now) }
        ensures err { IfErr result IsMemory }
    {
        let copy = Clone::clone(self)?;
        Ok(copy)
    }
}

impl FromText for SourceId {
    ghost use Rattle.rustsec_lock.specs.Source.{source_id_of};

    ghost reads = { source_id_of };

    fn from_text(alloc: Global, text: &str) -> Result<SourceId> {
        SourceId::from_url(alloc, text)
    }
}

impl ExactClone for SourceId {
    ghost use Rattle.std.proofs.Common.{rules};

    ghost exact = { λ x y e. Prim.search rules };
}

impl fmt::Display for SourceId {
    ghost output = { λ s. Some (source_text s) };

    /// Writes the whole text.
    fn fmt<W: fmt::Write>(&self, f: &mut fmt::Formatter<W>) -> fmt::Result {
        f.write_str(self.kind.word())?;
        f.write_str("+")?;
        f.write_str(self.address.as_str())
    }
}
