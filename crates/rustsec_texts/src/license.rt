//! Licenses of advisories.

ghost use Rattle.std.specs.Prelude.{◌≡◌, ◌⊎◌, IfErr, IfOk, List, OnErr, ℕ, None, Some};
ghost use Rattle.rustsec_values.specs.ClosedTables.{from_name};
ghost use Rattle.rustsec_values.specs.Failure.{IsMemory};
ghost use Rattle.rustsec_texts.specs.declared.license.License.TheVariants as license;
ghost use Rattle.rustsec_texts.specs.Licenses.{default_license, license_name, license_of, licenses};

use rustsec_values::{ExactClone, ExactEq, FromText, Result, Text};
use std::alloc::{AllocError, Global};
use std::fmt;

/// The license under which an advisory is published, by its SPDX identifier.
#[derive(PartialEq, Eq, Debug, Drop)]
pub enum License {
    /// Creative Commons Zero, `CC0-1.0`.
    CcZero10,
    /// Creative Commons Attribution, `CC-BY-4.0`.
    CcBy40,
    /// Any other license, by its identifier.
    Other(Text),
}

impl License {
    /// Parses a license. Every text is one.
    ///
    /// # Errors
    ///
    /// `OutOfMemory` alone.
    pub fn from_str(alloc: Global, text: &str) -> Result<License>
        ensures ok { IfOk result (λ l. l ≡ license_of text.now) }
        ensures err { IfErr result IsMemory }

        // A text that names one of the other variants takes no memory.
        ensures other { IfErr result (λ e. from_name license_name licenses text.now ≡ None) }
        ensures printed { IfOk result (λ l. license_name l ≡ text.now) }
        ensures read_again { IfOk result (λ l. license_of (license_name l) ≡ l) }
    {
        match text {
            "CC0-1.0" => Ok(License::CcZero10),
            "CC-BY-4.0" => Ok(License::CcBy40),
            other => {
                let identifier = Text::from_str(alloc, other)?;
                Ok(License::Other(identifier))
            }
        }
    }

    /// Returns the license of an advisory without the key `license`: `CC0-1.0`.
    pub fn default() -> License
        ensures { result ≡ default_license }
    {
        License::CcZero10
    }

    /// Returns the SPDX identifier, as `from_str` reads it.
    pub fn spdx(&self) -> &str
        ensures value { result.now ≡ license_name self.now }
        ensures read { (license_of result.now ≡ self.now) ⊎ ((text : List ℕ) × (self.now ≡ License.Other text)) }
    {
        match self {
            License::CcZero10 => "CC0-1.0",
            License::CcBy40 => "CC-BY-4.0",
            License::Other(identifier) => identifier.as_str(),
        }
    }

    /// Returns an equal license.
    ///
    /// # Errors
    ///
    /// `OutOfMemory` alone.
    pub fn clone(&self, _alloc: Global) -> Result<License>
        ensures ok { IfOk result (λ l. l ≡ self.now) }
        ensures err { IfErr result IsMemory }

        // A license with a variant of its own takes no memory.
        ensures none { OnErr result ((identifier : List ℕ) × (self.now ≡ license.Other identifier)) }
    {
        let copy = Clone::clone(self)?;
        Ok(copy)
    }
}

impl FromText for License {
    ghost use Rattle.std.specs.Prelude.{Some};
    ghost use Rattle.rustsec_texts.specs.Licenses.{license_of};

    ghost reads = { λ text. Some (license_of text) };

    // A text that names one of the other variants takes no memory.
    fn from_text(alloc: Global, text: &str) -> Result<License>
        ensures ok { IfOk result (λ x. Some (license_of text.now) ≡ Some x) }
        ensures err { IfErr result IsMemory }
        ensures other { IfErr result (λ e. from_name license_name licenses text.now ≡ None) }
    {
        License::from_str(alloc, text)
    }
}

impl Clone for License {
    ghost is_clone = { λ a b. b ≡ a };

    // A license with a variant of its own takes no memory.
    fn clone(&self) -> std::result::Result<License, AllocError>
        ensures ok { IfOk result (λ l. l ≡ self.now) }
        ensures none { OnErr result ((identifier : List ℕ) × (self.now ≡ license.Other identifier)) }
    {
        match self {
            License::CcZero10 => Ok(License::CcZero10),
            License::CcBy40 => Ok(License::CcBy40),
            License::Other(identifier) => {
                let identifier = Clone::clone(identifier)?;
                Ok(License::Other(identifier))
            }
        }
    }
}

impl ExactClone for License {
    ghost exact = { λ x y e. e };
}

impl ExactEq for License {
    ghost use Rattle.std.proofs.Common.{rules};
    ghost use Rattle.std.specs.Cmp.Lexicographic.{bytes_decides};

    ghost decides = { λ x y. Prim.search (rules, bytes_decides) };
}

impl fmt::Display for License {
    ghost use Rattle.std.specs.Prelude.{Some};
    ghost use Rattle.rustsec_texts.specs.Licenses.{license_name};

    ghost output = { λ l. Some (license_name l) };

    fn fmt<W: fmt::Write>(&self, f: &mut fmt::Formatter<W>) -> fmt::Result {
        f.write_str(self.spdx())
    }
}
