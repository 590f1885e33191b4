//! Signatures of commits.

ghost use Rattle.std.specs.Prelude.{◌≡◌, IfErr, IfOk, nat_eq};
ghost use Rattle.std.specs.Cmp.{partial_equiv_from_equiv};
ghost use Rattle.std.specs.Cmp.Lexicographic.{bytes_decides, nat_list_eq_equiv, pointwise};
ghost use Rattle.rustsec_values.specs.Failure.{IsMemory};

use rustsec_values::{ExactClone, ExactEq, Result};
use std::alloc::{AllocError, Global};
use std::marker::Model;

/// The signature of a commit, in the format of OpenPGP: its bytes, which are not parsed.
#[derive(Debug, Drop)]
pub struct Signature {
    bytes: Vec<u8>,
}

impl Model for Signature {
    ghost use Rattle.std.specs.Prelude.{List, ℕ};

    ghost Value = { List ℕ };

    ghost view = { λ s. s.bytes.items };
}

impl Signature {
    /// Returns the signature with these bytes.
    ///
    /// # Errors
    ///
    /// `OutOfMemory` alone.
    pub fn from_bytes(alloc: Global, bytes: &[u8]) -> Result<Signature>
        ensures ok { IfOk result (λ s. s ≡ bytes.now) }
        ensures err { IfErr result IsMemory }
    {
        let bytes = Vec::from_slice(alloc, bytes)?;
        Ok(Signature { bytes })
    }

    /// Returns the bytes.
    pub fn as_ref(&self) -> &[u8]
        ensures { result.now ≡ self.now }
    {
        self.bytes.as_slice()
    }

    /// Returns an equal signature.
    ///
    /// # Errors
    ///
    /// `OutOfMemory` alone.
    pub fn clone(&self, _alloc: Global) -> Result<Signature>
        ensures ok { IfOk result (λ s. s ≡ self.now) }
        ensures err { IfErr result IsMemory }
    {
        let copy = Clone::clone(self)?;
        Ok(copy)
    }
}

impl Clone for Signature {
    ghost is_clone = { λ a b. b ≡ a };

    fn clone(&self) -> std::result::Result<Signature, AllocError> {
        let bytes = self.bytes.clone()?;
        Ok(Signature { bytes })
    }
}

impl ExactClone for Signature {
    ghost exact = { λ x y e. e };
}

impl PartialEq for Signature {
    ghost eq = { pointwise nat_eq };

    ghost laws = { partial_equiv_from_equiv nat_list_eq_equiv };

    fn eq(&self, other: &Signature) -> bool {
        self.as_ref() == other.as_ref()
    }
}

impl Eq for Signature {
    ghost laws = { nat_list_eq_equiv };
}

impl ExactEq for Signature {
    ghost decides = { bytes_decides };
}
