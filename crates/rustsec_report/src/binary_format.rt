//! Formats of compiled programs.

use rustsec_values::{ExactClone, ExactEq};

/// The format of a compiled program's file.
#[derive(Clone, Copy, PartialEq, Eq, Debug)]
pub enum BinaryFormat {
    /// ELF of 32 bits.
    Elf32,
    /// ELF of 64 bits.
    Elf64,
    /// Mach-O, which Apple's systems use.
    Macho,
    /// PE, which Windows uses.
    PE,
    /// WebAssembly.
    Wasm,
    /// An unknown format.
    Unknown,
}

impl ExactClone for BinaryFormat {
    ghost exact = { λ x y e. e };
}

impl ExactEq for BinaryFormat {
    ghost use denote.Enum.Bare.{same_true, true_same};
    ghost use Rattle.rustsec_report.specs.contracts.binary_format.BinaryFormat.{the_type};

    ghost decides = { λ x y. (same_true the_type tt x y, true_same the_type x y) };
}
