//! Categories of advisories.

ghost use Rattle.std.specs.Prelude.{◌≡◌, ◌⊎◌, IfErr, IfOk, List, OnErr, ℕ, None, Some};
ghost use Rattle.rustsec_values.specs.ClosedTables.{from_name};
ghost use Rattle.rustsec_values.specs.Failure.{IsMemory};
ghost use Rattle.rustsec_texts.specs.declared.category.Category.TheVariants as category;
ghost use Rattle.rustsec_texts.specs.Categories.{categories, category_cmp, category_name, category_of};

use rustsec_values::{ExactClone, ExactEq, FromText, Result, StatedOrder, Text};
use std::alloc::{AllocError, Global};
use std::fmt;

/// What a vulnerability makes possible. The names are those of the RustSec database; any other name is kept.
#[derive(PartialEq, Eq, PartialOrd, Ord, Hash, Debug, Drop)]
pub enum Category {
    /// Execution of code that an attacker chooses.
    CodeExecution,
    /// A faulty use of cryptography.
    CryptoFailure,
    /// A crash, or an exhaustion of resources.
    DenialOfService,
    /// Disclosure of files to those who may not see them.
    FileDisclosure,
    /// Output with faulty escaping.
    FormatInjection,
    /// Code that is meant to do harm.
    Malicious,
    /// A write to memory where it is not allowed.
    MemoryCorruption,
    /// Disclosure of memory to those who may not see it.
    MemoryExposure,
    /// Rights that an attacker gains.
    PrivilegeEscalation,
    /// A fault in the use of several threads.
    ThreadSafety,
    /// Any other category, by its name.
    Other(Text),
}

impl Category {
    /// Parses a category. Every text is one.
    ///
    /// # Errors
    ///
    /// `OutOfMemory` alone.
    pub fn from_str(alloc: Global, text: &str) -> Result<Category>
        ensures ok { IfOk result (λ c. c ≡ category_of text.now) }
        ensures err { IfErr result IsMemory }

        // A text that names one of the other variants takes no memory.
        ensures other { IfErr result (λ e. from_name category_name categories text.now ≡ None) }
        ensures printed { IfOk result (λ c. category_name c ≡ text.now) }
        ensures read_again { IfOk result (λ c. category_of (category_name c) ≡ c) }
    {
        match text {
            "code-execution" => Ok(Category::CodeExecution),
            "crypto-failure" => Ok(Category::CryptoFailure),
            "denial-of-service" => Ok(Category::DenialOfService),
            "file-disclosure" => Ok(Category::FileDisclosure),
            "format-injection" => Ok(Category::FormatInjection),
            "malicious" => Ok(Category::Malicious),
            "memory-corruption" => Ok(Category::MemoryCorruption),
            "memory-exposure" => Ok(Category::MemoryExposure),
            "privilege-escalation" => Ok(Category::PrivilegeEscalation),
            "thread-safety" => Ok(Category::ThreadSafety),
            other => {
                let name = Text::from_str(alloc, other)?;
                Ok(Category::Other(name))
            }
        }
    }

    /// Returns the name, as `from_str` reads it.
    pub fn name(&self) -> &str
        ensures value { result.now ≡ category_name self.now }
        ensures read { (category_of result.now ≡ self.now) ⊎ ((text : List ℕ) × (self.now ≡ Category.Other text)) }
    {
        match self {
            Category::CodeExecution => "code-execution",
            Category::CryptoFailure => "crypto-failure",
            Category::DenialOfService => "denial-of-service",
            Category::FileDisclosure => "file-disclosure",
            Category::FormatInjection => "format-injection",
            Category::Malicious => "malicious",
            Category::MemoryCorruption => "memory-corruption",
            Category::MemoryExposure => "memory-exposure",
            Category::PrivilegeEscalation => "privilege-escalation",
            Category::ThreadSafety => "thread-safety",
            Category::Other(name) => name.as_str(),
        }
    }

    /// Returns an equal category.
    ///
    /// # Errors
    ///
    /// `OutOfMemory` alone.
    pub fn clone(&self, _alloc: Global) -> Result<Category>
        ensures ok { IfOk result (λ c. c ≡ self.now) }
        ensures err { IfErr result IsMemory }

        // A category with a variant of its own takes no memory.
        ensures none { OnErr result ((name : List ℕ) × (self.now ≡ category.Other name)) }
    {
        let copy = Clone::clone(self)?;
        Ok(copy)
    }
}

impl FromText for Category {
    ghost use Rattle.std.specs.Prelude.{Some};
    ghost use Rattle.rustsec_texts.specs.Categories.{category_of};

    ghost reads = { λ text. Some (category_of text) };

    // A text that names one of the other variants takes no memory.
    fn from_text(alloc: Global, text: &str) -> Result<Category>
        ensures ok { IfOk result (λ x. Some (category_of text.now) ≡ Some x) }
        ensures err { IfErr result IsMemory }
        ensures other { IfErr result (λ e. from_name category_name categories text.now ≡ None) }
    {
        Category::from_str(alloc, text)
    }
}

impl Clone for Category {
    ghost is_clone = { λ a b. b ≡ a };

    // A category with a variant of its own takes no memory.
    fn clone(&self) -> std::result::Result<Category, AllocError>
        ensures ok { IfOk result (λ c. c ≡ self.now) }
        ensures none { OnErr result ((name : List ℕ) × (self.now ≡ category.Other name)) }
    {
        match self {
            Category::CodeExecution => Ok(Category::CodeExecution),
            Category::CryptoFailure => Ok(Category::CryptoFailure),
            Category::DenialOfService => Ok(Category::DenialOfService),
            Category::FileDisclosure => Ok(Category::FileDisclosure),
            Category::FormatInjection => Ok(Category::FormatInjection),
            Category::Malicious => Ok(Category::Malicious),
            Category::MemoryCorruption => Ok(Category::MemoryCorruption),
            Category::MemoryExposure => Ok(Category::MemoryExposure),
            Category::PrivilegeEscalation => Ok(Category::PrivilegeEscalation),
            Category::ThreadSafety => Ok(Category::ThreadSafety),
            Category::Other(name) => {
                let name = Clone::clone(name)?;
                Ok(Category::Other(name))
            }
        }
    }
}

impl ExactClone for Category {
    ghost exact = { λ x y e. e };
}

impl ExactEq for Category {
    ghost use Rattle.std.proofs.Common.{rules};
    ghost use Rattle.std.specs.Cmp.Lexicographic.{bytes_decides};

    ghost decides = { λ x y. Prim.search (rules, bytes_decides) };
}

impl fmt::Display for Category {
    ghost use Rattle.std.specs.Prelude.{Some};
    ghost use Rattle.rustsec_texts.specs.Categories.{category_name};

    ghost output = { λ c. Some (category_name c) };

    fn fmt<W: fmt::Write>(&self, f: &mut fmt::Formatter<W>) -> fmt::Result {
        f.write_str(self.name())
    }
}

impl StatedOrder for Category {
    ghost use Rattle.std.specs.Cmp.Rules.{comparing};
    ghost use Rattle.std.proofs.Common.{rules};

    ghost order = { category_cmp };

    ghost agrees = { λ x y. Prim.search (comparing, rules) };
}
