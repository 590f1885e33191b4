//! The words of a policy file.

ghost use Rattle.std.specs.Prelude.{◌≡◌, IfErr, IfOk, Some, None};
ghost use Rattle.rustsec_values.specs.Failure.{IsRefusal};
ghost use Rattle.rustsec_policy.specs.Choices.{denied_name, denied_of, denied_words, format_name, format_of, formats, package_source_name, package_source_of, package_sources};

use crate::nearest::with_nearest_name;
use rustsec_values::{
    ClosedEnum, ErrorKind, ExactClone, ExactEq, FromText, Result, from_name, text_error,
};
use std::alloc::Global;

/// What fails an audit beside vulnerabilities.
#[derive(Clone, Copy, PartialEq, Eq, Debug)]
pub enum Denied {
    /// Every warning.
    Warnings,
    /// A package that nobody maintains.
    Unmaintained,
    /// A package that is not sound.
    Unsound,
    /// A version that was yanked from its registry.
    Yanked,
}

/// How findings are written.
#[derive(Clone, Copy, PartialEq, Eq, Debug)]
pub enum OutputFormat {
    /// For people.
    Terminal,
    /// As a tree of JSON.
    Json,
    /// As a log of SARIF.
    Sarif,
}

/// Which packages cargo-audit looks at.
#[derive(Clone, Copy, PartialEq, Eq, Debug)]
pub enum PackageSource {
    /// All of them.
    All,
    /// Those of public registries.
    Public,
    /// Those that no registry has.
    Local,
}

impl Denied {
    /// Returns all words, in their order.
    pub fn all() -> &'static [Denied]
        ensures { result.now ≡ denied_words }
    {
        &[
            Denied::Warnings,
            Denied::Unmaintained,
            Denied::Unsound,
            Denied::Yanked,
        ]
    }

    /// Returns the word, as `from_str` reads it.
    pub fn as_str(&self) -> &'static str
        ensures value { result.now ≡ denied_name self.now }
        ensures read { denied_of result.now ≡ Some self.now }
    {
        match self {
            Denied::Warnings => "warnings",
            Denied::Unmaintained => "unmaintained",
            Denied::Unsound => "unsound",
            Denied::Yanked => "yanked",
        }
    }

    /// Parses a word.
    ///
    /// # Errors
    ///
    /// `Parse` for any other text; `OutOfMemory` instead if there is no memory for the message.
    pub fn from_str(alloc: Global, text: &str) -> Result<Denied>
        ensures ok { IfOk result (λ d. denied_of text.now ≡ Some d) }
        ensures err { IfErr result (IsRefusal ErrorKind.Parse (denied_of text.now ≡ None)) }

        // Success takes no memory, so any error means that the text is not one of the words.
        ensures none { IfErr result (λ e. denied_of text.now ≡ None) }
    {
        match from_name(text) {
            Some(value) => Ok(value),
            None => {
                let expected = "`warnings`, `unmaintained`, `unsound` or `yanked`";
                let error = text_error(alloc, "unknown word", text, expected);
                Err(with_nearest_name::<Denied>(alloc, error, text))
            }
        }
    }
}

impl ClosedEnum for Denied {
    ghost use Rattle.rustsec_policy.specs.Choices.{denied_name, denied_words};

    ghost name_of = { denied_name };

    ghost values = { denied_words };

    fn all() -> &'static [Denied] {
        Denied::all()
    }

    fn name(&self) -> &'static str {
        self.as_str()
    }
}

impl FromText for Denied {
    ghost use Rattle.rustsec_policy.specs.Choices.{denied_of};

    ghost reads = { denied_of };

    fn from_text(alloc: Global, text: &str) -> Result<Denied>
        ensures ok { IfOk result (λ x. denied_of text.now ≡ Some x) }
        ensures err { IfErr result (IsRefusal ErrorKind.Parse (denied_of text.now ≡ None)) }
        ensures none { IfErr result (λ e. denied_of text.now ≡ None) }
    {
        Denied::from_str(alloc, text)
    }
}

impl ExactClone for Denied {
    ghost exact = { λ x y e. e };
}

impl ExactEq for Denied {
    ghost use Rattle.std.specs.Cmp.Rules.{comparing};
    ghost use Rattle.std.proofs.Common.{rules};

    ghost decides = { λ x y. Prim.search (comparing, rules) };
}

impl OutputFormat {
    /// Returns all formats, in their order.
    pub fn all() -> &'static [OutputFormat]
        ensures { result.now ≡ formats }
    {
        &[
            OutputFormat::Terminal,
            OutputFormat::Json,
            OutputFormat::Sarif,
        ]
    }

    /// Returns the word, as `from_str` reads it.
    pub fn as_str(&self) -> &'static str
        ensures value { result.now ≡ format_name self.now }
        ensures read { format_of result.now ≡ Some self.now }
    {
        match self {
            OutputFormat::Terminal => "terminal",
            OutputFormat::Json => "json",
            OutputFormat::Sarif => "sarif",
        }
    }

    /// Parses a word.
    ///
    /// # Errors
    ///
    /// `Parse` for any other text; `OutOfMemory` instead if there is no memory for the message.
    pub fn from_str(alloc: Global, text: &str) -> Result<OutputFormat>
        ensures ok { IfOk result (λ f. format_of text.now ≡ Some f) }
        ensures err { IfErr result (IsRefusal ErrorKind.Parse (format_of text.now ≡ None)) }

        // Success takes no memory, so any error means that the text is not one of the words.
        ensures none { IfErr result (λ e. format_of text.now ≡ None) }
    {
        match from_name(text) {
            Some(value) => Ok(value),
            None => {
                let error = text_error(
                    alloc,
                    "unknown word",
                    text,
                    "`terminal`, `json` or `sarif`",
                );
                Err(with_nearest_name::<OutputFormat>(alloc, error, text))
            }
        }
    }
}

impl ClosedEnum for OutputFormat {
    ghost use Rattle.rustsec_policy.specs.Choices.{format_name, formats};

    ghost name_of = { format_name };

    ghost values = { formats };

    fn all() -> &'static [OutputFormat] {
        OutputFormat::all()
    }

    fn name(&self) -> &'static str {
        self.as_str()
    }
}

impl FromText for OutputFormat {
    ghost use Rattle.rustsec_policy.specs.Choices.{format_of};

    ghost reads = { format_of };

    fn from_text(alloc: Global, text: &str) -> Result<OutputFormat>
        ensures ok { IfOk result (λ x. format_of text.now ≡ Some x) }
        ensures err { IfErr result (IsRefusal ErrorKind.Parse (format_of text.now ≡ None)) }
        ensures none { IfErr result (λ e. format_of text.now ≡ None) }
    {
        OutputFormat::from_str(alloc, text)
    }
}

impl ExactClone for OutputFormat {
    ghost exact = { λ x y e. e };
}

impl ExactEq for OutputFormat {
    ghost use Rattle.std.specs.Cmp.Rules.{comparing};
    ghost use Rattle.std.proofs.Common.{rules};

    ghost decides = { λ x y. Prim.search (comparing, rules) };
}

impl PackageSource {
    /// Returns all words, in their order.
    pub fn all() -> &'static [PackageSource]
        ensures { result.now ≡ package_sources }
    {
        &[
            PackageSource::All,
            PackageSource::Public,
            PackageSource::Local,
        ]
    }

    /// Returns the word, as `from_str` reads it.
    pub fn as_str(&self) -> &'static str
        ensures value { result.now ≡ package_source_name self.now }
        ensures read { package_source_of result.now ≡ Some self.now }
    {
        match self {
            PackageSource::All => "all",
            PackageSource::Public => "public",
            PackageSource::Local => "local",
        }
    }

    /// Parses a word.
    ///
    /// # Errors
    ///
    /// `Parse` for any other text; `OutOfMemory` instead if there is no memory for the message.
    pub fn from_str(alloc: Global, text: &str) -> Result<PackageSource>
        ensures ok { IfOk result (λ s. package_source_of text.now ≡ Some s) }
        ensures err { IfErr result (IsRefusal ErrorKind.Parse (package_source_of text.now ≡ None)) }

        // Success takes no memory, so any error means that the text is not one of the words.
        ensures none { IfErr result (λ e. package_source_of text.now ≡ None) }
    {
        match from_name(text) {
            Some(value) => Ok(value),
            None => {
                let error = text_error(alloc, "unknown word", text, "`all`, `public` or `local`");
                Err(with_nearest_name::<PackageSource>(alloc, error, text))
            }
        }
    }
}

impl ClosedEnum for PackageSource {
    ghost use Rattle.rustsec_policy.specs.Choices.{package_source_name, package_sources};

    ghost name_of = { package_source_name };

    ghost values = { package_sources };

    fn all() -> &'static [PackageSource] {
        PackageSource::all()
    }

    fn name(&self) -> &'static str {
        self.as_str()
    }
}

impl FromText for PackageSource {
    ghost use Rattle.rustsec_policy.specs.Choices.{package_source_of};

    ghost reads = { package_source_of };

    fn from_text(alloc: Global, text: &str) -> Result<PackageSource>
        ensures ok { IfOk result (λ x. package_source_of text.now ≡ Some x) }
        ensures err { IfErr result (IsRefusal ErrorKind.Parse (package_source_of text.now ≡ None)) }
        ensures none { IfErr result (λ e. package_source_of text.now ≡ None) }
    {
        PackageSource::from_str(alloc, text)
    }
}

impl ExactClone for PackageSource {
    ghost exact = { λ x y e. e };
}

impl ExactEq for PackageSource {
    ghost use Rattle.std.specs.Cmp.Rules.{comparing};
    ghost use Rattle.std.proofs.Common.{rules};

    ghost decides = { λ x y. Prim.search (comparing, rules) };
}
