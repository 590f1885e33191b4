//! Kinds of warnings.

ghost use Rattle.std.specs.Prelude.{◌≡◌, IfErr, IfOk, Some, None};
ghost use Rattle.rustsec_values.specs.Failure.{IsRefusal};
ghost use Rattle.rustsec_texts.specs.WarningKinds.{warning_kind_cmp, warning_kind_name, warning_kind_of};

use rustsec_values::{
    ClosedEnum, ErrorKind, ExactClone, ExactEq, FromText, Result, StatedOrder, from_name,
    text_error,
};
use std::alloc::Global;
use std::fmt;

/// What a warning is about.
#[derive(Clone, Copy, PartialEq, Eq, PartialOrd, Ord, Hash, Debug)]
pub enum WarningKind {
    /// A notice about a package.
    Notice,
    /// A package that nobody maintains.
    Unmaintained,
    /// A package that is not sound.
    Unsound,
    /// A version that was yanked from its registry.
    Yanked,
}

impl WarningKind {
    /// Returns the text of the kind, as `from_str` reads it.
    pub fn as_str(&self) -> &'static str
        ensures value { result.now ≡ warning_kind_name self.now }
        ensures read { warning_kind_of result.now ≡ Some self.now }
    {
        match self {
            WarningKind::Notice => "notice",
            WarningKind::Unmaintained => "unmaintained",
            WarningKind::Unsound => "unsound",
            WarningKind::Yanked => "yanked",
        }
    }

    /// Parses the name of a kind of warnings.
    ///
    /// # Errors
    ///
    /// `Parse` for any other text; `OutOfMemory` instead if there is no memory for the message.
    pub fn from_str(alloc: Global, text: &str) -> Result<WarningKind>
        ensures ok { IfOk result (λ k. warning_kind_of text.now ≡ Some k) }
        ensures err { IfErr result (IsRefusal ErrorKind.Parse (warning_kind_of text.now ≡ None)) }

        // Success takes no memory, so any error means that the text is not one of the names.
        ensures none { IfErr result (λ e. warning_kind_of text.now ≡ None) }
        ensures printed { IfOk result (λ k. warning_kind_name k ≡ text.now) }
    {
        match from_name(text) {
            Some(value) => Ok(value),
            None => Err(text_error(
                alloc,
                "no kind of warnings has the name",
                text,
                "`notice`, `unmaintained`, `unsound` or `yanked`",
            )),
        }
    }
}

impl ClosedEnum for WarningKind {
    ghost use Rattle.rustsec_texts.specs.WarningKinds.{warning_kind_name, warning_kinds};

    ghost name_of = { warning_kind_name };

    ghost values = { warning_kinds };

    fn all() -> &'static [WarningKind] {
        &[
            WarningKind::Notice,
            WarningKind::Unmaintained,
            WarningKind::Unsound,
            WarningKind::Yanked,
        ]
    }

    fn name(&self) -> &'static str {
        self.as_str()
    }
}

impl FromText for WarningKind {
    ghost use Rattle.rustsec_texts.specs.WarningKinds.{warning_kind_of};

    ghost reads = { warning_kind_of };

    fn from_text(alloc: Global, text: &str) -> Result<WarningKind>
        ensures ok { IfOk result (λ x. warning_kind_of text.now ≡ Some x) }
        ensures err { IfErr result (IsRefusal ErrorKind.Parse (warning_kind_of text.now ≡ None)) }
        ensures none { IfErr result (λ e. warning_kind_of text.now ≡ None) }
    {
        WarningKind::from_str(alloc, text)
    }
}

impl ExactClone for WarningKind {
    ghost exact = { λ x y e. e };
}

impl ExactEq for WarningKind {
    ghost use Rattle.std.specs.Cmp.Rules.{comparing};
    ghost use Rattle.std.proofs.Common.{rules};

    ghost decides = { λ x y. Prim.search (comparing, rules) };
}

impl fmt::Display for WarningKind {
    ghost use Rattle.std.specs.Prelude.{Some};
    ghost use Rattle.rustsec_texts.specs.WarningKinds.{warning_kind_name};

    ghost output = { λ k. Some (warning_kind_name k) };

    fn fmt<W: fmt::Write>(&self, f: &mut fmt::Formatter<W>) -> fmt::Result {
        f.write_str(self.as_str())
    }
}

impl StatedOrder for WarningKind {
    ghost use Rattle.std.specs.Cmp.Rules.{comparing};
    ghost use Rattle.std.proofs.Common.{rules};

    ghost order = { warning_kind_cmp };

    ghost agrees = { λ x y. Prim.search (comparing, rules) };
}
