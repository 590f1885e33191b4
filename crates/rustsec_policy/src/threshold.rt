//! The least severity of the findings, by its name.

ghost use Rattle.std.specs.Prelude.{◌≡◌, IfErr, IfOk, None, Some};
ghost use Rattle.rustsec_values.specs.Failure.{IsRefusal};
ghost use Rattle.rustsec_policy.specs.Choices.{severity_named};

use crate::nearest::with_nearest;
use rustsec_lock::Severity;
use rustsec_values::{ErrorKind, FromText, Result, text_error};
use std::alloc::Global;
use std::marker::Model;

/// A severity that is read from its name.
#[derive(Drop)]
pub(crate) struct Threshold {
    pub(crate) severity: Severity,
}

impl Model for Threshold {
    ghost use Rattle.rustsec_lock.specs.declared.severity.Severity.{Severity};

    ghost Value = { Severity };

    ghost view = { λ t. t.severity };
}

/// Returns the severity of a name.
fn severity_named(text: &str) -> Option<Severity>
    ensures { result ≡ severity_named text.now }
{
    match text {
        "none" => Some(Severity::None),
        "low" => Some(Severity::Low),
        "medium" => Some(Severity::Medium),
        "high" => Some(Severity::High),
        "critical" => Some(Severity::Critical),
        _ => None,
    }
}

/// Returns the severity of a name: `none`, `low`, `medium`, `high` or `critical`.
///
/// # Errors
///
/// `Parse` for any other text; `OutOfMemory` instead if there is no memory for the message.
pub fn read_severity(alloc: Global, text: &str) -> Result<Severity>
    ensures ok { IfOk result (λ s. severity_named text.now ≡ Some s) }
    ensures err { IfErr result (IsRefusal ErrorKind.Parse (severity_named text.now ≡ None)) }

    // Success takes no memory, so any error means that the text is not the name of a severity.
    ensures none { IfErr result (λ e. severity_named text.now ≡ None) }
{
    match severity_named(text) {
        Some(severity) => Ok(severity),
        None => {
            let expected = "`none`, `low`, `medium`, `high` or `critical`";
            let error = text_error(alloc, "unknown severity", text, expected);
            let names = ["none", "low", "medium", "high", "critical"];
            Err(with_nearest(alloc, error, &names, text))
        }
    }
}

impl FromText for Threshold {
    ghost use Rattle.rustsec_policy.specs.Choices.{severity_named};

    ghost reads = { severity_named };

    fn from_text(alloc: Global, text: &str) -> Result<Threshold> {
        let severity = read_severity(alloc, text)?;
        Ok(Threshold { severity })
    }
}
