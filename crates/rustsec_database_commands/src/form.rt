//! The forms of an output.

ghost use Rattle.std.specs.Prelude.{◌≡◌, IfErr, IfOk, None, Some, option_map};
ghost use Rattle.rustsec_values.specs.Failure.{IsRefusal};
ghost use Rattle.rustsec_database_commands.specs.Lint.{form_named};

use rustsec_values::{ClosedEnum, ErrorKind, Result, from_name, text_error};
use std::alloc::Global;

/// The form of an output.
#[derive(Clone, Copy, PartialEq, Eq, Debug)]
pub enum Form {
    /// Lines for people.
    Text,
    /// JSON.
    Json,
}

impl ClosedEnum for Form {
    ghost use Rattle.rustsec_database_commands.specs.Lint.{form_name, forms};

    ghost name_of = { form_name };

    ghost values = { forms };

    fn all() -> &'static [Form] {
        &[Form::Text, Form::Json]
    }

    fn name(&self) -> &'static str {
        match self {
            Form::Text => "text",
            Form::Json => "json",
        }
    }
}

/// Returns the form of a name, and text without one.
///
/// # Errors
///
/// `Parse` if the name is unknown; else `OutOfMemory`.
pub fn form_named(alloc: Global, name: Option<&str>) -> Result<Form>
    ensures ok { IfOk result (λ f. form_named (option_map (λ t. t.now) name.entry) ≡ Some f) }
    ensures err { IfErr result (IsRefusal ErrorKind.Parse (form_named (option_map (λ t. t.now) name.entry) ≡ None)) }
{
    let Some(name) = name else {
        return Ok(Form::Text);
    };
    match from_name(name) {
        Some(form) => Ok(form),
        None => Err(text_error(alloc, "unknown word", name, "`text` or `json`")),
    }
}
