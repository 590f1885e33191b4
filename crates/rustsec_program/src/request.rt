//! Reads the values of the options.

ghost use Rattle.std.specs.Prelude.{◌≡◌, [], IfErr, IfOk, None, Some, map, option_map};
ghost use Rattle.rustsec_policy.specs.Choices.{severity_named};
ghost use Rattle.rustsec_values.specs.Reading.{read_all, read_optional};
ghost use Rattle.rustsec_values.specs.Failure.{IsRefusal};
ghost use Rattle.rustsec_program.specs.CheckOptions.{last_value, values_of};
ghost use Rattle.rustsec_program.specs.Wanted.{request_of};
ghost use Rattle.rustsec_program.specs.declared.keys.Key.TheVariants as key;

use crate::keys::Key;
use crate::options::Options;
use crate::shapes::{Coloring, LeastSeverity, Shape};
use rustsec_lock::Severity;
use rustsec_lock::platforms::{Arch, OS};
use rustsec_policy::Denied;
use rustsec_texts::{Date, Id};
use rustsec_values::{ClosedEnum, ErrorKind, FromText, Items, Result, Text, with_place};
use std::alloc::{AllocError, Global};

/// What the options say.
pub struct Request {
    /// The IDs that are ignored.
    pub ignored: Items<Id>,
    /// Which warnings fail.
    pub denied: Items<Denied>,
    /// The least severity.
    pub severity: Option<Severity>,
    /// The architectures.
    pub arch: Items<Arch>,
    /// The systems.
    pub os: Items<OS>,
    /// The day of the check.
    pub today: Option<Date>,
    /// How findings are written.
    pub shape: Option<Shape>,
    /// Whether the text for people has colors.
    pub color: Option<Coloring>,
    /// The folder of a registry's index.
    pub index: Option<Text>,
}

/// Hand-written: a derived `Drop` is proved again, field by field, at every exit of every owner.
impl Drop for Request {
    fn drop(self) {
        let Request {
            ignored: _,
            denied: _,
            severity: _,
            arch: _,
            os: _,
            today: _,
            shape: _,
            color: _,
            index: _,
        } = self;
    }
}

/// Reads texts, in order. `key` is for the message alone.
fn read_texts<T: FromText>(alloc: Global, key: Key, texts: &[&str]) -> Result<Items<T>>
    ensures ok { IfOk result (λ xs. read_all T.reads (map (λ t. t.now) texts.now) ≡ Some xs) }
    ensures err { IfErr result (IsRefusal ErrorKind.Parse (read_all T.reads (map (λ t. t.now) texts.now) ≡ None)) }
{
    let mut read = Items::new(alloc);
    for text in texts {
        match T::from_text(alloc, text) {
            Ok(value) => read.push(value)?,
            Err(e) => return Err(with_place(alloc, key.name(), &e)),
        }
    }
    Ok(read)
}

/// Reads the values of a key, in order.
fn read_values<T: FromText>(alloc: Global, options: &Options<'_>, key: Key) -> Result<Items<T>>
    ensures ok { IfOk result (λ xs. read_all T.reads (values_of key options.now) ≡ Some xs) }
    ensures err { IfErr result (IsRefusal ErrorKind.Parse (read_all T.reads (values_of key options.now) ≡ None)) }
{
    let texts = options.values(alloc, key)?;
    read_texts(alloc, key, texts.as_slice())
}

/// Reads the value of a key that counts once, if any.
fn read_last<T: FromText>(alloc: Global, options: &Options<'_>, key: Key) -> Result<Option<T>>
    ensures ok { IfOk result (λ x. read_optional T.reads (last_value key options.now) ≡ Some x) }
    ensures err { IfErr result (IsRefusal ErrorKind.Parse (read_optional T.reads (last_value key options.now) ≡ None)) }
{
    let Some(text) = options.last(alloc, key)? else {
        return Ok(None);
    };
    match T::from_text(alloc, text) {
        Ok(value) => Ok(Some(value)),
        Err(e) => Err(with_place(alloc, key.name(), &e)),
    }
}

/// Reads the least severity, if any.
fn read_severity(alloc: Global, options: &Options<'_>) -> Result<Option<Severity>>
    ensures ok { IfOk result (λ x. read_optional severity_named (last_value key.Severity options.now) ≡ Some x) }
    ensures err { IfErr result (IsRefusal ErrorKind.Parse (read_optional severity_named (last_value key.Severity options.now) ≡ None)) }
{
    let least: Option<LeastSeverity> = read_last(alloc, options, Key::Severity)?;
    match least {
        Some(least) => Ok(Some(least.severity)),
        None => Ok(None),
    }
}

/// Returns the value of a key that counts once as it is, if any.
fn last_text(
    alloc: Global,
    options: &Options<'_>,
    key: Key,
) -> std::result::Result<Option<Text>, AllocError>
    ensures { IfOk result (λ t. t ≡ last_value key options.now) }
{
    let last = options.last(alloc, key)?;
    Text::from_option(alloc, last)
}

impl Request {
    /// Returns the request of no option.
    fn new(alloc: Global) -> Request
        ensures { result ≡ record {
          ignored = [];
          denied = [];
          severity = None;
          arch = [];
          os = [];
          today = None;
          shape = None;
          color = None;
          index = None;
        } }
    {
        Request {
            ignored: Items::new(alloc),
            denied: Items::new(alloc),
            severity: None,
            arch: Items::new(alloc),
            os: Items::new(alloc),
            today: None,
            shape: None,
            color: None,
            index: None,
        }
    }
}

/// Reads the values of the options.
///
/// # Errors
///
/// `Parse` for a value that is refused; the message names its option. Else `OutOfMemory`.
pub fn request_of(alloc: Global, options: &Options<'_>) -> Result<Request>
    ensures ok { IfOk result (λ r. request_of options.now ≡ Some r) }
    ensures err { IfErr result (IsRefusal ErrorKind.Parse (request_of options.now ≡ None)) }
{
    let mut request = Request::new(alloc);
    request.ignored = read_values(alloc, options, Key::Ignore)?;
    request.denied = read_values(alloc, options, Key::Deny)?;
    request.severity = read_severity(alloc, options)?;
    request.arch = read_values(alloc, options, Key::Arch)?;
    request.os = read_values(alloc, options, Key::Os)?;
    request.today = read_last(alloc, options, Key::Today)?;
    request.shape = read_last(alloc, options, Key::Format)?;
    request.color = read_last(alloc, options, Key::Color)?;
    request.index = last_text(alloc, options, Key::Index)?;
    Ok(request)
}
