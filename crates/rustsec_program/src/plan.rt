//! Reads what the options of a command and the file of its policy ask for.

ghost use Rattle.std.specs.Prelude.{◌≡◌, IfErr, IfOk, None, Some, option_map};
ghost use Rattle.std.specs.List.{filter};
ghost use Rattle.rustsec_files.specs.Allowed.{AllowSame};
ghost use Rattle.rustsec_policy.specs.Policies.{policy_of};
ghost use Rattle.rustsec_values.specs.Failure.{IsRefusal};
ghost use Rattle.rustsec_program.specs.CheckOptions.{has, last_value};
ghost use Rattle.rustsec_program.specs.Plan.{IsPlan, IsPlanRefusal, counts_on};
ghost use Rattle.rustsec_program.specs.Wanted.{FailsAtPolicy, IsPolicyAt, IsPolicyRefusal, IsPolicyText, wanted};
ghost use Rattle.rustsec_program.specs.declared.keys.Flag.TheVariants as flag;
ghost use Rattle.rustsec_program.specs.declared.keys.Key.TheVariants as key;

use crate::keys::{Flag, Key};
use crate::options::Options;
use crate::request::{Request, request_of};
use crate::wanted::Wanted;
use rustsec_files::Folders;
use rustsec_policy::{Ignored, Policy};
use rustsec_texts::Date;
use rustsec_values::{ErrorKind, Items, Predicate, Result, Text, file_error};
use std::alloc::Global;
use std::marker::Model;

/// What the options of a command and the file of its policy ask for.
pub struct Plan<'a> {
    /// The policy, with the entries of `ignore` that count on the day.
    pub policy: Policy,
    /// What policy and words want.
    pub wanted: Wanted,
    /// The path of the older lockfile, if one is named.
    pub baseline: Option<&'a str>,
    /// Whether an empty database or lockfile is not refused.
    pub allow_empty: bool,
    /// Whether a line is written to the error output after each lockfile of many.
    pub shows_progress: bool,
}

/// Hand-written: a derived `Drop` is proved again, field by field, at every exit of every owner.
impl<'a> Drop for Plan<'a> {
    fn drop(self) {
        let Plan {
            policy: _,
            wanted: _,
            baseline: _,
            allow_empty: _,
            shows_progress: _,
        } = self;
    }
}

impl<'a> Model for Plan<'a> {
    ghost use Rattle.std.specs.Prelude.{option_map};
    ghost use Rattle.rustsec_program.specs.Plan.{PlanValue};

    ghost Value = { PlanValue };

    ghost view = { λ p. record {
      entries = p.policy.advisories.ignore;
      wanted = p.wanted;
      baseline = option_map (λ t. t.now) p.baseline;
      allow_empty = p.allow_empty;
      shows_progress = p.shows_progress;
    } };
}

/// The test whether an entry of a policy counts on a day.
#[derive(Drop)]
struct CountsOn<'a> {
    today: Option<&'a Date>,
}

impl<'a> Predicate<Ignored> for CountsOn<'a> {
    ghost use Rattle.std.specs.Prelude.{option_map};
    ghost use Rattle.rustsec_program.specs.Plan.{counts_on};

    ghost holds = { λ test e. counts_on (option_map (λ d. d.now) test.today) e };

    fn holds(&self, entry: &Ignored) -> bool {
        match (&entry.until, self.today) {
            (Some(until), Some(today)) => today <= until,
            (Some(_), None) => false,
            (None, _) => true,
        }
    }
}

/// Keeps the entries of a policy that count on a day.
fn keep_counting(entries: &mut Items<Ignored>, today: Option<&Date>)
    ensures { entries.new ≡ filter (counts_on (option_map (λ d. d.now) today.entry)) entries.old }
{
    entries.retain(&CountsOn { today });
}

/// Reads the text of the policy: that of its file, or the empty text if no file is named.
fn policy_text<F: Folders>(alloc: Global, folders: &mut F, path: Option<&str>) -> Result<Text>
    ensures ok { IfOk result (IsPolicyText (F.allowed folders.old) (option_map (λ t. t.now) path.entry)) }
    ensures err { IfErr result (IsRefusal ErrorKind.Io (FailsAtPolicy (F.allowed folders.old) (option_map (λ t. t.now) path.entry))) }
    ensures same { AllowSame (F.allowed folders.old) (F.allowed folders.new) }
{
    match path {
        Some(path) => folders.read(alloc, path),
        None => Ok(Text::new(alloc)),
    }
}

/// Reads the policy of a text. `path` is for the message alone.
fn policy_of(alloc: Global, path: Option<&str>, text: &str) -> Result<Policy>
    ensures ok { IfOk result (λ p. policy_of text.now ≡ Some p) }
    ensures err { IfErr result (IsRefusal ErrorKind.Parse (policy_of text.now ≡ None)) }
{
    match Policy::from_str(alloc, text) {
        Ok(policy) => Ok(policy),
        Err(e) => Err(file_error(alloc, path.unwrap_or("the policy"), &e)),
    }
}

/// Reads the policy of a file, or the policy of the empty text if no file is named.
fn policy_at<F: Folders>(alloc: Global, folders: &mut F, path: Option<&str>) -> Result<Policy>
    ensures ok { IfOk result (IsPolicyAt (F.allowed folders.old) (option_map (λ t. t.now) path.entry)) }
    ensures err { IfErr result (IsPolicyRefusal (F.allowed folders.old) (option_map (λ t. t.now) path.entry)) }
    ensures same { AllowSame (F.allowed folders.old) (F.allowed folders.new) }
{
    let text = policy_text(alloc, folders, path)?;
    policy_of(alloc, path, text.as_str())
}

/// Returns the plan of a policy, of a request and of the options of both.
fn plan_of<'a>(
    alloc: Global,
    options: &Options<'a>,
    policy: Policy,
    request: &Request,
) -> Result<Plan<'a>>
    ensures entries { IfOk result (λ p. p.entries ≡ filter (counts_on request.now.today) policy.advisories.ignore) }
    ensures wanted { IfOk result (λ p. wanted policy request.now ≡ Some p.wanted) }
    ensures baseline { IfOk result (λ p. p.baseline ≡ last_value key.Baseline options.now) }
    ensures allow_empty { IfOk result (λ p. p.allow_empty ≡ has flag.AllowEmpty options.now) }
    ensures shows_progress { IfOk result (λ p. p.shows_progress ≡ has flag.Progress options.now) }
    ensures err { IfErr result (IsRefusal ErrorKind.BadParam (wanted policy request.now ≡ None)) }
{
    let wanted = Wanted::of(alloc, &policy, request)?;
    let baseline = options.last(alloc, Key::Baseline)?;
    let mut policy = policy;
    keep_counting(&mut policy.advisories.ignore, request.today.as_ref());
    Ok(Plan {
        policy,
        wanted,
        baseline,
        allow_empty: options.has(Flag::AllowEmpty),
        shows_progress: options.has(Flag::Progress),
    })
}

impl<'a> Plan<'a> {
    /// Reads the values of options, then the policy, and joins both.
    ///
    /// # Errors
    ///
    /// `Parse` if a value is refused, or the text of the policy; `Io` if the file of the policy cannot be read; `BadParam`
    /// if an entry of the policy has a last day and the options name no day; else `OutOfMemory`.
    pub fn read<F: Folders>(
        alloc: Global,
        folders: &mut F,
        options: &Options<'a>,
    ) -> Result<Plan<'a>>
        ensures ok { IfOk result (IsPlan (F.allowed folders.old) options.now) }
        ensures err { IfErr result (IsPlanRefusal (F.allowed folders.old) options.now) }
        ensures same { AllowSame (F.allowed folders.old) (F.allowed folders.new) }
    {
        let request = request_of(alloc, options)?;
        let path = options.last(alloc, Key::Policy)?;
        let policy = policy_at(alloc, folders, path)?;
        plan_of(alloc, options, policy, &request)
    }
}
