//! The command `explain`.

ghost use Rattle.std.specs.Prelude.{◌≡◌, ◌⊎◌, IfErr, IfOk, List, map, string_bytes};
ghost use Rattle.rustsec_advisory.specs.declared.advisory.Advisory.{Advisory};
ghost use Rattle.rustsec_json.specs.Lines.{tree_line};
ghost use Rattle.rustsec_database.specs.Opened.{AreOpened, IsOpenRefusal};
ghost use Rattle.rustsec_explain_output.specs.ExplainTree.{explain_tree};
ghost use Rattle.rustsec_files.specs.Allowed.{AllowSame};
ghost use Rattle.rustsec_lock.specs.Lockfile.{IsLockfileAt, IsLockfileRefusal};
ghost use Rattle.rustsec_lock.specs.Package.{PackageValue};
ghost use Rattle.rustsec_policy.specs.Policies.{known_id};
ghost use Rattle.rustsec_values.specs.Failure.{IsMemory};
ghost use Rattle.rustsec_program.specs.Explain.{IsExplainOutput, IsExplainRefusal, IsExplained, pairs_of, pairs_output, pairs_text, rules_of};

use crate::checked::Ground;
use crate::misuse;
use crate::options::{Options, options_of};
use crate::plan::Plan;
use crate::shapes::Shape;
use rustsec_commands::Paths;
use rustsec_commands::error_output::refusal_output;
use rustsec_commands::output::{Output, usage_output};
use rustsec_database::Database;
use rustsec_explain::{Explained, explain_id};
use rustsec_explain_output::{Rules, explain_text, explain_tree};
use rustsec_files::Folders;
use rustsec_json::tree_line;
use rustsec_lock::Lockfile;
use rustsec_texts::Id;
use rustsec_values::{ErrorKind, Result};
use std::alloc::{AllocError, Global};

/// Returns the JSON list of some pairs on one line.
fn explain_line(alloc: Global, rules: &Rules<'_>, pairs: &[Explained<'_>]) -> Result<String>
    ensures ok { IfOk result (λ t. string_bytes t ≡ tree_line (explain_tree rules.now pairs.now)) }
    ensures err { IfErr result IsMemory }
{
    let tree = explain_tree(alloc, rules, pairs)?;
    let line = tree_line(alloc, &tree)?;
    Ok(line)
}

/// Returns the text for some pairs.
fn pairs_text(
    alloc: Global,
    shape: Shape,
    rules: &Rules<'_>,
    pairs: &[Explained<'_>],
) -> Result<String>
    ensures ok { IfOk result (λ t. string_bytes t ≡ pairs_text shape rules.now pairs.now) }
    ensures err { IfErr result IsMemory }
{
    match shape {
        Shape::Json => explain_line(alloc, rules, pairs),
        Shape::Text | Shape::Sarif | Shape::Html | Shape::Markdown => {
            explain_text(alloc, rules, pairs)
        }
    }
}

/// Returns the ID that a text is, if it is known who assigns such an ID.
fn known_id(alloc: Global, text: &str) -> Result<Option<Id>>
    ensures ok { IfOk result (λ id. id ≡ known_id text.now) }
    ensures err { IfErr result IsMemory }
{
    match Id::from_str(alloc, text) {
        Ok(id) => {
            if id.is_other() {
                return Ok(None);
            }
            Ok(Some(id))
        }
        Err(e) if e.kind() == ErrorKind::OutOfMemory => Err(e),
        Err(_) => Ok(None),
    }
}

/// Returns the pairs that a text names.
fn pairs_of<'x>(
    alloc: Global,
    ground: &'x Ground<'x>,
    lockfile: &'x Lockfile,
    text: &str,
) -> Result<Vec<Explained<'x>>>
    ensures ok { IfOk result (λ v. v.items ≡ pairs_of ground.now lockfile.now.packages text.now) }
    ensures err { IfErr result IsMemory }
{
    let plan = ground.plan();
    let settings = &plan.wanted.settings;
    let advisories = ground.database().iter().as_slice();
    let packages = lockfile.packages.as_slice();
    match known_id(alloc, text)? {
        Some(id) => explain_id(alloc, settings, advisories, packages, &id),
        None => rustsec_explain::explain(alloc, settings, advisories, packages, text),
    }
}

/// Returns what an explanation goes by.
fn rules_of<'x>(plan: &'x Plan<'x>) -> Rules<'x>
    ensures { result ≡ rules_of plan.now }
{
    Rules {
        settings: &plan.wanted.settings,
        entries: plan.policy.advisories.ignore.as_slice(),
    }
}

/// Makes the output for a lockfile.
fn pairs_output<'x>(
    alloc: Global,
    ground: &'x Ground<'x>,
    lockfile: &'x Lockfile,
    text: &str,
) -> Result<Output>
    ensures ok { IfOk result (λ o. o ≡ pairs_output ground.now lockfile.now.packages text.now) }
    ensures err { IfErr result IsMemory }
{
    let plan = ground.plan();
    let pairs = pairs_of(alloc, ground, lockfile, text)?;
    let rules = rules_of(plan);
    let text = pairs_text(alloc, plan.wanted.shape, &rules, &pairs)?;
    Ok(Output::new(text, 0))
}

/// Opens the database, reads the lockfile and explains its packages by a plan.
fn planned_output<'x, F: Folders>(
    alloc: Global,
    folders: &mut F,
    paths: Paths<'_>,
    text: &str,
    plan: &'x Plan<'x>,
) -> Result<Output>
    ensures ok { IfOk result (λ o. (advisories : List Advisory) × (AreOpened (F.allowed folders.old) paths.entry.root.now advisories
        × ((packages : List PackageValue) × (IsLockfileAt (F.allowed folders.old) paths.entry.lock.now packages
        × (o ≡ pairs_output (record { plan = plan.now; advisories = advisories }) packages text.now))))) }
    ensures err { IfErr result (λ e. IsOpenRefusal (F.allowed folders.old) paths.entry.root.now e
        ⊎ (((advisories : List Advisory) × AreOpened (F.allowed folders.old) paths.entry.root.now advisories)
        × IsLockfileRefusal (F.allowed folders.old) paths.entry.lock.now e)) }
    ensures same { AllowSame (F.allowed folders.old) (F.allowed folders.new) }
{
    let database = Database::open_with(alloc, folders, paths.root)?;
    let lockfile = Lockfile::load_with(alloc, folders, paths.lock)?;
    let ground = Ground::new(plan, &database);
    let output = pairs_output(alloc, &ground, &lockfile, text)?;
    Ok(output)
}

/// Reads the options' values, the policy, the database and the lockfile, in this order, and explains its packages.
fn options_output<F: Folders>(
    alloc: Global,
    folders: &mut F,
    paths: Paths<'_>,
    text: &str,
    options: &Options<'_>,
) -> Result<Output>
    ensures ok { IfOk result (IsExplained (F.allowed folders.old) paths.entry.root.now paths.entry.lock.now text.now options.now) }
    ensures err { IfErr result (IsExplainRefusal (F.allowed folders.old) paths.entry.root.now paths.entry.lock.now options.now) }
    ensures same { AllowSame (F.allowed folders.old) (F.allowed folders.new) }
{
    let plan = Plan::read(alloc, folders, options)?;
    planned_output(alloc, folders, paths, text, &plan)
}

/// Makes the output of `explain` for a root, the path of a lockfile, an ID or a name, and the words after them.
pub fn explain<F: Folders>(
    alloc: Global,
    folders: &mut F,
    paths: Paths<'_>,
    text: &str,
    words: &[&str],
) -> std::result::Result<Output, AllocError>
    ensures ok { IfOk result (IsExplainOutput (F.allowed folders.old) paths.entry.root.now paths.entry.lock.now text.now (map (λ w. w.now) words.now)) }
    ensures same { AllowSame (F.allowed folders.old) (F.allowed folders.new) }
{
    let Some(options) = options_of(alloc, words)? else {
        return usage_output(alloc, misuse::of_options(alloc, words).ok());
    };
    match options_output(alloc, folders, paths, text, &options) {
        Ok(output) => Ok(output),
        Err(error) => refusal_output(alloc, &error),
    }
}
