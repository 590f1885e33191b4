//! Joins the policy of a file and the words of a command.

ghost use Rattle.std.specs.Prelude.{◌≡◌, ◌++◌, ◌&&◌, not, IfErr, IfOk, None, OnOk, Some, [], false, option_map, unwrap_or};
ghost use Rattle.std.specs.List.{list_any};
ghost use Rattle.rustsec_policy.specs.Notes.{is_yanked, notes_of};
ghost use Rattle.rustsec_policy.specs.Policies.{ids_on};
ghost use Rattle.rustsec_values.specs.Failure.{IsMemory, IsRefusal};
ghost use Rattle.rustsec_program.specs.Notes.{note_if};
ghost use Rattle.rustsec_program.specs.Wanted.{has_colors, index_by, or_else, policy_shape, settings_of, usual_kinds, wanted, word_notes};

use crate::request::Request;
use crate::shapes::{Coloring, Shape};
use rustsec_policy::{Denied, OutputFormat, Policy};
use rustsec_report::Settings;
use rustsec_texts::{Id, Informational};
use rustsec_values::{ErrorKind, ExactClone, Items, Result, Text};
use std::alloc::{AllocError, Global};

/// What is wanted of a check, by the policy and the words.
pub struct Wanted {
    /// Which advisories count.
    pub settings: Settings,
    /// Which warnings fail.
    pub denied: Items<Denied>,
    /// How findings are written.
    pub shape: Shape,
    /// Whether the text for people has colors.
    pub colored: bool,
    /// The folder of the index that is asked which packages are yanked, if any.
    pub index: Option<Text>,
    /// Notes on the policy and the words.
    pub notes: Items<Text>,
}

/// Hand-written: a derived `Drop` is proved again, field by field, at every exit of every owner.
impl Drop for Wanted {
    fn drop(self) {
        let Wanted {
            settings: _,
            denied: _,
            shape: _,
            colored: _,
            index: _,
            notes: _,
        } = self;
    }
}

/// Returns the elements of two lists, one after the other.
pub(crate) fn joined<T: Drop>(
    first: Items<T>,
    second: Items<T>,
) -> std::result::Result<Items<T>, AllocError>
    ensures { IfOk result (λ xs. xs ≡ first ++ second) }
{
    let mut all = Vec::from(first);
    let mut more = Vec::from(second);
    all.append(&mut more)?;
    Ok(Items::from(all))
}

/// Returns copies of the elements of two lists, one after the other.
fn joined_copies<T: ExactClone + Drop>(
    first: &Items<T>,
    second: &Items<T>,
) -> std::result::Result<Items<T>, AllocError>
    ensures { IfOk result (λ xs. xs ≡ first.now ++ second.now) }
{
    let copy = Clone::clone(first)?;
    joined(copy, Clone::clone(second)?)
}

/// Returns the kinds of informational advisories that give warnings.
fn kinds(alloc: Global, policy: &Policy) -> std::result::Result<Items<Informational>, AllocError>
    ensures { IfOk result (λ ks. ks ≡ unwrap_or policy.now.advisories.informational_warnings usual_kinds) }
{
    if let Some(kinds) = &policy.advisories.informational_warnings {
        return Clone::clone(kinds);
    }
    let kinds = vec![in alloc;
        Informational::Notice,
        Informational::Unmaintained,
        Informational::Unsound,
    ]?;
    Ok(Items::from(kinds))
}

/// Returns the settings of a check, by the IDs that the policy ignores on the day.
fn settings_of(
    alloc: Global,
    policy: &Policy,
    request: &Request,
    ids: Items<Id>,
) -> std::result::Result<Settings, AllocError>
    ensures { IfOk result (λ s. s ≡ settings_of policy.now request.now ids) }
{
    let mut settings = Settings::new(alloc);
    settings.ignore = joined(ids, Clone::clone(&request.ignored)?)?;
    settings.target_arch = joined_copies(&policy.target.arch, &request.arch)?;
    settings.target_os = joined_copies(&policy.target.os, &request.os)?;
    settings.severity = request.severity.or(policy.advisories.severity_threshold);
    settings.informational_warnings = kinds(alloc, policy)?;
    Ok(settings)
}

/// Returns how findings are written: as the words say, else as the policy says, else as text.
fn shape_of(word: Option<Shape>, format: Option<OutputFormat>) -> Shape
    ensures { result ≡ unwrap_or word (policy_shape format) }
{
    match (word, format) {
        (Some(shape), _) => shape,
        (None, Some(OutputFormat::Json)) => Shape::Json,
        (None, Some(OutputFormat::Sarif)) => Shape::Sarif,
        (None, _) => Shape::Text,
    }
}

/// Returns whether the text for people has colors.
fn has_colors(color: Option<Coloring>) -> bool
    ensures { result ≡ has_colors color }
{
    matches!(color, Some(Coloring::Always))
}

/// Returns the folder of the index that is asked: the word's, or else the policy's.
fn index_by(
    alloc: Global,
    policy: &Policy,
    request: &Request,
) -> std::result::Result<Option<Text>, AllocError>
    ensures { IfOk result (λ i. i ≡ index_by policy.now request.now) }
{
    if let Some(index) = &request.index {
        let copy = Clone::clone(index)?;
        return Ok(Some(copy));
    }
    Text::from_option(alloc, policy.yanked.index())
}

/// Returns whether a word denies yanked packages.
fn is_yanked(word: Denied) -> bool
    ensures { result ≡ is_yanked word }
{
    match word {
        Denied::Yanked => true,
        Denied::Warnings | Denied::Unmaintained | Denied::Unsound => false,
    }
}

/// Returns whether some word denies yanked packages.
fn some_is_yanked(words: &[Denied]) -> bool
    ensures { result ≡ list_any is_yanked words.now }
{
    words.iter().any(|word| is_yanked(*word))
}

/// Appends a note, if it applies.
pub(crate) fn push_if(
    alloc: Global,
    notes: &mut Items<Text>,
    applies: bool,
    note: &str,
) -> std::result::Result<(), AllocError>
    ensures { OnOk result (notes.new ≡ notes.old ++ note_if applies note.now) }
{
    if applies {
        let note = Text::from_str(alloc, note)?;
        notes.push(note)?;
    }
    Ok(())
}

/// Returns whether a word denies yanked packages in vain, since no index is asked.
fn is_idle(has_index: bool, words: &[Denied]) -> bool
    ensures { result ≡ (not has_index && list_any is_yanked words.now) }
{
    !has_index && some_is_yanked(words)
}

/// Returns notes and then the one on a word that denies yanked packages, if no index is asked.
fn with_word_notes(
    alloc: Global,
    notes: Items<Text>,
    has_index: bool,
    words: &[Denied],
) -> std::result::Result<Items<Text>, AllocError>
    ensures { IfOk result (λ all. all ≡ notes ++ word_notes has_index words.now) }
{
    let mut all = notes;
    push_if(
        alloc,
        &mut all,
        is_idle(has_index, words),
        "`--deny yanked` denies nothing without an index: no package is looked up",
    )?;
    Ok(all)
}

impl Wanted {
    /// Returns what is wanted if nothing is said.
    fn new(alloc: Global) -> Wanted
        ensures { result.denied ≡ [] }
    {
        Wanted {
            settings: Settings::new(alloc),
            denied: Items::new(alloc),
            shape: Shape::Text,
            colored: false,
            index: None,
            notes: Items::new(alloc),
        }
    }

    /// Returns what a policy and words want together.
    ///
    /// # Errors
    ///
    /// `BadParam` if an entry of the policy has a last day and the words name no day; else `OutOfMemory`.
    pub fn of(alloc: Global, policy: &Policy, request: &Request) -> Result<Wanted>
        ensures ok { IfOk result (λ w. wanted policy.now request.now ≡ Some w) }
        ensures err { IfErr result (IsRefusal ErrorKind.BadParam (wanted policy.now request.now ≡ None)) }
    {
        let ids = policy
            .advisories
            .ignored_ids(alloc, request.today.as_ref())?;
        let mut wanted = Wanted::new(alloc);
        wanted.settings = settings_of(alloc, policy, request, ids)?;
        wanted.denied = joined_copies(&policy.output.deny, &request.denied)?;
        wanted.shape = shape_of(request.shape, policy.output.format);
        wanted.colored = has_colors(request.color);
        wanted.index = index_by(alloc, policy, request)?;
        let has_index = wanted.index.is_some();
        let notes = policy.notes(alloc, has_index)?;
        wanted.notes = with_word_notes(alloc, notes, has_index, request.denied.as_slice())?;
        Ok(wanted)
    }
}
