//! Rules about the values of a JSON document.

ghost use Rattle.std.specs.Prelude.{◌≡◌, ℕ, Bool, List};
ghost use Rattle.serde_json.specs.Data.{Data};
ghost use Rattle.serde_json.specs.View.{items_view, members_view, view};
ghost use Rattle.rustsec_osv_rules.specs.schema.Values.{every, has, has_only, is_null, is_object, is_text, list_of, list_with, object_of, optional, or_null, required, some, text_of};

use serde_json::{Map, Value};
use std::marker::PhantomData;

/// A rule about a value.
pub(crate) trait Rule {
    ghost rule: { Data → Bool };

    /// Returns whether a value keeps the rule.
    fn holds(value: &Value) -> bool
        ensures { result ≡ rule (view value.now) };
}

/// A form of texts.
pub(crate) trait Form {
    ghost form: { List ℕ → Bool };

    /// Returns whether a text is of the form.
    fn fits(text: &str) -> bool
        ensures { result ≡ form text.now };
}

/// Returns whether the value at a key keeps a rule, if the key is there.
pub(crate) fn optional<R: Rule>(value: &Value, key: &str) -> bool
    ensures { result ≡ optional key.now R.rule (view value.now) }
{
    match value.get(key) {
        Some(found) => R::holds(found),
        None => true,
    }
}

/// Returns whether a key is there, and its value keeps a rule.
pub(crate) fn required<R: Rule>(value: &Value, key: &str) -> bool
    ensures { result ≡ required key.now R.rule (view value.now) }
{
    match value.get(key) {
        Some(found) => R::holds(found),
        None => false,
    }
}

/// Returns whether a key is there.
pub(crate) fn has(value: &Value, key: &str) -> bool
    ensures { result ≡ has key.now (view value.now) }
{
    value.get(key).is_some()
}

/// Returns whether each of some values keeps a rule.
#[tactic(auto, using(crate::proofs::schema::Views::every_more, crate::proofs::schema::Views::every_stop, crate::proofs::schema::Views::every_end))]
fn every<R: Rule>(values: &Vec<Value>) -> bool
    ensures { result ≡ every R.rule (items_view values.now.items) }
{
    for value in values {
        if !R::holds(value) {
            return false;
        }
    }
    true
}

/// Returns whether one of some values keeps a rule.
#[tactic(auto, using(crate::proofs::schema::Views::some_more, crate::proofs::schema::Views::some_stop, crate::proofs::schema::Views::some_end))]
fn some<R: Rule>(values: &Vec<Value>) -> bool
    ensures { result ≡ some R.rule (items_view values.now.items) }
{
    for value in values {
        if R::holds(value) {
            return true;
        }
    }
    false
}

/// Returns whether a value is a list with a value that keeps a rule.
pub(crate) fn list_with<R: Rule>(value: &Value) -> bool
    ensures { result ≡ list_with R.rule (view value.now) }
{
    match value.as_array() {
        Some(values) => some::<R>(values),
        None => false,
    }
}

/// Any text.
pub(crate) struct AnyText;

impl Rule for AnyText {
    ghost use Rattle.rustsec_osv_rules.specs.schema.Values.{is_text};

    ghost rule = { is_text };

    fn holds(value: &Value) -> bool {
        value.is_string()
    }
}

/// Any object.
pub(crate) struct AnyObject;

impl Rule for AnyObject {
    ghost use Rattle.rustsec_osv_rules.specs.schema.Values.{is_object};

    ghost rule = { is_object };

    fn holds(value: &Value) -> bool {
        value.is_object()
    }
}

/// A text of a form.
pub(crate) struct TextOf<F: Form>(PhantomData<F>);

impl<F: Form> Rule for TextOf<F> {
    ghost use Rattle.rustsec_osv_rules.specs.schema.Values.{text_of};

    ghost rule = { text_of F.form };

    fn holds(value: &Value) -> bool {
        match value.as_str() {
            Some(text) => F::fits(text),
            None => false,
        }
    }
}

/// Null, or a value that keeps a rule.
pub(crate) struct OrNull<R: Rule>(PhantomData<R>);

impl<R: Rule> Rule for OrNull<R> {
    ghost use Rattle.rustsec_osv_rules.specs.schema.Values.{or_null};

    ghost rule = { or_null R.rule };

    fn holds(value: &Value) -> bool {
        value.is_null() || R::holds(value)
    }
}

/// A list of values that keep a rule.
pub(crate) struct ListOf<R: Rule>(PhantomData<R>);

impl<R: Rule> Rule for ListOf<R> {
    ghost use Rattle.rustsec_osv_rules.specs.schema.Values.{list_of};

    ghost rule = { list_of R.rule };

    fn holds(value: &Value) -> bool {
        match value.as_array() {
            Some(values) => every::<R>(values),
            None => false,
        }
    }
}
