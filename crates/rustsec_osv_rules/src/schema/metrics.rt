//! The metrics of CVSS vectors: rows of a name and the letters of its values.

ghost use Rattle.std.specs.Prelude.{◌≡◌, map, nat_eq, option_map};
ghost use Rattle.std.specs.List.{list_any};
ghost use Rattle.rustsec_osv_rules.specs.schema.Rows.{row_of};
ghost use Rattle.rustsec_osv_rules.specs.schema.VectorScan.{after_each, after_letter, after_metric, after_optional, after_optionals, after_prefix, is_letter, is_metric, is_metric_of};

/// A metric's name with its colon, and the letters of its values.
pub(crate) type Row = (&'static str, &'static str);

/// Returns the text after a prefix, if it begins with the prefix.
pub(crate) fn after_prefix<'a>(prefix: &[u8], text: &'a [u8]) -> Option<&'a [u8]>
    ensures { option_map (λ t. t.now) result ≡ after_prefix prefix.now text.now }
{
    if text.starts_with(prefix) {
        Some(&text[prefix.len()..])
    } else {
        None
    }
}

/// Returns whether a byte is one of some letters.
fn is_among(letters: &[u8], b: u8) -> bool
    ensures { result ≡ list_any (nat_eq b) letters.now }
{
    letters.iter().any(|letter| b == *letter)
}

/// Returns whether a text is exactly one of some letters.
fn is_letter(letters: &[u8], text: &[u8]) -> bool
    ensures { result ≡ is_letter letters.now text.now }
{
    match text {
        [b] => is_among(letters, *b),
        _ => false,
    }
}

/// Returns whether a text is a metric with one of its letters.
fn is_metric(text: &[u8], row: &Row) -> bool
    ensures { result ≡ is_metric text.now (row_of row.now) }
{
    let (name, letters) = (row.0.as_bytes(), row.1.as_bytes());
    if text.starts_with(name) {
        is_letter(letters, &text[name.len()..])
    } else {
        false
    }
}

/// Returns whether a text is the metric of one of some rows.
#[tactic(auto, using(crate::proofs::schema::Folds::any_more, crate::proofs::schema::Folds::any_end))]
pub(crate) fn is_metric_of(rows: &[Row], text: &[u8]) -> bool
    ensures { result ≡ is_metric_of (map row_of rows.now) text.now }
{
    for row in rows {
        if is_metric(text, row) {
            return true;
        }
    }
    false
}

/// Returns the text after one of some letters at its beginning, if any.
fn after_letter<'a>(letters: &[u8], text: &'a [u8]) -> Option<&'a [u8]>
    ensures { option_map (λ t. t.now) result ≡ after_letter letters.now text.now }
{
    match text {
        [b, rest @ ..] if is_among(letters, *b) => Some(rest),
        _ => None,
    }
}

/// Returns the text after a metric with one of its letters, if the text begins with it.
fn after_metric<'a>(row: &Row, text: &'a [u8]) -> Option<&'a [u8]>
    ensures { option_map (λ t. t.now) result ≡ after_metric (row_of row.now) text.now }
{
    match after_prefix(row.0.as_bytes(), text) {
        Some(rest) => after_letter(row.1.as_bytes(), rest),
        None => None,
    }
}

/// Returns the text after a metric, or the text itself if the metric is left out.
fn after_optional<'a>(row: &Row, text: &'a [u8]) -> &'a [u8]
    ensures { result.now ≡ after_optional (row_of row.now) text.now }
{
    match after_metric(row, text) {
        Some(rest) => rest,
        None => text,
    }
}

/// Returns the text after each of some metrics, if it begins with all of them in order.
#[tactic(auto, using(crate::proofs::schema::MetricRows::each_more, crate::proofs::schema::MetricRows::each_stop, crate::proofs::schema::MetricRows::each_end))]
pub(crate) fn after_each<'a>(rows: &[Row], text: &'a [u8]) -> Option<&'a [u8]>
    ensures { option_map (λ t. t.now) result ≡ after_each (map row_of rows.now) text.now }
{
    let mut rest = text;
    for row in rows {
        match after_metric(row, rest) {
            Some(more) => rest = more,
            None => return None,
        }
    }
    Some(rest)
}

/// Returns the text after those of some metrics that are there, in order.
#[tactic(auto, using(crate::proofs::schema::MetricRows::optionals_more, crate::proofs::schema::MetricRows::optionals_end))]
pub(crate) fn after_optionals<'a>(rows: &[Row], text: &'a [u8]) -> &'a [u8]
    ensures { result.now ≡ after_optionals (map row_of rows.now) text.now }
{
    let mut rest = text;
    for row in rows {
        rest = after_optional(row, rest);
    }
    rest
}
