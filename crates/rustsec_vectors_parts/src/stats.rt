//! The tables of an advisory that names no collection. Loading a database names one.

use rustsec_advisory::Advisory;
use rustsec_fixtures::SHORT;
use rustsec_stats::{Stats, stats_of, stats_text, stats_tree};
use std::alloc::Global;
use std::test::Fail;

/// What is written about the short advisory as JSON.
const JSON: &str =
    "{\"advisories\":1,\"categories\":{\"code-execution\":0,\"crypto-failure\":0,\"denial-of-service\":0,\"file-disclosure\":0,\"format-injection\":0,\"malicious\":0,\"memory-corruption\":0,\"memory-exposure\":0,\"other\":0,\"privilege-escalation\":0,\"thread-safety\":0},\"collections\":{\"crates\":0,\"no-collection\":1,\"rust\":0},\"kinds\":{\"notice\":0,\"other\":0,\"unmaintained\":0,\"unsound\":0,\"vulnerability\":1},\"severities\":{\"critical\":0,\"high\":0,\"low\":0,\"medium\":0,\"no-score\":1,\"none\":0},\"withdrawals\":{\"current\":1,\"withdrawn\":0},\"years\":{\"2001\":1}}";

/// The beginning of what is written about it as text.
const TEXT: &str = "\
advisories: 1

collections
  crates                     0
  rust                       0
  no-collection              1  ########################################
";

/// Returns whether the JSON and the text of stats are those of the advisory.
fn are_written(alloc: Global, stats: &Stats) -> Result<bool, Fail> {
    let json = stats_tree(alloc, stats)?.to_string(alloc)?;
    let text = stats_text(alloc, stats)?;
    Ok(text.as_str().starts_with(TEXT) && json.as_str() == JSON)
}

#[test]
fn an_advisory_without_a_collection(rt: HostRuntime) -> Result<(), Fail> {
    let advisories = [Advisory::from_str(rt.alloc(), SHORT)?];
    let stats = stats_of(rt.alloc(), &advisories)?;
    assert!(rt; are_written(rt.alloc(), &stats)?);
    Ok(())
}
