//! The least free version where the locked version is free itself, so that no check has a finding.

use rustsec_check::least_free;
use rustsec_fixtures::{lists, version};
use std::alloc::Global;
use std::test::Fail;

/// Unaffected requirements beside the patched one `>=1.2.3`, and a locked version, which is the answer.
const ROWS: &[(&[&str], &str)] = &[(&[], "1.2.3"), (&[], "2.0.0"), (&["< 1.0.0"], "0.9.0")];

/// Returns whether the locked version is the least free one of the lists, and of others that affect nothing.
fn is_free(alloc: Global, unaffected: &[&str], locked: &str) -> Result<bool, Fail> {
    let first = lists(alloc, &[">= 1.2.3"], unaffected)??;
    let second = lists(alloc, &["*"], &[])??;
    let locked = version(alloc, locked)?;
    match least_free(alloc, &[&first, &second], &locked)? {
        Some(version) => Ok(version == locked),
        None => Ok(false),
    }
}

#[test]
fn least_free_versions(rt: HostRuntime) -> Result<(), Fail> {
    for (unaffected, locked) in ROWS {
        assert!(rt; is_free(rt.alloc(), unaffected, locked)?, "of {locked}");
    }
    Ok(())
}
