//! Worked examples of calls: versions, requirements, small texts, lockfiles, look-ups, fixes and reports, advisories,
//! databases, queries, refusals of OSV documents, and how errors print. A row of a table begins with the name of its example where the
//! examples of a table differ. Expected values come from outside: from the rules in `docs/DEFINITIONS.md`, worked by
//! hand, from the Rust crate, or from the program that a table names.
#![tactic(auto)]

#[cfg(test)]
mod addresses;
#[cfg(test)]
mod advisories;
#[cfg(test)]
mod categories_and_licenses;
#[cfg(test)]
mod cvss;
#[cfg(test)]
mod databases;
#[cfg(test)]
mod errors;
#[cfg(test)]
mod fixes;
#[cfg(test)]
mod intervals;
#[cfg(test)]
mod lockfiles;
#[cfg(test)]
mod lookups;
#[cfg(test)]
mod orders;
#[cfg(test)]
mod osv_refusals;
#[cfg(test)]
mod package_folders;
#[cfg(test)]
mod packages;
#[cfg(test)]
mod queries;
#[cfg(test)]
mod refused;
#[cfg(test)]
mod reports;
#[cfg(test)]
mod rows;
#[cfg(test)]
mod scores;
#[cfg(test)]
mod spans;
#[cfg(test)]
mod stored;
#[cfg(test)]
mod texts;
#[cfg(test)]
mod verdicts;
