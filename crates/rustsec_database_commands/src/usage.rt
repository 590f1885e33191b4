//! The part of the page on usage that is about the commands of this crate.

/// Each command with its words, what it writes, its statuses and an example.
pub const PAGE: &str = "
  lint-database ROOT [--format text|json] [--upstream] [--progress]
      for all files of the database under the folder ROOT: a line for each lint error, each file that is refused or is
      not where its advisory belongs, and each ID that occurs twice; the error output says why a file is refused
      --format json: the same as one line of JSON
      --upstream: patched requirements that overlap and sources that are not URLs, which the Rust crate refuses, are faults
      too; --progress: a line on the error output after each 1,000 files
      status 0: no fault; 1: some
      example: rustsec_audit lint-database advisory-db --upstream
  stats ROOT [--format text|json]
      how many advisories the database under the folder ROOT has, by collection, year, kind, category, severity and
      withdrawal: tables with bars; --format json: one line of JSON
      status 0
      example: rustsec_audit stats advisory-db
  osv-database ROOT MODIFIED [--skip-withdrawn] [--normalized]
      the OSV document of each advisory of the database under the folder ROOT, a line of JSON each; MODIFIED is the time
      of the last change; the error output says why an advisory has no document
      --skip-withdrawn: without withdrawn advisories; --normalized: without pairs of events at one version
      status 0: each has a document; 1: one has none
      example: rustsec_audit osv-database advisory-db 2026-01-01T00:00:00Z --skip-withdrawn
  query-osv ROOT NAME VERSION
      the OSV documents of the advisories that affect a version of a package, as the service of OSV answers: one line of
      JSON, an object with the list vulns
      status 0
      example: rustsec_audit query-osv advisory-db quillpack 2.1.0
";
