//! Worked examples of calls: audits of texts, reports, readers and writers of commands, folders that fail, graphs,
//! policies, indexes, listings, OSV documents with their evaluation and schema, explanations, stats, and pieces of written
//! forms. Expected values are worked by hand or come from a public standard.
#![tactic(auto)]

#[cfg(test)]
mod ample_memory;
#[cfg(test)]
mod audits;
#[cfg(test)]
mod command_paths;
#[cfg(test)]
mod explanations;
#[cfg(test)]
mod fake_files;
#[cfg(test)]
mod folders_that_fail;
#[cfg(test)]
mod form_texts;
#[cfg(test)]
mod graph;
#[cfg(test)]
mod index;
#[cfg(test)]
mod least_free;
#[cfg(test)]
mod links;
#[cfg(test)]
mod lint_calls;
#[cfg(test)]
mod listings;
#[cfg(test)]
mod osv_documents;
#[cfg(test)]
mod osv_evaluation;
#[cfg(test)]
mod osv_reading;
#[cfg(test)]
mod osv_schema;
#[cfg(test)]
mod policy;
#[cfg(test)]
mod readers_and_writers;
#[cfg(test)]
mod readings;
#[cfg(test)]
mod report_calls;
#[cfg(test)]
mod stats;
