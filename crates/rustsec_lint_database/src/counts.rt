//! How many files, faults and notes there are.

ghost use Rattle.std.specs.Prelude.{◌≡◌, ◌+◌, ◌≤◌, ◌^◌, ◌∷◌, [], IfOk, OnErr, OnOk, count_by, length, not};
ghost use Rattle.rustsec_lint_database.specs.Counts.{faults, has_earlier, notes};
ghost use Rattle.rustsec_lint_database.specs.Remarks.{is_fault};

use crate::database::Entry;
use crate::remark::Remark;
use std::alloc::AllocError;

/// How many files, faults and notes there are.
#[derive(Clone, Copy, Debug)]
pub struct Counts {
    /// The files.
    pub files: usize,
    /// The faults.
    pub faults: usize,
    /// The remarks that are not faults.
    pub notes: usize,
}

/// Returns the number above a number. Beyond the last one the answer is out of memory.
fn next(number: usize) -> Result<usize, AllocError>
    ensures ok { IfOk result (λ n. n ≡ number + 1) }
    ensures err { OnErr result (2 ^ 64 ≤ number + 1) }
{
    match number.checked_add(1) {
        Some(next) => Ok(next),
        None => Err(AllocError),
    }
}

impl Counts {
    /// Adds a remark.
    fn add_remark(&mut self, upstream: bool, remark: &Remark) -> Result<(), AllocError>
        ensures faults { OnOk result (self.new.faults ≡ self.old.faults + count_by (λ r. is_fault upstream r.kind) (remark.now ∷ [])) }
        ensures notes { OnOk result (self.new.notes ≡ self.old.notes + count_by (λ r. not (is_fault upstream r.kind)) (remark.now ∷ [])) }
        ensures files { self.new.files ≡ self.old.files }
        ensures sum { OnOk result (self.new.faults + self.new.notes ≡ self.old.faults + self.old.notes + 1) }
        ensures err { OnErr result (2 ^ 64 ≤ self.old.faults + self.old.notes + 1) }
    {
        if remark.kind.is_fault(upstream) {
            self.faults = next(self.faults)?;
        } else {
            self.notes = next(self.notes)?;
        }
        Ok(())
    }

    /// Adds some remarks.
    fn add_remarks(&mut self, upstream: bool, remarks: &[Remark]) -> Result<(), AllocError>
        ensures faults { OnOk result (self.new.faults ≡ self.old.faults + count_by (λ r. is_fault upstream r.kind) remarks.now) }
        ensures notes { OnOk result (self.new.notes ≡ self.old.notes + count_by (λ r. not (is_fault upstream r.kind)) remarks.now) }
        ensures files { self.new.files ≡ self.old.files }
        ensures sum { OnOk result (self.new.faults + self.new.notes ≡ self.old.faults + self.old.notes + length remarks.now) }
        ensures err { OnErr result (2 ^ 64 ≤ self.old.faults + self.old.notes + length remarks.now) }
    {
        for remark in remarks {
            self.add_remark(upstream, remark)?;
        }
        Ok(())
    }

    /// Adds the remarks on a file, and that it has the ID of an earlier one.
    #[tactic(auto, using(crate::proofs::CountLaws::all_counted))]
    fn add(&mut self, upstream: bool, entry: &Entry) -> Result<(), AllocError>
        ensures faults { OnOk result (self.new.faults ≡ self.old.faults + faults upstream (entry.now ∷ [])) }
        ensures notes { OnOk result (self.new.notes ≡ self.old.notes + notes upstream (entry.now ∷ [])) }
        ensures files { self.new.files ≡ self.old.files }
        ensures err { OnErr result (2 ^ 64 ≤ self.old.faults + self.old.notes + (faults upstream (entry.now ∷ []) + notes upstream (entry.now ∷ []))) }
    {
        self.add_remarks(upstream, entry.file.remarks.as_slice())?;
        if entry.first.is_some() {
            self.faults = next(self.faults)?;
        }
        Ok(())
    }
}

/// Returns how many files, faults and notes there are. What the Rust crate refuses is a fault only if `upstream` is
/// set.
///
/// # Errors
///
/// Out of memory, only if there are more faults and notes than a number can count.
#[tactic(auto, using(crate::proofs::CountLaws::faults_more, crate::proofs::CountLaws::notes_more, crate::proofs::CountLaws::at_most_all))]
pub fn counts_of(upstream: bool, entries: &[Entry]) -> Result<Counts, AllocError>
    ensures files { IfOk result (λ c. c.files ≡ length entries.now) }
    ensures faults { IfOk result (λ c. c.faults ≡ faults upstream entries.now) }
    ensures notes { IfOk result (λ c. c.notes ≡ notes upstream entries.now) }

    // The call takes no memory: it fails only if a number is too large.
    ensures err { OnErr result (2 ^ 64 ≤ faults upstream entries.now + notes upstream entries.now) }
{
    let mut counts = Counts {
        files: entries.len(),
        faults: 0,
        notes: 0,
    };
    for entry in entries {
        counts.add(upstream, entry)?;
    }
    Ok(counts)
}
