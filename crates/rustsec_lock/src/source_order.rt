//! Compares sources by their texts.

ghost use Rattle.std.specs.Prelude.{Some, refl};
ghost use Rattle.std.specs.Cmp.{partial_equiv_from_equiv, po};
ghost use Rattle.rustsec_lock.specs.SourceOrder.{source_cmp, source_decides, source_eq, source_equiv, source_ties, source_total};

use crate::source::SourceId;
use rustsec_values::ExactEq;
use std::cmp::Ordering;

impl PartialEq for SourceId {
    ghost eq = { source_eq };

    ghost laws = { partial_equiv_from_equiv source_equiv };

    fn eq(&self, other: &SourceId) -> bool {
        self.kind == other.kind && self.address == other.address
    }
}

impl Eq for SourceId {
    ghost laws = { source_equiv };
}

impl ExactEq for SourceId {
    ghost decides = { source_decides };
}

impl PartialOrd for SourceId {
    ghost partial_cmp = { λ a b. Some (source_cmp a b) };

    ghost laws = { po source_total source_ties };

    fn partial_cmp(&self, other: &SourceId) -> Option<Ordering> {
        Some(self.cmp(other))
    }
}

impl Ord for SourceId {
    ghost cmp = { source_cmp };

    ghost total = { source_total };

    ghost matches_partial_cmp = { λ a b. refl };

    ghost matches_eq = { source_ties };

    fn cmp(&self, other: &SourceId) -> Ordering {
        self.kind
            .word()
            .cmp(other.kind.word())
            .then(self.address.cmp(&other.address))
    }
}
