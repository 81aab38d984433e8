// Where rows stand, in order.
ghost use Rattle.std.specs.Ordering.{as_partial_cmp, eq_of_both, on, then_cmp};
ghost use Rattle.std.specs.Cmp.{partial_order_from_own_ties};
ghost use Rattle.std.specs.Cmp.Rules.{comparing};
ghost use Rattle.std.proofs.Common.{rules};
ghost use Rattle.lang_base.specs.Texts.{same_text, text_order};

use lang_core::{Same, Text};
use std::cmp::Ordering;

/// A table and a key.
#[derive(Drop)]
pub struct Spot {
    pub(crate) table: Text,
    pub(crate) key: Text,
}

impl PartialEq for Spot {
    ghost eq = { eq_of_both (on (λ s. s.table) same_text) (on (λ s. s.key) same_text) };

    ghost laws = { Prim.search (comparing, rules) };

    fn eq(&self, other: &Spot) -> bool {
        self.table.is(&other.table) && self.key.is(&other.key)
    }
}

impl Eq for Spot {
    ghost laws = { Prim.search (comparing, rules) };
}

impl PartialOrd for Spot {
    ghost partial_cmp = { as_partial_cmp (then_cmp (on (λ s. s.table) text_order) (on (λ s. s.key) text_order)) };

    ghost laws = { partial_order_from_own_ties (Prim.search (comparing, rules)) (Prim.search (comparing, rules)) };

    fn partial_cmp(&self, other: &Spot) -> Option<Ordering> {
        Some(self.cmp(other))
    }
}

// By table, and then by key.
impl Ord for Spot {
    ghost cmp = { then_cmp (on (λ s. s.table) text_order) (on (λ s. s.key) text_order) };

    ghost total = { Prim.search (comparing, rules) };

    ghost matches_partial_cmp = { Prim.search (comparing, rules) };

    ghost matches_eq = { Prim.search (comparing, rules) };

    fn cmp(&self, other: &Spot) -> Ordering {
        self.table
            .order(&other.table)
            .then(self.key.order(&other.key))
    }
}
