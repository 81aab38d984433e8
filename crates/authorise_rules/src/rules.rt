// Lists of rules.
ghost use Rattle.std.specs.Prelude.{◌≡◌, ◌<◌, ◌≤◌, [], ◌∷◌, ◌++◌, IfOk, IsTrue, OnErr, OnOk, length, slice_get};
ghost use Rattle.std.specs.Option.{option_copied};
ghost use Rattle.authorise_rules.specs.Forms.{is_rule, rules_fit};

use crate::rule::Rule;
use lang_core::{Copied, NoMemory, Seq};
use std::alloc::Global;
use std::marker::Model;

/// The most rules of a service.
pub const MOST_RULES: u64 = 256;

/// A service's rules in their order, seen as a list: at most 256, each of whose parts is of its form.
pub struct Rules {
    items: Seq<Rule>,
}

impl Drop for Rules {
    fn drop(self) {
        let Self { items: _ } = self;
    }
}

impl Model for Rules {
    ghost use Rattle.std.specs.Prelude.{List, IsTrue};
    ghost use Rattle.authorise_rules.specs.Forms.{rules_fit};
    ghost use Rattle.authorise_rules.specs.declared.rule.Rule.{Rule};

    ghost Value = { List Rule };

    ghost view = { λ rules. rules.items };

    ghost invariant = { λ rules. IsTrue (rules_fit rules.items) };
}

impl Rules {
    /// No rules, by which every repair is denied.
    pub fn new(alloc: Global) -> Rules
        ensures { result ≡ [] }
    {
        Rules {
            items: Seq::new(alloc),
        }
    }

    /// The rules, in order.
    #[tactic(auto, using(crate::proofs::FormLemmas::fit_few))]
    pub fn as_slice(&self) -> &[Rule]
        ensures rules { result.now ≡ self.now }
        ensures fit { IsTrue (rules_fit self.now) }
        ensures few { length self.now ≤ 256 }
    {
        self.items.as_slice()
    }

    /// How many rules it has.
    pub fn len(&self) -> u64
        ensures { result ≡ length self.now }
    {
        self.items.len()
    }

    /// The rule at a place, counted from 0; None exactly past the end.
    pub fn at(&self, place: u64) -> Option<&Rule>
        ensures { option_copied result ≡ slice_get self.now place }
    {
        self.items.at(place)
    }

    /// Puts one more rule last. Refused, it is dropped and the list stays.
    #[tactic(auto, using(crate::proofs::FormLemmas::fit_more))]
    pub fn push(&mut self, rule: Rule) -> Result<(), NoMemory>
        requires room { length self.old < 256 }
        requires form { IsTrue (is_rule rule) }
        ensures ok { OnOk result (self.new ≡ self.old ++ rule ∷ []) }
        ensures err { OnErr result (self.new ≡ self.old) }
    {
        self.items.push(rule)
    }
}

impl Copied for Rules {
    fn copied(&self, alloc: Global) -> Result<Rules, NoMemory> {
        let items = self.items.copied(alloc)?;
        Ok(Rules { items })
    }
}
