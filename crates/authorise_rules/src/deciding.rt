// What rules decide of a repair.
ghost use Rattle.std.specs.Prelude.{◌≡◌, ◌≤◌, length};
ghost use Rattle.std.specs.Option.{option_copied};
ghost use Rattle.authorise_rules.specs.Deciding.{Decides, decision, kind_holds, matches, paths_begin, question, same_kind, sender_holds, user_holds, verdict};

use crate::asked::{Asked, Decision};
use crate::rule::{Kinds, Rule, Senders, Users, Verb};
use crate::rules::Rules;
use lang_core::{Name, Same, Text};
use repair_messages::Kind;

fn same_kind(left: Kind, right: Kind) -> bool
    ensures { result ≡ same_kind left right }
{
    match (left, right) {
        (Kind::Create, Kind::Create) => true,
        (Kind::Replace, Kind::Replace) => true,
        (Kind::Delete, Kind::Delete) => true,
        (Kind::ReplaceResponse, Kind::ReplaceResponse) => true,
        (Kind::Retry, Kind::Retry) => true,
        (Kind::Fold, Kind::Fold) => true,
        (Kind::Deploy, Kind::Deploy) => true,
        (Kind::Correct, Kind::Correct) => true,
        (Kind::Rules, Kind::Rules) => true,
        _ => false,
    }
}

fn kind_holds(kinds: Kinds, kind: Kind) -> bool
    ensures { result ≡ kind_holds kinds kind }
{
    match kinds {
        Kinds::Any => true,
        Kinds::Only(only) => same_kind(only, kind),
    }
}

fn sender_holds(senders: &Senders, from: Option<&Name>) -> bool
    ensures { result ≡ sender_holds senders.now (option_copied from.entry) }
{
    match senders {
        Senders::Any => true,
        Senders::Console => from.is_none(),
        Senders::Only(service) => match from {
            None => false,
            Some(from) => service.text().is(from.text()),
        },
    }
}

fn user_holds(users: &Users, who: &Text, original: Option<&Text>) -> bool
    ensures { result ≡ user_holds users.now who.now (option_copied original.entry) }
{
    match users {
        Users::Any => true,
        Users::Same => match original {
            None => false,
            Some(original) => who.is(original),
        },
        Users::Only(user) => who.is(user),
    }
}

/// Whether the paths begin as a rule of this verb wants: each, or at least one.
fn paths_begin(verb: Verb, prefix: &Text, old: Option<&Text>, new: Option<&Text>) -> bool
    ensures { result ≡ paths_begin verb prefix.now (option_copied old.entry) (option_copied new.entry) }
{
    match (old, new) {
        (None, None) => b"/".starts_with(prefix.as_bytes()),
        (Some(path), None) => path.begins_with(prefix),
        (None, Some(path)) => path.begins_with(prefix),
        (Some(old), Some(new)) => match verb {
            Verb::Allow => old.begins_with(prefix) && new.begins_with(prefix),
            Verb::Deny => old.begins_with(prefix) || new.begins_with(prefix),
        },
    }
}

fn matches(rule: &Rule, asked: &Asked) -> bool
    ensures { result ≡ matches rule.now (question asked.now) }
{
    kind_holds(rule.kind, asked.kind)
        && sender_holds(&rule.from, asked.from)
        && user_holds(&rule.who, asked.who, asked.original)
        && paths_begin(rule.verb, &rule.prefix, asked.old_path, asked.new_path)
}

fn verdict(verb: Verb, number: u32) -> Decision
    ensures { result ≡ verdict verb number }
{
    match verb {
        Verb::Allow => Decision::Allow(number),
        Verb::Deny => Decision::Deny(number),
    }
}

fn decision_in(rules: &[Rule], asked: &Asked) -> Decision
    requires { length rules.now ≤ 256 }
    ensures { result ≡ decision rules.now (question asked.now) }
{
    for (i, rule) in rules.iter().enumerate() {
        if matches(rule, asked) {
            return verdict(rule.verb, i as u32 + 1);
        }
    }
    Decision::Deny(0)
}

/// What the rules decide of a repair: the first rule that matches decides, and where none matches it is denied.
#[tactic(auto, using(crate::proofs::FirstMatch::first_decides))]
pub fn decide(rules: &Rules, asked: &Asked) -> Decision
    ensures exact { result ≡ decision rules.now (question asked.now) }
    // It is the verdict of the first rule that matches, with that rule's number, or Deny 0 where none does.
    ensures first { Decides rules.now (question asked.now) result }
{
    decision_in(rules.as_slice(), asked)
}
