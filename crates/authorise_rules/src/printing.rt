// Rules, printed as texts.
ghost use Rattle.std.specs.Prelude.{◌≡◌, ◌++◌, Ok, IfOk, OnOk, codes, string_bytes};
ghost use Rattle.authorise_rules.specs.Reading.{read_of};
ghost use Rattle.authorise_rules.specs.Spelled.{Spells, rule_line, text_of};

use crate::rule::Rule;
use crate::rules::Rules;
use crate::words::{kinds_word, push_users, senders_word, verb_word};
use lang_core::{NoMemory, Text};
use std::alloc::Global;

fn push_rule(text: &mut String, rule: &Rule) -> Result<(), NoMemory>
    ensures { OnOk result (string_bytes text.new ≡ string_bytes text.old ++ (rule_line rule.now ++ codes "\n")) }
{
    let verb = verb_word(rule.verb);
    let kind = kinds_word(rule.kind);
    let from = senders_word(&rule.from);
    write!(text, "{verb} {kind} {from} ")?;
    push_users(text, &rule.who)?;
    let prefix = rule.prefix.as_str();
    write!(text, " {prefix}\n")?;
    Ok(())
}

fn rules_text(alloc: Global, rules: &[Rule]) -> Result<String, NoMemory>
    ensures { IfOk result (λ text. string_bytes text ≡ text_of rules.now) }
{
    let mut text = String::new(alloc);
    for rule in rules {
        push_rule(&mut text, rule)?;
    }
    Ok(text)
}

/// Rules as a text, a line for each, which reads back to them.
#[tactic(auto, using(crate::proofs::Printed::printed_spells, crate::proofs::Printed::printed_again))]
pub fn print_rules(alloc: Global, rules: &Rules) -> Result<Text, NoMemory>
    ensures text { IfOk result (λ text. text ≡ text_of rules.now) }
    // It spells the rules.
    ensures spells { IfOk result (λ text. Spells text rules.now) }
    // It reads back to the same rules.
    ensures back { IfOk result (λ text. read_of text ≡ Ok rules.now) }
{
    let text = rules_text(alloc, rules.as_slice())?;
    Ok(Text::shared(text)?)
}
