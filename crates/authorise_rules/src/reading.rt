// Texts, read as rules.
ghost use Rattle.std.specs.Prelude.{◌≡◌, ℕ, List, [], Ok, Err, IfOk, IfErr, IsTrue, map};
ghost use Rattle.lang_base.specs.Memory.{Unless};
ghost use Rattle.authorise_rules.specs.Forms.{is_rule, rules_fit};
ghost use Rattle.authorise_rules.specs.Reading.{Answers, all_three, fields_of, is_memory, path_named, put_by, read_of, rule_after, rule_at, senders_named, users_named, with_line, with_lines};
ghost use Rattle.authorise_rules.specs.Refusals.{Refuses};
ghost use Rattle.authorise_rules.specs.Spelled.{Spells, is_passed_over, lines_of, words_of};
ghost use Rattle.authorise_rules.specs.declared.refused.RulesRefused.{RulesRefused};
ghost use Rattle.authorise_rules.specs.declared.rule.Rule.{Rule};

use crate::refused::RulesRefused;
use crate::rule::{Rule, Senders, Users, Verb};
use crate::rules::{MOST_RULES, Rules};
use crate::words::{kinds_named, path_named, senders_named, users_named, verb_named};
use lang_core::{NoMemory, Text};
use std::alloc::{AllocError, Global};

fn lines_of(alloc: Global, text: &str) -> Result<Vec<&str>, AllocError>
    ensures { IfOk result (λ lines. map (λ x. x.now) lines.items ≡ lines_of text.now) }
{
    text.split('\n').collect(alloc)
}

fn words_of(alloc: Global, line: &str) -> Result<Vec<&str>, AllocError>
    ensures { IfOk result (λ words. map (λ x. x.now) words.items ≡ words_of line.now) }
{
    line.split(' ').collect(alloc)
}

fn is_passed_over(line: &str) -> bool
    ensures { result ≡ is_passed_over line.now }
{
    match line.as_bytes() {
        [] => true,
        [first, ..] => *first == b'#',
    }
}

fn all_three(
    from: Option<Senders>,
    who: Option<Users>,
    prefix: Option<Text>,
) -> Option<(Senders, Users, Text)>
    ensures { result ≡ all_three from who prefix }
{
    match (from, who, prefix) {
        (Some(from), Some(who), Some(prefix)) => Some((from, who, prefix)),
        _ => None,
    }
}

fn three_named(
    alloc: Global,
    from: &str,
    who: &str,
    prefix: &str,
) -> Result<Option<(Senders, Users, Text)>, NoMemory>
    ensures { IfOk result (λ fields. fields ≡ all_three (senders_named from.now) (users_named who.now) (path_named prefix.now)) }
{
    let from = senders_named(alloc, from)?;
    let who = users_named(alloc, who)?;
    let prefix = path_named(alloc, prefix)?;
    Ok(all_three(from, who, prefix))
}

// The last three parts of a rule.
fn fields_of(alloc: Global, words: &[&str]) -> Result<Option<(Senders, Users, Text)>, NoMemory>
    ensures { IfOk result (λ fields. fields ≡ fields_of (map (λ x. x.now) words.now)) }
{
    let [from, words @ ..] = words else {
        return Ok(None);
    };
    let [who, words @ ..] = words else {
        return Ok(None);
    };
    let [prefix, words @ ..] = words else {
        return Ok(None);
    };
    match words {
        [] => three_named(alloc, from, who, prefix),
        [_, ..] => Ok(None),
    }
}

fn rule_after(alloc: Global, line: u64, verb: Verb, words: &[&str]) -> Result<Rule, RulesRefused>
    ensures { Answers result (rule_after line verb (map (λ x. x.now) words.now)) }
{
    let [kind, fields @ ..] = words else {
        return Err(RulesRefused::BadField(line));
    };
    let Some(kind) = kinds_named(kind) else {
        return Err(RulesRefused::BadKind(line));
    };
    let Some((from, who, prefix)) = fields_of(alloc, fields)? else {
        return Err(RulesRefused::BadField(line));
    };
    Ok(Rule {
        verb,
        kind,
        from,
        who,
        prefix,
    })
}

fn rule_at(alloc: Global, line: u64, words: &[&str]) -> Result<Rule, RulesRefused>
    ensures { Answers result (rule_at line (map (λ x. x.now) words.now)) }
{
    let [verb, rest @ ..] = words else {
        return Err(RulesRefused::BadVerb(line));
    };
    match verb_named(verb) {
        None => Err(RulesRefused::BadVerb(line)),
        Some(verb) => rule_after(alloc, line, verb, rest),
    }
}

#[tactic(auto, using(crate::proofs::LineLemmas::read_form))]
fn rule_of(alloc: Global, line: u64, text: &str) -> Result<Rule, RulesRefused>
    ensures exact { Answers result (rule_at line (words_of text.now)) }
    ensures form { IfOk result (λ rule. IsTrue (is_rule rule)) }
{
    let words = words_of(alloc, text)?;
    rule_at(alloc, line, &words)
}

/// Puts the rule of a line last, if the line isn't passed over.
fn put_line(alloc: Global, rules: &mut Rules, line: u64, text: &str) -> Result<(), RulesRefused>
    ensures { Answers (put_by result rules.new) (with_line rules.old line text.now) }
{
    if is_passed_over(text) {
        return Ok(());
    }
    let rule = rule_of(alloc, line, text)?;
    if rules.len() >= MOST_RULES {
        return Err(RulesRefused::TooMany(line));
    }
    Ok(rules.push(rule)?)
}

fn rules_of(alloc: Global, lines: &[&str]) -> Result<Rules, RulesRefused>
    ensures { Answers result (with_lines [] 1 (map (λ x. x.now) lines.now)) }
{
    let mut rules = Rules::new(alloc);
    for (i, line) in lines.iter().enumerate() {
        put_line(alloc, &mut rules, i as u64 + 1, line)?;
    }
    Ok(rules)
}

fn read(alloc: Global, text: &str) -> Result<Rules, RulesRefused>
    ensures { Answers result (read_of text.now) }
{
    let lines = lines_of(alloc, text)?;
    rules_of(alloc, &lines)
}

/// The rules that a text spells, a line for each: `VERB KIND FROM WHO PREFIX` with one space between two. Empty lines
/// and lines that begin with `#` are passed over. Another text is refused at its first bad line.
#[tactic(auto, using(crate::proofs::Answered::found_spells, crate::proofs::Answered::only_answer, crate::proofs::Lines::one_spelled, crate::proofs::Answered::first_wrong, crate::proofs::Answered::refused_answer))]
pub fn read_rules(alloc: Global, text: &str) -> Result<Rules, RulesRefused>
    // Which rules they are, or which refusal and where.
    ensures exact { Answers result (read_of text.now) }
    // What is read is spelled so.
    ensures found { IfOk result (λ rules. Spells text.now rules) }
    // What is spelled so is read, unless memory runs out.
    ensures only { (rules : List Rule) → IsTrue (rules_fit rules) → Spells text.now rules → Answers result (Ok rules) }
    // A text spells one list of rules at most.
    ensures one { (p q : List Rule) → IsTrue (rules_fit p) → IsTrue (rules_fit q) → Spells text.now p → Spells text.now q → p ≡ q }
    // A refusal stands at the first line that is wrong, and says what is wrong with it.
    ensures first { IfErr result (λ why. Unless (is_memory why) (Refuses text.now why) (Unit {0})) }
    // A text whose first wrong line is wrong so is refused so, unless memory runs out.
    ensures refused { (why : RulesRefused) → Refuses text.now why → Answers result (Err why) }
{
    read(alloc, text)
}
