// Texts of programs and of rules, and the orders that are made of them.
ghost use Rattle.std.specs.Prelude.{◌≡◌, IfOk};
ghost use Rattle.order_texts.specs.Texts.{command_given, correct_given, deploy_given, order_of_rules, program_given, rules_given};

use crate::refused::{TextFault, line_refused, place_refused};
use crate::text_order::TextOrder;
use authorise_rules::{GivenRules, RulesRefused, read_given};
use handler_lang::{ProgramRefused, read_program};
use journal_rows::{Command, ProgramText};
use lang_core::{NoMemory, Program, Shared, Text};
use std::alloc::Global;

// A program as it is printed, in a block of its own.
fn printed(alloc: Global, program: &Program) -> Result<Shared<ProgramText>, NoMemory>
    ensures { IfOk result (λ text. text ≡ program.now) }
{
    let text = ProgramText::of(alloc, program)?;
    Shared::new(alloc, text)
}

/// The program that a text of at most 65,536 bytes spells, kept as it is printed; or the byte at which the text spells none.
pub fn program_given(
    alloc: Global,
    text: &Text,
) -> Result<Result<Shared<ProgramText>, u64>, NoMemory>
    ensures { IfOk result (λ given. given ≡ program_given text.now) }
{
    match read_program(alloc, text.as_str()) {
        Ok(program) => Ok(Ok(printed(alloc, &program)?)),
        Err(ProgramRefused::NoMemory) => Err(NoMemory),
        Err(refused) => Ok(Err(place_refused(refused))),
    }
}

// The rules that a text spells, kept as they were given; or the first line that is none.
fn rules_given(alloc: Global, text: &Text) -> Result<Result<Shared<GivenRules>, u64>, NoMemory>
    ensures { IfOk result (λ given. given ≡ rules_given text.now) }
{
    match read_given(alloc, text.as_str()) {
        Ok(rules) => Ok(Ok(Shared::new(alloc, rules)?)),
        Err(RulesRefused::NoMemory) => Err(NoMemory),
        Err(refused) => Ok(Err(line_refused(refused))),
    }
}

fn deploy_given(alloc: Global, text: &Text) -> Result<Result<Command, TextFault>, NoMemory>
    ensures { IfOk result (λ given. given ≡ deploy_given text.now) }
{
    match program_given(alloc, text)? {
        Ok(program) => Ok(Ok(Command::Deploy(program))),
        Err(at) => Ok(Err(TextFault::Program(at))),
    }
}

fn correct_given(
    alloc: Global,
    number: u64,
    text: &Text,
) -> Result<Result<Command, TextFault>, NoMemory>
    ensures { IfOk result (λ given. given ≡ correct_given number text.now) }
{
    match program_given(alloc, text)? {
        Ok(program) => Ok(Ok(Command::Correct(number, program))),
        Err(at) => Ok(Err(TextFault::Program(at))),
    }
}

fn order_of_rules(alloc: Global, text: &Text) -> Result<Result<Command, TextFault>, NoMemory>
    ensures { IfOk result (λ given. given ≡ order_of_rules text.now) }
{
    match rules_given(alloc, text)? {
        Ok(rules) => Ok(Ok(Command::Rules(rules))),
        Err(line) => Ok(Err(TextFault::Rules(line))),
    }
}

/// The order that this text is given for; or where the text is no program, or no rules.
pub fn command_given(
    alloc: Global,
    order: TextOrder,
    text: &Text,
) -> Result<Result<Command, TextFault>, NoMemory>
    ensures { IfOk result (λ given. given ≡ command_given order text.now) }
{
    match order {
        TextOrder::Deploy => deploy_given(alloc, text),
        TextOrder::Correct(number) => correct_given(alloc, number, text),
        TextOrder::Rules => order_of_rules(alloc, text),
    }
}
