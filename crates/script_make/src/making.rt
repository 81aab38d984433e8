// A script that is made of a number.
ghost use Rattle.std.specs.Prelude.{◌≡◌, ◌++◌, ◌%◌, IfOk, OnOk, string_bytes};
ghost use Rattle.script_make.specs.Making.{ask_line, ask_lines, cancel_line, cancel_lines, made_script};

use lang_core::{NoMemory, Text};
use recorded_inputs::{ScriptWords, Words};
use std::alloc::Global;

/// How many keys the requests are about.
const KEYS: u64 = 50;

// The line of the request of this number, of what was drawn for it.
fn push_ask(text: &mut String, number: u64, drawn: u64) -> Result<(), NoMemory>
    ensures { OnOk result (string_bytes text.new ≡ string_bytes text.old ++ ask_line number drawn) }
{
    let key = drawn / 2 % KEYS;
    if drawn % 2 == 1 {
        write!(text, "ask askbot ann POST /post/ann/k1/q{key} b{number}\n")?;
    } else {
        write!(text, "ask askbot ann GET /show/q{key}\n")?;
    }
    Ok(())
}

// The line that cancels the request of this number, where what was drawn for it is divisible by 9.
fn push_cancel(text: &mut String, number: u64, drawn: u64) -> Result<(), NoMemory>
    ensures { OnOk result (string_bytes text.new ≡ string_bytes text.old ++ cancel_line number drawn) }
{
    if drawn % 9 == 0 {
        write!(text, "cancel askbot/{number} t{number} root\n")?;
    }
    Ok(())
}

fn push_asks(text: &mut String, seed: u64, n: u64) -> Result<(), NoMemory>
    ensures { OnOk result (string_bytes text.new ≡ string_bytes text.old ++ ask_lines n 1 (seed % 65537)) }
{
    let mut words = ScriptWords::new();
    words.seed(seed);
    let mut number = 0;
    while number < n {
        number += 1;
        let drawn = words.word();
        push_ask(text, number, drawn)?;
    }
    Ok(())
}

fn push_cancels(text: &mut String, seed: u64, n: u64) -> Result<(), NoMemory>
    ensures { OnOk result (string_bytes text.new ≡ string_bytes text.old ++ cancel_lines n 1 (seed % 65537)) }
{
    let mut words = ScriptWords::new();
    words.seed(seed);
    let mut number = 0;
    while number < n {
        number += 1;
        let drawn = words.word();
        push_cancel(text, number, drawn)?;
    }
    Ok(())
}

/// The script that this seed makes of `n` requests over the services of `@posts`: a token for `ann`, then `n` requests at
/// `askbot`, each a post or a look at one of fifty as the next word has it, which a script with this seed draws; then the
/// cancellation of each whose word is divisible by 9; and `settle 64`.
pub fn make_script(alloc: Global, seed: u64, n: u64) -> Result<Text, NoMemory>
    ensures { IfOk result (λ text. text ≡ made_script seed n) }
{
    let mut text = String::new(alloc);
    text.push_str("ask oauth ann PUT /token/ann k1\n")?;
    push_asks(&mut text, seed, n)?;
    push_cancels(&mut text, seed, n)?;
    text.push_str("settle 64\n")?;
    Text::shared(text)
}
