// What a step, a read, a write or a call does to a run's state.
ghost use Rattle.std.specs.Prelude.{◌≡◌, Some, None, OnOk, IfOk};
ghost use Rattle.std.specs.Bool.{MatchBool};
ghost use Rattle.std.specs.Option.{option_copied};
ghost use Rattle.lang_values.specs.Values.{value_of};
ghost use Rattle.handler_run.specs.Runs.{begun, set_var, note_read, write_own, answered, note_call, own, key_fits, text_fits};

use crate::state::State;
use lang_core::{
    CallMade, Copied, Expr, LONGEST_TEXT, NoMemory, Read, Response, Text, Value, Write, Writes,
};
use lang_values::{Evaluated, Given, value_of};
use std::alloc::Global;

const MOST_STEPS: u64 = 10000;

const LONGEST_KEY: u64 = 256;

/// Whether a key is of 1 to 256 bytes.
pub fn key_fits(key: &Text) -> bool
    ensures { result ≡ key_fits key.now }
{
    key.len() != 0 && key.len() <= LONGEST_KEY
}

/// Whether a text is of at most 65,536 bytes.
pub fn text_fits(text: &Text) -> bool
    ensures { result ≡ text_fits text.now }
{
    text.len() <= LONGEST_TEXT
}

/// The own write to a key, if there is one: a text, or none.
pub fn own<'a>(writes: &'a Writes, table: &Text, key: &Text) -> Option<&'a Option<Text>>
    ensures { option_copied result ≡ own writes.now table.now key.now }
{
    match writes.find(table, key) {
        None => None,
        Some(write) => Some(&write.text),
    }
}

/// The value of an expression in a state.
pub fn value_in(
    alloc: Global,
    given: &Given,
    state: &State,
    expr: &Expr,
) -> Result<Evaluated, NoMemory>
    ensures { IfOk result (λ outcome. outcome ≡ value_of given.now state.now.vars expr.now) }
{
    value_of(alloc, given, state.vars.as_slice(), expr)
}

impl State {
    /// One step more, where one may begin.
    pub fn begin(&mut self) -> bool
        ensures { MatchBool result (begun self.old ≡ Some self.new) ((begun self.old ≡ None) × (self.new ≡ self.old)) }
    {
        if self.steps < MOST_STEPS {
            self.steps += 1;
            true
        } else {
            false
        }
    }

    /// Gives a variable a value.
    pub fn set_var(&mut self, alloc: Global, name: &Text, value: Value) -> Result<(), NoMemory>
        ensures { OnOk result (self.new ≡ set_var name.now value self.old) }
    {
        self.vars.bind(alloc, name, value)
    }

    /// Records a read.
    pub fn note_read(&mut self, read: Read) -> Result<(), NoMemory>
        ensures { OnOk result (self.new ≡ note_read read self.old) }
    {
        self.reads.push(read)
    }

    /// Makes an own write to a key.
    pub fn write_own(
        &mut self,
        alloc: Global,
        table: &Text,
        key: Text,
        text: Option<Text>,
    ) -> Result<(), NoMemory>
        ensures { OnOk result (self.new ≡ write_own table.now key text self.old) }
    {
        let table = table.copied(alloc)?;
        self.own.set(Write { table, key, text })
    }

    /// Puts an answer's status and body into their variables.
    pub fn answer(
        &mut self,
        alloc: Global,
        status: &Text,
        body: &Text,
        response: &Response,
    ) -> Result<(), NoMemory>
        ensures { OnOk result (self.new ≡ answered status.now body.now response.now self.old) }
    {
        self.set_var(alloc, status, Value::Int(i64::from(response.status)))?;
        self.set_var(alloc, body, Value::Str(response.body.copied(alloc)?))
    }

    /// Notes a call and the answer that it takes.
    pub fn note_call(&mut self, call: CallMade, answer: Response) -> Result<(), NoMemory>
        ensures { OnOk result (self.new ≡ note_call call answer self.old) }
    {
        self.calls.push(call)?;
        self.answers.push(answer)
    }
}
