// What an expression gives.
ghost use Rattle.std.specs.Prelude.{◌≡◌, ◌+ℤ◌, ◌-ℤ◌, ◌*ℤ◌, ◌++◌, ◌-◌, ◌⊎◌, slice_get, map, Ok, Err, IfOk, IfErr, IsOkAnd};
ghost use Rattle.lang_core.specs.declared.value.Value.TheVariants.{Str};
ghost use Rattle.lang_values.specs.Values.{and_then, same_value, truth, exact, within_limit, less, join, apply, text_or_nothing, int_or_nothing, piece_at, part, number, as_text, var, value_of};

use crate::given::{Binding, Fault, Given};
use crate::numbers::{signed_number, signed_text};
use crate::parts::piece;
use lang_base::both;
use lang_core::{Copied, Expr, LONGEST_TEXT, NoMemory, Op, Same, Text, Value};
use std::alloc::Global;

/// A value, or the fault of an expression. Want of memory stands outside of it.
pub type Evaluated = Result<Value, Fault>;

fn same_value(left: &Value, right: &Value) -> bool
    ensures { result ≡ same_value left.now right.now }
{
    match (left, right) {
        (Value::Int(a), Value::Int(b)) => *a == *b,
        (Value::Str(a), Value::Str(b)) => a.is(b),
        (Value::Nothing, Value::Nothing) => true,
        _ => false,
    }
}

fn truth(holds: bool) -> Value
    ensures { result ≡ truth holds }
{
    Value::Int(i64::from(holds))
}

fn add(left: i64, right: i64) -> Evaluated
    ensures { result ≡ exact (left +ℤ right) }
{
    match left.checked_add(right) {
        None => Err(Fault::Range),
        Some(n) => Ok(Value::Int(n)),
    }
}

fn subtract(left: i64, right: i64) -> Evaluated
    ensures { result ≡ exact (left -ℤ right) }
{
    match left.checked_sub(right) {
        None => Err(Fault::Range),
        Some(n) => Ok(Value::Int(n)),
    }
}

fn multiply(left: i64, right: i64) -> Evaluated
    ensures { result ≡ exact (left *ℤ right) }
{
    match left.checked_mul(right) {
        None => Err(Fault::Range),
        Some(n) => Ok(Value::Int(n)),
    }
}

fn less(left: &Value, right: &Value) -> Evaluated
    ensures { result ≡ less left.now right.now }
{
    match (left, right) {
        (Value::Int(a), Value::Int(b)) => Ok(truth(*a < *b)),
        (Value::Str(a), Value::Str(b)) => Ok(truth(a.order(b).is_lt())),
        _ => Err(Fault::Kind),
    }
}

// Two texts, one after the other, where that is no longer than a text may be.
fn joined(alloc: Global, left: &Text, right: &Text) -> Result<Evaluated, NoMemory>
    ensures { IfOk result (λ outcome. outcome ≡ within_limit (left.now ++ right.now)) }
{
    if left.len() > LONGEST_TEXT || right.len() > LONGEST_TEXT - left.len() {
        return Ok(Err(Fault::Limit));
    }
    let mut text = String::from_str(alloc, left.as_str())?;
    text.push_str(right.as_str())?;
    Ok(Ok(Value::Str(Text::shared(text)?)))
}

fn join(alloc: Global, left: &Value, right: &Value) -> Result<Evaluated, NoMemory>
    ensures { IfOk result (λ outcome. outcome ≡ join left.now right.now) }
{
    match (left, right) {
        (Value::Str(a), Value::Str(b)) => joined(alloc, a, b),
        _ => Ok(Err(Fault::Kind)),
    }
}

fn apply(alloc: Global, op: Op, left: &Value, right: &Value) -> Result<Evaluated, NoMemory>
    ensures { IfOk result (λ outcome. outcome ≡ apply op left.now right.now) }
{
    match op {
        Op::Add => match (left, right) {
            (Value::Int(a), Value::Int(b)) => Ok(add(*a, *b)),
            _ => Ok(Err(Fault::Kind)),
        },
        Op::Sub => match (left, right) {
            (Value::Int(a), Value::Int(b)) => Ok(subtract(*a, *b)),
            _ => Ok(Err(Fault::Kind)),
        },
        Op::Mul => match (left, right) {
            (Value::Int(a), Value::Int(b)) => Ok(multiply(*a, *b)),
            _ => Ok(Err(Fault::Kind)),
        },
        Op::Equal => Ok(Ok(truth(same_value(left, right)))),
        Op::Less => Ok(less(left, right)),
        Op::Join => join(alloc, left, right),
    }
}

/// A text, or nothing where there is none.
pub fn text_or_nothing(alloc: Global, text: &Option<Text>) -> Result<Value, NoMemory>
    ensures { IfOk result (λ value. value ≡ text_or_nothing text.now) }
{
    match text {
        None => Ok(Value::Nothing),
        Some(text) => Ok(Value::Str(text.copied(alloc)?)),
    }
}

fn int_or_nothing(number: Option<i64>) -> Value
    ensures { result ≡ int_or_nothing number }
{
    match number {
        None => Value::Nothing,
        Some(n) => Value::Int(n),
    }
}

fn piece_at(alloc: Global, n: i64, by: &Text, text: &Text) -> Result<Value, NoMemory>
    ensures { IfOk result (λ value. value ≡ piece_at n by.now text.now) }
{
    if n < 0 {
        return Ok(Value::Nothing);
    }
    match piece(alloc, text, by, n as u64)? {
        None => Ok(Value::Nothing),
        Some(text) => Ok(Value::Str(text)),
    }
}

fn part(alloc: Global, text: &Value, by: &Value, n: &Value) -> Result<Evaluated, NoMemory>
    ensures { IfOk result (λ outcome. outcome ≡ part text.now by.now n.now) }
{
    match (text, by, n) {
        (Value::Str(text), Value::Str(by), Value::Int(n)) => {
            if by.len() == 0 {
                return Ok(Err(Fault::Kind));
            }
            Ok(Ok(piece_at(alloc, *n, by, text)?))
        }
        _ => Ok(Err(Fault::Kind)),
    }
}

fn number(value: &Value) -> Value
    ensures { result ≡ number value.now }
{
    match value {
        Value::Int(n) => Value::Int(*n),
        Value::Str(text) => int_or_nothing(signed_number(text.as_bytes())),
        Value::Nothing => Value::Nothing,
    }
}

fn as_text(alloc: Global, value: &Value) -> Result<Value, NoMemory>
    ensures { IfOk result (λ text. text ≡ as_text value.now) }
{
    match value {
        Value::Int(n) => Ok(Value::Str(signed_text(alloc, *n)?)),
        Value::Str(text) => Ok(Value::Str(text.copied(alloc)?)),
        Value::Nothing => Ok(Value::Str(Text::of(alloc, "")?)),
    }
}

fn var(alloc: Global, vars: &[Binding], name: &Text) -> Result<Value, NoMemory>
    ensures { IfOk result (λ value. value ≡ var vars.now name.now) }
{
    for binding in vars {
        if binding.name.is(name) {
            return binding.value.copied(alloc);
        }
    }
    Ok(Value::Nothing)
}

#[tactic(auto, using(crate::proofs::PathLemmas::segment_missing, crate::proofs::PathLemmas::segment_there))]
fn segment(alloc: Global, segments: &[&str], n: u64) -> Result<Value, NoMemory>
    ensures { IfOk result (λ value. value ≡ text_or_nothing (slice_get (map (λ x. x.now) segments.now) (n - 1))) }
{
    match segments.get(n.saturating_sub(1) as usize) {
        None => Ok(Value::Nothing),
        Some(text) => Ok(Value::Str(Text::of(alloc, text)?)),
    }
}

fn text_value(alloc: Global, text: &Text) -> Result<Value, NoMemory>
    ensures { IfOk result (λ value. value ≡ Str text.now) }
{
    Ok(Value::Str(text.copied(alloc)?))
}

// A value that is no fault.
fn fine(value: Result<Value, NoMemory>) -> Result<Evaluated, NoMemory>
    ensures { IfOk result (λ outcome. IsOkAnd value (λ v. outcome ≡ Ok v)) }
{
    Ok(Ok(value?))
}

// What `number` gives of an operand that was evaluated.
fn number_of(operand: Result<Evaluated, NoMemory>) -> Result<Evaluated, NoMemory>
    ensures { IfOk result (λ outcome. IsOkAnd operand (λ o. outcome ≡ and_then o (λ v. Ok (number v)))) }
{
    match operand? {
        Ok(value) => Ok(Ok(number(&value))),
        Err(fault) => Ok(Err(fault)),
    }
}

// What `text` gives of an operand that was evaluated.
fn as_text_of(alloc: Global, operand: Result<Evaluated, NoMemory>) -> Result<Evaluated, NoMemory>
    ensures { IfOk result (λ outcome. IsOkAnd operand (λ o. outcome ≡ and_then o (λ v. Ok (as_text v)))) }
{
    match operand? {
        Ok(value) => fine(as_text(alloc, &value)),
        Err(fault) => Ok(Err(fault)),
    }
}

/// Both, or the fault of the first that has one.
pub fn pair_up<A: Drop>(first: Result<A, Fault>, second: Evaluated) -> Result<(A, Value), Fault>
    ensures ok { IfOk result (λ pair. (first ≡ Ok pair.0) × (second ≡ Ok pair.1)) }
    ensures err { IfErr result (λ fault. (first ≡ Err fault) ⊎ IsOkAnd first (λ _. second ≡ Err fault)) }
{
    match first {
        Ok(left) => match second {
            Ok(right) => Ok((left, right)),
            Err(fault) => Err(fault),
        },
        Err(fault) => Err(fault),
    }
}

// What an operator gives of operands that were evaluated.
fn applied(
    alloc: Global,
    op: Op,
    operands: Result<(Evaluated, Evaluated), NoMemory>,
) -> Result<Evaluated, NoMemory>
    ensures { IfOk result (λ outcome. IsOkAnd operands (λ o. outcome ≡ and_then o.0 (λ a. and_then o.1 (λ b. apply op a b)))) }
{
    let (left, right) = operands?;
    match pair_up(left, right) {
        Ok(pair) => apply(alloc, op, &pair.0, &pair.1),
        Err(fault) => Ok(Err(fault)),
    }
}

// What `part` gives of operands that were evaluated.
fn part_of(
    alloc: Global,
    operands: Result<((Evaluated, Evaluated), Evaluated), NoMemory>,
) -> Result<Evaluated, NoMemory>
    ensures { IfOk result (λ outcome. IsOkAnd operands (λ o.
        outcome ≡ and_then o.0.0 (λ text. and_then o.0.1 (λ by. and_then o.1 (λ n. part text by n))))) }
{
    let (texts, n) = operands?;
    match pair_up(pair_up(texts.0, texts.1), n) {
        Ok((texts, n)) => part(alloc, &texts.0, &texts.1, &n),
        Err(fault) => Ok(Err(fault)),
    }
}

/// The value of an expression, or the fault of the first of its parts, from left to right, that has one.
pub fn value_of(
    alloc: Global,
    given: &Given,
    vars: &[Binding],
    expr: &Expr,
) -> Result<Evaluated, NoMemory>
    ensures { IfOk result (λ outcome. outcome ≡ value_of given.now vars.now expr.now) }
{
    match expr {
        Expr::Integer(n) => Ok(Ok(Value::Int(*n))),
        Expr::Str(text) => fine(text_value(alloc, text)),
        Expr::Nothing => Ok(Ok(Value::Nothing)),
        Expr::Body => fine(text_value(alloc, &given.request().body)),
        Expr::Who => fine(text_value(alloc, &given.request().who)),
        Expr::Var(name) => fine(var(alloc, vars, name)),
        Expr::Path(n) => fine(segment(alloc, given.segments(), *n)),
        Expr::Part { text, by, n } => {
            let text = value_of(alloc, given, vars, text.get());
            let by = value_of(alloc, given, vars, by.get());
            let n = value_of(alloc, given, vars, n.get());
            part_of(alloc, both(both(text, by), n))
        }
        Expr::Number(e) => number_of(value_of(alloc, given, vars, e.get())),
        Expr::AsText(e) => as_text_of(alloc, value_of(alloc, given, vars, e.get())),
        Expr::Pair { left, op, right } => {
            let left = value_of(alloc, given, vars, left.get());
            let right = value_of(alloc, given, vars, right.get());
            applied(alloc, *op, both(left, right))
        }
    }
}
