// The fields of one service, read from its JSON value.
ghost use Rattle.std.specs.Prelude.{◌≡◌, IfOk, IfErr, Ok, Err};
ghost use Rattle.serde_json.specs.View.{view};
ghost use Rattle.world_file.specs.Fields.{door_in, fields_in, is_between, is_door, is_rules_text, is_secret, is_word_of_rules, keep_in, name_in, number_between, rest_in, rules_in, secret_in, text_in, wanted, weight_in, workers_in};
ghost use Rattle.world_file.specs.Spelled.{seen};

use crate::field::{Field, FieldFault};
use lang_core::{Name, NoMemory, Text, all_visible};
use serde_json::Value;
use std::alloc::Global;

/// How heavy a journal may grow where a world file doesn't say, and the most that it may say.
pub const MOST_WEIGHT: u64 = 1000000000;

/// The least weight that a world file may give.
pub const LEAST_WEIGHT: u64 = 1000;

/// The fewest entries that a world file may have a service keep.
pub const LEAST_KEPT: u64 = 1000;

/// The most entries that it may have a service keep.
pub const MOST_KEPT: u64 = 90000;

/// The most workers of a service.
pub const MOST_WORKERS: u64 = 8;

/// The most bytes of a text of rules.
pub const LONGEST_RULES: u64 = 65536;

/// The most bytes of a secret.
pub const LONGEST_SECRET: u64 = 256;

/// The most bytes of a door's address.
pub const LONGEST_DOOR: u64 = 64;

/// What a service's fields say, with the texts where the file has them.
#[derive(Drop)]
pub struct Spelled<'v> {
    pub name: Name,
    pub program: &'v str,
    pub rules: &'v str,
    pub secret: &'v str,
    pub console: &'v str,
    pub door: &'v str,
    pub workers: u64,
    pub weight: u64,
    pub keep: Option<u64>,
}

// The value of a field that has to be given.
fn wanted<'v>(service: &'v Value, field: Field) -> Result<&'v Value, FieldFault>
    ensures value { IfOk result (λ value. wanted field (view service.now) ≡ Ok (view value.now)) }
    ensures fault { IfErr result (λ fault. wanted field (view service.now) ≡ Err fault) }
{
    match service.get(field.as_str()) {
        Some(value) => Ok(value),
        None => Err(FieldFault::Missing(field)),
    }
}

// A field that is a text.
fn text_in<'v>(service: &'v Value, field: Field) -> Result<&'v str, FieldFault>
    ensures text { IfOk result (λ text. text_in field (view service.now) ≡ Ok text.now) }
    ensures fault { IfErr result (λ fault. text_in field (view service.now) ≡ Err fault) }
{
    match wanted(service, field)?.as_str() {
        Some(text) => Ok(text),
        None => Err(FieldFault::Bad(field)),
    }
}

fn is_between(least: u64, most: u64, n: u64) -> bool
    ensures { result ≡ is_between least most n }
{
    least <= n && n <= most
}

// A number within bounds.
fn number_between(value: &Value, least: u64, most: u64, field: Field) -> Result<u64, FieldFault>
    ensures { result ≡ number_between least most field (view value.now) }
{
    match value.as_u64() {
        Some(n) if is_between(least, most, n) => Ok(n),
        _ => Err(FieldFault::Bad(field)),
    }
}

fn is_word_of_rules(text: &str) -> bool
    ensures { result ≡ is_word_of_rules text.now }
{
    text == "console" || text == "any"
}

fn is_rules_text(text: &str) -> bool
    ensures { result ≡ is_rules_text text.now }
{
    is_between(0, LONGEST_RULES, text.len() as u64)
}

fn is_secret(text: &str) -> bool
    ensures { result ≡ is_secret text.now }
{
    is_between(1, LONGEST_SECRET, text.len() as u64)
}

fn is_door(text: &str) -> bool
    ensures { result ≡ is_door text.now }
{
    is_between(1, LONGEST_DOOR, text.len() as u64) && all_visible(text.as_bytes())
}

fn name_in(alloc: Global, service: &Value) -> Result<Result<Name, FieldFault>, NoMemory>
    ensures { IfOk result (λ name. name ≡ name_in (view service.now)) }
{
    let text = match text_in(service, Field::Name) {
        Ok(text) => text,
        Err(fault) => return Ok(Err(fault)),
    };
    let Ok(name) = Name::new(Text::of(alloc, text)?) else {
        return Ok(Err(FieldFault::Bad(Field::Name)));
    };
    if is_word_of_rules(name.as_str()) {
        return Ok(Err(FieldFault::Bad(Field::Name)));
    }
    Ok(Ok(name))
}

fn rules_in(service: &Value) -> Result<&str, FieldFault>
    ensures rules { IfOk result (λ rules. rules_in (view service.now) ≡ Ok rules.now) }
    ensures fault { IfErr result (λ fault. rules_in (view service.now) ≡ Err fault) }
{
    let rules = text_in(service, Field::Rules)?;
    if is_rules_text(rules) {
        Ok(rules)
    } else {
        Err(FieldFault::Bad(Field::Rules))
    }
}

fn secret_in<'v>(service: &'v Value, field: Field) -> Result<&'v str, FieldFault>
    ensures secret { IfOk result (λ secret. secret_in field (view service.now) ≡ Ok secret.now) }
    ensures fault { IfErr result (λ fault. secret_in field (view service.now) ≡ Err fault) }
{
    let secret = text_in(service, field)?;
    if is_secret(secret) {
        Ok(secret)
    } else {
        Err(FieldFault::Bad(field))
    }
}

fn door_in(service: &Value) -> Result<&str, FieldFault>
    ensures door { IfOk result (λ door. door_in (view service.now) ≡ Ok door.now) }
    ensures fault { IfErr result (λ fault. door_in (view service.now) ≡ Err fault) }
{
    let door = text_in(service, Field::Door)?;
    if is_door(door) {
        Ok(door)
    } else {
        Err(FieldFault::Bad(Field::Door))
    }
}

fn workers_in(service: &Value) -> Result<u64, FieldFault>
    ensures { result ≡ workers_in (view service.now) }
{
    let value = wanted(service, Field::Workers)?;
    number_between(value, 1, MOST_WORKERS, Field::Workers)
}

fn weight_in(service: &Value) -> Result<u64, FieldFault>
    ensures { result ≡ weight_in (view service.now) }
{
    match service.get(Field::Weight.as_str()) {
        Some(value) => number_between(value, LEAST_WEIGHT, MOST_WEIGHT, Field::Weight),
        None => Ok(MOST_WEIGHT),
    }
}

// A service keeps all its entries where the file doesn't say.
fn keep_in(service: &Value) -> Result<Option<u64>, FieldFault>
    ensures { result ≡ keep_in (view service.now) }
{
    match service.get(Field::Keep.as_str()) {
        Some(value) => {
            let keep = number_between(value, LEAST_KEPT, MOST_KEPT, Field::Keep)?;
            Ok(Some(keep))
        }
        None => Ok(None),
    }
}

// The fields behind the name.
#[tactic(auto, unfolding(crate::specs::Fields::rest_in))]
fn rest_in(service: &Value, name: Name) -> Result<Spelled<'_>, FieldFault>
    ensures { seen result ≡ rest_in (view service.now) name }
{
    let program = text_in(service, Field::Program)?;
    Ok(Spelled {
        name,
        program,
        rules: rules_in(service)?,
        secret: secret_in(service, Field::Secret)?,
        console: secret_in(service, Field::Console)?,
        door: door_in(service)?,
        workers: workers_in(service)?,
        weight: weight_in(service)?,
        keep: keep_in(service)?,
    })
}

/// What a service's fields say, or the first of them that is missing or bad.
pub fn fields_in(
    alloc: Global,
    service: &Value,
) -> Result<Result<Spelled<'_>, FieldFault>, NoMemory>
    ensures { IfOk result (λ r. seen r ≡ fields_in (view service.now)) }
{
    match name_in(alloc, service)? {
        Ok(name) => Ok(rest_in(service, name)),
        Err(fault) => Ok(Err(fault)),
    }
}
