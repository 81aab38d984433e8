// Lines that come with a text, which isn't read yet.
ghost use Rattle.std.specs.Prelude.{◌≡◌, IfOk};
ghost use Rattle.std.specs.Option.{option_map};
ghost use Rattle.script_lines.specs.Lines.{correct_at, given_at, given_of, given_with, rehearsal_of, rehearsal_with, rehearse_at};

use crate::line::Line;
use crate::orders::{cut_order, names_of};
use crate::parts::body_part;
use lang_base::both;
use lang_core::{Name, NoMemory, Text};
use order_texts::TextOrder;
use request_names::{cut_word, name_part, read_number, who_part};
use std::alloc::Global;

// The order of these, if each is there.
fn given_of(
    service: Option<Name>,
    order: TextOrder,
    token: Option<Text>,
    who: Option<Text>,
    text: Text,
) -> Option<Line>
    ensures { result ≡ given_of service order token who text }
{
    match (service, token, who) {
        (Some(service), Some(token), Some(who)) => Some(Line::Given {
            service,
            order,
            token,
            who,
            text,
        }),
        _ => None,
    }
}

fn given_with(
    alloc: Global,
    service: &str,
    order: TextOrder,
    token: &str,
    who: &str,
    text: Text,
) -> Result<Option<Line>, NoMemory>
    ensures { IfOk result (λ r. r ≡ given_with service.now order token.now who.now text) }
{
    let (service, token, who) = names_of(alloc, service, token, who)?;
    Ok(given_of(service, order, token, who, text))
}

/// `deploy S TOKEN WHO TEXT` and `rules S TOKEN WHO TEXT`, behind their first word.
#[tactic(auto, unfolding(crate::specs::Lines::given_at))]
pub fn read_given(
    alloc: Global,
    order: TextOrder,
    rest: Option<&str>,
) -> Result<Option<Line>, NoMemory>
    ensures { IfOk result (λ r. r ≡ given_at order (option_map (λ x. x.now) rest.entry)) }
{
    let Some((service, token, who, rest)) = cut_order(rest) else {
        return Ok(None);
    };
    let Some(text) = body_part(alloc, rest)? else {
        return Ok(None);
    };
    given_with(alloc, service, order, token, who, text)
}

/// `correct S K TOKEN WHO TEXT`, behind its first word.
#[tactic(auto, unfolding(crate::specs::Lines::correct_at))]
pub fn read_correct(alloc: Global, rest: Option<&str>) -> Result<Option<Line>, NoMemory>
    ensures { IfOk result (λ r. r ≡ correct_at (option_map (λ x. x.now) rest.entry)) }
{
    let Some(rest) = rest else {
        return Ok(None);
    };
    let (service, rest) = cut_word(rest);
    let Some((digits, token, who, rest)) = cut_order(rest) else {
        return Ok(None);
    };
    let Some(number) = read_number(digits) else {
        return Ok(None);
    };
    let Some(text) = body_part(alloc, rest)? else {
        return Ok(None);
    };
    given_with(alloc, service, TextOrder::Correct(number), token, who, text)
}

// The rehearsal of these, if each is there.
fn rehearsal_of(service: Option<Name>, number: u64, who: Option<Text>, text: Text) -> Option<Line>
    ensures { result ≡ rehearsal_of service number who text }
{
    match (service, who) {
        (Some(service), Some(who)) => Some(Line::Rehearse {
            service,
            number,
            who,
            text,
        }),
        _ => None,
    }
}

fn rehearsal_with(
    alloc: Global,
    service: &str,
    number: u64,
    who: &str,
    text: Text,
) -> Result<Option<Line>, NoMemory>
    ensures { IfOk result (λ r. r ≡ rehearsal_with service.now number who.now text) }
{
    let (service, who) = both(name_part(alloc, service), who_part(alloc, who))?;
    Ok(rehearsal_of(service, number, who, text))
}

/// `rehearse S K WHO TEXT`, behind its first word. Its first three words are cut as those of an order.
#[tactic(auto, unfolding(crate::specs::Lines::rehearse_at))]
pub fn read_rehearse(alloc: Global, rest: Option<&str>) -> Result<Option<Line>, NoMemory>
    ensures { IfOk result (λ r. r ≡ rehearse_at (option_map (λ x. x.now) rest.entry)) }
{
    let Some((service, digits, who, rest)) = cut_order(rest) else {
        return Ok(None);
    };
    let Some(number) = read_number(digits) else {
        return Ok(None);
    };
    let Some(text) = body_part(alloc, rest)? else {
        return Ok(None);
    };
    rehearsal_with(alloc, service, number, who, text)
}
