// Orders in a line.
ghost use Rattle.std.specs.Prelude.{◌≡◌, IfOk};
ghost use Rattle.std.specs.Option.{option_map};
ghost use Rattle.journal_rows.specs.declared.orders.Command.TheVariants.{Cancel as Strike, Fold, Restore};
ghost use Rattle.script_lines.specs.Lines.{create_at, created_of, created_parts, name_part, order_of, order_parts, order_with, replace_at, retry_at, entry_order_at, who_part};

use crate::asking::{read_asked, request_of};
use crate::line::Line;
use crate::parts::{neighbour_part, numbered_part, post_name_part};
use journal_rows::Command;
use lang_core::{Name, NoMemory, Text};
use request_names::{cut_word, name_part, who_part};
use std::alloc::Global;
use world_events::Event;

/// What an order is about, its token and its user, and what stands behind.
#[tactic(auto, unfolding(crate::specs::Lines::order_parts))]
pub fn cut_order(rest: Option<&str>) -> Option<(&str, &str, &str, Option<&str>)>
    ensures { option_map (λ o. (o.0.now, o.1.now, o.2.now, option_map (λ x. x.now) o.3)) result
        ≡ order_parts (option_map (λ x. x.now) rest.entry) }
{
    let (about, rest) = cut_word(rest?);
    let (token, rest) = cut_word(rest?);
    let (who, rest) = cut_word(rest?);
    Some((about, token, who, rest))
}

// A token and a user, each if the word may be one.
fn token_and_user(
    alloc: Global,
    token: &str,
    who: &str,
) -> Result<(Option<Text>, Option<Text>), NoMemory>
    ensures { IfOk result (λ parts. parts ≡ (who_part token.now, who_part who.now)) }
{
    let token = who_part(alloc, token)?;
    let who = who_part(alloc, who)?;
    Ok((token, who))
}

// The order of these, if each is there.
fn order_of(
    service: Option<Name>,
    command: Command,
    token: Option<Text>,
    who: Option<Text>,
) -> Option<Line>
    ensures { result ≡ order_of service command token who }
{
    match (service, token, who) {
        (Some(service), Some(token), Some(who)) => Some(Line::Event(Event::Order {
            service,
            command,
            token,
            who,
        })),
        _ => None,
    }
}

/// A service, a token and a user, each if the word may be one.
pub fn names_of(
    alloc: Global,
    service: &str,
    token: &str,
    who: &str,
) -> Result<(Option<Name>, Option<Text>, Option<Text>), NoMemory>
    ensures { IfOk result (λ parts. parts ≡ (name_part service.now, who_part token.now, who_part who.now)) }
{
    let service = name_part(alloc, service)?;
    let (token, who) = token_and_user(alloc, token, who)?;
    Ok((service, token, who))
}

fn order_with(
    alloc: Global,
    service: &str,
    command: Command,
    token: &str,
    who: &str,
) -> Result<Option<Line>, NoMemory>
    ensures { IfOk result (λ r. r ≡ order_with service.now command token.now who.now) }
{
    let (service, token, who) = names_of(alloc, service, token, who)?;
    Ok(order_of(service, command, token, who))
}

/// `cancel S/N TOKEN WHO`, behind its first word.
#[tactic(auto, unfolding(crate::specs::Lines::entry_order_at))]
pub fn read_cancel(alloc: Global, rest: Option<&str>) -> Result<Option<Line>, NoMemory>
    ensures { IfOk result (λ r. r ≡ entry_order_at Strike (option_map (λ x. x.now) rest.entry)) }
{
    let Some((about, token, who, None)) = cut_order(rest) else {
        return Ok(None);
    };
    let Some((service, id)) = numbered_part(about) else {
        return Ok(None);
    };
    order_with(alloc, service, Command::Cancel(id), token, who)
}

/// `restore S/N TOKEN WHO`, behind its first word.
#[tactic(auto, unfolding(crate::specs::Lines::entry_order_at))]
pub fn read_restore(alloc: Global, rest: Option<&str>) -> Result<Option<Line>, NoMemory>
    ensures { IfOk result (λ r. r ≡ entry_order_at Restore (option_map (λ x. x.now) rest.entry)) }
{
    let Some((about, token, who, None)) = cut_order(rest) else {
        return Ok(None);
    };
    let Some((service, id)) = numbered_part(about) else {
        return Ok(None);
    };
    order_with(alloc, service, Command::Restore(id), token, who)
}

/// `fold S/N TOKEN WHO`, behind its first word.
#[tactic(auto, unfolding(crate::specs::Lines::entry_order_at))]
pub fn read_fold(alloc: Global, rest: Option<&str>) -> Result<Option<Line>, NoMemory>
    ensures { IfOk result (λ r. r ≡ entry_order_at Fold (option_map (λ x. x.now) rest.entry)) }
{
    let Some((about, token, who, None)) = cut_order(rest) else {
        return Ok(None);
    };
    let Some((service, id)) = numbered_part(about) else {
        return Ok(None);
    };
    order_with(alloc, service, Command::Fold(id), token, who)
}

/// `replace S/N TOKEN WHO METHOD PATH BODY`, behind its first word.
#[tactic(auto, unfolding(crate::specs::Lines::replace_at))]
pub fn read_replace(alloc: Global, rest: Option<&str>) -> Result<Option<Line>, NoMemory>
    ensures { IfOk result (λ r. r ≡ replace_at (option_map (λ x. x.now) rest.entry)) }
{
    let Some((about, token, who, rest)) = cut_order(rest) else {
        return Ok(None);
    };
    let Some((service, id)) = numbered_part(about) else {
        return Ok(None);
    };
    let Some((method, path, body)) = read_asked(alloc, rest)? else {
        return Ok(None);
    };
    let command = Command::Replace {
        id,
        method,
        path,
        body,
    };
    order_with(alloc, service, command, token, who)
}

// The neighbours and the user of a created request, and what stands behind.
#[tactic(auto, unfolding(crate::specs::Lines::created_parts))]
fn cut_created(rest: Option<&str>) -> Option<(Option<u64>, Option<u64>, &str, Option<&str>)>
    ensures { option_map (λ c. (c.0, c.1, c.2.now, option_map (λ x. x.now) c.3)) result
        ≡ created_parts (option_map (λ x. x.now) rest.entry) }
{
    let (before, rest) = cut_word(rest?);
    let (after, rest) = cut_word(rest?);
    let (who, rest) = cut_word(rest?);
    let before = neighbour_part(before)?;
    let after = neighbour_part(after)?;
    Some((before, after, who, rest))
}

// `BEFORE AFTER WHO2 METHOD PATH BODY`
#[tactic(auto, unfolding(crate::specs::Lines::created_of))]
fn read_created(alloc: Global, rest: Option<&str>) -> Result<Option<Command>, NoMemory>
    ensures { IfOk result (λ r. r ≡ created_of (option_map (λ x. x.now) rest.entry)) }
{
    let Some((before, after, who, rest)) = cut_created(rest) else {
        return Ok(None);
    };
    let Some(asked) = read_asked(alloc, rest)? else {
        return Ok(None);
    };
    let Some(who) = who_part(alloc, who)? else {
        return Ok(None);
    };
    let request = request_of(alloc, who, asked);
    Ok(Some(Command::Create {
        before,
        after,
        request,
    }))
}

/// `create S TOKEN WHO BEFORE AFTER WHO2 METHOD PATH BODY`, behind its first word.
#[tactic(auto, unfolding(crate::specs::Lines::create_at))]
pub fn read_create(alloc: Global, rest: Option<&str>) -> Result<Option<Line>, NoMemory>
    ensures { IfOk result (λ r. r ≡ create_at (option_map (λ x. x.now) rest.entry)) }
{
    let Some((service, token, who, rest)) = cut_order(rest) else {
        return Ok(None);
    };
    let Some(command) = read_created(alloc, rest)? else {
        return Ok(None);
    };
    order_with(alloc, service, command, token, who)
}

/// `retry S TOKEN WHO NAME`, behind its first word.
#[tactic(auto, unfolding(crate::specs::Lines::retry_at))]
pub fn read_retry(alloc: Global, rest: Option<&str>) -> Result<Option<Line>, NoMemory>
    ensures { IfOk result (λ r. r ≡ retry_at (option_map (λ x. x.now) rest.entry)) }
{
    let Some((service, token, who, Some(rest))) = cut_order(rest) else {
        return Ok(None);
    };
    let (word, None) = cut_word(rest) else {
        return Ok(None);
    };
    let Some(post) = post_name_part(word) else {
        return Ok(None);
    };
    order_with(alloc, service, Command::Retry(post), token, who)
}
