// What a line of a script says.
ghost use Rattle.std.specs.Prelude.{◌≡◌, ℕ, List, IfOk, Some};
ghost use Rattle.std.specs.Option.{option_map};
ghost use Rattle.world_events.specs.declared.event.Event.{Event};
ghost use Rattle.script_lines.specs.Lines.{abandon_at, at_end, clock_at, deliver_at, is_passed_over, line_at, lose_at, number_at, packet_at, post_at, preview_at, preview_of, seed_at, service_at, settle_at, shaped, two_words, words_at};

use crate::asking::{read_ask, read_begin};
use crate::line::{Line, LineFault};
use crate::orders::{read_cancel, read_create, read_fold, read_replace, read_restore, read_retry};
use crate::parts::{flight_part, numbered_part, packet_part};
use crate::texts::{read_correct, read_given, read_rehearse};
use lang_base::both;
use lang_core::{LAST_MOMENT, Name, NoMemory, Text};
use order_texts::TextOrder;
use request_names::{cut_word, name_part, read_number, who_part};
use std::alloc::Global;
use world_events::Event;

// The most rounds that one line may ask for.
const MOST_ROUNDS: u64 = 1000;

// `S` alone
#[tactic(auto, unfolding(crate::specs::Lines::service_at))]
fn read_service(alloc: Global, rest: Option<&str>) -> Result<Option<Name>, NoMemory>
    ensures { IfOk result (λ name. (line : List ℕ → Line) → service_at line (option_map (λ x. x.now) rest.entry)
        ≡ option_map line name) }
{
    let Some(rest) = rest else {
        return Ok(None);
    };
    let (word, rest) = cut_word(rest);
    if rest.is_some() {
        return Ok(None);
    }
    name_part(alloc, word)
}

fn read_step(alloc: Global, rest: Option<&str>) -> Result<Option<Line>, NoMemory>
    ensures { IfOk result (λ r. r ≡ service_at (λ service. Line.Event (Event.Step service)) (option_map (λ x. x.now) rest.entry)) }
{
    let Some(service) = read_service(alloc, rest)? else {
        return Ok(None);
    };
    Ok(Some(Line::Event(Event::Step { service })))
}

fn read_rows(alloc: Global, rest: Option<&str>) -> Result<Option<Line>, NoMemory>
    ensures { IfOk result (λ r. r ≡ service_at Line.Rows (option_map (λ x. x.now) rest.entry)) }
{
    let Some(service) = read_service(alloc, rest)? else {
        return Ok(None);
    };
    Ok(Some(Line::Rows { service }))
}

fn read_log(alloc: Global, rest: Option<&str>) -> Result<Option<Line>, NoMemory>
    ensures { IfOk result (λ r. r ≡ service_at Line.Log (option_map (λ x. x.now) rest.entry)) }
{
    let Some(service) = read_service(alloc, rest)? else {
        return Ok(None);
    };
    Ok(Some(Line::Log { service }))
}

fn read_notices(alloc: Global, rest: Option<&str>) -> Result<Option<Line>, NoMemory>
    ensures { IfOk result (λ r. r ≡ service_at Line.Notices (option_map (λ x. x.now) rest.entry)) }
{
    let Some(service) = read_service(alloc, rest)? else {
        return Ok(None);
    };
    Ok(Some(Line::Notices { service }))
}

fn read_programs(alloc: Global, rest: Option<&str>) -> Result<Option<Line>, NoMemory>
    ensures { IfOk result (λ r. r ≡ service_at Line.Programs (option_map (λ x. x.now) rest.entry)) }
{
    let Some(service) = read_service(alloc, rest)? else {
        return Ok(None);
    };
    Ok(Some(Line::Programs { service }))
}

fn read_changed(alloc: Global, rest: Option<&str>) -> Result<Option<Line>, NoMemory>
    ensures { IfOk result (λ r. r ≡ service_at Line.Changed (option_map (λ x. x.now) rest.entry)) }
{
    let Some(service) = read_service(alloc, rest)? else {
        return Ok(None);
    };
    Ok(Some(Line::Changed { service }))
}

// The line of a word that stands alone.
fn alone(rest: Option<&str>, line: Line) -> Option<Line>
    ensures { result ≡ at_end (option_map (λ x. x.now) rest.entry) (Some line) }
{
    match rest {
        None => Some(line),
        Some(_) => None,
    }
}

// Two words alone.
fn two_words(rest: Option<&str>) -> Option<(&str, &str)>
    ensures { option_map (λ words. (words.0.now, words.1.now)) result ≡ two_words (option_map (λ x. x.now) rest.entry) }
{
    let (first, rest) = cut_word(rest?);
    let (second, rest) = cut_word(rest?);
    if rest.is_some() {
        return None;
    }
    Some((first, second))
}

// `S D` alone
#[tactic(auto, unfolding(crate::specs::Lines::post_at))]
fn read_post(alloc: Global, rest: Option<&str>) -> Result<Option<Line>, NoMemory>
    ensures { IfOk result (λ r. r ≡ post_at (option_map (λ x. x.now) rest.entry)) }
{
    let Some((from, to)) = two_words(rest) else {
        return Ok(None);
    };
    let Some(from) = name_part(alloc, from)? else {
        return Ok(None);
    };
    let Some(to) = name_part(alloc, to)? else {
        return Ok(None);
    };
    Ok(Some(Line::Event(Event::Post { from, to })))
}

// `S fN` alone
#[tactic(auto, unfolding(crate::specs::Lines::abandon_at))]
fn read_abandon(alloc: Global, rest: Option<&str>) -> Result<Option<Line>, NoMemory>
    ensures { IfOk result (λ r. r ≡ abandon_at (option_map (λ x. x.now) rest.entry)) }
{
    let Some((service, flight)) = two_words(rest) else {
        return Ok(None);
    };
    let Some(flight) = flight_part(flight) else {
        return Ok(None);
    };
    let Some(service) = name_part(alloc, service)? else {
        return Ok(None);
    };
    Ok(Some(Line::Event(Event::Abandon { service, flight })))
}

// The preview of a request, if its service and its user are both there.
fn preview_of(service: Option<Name>, id: u64, who: Option<Text>) -> Option<Line>
    ensures { result ≡ preview_of service id who }
{
    match (service, who) {
        (Some(service), Some(who)) => Some(Line::Preview { service, id, who }),
        _ => None,
    }
}

// `S/N WHO` alone
#[tactic(auto, unfolding(crate::specs::Lines::preview_at))]
fn read_preview(alloc: Global, rest: Option<&str>) -> Result<Option<Line>, NoMemory>
    ensures { IfOk result (λ r. r ≡ preview_at (option_map (λ x. x.now) rest.entry)) }
{
    let Some((about, who)) = two_words(rest) else {
        return Ok(None);
    };
    let Some((service, id)) = numbered_part(about) else {
        return Ok(None);
    };
    let (service, who) = both(name_part(alloc, service), who_part(alloc, who))?;
    Ok(preview_of(service, id, who))
}

// `pK` alone
#[tactic(auto, unfolding(crate::specs::Lines::packet_at))]
fn packet_alone(rest: Option<&str>) -> Option<u64>
    ensures { result ≡ packet_at (option_map (λ x. x.now) rest.entry) }
{
    let (word, rest) = cut_word(rest?);
    if rest.is_some() {
        return None;
    }
    packet_part(word)
}

fn read_deliver(rest: Option<&str>) -> Option<Line>
    ensures { result ≡ deliver_at (option_map (λ x. x.now) rest.entry) }
{
    let number = packet_alone(rest)?;
    Some(Line::Event(Event::Deliver(number)))
}

fn read_lose(rest: Option<&str>) -> Option<Line>
    ensures { result ≡ lose_at (option_map (λ x. x.now) rest.entry) }
{
    let number = packet_alone(rest)?;
    Some(Line::Event(Event::Lose(number)))
}

// `N` alone
#[tactic(auto, unfolding(crate::specs::Lines::number_at))]
fn number_alone(rest: Option<&str>) -> Option<u64>
    ensures { result ≡ number_at (option_map (λ x. x.now) rest.entry) }
{
    let (word, rest) = cut_word(rest?);
    if rest.is_some() {
        return None;
    }
    read_number(word)
}

fn read_clock(rest: Option<&str>) -> Option<Line>
    ensures { result ≡ clock_at (option_map (λ x. x.now) rest.entry) }
{
    let moment = number_alone(rest)?;
    if moment > LAST_MOMENT {
        return None;
    }
    Some(Line::Event(Event::Clock(moment)))
}

fn read_seed(rest: Option<&str>) -> Option<Line>
    ensures { result ≡ seed_at (option_map (λ x. x.now) rest.entry) }
{
    let number = number_alone(rest)?;
    Some(Line::Event(Event::Seed(number)))
}

fn read_settle(rest: Option<&str>) -> Option<Line>
    ensures { result ≡ settle_at (option_map (λ x. x.now) rest.entry) }
{
    let rounds = number_alone(rest)?;
    if rounds == 0 || rounds > MOST_ROUNDS {
        return None;
    }
    Some(Line::Settle(rounds))
}

fn shaped(line: Option<Line>) -> Result<Line, LineFault>
    ensures { result ≡ shaped line }
{
    match line {
        Some(line) => Ok(line),
        None => Err(LineFault::Shape),
    }
}

#[tactic(auto, unfolding(crate::specs::Lines::words_at))]
fn read_words(
    alloc: Global,
    word: &str,
    rest: Option<&str>,
) -> Result<Result<Line, LineFault>, NoMemory>
    ensures { IfOk result (λ r. r ≡ words_at word.now (option_map (λ x. x.now) rest.entry)) }
{
    match word {
        "begin" => Ok(shaped(read_begin(alloc, rest)?)),
        "ask" => Ok(shaped(read_ask(alloc, rest)?)),
        "deliver" => Ok(shaped(read_deliver(rest))),
        "lose" => Ok(shaped(read_lose(rest))),
        "step" => Ok(shaped(read_step(alloc, rest)?)),
        "abandon" => Ok(shaped(read_abandon(alloc, rest)?)),
        "post" => Ok(shaped(read_post(alloc, rest)?)),
        "cancel" => Ok(shaped(read_cancel(alloc, rest)?)),
        "restore" => Ok(shaped(read_restore(alloc, rest)?)),
        "replace" => Ok(shaped(read_replace(alloc, rest)?)),
        "create" => Ok(shaped(read_create(alloc, rest)?)),
        "retry" => Ok(shaped(read_retry(alloc, rest)?)),
        "fold" => Ok(shaped(read_fold(alloc, rest)?)),
        "deploy" => Ok(shaped(read_given(alloc, TextOrder::Deploy, rest)?)),
        "correct" => Ok(shaped(read_correct(alloc, rest)?)),
        "rules" => Ok(shaped(read_given(alloc, TextOrder::Rules, rest)?)),
        "clock" => Ok(shaped(read_clock(rest))),
        "seed" => Ok(shaped(read_seed(rest))),
        "settle" => Ok(shaped(read_settle(rest))),
        "rows" => Ok(shaped(read_rows(alloc, rest)?)),
        "log" => Ok(shaped(read_log(alloc, rest)?)),
        "notices" => Ok(shaped(read_notices(alloc, rest)?)),
        "programs" => Ok(shaped(read_programs(alloc, rest)?)),
        "changed" => Ok(shaped(read_changed(alloc, rest)?)),
        "preview" => Ok(shaped(read_preview(alloc, rest)?)),
        "rehearse" => Ok(shaped(read_rehearse(alloc, rest)?)),
        "dump" => Ok(shaped(alone(rest, Line::Dump))),
        "audit" => Ok(shaped(alone(rest, Line::Audit))),
        _ => Ok(Err(LineFault::Word)),
    }
}

fn is_passed_over(line: &[u8]) -> bool
    ensures { result ≡ is_passed_over line.now }
{
    match line {
        [] => true,
        [first, ..] => *first == b'#',
    }
}

/// What a line says, without its line feed. An empty line and a comment are passed over; of any other the text is
/// tested first, then the first word, then the shape.
pub fn read_line(alloc: Global, line: &[u8]) -> Result<Result<Line, LineFault>, NoMemory>
    ensures { IfOk result (λ r. r ≡ line_at line.now) }
{
    if is_passed_over(line) {
        return Ok(Ok(Line::Blank));
    }
    let Ok(text) = str::from_utf8(line) else {
        return Ok(Err(LineFault::Text));
    };
    let (word, rest) = cut_word(text);
    read_words(alloc, word, rest)
}
