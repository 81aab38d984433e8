// Orders tried one behind another.
ghost use Rattle.std.specs.Prelude.{◌≡◌, IfOk, is_none};
ghost use Rattle.journal_rows.specs.Words.{ordered};
ghost use Rattle.lang_base.specs.Memory.{Unless, lacks};
ghost use Rattle.service_events.specs.Doing.{Does, order_memory};
ghost use Rattle.service_events.specs.Orders.{order_event};
ghost use Rattle.preview_core.specs.Previews.{preview_memory};
ghost use Rattle.preview_core.specs.Trials.{IsNextFree, TriesAll, TriesAt, command_of, no_inputs, refused_at, token};

use crate::refused::PreviewRefused;
use crate::trial::{Trial, command_of};
use journal_rows::Rows;
use lang_base::both;
use lang_core::{Copied, Inputs, NoMemory, Text};
use service_core::Service;
use service_events::{OrderRefused, Ordered};
use std::alloc::Global;

fn token(alloc: Global, number: u64) -> Result<Text, NoMemory>
    ensures { IfOk result (λ text. text ≡ token number) }
{
    let mut text = String::new(alloc);
    write!(text, "p{number}")?;
    Text::shared(text)
}

// Whether no order of the journal has this token.
fn is_free(journal: &Rows, token: &Text) -> bool
    ensures { result ≡ is_none (ordered token.now journal.now.rows) }
{
    match journal.ordered(token) {
        None => true,
        Some(_) => false,
    }
}

// The first number behind this one whose token no order of the journal had, and that token. One of 64 bits is always found,
// since a journal has fewer rows.
fn next_token(alloc: Global, journal: &Rows, last: u64) -> Result<(u64, Text), NoMemory>
    ensures free { IfOk result (λ found. IsNextFree journal.now.rows last found.0) }
    ensures token { IfOk result (λ found. found.1 ≡ token found.0) }
{
    let mut number = last;
    while number < u64::MAX {
        number += 1;
        let token = token(alloc, number)?;
        if is_free(journal, &token) {
            return Ok((number, token));
        }
    }
    Err(NoMemory)
}

// None of these orders makes a request, so none looks at what one would draw.
fn no_inputs() -> Inputs
    ensures { result ≡ no_inputs }
{
    Inputs {
        moment: 0,
        w1: 0,
        w2: 0,
        w3: 0,
        w4: 0,
        w5: 0,
        w6: 0,
        w7: 0,
        w8: 0,
    }
}

// The trial as an order under this token.
fn order_as(
    alloc: Global,
    copy: &mut Service,
    token: Text,
    trial: &Trial,
    who: &Text,
) -> Result<Ordered, OrderRefused>
    ensures { Does order_memory (order_event copy.old (command_of trial.now) token who.now no_inputs) copy.old result copy.new }
{
    let (command, who) = both(command_of(alloc, trial), who.copied(alloc))?;
    copy.order(alloc, command, token, who, no_inputs())
}

// A trial that is refused, by its place.
fn refused_at(at: u64, why: OrderRefused) -> PreviewRefused
    ensures { result ≡ refused_at at why }
{
    match why {
        OrderRefused::NoMemory => PreviewRefused::NoMemory,
        refused => PreviewRefused::Order { at, refused },
    }
}

// The trial of this place, under the next free token; the number of that.
fn try_at(
    alloc: Global,
    copy: &mut Service,
    journal: &Rows,
    at: u64,
    last: u64,
    trial: &Trial,
    who: &Text,
) -> Result<u64, PreviewRefused>
    ensures { Unless (lacks preview_memory result) (TriesAt journal.now.rows who.now at last copy.old trial.now result copy.new) Unit }
{
    let (number, token) = next_token(alloc, journal, last)?;
    match order_as(alloc, copy, token, trial, who) {
        Ok(_) => Ok(number),
        Err(why) => Err(refused_at(at, why)),
    }
}

/// The trials as orders, one behind another, under tokens that no order of this journal had, up to one that is refused.
pub(crate) fn try_all(
    alloc: Global,
    copy: &mut Service,
    journal: &Rows,
    trials: &[Trial],
    who: &Text,
) -> Result<(), PreviewRefused>
    ensures { Unless (lacks preview_memory result) (TriesAll journal.now.rows who.now copy.old trials.now result copy.new) Unit }
{
    let mut left = trials;
    let mut at = 0;
    let mut last = 0;
    while let Some((trial, later)) = left.split_first() {
        match try_at(alloc, copy, journal, at, last, trial, who) {
            Ok(number) => last = number,
            Err(why) => return Err(why),
        }
        at += 1;
        left = later;
    }
    Ok(())
}
