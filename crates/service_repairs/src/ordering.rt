// Orders of operators.
ghost use Rattle.std.specs.Prelude.{◌≡◌, ◌≤◌, false, None, Some, Ok, IfErr, IfOk, IfSome};
ghost use Rattle.journal_rows.specs.Words.{ordered};
ghost use Rattle.journal_rows.specs.declared.orders.OrderedRow.{OrderedRow};
ghost use Rattle.service_events.specs.Doing.{Does, order_memory};
ghost use Rattle.service_events.specs.Calls.{noted};
ghost use Rattle.service_events.specs.Orders.{carried_out, order_event, refused};
ghost use Rattle.request_log.specs.Entries.{IsDistinct};
ghost use Rattle.service_events.specs.State.{in_all, unfolded};
ghost use Rattle.service_parts.specs.Drafts.{TellNoCall};
ghost use Rattle.service_parts.specs.Parts.{kept};
ghost use Rattle.service_parts.specs.Rooms.{aloft};
ghost use Rattle.service_parts.specs.Services.{IsService};
ghost use Rattle.service_repairs.specs.Answers.{answered_by};
ghost use Rattle.service_repairs.specs.Ordering.{allowed_rows, IsDraft, MayOrder};
ghost use Rattle.service_repairs.specs.Resolving.{resolved};

use crate::admitting::admission;
use crate::order_drafts::{order_rows, put_order};
use crate::resolving::{Resolved, resolve};
use journal_rows::{Command, OrderedRow, Row};
use lang_core::{Inputs, NoMemory, Text};
use service_events::{OrderRefused, Ordered};
use service_parts::Parts;
use std::alloc::Global;

/// What an order answers, and its rows.
#[derive(Drop)]
pub(crate) struct OrderDraft {
    pub(crate) ordered: Ordered,
    pub(crate) rows: Vec<Row>,
}

// What the order of this token was answered, if it was accepted before.
fn repeated(parts: &Parts, token: &Text) -> Option<Ordered>
    ensures { result ≡ answered_by (ordered token.now parts.now.journal.rows) }
{
    match parts.journal.ordered(token) {
        None => None,
        Some(row) => Some(Ordered {
            about: row.about,
            rule: row.rule,
        }),
    }
}

// What an order that this rule allowed answers, and its rows.
fn allowed_draft(
    alloc: Global,
    parts: &Parts,
    order: &Resolved<'_>,
    token: Text,
    who: &Text,
    inputs: Inputs,
    rule: u32,
) -> Result<OrderDraft, NoMemory>
    ensures about { IfOk result (λ draft. draft.ordered.about ≡ order.now.about) }
    ensures rule { IfOk result (λ draft. draft.ordered.rule ≡ rule) }
    ensures rows { IfOk result (λ draft. draft.rows.items ≡ allowed_rows (kept parts.now) (resolved order.now) token who.now inputs rule) }
{
    let rows = order_rows(alloc, parts, order, token, who, inputs, rule)?;
    let ordered = Ordered {
        about: order.about,
        rule,
    };
    Ok(OrderDraft { ordered, rows })
}

// An order that nothing refuses, before anything changes.
fn drafted(
    alloc: Global,
    parts: &Parts,
    command: &Command,
    token: Text,
    who: &Text,
    inputs: Inputs,
) -> Result<OrderDraft, OrderRefused>
    requires few { in_all (kept parts.now) ≤ 100000 }
    requires apart { IsDistinct (unfolded (kept parts.now)) }
    ensures draft { IfOk result (λ draft. IsDraft (kept parts.now) command.now token who.now inputs draft) }
    ensures refused { IfErr result (λ why. order_memory why ≡ false → refused (kept parts.now) command.now who.now ≡ Some why) }
{
    let order = resolve(parts, command);
    match admission(parts, &order, who) {
        Err(refusal) => Err(refusal),
        Ok(rule) => {
            let draft = allowed_draft(alloc, parts, &order, token, who, inputs, rule)?;
            Ok(draft)
        }
    }
}

// Carries out what was drafted. Refused for want of memory, nothing changes.
fn accepted(
    alloc: Global,
    parts: &mut Parts,
    draft: OrderDraft,
    command: Command,
    who: Text,
    inputs: Inputs,
) -> Result<Ordered, OrderRefused>
    requires may { MayOrder (kept parts.old) command }
    requires plain { TellNoCall draft.rows.items }
    requires room { aloft parts.old.flights.list ≤ parts.old.journal.spare }
    ensures ok { IfOk result (λ ordered. (ordered ≡ draft.ordered) × (kept parts.new ≡ noted draft.rows.items (carried_out (kept parts.old) command who inputs))) }
    ensures err { IfErr result (λ why. (why ≡ OrderRefused.NoMemory) × (kept parts.new ≡ kept parts.old)) }
    ensures room { aloft parts.new.flights.list ≤ parts.new.journal.spare }
{
    let OrderDraft { ordered, rows } = draft;
    put_order(alloc, parts, rows, command, who, inputs)?;
    Ok(ordered)
}

// An order of a token that is new.
fn new_order(
    alloc: Global,
    parts: &mut Parts,
    command: Command,
    token: Text,
    who: Text,
    inputs: Inputs,
) -> Result<Ordered, OrderRefused>
    requires service { IsService parts.old }
    requires new { ordered token parts.old.journal.rows ≡ None }
    ensures does { Does order_memory (order_event (kept parts.old) command token who inputs) (kept parts.old) result (kept parts.new) }
    ensures service { IsService parts.new }
{
    match drafted(alloc, parts, &command, token, &who, inputs) {
        Err(why) => Err(why),
        Ok(draft) => accepted(alloc, parts, draft, command, who, inputs),
    }
}

/// An order of an operator. One of a token that was accepted before is answered as then. Of any other that could be carried out,
/// the service's rules are asked last: where they deny it, it is refused with the number of the rule.
pub fn order(
    alloc: Global,
    parts: &mut Parts,
    command: Command,
    token: Text,
    who: Text,
    inputs: Inputs,
) -> Result<Ordered, OrderRefused>
    requires { IsService parts.old }
    ensures does { Does order_memory (order_event (kept parts.old) command token who inputs) (kept parts.old) result (kept parts.new) }
    ensures repeated { IfSome (answered_by (ordered token parts.old.journal.rows)) (λ answer. result ≡ Ok answer) }
    ensures service { IsService parts.new }
{
    match repeated(parts, &token) {
        Some(ordered) => Ok(ordered),
        None => new_order(alloc, parts, command, token, who, inputs),
    }
}
