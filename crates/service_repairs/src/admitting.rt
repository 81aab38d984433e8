// Why an order is refused, and which rule allows it.
ghost use Rattle.std.specs.Prelude.{◌≡◌, ◌≤◌, None, option_map};
ghost use Rattle.std.specs.Option.{option_copied};
ghost use Rattle.lang_core.specs.declared.request.Request.{Request};
ghost use Rattle.service_events.specs.State.{in_all, unfolded};
ghost use Rattle.service_events.specs.Orders.{is_too_much, lacks_place};
ghost use Rattle.request_log.specs.Entries.{IsDistinct};
ghost use Rattle.service_parts.specs.Parts.{kept};
ghost use Rattle.service_repairs.specs.Ordering.{admission, allowance, decision_on, unless_carried};
ghost use Rattle.service_repairs.specs.Resolving.{put_request, resolved};

use crate::folding::unless_quiet;
use crate::resolving::{Put, Resolved};
use authorise_rules::Decision;
use journal_rows::Command;
use lang_core::Text;
use service_events::OrderRefused;
use service_parts::{Parts, decision_by, is_crowded, is_heavy, is_programmed};

// ---- why it can't be carried out

// Where an entry is made there must be a place for one, and where a program is brought, for that.
fn lacks_place(parts: &Parts, command: &Command) -> Option<u64>
    requires { in_all (kept parts.now) ≤ 100000 }
    ensures { result ≡ lacks_place (kept parts.now) command.now }
{
    match command {
        Command::Create { .. } => is_crowded(parts),
        Command::Deploy(_) => is_programmed(parts),
        Command::Correct(_, _) => is_programmed(parts),
        Command::Cancel(_) => None,
        Command::Restore(_) => None,
        Command::Replace { .. } => None,
        Command::Retry(_) => None,
        Command::Fold(_) => None,
        Command::Rules(_) => None,
    }
}

// How much there is, where there is too much: the weight counts first.
fn too_much(parts: &Parts, command: &Command) -> Option<u64>
    requires { in_all (kept parts.now) ≤ 100000 }
    ensures { result ≡ is_too_much (kept parts.now) command.now }
{
    match is_heavy(parts) {
        Some(weight) => Some(weight),
        None => lacks_place(parts, command),
    }
}

fn unless_room(parts: &Parts, command: &Command) -> Option<OrderRefused>
    requires { in_all (kept parts.now) ≤ 100000 }
    ensures { result ≡ option_map (λ n. OrderRefused.Full n) (is_too_much (kept parts.now) command.now) }
{
    match too_much(parts, command) {
        None => None,
        Some(much) => Some(OrderRefused::Full(much)),
    }
}

// Why an order can't be carried out: what it names counts first, then whether what it folds is quiet, and then how much there
// is.
fn unless_carried(parts: &Parts, order: &Resolved<'_>) -> Option<OrderRefused>
    requires few { in_all (kept parts.now) ≤ 100000 }
    requires apart { IsDistinct (unfolded (kept parts.now)) }
    ensures { result ≡ unless_carried (kept parts.now) (resolved order.now) }
{
    if let Some(why) = order.misnamed {
        return Some(why);
    }
    match unless_quiet(parts, order.command) {
        Some(why) => Some(why),
        None => unless_room(parts, order.command),
    }
}

// ---- what rules decide of it

fn path_put<'a>(put: &Option<Put<'a>>) -> Option<&'a Text>
    ensures { option_copied result ≡ option_map (λ (q : Request). q.path) (option_map put_request put.now) }
{
    match put {
        None => None,
        Some(put) => Some(put.path),
    }
}

// What the service's rules decide of it.
fn decision(parts: &Parts, order: &Resolved<'_>, who: &Text) -> Decision
    ensures { result ≡ decision_on (kept parts.now) (resolved order.now) who.now }
{
    let new_path = path_put(&order.put);
    decision_by(
        parts.rules.get().rules(),
        order.kind,
        None,
        who,
        order.subject,
        new_path,
    )
}

// The rule that allows it, or the one that denies it.
fn allowance(parts: &Parts, order: &Resolved<'_>, who: &Text) -> Result<u32, OrderRefused>
    ensures { result ≡ allowance (decision_on (kept parts.now) (resolved order.now) who.now) }
{
    match decision(parts, order, who) {
        Decision::Allow(rule) => Ok(rule),
        Decision::Deny(rule) => Err(OrderRefused::Denied(rule)),
    }
}

/// The rule that allows an order, or why it is refused: rules are asked last.
pub(crate) fn admission(
    parts: &Parts,
    order: &Resolved<'_>,
    who: &Text,
) -> Result<u32, OrderRefused>
    requires few { in_all (kept parts.now) ≤ 100000 }
    requires apart { IsDistinct (unfolded (kept parts.now)) }
    ensures { result ≡ admission (kept parts.now) (resolved order.now) who.now }
{
    match unless_carried(parts, order) {
        Some(why) => Err(why),
        None => allowance(parts, order, who),
    }
}
