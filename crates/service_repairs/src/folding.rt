// Orders that fold: whether what they fold is quiet, and the fold.
ghost use Rattle.std.specs.Prelude.{◌≡◌, ◌<◌, ◌≤◌, ◌||◌, None, not, find, length, position, take, IfSome, OnOk, OnErr};
ghost use Rattle.std.specs.List.{list_all};
ghost use Rattle.std.specs.Option.{option_copied};
ghost use Rattle.service_events.specs.Orders.{first_unquiet, folded_on, is_due, is_quiet_call, to_fold, unless_quiet};
ghost use Rattle.request_log.specs.Entries.{IsDistinct, has_id};
ghost use Rattle.service_events.specs.State.{base, unfolded};
ghost use Rattle.service_repairs.specs.Folding.{first_unquiet_among, is_settled, is_stale_one};
ghost use Rattle.service_parts.specs.Parts.{kept};
ghost use Rattle.journal_rows.specs.declared.orders.Command.{Command as Ordered};

use crate::stale::first_stale;
use call_registers::is_done_with;
use journal_rows::Command;
use lang_core::NoMemory;
use request_log::{Entry, KeptEntry};
use service_events::OrderRefused;
use service_parts::Parts;
use std::alloc::Global;

// ---- an entry's reply and its calls

fn is_quiet_call(parts: &Parts, number: u64) -> bool
    ensures { result ≡ is_quiet_call (kept parts.now) number }
{
    match parts.registers.get(number) {
        None => false,
        Some(register) => is_done_with(register),
    }
}

fn are_quiet_calls(parts: &Parts, numbers: &[u64]) -> bool
    ensures { result ≡ list_all (is_quiet_call (kept parts.now)) numbers.now }
{
    numbers.iter().all(|number| is_quiet_call(parts, *number))
}

fn is_due(parts: &Parts, entry: &Entry) -> bool
    ensures { result ≡ is_due (kept parts.now) entry.now }
{
    parts.replies.is_due(entry.id)
}

// Whether nothing of an entry that is current is on its way.
fn is_settled(parts: &Parts, entry: &Entry) -> bool
    ensures { result ≡ is_settled (kept parts.now) entry.now }
{
    !is_due(parts, entry) && are_quiet_calls(parts, entry.slots.as_slice())
}

// ---- what a fold folds

// Where the entry of a number stands among those that aren't folded.
fn place_of(parts: &Parts, id: u64) -> Option<u64>
    ensures place { result ≡ position (has_id id) parts.now.repairer.entries }
    ensures within { IfSome result (λ at. at < length parts.now.repairer.entries) }
{
    parts.repairer.log().place_of(id)
}

// How many entries a fold up to that of this number folds: all up to it, or all where there is none.
fn count_to(parts: &Parts, id: u64) -> u64
    ensures count { result ≡ length (to_fold id (kept parts.now)) }
    ensures within { result ≤ length parts.now.repairer.entries }
{
    let all = parts.repairer.log().len();
    match place_of(parts, id) {
        None => all,
        Some(place) => place + 1,
    }
}

// Whether it is the stale one, where that has this number.
fn is_stale_one(stale: Option<u64>, entry: &Entry) -> bool
    ensures { result ≡ is_stale_one stale entry.now }
{
    match stale {
        None => false,
        Some(id) => id == entry.id,
    }
}

fn is_unquiet(parts: &Parts, stale: Option<u64>, entry: &Entry) -> bool
    ensures { result ≡ (is_stale_one stale entry.now || not (is_settled (kept parts.now) entry.now)) }
{
    is_stale_one(stale, entry) || !is_settled(parts, entry)
}

fn find_unquiet<'a>(
    parts: &Parts,
    entries: &'a [KeptEntry],
    stale: Option<u64>,
) -> Option<&'a KeptEntry>
    ensures { option_copied result ≡ find (λ e. is_stale_one stale e || not (is_settled (kept parts.now) e)) entries.now }
{
    entries
        .iter()
        .find(|kept| is_unquiet(parts, stale, kept.entry()))
}

// The first of these entries that is the stale one of this number, or of which something is on its way.
fn first_unquiet_among(parts: &Parts, entries: &[KeptEntry], stale: Option<u64>) -> Option<u64>
    ensures { result ≡ first_unquiet_among (kept parts.now) stale entries.now }
{
    match find_unquiet(parts, entries, stale) {
        None => None,
        Some(kept) => Some(kept.entry().id),
    }
}

fn front(entries: &[KeptEntry], n: u64) -> &[KeptEntry]
    requires { n ≤ length entries.now }
    ensures { result.now ≡ take n entries.now }
{
    &entries[..n as usize]
}

// The first entry that a fold up to that of this number would fold and that isn't quiet.
fn first_unquiet(parts: &Parts, id: u64) -> Option<u64>
    requires { IsDistinct (unfolded (kept parts.now)) }
    ensures { result ≡ first_unquiet (kept parts.now) (base (kept parts.now)) (to_fold id (kept parts.now)) }
{
    let stale = first_stale(parts, 0);
    let count = count_to(parts, id);
    let folds = front(parts.repairer.log().as_slice(), count);
    first_unquiet_among(parts, folds, stale)
}

fn unless_all_quiet(parts: &Parts, id: u64) -> Option<OrderRefused>
    requires { IsDistinct (unfolded (kept parts.now)) }
    ensures { result ≡ unless_quiet (kept parts.now) (Ordered.Fold id) }
{
    match first_unquiet(parts, id) {
        None => None,
        Some(unquiet) => Some(OrderRefused::NotQuiet(unquiet)),
    }
}

/// Why a fold can't be carried out: the first entry that it would fold and that isn't quiet. Other orders fold nothing.
pub(crate) fn unless_quiet(parts: &Parts, command: &Command) -> Option<OrderRefused>
    requires { IsDistinct (unfolded (kept parts.now)) }
    ensures { result ≡ unless_quiet (kept parts.now) command.now }
{
    match command {
        Command::Fold(id) => unless_all_quiet(parts, *id),
        Command::Cancel(_) => None,
        Command::Restore(_) => None,
        Command::Replace { .. } => None,
        Command::Create { .. } => None,
        Command::Retry(_) => None,
        Command::Deploy(_) => None,
        Command::Correct(_, _) => None,
        Command::Rules(_) => None,
    }
}

/// Folds the entries up to that of this number, which are quiet. Refused, nothing changes.
pub(crate) fn fold(alloc: Global, parts: &mut Parts, id: u64) -> Result<(), NoMemory>
    requires { unless_quiet (kept parts.old) (Ordered.Fold id) ≡ None }
    ensures ok { OnOk result (kept parts.new ≡ folded_on (length (to_fold id (kept parts.old))) (kept parts.old)) }
    ensures err { OnErr result (kept parts.new ≡ kept parts.old) }
    ensures journal { parts.new.journal ≡ parts.old.journal }
    ensures flights { parts.new.flights ≡ parts.old.flights }
{
    let count = count_to(parts, id);
    parts.repairer.fold(alloc, count)
}
