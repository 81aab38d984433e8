// Folds that a service orders by itself.
ghost use Rattle.std.specs.Prelude.{◌≡◌, IfOk, is_none, position};
ghost use Rattle.std.specs.List.{list_all};
ghost use Rattle.journal_rows.specs.Words.{ordered};
ghost use Rattle.service_events.specs.Orders.{is_due};
ghost use Rattle.node_workers.specs.Desks.{at_desk};
ghost use Rattle.node_workers.specs.Folding.{can_go, fold_token, front_of, is_answered, is_call_over, is_over, stays, FoldsOnce};

use crate::desk::Desk;
use crate::turns::ask_under_lock;
use admin_console::Service;
use authorise_rules::{Asked, Decision, decide};
use call_registers::{Register, Registers, is_done_with};
use journal_rows::{Command, Rows};
use lang_core::{Copied, Inputs, NoMemory, Text};
use node_core::{NodeDone, NodeEvent, NodeState, OwnFolds, Pass};
use repair_messages::{Kind, Refusal, RefusalWord};
use request_log::{Entry, KeptEntry};
use service_events::{OrderRefused, Ordered};
use std::alloc::Global;
use std::sync::Wait;
use std::sync::ledger::Ledger;

/// A service folds by itself once this part of what it keeps can go: a sixteenth. Each order to fold has a row in the journal,
/// and the log's index is made afresh at it, so that one for each request would cost more than it frees.
const PART: u64 = 16;

/// Or once so many can go, where that is fewer: a fold holds the service for as long as it has entries to fold.
const ENOUGH: u64 = 500;

/// What is to be done about the first entries of a service that folds by itself.
#[derive(Clone, Copy)]
pub enum FoldDue {
    /// Nothing: it keeps all its entries, or so few aren't folded that none is to go yet.
    Nothing,
    /// Nothing, since its last order to fold was refused, and would be again.
    Refused,
    /// The entry of this number stands in the way.
    Waits(u64),
    /// Those up to and including the entry of this number can go.
    UpTo(u64),
}

/// What a worker that repairs came to in one turn, and so what it does next.
#[derive(Clone, Copy)]
pub enum RepairTurn {
    /// A repair step was taken: the next turn follows at once.
    Ran,
    /// There is nothing to do before something changes.
    Rests,
    /// What was to be done didn't come to an end: it is tried again in a moment.
    Again,
}

// ---- which entries can go

fn is_answered(register: &Register) -> bool
    ensures { result ≡ is_answered register.now }
{
    match &register.answer {
        Some(answer) => register.version <= answer.version,
        None => false,
    }
}

fn is_over(register: &Register) -> bool
    ensures { result ≡ is_over register.now }
{
    is_done_with(register) && is_answered(register)
}

fn is_call_over(registers: &Registers, number: u64) -> bool
    ensures { result ≡ is_call_over registers.now.list number }
{
    match registers.get(number) {
        Some(register) => is_over(register),
        None => false,
    }
}

fn are_over(registers: &Registers, slots: &[u64]) -> bool
    ensures { result ≡ list_all (is_call_over registers.now.list) slots.now }
{
    slots.iter().all(|number| is_call_over(registers, *number))
}

fn is_due(service: &Service, entry: &Entry) -> bool
    ensures { result ≡ is_due service.now entry.now }
{
    service.replies().is_due(entry.id)
}

fn can_go(service: &Service, entry: &Entry) -> bool
    ensures { result ≡ can_go service.now entry.now }
{
    !is_due(service, entry) && are_over(service.registers(), entry.slots.as_slice())
}

fn stays(service: &Service, entry: &Entry) -> bool
    ensures { result ≡ stays service.now entry.now }
{
    !can_go(service, entry)
}

// Where the first of these stands that can't go.
fn first_staying(service: &Service, entries: &[KeptEntry]) -> Option<usize>
    ensures { result ≡ position (stays service.now) entries.now }
{
    entries.iter().position(|kept| stays(service, kept.entry()))
}

// How many of the first of these can go.
fn front_of(service: &Service, entries: &[KeptEntry]) -> usize
    ensures { result ≡ front_of service.now entries.now }
{
    first_staying(service, entries).unwrap_or(entries.len())
}

fn id_at(entries: &[KeptEntry], place: usize) -> u64 {
    match entries.get(place) {
        Some(kept) => kept.entry().id,
        None => 0,
    }
}

// Of these, so many have to stay, and the others are at least a part. They alone are looked at.
fn due_of(service: &Service, entries: &[KeptEntry], keep: usize, part: usize) -> FoldDue {
    let most = entries.len().saturating_sub(keep);
    let front = front_of(service, &entries[..most]);
    if front < part {
        return FoldDue::Waits(id_at(entries, front));
    }
    FoldDue::UpTo(id_at(entries, front.saturating_sub(1)))
}

// Whether the rules, as they are now, deny by the rule of this number that the service folds by itself.
fn is_denied_by(service: &Service, number: u64) -> bool {
    let asked = Asked {
        kind: Kind::Fold,
        from: None,
        who: service.setting().me.text(),
        original: None,
        old_path: None,
        new_path: None,
    };
    match decide(service.rules().rules(), &asked) {
        Decision::Allow(_) => false,
        Decision::Deny(rule) => rule as u64 == number,
    }
}

// Whether an order to fold would be refused again: by the same rule, or since a journal gets no lighter.
fn stays_refused(service: &Service, waits: Option<Refusal>) -> bool {
    match waits {
        Some(why) => match why.word {
            RefusalWord::Denied => is_denied_by(service, why.number),
            RefusalWord::Full => true,
            _ => false,
        },
        None => false,
    }
}

// How many of the first have to go at once, at least, where so many have to stay.
fn part_of(keep: u64) -> u64 {
    let part = keep / PART;
    if part < ENOUGH { part } else { ENOUGH }
}

/// What is to be done about the first entries of the service behind the lock, of which so many have to stay. A part of those at
/// least has to go at once. No entry is taken that is stale, since this is asked where none is.
pub fn fold_due<R: Ledger>(kept: &NodeState<R>, keep: Option<u64>) -> FoldDue {
    let Some(keep) = keep else {
        return FoldDue::Nothing;
    };
    let entries = kept.service().entries().as_slice();
    let part = part_of(keep);
    if (entries.len() as u64) < keep.saturating_add(part) {
        return FoldDue::Nothing;
    }
    if stays_refused(kept.service(), kept.folds().waits) {
        return FoldDue::Refused;
    }
    due_of(kept.service(), entries, keep as usize, part as usize)
}

// ---- the order

fn fold_token(alloc: Global, number: u64) -> Result<Text, NoMemory>
    ensures { IfOk result (λ text. text ≡ fold_token number) }
{
    let mut text = String::new(alloc);
    write!(text, "fold-{number}")?;
    Text::shared(text)
}

fn is_free(journal: &Rows, token: &Text) -> bool
    ensures { result ≡ is_none (ordered token.now journal.now.rows) }
{
    match journal.ordered(token) {
        None => true,
        Some(_) => false,
    }
}

// The first number behind this one whose token no order of the journal had, and that token. One of 64 bits is always found,
// since a journal has fewer rows.
fn next_token(alloc: Global, journal: &Rows, used: u64) -> Result<(u64, Text), NoMemory>
    ensures { IfOk result (λ found. found.1 ≡ fold_token found.0) }
{
    for number in used.saturating_add(1)..u64::MAX {
        let token = fold_token(alloc, number)?;
        if is_free(journal, &token) {
            return Ok((number, token));
        }
    }
    Err(NoMemory)
}

// Notes what an order to fold of this number came to. It came to an end where it was accepted, or refused as it would be again.
// One that was refused leaves its token to the next.
fn note_answer<R: Ledger>(
    kept: &mut NodeState<R>,
    number: u64,
    answer: Result<Ordered, OrderRefused>,
) -> RepairTurn {
    let (used, waits) = match answer {
        Ok(_) => (number, None),
        Err(why) => (number.saturating_sub(1), Some(why.refusal())),
    };
    kept.note_folds(OwnFolds { used, waits });
    if waits.is_none() || stays_refused(kept.service(), waits) {
        RepairTurn::Rests
    } else {
        RepairTurn::Again
    }
}

// An order to fold that a service makes by itself.
#[derive(Drop)]
struct OwnOrder {
    /// The number of the last entry that it folds.
    id: u64,
    /// The number of its token, `fold-1` and so on.
    number: u64,
    token: Text,
    /// In whose name it is made.
    who: Text,
    inputs: Inputs,
}

// The next order of the service behind the lock to fold up to this entry.
fn own_order<R: Ledger, Q: Ledger>(
    alloc: Global,
    desk: &Desk<'_, R, Q>,
    kept: &NodeState<R>,
    id: u64,
    inputs: Inputs,
) -> Result<OwnOrder, NoMemory>
    ensures token { IfOk result (λ own. own.token ≡ fold_token own.number) }
    ensures who { IfOk result (λ own. own.who ≡ (at_desk desk.now).me) }
{
    let (number, token) = next_token(alloc, kept.service().journal(), kept.folds().used)?;
    let who = desk.setup.setting.me.text().copied(alloc)?;
    Ok(OwnOrder {
        id,
        number,
        token,
        who,
        inputs,
    })
}

// Makes such an order under the lock.
fn order_fold<R: Ledger, Q: Ledger, W: Wait>(
    rt: &W,
    alloc: Global,
    desk: &Desk<'_, R, Q>,
    kept: &mut NodeState<R>,
    pass: &mut Pass<Q>,
    own: OwnOrder,
) -> RepairTurn
    requires token { own.token ≡ fold_token own.number }
    requires who { own.who ≡ (at_desk desk.now).me }
    ensures { FoldsOnce (at_desk desk.now).me pass.old.notes pass.new.notes pass.old.receipts.items pass.new.receipts.items }
{
    let OwnOrder {
        id,
        number,
        token,
        who,
        inputs,
    } = own;
    let order = NodeEvent::Order {
        command: Command::Fold(id),
        token,
        who,
        inputs,
    };
    match ask_under_lock(rt, alloc, desk, kept, pass, order) {
        Ok(NodeDone::Order(answer)) => note_answer(kept, number, answer),
        _ => RepairTurn::Again,
    }
}

/// Orders that the entries up to and including the one of this number are folded, as the service behind the lock does by itself:
/// by its own name, under the first token of `fold-1`, `fold-2` and so on that no order of it had. What comes of it is noted.
/// The worker rests where it was accepted, or refused as it would be again. Else it is to be tried again.
pub fn fold_up_to<R: Ledger, Q: Ledger, W: Wait>(
    rt: &W,
    alloc: Global,
    desk: &Desk<'_, R, Q>,
    kept: &mut NodeState<R>,
    pass: &mut Pass<Q>,
    id: u64,
    inputs: Inputs,
) -> RepairTurn
    ensures { FoldsOnce (at_desk desk.now).me pass.old.notes pass.new.notes pass.old.receipts.items pass.new.receipts.items }
{
    match own_order(alloc, desk, kept, id, inputs) {
        Ok(own) => order_fold(rt, alloc, desk, kept, pass, own),
        Err(_) => RepairTurn::Again,
    }
}

/// No fold waits, or one does since the entry of this number stands in the way.
pub fn note_waiting<R: Ledger>(kept: &mut NodeState<R>, id: Option<u64>) {
    let used = kept.folds().used;
    let waits = match id {
        None => None,
        Some(number) => Some(Refusal {
            word: RefusalWord::NotQuiet,
            number,
        }),
    };
    kept.note_folds(OwnFolds { used, waits });
}
