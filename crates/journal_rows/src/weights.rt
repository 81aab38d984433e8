// What rows weigh.
ghost use Rattle.std.specs.Prelude.{◌≡◌};
ghost use Rattle.journal_rows.specs.Weights.{capped, request_bytes, wanted_bytes, command_bytes, order_bytes, row_bytes, row_weight};

use crate::orders::{Command, OrderedRow};
use crate::row::Row;
use lang_core::{Request, Shared};

/// What a row weighs beside its texts.
const BARE_ROW: u64 = 64;

fn request_bytes(request: &Request) -> u64
    ensures { result ≡ capped (request_bytes request.now) }
{
    let path = request.path.len();
    path.saturating_add(request.body.len())
        .saturating_add(request.who.len())
}

fn wanted_bytes(request: &Option<Request>) -> u64
    ensures { result ≡ capped (wanted_bytes request.now) }
{
    match request {
        None => 0,
        Some(request) => request_bytes(request),
    }
}

fn desired_bytes(desired: &Option<Shared<Request>>) -> u64
    ensures { result ≡ capped (wanted_bytes desired.now) }
{
    match desired {
        None => 0,
        Some(request) => request_bytes(request.get()),
    }
}

fn command_bytes(command: &Command) -> u64
    ensures { result ≡ capped (command_bytes command.now) }
{
    match command {
        Command::Replace { path, body, .. } => path.len().saturating_add(body.len()),
        Command::Create { request, .. } => request_bytes(request),
        Command::Deploy(program) | Command::Correct(_, program) => program.get().text().len(),
        Command::Rules(rules) => rules.get().text().len(),
        _ => 0,
    }
}

fn order_bytes(order: &OrderedRow) -> u64
    ensures { result ≡ capped (order_bytes order.now) }
{
    let found = wanted_bytes(&order.original);
    let requests = found.saturating_add(wanted_bytes(&order.repaired));
    let words = order.token.len().saturating_add(order.who.len());
    words
        .saturating_add(command_bytes(&order.command))
        .saturating_add(requests)
}

fn row_bytes(row: &Row) -> u64
    ensures { result ≡ capped (row_bytes row.now) }
{
    match row {
        Row::Asked(row) => request_bytes(row.request.get()),
        Row::Took(row) => desired_bytes(&row.desired).saturating_add(row.who.len()),
        Row::Answered(row) => row.response.body.len(),
        Row::Sent(row) => desired_bytes(&row.desired),
        Row::Noted(row) => row.who.len(),
        Row::SawAnswer(row) => row.response.body.len().saturating_add(row.who.len()),
        Row::Ordered(row) => order_bytes(row.get()),
        _ => 0,
    }
}

/// What a row weighs: 64, and the bytes of the paths, bodies, users, tokens, programs and rules that stand in it. A weight
/// that no number of 64 bits holds is the greatest of them.
pub fn weight(row: &Row) -> u64
    ensures { result ≡ row_weight row.now }
{
    BARE_ROW.saturating_add(row_bytes(row))
}
