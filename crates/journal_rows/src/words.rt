// What a journal says of a call, an entry, an order.
ghost use Rattle.std.specs.Prelude.{◌≡◌, ◌&&◌, nat_eq};
ghost use Rattle.std.specs.Option.{option_copied};
ghost use Rattle.lang_base.specs.Texts.{same_text};
ghost use Rattle.journal_rows.specs.Keys.{AreKeys};
ghost use Rattle.journal_rows.specs.Words.{taken_step, last_taken, order_step, ordered};

use crate::callee::TookRow;
use crate::orders::OrderedRow;
use crate::row::Row;
use lang_core::{Name, Same, Text};
use lang_lists::{HashIndex, call_key, text_key};

/// What a journal last said of a reply.
#[derive(Clone, Copy, PartialEq, Eq)]
pub enum Mark {
    /// Neither of the two: it is new, or it was answered or acknowledged by a message since.
    Unsettled,
    /// That it was given to a live request.
    AnsweredLive,
    /// That its answer of this version was confirmed.
    ConfirmedAt(u64),
}

fn is_of(caller: &Name, number: u64, row_caller: &Name, row_number: u64) -> bool
    ensures { result ≡ (same_text row_caller.now caller.now && nat_eq row_number number) }
{
    row_caller.text().is(caller.text()) && row_number == number
}

// The row's version of a caller's call, if it is one.
fn taken_in<'a>(caller: &Name, number: u64, row: &'a Row) -> Option<&'a TookRow>
    ensures { option_copied result ≡ taken_step caller.now number None row.now }
{
    match row {
        Row::Took(took) if is_of(caller, number, &took.caller, took.number) => Some(took),
        _ => None,
    }
}

/// The last version of a caller's call that was taken, looked for among the rows of the call's key; None exactly where
/// none was.
pub(crate) fn last_taken<'a>(
    rows: &'a [Row],
    index: &HashIndex,
    caller: &Name,
    number: u64,
) -> Option<&'a TookRow>
    requires { AreKeys index.now.keys rows.now }
    ensures { option_copied result ≡ last_taken caller.now number rows.now }
{
    let mut end = index.end_of(call_key(caller.text(), number));
    while end > 0 {
        let taken = taken_in(caller, number, &rows[end - 1]);
        if taken.is_some() {
            return taken;
        }
        end = index.end_before(end - 1);
    }
    None
}

// The row's order, if it has this token.
fn order_in<'a>(token: &Text, row: &'a Row) -> Option<&'a OrderedRow>
    ensures { option_copied result ≡ order_step token.now None row.now }
{
    match row {
        Row::Ordered(order) if order.get().token.is(token) => Some(order.get()),
        _ => None,
    }
}

/// The order with a token, looked for among the rows of the token's key; None exactly where none was accepted.
pub(crate) fn ordered<'a>(
    rows: &'a [Row],
    index: &HashIndex,
    token: &Text,
) -> Option<&'a OrderedRow>
    requires { AreKeys index.now.keys rows.now }
    ensures { option_copied result ≡ ordered token.now rows.now }
{
    let mut end = index.end_of(text_key(token));
    while end > 0 {
        let order = order_in(token, &rows[end - 1]);
        if order.is_some() {
            return order;
        }
        end = index.end_before(end - 1);
    }
    None
}
