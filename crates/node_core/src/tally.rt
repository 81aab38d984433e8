// The two books of a run, whose totals are equal.
ghost use Rattle.std.specs.Prelude.{◌≡◌, ◌+◌, ◌<◌};

use std::sync::ledger::{Book, Ledger, Share};
use std::sync::{Mutex, Wait};

/// What stands behind the tally's lock: the book of rows, which are answers and orders, and that of receipts and notes. With them stand the shares that are left
/// when each node and each pass has its own: they have no part, and to them all others are added at the end.
#[derive(Drop)]
pub(crate) struct Books<R: Ledger, Q: Ledger> {
    pub(crate) rows: Book<R>,
    pub(crate) receipts: Book<Q>,
    pub(crate) no_rows: Share<R>,
    pub(crate) no_receipts: Share<Q>,
    ghost equal: { rows.total ≡ receipts.total },
    ghost no_row: { (no_rows.parts ≡ 0) × (no_rows.amount ≡ 0) },
    ghost no_receipt: { (no_receipts.parts ≡ 0) × (no_receipts.amount ≡ 0) },
}

impl<R: Ledger, Q: Ledger> Books<R, Q> {
    fn add(&mut self, rows: &mut Share<R>, receipts: &mut Share<Q>)
        requires rows { 0 < rows.old.parts }
        requires receipts { 0 < receipts.old.parts }
        ensures rows { (rows.new.amount ≡ rows.old.amount + 1) × (rows.new.parts ≡ rows.old.parts) }
        ensures receipts { (receipts.new.amount ≡ receipts.old.amount + 1) × (receipts.new.parts ≡ receipts.old.parts) }
        ensures total { self.new.rows.total ≡ self.old.rows.total + 1 }
    {
        let Books {
            rows: row_book,
            receipts: receipt_book,
            no_rows: _,
            no_receipts: _,
        } = self;
        row_book.add(rows, 1);
        receipt_book.add(receipts, 1);
    }
}

/// The two books behind a lock of their own: how many live requests all nodes answered and how many orders they wrote, and how
/// many receipts and notes there are of it. Its type keeps that both are the same.
#[derive(Drop)]
pub struct Tally<R: Ledger, Q: Ledger> {
    pub(crate) books: Mutex<Books<R, Q>>,
}

impl<R: Ledger, Q: Ledger> Tally<R, Q> {
    pub(crate) fn new(books: Books<R, Q>) -> Tally<R, Q> {
        Tally {
            books: Mutex::new(books),
        }
    }

    /// Counts an answer and its receipt, or an order and its note, in both books at once. It waits for the tally's lock.
    pub(crate) fn count(&self, rt: &impl Wait, rows: &mut Share<R>, receipts: &mut Share<Q>)
        requires rows { 0 < rows.old.parts }
        requires receipts { 0 < receipts.old.parts }
        ensures rows { (rows.new.amount ≡ rows.old.amount + 1) × (rows.new.parts ≡ rows.old.parts) }
        ensures receipts { (receipts.new.amount ≡ receipts.old.amount + 1) × (receipts.new.parts ≡ receipts.old.parts) }
    {
        self.books.lock(rt).add(rows, receipts)
    }
}
