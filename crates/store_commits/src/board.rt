// A store that many threads share.
ghost use Rattle.std.specs.Prelude.{◌≡◌, ◌≤◌, IfOk, IfSome};

use crate::queue::{Handed, Taken};
use crate::writer::{Closed, Durable, Uncommitted, Writer};
use sqlite_disk::Disk;
use std::alloc::Global;
use std::sync::{Condvar, Mutex, Wait};
use std::thread;

/// Where the records stand that were handed over: behind a lock that this takes and lets go.
pub trait Takes {
    /// Takes all that wait.
    fn take<W: Wait>(&self, rt: &W, alloc: Global) -> Taken;
}

// What the threads look at that share a store.
#[derive(Drop)]
struct Board {
    // The newest that the writer gave.
    newest: Option<Durable>,
    // A thread is writing.
    busy: bool,
    // The store was closed.
    closed: bool,
}

impl Board {
    fn durable(&self, at: u64) -> Option<Durable>
        ensures { IfSome result (λ d. at ≤ d.upto) }
    {
        match &self.newest {
            Some(newest) => newest.covering(at),
            None => None,
        }
    }

    fn ended(&mut self, outcome: Option<Durable>) {
        self.busy = false;
        match outcome {
            Some(newest) => self.newest = Some(newest),
            None => self.closed = true,
        }
    }
}

/// A store that many threads share. One at a time writes what all have handed over, and the others wait for its end. The lock of
/// the service, that of the board and that of the writer are never held together.
#[derive(Drop)]
pub struct Shared<D: Disk + Drop> {
    board: Mutex<Board>,
    turned: Condvar,
    writer: Mutex<Writer<D>>,
}

impl<D: Disk + Drop> Shared<D> {
    /// That of this writer.
    pub fn new(writer: Writer<D>) -> Shared<D> {
        Shared {
            board: Mutex::new(Board {
                newest: writer.newest(),
                busy: false,
                closed: false,
            }),
            turned: Condvar::new(),
            writer: Mutex::new(writer),
        }
    }

    // Writes and syncs records; want of memory is waited for.
    fn commit<W: Wait>(&self, rt: &W, alloc: Global, mut taken: Taken) -> Option<Durable> {
        let mut writer = self.writer.lock(rt);
        for _ in rt.forever() {
            match writer.commit(alloc, taken) {
                Ok(()) => return writer.newest(),
                Err(Uncommitted::Closed) => return None,
                Err(Uncommitted::NoMemory(again)) => taken = again,
            }
            thread::yield_now();
        }
        unreachable!()
    }

    /// Waits until all that was seen is on the disk. To be called without the service's lock. Where no thread is writing this one
    /// takes what all have handed over, writes and syncs it.
    pub fn settle<W: Wait, Q: Takes>(
        &self,
        rt: &W,
        alloc: Global,
        queue: &Q,
        handed: Handed,
    ) -> Result<Durable, Closed>
        ensures { IfOk result (λ d. handed.at ≤ d.upto) }
    {
        let at = handed.number();
        for _ in rt.forever() {
            let mut board = self.turned.wait_while(
                rt,
                self.board.lock(rt),
                |b| b.busy && b.durable(at).is_none(),
            );
            if let Some(done) = board.durable(at) {
                return Ok(done);
            }
            if board.closed {
                return Err(Closed);
            }
            board.busy = true;
            drop(board);
            let taken = queue.take(rt, alloc);
            let outcome = self.commit(rt, alloc, taken);
            self.board.lock(rt).ended(outcome);
            self.turned.notify_all();
        }
        unreachable!()
    }

    /// The writer, once no thread settles any more.
    pub fn into_writer(self) -> Writer<D> {
        let Shared {
            board: _,
            turned: _,
            writer,
        } = self;
        writer.into_inner()
    }
}
