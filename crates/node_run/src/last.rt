// The connection on which an operator asked to stop.
ghost use Rattle.std.specs.Prelude.{◌≡◌};
ghost use Rattle.std.specs.List.{list_any};
ghost use Rattle.node_run.specs.Stopping.{is_of, stop_bytes, IsOfOne, WasAskedToStop, WasReplied};

use io_edge::Connection;
use lang_core::{Name, Same, Text};
use std::sync::{Condvar, Mutex, Wait};
use world_file::Setup;

/// The connection on which an operator asked that the run ends. Its type keeps, where the connection tells its bytes, that what
/// was taken from it is that request, to this service and sealed with this console secret, and that the reply to it was
/// written, or a front of it where a write failed.
#[derive(Drop)]
pub struct Last<C: Connection> {
    pub conn: C,
    /// The service that was asked.
    pub service: Name,
    /// The secret that seals console requests to it.
    pub console: Text,
    ghost asked: { ∥ WasAskedToStop service console (C.Source.reads conn) ∥₁ },
    ghost replied: { ∥ WasReplied (C.Source.reads conn) (C.Sink.writes conn) stop_bytes ∥₁ },
}

/// Where a worker puts the last connection, and the run waits for it.
#[derive(Drop)]
pub struct LastCell<C: Connection> {
    last: Mutex<Option<Last<C>>>,
    told: Condvar,
}

fn is_of(setup: &Setup, service: &Name, console: &Text) -> bool
    ensures { result ≡ is_of service.now console.now setup.now }
{
    setup.setting.me.text().is(service.text()) && setup.console.is(console)
}

// Whether the service and its console secret are those of one of the setups.
fn is_of_one<C: Connection>(setups: &[Setup], last: &Last<C>) -> bool
    ensures { result ≡ list_any (is_of last.now.service last.now.console) setups.now }
{
    setups
        .iter()
        .any(|setup| is_of(setup, &last.service, &last.console))
}

impl<C: Connection + Drop> LastCell<C> {
    /// An empty one.
    pub fn new() -> Self {
        LastCell {
            last: Mutex::new(None),
            told: Condvar::new(),
        }
    }

    /// Puts a connection there, in place of one that is there.
    pub fn put(&self, rt: &impl Wait, last: Last<C>) {
        let mut cell = self.last.lock(rt);
        *cell = Some(last);
        drop(cell);
        self.told.notify_all();
    }

    // The connection, once one is there.
    fn next<R: Wait>(&self, rt: &R) -> Last<C> {
        let mut cell = self
            .told
            .wait_while(rt, self.last.lock(rt), |last| last.is_none());
        for _ in rt.forever() {
            if let Some(last) = cell.take() {
                return last;
            }
        }
        unreachable!()
    }

    /// Waits for a connection of one of these services, as each is that a worker puts there.
    pub fn wait<R: Wait>(&self, rt: &R, setups: &[Setup]) -> Last<C>
        ensures { IsOfOne setups.now result.service result.console }
    {
        for _ in rt.forever() {
            let last = self.next(rt);
            if is_of_one(setups, &last) {
                return last;
            }
        }
        unreachable!()
    }
}
