// Addresses and the calls to them, in memory.
ghost use Rattle.std.specs.Prelude.{◌<◌, IfSome, vec_len};

use crate::failing::FailingCalls;
use crate::times::exchange_millis;
use io_edge::{Failed, MemorySink};
use lang_core::{Bytes, NoMemory, Text};
use std::alloc::{AllocError, Global};
use std::mem;
use std::sync::{Condvar, CondvarTimeouts, Mutex, Wait};
use std::time::{Clock, Duration};

/// How long an ear looks for a call before it says that there is none, in milliseconds.
const LOOK: u64 = 20;

/// Why a call got no reply.
#[derive(Clone, Copy, Debug, PartialEq, Eq)]
pub enum CallRefused {
    /// No memory for the bytes.
    NoMemory,
    /// The call was to fail, its door was closed, or no reply came in time.
    Failed,
}

impl From<NoMemory> for CallRefused {
    fn from(_: NoMemory) -> Self {
        CallRefused::NoMemory
    }
}

impl From<AllocError> for CallRefused {
    fn from(_: AllocError) -> Self {
        CallRefused::NoMemory
    }
}

impl From<Failed> for CallRefused {
    fn from(_: Failed) -> Self {
        CallRefused::Failed
    }
}

/// A network in memory, which the doors and links of a run share.
///
/// A call waits at its address until an ear there hears it, and its caller until the connection
/// that was given for it is dropped: what was written to that is the reply. So services that call
/// each other run over it as over a real one. Where an ear closes, the calls that wait there fail.
pub struct MemoryNetwork {
    patience: Duration,
    traffic: Mutex<Traffic>,
    changed: Condvar,
}

impl Drop for MemoryNetwork {
    fn drop(self) {
        let Self {
            patience: _,
            traffic: _,
            changed: _,
        } = self;
    }
}

impl MemoryNetwork {
    /// A network without doors. A call fails that has no reply after `patience`, and an exchange of a
    /// link after that or its own time, which is less. Of the exchanges of all links together, those
    /// with the numbers in `failing`, counted from 1, fail unsent.
    pub fn new(alloc: Global, patience: Duration, failing: Vec<u64>) -> Self {
        MemoryNetwork {
            patience,
            traffic: Mutex::new(Traffic::new(alloc, failing)),
            changed: Condvar::new(),
        }
    }

    /// Calls a service as a client does, over no link: sends these bytes to this address, and gives
    /// what was sent back.
    pub fn call<W: Wait + Clock>(
        &self,
        rt: &W,
        alloc: Global,
        address: &str,
        bytes: &[u8],
    ) -> Result<Bytes, CallRefused> {
        let sink = self.reply(rt, alloc, address, bytes, self.patience)?;
        Ok(Bytes::of(alloc, sink.bytes())?)
    }

    /// Calls a service as one exchange of a link, which fails where it is told to.
    pub(crate) fn exchange<W: Wait + Clock>(
        &self,
        rt: &W,
        alloc: Global,
        address: &str,
        bytes: &[u8],
        services: usize,
    ) -> Result<MemorySink, CallRefused> {
        self.traffic.lock(rt).exchanges.next()?;
        let most = Duration::from_millis(exchange_millis(services));
        self.reply(rt, alloc, address, bytes, self.patience.min(most))
    }

    // What was written within this time to the connection that was given for a call.
    fn reply<W: Wait + Clock>(
        &self,
        rt: &W,
        alloc: Global,
        address: &str,
        bytes: &[u8],
        patience: Duration,
    ) -> Result<MemorySink, CallRefused> {
        let number = self.traffic.lock(rt).send(alloc, address, bytes)?;
        self.changed.notify_all();
        let traffic = self.traffic.lock(rt);
        let (mut traffic, _) = self
            .changed
            .wait_timeout_while(rt, traffic, patience, |traffic| {
                traffic.is_under_way(number)
            });
        match traffic.take(number) {
            Some(sink) => Ok(sink),
            None => Err(CallRefused::Failed),
        }
    }

    /// Opens an address, which fails where it is open or there is no memory.
    pub(crate) fn open<W: Wait>(&self, rt: &W, alloc: Global, address: &str) -> Result<(), Failed> {
        self.traffic.lock(rt).open(alloc, address)
    }

    /// Hears no call at an address any more: who waits there is refused.
    pub(crate) fn shut<W: Wait>(&self, rt: &W, address: &str) {
        self.traffic.lock(rt).shut(address);
        self.changed.notify_all();
    }

    /// Hears no call at an address any more, and the address is free: who waits there is refused.
    pub(crate) fn close<W: Wait>(&self, rt: &W, address: &str) {
        self.traffic.lock(rt).close(address);
        self.changed.notify_all();
    }

    /// The next call to this address, by its number, and its bytes; None where none came in a while, or
    /// calls aren't heard there any more.
    pub(crate) fn hear<W: Wait + Clock>(&self, rt: &W, address: &str) -> Option<(u64, Vec<u8>)> {
        let traffic = self.traffic.lock(rt);
        let (mut traffic, _) = self.changed.wait_timeout_while(
            rt,
            traffic,
            Duration::from_millis(LOOK),
            |traffic| traffic.is_quiet(address),
        );
        traffic.hear(address)
    }

    /// Hands a call's reply to its caller, if that still waits.
    pub(crate) fn answer<W: Wait>(&self, rt: &W, number: u64, reply: MemorySink) {
        self.traffic.lock(rt).answer(number, reply);
        self.changed.notify_all();
    }
}

// An address at which an ear has listened.
#[derive(Drop)]
struct Place {
    address: Text,
    // An ear is there.
    taken: bool,
    // It hears calls.
    open: bool,
}

impl Place {
    // Another ear is there, unless one is.
    fn open(&mut self) -> Result<(), Failed> {
        if self.taken {
            return Err(Failed);
        }
        self.taken = true;
        self.open = true;
        Ok(())
    }
}

// How far a call came.
#[derive(Drop)]
enum Stage {
    // It waits with its bytes at its address.
    Sent(Vec<u8>),
    // An ear gave it to a worker.
    Served,
    // The worker is done, and wrote this.
    Answered(MemorySink),
    // Its door closed.
    Refused,
}

// A call, until its caller takes the reply or gives up.
#[derive(Drop)]
struct Call {
    number: u64,
    address: Text,
    stage: Stage,
}

impl Call {
    fn waits_at(&self, address: &str) -> bool {
        matches!(self.stage, Stage::Sent(_)) && self.address.as_str() == address
    }

    fn is_under_way(&self) -> bool {
        matches!(self.stage, Stage::Sent(_) | Stage::Served)
    }
}

// All that is on its way in a network.
#[derive(Drop)]
struct Traffic {
    places: Vec<Place>,
    calls: Vec<Call>,
    sent: u64,
    exchanges: FailingCalls,
}

impl Traffic {
    fn new(alloc: Global, failing: Vec<u64>) -> Traffic {
        Traffic {
            places: Vec::new(alloc),
            calls: Vec::new(alloc),
            sent: 0,
            exchanges: FailingCalls::new(failing),
        }
    }

    // Where an address stands among those at which an ear has listened.
    fn place(&self, address: &str) -> Option<usize>
        ensures { IfSome result (λ at. at < vec_len self.now.places) }
    {
        self.places
            .iter()
            .position(|place| place.address.as_str() == address)
    }

    fn open(&mut self, alloc: Global, address: &str) -> Result<(), Failed> {
        if let Some(at) = self.place(address) {
            return self.places[at].open();
        }
        let Ok(address) = Text::of(alloc, address) else {
            return Err(Failed);
        };
        let place = Place {
            address,
            taken: true,
            open: true,
        };
        match self.places.push(place) {
            Ok(()) => Ok(()),
            Err(_) => Err(Failed),
        }
    }

    fn close(&mut self, address: &str) {
        self.shut(address);
        if let Some(at) = self.place(address) {
            self.places[at].taken = false;
        }
    }

    fn shut(&mut self, address: &str) {
        if let Some(at) = self.place(address) {
            self.places[at].open = false;
        }
        for call in self.calls.iter_mut() {
            if call.waits_at(address) {
                call.stage = Stage::Refused;
            }
        }
    }

    fn is_closed(&self, address: &str) -> bool {
        self.places
            .iter()
            .any(|place| !place.open && place.address.as_str() == address)
    }

    fn send(&mut self, alloc: Global, address: &str, bytes: &[u8]) -> Result<u64, CallRefused> {
        if self.is_closed(address) {
            return Err(CallRefused::Failed);
        }
        let call = Call {
            number: self.sent,
            address: Text::of(alloc, address)?,
            stage: Stage::Sent(Vec::from_slice(alloc, bytes)?),
        };
        if self.calls.push(call).is_err() {
            return Err(CallRefused::NoMemory);
        }
        self.sent = self.sent.saturating_add(1);
        Ok(self.sent.saturating_sub(1))
    }

    fn is_under_way(&self, number: u64) -> bool {
        self.calls
            .iter()
            .any(|call| call.number == number && call.is_under_way())
    }

    // Whether a call may come to this address, and none waits there.
    fn is_quiet(&self, address: &str) -> bool {
        !self.is_closed(address) && !self.calls.iter().any(|call| call.waits_at(address))
    }

    fn hear(&mut self, address: &str) -> Option<(u64, Vec<u8>)> {
        let at = self.calls.iter().position(|call| call.waits_at(address))?;
        let call = &mut self.calls[at];
        match mem::replace(&mut call.stage, Stage::Served) {
            Stage::Sent(bytes) => Some((call.number, bytes)),
            _ => None,
        }
    }

    fn answer(&mut self, number: u64, reply: MemorySink) {
        if let Some(at) = self.calls.iter().position(|call| call.number == number) {
            self.calls[at].stage = Stage::Answered(reply);
        }
    }

    fn take(&mut self, number: u64) -> Option<MemorySink> {
        let at = self.calls.iter().position(|call| call.number == number)?;
        let Call {
            number: _,
            address: _,
            stage,
        } = self.calls.remove(at);
        match stage {
            Stage::Answered(reply) => Some(reply),
            _ => None,
        }
    }
}
