// What a pass keeps of its worker's events.
ghost use Rattle.std.specs.Prelude.{◌≡◌, None, Some, IfOk};
ghost use Rattle.std.specs.Option.{option_copied};

use crate::orders::{OrderNote, OrderNotes};
use lang_core::{Inputs, Name, NoMemory, Origin, Request};
use repair_messages::{PostName, RefusalWord};
use service_events::{Done, Event, Posted};
use std::alloc::Global;
use std::marker::Model;

/// A worker's open flight, with the call for which it waits.
#[derive(Drop)]
pub struct Begun {
    /// The service in which it is.
    pub service: Name,
    /// Its number there.
    pub flight: u64,
    /// The service that is called.
    pub dest: Name,
    /// The number of the call.
    pub number: u64,
    /// Where the live request came from.
    pub origin: Origin,
    pub request: Request,
    pub inputs: Inputs,
}

/// How an event was turned away.
#[derive(Clone, Copy, PartialEq, Eq)]
pub enum Turn {
    /// The service refused it, with what the refusal carries, or 0.
    Refused { word: RefusalWord, number: u64 },
    /// The service hasn't the worker's open flight.
    Gone,
}

/// How far a post is.
pub enum Posting {
    /// Nothing is outstanding for this service.
    Quiet(Name),
    /// This one goes next.
    Next(PostName),
    /// Something came back of this one.
    Ended { name: PostName, posted: Posted },
}

impl Drop for Posting {
    fn drop(self) {
        match self {
            Self::Quiet(_) | Self::Next(_) | Self::Ended { name: _, posted: _ } => {}
        }
    }
}

/// What a worker asked that was neither committed nor begun, and what the service answered or why it refused.
pub struct Gave {
    pub asked: Event,
    pub done: Done,
}

impl Drop for Gave {
    fn drop(self) {
        let Self { asked: _, done: _ } = self;
    }
}

/// A `Gave` or none, which contracts see as an `Option`. It stands behind a pointer, in memory that is taken once, when the
/// worker's pass is made: so nothing has to wait for memory to note the next one.
pub struct LastGave {
    items: Vec<Gave>,
}

impl Drop for LastGave {
    fn drop(self) {
        let Self { items: _ } = self;
    }
}

impl Model for LastGave {
    ghost use Rattle.std.specs.Prelude.{◌<◌, Option, slice_get, vec_capacity};
    ghost use Rattle.std.specs.Coded.{coded_option};
    ghost use Rattle.node_core.specs.contracts.notes.Gave as gave;
    ghost use Rattle.node_core.specs.declared.notes.Gave.{Gave};

    ghost Value = { Option Gave };

    ghost coded = { coded_option gave.the_row.coded };

    ghost view = { λ last. slice_get last.items.items 0 };

    ghost invariant = { λ last. 0 < vec_capacity last.items };
}

impl LastGave {
    /// None yet, with the memory for one.
    pub(crate) fn none(alloc: Global) -> Result<LastGave, NoMemory>
        ensures { IfOk result (λ last. last ≡ None) }
    {
        let items = Vec::with_capacity(alloc, 1)?;
        Ok(LastGave { items })
    }

    /// The one that is kept, if there is one.
    pub fn get(&self) -> Option<&Gave>
        ensures { option_copied result ≡ self.now }
    {
        self.items.as_slice().first()
    }

    /// Keeps none any more.
    pub(crate) fn forget(&mut self)
        ensures { self.new ≡ None }
    {
        self.items.clear();
    }

    /// Keeps this one in place of the last.
    pub(crate) fn put(&mut self, gave: Gave)
        ensures { self.new ≡ Some gave }
    {
        self.items.clear();
        self.items.push_reserved(gave);
    }
}

/// What is kept of a worker's last events.
pub struct Notes {
    /// Its open flight.
    pub begun: Option<Begun>,
    /// How the last event was turned away, if it was.
    pub turn: Option<Turn>,
    /// How far its last post is.
    pub posting: Option<Posting>,
    /// Its last request, message or order that was neither committed nor begun.
    pub gave: LastGave,
    /// The orders that its services wrote for it.
    pub orders: OrderNotes,
    /// How many calls it gave up as lost; the greatest number of 64 bits where it doesn't hold that.
    pub lost: u64,
    /// How many calls it gave up as refused, as far as 64 bits hold it.
    pub refused: u64,
    /// How many events it made, as far as 64 bits hold it. Where its flight wasn't there, none was made.
    pub made: u64,
}

impl Drop for Notes {
    fn drop(self) {
        let Self {
            begun: _,
            turn: _,
            posting: _,
            gave: _,
            orders: _,
            lost: _,
            refused: _,
            made: _,
        } = self;
    }
}

impl Notes {
    /// The notes of orders alone.
    pub(crate) fn into_orders(self) -> Vec<OrderNote>
        ensures { result.items ≡ self.orders }
    {
        let Self {
            begun: _,
            turn: _,
            posting: _,
            gave: _,
            orders,
            lost: _,
            refused: _,
            made: _,
        } = self;
        orders.into_items()
    }
}
