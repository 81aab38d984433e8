// What a dump says of services.
ghost use Rattle.std.specs.Prelude.{◌≡◌, ◌&&◌, not};
ghost use Rattle.dump_tables.specs.Kept.{AreKept};

use crate::entries::DumpEntries;
use crate::programs::DumpPrograms;
use crate::services::DumpServices;
use lang_core::{
    Answers, Calls, Cells, Inputs, Origin, Program, Request, Response, Seq, Setting, Shared,
};

/// The numbers of an entry's calls, in the order of the calls.
pub type Numbers = Seq<u64>;

/// A request of a service, with what it drew, called, consumed and answered.
pub struct DumpEntry {
    /// Its number at the service, from 1.
    pub id: u64,
    pub origin: Origin,
    /// The version of its call that it answers; nothing is tested of it.
    pub version: u64,
    /// Whether its origin still wants it.
    pub wanted: bool,
    /// Whether an order has cancelled it.
    pub struck: bool,
    pub inputs: Inputs,
    pub request: Request,
    /// The number of its program at the service, from 1.
    pub under: u64,
    /// The program of that number, which it runs under.
    pub program: Shared<Program>,
    /// The names of its calls, by their numbers at the service, from 1.
    pub numbers: Numbers,
    /// Its calls, each for the service itself and with the service behind the entry's own chain.
    pub calls: Calls,
    /// What the calls consumed, one answer for each.
    pub answers: Answers,
    /// What it answered when it last ran; None where it never ran.
    pub reply: Option<Response>,
}

impl Drop for DumpEntry {
    fn drop(self) {
        let Self {
            id: _,
            origin: _,
            version: _,
            wanted: _,
            struck: _,
            inputs: _,
            request: _,
            under: _,
            program: _,
            numbers: _,
            calls: _,
            answers: _,
            reply: _,
        } = self;
    }
}

impl DumpEntry {
    /// Whether it survives: its origin wants it, and no order has struck it.
    pub fn is_alive(&self) -> bool
        ensures { result ≡ (self.now.wanted && not self.now.struck) }
    {
        self.wanted && !self.struck
    }
}

/// A service: what it is set to do at first, the programs that it had, its entries, and its rows after the last of them.
#[derive(Drop)]
pub struct DumpService {
    /// Its weight is 0, as a dump doesn't tell it.
    pub setting: Setting,
    /// Its setting's, and those that came after.
    pub programs: DumpPrograms,
    pub entries: DumpEntries,
    pub rows: Cells,
}

/// What a dump says. No name of a service stands in it twice, and in a service no number of an entry, no call that an entry
/// comes from, no number of a call, and no table and key of a row. Each entry's program is the service's of its number.
pub struct Dump {
    pub services: DumpServices,
    ghost kept: { ∥ AreKept services ∥₁ },
}

impl Drop for Dump {
    fn drop(self) {
        let Self { services: _ } = self;
    }
}
