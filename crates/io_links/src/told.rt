// What a link in memory tells of its exchanges.
ghost use Rattle.std.specs.Prelude.{◌≡◌, ◌≤◌, [], ◌∷◌, ◌++◌, IfOk, OnOk};
ghost use Rattle.io_edge.specs.Told.{count_after};
ghost use Rattle.lang_base.specs.Memory.{Unless};
ghost use Rattle.io_links.specs.Exchanges.{IsFailure, Leaves, Notes, wants_memory};
ghost use Rattle.io_links.specs.Told.{told, HasRoom};

use crate::{Exchange, Exchanged};
use lang_core::{Bytes, FaultNote, NoMemory, Text};
use std::alloc::Global;

/// The exchanges that a link made, and how many of them have failed.
#[derive(Drop)]
pub struct Told {
    pub made: Vec<Exchanged>,
    pub faults: u64,
}

/// Copies of what an exchange sends, which are told once it was made.
#[derive(Drop)]
pub struct Asked {
    pub address: Text,
    pub bytes: Bytes,
}

impl Asked {
    /// What is sent to this address.
    pub fn of(alloc: Global, address: &str, bytes: &[u8]) -> Result<Asked, NoMemory>
        ensures address { IfOk result (λ asked. asked.address ≡ address.now) }
        ensures bytes { IfOk result (λ asked. asked.bytes ≡ bytes.now) }
    {
        let address = Text::of(alloc, address)?;
        let bytes = Bytes::of(alloc, bytes)?;
        Ok(Asked { address, bytes })
    }
}

impl Told {
    /// No exchange so far.
    pub fn new(alloc: Global) -> Told
        ensures made { result.made.items ≡ [] }
        ensures faults { result.faults ≡ 0 }
    {
        Told {
            made: Vec::new(alloc),
            faults: 0,
        }
    }

    /// Room to tell one exchange more, and copies of what it sends.
    pub fn prepare(&mut self, alloc: Global, address: &str, bytes: &[u8]) -> Result<Asked, NoMemory>
        ensures same { told self.new ≡ told self.old }
        ensures room { OnOk result (HasRoom self.new) }
        ensures address { IfOk result (λ asked. asked.address ≡ address.now) }
        ensures bytes { IfOk result (λ asked. asked.bytes ≡ bytes.now) }
    {
        self.made.reserve(1)?;
        Asked::of(alloc, address, bytes)
    }

    /// Tells an exchange that got this reply, and answers with it.
    pub fn replied(&mut self, alloc: Global, asked: Asked, reply: &[u8]) -> Exchange
        requires room { HasRoom self.old }
        ensures made { Leaves (told self.old) (told self.new) asked.address asked.bytes result }
        ensures faults { self.new.faults ≡ self.old.faults }
        ensures reply { Unless (wants_memory result) (result ≡ Exchange.Reply reply.now)
            (told self.new ≡ told self.old) }
    {
        let (Ok(copy), Ok(reply)) = (Bytes::of(alloc, reply), Bytes::of(alloc, reply)) else {
            return Exchange::NoMemory;
        };
        let Asked { address, bytes } = asked;
        let answer = Exchange::Reply(copy);
        self.tell(Exchanged {
            address,
            bytes,
            answer,
        });
        Exchange::Reply(reply)
    }

    /// Tells an exchange that failed, and counts it.
    pub fn failed(&mut self, asked: Asked) -> Exchange
        requires room { HasRoom self.old }
        ensures made { Leaves (told self.old) (told self.new) asked.address asked.bytes result }
        ensures notes { Notes (told self.old) (told self.new) result }
        ensures failure { IsFailure result }
        ensures faults { self.new.faults ≡ count_after self.old.faults }
        ensures counted { self.old.faults ≤ self.new.faults }
    {
        let Asked { address, bytes } = asked;
        let before = self.faults;
        let after = before.saturating_add(1);
        let note = FaultNote { before, after };
        self.faults = after;
        let answer = Exchange::Failed(note);
        self.tell(Exchanged {
            address,
            bytes,
            answer,
        });
        Exchange::Failed(note)
    }

    // Puts an exchange last.
    fn tell(&mut self, exchanged: Exchanged)
        requires room { HasRoom self.old }
        ensures made { self.new.made.items ≡ self.old.made.items ++ exchanged ∷ [] }
        ensures faults { self.new.faults ≡ self.old.faults }
    {
        let Ok(()) = self.made.push(exchanged) else {
            unreachable!()
        };
    }
}
