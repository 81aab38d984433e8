// Records that were handed over and aren't written yet.
ghost use Rattle.std.specs.Prelude.{◌≡◌, ◌+◌, ◌-◌, ◌^◌, ◌≤◌, ◌⊎◌, ◌∷◌, ◌++◌, [], Err, OnErr, OnOk, length};
ghost use Rattle.store_commits.specs.Handings.{Handing, Moving, Resting};
ghost use Rattle.store_commits.specs.declared.queue.NotHandedOver.{NotHandedOver};

use crate::texts::Texts;
use std::alloc::Global;
use std::marker::Model;
use store_lines::Line;

/// What was seen rests on the records up to some number, counted from 1. Whoever has one must settle it: it can't be let go.
/// Contracts see a `Resting`.
pub struct Handed {
    at: u64,
}

impl Model for Handed {
    ghost Value = { Resting };

    ghost view = { λ handed. record { at = handed.at } };
}

impl Handed {
    /// That of a service without a store: what was seen rests on no record.
    pub fn of_none() -> Handed
        ensures { result.at ≡ 0 }
    {
        Handed { at: 0 }
    }

    /// One for both: what was seen with either.
    pub fn with(self, other: Handed) -> Handed
        ensures first { self.at ≤ result.at }
        ensures second { other.at ≤ result.at }
        ensures either { (result.at ≡ self.at) ⊎ (result.at ≡ other.at) }
    {
        let Handed { at: first } = self;
        let Handed { at: second } = other;
        Handed {
            at: if first < second { second } else { first },
        }
    }

    /// The number, for whoever settles it.
    pub(crate) fn number(self) -> u64
        ensures { result ≡ self.at }
    {
        let Handed { at } = self;
        at
    }
}

/// All that waited in a queue, on its way to the store. It can't be let go: a writer takes it. Contracts see a `Moving`.
pub struct Taken {
    texts: Texts,
    upto: u64,
}

impl Model for Taken {
    ghost Value = { Moving };

    ghost view = { λ taken. record { texts = taken.texts; upto = taken.upto } };
}

impl Taken {
    /// These, of which the last has this number.
    pub(crate) fn of(texts: Texts, upto: u64) -> Taken
        ensures { (result.texts ≡ texts) × (result.upto ≡ upto) }
    {
        Taken { texts, upto }
    }

    /// The texts, and the number of the last.
    pub(crate) fn parts(self) -> (Texts, u64)
        ensures { (result.0 ≡ self.texts) × (result.1 ≡ self.upto) }
    {
        let Taken { texts, upto } = self;
        (texts, upto)
    }
}

/// Records that were handed over and aren't written yet, in order. It stands beside the service of whose events they are, behind
/// the same lock. Contracts see a `Handing`.
#[derive(Drop)]
pub struct Queue {
    pending: Texts,
    // How many were handed over in all, with those that the store had at first.
    handed: u64,
}

impl Model for Queue {
    ghost Value = { Handing };

    ghost view = { λ queue. record { pending = queue.pending; handed = queue.handed } };
}

/// Why a record wasn't taken. It is handed back.
pub enum NotHandedOver {
    /// No memory for it.
    NoMemory(Line),
    /// As many were handed over as 64 bits count.
    Many(Line),
}

impl Drop for NotHandedOver {
    fn drop(self) {
        match self {
            Self::NoMemory(_) | Self::Many(_) => {}
        }
    }
}

impl Queue {
    /// That of a store that had so many records when it was opened.
    pub fn new(alloc: Global, had: u64) -> Queue
        ensures { (result.pending ≡ []) × (result.handed ≡ had) }
    {
        Queue {
            pending: Texts::new(alloc),
            handed: had,
        }
    }

    /// How many were handed over in all, with those that the store had at first.
    pub fn count(&self) -> u64
        ensures { result ≡ self.now.handed }
    {
        self.handed
    }

    /// Hands a record over. Refused, all is as before, and the record is handed back.
    pub fn hand_over(&mut self, text: Line) -> Result<(), NotHandedOver>
        ensures ok { OnOk result ((self.new.pending ≡ self.old.pending ++ text ∷ []) × (self.new.handed ≡ self.old.handed + 1)) }
        ensures err { OnErr result ((self.new.pending ≡ self.old.pending) × (self.new.handed ≡ self.old.handed)) }
        ensures back { OnErr result ((result ≡ Err (NotHandedOver.NoMemory text)) ⊎ ((result ≡ Err (NotHandedOver.Many text)) × (self.old.handed ≡ 2 ^ 64 - 1))) }
    {
        if self.handed == u64::MAX {
            return Err(NotHandedOver::Many(text));
        }
        if let Err(text) = self.pending.push(text) {
            return Err(NotHandedOver::NoMemory(text));
        }
        self.handed += 1;
        Ok(())
    }

    /// What is seen now rests on all that was handed over.
    pub fn handed(&self) -> Handed
        ensures { result.at ≡ self.now.handed }
    {
        Handed { at: self.handed }
    }

    /// Takes all that wait.
    pub fn take(&mut self, alloc: Global) -> Taken
        ensures taken { (result.texts ≡ self.old.pending) × (result.upto ≡ self.old.handed) }
        ensures left { (self.new.pending ≡ []) × (self.new.handed ≡ self.old.handed) }
    {
        let texts = std::mem::replace(&mut self.pending, Texts::new(alloc));
        Taken {
            texts,
            upto: self.handed,
        }
    }
}
