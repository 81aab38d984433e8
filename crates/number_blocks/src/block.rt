// One block of a list.
ghost use Rattle.std.specs.Prelude.{◌≡◌, ◌<◌, ◌≤◌, ◌∷◌, [], drop, insert, length, take, IfOk, OnOk, OnErr};

use lang_base::{Copied, NoMemory};
use std::alloc::Global;
use std::marker::Model;

/// Numbers that stand one after the other, which contracts see as their list.
#[derive(Drop)]
pub struct Block {
    numbers: Vec<u32>,
}

impl Model for Block {
    ghost use Rattle.std.specs.Prelude.{ℕ, List};

    ghost Value = { List ℕ };

    ghost view = { λ b. b.numbers.items };
}

impl Copied for Block {
    fn copied(&self, alloc: Global) -> Result<Block, NoMemory> {
        Block::of(alloc, self.as_slice())
    }
}

impl Block {
    /// A block of these numbers.
    pub(crate) fn of(alloc: Global, numbers: &[u32]) -> Result<Block, NoMemory>
        ensures { IfOk result (λ block. block ≡ numbers.now) }
    {
        let numbers = Vec::from_slice(alloc, numbers)?;
        Ok(Block { numbers })
    }

    /// The numbers.
    pub fn as_slice(&self) -> &[u32]
        ensures { result.now ≡ self.now }
    {
        &self.numbers
    }

    /// How many there are.
    pub fn len(&self) -> usize
        ensures { result ≡ length self.now }
    {
        self.numbers.len()
    }

    /// The first number.
    pub fn first(&self) -> u32
        requires { 0 < length self.now }
        ensures { self.now ≡ result ∷ drop 1 self.now }
    {
        self.numbers[0]
    }

    /// Puts a number in at a place.
    pub(crate) fn insert(&mut self, at: usize, number: u32) -> Result<(), NoMemory>
        requires { at ≤ length self.old }
        ensures ok { OnOk result (self.new ≡ insert self.old at number) }
        ensures err { OnErr result (self.new ≡ self.old) }
    {
        self.numbers.insert(at, number)?;
        Ok(())
    }

    /// A block of the numbers from a place on.
    pub(crate) fn back(&self, alloc: Global, at: usize) -> Result<Block, NoMemory>
        requires { at ≤ length self.now }
        ensures { IfOk result (λ back. back ≡ drop at self.now) }
    {
        Block::of(alloc, &self.numbers[at..])
    }

    /// Takes the numbers from a place on out.
    pub(crate) fn cut(&mut self, at: usize)
        ensures { self.new ≡ take at self.old }
    {
        self.numbers.truncate(at);
    }
}
