// A list of numbers in blocks.
ghost use Rattle.std.specs.Prelude.{◌≡◌, ◌<◌, ◌≤◌, [], insert, length, slice_index, IfOk, OnOk, OnErr};
ghost use Rattle.std.specs.List.{concat, AllByRecursion};
ghost use Rattle.number_blocks.specs.Blocks.{start_of};

use crate::block::Block;
use crate::parts::{block_of, put};
use lang_base::{NoMemory, copied_items};
use std::alloc::Global;
use std::marker::Model;

/// So many numbers are kept at most.
const MOST_NUMBERS: usize = 4_294_967_295;

/// Numbers in a list, which contracts see with the blocks that it is kept in.
pub struct Blocks {
    // In order. None is empty.
    blocks: Vec<Block>,
    // How many numbers stand before each block.
    starts: Vec<usize>,
    // How many there are.
    len: usize,
}

impl Drop for Blocks {
    fn drop(self) {
        let Self {
            blocks: _,
            starts: _,
            len: _,
        } = self;
    }
}

impl Model for Blocks {
    ghost use Rattle.std.specs.Prelude.{◌≡◌, ◌<◌, length};
    ghost use Rattle.std.specs.List.{concat};
    ghost use Rattle.number_blocks.specs.Blocks.{KeptBlocks, AreBlocks};

    ghost Value = { KeptBlocks };

    ghost view = { λ b. record { items = concat b.blocks.items; blocks = b.blocks.items } };

    ghost invariant = { λ b. AreBlocks b.blocks.items b.starts.items × (b.len ≡ length (concat b.blocks.items)) × (b.len < 4294967296) };
}

impl Blocks {
    /// No numbers.
    pub fn new(alloc: Global) -> Blocks
        ensures { result.items ≡ [] }
    {
        Blocks {
            blocks: Vec::new(alloc),
            starts: Vec::new(alloc),
            len: 0,
        }
    }

    /// The same numbers.
    pub fn copied(&self, alloc: Global) -> Result<Blocks, NoMemory>
        ensures { IfOk result (λ copy. copy.items ≡ self.now.items) }
    {
        let starts = Vec::from_slice(alloc, &self.starts)?;
        let blocks = copied_items(alloc, &self.blocks)?;
        Ok(Blocks {
            blocks,
            starts,
            len: self.len,
        })
    }

    /// How many there are.
    pub fn len(&self) -> usize
        ensures { result ≡ length self.now.items }
    {
        self.len
    }

    /// The blocks, in which the numbers stand one after the other.
    pub fn as_slice(&self) -> &[Block]
        ensures blocks { result.now ≡ self.now.blocks }
        ensures items { self.now.items ≡ concat result.now }
        ensures some { AllByRecursion (λ b. 0 < length b) result.now }
        ensures few { length self.now.items < 4294967296 }
    {
        &self.blocks
    }

    /// How many numbers stand before a block.
    pub fn start(&self, block: usize) -> usize
        requires { block < length self.now.blocks }
        ensures { result ≡ start_of block self.now.blocks }
    {
        self.starts[block]
    }

    /// The number at a place, counted from 0.
    pub fn at(&self, place: usize) -> u32
        requires { place < length self.now.items }
        ensures { result ≡ slice_index self.now.items place }
    {
        let block = block_of(&self.starts, place);
        self.blocks[block].as_slice()[place - self.starts[block]]
    }

    /// Puts a number in at a place. Refused, no number moves.
    pub fn insert(&mut self, alloc: Global, place: usize, number: u32) -> Result<(), NoMemory>
        requires { place ≤ length self.old.items }
        ensures ok { OnOk result (self.new.items ≡ insert self.old.items place number) }
        ensures err { OnErr result (self.new.items ≡ self.old.items) }
    {
        if self.len == MOST_NUMBERS {
            return Err(NoMemory);
        }
        put(
            alloc,
            &mut self.blocks,
            &mut self.starts,
            self.len,
            place,
            number,
        )?;
        self.len += 1;
        Ok(())
    }
}
