// The parts of a list: its blocks, and where each of them begins.
ghost use Rattle.std.specs.Prelude.{ℕ, List, ◌≡◌, ◌+◌, ◌<◌, ◌≤◌, ◌∷◌, ◌++◌, [], true, false, drop, insert, length, map, slice_index_or, take, IfOk, OnOk, OnErr, vec_len, vec_capacity};
ghost use Rattle.std.specs.List.{concat};
ghost use Rattle.number_blocks.specs.Blocks.{start_of, AreBlocks, StandsIn};

use crate::block::Block;
use lang_base::NoMemory;
use lang_lists::count_front;
use std::alloc::Global;

/// A block has at most so many numbers.
const MOST_IN_BLOCK: usize = 512;

/// The block in which a place stands, or the last one where that is the end.
pub(crate) fn block_of(starts: &[usize], place: usize) -> usize
    ensures { (blocks : List (List ℕ)) → AreBlocks blocks starts.now → 0 < length blocks → place ≤ length (concat blocks) → StandsIn place blocks result }
{
    count_front(starts, |start: &usize| *start <= place).saturating_sub(1)
}

fn raised(start: usize) -> usize
    requires { start < 4294967296 }
    ensures { result ≡ start + 1 }
{
    start + 1
}

// Moves all of these by one.
fn raise_all(starts: &mut [usize])
    requires { (k : ℕ) → k < length starts.old → slice_index_or starts.old k 0 < 4294967296 }
    ensures { starts.new ≡ map (λ n. n + 1) starts.old }
{
    for start in starts.iter_mut() {
        *start = raised(*start);
    }
}

// Moves those from a place on by one.
fn raise(starts: &mut Vec<usize>, from: usize)
    requires within { from ≤ length starts.old.items }
    requires few { (k : ℕ) → k < length starts.old.items → slice_index_or starts.old.items k 0 < 4294967296 }
    ensures { starts.new.items ≡ take from starts.old.items ++ map (λ n. n + 1) (drop from starts.old.items) }
{
    raise_all(&mut starts[from..]);
}

// Makes room for one block more.
fn ready(blocks: &mut Vec<Block>, starts: &mut Vec<usize>) -> Result<(), NoMemory>
    ensures blocks { blocks.new.items ≡ blocks.old.items }
    ensures starts { starts.new.items ≡ starts.old.items }
    ensures block { OnOk result (vec_len blocks.new < vec_capacity blocks.new) }
    ensures start { OnOk result (vec_len starts.new < vec_capacity starts.new) }
{
    blocks.reserve(1)?;
    starts.reserve(1)?;
    Ok(())
}

// Cuts a block in two, the second of which is made. There is room for it.
fn cut_in(blocks: &mut Vec<Block>, starts: &mut Vec<usize>, block: usize, half: usize, back: Block)
    requires blocks { AreBlocks blocks.old.items starts.old.items }
    requires within { block < length blocks.old.items }
    requires half { 0 < half }
    requires less { half < length (slice_index_or blocks.old.items block []) }
    requires back { back ≡ drop half (slice_index_or blocks.old.items block []) }
    requires room { vec_len blocks.old < vec_capacity blocks.old }
    requires start { vec_len starts.old < vec_capacity starts.old }
    requires few { length (concat blocks.old.items) < 4294967296 }
    ensures blocks { AreBlocks blocks.new.items starts.new.items }
    ensures items { concat blocks.new.items ≡ concat blocks.old.items }
    ensures some { 0 < length blocks.new.items }
{
    let start = starts[block] + half;
    let _ = starts.insert(block + 1, start);
    blocks[block].cut(half);
    let _ = blocks.insert(block + 1, back);
}

// Cuts a block in two.
fn split(
    alloc: Global,
    blocks: &mut Vec<Block>,
    starts: &mut Vec<usize>,
    block: usize,
) -> Result<(), NoMemory>
    requires blocks { AreBlocks blocks.old.items starts.old.items }
    requires within { block < length blocks.old.items }
    requires long { 1 < length (slice_index_or blocks.old.items block []) }
    requires few { length (concat blocks.old.items) < 4294967296 }
    ensures blocks { AreBlocks blocks.new.items starts.new.items }
    ensures items { concat blocks.new.items ≡ concat blocks.old.items }
    ensures some { 0 < length blocks.new.items }
{
    ready(blocks, starts)?;
    let half = blocks[block].len() / 2;
    let back = blocks[block].back(alloc, half)?;
    cut_in(blocks, starts, block, half, back);
    Ok(())
}

// The block in which a place stands, which has a place for one number more.
fn ready_block(
    alloc: Global,
    blocks: &mut Vec<Block>,
    starts: &mut Vec<usize>,
    place: usize,
) -> Result<usize, NoMemory>
    requires blocks { AreBlocks blocks.old.items starts.old.items }
    requires some { 0 < length blocks.old.items }
    requires within { place ≤ length (concat blocks.old.items) }
    requires few { length (concat blocks.old.items) < 4294967296 }
    ensures blocks { AreBlocks blocks.new.items starts.new.items }
    ensures items { concat blocks.new.items ≡ concat blocks.old.items }
    ensures stands { IfOk result (StandsIn place blocks.new.items) }
{
    let block = block_of(starts, place);
    if blocks[block].len() < MOST_IN_BLOCK {
        return Ok(block);
    }
    split(alloc, blocks, starts, block)?;
    Ok(block_of(starts, place))
}

// Puts a number into a block.
fn put_in(
    blocks: &mut Vec<Block>,
    starts: &mut Vec<usize>,
    block: usize,
    place: usize,
    number: u32,
) -> Result<(), NoMemory>
    requires blocks { AreBlocks blocks.old.items starts.old.items }
    requires stands { StandsIn place blocks.old.items block }
    requires few { length (concat blocks.old.items) < 4294967296 }
    ensures blocks { AreBlocks blocks.new.items starts.new.items }
    ensures ok { OnOk result (concat blocks.new.items ≡ insert (concat blocks.old.items) place number) }
    ensures err { OnErr result (concat blocks.new.items ≡ concat blocks.old.items) }
{
    let at = place - starts[block];
    blocks[block].insert(at, number)?;
    raise(starts, block + 1);
    Ok(())
}

// Puts a number last, into a block of its own.
fn push_block(
    alloc: Global,
    blocks: &mut Vec<Block>,
    starts: &mut Vec<usize>,
    len: usize,
    number: u32,
) -> Result<(), NoMemory>
    requires blocks { AreBlocks blocks.old.items starts.old.items }
    requires len { len ≡ length (concat blocks.old.items) }
    ensures blocks { AreBlocks blocks.new.items starts.new.items }
    ensures ok { OnOk result (concat blocks.new.items ≡ concat blocks.old.items ++ number ∷ []) }
    ensures err { OnErr result (concat blocks.new.items ≡ concat blocks.old.items) }
{
    ready(blocks, starts)?;
    let block = Block::of(alloc, &[number])?;
    blocks.push_reserved(block);
    starts.push_reserved(len);
    Ok(())
}

// Whether a number that comes last has a block of its own: numbers that come in order fill their blocks.
fn begins_block(blocks: &[Block]) -> bool
    ensures { result ≡ false → 0 < length blocks.now }
{
    match blocks.last() {
        None => true,
        Some(block) => block.len() >= MOST_IN_BLOCK,
    }
}

/// Puts a number in at a place of a list of so many. Refused, no number moves.
pub(crate) fn put(
    alloc: Global,
    blocks: &mut Vec<Block>,
    starts: &mut Vec<usize>,
    len: usize,
    place: usize,
    number: u32,
) -> Result<(), NoMemory>
    requires blocks { AreBlocks blocks.old.items starts.old.items }
    requires len { len ≡ length (concat blocks.old.items) }
    requires few { len < 4294967296 }
    requires within { place ≤ len }
    ensures blocks { AreBlocks blocks.new.items starts.new.items }
    ensures ok { OnOk result (concat blocks.new.items ≡ insert (concat blocks.old.items) place number) }
    ensures err { OnErr result (concat blocks.new.items ≡ concat blocks.old.items) }
{
    if place == len && begins_block(blocks) {
        return push_block(alloc, blocks, starts, len, number);
    }
    put_among(alloc, blocks, starts, place, number)
}

// Puts a number in at a place of a list that isn't empty.
fn put_among(
    alloc: Global,
    blocks: &mut Vec<Block>,
    starts: &mut Vec<usize>,
    place: usize,
    number: u32,
) -> Result<(), NoMemory>
    requires blocks { AreBlocks blocks.old.items starts.old.items }
    requires some { 0 < length blocks.old.items }
    requires few { length (concat blocks.old.items) < 4294967296 }
    requires within { place ≤ length (concat blocks.old.items) }
    ensures blocks { AreBlocks blocks.new.items starts.new.items }
    ensures ok { OnOk result (concat blocks.new.items ≡ insert (concat blocks.old.items) place number) }
    ensures err { OnErr result (concat blocks.new.items ≡ concat blocks.old.items) }
{
    let block = ready_block(alloc, blocks, starts, place)?;
    put_in(blocks, starts, block, place, number)
}
