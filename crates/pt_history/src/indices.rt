//! Indices that rise by at most 1 from each to the next.

ghost use Rattle.std.specs.Prelude.{◌≡◌, ℕ, ◌/◌, ◌+◌, ◌-◌, ◌%◌, ◌^◌, ◌<◌, ◌≤◌, ◌++◌, ◌∷◌, [], OnErr, OnOk, length, max, replicate, slice_index_or, true, vec_len, vec_capacity};
ghost use Rattle.pt_history.specs.Indices.{index_in, no_block};
ghost use Rattle.pt_history.specs.Levels.{IsLevel};

use crate::levels::Levels;
use crate::pieces::widened;
use pt_tags::Memory;
use std::alloc::Global;
use std::marker::Model;

/// The number of indices in a block.
const PER_BLOCK: usize = 64;

/// 64 indices in a row.
#[derive(Clone, Copy, Debug, PartialEq, Eq)]
pub(crate) struct Block {
    /// The index before the first.
    base: u32,
    /// A bit for each index, from the lowest on: whether it is one more than the index before it.
    bits: u64,
}

/// Indices of which each is the one before it or the next, and room reserved for more. Contracts see `indices` and `spare`.
#[derive(Drop)]
pub(crate) struct Indices {
    blocks: Vec<Block>,
    /// The last block, which is not full.
    newest: Block,
    count: usize,
    /// The last index, or 0.
    last: u32,
    /// The number of indices for which there is room, with those that are there.
    limit: usize,
}

impl Model for Indices {
    ghost use Rattle.std.specs.Prelude.{◌≡◌, ◌+◌, ◌-◌, ◌<◌, ◌≤◌, ◌++◌, ◌∷◌, [], length, vec_len, vec_capacity};
    ghost use Rattle.pt_history.specs.Indices.{RoomyIndices, indices_from};
    ghost use Rattle.pt_history.specs.IndicesWhole.{AreIndices};

    ghost Value = { RoomyIndices };

    ghost view = { λ n. record {
      indices = indices_from (n.blocks.items ++ n.newest ∷ []) 0 n.count;
      spare = n.limit - n.count;
    } };

    ghost invariant = { AreIndices };
}

impl Indices {
    /// No indices and no room.
    pub fn new(alloc: Global) -> Indices
        ensures { result ≡ record { indices = []; spare = 0 } }
    {
        Indices {
            blocks: Vec::new(alloc),
            newest: Block { base: 0, bits: 0 },
            count: 0,
            last: 0,
            limit: 0,
        }
    }

    /// Reserves room for at least `more` more indices. If memory runs out, nothing changes.
    pub fn reserve(&mut self, more: usize) -> Result<(), Memory>
        ensures indices { self.new.indices ≡ self.old.indices }
        ensures room { OnOk result (self.new.spare ≡ max self.old.spare more) }
        ensures unchanged { OnErr result (self.new ≡ self.old) }
    {
        if more <= self.limit - self.count {
            return Ok(());
        }
        let Some(limit) = self.count.checked_add(more) else {
            return Err(Memory);
        };
        let full = self.blocks.len();
        let (held, wanted) = (self.limit / PER_BLOCK - full, limit / PER_BLOCK - full);
        widened(&mut self.blocks, held, wanted)?;
        self.limit = limit;
        Ok(())
    }

    /// Appends an index: the last one again, or the next. Allocates nothing.
    pub fn push(&mut self, index: u32)
        requires room { 0 < self.old.spare }
        requires low { slice_index_or self.old.indices (length self.old.indices - 1) 0 ≤ index }
        requires high { index ≤ slice_index_or self.old.indices
            (length self.old.indices - 1) 0 + 1 }
        ensures indices { self.new.indices ≡ self.old.indices ++ index ∷ [] }
        ensures room { self.new.spare + 1 ≡ self.old.spare }
    {
        if index == self.last {
            self.again();
        } else {
            self.next();
        }
    }

    /// Appends the last index again, or 0. Allocates nothing.
    #[inline(always)]
    pub fn again(&mut self)
        requires { 0 < self.old.spare }
        ensures indices { self.new.indices
            ≡ self.old.indices ++ slice_index_or self.old.indices (length self.old.indices - 1) 0 ∷
            [] }
        ensures room { self.new.spare + 1 ≡ self.old.spare }
    {
        self.count += 1;
        if self.count % PER_BLOCK == 0 {
            close_block(&mut self.blocks, &mut self.newest, self.last);
        }
    }

    /// Appends an index this many times: the last one again, or the next. Allocates nothing.
    #[inline(always)]
    pub fn push_all(&mut self, index: u32, times: usize)
        requires some { 0 < times }
        requires room { times ≤ self.old.spare }
        requires low { slice_index_or self.old.indices (length self.old.indices - 1) 0 ≤ index }
        requires high { index ≤ slice_index_or self.old.indices
            (length self.old.indices - 1) 0 + 1 }
        ensures indices { self.new.indices ≡ self.old.indices ++ replicate times index }
        ensures room { self.new.spare + times ≡ self.old.spare }
    {
        let place = self.count % PER_BLOCK;
        if times < PER_BLOCK - place && index != self.last {
            self.newest = raised(self.newest, place);
            self.last = index;
            self.count += times;
        } else {
            self.push_across(index, times);
        }
    }

    /// Does the same as `push_all`, also past the end of the newest block. Not inlined, since this is rare.
    #[inline(never)]
    fn push_across(&mut self, index: u32, times: usize)
        requires some { 0 < times }
        requires room { times ≤ self.old.spare }
        requires low { slice_index_or self.old.indices (length self.old.indices - 1) 0 ≤ index }
        requires high { index ≤ slice_index_or self.old.indices
            (length self.old.indices - 1) 0 + 1 }
        ensures indices { self.new.indices ≡ self.old.indices ++ replicate times index }
        ensures room { self.new.spare + times ≡ self.old.spare }
    {
        self.push(index);
        self.repeat(times - 1);
    }

    /// Appends the last index this many times more, or 0. Allocates nothing.
    fn repeat(&mut self, more: usize)
        requires { more ≤ self.old.spare }
        ensures indices { self.new.indices
            ≡ self.old.indices ++ replicate more
            (slice_index_or self.old.indices (length self.old.indices - 1) 0) }
        ensures room { self.new.spare + more ≡ self.old.spare }
    {
        let mut left = more;
        while left >= PER_BLOCK - self.len() % PER_BLOCK {
            left -= PER_BLOCK - self.len() % PER_BLOCK;
            self.fill();
        }
        self.stay(left);
    }

    /// Appends the last index, or 0, until the newest block is full. Allocates nothing.
    fn fill(&mut self)
        requires { 64 - length self.old.indices % 64 ≤ self.old.spare }
        ensures indices { self.new.indices
            ≡ self.old.indices ++ replicate (64 - length self.old.indices % 64)
            (slice_index_or self.old.indices (length self.old.indices - 1) 0) }
        ensures room { self.new.spare + (64 - length self.old.indices % 64) ≡ self.old.spare }
    {
        self.stay(PER_BLOCK - 1 - self.len() % PER_BLOCK);
        self.again();
    }

    /// Appends the last index this many times more, or 0, where the newest block has room for one more. Allocates nothing.
    fn stay(&mut self, more: usize)
        requires room { more ≤ self.old.spare }
        requires within { length self.old.indices % 64 + more < 64 }
        ensures indices { self.new.indices
            ≡ self.old.indices ++ replicate more
            (slice_index_or self.old.indices (length self.old.indices - 1) 0) }
        ensures room { self.new.spare + more ≡ self.old.spare }
    {
        self.count += more;
    }

    /// Appends the index after the last one, or 1. Allocates nothing.
    fn next(&mut self)
        requires room { 0 < self.old.spare }
        requires fits { slice_index_or self.old.indices (length self.old.indices - 1) 0 + 1
            < 2 ^ 32 }
        ensures indices { self.new.indices
            ≡ self.old.indices ++ (slice_index_or self.old.indices
            (length self.old.indices - 1) 0 + 1) ∷ [] }
        ensures room { self.new.spare + 1 ≡ self.old.spare }
    {
        self.newest = raised(self.newest, self.count % PER_BLOCK);
        self.last += 1;
        self.count += 1;
        if self.count % PER_BLOCK == 0 {
            close_block(&mut self.blocks, &mut self.newest, self.last);
        }
    }

    /// The number of indices.
    pub fn len(&self) -> usize
        ensures { result ≡ length self.now.indices }
    {
        self.count
    }

    /// For how many more indices there is room.
    pub fn spare(&self) -> usize
        ensures { result ≡ self.now.spare }
    {
        self.limit - self.count
    }

    /// How many indices there can be without another reservation.
    pub fn limit(&self) -> usize
        ensures { result ≡ length self.now.indices + self.now.spare }
    {
        self.limit
    }

    /// Index `number`, counted from 0.
    pub fn get(&self, number: usize) -> usize
        requires { number < length self.now.indices }
        ensures { result ≡ slice_index_or self.now.indices number 0 }
    {
        let block = block_at(self.blocks.as_slice(), self.newest, number / PER_BLOCK);
        index_in(block, number % PER_BLOCK)
    }

    /// Whether the index after index `number` is known to be the same. `false` says nothing.
    #[inline(always)]
    pub fn stays(&self, number: usize) -> bool
        requires { number + 1 < length self.now.indices }
        ensures { result ≡ true → slice_index_or self.now.indices (number + 1) 0
            ≡ slice_index_or self.now.indices number 0 }
    {
        if number % PER_BLOCK == PER_BLOCK - 1 {
            return false;
        }
        let block = block_at(self.blocks.as_slice(), self.newest, number / PER_BLOCK);
        stays_in(block, number % PER_BLOCK)
    }

    /// Which indices of a block are known to be the same as the next ones. Nothing is known of the newest block.
    pub fn levels(&self, block: usize) -> Levels
        ensures next { (n : ℕ) → n / 64 ≡ block → IsLevel result n →
            n + 1 < length self.now.indices }
        ensures same { (n : ℕ) → n / 64 ≡ block → IsLevel result n →
            slice_index_or self.now.indices (n + 1) 0 ≡ slice_index_or self.now.indices n 0 }
    {
        if block >= self.count / PER_BLOCK {
            return Levels { bits: 0, limit: 0 };
        }
        let full = block_at(self.blocks.as_slice(), self.newest, block);
        Levels {
            bits: full.bits,
            limit: PER_BLOCK * block + (PER_BLOCK - 1),
        }
    }
}

/// Appends the newest block, which is full and whose last index is `last`, and begins the next one. Allocates nothing.
#[inline(never)]
fn close_block(blocks: &mut Vec<Block>, newest: &mut Block, last: u32)
    requires { vec_len blocks.old < vec_capacity blocks.old }
    ensures blocks { blocks.new.items ≡ blocks.old.items ++ newest.old ∷ [] }
    ensures room { vec_capacity blocks.old ≤ vec_capacity blocks.new }
    ensures next { newest.new ≡ record { base = last; bits = 0 } }
{
    blocks.push_reserved(*newest);
    *newest = Block {
        base: last,
        bits: 0,
    };
}

/// A block with one more bit set, above all others.
fn raised(block: Block, number: usize) -> Block
    requires number { number < 64 }
    requires above { block.bits < 2 ^ number }
    ensures { result ≡ record block { bits = block.bits + 2 ^ number } }
{
    Block {
        base: block.base,
        bits: block.bits + (1 << number),
    }
}

/// Block `number`, counted from 0, where `newest` is the last one.
fn block_at(blocks: &[Block], newest: Block, number: usize) -> Block
    requires { number ≤ length blocks.now }
    ensures { result ≡ slice_index_or (blocks.now ++ newest ∷ []) number no_block }
{
    if number < blocks.len() {
        blocks[number]
    } else {
        newest
    }
}

/// Index `number` of a block, counted from 0.
fn index_in(block: Block, number: usize) -> usize
    requires { number < 64 }
    ensures { result ≡ index_in block number }
{
    let rises = (block.bits << (63 - number)).count_ones();
    block.base as usize + rises as usize
}

/// Whether the index after index `number` of a block is the same.
fn stays_in(block: Block, number: usize) -> bool
    requires { number < 63 }
    ensures { result ≡ true → index_in block (number + 1) ≡ index_in block number }
{
    (block.bits >> (number + 1)) % 2 == 0
}
