//! The blocks that graphs may use.

ghost use Rattle.std.specs.Prelude.{◌≡◌, ◌≤◌, map};
ghost use Rattle.pt_blocks.specs.Blocks.{AreBlocks};

use crate::block::{Block, Function, Stored};
use pt_formula::Step;
use pt_tags::{List, Memory, Name};
use pt_types::Law;
use std::alloc::Global;
use thiserror::Error;

const MOST_BLOCKS: usize = 64;

/// Why a block was not added.
#[derive(Clone, Copy, Debug, PartialEq, Eq, Error)]
pub enum BlockFault {
    /// Out of memory.
    #[error("memory")]
    Memory,
    /// There is a block with that name.
    #[error("there is a block with that name")]
    Repeated,
    /// There are 64 blocks, and none has that name.
    #[error("there are {most} blocks", most = MOST_BLOCKS)]
    Full,
}

/// A block as contracts see it: its name and its law.
#[derive(Drop)]
pub struct Named {
    pub name: Name,
    pub law: Law,
}

/// At most 64 blocks, numbered from 0. Contracts see the list of their names and laws, `listed`.
#[derive(Drop)]
pub struct Blocks {
    alloc: Global,
    listed: Vec<Named>,
    stored: Vec<Stored>,
    ghost blocks: { AreBlocks listed.items },
    ghost laws: { map (λ s. s.law) stored.items ≡ map (λ b. b.law) listed.items },
}

impl Blocks {
    ghost use Rattle.std.specs.Prelude.{◌≡◌, ◌++◌, ◌∷◌, [], ◌<◌, ◌≤◌, length, IfSome, Some, OnOk, OnErr, MatchBool, option_map, true};
    ghost use Rattle.pt_types.specs.Kinds.{law_in_range};
    ghost use Rattle.pt_blocks.specs.Blocks.{find_block, has_block, law_at, name_at, AreBlocks, RefusesBlock, named};

    /// No blocks.
    pub fn new(alloc: Global) -> Blocks
        ensures { result.listed.items ≡ [] }
    {
        Blocks {
            alloc,
            listed: Vec::new(alloc),
            stored: Vec::new(alloc),
        }
    }

    /// The number of the block with this name; `None` if there is none.
    pub fn find(&self, name: &str) -> Option<u32>
        ensures number { result ≡ find_block self.now.listed.items name.now }
        ensures blocks { AreBlocks self.now.listed.items }
    {
        match self.index(name) {
            Some(number) => Some(number as u32),
            None => None,
        }
    }

    fn index(&self, name: &str) -> Option<usize>
        ensures number { result ≡ find_block self.now.listed.items name.now }
        ensures blocks { AreBlocks self.now.listed.items }
    {
        let listed = self.listed.as_slice();
        listed.iter().position(|b| b.name.as_str() == name)
    }

    /// The law of the block with this number; `None` if there is none.
    pub fn law(&self, number: u32) -> Option<&Law>
        ensures { option_map (λ law. law.now) result ≡ law_at self.now.listed.items number }
    {
        self.listed
            .as_slice()
            .get(number as usize)
            .map(|block| &block.law)
    }

    /// The name of the block with this number; `None` if there is none.
    pub fn name(&self, number: u32) -> Option<&str>
        ensures { option_map (λ s. s.now) result ≡ name_at self.now.listed.items number }
    {
        self.listed
            .as_slice()
            .get(number as usize)
            .map(|block| block.name.as_str())
    }

    /// The names and laws of all blocks, in the order of their numbers.
    pub fn listed(&self) -> &[Named]
        ensures list { result.now ≡ self.now.listed.items }
        ensures blocks { AreBlocks self.now.listed.items }
    {
        self.listed.as_slice()
    }

    /// The number of blocks.
    pub fn len(&self) -> usize
        ensures len { result ≡ length self.now.listed.items }
        ensures blocks { AreBlocks self.now.listed.items }
    {
        self.listed.as_slice().len()
    }

    /// The stored function of the block with this number, which computes the block's law; `None` if there is none, as for a formula.
    pub fn get(&self, number: u32) -> Option<&Function>
        ensures { IfSome result (λ f. Some f.now.law ≡ law_at self.now.listed.items number) }
    {
        match self.stored_at(number) {
            Some(stored) => stored.function(),
            None => None,
        }
    }

    fn stored_at(&self, number: u32) -> Option<&Stored>
        ensures law { option_map (λ s. s.now.law) result ≡ law_at self.now.listed.items number }
    {
        self.stored.as_slice().get(number as usize)
    }

    /// Adds a block; it gets the next number: the first has 0, and with five shipped blocks the next has 5. After a fault the
    /// names and laws are unchanged.
    pub fn add(&mut self, block: Block) -> Result<(), BlockFault>
        ensures added { OnOk result (self.new.listed.items
            ≡ self.old.listed.items ++ named block.name block.function.law ∷ []) }
        ensures unchanged { OnErr result (self.new.listed.items ≡ self.old.listed.items) }
        ensures fault { RefusesBlock self.old.listed.items block.name result }
    {
        if self.has(block.name.as_str()) {
            return Err(BlockFault::Repeated);
        }
        if self.is_full() {
            return Err(BlockFault::Full);
        }
        match self.keep_function(block) {
            Ok(()) => Ok(()),
            Err(_) => Err(BlockFault::Memory),
        }
    }

    /// Adds a block with this formula, as `add`.
    pub fn add_formula(&mut self, name: Name, steps: List<Step>) -> Result<(), BlockFault>
        requires { length steps ≤ 64 }
        ensures added { OnOk result (self.new.listed.items
            ≡ self.old.listed.items ++ named name (Law.Formula steps) ∷ []) }
        ensures unchanged { OnErr result (self.new.listed.items ≡ self.old.listed.items) }
        ensures fault { RefusesBlock self.old.listed.items name result }
    {
        if self.has(name.as_str()) {
            return Err(BlockFault::Repeated);
        }
        if self.is_full() {
            return Err(BlockFault::Full);
        }
        match self.keep_formula(name, steps) {
            Ok(()) => Ok(()),
            Err(_) => Err(BlockFault::Memory),
        }
    }

    fn has(&self, name: &str) -> bool
        ensures { result ≡ has_block self.now.listed.items name.now }
    {
        let listed = self.listed.as_slice();
        listed.iter().any(|b| b.name.as_str() == name)
    }

    fn is_full(&self) -> bool
        ensures { MatchBool result (length self.now.listed.items ≡ 64)
            (length self.now.listed.items < 64) }
    {
        self.listed.as_slice().len() >= MOST_BLOCKS
    }

    fn keep_function(&mut self, block: Block) -> Result<(), Memory>
        requires { length self.old.listed.items < 64 }
        ensures added { OnOk result (self.new.listed.items
            ≡ self.old.listed.items ++ named block.name block.function.law ∷ []) }
        ensures unchanged { OnErr result (self.new.listed.items ≡ self.old.listed.items) }
    {
        let Block { name, function } = block;
        let law = function.law().copy(self.alloc)?;
        let kept = function.law().copy(self.alloc)?;
        self.keep(Named { name, law }, Stored::native(function, kept))
    }

    fn keep_formula(&mut self, name: Name, steps: List<Step>) -> Result<(), Memory>
        requires room { length self.old.listed.items < 64 }
        requires steps { length steps ≤ 64 }
        ensures added { OnOk result (self.new.listed.items
            ≡ self.old.listed.items ++ named name (Law.Formula steps) ∷ []) }
        ensures unchanged { OnErr result (self.new.listed.items ≡ self.old.listed.items) }
    {
        let law = Law::Formula(steps);
        let kept = law.copy(self.alloc)?;
        self.keep(Named { name, law }, Stored::alone(kept))
    }

    fn keep(&mut self, block: Named, stored: Stored) -> Result<(), Memory>
        requires room { length self.old.listed.items < 64 }
        requires law { stored.law ≡ block.law }
        requires in_range { law_in_range block.law ≡ true }
        ensures added { OnOk result (self.new.listed.items ≡ self.old.listed.items ++ block ∷ []) }
        ensures unchanged { OnErr result (self.new.listed.items ≡ self.old.listed.items) }
    {
        if self.stored.push(stored).is_err() {
            return Err(Memory);
        }
        match self.listed.push(block) {
            Ok(()) => Ok(()),
            Err(_) => {
                let _dropped = self.stored.pop();
                Err(Memory)
            }
        }
    }
}
