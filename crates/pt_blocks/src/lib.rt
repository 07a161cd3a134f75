//! Stored functions, each with the law that it computes.
//!
//! A graph names a block. The reader of graphs puts the block's number and law into the graph. When the actor fires, the
//! stored function is called; its type guarantees the law's value, so callers need to know the law alone.
//!
//! Read first: `Block`, then `Blocks`.
#![tactic(auto)]

mod block;
mod blocks;
mod shipped;

pub use block::{Block, Function};
pub use blocks::{BlockFault, Blocks, Named};
pub use shipped::{clip100, dead5, greatest, least, shipped_blocks};
