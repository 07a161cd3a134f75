//! Ranks and levels by actor.

ghost use Rattle.std.specs.Prelude.{◌≡◌, slice_index};
ghost use Rattle.pt_causality.specs.Ranked.{rank_of, level_of};

use pt_tags::List;

/// The rank and the level of each actor; 0 for a number past the last actor.
///
/// The rank of an actor is the number of edges on the longest path of no delay that ends at it. Its level is the same for
/// paths of no time. (Both are this project's own choice.)
#[derive(Drop)]
pub struct Ranks {
    pub(crate) ranks: List<u32>,
    pub(crate) levels: List<u32>,
}

/// The number of an actor in a list; 0 if it has none.
fn number_at(numbers: &[u32], actor: u32) -> u32
    ensures { result ≡ slice_index numbers.now actor }
{
    numbers.get(actor as usize).copied().unwrap_or(0)
}

impl Ranks {
    /// The rank of an actor.
    pub fn get(&self, actor: u32) -> u32
        ensures { result ≡ rank_of self.now actor }
    {
        number_at(self.ranks.as_slice(), actor)
    }

    /// The level of an actor.
    pub fn level(&self, actor: u32) -> u32
        ensures { result ≡ level_of self.now actor }
    {
        number_at(self.levels.as_slice(), actor)
    }

    /// The ranks, by actor.
    pub fn ranks(&self) -> &[u32]
        ensures { result.now ≡ self.now.ranks }
    {
        self.ranks.as_slice()
    }
}
