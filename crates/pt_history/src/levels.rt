//! Which neighbours of a list are equal.

ghost use Rattle.std.specs.Prelude.{◌≡◌, true};
ghost use Rattle.pt_history.specs.Levels.{IsLevel, IsLevelHead};

/// For 64 items of a list in a row, whether each is known to be the same as the one after it. To look at these bits is
/// cheaper than to ask a list about each item.
#[derive(Clone, Copy, Debug, PartialEq, Eq)]
pub struct Levels {
    /// A bit for each item, from the lowest on: whether it is another one than the item before it.
    pub bits: u64,
    /// Nothing is known of items from this number on.
    pub limit: usize,
}

impl Levels {
    /// Whether item `number` is known to be the same as the one after it. `false` says nothing.
    #[inline(always)]
    pub fn is_level(self, number: usize) -> bool
        ensures { result ≡ true → IsLevel self number }
    {
        number < self.limit && (self.bits >> (number % 64)) / 2 % 2 == 0
    }
}

/// For 64 heads in a row, what is known of each and the next one.
#[derive(Clone, Copy, Debug, PartialEq, Eq)]
pub struct HeadLevels {
    /// Which last readings are the same as the next ones.
    pub lasts: Levels,
    /// Which heads are those of single turns.
    pub runs: Levels,
}

impl HeadLevels {
    /// Whether the head after head `number` is known to be that of a single turn at the last reading of head `number`. `false`
    /// says nothing.
    #[inline(always)]
    pub fn is_level(self, number: usize) -> bool
        ensures { result ≡ true → IsLevelHead self number }
    {
        number % 64 < 63 && self.lasts.is_level(number) && self.runs.is_level(number + 1)
    }
}

/// For 64 recorded turns in a row, what is known of their heads, and which of their lists are known to be empty.
#[derive(Clone, Copy, Debug, PartialEq, Eq)]
pub struct TurnLevels {
    pub heads: HeadLevels,
    pub posted: Levels,
    pub rows: Levels,
    pub taken: Levels,
    pub claimed: Levels,
    pub sent: Levels,
}
