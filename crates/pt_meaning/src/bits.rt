//! The first bit that is set, of those in words of 64.

ghost use Rattle.std.specs.Prelude.{◌≡◌, ◌≤◌, ◌^◌, ℕ, MatchOption, length};
ghost use Rattle.pt_causality.specs.Before.{bit_of};
ghost use Rattle.pt_meaning.specs.Ready.{IsFirstBit, IsFirstSet};

/// The lowest bit that is set in a word.
#[inline(always)]
fn first_bit(word: u64) -> Option<u32>
    ensures { MatchOption result (word ≡ 0) (IsFirstBit word) }
{
    if word == 0 {
        return None;
    }
    Some(word.trailing_zeros())
}

/// The lowest bit that is set.
#[inline(always)]
pub(crate) fn first_set(words: &[u64]) -> Option<usize>
    requires { length words.now ≤ 2 ^ 32 }
    ensures { MatchOption result ((n : ℕ) → bit_of words.now n ≡ 0) (IsFirstSet words.now) }
{
    for index in 0..words.len() {
        if let Some(bit) = first_bit(words[index]) {
            return Some(64 * index + bit as usize);
        }
    }
    None
}
