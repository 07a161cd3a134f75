//! Bits, 64 in a word.

ghost use Rattle.std.specs.Prelude.{◌≡◌, ◌≢◌, ◌*◌, ◌<◌, ℕ, length};
ghost use Rattle.pt_causality.specs.Before.{bit_of};

/// Sets a bit: place 66 is bit 2 of word 1.
#[inline(always)]
pub fn set_bit(words: &mut Vec<u64>, place: usize)
    requires { place < 64 * length words.old.items }
    ensures here { bit_of words.new.items place ≡ 1 }
    ensures others { (n : ℕ) → n ≢ place → bit_of words.new.items n ≡ bit_of words.old.items n }
    ensures len { length words.new.items ≡ length words.old.items }
{
    words[place / 64] |= 1 << (place % 64);
}

/// Clears a bit, by its place as in `set_bit`.
#[inline(always)]
pub fn clear_bit(words: &mut Vec<u64>, place: usize)
    requires { place < 64 * length words.old.items }
    ensures here { bit_of words.new.items place ≡ 0 }
    ensures others { (n : ℕ) → n ≢ place → bit_of words.new.items n ≡ bit_of words.old.items n }
    ensures len { length words.new.items ≡ length words.old.items }
{
    words[place / 64] &= !(1 << (place % 64));
}
