//! Bits, 64 in a word, and a summary of the words: a bit for each two of them, which is set if one of the two isn't 0.

ghost use Rattle.std.specs.Prelude.{◌≡◌, ◌+◌, ◌*◌, ◌/◌, ◌<◌, ◌≤◌, ℕ, true, length, slice_index_or};
ghost use Rattle.std.specs.Int.{bit_at};
ghost use Rattle.pt_causality.specs.Before.{bit_of};
ghost use Rattle.pt_queue.specs.Marks.{AreSummed, IsFirstMark, IsNextBit, IsTopBit, most_places};

/// The highest bit that is set in a word.
pub fn last_bit(word: u64) -> Option<u32>
    ensures { IsTopBit word result }
{
    if word == 0 {
        return None;
    }
    Some(63 - word.leading_zeros())
}

/// The lowest bit that is set in a word, of those from number `from` on.
#[inline(always)]
fn next_bit(word: u64, from: u32) -> Option<u32>
    requires { from < 64 }
    ensures { IsNextBit word from result }
{
    let left = word >> from;
    if left == 0 {
        return None;
    }
    Some(from + left.trailing_zeros())
}

/// The word with a number; 0 past the end.
#[inline(always)]
pub fn word_at(words: &[u64], index: usize) -> u64
    ensures { result ≡ slice_index_or words.now index 0 }
{
    words.get(index).copied().unwrap_or(0)
}

/// The summary after a word became 0.
#[inline(always)]
pub fn without_word(summary: u64, words: &[u64], index: usize) -> u64
    requires index { index < 128 }
    requires empty { slice_index_or words.now index 0 ≡ 0 }
    requires summed { AreSummed words.now summary }
    ensures { AreSummed words.now result }
{
    let pair = index / 2;
    let partner = 4 * pair + 1 - index;
    if word_at(words, partner) != 0 {
        return summary;
    }
    summary & !(1 << pair)
}

/// The first word, of those from number `index` on, that may have a bit, as far as the summary says. A number that no word has
/// if there is none.
#[inline(always)]
fn next_word(summary: u64, index: usize) -> usize
    ensures no_less { index ≤ result }
    ensures none { (n : ℕ) → index ≤ n → n < result → bit_at summary (n / 2) ≡ 0 }
{
    if index >= 128 {
        return usize::MAX;
    }
    match next_bit(summary, index as u32 / 2) {
        None => usize::MAX,
        Some(pair) => index.max(2 * pair as usize),
    }
}

/// The first bit that is set, of those in the words from number `start` on.
fn first_behind(words: &[u64], summary: u64, start: usize) -> Option<usize>
    requires summed { AreSummed words.now summary }
    requires few { 64 * length words.now ≤ 64 + most_places }
    ensures { IsFirstMark words.now (64 * start) result }
{
    let mut index = next_word(summary, start);
    while index < words.len() {
        if let Some(bit) = next_bit(words[index], 0) {
            return Some(64 * index + bit as usize);
        }
        index = next_word(summary, index + 1);
    }
    None
}

/// The first bit that is set, of those from number `from` on.
#[inline(always)]
pub fn first_from(words: &[u64], summary: u64, from: usize) -> Option<usize>
    requires summed { AreSummed words.now summary }
    requires few { 64 * length words.now ≤ 64 + most_places }
    ensures { IsFirstMark words.now from result }
{
    let index = from / 64;
    if index >= words.len() {
        return None;
    }
    if let Some(bit) = next_bit(words[index], (from % 64) as u32) {
        return Some(64 * index + bit as usize);
    }
    first_behind(words, summary, index + 1)
}

/// A number before which no word has a bit that is set.
pub fn first_word(words: &[u64], summary: u64) -> usize
    requires { AreSummed words.now summary }
    ensures { (n : ℕ) → bit_of words.now n ≡ 1 → result ≤ n / 64 }
{
    let Some(pair) = next_bit(summary, 0) else {
        return 0;
    };
    let first = 2 * pair as usize;
    if word_at(words, first) == 0 {
        return first + 1;
    }
    first
}

/// A number from which on no word has a bit that is set.
pub fn end_word(words: &[u64], summary: u64) -> usize
    requires { AreSummed words.now summary }
    ensures { (n : ℕ) → bit_of words.now n ≡ 1 → n / 64 < result }
{
    let Some(pair) = last_bit(summary) else {
        return 0;
    };
    let last = 2 * pair as usize + 1;
    if word_at(words, last) == 0 {
        return last;
    }
    last + 1
}

/// Words: from number `from` up to number `end`, without that.
#[derive(Clone, Copy)]
pub struct Span {
    pub from: usize,
    pub end: usize,
}

/// Words outside of which no bit is set.
#[inline(always)]
pub fn span_of(words: &[u64], summary: u64) -> Span
    requires { AreSummed words.now summary }
    ensures { (n : ℕ) → bit_of words.now n ≡ 1 → (result.from ≤ n / 64) × (n / 64 < result.end) }
{
    Span {
        from: first_word(words, summary),
        end: end_word(words, summary),
    }
}

/// Whether this bit is set and no other.
#[inline(always)]
pub fn is_only(words: &[u64], summary: u64, place: usize) -> bool
    requires { AreSummed words.now summary }
    ensures { result ≡ true → (n : ℕ) → bit_of words.now n ≡ 1 → n ≡ place }
{
    let index = place / 64;
    let word = word_at(words, index);
    let own = 1u64 << (place % 64);
    if word != own {
        return false;
    }
    let span = span_of(words, summary);
    if span.from < index {
        return false;
    }
    span.end == index + 1
}
