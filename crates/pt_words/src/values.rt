//! The values of options.

ghost use Rattle.std.specs.Prelude.{◌≡◌, ◌≤◌, IfSome};
ghost use Rattle.std.specs.Char.{is_ascii_digit};
ghost use Rattle.std.specs.List.{after_first, before_first, list_all};
ghost use Rattle.pt_words.specs.Grammar.{claims_of, clock_of, is_colon, is_numeral, made_number_of, number_within, step_clock_of, workers_of};

use crate::orders::ClockChoice;

/// The greatest START and STEP of a clock, in microseconds.
const LATEST: u64 = 1_000_000_000_000_000;

/// The number of claims that a platform may make unless the words state another.
pub(crate) const USUAL_CLAIMS: u64 = 200_000;

/// The greatest number of claims that the words may state.
const GREATEST_CLAIMS: u64 = 100_000_000;

/// Whether a word is a decimal number: digits without a sign, and without a leading zero unless it is `0`.
fn is_numeral(word: &str) -> bool
    ensures { result ≡ is_numeral word.now }
{
    let bytes = word.as_bytes();
    match bytes {
        [] => false,
        [only] => only.is_ascii_digit(),
        [first, ..] => *first != b'0' && are_digits(bytes),
    }
}

/// Whether all bytes are decimal digits.
fn are_digits(bytes: &[u8]) -> bool
    ensures { result ≡ list_all is_ascii_digit bytes.now }
{
    bytes.iter().all(|byte| byte.is_ascii_digit())
}

/// The number that a word writes in decimal digits, if it is from `low` to `high`.
#[tactic(auto, unfolding(crate::specs::Grammar::number_within))]
fn number_within(low: u64, high: u64, word: &str) -> Option<u64>
    ensures number { result ≡ number_within low high word.now }
    ensures most { IfSome result (λ number. number ≤ high) }
{
    if !is_numeral(word) {
        return None;
    }
    let Ok(number) = word.parse::<u64>() else {
        return None;
    };
    if low <= number && number <= high {
        Some(number)
    } else {
        None
    }
}

/// The number of workers that a value names: 1 to 64.
#[tactic(auto, unfolding(crate::specs::Grammar::workers_of))]
pub(crate) fn workers_of(value: &str) -> Option<u32>
    ensures { result ≡ workers_of value.now }
{
    match number_within(1, 64, value) {
        Some(number) => Some(number as u32),
        None => None,
    }
}

/// The number of claims that a platform may make: 200,000 to 100,000,000.
#[tactic(auto, unfolding(crate::specs::Grammar::claims_of))]
pub(crate) fn claims_of(value: &str) -> Option<u64>
    ensures { result ≡ claims_of value.now }
{
    number_within(USUAL_CLAIMS, GREATEST_CLAIMS, value)
}

/// The number to make an input from: 1 to 100.
#[tactic(auto, unfolding(crate::specs::Grammar::made_number_of))]
pub(crate) fn made_number_of(word: &str) -> Option<u32>
    ensures { result ≡ made_number_of word.now }
{
    match number_within(1, 100, word) {
        Some(number) => Some(number as u32),
        None => None,
    }
}

/// The clock that a value names: `paced`, `machine` or `step:START:STEP`.
pub(crate) fn clock_of(value: &str) -> Option<ClockChoice>
    ensures { result ≡ clock_of value.now }
{
    match value {
        "paced" => Some(ClockChoice::Paced),
        "machine" => Some(ClockChoice::Machine),
        _ => match halves(value) {
            ("step", numbers) => step_clock_of(numbers),
            _ => None,
        },
    }
}

/// The clock that `START:STEP` names, in microseconds: START from 0 to 10^15, and STEP from 1.
#[tactic(auto, unfolding(crate::specs::Grammar::step_clock_of))]
fn step_clock_of(numbers: &str) -> Option<ClockChoice>
    ensures { result ≡ step_clock_of numbers.now }
{
    let (start, step) = halves(numbers);
    let start = number_within(0, LATEST, start)?;
    let step = number_within(1, LATEST, step)?;
    Some(ClockChoice::Step { start, step })
}

/// What is before the first `:`, and what is after it; without a `:`, the whole and nothing.
fn halves(value: &str) -> (&str, &str)
    ensures before { result.0.now ≡ before_first is_colon value.now }
    ensures after { result.1.now ≡ after_first is_colon value.now }
{
    value.split_once(':').unwrap_or((value, ""))
}
