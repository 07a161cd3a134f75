//! The least offset of each word of units: of those of eight actors in a row, as the bits of eight actors are a word of a queue.

ghost use Rattle.std.specs.Prelude.{length, IfOk, IfSome};
ghost use Rattle.pt_offsets.specs.Words.{AreAtMostWords, IsAtMostOffset, IsAtMostOffsets};

use crate::table::Timing;
use std::alloc::{AllocError, Global};

/// The lesser of two offsets; `None` if one of them is absent.
fn lesser(a: Option<i64>, b: Option<i64>) -> Option<i64>
    ensures { IfSome result (λ o. IsAtMostOffset o a × IsAtMostOffset o b) }
{
    match (a, b) {
        (Some(x), Some(y)) => Some(x.min(y)),
        _ => None,
    }
}

/// The least of `so_far` and these offsets; `None` if one of them is absent.
fn least_among(offsets: &[Option<i64>], so_far: Option<i64>) -> Option<i64>
    ensures so_far { IfSome result (λ o. IsAtMostOffset o so_far) }
    ensures offsets { IfSome result (λ o. IsAtMostOffsets o offsets.now) }
{
    let mut least = so_far;
    for offset in offsets {
        least = lesser(least, *offset);
    }
    least
}

/// The least offset of the units of each eight actors; `None` where one of these units has no offset. Where there is no unit it
/// is the greatest number.
pub(crate) fn least_by_word(
    alloc: Global,
    timings: &[Timing],
) -> Result<Vec<Option<i64>>, AllocError>
    ensures { IfOk result (λ words. AreAtMostWords (length timings.now) timings.now words.items) }
{
    let mut words = vec![in alloc; Some(i64::MAX); timings.len() / 8 + 1]?;
    for (number, timing) in timings.iter().enumerate() {
        let word = number / 8;
        words[word] = least_among(timing.offsets.as_slice(), words[word]);
    }
    Ok(words)
}
