//! The summary of a run over a made input.

ghost use Rattle.std.specs.Prelude.{◌≡◌, ◌≤◌, ◌++◌, IfOk, OnOk, length, slice_get, string_bytes, codes};
ghost use Rattle.std.specs.Fmt.{decimal};
ghost use Rattle.pt_make.specs.Summary as text;

use crate::graphs::row_count;
use pt_meaning::Firings;
use pt_tags::Tag;
use pt_types::ActorFiring;
use std::alloc::{AllocError, Global};

/// The number of the actuator `out`.
const OUT: u32 = 17;

/// The summary of a run over the input made from `number`, given all its firings and the number of its misses: six lines, the
/// first `make 7` for number 7, and the last `missed 0` if nothing was missed.
pub fn summary(
    alloc: Global,
    number: u32,
    firings: &Firings,
    missed: usize,
) -> Result<String, AllocError>
    requires { number ≤ 100 }
    ensures { IfOk result (λ summary.
        string_bytes summary ≡ text.summary number firings.now missed) }
{
    let (count, last) = count_actuations(firings);
    let mut summary = String::new(alloc);
    push_line(&mut summary, "make ", number as u64)?;
    push_line(&mut summary, "rows ", 4 * row_count(number))?;
    push_line(&mut summary, "firings ", firings.len() as u64)?;
    push_line(&mut summary, "actuations ", count as u64)?;
    push_last(&mut summary, last)?;
    push_line(&mut summary, "missed ", missed as u64)?;
    Ok(summary)
}

/// Appends a line: a word, which ends with a space, and a number.
fn push_line(summary: &mut String, word: &str, value: u64) -> Result<(), AllocError>
    ensures { OnOk result (string_bytes summary.new
        ≡ string_bytes summary.old ++ text.summary_line word.now (decimal value)) }
{
    write!(summary, "{word}{value}\n")
}

/// Appends the line of the last firing of `out`.
fn push_last(summary: &mut String, firing: Option<ActorFiring>) -> Result<(), AllocError>
    ensures { OnOk result (string_bytes summary.new
        ≡ string_bytes summary.old ++ text.summary_line (codes "last out ")
        (text.firing_text firing)) }
{
    let Some(firing) = firing else {
        return summary.push_str("last out -\n");
    };
    let Tag { time, step } = firing.tag;
    let value = firing.inputs.get(0).unwrap_or(0);
    write!(summary, "last out {time}.{step} {value}\n")
}

/// How often `out` fired, and its last firing.
fn count_actuations(firings: &Firings) -> (usize, Option<ActorFiring>)
    ensures count { result.0 ≡ length (text.actuations firings.now) }
    ensures last { result.1 ≡ text.last_firing (text.actuations firings.now) }
{
    let mut count = 0;
    let mut last = None;
    for number in 0..firings.len() {
        if let Some(firing) = actuation(firings, number) {
            count += 1;
            last = Some(firing);
        }
    }
    (count, last)
}

/// Firing `number`, if it is one of `out`.
fn actuation(firings: &Firings, number: usize) -> Option<ActorFiring>
    ensures { result ≡ text.if_out (slice_get firings.now number) }
{
    let actor = firings.actor(number)?;
    if actor == OUT {
        firings.get(number)
    } else {
        None
    }
}
