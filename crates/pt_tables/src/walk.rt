//! A walk through the turns of a history.

ghost use Rattle.std.specs.Prelude.{◌≡◌, ℕ, ◌+◌, ◌/◌, ◌<◌, List, Some, flat_map, length, option_map, slice_get, take};
ghost use Rattle.pt_history.specs.Levels.{AreTurnLevels};
ghost use Rattle.pt_history.specs.Turns.{turn_head};
ghost use Rattle.pt_semantics.specs.Turn.{Turn};
ghost use Rattle.pt_tables.specs.Walk.{AreThrough, IsAtTurn, IsLastBefore};

use pt_history::{Head, HeadLevels, History, Levels, TurnLevels};
use pt_types::{OnLink, RowAt};

/// What is known of a history where a walk through its turns has come to one of them.
#[derive(Clone, Copy, Debug, PartialEq, Eq)]
pub(crate) struct Walk {
    /// What is known of the 64 turns among which that turn is.
    pub levels: TurnLevels,
    /// How many results the turns before it posted.
    pub results: usize,
    /// How many tasks the turns before it claimed.
    pub claims: usize,
}

/// How many results were posted, and how many tasks were claimed, up to the end of a turn.
#[derive(Clone, Copy, Debug, PartialEq, Eq)]
pub(crate) struct Counts {
    pub results: usize,
    pub claims: usize,
}

/// Nothing is known.
const UNKNOWN: Levels = Levels { bits: 0, limit: 0 };

impl Walk {
    /// A walk at the first turn.
    pub(crate) fn new(history: &History) -> Walk
        ensures { IsAtTurn history.now.turns 0 result }
    {
        Walk {
            levels: history.levels(0),
            results: 0,
            claims: 0,
        }
    }

    /// A walk at some turn. Little is looked up, since it goes no further.
    pub(crate) fn at(history: &History, number: usize) -> Walk
        requires { number < length history.now.turns }
        ensures { IsAtTurn history.now.turns number result }
    {
        Walk {
            levels: unknown(),
            results: history.results_through(number) - history.posted(number),
            claims: history.claims_through(number) - history.claimed(number),
        }
    }
}

/// Nothing is known of any turns.
#[inline(always)]
fn unknown() -> TurnLevels
    ensures { (turns : List Turn) (block : ℕ) → AreTurnLevels turns block result }
{
    TurnLevels {
        heads: HeadLevels {
            lasts: UNKNOWN,
            runs: UNKNOWN,
        },
        posted: UNKNOWN,
        rows: UNKNOWN,
        taken: UNKNOWN,
        claimed: UNKNOWN,
        sent: UNKNOWN,
    }
}

/// Goes on with what is known of 64 turns from a turn to the next one.
#[inline(always)]
pub(crate) fn renew_levels(levels: &mut TurnLevels, history: &History, number: usize)
    requires { AreTurnLevels history.now.turns (number / 64) levels.old }
    ensures { AreTurnLevels history.now.turns ((number + 1) / 64) levels.new }
{
    if number % 64 == 63 {
        *levels = history.levels(number / 64 + 1);
    }
}

/// Goes on from a turn to the next one, where the results and claims up to its end are counted.
#[inline(always)]
pub(crate) fn pass(walk: &mut Walk, history: &History, number: usize, through: Counts)
    requires walk { IsAtTurn history.now.turns number walk.old }
    requires through { AreThrough history.now.turns number through }
    ensures { IsAtTurn history.now.turns (number + 1) walk.new }
{
    walk.results = through.results;
    walk.claims = through.claims;
    renew_levels(&mut walk.levels, history, number);
}

/// How many results and claims there are up to the end of the turn to which a walk has come.
#[inline(always)]
pub(crate) fn counts_through(walk: &Walk, history: &History, number: usize) -> Counts
    requires number { number < length history.now.turns }
    requires walk { IsAtTurn history.now.turns number walk.now }
    ensures { AreThrough history.now.turns number result }
{
    Counts {
        results: results_after(history, &walk.levels, walk.results, number),
        claims: claims_after(history, &walk.levels, walk.claims, number),
    }
}

/// The head of a turn, where `last` is the last reading of the turn before it. Most turns are single and have the reading of the
/// turn before: these aren't looked up.
#[inline(always)]
pub(crate) fn head_after(history: &History, levels: &TurnLevels, last: u64, number: usize) -> Head
    requires number { number < length history.now.turns }
    requires levels { AreTurnLevels history.now.turns (number / 64) levels.now }
    requires last { IsLastBefore history.now.turns number last }
    ensures { option_map turn_head (slice_get history.now.turns number) ≡ Some result }
{
    if number > 0 && levels.heads.is_level(number - 1) {
        return Head {
            first: last,
            last,
            count: 1,
        };
    }
    history.head(number)
}

/// The rows that entered in a turn.
#[inline(always)]
pub(crate) fn rows_in<'a>(history: &'a History, levels: &TurnLevels, number: usize) -> &'a [RowAt]
    requires number { number < length history.now.turns }
    requires levels { AreTurnLevels history.now.turns (number / 64) levels.now }
    ensures { option_map (λ turn. turn.rows) (slice_get history.now.turns number)
        ≡ Some result.now }
{
    if levels.rows.is_level(number) {
        return &[];
    }
    history.rows(number)
}

/// The messages that a turn took.
#[inline(always)]
pub(crate) fn taken_in<'a>(history: &'a History, levels: &TurnLevels, number: usize) -> &'a [OnLink]
    requires number { number < length history.now.turns }
    requires levels { AreTurnLevels history.now.turns (number / 64) levels.now }
    ensures { option_map (λ turn. turn.taken) (slice_get history.now.turns number)
        ≡ Some result.now }
{
    if levels.taken.is_level(number) {
        return &[];
    }
    history.taken(number)
}

/// The messages that were sent after a turn.
#[inline(always)]
pub(crate) fn sent_in<'a>(history: &'a History, levels: &TurnLevels, number: usize) -> &'a [OnLink]
    requires number { number < length history.now.turns }
    requires levels { AreTurnLevels history.now.turns (number / 64) levels.now }
    ensures { option_map (λ turn. turn.sent) (slice_get history.now.turns number)
        ≡ Some result.now }
{
    if levels.sent.is_level(number) {
        return &[];
    }
    history.sent(number)
}

/// How many results the turns up to one posted, where `results` counts those of the turns before it.
#[inline(always)]
pub(crate) fn results_after(
    history: &History,
    levels: &TurnLevels,
    results: usize,
    turn: usize,
) -> usize
    requires turn { turn < length history.now.turns }
    requires levels { AreTurnLevels history.now.turns (turn / 64) levels.now }
    requires results { results ≡ length
        (flat_map (λ turn. turn.posted) (take turn history.now.turns)) }
    ensures { result ≡ length (flat_map (λ turn. turn.posted) (take (turn + 1) history.now.turns)) }
{
    if levels.posted.is_level(turn) {
        return results;
    }
    history.results_through(turn)
}

/// How many tasks the turns up to one claimed, where `claims` counts those of the turns before it.
#[inline(always)]
pub(crate) fn claims_after(
    history: &History,
    levels: &TurnLevels,
    claims: usize,
    turn: usize,
) -> usize
    requires turn { turn < length history.now.turns }
    requires levels { AreTurnLevels history.now.turns (turn / 64) levels.now }
    requires claims { claims ≡ length
        (flat_map (λ turn. turn.claimed) (take turn history.now.turns)) }
    ensures { result ≡ length (flat_map (λ turn. turn.claimed)
        (take (turn + 1) history.now.turns)) }
{
    if levels.claimed.is_level(turn) {
        return claims;
    }
    history.claims_through(turn)
}
