//! Theorems about a single turn: what it claims, and what it leaves unchanged.

ghost use Rattle.pt_laws.specs.TurnTheorems.{ClaimsApart, TurnClaims, CutClaims, SafeInTurn, SafeStays, TurnsMove, IdleBefore, QuietTurnsJoin};

/// A claim of one unit doesn't change which other units are safe.
pub fn claims_stand_apart()
    ensures { ClaimsApart }
{}

/// A turn claims the first of the units that are safe when it begins to claim, in the order of tag, actor and group.
pub fn claims_are_fronts()
    ensures { TurnClaims }
{}

/// The same if the list of safe units is cut at a number of claims.
pub fn cut_candidates_are_claims()
    ensures { CutClaims }
{}

/// A unit that is safe is still safe, with its least tag and its inputs, when a later turn begins to claim.
pub fn safe_units_stay_safe_in_a_turn()
    ensures { SafeInTurn }
{}

/// The same after any later turns, unless they claimed it.
pub fn safe_units_stay_safe()
    ensures { SafeStays }
{}

/// If every message is sent and every result posted, a turn without a late message, at the next reading or later, posts,
/// enters, claims or closes; or all claims were made before it and a unit is still safe.
pub fn turns_move()
    ensures { TurnsMove }
{}

/// Before its next reading a platform has no row that is due, no safe unit, and can't close.
pub fn idle_before_the_next_reading()
    ensures { IdleBefore }
{}

/// Two quiet turns in a row are one quiet turn at the later reading.
pub fn quiet_turns_are_joined()
    ensures { QuietTurnsJoin }
{}
