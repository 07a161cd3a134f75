//! Theorems about legal histories: the floor, and confluence.

ghost use Rattle.pt_laws.specs.HistoryTheorems.{FloorOnTime, ReadOn, SettledIsLegal, KeptIsLegal, FloorHolds, NoPortTwice, StepsBounded, OutgoingOrderly, OutgoingOrderlyAfter, HistoriesBehave, Confluence, ConfluenceByActor, ConfluenceOn};

/// In every state of a legal history no event can come to a unit at or before a tag that it has claimed.
pub fn floor_of_claims()
    ensures { FloorHolds }
{}

/// In a history without a late turn no new event comes to a port that has a pending event at the same tag.
pub fn no_port_has_two_events()
    ensures { NoPortTwice }
{}

/// In a history without a late turn steps are bounded by times and levels, so sums of tags and delays stay small.
pub fn steps_are_bounded()
    ensures { StepsBounded }
{}

/// In a history without a late turn, what a platform sent on a link and still has to send is orderly for the receiver.
pub fn outgoing_lists_are_orderly()
    ensures { OutgoingOrderly }
{}

/// The claims of legal, linked and finished histories are a behaviour.
pub fn histories_are_a_behaviour()
    ensures { HistoriesBehave }
{}

/// Confluence: the claims of legal, linked and finished histories are the meaning, unit by unit, whatever the readings, the
/// number of claims per turn and the order of turns.
pub fn confluence_of_histories()
    ensures { Confluence }
{}

/// The same for actors: each claim is a part of a firing of its actor, and each input of a firing is claimed.
pub fn confluence_by_actor()
    ensures { ConfluenceByActor }
{}

/// Histories that aren't finished: on each domain on which they are settled, their claims are those of the meaning.
pub fn confluence_where_settled()
    ensures { ConfluenceOn }
{}

/// A history stays legal, with the same claims and messages, when its last two turns are joined if they can be.
pub fn settled_histories_stay_legal()
    ensures { SettledIsLegal }
{}

/// Turns that are legal one by one are a legal history as they are recorded, with the same claims and messages.
pub fn kept_turns_are_legal()
    ensures { KeptIsLegal }
{}

/// A history that is read by a clock still is after one more turn, at the clock's next reading or the greatest before.
pub fn histories_are_read_on()
    ensures { ReadOn }
{}

/// In every state of a history without a late turn no event can come to a unit at or before a tag that it has claimed.
pub fn floor_of_claims_in_time()
    ensures { FloorOnTime }
{}

/// And so it is after one turn more, though a message was late in it.
pub fn outgoing_lists_stay_orderly()
    ensures { OutgoingOrderlyAfter }
{}
