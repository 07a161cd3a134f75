//! Why 64 bits hold the tags that results send.

ghost use Rattle.pt_turn.specs.Posts.Posted.{OpenClaimsFit};

/// Proves that the tags sent for open claims fit in 64 bits, in every state that a history without a late turn leads to: a
/// tag's time is at most the horizon, its step is bounded by its time, and a wire adds little.
pub fn open_claims_fit()
    ensures { OpenClaimsFit }
{}
