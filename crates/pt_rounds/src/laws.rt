//! A theorem about paced runs.

ghost use Rattle.pt_rounds.specs.Agreeing.{PacedRunsAgree};

/// The outcome of paced rounds is a function of the graph and its rows.
pub fn paced_runs_agree()
    ensures { PacedRunsAgree }
{}
