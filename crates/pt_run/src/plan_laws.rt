//! Theorems about runs of a plan.

ghost use Rattle.pt_run.specs.RunsAgreeing.{FinishedRunsAgree, RunsAgree, StepRunsAgree};

/// What a paced run leaves is a function of the graph and the files of its sensors.
pub fn plan_runs_agree()
    ensures { RunsAgree }
{}

/// So are its text, the log included, and its misses: they do not depend on the number of workers.
pub fn finished_runs_agree()
    ensures { FinishedRunsAgree }
{}

/// The histories of a run by clocks of steps, the fault that stops it, and its text and misses if it finishes, are a function of
/// the graph, the files of its sensors and the steps, if no platform goes by 2^64 readings or more.
pub fn step_runs_agree()
    ensures { StepRunsAgree }
{}
