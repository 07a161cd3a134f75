//! Theorems about paced runs, and about calls of `run` and `replay`.

ghost use Rattle.pt_run.specs.Agreeing.{RunsAgree};
ghost use Rattle.pt_run.specs.CallsAgreeing.{CallsAgree};
ghost use Rattle.pt_run.specs.InBounds.{
  ReplaysInBoundsAgreeWithRuns,
  ReplaysInBoundsDoAsPaced,
};
ghost use Rattle.pt_run.specs.LawfulRuns.{
  FinishedRunsAreLawful,
  ReplaysWriteLawfulLogs,
  RunsWriteLawfulLogs,
};
ghost use Rattle.pt_run.specs.ReplaysAgreeing.{ReplayCallsAgree, ReplaysAgree};
ghost use Rattle.pt_run.specs.SlackRuns.{SlackRoundsMissNothing, SlackRunsMissNothing};
ghost use Rattle.pt_run.specs.UsualHeadline.{UsualHeadline};
ghost use Rattle.pt_run.specs.WritesTables.{WritesTables};

/// A run that ended with status 0 or 5, by whatever clock and with any number of workers, has put the tables of the meaning of the graph
/// that its file defines, over the rows that its sensors' files have: from clause `headline` of [`crate::ptides`].
pub fn writes_tables()
    ensures { WritesTables }
{}

/// A run whose words state no number of claims: its headline is of the graph that the bytes of its file define.
pub fn usual_headline()
    ensures { UsualHeadline }
{}

/// What a paced run must write and what it leaves is a function of the graph file and the files of its sensors.
pub fn runs_agree()
    ensures { RunsAgree }
{}

/// The status of a call of `run` by the paced clock or by a clock of steps, what it writes and what it leaves are a function of
/// the graph file and the files of its sensors, unless memory runs out, a read or write fails, or a platform goes by 2^64
/// readings or more from a clock of steps.
pub fn calls_agree()
    ensures { CallsAgree }
{}

/// A paced run of a graph with its least slacks misses nothing: each actuator's slack is as great as its offset asks for, and no
/// paced run sends a message past its sender's slack.
pub fn slack_runs_miss_nothing()
    ensures rounds { SlackRoundsMissNothing }
    ensures runs { SlackRunsMissNothing }
{}

/// The log of a finished run is lawful: what `run` writes with its log, if it ends without a fault, with misses or without, is the
/// tables of the meaning and then legal histories of finished platforms that took all that was sent, unless it is longer than a
/// log may be. So is the log of a finished replay.
pub fn written_logs_are_lawful()
    ensures finished { FinishedRunsAreLawful }
    ensures written { RunsWriteLawfulLogs }
    ensures replayed { ReplaysWriteLawfulLogs }
{}

/// What a replay does is a function of the graph file, the files of its sensors and the recording, late messages included: two
/// calls of `replay` that ran over the same files leave the same histories, whatever the number of workers. Both finish or are
/// stopped by the same platform; and if both end without a fault, they miss the same entries and write the same tables.
pub fn replays_agree()
    ensures replays { ReplaysAgree }
    ensures calls { ReplayCallsAgree }
{}

/// A replay whose recording breaks no stated bound does what the paced run does: no message is late, each claim is made at its
/// paced reading, and it claims what the meaning fires, all of it if it finishes. What it missed depends on the meaning and the
/// paced readings alone, and it stops only where the meaning has more firings on a platform than it may claim.
pub fn replays_in_bounds_do_as_paced()
    ensures { ReplaysInBoundsDoAsPaced }
{}

/// A replay whose recording breaks no stated bound writes the tables that a paced run over the same files writes, and misses the
/// same entries at the same readings, if both end without a fault.
pub fn replays_in_bounds_agree_with_runs()
    ensures { ReplaysInBoundsAgreeWithRuns }
{}
