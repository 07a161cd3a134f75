//! Theorems about logs.

ghost use Rattle.pt_audit.specs.Theorems.{FineLogsAreLawful, LawfulLogsAreFine, PrintedLogsAreLawful, VerdictsAreOne};

/// Of any bytes at most one verdict is right.
pub fn verdicts_are_one()
    ensures { VerdictsAreOne }
{}

/// A lawful log is fine, and its head is the tables.
pub fn lawful_logs_are_fine()
    ensures { LawfulLogsAreFine }
{}

/// A file that is fine and whose head is the tables is a lawful log.
pub fn fine_logs_are_lawful()
    ensures { FineLogsAreLawful }
{}

/// The tables of the meaning and the log of finished platforms are a lawful log.
pub fn printed_logs_are_lawful()
    ensures { PrintedLogsAreLawful }
{}
