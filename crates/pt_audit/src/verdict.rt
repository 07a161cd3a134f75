//! What a file is found to be.

/// What a file is found to be: a lawful log, or why it is none.
#[derive(Clone, Copy, Debug, PartialEq, Eq)]
pub enum Verdict {
    /// The file has more bytes than its limit allows.
    TooLong,
    /// No line is `log`.
    NoLog,
    /// The lines from this one on, counted from 1 in the file, are no turn that may follow those before.
    Turn { line: u64 },
    /// This is the first platform, by number, that is not finished after the turns of the log.
    Unfinished { platform: u32 },
    /// This is the first link, by number, whose receiver did not take all that its sender sent.
    Unlinked { link: u32 },
    /// The lines before `log` are not the tables of the meaning. `verify` does not compare them: its caller may say so.
    Table,
    /// None of these.
    Fine,
}
