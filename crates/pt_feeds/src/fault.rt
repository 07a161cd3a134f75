//! Why a line is no row.

/// A column of a line.
#[derive(Clone, Copy, Debug, PartialEq, Eq)]
pub enum Column {
    Time,
    Seen,
    Value,
}

/// Why a line is no row of its sensor. It doesn't say which line.
#[derive(Clone, Copy, Debug, PartialEq, Eq)]
pub enum RowFault {
    /// The first line is none of the heads.
    Header,
    /// The line has more than 64 bytes before its line feed.
    TooLong,
    /// The line has more or fewer fields than there are columns.
    Fields,
    /// The field of this column is not a number, or the number is out of its range.
    Number(Column),
    /// No line feed ends the line.
    NoLineFeed,
}
