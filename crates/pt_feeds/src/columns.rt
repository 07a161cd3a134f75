//! The columns of a sensor's lines.

ghost use Rattle.std.specs.Prelude.{◌≡◌};
ghost use Rattle.pt_feeds.specs.Lines.{columns_of};

use crate::fault::RowFault;
use crate::fields::without_return;

/// The columns of a sensor's lines, as its first line says.
#[derive(Clone, Copy, Debug, PartialEq, Eq)]
pub enum Columns {
    /// `value`: the time of a row is the reading at which it is taken.
    Value,
    /// `time,value`
    TimeValue,
    /// `time,seen,value`, as in a sensor file. What is in `seen` is read and not used.
    TimeSeenValue,
}

/// The columns that a head says: the first line of a sensor, without its line feed.
pub fn columns_of(line: &[u8]) -> Result<Columns, RowFault>
    ensures { result ≡ columns_of line.now }
{
    let head = without_return(line);
    if head == b"value".as_slice() {
        Ok(Columns::Value)
    } else if head == b"time,value".as_slice() {
        Ok(Columns::TimeValue)
    } else if head == b"time,seen,value".as_slice() {
        Ok(Columns::TimeSeenValue)
    } else {
        Err(RowFault::Header)
    }
}
