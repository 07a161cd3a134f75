//! The row of a line.

ghost use Rattle.std.specs.Prelude.{◌≡◌, option_and_then};
ghost use Rattle.pt_sensors.specs.Numbers.{field_number, limited, negative, positive, signed};
ghost use Rattle.pt_feeds.specs.Fields.{fields, without_return};
ghost use Rattle.pt_feeds.specs.Lines.{number_in, sample_of, row_of_line};

use crate::columns::Columns;
use crate::fault::{Column, RowFault};
use crate::fields::{one, three, two, without_return};
use pt_sensors::limited;
use pt_types::MOST_TIME;

/// The latest reading that `seen` may say, in microseconds.
const MOST_SEEN: u64 = 10_000_000_000_000_000;

/// What a line says of an event: its time, in microseconds, if there is a column for it, and its value.
#[derive(Clone, Copy, Debug, PartialEq, Eq)]
pub struct Sample {
    pub time: Option<u64>,
    pub value: i64,
}

/// What a line says, given without its line feed.
///
/// Under the columns `time,value` the line `50,-7` says -7 at time 50. The line `50` has the fault `Fields`, and `x,7` has
/// `Number(Column::Time)`.
pub fn row_of_line(columns: Columns, line: &[u8]) -> Result<Sample, RowFault>
    ensures { result ≡ row_of_line columns line.now }
{
    let line = without_return(line);
    match columns {
        Columns::Value => of_value(line),
        Columns::TimeValue => of_time_value(line),
        Columns::TimeSeenValue => of_time_seen_value(line),
    }
}

fn of_value(line: &[u8]) -> Result<Sample, RowFault>
    ensures { result ≡ sample_of Columns.Value (fields line.now) }
{
    let Some(value) = one(line) else {
        return Err(RowFault::Fields);
    };
    let value = value_in(value)?;
    Ok(Sample { time: None, value })
}

fn of_time_value(line: &[u8]) -> Result<Sample, RowFault>
    ensures { result ≡ sample_of Columns.TimeValue (fields line.now) }
{
    let Some((time, value)) = two(line) else {
        return Err(RowFault::Fields);
    };
    let time = number_in(Column::Time, MOST_TIME, time)?;
    let value = value_in(value)?;
    Ok(Sample {
        time: Some(time),
        value,
    })
}

fn of_time_seen_value(line: &[u8]) -> Result<Sample, RowFault>
    ensures { result ≡ sample_of Columns.TimeSeenValue (fields line.now) }
{
    let Some((time, seen, value)) = three(line) else {
        return Err(RowFault::Fields);
    };
    let time = number_in(Column::Time, MOST_TIME, time)?;
    number_in(Column::Seen, MOST_SEEN, seen)?;
    let value = value_in(value)?;
    Ok(Sample {
        time: Some(time),
        value,
    })
}

/// The number in the field of a column, up to a limit.
fn number_in(column: Column, limit: u64, field: &[u8]) -> Result<u64, RowFault>
    ensures { result ≡ number_in column (limited limit field.now) }
{
    match limited(limit, field) {
        Some(number) => Ok(number),
        None => Err(RowFault::Number(column)),
    }
}

/// The number in the field of a value.
fn value_in(field: &[u8]) -> Result<i64, RowFault>
    ensures { result ≡ number_in Column.Value (signed field.now) }
{
    match signed(field) {
        Some(value) => Ok(value),
        None => Err(RowFault::Number(Column::Value)),
    }
}

/// A number with at most one minus sign before it, as in sensor files.
#[tactic(auto, unfolding(pt_sensors::specs::Numbers::signed))]
fn signed(field: &[u8]) -> Option<i64>
    ensures { result ≡ signed field.now }
{
    match field {
        [] => None,
        [b'-', digits @ ..] => negative(digits),
        [..] => positive(field),
    }
}

/// The number with these digits.
fn positive(digits: &[u8]) -> Option<i64>
    ensures { result ≡ option_and_then positive (field_number digits.now) }
{
    let number = limited(i64::MAX as u64, digits)?;
    Some(number as i64)
}

/// The number with these digits after a minus sign.
fn negative(digits: &[u8]) -> Option<i64>
    ensures { result ≡ option_and_then negative (field_number digits.now) }
{
    let number = limited(1 << 63, digits)?;
    if number == 1 << 63 {
        Some(i64::MIN)
    } else {
        Some(-(number as i64))
    }
}
