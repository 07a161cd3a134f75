//! The rows of a text.

ghost use Rattle.std.specs.Prelude.{◌≡◌, [], Some, None, IfOk, option_map};
ghost use Rattle.csv.specs.Reading.{reader_state, strip_bom};
ghost use Rattle.csv.specs.Records.{fields_of};
ghost use Rattle.csv.specs.declared.parser.State.TheVariants.{StartRecord};
ghost use Rattle.pt_sensors.specs.Order.{RowsAreInOrder};
ghost use Rattle.pt_sensors.specs.Rows.{IsPlain, Finds, bytes_left, three, cells, are_titles, is_header, numbers_of, order_fault, row_of};
ghost use Rattle.pt_sensors.specs.RowsOf.{next, rows_from, rows_of, GivesRows};

use crate::fault::RowFault;
use crate::limits::FileLimits;
use crate::numbers::{limited, signed};
use csv::{ByteRecord, Reader, ReaderBuilder};
use pt_tags::{List, Memory};
use pt_types::{MOST_TIME, Row};
use std::alloc::Global;

/// The latest reading at which a row may be seen, in microseconds.
const MOST_SEEN: u64 = 10_000_000_000_000_000;

/// The fewest bytes that a row takes: `1,1,1` and the end of its line.
const LEAST_BYTES: usize = 6;

/// Room for the bytes of a usual record, so that csv reads it in one step.
const LINE_BYTES: usize = 128;

/// The rows of a sensor file within these limits, or its first fault.
///
/// Faults are looked for in the order in which `RowFault` lists them: first those of the file and its header,
/// then row by row. Times are whole microseconds. (The format is this project's own choice.)
///
/// The lines `time,seen,value`, `50,55,7` and `60,60,8` give two rows: 7 at time 50, seen at reading 55, and 8 at time 60, seen
/// at reading 60. If the second is `60,59,8` the fault is `SeenEarly(2)`: no row is seen before its time.
pub fn read_rows(alloc: Global, limits: FileLimits, bytes: &[u8]) -> Result<List<Row>, RowFault>
    ensures rows { GivesRows (rows_of limits bytes.now) result }
    ensures order { IfOk result (RowsAreInOrder limits) }
{
    read(alloc, limits, bytes)
}

/// The rows of a sensor file, or its first fault, from the records that csv reads.
#[tactic(auto, unfolding(crate::specs::RowsOf::rows_of))]
fn read(alloc: Global, limits: FileLimits, bytes: &[u8]) -> Result<List<Row>, RowFault>
    ensures { GivesRows (rows_of limits bytes.now) result }
{
    if bytes.len() > limits.bytes {
        return Err(RowFault::TooLong);
    }
    let mut reader = reader_of(alloc, bytes);
    let mut line = ByteRecord::with_capacity(alloc, LINE_BYTES, 4)?;
    if advance(&mut reader, &mut line)? && is_header(&line) {
        let room = room_for(alloc, limits.rows, bytes.len());
        rows(limits.rows, room, &mut reader, &mut line)
    } else {
        Err(RowFault::Header)
    }
}

/// A csv reader of a text. Its first record counts as any other, and records may differ in their number of fields.
pub fn reader_of(alloc: Global, bytes: &[u8]) -> Reader<&[u8]>
    ensures plain { IsPlain (λ r. Some r.now) result }
    ensures state { reader_state result ≡ StartRecord }
    ensures left { bytes_left (λ r. Some r.now) result ≡ strip_bom bytes.now }
{
    ReaderBuilder::new()
        .has_headers(false)
        .flexible(true)
        .from_reader(alloc, bytes)
}

/// Reads the next record, if there is one.
pub fn advance(reader: &mut Reader<&[u8]>, line: &mut ByteRecord) -> Result<bool, Memory>
    requires { IsPlain (λ r. Some r.now) reader.old }
    ensures { IfOk result (λ found. Finds (λ r. Some r.now)
        (next (reader_state reader.old) (bytes_left (λ r. Some r.now) reader.old)) found reader.new
        (fields_of line.new)) }
{
    reader.read_byte_record(line).map_err(|_| Memory)
}

/// A list with room for all rows, at most `most`, of a text of this number of bytes, so that it never has to move; without room if
/// memory for that is refused. Most of the room may never be used, and then it costs nothing.
fn room_for(alloc: Global, most: u32, bytes: usize) -> Vec<Row>
    ensures { result.items ≡ [] }
{
    let room = (bytes / LEAST_BYTES + 1).min(most as usize);
    match Vec::with_capacity(alloc, room) {
        Ok(rows) => rows,
        Err(_) => Vec::new(alloc),
    }
}

/// The rows that follow, at most `most`, in a list that has none yet; the header was read.
fn rows(
    most: u32,
    room: Vec<Row>,
    reader: &mut Reader<&[u8]>,
    line: &mut ByteRecord,
) -> Result<List<Row>, RowFault>
    requires plain { IsPlain (λ r. Some r.now) reader.old }
    requires empty { room.items ≡ [] }
    ensures { GivesRows (rows_from most 1 None (reader_state reader.old)
        (bytes_left (λ r. Some r.now) reader.old)) result }
{
    let mut rows = room;
    let mut before = None;
    for index in 0..most {
        let found = advance(reader, line)?;
        if !found {
            return Ok(List::new(rows));
        }
        let row = row(index + 1, before, line)?;
        if rows.push(row).is_err() {
            return Err(RowFault::Memory);
        }
        before = Some(row);
    }
    let found = advance(reader, line)?;
    if found {
        Err(RowFault::TooManyRows)
    } else {
        Ok(List::new(rows))
    }
}

/// The row of a record, or its first fault.
#[tactic(auto, unfolding(crate::specs::Rows::row_of))]
fn row(number: u32, before: Option<Row>, line: &ByteRecord) -> Result<Row, RowFault>
    ensures { result ≡ row_of number before (fields_of line.now) }
{
    let Some(cells) = cells(line) else {
        return Err(RowFault::Fields(number));
    };
    let Some(row) = numbers(cells) else {
        return Err(RowFault::Number(number));
    };
    match order_fault(number, before, row) {
        Some(fault) => Err(fault),
        None => Ok(row),
    }
}

/// The three fields of a record, if it has three.
#[tactic(auto, unfolding(crate::specs::Rows::cells))]
pub fn cells(line: &ByteRecord) -> Option<(&[u8], &[u8], &[u8])>
    ensures { option_map (λ c. (c.0.now, c.1.now, c.2.now)) result ≡ cells (fields_of line.now) }
{
    if line.len() == 3 {
        three(line.get(0), line.get(1), line.get(2))
    } else {
        None
    }
}

fn three<'a>(
    time: Option<&'a [u8]>,
    seen: Option<&'a [u8]>,
    value: Option<&'a [u8]>,
) -> Option<(&'a [u8], &'a [u8], &'a [u8])>
    ensures { option_map (λ c. (c.0.now, c.1.now, c.2.now)) result
        ≡ three (option_map (λ f. f.now) time.entry) (option_map (λ f. f.now) seen.entry)
        (option_map (λ f. f.now) value.entry) }
{
    match (time, seen, value) {
        (Some(time), Some(seen), Some(value)) => Some((time, seen, value)),
        _ => None,
    }
}

#[tactic(auto, unfolding(crate::specs::Rows::numbers_of))]
fn numbers(cells: (&[u8], &[u8], &[u8])) -> Option<Row>
    ensures { result ≡ numbers_of (cells.entry.0.now, cells.entry.1.now, cells.entry.2.now) }
{
    let time = limited(MOST_TIME, cells.0)?;
    let seen = limited(MOST_SEEN, cells.1)?;
    let value = signed(cells.2)?;
    Some(Row { time, seen, value })
}

fn order_fault(number: u32, before: Option<Row>, row: Row) -> Option<RowFault>
    ensures { result ≡ order_fault number before row }
{
    if let Some(before) = before {
        if row.time <= before.time {
            return Some(RowFault::TimeOrder(number));
        }
        if row.seen < before.seen {
            return Some(RowFault::SeenOrder(number));
        }
    }
    if row.seen < row.time {
        Some(RowFault::SeenEarly(number))
    } else {
        None
    }
}

/// Whether a record is the header.
fn is_header(line: &ByteRecord) -> bool
    ensures { result ≡ is_header (fields_of line.now) }
{
    match cells(line) {
        Some(cells) => are_titles(cells),
        None => false,
    }
}

fn are_titles(cells: (&[u8], &[u8], &[u8])) -> bool
    ensures { result ≡ are_titles (cells.entry.0.now, cells.entry.1.now, cells.entry.2.now) }
{
    cells.0 == b"time".as_slice() && cells.1 == b"seen".as_slice() && cells.2 == b"value".as_slice()
}
