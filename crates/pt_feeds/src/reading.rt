//! The reader of one sensor's file.

ghost use Rattle.std.specs.Prelude.{◌≤◌, IfOk, length};

use crate::arrivals::{Arrival, Lines};
use crate::inbox::Inbox;
use std::fs;
use std::io::{self, ErrorKind, Read};
use std::rt::Files;
use std::sync::Wait;
use std::time::Clock;

/// How many bytes are read at once, at most.
const PIECE: usize = 4096;

/// How often a read that a signal interrupts is tried before it counts as failed.
const TRIES: u32 = u32::MAX;

/// Reads a sensor's file to its end, and hands over its lines as they come; last its end, or why there are no more lines.
///
/// It is meant for a thread of its own: to open a named pipe waits for its writer, and a read waits for bytes.
pub fn read_file<R: Wait + Clock + Files>(rt: &R, path: &str, inbox: &Inbox) {
    match fs::open(rt, path) {
        Ok(mut file) => read_lines(rt, &mut file, inbox),
        Err(_) => inbox.hand_over(rt, Arrival::Failed),
    }
}

/// Reads a text to its end, and hands over its lines.
fn read_lines<R: Wait + Clock, F: Read>(rt: &R, file: &mut F, inbox: &Inbox) {
    let mut lines = Lines::new();
    let mut piece = [0u8; PIECE];
    for _ in rt.forever() {
        match read_some(file, &mut piece) {
            Ok(0) => {
                inbox.hand_over(rt, lines.end());
                return;
            }
            Ok(count) => {
                if !hand_over_lines(rt, &piece[..count], &mut lines, inbox) {
                    return;
                }
            }
            Err(_) => {
                inbox.hand_over(rt, Arrival::Failed);
                return;
            }
        }
    }
    unreachable!()
}

/// Hands over the lines that end in this piece of the text. Gives `false` after a line that is too long.
fn hand_over_lines<R: Wait + Clock>(
    rt: &R,
    piece: &[u8],
    lines: &mut Lines,
    inbox: &Inbox,
) -> bool {
    for byte in piece {
        if let Some(arrival) = lines.take(*byte) {
            let goes_on = matches!(&arrival, Arrival::Line(_));
            inbox.hand_over(rt, arrival);
            if !goes_on {
                return false;
            }
        }
    }
    true
}

/// Reads into a front of the piece, and gives its length. A read that a signal interrupts is tried again.
fn read_some<F: Read>(file: &mut F, piece: &mut [u8]) -> io::Result<usize>
    ensures { IfOk result (λ count. count ≤ length piece.new) }
{
    for _ in 0..TRIES {
        match file.read(piece) {
            Err(error) if error.kind() == ErrorKind::Interrupted => {}
            other => return other,
        }
    }
    file.read(piece)
}
