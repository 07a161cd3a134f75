//! Texts that are put line by line.

ghost use Rattle.std.specs.Prelude.{◌≡◌, ◌<◌, ◌≤◌, OnErr, OnOk, length};
ghost use Rattle.pt_io.specs.Causes.{Appends, AppendsPart, Rose};

use memchr::memchr;
use pt_io::{PutFault, Sink};

/// Puts each line of a text by itself, with its line feed. What follows the last line feed is a line too.
///
/// The lines are collected by the sink, if at all: [`pt_io::OutSink`] writes some 64 KB at a time.
pub fn put_each_line<K: Sink>(out: &mut K, text: &[u8]) -> Result<(), PutFault>
    ensures all { OnOk result (Appends (K.written out.old) (K.written out.new) text.now) }
    ensures uncounted { OnOk result (K.faults out.new ≡ K.faults out.old) }
    ensures part { OnErr result (AppendsPart (K.written out.old) (K.written out.new) text.now) }
    ensures failed { OnErr result (Rose (K.faults out.old) (K.faults out.new)) }
    ensures grows { K.faults out.old ≤ K.faults out.new }
{
    let mut rest = text;
    while !rest.is_empty() {
        let (line, more) = rest.split_at(line_len(rest));
        out.put(line)?;
        rest = more;
    }
    Ok(())
}

/// The length of the first line of a text, with its line feed; that of the text if it has none.
fn line_len(text: &[u8]) -> usize
    requires { 0 < length text.now }
    ensures some { 0 < result }
    ensures within { result ≤ length text.now }
{
    match memchr(b'\n', text) {
        Some(end) => end + 1,
        None => text.len(),
    }
}
