//! Writers as sinks: the standard output and the standard error.

ghost use Rattle.std.specs.Prelude.{◌≡◌, ◌-◌, ◌≤◌, [], None, IfOk, OnOk, OnErr, drop, is_err, IsOk, length, take, vec_capacity, vec_len};
ghost use Rattle.std.specs.Io.KnownBytes.{append_known, WriteAppends};
ghost use Rattle.pt_io.specs.Causes.{Appends, AppendsPart, Keeps, Rose, counted, counted_if};

use crate::TRIES;
use crate::sink::{PutFault, Sink};
use pt_tags::Memory;
use std::alloc::Global;
use std::io::{self, ErrorKind, Write};

/// The least capacity of the buffer, in bytes.
const ROOM: usize = 65536;

/// A buffered writer, for the standard output.
///
/// What it took are the bytes that the writer behind it was given, if that reports them, followed by the buffer. A write that
/// takes no bytes of a nonempty piece is a fault; one that a signal interrupts is tried again. Bytes that a failed write leaves
/// stay in the buffer; bytes in the buffer are lost when the sink is dropped.
#[derive(Drop)]
pub struct OutSink<W: Write + Drop> {
    out: W,
    /// The buffer: bytes that were put and are not written yet.
    held: Vec<u8>,
    faults: u64,
}

impl<W: Write + Drop> OutSink<W> {
    /// A sink that writes to `out`. All its memory is taken here.
    pub fn new(alloc: Global, out: W) -> Result<OutSink<W>, Memory>
        ensures out { IfOk result (λ s. s.out ≡ out) }
        ensures held { IfOk result (λ s. s.held.items ≡ []) }
        ensures faults { IfOk result (λ s. s.faults ≡ 0) }
    {
        let held = Vec::with_capacity(alloc, ROOM)?;
        Ok(OutSink {
            out,
            held,
            faults: 0,
        })
    }

    /// The number of calls that failed.
    pub fn faults(&self) -> u64
        ensures { result ≡ self.now.faults }
    {
        self.faults
    }

    /// Writes the buffer.
    fn write_held(&mut self) -> Result<(), PutFault>
        ensures empty { OnOk result (self.new.held.items ≡ []) }
        ensures none { OnOk result (vec_len self.new.held ≡ 0) }
        ensures capacity { vec_capacity self.new.held ≡ vec_capacity self.old.held }
        ensures bytes { Keeps (append_known (W.contents self.old.out) self.old.held.items)
            (append_known (W.contents self.new.out) self.new.held.items) }
        ensures counted { self.new.faults ≡ counted_if (is_err result) self.old.faults }
        ensures grows { self.old.faults ≤ self.new.faults }
    {
        let count = write_out(self.held.as_slice(), &mut self.out);
        remove_front(&mut self.held, count);
        if !self.held.is_empty() {
            return Err(self.failed());
        }
        Ok(())
    }

    /// Writes a piece without the buffer, which is empty.
    fn write_past(&mut self, bytes: &[u8]) -> Result<(), PutFault>
        requires { self.old.held.items ≡ [] }
        ensures held { self.new.held ≡ self.old.held }
        ensures all { OnOk result (Appends (W.contents self.old.out)
            (W.contents self.new.out) bytes.now) }
        ensures part { OnErr result (AppendsPart (W.contents self.old.out)
            (W.contents self.new.out) bytes.now) }
        ensures counted { self.new.faults ≡ counted_if (is_err result) self.old.faults }
        ensures grows { self.old.faults ≤ self.new.faults }
    {
        let count = write_out(bytes, &mut self.out);
        if count < bytes.len() {
            return Err(self.failed());
        }
        Ok(())
    }

    /// Counts a fault.
    fn failed(&mut self) -> PutFault
        ensures counted { self.new.faults ≡ counted self.old.faults }
        ensures grows { self.old.faults ≤ self.new.faults }
        ensures out { self.new.out ≡ self.old.out }
        ensures held { self.new.held ≡ self.old.held }
    {
        self.faults = self.faults.saturating_add(1);
        PutFault::Failed
    }
}

impl<W: Write + Drop> Sink for OutSink<W> {
    ghost written = { λ s. append_known (W.contents s.out) s.held.items };

    ghost faults = { λ s. s.faults };

    ghost flushed = { λ s. s.held.items ≡ [] };

    fn put(&mut self, bytes: &[u8]) -> Result<(), PutFault>
        ensures all { OnOk result (Appends
            (append_known (W.contents self.old.out) self.old.held.items)
            (append_known (W.contents self.new.out) self.new.held.items) bytes.now) }
        ensures part { OnErr result (AppendsPart
            (append_known (W.contents self.old.out) self.old.held.items)
            (append_known (W.contents self.new.out) self.new.held.items) bytes.now) }
        ensures counted { self.new.faults ≡ counted_if (is_err result) self.old.faults }
        ensures grows { self.old.faults ≤ self.new.faults }
        ensures uncounted { OnOk result (self.new.faults ≡ self.old.faults) }
        ensures failed { OnErr result (Rose self.old.faults self.new.faults) }
    {
        if self.held.capacity() - self.held.len() < bytes.len() {
            self.write_held()?;
        }
        if self.held.capacity() - self.held.len() < bytes.len() {
            return self.write_past(bytes);
        }
        self.held.extend_from_slice(bytes).unwrap();
        Ok(())
    }

    fn flush(&mut self) -> Result<(), PutFault>
        ensures all { OnOk result (self.new.held.items ≡ []) }
        ensures keeps { Keeps (append_known (W.contents self.old.out) self.old.held.items)
            (append_known (W.contents self.new.out) self.new.held.items) }
        ensures counted { self.new.faults ≡ counted_if (is_err result) self.old.faults }
        ensures grows { self.old.faults ≤ self.new.faults }
        ensures uncounted { OnOk result (self.new.faults ≡ self.old.faults) }
        ensures failed { OnErr result (Rose self.old.faults self.new.faults) }
    {
        self.write_held()
    }
}

/// The standard error, for notes to the user. It has no buffer: what it took are the bytes that the writer behind it was given,
/// if that reports them.
///
/// It is a type of its own, so that it can't be taken for the output.
#[derive(Drop)]
pub struct NotesSink<W: Write + Drop> {
    out: W,
    faults: u64,
}

impl<W: Write + Drop> NotesSink<W> {
    /// A sink that writes to `out`. It needs no memory.
    pub fn new(out: W) -> NotesSink<W>
        ensures out { result.out ≡ out }
        ensures faults { result.faults ≡ 0 }
    {
        NotesSink { out, faults: 0 }
    }

    /// The number of calls that failed.
    pub fn faults(&self) -> u64
        ensures { result ≡ self.now.faults }
    {
        self.faults
    }
}

impl<W: Write + Drop> Sink for NotesSink<W> {
    ghost written = { λ s. W.contents s.out };

    ghost faults = { λ s. s.faults };

    ghost flushed = { λ s. Unit {0} };

    fn put(&mut self, bytes: &[u8]) -> Result<(), PutFault>
        ensures all { OnOk result (Appends (W.contents self.old.out)
            (W.contents self.new.out) bytes.now) }
        ensures part { OnErr result (AppendsPart (W.contents self.old.out)
            (W.contents self.new.out) bytes.now) }
        ensures counted { self.new.faults ≡ counted_if (is_err result) self.old.faults }
        ensures grows { self.old.faults ≤ self.new.faults }
        ensures uncounted { OnOk result (self.new.faults ≡ self.old.faults) }
        ensures failed { OnErr result (Rose self.old.faults self.new.faults) }
    {
        if write_out(bytes, &mut self.out) < bytes.len() {
            self.faults = self.faults.saturating_add(1);
            return Err(PutFault::Failed);
        }
        Ok(())
    }

    fn flush(&mut self) -> Result<(), PutFault>
        ensures ok { IsOk result }
        ensures unchanged { self.new ≡ self.old }
        ensures keeps { Keeps (W.contents self.old.out) (W.contents self.new.out) }
        ensures grows { self.old.faults ≤ self.new.faults }
        ensures uncounted { OnOk result (self.new.faults ≡ self.old.faults) }
        ensures failed { OnErr result (Rose self.old.faults self.new.faults) }
    {
        Ok(())
    }
}

/// Writes bytes, and gives the number written: all, or fewer if a write failed or took none.
fn write_out<W: Write>(bytes: &[u8], out: &mut W) -> usize
    ensures within { result ≤ length bytes.now }
    ensures bytes { Appends (W.contents out.old) (W.contents out.new) (take result bytes.now) }
{
    let mut count = 0;
    while count < bytes.len() {
        match write_some(&bytes[count..], out) {
            Ok(more) if more > 0 => count += more,
            _ => return count,
        }
    }
    count
}

/// Writes a front of the bytes, and gives its length. A write that a signal interrupts is tried again.
#[tactic(auto, using(crate::proofs::Trying::written_after))]
fn write_some<W: Write>(bytes: &[u8], out: &mut W) -> io::Result<usize>
    ensures bound { IfOk result (λ count. count ≤ length bytes.now) }
    ensures bytes { WriteAppends (W.contents out.old) (W.contents out.new) result bytes.now }
{
    for _ in 0..TRIES {
        match out.write(bytes) {
            Err(error) if error.kind() == ErrorKind::Interrupted => {}
            other => return other,
        }
    }
    out.write(bytes)
}

/// Removes the first `count` bytes.
fn remove_front(held: &mut Vec<u8>, count: usize)
    requires { count ≤ vec_len held.old }
    ensures items { held.new.items ≡ drop count held.old.items }
    ensures len { vec_len held.new ≡ vec_len held.old - count }
    ensures capacity { vec_capacity held.new ≡ vec_capacity held.old }
{
    let len = held.len();
    held.as_mut_slice().copy_within(count..len, 0);
    held.truncate(len - count);
}
