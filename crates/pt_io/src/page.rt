//! A sink in memory.

ghost use Rattle.std.specs.Prelude.{◌≡◌, ◌+◌, ◌-◌, ◌≤◌, ◌++◌, length, Some, [], take, IfOk, OnOk, OnErr, IsErr, IsOk, ◌↔◌, IsTrue, vec_len, vec_capacity};
ghost use Rattle.pt_io.specs.Causes.{Rose, Appends, AppendsPart, Keeps, counted, counted_if};
ghost use Rattle.pt_io.specs.Rooms.{limit, refuses, taken};

use crate::sink::{PutFault, Sink};
use pt_tags::Memory;
use std::alloc::Global;

/// A sink in memory. It has room for a fixed number of bytes, and the calls of given numbers, from 0, fail.
#[derive(Drop)]
pub struct Page {
    bytes: Vec<u8>,
    room: usize,
    /// The number of a call that fails, and the most bytes that this call takes.
    failing: Vec<(u64, usize)>,
    calls: u64,
    faults: u64,
    ghost fits: { vec_len bytes + room ≤ vec_capacity bytes },
}

impl Page {
    /// An empty page with room for `room` bytes. Each entry of `failing` is the number of a call that
    /// fails, and the most bytes that it takes. All memory is taken here, none by a put.
    pub fn new(alloc: Global, room: usize, failing: Vec<(u64, usize)>) -> Result<Page, Memory>
        ensures empty { IfOk result (λ p. p.bytes.items ≡ []) }
        ensures room { IfOk result (λ p. p.room ≡ room) }
        ensures failing { IfOk result (λ p. p.failing ≡ failing) }
        ensures calls { IfOk result (λ p. p.calls ≡ 0) }
        ensures faults { IfOk result (λ p. p.faults ≡ 0) }
    {
        let bytes = Vec::with_capacity(alloc, room)?;
        Ok(Page {
            bytes,
            room,
            failing,
            calls: 0,
            faults: 0,
        })
    }

    /// The bytes so far.
    pub fn bytes(&self) -> &[u8]
        ensures { result.now ≡ self.now.bytes.items }
    {
        self.bytes.as_slice()
    }

    /// The number of calls that failed.
    pub fn faults(&self) -> u64
        ensures { result ≡ self.now.faults }
    {
        self.faults
    }

    /// The most bytes that the next call takes, if it is one that fails.
    fn limit(&self) -> Option<usize>
        ensures { result ≡ limit self.now.failing.items self.now.calls }
    {
        self.failing.iter().find(|f| f.0 == self.calls).map(|f| f.1)
    }
}

impl Sink for Page {
    ghost written = { λ p. Some p.bytes.items };

    ghost faults = { λ p. p.faults };

    ghost flushed = { λ p. Unit {0} };

    fn put(&mut self, bytes: &[u8]) -> Result<(), PutFault>
        ensures refused { IsErr result ↔
            IsTrue (refuses self.old.failing.items self.old.calls self.old.room
            (length bytes.now)) }
        ensures taken { self.new.bytes.items
            ≡ self.old.bytes.items ++ take
            (taken self.old.failing.items self.old.calls self.old.room
            (length bytes.now)) bytes.now }
        ensures room { self.new.room ≡ self.old.room - taken self.old.failing.items self.old.calls
            self.old.room (length bytes.now) }
        ensures calls { self.new.calls ≡ counted self.old.calls }
        ensures faults { self.new.faults
            ≡ counted_if (refuses self.old.failing.items self.old.calls self.old.room
            (length bytes.now)) self.old.faults }
        ensures failing { self.new.failing ≡ self.old.failing }
        ensures all { OnOk result (Appends (Some self.old.bytes.items)
            (Some self.new.bytes.items) bytes.now) }
        ensures part { OnErr result (AppendsPart (Some self.old.bytes.items)
            (Some self.new.bytes.items) bytes.now) }
        ensures grows { self.old.faults ≤ self.new.faults }
        ensures uncounted { OnOk result (self.new.faults ≡ self.old.faults) }
        ensures failed { OnErr result (Rose self.old.faults self.new.faults) }
    {
        let limit = self.limit();
        let fails = limit.is_some() || self.room < bytes.len();
        let count = limit.unwrap_or(bytes.len()).min(bytes.len().min(self.room));
        self.calls = self.calls.saturating_add(1);
        self.room -= count;
        self.bytes.extend_from_slice(&bytes[..count]).unwrap();
        if fails {
            self.faults = self.faults.saturating_add(1);
            return Err(PutFault::Failed);
        }
        Ok(())
    }
    /// A page has no buffer.
    fn flush(&mut self) -> Result<(), PutFault>
        ensures ok { IsOk result }
        ensures unchanged { self.new ≡ self.old }
        ensures all { Unit {0} }
        ensures keeps { Keeps (Some self.old.bytes.items) (Some self.new.bytes.items) }
        ensures grows { self.old.faults ≤ self.new.faults }
        ensures uncounted { OnOk result (self.new.faults ≡ self.old.faults) }
        ensures failed { OnErr result (Rose self.old.faults self.new.faults) }
    {
        Ok(())
    }
}
