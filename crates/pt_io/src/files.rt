//! Files as a source.

ghost use Rattle.std.specs.Prelude.{◌≡◌, ◌+◌, ◌≤◌, ℕ, List, Option, None, Some, IfOk, IfSome, OnOk, IsErrOf, length, take, vec_len};
ghost use Rattle.std.specs.Io.KnownBytes.{ReadConsumes};
ghost use Rattle.pt_io.specs.Causes.{Rose, counted};

use crate::TRIES;
use crate::source::{FetchFault, Source};
use std::alloc::Global;
use std::io::{ErrorKind, Read};
use std::rt::Files;
use std::{fs, io};

/// Opens named contents for reading.
///
/// It may report the content of a name, as long as that stays the same: what a reader of this name gives, in all. Then clauses
/// can name it, and else they say nothing about it.
pub trait Opener {
    /// What reads a content.
    type Reader: Read + Drop;

    /// The content of a name, if the opener reports it.
    ghost content: { Self → List ℕ → Option (List ℕ) };

    /// A reader of the content of this name, from its beginning.
    fn open(&self, name: &str) -> io::Result<Self::Reader>
        ensures { IfOk result (λ reader.
            IfSome (content self.now name.now)
            (λ bytes. Self.Reader.remaining reader ≡ Some bytes)) };
}

/// The files of the system by their paths, which it resolves from the current folder. It reports no contents.
#[derive(Drop)]
pub struct SystemFiles<R: Files + Drop> {
    files: R,
}

impl<R: Files + Drop> SystemFiles<R> {
    /// The files that `files` opens. It needs no memory.
    pub fn new(files: R) -> SystemFiles<R>
        ensures files { result.files ≡ files }
    {
        SystemFiles { files }
    }
}

impl<R: Files + Drop> Opener for SystemFiles<R> {
    type Reader = R::File;

    ghost content = { λ s n. None };

    fn open(&self, name: &str) -> io::Result<R::File> {
        fs::open(&self.files, name)
    }
}

/// What an opener opens, as a source.
///
/// If the opener reports a content, a fetch gives its bytes. A read that gives no bytes is the end of the content; one that a
/// signal interrupts is tried again.
#[derive(Drop)]
pub struct FileSource<O: Opener + Drop> {
    files: O,
    faults: u64,
}

impl<O: Opener + Drop> FileSource<O> {
    /// The contents that `files` opens. It needs no memory.
    pub fn new(files: O) -> FileSource<O>
        ensures files { result.files ≡ files }
        ensures faults { result.faults ≡ 0 }
    {
        FileSource { files, faults: 0 }
    }

    /// The number of calls that failed.
    pub fn faults(&self) -> u64
        ensures { result ≡ self.now.faults }
    {
        self.faults
    }

    /// Counts a fault.
    fn failed(&mut self) -> FetchFault
        ensures fault { result ≡ FetchFault.Failed }
        ensures faults { self.new.faults ≡ counted self.old.faults }
        ensures grows { self.old.faults ≤ self.new.faults }
        ensures files { self.new.files ≡ self.old.files }
    {
        self.faults = self.faults.saturating_add(1);
        FetchFault::Failed
    }
}

impl<O: Opener + Drop> Source for FileSource<O> {
    ghost contents = { λ s. O.content s.files };

    ghost asked = { λ s. None };

    ghost faults = { λ s. s.faults };

    fn fetch(&mut self, alloc: Global, name: &str, most: usize) -> Result<Vec<u8>, FetchFault>
        ensures within { IfOk result (λ v. vec_len v ≤ most + 1) }
        ensures bytes { IfOk result (λ v.
            IfSome (O.content self.old.files name.now) (λ bytes. v.items ≡ take (most + 1) bytes)) }
        ensures keeps { O.content self.new.files ≡ O.content self.old.files }
        ensures counted { IsErrOf result FetchFault.Failed →
            self.new.faults ≡ counted self.old.faults }
        ensures uncounted { OnOk result (self.new.faults ≡ self.old.faults) }
        ensures uncounted_memory { IsErrOf result FetchFault.Memory →
            self.new.faults ≡ self.old.faults }
        ensures grows { self.old.faults ≤ self.new.faults }
        ensures failed { IsErrOf result FetchFault.Failed → Rose self.old.faults self.new.faults }
    {
        let Ok(mut file) = self.files.open(name) else {
            return Err(self.failed());
        };
        match first_bytes(alloc, &mut file, most) {
            Ok(bytes) => Ok(bytes),
            Err(FetchFault::Memory) => Err(FetchFault::Memory),
            Err(FetchFault::Failed) => Err(self.failed()),
        }
    }
}

/// The first `most + 1` bytes that a reader gives, or all if there are fewer. A read that gives none is the end.
fn first_bytes<R: Read>(alloc: Global, reader: &mut R, most: usize) -> Result<Vec<u8>, FetchFault>
    ensures within { IfOk result (λ v. vec_len v ≤ most + 1) }
    ensures bytes { IfOk result (λ v.
        IfSome (R.remaining reader.old) (λ bytes. v.items ≡ take (most + 1) bytes)) }
{
    let mut bytes = Vec::new(alloc);
    let mut buffer = [0u8; 16384];
    while bytes.len() <= most {
        let room = (most - bytes.len()).min(buffer.len() - 1) + 1;
        match read_some(reader, &mut buffer[..room]) {
            Ok(0) => return Ok(bytes),
            Ok(count) => {
                if bytes.extend_from_slice(&buffer[..count]).is_err() {
                    return Err(FetchFault::Memory);
                }
            }
            Err(_) => return Err(FetchFault::Failed),
        }
    }
    Ok(bytes)
}

/// Reads into a front of the buffer, and gives its length. A read that a signal interrupts is tried again.
#[tactic(auto, using(crate::proofs::Trying::read_after))]
fn read_some<R: Read>(reader: &mut R, buffer: &mut [u8]) -> io::Result<usize>
    ensures bound { IfOk result (λ count. count ≤ length buffer.new) }
    ensures len { length buffer.new ≡ length buffer.old }
    ensures bytes { ReadConsumes (R.remaining reader.old)
        (R.remaining reader.new) result buffer.new }
{
    for _ in 0..TRIES {
        match reader.read(buffer) {
            Err(error) if error.kind() == ErrorKind::Interrupted => {}
            other => return other,
        }
    }
    reader.read(buffer)
}
