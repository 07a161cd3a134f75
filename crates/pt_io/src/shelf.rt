//! A source in memory.

ghost use Rattle.std.specs.Prelude.{◌≡◌, ◌+◌, ◌≤◌, length, [], None, Some, option_map, IfOk, IfSome, OnOk, IsErrOf, take};
ghost use Rattle.pt_io.specs.Causes.{Rose, AddsName, counted};
ghost use Rattle.pt_io.specs.Contents.{content, given};

use crate::source::{FetchFault, Source};
use pt_tags::{List, Name};
use std::alloc::{AllocError, Global};

/// Named contents in memory, and the numbers of the calls that fail.
///
/// The number of a call, from 0, is the number of names asked for
/// before it. If two contents have one name, the first is given.
#[derive(Drop)]
pub struct Shelf {
    contents: Vec<(Name, List<u8>)>,
    failing: Vec<u64>,
    asked: Vec<Name>,
    faults: u64,
}

impl Shelf {
    /// A shelf with these contents; the calls with these numbers fail. It needs no memory.
    pub fn new(alloc: Global, contents: Vec<(Name, List<u8>)>, failing: Vec<u64>) -> Shelf
        ensures contents { result.contents ≡ contents }
        ensures failing { result.failing ≡ failing }
        ensures asked { result.asked.items ≡ [] }
        ensures faults { result.faults ≡ 0 }
    {
        Shelf {
            contents,
            failing,
            asked: Vec::new(alloc),
            faults: 0,
        }
    }

    /// The names asked for so far, in order.
    pub fn asked(&self) -> &[Name]
        ensures { result.now ≡ self.now.asked.items }
    {
        self.asked.as_slice()
    }

    /// The number of calls that failed.
    pub fn faults(&self) -> u64
        ensures { result ≡ self.now.faults }
    {
        self.faults
    }

    /// The first content of that name.
    fn find(&self, name: &str) -> Option<&List<u8>>
        ensures { option_map (λ c. c.now) result ≡ content self.now.contents.items name.now }
    {
        self.contents
            .iter()
            .find(|c| c.0.as_str() == name)
            .map(|c| &c.1)
    }
}

impl Source for Shelf {
    ghost contents = { λ s. content s.contents.items };

    ghost asked = { λ s. Some s.asked.items };

    ghost faults = { λ s. s.faults };

    fn fetch(&mut self, alloc: Global, name: &str, most: usize) -> Result<Vec<u8>, FetchFault>
        ensures given { IfOk result (λ v.
            given self.old.contents.items self.old.failing.items
            (length self.old.asked.items) name.now most ≡ Some v.items) }
        ensures refused { IsErrOf result FetchFault.Failed →
            given self.old.contents.items self.old.failing.items
            (length self.old.asked.items) name.now most ≡ None }
        ensures counted { IsErrOf result FetchFault.Failed →
            self.new.faults ≡ counted self.old.faults }
        ensures uncounted { OnOk result (self.new.faults ≡ self.old.faults) }
        ensures uncounted_memory { IsErrOf result FetchFault.Memory →
            self.new.faults ≡ self.old.faults }
        ensures contents { self.new.contents ≡ self.old.contents }
        ensures failing { self.new.failing ≡ self.old.failing }
        ensures bytes { IfOk result (λ v.
            IfSome (content self.old.contents.items name.now)
            (λ bytes. v.items ≡ take (most + 1) bytes)) }
        ensures keeps { content self.new.contents.items ≡ content self.old.contents.items }
        ensures grows { self.old.faults ≤ self.new.faults }
        ensures failed { IsErrOf result FetchFault.Failed → Rose self.old.faults self.new.faults }
        ensures names { OnOk result (AddsName (Some self.old.asked.items)
            (Some self.new.asked.items) name.now) }
        ensures names_failed { IsErrOf result FetchFault.Failed →
            AddsName (Some self.old.asked.items) (Some self.new.asked.items) name.now }
        ensures names_memory { IsErrOf result FetchFault.Memory →
            self.new.asked.items ≡ self.old.asked.items }
    {
        let call = self.asked.len() as u64;
        let Ok(text) = String::from_str(alloc, name) else {
            return Err(FetchFault::Memory);
        };
        let fails = self.failing.contains(&call);
        let taken = match self.find(name) {
            Some(bytes) if !fails => Some(first(alloc, bytes.as_slice(), most)),
            _ => None,
        };
        if let Some(Err(_)) = taken {
            return Err(FetchFault::Memory);
        }
        if self.asked.push(Name::new(text)).is_err() {
            return Err(FetchFault::Memory);
        }
        match taken {
            Some(Ok(bytes)) => Ok(bytes),
            _ => {
                self.faults = self.faults.saturating_add(1);
                Err(FetchFault::Failed)
            }
        }
    }
}

/// The first `most + 1` bytes, or all if there are fewer.
fn first(alloc: Global, bytes: &[u8], most: usize) -> Result<Vec<u8>, AllocError>
    ensures { IfOk result (λ v. v.items ≡ take (most + 1) bytes.now) }
{
    if most < bytes.len() {
        Vec::from_slice(alloc, &bytes[..most + 1])
    } else {
        Vec::from_slice(alloc, bytes)
    }
}
