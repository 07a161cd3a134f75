//! Inputs of actors, by the positions of these, and which of them have values.

ghost use Rattle.std.specs.Prelude.{◌≡◌, ◌<◌, ℕ, IfOk, MatchOption, Some, false, length, replicate, slice_set};
ghost use Rattle.pt_types.specs.Ports.{at_port, eight, nothing};
ghost use Rattle.pt_semantics.specs.Firing.{any_present};
ghost use Rattle.pt_meaning.specs.Ready.{ports_at, IsFirstReady};

use crate::bits::first_set;
use pt_causality::{clear_bit, set_bit};
use pt_tags::Memory;
use pt_types::Ports;
use std::alloc::{AllocError, Global};
use std::marker::Model;

/// The values at the inputs of each position. Contracts see the list of them.
#[derive(Drop)]
pub struct ReadyInputs {
    inputs: Vec<Ports>,
    /// A bit for each position, 64 in a word: it is set where there is a value.
    ready: Vec<u64>,
}

impl Model for ReadyInputs {
    ghost use Rattle.std.specs.Prelude.{List, Option, ℤ};
    ghost use Rattle.pt_meaning.specs.Ready.{HaveReadyBits};

    ghost Value = { List (List (Option ℤ)) };

    ghost view = { λ r. r.inputs.items };

    ghost invariant = { λ r. HaveReadyBits r.inputs.items r.ready.items };
}

/// No values at `count` positions.
fn no_inputs(alloc: Global, count: u32) -> Result<Vec<Ports>, AllocError>
    ensures { IfOk result (λ inputs. inputs.items ≡ replicate count (eight nothing)) }
{
    let mut inputs = Vec::new(alloc);
    for _ in 0..count {
        inputs.push(Ports::new())?;
    }
    Ok(inputs)
}

impl ReadyInputs {
    /// No values at `count` positions.
    pub fn new(alloc: Global, count: u32) -> Result<ReadyInputs, Memory>
        ensures { IfOk result (λ inputs. inputs ≡ replicate count (eight nothing)) }
    {
        let inputs = no_inputs(alloc, count)?;
        let ready = vec![in alloc; 0u64; count as usize / 64 + 1]?;
        Ok(ReadyInputs { inputs, ready })
    }

    /// The first position that has a value.
    #[inline(always)]
    pub fn first(&self) -> Option<usize>
        ensures { MatchOption result ((n : ℕ) → any_present (ports_at self.now n) ≡ false)
            (IsFirstReady self.now) }
    {
        first_set(self.ready.as_slice())
    }

    /// The value at an input of a position.
    #[inline(always)]
    pub fn get(&self, position: usize, port: u32) -> Option<i64>
        requires { position < length self.now }
        ensures value { result ≡ at_port (ports_at self.now position) port }
        ensures len { length (ports_at self.now position) ≡ 8 }
    {
        self.inputs[position].get(port)
    }

    /// Sets the value at an input of a position.
    #[inline(always)]
    pub fn put(&mut self, position: usize, port: u32, value: i64)
        requires position { position < length self.old }
        requires port { port < 8 }
        ensures { self.new ≡ slice_set self.old position
            (slice_set (ports_at self.old position) port (Some value)) }
    {
        self.inputs[position].put(port, value);
        set_bit(&mut self.ready, position);
    }

    /// Takes the values at the inputs of a position, and writes them over `inputs`.
    #[inline(always)]
    pub fn take(&mut self, position: usize, inputs: &mut Ports)
        requires { position < length self.old }
        ensures values { inputs.new ≡ ports_at self.old position }
        ensures rest { self.new ≡ slice_set self.old position (eight nothing) }
        ensures len { length inputs.new ≡ 8 }
    {
        *inputs = self.inputs[position];
        self.inputs[position] = Ports::new();
        clear_bit(&mut self.ready, position);
    }
}
