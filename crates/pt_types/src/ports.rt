//! The values at the eight inputs or the eight outputs of an actor.

ghost use Rattle.std.specs.Prelude.{◌≡◌, ◌<◌, is_some, slice_set};
ghost use Rattle.pt_types.specs.Apart.{value_or_zero};
ghost use Rattle.pt_types.specs.Ports.{eight, nothing, at_port, only};

use std::marker::Model;

/// An optional value at each of eight ports. Contracts see it as the list of the eight.
///
/// Flags and values are two arrays: this takes 72 bytes, and eight `Option<i64>` would take 128.
#[derive(Clone, Copy, Debug, PartialEq, Eq)]
pub struct Ports {
    /// Which ports have a value.
    there: [bool; 8],
    /// The values; 0 at a port that has none.
    values: [i64; 8],
}

impl Model for Ports {
    ghost use Rattle.std.specs.Prelude.{List, Option, ℤ};

    ghost Value = { List (Option ℤ) };

    ghost use Rattle.pt_types.specs.Apart.{AreApart, are_there, together, values_or_zero};
    ghost use Rattle.pt_types.specs.Together.{same_there, same_values};

    ghost view = { λ p. together p.there p.values };

    ghost invariant = { λ p. AreApart p.there p.values };

    ghost inverse = { λ ports. record { there = are_there ports; values = values_or_zero ports } };

    ghost inverse_ok = { λ p h i. record { there = same_there p.there p.values h i; values = same_values p.there p.values h i } };
}

impl Ports {
    /// No value at any port.
    pub fn new() -> Ports
        ensures { result ≡ eight nothing }
    {
        Ports {
            there: [false; 8],
            values: [0; 8],
        }
    }

    /// Ports with these eight values.
    pub fn from_values(values: [Option<i64>; 8]) -> Ports
        ensures { result ≡ values }
    {
        Ports {
            there: [
                is_there(values[0]),
                is_there(values[1]),
                is_there(values[2]),
                is_there(values[3]),
                is_there(values[4]),
                is_there(values[5]),
                is_there(values[6]),
                is_there(values[7]),
            ],
            values: [
                or_zero(values[0]),
                or_zero(values[1]),
                or_zero(values[2]),
                or_zero(values[3]),
                or_zero(values[4]),
                or_zero(values[5]),
                or_zero(values[6]),
                or_zero(values[7]),
            ],
        }
    }

    /// The value at a port; `None` if there is no such port.
    pub fn get(&self, port: u32) -> Option<i64>
        ensures { result ≡ at_port self.now port }
    {
        let port = port as usize;
        if port < 8 && self.there[port] {
            Some(self.values[port])
        } else {
            None
        }
    }

    /// This value at port 0, and none at the others.
    pub fn first(value: Option<i64>) -> Ports
        ensures { result ≡ eight (only 0 value) }
    {
        match value {
            None => Ports::new(),
            Some(value) => Ports {
                there: [true, false, false, false, false, false, false, false],
                values: [value, 0, 0, 0, 0, 0, 0, 0],
            },
        }
    }

    /// This value at one port, and none at the others; no value at all if there is no such port.
    pub fn only(port: u32, value: i64) -> Ports
        ensures { result ≡ eight (only port (Some value)) }
    {
        let mut ports = Ports::new();
        if port < 8 {
            ports.put(port, value);
        }
        ports
    }

    /// Sets the value at a port.
    pub fn put(&mut self, port: u32, value: i64)
        requires { port < 8 }
        ensures { self.new ≡ slice_set self.old port (Some value) }
    {
        self.there[port as usize] = true;
        self.values[port as usize] = value;
    }

    /// The values at the eight ports.
    pub fn values(&self) -> [Option<i64>; 8]
        ensures { result ≡ self.now }
    {
        let _ = &self.there;
        [
            self.get(0),
            self.get(1),
            self.get(2),
            self.get(3),
            self.get(4),
            self.get(5),
            self.get(6),
            self.get(7),
        ]
    }
}

/// Whether there is a value.
fn is_there(value: Option<i64>) -> bool
    ensures { result ≡ is_some value }
{
    value.is_some()
}

/// The value, or 0 if there is none.
fn or_zero(value: Option<i64>) -> i64
    ensures { result ≡ value_or_zero value }
{
    value.unwrap_or(0)
}
