//! A stored function with its law.

ghost use Rattle.std.specs.Prelude.{◌≡◌, ℤ, IfSome, option_map, string_bytes, true, unwrap_or};
ghost use Rattle.pt_semantics.specs.Laws.{law_value};
ghost use Rattle.pt_types.specs.Kinds.{law_in_range};

use pt_tags::Name;
use pt_types::Law;

/// A function that can always be called, and gives the value of its law.
#[derive(Drop)]
pub struct Function {
    run: fn(i64, i64) -> i64,
    law: Law,
    ghost callable: { IsAlwaysCallable run },
    ghost lawful: { (a b r : ℤ) → post run a b r → r ≡ law_value law a b },
    ghost in_range: { law_in_range law ≡ true },
}

impl Function {
    /// The function with this law, which it has to give the value of for all numbers.
    pub fn new(run: fn(i64, i64) -> i64, law: Law) -> Function
        requires callable { IsAlwaysCallable run }
        requires lawful { (a b r : ℤ) → post run a b r → r ≡ law_value law a b }
        requires in_range { law_in_range law ≡ true }
        ensures law { result.law ≡ law }
    {
        Function { run, law }
    }

    /// The law that it computes.
    pub fn law(&self) -> &Law
        ensures law { result.now ≡ self.now.law }
        ensures in_range { law_in_range self.now.law ≡ true }
    {
        &self.law
    }

    /// The law's value for a and b.
    pub fn call(&self, a: i64, b: i64) -> i64
        ensures { result ≡ law_value self.now.law a b }
    {
        (self.run)(a, b)
    }
}

/// A stored function, and the name that graphs use for it.
#[derive(Drop)]
pub struct Block {
    pub name: Name,
    pub function: Function,
}

impl Block {
    /// The block with this function, which has to give the law's value for all numbers.
    pub fn new(name: String, run: fn(i64, i64) -> i64, law: Law) -> Block
        requires callable { IsAlwaysCallable run }
        requires lawful { (a b r : ℤ) → post run a b r → r ≡ law_value law a b }
        requires in_range { law_in_range law ≡ true }
        ensures name { result.name ≡ string_bytes name }
        ensures law { result.function.law ≡ law }
    {
        Block {
            name: Name::new(name),
            function: Function { run, law },
        }
    }
}

/// What is stored for a block: its law, and its function, if it has one of its own. A formula has none.
#[derive(Drop)]
pub struct Stored {
    function: Option<Function>,
    law: Law,
    ghost same: { unwrap_or (option_map (λ f. f.law) function) law ≡ law },
}

impl Stored {
    /// With a function of its own.
    pub(crate) fn native(function: Function, law: Law) -> Stored
        requires { function.law ≡ law }
        ensures { result.law ≡ law }
    {
        Stored {
            function: Some(function),
            law,
        }
    }

    /// With nothing but a law.
    pub(crate) fn alone(law: Law) -> Stored
        ensures { result.law ≡ law }
    {
        Stored {
            function: None,
            law,
        }
    }

    /// The function; it has the law.
    pub(crate) fn function(&self) -> Option<&Function>
        ensures { IfSome result (λ f. f.now.law ≡ self.now.law) }
    {
        match &self.function {
            Some(function) => Some(function),
            None => None,
        }
    }
}
