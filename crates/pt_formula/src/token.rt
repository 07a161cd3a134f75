//! The words of a formula.

use crate::step::{One, Three, Two};

/// A function that is called by a name.
#[derive(Clone, Copy, Debug, PartialEq, Eq)]
pub enum NamedFunction {
    Unary(One),
    Binary(Two),
    Ternary(Three),
}

/// A word of a formula.
#[derive(Clone, Copy, Debug, PartialEq, Eq)]
pub enum Token {
    A,
    B,
    Number(i64),
    /// A sign between two formulas, or `-` before one.
    Operator(Two),
    /// The name of a function.
    Name(NamedFunction),
    Open,
    Close,
    Comma,
}

/// What may come next.
#[derive(Clone, Copy, Debug, PartialEq, Eq)]
pub enum Expects {
    /// A formula.
    Value,
    /// `(`, after the name of a function.
    Opening(NamedFunction),
    /// A sign, `)`, `,` or the end.
    Sign,
}

/// What waits for the words to come.
#[derive(Clone, Copy, Debug, PartialEq, Eq)]
pub enum Unfinished {
    /// `-`, for the formula after it.
    Minus,
    /// A sign, for the formula after it.
    Left(Two),
    /// `(`, for its `)`.
    Group,
    /// A call, for its `)`; this is the number of the formula that is being read, from 1.
    Call(NamedFunction, u8),
}

/// Why a formula is refused.
#[derive(Clone, Copy, Debug, PartialEq, Eq)]
pub enum Refusal {
    /// A formula should stand here.
    NoValue,
    /// `(` should stand here.
    NoOpening,
    /// A sign, `)`, `,` or the end should stand here.
    NoSign,
    /// Tests in a row, as `a < b < 3`.
    Chained,
    /// `)` without a `(`.
    Unopened,
    /// `(` without a `)`.
    Unclosed,
    /// `,` outside a call.
    Uncalled,
    /// This function takes another number of formulas.
    Count(NamedFunction),
    /// The formula has more than 64 steps.
    Long,
}
