//! Words to steps.

ghost use Rattle.std.specs.Prelude.{◌≡◌, ◌+◌, ◌++◌, ◌∷◌, [], Ok, OnOk, OnErr, MatchOption, slice_get, length};
ghost use Rattle.std.specs.VecDeque.{deque_len};
ghost use Rattle.pt_formula.specs.Parse.{IsAfter, IsEnded, IsParsed, arity, emitted, is_chained, is_test, left_level, level, parsed, released, step_of};

use crate::evaluate::MOST_STEPS;
use crate::step::{One, Step, Two};
use crate::token::{Expects, NamedFunction, Refusal, Token, Unfinished};
use std::alloc::{AllocError, Global};
use std::collections::VecDeque;

/// Why words are not read as a formula.
#[derive(Clone, Copy, Debug, PartialEq, Eq)]
pub enum ParseFault {
    /// Out of memory.
    Memory,
    /// The word with this number, from 0, is refused; after the last word, that the words end.
    Refused { word: usize, why: Refusal },
}

impl From<AllocError> for ParseFault {
    ghost use Rattle.std.specs.Prelude.{◌≡◌};
    ghost use Rattle.pt_formula.specs.declared.words.ParseFault.TheVariants.{Memory};

    ghost from_gives = { λ _ fault. fault ≡ Memory };

    fn from(_refused: AllocError) -> ParseFault {
        ParseFault::Memory
    }
}

/// The steps that these words write: `a`, `*`, `2`, `+`, `b` give `A`, `Number(2)`, `Binary(Product)`, `B`, `Binary(Total)`.
///
/// Each word takes one turn. Signs and calls wait in `pending` until all that they apply to is read (Dijkstra's shunting yard).
pub fn parse(alloc: Global, words: &[Token]) -> Result<Vec<Step>, ParseFault>
    ensures { IsParsed (parsed 0 Expects.Value words.now [] []) result }
{
    let mut steps = Vec::new(alloc);
    let mut pending = VecDeque::new(alloc);
    let mut expects = Expects::Value;
    for (word, token) in words.iter().enumerate() {
        match turn(expects, *token, &mut steps, &mut pending)? {
            Ok(next) => expects = next,
            Err(why) => return Err(ParseFault::Refused { word, why }),
        }
    }
    match ended(expects, &mut steps, &mut pending)? {
        Ok(()) => Ok(steps),
        Err(why) => Err(ParseFault::Refused {
            word: words.len(),
            why,
        }),
    }
}

/// Reads a word.
fn turn(
    expects: Expects,
    token: Token,
    steps: &mut Vec<Step>,
    pending: &mut VecDeque<Unfinished>,
) -> Result<Result<Expects, Refusal>, AllocError>
    ensures { OnOk result (IsAfter expects token steps.old.items pending.old.items steps.new.items
        pending.new.items result) }
{
    match expects {
        Expects::Value => value(token, steps, pending),
        Expects::Opening(function) => opening(function, token, pending),
        Expects::Sign => sign(token, steps, pending),
    }
}

fn value(
    token: Token,
    steps: &mut Vec<Step>,
    pending: &mut VecDeque<Unfinished>,
) -> Result<Result<Expects, Refusal>, AllocError>
    ensures { OnOk result (IsAfter Expects.Value token steps.old.items pending.old.items
        steps.new.items pending.new.items result) }
{
    match token {
        Token::A => put(Step::A, steps),
        Token::B => put(Step::B, steps),
        Token::Number(number) => put(Step::Number(number), steps),
        Token::Operator(Two::Difference) => wait(Unfinished::Minus, pending),
        Token::Open => wait(Unfinished::Group, pending),
        Token::Name(function) => Ok(Ok(Expects::Opening(function))),
        _ => Ok(Err(Refusal::NoValue)),
    }
}

fn put(step: Step, steps: &mut Vec<Step>) -> Result<Result<Expects, Refusal>, AllocError>
    ensures result { OnOk result (result ≡ Ok (Ok Expects.Sign)) }
    ensures steps { OnOk result (steps.new.items ≡ steps.old.items ++ step ∷ []) }
{
    steps.push(step)?;
    Ok(Ok(Expects::Sign))
}

fn wait(
    waits: Unfinished,
    pending: &mut VecDeque<Unfinished>,
) -> Result<Result<Expects, Refusal>, AllocError>
    ensures result { OnOk result (result ≡ Ok (Ok Expects.Value)) }
    ensures pending { OnOk result (pending.new.items ≡ waits ∷ pending.old.items) }
{
    pending.push_front(waits)?;
    Ok(Ok(Expects::Value))
}

fn opening(
    function: NamedFunction,
    token: Token,
    pending: &mut VecDeque<Unfinished>,
) -> Result<Result<Expects, Refusal>, AllocError>
    ensures { OnOk result (IsAfter (Expects.Opening function) token [] pending.old.items
        [] pending.new.items result) }
{
    match token {
        Token::Open => wait(Unfinished::Call(function, 1), pending),
        _ => Ok(Err(Refusal::NoOpening)),
    }
}

fn sign(
    token: Token,
    steps: &mut Vec<Step>,
    pending: &mut VecDeque<Unfinished>,
) -> Result<Result<Expects, Refusal>, AllocError>
    ensures { OnOk result (IsAfter Expects.Sign token steps.old.items pending.old.items
        steps.new.items pending.new.items result) }
{
    match token {
        Token::Operator(operator) => operate(operator, steps, pending),
        Token::Close => close(steps, pending),
        Token::Comma => separate(steps, pending),
        _ => Ok(Err(Refusal::NoSign)),
    }
}

fn operate(
    operator: Two,
    steps: &mut Vec<Step>,
    pending: &mut VecDeque<Unfinished>,
) -> Result<Result<Expects, Refusal>, AllocError>
    ensures { OnOk result (IsAfter Expects.Sign
        (Token.Operator operator) steps.old.items pending.old.items steps.new.items
        pending.new.items result) }
{
    release(left_level(operator), steps, pending)?;
    if is_test(operator) && is_chained(pending) {
        return Ok(Err(Refusal::Chained));
    }
    wait(Unfinished::Left(operator), pending)
}

fn close(
    steps: &mut Vec<Step>,
    pending: &mut VecDeque<Unfinished>,
) -> Result<Result<Expects, Refusal>, AllocError>
    ensures { OnOk result (IsAfter Expects.Sign Token.Close steps.old.items pending.old.items
        steps.new.items pending.new.items result) }
{
    release(0, steps, pending)?;
    match pending.pop_front() {
        Some(Unfinished::Group) => Ok(Ok(Expects::Sign)),
        Some(Unfinished::Call(function, count)) => {
            if count == arity(function) {
                put(step_of(function), steps)
            } else {
                Ok(Err(Refusal::Count(function)))
            }
        }
        _ => Ok(Err(Refusal::Unopened)),
    }
}

fn separate(
    steps: &mut Vec<Step>,
    pending: &mut VecDeque<Unfinished>,
) -> Result<Result<Expects, Refusal>, AllocError>
    ensures { OnOk result (IsAfter Expects.Sign Token.Comma steps.old.items pending.old.items
        steps.new.items pending.new.items result) }
{
    release(0, steps, pending)?;
    match pending.pop_front() {
        Some(Unfinished::Call(function, count)) => {
            if count < arity(function) {
                wait(Unfinished::Call(function, count + 1), pending)
            } else {
                Ok(Err(Refusal::Count(function)))
            }
        }
        _ => Ok(Err(Refusal::Uncalled)),
    }
}

/// Ends the words.
fn ended(
    expects: Expects,
    steps: &mut Vec<Step>,
    pending: &mut VecDeque<Unfinished>,
) -> Result<Result<(), Refusal>, AllocError>
    ensures { OnOk result (IsEnded expects steps.old.items pending.old.items steps.new.items
        result) }
{
    match expects {
        Expects::Value => Ok(Err(Refusal::NoValue)),
        Expects::Opening(_) => Ok(Err(Refusal::NoOpening)),
        Expects::Sign => {
            release(0, steps, pending)?;
            if !pending.is_empty() {
                Ok(Err(Refusal::Unclosed))
            } else if steps.len() > MOST_STEPS {
                Ok(Err(Refusal::Long))
            } else {
                Ok(Ok(()))
            }
        }
    }
}

/// Makes steps of all that waits and binds its left side at least so tightly, up to the first that doesn't.
fn release(
    least: u8,
    steps: &mut Vec<Step>,
    pending: &mut VecDeque<Unfinished>,
) -> Result<(), AllocError>
    ensures steps { OnOk result (steps.new.items
        ≡ steps.old.items ++ emitted least pending.old.items) }
    ensures pending { OnOk result (pending.new.items ≡ released least pending.old.items) }
{
    while let Some(step) = next_released(least, pending) {
        steps.push(step)?;
    }
    Ok(())
}

/// The step of what waits first, if it is released; it waits no longer.
fn next_released(least: u8, pending: &mut VecDeque<Unfinished>) -> Option<Step>
    ensures { MatchOption result
        ((pending.new.items ≡ pending.old.items)
        × (released least pending.old.items ≡ pending.old.items)
        × (emitted least pending.old.items ≡ []))
        (λ step. (deque_len pending.new + 1 ≡ deque_len pending.old)
        × (released least pending.old.items ≡ released least pending.new.items)
        × (emitted least pending.old.items ≡ step ∷ emitted least pending.new.items)) }
{
    match pending.front().copied() {
        Some(Unfinished::Minus) => {
            let _minus = pending.pop_front();
            Some(Step::Unary(One::Negate))
        }
        Some(Unfinished::Left(operator)) if least <= level(operator) => {
            let _operator = pending.pop_front();
            Some(Step::Binary(operator))
        }
        _ => None,
    }
}

/// How tightly a sign binds: `or` least, `*`, `/` and `%` most.
fn level(operator: Two) -> u8
    ensures { result ≡ level operator }
{
    match operator {
        Two::Either => 1,
        Two::Both => 2,
        Two::Less | Two::AtMost | Two::More | Two::AtLeast | Two::Same | Two::Unlike => 3,
        Two::Total | Two::Difference => 4,
        Two::Product | Two::Quotient | Two::Remainder => 5,
        Two::Lesser | Two::Greater => 6,
    }
}

fn is_test(operator: Two) -> bool
    ensures { result ≡ is_test operator }
{
    level(operator) == 3
}

/// How tightly the left side of a sign has to bind: tests don't chain.
fn left_level(operator: Two) -> u8
    ensures { result ≡ left_level operator }
{
    if is_test(operator) {
        4
    } else {
        level(operator)
    }
}

/// Whether a test waits first.
fn is_chained(pending: &VecDeque<Unfinished>) -> bool
    ensures { result ≡ is_chained pending.now.items }
{
    match pending.front().copied() {
        Some(Unfinished::Left(operator)) => is_test(operator),
        _ => false,
    }
}

/// How many formulas a function takes.
fn arity(function: NamedFunction) -> u8
    ensures { result ≡ arity function }
{
    match function {
        NamedFunction::Unary(_) => 1,
        NamedFunction::Binary(_) => 2,
        NamedFunction::Ternary(_) => 3,
    }
}

fn step_of(function: NamedFunction) -> Step
    ensures { result ≡ step_of function }
{
    match function {
        NamedFunction::Unary(function) => Step::Unary(function),
        NamedFunction::Binary(function) => Step::Binary(function),
        NamedFunction::Ternary(function) => Step::Ternary(function),
    }
}
