//! Why a file of formulas is refused, and the line that says so.

ghost use Rattle.std.specs.Prelude.{◌≡◌};
ghost use Rattle.pt_formula_file.specs.Lines.{count_text, function_name, not_added_text, refusal_text, status_of, unknown_text};

use pt_formula::{NamedFunction, One, Refusal, Three, Two, Unknown, Wrong};
use std::alloc::AllocError;
use std::fmt;

/// Why a file of formulas is refused. Lines are numbered from 1.
///
/// As text it is a line of notes, with its line feed: byte 9 of line 3 at fault gives `blocks: line 3 column 10: no value`.
#[derive(Clone, Copy, Debug, PartialEq, Eq)]
pub enum FormulaFault {
    /// Out of memory.
    Memory,
    /// The file could not be read.
    Read,
    /// It has more than 65,536 bytes.
    TooLong,
    /// The line is refused at this byte, from 0.
    Line { line: usize, at: usize, why: Wrong },
    /// The formula in this line doesn't become a block.
    Block { line: usize, why: NotAdded },
}

/// Why a formula doesn't become a block.
#[derive(Clone, Copy, Debug, PartialEq, Eq)]
pub enum NotAdded {
    /// There is a block with its name.
    Repeated,
    /// There are 64 blocks without it.
    Full,
}

impl From<AllocError> for FormulaFault {
    ghost use Rattle.std.specs.Prelude.{◌≡◌};
    ghost use Rattle.pt_formula_file.specs.declared.fault.FormulaFault.TheVariants.{Memory};

    ghost from_gives = { λ _ fault. fault ≡ Memory };

    fn from(_refused: AllocError) -> FormulaFault {
        FormulaFault::Memory
    }
}

/// The status of a call that ends with this fault: 9 without memory, 7 for a file that could not be read, else 2.
pub fn status_of(fault: &FormulaFault) -> u8
    ensures { result ≡ status_of fault.now }
{
    match fault {
        FormulaFault::Memory => 9,
        FormulaFault::Read => 7,
        _ => 2,
    }
}

impl fmt::Display for FormulaFault {
    ghost use Rattle.std.specs.Prelude.{Some};
    ghost use Rattle.pt_formula_file.specs.Lines.{fault_line};

    ghost output = { λ fault. Some (fault_line fault) };

    fn fmt<W: fmt::Write>(&self, f: &mut fmt::Formatter<W>) -> fmt::Result {
        match self {
            FormulaFault::Read => write!(f, "read fault: blocks\n"),
            FormulaFault::TooLong => write!(f, "blocks: too long\n"),
            FormulaFault::Line { line, at, why } => {
                // One more than the greatest `usize` needs more bits.
                let column = *at as u128 + 1;
                let why = Why { why: *why };
                write!(f, "blocks: line {line} column {column}: {why}\n")
            }
            FormulaFault::Block { line, why } => {
                let why = not_added_text(*why);
                write!(f, "blocks: line {line}: {why}\n")
            }
            FormulaFault::Memory => write!(f, "memory\n"),
        }
    }
}

/// Shows why a line is refused.
#[derive(Clone, Copy)]
struct Why {
    why: Wrong,
}

impl fmt::Display for Why {
    ghost use Rattle.std.specs.Prelude.{Some};
    ghost use Rattle.pt_formula_file.specs.Lines.{wrong_text};

    ghost output = { λ w. Some (wrong_text w.why) };

    fn fmt<W: fmt::Write>(&self, f: &mut fmt::Formatter<W>) -> fmt::Result {
        match self.why {
            Wrong::Name => write!(f, "no name"),
            Wrong::Equals => write!(f, "no ="),
            Wrong::Word(unknown) => f.write_str(unknown_text(unknown)),
            Wrong::Formula(Refusal::Count(function)) => {
                let name = function_name(function);
                let count = count_text(function);
                write!(f, "{name} takes {count}")
            }
            Wrong::Formula(refusal) => f.write_str(refusal_text(refusal)),
        }
    }
}

/// Why a formula doesn't become a block.
fn not_added_text(why: NotAdded) -> &'static str
    ensures { result.now ≡ not_added_text why }
{
    match why {
        NotAdded::Repeated => "repeated name",
        NotAdded::Full => "more than 64 blocks",
    }
}

/// Why there is no word.
fn unknown_text(unknown: Unknown) -> &'static str
    ensures { result.now ≡ unknown_text unknown }
{
    match unknown {
        Unknown::Character => "unknown character",
        Unknown::HalfSign => "half a sign",
        Unknown::TooLarge => "number too large",
        Unknown::NoName => "unknown word",
    }
}

/// Why words are no formula. That of a wrong count is shown by `Why`.
fn refusal_text(refusal: Refusal) -> &'static str
    ensures { result.now ≡ refusal_text refusal }
{
    match refusal {
        Refusal::NoValue => "no value",
        Refusal::NoOpening => "no (",
        Refusal::NoSign => "no sign",
        Refusal::Chained => "tests in a row",
        Refusal::Unopened => ") without (",
        Refusal::Unclosed => "( without )",
        Refusal::Uncalled => ", outside a call",
        Refusal::Count(_) => "wrong count",
        Refusal::Long => "more than 64 steps",
    }
}

/// The name of a function. What is written by a sign is never called.
fn function_name(function: NamedFunction) -> &'static str
    ensures { result.now ≡ function_name function }
{
    match function {
        NamedFunction::Unary(One::Not) => "not",
        NamedFunction::Unary(One::Absolute) => "abs",
        NamedFunction::Binary(Two::Lesser) => "min",
        NamedFunction::Binary(Two::Greater) => "max",
        NamedFunction::Ternary(Three::Clamp) => "clamp",
        NamedFunction::Ternary(Three::Scale) => "scale",
        NamedFunction::Ternary(Three::Choose) => "if",
        _ => "a sign",
    }
}

/// How many values a function takes.
fn count_text(function: NamedFunction) -> &'static str
    ensures { result.now ≡ count_text function }
{
    match function {
        NamedFunction::Unary(_) => "1 value",
        NamedFunction::Binary(_) => "2 values",
        NamedFunction::Ternary(_) => "3 values",
    }
}
