//! Text to words.

ghost use Rattle.std.specs.Prelude.{◌≡◌, ◌+◌, ◌≤◌, ◌<◌, ◌∷◌, ◌++◌, [], IfSome, OnOk, IsTrue, IsFalse, bytes_eq, drop, length, pos, ◌≤ℤ◌, true, unsigned_abs};
ghost use Rattle.std.specs.List.{prefix_len};
ghost use Rattle.pt_formula.specs.Lexer.{EndsWithin, IsLexeme, IsLexed, equals_next, in_name, is_blank, is_digit, is_letter, lexed, name_lexeme, named, number_from, number_lexeme, sign_lexeme};

use crate::step::{One, Three, Two};
use crate::token::{NamedFunction, Token};
use std::alloc::{AllocError, Global};

/// A word, and the place of its first byte, from 0.
#[derive(Clone, Copy, Debug, PartialEq, Eq)]
pub struct Placed {
    pub at: usize,
    pub word: Token,
}

/// Why a text is not read as words.
#[derive(Clone, Copy, Debug, PartialEq, Eq)]
pub enum Unknown {
    /// No word has this character.
    Character,
    /// `=` or `!` without a `=` after it.
    HalfSign,
    /// The number is 2^63 or more.
    TooLarge,
    /// No word has this name.
    NoName,
}

/// Why a text is not read as words, and where.
#[derive(Clone, Copy, Debug, PartialEq, Eq)]
pub enum LexFault {
    /// Out of memory.
    Memory,
    /// At this byte, from 0.
    At { at: usize, why: Unknown },
}

impl From<AllocError> for LexFault {
    ghost use Rattle.std.specs.Prelude.{◌≡◌};
    ghost use Rattle.pt_formula.specs.declared.lexer.LexFault.TheVariants.{Memory};

    ghost from_gives = { λ _ fault. fault ≡ Memory };

    fn from(_refused: AllocError) -> LexFault {
        LexFault::Memory
    }
}

/// What a text begins with.
#[derive(Clone, Copy)]
enum Lexeme {
    Blank,
    Comment,
    /// A word of one byte and so many more.
    Word(Token, usize),
    Unread(Unknown),
}

/// The words of a text from a place on, up to a `#`. In `twice = a * 2 # doubled` those from place 7 on are `a` at 8, `*` at 10
/// and `2` at 12.
pub fn lex(alloc: Global, text: &[u8], start: usize) -> Result<Vec<Placed>, LexFault>
    ensures { IsLexed (lexed start 0 (drop start text.now)) result }
{
    let mut words = Vec::new(alloc);
    let mut at = start;
    while at < text.len() {
        match lexeme_of(&text[at..]) {
            Lexeme::Blank => at += 1,
            Lexeme::Comment => return Ok(words),
            Lexeme::Word(word, len) => {
                add(&mut words, Placed { at, word })?;
                at += len.max(1);
            }
            Lexeme::Unread(why) => return Err(LexFault::At { at, why }),
        }
    }
    Ok(words)
}

fn add(words: &mut Vec<Placed>, word: Placed) -> Result<(), AllocError>
    ensures { OnOk result (words.new.items ≡ words.old.items ++ word ∷ []) }
{
    words.push(word)?;
    Ok(())
}

/// What a text begins with.
fn lexeme_of(text: &[u8]) -> Lexeme
    requires { 0 < length text.now }
    ensures lexeme { IsLexeme text.now result }
    ensures within { EndsWithin (length text.now) result }
{
    let first = text[0];
    if is_blank(first) {
        Lexeme::Blank
    } else if first == b'#' {
        Lexeme::Comment
    } else if is_digit(first) {
        let len = digits_len(text);
        number_lexeme(len, number(&text[..len]))
    } else if is_letter(first) {
        let len = name_len(text);
        name_lexeme(len, named(&text[..len]))
    } else {
        sign_lexeme(first, equals_next(&text[1..]))
    }
}

fn is_blank(byte: u8) -> bool
    ensures { result ≡ is_blank byte }
{
    byte == b' ' || byte == b'\t' || byte == b'\r'
}

fn is_digit(byte: u8) -> bool
    ensures { result ≡ is_digit byte }
{
    b'0' <= byte && byte <= b'9'
}

pub(crate) fn is_letter(byte: u8) -> bool
    ensures { result ≡ is_letter byte }
{
    b'A' <= byte && byte <= b'Z' || b'a' <= byte && byte <= b'z'
}

fn in_name(byte: u8) -> bool
    ensures { result ≡ in_name byte }
{
    is_letter(byte) || is_digit(byte) || byte == b'_'
}

fn digits_len(text: &[u8]) -> usize
    ensures len { result ≡ prefix_len is_digit text.now }
    ensures within { result ≤ length text.now }
{
    for (i, byte) in text.iter().enumerate() {
        if !is_digit(*byte) {
            return i;
        }
    }
    text.len()
}

pub(crate) fn blanks_len(text: &[u8]) -> usize
    ensures len { result ≡ prefix_len is_blank text.now }
    ensures within { result ≤ length text.now }
{
    for (i, byte) in text.iter().enumerate() {
        if !is_blank(*byte) {
            return i;
        }
    }
    text.len()
}

pub(crate) fn name_len(text: &[u8]) -> usize
    ensures len { result ≡ prefix_len in_name text.now }
    ensures within { result ≤ length text.now }
{
    for (i, byte) in text.iter().enumerate() {
        if !in_name(*byte) {
            return i;
        }
    }
    text.len()
}

fn number_lexeme(len: usize, number: Option<i64>) -> Lexeme
    ensures { result ≡ number_lexeme len number }
{
    match number {
        Some(number) => Lexeme::Word(Token::Number(number), len),
        None => Lexeme::Unread(Unknown::TooLarge),
    }
}

/// The number with these digits, if it is below 2^63.
fn number(digits: &[u8]) -> Option<i64>
    ensures { result ≡ number_from 0 digits.now }
{
    let mut number = 0i64;
    for digit in digits {
        match with_digit(number, *digit) {
            Some(more) => number = more,
            None => return None,
        }
    }
    Some(number)
}

fn name_lexeme(len: usize, word: Option<Token>) -> Lexeme
    ensures { result ≡ name_lexeme len word }
{
    match word {
        Some(word) => Lexeme::Word(word, len),
        None => Lexeme::Unread(Unknown::NoName),
    }
}

/// The word with this name.
fn named(name: &[u8]) -> Option<Token>
    ensures { result ≡ named name.now }
{
    if is(name, "a") {
        Some(Token::A)
    } else if is(name, "b") {
        Some(Token::B)
    } else if is(name, "or") {
        Some(Token::Operator(Two::Either))
    } else if is(name, "and") {
        Some(Token::Operator(Two::Both))
    } else if is(name, "not") {
        Some(Token::Name(NamedFunction::Unary(One::Not)))
    } else if is(name, "abs") {
        Some(Token::Name(NamedFunction::Unary(One::Absolute)))
    } else if is(name, "min") {
        Some(Token::Name(NamedFunction::Binary(Two::Lesser)))
    } else if is(name, "max") {
        Some(Token::Name(NamedFunction::Binary(Two::Greater)))
    } else if is(name, "clamp") {
        Some(Token::Name(NamedFunction::Ternary(Three::Clamp)))
    } else if is(name, "scale") {
        Some(Token::Name(NamedFunction::Ternary(Three::Scale)))
    } else if is(name, "if") {
        Some(Token::Name(NamedFunction::Ternary(Three::Choose)))
    } else {
        None
    }
}

fn is(name: &[u8], word: &str) -> bool
    ensures { result ≡ bytes_eq name.now word.now }
{
    name == word.as_bytes()
}

pub(crate) fn equals_next(text: &[u8]) -> bool
    ensures next { result ≡ equals_next text.now }
    ensures within { IsTrue result → 0 < length text.now }
{
    match text {
        [] => false,
        [first, ..] => *first == b'=',
    }
}

/// A sign of one byte, or of this and `=`.
fn sign_lexeme(first: u8, equals: bool) -> Lexeme
    ensures lexeme { result ≡ sign_lexeme first equals }
    ensures within { EndsWithin 2 result }
    ensures one { IsFalse equals → EndsWithin 1 result }
{
    match first {
        b'<' if equals => sign(Two::AtMost, 2),
        b'<' => sign(Two::Less, 1),
        b'>' if equals => sign(Two::AtLeast, 2),
        b'>' => sign(Two::More, 1),
        b'=' if equals => sign(Two::Same, 2),
        b'!' if equals => sign(Two::Unlike, 2),
        b'=' | b'!' => Lexeme::Unread(Unknown::HalfSign),
        b'+' => sign(Two::Total, 1),
        b'-' => sign(Two::Difference, 1),
        b'*' => sign(Two::Product, 1),
        b'/' => sign(Two::Quotient, 1),
        b'%' => sign(Two::Remainder, 1),
        b'(' => Lexeme::Word(Token::Open, 1),
        b')' => Lexeme::Word(Token::Close, 1),
        b',' => Lexeme::Word(Token::Comma, 1),
        _ => Lexeme::Unread(Unknown::Character),
    }
}

fn sign(operator: Two, len: usize) -> Lexeme
    ensures { result ≡ Lexeme.Word (Token.Operator operator) len }
{
    Lexeme::Word(Token::Operator(operator), len)
}

/// A number with one more digit, if it is below 2^63.
fn with_digit(number: i64, digit: u8) -> Option<i64>
    requires { pos 0 ≤ℤ number }
    ensures at_least { IfSome result (λ more. pos 0 ≤ℤ more) }
    ensures number { result ≡ number_from (unsigned_abs number) (digit ∷ []) }
{
    let more = i128::from(number) * 10 + i128::from(digit.saturating_sub(b'0'));
    if more <= i128::from(i64::MAX) {
        Some(more as i64)
    } else {
        None
    }
}
