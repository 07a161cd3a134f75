//! Formulas in text, as a file has them: values and refusals that were worked out by hand.

use pt_formula::{
    FileFault, LexFault, LineFault, NamedFunction, ParseFault, Placed, Refusal, Token, Two,
    Unknown, Wrong, lex, parse, read_file, read_line, value,
};
use std::alloc::Global;
use std::process::Abort;
use std::test::Fail;

/// The value of a formula's text for a and b; `None` if it is refused.
fn of(alloc: Global, text: &str, a: i64, b: i64) -> Result<Option<i64>, Fail> {
    let Ok(placed) = lex(alloc, text.as_bytes(), 0) else {
        return Ok(None);
    };
    let mut words = Vec::new(alloc);
    for word in &placed {
        words.push(word.word)?;
    }
    match parse(alloc, words.as_slice()) {
        Ok(steps) => {
            if steps.len() <= 64 {
                Ok(Some(value(steps.as_slice(), a, b)))
            } else {
                Ok(None)
            }
        }
        Err(_) => Ok(None),
    }
}

fn gives(
    rt: &impl Abort,
    alloc: Global,
    text: &str,
    a: i64,
    b: i64,
    wanted: Option<i64>,
) -> Result<(), Fail> {
    let found = of(alloc, text, a, b)?;
    assert!(rt;
        found == wanted,
        "{text} for {a} and {b}: {found:?}, not {wanted:?}"
    );
    Ok(())
}

#[test]
fn values(rt: HostRuntime) -> Result<(), Fail> {
    let alloc = rt.alloc();
    gives(
        &rt,
        alloc,
        "if(a > b, (a - b) * 1000 / a, 0)",
        200,
        150,
        Some(250),
    )?;
    gives(
        &rt,
        alloc,
        "if(a > b, (a - b) * 1000 / a, 0)",
        0,
        -5,
        Some(0),
    )?;
    gives(&rt, alloc, "clamp(a * 3 / 2, 0, 4000)", 3000, 0, Some(4000))?;
    gives(&rt, alloc, "clamp(a * 3 / 2, 0, 4000)", -1, 0, Some(0))?;
    gives(&rt, alloc, "1 + 2 * 3 - 4", 0, 0, Some(3))?;
    gives(&rt, alloc, "10 - 4 - 3", 0, 0, Some(3))?;
    gives(&rt, alloc, "-a * b", 3, 4, Some(-12))?;
    gives(&rt, alloc, "a - -b", 3, 4, Some(7))?;
    gives(&rt, alloc, "-7 / 2", 0, 0, Some(-3))?;
    gives(&rt, alloc, "-7 % 2", 0, 0, Some(-1))?;
    gives(&rt, alloc, "7 / 0 + 7 % 0", 0, 0, Some(0))?;
    gives(&rt, alloc, "a < b and not(a == 3) or b >= 9", 3, 9, Some(1))?;
    gives(&rt, alloc, "a < b and not(a == 3) or b >= 9", 3, 8, Some(0))?;
    gives(
        &rt,
        alloc,
        "min(a, b) + max(a, b) * abs(-2)  # twice",
        3,
        5,
        Some(13),
    )?;
    gives(&rt, alloc, "scale(a, 9, 5) + 32", 100, 0, Some(212))?;
    gives(&rt, alloc, "scale(a, a, a)", i64::MAX, 0, Some(i64::MAX))?;
    gives(&rt, alloc, "a * a / a", i64::MAX, 0, Some(1))?;
    gives(
        &rt,
        alloc,
        "-9223372036854775807 - 1 - a",
        1,
        0,
        Some(i64::MIN),
    )?;
    gives(&rt, alloc, "abs(a) / -1", i64::MIN, 0, Some(-i64::MAX))?;
    Ok(())
}

#[test]
fn refusals(rt: HostRuntime) -> Result<(), Fail> {
    let alloc = rt.alloc();
    gives(&rt, alloc, "", 0, 0, None)?;
    gives(&rt, alloc, "a +", 0, 0, None)?;
    gives(&rt, alloc, "a b", 0, 0, None)?;
    gives(&rt, alloc, "(a", 0, 0, None)?;
    gives(&rt, alloc, "a)", 0, 0, None)?;
    gives(&rt, alloc, "min(a)", 0, 0, None)?;
    gives(&rt, alloc, "min(a, b, a)", 0, 0, None)?;
    gives(&rt, alloc, "min a, b", 0, 0, None)?;
    gives(&rt, alloc, "a, b", 0, 0, None)?;
    gives(&rt, alloc, "0 < a < 9", 0, 0, None)?;
    gives(&rt, alloc, "0 < a == 1", 0, 0, None)?;
    gives(&rt, alloc, "(0 < a) == 1", 5, 0, Some(1))?;
    gives(&rt, alloc, "9223372036854775808", 0, 0, None)?;
    gives(&rt, alloc, "c + 1", 0, 0, None)?;
    gives(&rt, alloc, "a = b", 0, 0, None)?;
    gives(&rt, alloc, "a & b", 0, 0, None)?;
    Ok(())
}

#[test]
fn places(rt: HostRuntime) -> Result<(), Fail> {
    let alloc = rt.alloc();
    let refused = parse(alloc, &[Token::A, Token::A]).map(|_steps| ());
    assert!(rt;
        refused
            == Err(ParseFault::Refused {
                word: 1,
                why: Refusal::NoSign
            })
    );
    let unread = lex(alloc, b" a + $", 0).map(|_words| ());
    assert!(rt;
        unread
            == Err(LexFault::At {
                at: 5,
                why: Unknown::Character
            })
    );
    let words = lex(alloc, b" a", 0)?;
    assert!(rt;
        words.as_slice()
            == [Placed {
                at: 1,
                word: Token::A
            }]
            .as_slice()
    );
    Ok(())
}

/// The value of the formula in a line for a and b; `None` if it is refused or has none.
fn of_line(alloc: Global, line: &[u8], a: i64, b: i64) -> Option<i64> {
    match read_line(alloc, line) {
        Ok(Some(defined)) => {
            if defined.steps.len() <= 64 {
                Some(value(defined.steps.as_slice(), a, b))
            } else {
                None
            }
        }
        _ => None,
    }
}

#[test]
fn brake(rt: HostRuntime) -> Result<(), Fail> {
    let alloc = rt.alloc();
    let line = b"slip = if(a > 1400, clamp(scale(a - b, 1000, a), 0, 1000), 0)".as_slice();
    assert!(rt; of_line(alloc, line, 20000, 16000) == Some(200));
    assert!(rt; of_line(alloc, line, 1000, 0) == Some(0));
    assert!(rt; of_line(alloc, line, 1500, -90000) == Some(1000));
    let line = b"demand = clamp(a * 3 / 2, 0, 4000)".as_slice();
    assert!(rt; of_line(alloc, line, 500, 0) == Some(750));
    assert!(rt; of_line(alloc, line, 3000, 0) == Some(4000));
    let line = b"relieved = if(b <= 120, a, if(b >= 300, 0, scale(a, 300 - b, 180)))".as_slice();
    assert!(rt; of_line(alloc, line, 3000, 100) == Some(3000));
    assert!(rt; of_line(alloc, line, 3000, 210) == Some(1500));
    assert!(rt; of_line(alloc, line, 3000, 400) == Some(0));
    let line = b"limited = b + clamp(a - b, -150, 90)".as_slice();
    assert!(rt; of_line(alloc, line, 1000, 400) == Some(490));
    assert!(rt; of_line(alloc, line, 0, 400) == Some(250));
    let line = b"locked = a > if(b == 1, 120, 250)".as_slice();
    assert!(rt; of_line(alloc, line, 200, 0) == Some(0));
    assert!(rt; of_line(alloc, line, 200, 1) == Some(1));
    assert!(rt; of_line(alloc, line, 260, 0) == Some(1));
    Ok(())
}

#[test]
fn tank(rt: HostRuntime) -> Result<(), Fail> {
    let alloc = rt.alloc();
    let line =
        b"lower = if(a <= 0, 0, if(a < 200, scale(a, 95, 200), if(a < 400, 95 + scale(a - 200, 170, 200), if(a < 600, 265 + scale(a - 400, 215, 200), if(a < 800, 480 + scale(a - 600, 240, 200), 720 + scale(min(a, 1000) - 800, 280, 200))))))".as_slice();
    assert!(rt; of_line(alloc, line, 0, 0) == Some(0));
    assert!(rt; of_line(alloc, line, 100, 0) == Some(47));
    assert!(rt; of_line(alloc, line, 500, 0) == Some(372));
    assert!(rt; of_line(alloc, line, 1000, 0) == Some(1000));
    assert!(rt; of_line(alloc, line, 1500, 0) == Some(1000));
    assert!(rt; of_line(alloc, line, -5, 0) == Some(0));
    let line = b"volume = if(a <= 1000, b, 2000 - b)".as_slice();
    assert!(rt; of_line(alloc, line, 800, 720) == Some(720));
    assert!(rt; of_line(alloc, line, 1200, 720) == Some(1280));
    let line = b"outflow = if(b > 50, (a * 36 + 5) / 10, 0)".as_slice();
    assert!(rt; of_line(alloc, line, 123, 60) == Some(443));
    assert!(rt; of_line(alloc, line, 123, 50) == Some(0));
    let line = b"excess = max(a - b, 0)".as_slice();
    assert!(rt; of_line(alloc, line, 7, 9) == Some(0));
    assert!(rt; of_line(alloc, line, 9, 7) == Some(2));
    Ok(())
}

#[test]
fn hysteresis(rt: HostRuntime) -> Result<(), Fail> {
    let alloc = rt.alloc();
    let line = b"switches = if(b == 0, a > 900, a < 800)".as_slice();
    assert!(rt; of_line(alloc, line, 950, 0) == Some(1));
    assert!(rt; of_line(alloc, line, 850, 0) == Some(0));
    assert!(rt; of_line(alloc, line, 850, 1) == Some(0));
    assert!(rt; of_line(alloc, line, 799, 1) == Some(1));
    let line = b"climbs = b < 5 and a > 200 * (b + 1) + 20".as_slice();
    assert!(rt; of_line(alloc, line, 221, 0) == Some(1));
    assert!(rt; of_line(alloc, line, 220, 0) == Some(0));
    assert!(rt; of_line(alloc, line, 421, 1) == Some(1));
    assert!(rt; of_line(alloc, line, 2000, 5) == Some(0));
    let line = b"sinks = b > 0 and a < 200 * b - 20".as_slice();
    assert!(rt; of_line(alloc, line, 179, 1) == Some(1));
    assert!(rt; of_line(alloc, line, 0, 0) == Some(0));
    let line = b"sound = a >= 100 and a <= 500 and not(a >= 240 and a <= 260)".as_slice();
    assert!(rt; of_line(alloc, line, 250, 0) == Some(0));
    assert!(rt; of_line(alloc, line, 239, 0) == Some(1));
    assert!(rt; of_line(alloc, line, 501, 0) == Some(0));
    let line = b"third = a % 3 == 0".as_slice();
    assert!(rt; of_line(alloc, line, 9, 0) == Some(1));
    assert!(rt; of_line(alloc, line, 10, 0) == Some(0));
    Ok(())
}

#[test]
fn lines(rt: HostRuntime) -> Result<(), Fail> {
    let alloc = rt.alloc();
    assert!(rt; fault(alloc, b"") == None);
    assert!(rt; fault(alloc, b"  # slip = 3") == None);
    assert!(rt; fault(alloc, b"x=a\r") == None);
    assert!(rt;
        fault(alloc, b" 3x = a")
            == Some(LineFault::At {
                at: 1,
                why: Wrong::Name
            })
    );
    assert!(rt;
        fault(alloc, b"x : a")
            == Some(LineFault::At {
                at: 2,
                why: Wrong::Equals
            })
    );
    assert!(rt;
        fault(alloc, b"x = a + c")
            == Some(LineFault::At {
                at: 8,
                why: Wrong::Word(Unknown::NoName)
            })
    );
    assert!(rt;
        fault(alloc, b"x = a + ")
            == Some(LineFault::At {
                at: 8,
                why: Wrong::Formula(Refusal::NoValue)
            })
    );
    assert!(rt;
        fault(alloc, b"x = (a + 1")
            == Some(LineFault::At {
                at: 10,
                why: Wrong::Formula(Refusal::Unclosed)
            })
    );
    assert!(rt;
        fault(alloc, b"x = 0 < a < 9")
            == Some(LineFault::At {
                at: 10,
                why: Wrong::Formula(Refusal::Chained)
            })
    );
    assert!(rt;
        fault(alloc, b"x = min(a)")
            == Some(LineFault::At {
                at: 9,
                why: Wrong::Formula(Refusal::Count(NamedFunction::Binary(Two::Lesser)))
            })
    );
    Ok(())
}

fn fault(alloc: Global, line: &[u8]) -> Option<LineFault> {
    match read_line(alloc, line) {
        Ok(_) => None,
        Err(fault) => Some(fault),
    }
}

#[test]
fn files(rt: HostRuntime) -> Result<(), Fail> {
    let alloc = rt.alloc();
    let read = read_file(alloc, b"# two\n\nx = a\r\n  y = b + 1")?;
    assert!(rt; read.len() == 2);
    assert!(rt; read[0].line == 3);
    assert!(rt; read[1].line == 4);
    assert!(rt; read[1].definition.name.as_slice() == b"y".as_slice());
    let refused = read_file(alloc, b"x = a\ny = a a\n").map(|_read| ());
    let why = Wrong::Formula(Refusal::NoSign);
    assert!(rt;
        refused
            == Err(FileFault::Line {
                line: 2,
                at: 6,
                why
            })
    );
    Ok(())
}
