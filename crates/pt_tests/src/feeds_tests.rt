//! Lines of sensors with the rows that they say, worked out by hand, and what sensors give at readings.

use pt_feeds::{
    Arrival, Columns, Coming, Fed, Feeds, Inbox, Lines, ListFeeds, PipeFeeds, RowFault, Sample,
    columns_of, row_of_line,
};
use std::alloc::Global;
use std::sync::Wait;
use std::test::Fail;
use std::time::Clock;

/// Heads and lines, each with what the line says.
const CASES: &str = r#"time,value|50,-7 => Ok(Sample { time: Some(50), value: -7 })
time,value|0,0 => Ok(Sample { time: Some(0), value: 0 })
time,value|007,-0 => Ok(Sample { time: Some(7), value: 0 })
time,value|1000000000000000,9223372036854775807 => Ok(Sample { time: Some(1000000000000000), value: 9223372036854775807 })
time,value|1000000000000001,1 => Err(Number(Time))
time,value|1,9223372036854775808 => Err(Number(Value))
time,value|1,-9223372036854775808 => Ok(Sample { time: Some(1), value: -9223372036854775808 })
time,value|1,-9223372036854775809 => Err(Number(Value))
time,value|00000000000000000001,1 => Ok(Sample { time: Some(1), value: 1 })
time,value|000000000000000000001,1 => Err(Number(Time))
time,value|18446744073709551616,1 => Err(Number(Time))
time,value|50 => Err(Fields)
time,value| => Err(Fields)
time,value|50,7,8 => Err(Fields)
time,value|50,7, => Err(Fields)
time,value|,7 => Err(Number(Time))
time,value|50, => Err(Number(Value))
time,value|, => Err(Number(Time))
time,value|x,y => Err(Number(Time))
time,value|50, 7 => Err(Number(Value))
time,value|+50,7 => Err(Number(Time))
time,value|-50,7 => Err(Number(Time))
time,value|50,+7 => Err(Number(Value))
time,value|50,7.0 => Err(Number(Value))
time,value|50,- => Err(Number(Value))
time,value|50,--7 => Err(Number(Value))
time,value|"50",7 => Err(Number(Time))
value|42 => Ok(Sample { time: None, value: 42 })
value|-42 => Ok(Sample { time: None, value: -42 })
value| => Err(Number(Value))
value|1,2 => Err(Fields)
time,seen,value|50,55,7 => Ok(Sample { time: Some(50), value: 7 })
time,seen,value|50,40,7 => Ok(Sample { time: Some(50), value: 7 })
time,seen,value|50,10000000000000000,7 => Ok(Sample { time: Some(50), value: 7 })
time,seen,value|50,10000000000000001,7 => Err(Number(Seen))
time,seen,value|50,,7 => Err(Number(Seen))
time,seen,value|x,y,z => Err(Number(Time))
time,seen,value|50,y,z => Err(Number(Seen))
time,seen,value|50,55,z => Err(Number(Value))
time,seen,value|50,7 => Err(Fields)
time,seen,value|50,55,7,8 => Err(Fields)"#;

#[test]
fn each_line_says_its_row(rt: HostRuntime) -> Result<(), Fail> {
    let alloc = rt.alloc();
    for case in CASES.split('\n') {
        let (text, wanted) = case.split_once(" => ").ok_or("no arrow")?;
        let (head, line) = text.split_once("|").ok_or("no head")?;
        let Ok(columns) = columns_of(head.as_bytes()) else {
            return Err("no columns")?;
        };
        let found = format!(in alloc; "{:?}", row_of_line(columns, line.as_bytes()))?;
        assert!(rt; found.as_str() == wanted, "{text}: {found}");
    }
    Ok(())
}

#[test]
fn a_carriage_return_may_end_a_line(rt: HostRuntime) -> Result<(), Fail> {
    let columns = columns_of(b"time,value\r");
    assert!(rt; columns == Ok(Columns::TimeValue));
    let sample = Sample {
        time: Some(50),
        value: 7,
    };
    assert!(rt; row_of_line(Columns::TimeValue, b"50,7\r") == Ok(sample));
    assert!(rt; row_of_line(Columns::TimeValue, b"50,7\r\r").is_err());
    assert!(rt; row_of_line(Columns::TimeValue, b"\r") == Err(RowFault::Fields));
    Ok(())
}

#[test]
fn other_heads_are_refused(rt: HostRuntime) -> Result<(), Fail> {
    for head in "|time|seen,value|value,time|time, value|Time,value|time,value,|\"value\"".split(
        '|',
    ) {
        assert!(rt;
            columns_of(head.as_bytes()) == Err(RowFault::Header),
            "{head}"
        );
    }
    Ok(())
}

/// What comes of a text, a word for each.
fn words_of(alloc: Global, text: &[u8]) -> Result<String, Fail> {
    let mut words = String::new(alloc);
    let mut lines = Lines::new();
    for byte in text {
        if let Some(arrival) = lines.take(*byte) {
            words.push_str(word(&arrival))?;
        }
    }
    words.push_str(word(&lines.end()))?;
    Ok(words)
}

fn word(arrival: &Arrival) -> &'static str {
    match arrival {
        Arrival::Line(line) => { if line.len() == 64 { "full " } else { "line " } }
        Arrival::TooLong => "long ",
        Arrival::NoLineFeed => "half",
        Arrival::End => "end",
        Arrival::Failed => "failed",
    }
}

#[test]
fn texts_are_cut_into_lines(rt: HostRuntime) -> Result<(), Fail> {
    let alloc = rt.alloc();
    assert!(rt; words_of(alloc, b"")?.as_str() == "end");
    assert!(rt; words_of(alloc, b"value\n1\n\n")?.as_str() == "line line line end");
    assert!(rt; words_of(alloc, b"value\n1")?.as_str() == "line half");
    let mut text = vec![in alloc; b'7'; 64]?;
    text.push(b'\n')?;
    assert!(rt; words_of(alloc, text.as_slice())?.as_str() == "full end");
    text.pop();
    text.push(b'7')?;
    assert!(rt; words_of(alloc, text.as_slice())?.as_str() == "long half");
    Ok(())
}

/// Hands over the lines of a text, and its end.
fn hand_over<R: Wait + Clock>(rt: &R, inbox: &Inbox, text: &[u8]) {
    let mut lines = Lines::new();
    for byte in text {
        if let Some(arrival) = lines.take(*byte) {
            inbox.hand_over(rt, arrival);
        }
    }
    inbox.hand_over(rt, lines.end());
}

#[test]
fn a_row_waits_for_its_time_and_holds_back_no_other_sensor(rt: HostRuntime) -> Result<(), Fail> {
    let alloc = rt.alloc();
    let Ok(mut feeds) = PipeFeeds::new(&rt, alloc) else {
        return Err("no memory")?;
    };
    let (Ok(first), Ok(second)) = (feeds.add(alloc, 4), feeds.add(alloc, 7)) else {
        return Err("no memory")?;
    };
    assert!(rt; feeds.next(4, 0) == Fed::Nothing);
    hand_over(&rt, &first, b"time,value\n10,1\n300,2\n200,3\n");
    hand_over(&rt, &second, b"value\n5\n6\nx\n8\n");
    feeds.rest(&rt, 1_000_000_000);
    assert!(rt; feeds.next(4, 100) == Fed::Row { time: 10, value: 1 });
    assert!(rt; feeds.next(4, 100) == Fed::Nothing);
    assert!(rt; feeds.next(4, 299) == Fed::Nothing);
    assert!(rt;
        feeds.next(7, 299)
            == Fed::Row {
                time: 299,
                value: 5
            }
    );
    assert!(rt;
        feeds.next(7, 300)
            == Fed::Row {
                time: 300,
                value: 6
            }
    );
    assert!(rt; feeds.next(7, 300) == Fed::NoRow(RowFault::Number(pt_feeds::Column::Value)));
    assert!(rt; feeds.next(7, 300) == Fed::End);
    assert!(rt;
        feeds.next(4, 300)
            == Fed::Row {
                time: 300,
                value: 2
            }
    );
    assert!(rt;
        feeds.next(4, 300)
            == Fed::Row {
                time: 200,
                value: 3
            }
    );
    assert!(rt; feeds.next(4, 300) == Fed::End);
    assert!(rt; feeds.next(4, 300) == Fed::End);
    assert!(rt; feeds.next(5, 300) == Fed::End);
    Ok(())
}

#[test]
fn a_text_without_a_head_is_refused(rt: HostRuntime) -> Result<(), Fail> {
    let alloc = rt.alloc();
    let Ok(mut feeds) = PipeFeeds::new(&rt, alloc) else {
        return Err("no memory")?;
    };
    let texts = [b"".as_slice(), b"1,2\n", b"value", b"value\n7"];
    for (sensor, text) in texts.iter().enumerate() {
        let Ok(inbox) = feeds.add(alloc, sensor as u32) else {
            return Err("no memory")?;
        };
        hand_over(&rt, &inbox, text);
    }
    assert!(rt; feeds.next(0, 0) == Fed::NoRow(RowFault::Header));
    assert!(rt; feeds.next(0, 0) == Fed::End);
    assert!(rt; feeds.next(1, 0) == Fed::NoRow(RowFault::Header));
    assert!(rt; feeds.next(2, 0) == Fed::NoRow(RowFault::NoLineFeed));
    assert!(rt; feeds.next(3, 0) == Fed::NoRow(RowFault::NoLineFeed));
    Ok(())
}

#[test]
fn a_list_gives_what_is_there(rt: HostRuntime) -> Result<(), Fail> {
    let alloc = rt.alloc();
    let row = |sensor, from, time| Coming {
        sensor,
        from,
        what: Fed::Row { time, value: 1 },
    };
    let failed = Coming {
        sensor: 1,
        from: 0,
        what: Fed::Unreadable,
    };
    let coming = vec![in alloc; row(0, 50, 10), row(1, 0, 60), failed]?;
    let Ok(mut feeds) = ListFeeds::new(alloc, coming) else {
        return Err("no memory")?;
    };
    assert!(rt; feeds.next(0, 49) == Fed::Nothing);
    assert!(rt; feeds.next(0, 50) == Fed::Row { time: 10, value: 1 });
    assert!(rt; feeds.next(0, 50) == Fed::End);
    assert!(rt; feeds.next(1, 59) == Fed::Nothing);
    assert!(rt; feeds.next(1, 60) == Fed::Row { time: 60, value: 1 });
    assert!(rt; feeds.next(1, 60) == Fed::Unreadable);
    let seen = [feeds.given()[0].row.seen, feeds.given()[1].row.seen];
    assert!(rt; seen == [50, 60]);
    Ok(())
}
