mod outside;

use crate::{
    BytesSink, BytesSource, Day, Failed, Id, ReaderSource, Sink, Source, Text, WriterSink,
};
use std::collections::HashMap;
use std::test::Fail;

// A read through the bound, as callers make it.
fn next<S: Source>(source: &mut S, into: &mut [u8]) -> Result<usize, Failed> {
    source.read(into)
}

// A write through the bound.
fn put<S: Sink>(sink: &mut S, bytes: &[u8]) -> Result<(), Failed> {
    sink.write_all(bytes)
}

#[test]
fn days_are_read_and_spelled(rt: HostRuntime) -> Result<(), Fail> {
    // The numbers are those of Python's `date.toordinal`.
    let days = [
        ("0001-01-01", 1),
        ("0004-02-29", 1_155),
        ("1582-10-15", 577_736),
        ("1900-02-28", 693_654),
        ("1900-03-01", 693_655),
        ("1970-01-01", 719_163),
        ("1999-12-31", 730_119),
        ("2000-02-29", 730_179),
        ("2024-02-29", 738_945),
        ("9999-12-31", 3_652_059),
    ];
    for (text, number) in days {
        let day = Day::from_number(number).expect(&rt, "a number from 1 to 3652059");
        assert_eq!(rt; Day::from_text(text), Some(day), "at {number}");
        let spelled = day.spelled(rt.alloc())?;
        assert_eq!(rt; spelled.as_str(), text, "at {number}");
    }
    let others = [
        "0000-01-01",
        "1900-02-29",
        "2010-02-30",
        "2010-13-01",
        "2010-01-00",
        "2010/01/01",
        "+010-01-01",
        "20100101",
    ];
    for text in others {
        assert_eq!(rt; Day::from_text(text), None, "at {text}");
    }
    Ok(())
}

#[test]
fn streams_fail_where_they_are_told_to(rt: HostRuntime) -> Result<(), Fail> {
    let mut source = BytesSource::new(rt.alloc(), b"abc", 2, &[2])?;
    let mut into = [0; 4];
    for answer in [Ok(2), Err(Failed), Ok(1), Ok(0)] {
        assert_eq!(rt; next(&mut source, &mut into), answer);
    }
    assert_eq!(rt; &into, b"cb\0\0");

    let mut sink = BytesSink::new(rt.alloc(), 5, &[2])?;
    for answer in [Ok(()), Err(Failed), Ok(()), Err(Failed)] {
        assert_eq!(rt; put(&mut sink, b"xy"), answer);
    }
    assert_eq!(rt; sink.bytes(), b"xyxyx".as_slice());
    Ok(())
}

#[test]
fn each_other_call_succeeds(rt: HostRuntime) -> Result<(), Fail> {
    let mut into = [0; 4];
    assert_eq!(rt;
        next(&mut ReaderSource::new(&b"abcde"[..]), &mut into),
        Ok(4)
    );
    assert_eq!(rt; &into, b"abcd");

    let mut room = [0; 4];
    let mut sink = WriterSink::new(&mut room[..]);
    assert_eq!(rt; put(&mut sink, b"abc"), Ok(()));
    assert_eq!(rt; put(&mut sink, b"de"), Err(Failed));

    let id = Id { law: 12, item: 3 };
    let wid = Text::from_string(id.spelled(rt.alloc())?)?;
    let mut places = HashMap::new(rt.alloc());
    places.insert(wid.copy()?, 7)?;
    let same = Text::copy_of(rt.alloc(), "12.3")?;
    assert_eq!(rt; places.get(&same), Some(&7));
    Ok(())
}
