//! Names written by hand, with the rule that each breaks and the byte at which the part begins.

use crate::{IriDate, NameFault, NameRule, WorkName, parse_expression, parse_work};
use desk_base::Day;
use std::alloc::{AllocError, Global};
use std::test::Fail;

// A text with some letters in its midst.
fn with_letters(
    alloc: Global,
    front: &str,
    count: usize,
    back: &str,
) -> Result<String, AllocError> {
    let mut text = String::from_str(alloc, front)?;
    for _ in 0..count {
        text.push('x')?;
    }
    text.push_str(back)?;
    Ok(text)
}

fn work_fault(text: &str) -> Option<NameFault> {
    match parse_work(text) {
        Ok(_) => None,
        Err(fault) => Some(fault),
    }
}

fn expression_fault(text: &str) -> Option<NameFault> {
    match parse_expression(text) {
        Ok(_) => None,
        Err(fault) => Some(fault),
    }
}

#[test]
fn works_are_read(rt: HostRuntime) -> Result<(), Fail> {
    let cases = [
        ("", NameRule::NotAkn, 0),
        ("akn/it/act/2010/1", NameRule::NotAkn, 0),
        ("/akn/", NameRule::BadJurisdiction, 5),
        ("/akn/It/act/2010/1", NameRule::BadJurisdiction, 5),
        ("/akn/it-abcdefghi/act/2010/1", NameRule::BadJurisdiction, 5),
        ("/akn/it", NameRule::NotAnAct, 7),
        ("/akn/it/bill/2010/1", NameRule::NotAnAct, 8),
        ("/akn/it/act", NameRule::BadDate, 11),
        ("/akn/it/act/decree", NameRule::BadDate, 18),
        ("/akn/it/act/a/b/c/2010/1", NameRule::BadDate, 16),
        ("/akn/it/act/0000/1", NameRule::BadDate, 12),
        ("/akn/it/act/2010-02-30/1", NameRule::BadDate, 12),
        ("/akn/it/act/2010", NameRule::BadNumber, 16),
        ("/akn/it/act/2010/", NameRule::BadNumber, 17),
        ("/akn/it/act/2010/1/2", NameRule::BadNumber, 17),
    ];
    for (text, rule, place) in cases {
        assert_eq!(rt;
            work_fault(text),
            Some(NameFault { rule, place }),
            "in {text}"
        );
    }
    for text in [
        "/akn/gb-sct45678/act/0001/1",
        "/akn/it/act/9999/a.b_c-1",
        "/akn/it/act/decree/minister/2012-02-29/122",
    ] {
        assert_eq!(rt; work_fault(text), None, "in {text}");
    }
    let alloc = rt.alloc();
    let word = with_letters(alloc, "/akn/it/act/", 32, "/2010/1")?;
    assert_eq!(rt; work_fault(word.as_str()), None);
    let word = with_letters(alloc, "/akn/it/act/", 33, "/2010/1")?;
    assert_eq!(rt;
        work_fault(word.as_str()),
        Some(NameFault {
            rule: NameRule::BadDate,
            place: 12
        })
    );
    let number = with_letters(alloc, "/akn/it/act/2010/", 64, "")?;
    assert_eq!(rt; work_fault(number.as_str()), None);
    let number = with_letters(alloc, "/akn/it/act/2010/", 65, "")?;
    assert_eq!(rt;
        work_fault(number.as_str()),
        Some(NameFault {
            rule: NameRule::BadNumber,
            place: 17
        })
    );
    Ok(())
}

#[test]
fn expressions_are_read(rt: HostRuntime) -> Result<(), Fail> {
    let cases = [
        ("/akn/it/act/2010//eng@", NameRule::BadNumber, 17),
        ("/akn/it/act/2010/1", NameRule::BadLanguage, 18),
        ("/akn/it/act/2010/1/eng", NameRule::BadLanguage, 19),
        ("/akn/it/act/2010/1/en@", NameRule::BadLanguage, 19),
        ("/akn/it/act/2010/1/Eng@", NameRule::BadLanguage, 19),
        ("/akn/it/act/2010/1/eng@2010", NameRule::BadDate, 23),
        (
            "/akn/it/act/2010/1/eng@2010-01-01~sec_1",
            NameRule::BadDate,
            23,
        ),
        (
            "/akn/it/act/2010/1/eng@/!annex",
            NameRule::OtherComponent,
            23,
        ),
        (
            "/akn/it/act/2010/1/eng@/!main2/~a",
            NameRule::OtherComponent,
            23,
        ),
        ("/akn/it/act/2010/1/eng@/!", NameRule::OtherComponent, 23),
        ("/akn/it/act/2010/1/eng@/", NameRule::BadPortion, 23),
        ("/akn/it/act/2010/1/eng@/sec_1", NameRule::BadPortion, 23),
        ("/akn/it/act/2010/1/eng@/~", NameRule::BadPortion, 23),
        ("/akn/it/act/2010/1/eng@/~a/b", NameRule::BadPortion, 23),
        ("/akn/it/act/2010/1/eng@/~a.b", NameRule::BadPortion, 23),
        ("/akn/it/act/2010/1/eng@/!main/", NameRule::BadPortion, 29),
        ("/akn/it/act/2010/1/eng@/!main~", NameRule::BadPortion, 29),
    ];
    for (text, rule, place) in cases {
        assert_eq!(rt;
            expression_fault(text),
            Some(NameFault { rule, place }),
            "in {text}"
        );
    }
    let alloc = rt.alloc();
    let portion = with_letters(alloc, "/akn/it/act/2010/1/eng@/~", 512, "")?;
    assert_eq!(rt; expression_fault(portion.as_str()), None);
    let portion = with_letters(alloc, "/akn/it/act/2010/1/eng@/~", 513, "")?;
    assert_eq!(rt;
        expression_fault(portion.as_str()),
        Some(NameFault {
            rule: NameRule::BadPortion,
            place: 23
        })
    );
    Ok(())
}

// How a name is spelled again, and the number of the work that it names.
#[test]
fn names_are_spelled(rt: HostRuntime) -> Result<(), Fail> {
    let cases = [
        ("/akn/it/act/2010/1/eng@", "/akn/it/act/2010/1/eng@"),
        ("/akn/it/act/2010/1/eng@/!main", "/akn/it/act/2010/1/eng@"),
        (
            "/akn/it/act/2010/1/eng@2011-05-01/!main~sec_1",
            "/akn/it/act/2010/1/eng@2011-05-01/~sec_1",
        ),
        (
            "/akn/it/act/2010/1/eng@/!main/~sec-1",
            "/akn/it/act/2010/1/eng@/~sec-1",
        ),
    ];
    for (text, spelled) in cases {
        let Ok(iri) = parse_expression(text) else {
            return Err("no name")?;
        };
        assert_eq!(rt; iri.put(rt.alloc())?.as_str(), spelled, "of {text}");
        assert_eq!(rt; iri.work.text, "/akn/it/act/2010/1", "of {text}");
        assert_eq!(rt; iri.work.number, "1", "of {text}");
    }
    Ok(())
}

#[test]
fn works_are_kept(rt: HostRuntime) -> Result<(), Fail> {
    let Ok(iri) = parse_work("/akn/it/act/2010/1") else {
        return Err("no name")?;
    };
    let name = WorkName::copy_of(rt.alloc(), &iri)?;
    assert_eq!(rt; name.date(), IriDate::Year(2010));
    assert_eq!(rt; Some(name.day()), Day::from_text("2010-01-01"));
    assert_eq!(rt; name.copy()?.as_str(), "/akn/it/act/2010/1");
    assert!(rt; name == name.copy()?);
    Ok(())
}
