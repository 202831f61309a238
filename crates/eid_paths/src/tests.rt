//! eIds, against a table that was written by hand.

use crate::{Eid, EidRule, Element, Numbering, parse_eid, put_eid};
use std::alloc::AllocGlobal;
use std::process::Abort;
use std::test::Fail;

// A text, and the number of its levels with the last one, or the rule that it breaks and where.
const CASES: [(&str, Result<(usize, Element, &str), (EidRule, u64)>); 24] = [
    ("art_1", Ok((1, Element::Article, "1"))),
    ("part_2__chp_1", Ok((2, Element::Chapter, "1"))),
    (
        "sec_3__para_1__subpara_ii",
        Ok((3, Element::Subparagraph, "ii")),
    ),
    ("art_3a__al_-", Ok((2, Element::Alinea, "-"))),
    (
        "indent_1234567890ABCDEF",
        Ok((1, Element::Indent, "1234567890ABCDEF")),
    ),
    ("subsec_a__cl_1__subcl_2", Ok((3, Element::Subclause, "2"))),
    ("book_I__title_II__point_x", Ok((3, Element::Point, "x"))),
    ("", Err((EidRule::EmptyLevel, 0))),
    ("__art_1", Err((EidRule::EmptyLevel, 0))),
    ("art_1__", Err((EidRule::EmptyLevel, 7))),
    ("art_1____para_2", Err((EidRule::EmptyLevel, 7))),
    ("art", Err((EidRule::UnknownElement, 0))),
    ("art__1", Err((EidRule::UnknownElement, 0))),
    ("_", Err((EidRule::UnknownElement, 0))),
    ("_1", Err((EidRule::UnknownElement, 0))),
    ("article_1", Err((EidRule::UnknownElement, 0))),
    ("Art_1", Err((EidRule::UnknownElement, 0))),
    ("sec_1__subsection_a", Err((EidRule::UnknownElement, 7))),
    ("sec_1___2", Err((EidRule::UnknownElement, 7))),
    ("art_", Err((EidRule::BadNum, 0))),
    ("art_1_2", Err((EidRule::BadNum, 0))),
    ("part_2__chp_1.", Err((EidRule::BadNum, 8))),
    ("chp_12345678901234567", Err((EidRule::BadNum, 0))),
    ("sec_1__para_é__point", Err((EidRule::BadNum, 7))),
];

// Spells an eId again, level by level.
fn spelled_again<R: AllocGlobal + Abort>(rt: &R, eid: &Eid<'_>, text: &str) -> Result<(), Fail> {
    let mut levels = Vec::new(rt.alloc());
    for i in 0..eid.len() {
        levels.push(eid.level(i))?;
    }
    if levels.is_empty() {
        return Err(Fail::from("no level"));
    }
    let spelled = put_eid(rt.alloc(), &levels)?;
    assert_eq!(rt; spelled.as_str(), text);
    Ok(())
}

#[test]
fn eids_are_read_and_spelled(rt: HostRuntime) -> Result<(), Fail> {
    for (text, wanted) in CASES {
        match (parse_eid(text), wanted) {
            (Ok(eid), Ok((len, element, num))) => {
                assert_eq!(rt; eid.len(), len, "{text}");
                let last = eid.level(eid.len() - 1);
                assert_eq!(rt; last.element, element, "{text}");
                assert_eq!(rt; last.num.as_str(), num, "{text}");
                spelled_again(&rt, &eid, text)?;
            }
            (Err(fault), Err((rule, place))) => {
                assert_eq!(rt; fault.rule, rule, "{text}");
                assert_eq!(rt; fault.place, place, "{text}");
            }
            _ => assert!(rt; false, "{text}"),
        }
    }
    Ok(())
}

#[test]
fn numberings_have_the_elements_named(rt: HostRuntime) -> Result<(), Fail> {
    let numbering = Numbering::of(&[Element::Point, Element::Article, Element::Point]);
    assert!(rt; numbering.has(Element::Point) && numbering.has(Element::Article));
    assert!(rt; !numbering.has(Element::Section));
    assert_eq!(rt;
        Numbering::of(&[Element::Section, Element::Article]),
        Numbering::DEFAULT
    );
    Ok(())
}
