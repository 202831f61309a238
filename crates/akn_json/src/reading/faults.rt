//! The faults of forms outside of the modifications, one for each rule.

use crate::{FormFault, FormRule, ReadFail};

pub(super) const NOT_JSON: ReadFail = ReadFail::Form(FormFault {
    rule: FormRule::NotJson,
    place: 0,
});

pub(super) const WRONG_SHAPE: ReadFail = ReadFail::Form(FormFault {
    rule: FormRule::WrongShape,
    place: 0,
});

pub(super) const BAD_NAME: ReadFail = ReadFail::Form(FormFault {
    rule: FormRule::BadName,
    place: 0,
});

pub(super) const BAD_DAY: ReadFail = ReadFail::Form(FormFault {
    rule: FormRule::BadDay,
    place: 0,
});

pub(super) const BAD_ELEMENT: ReadFail = ReadFail::Form(FormFault {
    rule: FormRule::BadElement,
    place: 0,
});

pub(super) const BAD_NUMBER: ReadFail = ReadFail::Form(FormFault {
    rule: FormRule::BadNumber,
    place: 0,
});

pub(super) const UNKNOWN_WORD: ReadFail = ReadFail::Form(FormFault {
    rule: FormRule::UnknownWord,
    place: 0,
});

pub(super) const DATE_DIFFERS: ReadFail = ReadFail::Form(FormFault {
    rule: FormRule::DateDiffers,
    place: 0,
});

pub(super) const TOO_LONG: ReadFail = ReadFail::Form(FormFault {
    rule: FormRule::TooLong,
    place: 0,
});
