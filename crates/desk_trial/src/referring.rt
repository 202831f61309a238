//! Referring: which references dangle on a day, by the index that an office keeps.

use desk_base::{Clock, Day, Memory};
use law_keeper::Keeper;
use law_office::Office;
use law_refs::DanglingRef;
use std::alloc::Global;
use std::str;

// The line of references that dangle: of each the work, the eId, the reference and the number of its cause.
fn dangling_line(alloc: Global, found: &[DanglingRef]) -> Result<Vec<u8>, Memory> {
    let mut line = String::from_str(alloc, "dangling")?;
    for one in found {
        let (work, eid, iri) = (one.work.as_str(), one.eid.as_str(), one.iri.as_str());
        let cause = one.cause;
        line.push_str(format!(in alloc; " {work} {eid} {iri} {cause}")?.as_str())?;
    }
    Ok(line.into_bytes())
}

// The same, of the day that a word names. `None`: it names none.
fn told_on<K: Keeper, C: Clock>(
    alloc: Global,
    office: &Office<'_, '_, K, C>,
    day: &str,
) -> Result<Option<Vec<u8>>, Memory> {
    let Some(day) = Day::from_text(day) else {
        return Ok(None);
    };
    let found = office.dangling(alloc, day)?;
    Ok(Some(dangling_line(alloc, found.as_slice())?))
}

/// What is told of `dangling DAY`. `None`: the line is another.
pub fn told_of_dangling<K: Keeper, C: Clock>(
    alloc: Global,
    office: &Office<'_, '_, K, C>,
    line: &[u8],
) -> Result<Option<Vec<u8>>, Memory> {
    let Ok(text) = str::from_utf8(line) else {
        return Ok(None);
    };
    let Some((word, day)) = text.split_once(' ') else {
        return Ok(None);
    };
    if word == "dangling" {
        told_on(alloc, office, day)
    } else {
        Ok(None)
    }
}
