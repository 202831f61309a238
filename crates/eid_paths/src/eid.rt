//! Eid: a text that is an eId. A clause sees one as the list of its levels.

ghost use Rattle.std.specs.Prelude.{◌≡◌, ◌<◌, Some, length, slice_get};
ghost use Rattle.eid_paths.specs.Eids.{eid_of};

use crate::level::level_of;
use crate::parts::{first_part, nth_part};
use crate::{EidFault, Level};
use std::marker::Model;

/// The levels that a text spells. It lends the text.
#[derive(Debug, Drop)]
pub struct Eid<'a> {
    text: &'a str,
    len: usize,
}

impl<'a> Model for Eid<'a> {
    ghost use Rattle.std.specs.Prelude.{◌≡◌, Ok, List, length};
    ghost use Rattle.eid_paths.specs.declared.level.Level.{Level};
    ghost use Rattle.eid_paths.specs.Eids.{eid_of, levels_in};

    ghost Value = { List Level };

    ghost view = { λ e. levels_in e.text.now };

    ghost invariant = { λ e. (eid_of e.text.now ≡ Ok (levels_in e.text.now))
        × (e.len ≡ length (levels_in e.text.now)) };
}

impl Eid<'_> {
    /// The number of levels, which is at least one.
    pub fn len(&self) -> usize
        ensures value { result ≡ length self.now }
        ensures some { 0 < result }
    {
        self.len
    }

    /// The level at an index below the number of levels.
    pub fn level(&self, i: usize) -> Level
        requires { i < length self.now }
        ensures { slice_get self.now i ≡ Some result }
    {
        let part = nth_part(self.text, i).unwrap();
        level_of(part).unwrap()
    }
}

/// The eId that a text is, or the first fault of its levels.
pub fn parse_eid(text: &str) -> Result<Eid<'_>, EidFault>
    ensures { result ≡ eid_of text.now }
{
    let mut place = 0u64;
    let mut len = 0;
    let mut rest = Some(text);
    'levels: while let Some(left) = rest {
        let (part, behind) = first_part(left);
        if let Err(rule) = level_of(part) {
            return Err(EidFault { rule, place });
        }
        place += part.len() as u64 + 2;
        len += 1;
        rest = behind;
    }
    Ok(Eid { text, len })
}
