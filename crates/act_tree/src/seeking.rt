//! Seeking: the provisions of a level among all that were laid down, from the last to the first. Those whose levels share
//! a bucket of hashes are visited, and no others.

use crate::NodeId;
use crate::arena::Arena;
use crate::level_hash::level_hash;
use crate::levels::is_level;
use eid_paths::{Element, Num};

impl Arena {
    ghost use Rattle.std.specs.Prelude.{◌≡◌, ◌<◌, ◌≤◌, ◌^◌, true};
    ghost use Rattle.std.specs.Str.{bytes_eq};
    ghost use Rattle.eid_paths.specs.Levels.{level_text};
    ghost use Rattle.act_tree.specs.Arena.{provision_in};
    ghost use Rattle.act_tree.specs.EidLevels.{own_level};
    ghost use Rattle.act_tree.specs.LevelHashes.{level_hash};
    ghost use Rattle.act_tree.specs.HashIndex.{EndsIn};
    ghost use Rattle.act_tree.specs.LevelsOfNodes.{latest_at};
    ghost use Rattle.act_tree.specs.Slots.{at, size};

    // The last of the first so many numbers whose provision has this level, where the last of them shares the bucket of
    // the level's hash.
    fn last_below(&self, element: Element, num: &Num, end: usize) -> Option<NodeId>
        requires within { end ≤ size self.now }
        requires fits { size self.now ≤ 2 ^ 32 }
        requires bucket { EndsIn self.now.levels (level_hash (level_text element num.now)) end }
        ensures { result ≡ latest_at (at self.now) (level_text element num.now) end }
    {
        let mut end = end;
        while end > 0 {
            let place = end - 1;
            if is_level(&self.slots[place], element, num) {
                return NodeId::of_place(place);
            }
            end = self.levels.previous(place);
        }
        None
    }

    /// The last number whose provision has this level, of all that were laid down. `None`: none has it. (The numbers that
    /// share the hash of the level are visited, and no others.)
    pub fn last_of_level(&self, element: Element, num: &Num) -> Option<NodeId>
        requires { size self.now ≤ 2 ^ 32 }
        ensures { result ≡ latest_at (at self.now) (level_text element num.now) (size self.now) }
    {
        let end = self.levels.last(level_hash(element, num));
        self.last_below(element, num, end)
    }

    /// The last number before one that has this level whose provision has it too.
    pub fn level_before(&self, element: Element, num: &Num, id: NodeId) -> Option<NodeId>
        requires within { id < size self.now }
        requires fits { size self.now ≤ 2 ^ 32 }
        requires level { bytes_eq (level_text element num.now) (own_level (provision_in (at self.now id)).own) ≡ true }
        ensures { result ≡ latest_at (at self.now) (level_text element num.now) id }
    {
        let end = self.levels.previous(id.place());
        self.last_below(element, num, end)
    }
}
