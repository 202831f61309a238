//! Provisions that say something else of themselves, and stand where they stood.

use crate::NodeId;
use crate::arena::Arena;
use crate::level_hash::level_hash;
use desk_base::Text;
use eid_paths::Num;

impl Arena {
    ghost use Rattle.std.specs.Prelude.{◌≡◌, ◌<◌};
    ghost use Rattle.act_tree.specs.Arena.{provision_in};
    ghost use Rattle.act_tree.specs.Restated.{with_own, IsRestated};
    ghost use Rattle.act_tree.specs.Slots.{at, own_at, size, IsOwn};

    /// Gives a provision another content.
    #[tactic(auto, using(crate::proofs::HashedLevels::still_hashed, crate::proofs::OwnArenas::slots_own))]
    pub fn set_content(&mut self, id: NodeId, content: Text)
        requires within { id < size self.old }
        requires own { IsOwn self.old }
        ensures numbers { self.new.numbers ≡ self.old.numbers }
        ensures size { size self.new ≡ size self.old }
        ensures restated { IsRestated (at self.old) (at self.new) id
            (record (own_at self.old id) { content = content }) }
    {
        self.slots.at_mut(id.place()).content = content;
    }

    /// Gives a provision another num. The index of levels is told; it needs no memory.
    #[tactic(auto, using(crate::proofs::HashedLevels::rehashed, crate::proofs::HashedLevels::as_many_hashed, crate::proofs::OwnArenas::slots_own, crate::proofs::OwnArenas::levels_own))]
    pub fn set_num(&mut self, id: NodeId, num: Num)
        requires within { id < size self.old }
        requires own { IsOwn self.old }
        ensures numbers { self.new.numbers ≡ self.old.numbers }
        ensures size { size self.new ≡ size self.old }
        ensures restated { IsRestated (at self.old) (at self.new) id (record (own_at self.old id) { num = num }) }
    {
        let slot = self.slots.at_mut(id.place());
        self.levels.set(id.place(), level_hash(slot.element, &num));
        slot.num = num;
    }
}
