//! Survey: what decides whether provisions make a tree, gathered in one walk.

ghost use Rattle.std.specs.Prelude.{◌≡◌, ◌<◌, IfOk, OnOk, option_map, length, nat_lt, ◌||◌};
ghost use Rattle.act_tree.specs.Branches.{branches_of};

use crate::{BuildFault, MAX_DEPTH, MAX_TEXT_BYTES, NodeLimit, Nodes, eid_below};
use desk_base::{Memory, Text};
use eid_paths::Numbering;
use indexmap::IndexSet;
use std::alloc::Global;

/// The eIds of provisions, whether one stands twice, how many provisions there are, how deep the deepest is, and
/// whether a heading or content is too long. Both numbers stand still at 2^32 - 1.
#[derive(Debug, Drop)]
pub struct Survey {
    eids: IndexSet<Text>,
    twice: bool,
    count: u32,
    deepest: u32,
    long: bool,
}

fn is_long(text: &Text) -> bool
    ensures { result ≡ nat_lt MAX_TEXT_BYTES (length text.now) }
{
    text.as_str().len() > MAX_TEXT_BYTES
}

impl Survey {
    ghost use Rattle.act_tree.specs.Surveys.{seen, nothing, noted, fault_in};

    /// Nothing was found yet. It takes no memory.
    pub fn new(alloc: Global) -> Survey
        ensures { seen result ≡ nothing }
    {
        Survey {
            eids: IndexSet::new(alloc),
            twice: false,
            count: 0,
            deepest: 0,
            long: false,
        }
    }

    /// Notes a provision.
    pub fn note(
        &mut self,
        eid: Text,
        heading: &Text,
        content: &Text,
        depth: u32,
    ) -> Result<(), Memory>
        ensures { let long = nat_lt MAX_TEXT_BYTES (length heading.now) || nat_lt MAX_TEXT_BYTES (length content.now) in
            OnOk result (seen self.new ≡ noted (seen self.old) eid long depth) }
    {
        let added = self.eids.insert(eid)?;
        self.twice = self.twice || !added;
        self.count = self.count.saturating_add(1);
        self.deepest = self.deepest.max(depth);
        self.long = self.long || is_long(heading) || is_long(content);
        Ok(())
    }

    /// The first fault that was found, in a text of this limit.
    pub fn fault(&self, limit: NodeLimit) -> Option<BuildFault>
        ensures { result ≡ fault_in limit (seen self.now) }
    {
        if self.twice {
            Some(BuildFault::EidTwice)
        } else if self.deepest > MAX_DEPTH {
            Some(BuildFault::TooDeep)
        } else if self.count > limit.most() {
            Some(BuildFault::TooManyNodes)
        } else if self.long {
            Some(BuildFault::TextTooLong)
        } else {
            None
        }
    }
}
