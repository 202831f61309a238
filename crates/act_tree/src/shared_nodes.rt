//! Nodes that copies share: a clause sees them as it sees `Nodes`.

ghost use Rattle.std.specs.Prelude.{◌≡◌, IfOk};
ghost use Rattle.std.specs.Cmp.{decided, partial_equiv_from_equiv};
ghost use Rattle.act_tree.specs.SameNodes as spec;

use crate::Nodes;
use desk_base::Memory;
use std::alloc::Global;
use std::marker::Model;
use std::ops::Deref;
use std::sync::Arc;

/// Nodes that their copies share: a copy costs a count, and no node. They are never changed.
#[derive(Debug, Drop)]
pub struct SharedNodes {
    nodes: Arc<Nodes>,
}

impl Model for SharedNodes {
    ghost use Rattle.std.specs.Prelude.{List};
    ghost use Rattle.std.specs.Arc.{arc_value};
    ghost use Rattle.act_tree.specs.Branches.{Branch};
    ghost use Rattle.act_tree.specs.Provisions.{Own};
    ghost use Rattle.act_tree.specs.OwnCode.{own_code};
    ghost use Rattle.act_tree.specs.Codes.{branches_code};

    ghost Value = { List (Branch Own) };

    ghost coded = { branches_code own_code };

    ghost view = { λ s. arc_value s.nodes };
}

impl SharedNodes {
    /// The nodes, behind a count.
    pub fn new(alloc: Global, nodes: Nodes) -> Result<SharedNodes, Memory>
        ensures { IfOk result (λ shared. shared ≡ nodes) }
    {
        Ok(SharedNodes {
            nodes: Arc::new(alloc, nodes)?,
        })
    }

    /// The same nodes, shared.
    pub fn copy(&self) -> Result<SharedNodes, Memory>
        ensures { IfOk result (λ shared. shared ≡ self.now) }
    {
        Ok(SharedNodes {
            nodes: self.nodes.clone()?,
        })
    }
}

impl Deref for SharedNodes {
    type Target = Nodes;

    ghost deref_gives = { λ s nodes. nodes ≡ s };

    fn deref(&self) -> &Nodes {
        &self.nodes
    }
}

impl PartialEq for SharedNodes {
    ghost eq = { spec.same_nodes };

    ghost laws = { partial_equiv_from_equiv (decided spec.same_nodes spec.nodes_decide) };

    fn eq(&self, other: &SharedNodes) -> bool {
        **self == **other
    }
}

impl Eq for SharedNodes {
    ghost laws = { decided spec.same_nodes spec.nodes_decide };
}
