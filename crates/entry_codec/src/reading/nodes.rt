//! Nodes, which nest at most 12 deep, each level by a call of its own with one level less.

ghost use Rattle.std.specs.Prelude.{◌≡◌, ◌≤◌, ◌<◌};
ghost use Rattle.act_tree.specs.Specs.{own_of, spec_view};
ghost use Rattle.act_tree.specs.declared.limits.TheConstants.{MAX_DEPTH};
ghost use Rattle.entry_codec.specs.Reads.{Reads};
ghost use Rattle.entry_codec.specs.Fields.{each};
ghost use Rattle.entry_codec.specs.Nodes as spec;

use super::reader::{Reader, Stop};
use act_tree::{NodeSpec, Nodes, SharedNodes};
use eid_paths::Element;
use std::alloc::Global;

impl<'a> Reader<'a> {
    #[tactic(auto, unfolding(crate::specs::Nodes::element))]
    fn element(&mut self) -> Result<Element, Stop>
        ensures { Reads (λ e. e) result self.new.left.now (spec.element.read self.old.left.now) }
    {
        let start = self.left.len();
        let place = self.byte()?;
        match Element::at(place as usize) {
            Some(element) => Ok(element),
            None => Err(Stop::Broken(start)),
        }
    }

    // What a node says of itself, with no nodes beneath it yet.
    #[tactic(auto, unfolding(crate::specs::Nodes::own))]
    fn own(&mut self, alloc: Global) -> Result<NodeSpec, Stop>
        ensures { Reads own_of result self.new.left.now (spec.own.read self.old.left.now) }
    {
        let element = self.element()?;
        let num = self.num()?;
        let heading = self.text(alloc)?;
        let content = self.text(alloc)?;
        let refs = self.refs(alloc)?;
        Ok(NodeSpec {
            element,
            num,
            heading,
            content,
            refs,
            children: Nodes::new(alloc),
        })
    }

    // The nodes beneath one at the greatest depth: none.
    #[tactic(auto, unfolding(crate::specs::Nodes::nodes))]
    fn no_nodes(&mut self, alloc: Global) -> Result<Nodes, Stop>
        ensures { Reads (λ n. n) result self.new.left.now ((spec.nodes 0).read self.old.left.now) }
    {
        let start = self.left.len();
        if self.number16()? != 0 {
            return Err(Stop::Broken(start));
        }
        Ok(Nodes::new(alloc))
    }

    // A node, beneath which nodes nest so deep at most.
    #[cycle(nodes)]
    fn node(&mut self, alloc: Global, depth: u8) -> Result<NodeSpec, Stop>
        requires depth { depth < MAX_DEPTH }
        ensures { Reads spec_view result self.new.left.now ((spec.node depth).read self.old.left.now) }
    {
        let mut node = self.own(alloc)?;
        node.children = self.nodes(alloc, depth)?;
        Ok(node)
    }

    #[cycle(nodes)]
    fn each_node(&mut self, alloc: Global, depth: u8, count: u16) -> Result<Nodes, Stop>
        requires depth { depth < MAX_DEPTH }
        ensures { Reads (λ n. n) result self.new.left.now ((each (spec.node depth) count).read self.old.left.now) }
    {
        let mut nodes = Nodes::new(alloc);
        for _ in 0..count {
            nodes.push(self.node(alloc, depth)?)?;
        }
        Ok(nodes)
    }

    // Nodes that nest so deep at most.
    #[cycle(nodes)]
    fn nodes(&mut self, alloc: Global, depth: u8) -> Result<Nodes, Stop>
        requires depth { depth ≤ MAX_DEPTH }
        ensures { Reads (λ n. n) result self.new.left.now ((spec.nodes depth).read self.old.left.now) }
    {
        if depth == 0 {
            return self.no_nodes(alloc);
        }
        let count = self.number16()?;
        self.each_node(alloc, depth - 1, count)
    }

    /// The nodes that an act or an edit brings.
    #[tactic(auto, unfolding(crate::specs::Nodes::payload))]
    pub fn payload(&mut self, alloc: Global) -> Result<SharedNodes, Stop>
        ensures { Reads (λ n. n) result self.new.left.now (spec.payload.read self.old.left.now) }
    {
        let nodes = self.nodes(alloc, 12)?;
        Ok(SharedNodes::new(alloc, nodes)?)
    }
}
