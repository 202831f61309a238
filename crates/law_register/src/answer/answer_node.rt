//! The provisions of an answer: a clause sees them as a list of nested branches.

ghost use Rattle.std.specs.Prelude.{◌≡◌, ◌≤◌, [], ◌++◌, ◌∷◌, OnOk, OnErr};
ghost use Rattle.act_tree.specs.Branches.{height};
ghost use Rattle.act_tree.specs.declared.limits.TheConstants.{MAX_DEPTH};
ghost use Rattle.law_register.specs.Answer.ShownNodes.{shown_view};

use act_tree::Refs;
use desk_base::{Memory, Text};
use eid_paths::{Element, Num};
use std::alloc::Global;
use std::marker::Model;

/// A provision of an answer, with all beneath it.
#[derive(Debug, Drop)]
#[cycle(nodes)]
pub struct AnswerNode {
    /// The kind of provision.
    pub element: Element,
    /// Its number.
    pub num: Num,
    /// Its wId, which it has in every expression of the act.
    pub wid: Text,
    /// Its eId in this expression.
    pub eid: Text,
    /// Its heading, empty where it has none.
    pub heading: Text,
    /// Its text, empty where it has none.
    pub content: Text,
    /// The expressions that it refers to.
    pub refs: Refs,
    /// Whether it bears on the day, in the reading.
    pub bears: bool,
    /// The provisions right beneath it.
    pub children: AnswerNodes,
}

/// Provisions of an answer side by side, in order. They nest no deeper than a text: so deep goes each walk over them.
#[derive(Debug, Drop)]
#[cycle(nodes)]
pub struct AnswerNodes {
    /// The provisions.
    pub items: Vec<AnswerNode>,
}

impl Model for AnswerNodes {
    ghost use Rattle.std.specs.Prelude.{◌≤◌, List};
    ghost use Rattle.act_tree.specs.Branches.{Branch, tallest};
    ghost use Rattle.act_tree.specs.Codes.{branches_code};
    ghost use Rattle.act_tree.specs.declared.limits.TheConstants.{MAX_DEPTH};
    ghost use Rattle.law_register.specs.Answer.Shown.{Shown, shown_code};

    ghost Value = { List (Branch Shown) };

    ghost coded = { branches_code shown_code };

    ghost use Rattle.law_register.specs.Answer.ShownNodes.{shown_list};

    ghost view = { λ a. shown_list a.items.items };

    ghost invariant = { λ a. tallest (shown_list a.items.items) ≤ MAX_DEPTH };

    ghost size = { tallest };

    ghost use Rattle.std.proofs.Common.{arith};
    ghost use Rattle.law_register.specs.Answer.ShownNodes.{most_le-shown};

    ghost size_decreases = { λ a h. omega (arith, most_le-shown a.items.items) };
}

impl AnswerNodes {
    /// No provisions. It takes no memory.
    pub fn new(alloc: Global) -> AnswerNodes
        ensures { result ≡ [] }
    {
        AnswerNodes {
            items: Vec::new(alloc),
        }
    }

    /// Adds a provision behind the others.
    pub fn push(&mut self, node: AnswerNode) -> Result<(), Memory>
        requires depth { height (shown_view node) ≤ MAX_DEPTH }
        ensures ok { OnOk result (self.new ≡ self.old ++ shown_view node ∷ []) }
        ensures err { OnErr result (self.new ≡ self.old) }
    {
        self.items.push(node)?;
        Ok(())
    }
}
