//! The edit that a textual modification makes.

use crate::Pairs;
use act_tree::SharedNodes;
use desk_base::Text;
use eid_paths::Num;

/// An occurrence of a text in a content. Occurrences are counted from the left, from 1; the search for the next begins
/// behind the end of the last.
#[derive(Debug, PartialEq, Eq, Drop)]
pub struct Spot {
    /// The text that is looked for, not empty, at most 16,384 bytes.
    pub old: Text,
    /// Which occurrence, from 1.
    pub occurrence: u16,
}

/// Where nodes stand that are inserted.
#[derive(Clone, Copy, Debug, PartialEq, Eq)]
pub enum Pos {
    /// Right before the provision, among its siblings.
    Before,
    /// Right behind the provision, among its siblings.
    After,
    /// First among its children.
    Start,
    /// Last among its children.
    End,
}

/// Where a text stands that is inserted.
#[derive(Debug, PartialEq, Eq, Drop)]
pub enum TextPos {
    /// Before the content.
    Start,
    /// Behind the content.
    End,
    /// Right before an occurrence.
    Before(Spot),
    /// Right behind an occurrence.
    After(Spot),
}

/// Where a provision is split.
#[derive(Debug, PartialEq, Eq, Drop)]
pub enum SplitAt {
    /// At an occurrence: the new provision begins with it, and has all children.
    Text(Spot),
    /// At the child of this wId: the new provision has it and those behind it, and no content.
    Child(Text),
}

/// One edit of a tree. Its targets are named by wId, each 1 to 512 bytes; each text has at most 16,384 bytes.
#[derive(Debug, PartialEq, Eq, Drop)]
pub enum TextualMod {
    /// The target goes, with all that stands beneath it. The target `body` is the whole text.
    Repeal {
        /// The wId of the target.
        wid: Text,
    },
    /// Nodes stand in the place of the target, which goes with all that stands beneath it. Of the target `body` they
    /// are the children.
    SubstituteNodes {
        /// The wId of the target.
        wid: Text,
        /// The nodes, 1 to 64 side by side.
        new: SharedNodes,
    },
    /// An occurrence in the content of the target becomes another text.
    SubstituteText {
        /// The wId of the target.
        wid: Text,
        /// The occurrence.
        spot: Spot,
        /// What it becomes.
        new: Text,
    },
    /// Nodes stand beside a provision, or among its children.
    InsertNodes {
        /// The wId of the provision, or `body`.
        wid: Text,
        /// Where they stand.
        pos: Pos,
        /// The nodes, 1 to 64 side by side.
        new: SharedNodes,
    },
    /// A text stands in the content of a provision.
    InsertText {
        /// The wId of the provision.
        wid: Text,
        /// Where it stands.
        at: TextPos,
        /// The text.
        new: Text,
    },
    /// Provisions get other nums, all at once.
    Renumber {
        /// Each provision with its num, 1 to 64, no provision twice.
        pairs: Pairs,
    },
    /// A provision keeps its first part; right behind it stands a new one of the same element with the second.
    Split {
        /// The wId of the target.
        wid: Text,
        /// Where it is split.
        at: SplitAt,
        /// The num of the new provision.
        num: Num,
        /// The heading of the new provision.
        heading: Text,
    },
    /// A provision takes in its next sibling, whose heading goes.
    Join {
        /// The wId of the provision.
        wid: Text,
        /// The wId of the sibling.
        second: Text,
        /// What stands between both contents.
        separator: Text,
    },
}
