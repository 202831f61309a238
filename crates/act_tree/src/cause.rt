//! Cause: why a modification could not be applied.

ghost use Rattle.std.specs.Prelude.{◌≡◌};
ghost use Rattle.act_tree.specs.Causes.{cause_name};

/// Why a textual modification could not be applied to a tree.
#[derive(Clone, Copy, Debug, PartialEq, Eq)]
pub enum Cause {
    /// A wId that is named as target is not in the tree.
    TargetMissing,
    /// The place that an insertion, a split or a join is held against is not there.
    AnchorMissing,
    /// The content has fewer occurrences of the old text than asked.
    OldTextMissing,
    /// Two provisions of the result would have one eId.
    NumberTaken,
    /// The elements of the provisions that are to be joined differ.
    KindsDiffer,
    /// The result nests deeper than 12 levels.
    TooDeep,
    /// The result has more provisions than its act allows.
    TooManyNodes,
    /// A heading or content of the result has more than 16,384 bytes.
    TextTooLong,
}

impl Cause {
    /// The name of the cause, as answers print it.
    pub fn name(self) -> &'static str
        ensures { result.now ≡ cause_name self }
    {
        match self {
            Cause::TargetMissing => "TargetMissing",
            Cause::AnchorMissing => "AnchorMissing",
            Cause::OldTextMissing => "OldTextMissing",
            Cause::NumberTaken => "NumberTaken",
            Cause::KindsDiffer => "KindsDiffer",
            Cause::TooDeep => "TooDeep",
            Cause::TooManyNodes => "TooManyNodes",
            Cause::TextTooLong => "TextTooLong",
        }
    }
}
