//! What the types of the parts of a modification promise. Each function looks at the parts and does nothing: laws call them, and no
//! program does.

ghost use Rattle.std.specs.Prelude.{◌≡◌, ◌≤◌, true, All, IfSome};
ghost use Rattle.desk_base.specs.Days.{IsDay};
ghost use Rattle.eid_paths.specs.Nums.{is_num};
ghost use Rattle.act_tree.specs.Branches.{branches_of, heights};
ghost use Rattle.act_tree.specs.Specs.{own_of, spec_view};
ghost use Rattle.act_tree.specs.declared.limits.TheConstants.{MAX_NESTED};
ghost use Rattle.akn_json.specs.Printing.Bearings.{date_of_force};
ghost use Rattle.akn_json.specs.Printing.Typed as spec;

use act_tree::{NodeSpec, Nodes};
use bearing_mods::{EfficacyEffect, ForceEffect};
use desk_base::laws::day_is_numbered;
use desk_base::{Day, Id, Period, Text};
use eid_paths::Num;
use frbr_names::WorkName;
use law_register::{Destination, Draft, DraftItem, ModSource, Modification};
use textual_mods::{Pairs, SplitAt, Spot, TextPos, TextualMod};

// A number of two bytes, and one of four.
fn small_number_is_typed(_number: u16)
    ensures { _number ≤ 65535 }
{}

fn number_is_typed(_number: u32)
    ensures { _number ≤ 4294967295 }
{}

fn text_is_typed(_text: &str)
    ensures { spec.IsTypedText _text.now }
{}

fn num_is_typed(num: &Num)
    ensures { is_num num.now ≡ true }
{
    let _ = num.copy();
}

fn work_is_typed(work: &WorkName)
    ensures { spec.IsTypedWork work.now }
{
    let _ = work.date();
    text_is_typed(work.as_str());
}

fn last_day_is_typed(day: Option<Day>)
    ensures { IfSome day IsDay }
{
    if let Some(day) = day {
        day_is_numbered(day);
    }
}

fn period_is_typed(period: Period)
    ensures { spec.IsTypedPeriod period }
{
    let Period { start, end } = period;
    day_is_numbered(start);
    last_day_is_typed(end);
}

fn named_is_typed(provision: &Option<Text>)
    ensures { IfSome provision.now spec.IsTypedText }
{
    if let Some(wid) = provision {
        text_is_typed(wid.as_str());
    }
}

fn source_is_typed(source: &ModSource)
    ensures { spec.IsTypedSource source.now }
{
    work_is_typed(&source.href);
    small_number_is_typed(source.place);
    named_is_typed(&source.provision);
}

fn id_is_typed(id: Id)
    ensures { spec.IsTypedId id }
{
    number_is_typed(id.law);
    small_number_is_typed(id.item);
}

fn destination_is_typed(destination: &Destination)
    ensures { spec.IsTypedDestination destination.now }
{
    match destination {
        Destination::Modification(other) => id_is_typed(*other),
        Destination::Node(wid) => text_is_typed(wid.as_str()),
    }
}

fn texts_are_typed(texts: &[Text])
    ensures { All spec.IsTypedText texts.now }
{
    for one in texts {
        text_is_typed(one.as_str());
    }
}

// What a node says of itself.
fn own_is_typed(node: &NodeSpec)
    ensures { spec.IsTypedOwn (own_of node.now) }
{
    num_is_typed(&node.num);
    text_is_typed(node.heading.as_str());
    text_is_typed(node.content.as_str());
    texts_are_typed(node.refs.as_slice());
}

// A node, with all beneath it.
#[cycle(typed)]
fn node_is_typed(node: &NodeSpec)
    ensures { spec.IsTypedNode (spec_view node.now) }
{
    own_is_typed(node);
    nodes_are_typed(&node.children);
}

#[cycle(typed)]
#[tactic(auto, using(act_tree::proofs::LowSpecs::heights_listed))]
fn nodes_are_typed(nodes: &Nodes)
    ensures depth { heights (branches_of nodes.now) ≤ MAX_NESTED }
    ensures typed { spec.IsTypedPayload nodes.now }
{
    for one in &nodes.items {
        node_is_typed(one);
    }
}

fn spot_is_typed(spot: &Spot)
    ensures { spec.IsTypedSpot spot.now }
{
    small_number_is_typed(spot.occurrence);
    text_is_typed(spot.old.as_str());
}

fn text_pos_is_typed(at: &TextPos)
    ensures { spec.IsTypedTextPos at.now }
{
    match at {
        TextPos::Before(beside) => spot_is_typed(beside),
        TextPos::After(beside) => spot_is_typed(beside),
        TextPos::Start => (),
        TextPos::End => (),
    }
}

fn split_at_is_typed(at: &SplitAt)
    ensures { spec.IsTypedSplitAt at.now }
{
    match at {
        SplitAt::Text(at) => spot_is_typed(at),
        SplitAt::Child(wid) => text_is_typed(wid.as_str()),
    }
}

// A provision by its wId, with the num that it gets.
fn pair_is_typed(pair: &(Text, Num))
    ensures { spec.IsTypedPair pair.now }
{
    num_is_typed(&pair.1);
    text_is_typed(pair.0.as_str());
}

fn each_pair_is_typed(pairs: &[(Text, Num)])
    ensures { All spec.IsTypedPair pairs.now }
{
    for one in pairs {
        pair_is_typed(one);
    }
}

fn pairs_are_typed(pairs: &Pairs)
    ensures { All spec.IsTypedPair pairs.now }
{
    each_pair_is_typed(pairs.as_slice());
}

fn edit_is_typed(edit: &TextualMod)
    ensures { spec.IsTypedEdit edit.now }
{
    match edit {
        TextualMod::Repeal { wid } => text_is_typed(wid.as_str()),
        TextualMod::SubstituteNodes { wid, new } => {
            text_is_typed(wid.as_str());
            nodes_are_typed(new);
        }
        TextualMod::SubstituteText { wid, spot, new } => {
            text_is_typed(wid.as_str());
            spot_is_typed(spot);
            text_is_typed(new.as_str());
        }
        TextualMod::InsertNodes { wid, new, .. } => {
            text_is_typed(wid.as_str());
            nodes_are_typed(new);
        }
        TextualMod::InsertText { wid, at, new } => {
            text_is_typed(wid.as_str());
            text_pos_is_typed(at);
            text_is_typed(new.as_str());
        }
        TextualMod::Renumber { pairs } => pairs_are_typed(pairs),
        TextualMod::Split {
            wid,
            at,
            num,
            heading,
        } => {
            text_is_typed(wid.as_str());
            split_at_is_typed(at);
            num_is_typed(num);
            text_is_typed(heading.as_str());
        }
        TextualMod::Join {
            wid,
            second,
            separator,
        } => {
            text_is_typed(wid.as_str());
            text_is_typed(second.as_str());
            text_is_typed(separator.as_str());
        }
    }
}

fn force_effect_is_typed(effect: ForceEffect)
    ensures { IsDay (date_of_force effect) }
{
    match effect {
        ForceEffect::Entry(date) => day_is_numbered(date),
        ForceEffect::Postponed(date) => day_is_numbered(date),
        ForceEffect::Ended(date) => day_is_numbered(date),
        ForceEffect::Prorogued(date) => day_is_numbered(date),
        ForceEffect::ReEnacted(date) => day_is_numbered(date),
    }
}

fn efficacy_effect_is_typed(effect: EfficacyEffect)
    ensures { spec.IsTypedEffect effect }
{
    match effect {
        EfficacyEffect::Entry(date) => day_is_numbered(date),
        EfficacyEffect::Ended(date) => day_is_numbered(date),
        EfficacyEffect::Retroactive(date) => day_is_numbered(date),
        EfficacyEffect::Postponed(date) => day_is_numbered(date),
        EfficacyEffect::Prorogued(date) => day_is_numbered(date),
        EfficacyEffect::Extra => (),
        EfficacyEffect::Inapplied(days) => period_is_typed(days),
    }
}

/// A modification.
pub fn modification_is_typed(modification: &Modification)
    ensures { spec.IsTypedModification modification.now }
{
    match modification {
        Modification::Textual {
            source,
            force,
            edit,
        } => {
            source_is_typed(source);
            period_is_typed(*force);
            edit_is_typed(edit);
        }
        Modification::Force {
            source,
            destination,
            on,
            effect,
        } => {
            source_is_typed(source);
            destination_is_typed(destination);
            day_is_numbered(*on);
            force_effect_is_typed(*effect);
        }
        Modification::Efficacy {
            source,
            destination,
            on,
            effect,
        } => {
            source_is_typed(source);
            destination_is_typed(destination);
            day_is_numbered(*on);
            efficacy_effect_is_typed(*effect);
        }
    }
}

fn item_is_typed(item: &DraftItem)
    ensures { spec.IsTypedItem item.now }
{
    number_is_typed(item.item);
    work_is_typed(&item.work);
    modification_is_typed(&item.body);
}

fn items_are_typed(items: &[DraftItem])
    ensures { All spec.IsTypedItem items.now }
{
    for one in items {
        item_is_typed(one);
    }
}

/// The items of a draft.
pub fn draft_is_typed(draft: &Draft)
    ensures { All spec.IsTypedItem draft.now }
{
    items_are_typed(draft.as_slice());
}
