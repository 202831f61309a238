//! What the types of the parts of an entry promise. Each function looks at the parts and does nothing: it is called for its
//! clause, by laws, and no program calls a law.

ghost use Rattle.std.specs.Prelude.{◌≡◌, ◌≤◌, All, IfSome, length, nat_lt, true};
ghost use Rattle.std.specs.List.{list_all};
ghost use Rattle.desk_base.specs.Days.{IsDay};
ghost use Rattle.act_tree.specs.Branches.{branches_of, heights};
ghost use Rattle.act_tree.specs.Specs.{own_of, spec_view};
ghost use Rattle.act_tree.specs.declared.limits.TheConstants.{MAX_NESTED};
ghost use Rattle.entry_codec.specs.Typed as spec;

use act_tree::{NodeSpec, Nodes};
use bearing_mods::{EfficacyEffect, ForceEffect};
use desk_base::laws::day_is_numbered;
use desk_base::{Day, Id, Period, Text};
use eid_paths::{Num, Numbering};
use frbr_names::WorkName;
use law_register::{
    Act, Command, Destination, Drafter, Entry, ModSource, Modification, Mods, laws,
};
use textual_mods::{Pairs, SplitAt, Spot, TextPos, TextualMod};

// A number of two bytes, of four and of eight.
fn number16_is_typed(_number: u16)
    ensures { spec.IsNumber16 _number }
{}

fn number32_is_typed(_number: u32)
    ensures { spec.IsNumber32 _number }
{}

fn number64_is_typed(_number: u64)
    ensures { spec.IsNumber64 _number }
{}

fn text_is_typed(_text: &str)
    ensures { spec.IsText _text.now }
{}

fn drafter_is_typed(drafter: &Drafter)
    ensures { spec.IsDrafterName drafter.now }
{
    laws::drafters_are_named(drafter);
}

fn num_is_typed(num: &Num)
    ensures { spec.IsNumText num.now }
{
    let _ = num.copy();
}

fn work_is_typed(work: &WorkName)
    ensures { spec.IsWorkText work.now }
{
    laws::works_are_short(work);
    let _ = work.date();
    text_is_typed(work.as_str());
}

fn bytes_are_typed(_bytes: &[u8])
    ensures { list_all (λ b. nat_lt b 256) _bytes.now ≡ true }
{}

fn language_is_typed(language: &[u8; 3])
    ensures { spec.IsLanguageBytes language.now }
{
    bytes_are_typed(language);
}

fn last_day_is_typed(day: Option<Day>)
    ensures { IfSome day IsDay }
{
    if let Some(day) = day {
        day_is_numbered(day);
    }
}

fn law_is_typed(law: Option<u32>)
    ensures { IfSome law spec.IsNumber32 }
{
    if let Some(number) = law {
        number32_is_typed(number);
    }
}

fn period_is_typed(period: Period)
    ensures { spec.IsPeriod period }
{
    let Period { start, end } = period;
    day_is_numbered(start);
    last_day_is_typed(end);
}

fn id_is_typed(id: Id)
    ensures { spec.IsId id }
{
    number32_is_typed(id.law);
    number16_is_typed(id.item);
}

// Each element has its place.
fn places_are_all(_throughout: &[bool; 14])
    ensures { length _throughout.now ≡ 14 }
{}

/// Which elements are numbered throughout. The writer of a numbering calls it too.
pub fn numbering_is_typed(numbering: &Numbering)
    ensures { spec.IsNumbering numbering.now }
{
    places_are_all(&numbering.throughout);
}

/// The provision that a source names. The writer of sources calls it too.
pub fn provision_is_typed(provision: &Option<Text>)
    ensures { IfSome provision.now spec.IsText }
{
    if let Some(provision) = provision {
        text_is_typed(provision.as_str());
    }
}

fn source_is_typed(source: &ModSource)
    ensures { spec.IsSource source.now }
{
    work_is_typed(&source.href);
    number16_is_typed(source.place);
    provision_is_typed(&source.provision);
}

fn destination_is_typed(destination: &Destination)
    ensures { spec.IsDestination destination.now }
{
    match destination {
        Destination::Modification(other) => id_is_typed(*other),
        Destination::Node(wid) => text_is_typed(wid.as_str()),
    }
}

fn spot_is_typed(spot: &Spot)
    ensures { spec.IsSpot spot.now }
{
    text_is_typed(spot.old.as_str());
    number16_is_typed(spot.occurrence);
}

fn texts_are_typed(texts: &[Text])
    ensures { All spec.IsText texts.now }
{
    for one in texts {
        text_is_typed(one.as_str());
    }
}

// What a node says of itself.
fn own_is_typed(node: &NodeSpec)
    ensures { spec.IsOwn (own_of node.now) }
{
    num_is_typed(&node.num);
    text_is_typed(node.heading.as_str());
    text_is_typed(node.content.as_str());
    texts_are_typed(node.refs.as_slice());
}

// A node, with all beneath it.
#[cycle(typed)]
fn node_is_typed(node: &NodeSpec)
    ensures { spec.IsNode (spec_view node.now) }
{
    own_is_typed(node);
    nodes_are_typed(&node.children);
}

#[cycle(typed)]
#[tactic(auto, using(act_tree::proofs::LowSpecs::heights_listed))]
fn nodes_are_typed(nodes: &Nodes)
    ensures depth { heights (branches_of nodes.now) ≤ MAX_NESTED }
    ensures typed { spec.AreNodes (branches_of nodes.now) }
{
    for one in &nodes.items {
        node_is_typed(one);
    }
}

// The nodes that an act or an edit brings.
fn payload_is_typed(nodes: &Nodes)
    ensures { spec.IsPayload nodes.now }
{
    nodes_are_typed(nodes);
}

fn text_pos_is_typed(at: &TextPos)
    ensures { spec.IsTextPos at.now }
{
    match at {
        TextPos::Before(beside) => spot_is_typed(beside),
        TextPos::After(beside) => spot_is_typed(beside),
        TextPos::Start => (),
        TextPos::End => (),
    }
}

fn split_at_is_typed(at: &SplitAt)
    ensures { spec.IsSplitAt at.now }
{
    match at {
        SplitAt::Text(at) => spot_is_typed(at),
        SplitAt::Child(wid) => text_is_typed(wid.as_str()),
    }
}

// A provision by its wId, with the num that it gets.
fn pair_is_typed(pair: &(Text, Num))
    ensures { spec.IsNumPair pair.now }
{
    text_is_typed(pair.0.as_str());
    num_is_typed(&pair.1);
}

fn each_pair_is_typed(pairs: &[(Text, Num)])
    ensures { All spec.IsNumPair pairs.now }
{
    for one in pairs {
        pair_is_typed(one);
    }
}

fn pairs_are_typed(pairs: &Pairs)
    ensures { All spec.IsNumPair pairs.now }
{
    each_pair_is_typed(pairs.as_slice());
}

fn edit_is_typed(edit: &TextualMod)
    ensures { spec.IsEdit edit.now }
{
    match edit {
        TextualMod::Repeal { wid } => text_is_typed(wid.as_str()),
        TextualMod::SubstituteNodes { wid, new } => {
            text_is_typed(wid.as_str());
            payload_is_typed(new);
        }
        TextualMod::SubstituteText { wid, spot, new } => {
            text_is_typed(wid.as_str());
            spot_is_typed(spot);
            text_is_typed(new.as_str());
        }
        TextualMod::InsertNodes { wid, new, .. } => {
            text_is_typed(wid.as_str());
            payload_is_typed(new);
        }
        TextualMod::InsertText { wid, at, new } => {
            text_is_typed(wid.as_str());
            text_pos_is_typed(at);
            text_is_typed(new.as_str());
        }
        TextualMod::Renumber { pairs } => pairs_are_typed(pairs),
        TextualMod::Split {
            wid,
            at,
            num,
            heading,
        } => {
            text_is_typed(wid.as_str());
            split_at_is_typed(at);
            num_is_typed(num);
            text_is_typed(heading.as_str());
        }
        TextualMod::Join {
            wid,
            second,
            separator,
        } => {
            text_is_typed(wid.as_str());
            text_is_typed(second.as_str());
            text_is_typed(separator.as_str());
        }
    }
}

// An effect with the day from which it is counted.
fn force_effect_is_typed(on: Day, effect: ForceEffect)
    ensures { spec.IsForceEffect on effect }
{
    day_is_numbered(on);
    match effect {
        ForceEffect::Entry(date) => day_is_numbered(date),
        ForceEffect::Postponed(date) => day_is_numbered(date),
        ForceEffect::Ended(date) => day_is_numbered(date),
        ForceEffect::Prorogued(date) => day_is_numbered(date),
        ForceEffect::ReEnacted(date) => day_is_numbered(date),
    }
}

fn efficacy_effect_is_typed(on: Day, effect: EfficacyEffect)
    ensures { spec.IsEfficacyEffect on effect }
{
    day_is_numbered(on);
    match effect {
        EfficacyEffect::Entry(date) => day_is_numbered(date),
        EfficacyEffect::Ended(date) => day_is_numbered(date),
        EfficacyEffect::Retroactive(date) => day_is_numbered(date),
        EfficacyEffect::Postponed(date) => day_is_numbered(date),
        EfficacyEffect::Prorogued(date) => day_is_numbered(date),
        EfficacyEffect::Extra => (),
        EfficacyEffect::Inapplied(days) => period_is_typed(days),
    }
}

fn modification_is_typed(modification: &Modification)
    ensures { spec.IsModification modification.now }
{
    match modification {
        Modification::Textual {
            source,
            force,
            edit,
        } => {
            source_is_typed(source);
            period_is_typed(*force);
            edit_is_typed(edit);
        }
        Modification::Force {
            source,
            destination,
            on,
            effect,
        } => {
            source_is_typed(source);
            destination_is_typed(destination);
            force_effect_is_typed(*on, *effect);
        }
        Modification::Efficacy {
            source,
            destination,
            on,
            effect,
        } => {
            source_is_typed(source);
            destination_is_typed(destination);
            efficacy_effect_is_typed(*on, *effect);
        }
    }
}

fn each_modification_is_typed(mods: &[Modification])
    ensures { All spec.IsModification mods.now }
{
    for one in mods {
        modification_is_typed(one);
    }
}

fn modifications_are_typed(mods: &Mods)
    ensures { All spec.IsModification mods.now }
{
    each_modification_is_typed(mods.as_slice());
}

fn act_is_typed(act: &Act)
    ensures { spec.IsAct act.now }
{
    work_is_typed(&act.work);
    language_is_typed(&act.language);
    day_is_numbered(act.day);
    numbering_is_typed(&act.numbering);
    period_is_typed(act.force);
    payload_is_typed(&act.body);
}

fn command_is_typed(command: &Command)
    ensures { spec.IsCommand command.now }
{
    match command {
        Command::Enact { act } => act_is_typed(act),
        Command::Record { work, mods } => {
            work_is_typed(work);
            modifications_are_typed(mods);
        }
        Command::Correct { id, body } => {
            id_is_typed(*id);
            modification_is_typed(body);
        }
        Command::Withdraw { id } => id_is_typed(*id),
        Command::Restore { id } => id_is_typed(*id),
        Command::DraftAdd { work, body } => {
            work_is_typed(work);
            modification_is_typed(body);
        }
        Command::DraftDrop { item } => number32_is_typed(*item),
        Command::File { work, seen } => {
            work_is_typed(work);
            number32_is_typed(*seen);
        }
    }
}

/// An entry.
pub fn entry_is_typed(entry: &Entry)
    ensures { spec.IsTyped entry.now }
{
    drafter_is_typed(&entry.drafter);
    number64_is_typed(entry.request);
    day_is_numbered(entry.day);
    law_is_typed(entry.law);
    command_is_typed(&entry.command);
}
