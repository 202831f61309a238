//! Bounds of what a command brings: the texts of acts and payloads, lists, texts, occurrences and periods.

ghost use Rattle.std.specs.Prelude.{◌≡◌, ◌≤◌, None, IfOk, length};
ghost use Rattle.law_register.specs.Law.Bounds as spec;
ghost use Rattle.law_register.specs.Register.Verdicts as verdicts;
ghost use Rattle.textual_mods.specs.declared.fitting.TheConstants as limits;

use crate::{Act, Command, Destination, Modification, Rule};
use act_tree::{BuildFault, fault_of, is_wid};
use desk_base::Memory;
use std::alloc::Global;
use std::slice;
use textual_mods::MAX_ITEMS;

impl Destination {
    /// Whether the name of what a modification is directed at keeps its limits.
    pub fn fits(&self) -> bool
        ensures { result ≡ spec.destination_fits self.now }
    {
        match self {
            Destination::Modification(_) => true,
            Destination::Node(wid) => is_wid(wid.as_str()),
        }
    }
}

impl Modification {
    /// Whether what the modification names and brings keeps its limits.
    pub fn fits(&self) -> bool
        ensures { result ≡ spec.modification_fits self.now }
    {
        match self {
            Modification::Textual { edit, .. } => edit.fits(),
            Modification::Force { destination, .. } | Modification::Efficacy { destination, .. } =>
                destination.fits(),
        }
    }

    /// Whether the period that the modification states ends after its start.
    pub fn times_fit(&self) -> bool
        ensures { result ≡ spec.times_fit self.now }
    {
        match self {
            Modification::Textual { force, .. } => force.ends_after_its_start(),
            Modification::Force { .. } => true,
            Modification::Efficacy { effect, .. } => effect.days_end_after_their_start(),
        }
    }

    /// The first fault of the nodes that the modification brings, if it brings any and they have one.
    pub fn brought_fault(&self, alloc: Global) -> Result<Option<BuildFault>, Memory>
        ensures { IfOk result (λ fault. fault ≡ spec.brought_fault self.now) }
    {
        match self {
            Modification::Textual { edit, .. } => edit.payload_fault(alloc),
            _ => Ok(None),
        }
    }
}

// The modifications that a command brings.
fn brought_by(command: &Command) -> &[Modification]
    ensures { result.now ≡ verdicts.brought_by command.now }
{
    match command {
        Command::Record { mods, .. } => mods.as_slice(),
        Command::Correct { body, .. } | Command::DraftAdd { body, .. } => slice::from_ref(body),
        _ => &[],
    }
}

// The first fault of the nodes that the first of some modifications with a fault brings.
fn first_tree(alloc: Global, mods: &[Modification]) -> Result<Option<Rule>, Memory>
    ensures { IfOk result
        (λ rule. rule ≡ verdicts.first_item (λ number m. verdicts.tree_rule (spec.brought_fault m)) 1 mods.now) }
{
    for modification in mods {
        if let Some(fault) = modification.brought_fault(alloc)? {
            return Ok(Some(Rule::BadTree(fault)));
        }
    }
    Ok(None)
}

/// The rule on texts that a command breaks: an act has a fault, by the limit that it states, or a payload, by that of a plain act.
/// The first item that has one counts, and its first fault.
pub fn bad_tree(alloc: Global, command: &Command) -> Result<Option<Rule>, Memory>
    ensures { IfOk result (λ rule. rule ≡ verdicts.bad_tree command.now) }
{
    match command {
        Command::Enact { act } => {
            Ok(fault_of(alloc, act.numbering, act.limit, &act.body)?.map(Rule::BadTree))
        }
        _ => first_tree(alloc, brought_by(command)),
    }
}

// The rule that the first of some modifications breaks which names or brings what it may not.
fn first_unfit(mods: &[Modification]) -> Option<Rule>
    requires { length mods.now ≤ limits.MAX_ITEMS }
    ensures { result ≡ verdicts.first_item verdicts.bad_item 1 mods.now }
{
    for (index, modification) in mods.iter().enumerate() {
        if !modification.fits() {
            return Some(Rule::BadModification(index as u16 + 1));
        }
    }
    None
}

// The rule that the modifications of a record break: their number, before each of them.
fn bad_record(mods: &[Modification]) -> Option<Rule>
    ensures { result ≡ verdicts.bad_record mods.now }
{
    if mods.is_empty() || mods.len() > MAX_ITEMS {
        return Some(Rule::BadModification(0));
    }
    first_unfit(mods)
}

/// The rule on bounds that a command breaks: a list of modifications is empty or too long, a node has too many refs, or what
/// an item names or brings is not of the size that it may have. The first item that does counts, from 1; 0 is the list, or an act.
pub fn bad_modification(command: &Command) -> Option<Rule>
    ensures { result ≡ verdicts.bad_modification command.now }
{
    match command {
        Command::Enact { act } if act.body.have_few_refs() => None,
        Command::Enact { .. } => Some(Rule::BadModification(0)),
        Command::Record { mods, .. } => bad_record(mods.as_slice()),
        _ => first_unfit(brought_by(command)),
    }
}

// The rule that the first of some modifications breaks whose period does not end after its start.
fn first_untimely(mods: &[Modification]) -> Option<Rule>
    requires { length mods.now ≤ limits.MAX_ITEMS }
    ensures { result ≡ verdicts.first_item verdicts.bad_times 1 mods.now }
{
    for (index, modification) in mods.iter().enumerate() {
        if !modification.times_fit() {
            return Some(Rule::BadPeriod(index as u16 + 1));
        }
    }
    None
}

/// The rule on periods that a command breaks, where it keeps that on bounds: a period does not end after its start. The first item
/// of which this is so counts, from 1; 0 is an act.
pub fn bad_period(command: &Command) -> Option<Rule>
    requires { verdicts.bad_modification command.now ≡ None }
    ensures { result ≡ verdicts.bad_period command.now }
{
    match command {
        Command::Enact { act } if act.force.ends_after_its_start() => None,
        Command::Enact { .. } => Some(Rule::BadPeriod(0)),
        _ => first_untimely(brought_by(command)),
    }
}
