//! Refusals are printed.

ghost use Rattle.std.specs.Prelude.{◌≡◌, ◌++◌, OnOk, IfOk, string_bytes};
ghost use Rattle.json.specs.Tree.{json_tokens};
ghost use Rattle.serde_json.specs.Written.{outline, compact_text};
ghost use Rattle.akn_json.specs.Printing.Refusals.{form_fault_data, kept_data, query_data, item_text, rule_kept_data, rule_data};

use super::members::{put_number, put_text};
use crate::FormFault;
use desk_base::Memory;
use frbr_names::spelled_language;
use json::Writer;
use law_register::{QueryRule, Rule};
use std::alloc::Global;

fn put_fault(out: &mut Writer, fault: FormFault) -> Result<(), Memory>
    ensures tokens { OnOk result (out.new.tokens
        ≡ out.old.tokens ++ json_tokens (outline (form_fault_data fault))) }
    ensures before { OnOk result (out.new.before ≡ out.old.before) }
{
    out.begin_object()?;
    put_number(out, "form", u64::from(fault.rule.number()))?;
    put_text(out, "name", fault.rule.name())?;
    put_number(out, "place", u64::from(fault.place))?;
    out.end_object()?;
    Ok(())
}

fn put_kept(out: &mut Writer, alloc: Global, rule: &QueryRule) -> Result<(), Memory>
    ensures tokens { OnOk result (out.new.tokens
        ≡ out.old.tokens ++ json_tokens (outline (kept_data rule.now))) }
    ensures before { OnOk result (out.new.before ≡ out.old.before) }
{
    match rule {
        QueryRule::UnknownWork(work) => out.string(work.as_str())?,
        QueryRule::ViewpointAhead(front) => out.u64(u64::from(*front))?,
        QueryRule::NotYetEnacted(day) => out.string(day.spelled(alloc)?.as_str())?,
        QueryRule::OtherLanguage(language) => out.string(spelled_language(
            alloc, *language,
        )?.as_str())?,
        QueryRule::UnknownPortion(eid) => out.string(eid.as_str())?,
    }
    Ok(())
}

fn put_query(out: &mut Writer, alloc: Global, rule: &QueryRule) -> Result<(), Memory>
    ensures tokens { OnOk result (out.new.tokens
        ≡ out.old.tokens ++ json_tokens (outline (query_data rule.now))) }
    ensures before { OnOk result (out.new.before ≡ out.old.before) }
{
    out.begin_object()?;
    out.key("kept")?;
    put_kept(out, alloc, rule)?;
    put_text(out, "name", rule.name())?;
    put_number(out, "query", u64::from(rule.number()))?;
    out.end_object()?;
    Ok(())
}

/// The bytes of a refusal of a form: its rule by number and name, and the place. They are JSON with
/// no space, and no line feed stands behind them.
pub fn put_form_fault(alloc: Global, fault: FormFault) -> Result<Vec<u8>, Memory>
    ensures { IfOk result (λ bytes. bytes.items ≡ compact_text (form_fault_data fault)) }
{
    let mut out = Writer::new(Vec::new(alloc));
    put_fault(&mut out, fault)?;
    Ok(out.into_inner())
}

/// The bytes of a refusal of a question: the value that it shows, and its rule by name and number.
/// They are JSON with no space, and no line feed stands behind them.
pub fn put_query_rule(alloc: Global, rule: &QueryRule) -> Result<Vec<u8>, Memory>
    ensures { IfOk result (λ bytes. bytes.items ≡ compact_text (query_data rule.now)) }
{
    let mut out = Writer::new(Vec::new(alloc));
    put_query(&mut out, alloc, rule)?;
    Ok(out.into_inner())
}

// The id that the refusal of an unknown modification shows.
fn spelled_item(alloc: Global, law: u32, item: u32) -> Result<String, Memory>
    ensures { IfOk result (λ text. string_bytes text ≡ item_text law item) }
{
    Ok(format!(in alloc; "{law}.{item}")?)
}

fn put_rule_kept(out: &mut Writer, alloc: Global, rule: &Rule) -> Result<(), Memory>
    ensures tokens { OnOk result (out.new.tokens
        ≡ out.old.tokens ++ json_tokens (outline (rule_kept_data rule.now))) }
    ensures before { OnOk result (out.new.before ≡ out.old.before) }
{
    match rule {
        Rule::NumberReused(number)
        | Rule::WorkExists(number)
        | Rule::AlreadyWithdrawn(number)
        | Rule::Stale(number)
        | Rule::LawFull(number)
        | Rule::RegisterFull(number) => out.u64(u64::from(*number))?,
        Rule::DraftersFull(number)
        | Rule::BadModification(number)
        | Rule::BadPeriod(number)
        | Rule::DraftFull(number)
        | Rule::WorkFull(number) => out.u64(u64::from(*number))?,
        Rule::UnknownWork(work) | Rule::EmptyDraft(work) => out.string(work.as_str())?,
        Rule::BadTree(fault) => out.u64(u64::from(fault.number()))?,
        Rule::UnknownModification { law, item } => {
            out.string(spelled_item(alloc, *law, *item)?.as_str())?
        }
        Rule::NotWithdrawn(id) | Rule::WrongKind(id) => out.string(id.spelled(alloc)?.as_str())?,
    }
    Ok(())
}

fn put_command(out: &mut Writer, alloc: Global, rule: &Rule) -> Result<(), Memory>
    ensures tokens { OnOk result (out.new.tokens
        ≡ out.old.tokens ++ json_tokens (outline (rule_data rule.now))) }
    ensures before { OnOk result (out.new.before ≡ out.old.before) }
{
    out.begin_object()?;
    out.key("kept")?;
    put_rule_kept(out, alloc, rule)?;
    put_text(out, "name", rule.name())?;
    put_number(out, "rule", u64::from(rule.number()))?;
    out.end_object()?;
    Ok(())
}

/// The bytes of a refusal of a command: the value that it shows, and its rule by name and number.
/// They are JSON with no space, and no line feed stands behind them.
pub fn put_rule(alloc: Global, rule: &Rule) -> Result<Vec<u8>, Memory>
    ensures { IfOk result (λ bytes. bytes.items ≡ compact_text (rule_data rule.now)) }
{
    let mut out = Writer::new(Vec::new(alloc));
    put_command(&mut out, alloc, rule)?;
    Ok(out.into_inner())
}
