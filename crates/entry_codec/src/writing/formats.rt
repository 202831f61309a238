//! What the formats spell in ways of their own: the limit of an act, and the provision of a source.

ghost use Rattle.std.specs.Prelude.{◌≡◌, ◌++◌, OnOk, IfSome};
ghost use Rattle.entry_codec.specs.Formats as spec;
ghost use Rattle.entry_codec.specs.Formats.{format_in};
ghost use Rattle.entry_codec.specs.Typed as typed;

use super::numbers::put_number16;
use super::texts::put_text;
use crate::typed::provision_is_typed;
use act_tree::NodeLimit;
use desk_base::{Memory, Text};
use law_register::EntryFormat;

fn limit_number(limit: NodeLimit) -> u16
    ensures { result ≡ spec.limit_number limit }
{
    match limit {
        NodeLimit::Plain => 4096,
        NodeLimit::Wide => 8192,
    }
}

#[tactic(auto, unfolding(crate::specs::Formats::limit))]
fn put_stated_limit(out: &mut Vec<u8>, limit: NodeLimit) -> Result<(), Memory>
    ensures { OnOk result (out.new.items ≡ out.old.items ++ spec.limit.spell limit) }
{
    put_number16(out, limit_number(limit))
}

/// The limit of an act, which format 1 does not say.
pub(super) fn put_limit(
    out: &mut Vec<u8>,
    format: EntryFormat,
    limit: NodeLimit,
) -> Result<(), Memory>
    ensures { OnOk result (out.new.items ≡ out.old.items ++ (format_in format).limit.spell limit) }
{
    match format {
        EntryFormat::First => Ok(()),
        EntryFormat::Second => put_stated_limit(out, limit),
    }
}

#[tactic(auto, unfolding(crate::specs::Formats::provision, crate::specs::Values::text, crate::specs::Values::text_of))]
fn put_stated_provision(out: &mut Vec<u8>, provision: &Option<Text>) -> Result<(), Memory>
    ensures { OnOk result (out.new.items ≡ out.old.items ++ spec.provision.spell provision.now) }
{
    match provision {
        Some(provision) => put_text(out, provision.as_str()),
        None => put_text(out, ""),
    }
}

/// The provision that a source names, which format 1 does not say.
pub(super) fn put_provision(
    out: &mut Vec<u8>,
    format: EntryFormat,
    provision: &Option<Text>,
) -> Result<(), Memory>
    ensures bytes { OnOk result (out.new.items ≡ out.old.items ++ (format_in format).provision.spell provision.now) }
    ensures typed { OnOk result (IfSome provision.now typed.IsText) }
{
    provision_is_typed(provision);
    match format {
        EntryFormat::First => Ok(()),
        EntryFormat::Second => put_stated_provision(out, provision),
    }
}
