//! Judging: what the register says of a command. Each rule asks the indexes, and none walks the entries.

ghost use Rattle.std.specs.Prelude.{◌≡◌, ◌+◌, List, IfOk, Some, None, option_map, is_some};
ghost use Rattle.law_register.specs.declared.register.entry.Entry.{Entry};
ghost use Rattle.std.specs.Option.{option_or};
ghost use Rattle.law_register.specs.Register.Concerns.{is_of};
ghost use Rattle.law_register.specs.Register.Drafts.{draft_of};
ghost use Rattle.law_register.specs.Register.KnownIds.{facts_of};
ghost use Rattle.law_register.specs.Register.LawList.{laws};
ghost use Rattle.law_register.specs.Register.Verdicts as verdicts;

use crate::law::bounds::{bad_modification, bad_period, bad_tree};
use crate::law::sizes::size_of;
use crate::register::limits::{
    MOST_DRAFT_ITEMS, MOST_DRAFTERS, MOST_ENTRY_BYTES, MOST_IDS, MOST_LAWS, MOST_REGISTER_BYTES,
};
use crate::{
    Command, Destination, Drafter, Entry, Kind, Modification, Register, Reply, Rule, Standing,
    Verdict,
};
use desk_base::{Id, Memory};
use frbr_names::WorkName;
use std::alloc::Global;

#[tactic(auto, unfolding(crate::specs::Law::Same::same_command))]
fn again(entry: &Entry, reply: Reply, command: &Command) -> Verdict
    ensures { result ≡ verdicts.again command.now (entry.now, reply) }
{
    if entry.command == *command {
        return Verdict::Repeat(reply);
    }
    let (Reply::Law(number) | Reply::Draft(number)) = reply;
    Verdict::Refused(Rule::NumberReused(number))
}

fn is_law(command: &Command) -> bool
    ensures { (es : List Entry) → is_some (verdicts.law_number es command.now) ≡ result }
{
    !matches!(
        command,
        Command::DraftAdd { .. } | Command::DraftDrop { .. }
    )
}

impl Register {
    /// What is said of a command of a drafter's request: the first reply again, the first rule that it breaks, or that it may become an
    /// entry.
    #[tactic(auto, unfolding(crate::specs::Register::Verdicts::verdict))]
    pub fn judge(
        &self,
        alloc: Global,
        drafter: &Drafter,
        request: u64,
        command: &Command,
    ) -> Result<Verdict, Memory>
        ensures { IfOk result (λ v. v ≡ verdicts.verdict self.now.entries drafter.now request command.now) }
    {
        if let Some(verdict) = self.judge_again(drafter, request, command) {
            return Ok(verdict);
        }
        match self.first_rule(alloc, drafter, command)? {
            Some(rule) => Ok(Verdict::Refused(rule)),
            None => Ok(Verdict::Accepted {
                law: self.law_number(command),
                reply: self.reply_to(drafter, command),
            }),
        }
    }

    fn judge_again(&self, drafter: &Drafter, request: u64, command: &Command) -> Option<Verdict>
        ensures { result ≡ option_map (λ found. verdicts.again command.now found)
            (verdicts.request_of self.now.entries drafter.now request) }
    {
        let entry = self.request(drafter, request)?;
        match self.reply(drafter, request) {
            Some(reply) => Some(again(entry, reply, command)),
            None => None,
        }
    }

    fn first_rule(
        &self,
        alloc: Global,
        drafter: &Drafter,
        command: &Command,
    ) -> Result<Option<Rule>, Memory>
        ensures { IfOk result (λ rule. rule ≡ verdicts.first_rule self.now.entries drafter.now command.now) }
    {
        if let Some(rule) = self.drafters_full(drafter) {
            return Ok(Some(rule));
        }
        if let Some(rule) = self.unknown_work(command)? {
            return Ok(Some(rule));
        }
        if let Some(rule) = self.work_exists(command) {
            return Ok(Some(rule));
        }
        if let Some(rule) = bad_tree(alloc, command)? {
            return Ok(Some(rule));
        }
        if let Some(rule) = bad_modification(command) {
            return Ok(Some(rule));
        }
        if let Some(rule) = bad_period(command) {
            return Ok(Some(rule));
        }
        Ok(self.rule_of_ids(drafter, command)?)
    }

    fn rule_of_ids(&self, drafter: &Drafter, command: &Command) -> Result<Option<Rule>, Memory>
        ensures { IfOk result (λ rule. rule ≡ verdicts.rule_of_ids self.now.entries drafter.now command.now) }
    {
        if let Some(rule) = self.unknown_modification(drafter, command) {
            return Ok(Some(rule));
        }
        if let Some(rule) = self.already_withdrawn(command) {
            return Ok(Some(rule));
        }
        if let Some(rule) = self.not_withdrawn(command) {
            return Ok(Some(rule));
        }
        if let Some(rule) = self.wrong_kind(command) {
            return Ok(Some(rule));
        }
        Ok(self.rule_of_drafts(drafter, command)?)
    }

    fn rule_of_drafts(&self, drafter: &Drafter, command: &Command) -> Result<Option<Rule>, Memory>
        ensures { IfOk result (λ rule. rule ≡ verdicts.rule_of_drafts self.now.entries drafter.now command.now) }
    {
        if let Some(rule) = self.stale(command) {
            return Ok(Some(rule));
        }
        if let Some(rule) = self.empty_draft(drafter, command)? {
            return Ok(Some(rule));
        }
        if let Some(rule) = self.draft_full(drafter, command) {
            return Ok(Some(rule));
        }
        if let Some(rule) = self.work_full(drafter, command) {
            return Ok(Some(rule));
        }
        if let Some(rule) = self.law_full(command) {
            return Ok(Some(rule));
        }
        Ok(self.register_full(drafter, command))
    }

    pub(crate) fn reply_to(&self, drafter: &Drafter, command: &Command) -> Reply
        ensures { result ≡ verdicts.reply_to self.now.entries drafter.now command.now }
    {
        match command {
            Command::DraftAdd { .. } => Reply::Draft(self.added(drafter) + 1),
            Command::DraftDrop { item } => Reply::Draft(*item),
            _ => Reply::Law(self.front() + 1),
        }
    }

    fn law_number(&self, command: &Command) -> Option<u32>
        ensures { result ≡ verdicts.law_number self.now.entries command.now }
    {
        match command {
            Command::DraftAdd { .. } => None,
            Command::DraftDrop { .. } => None,
            _ => Some(self.front() + 1),
        }
    }

    fn drafters_full(&self, drafter: &Drafter) -> Option<Rule>
        ensures { result ≡ verdicts.drafters_full self.now.entries drafter.now }
    {
        let full = self.drafter_count() >= usize::from(MOST_DRAFTERS);
        (full && !self.has_drafter(drafter)).then_some(Rule::DraftersFull(MOST_DRAFTERS))
    }

    fn unknown_in(&self, work: &WorkName) -> Result<Option<Rule>, Memory>
        ensures { IfOk result (λ rule. rule ≡ verdicts.unknown_in (laws self.now.entries) work.now) }
    {
        match self.enacted(work) {
            Some(_) => Ok(None),
            None => Ok(Some(Rule::UnknownWork(work.copy()?))),
        }
    }

    fn unknown_work(&self, command: &Command) -> Result<Option<Rule>, Memory>
        ensures { IfOk result (λ rule. rule ≡ verdicts.unknown_work (laws self.now.entries) command.now) }
    {
        match command {
            Command::Record { work, .. } => Ok(self.unknown_in(work)?),
            Command::DraftAdd { work, .. } => Ok(self.unknown_in(work)?),
            Command::File { work, .. } => Ok(self.unknown_in(work)?),
            _ => Ok(None),
        }
    }

    fn work_exists(&self, command: &Command) -> Option<Rule>
        ensures { result ≡ verdicts.work_exists (laws self.now.entries) command.now }
    {
        match command {
            Command::Enact { act } => self.enacted(&act.work).map(Rule::WorkExists),
            _ => None,
        }
    }

    fn unknown_id(&self, id: Id) -> Option<Rule>
        ensures { result ≡ verdicts.unknown_id (laws self.now.entries) id }
    {
        let Id { law, item } = id;
        let item = u32::from(item);
        self.standing(id)
            .is_none()
            .then_some(Rule::UnknownModification { law, item })
    }

    fn is_of(&self, work: &WorkName, id: Id) -> bool
        ensures { result ≡ is_of work.now (facts_of id (laws self.now.entries)) }
    {
        self.work_of(id).is_some_and(|own| own == work)
    }

    fn unknown_thing(&self, work: &WorkName, thing: &Destination) -> Option<Rule>
        ensures { result ≡ verdicts.unknown_thing (laws self.now.entries) work.now thing.now }
    {
        match thing {
            Destination::Modification(id) => {
                let (law, item) = (id.law, u32::from(id.item));
                (!self.is_of(work, *id)).then_some(Rule::UnknownModification { law, item })
            }
            Destination::Node(_) => None,
        }
    }

    fn unknown_destination(&self, work: &WorkName, body: &Modification) -> Option<Rule>
        ensures { result ≡ verdicts.unknown_destination (laws self.now.entries) work.now body.now }
    {
        match body {
            Modification::Textual { .. } => None,
            Modification::Force { destination, .. } => self.unknown_thing(work, destination),
            Modification::Efficacy { destination, .. } => self.unknown_thing(work, destination),
        }
    }

    fn unknown_item(&self, work: &WorkName, mods: &[Modification]) -> Option<Rule>
        ensures { result ≡ verdicts.first_item
            (λ number m. verdicts.unknown_destination (laws self.now.entries) work.now m) 1 mods.now }
    {
        for body in mods {
            if let Some(rule) = self.unknown_destination(work, body) {
                return Some(rule);
            }
        }
        None
    }

    fn unknown_correction(&self, id: Id, body: &Modification) -> Option<Rule>
        ensures { result ≡ option_or (verdicts.unknown_id (laws self.now.entries) id)
            (verdicts.unknown_for (laws self.now.entries) (facts_of id (laws self.now.entries)) body.now) }
    {
        match self.work_of(id) {
            Some(work) => self.unknown_destination(work, body),
            None => self.unknown_id(id),
        }
    }

    fn unknown_draft_item(&self, drafter: &Drafter, item: u32) -> Option<Rule>
        ensures { result ≡ verdicts.unknown_item item (draft_of drafter.now self.now.entries) }
    {
        let rule = Rule::UnknownModification { law: 0, item };
        (!self.has_item(drafter, item)).then_some(rule)
    }

    fn unknown_modification(&self, drafter: &Drafter, command: &Command) -> Option<Rule>
        ensures { result ≡ verdicts.unknown_modification (laws self.now.entries)
            (draft_of drafter.now self.now.entries) command.now }
    {
        match command {
            Command::Record { work, mods } => self.unknown_item(work, mods.as_slice()),
            Command::Correct { id, body } => self.unknown_correction(*id, body),
            Command::Withdraw { id } => self.unknown_id(*id),
            Command::Restore { id } => self.unknown_id(*id),
            Command::DraftAdd { work, body } => self.unknown_destination(work, body),
            Command::DraftDrop { item } => self.unknown_draft_item(drafter, *item),
            _ => None,
        }
    }

    fn already_withdrawn(&self, command: &Command) -> Option<Rule>
        ensures { result ≡ verdicts.already_withdrawn (laws self.now.entries) command.now }
    {
        match command {
            Command::Withdraw { id } => match self.standing(*id) {
                Some(Standing::Withdrawn(number)) => Some(Rule::AlreadyWithdrawn(number)),
                Some(Standing::Live) | None => None,
            },
            _ => None,
        }
    }

    fn not_withdrawn(&self, command: &Command) -> Option<Rule>
        ensures { result ≡ verdicts.not_withdrawn (laws self.now.entries) command.now }
    {
        match command {
            Command::Restore { id } => match self.standing(*id) {
                Some(Standing::Live) => Some(Rule::NotWithdrawn(*id)),
                Some(Standing::Withdrawn(_)) | None => None,
            },
            _ => None,
        }
    }

    fn is_kind(&self, kind: Kind, id: Id) -> bool
        ensures { result ≡ verdicts.is_kind kind (facts_of id (laws self.now.entries)) }
    {
        self.kind_of(id).map_or(true, |own| own == kind)
    }

    fn wrong_thing(&self, thing: &Destination) -> Option<Rule>
        ensures { result ≡ verdicts.wrong_thing (laws self.now.entries) thing.now }
    {
        match thing {
            Destination::Modification(id) => {
                (!self.is_kind(Kind::Textual, *id)).then_some(Rule::WrongKind(*id))
            }
            Destination::Node(_) => None,
        }
    }

    fn wrong_destination(&self, body: &Modification) -> Option<Rule>
        ensures { result ≡ verdicts.wrong_destination (laws self.now.entries) body.now }
    {
        match body {
            Modification::Textual { .. } => None,
            Modification::Force { destination, .. } => self.wrong_thing(destination),
            Modification::Efficacy { destination, .. } => self.wrong_thing(destination),
        }
    }

    fn wrong_item(&self, mods: &[Modification]) -> Option<Rule>
        ensures { result
            ≡ verdicts.first_item (λ number m. verdicts.wrong_destination (laws self.now.entries) m) 1 mods.now }
    {
        for body in mods {
            if let Some(rule) = self.wrong_destination(body) {
                return Some(rule);
            }
        }
        None
    }

    fn wrong_correction(&self, id: Id, body: &Modification) -> Option<Rule>
        ensures { result ≡ verdicts.wrong_correction (laws self.now.entries) id body.now }
    {
        if !self.is_kind(body.kind(), id) {
            return Some(Rule::WrongKind(id));
        }
        self.wrong_destination(body)
    }

    fn wrong_kind(&self, command: &Command) -> Option<Rule>
        ensures { result ≡ verdicts.wrong_kind (laws self.now.entries) command.now }
    {
        match command {
            Command::Record { mods, .. } => self.wrong_item(mods.as_slice()),
            Command::Correct { id, body } => self.wrong_correction(*id, body),
            Command::DraftAdd { body, .. } => self.wrong_destination(body),
            _ => None,
        }
    }

    fn stale(&self, command: &Command) -> Option<Rule>
        ensures { result ≡ verdicts.stale (laws self.now.entries) command.now }
    {
        match command {
            Command::File { work, seen } => {
                let last = self.last_on(work);
                (*seen < last).then_some(Rule::Stale(last))
            }
            _ => None,
        }
    }

    fn empty_draft(&self, drafter: &Drafter, command: &Command) -> Result<Option<Rule>, Memory>
        ensures { IfOk result
            (λ rule. rule ≡ verdicts.empty_draft (draft_of drafter.now self.now.entries) command.now) }
    {
        match command {
            Command::File { work, .. } => {
                if self.items_of(drafter, work) == 0 {
                    Ok(Some(Rule::EmptyDraft(work.copy()?)))
                } else {
                    Ok(None)
                }
            }
            _ => Ok(None),
        }
    }

    fn draft_full(&self, drafter: &Drafter, command: &Command) -> Option<Rule>
        ensures { result ≡ verdicts.draft_full (draft_of drafter.now self.now.entries) command.now }
    {
        match command {
            Command::DraftAdd { .. } => {
                let full = self.draft_len(drafter) >= usize::from(MOST_DRAFT_ITEMS);
                full.then_some(Rule::DraftFull(MOST_DRAFT_ITEMS))
            }
            _ => None,
        }
    }

    fn full_with(&self, work: &WorkName, more: usize) -> Option<Rule>
        ensures { result ≡ verdicts.full_with (laws self.now.entries) work.now more }
    {
        let count = u64::from(self.id_count(work));
        let full = more > usize::from(MOST_IDS) || count + more as u64 > u64::from(MOST_IDS);
        full.then_some(Rule::WorkFull(MOST_IDS))
    }

    fn work_full(&self, drafter: &Drafter, command: &Command) -> Option<Rule>
        ensures { result
            ≡ verdicts.work_full (laws self.now.entries) (draft_of drafter.now self.now.entries) command.now }
    {
        match command {
            Command::Record { work, mods } => self.full_with(work, mods.as_slice().len()),
            Command::File { work, .. } => self.full_with(work, self.items_of(drafter, work)),
            _ => None,
        }
    }

    fn law_full(&self, command: &Command) -> Option<Rule>
        ensures { result ≡ verdicts.law_full self.now.entries command.now }
    {
        (is_law(command) && self.front() >= MOST_LAWS).then_some(Rule::LawFull(MOST_LAWS))
    }

    fn register_full(&self, drafter: &Drafter, command: &Command) -> Option<Rule>
        ensures { result ≡ verdicts.register_full self.now.entries drafter.now command.now }
    {
        let size = size_of(drafter, command);
        let full = size > MOST_ENTRY_BYTES || self.size() + size > u64::from(MOST_REGISTER_BYTES);
        full.then_some(Rule::RegisterFull(MOST_REGISTER_BYTES))
    }
}
