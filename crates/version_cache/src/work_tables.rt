//! WorkTables: what is kept of an enacted work. A clause sees what is known of it by itself, the days on which its text may change, and
//! its tables in both readings (`work_view`).

ghost use Rattle.std.specs.Prelude.{◌≡◌, ◌+◌, ◌-◌, ◌^◌, ◌≤◌, IfOk, Some, length, min, option_map};
ghost use Rattle.act_tree.specs.Seen.{tree_view};
ghost use Rattle.law_register.specs.declared.register.known.Known.{Known as KnownValue};
ghost use Rattle.law_register.specs.Answer.Breakpoints.{breakpoints};
ghost use Rattle.law_register.specs.Answer.Costs.{revision_cost};
ghost use Rattle.law_register.specs.Answer.Renewing.{both_costs};
ghost use Rattle.law_register.specs.Answer.Replay.{as_enacted, replay_on};
ghost use Rattle.law_register.specs.Answer.Soundness.{IsSound};
ghost use Rattle.law_register.specs.Answer.Versions.{version_view};
ghost use Rattle.version_cache.specs.Seen.{both_view, revision_view, table_view, work_revision_view, work_view};
ghost use Rattle.version_cache.specs.Tables.{revision_of, table_of, version_on};
ghost use Rattle.version_cache.specs.Works as works;

use crate::calendar::{days_are_counted, rows_are_counted};
use crate::sharing::has_efficacy;
use crate::{Revision, Table, WorkRevision};
use desk_base::{Day, Memory, Steps};
use law_register::{Days, Known, Reading, Replayer, Version};
use std::alloc::Global;
use std::sync::ledger::Ledger;

/// What a desk keeps of an enacted work: what is known of it at the front by itself, the days on which its text may change, and its
/// versions by day in both readings.
#[derive(Debug, Drop)]
pub struct WorkTables {
    pub(crate) known: Known,
    pub(crate) names: bool,
    pub(crate) days: Days,
    pub(crate) force: Table,
    pub(crate) efficacy: Table,
}

// The table of efficacy, which shares the versions of that of force where both readings give the same.
fn make_efficacy<P: Replayer, L: Ledger>(
    alloc: Global,
    replayer: &P,
    known: &Known,
    days: &[Day],
    force: &Table,
    steps: &mut Steps<L>,
) -> Result<Table, Memory>
    requires sound { IsSound known.now }
    requires days { days.now ≡ breakpoints known.now }
    requires force { table_view force.now ≡ table_of known.now Reading.Force }
    ensures table { IfOk result (λ table. table_view table ≡ table_of known.now Reading.Efficacy) }
    ensures steps { steps.new ≤ steps.old + revision_cost known.now Reading.Efficacy 0 }
{
    if has_efficacy(known.mods.as_slice()) {
        Table::make_on(alloc, replayer, known, Reading::Efficacy, days, steps)
    } else {
        force.share_in(alloc, Reading::Efficacy)
    }
}

// The days on which the text may change, and the tables of force and of efficacy.
fn make_all<P: Replayer, L: Ledger>(
    alloc: Global,
    replayer: &P,
    known: &Known,
    steps: &mut Steps<L>,
) -> Result<(Days, Table, Table), Memory>
    requires { IsSound known.now }
    ensures days { IfOk result (λ made. made.0 ≡ breakpoints known.now) }
    ensures force { IfOk result (λ made. table_view made.1 ≡ table_of known.now Reading.Force) }
    ensures efficacy { IfOk result (λ made. table_view made.2 ≡ table_of known.now Reading.Efficacy) }
    ensures steps { steps.new ≤ steps.old + both_costs known.now (Some 0) }
{
    let days = replayer.breakpoints(alloc, known)?;
    let on = days.as_slice();
    let force = Table::make_on(alloc, replayer, known, Reading::Force, on, steps)?;
    let efficacy = make_efficacy(alloc, replayer, known, on, &force, steps)?;
    Ok((days, force, efficacy))
}

impl WorkTables {
    /// What is to be kept of a work of which this is known.
    pub fn make<P: Replayer, L: Ledger>(
        alloc: Global,
        replayer: &P,
        known: Known,
        steps: &mut Steps<L>,
    ) -> Result<WorkTables, Memory>
        requires { IsSound known }
        ensures made { IfOk result (λ made. work_view made ≡ works.work_of known) }
        ensures right { IfOk result (λ made. works.IsFor known (work_view made)) }
        ensures steps { steps.new ≤ steps.old + both_costs known (Some 0) }
    {
        match make_all(alloc, replayer, &known, steps) {
            Ok((days, force, efficacy)) => Ok(WorkTables {
                names: known.names_any(),
                known: known.alone(),
                days,
                force,
                efficacy,
            }),
            Err(Memory) => {
                drop(known);
                Err(Memory)
            }
        }
    }

    /// What is known of the work by itself.
    pub fn known(&self) -> &Known
        ensures { result.now ≡ (work_view self.now).known }
    {
        &self.known
    }

    /// Whether a modification of it names a provision.
    pub fn names_any(&self) -> bool
        ensures { result ≡ (work_view self.now).names }
    {
        self.names
    }

    /// The days on which its text may change, ascending.
    pub fn days(&self) -> &[Day]
        ensures { result.now ≡ (work_view self.now).days }
    {
        self.days.as_slice()
    }

    /// Its table in a reading.
    pub fn table(&self, reading: Reading) -> &Table
        ensures { table_view result.now ≡ works.table_in reading (work_view self.now) }
    {
        match reading {
            Reading::Force => &self.force,
            Reading::Efficacy => &self.efficacy,
        }
    }

    /// The version of a day, in a reading. It takes no memory.
    pub fn on(&self, reading: Reading, day: Day) -> &Version
        ensures version { version_view result.now ≡ version_on (works.table_in reading (work_view self.now)) day }
        ensures replay { (known : KnownValue) → works.IsFor known (work_view self.now)
            → version_view result.now ≡ replay_on known reading day }
        ensures changes { (tree_view result.now.tree).changes ≡ min (length result.now.applied) (2 ^ 64 - 1) }
    {
        self.table(reading).on(day)
    }

    /// The act as enacted. It takes no memory.
    pub fn enacted(&self) -> &Version
        ensures version { version_view result.now ≡ (work_view self.now).force.enacted }
        ensures right { (known : KnownValue) → works.IsFor known (work_view self.now)
            → version_view result.now ≡ as_enacted known.act }
    {
        self.force.enacted.version()
    }

    // The revision of the table of force.
    fn revise_force<P: Replayer, L: Ledger>(
        &mut self,
        alloc: Global,
        replayer: &P,
        known: &Known,
        days: &[Day],
        day: Day,
        steps: &mut Steps<L>,
    ) -> Result<Revision, Memory>
        requires sound { IsSound known.now }
        requires days { days.now ≡ breakpoints known.now }
        requires right { works.AreRightUntil known.now (Some day) (work_view self.old) }
        ensures same { work_view self.new ≡ work_view self.old }
        ensures revision { IfOk result
            (λ revision. revision_view revision ≡ revision_of (work_view self.old).force known.now day) }
        ensures steps { steps.new ≤ steps.old + revision_cost known.now Reading.Force day }
    {
        self.force
            .revise_on(alloc, replayer, known, days, day, steps)
    }

    // The revision of the table of efficacy, which shares the versions of that of force where both readings give the same.
    fn revise_efficacy<P: Replayer, L: Ledger>(
        &mut self,
        alloc: Global,
        replayer: &P,
        known: &Known,
        days: &[Day],
        day: Day,
        force: &Revision,
        steps: &mut Steps<L>,
    ) -> Result<Revision, Memory>
        requires sound { IsSound known.now }
        requires days { days.now ≡ breakpoints known.now }
        requires right { works.AreRightUntil known.now (Some day) (work_view self.old) }
        requires force { revision_view force.now ≡ revision_of (work_view self.old).force known.now day }
        ensures same { work_view self.new ≡ work_view self.old }
        ensures revision { IfOk result
            (λ revision. revision_view revision ≡ revision_of (work_view self.old).efficacy known.now day) }
        ensures steps { steps.new ≤ steps.old + revision_cost known.now Reading.Efficacy day }
    {
        if has_efficacy(known.mods.as_slice()) {
            self.efficacy
                .revise_on(alloc, replayer, known, days, day, steps)
        } else {
            self.efficacy.revise_like(alloc, force)
        }
    }

    fn revise_both<P: Replayer, L: Ledger>(
        &mut self,
        alloc: Global,
        replayer: &P,
        known: &Known,
        days: &[Day],
        touched: Option<Day>,
        steps: &mut Steps<L>,
    ) -> Result<Option<(Revision, Revision)>, Memory>
        requires sound { IsSound known.now }
        requires days { days.now ≡ breakpoints known.now }
        requires right { works.AreRightUntil known.now touched (work_view self.old) }
        ensures same { work_view self.new ≡ work_view self.old }
        ensures revisions { IfOk result (λ tables. option_map both_view tables
            ≡ works.revisions_of (work_view self.old) known.now touched) }
        ensures steps { steps.new ≤ steps.old + both_costs known.now touched }
    {
        let Some(day) = touched else {
            return Ok(None);
        };
        let force = self.revise_force(alloc, replayer, known, days, day, steps)?;
        let efficacy = self.revise_efficacy(alloc, replayer, known, days, day, &force, steps)?;
        Ok(Some((force, efficacy)))
    }

    // Where the tables are right on each day of the calendar before the touched one, so they are on the day 0: no row begins then, and no
    // text changes.
    fn are_right_before(&self, known: &Known, days: &[Day], _touched: &Option<Day>)
        requires sound { IsSound known.now }
        requires days { days.now ≡ breakpoints known.now }
        requires right { works.AreRightEarly known.now _touched.now (work_view self.now) }
        ensures { works.AreRightUntil known.now _touched.now (work_view self.now) }
    {
        let _ = known;
        days_are_counted(days);
        rows_are_counted(&self.force);
        rows_are_counted(&self.efficacy);
    }

    // The days on which the text may change now, and the revisions of both tables.
    fn revise_all<P: Replayer, L: Ledger>(
        &mut self,
        alloc: Global,
        replayer: &P,
        known: &Known,
        touched: Option<Day>,
        steps: &mut Steps<L>,
    ) -> Result<(Days, Option<(Revision, Revision)>), Memory>
        requires sound { IsSound known.now }
        requires right { works.AreRightEarly known.now touched (work_view self.old) }
        ensures same { work_view self.new ≡ work_view self.old }
        ensures right { IfOk result (λ made. works.AreRightUntil known.now touched (work_view self.old)) }
        ensures days { IfOk result (λ made. made.0 ≡ breakpoints known.now) }
        ensures revisions { IfOk result (λ made. option_map both_view made.1
            ≡ works.revisions_of (work_view self.old) known.now touched) }
        ensures steps { steps.new ≤ steps.old + both_costs known.now touched }
    {
        let days = replayer.breakpoints(alloc, known)?;
        self.are_right_before(known, days.as_slice(), &touched);
        let tables = self.revise_both(alloc, replayer, known, days.as_slice(), touched, steps)?;
        Ok((days, tables))
    }

    /// What is to be kept for what is known now, where the tables are right for that on each day before the touched one: both revised
    /// from that day on. Where no day is touched the tables stay, and what is known is renewed. What is kept stays until the revision is
    /// committed.
    pub fn revise<P: Replayer, L: Ledger>(
        &mut self,
        alloc: Global,
        replayer: &P,
        known: Known,
        touched: Option<Day>,
        steps: &mut Steps<L>,
    ) -> Result<WorkRevision, Memory>
        requires sound { IsSound known }
        requires right { works.AreRightEarly known touched (work_view self.old) }
        ensures same { work_view self.new ≡ work_view self.old }
        ensures revision { IfOk result (λ revision. work_revision_view revision
            ≡ works.work_revision_of (work_view self.old) known touched) }
        ensures fits { IfOk result
            (λ revision. works.AreRevisionsOf (work_view self.old) (work_revision_view revision).tables) }
        ensures right { IfOk result
            (λ revision. works.IsFor known (works.renewed (work_view self.old) (work_revision_view revision))) }
        ensures steps { steps.new ≤ steps.old + both_costs known touched }
    {
        match self.revise_all(alloc, replayer, &known, touched, steps) {
            Ok((days, tables)) => Ok(WorkRevision {
                names: known.names_any(),
                known: known.alone(),
                days,
                tables,
            }),
            Err(Memory) => {
                drop(known);
                Err(Memory)
            }
        }
    }

    /// Takes a revision that was made from these tables. It takes no memory.
    pub fn commit(&mut self, revision: WorkRevision)
        requires { works.AreRevisionsOf (work_view self.old) (work_revision_view revision).tables }
        ensures { work_view self.new ≡ works.renewed (work_view self.old) (work_revision_view revision) }
    {
        let WorkRevision {
            known,
            names,
            days,
            tables,
        } = revision;
        if let Some((force, efficacy)) = tables {
            self.force.commit(force);
            self.efficacy.commit(efficacy);
        }
        self.known = known;
        self.names = names;
        self.days = days;
    }

    /// The version that `on` gives once a revision is committed, if there is one. It takes no memory.
    pub fn on_after<'a>(
        &'a self,
        revision: Option<&'a WorkRevision>,
        reading: Reading,
        day: Day,
    ) -> &'a Version
        requires { works.IsRevisionIf (work_view self.now) (option_map (λ r. work_revision_view r.now) revision) }
        ensures version { let taken = option_map (λ r. work_revision_view r.now) revision.entry in
            version_view result.now ≡ version_on (works.table_in reading (works.renewed_if (work_view self.now) taken)) day }
        ensures replay { let taken = option_map (λ r. work_revision_view r.now) revision.entry in
            (known : KnownValue) → works.IsFor known (works.renewed_if (work_view self.now) taken)
            → version_view result.now ≡ replay_on known reading day }
        ensures changes { (tree_view result.now.tree).changes ≡ min (length result.now.applied) (2 ^ 64 - 1) }
    {
        match revision {
            Some(
                WorkRevision {
                    tables: Some((force, efficacy)),
                    ..
                },
            ) => match reading {
                Reading::Force => self.force.on_after(force, day),
                Reading::Efficacy => self.efficacy.on_after(efficacy, day),
            },
            _ => self.on(reading, day),
        }
    }
}
