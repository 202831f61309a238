//! Walks over the list of a keeper.

ghost use Rattle.std.specs.Prelude.{◌≡◌, ◌≢◌, IfOk, IfErr, OnOk};
ghost use Rattle.law_journal.specs.Journals.{IsNoDamage};
ghost use Rattle.law_keeper.specs.declared.readiness.Readiness.TheVariants.{Unopened, Ready};
ghost use Rattle.law_keeper.specs.Keepers as spec;
ghost use Rattle.law_keeper.specs.Keepers.{IsSettled};

use crate::Keeper;
use desk_base::LoadFault;
use std::alloc::Global;

/// The payloads of a keeper that is ready, in order.
pub fn payloads<K: Keeper>(alloc: Global, keeper: &mut K) -> Result<Vec<Vec<u8>>, LoadFault>
    requires ready { K.readiness keeper.old ≡ Ready }
    requires settled { IsSettled (K.holding keeper.old) }
    ensures listed { IfOk result (spec.IsListOf (K.holding keeper.old)) }
    ensures no_damage { (K.holding keeper.old).tells → IfErr result IsNoDamage }
    ensures same { spec.Keeps (K.holding keeper.old) (K.holding keeper.new) }
    ensures crash { spec.LeavesNoMore (K.holding keeper.old) (K.holding keeper.new) }
    ensures ready { K.readiness keeper.new ≡ spec.after_load result }
    ensures cause { spec.HasReadCause Ready (K.faults keeper.old) (K.faults keeper.new) result }
{
    let mut all = Vec::new(alloc);
    let mut payload = Vec::new(alloc);
    let mut cursor = 0;
    'walk: while let Some(next) = keeper.load(cursor, &mut payload)? {
        let kept = Vec::from_slice(alloc, payload.as_slice())?;
        all.push(kept)?;
        cursor = next;
    }
    Ok(all)
}

/// Opens a keeper again after the append of a payload at the end of its list may have failed, and says whether the
/// payload was kept: with the cursor behind it, or None.
pub fn settle<K: Keeper>(
    alloc: Global,
    keeper: &mut K,
    end: u64,
    payload: &[u8],
) -> Result<Option<u64>, LoadFault>
    requires { K.readiness keeper.old ≢ Unopened }
    ensures found { IfOk result (spec.IsFound (K.holding keeper.old) end payload.now (K.holding keeper.new)) }
    ensures same { spec.Keeps (K.holding keeper.old) (K.holding keeper.new) }
    ensures crash { spec.LeavesOldOrSame (K.holding keeper.old) (K.holding keeper.new) }
    ensures ready { OnOk result (K.readiness keeper.new ≡ Ready) }
    ensures settled { K.readiness keeper.new ≡ Ready → IsSettled (K.holding keeper.new) }
    ensures opened { K.readiness keeper.new ≢ Unopened }
    ensures cause { spec.HasReadCause Ready (K.faults keeper.old) (K.faults keeper.new) result }
{
    keeper.reopen(alloc)?;
    let mut found = Vec::new(alloc);
    let Some(next) = keeper.load(end, &mut found)? else {
        return Ok(None);
    };
    if found.as_slice() == payload {
        Ok(Some(next))
    } else {
        Ok(None)
    }
}
