//! TrialKeeper: a keeper in memory that may tell damage once it was opened. So contracts know nothing of its list.

ghost use Rattle.std.specs.Prelude.{◌≡◌, ◌≢◌, true};
ghost use Rattle.law_keeper.specs.declared.readiness.Readiness.TheVariants.{Unopened};
ghost use Rattle.desk_trial.specs.Untold as spec;

use crate::settings::Failing;
use desk_base::{LoadFault, Memory};
use law_keeper::{KeepFault, Keeper, MapKeeper};
use std::alloc::Global;

/// Payloads in memory, some of whose calls fail. Where it is to tell damage, it does so in the place of each failure of an opening or of a
/// load once it has been opened.
#[derive(Drop)]
pub struct TrialKeeper {
    held: MapKeeper,
    opened: bool,
    tells_damage: bool,
    ghost was_opened: { opened ≡ true → held.readiness ≢ Unopened },
}

// What is told of an answer: damage in the place of a failure, where that is wanted.
fn told_as<T: Drop>(answer: Result<T, LoadFault>, as_damage: bool) -> Result<T, LoadFault>
    ensures { spec.IsToldAs as_damage answer result }
{
    match answer {
        Ok(value) => Ok(value),
        Err(LoadFault::Failed) => {
            if as_damage {
                Err(LoadFault::Damaged {
                    place: 0,
                    byte: None,
                })
            } else {
                Err(LoadFault::Failed)
            }
        }
        Err(fault) => Err(fault),
    }
}

impl TrialKeeper {
    /// A keeper with no payload. Its calls of the numbers in `failing`, counted from 1, fail in this manner.
    pub fn new(alloc: Global, failing: &[u64], manner: Failing) -> Result<TrialKeeper, Memory> {
        let held = if manner == Failing::Kept {
            MapKeeper::keeping(alloc, failing)?
        } else {
            MapKeeper::new(alloc, failing)?
        };
        Ok(TrialKeeper {
            held,
            opened: false,
            tells_damage: manner == Failing::Damaged,
        })
    }
}

impl Keeper for TrialKeeper {
    ghost use Rattle.desk_trial.specs.Untold.{untold, untold_is};

    ghost holding = { λ _. untold };

    ghost readiness = { λ keeper. keeper.held.readiness };

    ghost faults = { λ keeper. keeper.held.faults };

    fn load(&mut self, cursor: u64, into: &mut Vec<u8>) -> Result<Option<u64>, LoadFault> {
        let loaded = self.held.load(cursor, into);
        told_as(loaded, self.tells_damage)
    }

    fn append(&mut self, alloc: Global, payload: &[u8]) -> Result<u64, KeepFault> {
        self.held.append(alloc, payload)
    }

    fn reopen(&mut self, alloc: Global) -> Result<(), LoadFault> {
        let opening = told_as(self.held.reopen(alloc), self.opened && self.tells_damage);
        self.opened |= opening.is_ok();
        opening
    }

    ghost is_holding = { λ _. untold_is };
}
