//! OpenRefused: why no connection was opened, or a statement was not run.

ghost use Rattle.std.specs.Prelude.{◌≡◌};
ghost use Rattle.sql_keeper.specs.declared.open_refused.OpenRefused.TheVariants as refusal;
ghost use Rattle.sql_keeper.specs.Openers.{HasCountedRefusal, HasRefusalCause, as_load_fault, told_as, told_opening};

use desk_base::{Failed, LoadFault, count_fault};
use sqlite::{Error, ErrorCode};
use std::alloc::AllocError;
use thiserror::Error;

/// Why no connection was opened, or a statement was not run.
#[derive(Clone, Copy, Debug, PartialEq, Eq, Error)]
pub enum OpenRefused {
    /// SQLite refused it for another cause than memory. A count of such refusals rose.
    #[error("SQLite refused it")]
    Failed,
    /// There was not enough memory.
    #[error("out of memory")]
    Memory,
}

/// Tells what SQLite refused, and counts it unless memory was wanting.
pub(crate) fn refusal_of(error: Error, faults: &mut u64) -> OpenRefused
    ensures told { result ≡ told_as error }
    ensures counted { HasCountedRefusal faults.old faults.new result }
{
    if matches!(error, Error::SqliteFailure(ErrorCode::OutOfMemory)) {
        OpenRefused::Memory
    } else {
        OpenRefused::from(count_fault(faults))
    }
}

/// Tells what an opening answered.
pub(crate) fn opened<C: Drop, L: Drop>(
    answer: Result<C, (Error, L)>,
    faults: &mut u64,
) -> Result<C, OpenRefused>
    ensures told { result ≡ told_opening answer }
    ensures cause { HasRefusalCause faults.old faults.new result }
{
    match answer {
        Ok(connection) => Ok(connection),
        Err((error, _)) => Err(refusal_of(error, faults)),
    }
}

impl From<Failed> for OpenRefused {
    ghost from_gives = { λ _ e. e ≡ refusal.Failed };

    fn from(_: Failed) -> Self {
        OpenRefused::Failed
    }
}

impl From<AllocError> for OpenRefused {
    ghost from_gives = { λ _ e. e ≡ refusal.Memory };

    fn from(_: AllocError) -> Self {
        OpenRefused::Memory
    }
}

impl From<OpenRefused> for LoadFault {
    ghost from_gives = { λ refused e. e ≡ as_load_fault refused };

    fn from(refused: OpenRefused) -> Self {
        match refused {
            OpenRefused::Failed => LoadFault::Failed,
            OpenRefused::Memory => LoadFault::Memory,
        }
    }
}
