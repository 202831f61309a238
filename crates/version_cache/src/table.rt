//! Table: the versions of a work in one reading, each with the day on which it begins. A clause sees its reading, the act as
//! enacted, and its rows (`table_view`).

ghost use Rattle.std.specs.Prelude.{◌≡◌, true};
ghost use Rattle.version_cache.specs.Days.{is_ascending};
ghost use Rattle.version_cache.specs.Rows.{days_in, kept_view, rows_view};
ghost use Rattle.version_cache.specs.Tables.{last_version};
ghost use Rattle.version_cache.specs.Working.{IsWorking, IsWorking-prop};

use crate::Row;
use crate::kept_version::KeptVersion;
use law_register::{Reading, Version};

/// The versions of a work by day, in one reading. Before its first row the text is the act as enacted. Once it was revised it has a
/// working version, from which the next revision goes on where all rows stay.
#[derive(Debug, Drop)]
pub struct Table {
    pub(crate) reading: Reading,
    pub(crate) enacted: KeptVersion,
    pub(crate) rows: Vec<Row>,
    pub(crate) working: Option<Version>,
    ghost ascending: { is_ascending (days_in rows.items) ≡ true },
    ghost goes_on: { IsWorking (last_version (kept_view enacted) (rows_view rows.items)) working } by { IsWorking-prop (last_version (kept_view enacted) (rows_view rows.items)) working },
}
