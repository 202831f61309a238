//! SharedList: values in order, in memory that their copies share. A clause sees them as a list.

ghost use Rattle.std.specs.Prelude.{◌≡◌, IfOk};

use crate::RefList;
use desk_base::Memory;
use std::alloc::Global;
use std::marker::Model;
use std::sync::Arc;

/// Values that their copies share: a copy costs a count, and no value. They are never changed.
#[derive(Debug, Drop)]
pub struct SharedList<T: Drop> {
    list: Arc<RefList<T>>,
}

impl<T: Drop> Model for SharedList<T> {
    ghost use Rattle.std.specs.Prelude.{List};
    ghost use Rattle.std.specs.Arc.{arc_value};
    ghost use Rattle.std.specs.Coded.{coded_list};

    ghost Value = { List T };

    ghost coded = { coded_list T.code };

    ghost view = { λ s. arc_value s.list };
}

impl<T: Drop> SharedList<T> {
    /// The values, behind a count.
    pub fn new(alloc: Global, list: RefList<T>) -> Result<SharedList<T>, Memory>
        ensures { IfOk result (λ shared. shared ≡ list) }
    {
        Ok(SharedList {
            list: Arc::new(alloc, list)?,
        })
    }

    /// The same values, shared.
    pub fn copy(&self) -> Result<SharedList<T>, Memory>
        ensures { IfOk result (λ shared. shared ≡ self.now) }
    {
        Ok(SharedList {
            list: self.list.clone()?,
        })
    }

    /// The values as a slice.
    pub fn as_slice(&self) -> &[T]
        ensures { result.now ≡ self.now }
    {
        self.list.as_slice()
    }
}
