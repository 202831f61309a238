//! Pass: a caller's part in the turns.

ghost use Rattle.std.specs.Prelude.{◌≡◌};
ghost use Rattle.turn_lock.specs.Passes.{share_of};

use crate::Held;
use crate::view::View;
use atomic_table::Seat;

/// A caller's part in some turns: what he has seen of the history, and his share of the callers. It is not copied.
#[derive(Drop)]
pub struct Pass<T: Held> {
    pub(crate) share: u16,
    pub(crate) seat: Seat<Option<T>, View<T::Item>>,
}

impl<T: Held> Pass<T> {
    /// For how many callers it stands.
    pub fn share(&self) -> u16
        ensures { result ≡ share_of self.now }
    {
        self.share
    }
}
