//! Effect: what a call of a disk in memory that fails does all the same. A clause sees what is held afterwards.

ghost use Rattle.std.specs.Prelude.{◌≡◌, ◌≤◌, take, length};
ghost use Rattle.law_journal.specs.Disks.{Gives};
ghost use Rattle.law_journal.specs.Effects as spec;

use crate::history::History;

/// What a call that fails does before it says so. Once no more changes may be made it does nothing.
#[derive(Clone, Copy, Debug, PartialEq, Eq)]
pub enum Effect {
    /// Nothing.
    Nothing,
    /// A read gives so many bytes at most, a write writes so many, as far as there is room, and a cut cuts off so many; a
    /// sync does nothing.
    Front(usize),
    /// All of it, a write as far as there is room.
    Whole,
}

/// Fills the front of `into` with the bytes from a place on, as many as there are, and says how many.
pub fn fill(bytes: &[u8], place: u64, into: &mut [u8]) -> usize
    ensures given { Gives bytes.now place result into.new }
    ensures fits { result ≤ length into.new }
    ensures filled { into.new ≡ spec.filled place bytes.now into.old }
{
    if place >= bytes.len() as u64 {
        return 0;
    }
    let place = place as usize;
    let count = into.len().min(bytes.len() - place);
    into[..count].copy_from_slice(&bytes[place..place + count]);
    count
}

// So many of the bytes at most.
fn front(bytes: &[u8], most: usize) -> &[u8]
    ensures { result.now ≡ take most bytes.now }
{
    &bytes[..most.min(bytes.len())]
}

// Writes so many of the bytes at most, as far as there is room.
fn write_front(history: &mut History, most: usize, place: usize, new: &[u8])
    requires { place ≤ length history.old.bytes }
    ensures { history.new ≡ spec.front_written most place new.now history.old }
{
    if history.left() == 0 {
        return;
    }
    let fitting = most.min(history.room());
    history.write(place, front(new, fitting));
}

// Cuts to a length, where a change may be made.
fn cut_to(history: &mut History, len: usize)
    ensures { history.new ≡ spec.cut_where_left len history.old }
{
    if history.left() == 0 {
        return;
    }
    history.cut(len);
}

impl Effect {
    /// Does what a failed read of these bytes does.
    pub fn read_part(self, bytes: &[u8], place: u64, into: &mut [u8])
        ensures { into.new ≡ spec.read_by self place bytes.now into.old }
    {
        match self {
            Effect::Nothing => {}
            Effect::Front(most) => {
                let most = most.min(into.len());
                let _given = fill(bytes, place, &mut into[..most]);
            }
            Effect::Whole => {
                let _given = fill(bytes, place, into);
            }
        }
    }

    /// Does what a failed write does.
    pub fn write_part(self, history: &mut History, place: usize, new: &[u8])
        requires { place ≤ length history.old.bytes }
        ensures { history.new ≡ spec.written_by self place new.now history.old }
    {
        match self {
            Effect::Nothing => {}
            Effect::Front(most) => write_front(history, most, place, new),
            Effect::Whole => write_front(history, new.len(), place, new),
        }
    }

    /// Does what a failed cut does.
    pub fn cut_part(self, history: &mut History, len: usize)
        ensures { history.new ≡ spec.cut_by self len history.old }
    {
        match self {
            Effect::Nothing => {}
            Effect::Front(most) => {
                let least = history.bytes().len().saturating_sub(most);
                cut_to(history, len.max(least));
            }
            Effect::Whole => cut_to(history, len),
        }
    }

    /// Does what a failed sync does.
    pub fn sync_part(self, history: &mut History)
        ensures { history.new ≡ spec.synced_by self history.old }
    {
        if self == Effect::Whole && history.left() > 0 {
            history.sync();
        }
    }
}
