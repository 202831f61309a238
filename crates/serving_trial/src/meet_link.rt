//! MeetLink: a link in memory that meets others. Its last byte comes once so many links have begun to be read. A clause sees
//! the link in memory, and a count of the reads that failed.

ghost use Rattle.std.specs.Prelude.{[], IfOk};
ghost use Rattle.desk_gates.specs.Tallies.{IsUnused};

use desk_base::{Failed, Link, Memory, MemoryLink, count_fault};
use std::alloc::Global;
use std::hint;
use std::sync::atomic::{AtomicU64, Ordering};

/// How often a link that waits for others looks whether they have begun. After that it fails.
const MOST_LOOKS: u32 = 100_000_000;

/// How many bytes may be written to a link.
const CAPACITY: usize = 65_536;

/// Bytes in memory as a link, which are given one by one, the last of them once so many links have begun.
#[derive(Drop)]
pub struct MeetLink<'a> {
    link: MemoryLink,
    // How many links have begun, of all that count here.
    begun: &'a AtomicU64,
    meeting: u64,
    // How many bytes are still to be given.
    ahead: usize,
    has_begun: bool,
    faults: u64,
}

// Whether so many links have begun, or do while it is looked.
fn have_met(begun: &AtomicU64, meeting: u64) -> bool {
    for _ in 0..MOST_LOOKS {
        if begun.load(Ordering::SeqCst) >= meeting {
            return true;
        }
        hint::spin_loop();
    }
    false
}

impl<'a> MeetLink<'a> {
    /// A link of these bytes, whose last is given once `meeting` of the links that count here have begun.
    pub fn new(
        alloc: Global,
        bytes: &[u8],
        begun: &'a AtomicU64,
        meeting: u64,
    ) -> Result<MeetLink<'a>, Memory>
        ensures { IfOk result (λ meet. IsUnused (⟦<MemoryLink as Link>⟧.written meet.link) meet.faults
            (⟦<MemoryLink as Link>⟧.write_faults meet.link)) }
    {
        Ok(MeetLink {
            link: MemoryLink::new(alloc, bytes, 1, CAPACITY, &[], &[])?,
            begun,
            meeting,
            ahead: bytes.len(),
            has_begun: false,
            faults: 0,
        })
    }

    /// What is written so far.
    pub fn written(&self) -> &[u8] {
        self.link.written()
    }

    /// Whether some read failed.
    pub fn has_failed(&self) -> bool {
        self.faults > 0
    }
}

impl<'a> Link for MeetLink<'a> {
    ghost left = { λ meet. ⟦<MemoryLink as Link>⟧.left meet.link };

    ghost room = { λ meet. ⟦<MemoryLink as Link>⟧.room meet.link };

    ghost read_faults = { λ meet. meet.faults };

    ghost written = { λ meet. ⟦<MemoryLink as Link>⟧.written meet.link };

    ghost write_faults = { λ meet. ⟦<MemoryLink as Link>⟧.write_faults meet.link };

    ghost origin = { λ meet. [] };

    fn read(&mut self, into: &mut [u8]) -> Result<usize, Failed> {
        if !self.has_begun {
            self.has_begun = true;
            self.begun.fetch_add(1, Ordering::SeqCst);
        }
        if self.ahead == 1 && !have_met(self.begun, self.meeting) {
            return Err(count_fault(&mut self.faults));
        }
        match self.link.read(into) {
            Ok(n) => {
                self.ahead = self.ahead.saturating_sub(n);
                Ok(n)
            }
            Err(Failed) => Err(count_fault(&mut self.faults)),
        }
    }

    fn write_all(&mut self, bytes: &[u8]) -> Result<(), Failed> {
        self.link.write_all(bytes)
    }
}
