// What a run did to files, and its questions to the host files.

ghost use Rattle.std.specs.Prelude.{◌≡◌, true, IfOk, IfSome, IfNone};
ghost use Rattle.std.specs.FinMap as finmap;
ghost use Rattle.hostfiles.specs.FileLooks.{no_looks, is_looked, without_ask, IsUnasked};

use crate::journal::Journal;
use crate::looks::{Ask, FileLooks};
use std::alloc::{AllocError, Global};

/// What a run did to files, and its questions to the host files.
#[derive(Drop)]
pub struct Changes {
    /// What the run did to files.
    pub journal: Journal,
    /// The questions that the run asked the host files.
    pub looks: FileLooks,
}

impl Changes {
    /// Creates changes with nothing done and no question asked. Allocates nothing.
    pub fn new(alloc: Global) -> Changes
        ensures own { result.journal.entries ≡ finmap.empty }
        ensures looks { result.looks ≡ no_looks }
    {
        Changes {
            journal: Journal::new(alloc),
            looks: FileLooks::new(alloc),
        }
    }

    /// Returns a copy. It shares the written extents and copies everything else. `Err` means out of memory.
    pub fn snapshot(&self) -> Result<Changes, AllocError>
        ensures { IfOk result (λ c. c ≡ self.now) }
    {
        Ok(Changes {
            journal: self.journal.snapshot()?,
            looks: self.looks.snapshot()?,
        })
    }

    /// Returns whether a question was asked.
    pub fn looked(&self, ask: &Ask) -> bool
        ensures { result ≡ is_looked self.now.looks ask.now }
    {
        self.looks.looked(ask)
    }

    /// Removes and returns one of the questions, or `None` if there are none. What the run did to files is unchanged.
    /// Allocates nothing.
    #[inline(always)]
    pub fn take_look(&mut self) -> Option<Ask>
        ensures there { IfSome result (λ q. is_looked self.old.looks q ≡ true) }
        ensures some { IfSome result (λ q. self.new.looks ≡ without_ask q self.old.looks) }
        ensures none { IfNone result ((self.new.looks ≡ self.old.looks) × IsUnasked self.old.looks) }
        ensures journal { self.new.journal ≡ self.old.journal }
    {
        self.looks.take()
    }
}
