//! Notices that are being written.

use crate::{Notice, Notices, OutOfMemory};
use std::alloc::Global;
use std::marker::Model;

/// The notices of one action while they are written. Contracts see the notices so far and how many
/// more there is room for, so that a caller takes all the memory first.
#[derive(Debug, Drop)]
pub struct NoticeDraft {
    notices: Vec<Notice>,
}

impl Model for NoticeDraft {
    ghost use Rattle.std.specs.Prelude.{◌-◌, vec_len, vec_capacity};
    ghost use Rattle.dma_listeners.specs.Drafts.{Draft};

    ghost Value = { Draft };

    ghost view = { λ d. record { notices = d.notices.items; room = vec_capacity d.notices - vec_len d.notices } };
}

impl NoticeDraft {
    ghost use Rattle.std.specs.Prelude.{◌≡◌, ◌+◌, ◌<◌, ◌≤◌, ◌∷◌, [], OnOk};
    ghost use Rattle.dma_listeners.specs.Drafts.{IsWritten};

    /// No notice, and no room. It takes no memory.
    pub fn new(alloc: Global) -> NoticeDraft
        ensures notices { result.notices ≡ [] }
    {
        NoticeDraft {
            notices: Vec::new(alloc),
        }
    }

    /// Makes room for `more` notices, or fails where there is no memory.
    pub fn reserve(&mut self, more: usize) -> Result<(), OutOfMemory>
        ensures room { OnOk result (more ≤ self.new.room) }
        ensures grows { self.old.room ≤ self.new.room }
        ensures notices { self.new.notices ≡ self.old.notices }
    {
        self.notices.reserve(more)?;
        Ok(())
    }

    /// Writes a notice behind the others. There is room for it.
    pub fn push(&mut self, notice: Notice)
        requires { 0 < self.old.room }
        ensures { IsWritten self.old self.new (notice ∷ []) }
    {
        self.notices.push_reserved(notice);
    }

    /// The notices, in order.
    pub fn into_notices(self) -> Notices
        ensures { result ≡ self.notices }
    {
        let NoticeDraft { notices } = self;
        Notices::from_vec(notices)
    }
}
