//! The entries of the order, with where they stand.
ghost use Rattle.std.specs.Prelude.{◌≡◌};
ghost use Rattle.bl_replay.specs.Kept.{entry_told};

use bl_monitor::monitor::Entry;
use bl_policy::id::SubjectId;
use bl_work::work::Work;
use std::alloc::AllocError;

/// Where an entry stands.
#[derive(Clone, Copy, Debug, PartialEq, Eq)]
pub enum Stand {
    /// It has not begun.
    Waiting,
    /// It runs.
    Running,
    /// It has ended with its answer.
    Ended,
    /// It has ended as lost.
    Lost,
}

/// Where an entry comes from.
#[derive(Clone, Copy)]
pub enum Origin {
    /// A line of a session that speaks for the subject.
    Line { subject: SubjectId },
    /// The which-th child of an earlier entry, counted from 1.
    Child { parent: u32, which: u32 },
}

/// An entry of the order. Its work is that of the line that it descends from.
#[derive(Drop)]
pub struct Place {
    pub origin: Origin,
    pub work: Work,
    /// The number of its behaviour in the script of the work; 0 for a rule.
    pub index: u8,
    pub stand: Stand,
}

impl Place {
    ghost use Rattle.std.specs.Prelude.{◌≡◌, IfOk};
    ghost use Rattle.bl_order.specs.Order.{is_rule};
    ghost use Rattle.bl_replay.specs.Kept.{entry_told, task_in};

    /// What a monitor is told of the entry. An error comes only where a growth is refused.
    pub fn told(&self, lost: bool) -> Result<Entry, AllocError>
        ensures { IfOk result (λ entry. entry ≡ entry_told self.now lost) }
    {
        match self.origin {
            Origin::Line { subject } => Ok(Entry::Line {
                subject,
                work: self.work.share()?,
                lost,
            }),
            Origin::Child { parent, which } => Ok(Entry::Child {
                parent,
                which,
                lost,
            }),
        }
    }

    /// Whether the entry is a rule.
    pub fn is_rule(&self) -> bool
        ensures { result ≡ is_rule (task_in self.now) }
    {
        match &self.work {
            Work::Behaviour(_) => false,
            Work::Rule(_) => true,
        }
    }
}
